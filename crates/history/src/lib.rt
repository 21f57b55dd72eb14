//! What any string of calls of a receiver shows, judged by the calls, their runs and their answers alone.
//!
//! A caller lists the calls of two boards and lends the lists to [`trial::trial`], which makes the calls on two receivers and
//! enters the answers. Its clause `law` holds of every list, so that it is a law about every way in which two boards can be used.
#![tactic(auto)]

pub mod call;
mod make;
#[cfg(test)]
mod tests;
pub mod trial;
