//! An erasure code over blocks of packets, over any arithmetic: fill the parity of a block, check it, repair it.
//!
//! ```
//! let code = Code::<Nibble>::new(&shape)?;
//! code.encode(&source, &mut parity)?;
//! code.repair(&mut block, &LossList::new(&shape, &[0, 2])?, &mut work)?;
//! ```
#![tactic(auto)]

pub mod block;
pub mod code;
pub mod fits;
mod matrix;
mod packet;
mod solver;
mod subsets;
#[cfg(test)]
mod tests;
