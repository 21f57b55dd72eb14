//! How a transmission is laid out: its shape, and the lost positions of a block.
//!
//! ```
//! let shape = Shape::new::<Nibble>(Dimensions { rows: 4, positions: 3, sources: 1, blocks: 1, words: 1 })?;
//! let losses = LossList::new(&shape, &[0, 2])?;
//! ```
#![tactic(auto)]

pub mod losses;
pub mod runs;
pub mod shape;
#[cfg(test)]
mod tests;
