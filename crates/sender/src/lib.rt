//! The head-end's side of a transmission: parity for an image, and the frames that carry both.
//!
//! [`prepare::prepare`] fills the parity words of all blocks. A [`Transmission`] gives the words of any frame, number 0 being
//! the shape and every other one a packet; [`numbering`] says how many frames there are, and what each carries, and [`broadcast`]
//! in which order they go out, the shape's again after every fifty packets.
//!
//! ```
//! let mut parity = vec![in heap; 0; shape.blocks() * shape.parity() * shape.packet()]?;
//! prepare::<TabledOctet>(&shape, &image, &mut parity)?;
//! let sent = Transmission { shape: &shape, image: &image, parity: &parity };
//! let mut run = vec![in heap; 0; 1 + shape.packet()]?;
//! for turn in 0..turns(&shape) {
//!     let number = frame_of(&shape, turn)?;
//!     let length = if number == 0 { 2 } else { 1 + shape.packet() };
//!     sent.frame(&mut run[..length], number)?;
//! }
//! ```
#![tactic(auto)]

ghost use Rattle.std.specs.Prelude.{◌≡◌};
ghost use Rattle.refusal.specs.Numbers.{refused_with};
ghost use Rattle.sender.specs.Sending.{sending_of};
ghost use Rattle.sender.specs.Sent.{packets_refusal};

use layout::shape::Shape;
use refusal::Refusal;

pub mod broadcast;
pub mod frames;
pub mod numbering;
pub mod prepare;
#[cfg(test)]
mod tests;

/// What a head-end sends: an image with the parity of its blocks. Each call looks at the lengths of the runs again, after the
/// number of the frame.
#[derive(Clone, Copy)]
pub struct Transmission<'a> {
    pub shape: &'a Shape,
    /// The source packets of every block, block after block, each in the order of its positions.
    pub image: &'a [u32],
    /// The parity packets of every block, likewise.
    pub parity: &'a [u32],
}

impl Transmission<'_> {
    // Refuses runs that are not of all blocks.
    pub(crate) fn check_runs(&self) -> Result<(), Refusal>
        ensures { refused_with result ≡ packets_refusal (sending_of self.now) }
    {
        let shape = self.shape;
        shape.check_run(shape.blocks() * shape.sources(), self.image, 0)?;
        shape.check_run(shape.blocks() * shape.parity(), self.parity, 1)
    }
}
