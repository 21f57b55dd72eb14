//! The shape that a host names: of one block, for which a call has room.
ghost use Rattle.std.specs.Prelude.{◌≡◌, ◌+◌, ◌*◌, ◌≤◌, IfOk, None};
ghost use Rattle.refusal.specs.Numbers.{refused_with};
ghost use Rattle.layout.specs.Made.{dimensions_of};
ghost use Rattle.layout.specs.Sizes.{parity_of, packet_of};
ghost use Rattle.guyekpan.specs.Host.{named, host_shape_refusal, string_refusal, PacketString, ListRead};

use crate::bytes::read_positions;
use field::octet::TabledOctet;
use layout::losses::LossList;
use layout::shape::{Dimensions, Shape};
use refusal::Refusal;

// How many words the longest block has that a host may pass.
pub(crate) const LONGEST: usize = 8192;

// How many a check or a repair of it works on: the longest work string has 33 packets of 128 words.
pub(crate) const LONGEST_WORK: usize = 12_416;

// The dimensions of one block.
pub(crate) fn one_block(m: u32, n: u32, k: u32, w: u32) -> Dimensions
    ensures { result ≡ named m n k w }
{
    Dimensions {
        rows: m as usize,
        positions: n as usize,
        sources: k as usize,
        blocks: 1,
        words: w as usize,
    }
}

// A shape whose block is no longer than the longest.
#[derive(Clone, Copy)]
pub(crate) struct OneBlock {
    pub(crate) shape: Shape,
    ghost octet: { shape.rows ≡ 8 },
    ghost fits: { shape.positions * packet_of shape ≤ 8192 },
    ghost passed: { host_shape_refusal (dimensions_of shape) ≡ None },
}

impl OneBlock {
    // The shape of these dimensions, for blocks of no more words than the longest has.
    pub(crate) fn new(dimensions: Dimensions) -> Result<OneBlock, Refusal>
        ensures answer { refused_with result ≡ host_shape_refusal dimensions }
        ensures of { IfOk result (λ b. dimensions_of b.shape ≡ dimensions) }
    {
        let shape = Shape::new::<TabledOctet>(dimensions)?;
        if shape.positions() * shape.packet() > LONGEST {
            return Err(Refusal::BadSize);
        }
        Ok(OneBlock { shape })
    }

    // How many words a block has, source and parity.
    pub(crate) fn words(&self) -> usize
        ensures value { result ≡ self.now.shape.positions * packet_of self.now.shape }
        ensures parts { result ≡ self.now.shape.sources * packet_of self.now.shape
            + parity_of self.now.shape * packet_of self.now.shape }
        ensures bound { result ≤ 8192 }
    {
        self.shape.positions() * self.shape.packet()
    }

    // How many words a check or a repair works on: those of the block, and those of the work string.
    pub(crate) fn work_words(&self) -> usize
        ensures value { result ≡ self.now.shape.positions * packet_of self.now.shape
            + (parity_of self.now.shape + 1) * packet_of self.now.shape }
        ensures bound { result ≤ 12416 }
    {
        self.words() + self.shape.work()
    }

    // How many words a string has; refused unless it has four bytes for each word of so many packets.
    pub(crate) fn words_in(
        &self,
        packets: usize,
        bytes: &[u8],
        place: usize,
    ) -> Result<usize, Refusal>
        requires { packets ≤ self.now.shape.positions }
        ensures answer { refused_with result
            ≡ string_refusal (dimensions_of self.now.shape) packets bytes.now place }
        ensures words { IfOk result (λ n. PacketString self.now.shape packets bytes.now n) }
    {
        let words = packets * self.shape.packet();
        if bytes.len() != 4 * words {
            return Err(Refusal::WrongRun { place });
        }
        Ok(words)
    }

    // The lost positions that a string lists, two bytes each.
    pub(crate) fn losses(&self, bytes: &[u8]) -> Result<LossList, Refusal>
        ensures { ListRead self.now.shape bytes.now result }
    {
        let count = bytes.len() / 2;
        // A block has at most 255 positions, so that a longer list cannot ascend within it.
        if bytes.len() % 2 != 0 || count > 255 {
            return Err(Refusal::BadLosses);
        }
        let mut at = [0; 255];
        let at = &mut at[..count];
        read_positions(bytes, at);
        LossList::new(&self.shape, at)
    }
}
