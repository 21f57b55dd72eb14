//! Frames of 32-bit words, as they go over a link: a frame is written to its words and read from them.
//!
//! The top four bits of a header word are its kind; the unused bits are zero.
//! - a shape frame: kind 1, rows in bits 27 to 24, positions in 23 to 12, sources in 11 to 0;
//!   then kind 2, blocks in bits 27 to 16, words of a row in 7 to 0
//! - a packet frame: kind 3, block in bits 23 to 12, position in 11 to 0; then its payload
//!
//! ```
//! let frame = Frame::Packet { block: 0, position: 2, payload: &[7, 8] };
//! let mut run = [0; 3];
//! frame.write(&mut run)?;
//! assert_eq!(rt; run, [0x30000002, 7, 8]);
//! assert_eq!(rt; Frame::try_from(&run[..]), Ok(frame));
//! ```
#![tactic(auto)]

ghost use Rattle.std.specs.Prelude.{◌≡◌, ◌<◌, length};
ghost use Rattle.refusal.specs.Numbers.{refused_with};
ghost use Rattle.frame.specs.Frames.{Reads, content_of, fits, frame_words, write_refusal, after_write, ReadsBack};

use bits::BitField;
use layout::shape::Dimensions;
use refusal::Refusal;

mod bits;
#[cfg(test)]
mod tests;

// The kinds of header words, by their numbers: a word of any other kind is refused whole, so none is made from a number.
#[derive(Clone, Copy, PartialEq, Eq, Debug)]
enum Kind {
    Shape = 1,
    // The second word of a shape frame.
    Sizes = 2,
    Packet = 3,
}

const KIND: BitField = BitField { low: 28, count: 4 };

// In the first word of a shape frame.
const ROWS: BitField = BitField { low: 24, count: 4 };

const POSITIONS: BitField = BitField { low: 12, count: 12 };

const SOURCES: BitField = BitField { low: 0, count: 12 };

// In its second word.
const BLOCKS: BitField = BitField { low: 16, count: 12 };

const SIZES_UNUSED: BitField = BitField { low: 8, count: 8 };

const WORDS: BitField = BitField { low: 0, count: 8 };

// In the header of a packet frame.
const HEADER_UNUSED: BitField = BitField { low: 24, count: 4 };

const BLOCK: BitField = BitField { low: 12, count: 12 };

const POSITION: BitField = BitField { low: 0, count: 12 };

/// What a frame says. Its numbers are not judged here, beyond that they fit their bits, nor is the payload.
#[derive(Clone, Copy, PartialEq, Eq, Debug)]
pub enum Frame<'a> {
    Shape(Dimensions),
    /// The packet at a position of a block.
    Packet {
        block: usize,
        position: usize,
        payload: &'a [u32],
    },
}

/// The frame that has exactly these words, of which a packet's payload is a part. Refused as `BadFrame` if there is none.
impl<'a> TryFrom<&'a [u32]> for Frame<'a> {
    type Error = Refusal;

    ghost try_from_gives = { λ words answer. Reads words.now answer };

    fn try_from(words: &'a [u32]) -> Result<Frame<'a>, Refusal> {
        match *words {
            [head, sizes]
                if KIND.get(head) == Kind::Shape as usize
                    && KIND.get(sizes) == Kind::Sizes as usize
                    && SIZES_UNUSED.get(sizes) == 0 => {
                Ok(Frame::Shape(Dimensions {
                    rows: ROWS.get(head),
                    positions: POSITIONS.get(head),
                    sources: SOURCES.get(head),
                    blocks: BLOCKS.get(sizes),
                    words: WORDS.get(sizes),
                }))
            }
            [head, ref rest @ ..]
                if KIND.get(head) == Kind::Packet as usize && HEADER_UNUSED.get(head) == 0 => {
                Ok(Frame::Packet {
                    block: BLOCK.get(head),
                    position: POSITION.get(head),
                    payload: rest,
                })
            }
            _ => Err(Refusal::BadFrame),
        }
    }
}

// Each contract names the frame's content, since an enum has no model.
impl Frame<'_> {
    /// How many words the frame has: 2 for a shape, and one more than its payload for a packet.
    pub fn length(&self) -> usize
        ensures { result ≡ length (frame_words (content_of self.now)) }
    {
        match self {
            Frame::Shape(_) => 2,
            Frame::Packet { payload, .. } => 1 + payload.len(),
        }
    }

    // Whether each number fits its bits.
    fn fits(&self) -> bool
        ensures { result ≡ fits (content_of self.now) }
    {
        match *self {
            Frame::Shape(d) => {
                ROWS.fits(d.rows)
                    && POSITIONS.fits(d.positions)
                    && SOURCES.fits(d.sources)
                    && BLOCKS.fits(d.blocks)
                    && WORDS.fits(d.words)
            }
            Frame::Packet {
                block,
                position,
                ..
            } => BLOCK.fits(block) && POSITION.fits(position),
        }
    }

    /// Writes the frame into a run of its length.
    ///
    /// Refused as `BadFrame` where a number does not fit its bits, then as `WrongRun` at place 0; a refusal leaves the run.
    pub fn write(&self, run: &mut [u32]) -> Result<(), Refusal>
        ensures answer { refused_with result ≡ write_refusal (content_of self.now) run.old }
        ensures after { run.new ≡ after_write result (content_of self.now) run.old }
        ensures back { ReadsBack result (content_of self.now) run.new }
    {
        if !self.fits() {
            return Err(Refusal::BadFrame);
        }
        if run.len() != self.length() {
            return Err(Refusal::WrongRun { place: 0 });
        }
        match *self {
            Frame::Shape(d) => {
                run[0] = KIND.put(Kind::Shape as usize)
                    + ROWS.put(d.rows)
                    + POSITIONS.put(d.positions)
                    + SOURCES.put(d.sources);
                run[1] = KIND.put(Kind::Sizes as usize) + BLOCKS.put(d.blocks) + WORDS.put(d.words);
            }
            Frame::Packet {
                block,
                position,
                payload,
            } => {
                run[0] = KIND.put(Kind::Packet as usize)
                    + BLOCK.put(block)
                    + POSITION.put(position);
                run[1..].copy_from_slice(payload);
            }
        }
        Ok(())
    }
}
