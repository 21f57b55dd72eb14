//! The head-end: the words of an image with their parity, and the frames that carry both.
ghost use Rattle.std.specs.Prelude.{◌≡◌, ◌+◌, ◌*◌, ◌≤◌, slice_index, IfOk};
ghost use Rattle.std.specs.Int.{w32, from_be_bytes};
ghost use Rattle.layout.specs.Sizes.{packet_of};
ghost use Rattle.frame.specs.Frames.{parse};
ghost use Rattle.sender.specs.Sending.{sending_of};
ghost use Rattle.sender.specs.Sent.{sent};
ghost use Rattle.joint.specs.Image.{bytes_of, ShapeFor, WordsOf};
ghost use Rattle.joint.specs.Sends.{sends, HoldsImage, HoldsParity};

use field::octet::TabledOctet;
use layout::shape::{Dimensions, Shape};
use refusal::Refusal;
use sender::Transmission;
use sender::prepare::prepare;
use std::alloc::{AllocError, Global};

// Byte number i, and 0 behind the last.
fn byte(bytes: &[u8], i: usize) -> u8
    ensures { result ≡ slice_index bytes.now i }
{
    bytes.get(i).copied().unwrap_or(0)
}

// The word of the first four bytes, highest first, with zeros behind the last.
fn word(bytes: &[u8]) -> u32
    ensures { result ≡ from_be_bytes w32 bytes.now }
{
    u32::from_be_bytes([
        byte(bytes, 0),
        byte(bytes, 1),
        byte(bytes, 2),
        byte(bytes, 3),
    ])
}

// The first words of some bytes, with zeros behind the last: `count` of them.
fn words_of(heap: Global, bytes: &[u8], count: usize) -> Result<Vec<u32>, AllocError>
    ensures { IfOk result (λ words. WordsOf bytes.now count words.items) }
{
    let mut words = Vec::with_capacity(heap, count)?;
    for four in bytes.chunks(4) {
        words.push(word(four))?;
    }
    words.resize(count, 0)?;
    Ok(words)
}

// How many words so many packets of every block have.
fn words_in(shape: &Shape, packets: usize) -> usize
    requires { packets ≤ 1023 }
    ensures { result ≡ shape.now.blocks * packets * packet_of shape.now }
{
    shape.blocks() * packets * shape.packet()
}

// How many bytes of an image a block carries.
fn block_bytes(shape: &Shape) -> usize
    ensures value { result ≡ bytes_of shape.now }
    ensures some { 1 ≤ result }
{
    4 * shape.sources() * shape.packet()
}

/// The shape for an image of so many bytes, in blocks of these dimensions, of which the number of blocks is not read.
///
/// Refused as `BadSize` for no bytes, and for more than 64 blocks hold.
pub fn shape_for(block: Dimensions, length: usize) -> Result<Shape, Refusal>
    ensures { IfOk result (ShapeFor block length) }
{
    let one = Shape::new::<TabledOctet>(Dimensions { blocks: 1, ..block })?;
    Shape::new::<TabledOctet>(Dimensions {
        blocks: length.div_ceil(block_bytes(&one)),
        ..block
    })
}

/// An image with the parity of all its blocks.
#[derive(Drop)]
pub struct HeadEnd {
    shape: Shape,
    image: Vec<u32>,
    parity: Vec<u32>,
}

impl HeadEnd {
    /// The head-end for an image of bytes, with zeros behind the last; the bytes that no block holds are left out.
    pub fn new(heap: Global, shape: Shape, bytes: &[u8]) -> anyhow::Result<HeadEnd>
        ensures shape { IfOk result (λ made. made.shape ≡ shape) }
        ensures image { IfOk result (HoldsImage bytes.now) }
        ensures parity { IfOk result HoldsParity }
    {
        let image = words_of(heap, bytes, words_in(&shape, shape.sources()))?;
        let mut parity = vec![in heap; 0; words_in(&shape, shape.parity())]?;
        prepare::<TabledOctet>(&shape, &image, &mut parity)?;
        Ok(HeadEnd {
            shape,
            image,
            parity,
        })
    }

    pub fn shape(&self) -> &Shape
        ensures { result.now ≡ self.now.shape }
    {
        &self.shape
    }

    pub fn transmission(&self) -> Transmission<'_>
        ensures { sending_of result ≡ sends self.now }
    {
        Transmission {
            shape: &self.shape,
            image: &self.image,
            parity: &self.parity,
        }
    }

    /// The words of the frame of a number: the shape is number 0. The frame of a packet is one word longer than the packet.
    pub fn frame(&self, heap: Global, number: usize) -> anyhow::Result<Vec<u32>>
        ensures { IfOk result (λ words. parse words.items ≡ sent (sends self.now) number) }
    {
        let length = if number == 0 {
            2
        } else {
            1 + self.shape.packet()
        };
        let mut run = vec![in heap; 0; length]?;
        self.transmission().frame(&mut run, number)?;
        Ok(run)
    }
}
