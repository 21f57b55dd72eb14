//! A link to a board, which loses about one packet in eight, in an order fixed by its seed, and when the board wakes.
ghost use Rattle.std.specs.Prelude.{◌≡◌, ◌≤◌, IfOk, false};
ghost use Rattle.layout.specs.Sizes.{parity_of};

use layout::losses::LossList;
use layout::shape::Shape;
use refusal::Refusal;
use sender::broadcast::{frame_of, turns};
use sender::numbering::place;
use std::alloc::Global;

// Pseudo-random numbers, each made from the one before by shifts and exclusive ors.
#[derive(Clone, Copy)]
struct Random {
    last: u32,
}

impl Random {
    fn next(&mut self) -> u32 {
        let mut x = self.last;
        x ^= x.wrapping_mul(8192);
        x ^= x / 131072;
        x ^= x.wrapping_mul(32);
        self.last = x;
        x
    }

    // The positions to lose of one block: never more than can be restored.
    fn losses(&mut self, shape: &Shape) -> Result<LossList, Refusal>
        ensures { IfOk result (λ losses. losses.len ≤ parity_of shape.now) }
    {
        let mut losses = LossList::none();
        for position in 0..shape.positions() {
            if self.next() % 8 == 0 && losses.positions().len() < shape.parity() {
                losses.push(shape, position)?;
            }
        }
        Ok(losses)
    }
}

// How many packet frames go out before the first frame of the shape that a board hears, if so many frames go out before it wakes.
fn missed(shape: &Shape, late: usize) -> Result<usize, Refusal> {
    let mut missed = 0;
    for turn in 0..turns(shape) {
        let number = frame_of(shape, turn)?;
        if number == 0 && turn >= late {
            break;
        }
        missed = missed.max(number);
    }
    Ok(missed)
}

/// What a link loses of each block of a transmission, and when its board wakes.
#[derive(Drop)]
pub struct Link {
    shape: Shape,
    losses: Vec<LossList>,
    /// How many frames go out before the board wakes.
    late: usize,
    /// How many packet frames go out before the board hears the shape.
    missed: usize,
}

impl Link {
    /// Draws the losses, block by block. From a seed of 0 come only zeros, so every block would lose as many packets as can be restored.
    pub fn new(heap: Global, shape: Shape, seed: u32, late: usize) -> anyhow::Result<Link>
        ensures { IfOk result (λ link. link.late ≡ late) }
    {
        let mut random = Random { last: seed };
        let mut losses = Vec::with_capacity(heap, shape.blocks())?;
        for _block in 0..shape.blocks() {
            losses.push(random.losses(&shape)?)?;
        }
        let missed = missed(&shape, late)?;
        Ok(Link {
            shape,
            losses,
            late,
            missed,
        })
    }

    /// How many frames go out before the board wakes.
    pub fn late(&self) -> usize
        ensures { result ≡ self.now.late }
    {
        self.late
    }

    // The positions of a block that are lost on the way.
    fn dropped(&self, block: usize) -> &[usize] {
        match self.losses.get(block) {
            Some(losses) => losses.positions(),
            None => &[],
        }
    }

    /// The positions of a block of which the board keeps no packet: those that are lost on the way, and those that go out before the
    /// board hears the shape.
    pub fn lost(&self, heap: Global, block: usize) -> anyhow::Result<Vec<usize>> {
        let mut lost = Vec::new(heap);
        for position in 0..self.shape.positions() {
            // The number of its frame: the blocks take turns.
            let number = (1 + position * self.shape.blocks()).saturating_add(block);
            if number <= self.missed || self.dropped(block).contains(&position) {
                lost.push(position)?;
            }
        }
        Ok(lost)
    }

    /// Whether the frame of a number is lost on the way; the shape frame never is.
    pub fn loses(&self, number: usize) -> Result<bool, Refusal>
        ensures { number ≡ 0 → result ≡ Ok false }
    {
        if number == 0 {
            return Ok(false);
        }
        let (block, position) = place(&self.shape, number)?;
        Ok(self.dropped(block).contains(&position))
    }
}
