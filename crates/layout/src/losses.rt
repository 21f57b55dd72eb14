//! The lost positions of a block.
ghost use Rattle.std.specs.Prelude.{◌≡◌, ℕ, ◌-◌, ◌<◌, ◌≤◌, length, slice_index};
ghost use Rattle.refusal.specs.Numbers.{refused_with};
ghost use Rattle.algebra.specs.Code.{among};
ghost use Rattle.layout.specs.Rules.{Ascends, Ordered};

use crate::shape::Shape;
use refusal::Refusal;
use std::array;

// Whether the positions ascend strictly and lie below `end`.
fn ordered(positions: &[usize], end: usize) -> bool
    ensures { Ordered positions.now end result }
{
    positions.first().is_none_or(|p| *p < end) && positions.is_sorted_by(|p, q| p < q && *q < end)
}

/// At most 32 lost positions of a block, strictly ascending.
#[derive(Clone, Copy, Debug)]
pub struct LossList {
    // The first `len` of these.
    // A length beside an array: a board has no heap.
    at: [usize; 32],
    len: usize,
    ghost few: { len ≤ 32 },
    ghost ascends: { Ascends at len },
}

impl LossList {
    ghost use Rattle.layout.specs.Sizes.{lost};
    ghost use Rattle.layout.specs.Made.{LossesMade, Pushed, lost_at};
    ghost use Rattle.layout.specs.Checks.{loss_refusal};

    /// The list of these positions, for a shape; refused with `BadLosses` unless they ascend in the block, then with `TooFew`
    /// if more than the parity are lost.
    pub fn new(shape: &Shape, positions: &[usize]) -> Result<LossList, Refusal>
        ensures { LossesMade shape.now positions.now result }
    {
        if !ordered(positions, shape.positions()) {
            return Err(Refusal::BadLosses);
        }
        if positions.len() > shape.parity() {
            return Err(Refusal::TooFew);
        }
        let mut at = [0; 32];
        at[..positions.len()].copy_from_slice(positions);
        Ok(LossList {
            at,
            len: positions.len(),
        })
    }

    /// Nothing is lost.
    pub fn none() -> LossList
        ensures { result.len ≡ 0 }
    {
        LossList {
            at: [0; 32],
            len: 0,
        }
    }

    /// The parity positions of a shape.
    pub fn parity(shape: &Shape) -> LossList
        ensures len { result.len ≡ shape.now.positions - shape.now.sources }
        ensures at { (s : ℕ) → s < result.len → lost result s ≡ s }
    {
        LossList {
            at: array::from_fn(|s| s),
            len: shape.parity(),
        }
    }

    /// Adds a position behind those of the list, for a shape; refused as `new` refuses, and then the list stays.
    pub fn push(&mut self, shape: &Shape, position: usize) -> Result<(), Refusal>
        ensures { Pushed shape.now self.old position self.new result }
    {
        if position >= shape.positions()
            || self.positions().last().is_some_and(|p| *p >= position)
        {
            return Err(Refusal::BadLosses);
        }
        if self.len >= shape.parity() {
            return Err(Refusal::TooFew);
        }
        self.at[self.len] = position;
        self.len += 1;
        Ok(())
    }

    /// Whether a position is lost.
    pub fn contains(&self, position: usize) -> bool
        ensures { result ≡ among (lost self.now) self.now.len position }
    {
        self.positions().contains(&position)
    }

    /// The positions, ascending.
    pub fn positions(&self) -> &[usize]
        ensures value { result.now ≡ lost_at self.now }
        ensures len { length result.now ≡ self.now.len }
        ensures at { (s : ℕ) → s < self.now.len
            → slice_index result.now s ≡ lost self.now s }
    {
        &self.at[0..self.len]
    }

    /// Refuses losses that are not all in a block of the shape with `BadLosses`, or leave too few packets of it with `TooFew`.
    pub fn check(&self, shape: &Shape) -> Result<(), Refusal>
        ensures { refused_with result ≡ loss_refusal shape.now self.now }
    {
        let end = shape.positions();
        if self.positions().iter().any(|at| *at >= end) {
            return Err(Refusal::BadLosses);
        }
        if self.positions().len() > shape.parity() {
            return Err(Refusal::TooFew);
        }
        Ok(())
    }
}
