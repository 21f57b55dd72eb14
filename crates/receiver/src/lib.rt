//! A board's receiver: frames in, packets kept in the slots of a store, blocks repaired, packets out.
//!
//! ```
//! let mut receiver = Receiver::<TabledOctet, _>::new(MemoryStore::new(&mut words));
//! receiver.take(&frame)?;
//! let whole = receiver.repair(0, &mut work)?;
//! receiver.fetch(0, 5, &mut packet)?;
//! ```
#![tactic(auto)]

ghost use Rattle.receiver.specs.Sound.{Sound};

use field::Arithmetic;
use layout::shape::Shape;
use std::marker::PhantomData;
use store::SlotStore;

pub mod blank;
pub mod held;
pub mod repair;
mod stored;
pub mod take;
#[cfg(test)]
mod tests;

/// Keeps the packets of one transmission at a time. It is blank until a shape is set.
// Its meaning leaves out the store's lock: the calls that write have a clause for it, `shut`, and those that read would have to carry it.
#[derive(Drop)]
pub struct Receiver<F: Arithmetic, S: SlotStore> {
    field: PhantomData<F>,
    store: S,
    shape: Option<Shape>,
    // Once a shape is set, it is one for the arithmetic, and the store fits it.
    ghost sound: { Sound F.Arithmetic.bits shape (S.SlotStore.grid store) },
}

/// What a frame did.
#[derive(Clone, Copy, PartialEq, Eq, Debug)]
pub enum Taken {
    /// A shape is set now, and every slot is empty.
    Shaped,
    /// The packet was put into its slot.
    Fresh,
    /// The slot held this very packet, or this very shape was set already; nothing changed.
    Known,
}

/// A block holds all its packets now, and how many of them were missing.
#[derive(Clone, Copy, PartialEq, Eq, Debug)]
pub struct Whole {
    pub restored: usize,
}
