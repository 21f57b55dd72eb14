//! Stores for a board's receiver: packets of 32-bit words, kept in the slots of a grid.
//!
//! A store works in a run of words that it is lent, and allocates nothing. Whatever it is made of,
//! its calls are those of [`SlotStore`]:
//!
//! - [`memory::MemoryStore`] for memory, where any word may be written at any time;
//! - [`nor::NorStore`] for NOR flash, where words are erased all together, and a bit that was then
//!   programmed to 0 stays 0. Its first word is a lock, shut except while a call writes;
//! - [`transposed::Transposed`] over either, whose rows are the columns of the store below.
//!
//! `words_for` of the first two says how long the run has to be.
#![tactic(auto)]

ghost use Rattle.std.specs.Prelude.{◌≡◌, ℕ};
ghost use Rattle.refusal.specs.Numbers.{refused_with};
ghost use Rattle.store.specs.Calls.{refusal_of_format, AfterFormat, answer_of_held, refusal_of_put, AfterPut, refusal_of_get, run_after_get};
ghost use Rattle.store.specs.Grids.{Grid};

use crate::slots::{Format, Slot};
use refusal::Refusal;

mod medium;
pub mod memory;
pub mod nor;
pub mod slots;
#[cfg(test)]
mod tests;
pub mod transposed;
pub mod twice;

/// A grid of slots, each empty or filled with one packet of the grid's size.
/// A new store has no rows and no columns, so its first call is `format`.
/// A call that is refused changes no slot.
pub trait SlotStore {
    /// How many words the slots may take; it never changes.
    ghost capacity: { Self → ℕ };

    /// What the slots hold.
    ghost grid: { Self → Grid };

    /// The lock of the words: 0 shut, 1 open; 0 in a store without one.
    ghost lock: { Self → ℕ };

    /// Makes a new grid, with every slot empty; what they held is lost.
    /// `BadFormat` if a number is out of its range, or if the slots need more words than there are.
    fn format(&mut self, format: Format) -> Result<(), Refusal>
        ensures answer { refused_with result ≡ refusal_of_format (capacity self.old) format }
        ensures after { AfterFormat result (grid self.old) format (grid self.new) }
        ensures kept { capacity self.new ≡ capacity self.old }
        ensures shut { lock self.new ≡ 0 };

    /// Whether the slot is filled. `OutsideGrid` if the grid has no such slot.
    fn held(&self, slot: Slot) -> Result<bool, Refusal>
        ensures answer { result ≡ answer_of_held (grid self.now) slot };

    /// Fills an empty slot with a packet. Only `format` empties it again.
    /// The first that applies: `OutsideGrid`, `WrongSize` if the packet has not the grid's size,
    /// `SlotFilled` even if the packet is the same.
    fn put(&mut self, slot: Slot, words: &[u32]) -> Result<(), Refusal>
        ensures answer { refused_with result ≡ refusal_of_put (grid self.old) slot words.now }
        ensures after { AfterPut result (grid self.old) slot words.now (grid self.new) }
        ensures kept { capacity self.new ≡ capacity self.old }
        ensures shut { lock self.new ≡ 0 };

    /// Copies the packet of a filled slot into `run`.
    /// The first that applies: `OutsideGrid`, `WrongSize` if `run` has not the grid's size,
    /// `SlotEmpty`.
    fn get(&self, slot: Slot, run: &mut [u32]) -> Result<(), Refusal>
        ensures answer { refused_with result ≡ refusal_of_get (grid self.now) slot run.old }
        ensures after { run.new ≡ run_after_get result (grid self.now) slot run.old };
}
