//! A store that exchanges the rows and the columns of the store below it.
ghost use Rattle.store.specs.Grids.{transposed};

use crate::SlotStore;
use crate::slots::{Format, Slot};
use refusal::Refusal;

/// The store below, seen with its rows and its columns exchanged: the slot (2, 3) is the slot
/// (3, 2) there.
#[derive(Drop)]
pub struct Transposed<S>(pub S);

impl<S: SlotStore> SlotStore for Transposed<S> {
    ghost capacity = { λ t. S.SlotStore.capacity t.0 };

    ghost grid = { λ t. transposed (S.SlotStore.grid t.0) };

    ghost lock = { λ t. S.SlotStore.lock t.0 };

    #[tactic(auto, using(crate::proofs::Formats::exchanged))]
    fn format(&mut self, format: Format) -> Result<(), Refusal> {
        self.0.format(format.transposed())
    }

    fn held(&self, slot: Slot) -> Result<bool, Refusal> {
        self.0.held(slot.transposed())
    }

    fn put(&mut self, slot: Slot, words: &[u32]) -> Result<(), Refusal> {
        self.0.put(slot.transposed(), words)
    }

    fn get(&self, slot: Slot, run: &mut [u32]) -> Result<(), Refusal> {
        self.0.get(slot.transposed(), run)
    }
}
