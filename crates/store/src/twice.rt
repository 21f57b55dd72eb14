//! A store transposed twice means what the store below means.
ghost use Rattle.store.specs.Stores.{SameMeaning};

use crate::SlotStore;
use crate::transposed::Transposed;

/// A store with another below it that means the same.
pub trait MeansBelow: SlotStore {
    type Below: SlotStore;

    /// The store below.
    fn below(&self) -> &Self::Below
        ensures { SameMeaning Self.Below.SlotStore result.now Self.SlotStore self.now };
}

impl<S: SlotStore> MeansBelow for Transposed<Transposed<S>> {
    type Below = S;

    fn below(&self) -> &S {
        &self.0.0
    }
}
