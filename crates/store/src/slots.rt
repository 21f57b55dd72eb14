//! How slots lie in a run of words: one after another, row by row, each a mark and then its packet.
ghost use Rattle.std.specs.Prelude.{◌≡◌, IfErr, IfOk, length};
ghost use Rattle.std.specs.Option.{SomeIff};
ghost use Rattle.store.specs.Calls.{IsStorable, fits_in, word_count};
ghost use Rattle.store.specs.Layout.{InSlot, RefusedOutside, SlotRange};

use refusal::Refusal;
use std::ops::Range;

/// A slot of a grid, by its row and its column, both counted from 0.
#[derive(Clone, Copy, PartialEq, Eq, Debug, Default)]
pub struct Slot {
    pub row: usize,
    pub column: usize,
}

impl Slot {
    // The slot with its row and its column exchanged.
    pub(crate) fn transposed(self) -> Slot
        ensures row { result.row ≡ self.column }
        ensures column { result.column ≡ self.row }
    {
        Slot {
            row: self.column,
            column: self.row,
        }
    }
}

/// The three numbers of a grid. No store takes the default, whose numbers are 0.
#[derive(Clone, Copy, PartialEq, Eq, Debug, Default)]
pub struct Format {
    /// From 1 to 1023.
    pub rows: usize,
    /// From 1 to 1023.
    pub columns: usize,
    /// How many words a packet has, from 1 to 256.
    pub size: usize,
}

impl Format {
    // The format with its rows and its columns exchanged.
    pub(crate) fn transposed(self) -> Format
        ensures rows { result.rows ≡ self.columns }
        ensures columns { result.columns ≡ self.rows }
        ensures size { result.size ≡ self.size }
    {
        Format {
            rows: self.columns,
            columns: self.rows,
            size: self.size,
        }
    }

    // How many words the slots take; none where no store takes the format.
    pub(crate) fn word_count(self) -> Option<usize>
        ensures { SomeIff result (IsStorable self) (word_count self) }
    {
        if self.rows == 0
            || self.rows > 1023
            || self.columns == 0
            || self.columns > 1023
            || self.size == 0
            || self.size > 256
        {
            return None;
        }
        Some(self.rows * self.columns * (self.size + 1))
    }

    // Whether a store of this capacity takes the format.
    pub(crate) fn fits(self, capacity: usize) -> bool
        ensures { result ≡ fits_in capacity self }
    {
        match self.word_count() {
            Some(words) => words <= capacity,
            None => false,
        }
    }

    // The words of a slot, its mark and its packet.
    pub(crate) fn slot<'w>(self, slots: &'w [u32], slot: Slot) -> Result<&'w [u32], Refusal>
        ensures words { IfOk result (λ words. InSlot slots.now self slot words.now) }
        ensures refused { IfErr result (RefusedOutside (length slots.now) self slot) }
    {
        Ok(&slots[self.range(slots.len(), slot)?])
    }

    // Where the words of a slot lie, its mark and its packet.
    #[tactic(auto, using(crate::proofs::Places::slot_within))]
    pub(crate) fn range(self, capacity: usize, slot: Slot) -> Result<Range<usize>, Refusal>
        ensures range { IfOk result (λ range. SlotRange capacity self slot range.start range.end) }
        ensures refused { IfErr result (RefusedOutside capacity self slot) }
    {
        if !self.fits(capacity) || slot.row >= self.rows || slot.column >= self.columns {
            return Err(Refusal::OutsideGrid);
        }
        let at = (slot.row * self.columns + slot.column) * (self.size + 1);
        Ok(at..at + self.size + 1)
    }
}
