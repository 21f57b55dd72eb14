//! A store in memory. A slot's mark is 1 when it is filled, 0 when it is empty.
ghost use Rattle.std.specs.Prelude.{◌≡◌, ◌<◌, ◌∷◌, length};
ghost use Rattle.std.specs.Option.{SomeIff};
ghost use Rattle.std.proofs.Common.{refl};
ghost use Rattle.refusal.specs.Numbers.{refused_with};
ghost use Rattle.store.specs.Calls.{IsStorable, word_count, refusal_of_format, AfterFormat, refusal_of_put, AfterPut};
ghost use Rattle.store.specs.Grids.{NoSlots};
ghost use Rattle.store.specs.Layout.{start_of, format_after, words_after_clear, words_after_put};
ghost use Rattle.store.specs.Memory.{capacity_of, grid_of, unmarked};

use crate::SlotStore;
use crate::medium::Medium;
use crate::slots::{Format, Slot};
use refusal::Refusal;

// Memory: a slot takes a packet while its mark is 0.
struct Memory<'a> {
    words: &'a mut [u32],
}

// By hand, and not derived, so that the clause says to each caller that the words stay.
impl Drop for Memory<'_> {
    fn drop(self)
        ensures { self.exit.0.now ≡ self.entry.words.now }
    {
        let Memory { words: _words } = self;
    }
}

impl Medium for Memory<'_> {
    ghost words = { λ m. m.words.now };

    ghost loan = { λ m. m.words.ghost_name };

    ghost writable = { λ m. Unit {0} };

    ghost empty = { unmarked };

    ghost mark = { 1 };

    ghost blank = { 0 };

    fn is_empty(slot: &[u32]) -> bool
        requires { 0 < length slot.now }
        ensures { result ≡ unmarked slot.now }
    {
        slot[0] == 0
    }

    fn words(&self) -> &[u32] {
        self.words
    }

    fn blank(&mut self) {
        self.words.fill(0);
    }

    fn fill(&mut self, at: usize, packet: &[u32]) {
        let slot = &mut self.words[at..at + packet.len() + 1];
        slot[0] = 1;
        slot[1..].copy_from_slice(packet);
    }

    ghost filled_by_mark = { λ ws. refl };

    ghost empty_when_blank = { λ n. refl };
}

/// Memory with a grid of slots.
#[derive(Drop)]
pub struct MemoryStore<'a> {
    words: &'a mut [u32],
    format: Format,
}

impl<'a> MemoryStore<'a> {
    /// How many words of memory a store needs for a format: for each slot a mark and its packet.
    /// `None` where no store takes the format, since one of its numbers is out of its range.
    ///
    /// ```
    /// // 2 rows of 3 slots, each a mark and a packet of 4 words
    /// let format = Format { rows: 2, columns: 3, size: 4 };
    /// assert_eq!(rt; MemoryStore::words_for(format), Some(30));
    /// ```
    pub fn words_for(format: Format) -> Option<usize>
        ensures { SomeIff result (IsStorable format) (word_count format) }
    {
        format.word_count()
    }

    /// A store with no rows and no columns. It leaves the words as they are until it gets a format.
    pub fn new(words: &'a mut [u32]) -> MemoryStore<'a>
        ensures words { result.words.now ≡ words.old }
        ensures lent { result.words.ghost_name ≡ words.entry.ghost_name }
        ensures grid { NoSlots (grid_of result) }
    {
        MemoryStore {
            words,
            format: Format::default(),
        }
    }
}

impl SlotStore for MemoryStore<'_> {
    ghost capacity = { capacity_of };

    ghost grid = { grid_of };

    ghost lock = { λ s. 0 };

    fn format(&mut self, format: Format) -> Result<(), Refusal>
        ensures answer { refused_with result ≡ refusal_of_format (capacity_of self.old) format }
        ensures after { AfterFormat result (grid_of self.old) format (grid_of self.new) }
        ensures kept { capacity_of self.new ≡ capacity_of self.old }
        ensures words { self.new.words.now ≡ words_after_clear result 0 self.old.words.now }
        ensures format { self.new.format ≡ format_after result format self.old.format }
        ensures lent { self.new.words.ghost_name ≡ self.old.words.ghost_name }
    {
        let mut medium = Memory { words: self.words };
        format.clear(&mut medium)?;
        self.format = format;
        Ok(())
    }

    fn held(&self, slot: Slot) -> Result<bool, Refusal> {
        self.format.held::<Memory<'_>>(self.words, slot)
    }

    fn put(&mut self, slot: Slot, words: &[u32]) -> Result<(), Refusal>
        ensures answer { refused_with result ≡ refusal_of_put (grid_of self.old) slot words.now }
        ensures after { AfterPut result (grid_of self.old) slot words.now (grid_of self.new) }
        ensures kept { capacity_of self.new ≡ capacity_of self.old }
        ensures words { self.new.words.now
            ≡ words_after_put result self.old.words.now
            (start_of self.old.format slot) (1 ∷ words.now) }
        ensures format { self.new.format ≡ self.old.format }
        ensures lent { self.new.words.ghost_name ≡ self.old.words.ghost_name }
    {
        let mut medium = Memory { words: self.words };
        self.format.put(&mut medium, slot, words)
    }

    fn get(&self, slot: Slot, run: &mut [u32]) -> Result<(), Refusal> {
        self.format.get::<Memory<'_>>(self.words, slot, run)
    }
}
