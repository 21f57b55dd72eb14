//! A store in NOR flash. Word 0 is the lock: 0 shut, 1 open.
//! Slots follow it. A slot's mark is all ones when it is empty, 0 when it is filled.
//! Programming a word leaves old AND new, so only an erased slot can take a packet.
ghost use Rattle.std.specs.Prelude.{◌≡◌, ◌+◌, ◌-◌, ◌<◌, ◌∷◌, bit_and, drop, length, replicate, slice_index, slice_set, OnOk};
ghost use Rattle.std.specs.Option.{SomeIff};
ghost use Rattle.std.proofs.Common.{refl};
ghost use Rattle.refusal.specs.Numbers.{refused_with};
ghost use Rattle.store.specs.Calls.{IsStorable, word_count, EmptyGrid, refusal_of_format, AfterFormat, refusal_of_put, AfterPut};
ghost use Rattle.store.specs.Grids.{NoSlots};
ghost use Rattle.store.specs.Layout.{start_of, format_after};
ghost use Rattle.store.specs.Nor.{capacity_of, erased, erased_blank, grid_of, lock_of, nor_grid, run_after_format, run_after_put};

use crate::SlotStore;
use crate::medium::Medium;
use crate::slots::{Format, Slot};
use refusal::Refusal;

// A word of erased flash, which is also the mark of an empty slot.
const ERASED: u32 = 0xFFFFFFFF;

// The mark of a filled slot.
const FILLED: u32 = 0;

// Flash whose lock is open. It alone programs and erases words, and dropping it shuts the lock.
struct Guard<'a> {
    words: &'a mut [u32],
    ghost some: { 0 < length words.now },
}

impl<'a> Guard<'a> {
    fn open(words: &'a mut [u32]) -> Guard<'a>
        requires { 0 < length words.old }
        ensures lent { result.words.ghost_name ≡ words.entry.ghost_name }
        ensures run { result.words.now ≡ slice_set words.old 0 1 }
    {
        words[0] = 1;
        Guard { words }
    }

    // Programs a word: old AND new.
    fn program(&mut self, at: usize, new: u32)
        requires unlocked { lock_of self.old.words.now ≡ 1 }
        requires past_lock { 0 < at }
        requires inside { at < length self.old.words.now }
        ensures still { lock_of self.new.words.now ≡ 1 }
        ensures run { self.new.words.now
            ≡ slice_set self.old.words.now at (bit_and (slice_index self.old.words.now at) new) }
        ensures lent { self.new.words.ghost_name ≡ self.old.words.ghost_name }
    {
        self.words[at] &= new;
    }

    // Erases every word but the lock.
    fn erase(&mut self)
        requires { lock_of self.old.words.now ≡ 1 }
        ensures run { self.new.words.now
            ≡ 1 ∷ replicate (length self.old.words.now - 1) 4294967295 }
        ensures lent { self.new.words.ghost_name ≡ self.old.words.ghost_name }
    {
        self.words[1..].fill(ERASED);
    }
}

impl Drop for Guard<'_> {
    fn drop(self)
        ensures { self.exit.0.now ≡ slice_set self.entry.words.now 0 0 }
    {
        let Guard { words } = self;
        words[0] = 0;
    }
}

// Whether every word is erased.
fn is_erased(words: &[u32]) -> bool
    ensures { result ≡ erased words.now }
{
    words.iter().all(|word| *word == ERASED)
}

// A slot takes a packet only while all its words are erased.
impl Medium for Guard<'_> {
    ghost words = { λ g. drop 1 g.words.now };

    ghost loan = { λ g. g.words.ghost_name };

    ghost writable = { λ g. lock_of g.words.now ≡ 1 };

    ghost empty = { erased };

    ghost mark = { 0 };

    ghost blank = { 4294967295 };

    fn is_empty(slot: &[u32]) -> bool
        requires { 0 < length slot.now }
        ensures { result ≡ erased slot.now }
    {
        is_erased(slot)
    }

    fn words(&self) -> &[u32] {
        past_lock(self.words)
    }

    fn blank(&mut self) {
        self.erase();
    }

    // The packet first, and then the mark.
    #[tactic(auto, using(crate::proofs::Flash::fills_more, crate::proofs::Flash::mark_last))]
    fn fill(&mut self, at: usize, packet: &[u32]) {
        for (i, word) in packet.iter().enumerate() {
            self.program(at + 2 + i, *word);
        }
        self.program(at + 1, FILLED);
    }

    ghost filled_by_mark = { λ ws. refl };

    ghost empty_when_blank = { erased_blank };
}

// The words of the slots.
fn past_lock(words: &[u32]) -> &[u32]
    ensures { result.now ≡ drop 1 words.now }
{
    words.get(1..).unwrap_or(words)
}

// Erases the run for a grid of this format.
#[tactic(auto, using(crate::proofs::Flash::format_run))]
fn format_words(words: &mut [u32], format: Format) -> Result<(), Refusal>
    ensures answer { refused_with result
        ≡ refusal_of_format (length words.old - 1) format }
    ensures run { words.new ≡ run_after_format result words.old }
    ensures shut { lock_of words.new ≡ 0 }
    ensures after { OnOk result
        (EmptyGrid format (nor_grid format words.new)) }
{
    if words.is_empty() {
        return Err(Refusal::BadFormat);
    }
    let mut guard = Guard::open(words);
    format.clear(&mut guard)
}

// Fills an empty slot of a grid in the run.
#[tactic(auto, using(crate::proofs::Flash::put_run))]
fn put_words(words: &mut [u32], format: Format, slot: Slot, packet: &[u32]) -> Result<(), Refusal>
    ensures answer { refused_with result
        ≡ refusal_of_put (nor_grid format words.old) slot packet.now }
    ensures run { words.new
        ≡ run_after_put result words.old (start_of format slot) packet.now }
    ensures shut { lock_of words.new ≡ 0 }
    ensures after { AfterPut result (nor_grid format words.old)
        slot packet.now (nor_grid format words.new) }
{
    if words.is_empty() {
        return Err(Refusal::OutsideGrid);
    }
    let mut guard = Guard::open(words);
    format.put(&mut guard, slot, packet)
}

/// Flash with a grid of slots. Reading leaves the lock alone; what writes shuts it again.
#[derive(Drop)]
pub struct NorStore<'a> {
    words: &'a mut [u32],
    format: Format,
}

impl<'a> NorStore<'a> {
    /// How many words of flash a store needs for a format: the lock, and for each slot a mark and
    /// its packet.
    /// `None` where no store takes the format, since one of its numbers is out of its range.
    ///
    /// ```
    /// // the lock, and 2 rows of 3 slots, each a mark and a packet of 4 words
    /// let format = Format { rows: 2, columns: 3, size: 4 };
    /// assert_eq!(rt; NorStore::words_for(format), Some(31));
    /// ```
    pub fn words_for(format: Format) -> Option<usize>
        ensures { SomeIff result (IsStorable format) (word_count format + 1) }
    {
        Some(format.word_count()? + 1)
    }

    /// A store with no rows and no columns. It shuts the lock, and leaves the other words as they
    /// are until it gets a format.
    pub fn new(words: &'a mut [u32]) -> NorStore<'a>
        ensures run { result.words.now ≡ slice_set words.old 0 0 }
        ensures lent { result.words.ghost_name ≡ words.entry.ghost_name }
        ensures grid { NoSlots (grid_of result) }
    {
        if !words.is_empty() {
            words[0] = 0;
        }
        NorStore {
            words,
            format: Format::default(),
        }
    }
}

impl SlotStore for NorStore<'_> {
    ghost capacity = { capacity_of };

    ghost grid = { grid_of };

    ghost lock = { λ s. lock_of s.words.now };

    fn format(&mut self, format: Format) -> Result<(), Refusal>
        ensures answer { refused_with result ≡ refusal_of_format (capacity_of self.old) format }
        ensures after { AfterFormat result (grid_of self.old) format (grid_of self.new) }
        ensures kept { capacity_of self.new ≡ capacity_of self.old }
        ensures shut { lock_of self.new.words.now ≡ 0 }
        ensures words { self.new.words.now ≡ run_after_format result self.old.words.now }
        ensures format { self.new.format ≡ format_after result format self.old.format }
        ensures lent { self.new.words.ghost_name ≡ self.old.words.ghost_name }
    {
        format_words(self.words, format)?;
        self.format = format;
        Ok(())
    }

    fn held(&self, slot: Slot) -> Result<bool, Refusal> {
        self.format.held::<Guard<'_>>(past_lock(self.words), slot)
    }

    fn put(&mut self, slot: Slot, words: &[u32]) -> Result<(), Refusal>
        ensures answer { refused_with result ≡ refusal_of_put (grid_of self.old) slot words.now }
        ensures after { AfterPut result (grid_of self.old) slot words.now (grid_of self.new) }
        ensures kept { capacity_of self.new ≡ capacity_of self.old }
        ensures shut { lock_of self.new.words.now ≡ 0 }
        ensures words { self.new.words.now
            ≡ run_after_put result self.old.words.now
            (start_of self.old.format slot) words.now }
        ensures format { self.new.format ≡ self.old.format }
        ensures lent { self.new.words.ghost_name ≡ self.old.words.ghost_name }
    {
        put_words(self.words, self.format, slot, words)
    }

    fn get(&self, slot: Slot, run: &mut [u32]) -> Result<(), Refusal> {
        self.format
            .get::<Guard<'_>>(past_lock(self.words), slot, run)
    }
}
