//! What a store does with its slots, over any medium.
ghost use Rattle.std.specs.Prelude.{◌≡◌, ℕ, ◌+◌, ◌<◌, ◌≤◌, Bool, true, false, List, ◌∷◌, length, replicate, OnOk};
ghost use Rattle.std.specs.Borrow.{GName};
ghost use Rattle.refusal.specs.Numbers.{refused_with};
ghost use Rattle.store.specs.Calls.{EmptyGrid, refusal_of_format, answer_of_held, refusal_of_put, AfterPut, refusal_of_get, run_after_get};
ghost use Rattle.store.specs.Layout.{grid_in, start_of, slot_put, slot_words, words_after_clear, words_after_put};

use crate::slots::{Format, Slot};
use refusal::Refusal;

// The words of a store's slots, lent to be written: how they tell an empty slot from a filled one,
// and how they take a packet.
pub(crate) trait Medium {
    ghost words: { Self → List ℕ };

    // The loan of the run that the words lie in.
    ghost loan: { Self → GName };

    // Whether the words may be written.
    ghost writable: { Self → Type 0 };

    // Whether these are the words of an empty slot.
    ghost empty: { List ℕ → Bool };

    // The mark of a filled slot.
    ghost mark: { ℕ };

    // What each word is when all slots are empty.
    ghost blank: { ℕ };

    fn is_empty(slot: &[u32]) -> bool
        requires { 0 < length slot.now }
        ensures { result ≡ empty slot.now };

    fn words(&self) -> &[u32]
        ensures { result.now ≡ words self.now };

    // Makes every slot empty.
    fn blank(&mut self)
        requires { writable self.old }
        ensures words { words self.new ≡ replicate (length (words self.old)) blank }
        ensures lent { loan self.new ≡ loan self.old };

    // Fills the empty slot that begins at `at`.
    fn fill(&mut self, at: usize, packet: &[u32])
        requires writable { writable self.old }
        requires room { at + length packet.now + 1 ≤ length (words self.old) }
        requires unfilled { empty (slot_words (words self.old) at (length packet.now)) ≡ true }
        ensures words { words self.new ≡ slot_put (words self.old) at (mark ∷ packet.now) }
        ensures kept { length (words self.new) ≡ length (words self.old) }
        ensures lent { loan self.new ≡ loan self.old };

    ghost filled_by_mark: { (ws : List ℕ) → empty (mark ∷ ws) ≡ false };

    ghost empty_when_blank: { (n : ℕ) → empty (blank ∷ replicate n blank) ≡ true };
}

impl Format {
    // Makes every slot empty.
    pub(crate) fn clear<M: Medium>(self, medium: &mut M) -> Result<(), Refusal>
        requires { M.writable medium.old }
        ensures answer { refused_with result
            ≡ refusal_of_format (length (M.words medium.old)) self }
        ensures words { M.words medium.new
            ≡ words_after_clear result M.blank (M.words medium.old) }
        ensures after { OnOk result
            (EmptyGrid self (grid_in M.empty self (M.words medium.new))) }
        ensures lent { M.loan medium.new ≡ M.loan medium.old }
    {
        if !self.fits(medium.words().len()) {
            return Err(Refusal::BadFormat);
        }
        medium.blank();
        Ok(())
    }

    // Whether the slot is filled.
    pub(crate) fn held<M: Medium>(self, slots: &[u32], slot: Slot) -> Result<bool, Refusal>
        ensures answer { result ≡ answer_of_held (grid_in M.empty self slots.now) slot }
    {
        Ok(!M::is_empty(self.slot(slots, slot)?))
    }

    // Fills an empty slot.
    pub(crate) fn put<M: Medium>(
        self,
        medium: &mut M,
        slot: Slot,
        packet: &[u32],
    ) -> Result<(), Refusal>
        requires { M.writable medium.old }
        ensures answer { refused_with result
            ≡ refusal_of_put (grid_in M.empty self (M.words medium.old)) slot packet.now }
        ensures words { M.words medium.new
            ≡ words_after_put result (M.words medium.old)
            (start_of self slot) (M.mark ∷ packet.now) }
        ensures kept { length (M.words medium.new) ≡ length (M.words medium.old) }
        ensures after { AfterPut result (grid_in M.empty self (M.words medium.old))
            slot packet.now (grid_in M.empty self (M.words medium.new)) }
        ensures lent { M.loan medium.new ≡ M.loan medium.old }
    {
        let words = medium.words();
        let range = self.range(words.len(), slot)?;
        let at = range.start;
        if packet.len() != self.size {
            return Err(Refusal::WrongSize);
        }
        if !M::is_empty(&words[range]) {
            return Err(Refusal::SlotFilled);
        }
        medium.fill(at, packet);
        Ok(())
    }

    // Copies the packet of a filled slot into `run`.
    pub(crate) fn get<M: Medium>(
        self,
        slots: &[u32],
        slot: Slot,
        run: &mut [u32],
    ) -> Result<(), Refusal>
        ensures answer { refused_with result
            ≡ refusal_of_get (grid_in M.empty self slots.now) slot run.old }
        ensures after { run.new
            ≡ run_after_get result (grid_in M.empty self slots.now) slot run.old }
    {
        let words = self.slot(slots, slot)?;
        if run.len() != self.size {
            return Err(Refusal::WrongSize);
        }
        if M::is_empty(words) {
            return Err(Refusal::SlotEmpty);
        }
        run.copy_from_slice(&words[1..]);
        Ok(())
    }
}
