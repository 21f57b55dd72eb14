//! What a receiver holds: packets out, and how many a block has.
ghost use Rattle.std.specs.Prelude.{◌≡◌};
ghost use Rattle.refusal.specs.Numbers.{refused_with};
ghost use Rattle.receiver.specs.Meaning.{after_fetch, means};
ghost use Rattle.receiver.specs.Calls.{fetch_refusal, count_refusal, Counted};

use crate::Receiver;
use field::Arithmetic;
use refusal::Refusal;
use store::SlotStore;

impl<F: Arithmetic, S: SlotStore> Receiver<F, S> {
    /// Copies the packet of a block and a position into `run`; refused with `NoShape`, `OutsideShape`, `WrongRun` at place 0 or
    /// `SlotEmpty`, whichever comes first, and then the run stays.
    pub fn fetch(&self, block: usize, position: usize, run: &mut [u32]) -> Result<(), Refusal>
        ensures answer { refused_with result
            ≡ fetch_refusal (means self.now) block position run.old }
        ensures after { run.new ≡ after_fetch self.now result block position run.old }
    {
        self.block(block)?.get(position, run)
    }

    /// How many positions of a block are held; refused with `NoShape` or `OutsideShape`.
    pub fn count(&self, block: usize) -> Result<usize, Refusal>
        ensures answer { refused_with result ≡ count_refusal (means self.now) block }
        ensures counted { Counted (means self.now) block result }
    {
        self.block(block)?.count()
    }
}
