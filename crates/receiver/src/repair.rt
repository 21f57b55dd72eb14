//! The missing packets of a block, put into the store.
ghost use Rattle.std.specs.Prelude.{◌≡◌, ℕ, ◌+◌, ◌^◌, ◌<◌, IfErr, IfOk, slice_index};
ghost use Rattle.layout.specs.Sizes.{parity_of, Packets};
ghost use Rattle.layout.specs.Checks.{CheckedFirst, Cleared};
ghost use Rattle.receiver.specs.Meaning.{StaysShut, means};
ghost use Rattle.receiver.specs.Steps.{Lacks, AllPut, Mended};
ghost use Rattle.receiver.specs.Repairs.{repair_refusal, Conflicts, Judges, MadeWhole};

use crate::stored::StoredBlock;
use crate::{Receiver, Whole};
use code::code::Code;
use field::Arithmetic;
use layout::losses::LossList;
use layout::runs::clear;
use layout::shape::Shape;
use refusal::Refusal;
use store::SlotStore;
use store::slots::Slot;

// Puts the first packets of a run into the slots of a block at the lost positions. Over a store and no stored block: a struct that is
// lent a store to write hides what it holds afterwards. Apart from the same step over a block run in `code`: a store may refuse.
fn put_found<S: SlotStore>(
    store: &mut S,
    shape: &Shape,
    block: usize,
    losses: &LossList,
    work: &[u32],
) -> Result<(), Refusal>
    requires lacks { Lacks shape.now (S.SlotStore.grid store.old) block losses.now }
    requires work { Packets shape.now (parity_of shape.now + 1) work.now }
    ensures put { AllPut shape.now losses.now block work.now
        (S.SlotStore.grid store.old) (S.SlotStore.grid store.new) result }
    ensures words { (k : ℕ) → slice_index work.now k < 2 ^ 32 }
    ensures kept { S.SlotStore.capacity store.new ≡ S.SlotStore.capacity store.old }
    ensures shut { S.SlotStore.lock store.old ≡ 0 → S.SlotStore.lock store.new ≡ 0 }
{
    let places = losses.positions().iter();
    for (at, packet) in places.zip(work.chunks(shape.packet())) {
        let slot = Slot {
            row: block,
            column: *at,
        };
        store.put(slot, packet)?;
    }
    Ok(())
}

// Finds the missing packets of a block by way of the work run, and puts them.
fn mend<F: Arithmetic, S: SlotStore>(
    store: &mut S,
    shape: &Shape,
    block: usize,
    losses: &LossList,
    work: &mut [u32],
) -> Result<Whole, Refusal>
    requires width { shape.now.rows ≡ F.Arithmetic.bits }
    requires lacks { Lacks shape.now (S.SlotStore.grid store.old) block losses.now }
    requires work { Packets shape.now (parity_of shape.now + 1) work.old }
    ensures mended { Mended shape.now F.Arithmetic.prod losses.now
        (S.SlotStore.grid store.old) block result (S.SlotStore.grid store.new) }
    ensures kept { S.SlotStore.capacity store.new ≡ S.SlotStore.capacity store.old }
    ensures shut { S.SlotStore.lock store.old ≡ 0 → S.SlotStore.lock store.new ≡ 0 }
{
    let codec = Code::<F>::new(shape)?;
    // Made anew: the one in `repair` ends where the store is lent to be written.
    let stored = StoredBlock {
        store: &*store,
        shape: *shape,
        block,
    };
    stored.find_missing(&codec, losses, work)?;
    put_found::<S>(store, shape, block, losses, work)?;
    Ok(Whole {
        restored: losses.positions().len(),
    })
}

impl<F: Arithmetic, S: SlotStore> Receiver<F, S> {
    /// Restores the packets of a block that are missing, by way of a work run of `Shape::work` words, which is zero afterwards.
    /// Refused with `NoShape`, `OutsideShape`, `WrongRun` at place 0 or `TooFew`, whichever comes first, and then nothing changes;
    /// refused with `Contradictory` if no codeword has the packets that are held, and then only the work run changes.
    pub fn repair(&mut self, block: usize, work: &mut [u32]) -> Result<Whole, Refusal>
        ensures whole { IfOk result (λ w. MadeWhole F.Arithmetic.prod
            (means self.old) block w.restored (means self.new)) }
        ensures answer { CheckedFirst (repair_refusal (means self.old) block work.old)
            (Conflicts F.Arithmetic.prod (means self.old) block) result }
        ensures left { IfErr result (λ e. means self.new ≡ means self.old) }
        ensures work { Cleared (repair_refusal (means self.old) block work.old) work.old work.new }
        ensures judged { Judges F.Arithmetic.prod (means self.old) block work.old result }
        ensures shut { StaysShut self.old self.new }
    {
        let stored = self.block(block)?;
        let shape = stored.shape;
        shape.check_run(shape.parity() + 1, work, 0)?;
        let losses = stored.missing()?;
        let outcome = mend::<F, S>(&mut self.store, &shape, block, &losses, work);
        clear(work);
        outcome
    }
}
