//! A block of packets in a store.
ghost use Rattle.std.specs.Prelude.{◌≡◌, ◌+◌, ◌<◌, length, Ok, IfOk};
ghost use Rattle.refusal.specs.Numbers.{refused_with};
ghost use Rattle.layout.specs.Sizes.{parity_of, packet_of, Packets};
ghost use Rattle.layout.specs.Blocks.{ZeroRun};
ghost use Rattle.code.specs.Values.{code};
ghost use Rattle.receiver.specs.Sound.{Fitted};
ghost use Rattle.receiver.specs.Calls.{position_refusal};
ghost use Rattle.receiver.specs.Blocks.{Missing};
ghost use Rattle.receiver.specs.Steps.{FoundMissing, HeldSummed};

use code::code::Code;
use field::Arithmetic;
use layout::losses::LossList;
use layout::runs::clear;
use layout::shape::Shape;
use refusal::Refusal;
use store::SlotStore;
use store::slots::Slot;

// A block of a shape: the store fits the shape, and the block lies inside.
#[derive(Drop)]
pub(crate) struct StoredBlock<'a, S: SlotStore> {
    pub(crate) store: &'a S,
    pub(crate) shape: Shape,
    pub(crate) block: usize,
    ghost fitted: { Fitted shape (S.SlotStore.grid store.now) },
    ghost inside: { block < shape.blocks },
}

impl<'a, S: SlotStore> StoredBlock<'a, S> {
    ghost use Rattle.receiver.specs.Stored.{Counts, Lists, after_read, grid_in, has, read_refused};

    // The slot of a position; refused outside the shape.
    pub(crate) fn slot(&self, position: usize) -> Result<Slot, Refusal>
        ensures answer { refused_with result ≡ position_refusal self.now.shape position }
        ensures row { IfOk result (λ slot. slot.row ≡ self.now.block) }
        ensures column { IfOk result (λ slot. slot.column ≡ position) }
    {
        if position >= self.shape.positions() {
            return Err(Refusal::OutsideShape);
        }
        Ok(Slot {
            row: self.block,
            column: position,
        })
    }

    // Copies the packet of a position into `run`.
    pub(crate) fn get(&self, position: usize, run: &mut [u32]) -> Result<(), Refusal>
        ensures answer { refused_with result ≡ read_refused self.now position run.old }
        ensures after { run.new ≡ after_read self.now result position run.old }
    {
        let slot = self.slot(position)?;
        self.shape.check_run(1, run, 0)?;
        self.store.get(slot, run)
    }

    // Whether a position is held.
    fn held(&self, position: usize) -> Result<bool, Refusal>
        requires { position < self.now.shape.positions }
        ensures { result ≡ Ok (has self.now position) }
    {
        self.store.held(self.slot(position)?)
    }

    // How many positions are held.
    pub(crate) fn count(&self) -> Result<usize, Refusal>
        ensures { Counts self.now result }
    {
        // A loop, since nothing tells the closure of a `try_fold` that its number so far is small enough to be raised.
        let mut held = 0;
        for position in 0..self.shape.positions() {
            if self.held(position)? {
                held += 1;
            }
        }
        Ok(held)
    }

    // The positions that are not held; refused if these are too many.
    pub(crate) fn missing(&self) -> Result<LossList, Refusal>
        ensures { Lists self.now result }
    {
        let mut losses = LossList::none();
        for position in 0..self.shape.positions() {
            if !self.held(position)? {
                losses.push(&self.shape, position)?;
            }
        }
        Ok(losses)
    }

    // Adds the packets that are held to sums that are zero at first, each by way of `scratch`. Apart from the same step over a block
    // run in `code`, since a run lends its packets, where a store copies them and may refuse. The list tells which are held; a mark is
    // looked at by `get` alone, which refuses an empty slot.
    fn absorb_held<F: Arithmetic>(
        &self,
        codec: &Code<F>,
        losses: &LossList,
        sums: &mut [u32],
        scratch: &mut [u32],
    ) -> Result<(), Refusal>
        requires codec { codec.now.shape ≡ self.now.shape }
        requires missing { Missing self.now.shape (grid_in self.now) self.now.block losses.now }
        requires sums { Packets self.now.shape (parity_of self.now.shape) sums.old }
        requires zero { ZeroRun sums.old }
        requires scratch { length scratch.old ≡ packet_of self.now.shape }
        ensures { HeldSummed (code codec.now) (grid_in self.now) self.now.block sums.new result }
    {
        for position in 0..self.shape.positions() {
            if !losses.contains(position) {
                self.get(position, scratch)?;
                codec.absorb(sums, position, scratch)?;
            }
        }
        Ok(())
    }

    // Finds the missing packets: they stand in the first places of the work run afterwards.
    pub(crate) fn find_missing<F: Arithmetic>(
        &self,
        codec: &Code<F>,
        losses: &LossList,
        work: &mut [u32],
    ) -> Result<(), Refusal>
        requires codec { codec.now.shape ≡ self.now.shape }
        requires missing { Missing self.now.shape (grid_in self.now) self.now.block losses.now }
        requires work { Packets self.now.shape (parity_of self.now.shape + 1) work.old }
        ensures { FoundMissing (code codec.now) losses.now (grid_in self.now) self.now.block
            work.new result }
    {
        clear(work);
        let (sums, scratch) = work.split_at_mut(self.shape.parity() * self.shape.packet());
        self.absorb_held(codec, losses, sums, scratch)?;
        codec.rebuild(losses, sums, scratch)
    }
}
