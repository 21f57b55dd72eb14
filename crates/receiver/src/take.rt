//! Frames in.
ghost use Rattle.std.specs.Prelude.{◌≡◌, ◌≤◌, true, length, IfOk, Some};
ghost use Rattle.refusal.specs.Numbers.{refused_with};
ghost use Rattle.layout.specs.Sizes.{packet_of};
ghost use Rattle.layout.specs.declared.shape.Dimensions.{Dimensions};
ghost use Rattle.frame.specs.Frames.{shape, parse};
ghost use Rattle.store.specs.Calls.{refusal_of_get};
ghost use Rattle.receiver.specs.Meaning.{StaysShut, means};
ghost use Rattle.receiver.specs.Calls.{is_set, start_refusal, Started, slot_holds, packet_refusal, TookPacket, take_refusal, Took};

use crate::{Receiver, Taken};
use field::Arithmetic;
use frame::Frame;
use layout::shape::{Dimensions, LONGEST, Shape};
use refusal::Refusal;
use store::SlotStore;
use store::slots::{Format, Slot};

/// The format of a store for a shape: a row for each block, a column for each position, and in each slot a packet.
pub fn format_for(shape: &Shape) -> Format
    ensures rows { result.rows ≡ shape.now.blocks }
    ensures columns { result.columns ≡ shape.now.positions }
    ensures size { result.size ≡ packet_of shape.now }
{
    Format {
        rows: shape.blocks(),
        columns: shape.positions(),
        size: shape.packet(),
    }
}

impl<F: Arithmetic, S: SlotStore> Receiver<F, S> {
    // Whether the shape that is set has these dimensions.
    fn is_set(&self, dimensions: Dimensions) -> bool
        ensures { result ≡ is_set self.now.shape dimensions }
    {
        self.shape
            .is_some_and(|shape| shape.dimensions() == dimensions)
    }

    // Sets a shape of these dimensions, and formats the store for it.
    fn start(&mut self, dimensions: Dimensions) -> Result<Taken, Refusal>
        ensures answer { refused_with result
            ≡ start_refusal F.Arithmetic.bits (means self.old) dimensions }
        ensures after { Started (means self.old) dimensions result (means self.new) }
        ensures shut { StaysShut self.old self.new }
    {
        let shape = Shape::new::<F>(dimensions)?;
        self.store.format(format_for(&shape))?;
        self.shape = Some(shape);
        Ok(Taken::Shaped)
    }

    // Whether a filled slot holds just these words; refused as the store refuses to read it.
    fn holds(&self, slot: Slot, words: &[u32]) -> Result<bool, Refusal>
        requires { length words.now ≤ 160 }
        ensures answer { refused_with result
            ≡ refusal_of_get (S.SlotStore.grid self.now.store) slot words.now }
        ensures same { IfOk result (λ same. same ≡ slot_holds
            ((S.SlotStore.grid self.now.store).slots slot.row slot.column) words.now) }
    {
        // Room for a packet of any shape: a board has no heap.
        let mut packet = [0; LONGEST];
        let held = &mut packet[0..words.len()];
        self.store.get(slot, held)?;
        Ok(*held == *words)
    }

    // Puts a packet into its slot, unless it is there already. The slot is read first: a packet that is known leaves a store's lock shut.
    fn keep(
        &mut self,
        shape: Shape,
        block: usize,
        position: usize,
        payload: &[u32],
    ) -> Result<Taken, Refusal>
        requires { self.old.shape ≡ Some shape }
        ensures answer { refused_with result
            ≡ packet_refusal (means self.old) block position payload.now }
        ensures after { TookPacket (means self.old) block position payload.now
            result (means self.new) }
        ensures shut { StaysShut self.old self.new }
    {
        shape.check_run(1, payload, 0)?;
        let slot = self.block(block)?.slot(position)?;
        match self.holds(slot, payload) {
            Ok(true) => Ok(Taken::Known),
            Ok(false) => Err(Refusal::OtherPacket),
            Err(Refusal::SlotEmpty) => {
                self.store.put(slot, payload)?;
                Ok(Taken::Fresh)
            }
            Err(refusal) => Err(refusal),
        }
    }

    /// Takes a frame: a shape starts a transmission, also in the midst of one, unless it is the shape that is set, which is known and
    /// changes nothing; a packet goes into its slot. A refused frame leaves what the receiver holds; `BadFrame` comes first, then the
    /// checks of another shape and `BadFormat`, or `NoShape`, `WrongRun` at place 0, `OutsideShape` and `OtherPacket`.
    pub fn take(&mut self, words: &[u32]) -> Result<Taken, Refusal>
        ensures answer { refused_with result
            ≡ take_refusal F.Arithmetic.bits (means self.old) (parse words.now) }
        ensures after { Took (means self.old) (parse words.now) result (means self.new) }
        ensures again { (d : Dimensions) → parse words.now ≡ shape d
            → is_set self.old.shape d ≡ true → self.new ≡ self.old }
        ensures shut { StaysShut self.old self.new }
    {
        match (self.shape, Frame::try_from(words)?) {
            (_, Frame::Shape(dimensions)) if self.is_set(dimensions) => Ok(Taken::Known),
            (_, Frame::Shape(dimensions)) => self.start(dimensions),
            (None, Frame::Packet { .. }) => Err(Refusal::NoShape),
            (
                Some(shape),
                Frame::Packet {
                    block,
                    position,
                    payload,
                },
            ) => self.keep(shape, block, position, payload),
        }
    }
}
