//! A receiver before its first frame, and what it refuses then.
ghost use Rattle.std.specs.Prelude.{◌≡◌, None, Some, IfOk};
ghost use Rattle.refusal.specs.Numbers.{refused_with};
ghost use Rattle.receiver.specs.Calls.{ShapeSaid, of_shape, block_refusal};

use crate::Receiver;
use crate::stored::StoredBlock;
use field::Arithmetic;
use layout::shape::Shape;
use refusal::Refusal;
use std::marker::PhantomData;
use store::SlotStore;

impl<F: Arithmetic, S: SlotStore> Receiver<F, S> {
    /// A blank receiver over a store; of its arithmetic it asks the type alone: `Receiver::<TabledOctet, _>::new(store)`.
    pub fn new(store: S) -> Receiver<F, S>
        ensures blank { result.shape ≡ None }
        ensures store { result.store ≡ store }
    {
        Receiver {
            field: PhantomData,
            store,
            shape: None,
        }
    }

    /// The shape that is set, of which a board knows the sizes of its runs; refused with `NoShape` while none is.
    pub fn shape(&self) -> Result<Shape, Refusal>
        ensures { ShapeSaid self.now.shape result }
    {
        self.shape.ok_or(Refusal::NoShape)
    }

    // A block of the shape; refused while none is set, and outside the shape.
    pub(crate) fn block(&self, block: usize) -> Result<StoredBlock<'_, S>, Refusal>
        ensures answer { refused_with result
            ≡ of_shape self.now.shape (λ s. block_refusal s block) }
        ensures shape { IfOk result (λ stored. self.now.shape ≡ Some stored.shape) }
        ensures at { IfOk result (λ stored. stored.block ≡ block) }
        ensures store { IfOk result (λ stored. stored.store.now ≡ self.now.store) }
    {
        let shape = self.shape()?;
        if block >= shape.blocks() {
            return Err(Refusal::OutsideShape);
        }
        Ok(StoredBlock {
            store: &self.store,
            shape,
            block,
        })
    }
}
