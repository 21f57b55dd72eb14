//! A call of a receiver, its run, and what it was answered.
ghost use Rattle.std.specs.Prelude.{◌≡◌};
ghost use Rattle.history.specs.declared.call.Answer.TheVariants.{Pending};

use refusal::Refusal;

/// A call of a receiver. The run that goes with it stands beside it, in an [`Entry`].
#[derive(Clone, Copy, PartialEq, Eq, Debug)]
pub enum Call {
    /// Take the frame whose words are the run.
    Take,
    /// Repair a block by way of the run.
    Repair { block: usize },
    /// Fetch the packet of a block and a position into the run.
    Fetch { block: usize, position: usize },
    /// Count the positions that a block holds; the run is left alone.
    Count { block: usize },
}

/// What a call was answered.
#[derive(Clone, Copy, PartialEq, Eq, Debug)]
pub enum Answer {
    /// The call has not been made yet.
    Pending,
    /// To a frame: a shape was set.
    Shaped,
    /// To a frame: a packet came into its empty slot.
    Fresh,
    /// To a frame: this very packet was held already, or this very shape was set already.
    Known,
    /// To a repair: the block is whole, and so many packets had been missing.
    Whole { restored: usize },
    /// To a fetch: the run is the packet.
    Fetched,
    /// To a count: so many positions are held.
    Held { positions: usize },
    /// To any call.
    Refused(Refusal),
}

/// A call with its run and its answer. Once the call is made, the run is what the call left in it.
#[derive(Drop)]
pub struct Entry {
    pub call: Call,
    pub run: Vec<u32>,
    pub answer: Answer,
}

impl Entry {
    /// A call that is to be made with a run.
    pub fn new(call: Call, run: Vec<u32>) -> Entry
        ensures call { result.call ≡ call }
        ensures run { result.run ≡ run }
        ensures answer { result.answer ≡ Answer.Pending }
    {
        Entry {
            call,
            run,
            answer: Answer::Pending,
        }
    }
}
