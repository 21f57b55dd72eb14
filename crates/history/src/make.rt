//! The calls of a list, made one after another on one receiver.
ghost use Rattle.std.specs.Prelude.{◌≡◌};
ghost use Rattle.receiver.specs.Meaning.{means};
ghost use Rattle.history.specs.Turns.{turn, transcript, calls};
ghost use Rattle.history.specs.Steps.{taken, repaired, fetched, counted, Step, AllSteps};

use crate::call::{Answer, Call, Entry};
use field::Arithmetic;
use receiver::{Receiver, Taken, Whole};
use refusal::Refusal;
use store::SlotStore;

fn taken(said: Result<Taken, Refusal>) -> Answer
    ensures { result ≡ taken said }
{
    match said {
        Ok(Taken::Shaped) => Answer::Shaped,
        Ok(Taken::Fresh) => Answer::Fresh,
        Ok(Taken::Known) => Answer::Known,
        Err(refusal) => Answer::Refused(refusal),
    }
}

fn repaired(said: Result<Whole, Refusal>) -> Answer
    ensures { result ≡ repaired said }
{
    match said {
        Ok(Whole { restored }) => Answer::Whole { restored },
        Err(refusal) => Answer::Refused(refusal),
    }
}

fn fetched(said: Result<(), Refusal>) -> Answer
    ensures { result ≡ fetched said }
{
    match said {
        Ok(()) => Answer::Fetched,
        Err(refusal) => Answer::Refused(refusal),
    }
}

fn counted(said: Result<usize, Refusal>) -> Answer
    ensures { result ≡ counted said }
{
    match said {
        Ok(positions) => Answer::Held { positions },
        Err(refusal) => Answer::Refused(refusal),
    }
}

/// Makes the call of an entry, and enters its answer.
fn make<F: Arithmetic, S: SlotStore>(receiver: &mut Receiver<F, S>, entry: &mut Entry)
    ensures call { entry.new.call ≡ entry.old.call }
    ensures step { Step F.Arithmetic.bits F.Arithmetic.prod
        (means receiver.old) (turn entry.old entry.new) (means receiver.new) }
{
    let run = &mut entry.run;
    entry.answer = match entry.call {
        Call::Take => taken(receiver.take(run)),
        Call::Repair { block } => repaired(receiver.repair(block, run)),
        Call::Fetch { block, position } => fetched(receiver.fetch(block, position, run)),
        Call::Count { block } => counted(receiver.count(block)),
    };
}

/// Makes the calls of the entries in order.
pub(crate) fn make_all<F: Arithmetic, S: SlotStore>(
    receiver: &mut Receiver<F, S>,
    entries: &mut [Entry],
)
    ensures calls { calls entries.new ≡ calls entries.old }
    ensures run { AllSteps F.Arithmetic.bits F.Arithmetic.prod
        (means receiver.old) (transcript entries.old entries.new) (means receiver.new) }
{
    for entry in entries.iter_mut() {
        make(receiver, entry);
    }
}
