//! Two boards, each with a store and calls of its own.
ghost use Rattle.std.specs.Prelude.{◌≡◌};
ghost use Rattle.history.specs.Turns.{transcript, calls};
ghost use Rattle.history.specs.Boards.{board, octet_board};
ghost use Rattle.history.specs.Law.{TwoBoards, Together};

use crate::call::Entry;
use crate::make::make_all;
use field::Arithmetic;
use field::octet::TabledOctet;
use field::stepped::SteppedOctet;
use receiver::Receiver;
use store::SlotStore;

/// Makes the calls of each list, in order, on an unused receiver over a store in any state. Afterwards the lists have the answers,
/// and the runs as the calls left them; the calls stay. Nothing is allocated.
///
/// `law` holds whatever the calls and their runs are (`specs/Law.antt`): each is answered as the ones before it tell; a block that is
/// called whole is the one codeword that agrees with the packets accepted for it; and where the products of the arithmetics are equal,
/// both boards recover a codeword of which each accepted enough packets, and, if the capacities of the stores are equal too, give the
/// same answers to the same calls.
pub fn trial<F: Arithmetic, G: Arithmetic, S: SlotStore + Drop, T: SlotStore + Drop>(
    first_store: S,
    first_entries: &mut [Entry],
    second_store: T,
    second_entries: &mut [Entry],
)
    ensures law { TwoBoards
        (board F.Arithmetic S.SlotStore first_store)
        (transcript first_entries.old first_entries.new)
        (board G.Arithmetic T.SlotStore second_store)
        (transcript second_entries.old second_entries.new) }
    ensures first_calls { calls first_entries.new ≡ calls first_entries.old }
    ensures second_calls { calls second_entries.new ≡ calls second_entries.old }
{
    let mut one = Receiver::<F, _>::new(first_store);
    let mut other = Receiver::<G, _>::new(second_store);
    make_all(&mut one, first_entries);
    make_all(&mut other, second_entries);
}

/// A [`trial`] of two makes of octet, the stepped and the tabled one. Their products are equal, so that what holds of boards with
/// equal products holds of these.
pub fn trial_of_octets<S: SlotStore + Drop, T: SlotStore + Drop>(
    first_store: S,
    first_entries: &mut [Entry],
    second_store: T,
    second_entries: &mut [Entry],
)
    ensures law { TwoBoards
        (octet_board S.SlotStore first_store)
        (transcript first_entries.old first_entries.new)
        (octet_board T.SlotStore second_store)
        (transcript second_entries.old second_entries.new) }
    ensures together { Together
        (octet_board S.SlotStore first_store)
        (transcript first_entries.old first_entries.new)
        (octet_board T.SlotStore second_store)
        (transcript second_entries.old second_entries.new) }
    ensures first_calls { calls first_entries.new ≡ calls first_entries.old }
    ensures second_calls { calls second_entries.new ≡ calls second_entries.old }
{
    trial::<SteppedOctet, TabledOctet, _, _>(
        first_store,
        first_entries,
        second_store,
        second_entries,
    );
}
