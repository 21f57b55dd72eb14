//! What the stores keep and refuse, and what they leave in their words.
ghost use Rattle.std.specs.Prelude.{◌≡◌, ◌-◌, ◌∷◌, length, replicate, OnOk};
ghost use Rattle.store.specs.Layout.{slot_put, start_of};
ghost use Rattle.store.specs.Nor.{lock_of, run_after_put};

use crate::SlotStore;
use crate::memory::MemoryStore;
use crate::nor::NorStore;
use crate::slots::{Format, Slot};
use crate::transposed::Transposed;
use refusal::Refusal;
use std::process::Abort;

fn slot(row: usize, column: usize) -> Slot {
    Slot { row, column }
}

fn format(rows: usize, columns: usize, size: usize) -> Format {
    Format {
        rows,
        columns,
        size,
    }
}

// A packet goes in at one place and comes out there alone.
fn keeps<S: SlotStore>(rt: &impl Abort, store: &mut S) {
    assert_eq!(rt; store.format(format(1, 3, 4)), Ok(()));
    assert_eq!(rt; store.put(slot(0, 1), &[7, 8, 9, 10]), Ok(()));
    assert_eq!(rt;
        store.put(slot(0, 1), &[0, 0, 0, 0]),
        Err(Refusal::SlotFilled)
    );
    assert_eq!(rt; store.put(slot(0, 1), &[0]), Err(Refusal::WrongSize));
    assert_eq!(rt; store.put(slot(1, 1), &[0]), Err(Refusal::OutsideGrid));
    assert_eq!(rt; store.held(slot(0, 1)), Ok(true));
    assert_eq!(rt; store.held(slot(0, 2)), Ok(false));
    let mut run = [0; 4];
    assert_eq!(rt; store.get(slot(0, 2), &mut run), Err(Refusal::SlotEmpty));
    assert_eq!(rt; store.get(slot(0, 1), &mut run), Ok(()));
    assert!(rt; run == [7, 8, 9, 10]);
}

#[test]
fn fifteen_words_hold_three_packets_of_four(rt: HostRuntime) {
    let mut words = [5; 15];
    let mut store = MemoryStore::new(&mut words);
    assert_eq!(rt; store.held(slot(0, 0)), Err(Refusal::OutsideGrid));
    keeps(&rt, &mut store);
}

#[test]
fn flash_does_too_with_a_word_for_the_lock(rt: HostRuntime) {
    let mut words = [5; 16];
    let mut store = NorStore::new(&mut words);
    keeps(&rt, &mut store);
}

#[test]
fn stores_say_how_many_words_they_need(rt: HostRuntime) {
    assert_eq!(rt; MemoryStore::words_for(format(2, 3, 4)), Some(30));
    assert_eq!(rt; NorStore::words_for(format(2, 3, 4)), Some(31));
    assert_eq!(rt; MemoryStore::words_for(format(1024, 1, 1)), None);
    assert_eq!(rt; NorStore::words_for(format(1, 0, 1)), None);
}

#[test]
fn fourteen_words_do_not(rt: HostRuntime) {
    let mut words = [0; 14];
    let mut store = Transposed(MemoryStore::new(&mut words));
    assert_eq!(rt; store.format(format(3, 1, 4)), Err(Refusal::BadFormat));
}

#[test]
fn numbers_of_any_size(rt: HostRuntime) {
    let mut words = [0; 9];
    let mut store = NorStore::new(&mut words);
    assert_eq!(rt; store.format(format(1024, 1, 1)), Err(Refusal::BadFormat));
    assert_eq!(rt; store.format(format(1, 1, 257)), Err(Refusal::BadFormat));
    assert_eq!(rt;
        store.format(format(4294967295, 4294967295, 4294967295)),
        Err(Refusal::BadFormat)
    );
    assert_eq!(rt; store.format(format(2, 2, 1)), Ok(()));
    assert_eq!(rt;
        store.held(slot(4294967295, 4294967295)),
        Err(Refusal::OutsideGrid)
    );
}

#[test]
fn an_empty_run_holds_nothing(rt: HostRuntime) {
    let mut words: [u32; 0] = [];
    let mut store = NorStore::new(&mut words);
    assert_eq!(rt; store.format(format(1, 1, 1)), Err(Refusal::BadFormat));
    assert_eq!(rt; store.put(slot(0, 0), &[]), Err(Refusal::OutsideGrid));
}

// Whoever lent the run to a store knows its words when the store is gone.
fn left_by_memory(
    words: &mut [u32],
    format: Format,
    slot: Slot,
    packet: &[u32],
) -> Result<(), Refusal>
    ensures { OnOk result (words.new
        ≡ slot_put (replicate (length words.old) 0)
        (start_of format slot) (1 ∷ packet.now)) }
{
    let mut store = MemoryStore::new(words);
    store.format(format)?;
    store.put(slot, packet)
}

// In flash the lock is shut, also by a refusal.
fn left_by_flash(
    words: &mut [u32],
    format: Format,
    slot: Slot,
    packet: &[u32],
) -> Result<(), Refusal>
    ensures shut { lock_of words.new ≡ 0 }
    ensures run { OnOk result (words.new
        ≡ run_after_put result (0 ∷ replicate (length words.old - 1) 4294967295)
        (start_of format slot) packet.now) }
{
    let mut store = NorStore::new(words);
    store.format(format)?;
    store.put(slot, packet)
}

#[test]
fn the_run_is_known_afterwards(rt: HostRuntime) {
    let mut words = [5; 5];
    let mut flash = [5; 6];
    assert_eq!(rt;
        left_by_memory(&mut words, format(1, 2, 1), slot(0, 1), &[7]),
        Ok(())
    );
    assert!(rt; words == [0, 0, 1, 7, 0]);
    assert_eq!(rt;
        left_by_flash(&mut flash, format(1, 2, 1), slot(0, 1), &[7]),
        Ok(())
    );
    assert!(rt; flash == [0, 4294967295, 4294967295, 0, 7, 4294967295]);
}
