//! One receiver over each store.
use crate::{Receiver, Taken};
use field::nibble::*;
use refusal::Refusal;
use std::process::Abort;
use store::SlotStore;
use store::memory::MemoryStore;
use store::nor::NorStore;
use store::transposed::Transposed;

// One block of three packets of four words, over the field of 16 elements.
const SHAPE: [u32; 2] = [0x14003001, 0x20010001];

// The packet of the last position.
const PACKET: [u32; 5] = [0x30000002, 7, 8, 9, 10];

fn starts<S: SlotStore>(rt: &impl Abort, receiver: &mut Receiver<Nibble, S>) {
    assert_eq!(rt; receiver.take(&[0]), Err(Refusal::BadFrame));
    assert_eq!(rt; receiver.take(&PACKET), Err(Refusal::NoShape));
    assert_eq!(rt; receiver.count(0), Err(Refusal::NoShape));
    assert_eq!(rt; receiver.take(&SHAPE), Ok(Taken::Shaped));
}

fn keeps<S: SlotStore>(rt: &impl Abort, receiver: &mut Receiver<Nibble, S>) {
    assert_eq!(rt; receiver.take(&PACKET), Ok(Taken::Fresh));
    assert_eq!(rt; receiver.take(&PACKET), Ok(Taken::Known));
    assert_eq!(rt;
        receiver.take(&[0x30000002, 7, 8, 9, 11]),
        Err(Refusal::OtherPacket)
    );
}

fn refuses<S: SlotStore>(rt: &impl Abort, receiver: &mut Receiver<Nibble, S>) {
    assert_eq!(rt;
        receiver.take(&[0x30000003, 7]),
        Err(Refusal::WrongRun { place: 0 })
    );
    assert_eq!(rt;
        receiver.take(&[0x30000003, 7, 8, 9, 10]),
        Err(Refusal::OutsideShape)
    );
    assert_eq!(rt;
        receiver.take(&[0x30001000, 7, 8, 9, 10]),
        Err(Refusal::OutsideShape)
    );
}

fn holds<S: SlotStore>(rt: &impl Abort, receiver: &Receiver<Nibble, S>) {
    assert_eq!(rt; receiver.count(0), Ok(1));
    assert_eq!(rt; receiver.count(1), Err(Refusal::OutsideShape));
    let mut run = [0; 4];
    assert_eq!(rt; receiver.fetch(0, 1, &mut run), Err(Refusal::SlotEmpty));
    assert_eq!(rt; receiver.fetch(0, 2, &mut run), Ok(()));
    assert!(rt; run == [7, 8, 9, 10]);
}

// Whether frames and packets go their ways over a store that has room for the block.
fn receives<S: SlotStore + Drop>(rt: &impl Abort, store: S) {
    let mut receiver = Receiver::<Nibble, _>::new(store);
    starts(rt, &mut receiver);
    keeps(rt, &mut receiver);
    refuses(rt, &mut receiver);
    holds(rt, &receiver);
    assert_eq!(rt; receiver.take(&SHAPE), Ok(Taken::Known));
    holds(rt, &receiver);
}

#[test]
fn over_memory(rt: HostRuntime) {
    let mut words = [5; 15];
    receives(&rt, MemoryStore::new(&mut words));
}

#[test]
fn over_memory_transposed(rt: HostRuntime) {
    let mut words = [5; 15];
    receives(&rt, Transposed(MemoryStore::new(&mut words)));
}

#[test]
fn over_flash(rt: HostRuntime) {
    let mut words = [5; 16];
    receives(&rt, NorStore::new(&mut words));
}

#[test]
fn over_flash_transposed(rt: HostRuntime) {
    let mut words = [5; 16];
    receives(&rt, Transposed(NorStore::new(&mut words)));
}

// Whether the frame of another shape gets this answer while a shape is set and a packet is held, over a store of 30 words.
fn differs(rt: &impl Abort, frame: &[u32], answer: Result<Taken, Refusal>) {
    let mut words = [5; 30];
    let mut receiver = Receiver::<Nibble, _>::new(MemoryStore::new(&mut words));
    assert_eq!(rt; receiver.take(&SHAPE), Ok(Taken::Shaped));
    assert_eq!(rt; receiver.take(&PACKET), Ok(Taken::Fresh));
    assert_eq!(rt; receiver.take(frame), answer);
    let held = if answer.is_ok() { 0 } else { 1 };
    assert_eq!(rt; receiver.count(0), Ok(held));
}

// Shapes that differ in one number: positions, sources, blocks, words, and rows, which no nibble has.
#[test]
fn another_shape_is_not_known(rt: HostRuntime) {
    let shaped = Ok(Taken::Shaped);
    differs(&rt, &[0x14004001, 0x20010001], shaped);
    differs(&rt, &[0x14003002, 0x20010001], shaped);
    differs(&rt, &[0x14003001, 0x20020001], shaped);
    differs(&rt, &[0x14003001, 0x20010002], shaped);
    differs(&rt, &[0x15003001, 0x20010001], Err(Refusal::OtherWidth));
}

#[test]
fn a_store_too_small_leaves_it_blank(rt: HostRuntime) {
    let mut words = [0; 14];
    let mut receiver = Receiver::<Nibble, _>::new(MemoryStore::new(&mut words));
    assert_eq!(rt; receiver.take(&SHAPE), Err(Refusal::BadFormat));
    assert_eq!(rt;
        receiver.take(&[0x30000002, 7, 8, 9, 10]),
        Err(Refusal::NoShape)
    );
}

#[test]
fn a_shape_too_large_leaves_the_one_that_is_set(rt: HostRuntime) {
    let mut words = [0; 15];
    let mut receiver = Receiver::<Nibble, _>::new(MemoryStore::new(&mut words));
    assert_eq!(rt; receiver.take(&SHAPE), Ok(Taken::Shaped));
    assert_eq!(rt; receiver.take(&PACKET), Ok(Taken::Fresh));
    assert_eq!(rt;
        receiver.take(&[0x14003001, 0x20020001]),
        Err(Refusal::BadFormat)
    );
    assert_eq!(rt; receiver.take(&SHAPE), Ok(Taken::Known));
    holds(&rt, &receiver);
}
