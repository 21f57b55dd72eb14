//! Strings of calls on two boards of different make.
use crate::call::{Answer, Call, Entry};
use crate::trial::trial_of_octets;
use refusal::Refusal;
use std::alloc::Global;
use std::process::Abort;
use std::test::Fail;
use store::memory::MemoryStore;
use store::nor::NorStore;
use store::transposed::Transposed;

// One block of three packets of eight words, over the field of 256 elements: position 2 is source.
const SHAPE: &[u32] = &[0x18003001, 0x20010001];

// The same with two source packets in a block.
const OTHER_SHAPE: &[u32] = &[0x18003002, 0x20010001];

// The packets of positions 0 and 2 of one codeword, and what is at position 1.
const FIRST: &[u32] = &[0x30000000, 0, 1, 0, 0, 0, 0, 0, 0];

const LAST: &[u32] = &[0x30000002, 1, 0, 0, 0, 0, 0, 0, 0];

const MIDDLE: &[u32] = &[1, 1, 0, 0, 0, 0, 0, 0];

// Another packet of position 2, which no codeword has with FIRST.
const CLASHING: &[u32] = &[0x30000002, 7, 0, 0, 0, 0, 0, 0, 0];

const SEVENS: &[u32] = &[7; 24];

const ZEROS: &[u32] = &[0; 24];

// A call with its run, the answer that the rules give, and the run that they leave.
#[derive(Clone, Copy)]
struct Row<'a> {
    call: Call,
    run: &'a [u32],
    answer: Answer,
    after: &'a [u32],
}

// A call that leaves its run.
fn leaves(call: Call, run: &'static [u32], answer: Answer) -> Row<'static> {
    Row {
        call,
        run,
        answer,
        after: run,
    }
}

fn take(frame: &'static [u32], answer: Answer) -> Row<'static> {
    leaves(Call::Take, frame, answer)
}

fn refused(call: Call, run: &'static [u32], refusal: Refusal) -> Row<'static> {
    leaves(call, run, Answer::Refused(refusal))
}

fn entries(heap: Global, rows: &[Row<'_>]) -> Result<Vec<Entry>, Fail> {
    let mut entries = Vec::new(heap);
    for row in rows {
        entries.push(Entry::new(row.call, row.run.to_vec(heap)?))?;
    }
    Ok(entries)
}

fn answered(rt: &impl Abort, entries: &[Entry], rows: &[Row<'_>]) {
    assert_eq!(rt; entries.len(), rows.len());
    for (entry, row) in entries.iter().zip(rows) {
        assert_eq!(rt; entry.call, row.call);
        assert_eq!(rt; entry.answer, row.answer);
        assert_eq!(rt; entry.run.as_slice(), row.after);
    }
}

// The calls of the rows on two boards of different make, whose stores have words of any kind at first.
fn boards(heap: Global, rt: &impl Abort, its: &[Row<'_>], theirs: &[Row<'_>]) -> Result<(), Fail> {
    let mut first_entries = entries(heap, its)?;
    let mut second_entries = entries(heap, theirs)?;
    let mut memory = [5; 27];
    let mut flash = [5; 28];
    trial_of_octets(
        MemoryStore::new(&mut memory),
        &mut first_entries,
        Transposed(NorStore::new(&mut flash)),
        &mut second_entries,
    );
    answered(rt, &first_entries, its);
    answered(rt, &second_entries, theirs);
    Ok(())
}

const REPAIR: Call = Call::Repair { block: 0 };

const FETCH: Call = Call::Fetch {
    block: 0,
    position: 1,
};

const COUNT: Call = Call::Count { block: 0 };

// Each accepts another packet of one codeword, and both recover it.
#[test]
fn both_recover(rt: HostRuntime) -> Result<(), Fail> {
    let whole = Row {
        after: ZEROS,
        ..leaves(REPAIR, SEVENS, Answer::Whole { restored: 2 })
    };
    let fetched = Row {
        after: MIDDLE,
        ..leaves(FETCH, &SEVENS[..8], Answer::Fetched)
    };
    let shaped = take(SHAPE, Answer::Shaped);
    let counted = leaves(COUNT, &[], Answer::Held { positions: 3 });
    boards(
        rt.alloc(),
        &rt,
        &[
            shaped,
            take(FIRST, Answer::Fresh),
            whole,
            fetched,
            counted,
            take(LAST, Answer::Known),
        ],
        &[
            shaped,
            take(LAST, Answer::Fresh),
            take(LAST, Answer::Known),
            whole,
            take(CLASHING, Answer::Refused(Refusal::OtherPacket)),
            fetched,
        ],
    )
}

// The same calls, before and after a block is contradictory; in between the shape comes again, which wipes nothing, and another shape,
// which wipes all.
#[test]
fn both_answer_alike(rt: HostRuntime) -> Result<(), Fail> {
    let shaped = take(SHAPE, Answer::Shaped);
    let fresh = take(FIRST, Answer::Fresh);
    let contradictory = Row {
        after: ZEROS,
        ..refused(REPAIR, SEVENS, Refusal::Contradictory { sum: 1, word: 1 })
    };
    let rows = [
        refused(COUNT, &[], Refusal::NoShape),
        refused(Call::Take, &[], Refusal::BadFrame),
        shaped,
        refused(REPAIR, SEVENS, Refusal::TooFew),
        refused(FETCH, &SEVENS[..8], Refusal::SlotEmpty),
        fresh,
        take(SHAPE, Answer::Known),
        leaves(COUNT, &[9], Answer::Held { positions: 1 }),
        take(FIRST, Answer::Known),
        take(OTHER_SHAPE, Answer::Shaped),
        leaves(COUNT, &[9], Answer::Held { positions: 0 }),
        shaped,
        fresh,
        take(CLASHING, Answer::Fresh),
        contradictory,
        leaves(COUNT, &[], Answer::Held { positions: 2 }),
    ];
    boards(rt.alloc(), &rt, &rows, &rows)
}

// Wrong runs, and numbers that no shape has.
#[test]
fn both_refuse_alike(rt: HostRuntime) -> Result<(), Fail> {
    let wrong = Refusal::WrongRun { place: 0 };
    let far = Call::Repair { block: usize::MAX };
    let outside = Call::Fetch {
        block: 0,
        position: usize::MAX,
    };
    let rows = [
        take(SHAPE, Answer::Shaped),
        refused(Call::Take, &[0x30000002, 1], wrong),
        refused(REPAIR, &SEVENS[1..], wrong),
        refused(FETCH, &SEVENS[..7], wrong),
        refused(far, SEVENS, Refusal::OutsideShape),
        refused(outside, &SEVENS[..8], Refusal::OutsideShape),
        refused(
            Call::Count { block: usize::MAX },
            &[],
            Refusal::OutsideShape,
        ),
    ];
    boards(rt.alloc(), &rt, &rows, &rows)
}
