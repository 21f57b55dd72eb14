//! What a board is asked: to take the frames that arrive, to repair every block, and to give every packet.
ghost use Rattle.std.specs.Prelude.{IfOk};
ghost use Rattle.sender.specs.Broadcast.{turns_of};
ghost use Rattle.joint.specs.Asked.{InTurns, Repairs, FetchesAll};

use crate::head_end::HeadEnd;
use crate::link::Link;
use history::call::{Call, Entry};
use layout::shape::Shape;
use sender::broadcast::{frame_of, turns};
use sender::numbering::{frames, place};
use std::alloc::Global;

/// To take each frame that goes out once the board is awake, and that the link does not lose, in the order of the broadcast.
pub fn takes(heap: Global, head_end: &HeadEnd, link: &Link) -> anyhow::Result<Vec<Entry>>
    ensures { IfOk result (λ entries. InTurns head_end.now
        link.now.late (turns_of head_end.now.shape) entries.items) }
{
    let shape = head_end.shape();
    let mut entries = Vec::new(heap);
    for turn in link.late()..turns(shape) {
        let number = frame_of(shape, turn)?;
        if link.loses(number)? {
            continue;
        }
        let frame = head_end.frame(heap, number)?;
        entries.push(Entry::new(Call::Take, frame))?;
    }
    Ok(entries)
}

/// To repair each block.
pub fn repairs(heap: Global, shape: &Shape) -> anyhow::Result<Vec<Entry>>
    ensures { IfOk result (λ entries. Repairs shape.now entries.items) }
{
    let mut entries = Vec::new(heap);
    for block in 0..shape.blocks() {
        let work = vec![in heap; 0; shape.work()]?;
        entries.push(Entry::new(Call::Repair { block }, work))?;
    }
    Ok(entries)
}

/// To fetch each packet, in the order of the frames.
pub fn fetches(heap: Global, shape: &Shape) -> anyhow::Result<Vec<Entry>>
    ensures { IfOk result (λ entries. FetchesAll shape.now entries.items) }
{
    let mut entries = Vec::new(heap);
    for number in 1..frames(shape) {
        let (block, position) = place(shape, number)?;
        let run = vec![in heap; 0; shape.packet()]?;
        entries.push(Entry::new(Call::Fetch { block, position }, run))?;
    }
    Ok(entries)
}
