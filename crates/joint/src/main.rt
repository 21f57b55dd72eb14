//! Sends a firmware image from a head-end to two boards of different make, over links that lose packets, and tells whether
//! both end with the image that was sent.
#![tactic(auto)]

ghost use Rattle.std.specs.Prelude.{◌↔◌, IsTrue, IfOk};
ghost use Rattle.joint.specs.Held.{GaveSent};

mod board;
mod head_end;
mod link;
mod script;

use anyhow::{anyhow, ensure};
use board::Board;
use head_end::{HeadEnd, shape_for};
use history::trial::trial_of_octets;
use layout::shape::{Dimensions, Shape};
use link::Link;
use receiver::take::format_for;
use refusal::Refusal;
use sender::broadcast::{PACKETS, turns};
use sender::numbering::frames;
use std::alloc::Global;
use std::process::ExitCode;
use std::{env, fs};
use store::memory::MemoryStore;
use store::nor::NorStore;
use store::transposed::Transposed;

const USAGE: &str = "usage: joint [--late FRAMES] IMAGE [POSITIONS SOURCES WORDS]";

// What is asked for on the command line: an image file, the dimensions of one block, and how many frames go out before the tabled board
// wakes.
#[derive(Drop)]
struct Job {
    path: String,
    block: Dimensions,
    late: usize,
}

fn number(args: &mut env::Args, default: usize) -> anyhow::Result<usize> {
    let Some(text) = args.next() else {
        return Ok(default);
    };
    text.as_str().parse().map_err(|_| anyhow!("FRAMES, POSITIONS, SOURCES and WORDS are numbers"))
}

fn asked(rt: &HostRuntime) -> anyhow::Result<Job> {
    let mut args = env::args(rt)?;
    let _ = args.next();
    let mut first = args.next();
    let mut late = 0;
    if first.as_ref().is_some_and(|word| word.as_str() == "--late") {
        late = number(&mut args, 0)?;
        first = args.next();
    }
    let Some(path) = first else {
        return Err(anyhow!(USAGE));
    };
    let block = Dimensions {
        rows: 8,
        positions: number(&mut args, 20)?,
        sources: number(&mut args, 16)?,
        blocks: 1,
        words: number(&mut args, 4)?,
    };
    ensure!(args.next().is_none(), USAGE);
    Ok(Job { path, block, late })
}

// Tells what is sent, in which order, and to whom.
fn announce(
    rt: &HostRuntime,
    path: &str,
    length: usize,
    shape: &Shape,
    late: usize,
) -> anyhow::Result<()> {
    let Dimensions {
        rows,
        positions,
        sources,
        blocks,
        words,
    } = shape.dimensions();
    println!(rt; "image: {path}, {length} bytes")?;
    println!(rt;
        "shape: {rows} rows of {words} words in a packet, {positions} packets in a block, {sources} of them source; blocks: {blocks}"
    )?;
    let packets = frames(shape) - 1;
    let repeats = turns(shape) - frames(shape);
    println!(rt;
        "broadcast: the shape, then {packets} packets, and behind every {PACKETS} of them the shape again; repeats: {repeats}"
    )?;
    if late > 0 {
        println!(rt; "the tabled board wakes after {late} frames")?;
    }
    Ok(())
}

// Whether both boards hold what was sent.
fn compare(
    rt: &HostRuntime,
    head_end: &HeadEnd,
    stepped: &Board,
    tabled: &Board,
) -> anyhow::Result<bool>
    ensures { IfOk result (λ both. IsTrue both ↔
        (GaveSent head_end.now stepped.now × GaveSent head_end.now tabled.now)) }
{
    let first = stepped.report(rt, head_end)?;
    let second = tabled.report(rt, head_end)?;
    Ok(first && second)
}

// One board keeps its packets in memory, the other in flash, with rows and columns exchanged.
fn boards(rt: &HostRuntime, head_end: &HeadEnd, late: usize) -> anyhow::Result<bool> {
    let heap = rt.alloc();
    let shape = *head_end.shape();
    let format = format_for(&shape);
    let mut memory = vec![in heap; 0; MemoryStore::words_for(format).ok_or(Refusal::BadFormat)?]?;
    let mut flash = vec![in heap; 0; NorStore::words_for(format).ok_or(Refusal::BadFormat)?]?;
    let stepped_link = Link::new(heap, shape, 0x2545_F491, 0)?;
    let tabled_link = Link::new(heap, shape, 0x9E37_79B9, late)?;
    let mut stepped = Board::new(heap, "stepped", stepped_link, head_end)?;
    let mut tabled = Board::new(heap, "tabled", tabled_link, head_end)?;
    trial_of_octets(
        MemoryStore::new(&mut memory),
        &mut stepped.entries,
        Transposed(NorStore::new(&mut flash)),
        &mut tabled.entries,
    );
    stepped.require()?;
    tabled.require()?;
    for block in 0..shape.blocks() {
        stepped.tell(rt, block)?;
        tabled.tell(rt, block)?;
    }
    compare(rt, head_end, &stepped, &tabled)
}

fn run(rt: &HostRuntime) -> anyhow::Result<()> {
    let Job { path, block, late } = asked(rt)?;
    let path = path.as_str();
    let Ok(image) = fs::read(rt, path) else {
        return Err(anyhow!("the image file cannot be read"));
    };
    ensure!(!image.is_empty(), "the image file is empty");
    let shape = shape_for(block, image.len())?;
    announce(rt, path, image.len(), &shape, late)?;
    let head_end = HeadEnd::new(rt.alloc(), shape, &image)?;
    ensure!(
        boards(rt, &head_end, late)?,
        "the boards do not hold the same image"
    );
    println!(rt; "both boards hold the same image")?;
    Ok(())
}

fn main(rt: HostRuntime) -> anyhow::Result<ExitCode> {
    match run(&rt) {
        Ok(()) => Ok(ExitCode::SUCCESS),
        Err(error) => {
            eprintln!(rt; "joint: {error}")?;
            Ok(ExitCode::FAILURE)
        }
    }
}
