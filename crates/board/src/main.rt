//! Calls of one receiver, read from standard input one to a line, and their answers, one to a line.
#![tactic(auto)]

mod answer;
mod call;

use answer::{Answer, Failure};
use call::{Call, Error, Medium, Place, Setting};
use field::Arithmetic;
use field::nibble::Nibble;
use field::octet::TabledOctet;
use field::stepped::SteppedOctet;
use layout::shape::LONGEST;
use receiver::Receiver;
use std::alloc::{AllocError, Global};
use std::io::{BufRead, BufReader, Lines, Stdin};
use std::process::ExitCode;
use store::SlotStore;
use store::memory::MemoryStore;
use store::nor::NorStore;
use store::transposed::Transposed;

// The lines that are still to come.
type Input = Lines<BufReader<Stdin>>;

// What a line says, but for empty lines and comments.
fn said(line: &str) -> Option<&str> {
    let text = line.trim();
    if text.is_empty() || text.starts_with('#') {
        None
    } else {
        Some(text)
    }
}

// One word more than the longest run that a receiver takes, the work run of 32 parity packets and one of scratch.
const TOO_LONG: usize = 33 * LONGEST + 1;

// A run of so many zeros. A longer one than any receiver takes is made no longer than that: it is refused all the same.
fn run_of(heap: Global, length: usize) -> Result<Vec<u32>, AllocError> {
    vec![in heap; 0; length.min(TOO_LONG)]
}

// Makes one call.
fn respond<F: Arithmetic, S: SlotStore>(
    heap: Global,
    receiver: &mut Receiver<F, S>,
    call: Call,
) -> Result<Answer, Failure> {
    match call {
        Call::Take { frame } => Ok(Answer::Taken(receiver.take(&frame)?)),
        Call::Repair { block, length } => {
            let mut work = run_of(heap, length)?;
            Ok(Answer::Whole(receiver.repair(block, &mut work)?))
        }
        Call::Fetch {
            block,
            position,
            length,
        } => {
            let mut run = run_of(heap, length)?;
            receiver.fetch(block, position, &mut run)?;
            Ok(Answer::Packet(run))
        }
        Call::Count { block } => Ok(Answer::Held(receiver.count(block)?)),
    }
}

// Answers every call that is still to come.
fn serve<F: Arithmetic, S: SlotStore + Drop>(
    rt: &HostRuntime,
    store: S,
    input: Input,
) -> anyhow::Result<()> {
    let mut receiver = Receiver::<F, _>::new(store);
    for line in input {
        let line = line?;
        let Some(text) = said(line.as_str()) else {
            continue;
        };
        match Call::parse(rt.alloc(), text) {
            Ok(call) => match respond(rt.alloc(), &mut receiver, call) {
                Ok(answer) => println!(rt; "{answer}")?,
                Err(Failure::Refused(refused)) => println!(rt; "{refused}")?,
                Err(Failure::NoMemory(error)) => return Err(error.into()),
            },
            Err(error) => println!(rt; "error: {error}")?,
        }
    }
    Ok(())
}

// Serves over the store that is asked for. Each arm has a store of another type, so no table of stores will do.
fn over<F: Arithmetic>(rt: &HostRuntime, place: Place, input: Input) -> anyhow::Result<()> {
    let mut words = vec![in rt.alloc(); 0; place.words]?;
    match place.medium {
        Medium::Memory => serve::<F, _>(rt, MemoryStore::new(&mut words), input),
        Medium::Nor => serve::<F, _>(rt, NorStore::new(&mut words), input),
        Medium::TransposedMemory => serve::<F, _>(
            rt,
            Transposed(MemoryStore::new(&mut words)),
            input,
        ),
        Medium::TransposedNor => serve::<F, _>(rt, Transposed(NorStore::new(&mut words)), input),
    }
}

// What the first line says that `parse` understands; each line before it gets an error.
fn heading<T, P: Fn(Global, &str) -> Result<T, Error>>(
    rt: &HostRuntime,
    input: &mut Input,
    parse: P,
) -> anyhow::Result<Option<T>>
    requires { P.IsAlwaysCallable parse }
{
    for line in input.by_ref() {
        let line = line?;
        let Some(text) = said(line.as_str()) else {
            continue;
        };
        match parse(rt.alloc(), text) {
            Ok(heading) => return Ok(Some(heading)),
            Err(error) => println!(rt; "error: {error}")?,
        }
    }
    Ok(None)
}

fn run(rt: &HostRuntime) -> anyhow::Result<()> {
    let mut input = BufReader::new(rt.alloc(), rt.stdin())?.lines(rt.alloc());
    let Some(setting) = heading(rt, &mut input, Setting::parse)? else {
        return Ok(());
    };
    let Some(place) = heading(rt, &mut input, Place::parse)? else {
        return Ok(());
    };
    // Each arm has an arithmetic of another type.
    match setting {
        Setting::Nibble => over::<Nibble>(rt, place, input),
        Setting::SteppedOctet => over::<SteppedOctet>(rt, place, input),
        Setting::TabledOctet => over::<TabledOctet>(rt, place, input),
    }
}

fn main(rt: HostRuntime) -> anyhow::Result<ExitCode> {
    match run(&rt) {
        Ok(()) => Ok(ExitCode::SUCCESS),
        Err(error) => {
            eprintln!(rt; "board: {error}")?;
            Ok(ExitCode::FAILURE)
        }
    }
}
