//! Calls of one store in a row.
use crate::reply::{Answer, Reply, Run};
use crate::words::{Error, Words};
use std::alloc::Global;
use std::str::Split;
use store::SlotStore;
use store::memory::MemoryStore;
use store::nor::NorStore;
use store::transposed::Transposed;

// The calls that are still to be made.
type Calls<'a> = Split<'a, &'static str>;

#[derive(Clone, Copy)]
enum Medium {
    Memory,
    Nor,
    TransposedMemory,
    TransposedNor,
}

impl Medium {
    fn read(words: &mut Words) -> Result<Medium, Error> {
        match words.text()? {
            "memory" => Ok(Medium::Memory),
            "nor" => Ok(Medium::Nor),
            "transposed" => match words.text()? {
                "memory" => Ok(Medium::TransposedMemory),
                "nor" => Ok(Medium::TransposedNor),
                _ => Err(Error::NoStore),
            },
            _ => Err(Error::NoStore),
        }
    }
}

// Makes one call of the store.
fn call<S: SlotStore>(store: &mut S, mut words: Words) -> Result<String, Error> {
    let heap = words.heap;
    match words.text()? {
        "format" => {
            let format = words.format()?;
            words.end()?;
            let reply = Reply::done(store.format(format));
            Ok(format!(in heap; "{reply}")?)
        }
        "held" => {
            let slot = words.slot()?;
            words.end()?;
            let reply = Reply(store.held(slot).map(Answer::Verdict));
            Ok(format!(in heap; "{reply}")?)
        }
        "put" => {
            let slot = words.slot()?;
            let packet = words.run()?;
            words.end()?;
            let reply = Reply::done(store.put(slot, &packet));
            Ok(format!(in heap; "{reply} {}", Run(&packet))?)
        }
        "get" => {
            let slot = words.slot()?;
            let mut packet = words.run()?;
            words.end()?;
            let reply = Reply::done(store.get(slot, &mut packet));
            Ok(format!(in heap; "{reply} {}", Run(&packet))?)
        }
        _ => Err(Error::NoStoreCall),
    }
}

// Makes the calls, and writes what each gives.
fn serve<S: SlotStore + Drop>(heap: Global, mut store: S, calls: Calls) -> Result<String, Error> {
    let mut results = String::new(heap);
    for part in calls {
        let result = call(&mut store, Words::new(heap, part))?;
        write!(results, "{result} ; ")?;
    }
    Ok(results)
}

/// The results of the calls, and the words of the run behind them.
pub fn store(heap: Global, arguments: &str) -> Result<String, Error> {
    let mut calls = arguments.split(" ; ");
    let mut head = Words::new(heap, calls.next().unwrap_or(""));
    let medium = Medium::read(&mut head)?;
    let mut words = head.run()?;
    head.end()?;
    // Each arm has a store of another type.
    let mut results = match medium {
        Medium::Memory => serve(heap, MemoryStore::new(&mut words), calls),
        Medium::Nor => serve(heap, NorStore::new(&mut words), calls),
        Medium::TransposedMemory => serve(heap, Transposed(MemoryStore::new(&mut words)), calls),
        Medium::TransposedNor => serve(heap, Transposed(NorStore::new(&mut words)), calls),
    }?;
    write!(results, "{}", Run(&words))?;
    Ok(results)
}
