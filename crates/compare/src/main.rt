//! Cases with the results that they must have, read from standard input one to a line, compared with the library's.
#![tactic(auto)]

ghost use Rattle.std.specs.Prelude.{◌≤◌, ◌↔◌, IsTrue, OnOk};
ghost use Rattle.compare.specs.Tallies.{IsAsExpected, Grows, IsClean};

mod arithmetic;
mod cases;
mod reply;
mod words;

use std::alloc::{AllocError, Global};
use std::collections::BTreeMap;
use std::io::{BufRead, BufReader, ErrorKind};
use std::process::ExitCode;
use words::Error;

// What came of the lines so far.
#[derive(Drop)]
struct Tally {
    // How many cases were compared, by their names.
    compared: BTreeMap<String, usize>,
    differ: usize,
    errors: usize,
}

impl Tally {
    fn new(heap: Global) -> Tally {
        Tally {
            compared: BTreeMap::new(heap),
            differ: 0,
            errors: 0,
        }
    }

    // Counts a case.
    fn count(&mut self, heap: Global, case: &Case) -> Result<(), AllocError>
        ensures differs { OnOk result (¬ IsAsExpected case.now → 1 ≤ self.new.differ) }
        ensures kept { Grows self.old self.new }
    {
        let name = String::from_str(heap, case.name)?;
        let count = self.compared.entry(name)?.or_insert(0);
        *count = count.saturating_add(1);
        if !case.agrees() {
            self.differ = self.differ.saturating_add(1);
        }
        Ok(())
    }

    // Tells of a line that is no case.
    fn refuse(&mut self, rt: &HostRuntime, number: u64, error: Error) -> anyhow::Result<()>
        ensures errors { 1 ≤ self.new.errors }
        ensures kept { Grows self.old self.new }
    {
        self.errors = self.errors.saturating_add(1);
        println!(rt; "error: line {number}: {error}")?;
        Ok(())
    }

    // Makes the call of a line, and compares.
    fn compare(&mut self, rt: &HostRuntime, number: u64, line: &str) -> anyhow::Result<()>
        ensures kept { Grows self.old self.new }
    {
        match Case::read(rt.alloc(), line) {
            Ok(case) => {
                self.count(rt.alloc(), &case)?;
                if !case.agrees() {
                    println!(rt; "differs: {line}")?;
                    println!(rt; "got: {}", case.got)?;
                }
                Ok(())
            }
            Err(error) => self.refuse(rt, number, error),
        }
    }

    // Whether every line was a case with the library's result.
    fn is_clean(&self) -> bool
        ensures { IsTrue result ↔ IsClean self.now }
    {
        self.differ == 0 && self.errors == 0
    }

    fn report(&self, rt: &HostRuntime) -> anyhow::Result<()> {
        let mut all: usize = 0;
        for (name, count) in &self.compared {
            println!(rt; "{name}: {count}")?;
            all = all.saturating_add(*count);
        }
        let differ = self.differ;
        let errors = self.errors;
        println!(rt; "{all} cases compared, {differ} differ, {errors} errors")?;
        Ok(())
    }
}

// A case: its name, the result that it must have, and what the library gave.
#[derive(Drop)]
struct Case<'a> {
    name: &'a str,
    expected: &'a str,
    got: String,
}

impl<'a> Case<'a> {
    // Reads a case, and makes its call.
    fn read(heap: Global, line: &'a str) -> Result<Case<'a>, Error> {
        let Some((call, expected)) = line.split_once(" = ") else {
            return Err(Error::NoResult);
        };
        let (name, arguments) = call.split_once(' ').unwrap_or((call, ""));
        Ok(Case {
            name,
            expected,
            got: cases::result(heap, name, arguments)?,
        })
    }

    // Whether the library gave what it must.
    fn agrees(&self) -> bool
        ensures { IsTrue result ↔ IsAsExpected self.now }
    {
        self.got.as_str() == self.expected
    }
}

fn run(rt: &HostRuntime) -> anyhow::Result<ExitCode> {
    let mut tally = Tally::new(rt.alloc());
    let lines = BufReader::new(rt.alloc(), rt.stdin())?.lines(rt.alloc());
    for (number, line) in (1..=u64::MAX).zip(lines) {
        match line {
            Ok(line) => {
                let text = line.as_str().trim();
                if !text.is_empty() && !text.starts_with('#') {
                    tally.compare(rt, number, text)?;
                }
            }
            // The line's bytes are no text; the next line can still be read.
            Err(error) if error.kind() == ErrorKind::InvalidData => {
                tally.refuse(rt, number, Error::NoText)?;
            }
            Err(error) => return Err(error.into()),
        }
    }
    tally.report(rt)?;
    if tally.is_clean() {
        Ok(ExitCode::SUCCESS)
    } else {
        Ok(ExitCode::FAILURE)
    }
}

fn main(rt: HostRuntime) -> anyhow::Result<ExitCode> {
    match run(&rt) {
        Ok(code) => Ok(code),
        Err(error) => {
            eprintln!(rt; "compare: {error}")?;
            Ok(ExitCode::FAILURE)
        }
    }
}
