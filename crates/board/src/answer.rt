//! What a board says to a call.
use receiver::{Taken, Whole};
use refusal::Refusal;
use std::alloc::AllocError;
use std::fmt;

/// An answer that is no refusal.
#[derive(Drop)]
pub enum Answer {
    Taken(Taken),
    Whole(Whole),
    Packet(Vec<u32>),
    /// How many packets of a block are there.
    Held(usize),
}

impl fmt::Display for Answer {
    fn fmt<W: fmt::Write>(&self, f: &mut fmt::Formatter<W>) -> fmt::Result {
        match self {
            Answer::Taken(Taken::Shaped) => write!(f, "shaped"),
            Answer::Taken(Taken::Fresh) => write!(f, "fresh"),
            Answer::Taken(Taken::Known) => write!(f, "known"),
            Answer::Whole(Whole { restored }) => write!(f, "whole {restored}"),
            Answer::Packet(words) => {
                write!(f, "packet")?;
                for word in words {
                    write!(f, " {word:08x}")?;
                }
                Ok(())
            }
            Answer::Held(held) => write!(f, "held {held}"),
        }
    }
}

/// A refusal, by its number and values.
#[derive(Clone, Copy)]
pub struct Refused(pub Refusal);

impl fmt::Display for Refused {
    fn fmt<W: fmt::Write>(&self, f: &mut fmt::Formatter<W>) -> fmt::Result {
        let number = self.0.number();
        match self.0 {
            Refusal::WrongRun { place } => write!(f, "refused {number} {place}"),
            Refusal::Contradictory { sum, word } => write!(f, "refused {number} {sum} {word}"),
            _ => write!(f, "refused {number}"),
        }
    }
}

/// Why a call has no answer.
#[derive(Clone, Copy)]
pub enum Failure {
    Refused(Refused),
    NoMemory(AllocError),
}

impl From<Refusal> for Failure {
    fn from(refusal: Refusal) -> Failure {
        Failure::Refused(Refused(refusal))
    }
}

impl From<AllocError> for Failure {
    fn from(error: AllocError) -> Failure {
        Failure::NoMemory(error)
    }
}
