//! The lines of a script: what they ask for.
use std::alloc::{AllocError, AllocFailed, Global};
use std::fmt;

/// Which arithmetic.
#[derive(Clone, Copy)]
pub enum Setting {
    Nibble,
    SteppedOctet,
    TabledOctet,
}

/// Which kind of store. A transposed one has its rows and columns exchanged.
#[derive(Clone, Copy)]
pub enum Medium {
    Memory,
    Nor,
    TransposedMemory,
    TransposedNor,
}

/// Which store, and how many words its run has.
#[derive(Clone, Copy)]
pub struct Place {
    pub medium: Medium,
    pub words: usize,
}

/// A call of the receiver; a length is that of the run which the call is lent.
#[derive(Drop)]
pub enum Call {
    Take {
        frame: Vec<u32>,
    },
    Repair {
        block: usize,
        length: usize,
    },
    Fetch {
        block: usize,
        position: usize,
        length: usize,
    },
    Count {
        block: usize,
    },
}

/// Why a line is no call.
#[derive(Clone, Copy)]
pub enum Error {
    NoArithmetic,
    NoStore,
    NoCall,
    NoWord,
    NoNumber,
    NoMemory,
}

impl fmt::Display for Error {
    fn fmt<W: fmt::Write>(&self, f: &mut fmt::Formatter<W>) -> fmt::Result {
        match self {
            Error::NoArithmetic => write!(
                f,
                "expected: arithmetic nibble | stepped-octet | tabled-octet"
            ),
            Error::NoStore => write!(
                f,
                "expected: store [transposed] memory | nor, and a number of words"
            ),
            Error::NoCall => write!(
                f,
                "expected: take HEX .. | repair BLOCK WORKLEN | fetch BLOCK POS LEN | count BLOCK"
            ),
            Error::NoWord => write!(f, "a word is eight hexadecimal digits in lower case"),
            Error::NoNumber => write!(f, "a number is decimal and below 2^64"),
            Error::NoMemory => write!(f, "there is not enough memory"),
        }
    }
}

impl From<AllocError> for Error {
    fn from(_e: AllocError) -> Error {
        Error::NoMemory
    }
}

impl<T: Drop> From<AllocFailed<T>> for Error {
    fn from(_e: AllocFailed<T>) -> Error {
        Error::NoMemory
    }
}

fn number(text: &str) -> Result<usize, Error> {
    digits::number(text).ok_or(Error::NoNumber)
}

fn word(text: &str) -> Result<u32, Error> {
    digits::word(text).ok_or(Error::NoWord)
}

fn frame(heap: Global, words: &[&str]) -> Result<Vec<u32>, Error> {
    let mut frame = Vec::new(heap);
    for text in words {
        frame.push(word(text)?)?;
    }
    Ok(frame)
}

// Functions and no `TryFrom`: the words of a line are collected on a heap, which has to be passed.
impl Setting {
    /// The arithmetic that a line names.
    pub fn parse(heap: Global, line: &str) -> Result<Setting, Error> {
        let parts: Vec<&str> = line.split_whitespace().collect(heap)?;
        match parts.as_slice() {
            ["arithmetic", "nibble"] => Ok(Setting::Nibble),
            ["arithmetic", "stepped-octet"] => Ok(Setting::SteppedOctet),
            ["arithmetic", "tabled-octet"] => Ok(Setting::TabledOctet),
            _ => Err(Error::NoArithmetic),
        }
    }
}

impl Place {
    /// The store that a line names.
    pub fn parse(heap: Global, line: &str) -> Result<Place, Error> {
        let parts: Vec<&str> = line.split_whitespace().collect(heap)?;
        let (medium, words) = match *parts.as_slice() {
            ["store", "memory", words] => (Medium::Memory, words),
            ["store", "nor", words] => (Medium::Nor, words),
            ["store", "transposed", "memory", words] => (Medium::TransposedMemory, words),
            ["store", "transposed", "nor", words] => (Medium::TransposedNor, words),
            _ => return Err(Error::NoStore),
        };
        let words = number(words)?;
        Ok(Place { medium, words })
    }
}

impl Call {
    /// The call that a line asks for.
    pub fn parse(heap: Global, line: &str) -> Result<Call, Error> {
        let parts: Vec<&str> = line.split_whitespace().collect(heap)?;
        match parts.as_slice() {
            ["take", words @ ..] => Ok(Call::Take {
                frame: frame(heap, words)?,
            }),
            ["repair", block, length] => Ok(Call::Repair {
                block: number(block)?,
                length: number(length)?,
            }),
            ["fetch", block, position, length] => Ok(Call::Fetch {
                block: number(block)?,
                position: number(position)?,
                length: number(length)?,
            }),
            ["count", block] => Ok(Call::Count {
                block: number(block)?,
            }),
            _ => Err(Error::NoCall),
        }
    }
}
