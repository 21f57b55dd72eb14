//! The arguments of a case, word by word.
use crate::arithmetic::Setting;
use layout::losses::LossList;
use layout::shape::{Dimensions, Shape};
use refusal::Refusal;
use std::alloc::{AllocError, AllocFailed, Global};
use std::fmt;
use std::str::SplitWhitespace;
use store::slots::{Format, Slot};

/// Why a line is no case.
#[derive(Clone, Copy)]
pub enum Error {
    NoText,
    NoResult,
    NoName,
    NoArithmetic,
    NoStore,
    NoStoreCall,
    NoWord,
    NoNumber,
    NoList,
    TooFewArguments,
    TooManyArguments,
    /// Of a shape or a loss list that the case builds on.
    Refused(Refusal),
    NoMemory,
}

impl fmt::Display for Error {
    fn fmt<W: fmt::Write>(&self, f: &mut fmt::Formatter<W>) -> fmt::Result {
        match self {
            Error::NoText => write!(f, "a line is text in UTF-8"),
            Error::NoResult => write!(f, "a case has a result behind ` = `"),
            Error::NoName => write!(f, "no case has this name"),
            Error::NoArithmetic => write!(f, "expected: nibble | stepped-octet | tabled-octet"),
            Error::NoStore => write!(f, "expected: [transposed] memory | nor"),
            Error::NoStoreCall => write!(f, "expected: format | held | put | get"),
            Error::NoWord => write!(f, "a word is eight hexadecimal digits in lower case"),
            Error::NoNumber => write!(f, "a number is decimal and below 2^64"),
            Error::NoList => write!(
                f,
                "a run stands in square brackets, a loss list in curly ones"
            ),
            Error::TooFewArguments => write!(f, "there are too few arguments"),
            Error::TooManyArguments => write!(f, "there are too many arguments"),
            Error::Refused(refusal) => {
                write!(f, "the shape or the loss list is refused: {refusal}")
            }
            Error::NoMemory => write!(f, "there is not enough memory"),
        }
    }
}

impl From<Refusal> for Error {
    fn from(refusal: Refusal) -> Error {
        Error::Refused(refusal)
    }
}

impl From<AllocError> for Error {
    fn from(_e: AllocError) -> Error {
        Error::NoMemory
    }
}

impl<T: Drop> From<AllocFailed<T>> for Error {
    fn from(_e: AllocFailed<T>) -> Error {
        Error::NoMemory
    }
}

fn number(text: &str) -> Result<usize, Error> {
    digits::number(text).ok_or(Error::NoNumber)
}

fn word(text: &str) -> Result<u32, Error> {
    digits::word(text).ok_or(Error::NoWord)
}

/// The words that are still to be read. Each is read as what the call wants in its place.
#[derive(Drop)]
pub struct Words<'a> {
    pub heap: Global,
    rest: SplitWhitespace<'a>,
}

impl<'a> Words<'a> {
    pub fn new(heap: Global, text: &'a str) -> Words<'a> {
        Words {
            heap,
            rest: text.split_whitespace(),
        }
    }

    pub fn text(&mut self) -> Result<&'a str, Error> {
        self.rest.next().ok_or(Error::TooFewArguments)
    }

    pub fn number(&mut self) -> Result<usize, Error> {
        number(self.text()?)
    }

    pub fn word(&mut self) -> Result<u32, Error> {
        word(self.text()?)
    }

    pub fn arithmetic(&mut self) -> Result<Setting, Error> {
        Setting::parse(self.text()?)
    }

    pub fn dimensions(&mut self) -> Result<Dimensions, Error> {
        Ok(Dimensions {
            rows: self.number()?,
            positions: self.number()?,
            sources: self.number()?,
            blocks: self.number()?,
            words: self.number()?,
        })
    }

    /// The arithmetic that a shape is made for, and its dimensions.
    pub fn shape(&mut self) -> Result<Shape, Error> {
        let arithmetic = self.arithmetic()?;
        Ok(arithmetic.shape(self.dimensions()?)?)
    }

    pub fn slot(&mut self) -> Result<Slot, Error> {
        Ok(Slot {
            row: self.number()?,
            column: self.number()?,
        })
    }

    pub fn format(&mut self) -> Result<Format, Error> {
        Ok(Format {
            rows: self.number()?,
            columns: self.number()?,
            size: self.number()?,
        })
    }

    // The items between two brackets.
    fn list<T: Drop, P: Fn(&str) -> Result<T, Error>>(
        &mut self,
        open: &str,
        close: &str,
        parse: P,
    ) -> Result<Vec<T>, Error>
        requires { P.IsAlwaysCallable parse }
    {
        if self.text()? != open {
            return Err(Error::NoList);
        }
        let mut items = Vec::new(self.heap);
        for text in self.rest.by_ref() {
            if text == close {
                return Ok(items);
            }
            items.push(parse(text)?)?;
        }
        Err(Error::NoList)
    }

    pub fn run(&mut self) -> Result<Vec<u32>, Error> {
        self.list("[", "]", word)
    }

    pub fn positions(&mut self) -> Result<Vec<usize>, Error> {
        self.list("{", "}", number)
    }

    /// A shape, and a loss list that it accepts.
    pub fn losses(&mut self) -> Result<LossList, Error> {
        let shape = self.shape()?;
        let positions = self.positions()?;
        Ok(LossList::new(&shape, &positions)?)
    }

    /// Nothing stands behind the arguments.
    pub fn end(&mut self) -> Result<(), Error> {
        match self.rest.next() {
            None => Ok(()),
            Some(_) => Err(Error::TooManyArguments),
        }
    }
}
