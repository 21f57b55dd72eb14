//! The three arithmetics, by name.
use crate::reply::Answer;
use crate::words::Error;
use field::Arithmetic;
use field::nibble::Nibble;
use field::octet::TabledOctet;
use field::stepped::SteppedOctet;
use layout::shape::{Dimensions, Shape};
use refusal::Refusal;

/// A call of the library that any arithmetic can make.
pub trait Call {
    fn make<F: Arithmetic>(&mut self) -> Result<Answer, Refusal>;
}

/// Which arithmetic.
#[derive(Clone, Copy)]
pub enum Setting {
    Nibble,
    SteppedOctet,
    TabledOctet,
}

// Each arm has an arithmetic of another type.
impl Setting {
    /// The arithmetic of a name.
    pub fn parse(text: &str) -> Result<Setting, Error> {
        match text {
            "nibble" => Ok(Setting::Nibble),
            "stepped-octet" => Ok(Setting::SteppedOctet),
            "tabled-octet" => Ok(Setting::TabledOctet),
            _ => Err(Error::NoArithmetic),
        }
    }

    /// Makes a call over the arithmetic.
    pub fn make<C: Call>(self, call: &mut C) -> Result<Answer, Refusal> {
        match self {
            Setting::Nibble => call.make::<Nibble>(),
            Setting::SteppedOctet => call.make::<SteppedOctet>(),
            Setting::TabledOctet => call.make::<TabledOctet>(),
        }
    }

    /// A shape for the arithmetic.
    pub fn shape(self, dimensions: Dimensions) -> Result<Shape, Refusal> {
        match self {
            Setting::Nibble => Shape::new::<Nibble>(dimensions),
            Setting::SteppedOctet => Shape::new::<SteppedOctet>(dimensions),
            Setting::TabledOctet => Shape::new::<TabledOctet>(dimensions),
        }
    }
}
