//! Calls of an arithmetic.
use crate::arithmetic::{Call, Setting};
use crate::reply::{Answer, Reply};
use crate::words::{Error, Words};
use field::Arithmetic;
use refusal::Refusal;

#[derive(Clone, Copy)]
enum FieldCall {
    Width,
    Product { a: u32, b: u32 },
    Inverse { a: u32 },
}

impl Call for FieldCall {
    fn make<F: Arithmetic>(&mut self) -> Result<Answer, Refusal> {
        match *self {
            FieldCall::Width => Ok(Answer::Width(F::width())),
            FieldCall::Product { a, b } => Ok(Answer::Element(F::product(a, b))),
            FieldCall::Inverse { a } => Ok(Answer::Element(F::inverse(a))),
        }
    }
}

// Makes the call, if nothing stands behind its arguments.
fn finish(mut words: Words, arithmetic: Setting, mut call: FieldCall) -> Result<String, Error> {
    words.end()?;
    let reply = Reply(arithmetic.make(&mut call));
    Ok(format!(in words.heap; "{reply}")?)
}

pub fn width(mut words: Words) -> Result<String, Error> {
    let arithmetic = words.arithmetic()?;
    finish(words, arithmetic, FieldCall::Width)
}

pub fn product(mut words: Words) -> Result<String, Error> {
    let arithmetic = words.arithmetic()?;
    let a = words.word()?;
    let b = words.word()?;
    finish(words, arithmetic, FieldCall::Product { a, b })
}

pub fn inverse(mut words: Words) -> Result<String, Error> {
    let arithmetic = words.arithmetic()?;
    let a = words.word()?;
    finish(words, arithmetic, FieldCall::Inverse { a })
}
