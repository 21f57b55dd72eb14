//! Shapes, loss lists, and the calls over one block.
use crate::arithmetic::{Call, Setting};
use crate::reply::{Answer, Reply, Run};
use crate::words::{Error, Words};
use code::code::Code;
use field::Arithmetic;
use layout::losses::LossList;
use layout::shape::Shape;
use refusal::Refusal;

pub fn shape(mut words: Words) -> Result<String, Error> {
    let arithmetic = words.arithmetic()?;
    let dimensions = words.dimensions()?;
    words.end()?;
    let reply = Reply(arithmetic.shape(dimensions).map(|_| Answer::Done));
    Ok(format!(in words.heap; "{reply}")?)
}

pub fn losses(mut words: Words) -> Result<String, Error> {
    let shape = words.shape()?;
    let positions = words.positions()?;
    words.end()?;
    let reply = Reply(LossList::new(&shape, &positions).map(|_| Answer::Done));
    Ok(format!(in words.heap; "{reply}")?)
}

// Which call over a block, with what stands between its shape and its two runs.
#[derive(Clone, Copy)]
enum Step {
    Encode,
    Check,
    Repair(LossList),
    Absorb { position: usize },
    Rebuild(LossList),
}

// A call over two runs.
#[derive(Drop)]
struct BlockCall {
    shape: Shape,
    step: Step,
    first: Vec<u32>,
    second: Vec<u32>,
}

impl Call for BlockCall {
    fn make<F: Arithmetic>(&mut self) -> Result<Answer, Refusal> {
        let shape = &self.shape;
        let first = &mut self.first;
        let second = &mut self.second;
        match &self.step {
            Step::Encode => code::block::encode::<F>(shape, first, second)?,
            Step::Check => {
                return Ok(Answer::Verdict(code::block::check::<F>(shape, first, second)?));
            }
            Step::Repair(losses) => code::block::repair::<F>(shape, first, losses, second)?,
            Step::Absorb { position } => {
                Code::<F>::new(shape)?.absorb(first, *position, second)?;
            }
            Step::Rebuild(losses) => Code::<F>::new(shape)?.rebuild(losses, first, second)?,
        }
        Ok(Answer::Done)
    }
}

// Reads the two runs, and makes the call.
fn finish(
    mut words: Words,
    arithmetic: Setting,
    shape: Shape,
    step: Step,
) -> Result<String, Error> {
    let first = words.run()?;
    let second = words.run()?;
    words.end()?;
    let mut call = BlockCall {
        shape,
        step,
        first,
        second,
    };
    let reply = Reply(arithmetic.make(&mut call));
    Ok(format!(in words.heap; "{reply} {} {}", Run(&call.first), Run(&call.second))?)
}

pub fn encode(mut words: Words) -> Result<String, Error> {
    let arithmetic = words.arithmetic()?;
    let shape = words.shape()?;
    finish(words, arithmetic, shape, Step::Encode)
}

pub fn check(mut words: Words) -> Result<String, Error> {
    let arithmetic = words.arithmetic()?;
    let shape = words.shape()?;
    finish(words, arithmetic, shape, Step::Check)
}

pub fn repair(mut words: Words) -> Result<String, Error> {
    let arithmetic = words.arithmetic()?;
    let shape = words.shape()?;
    let losses = words.losses()?;
    finish(words, arithmetic, shape, Step::Repair(losses))
}

pub fn absorb(mut words: Words) -> Result<String, Error> {
    let arithmetic = words.arithmetic()?;
    let shape = words.shape()?;
    let position = words.number()?;
    finish(words, arithmetic, shape, Step::Absorb { position })
}

pub fn rebuild(mut words: Words) -> Result<String, Error> {
    let arithmetic = words.arithmetic()?;
    let shape = words.shape()?;
    let losses = words.losses()?;
    finish(words, arithmetic, shape, Step::Rebuild(losses))
}
