//! Calls of the sender.
use crate::arithmetic::Call;
use crate::reply::{Answer, Reply, Run};
use crate::words::{Error, Words};
use field::Arithmetic;
use layout::shape::Shape;
use refusal::Refusal;
use sender::numbering::place;
use sender::{Transmission, broadcast};

#[derive(Drop)]
struct Preparation {
    shape: Shape,
    image: Vec<u32>,
    parity: Vec<u32>,
}

impl Call for Preparation {
    fn make<F: Arithmetic>(&mut self) -> Result<Answer, Refusal> {
        sender::prepare::prepare::<F>(&self.shape, &self.image, &mut self.parity)?;
        Ok(Answer::Done)
    }
}

pub fn prepare(mut words: Words) -> Result<String, Error> {
    let arithmetic = words.arithmetic()?;
    let shape = words.shape()?;
    let image = words.run()?;
    let parity = words.run()?;
    words.end()?;
    let mut call = Preparation {
        shape,
        image,
        parity,
    };
    let reply = Reply(arithmetic.make(&mut call));
    Ok(format!(in words.heap; "{reply} {} {}", Run(&call.image), Run(&call.parity))?)
}

pub fn numbering(mut words: Words) -> Result<String, Error> {
    let shape = words.shape()?;
    let number = words.number()?;
    words.end()?;
    let at = place(&shape, number);
    let reply = Reply(at.map(|(block, position)| Answer::Place { block, position }));
    Ok(format!(in words.heap; "{reply}")?)
}

pub fn turns(mut words: Words) -> Result<String, Error> {
    let shape = words.shape()?;
    words.end()?;
    let reply = Answer::Turns(broadcast::turns(&shape));
    Ok(format!(in words.heap; "{reply}")?)
}

pub fn turn(mut words: Words) -> Result<String, Error> {
    let shape = words.shape()?;
    let turn = words.number()?;
    words.end()?;
    let reply = Reply(broadcast::frame_of(&shape, turn).map(Answer::Number));
    Ok(format!(in words.heap; "{reply}")?)
}

pub fn payload(mut words: Words) -> Result<String, Error> {
    let shape = words.shape()?;
    let number = words.number()?;
    let image = words.run()?;
    let parity = words.run()?;
    words.end()?;
    let sent = Transmission {
        shape: &shape,
        image: &image,
        parity: &parity,
    };
    let text = match sent.payload(number) {
        Ok(payload) => format!(in words.heap; "{} {}", Answer::Done, Run(payload)),
        Err(refusal) => format!(in words.heap; "{}", Reply(Err(refusal))),
    };
    Ok(text?)
}

pub fn frame(mut words: Words) -> Result<String, Error> {
    let shape = words.shape()?;
    let number = words.number()?;
    let image = words.run()?;
    let parity = words.run()?;
    let mut frame = words.run()?;
    words.end()?;
    let sent = Transmission {
        shape: &shape,
        image: &image,
        parity: &parity,
    };
    let reply = Reply::done(sent.frame(&mut frame, number));
    Ok(format!(in words.heap; "{reply} {} {} {}", Run(&image), Run(&parity), Run(&frame))?)
}
