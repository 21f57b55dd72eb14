//! Reading and writing frames.
use crate::reply::{Answer, Reply, Run};
use crate::words::{Error, Words};
use frame::Frame;

pub fn read(mut words: Words) -> Result<String, Error> {
    let run = words.run()?;
    words.end()?;
    let heap = words.heap;
    let text = match Frame::try_from(run.as_slice()) {
        Ok(Frame::Shape(dimensions)) => format!(in heap; "{}", Answer::Shape(dimensions)),
        Ok(
            Frame::Packet {
                block,
                position,
                payload,
            },
        ) => { format!(in heap; "{} {}", Answer::Packet { block, position }, Run(payload)) }
        Err(refusal) => format!(in heap; "{}", Reply(Err(refusal))),
    };
    Ok(text?)
}

// Reads the run, and writes the frame into it.
fn write(mut words: Words, frame: Frame) -> Result<String, Error> {
    let mut run = words.run()?;
    words.end()?;
    let reply = Reply::done(frame.write(&mut run));
    Ok(format!(in words.heap; "{reply} {}", Run(&run))?)
}

pub fn write_shape(mut words: Words) -> Result<String, Error> {
    let dimensions = words.dimensions()?;
    write(words, Frame::Shape(dimensions))
}

pub fn write_packet(mut words: Words) -> Result<String, Error> {
    let block = words.number()?;
    let position = words.number()?;
    let payload = words.run()?;
    let frame = Frame::Packet {
        block,
        position,
        payload: &payload,
    };
    write(words, frame)
}
