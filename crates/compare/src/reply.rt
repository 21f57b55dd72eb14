//! Results as they stand in a case.
use layout::shape::Dimensions;
use refusal::Refusal;
use std::fmt;

/// What a call answers that is not refused.
#[derive(Clone, Copy)]
pub enum Answer {
    Done,
    Verdict(bool),
    Width(u32),
    Element(u32),
    Shape(Dimensions),
    /// The block and the position that a frame has.
    Packet { block: usize, position: usize },
    /// Those that a number of a frame stands for.
    Place { block: usize, position: usize },
    /// How many turns a broadcast has.
    Turns(usize),
    /// The number of the frame that goes out in a turn.
    Number(usize),
}

impl fmt::Display for Answer {
    fn fmt<W: fmt::Write>(&self, f: &mut fmt::Formatter<W>) -> fmt::Result {
        match self {
            Answer::Done => write!(f, "done"),
            Answer::Verdict(true) => write!(f, "yes"),
            Answer::Verdict(false) => write!(f, "no"),
            Answer::Width(width) => write!(f, "{width}"),
            Answer::Element(element) => write!(f, "{element:08x}"),
            Answer::Shape(
                Dimensions {
                    rows,
                    positions,
                    sources,
                    blocks,
                    words,
                },
            ) => write!(f, "shape {rows} {positions} {sources} {blocks} {words}"),
            Answer::Packet { block, position } => write!(f, "packet {block} {position}"),
            Answer::Place { block, position } => write!(f, "done {block} {position}"),
            Answer::Turns(turns) => write!(f, "{turns}"),
            Answer::Number(frame) => write!(f, "done {frame}"),
        }
    }
}

/// What a call answers, or the number and the values of its refusal.
#[derive(Clone, Copy)]
pub struct Reply(pub Result<Answer, Refusal>);

impl Reply {
    /// Of a call that answers no more than that it is done.
    pub fn done(outcome: Result<(), Refusal>) -> Reply {
        Reply(outcome.map(|()| Answer::Done))
    }
}

impl fmt::Display for Reply {
    fn fmt<W: fmt::Write>(&self, f: &mut fmt::Formatter<W>) -> fmt::Result {
        match self.0 {
            Ok(answer) => write!(f, "{answer}"),
            Err(refusal) => {
                let number = refusal.number();
                match refusal {
                    Refusal::WrongRun { place } => write!(f, "refused {number} {place}"),
                    Refusal::Contradictory { sum, word } => {
                        write!(f, "refused {number} {sum} {word}")
                    }
                    _ => write!(f, "refused {number}"),
                }
            }
        }
    }
}

/// A run of words in brackets.
#[derive(Clone, Copy)]
pub struct Run<'a>(pub &'a [u32]);

impl fmt::Display for Run<'_> {
    fn fmt<W: fmt::Write>(&self, f: &mut fmt::Formatter<W>) -> fmt::Result {
        write!(f, "[")?;
        for word in self.0 {
            write!(f, " {word:08x}")?;
        }
        write!(f, " ]")
    }
}
