//! Why a call of this project was refused: one list of numbered refusals.
//!
//! ```
//! assert_eq!(rt; Refusal::WrongRun { place: 1 }.number(), 5);
//! ```
#![tactic(auto)]

ghost use Rattle.std.specs.Prelude.{◌≡◌, Some};
ghost use Rattle.refusal.specs.Numbers.{number_of};
ghost use Rattle.refusal.specs.Texts.{text_of};

use std::error::Error;
use std::fmt;

#[derive(Clone, Copy, PartialEq, Eq, Debug)]
pub enum Refusal {
    /// 1: the rows of a packet are not the width of the arithmetic.
    OtherWidth,
    /// 2: there are no source positions, no parity positions, or more than 32 of the latter.
    BadCounts,
    /// 3: the block has more positions than the field has nonzero elements.
    TooLong,
    /// 4: the number of blocks or of words in a row is out of its range.
    BadSize,
    /// 5: the run at this place, counted from 0, has not its number of words.
    WrongRun { place: usize },
    /// 6: the lost positions do not ascend, or one is outside the block.
    BadLosses,
    /// 7: fewer packets are left than a block has source positions.
    TooFew,
    /// 8: no codeword has the packets that are left: the lowest sum that is not zero, and its first word that is not.
    Contradictory { sum: usize, word: usize },
    /// 9: the words are neither a shape frame nor a packet frame.
    BadFrame,
    /// 10: no shape is set.
    NoShape,
    /// 11: the block, the position or the frame number is outside the shape.
    OutsideShape,
    /// 12: the slot holds another packet.
    OtherPacket,
    /// 20: a number of the format is 0 or too large, or the slots exceed the store.
    BadFormat,
    /// 21: the row or the column is outside the grid.
    OutsideGrid,
    /// 22: the slot is filled.
    SlotFilled,
    /// 23: the slot is empty.
    SlotEmpty,
    /// 24: the run has not the size of a packet.
    WrongSize,
}

impl Refusal {
    /// The number by which a refusal is known outside the program.
    pub fn number(&self) -> u32
        ensures { result ≡ number_of self.now }
    {
        match self {
            Refusal::OtherWidth => 1,
            Refusal::BadCounts => 2,
            Refusal::TooLong => 3,
            Refusal::BadSize => 4,
            Refusal::WrongRun { .. } => 5,
            Refusal::BadLosses => 6,
            Refusal::TooFew => 7,
            Refusal::Contradictory { .. } => 8,
            Refusal::BadFrame => 9,
            Refusal::NoShape => 10,
            Refusal::OutsideShape => 11,
            Refusal::OtherPacket => 12,
            Refusal::BadFormat => 20,
            Refusal::OutsideGrid => 21,
            Refusal::SlotFilled => 22,
            Refusal::SlotEmpty => 23,
            Refusal::WrongSize => 24,
        }
    }
}

impl fmt::Display for Refusal {
    ghost output = { λ e. Some (text_of e) };

    fn fmt<W: fmt::Write>(&self, f: &mut fmt::Formatter<W>) -> fmt::Result {
        let number = self.number();
        match self {
            Refusal::OtherWidth => write!(
                f,
                "refusal {number}: the packets have other rows than the arithmetic has bits"
            ),
            Refusal::BadCounts => write!(
                f,
                "refusal {number}: the counts of source and parity positions do not fit"
            ),
            Refusal::TooLong => write!(f, "refusal {number}: a block is too long for this field"),
            Refusal::BadSize => write!(
                f,
                "refusal {number}: too many or no blocks, or words in a row"
            ),
            Refusal::WrongRun { place } => write!(
                f,
                "refusal {number}: run {place} has not its number of words"
            ),
            Refusal::BadLosses => write!(
                f,
                "refusal {number}: the lost positions do not ascend within the block"
            ),
            Refusal::TooFew => write!(f, "refusal {number}: too few packets are left"),
            Refusal::Contradictory { sum, word } => {
                write!(
                    f,
                    "refusal {number}: the packets contradict each other at sum {sum}, word {word}"
                )
            }
            Refusal::BadFrame => write!(f, "refusal {number}: the words are no frame"),
            Refusal::NoShape => write!(f, "refusal {number}: no shape is set"),
            Refusal::OutsideShape => write!(
                f,
                "refusal {number}: the block, the position or the frame is outside the shape"
            ),
            Refusal::OtherPacket => write!(f, "refusal {number}: the slot holds another packet"),
            Refusal::BadFormat => write!(f, "refusal {number}: the format does not fit the store"),
            Refusal::OutsideGrid => write!(f, "refusal {number}: the slot is outside the grid"),
            Refusal::SlotFilled => write!(f, "refusal {number}: the slot is filled"),
            Refusal::SlotEmpty => write!(f, "refusal {number}: the slot is empty"),
            Refusal::WrongSize => write!(
                f,
                "refusal {number}: the run has not the size of a packet"
            ),
        }
    }
}

impl Error for Refusal {}
