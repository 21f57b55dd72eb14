//! The field of 16 elements with α^4 = α + 1, by tables.
ghost use Rattle.field.specs.Fields.{nibble};

use crate::tabled::Tabled;
use crate::tables::ByteTables;

const WIDTH: u32 = 4;

// α^i at place i.
const POWERS: [u8; 15] = [1, 2, 4, 8, 3, 6, 12, 11, 5, 10, 7, 14, 15, 13, 9];

// i at place α^i.
const LOGARITHMS: [u8; 16] = [0, 0, 1, 4, 2, 8, 5, 10, 3, 14, 9, 7, 6, 13, 11, 12];

/// The tables of the nibbles.
#[derive(Clone, Copy)]
pub struct NibbleTables;

/// The nibbles by the tables, which take 31 bytes.
pub type Nibble = Tabled<NibbleTables>;

#[tactic(auto, unfolding(galois::specs::Field::double, galois::specs::Tables::powers_from, galois::specs::Tables::powers, galois::specs::Tables::entered, galois::specs::Tables::logarithms))]
impl ByteTables for NibbleTables {
    ghost bits = { 4 };

    ghost poly = { 0x13 };

    ghost generates = { nibble };

    fn width() -> u32 {
        WIDTH
    }

    fn powers() -> &'static [u8] {
        &POWERS
    }

    fn logarithms() -> &'static [u8] {
        &LOGARITHMS
    }
}
