//! Arithmetic in the fields of 2^m elements, m from 3 to 10, behind one trait.
//!
//! [`nibble::Nibble`] is the field of 16 elements. [`octet::TabledOctet`] and [`stepped::SteppedOctet`] are that of 256, by
//! tables and by steps: the one is faster, and the other needs no table. A field of one's own is an impl of [`Arithmetic`], or
//! of [`tables::ByteTables`] where it goes by tables of bytes.
//!
//! ```
//! let product = TabledOctet::product(0x02, 0x80);
//! assert_eq!(rt; product, 0x1D);
//! assert_eq!(rt; TabledOctet::product(product, TabledOctet::inverse(0x80)), 0x02);
//! ```
#![tactic(auto)]

pub mod alpha;
pub mod nibble;
pub mod octet;
pub mod power;
pub mod same;
pub mod stepped;
pub mod tabled;
pub mod tables;
#[cfg(test)]
mod tests;

ghost use Rattle.std.specs.Prelude.{◌≡◌, ℕ, ◌%◌, ◌^◌};
ghost use Rattle.galois.specs.Field.{FieldLaws};

/// A field whose elements are the numbers below 2^bits: bit j stands for α^j, α is 2, and the sum is `^`.
///
/// An operand is a plain word, of which the low `bits` bits are read: every word stands for an element, so that none has to be
/// tested or made.
pub trait Arithmetic {
    ghost bits: { ℕ };

    ghost prod: { ℕ → ℕ → ℕ };

    ghost inv: { ℕ → ℕ };

    /// The number of bits of an element.
    fn width() -> u32
        ensures { result ≡ bits };

    fn product(a: u32, b: u32) -> u32
        ensures { result ≡ prod (a % 2 ^ bits) (b % 2 ^ bits) };

    /// The inverse, and 0 for 0.
    fn inverse(a: u32) -> u32
        ensures { result ≡ inv (a % 2 ^ bits) };

    ghost field: { FieldLaws bits prod inv };
}
