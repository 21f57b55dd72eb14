//! Powers and logarithms looked up in tables of bytes, for fields of at most 256 elements.
ghost use Rattle.std.specs.Prelude.{◌≡◌, ℕ};
ghost use Rattle.galois.specs.Field.{Primitive};
ghost use Rattle.galois.specs.Tables.{powers, logarithms};

use crate::tabled::Logarithms;

/// Both tables of a field of 2^bits elements.
pub trait ByteTables {
    ghost bits: { ℕ };

    ghost poly: { ℕ };

    fn width() -> u32
        ensures { result ≡ bits };

    /// α^i at place i, for i below 2^bits - 1.
    fn powers() -> &'static [u8]
        ensures { result.now ≡ powers bits poly };

    /// i at place α^i, and 0 at place 0.
    fn logarithms() -> &'static [u8]
        ensures { result.now ≡ logarithms bits poly };

    ghost generates: { Primitive bits poly };
}

impl<T: ByteTables> Logarithms for T {
    ghost bits = { T.ByteTables.bits };

    ghost poly = { T.ByteTables.poly };

    ghost generates = { T.ByteTables.generates };

    fn width() -> u32 {
        <T as ByteTables>::width()
    }

    fn power(exponent: u32) -> u32 {
        let powers = T::powers();
        u32::from(powers[exponent as usize % powers.len()])
    }

    fn logarithm(a: u32) -> u32 {
        let logarithms = T::logarithms();
        u32::from(logarithms[a as usize % logarithms.len()])
    }
}
