//! A field by tables of powers and logarithms.
ghost use Rattle.std.specs.Prelude.{◌≡◌, ℕ, ◌-◌, ◌%◌, ◌^◌, ◌<◌};
ghost use Rattle.galois.specs.Field.{Primitive, steps, product, inverse};
ghost use Rattle.galois.proofs.Laws.{laws};

use crate::Arithmetic;

/// The powers of α and their exponents, in a field of 2^bits elements.
pub trait Logarithms {
    ghost bits: { ℕ };

    ghost poly: { ℕ };

    fn width() -> u32
        ensures { result ≡ bits };

    /// α^exponent, for any exponent.
    fn power(exponent: u32) -> u32
        ensures { result ≡ steps bits poly exponent 1 };

    /// The exponent of α at the low bits of `a`, and 0 where they are 0.
    fn logarithm(a: u32) -> u32
        ensures below { result < 2 ^ bits - 1 }
        ensures exponent { 0 < a % 2 ^ bits → steps bits poly result 1 ≡ a % 2 ^ bits }
        ensures zero { a % 2 ^ bits ≡ 0 → result ≡ 0 };

    ghost generates: { Primitive bits poly };
}

/// The arithmetic by such powers and logarithms.
#[derive(Clone, Copy)]
pub struct Tabled<T> {
    pub tables: T,
}

// The element that `a` stands for.
fn element<T: Logarithms>(a: u32) -> u32
    ensures { result ≡ a % 2 ^ T.Logarithms.bits }
{
    a % (1 << T::width())
}

// The number of nonzero elements.
fn order<T: Logarithms>() -> u32
    ensures { result ≡ 2 ^ T.Logarithms.bits - 1 }
{
    (1 << T::width()) - 1
}

impl<T: Logarithms> Arithmetic for Tabled<T> {
    ghost bits = { T.Logarithms.bits };

    ghost prod = { product T.Logarithms.bits T.Logarithms.poly };

    ghost inv = { inverse T.Logarithms.bits T.Logarithms.poly };

    ghost field = { laws T.Logarithms.bits T.Logarithms.poly T.Logarithms.generates };

    fn width() -> u32 {
        T::width()
    }

    fn product(a: u32, b: u32) -> u32 {
        if element::<T>(a) == 0 || element::<T>(b) == 0 {
            return 0;
        }
        T::power(T::logarithm(a) + T::logarithm(b))
    }

    fn inverse(a: u32) -> u32 {
        let reciprocal = T::power(order::<T>() - T::logarithm(a));
        if element::<T>(a) == 0 { 0 } else { reciprocal }
    }
}
