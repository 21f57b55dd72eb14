//! Which field an arithmetic is: the laws hold under any primitive polynomial, so the polynomial is stated here.
ghost use Rattle.std.specs.Prelude.{◌≡◌, ℕ, ◌%◌, ◌^◌, ◌<◌, refl};
ghost use Rattle.galois.specs.Field.{Primitive, product};
ghost use Rattle.field.specs.Fields.{octet};

use crate::Arithmetic;
use crate::stepped::SteppedOctet;
use crate::tabled::{Logarithms, Tabled};

/// An arithmetic whose elements are polynomials in α, with a product that is reduced by the polynomial `poly`.
pub trait PolynomialField: Arithmetic {
    ghost poly: { ℕ };

    ghost generates: { Primitive Self.bits poly };

    ghost reduces: { (a b : ℕ) → Self.prod a b ≡ product Self.bits poly a b };
}

impl PolynomialField for SteppedOctet {
    ghost poly = { 0x11D };

    ghost generates = { octet };

    ghost reduces = { λ a b. refl };
}

impl<T: Logarithms> PolynomialField for Tabled<T> {
    ghost poly = { T.Logarithms.poly };

    ghost generates = { T.Logarithms.generates };

    ghost reduces = { λ a b. refl };
}

/// α^m by lower powers, in a field of 2^m elements: 0x3 under 0x13, where α^4 = α + 1, and 0x1D under 0x11D.
pub fn alpha_to_width<F: PolynomialField>() -> u32
    ensures { result ≡ F.poly % 2 ^ F.bits }
{
    F::product(2, 1 << (F::width() - 1))
}
