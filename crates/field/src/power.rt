//! Powers over any arithmetic.
ghost use Rattle.std.specs.Prelude.{◌≡◌, ◌%◌, ◌^◌};
ghost use Rattle.galois.specs.Field.{power};

use crate::Arithmetic;

/// The power of the element that `a` stands for, by squaring.
pub fn raise<F: Arithmetic>(a: u32, exponent: u32) -> u32
    ensures { result ≡ power F.Arithmetic.prod (a % 2 ^ F.Arithmetic.bits) exponent }
{
    let mut square = F::product(a, 1);
    let mut rest = exponent;
    let mut result = 1;
    while rest > 0 {
        if rest % 2 == 1 {
            result = F::product(result, square);
        }
        square = F::product(square, square);
        rest /= 2;
    }
    result
}
