//! The field of 256 elements with α^8 = α^4 + α^3 + α^2 + 1, by shifts and exclusive ors, with no table.
ghost use Rattle.std.specs.Prelude.{◌≡◌, ◌%◌, ◌<◌};
ghost use Rattle.galois.specs.Field.{double, product, inverse};
ghost use Rattle.galois.proofs.Laws.{laws};
ghost use Rattle.field.specs.Fields.{octet};

use crate::Arithmetic;

// α · x
fn doubled(x: u32) -> u32
    requires { x < 256 }
    ensures value { result ≡ double 8 0x11D x }
    ensures element { result < 256 }
{
    let shifted = x << 1;
    if shifted < 256 {
        shifted
    } else {
        shifted ^ 0x11D
    }
}

// The sum of α^j · a over the bits j of `b` that are set.
fn by_steps(a: u32, b: u32) -> u32
    ensures { result ≡ product 8 0x11D (a % 256) (b % 256) }
{
    let mut shifted = a & 255;
    let mut rest = b & 255;
    let mut sum = 0;
    for _j in 0..8u32 {
        if rest & 1 == 1 {
            sum ^= shifted;
        }
        shifted = doubled(shifted);
        rest >>= 1;
    }
    sum
}

/// The octets without tables. The products are those of [`crate::octet::TabledOctet`] ([`crate::same::same_octets`]).
#[derive(Clone, Copy)]
pub struct SteppedOctet;

impl Arithmetic for SteppedOctet {
    ghost bits = { 8 };

    ghost prod = { product 8 0x11D };

    ghost inv = { inverse 8 0x11D };

    ghost field = { laws 8 0x11D octet };

    fn width() -> u32 {
        8
    }

    fn product(a: u32, b: u32) -> u32 {
        by_steps(a, b)
    }

    // a^254: by a^2 · a^4 · .. · a^128. `raise` over this arithmetic would lead back to this function, which gets no proof.
    fn inverse(a: u32) -> u32 {
        let mut square = a & 255;
        let mut inverse = 1;
        for _i in 0..7u32 {
            square = by_steps(square, square);
            inverse = by_steps(inverse, square);
        }
        inverse
    }
}
