//! Whether two arithmetics answer alike.
ghost use Rattle.std.specs.Prelude.{◌≡◌, ◌%◌, ◌^◌, true, ◌&&◌, ◌==◌, ◌↔◌, IsTrue};
ghost use Rattle.field.specs.Equal.{EqualArithmetics, EqualAt};

use crate::Arithmetic;
use crate::alpha::{PolynomialField, alpha_to_width};
use crate::octet::TabledOctet;
use crate::stepped::SteppedOctet;
use crate::tabled::Logarithms;

/// Whether the widths of two arithmetics are equal, and their products of `a` and `b`.
pub fn same_product<F: Arithmetic, G: Arithmetic>(a: u32, b: u32) -> bool
    ensures { IsTrue result ↔ EqualAt F.Arithmetic G.Arithmetic a b }
{
    F::width() == G::width() && F::product(a, b) == G::product(a, b)
}

/// Whether two fields have one width and one polynomial. If so, their products of all elements are equal.
pub fn same_field<F: PolynomialField, G: PolynomialField>() -> bool
    ensures polynomial { let low = F.poly % 2 ^ F.bits in
        result ≡ (F.bits == G.bits) && (low == G.poly % 2 ^ G.bits) }
    ensures products { IsTrue result → EqualArithmetics F.Arithmetic G.Arithmetic }
{
    F::width() == G::width() && alpha_to_width::<F>() == alpha_to_width::<G>()
}

/// Whether the stepped and the tabled octet have one product of `a` and `b`. They have, of all elements.
pub fn same_octets(a: u32, b: u32) -> bool
    ensures same { result ≡ true }
    ensures products { EqualArithmetics
        ⟦<SteppedOctet as Arithmetic>⟧ ⟦<TabledOctet as Arithmetic>⟧ }
{
    same_product::<SteppedOctet, TabledOctet>(a, b)
}
