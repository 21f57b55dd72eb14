//! The values that must come out, shown from the definitions that the contracts of the calls name: a definition that said something
//! else would not give them. Nothing but proofs and tests uses this crate.
//!
//! ```
//! assert_eq!(rt; known::answers::repaired(), Ok(known::known_block()));
//! ```
#![tactic(auto)]

ghost use Rattle.std.specs.Prelude.{◌≡◌};
ghost use Rattle.known.specs.Known.{known, OfPolynomial, KnownValues};

use field::Arithmetic;
use field::nibble::Nibble;
use field::octet::TabledOctet;
use field::stepped::SteppedOctet;

pub mod answers;
#[cfg(test)]
mod tests;

/// The known block, of one-word rows in the nibble: positions 0 and 1 are parity, position 2 is source.
pub fn known_block() -> [u32; 12]
    ensures block { result ≡ known }
    ensures nibble { OfPolynomial 4 0x13 ⟦<Nibble as Arithmetic>⟧ }
    ensures tabled_octet { OfPolynomial 8 0x11D ⟦<TabledOctet as Arithmetic>⟧ }
    ensures stepped_octet { OfPolynomial 8 0x11D ⟦<SteppedOctet as Arithmetic>⟧ }
    ensures values { KnownValues result }
{
    [8, 9, 2, 4, 9, 0xB, 6, 0xC, 1, 2, 4, 8]
}
