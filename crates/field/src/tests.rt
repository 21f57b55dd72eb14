//! The three arithmetics at single elements, and the octets against each other.
use crate::Arithmetic;
use crate::alpha::*;
use crate::nibble::*;
use crate::octet::*;
use crate::power::raise;
use crate::same::{same_field, same_octets};
use crate::stepped::*;
use crate::tabled::*;
use std::process::Abort;

#[test]
fn nibble(rt: HostRuntime) {
    assert_eq!(rt; Nibble::width(), 4);
    assert_eq!(rt; alpha_to_width::<Nibble>(), 3);
    assert_eq!(rt; raise::<Nibble>(2, 4), 3);
    assert_eq!(rt; raise::<Nibble>(2, 7), 11);
    assert_eq!(rt; raise::<Nibble>(2, 15), 1);
    assert_eq!(rt; Nibble::inverse(2), 9);
    assert_eq!(rt; Nibble::inverse(0), 0);
    assert_eq!(rt; Nibble::product(0, 7), 0);
}

fn octet<F: Arithmetic>(rt: &impl Abort) {
    assert_eq!(rt; F::width(), 8);
    assert_eq!(rt; raise::<F>(2, 8), 0x1D);
    assert_eq!(rt; raise::<F>(2, 9), 0x3A);
    assert_eq!(rt; raise::<F>(2, 255), 1);
    assert_eq!(rt; raise::<F>(2, 0), 1);
    assert_eq!(rt; F::product(F::inverse(0xB7), 0xB7), 1);
    assert_eq!(rt; F::inverse(0), 0);
}

#[test]
fn octets(rt: HostRuntime) {
    assert_eq!(rt; alpha_to_width::<TabledOctet>(), 0x1D);
    assert_eq!(rt; alpha_to_width::<SteppedOctet>(), 0x1D);
    octet::<TabledOctet>(&rt);
    octet::<SteppedOctet>(&rt);
    assert!(rt; same_octets(0xFFFF_FFFF, 0x1234_56B7));
    assert!(rt; same_field::<SteppedOctet, TabledOctet>());
    assert!(rt; !same_field::<Nibble, TabledOctet>());
}

// Only the low bits of an operand count.
#[test]
fn wide_operands(rt: HostRuntime) {
    assert_eq!(rt; Nibble::product(0xFFFF_FFF2, 0x18), 3);
    assert_eq!(rt; Nibble::inverse(0x10), 0);
    assert_eq!(rt; Nibble::inverse(0x12), 9);
    assert_eq!(rt; TabledOctet::product(0x102, 0x8000_0080), 0x1D);
    assert_eq!(rt; SteppedOctet::product(0x102, 0x8000_0080), 0x1D);
    assert_eq!(rt; SteppedOctet::inverse(0x302), TabledOctet::inverse(2));
}
