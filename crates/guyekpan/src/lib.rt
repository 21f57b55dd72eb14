//! Encode, check and repair one block of the tabled octet, for a host in C. include/guyekpan.h declares the calls.
//!
//! A host names a block by m rows in a packet, n positions, k source positions among them, and w words in a row. It passes strings of
//! bytes: four for each word and two for each lost position, highest first. It gets one number: 0 for done or yes, 255 for a check that
//! says no, else the refusal's, with the values of the refusal on top (`host_number`).
//!
//! ```c
//! uint8_t source[8 * 64], parity[4 * 64]; /* packets of 8 rows of 2 words */
//! uint32_t answer = guyekpan_encode(8, 12, 8, 2, source, sizeof source, parity, sizeof parity);
//! ```
#![tactic(auto)]

ghost use Rattle.std.specs.Prelude.{◌≡◌, ◌≢◌};
ghost use Rattle.guyekpan.specs.Host.{named, encode_number, HostEncoded, CheckAnswer, RepairAnswer};

mod bytes;
mod host;
mod one_block;

use host::{check, encode, number, repair};
use one_block::one_block;

// The number for a check that says no.
const NO: u32 = 255;

/// Fills the parity string, n - k packets, from the source string, k packets.
#[unsafe(no_mangle)]
pub extern "C" fn guyekpan_encode(
    m: u32,
    n: u32,
    k: u32,
    w: u32,
    source: &[u8],
    parity: &mut [u8],
) -> u32
    ensures number { result ≡ encode_number (named m n k w) source.now parity.old }
    ensures done { result ≡ 0 → HostEncoded (named m n k w) source.now parity.new }
    ensures refused { result ≢ 0 → parity.new ≡ parity.old }
{
    number(encode(one_block(m, n, k, w), source, parity))
}

/// Whether the block string, n packets, is a codeword. The work string has n - k + 1 packets.
#[unsafe(no_mangle)]
pub extern "C" fn guyekpan_check(
    m: u32,
    n: u32,
    k: u32,
    w: u32,
    block: &[u8],
    work: &mut [u8],
) -> u32
    ensures { CheckAnswer (named m n k w) block.now work.old work.new result }
{
    match check(one_block(m, n, k, w), block, work) {
        Ok(yes) => { if yes { 0 } else { NO } }
        Err(refusal) => number(Err(refusal)),
    }
}

/// Restores the packets of the block string, n packets, at the lost positions, whatever stands there. The work string has n - k + 1
/// packets. The strings of words are numbered in a refusal without `losses`: `work` is string 1.
#[unsafe(no_mangle)]
pub extern "C" fn guyekpan_repair(
    m: u32,
    n: u32,
    k: u32,
    w: u32,
    block: &mut [u8],
    losses: &[u8],
    work: &mut [u8],
) -> u32
    ensures { RepairAnswer (named m n k w) losses.now block.old block.new work.old work.new result }
{
    number(repair(one_block(m, n, k, w), block, losses, work))
}
