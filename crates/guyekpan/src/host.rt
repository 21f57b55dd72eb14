//! The block calls, on the words that byte strings spell.
//!
//! There is no heap, so that a call copies its words into a room on the stack, and a small block is not to pay for clearing a large
//! room: a call takes the smallest of four rooms in which its words have place.
ghost use Rattle.std.specs.Prelude.{◌≡◌, ◌+◌, ◌*◌, ◌≤◌, IsOk, OnOk, OnErr};
ghost use Rattle.refusal.specs.Numbers.{refused_with};
ghost use Rattle.layout.specs.Made.{dimensions_of};
ghost use Rattle.layout.specs.Sizes.{parity_of, packet_of};
ghost use Rattle.guyekpan.specs.Host.{Small, host_number, host_encode_refusal, HostEncoded, host_check_refusal, AfterHostCheck, HostRepaired};

use crate::bytes::{clear, read, write};
use crate::one_block::{LONGEST, LONGEST_WORK, OneBlock};
use code::block;
use field::octet::TabledOctet;
use layout::shape::Dimensions;
use refusal::Refusal;

// The number for an outcome.
pub(crate) fn number(outcome: Result<(), Refusal>) -> u32
    requires { Small (refused_with outcome) }
    ensures number { result ≡ host_number (refused_with outcome) }
    ensures zero { result ≡ 0 → IsOk outcome }
{
    match outcome {
        Ok(()) => 0,
        Err(refusal) => {
            refusal.number()
                + match refusal {
                    Refusal::WrongRun { place } => 256 * place as u32,
                    Refusal::Contradictory { sum, word } => 256 * sum as u32 + 65_536 * word as u32,
                    _ => 0,
                }
        }
    }
}

// Fills the parity string from the source string.
pub(crate) fn encode(named: Dimensions, source: &[u8], parity: &mut [u8]) -> Result<(), Refusal>
    ensures answer { refused_with result ≡ host_encode_refusal named source.now parity.old }
    ensures done { OnOk result (HostEncoded named source.now parity.new) }
    ensures refused { OnErr result (parity.new ≡ parity.old) }
    ensures small { Small (refused_with result) }
{
    let one = OneBlock::new(named)?;
    match one.words() {
        0..=64 => encode_in::<64>(&one, source, parity),
        65..=512 => encode_in::<512>(&one, source, parity),
        513..=4096 => encode_in::<4096>(&one, source, parity),
        _ => encode_in::<LONGEST>(&one, source, parity),
    }
}

// Encodes in a room for the words of the block. Never inlined, and so are the two below, or a call would have four rooms on the stack.
#[inline(never)]
fn encode_in<const ROOM: usize>(
    one: &OneBlock,
    source: &[u8],
    parity: &mut [u8],
) -> Result<(), Refusal>
    requires stack { ROOM ≤ 8192 }
    requires room { one.now.shape.sources * packet_of one.now.shape
        + parity_of one.now.shape * packet_of one.now.shape ≤ ROOM }
    ensures answer { refused_with result
        ≡ host_encode_refusal (dimensions_of one.now.shape) source.now parity.old }
    ensures done { OnOk result
        (HostEncoded (dimensions_of one.now.shape) source.now parity.new) }
    ensures refused { OnErr result (parity.new ≡ parity.old) }
    ensures small { Small (refused_with result) }
{
    let shape = &one.shape;
    let s = one.words_in(shape.sources(), source, 0)?;
    let p = one.words_in(shape.parity(), parity, 1)?;
    let mut room = [0; ROOM];
    let (from, rest) = room.split_at_mut(s);
    let to = &mut rest[..p];
    read(source, from);
    block::encode::<TabledOctet>(shape, from, to)?;
    write(to, parity);
    Ok(())
}

// Whether the block is a codeword.
pub(crate) fn check(named: Dimensions, block: &[u8], work: &mut [u8]) -> Result<bool, Refusal>
    ensures answer { refused_with result ≡ host_check_refusal named block.now work.old }
    ensures after { AfterHostCheck named block.now work.old work.new result }
    ensures small { Small (refused_with result) }
{
    let one = OneBlock::new(named)?;
    match one.work_words() {
        0..=64 => check_in::<64>(&one, block, work),
        65..=512 => check_in::<512>(&one, block, work),
        513..=4096 => check_in::<4096>(&one, block, work),
        _ => check_in::<LONGEST_WORK>(&one, block, work),
    }
}

// Checks in a room for the words of the block and of the work string.
#[inline(never)]
fn check_in<const ROOM: usize>(
    one: &OneBlock,
    block: &[u8],
    work: &mut [u8],
) -> Result<bool, Refusal>
    requires stack { ROOM ≤ 12416 }
    requires room { one.now.shape.positions * packet_of one.now.shape
        + (parity_of one.now.shape + 1) * packet_of one.now.shape ≤ ROOM }
    ensures answer { refused_with result
        ≡ host_check_refusal (dimensions_of one.now.shape) block.now work.old }
    ensures after { AfterHostCheck (dimensions_of one.now.shape) block.now
        work.old work.new result }
    ensures small { Small (refused_with result) }
{
    let shape = &one.shape;
    let b = one.words_in(shape.positions(), block, 0)?;
    let r = one.words_in(shape.parity() + 1, work, 1)?;
    let mut room = [0; ROOM];
    let (run, rest) = room.split_at_mut(b);
    read(block, run);
    let yes = block::check::<TabledOctet>(shape, run, &mut rest[..r])?;
    clear(work);
    Ok(yes)
}

// Restores the packets of the block at the lost positions.
pub(crate) fn repair(
    named: Dimensions,
    block: &mut [u8],
    losses: &[u8],
    work: &mut [u8],
) -> Result<(), Refusal>
    ensures after { HostRepaired named losses.now block.old block.new work.old work.new result }
    ensures small { Small (refused_with result) }
{
    let one = OneBlock::new(named)?;
    match one.work_words() {
        0..=64 => repair_in::<64>(&one, block, losses, work),
        65..=512 => repair_in::<512>(&one, block, losses, work),
        513..=4096 => repair_in::<4096>(&one, block, losses, work),
        _ => repair_in::<LONGEST_WORK>(&one, block, losses, work),
    }
}

// Repairs in a room for the words of the block and of the work string.
#[inline(never)]
fn repair_in<const ROOM: usize>(
    one: &OneBlock,
    block: &mut [u8],
    losses: &[u8],
    work: &mut [u8],
) -> Result<(), Refusal>
    requires stack { ROOM ≤ 12416 }
    requires room { one.now.shape.positions * packet_of one.now.shape
        + (parity_of one.now.shape + 1) * packet_of one.now.shape ≤ ROOM }
    ensures after { HostRepaired (dimensions_of one.now.shape) losses.now
        block.old block.new work.old work.new result }
    ensures small { Small (refused_with result) }
{
    let shape = &one.shape;
    let b = one.words_in(shape.positions(), block, 0)?;
    let r = one.words_in(shape.parity() + 1, work, 1)?;
    let lost = one.losses(losses)?;
    let mut room = [0; ROOM];
    let (run, rest) = room.split_at_mut(b);
    read(block, run);
    let outcome = block::repair::<TabledOctet>(shape, run, &lost, &mut rest[..r]);
    clear(work);
    if outcome.is_ok() {
        write(run, block);
    }
    outcome
}
