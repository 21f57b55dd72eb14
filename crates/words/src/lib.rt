//! Encode, check and repair one block of the tabled octet over words, for C: the block calls of `code` and nothing else, so that
//! a benchmark can measure them. Hosts call `guyekpan`, over bytes.
//!
//! A call names a block by n positions, k source positions among them, and w words in a row; a packet has 8 rows. A run is a pointer
//! and its number of words. The answer is 0 for done or yes, 255 for a check that says no, else the refusal's number.
#![tactic(auto)]

ghost use Rattle.std.specs.Prelude.{◌≡◌, ◌≢◌, IfErr, IfOk, IsOk};
ghost use Rattle.refusal.specs.Numbers.{refused_with};
ghost use Rattle.layout.specs.Made.{dimensions_of, shape_refusal};
ghost use Rattle.layout.specs.Blocks.{ZeroRun, code_for};
ghost use Rattle.code.specs.Calls.{CodewordRun, Encoded, Says};
ghost use Rattle.words.specs.Words.{octet, one_block, number_of_call, words_encode_refusal};
ghost use Rattle.words.specs.Words.{words_check_refusal, CheckAnswer, WordsRepaired, RepairAnswer};

use code::block;
use field::octet::TabledOctet;
use layout::losses::LossList;
use layout::shape::{Dimensions, Shape};
use refusal::Refusal;

// The number for a check that says no.
const NO: u32 = 255;

// The shape of one block of packets of 8 rows.
fn shape(n: usize, k: usize, w: usize) -> Result<Shape, Refusal>
    ensures answer { refused_with result ≡ shape_refusal 8 (one_block n k w) }
    ensures of { IfOk result (λ made. dimensions_of made ≡ one_block n k w) }
{
    Shape::new::<TabledOctet>(Dimensions {
        rows: 8,
        positions: n,
        sources: k,
        blocks: 1,
        words: w,
    })
}

// The number for an outcome.
fn number(outcome: Result<(), Refusal>) -> u32
    ensures number { result ≡ number_of_call (refused_with outcome) }
    ensures zero { result ≡ 0 → IsOk outcome }
{
    match outcome {
        Ok(()) => 0,
        Err(refusal) => refusal.number(),
    }
}

// Fills the parity run from the source run.
fn encode(n: usize, k: usize, w: usize, source: &[u32], parity: &mut [u32]) -> Result<(), Refusal>
    ensures answer { refused_with result
        ≡ words_encode_refusal (one_block n k w) source.now parity.old }
    ensures filled { IfOk result
        (λ u. Encoded (code_for (one_block n k w) octet) source.now parity.new) }
    ensures left { IfErr result (λ e. parity.new ≡ parity.old) }
{
    block::encode::<TabledOctet>(&shape(n, k, w)?, source, parity)
}

// Whether the block is a codeword.
fn check(n: usize, k: usize, w: usize, block: &[u32], work: &mut [u32]) -> Result<bool, Refusal>
    ensures answer { refused_with result
        ≡ words_check_refusal (one_block n k w) block.now work.old }
    ensures says { IfOk result
        (λ yes. Says yes (CodewordRun (code_for (one_block n k w) octet) block.now)) }
    ensures cleared { IfOk result (λ yes. ZeroRun work.new) }
    ensures left { IfErr result (λ e. work.new ≡ work.old) }
{
    block::check::<TabledOctet>(&shape(n, k, w)?, block, work)
}

// Restores the packets of the block at the lost positions.
fn repair(
    n: usize,
    k: usize,
    w: usize,
    block: &mut [u32],
    lost: &[usize],
    work: &mut [u32],
) -> Result<(), Refusal>
    ensures { WordsRepaired (one_block n k w) lost.now
        block.old block.new work.old work.new result }
{
    let shape = shape(n, k, w)?;
    let losses = LossList::new(&shape, lost)?;
    block::repair::<TabledOctet>(&shape, block, &losses, work)
}

/// Fills the parity run, n - k packets, from the source run, k packets.
#[unsafe(no_mangle)]
pub extern "C" fn words_encode(
    n: usize,
    k: usize,
    w: usize,
    source: &[u32],
    parity: &mut [u32],
) -> u32
    ensures number { result
        ≡ number_of_call (words_encode_refusal (one_block n k w) source.now parity.old) }
    ensures done { result ≡ 0
        → Encoded (code_for (one_block n k w) octet) source.now parity.new }
    ensures refused { result ≢ 0 → parity.new ≡ parity.old }
{
    number(encode(n, k, w, source, parity))
}

/// Whether the block run, n packets, is a codeword. The work run has n - k + 1 packets.
#[unsafe(no_mangle)]
pub extern "C" fn words_check(n: usize, k: usize, w: usize, block: &[u32], work: &mut [u32]) -> u32
    ensures { CheckAnswer (one_block n k w) block.now work.old work.new result }
{
    match check(n, k, w, block, work) {
        Ok(yes) => { if yes { 0 } else { NO } }
        Err(refusal) => refusal.number(),
    }
}

/// Restores the packets of the block run, n packets, at the lost positions, whatever stands there. The work run has n - k + 1
/// packets.
#[unsafe(no_mangle)]
pub extern "C" fn words_repair(
    n: usize,
    k: usize,
    w: usize,
    block: &mut [u32],
    lost: &[usize],
    work: &mut [u32],
) -> u32
    ensures { RepairAnswer (one_block n k w) lost.now
        block.old block.new work.old work.new result }
{
    number(repair(n, k, w, block, lost, work))
}
