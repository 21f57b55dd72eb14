//! Encode, check and repair one block of a shape: calls that make its code first.
ghost use Rattle.std.specs.Prelude.{◌≡◌, IfErr, IfOk};
ghost use Rattle.refusal.specs.Numbers.{refused_with};
ghost use Rattle.layout.specs.Blocks.{ZeroRun, code_of};
ghost use Rattle.layout.specs.Checks.{CheckedFirst, Cleared, at_width};
ghost use Rattle.code.specs.Calls.{CodewordRun, ContradictoryRun, Encoded, Repaired, Says};
ghost use Rattle.code.specs.Calls.{encode_refusal, check_refusal, repair_refusal};

use crate::code::Code;
use field::Arithmetic;
use layout::losses::LossList;
use layout::shape::Shape;
use refusal::Refusal;

/// Fills the parity run of a block from its source run: `Code::encode`, refused with `OtherWidth` before all else.
pub fn encode<F: Arithmetic>(
    shape: &Shape,
    source: &[u32],
    parity: &mut [u32],
) -> Result<(), Refusal>
    ensures answer { refused_with result
        ≡ at_width F.Arithmetic.bits shape.now (encode_refusal shape.now source.now parity.old) }
    ensures filled { IfOk result
        (λ u. Encoded (code_of shape.now F.Arithmetic.prod) source.now parity.new) }
    ensures left { IfErr result (λ e. parity.new ≡ parity.old) }
{
    Code::<F>::new(shape)?.encode(source, parity)
}

/// Whether a block is a codeword: `Code::check`, refused with `OtherWidth` before all else.
pub fn check<F: Arithmetic>(shape: &Shape, block: &[u32], work: &mut [u32]) -> Result<bool, Refusal>
    ensures answer { refused_with result
        ≡ at_width F.Arithmetic.bits shape.now (check_refusal shape.now block.now work.old) }
    ensures says { IfOk result
        (λ yes. Says yes (CodewordRun (code_of shape.now F.Arithmetic.prod) block.now)) }
    ensures cleared { IfOk result (λ yes. ZeroRun work.new) }
    ensures left { IfErr result (λ e. work.new ≡ work.old) }
{
    Code::<F>::new(shape)?.check(block, work)
}

/// Restores the packets of a block at the lost positions: `Code::repair`, refused with `OtherWidth` before all else.
pub fn repair<F: Arithmetic>(
    shape: &Shape,
    block: &mut [u32],
    losses: &LossList,
    work: &mut [u32],
) -> Result<(), Refusal>
    ensures repaired { IfOk result
        (λ u. Repaired (code_of shape.now F.Arithmetic.prod) losses.now block.old block.new) }
    ensures answer { CheckedFirst (at_width F.Arithmetic.bits shape.now
        (repair_refusal shape.now block.old losses.now work.old))
        (ContradictoryRun (code_of shape.now F.Arithmetic.prod) losses.now block.old) result }
    ensures left { IfErr result (λ e. block.new ≡ block.old) }
    ensures work { Cleared (at_width F.Arithmetic.bits shape.now
        (repair_refusal shape.now block.old losses.now work.old)) work.old work.new }
{
    Code::<F>::new(shape)?.repair(block, losses, work)
}
