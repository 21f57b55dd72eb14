//! What the calls answer for the known block, where a contract relates the answer to the codewords that agree.
ghost use Rattle.std.specs.Prelude.{◌≡◌, ℕ, List, [], ◌∷◌, Ok, Some, IsOk, IfOk};
ghost use Rattle.refusal.specs.declared.Refusal.TheVariants.{TooFew, Contradictory};
ghost use Rattle.refusal.specs.Numbers.{said, refused_with};
ghost use Rattle.layout.specs.Blocks.{ZeroRun};
ghost use Rattle.known.specs.Known.{known, IsSmall, Lists, MadeOf, RepairsChanged};

use crate::known_block;
use code::block::{encode, repair};
use field::nibble::Nibble;
use layout::losses::LossList;
use layout::shape::{Dimensions, Shape};
use refusal::Refusal;

/// The shape of the known block: one block of three packets of four words, one of them source.
pub fn known_shape() -> Result<Shape, Refusal>
    ensures accepted { IsOk result }
    ensures made { IfOk result IsSmall }
{
    Shape::new::<Nibble>(Dimensions {
        rows: 4,
        positions: 3,
        sources: 1,
        blocks: 1,
        words: 1,
    })
}

/// The parity of the block's source packet, as `encode` fills it.
pub fn encoded() -> Result<[u32; 8], Refusal>
    ensures { result ≡ Ok (8 ∷ 9 ∷ 2 ∷ 4 ∷ 9 ∷ 0xB ∷ 6 ∷ 0xC ∷ []) }
{
    let shape = known_shape()?;
    let mut parity = [0; 8];
    encode::<Nibble>(&shape, &[1, 2, 4, 8], &mut parity)?;
    Ok(parity)
}

/// The block, as `repair` restores it from its position 1 alone.
pub fn repaired() -> Result<[u32; 12], Refusal>
    ensures { result ≡ Ok known }
{
    let shape = known_shape()?;
    let lost = LossList::new(&shape, &[0, 2])?;
    let mut block = [7, 7, 7, 7, 9, 0xB, 6, 0xC, 7, 7, 7, 7];
    repair::<Nibble>(&shape, &mut block, &lost, &mut [0; 12])?;
    Ok(block)
}

/// The list of these lost positions, for the shape of the known block. Three are too many.
pub fn known_losses(positions: &[usize]) -> Result<LossList, Refusal>
    ensures made { MadeOf positions.now result }
    ensures too_few { positions.now ≡ 0 ∷ 1 ∷ 2 ∷ []
        → refused_with result ≡ Some (said TooFew) }
{
    LossList::new(&known_shape()?, positions)
}

// A repair of the block with row 0 of position 1 changed to 8.
fn repair_changed(shape: &Shape, lost: &LossList, work: &mut [u32]) -> Result<(), Refusal>
    requires { IsSmall shape.now }
    ensures { (positions : List ℕ) → Lists lost.now positions
        → RepairsChanged positions work.old work.new result }
{
    let mut block = known_block();
    block[4] = 8;
    repair::<Nibble>(shape, &mut block, lost, work)
}

/// Repairs the block with row 0 of position 1 changed to 8, with nothing lost.
pub fn contradicted(work: &mut [u32; 12]) -> Result<(), Refusal>
    ensures refused { refused_with result ≡ Some (said (Contradictory 0 0)) }
    ensures cleared { ZeroRun work.new }
    ensures repair { RepairsChanged [] work.old work.new result }
{
    repair_changed(&known_shape()?, &LossList::none(), work)
}

/// Repairs that block with position 0 lost.
pub fn contradicted_behind(work: &mut [u32; 12]) -> Result<(), Refusal>
    ensures refused { refused_with result ≡ Some (said (Contradictory 1 0)) }
    ensures cleared { ZeroRun work.new }
    ensures repair { RepairsChanged (0 ∷ []) work.old work.new result }
{
    let shape = known_shape()?;
    repair_changed(&shape, &LossList::new(&shape, &[0])?, work)
}
