//! The order in which the frames of a transmission go out.
ghost use Rattle.std.specs.Prelude.{◌≡◌, ◌≤◌, IfOk};
ghost use Rattle.refusal.specs.Numbers.{refused_with};
ghost use Rattle.sender.specs.Broadcast.{frame_in, turns_of, turn_refusal, InOrder};

use crate::numbering::frames;
use layout::shape::Shape;
use refusal::Refusal;

/// After so many packet frames the shape's frame goes out again, for boards that woke late.
pub const PACKETS: usize = 50;

/// How many turns a broadcast has: one for the shape's frame, one for each packet frame, and one for the shape's frame again
/// behind every fiftieth of them, also where that is the last.
pub fn turns(shape: &Shape) -> usize
    ensures value { result ≡ turns_of shape.now }
    ensures bound { result ≤ 66782 }
{
    let frames = frames(shape);
    frames + (frames - 1) / PACKETS
}

/// The number of the frame that goes out in a turn, from turn 0 on: the shape's, which is number 0, then the packet frames in
/// order, and behind every fiftieth of them the shape's again.
///
/// Refused as `OutsideShape` for a turn behind the last.
pub fn frame_of(shape: &Shape, turn: usize) -> Result<usize, Refusal>
    ensures answer { refused_with result ≡ turn_refusal shape.now turn }
    ensures value { IfOk result (λ frame. frame ≡ frame_in turn) }
    ensures order { InOrder shape.now }
{
    if turn >= turns(shape) {
        return Err(Refusal::OutsideShape);
    }
    if turn % (PACKETS + 1) == 0 {
        return Ok(0);
    }
    Ok(turn - turn / (PACKETS + 1))
}
