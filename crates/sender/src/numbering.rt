//! Which packet a frame carries.
ghost use Rattle.std.specs.Prelude.{◌≡◌, ◌+◌, ◌≤◌, IfOk};
ghost use Rattle.refusal.specs.Numbers.{refused_with};
ghost use Rattle.sender.specs.Numbering.{number_refusal, InsideShape, Carries, last_frame, EachOnce};

use layout::shape::Shape;
use refusal::Refusal;

/// How many frames a transmission has: that of its shape, numbered 0, and one for each packet.
pub fn frames(shape: &Shape) -> usize
    ensures value { result ≡ last_frame shape.now + 1 }
    ensures bound { result ≤ 65473 }
{
    shape.blocks() * shape.positions() + 1
}

/// The block and the position of a packet frame, from frame 1 on: the blocks take turns, so that frames lost one after another
/// are of different blocks.
///
/// Refused as `OutsideShape` for a frame that carries no packet.
pub fn place(shape: &Shape, frame: usize) -> Result<(usize, usize), Refusal>
    ensures answer { refused_with result ≡ number_refusal shape.now frame }
    ensures value { IfOk result (Carries shape.now frame) }
    ensures inside { IfOk result (InsideShape shape.now) }
    ensures each { EachOnce shape.now }
{
    let blocks = shape.blocks();
    if frame == 0 || frame > blocks * shape.positions() {
        return Err(Refusal::OutsideShape);
    }
    let before = frame - 1;
    Ok((before % blocks, before / blocks))
}
