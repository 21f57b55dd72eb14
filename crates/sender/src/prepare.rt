//! The parity of a whole image.
ghost use Rattle.std.specs.Prelude.{◌≡◌, ◌*◌, ◌≤◌, OnOk, OnErr};
ghost use Rattle.refusal.specs.Numbers.{refused_with};
ghost use Rattle.layout.specs.Sizes.{packet_of};
ghost use Rattle.sender.specs.Prepared.{prepare_refusal, AllPrepared};

use crate::Transmission;
use code::code::Code;
use field::Arithmetic;
use layout::shape::Shape;
use refusal::Refusal;

// How many words so many packets have.
fn words(shape: &Shape, packets: usize) -> usize
    requires { (1 ≤ packets) × (packets ≤ 1023) }
    ensures value { result ≡ packets * packet_of shape.now }
    ensures bounds { (1 ≤ result) × (result ≤ 163680) }
{
    packets * shape.packet()
}

/// Fills the parity words of every block from the image: the runs are those of a [`Transmission`].
///
/// Refused as `OtherWidth` for the shape of another arithmetic, then as `WrongRun`, at place 0 for the image and 1 for the
/// parity words.
pub fn prepare<F: Arithmetic>(
    shape: &Shape,
    image: &[u32],
    parity: &mut [u32],
) -> Result<(), Refusal>
    ensures answer { refused_with result ≡
        prepare_refusal F.Arithmetic.bits shape.now image.now parity.old }
    ensures parity { OnOk result (AllPrepared shape.now F.Arithmetic.prod image.now parity.new) }
    ensures kept { OnErr result (parity.new ≡ parity.old) }
{
    let code = Code::<F>::new(shape)?;
    Transmission {
        shape,
        image,
        parity,
    }
    .check_runs()?;
    let part = words(shape, shape.parity());
    let sources = image.chunks(words(shape, shape.sources()));
    for (block, source) in sources.enumerate() {
        code.encode(source, &mut parity[block * part..block * part + part])?;
    }
    Ok(())
}
