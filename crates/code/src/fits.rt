//! How many codewords have given packets.
ghost use Rattle.code.specs.Fits.{Fits};

use layout::shape::Shape;

/// How many codewords there are: one at most, exactly one, or two and more.
#[derive(Clone, Copy, PartialEq, Eq, Debug)]
pub enum Fit {
    AtMostOne,
    One,
    Several,
}

/// How many codewords have packets that are held at `held` positions, whichever these are and whatever they hold.
pub fn codewords_that_fit(shape: &Shape, held: usize) -> Fit
    ensures { Fits shape.now held result }
{
    if held < shape.sources() {
        Fit::Several
    } else if held == shape.sources() {
        Fit::One
    } else {
        Fit::AtMostOne
    }
}
