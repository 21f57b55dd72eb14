//! The five numbers of a transmission.
ghost use Rattle.std.specs.Prelude.{◌≡◌, ◌+◌, ◌-◌, ◌*◌, ◌^◌, ◌<◌, ◌≤◌};
ghost use Rattle.refusal.specs.Numbers.{refused_with};

use field::Arithmetic;
use refusal::Refusal;

/// The words of the longest packet: 10 rows of 16.
pub const LONGEST: usize = 160;

/// Rows in a packet, positions in a block, source positions among them, blocks, and words in a row: any numbers.
#[derive(Clone, Copy, PartialEq, Eq, Debug)]
pub struct Dimensions {
    pub rows: usize,
    pub positions: usize,
    pub sources: usize,
    pub blocks: usize,
    pub words: usize,
}

/// Dimensions that a transmission can have: `new` makes them, so that every call may rely on their bounds.
#[derive(Clone, Copy, PartialEq, Eq, Debug)]
pub struct Shape {
    rows: usize,
    positions: usize,
    sources: usize,
    blocks: usize,
    words: usize,
    ghost field: { (3 ≤ rows) × (rows ≤ 10) },
    ghost counts: { (1 ≤ sources) × (sources < positions) × (positions - sources ≤ 32) },
    ghost length: { positions ≤ 2 ^ rows - 1 },
    ghost sizes: { (1 ≤ blocks) × (blocks ≤ 64) × (1 ≤ words) × (words ≤ 16) },
}

impl Shape {
    ghost use Rattle.layout.specs.Made.{shape_refusal, ShapeMade, dimensions_of};
    ghost use Rattle.layout.specs.Sizes.{parity_of, packet_of};
    ghost use Rattle.layout.specs.Checks.{width_refusal, run_refusal};

    /// The shape of these dimensions, for an arithmetic; refused with `OtherWidth`, `BadCounts`, `TooLong` or `BadSize`,
    /// whichever fails first.
    pub fn new<F: Arithmetic>(dimensions: Dimensions) -> Result<Shape, Refusal>
        ensures answer { refused_with result ≡ shape_refusal F.Arithmetic.bits dimensions }
        ensures made { ShapeMade dimensions result }
    {
        // Field by field, and no TryFrom: clauses read the fields of a shape by name, and the arithmetic is a type parameter.
        let Dimensions {
            rows,
            positions,
            sources,
            blocks,
            words,
        } = dimensions;
        if rows != F::width() as usize {
            return Err(Refusal::OtherWidth);
        }
        if sources < 1 || sources >= positions || positions - sources > 32 {
            return Err(Refusal::BadCounts);
        }
        if positions > (1 << rows) - 1 {
            return Err(Refusal::TooLong);
        }
        if blocks < 1 || blocks > 64 || words < 1 || words > 16 {
            return Err(Refusal::BadSize);
        }
        Ok(Shape {
            rows,
            positions,
            sources,
            blocks,
            words,
        })
    }

    /// Rows in a packet, as many as the field has bits: 3 to 10.
    pub fn rows(&self) -> usize
        ensures { result ≡ self.now.rows }
    {
        self.rows
    }

    /// Positions in a block, parity positions first.
    pub fn positions(&self) -> usize
        ensures value { result ≡ self.now.positions }
        ensures bound { result ≤ 1023 }
    {
        self.positions
    }

    /// Source positions in a block, behind the parity positions.
    pub fn sources(&self) -> usize
        ensures value { result ≡ self.now.sources }
        ensures bounds { (1 ≤ result) × (result ≤ 1023) }
    {
        self.sources
    }

    /// Blocks in a transmission: 1 to 64.
    pub fn blocks(&self) -> usize
        ensures value { result ≡ self.now.blocks }
        ensures bounds { (1 ≤ result) × (result ≤ 64) }
    {
        self.blocks
    }

    /// Words of 32 bits in a row: 1 to 16.
    pub fn words(&self) -> usize
        ensures { result ≡ self.now.words }
    {
        self.words
    }

    /// The five numbers.
    pub fn dimensions(&self) -> Dimensions
        ensures { result ≡ dimensions_of self.now }
    {
        Dimensions {
            rows: self.rows,
            positions: self.positions,
            sources: self.sources,
            blocks: self.blocks,
            words: self.words,
        }
    }

    /// How many parity positions a block has; that of the sums, too.
    pub fn parity(&self) -> usize
        ensures { result ≡ parity_of self.now }
    {
        self.positions - self.sources
    }

    /// How many words a packet has.
    pub fn packet(&self) -> usize
        ensures value { result ≡ packet_of self.now }
        ensures bounds { (1 ≤ result) × (result ≤ 160) }
    {
        self.rows * self.words
    }

    /// How many words the work run of a check or a repair has: room for every sum, and for one packet more.
    pub fn work(&self) -> usize
        ensures value { result ≡ (parity_of self.now + 1) * packet_of self.now }
        ensures bound { result ≤ 5280 }
    {
        (self.parity() + 1) * self.packet()
    }

    /// Refuses an arithmetic of another width with `OtherWidth`.
    pub fn check_width<F: Arithmetic>(&self) -> Result<(), Refusal>
        ensures { refused_with result ≡ width_refusal F.Arithmetic.bits self.now }
    {
        if self.rows != F::width() as usize {
            return Err(Refusal::OtherWidth);
        }
        Ok(())
    }

    /// Refuses a run that has not exactly `packets` packets with `WrongRun`, and the place of the run among those of a call.
    pub fn check_run(&self, packets: usize, run: &[u32], place: usize) -> Result<(), Refusal>
        ensures { refused_with result ≡ run_refusal self.now packets run.now place }
    {
        if packets.checked_mul(self.packet()) != Some(run.len()) {
            return Err(Refusal::WrongRun { place });
        }
        Ok(())
    }
}
