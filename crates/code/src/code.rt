//! The code of a shape over an arithmetic: it fills, checks and repairs blocks, and works on the sums of a block's packets.
ghost use Rattle.std.specs.Prelude.{◌≡◌, ℕ, ◌+◌, ◌*◌, ◌%◌, ◌^◌, ◌<◌, ◌≤◌, length, IfErr, IfOk, None, Some};
ghost use Rattle.refusal.specs.Numbers.{refused_with};
ghost use Rattle.galois.specs.Field.{power};
ghost use Rattle.algebra.specs.Code.{Packet, SamePacket, scaled};
ghost use Rattle.layout.specs.Blocks.{Run, ZeroRun, block_at, packet_in, size_of};
ghost use Rattle.layout.specs.Sizes.{packets_in};
ghost use Rattle.layout.specs.Checks.{CheckedFirst, Cleared, width_refusal};

use crate::matrix::{Matrices, columns};
use crate::packet::{add_each_row, add_rows_and_step};
use crate::solver::Solver;
use crate::subsets::{Table, add_selected, add_words, fill};
use field::Arithmetic;
use field::power::raise;
use layout::losses::LossList;
use layout::runs::clear;
use layout::shape::{LONGEST, Shape};
use refusal::Refusal;
use std::ops::Range;

/// A shape whose rows are as many as the arithmetic is wide. Made once, it serves any number of blocks.
#[derive(Drop)]
pub struct Code<F: Arithmetic> {
    pub(crate) shape: Shape,
    matrices: Matrices<F>,
    ghost width: { shape.rows ≡ F.Arithmetic.bits },
}

impl<F: Arithmetic> Code<F> {
    ghost use Rattle.code.specs.Packets.{AddedTimes, PacketRange, PacketWritten};
    ghost use Rattle.code.specs.Subsets.{TableOf};
    ghost use Rattle.code.specs.Sums.{Absorbed, AbsorbedFrom, FirstNonzero, Gained};
    ghost use Rattle.code.specs.Lost.{Contradicts};
    ghost use Rattle.code.specs.Held.{Filled, RunAdded};
    ghost use Rattle.code.specs.Calls.{CodewordRun, ContradictoryRun, Encoded, Repaired, Says};
    ghost use Rattle.code.specs.Calls.{encode_refusal, check_refusal, repair_refusal};
    ghost use Rattle.code.specs.Rebuilt.{Rebuilt, Unmatched, absorb_refusal, rebuild_refusal};
    ghost use Rattle.code.specs.Values.{code};

    /// The code of a shape; refused with `OtherWidth` if its rows are not as many as the arithmetic is wide.
    pub fn new(shape: &Shape) -> Result<Code<F>, Refusal>
        ensures answer { refused_with result ≡ width_refusal F.Arithmetic.bits shape.now }
        ensures shape { IfOk result (λ made. made.shape ≡ shape.now) }
    {
        shape.check_width::<F>()?;
        Ok(Code {
            shape: *shape,
            matrices: Matrices::new(),
        })
    }

    // Where packet `i` of a run lies.
    pub(crate) fn range(&self, i: usize) -> Range<usize>
        requires { i < (code self.now).positions }
        ensures { PacketRange (code self.now) i result.start result.end }
    {
        let p = self.shape.packet();
        i * p..i * p + p
    }

    // The words of a row: W, where the compiler knows them, and those of the shape where W is 0.
    #[inline(always)]
    pub(crate) fn words<const W: usize>(&self) -> usize
        requires known { 0 < W → W ≡ (code self.now).words }
        ensures { result ≡ (code self.now).words }
    {
        if W > 0 { W } else { self.shape.words() }
    }

    // Fills a table with the sums of the rows of a packet, of w words each.
    #[inline(always)]
    pub(crate) fn fill_table(&self, w: usize, packet: &[u32], table: &mut Table)
        requires width { w ≡ (code self.now).words }
        requires packet { length packet.now ≡ size_of (code self.now) }
        ensures { TableOf (code self.now) (packet_in (code self.now).words packet.now)
            table.new.sums }
    {
        fill(w, F::width() as usize, packet, &mut table.sums);
    }

    // Adds `a` times the packet of a table to the packet `target`, of rows of w words.
    #[inline(always)]
    pub(crate) fn add_times(&self, w: usize, a: u32, table: &Table, target: &mut [u32])
        requires width { w ≡ (code self.now).words }
        requires element { a < 2 ^ F.Arithmetic.bits }
        requires target { length target.old ≡ size_of (code self.now) }
        ensures { (p : Packet) → TableOf (code self.now) p table.now.sums
            → AddedTimes (code self.now) a p target.old target.new }
    {
        let matrix = self.matrices.of(a);
        add_each_row(w, F::width() as usize, &table.sums, &matrix, target);
    }

    // Adds a packet with locator `x` to sum 0, which gains it as it is, if that is one of the sums from `first` on. Returns the number of the
    // next sum, and that power of x.
    #[inline(always)]
    fn add_plain(&self, sums: &mut [u32], first: usize, x: u32, packet: &[u32]) -> (usize, u32)
        requires sums { Run (code self.now) (code self.now).parity sums.old }
        requires packet { length packet.now ≡ size_of (code self.now) }
        requires first { first ≤ (code self.now).parity }
        requires element { x < 2 ^ F.Arithmetic.bits }
        ensures added { Absorbed (code self.now) first result.0 x
            (packet_in (code self.now).words packet.now) sums.old sums.new }
        ensures from { first ≤ result.0 }
        ensures end { result.0 ≤ (code self.now).parity }
        ensures power { result.1 ≡ power F.Arithmetic.prod x result.0 }
    {
        if first > 0 {
            // There are no more than 32 sums, so `as` keeps the number.
            return (first, raise::<F>(x, first as u32));
        }
        add_words(&mut sums[self.range(0)], packet);
        (1, x)
    }

    // Adds a packet with locator `x`, of rows of w words, to the sums from `first` on, by way of a table: sum μ gains x^μ times it.
    #[inline(always)]
    fn add_powers(
        &self,
        w: usize,
        table: &mut [u32],
        sums: &mut [u32],
        first: usize,
        x: u32,
        packet: &[u32],
    )
        requires width { w ≡ (code self.now).words }
        requires table { 36 * (code self.now).words ≤ length table.old }
        requires sums { Run (code self.now) (code self.now).parity sums.old }
        requires packet { length packet.now ≡ size_of (code self.now) }
        requires first { first ≤ (code self.now).parity }
        requires element { x < 2 ^ F.Arithmetic.bits }
        ensures { AbsorbedFrom (code self.now) first x packet.now sums.old sums.new }
    {
        let (next, power) = self.add_plain(sums, first, x, packet);
        if next == self.shape.parity() {
            return;
        }
        let m = F::width() as usize;
        let p = m * w;
        fill(w, m, packet, table);
        let mut rows = [0; 36];
        fill(1, m, &self.matrices.of(x)[..m], &mut rows);
        let mut matrix = self.matrices.of(power);
        for sum in next..self.shape.parity() {
            add_rows_and_step(
                w,
                m,
                table,
                &rows,
                &mut matrix,
                &mut sums[sum * p..sum * p + p],
            );
        }
    }

    // Writes the multiples of a packet by the elements 2^j, one after another, from the table of its rows.
    #[inline(always)]
    fn fill_multiples(&self, w: usize, table: &[u32], multiples: &mut [u32])
        requires width { w ≡ (code self.now).words }
        requires table { 36 * (code self.now).words ≤ length table.now }
        requires multiples { length multiples.old ≡ (code self.now).rows * size_of (code self.now) }
        ensures { (q : Packet) → TableOf (code self.now) q table.now
            → (j : ℕ) → j < (code self.now).rows
            → SamePacket (code self.now) (block_at (code self.now) multiples.new j)
            (scaled (code self.now) (2 ^ j) q) }
    {
        let m = F::width() as usize;
        let p = m * w;
        clear(multiples);
        for j in 0..m {
            let matrix = self.matrices.of(1 << j);
            add_each_row(w, m, table, &matrix, &mut multiples[j * p..j * p + p]);
        }
    }

    // The same for packets of up to 16 words, whose multiples by the elements 2^j are taken for the rows of a table: a number is then the
    // element itself, and there is one for each sum, and not one for each row.
    #[inline(never)]
    fn add_multiples<const W: usize>(
        &self,
        table: &mut [u32],
        sums: &mut [u32],
        first: usize,
        x: u32,
        packet: &[u32],
    )
        requires known { 0 < W → W ≡ (code self.now).words }
        requires short { size_of (code self.now) ≤ 16 }
        requires table { 576 ≤ length table.old }
        requires sums { Run (code self.now) (code self.now).parity sums.old }
        requires packet { length packet.now ≡ size_of (code self.now) }
        requires first { first ≤ (code self.now).parity }
        requires element { x < 2 ^ F.Arithmetic.bits }
        ensures { AbsorbedFrom (code self.now) first x packet.now sums.old sums.new }
    {
        let m = F::width() as usize;
        let w = self.words::<W>();
        let p = m * w;
        let mut multiples = [0; LONGEST];
        fill(w, m, packet, table);
        self.fill_multiples(w, table, &mut multiples[..m * p]);
        fill(p, m, &multiples[..m * p], table);
        // A product with x takes no longer way than one with a table's row: the multiples of x by the elements 2^j are added up.
        let mut steps = [0; 36];
        fill(1, m, &columns::<F>(x)[..m], &mut steps);
        let mut a = raise::<F>(x, first as u32);
        for sum in first..self.shape.parity() {
            add_selected(p, m, table, a, &mut sums[sum * p..sum * p + p]);
            let mut next = [0];
            add_selected(1, m, &steps, a, &mut next);
            a = next[0];
        }
    }

    // The same, by whichever of the two ways is shorter.
    #[inline(always)]
    fn add_packet<const W: usize>(
        &self,
        table: &mut Table,
        sums: &mut [u32],
        first: usize,
        x: u32,
        packet: &[u32],
    )
        requires known { 0 < W → W ≡ (code self.now).words }
        requires sums { Run (code self.now) (code self.now).parity sums.old }
        requires packet { length packet.now ≡ size_of (code self.now) }
        requires first { first ≤ (code self.now).parity }
        requires element { x < 2 ^ F.Arithmetic.bits }
        ensures { AbsorbedFrom (code self.now) first x packet.now sums.old sums.new }
    {
        let w = self.words::<W>();
        // To make the multiples takes the time of some fifteen sums.
        if F::width() as usize * w <= 16 && self.shape.parity() - first >= 16 {
            self.add_multiples::<W>(&mut table.sums, sums, first, x, packet);
        } else {
            self.add_powers(w, &mut table.sums, sums, first, x, packet);
        }
    }

    // Adds to the sums from `first` on the packets of a run, at the positions from `start` on, that are not lost. W is as for `words`.
    #[inline(never)]
    fn add_held<const W: usize>(
        &self,
        sums: &mut [u32],
        first: usize,
        run: &[u32],
        start: usize,
        losses: &LossList,
    )
        requires known { 0 < W → W ≡ (code self.now).words }
        requires sums { Run (code self.now) (code self.now).parity sums.old }
        requires first { first ≤ (code self.now).parity }
        requires run { Run (code self.now) (packets_in self.now.shape run.now) run.now }
        requires end { start + packets_in self.now.shape run.now ≤ (code self.now).positions }
        ensures { RunAdded (code self.now) losses.now first start
            (packets_in self.now.shape run.now) run.now sums.old sums.new }
    {
        let mut table = Table::new();
        // A position is below 1,024, so `as` keeps it.
        let mut x = raise::<F>(2, start as u32);
        for (i, packet) in run.chunks(self.shape.packet()).enumerate() {
            let locator = x;
            x = F::product(2, x);
            if !losses.contains(start + i) {
                self.add_packet::<W>(&mut table, sums, first, locator, packet);
            }
        }
    }

    // The same: the widths that are met most have loops of known length.
    pub(crate) fn add_run(
        &self,
        sums: &mut [u32],
        first: usize,
        run: &[u32],
        start: usize,
        losses: &LossList,
    )
        requires sums { Run (code self.now) (code self.now).parity sums.old }
        requires first { first ≤ (code self.now).parity }
        requires run { Run (code self.now) (packets_in self.now.shape run.now) run.now }
        requires end { start + packets_in self.now.shape run.now ≤ (code self.now).positions }
        ensures { RunAdded (code self.now) losses.now first start
            (packets_in self.now.shape run.now) run.now sums.old sums.new }
    {
        match self.shape.words() {
            1 => self.add_held::<1>(sums, first, run, start, losses),
            2 => self.add_held::<2>(sums, first, run, start, losses),
            3 => self.add_held::<3>(sums, first, run, start, losses),
            4 => self.add_held::<4>(sums, first, run, start, losses),
            5 => self.add_held::<5>(sums, first, run, start, losses),
            6 => self.add_held::<6>(sums, first, run, start, losses),
            7 => self.add_held::<7>(sums, first, run, start, losses),
            8 => self.add_held::<8>(sums, first, run, start, losses),
            9 => self.add_held::<9>(sums, first, run, start, losses),
            10 => self.add_held::<10>(sums, first, run, start, losses),
            11 => self.add_held::<11>(sums, first, run, start, losses),
            12 => self.add_held::<12>(sums, first, run, start, losses),
            13 => self.add_held::<13>(sums, first, run, start, losses),
            14 => self.add_held::<14>(sums, first, run, start, losses),
            15 => self.add_held::<15>(sums, first, run, start, losses),
            16 => self.add_held::<16>(sums, first, run, start, losses),
            _ => self.add_held::<0>(sums, first, run, start, losses),
        }
    }

    // Adds the packet at a position of a block to the block's sums from `first` on.
    pub(crate) fn add_at(&self, sums: &mut [u32], first: usize, position: usize, packet: &[u32])
        requires sums { Run (code self.now) (code self.now).parity sums.old }
        requires first { first ≤ (code self.now).parity }
        requires position { position < (code self.now).positions }
        requires packet { length packet.now ≡ size_of (code self.now) }
        ensures { AbsorbedFrom (code self.now) first (power F.Arithmetic.prod 2 position)
            packet.now sums.old sums.new }
    {
        self.add_run(sums, first, packet, position, &LossList::none());
    }

    // The first word that is not zero in the sums from `first` on: the sum, and the word in it.
    pub(crate) fn first_nonzero(&self, sums: &[u32], first: usize) -> Option<(usize, usize)>
        requires sums { Run (code self.now) (code self.now).parity sums.now }
        requires first { first ≤ (code self.now).parity }
        ensures { FirstNonzero (code self.now) sums.now first result }
    {
        let p = self.shape.packet();
        // Two loops left by a label, and no `position` over all words: sum and word are where the loops stand, with nothing to divide.
        let mut at = None;
        'found: for (i, packet) in sums[first * p..].chunks(p).enumerate() {
            for (word, value) in packet.iter().enumerate() {
                if *value != 0 {
                    at = Some((first + i, word));
                    break 'found;
                }
            }
        }
        at
    }

    // Writes a packet to a position of the block.
    pub(crate) fn write_packet(&self, block: &mut [u32], position: usize, packet: &[u32])
        requires block { Run (code self.now) (code self.now).positions block.old }
        requires position { position < (code self.now).positions }
        requires packet { length packet.now ≡ size_of (code self.now) }
        ensures { PacketWritten (code self.now) position packet.now block.old block.new }
    {
        block[self.range(position)].copy_from_slice(packet);
    }

    // Finds the parity packets as packets that are lost.
    fn fill_parity(&self, source: &[u32], parity: &mut [u32]) -> Result<(), Refusal>
        requires source { Run (code self.now) self.now.shape.sources source.now }
        requires parity { Run (code self.now) (code self.now).parity parity.old }
        ensures { Filled (code self.now) source.now parity.new result }
    {
        let shape = &self.shape;
        let losses = LossList::parity(shape);
        let solver = Solver::new(self, &losses)?;
        // Room for a packet of any shape: a board has no heap.
        let mut scratch = [0; LONGEST];
        clear(parity);
        solver.absorb_held(parity, source, shape.parity());
        solver.find(parity, &mut scratch[0..shape.packet()])
    }

    /// Fills the parity run of a block (r packets) from its source run (k packets). A run of another length is refused with
    /// `WrongRun` and its place, source 0 or parity 1.
    pub fn encode(&self, source: &[u32], parity: &mut [u32]) -> Result<(), Refusal>
        ensures answer { refused_with result
            ≡ encode_refusal self.now.shape source.now parity.old }
        ensures filled { IfOk result (λ u. Encoded (code self.now) source.now parity.new) }
        ensures left { IfErr result (λ e. parity.new ≡ parity.old) }
    {
        let shape = &self.shape;
        shape.check_run(shape.sources(), source, 0)?;
        shape.check_run(shape.parity(), parity, 1)?;
        self.fill_parity(source, parity)
    }

    // Refuses runs that are no block and no work run.
    fn check_runs(&self, block: &[u32], work: &[u32]) -> Result<(), Refusal>
        ensures { refused_with result ≡ check_refusal self.now.shape block.now work.now }
    {
        let shape = &self.shape;
        shape.check_run(shape.positions(), block, 0)?;
        shape.check_run(shape.parity() + 1, work, 1)
    }

    /// Whether a block (n packets) is a codeword. The work run (r + 1 packets) is zero afterwards. A run of another length is
    /// refused with `WrongRun` and its place, block 0 or work 1, and stays as it is.
    pub fn check(&self, block: &[u32], work: &mut [u32]) -> Result<bool, Refusal>
        ensures answer { refused_with result ≡ check_refusal self.now.shape block.now work.old }
        ensures says { IfOk result (λ yes. Says yes (CodewordRun (code self.now) block.now)) }
        ensures cleared { IfOk result (λ yes. ZeroRun work.new) }
        ensures left { IfErr result (λ e. work.new ≡ work.old) }
    {
        self.check_runs(block, work)?;
        let none = LossList::none();
        let solver = Solver::new(self, &none)?;
        let outcome = solver.find_lost(block, work);
        clear(work);
        Ok(outcome.is_ok())
    }

    /// Restores the packets of a block at the lost positions, whatever stands there. The work run is zero afterwards. Refused
    /// as a check is, then as the list is (`BadLosses`, `TooFew`), and then every run stays; refused with `Contradictory` if no
    /// codeword has the packets that are not lost, and then the block stays.
    pub fn repair(
        &self,
        block: &mut [u32],
        losses: &LossList,
        work: &mut [u32],
    ) -> Result<(), Refusal>
        ensures repaired { IfOk result
            (λ u. Repaired (code self.now) losses.now block.old block.new) }
        ensures answer { CheckedFirst (repair_refusal self.now.shape block.old losses.now work.old)
            (ContradictoryRun (code self.now) losses.now block.old) result }
        ensures left { IfErr result (λ e. block.new ≡ block.old) }
        ensures work { Cleared (repair_refusal self.now.shape block.old losses.now work.old)
            work.old work.new }
    {
        self.check_runs(block, work)?;
        let solver = Solver::new(self, losses)?;
        let outcome = solver.restore(block, work);
        clear(work);
        outcome
    }

    /// Adds the packet at a position of a block to the block's sums (r packets). Refused with `WrongRun` and a place, sums 0 or
    /// packet 1, then with `OutsideShape`, and then the sums stay.
    pub fn absorb(&self, sums: &mut [u32], position: usize, packet: &[u32]) -> Result<(), Refusal>
        ensures answer { refused_with result
            ≡ absorb_refusal self.now.shape sums.old position packet.now }
        ensures added { IfOk result
            (λ u. Gained (code self.now) position packet.now sums.old sums.new) }
        ensures left { IfErr result (λ e. sums.new ≡ sums.old) }
    {
        let shape = &self.shape;
        shape.check_run(shape.parity(), sums, 0)?;
        shape.check_run(1, packet, 1)?;
        if position >= shape.positions() {
            return Err(Refusal::OutsideShape);
        }
        self.add_at(sums, 0, position, packet);
        Ok(())
    }

    /// Turns the sums of the packets that are not lost into the packets that are, with zeros behind them. The scratch packet is
    /// zero afterwards. Refused with `WrongRun` and a place, sums 0 or scratch 1, then as the list is, and then both runs stay;
    /// refused with `Contradictory` if no packets have all sums, and then both are zero.
    pub fn rebuild(
        &self,
        losses: &LossList,
        sums: &mut [u32],
        scratch: &mut [u32],
    ) -> Result<(), Refusal>
        ensures rebuilt { IfOk result (λ u. Rebuilt (code self.now) losses.now sums.old sums.new) }
        ensures answer { CheckedFirst
            (rebuild_refusal self.now.shape losses.now sums.old scratch.old)
            (Contradicts (Unmatched (code self.now) losses.now sums.old)) result }
        ensures sums { IfErr result (λ e. Cleared
            (rebuild_refusal self.now.shape losses.now sums.old scratch.old) sums.old sums.new) }
        ensures scratch { Cleared (rebuild_refusal self.now.shape losses.now sums.old scratch.old)
            scratch.old scratch.new }
    {
        let shape = &self.shape;
        shape.check_run(shape.parity(), sums, 0)?;
        shape.check_run(1, scratch, 1)?;
        let solver = Solver::new(self, losses)?;
        let outcome = solver.find(sums, scratch);
        clear(scratch);
        outcome
    }
}
