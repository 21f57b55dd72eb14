//! The packets at lost positions, from the sums of the others.
ghost use Rattle.std.specs.Prelude.{◌≡◌, ℕ, ◌+◌, ◌%◌, ◌^◌, ◌<◌, ◌≤◌, IfOk, slice_index};
ghost use Rattle.refusal.specs.Numbers.{refused_with};
ghost use Rattle.galois.specs.Field.{power};
ghost use Rattle.layout.specs.Sizes.{packets_in, lost, LostBelow};
ghost use Rattle.layout.specs.Blocks.{Run, block_at, code_of};
ghost use Rattle.layout.specs.Checks.{loss_refusal};
ghost use Rattle.code.specs.Solving.{locator_at, Solvable};

use crate::code::Code;
use crate::subsets::{Table, add_words};
use field::Arithmetic;
use field::power::raise;
use layout::losses::LossList;
use layout::runs::clear;
use refusal::Refusal;

// The lost packets of a block, to be found from its sums, with the locator α^p of each lost position p. The sums and a packet of
// scratch are lent to each step, and so are the block and the work run of the calls: a struct that held runs would have to promise at
// each step that they are the same still, and of the same length.
#[derive(Drop)]
pub(crate) struct Solver<'a, F: Arithmetic> {
    code: &'a Code<F>,
    losses: &'a LossList,
    // As many as are lost, in the first places: a board has no heap.
    locators: [u32; 32],
    ghost below: { LostBelow losses.now code.now.shape.positions },
    ghost at: { (s : ℕ) → s < losses.now.len
        → locator_at locators s ≡ power F.Arithmetic.prod 2 (lost losses.now s) },
    ghost solvable: { Solvable (code_of code.now.shape F.Arithmetic.prod) F.Arithmetic.inv
        locators losses.now.len },
}

impl<'a, F: Arithmetic> Solver<'a, F> {
    ghost use Rattle.code.specs.Solving.{Stepped};
    ghost use Rattle.code.specs.Rebuilt.{Solved};
    ghost use Rattle.code.specs.Lost.{FoundLost};
    ghost use Rattle.code.specs.Written.{Written};
    ghost use Rattle.code.specs.Calls.{Restored};
    ghost use Rattle.code.specs.Values.{code_in, lost_count, gap_in};
    ghost use Rattle.code.specs.Values.{BlockRun, Scratch, SumsRun, WorkRun};
    ghost use Rattle.code.specs.Values.{AddsFound, AddsHeld, Backward, Behind, Forward, Solves};

    // Refuses losses that a block of the code cannot have, or that are too many.
    pub(crate) fn new(code: &'a Code<F>, losses: &'a LossList) -> Result<Solver<'a, F>, Refusal>
        ensures answer { refused_with result ≡ loss_refusal code.now.shape losses.now }
        ensures code { IfOk result (λ v. v.code.now ≡ code.now) }
        ensures losses { IfOk result (λ v. v.losses.now ≡ losses.now) }
    {
        losses.check(&code.shape)?;
        let mut locators = [0; 32];
        // A position is below 1,024, so `as` keeps it.
        for (s, p) in losses.positions().iter().enumerate() {
            locators[s] = raise::<F>(2, *p as u32);
        }
        Ok(Solver {
            code,
            losses,
            locators,
        })
    }

    // How many packets are lost.
    fn count(&self) -> usize
        ensures { result ≡ lost_count self.now }
    {
        self.losses.positions().len()
    }

    // Adds `a` times sum `from` to sum `to`, by way of the table.
    #[inline(always)]
    fn add_entry(
        &self,
        w: usize,
        sums: &mut [u32],
        table: &mut Table,
        a: u32,
        to: usize,
        from: usize,
    )
        requires width { w ≡ (code_in self.now).words }
        requires sums { SumsRun self.now sums.old }
        requires element { a < 2 ^ F.Arithmetic.bits }
        requires to { to < (code_in self.now).parity }
        requires from { from < (code_in self.now).parity }
        ensures { Stepped (code_in self.now) a to from sums.old sums.new }
    {
        self.code.fill_table(w, &sums[self.code.range(from)], table);
        self.code
            .add_times(w, a, table, &mut sums[self.code.range(to)]);
    }

    // The forward steps: stage j adds x_j times each sum to the next, from the last one down to sum j.
    #[inline(always)]
    fn forward(&self, w: usize, sums: &mut [u32], table: &mut Table)
        requires width { w ≡ (code_in self.now).words }
        requires sums { SumsRun self.now sums.old }
        ensures keeps { Forward self.now sums.old sums.new }
        ensures off { Behind self.now sums.old sums.new }
    {
        // The numbers of the stage and of the sum are the algorithm's own: each step reads one sum and writes the next.
        let t = self.count();
        for j in 1..t {
            for i in (j..t).rev() {
                self.add_entry(w, sums, table, self.locators[j - 1], i, i - 1);
            }
        }
    }

    // What packet `n` is multiplied by for each sum j before it: the inverse of the product of x_n + x_s over the s from j to n - 1.
    fn factors(&self, n: usize) -> [u32; 32]
        requires { n < lost_count self.now }
        ensures { (j : ℕ) → j < n
            → slice_index result j ≡ F.Arithmetic.inv (gap_in self.now j n) }
    {
        let mut factors = [0; 32];
        let mut product = 1;
        for j in (0..n).rev() {
            product = F::product(self.locators[n] ^ self.locators[j], product);
            factors[j] = F::inverse(product);
        }
        factors
    }

    // One backward step: finds packet `n`, the last that is not found yet, and takes it out of the sums before it.
    #[inline(always)]
    fn backward(&self, w: usize, n: usize, sums: &mut [u32], table: &mut Table, scratch: &mut [u32])
        requires width { w ≡ (code_in self.now).words }
        requires sums { SumsRun self.now sums.old }
        requires scratch { Scratch self.now scratch.old }
        requires n { n < lost_count self.now }
        requires some { 1 ≤ n }
        ensures keeps { Backward self.now n sums.old sums.new }
        ensures off { Behind self.now sums.old sums.new }
    {
        self.code.fill_table(w, &sums[self.code.range(n)], table);
        // In place of sum n stands sum 0 as it is now: with what sum 0 becomes added to it, it is packet n.
        sums.copy_within(self.code.range(0), self.code.range(n).start);
        let factors = self.factors(n);
        for j in 0..n {
            self.code
                .add_times(w, factors[j], table, &mut sums[self.code.range(j)]);
        }
        scratch.copy_from_slice(&sums[self.code.range(0)]);
        add_words(&mut sums[self.code.range(n)], scratch);
    }

    // Turns the first sums, as many as are lost, into the lost packets. W is as for `Code::words`.
    #[inline(never)]
    fn solve_of<const W: usize>(&self, sums: &mut [u32], scratch: &mut [u32])
        requires known { 0 < W → W ≡ (code_in self.now).words }
        requires sums { SumsRun self.now sums.old }
        requires scratch { Scratch self.now scratch.old }
        ensures solved { Solves self.now sums.old sums.new }
        ensures off { Behind self.now sums.old sums.new }
    {
        let w = self.code.words::<W>();
        let mut table = Table::new();
        self.forward(w, sums, &mut table);
        for n in (1..self.count()).rev() {
            self.backward(w, n, sums, &mut table, scratch);
        }
    }

    // The same: the widths that are met most have loops of known length.
    fn solve(&self, sums: &mut [u32], scratch: &mut [u32])
        requires sums { SumsRun self.now sums.old }
        requires scratch { Scratch self.now scratch.old }
        ensures solved { Solves self.now sums.old sums.new }
        ensures off { Behind self.now sums.old sums.new }
    {
        match self.code.shape.words() {
            1 => self.solve_of::<1>(sums, scratch),
            2 => self.solve_of::<2>(sums, scratch),
            3 => self.solve_of::<3>(sums, scratch),
            4 => self.solve_of::<4>(sums, scratch),
            5 => self.solve_of::<5>(sums, scratch),
            6 => self.solve_of::<6>(sums, scratch),
            7 => self.solve_of::<7>(sums, scratch),
            8 => self.solve_of::<8>(sums, scratch),
            9 => self.solve_of::<9>(sums, scratch),
            10 => self.solve_of::<10>(sums, scratch),
            11 => self.solve_of::<11>(sums, scratch),
            12 => self.solve_of::<12>(sums, scratch),
            13 => self.solve_of::<13>(sums, scratch),
            14 => self.solve_of::<14>(sums, scratch),
            15 => self.solve_of::<15>(sums, scratch),
            16 => self.solve_of::<16>(sums, scratch),
            _ => self.solve_of::<0>(sums, scratch),
        }
    }

    // Adds the packets found, in the first sums, to the sums behind them.
    fn add_found(&self, sums: &mut [u32], scratch: &mut [u32])
        requires sums { SumsRun self.now sums.old }
        requires scratch { Scratch self.now scratch.old }
        ensures { AddsFound self.now sums.old sums.new }
    {
        let t = self.count();
        if t == self.code.shape.parity() {
            return;
        }
        // By way of scratch: `add_at` takes all sums, among which the packets found lie too.
        for (s, at) in self.losses.positions().iter().enumerate() {
            scratch.copy_from_slice(&sums[self.code.range(s)]);
            self.code.add_at(sums, t, *at, scratch);
        }
    }

    // Turns the sums of the packets that are not lost into the packets that are; the scratch packet is left with anything.
    pub(crate) fn find(&self, sums: &mut [u32], scratch: &mut [u32]) -> Result<(), Refusal>
        requires sums { SumsRun self.now sums.old }
        requires scratch { Scratch self.now scratch.old }
        ensures { Solved (code_in self.now) self.now.losses.now sums.old sums.new result }
    {
        self.solve(sums, scratch);
        self.add_found(sums, scratch);
        match self.code.first_nonzero(sums, self.count()) {
            None => Ok(()),
            Some((sum, word)) => {
                clear(sums);
                Err(Refusal::Contradictory { sum, word })
            }
        }
    }

    // Adds to the sums the packets of `run`, at the positions from `start` on, that are not lost.
    pub(crate) fn absorb_held(&self, sums: &mut [u32], run: &[u32], start: usize)
        requires sums { SumsRun self.now sums.old }
        requires run { Run (code_in self.now) (packets_in self.now.code.now.shape run.now) run.now }
        requires end { start + packets_in self.now.code.now.shape run.now
            ≤ (code_in self.now).positions }
        ensures { AddsHeld self.now start run.now sums.old sums.new }
    {
        self.code.add_run(sums, 0, run, start, self.losses);
    }

    // Finds the lost packets of a block: they stand in the first places of the work run afterwards.
    pub(crate) fn find_lost(&self, block: &[u32], work: &mut [u32]) -> Result<(), Refusal>
        requires block { BlockRun self.now block.now }
        requires work { WorkRun self.now work.old }
        ensures { FoundLost (code_in self.now) self.now.losses.now
            (block_at (code_in self.now) block.now) work.new result }
    {
        let shape = &self.code.shape;
        clear(work);
        let (sums, scratch) = work.split_at_mut(shape.parity() * shape.packet());
        self.absorb_held(sums, block, 0);
        self.find(sums, scratch)
    }

    // Writes the packets found to the lost positions of the block.
    fn write_found(&self, work: &[u32], block: &mut [u32])
        requires work { WorkRun self.now work.now }
        requires block { BlockRun self.now block.old }
        ensures { Written (code_in self.now) self.now.losses.now (lost_count self.now)
            work.now block.old block.new }
    {
        let places = self.losses.positions().iter();
        for (at, packet) in places.zip(work.chunks(self.code.shape.packet())) {
            self.code.write_packet(block, *at, packet);
        }
    }

    // Restores the lost packets of a block.
    pub(crate) fn restore(&self, block: &mut [u32], work: &mut [u32]) -> Result<(), Refusal>
        requires block { BlockRun self.now block.old }
        requires work { WorkRun self.now work.old }
        ensures { Restored (code_in self.now) self.now.losses.now block.old block.new result }
    {
        self.find_lost(block, work)?;
        self.write_found(work, block);
        Ok(())
    }
}
