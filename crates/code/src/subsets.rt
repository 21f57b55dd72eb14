//! Rows added up by the bits of a number, four bits at a time: the sums of every subset of four rows are made once, in a table, and
//! each number then takes one of them for each four of its bits.
ghost use Rattle.std.specs.Prelude.{◌≡◌, ℕ, ◌+◌, ◌*◌, ◌^◌, ◌<◌, ◌≤◌, length, bit_xor, slice_index};
ghost use Rattle.algebra.specs.Code.{Packet};
ghost use Rattle.layout.specs.Blocks.{packet_in};
ghost use Rattle.code.specs.Packets.{AddedWords};
ghost use Rattle.code.specs.Subsets.{RowTable, SubsetSums, selected};

use layout::runs::clear;

// Room for a table of rows of up to 16 words: 16 sums of rows 0 to 3, 16 of rows 4 to 7, and 4 of rows 8 and 9.
#[derive(Drop)]
pub(crate) struct Table {
    // With it the sums lie at multiples of 16 bytes, as many as a processor reads at once.
    align: u128,
    pub(crate) sums: [u32; 576],
}

impl Table {
    pub(crate) fn new() -> Table {
        Table {
            align: 0,
            sums: [0; 576],
        }
    }
}

// Adds `source` to `target`, word by word.
#[inline(always)]
pub(crate) fn add_words(target: &mut [u32], source: &[u32])
    requires { length target.old ≡ length source.now }
    ensures { AddedWords source.now target.old target.new }
{
    for (i, word) in source.iter().enumerate() {
        target[i] ^= *word;
    }
}

// Writes the sum of two rows of up to 16 words to `target`.
#[inline(always)]
fn write_sum(target: &mut [u32], a: &[u32], b: &[u32])
    requires short { length target.old ≤ 16 }
    requires a { length a.now ≡ length target.old }
    requires b { length b.now ≡ length target.old }
    ensures { (c : ℕ) → c < length target.old → slice_index target.new c
        ≡ bit_xor (slice_index a.now c) (slice_index b.now c) }
{
    // All words are read before one is written: no compiler has to find out whether the rows overlap.
    let mut sum = [0; 16];
    for c in 0..target.len() {
        sum[c] = a[c] ^ b[c];
    }
    for k in 0..target.len() {
        target[k] = sum[k];
    }
}

// Adds two rows of up to 16 words to `target`.
#[inline(always)]
fn add_two(target: &mut [u32], a: &[u32], b: &[u32])
    requires short { length target.old ≤ 16 }
    requires a { length a.now ≡ length target.old }
    requires b { length b.now ≡ length target.old }
    ensures { (c : ℕ) → c < length target.old → slice_index target.new c
        ≡ bit_xor (slice_index target.old c) (bit_xor (slice_index a.now c) (slice_index b.now c)) }
{
    // As in `write_sum`.
    let mut sum = [0; 16];
    for c in 0..target.len() {
        sum[c] = target[c] ^ (a[c] ^ b[c]);
    }
    for k in 0..target.len() {
        target[k] = sum[k];
    }
}

// Doubles a table of the sums of rows: sum half + v is sum v and one row more.
#[inline(always)]
fn extend(w: usize, half: usize, row: &[u32], table: &mut [u32])
    requires width { w ≤ 16 }
    requires half { half ≤ 8 }
    requires row { length row.now ≡ w }
    requires table { 2 * half * w ≤ length table.old }
    ensures front { (v c : ℕ) → v < half → c < w
        → slice_index table.new (v * w + c) ≡ slice_index table.old (v * w + c) }
    ensures back { (v c : ℕ) → v < half → c < w → slice_index table.new ((half + v) * w + c)
        ≡ bit_xor (slice_index table.old (v * w + c)) (slice_index row.now c) }
{
    let (done, rest) = table.split_at_mut(half * w);
    for v in 0..half {
        write_sum(&mut rest[v * w..v * w + w], &done[v * w..v * w + w], row);
    }
}

// Fills a table with the sums of all subsets of up to four rows.
#[inline(always)]
fn fill_group(w: usize, rows: &[u32], count: usize, table: &mut [u32])
    requires width { (1 ≤ w) × (w ≤ 16) }
    requires count { count ≤ 4 }
    requires rows { length rows.now ≡ count * w }
    requires table { 2 ^ count * w ≤ length table.old }
    ensures { SubsetSums w (packet_in w rows.now) count table.new }
{
    clear(&mut table[..w]);
    for j in 0..count {
        extend(w, 1 << j, &rows[j * w..j * w + w], table);
    }
}

// Fills a table with the sums of the rows of a run of m rows of w words.
#[inline(always)]
pub(crate) fn fill(w: usize, m: usize, rows: &[u32], table: &mut [u32])
    requires width { (1 ≤ w) × (w ≤ 16) }
    requires m { m ≤ 10 }
    requires rows { length rows.now ≡ m * w }
    requires table { 36 * w ≤ length table.old }
    ensures { RowTable m w (packet_in w rows.now) table.new }
{
    let (four, eight) = (m.min(4), m.min(8));
    let (low, rest) = table.split_at_mut(16 * w);
    let (middle, high) = rest.split_at_mut(16 * w);
    fill_group(w, &rows[..four * w], four, low);
    fill_group(w, &rows[four * w..eight * w], eight - four, middle);
    fill_group(w, &rows[eight * w..], m - eight, high);
}

// Adds to a row those of m rows whose bits are set in a number, from the table of the rows.
#[inline(always)]
pub(crate) fn add_selected(w: usize, m: usize, table: &[u32], number: u32, target: &mut [u32])
    requires width { w ≤ 16 }
    requires m { m ≤ 10 }
    requires table { 36 * w ≤ length table.now }
    requires number { number < 2 ^ m }
    requires target { length target.old ≡ w }
    ensures { (p : Packet) → RowTable m w p table.now → (c : ℕ) → c < w
        → slice_index target.new c ≡ bit_xor (slice_index target.old c) (selected m number p c) }
{
    // A number is below 1,024, so `as` keeps it.
    let number = number as usize;
    let low = number % 16 * w;
    let middle = (16 + number / 16 % 16) * w;
    add_two(target, &table[low..low + w], &table[middle..middle + w]);
    if m > 8 {
        let high = (32 + number / 256 % 4) * w;
        add_words(target, &table[high..high + w]);
    }
}
