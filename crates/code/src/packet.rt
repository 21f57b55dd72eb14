//! Packets multiplied by the matrices of field elements and added, by tables of the packet's rows.
ghost use Rattle.std.specs.Prelude.{◌≡◌, ℕ, ◌*◌, ◌^◌, ◌<◌, ◌≤◌, length, slice_index};
ghost use Rattle.algebra.specs.Code.{Packet};
ghost use Rattle.code.specs.Packets.{AddedRows};
ghost use Rattle.code.specs.Subsets.{RowTable, selected};

use crate::subsets::add_selected;

// Adds a matrix times a packet to the packet `target`.
#[inline(always)]
pub(crate) fn add_each_row(
    w: usize,
    m: usize,
    table: &[u32],
    matrix: &[u32; 10],
    target: &mut [u32],
)
    requires width { w ≤ 16 }
    requires m { m ≤ 10 }
    requires table { 36 * w ≤ length table.now }
    requires matrix { (i : ℕ) → i < m → slice_index matrix.now i < 2 ^ m }
    requires target { length target.old ≡ m * w }
    ensures { (p : Packet) → RowTable m w p table.now
        → AddedRows m w matrix.now p target.old target.new }
{
    for i in 0..m {
        add_selected(w, m, table, matrix[i], &mut target[i * w..i * w + w]);
    }
}

// Adds a matrix times a packet to the packet `target`, and then multiplies the matrix by another, of which `rows` is the table: both
// steps pick by the same bits.
#[inline(always)]
pub(crate) fn add_rows_and_step(
    w: usize,
    m: usize,
    table: &[u32],
    rows: &[u32; 36],
    matrix: &mut [u32; 10],
    target: &mut [u32],
)
    requires width { w ≤ 16 }
    requires m { m ≤ 10 }
    requires table { 36 * w ≤ length table.now }
    requires matrix { (i : ℕ) → i < m → slice_index matrix.old i < 2 ^ m }
    requires target { length target.old ≡ m * w }
    ensures added { (p : Packet) → RowTable m w p table.now
        → AddedRows m w matrix.old p target.old target.new }
    ensures stepped { (q : Packet) → RowTable m 1 q rows.now → (i : ℕ) → i < m
        → slice_index matrix.new i ≡ selected m (slice_index matrix.old i) q 0 }
{
    for i in 0..m {
        let row = matrix[i];
        add_selected(w, m, table, row, &mut target[i * w..i * w + w]);
        let mut next = [0];
        add_selected(1, m, rows, row, &mut next);
        matrix[i] = next[0];
    }
}
