//! The matrices of the elements of a field, by rows: a row is a number, whose bit j is the row's entry in column j.
ghost use Rattle.std.specs.Prelude.{◌≡◌, ℕ, ◌%◌, ◌*◌, ◌^◌, ◌<◌, ◌≤◌, length, slice_index};
ghost use Rattle.algebra.specs.Code.{Packet, bit, xors};
ghost use Rattle.code.specs.Matrices.{Columns, ElementTable, MatrixOf};
ghost use Rattle.code.specs.Subsets.{RowTable, selected};

use crate::subsets::{add_selected, fill};
use field::Arithmetic;
use std::array;
use std::marker::PhantomData;

// The matrix of the product by `a`, by columns: column j is a · α^j. Ten columns, for the widest field: a board has no heap.
pub(crate) fn columns<F: Arithmetic>(a: u32) -> [u32; 10]
    ensures { Columns F.Arithmetic.bits F.Arithmetic.prod (a % 2 ^ F.Arithmetic.bits) result }
{
    array::from_fn(|j| F::product(a, 1 << j))
}

// Row i of a matrix of which the columns are given.
fn row(columns: &[u32; 10], m: usize, i: usize) -> u32
    requires m { m ≤ 10 }
    requires i { i < m }
    ensures { result ≡ xors m (λ j. bit i (slice_index columns.now j) * 2 ^ j) }
{
    let mut number = 0;
    for j in 0..m {
        number ^= ((columns[j] >> i) & 1) << j;
    }
    number
}

// Writes the matrix of an element.
fn write_matrix<F: Arithmetic>(a: u32, matrix: &mut [u32])
    requires { length matrix.old ≡ F.Arithmetic.bits }
    ensures { MatrixOf F.Arithmetic.bits F.Arithmetic.prod (a % 2 ^ F.Arithmetic.bits) matrix.new }
{
    let columns = columns::<F>(a);
    let m = F::width() as usize;
    for i in 0..m {
        matrix[i] = row(&columns, m, i);
    }
}

// Multiplies a matrix by another, of which `rows` is the table: a row of the first picks of the rows of the second.
fn step(m: usize, rows: &[u32; 36], matrix: &mut [u32; 10])
    requires m { m ≤ 10 }
    requires matrix { (i : ℕ) → i < m → slice_index matrix.old i < 2 ^ m }
    ensures { (q : Packet) → RowTable m 1 q rows.now → (i : ℕ) → i < m
        → slice_index matrix.new i ≡ selected m (slice_index matrix.old i) q 0 }
{
    for i in 0..m {
        let mut next = [0];
        add_selected(1, m, rows, matrix[i], &mut next);
        matrix[i] = next[0];
    }
}

// The matrices of the powers of α that stand for single bits, added up by fours: that of an element is the sum of two or three.
#[derive(Drop)]
pub(crate) struct Matrices<F: Arithmetic> {
    table: [u32; 360],
    field: PhantomData<F>,
    ghost sums: { ElementTable F.Arithmetic.bits F.Arithmetic.prod table },
}

impl<F: Arithmetic> Matrices<F> {
    // The matrices of a field, each by α times the one before: all products that this takes are those of two matrices.
    pub(crate) fn new() -> Matrices<F> {
        let m = F::width() as usize;
        let mut by_alpha = [0; 10];
        write_matrix::<F>(2, &mut by_alpha[..m]);
        let mut rows = [0; 36];
        fill(1, m, &by_alpha[..m], &mut rows);
        let mut matrix = [0; 10];
        write_matrix::<F>(1, &mut matrix[..m]);
        let mut matrices = [0; 100];
        for j in 0..m {
            matrices[j * m..j * m + m].copy_from_slice(&matrix[..m]);
            step(m, &rows, &mut matrix);
        }
        let mut table = [0; 360];
        fill(m, m, &matrices[..m * m], &mut table);
        Matrices {
            table,
            field: PhantomData,
        }
    }

    // The matrix of an element.
    #[inline(always)]
    pub(crate) fn of(&self, a: u32) -> [u32; 10]
        requires { a < 2 ^ F.Arithmetic.bits }
        ensures { MatrixOf F.Arithmetic.bits F.Arithmetic.prod a result }
    {
        let m = F::width() as usize;
        let mut matrix = [0; 10];
        add_selected(m, m, &self.table, a, &mut matrix[..m]);
        matrix
    }
}
