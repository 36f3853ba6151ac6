// A table of rows of 32, and writing its rows and columns.
ghost use Rattle.std.specs.Prelude.{◌⊎◌, true, false, ◌≡◌, ◌+◌, ◌*◌, ◌<◌, ◌≤◌, length};
ghost use Rattle.presentation.specs.declared.table.Axis.TheVariants.{Row};
ghost use Rattle.presentation.specs.Lent.{Same};
ghost use Rattle.presentation.specs.Places as places;
ghost use Rattle.presentation.specs.Places.{Written, Swapped, Grown};

use crate::fault::{Table, TableFault};
use kinds::{ElementFault, Ring};

// The elements of a table at least. What writes a table asks for them in a clause: in a struct that holds the lent slice
// each method would have to say too that it still holds that slice.
pub const TABLE: usize = 1024;

// A transform that is lent with its inverse: P and P*, or Q and Q*. Each call that changes one says `Same` of it in a
// clause: no invariant can, for it speaks of before and after.
#[derive(Drop)]
pub struct Transform<'a, E> {
    pub matrix: &'a mut [E],
    pub inverse: &'a mut [E],
}

impl<E> Transform<'_, E> {
    // Whether the transform or its inverse is under 1,024 elements.
    pub(crate) fn is_short(&self) -> bool
        ensures long { result ≡ false → (1024 ≤ length self.now.matrix.now) × (1024 ≤ length self.now.inverse.now) }
        ensures short { result ≡ true → (length self.now.matrix.now < 1024) ⊎ (length self.now.inverse.now < 1024) }
    {
        self.matrix.len() < TABLE || self.inverse.len() < TABLE
    }

    // The transform itself, to be read.
    pub(crate) fn matrix(&self) -> &[E]
        ensures { result.now ≡ self.now.matrix.now }
    {
        self.matrix
    }

    // Its inverse, to be read.
    pub(crate) fn inverse(&self) -> &[E]
        ensures { result.now ≡ self.now.inverse.now }
    {
        self.inverse
    }
}

impl<E: Ring> Transform<'_, E> {
    // A transform and its inverse of size × size each grow by a row and a column of the identity.
    pub(crate) fn grow(&mut self, size: usize)
        requires matrix { 1024 ≤ length self.old.matrix.now }
        requires inverse { 1024 ≤ length self.old.inverse.now }
        requires room { size < 32 }
        ensures same { Same self.old self.new }
        ensures matrix { Grown E.model size self.old.matrix.now self.new.matrix.now }
        ensures inverse { Grown E.model size self.old.inverse.now self.new.inverse.now }
    {
        grow(self.matrix, size);
        grow(self.inverse, size);
    }
}

// Rows or columns: one text serves both.
#[derive(Clone, Copy)]
pub enum Axis {
    Row,
    Column,
}

// Numbers of rows and columns, below 32, and their lengths, of at most 32, stay numbers under clauses: `perform` needs three
// different pairs of an axis and a length, `place` no length at all.
impl Axis {
    // The place of entry k of row or column i.
    pub(crate) fn place(self, i: usize, k: usize) -> usize
        requires line { i < 32 }
        requires entry { k < 32 }
        ensures value { result ≡ places.place self i k }
        ensures bound { result < 1024 }
    {
        match self {
            Axis::Row => 32 * i + k,
            Axis::Column => 32 * k + i,
        }
    }

    // Rows for columns, and columns for rows.
    pub(crate) fn other(self) -> Axis
        ensures { result ≡ places.other self }
    {
        match self {
            Axis::Row => Axis::Column,
            Axis::Column => Axis::Row,
        }
    }

    // The table that keeps the operations of the axis.
    pub(crate) fn transform(self) -> Table
        ensures { result ≡ places.transform self }
    {
        match self {
            Axis::Row => Table::Left,
            Axis::Column => Table::Right,
        }
    }

    // The inverse of that table.
    pub(crate) fn inverse(self) -> Table
        ensures { result ≡ places.inverse self }
    {
        match self {
            Axis::Row => Table::LeftInverse,
            Axis::Column => Table::RightInverse,
        }
    }

    // The fault of entry k of row or column i.
    pub(crate) fn fault(self, table: Table, i: usize, k: usize, fault: ElementFault) -> TableFault
        ensures { result ≡ places.fault_at self table i k fault }
    {
        let (row, column) = match self {
            Axis::Row => (i, k),
            Axis::Column => (k, i),
        };
        TableFault {
            table,
            row,
            column,
            fault,
        }
    }
}

// Puts a line into row i.
pub(crate) fn put_row<E: Copy>(t: &mut [E], i: usize, line: &[E])
    requires long { 1024 ≤ length t.old }
    requires row { i < 32 }
    requires few { length line.now ≤ 32 }
    ensures { Written Row i (length line.now) line.now t.old t.new }
{
    t[32 * i..32 * i + line.len()].copy_from_slice(line);
}

// Swaps rows or columns a and b, entry by entry: a column is no slice.
pub(crate) fn swap_along<E: Copy>(t: &mut [E], axis: Axis, a: usize, b: usize, len: usize)
    requires long { 1024 ≤ length t.old }
    requires first { a < 32 }
    requires second { b < 32 }
    requires used { len ≤ 32 }
    ensures { Swapped axis a b len t.old t.new }
{
    for k in 0..len {
        t.swap(axis.place(a, k), axis.place(b, k));
    }
}

// A table of size × size grows by a row and a column of the identity, each written by its numbers: a column is no slice.
fn grow<E: Ring>(t: &mut [E], size: usize)
    requires long { 1024 ≤ length t.old }
    requires room { size < 32 }
    ensures { Grown E.model size t.old t.new }
{
    let mut zero = t[33 * size];
    zero.set_zero();
    let mut one = zero;
    one.set_one();
    for k in 0..size {
        t[32 * size + k] = zero;
        t[32 * k + size] = zero;
    }
    t[33 * size] = one;
}
