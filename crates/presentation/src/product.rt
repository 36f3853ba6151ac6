// A row times the column transform.
ghost use Rattle.std.specs.Prelude.{◌<◌, ◌≤◌, length, IsTrue, ◌↔◌};
ghost use Rattle.presentation.specs.Operations.{NewEntry};
ghost use Rattle.presentation.specs.Products.{dot, ZeroRow, Putting};

use crate::fault::{Table, TableFault};
use crate::grid::Grid;
use crate::table::{Axis, put_row};
use kinds::{ElementFault, Ring, Sums};

// Whether the elements of a row are zero.
fn is_zero_row<E: Ring>(row: &[E]) -> bool
    ensures { IsTrue result ↔ (ZeroRow E.model (length row.now) row.now) }
{
    row.iter().all(|x| x.is_zero())
}

// Entry j of a row times a table.
fn entry<E: Ring>(row: &[E], t: &Grid<'_, E>, j: usize) -> Result<E, ElementFault>
    requires few { length row.now ≤ 32 }
    requires column { j < 32 }
    ensures { NewEntry E.model (dot E.model (length row.now) row.now t.now j) result }
{
    let mut sum = E::Sum::new();
    for (k, x) in row.iter().enumerate() {
        sum.take(x, &t.entry(Axis::Row, k, j))?;
    }
    let mut out = t.entry(Axis::Row, 0, j);
    sum.store(&mut out)?;
    Ok(out)
}

// Puts a row times a table into row m of the worktable, once all its entries are known to fit. A row of zeros is not
// multiplied.
pub(crate) fn put_product<E: Ring>(
    row: &[E],
    t: &Grid<'_, E>,
    m: usize,
    work: &mut [E],
) -> Result<(), TableFault>
    requires few { length row.now ≤ 32 }
    requires place { m < 32 }
    requires long { 1024 ≤ length work.old }
    ensures { Putting E.model (length row.now) row.now t.now m work.old work.new result }
{
    let mut zero = t.entry(Axis::Row, 0, 0);
    zero.set_zero();
    // 32 and no `Vec`: the library has no heap
    let mut line = [zero; 32];
    if !is_zero_row(row) {
        // j is the column, which the fault names and the place of the new entry goes by
        for j in 0..row.len() {
            line[j] = entry(row, t, j).map_err(|fault| Axis::Row.fault(Table::Work, m, j, fault))?;
        }
    }
    put_row(work, m, &line[..row.len()]);
    Ok(())
}
