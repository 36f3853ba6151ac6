// Elementary operations on the rows or columns of tables, whole or not at all.
ghost use Rattle.std.specs.Prelude.{MatchResult, ◌≡◌, ◌*◌, ◌<◌, ◌≤◌, length};
ghost use Rattle.presentation.specs.declared.operation.Operation.TheVariants.{Combine};
ghost use Rattle.presentation.specs.Lent.{Same};
ghost use Rattle.presentation.specs.Operations.{across_update, across, changed, NewEntry, new_entry, Fitting, FitUpdate, Changed, Fit, Unfit, Made, Within, three, Performing};

use crate::fault::{Table, TableFault};
use crate::grid::Grid;
use crate::table::{Axis, Transform, swap_along};
use kinds::{ElementFault, Ring};

// How the entries of a row or column come from those of another. Data and no closure: the inverse is made of it, and
// contracts speak of it.
#[derive(Drop)]
pub enum Change<E> {
    // times a unit, kept with its inverse
    Scale { unit: E, inverse: E },
    // plus a multiple
    Add(E),
    // less a multiple
    Subtract(E),
}

// Row or column `to` is changed by row or column `from`; the two are one in scaling. That they are among the first 32 is a
// clause: with a ghost field no definition could write an update down.
#[derive(Drop)]
pub struct Update<E> {
    pub change: Change<E>,
    pub from: usize,
    pub to: usize,
}

// An elementary operation on rows or columns. Data and no closure, as `Change`.
#[derive(Drop)]
pub enum Operation<E> {
    Swap(usize, usize),
    Combine(Update<E>),
}

impl<E: Ring> Update<E> {
    // The new entry, of the one in `to` and the one in `from`. Inlined, as `new_entry` and `Grid::entry`: so the choices of
    // axis and change are made once a line and not at each entry.
    #[inline(always)]
    fn entry(&self, x: &E, y: &E) -> Result<E, ElementFault>
        ensures { NewEntry E.model (changed E.model self.now.change (E.model.mean x.now) (E.model.mean y.now)) result }
    {
        let mut z = *x;
        match self.change {
            Change::Scale { unit, inverse: _ } => {
                z.set_zero();
                z.add_mul(&unit, y)?;
            }
            Change::Add(times) => z.add_mul(&times, y)?,
            Change::Subtract(times) => z.sub_mul(&times, y)?,
        }
        Ok(z)
    }

    // The update of the inverse table, along the other axis, that undoes this one.
    fn across(&self) -> Update<E>
        ensures { result ≡ across_update self.now }
    {
        let change = match self.change {
            Change::Scale { unit, inverse } => Change::Scale {
                unit: inverse,
                inverse: unit,
            },
            Change::Add(times) => Change::Subtract(times),
            Change::Subtract(times) => Change::Add(times),
        };
        Update {
            change,
            from: self.to,
            to: self.from,
        }
    }

    // Entry k of row or column `to`, after the update.
    #[inline(always)]
    fn new_entry(&self, t: &Grid<'_, E>, axis: Axis, k: usize) -> Result<E, ElementFault>
        requires within { Within (Combine self.now) }
        requires entry { k < 32 }
        ensures { NewEntry E.model (new_entry E.model self.now axis t.now k) result }
    {
        let x = t.entry(axis, self.to, k);
        let y = t.entry(axis, self.from, k);
        self.entry(&x, &y)
    }

    // Looks whether the new entries of row or column `to` fit, by their numbers: a column is no slice.
    fn fits(&self, t: &Grid<'_, E>, table: Table, axis: Axis, len: usize) -> Result<(), TableFault>
        requires within { Within (Combine self.now) }
        requires used { len ≤ 32 }
        ensures { Fitting E.model self.now table axis len t.now result }
    {
        for k in 0..len {
            self.new_entry(t, axis, k)
                .map_err(|fault| axis.fault(table, self.to, k, fault))?;
        }
        Ok(())
    }

    // Writes the new entries of row or column `to`, which fit, by their numbers too.
    fn apply(&self, t: &mut [E], axis: Axis, len: usize)
        requires long { 1024 ≤ length t.old }
        requires within { Within (Combine self.now) }
        requires used { len ≤ 32 }
        requires fit { FitUpdate E.model self.now axis len t.old }
        ensures { Changed E.model self.now axis len t.old t.new }
    {
        for k in 0..len {
            match self.new_entry(&Grid { cells: t }, axis, k) {
                Ok(z) => t[axis.place(self.to, k)] = z,
                Err(_) => unreachable!(),
            }
        }
    }
}

impl<E: Ring> Operation<E> {
    // The operation on the inverse table, along the other axis, that undoes this one.
    fn across(&self) -> Operation<E>
        ensures { result ≡ across self.now }
    {
        match self {
            Operation::Swap(a, b) => Operation::Swap(*a, *b),
            Operation::Combine(update) => Operation::Combine(update.across()),
        }
    }

    // Looks whether the entries that it would write fit. Swaps need no look.
    fn fits(&self, t: &Grid<'_, E>, table: Table, axis: Axis, len: usize) -> Result<(), TableFault>
        requires within { Within self.now }
        requires used { len ≤ 32 }
        ensures { MatchResult result (λ _. Fit E.model self.now axis len t.now) (λ f. Unfit E.model self.now table axis len t.now f) }
    {
        match self {
            Operation::Swap(_, _) => Ok(()),
            Operation::Combine(update) => update.fits(t, table, axis, len),
        }
    }

    // Makes the operation, whose entries fit.
    fn apply(&self, t: &mut [E], axis: Axis, len: usize)
        requires long { 1024 ≤ length t.old }
        requires within { Within self.now }
        requires used { len ≤ 32 }
        requires fit { Fit E.model self.now axis len t.old }
        ensures { Made E.model self.now axis len t.old t.new }
    {
        match self {
            Operation::Swap(a, b) => swap_along(t, axis, *a, *b, len),
            Operation::Combine(update) => update.apply(t, axis, len),
        }
    }

    // Makes the operation along an axis of the worktable and of a transform, and undoes it along the other axis of
    // the transform's inverse: all entries fit and are written, or none is.
    pub(crate) fn perform(
        &self,
        axis: Axis,
        breadth: usize,
        len: usize,
        work: &mut [E],
        transform: &mut Transform<'_, E>,
    ) -> Result<(), TableFault>
        requires work { 1024 ≤ length work.old }
        requires transform { 1024 ≤ length transform.old.matrix.now }
        requires inverse { 1024 ≤ length transform.old.inverse.now }
        requires breadth { breadth ≤ 32 }
        requires used { len ≤ 32 }
        requires within { Within self.now }
        ensures same { Same transform.old transform.new }
        ensures outcome { Performing E.model self.now axis breadth len (three work.old transform.old) (three work.new transform.new) result }
    {
        let back = self.across();
        self.fits(&Grid { cells: work }, Table::Work, axis, breadth)?;
        let matrix = Grid {
            cells: transform.matrix(),
        };
        self.fits(&matrix, axis.transform(), axis, len)?;
        let inverse = Grid {
            cells: transform.inverse(),
        };
        back.fits(&inverse, axis.inverse(), axis.other(), len)?;
        self.apply(work, axis, breadth);
        self.apply(transform.matrix, axis, len);
        back.apply(transform.inverse, axis.other(), len);
        Ok(())
    }
}
