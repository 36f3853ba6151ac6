// Which line of the step applies: the decision, apart from its performance.
ghost use Rattle.std.specs.Prelude.{◌≡◌, ◌<◌, ◌≤◌, MatchOption, IsTrue, ◌↔◌};
ghost use Rattle.presentation.specs.declared.operation.Operation.TheVariants.{Combine};
ghost use Rattle.presentation.specs.Rests as rests;
ghost use Rattle.presentation.specs.Rests.{member, RestZero, Pivotal, Zeros, FirstNonzero, Better, AllDivided, FirstUndivided, Placed};

use crate::grid::Grid;
use crate::operation::{Change, Operation, Update};
use crate::pivot::Pivot;
use crate::state::Open;
use crate::table::Axis;
use kinds::Euclid;

// Lines 2 to 8 of the step, with their positions and multipliers. That these lie in the rest is a clause, `Placed`: the
// rest is known by the presentation and not by the line.
#[derive(Drop)]
pub enum Line<E> {
    // 2: the pivot's row and row c are swapped
    SwapRows(usize),
    // 3: the pivot's column and column c are swapped
    SwapColumns(usize),
    // 4: row c is multiplied by a unit
    Normalise { unit: E, inverse: E },
    // 5: a multiple of row c is taken from a row below
    ReduceRow { row: usize, quotient: E },
    // 6: a multiple of column c is taken from a column after it
    ReduceColumn { column: usize, quotient: E },
    // 7: a column is added to column c
    AddColumn { column: usize, one: E },
    // 8: the corner rises
    Advance,
}

impl Open {
    // A nonzero entry of least size, of the lowest row and then column. A chain would need a closure that makes one.
    fn pivot<E: Euclid>(&self, w: &Grid<'_, E>) -> Option<(usize, usize)>
        ensures { MatchOption result (RestZero E.Ring.model self.now w.now) (λ p. Pivotal E.Ring.model self.now w.now p.0 p.1) }
    {
        let mut least = None;
        for i in self.c..self.m {
            for j in self.c..self.n {
                let size = w.entry(Axis::Row, i, j).size();
                // none is less that is not zero, and the ones before are larger or zero
                if size == 1 {
                    return Some((i, j));
                }
                if is_better(size, least) {
                    least = Some((size, (i, j)));
                }
            }
        }
        least.map(|(_, place)| place)
    }

    // The first nonzero entry of row or column c after the corner.
    fn first_nonzero<E: Euclid>(&self, w: &Grid<'_, E>, axis: Axis, len: usize) -> Option<usize>
        requires corner { self.now.c < 32 }
        requires used { len ≤ 32 }
        ensures { MatchOption result (Zeros E.Ring.model axis self.now.c len w.now) (λ k. FirstNonzero E.Ring.model axis self.now.c len w.now k) }
    {
        let c = self.c;
        (c + 1..len).find(|k| !w.entry(axis, c, *k).is_zero())
    }

    // The first entry, by rows and then columns, that the pivot does not divide; by two loops, as `pivot`.
    fn first_undivided<E: Euclid>(
        &self,
        w: &Grid<'_, E>,
        pivot: &Pivot<E>,
    ) -> Option<(usize, usize)>
        ensures { MatchOption result (AllDivided E.Ring.model self.now w.now (E.Ring.model.mean pivot.now.element)) (λ p. FirstUndivided E.Ring.model self.now w.now (E.Ring.model.mean pivot.now.element) p.0 p.1) }
    {
        for i in self.c..self.m {
            for j in self.c..self.n {
                if !pivot.divides(&w.entry(Axis::Row, i, j)) {
                    return Some((i, j));
                }
            }
        }
        None
    }

    // The pivot, where it stands at the corner.
    fn corner<E: Euclid>(&self, w: &Grid<'_, E>) -> Pivot<E>
        requires { Pivotal E.Ring.model self.now w.now self.now.c self.now.c }
        ensures { E.Ring.model.mean result.element ≡ member E.Ring.model w.now self.now.c self.now.c }
    {
        Pivot {
            element: w.entry(Axis::Row, self.c, self.c),
        }
    }

    // The line that applies where the pivot stands at the corner.
    fn at_corner<E: Euclid>(&self, w: &Grid<'_, E>) -> Line<E>
        requires { Pivotal E.Ring.model self.now w.now self.now.c self.now.c }
        ensures { Placed self.now result }
    {
        let pivot = self.corner(w);
        let mut unit = pivot.element;
        let mut inverse = pivot.element;
        pivot.element.normalise(&mut unit, &mut inverse);
        let mut one = pivot.element;
        one.set_one();
        if !unit.equals(&one) {
            return Line::Normalise { unit, inverse };
        }
        if let Some(row) = self.first_nonzero(w, Axis::Column, self.m) {
            let quotient = pivot.quotient(&w.entry(Axis::Row, row, self.c));
            return Line::ReduceRow { row, quotient };
        }
        if let Some(column) = self.first_nonzero(w, Axis::Row, self.n) {
            let quotient = pivot.quotient(&w.entry(Axis::Row, self.c, column));
            return Line::ReduceColumn { column, quotient };
        }
        match self.first_undivided(w, &pivot) {
            Some((_, column)) => Line::AddColumn { column, one },
            None => Line::Advance,
        }
    }

    // The line that the step prescribes, or None where the rest is zero.
    pub(crate) fn prescribe<E: Euclid>(&self, w: &Grid<'_, E>) -> Option<Line<E>>
        ensures { MatchOption result (RestZero E.Ring.model self.now w.now) (λ line. Placed self.now line) }
    {
        let (i, j) = self.pivot(w)?;
        if i != self.c {
            Some(Line::SwapRows(i))
        } else if j != self.c {
            Some(Line::SwapColumns(j))
        } else {
            Some(self.at_corner(w))
        }
    }
}

// Whether an entry of this size takes the place of the least so far, which is kept with its size.
fn is_better(size: u64, least: Option<(u64, (usize, usize))>) -> bool
    ensures { IsTrue result ↔ (Better size least) }
{
    size > 0 && least.is_none_or(|(least, _)| size < least)
}

impl<E: Euclid> Line<E> {
    // The elementary operation that the line stands for at corner c, and whether on rows or on columns.
    pub(crate) fn operation(&self, c: usize) -> Option<(Axis, Operation<E>)>
        ensures { result ≡ rests.operation self.now c }
    {
        match *self {
            Line::SwapRows(row) => Some((Axis::Row, Operation::Swap(row, c))),
            Line::SwapColumns(column) => Some((Axis::Column, Operation::Swap(column, c))),
            Line::Normalise { unit, inverse } => Some((
                Axis::Row,
                update(Change::Scale { unit, inverse }, c, c),
            )),
            Line::ReduceRow { row, quotient } => Some((
                Axis::Row,
                update(Change::Subtract(quotient), c, row),
            )),
            Line::ReduceColumn { column, quotient } => Some((
                Axis::Column,
                update(Change::Subtract(quotient), c, column),
            )),
            Line::AddColumn { column, one } => Some((
                Axis::Column,
                update(Change::Add(one), column, c),
            )),
            Line::Advance => None,
        }
    }
}

fn update<E>(change: Change<E>, from: usize, to: usize) -> Operation<E>
    ensures { result ≡ Combine (record { change = change; from = from; to = to }) }
{
    Operation::Combine(Update { change, from, to })
}
