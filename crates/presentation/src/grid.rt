// Reading a lent table by rows and columns.
ghost use Rattle.std.specs.Prelude.{◌≡◌, ◌<◌};
ghost use Rattle.presentation.specs.Places.{place, meant};

use crate::table::Axis;
use kinds::Ring;
use std::marker::Model;

// A table that is lent to be read. A contract sees the list of its elements.
#[derive(Drop)]
pub(crate) struct Grid<'a, E> {
    pub(crate) cells: &'a [E],
}

impl<'a, E> Model for Grid<'a, E> {
    ghost use Rattle.std.specs.Prelude.{List, ◌≤◌, length};

    ghost Value = { List E };

    ghost view = { λ g. g.cells.now };

    ghost invariant = { λ g. 1024 ≤ length g.cells.now };
}

impl<E: Ring> Grid<'_, E> {
    // Entry k of row or column i.
    #[inline(always)]
    pub(crate) fn entry(&self, axis: Axis, i: usize, k: usize) -> E
        requires line { i < 32 }
        requires entry { k < 32 }
        ensures { E.model.mean result ≡ meant E.model self.now (place axis i k) }
    {
        let cells = self.cells;
        cells[axis.place(i, k)]
    }
}
