// Opening a presentation, and adding a relation.
ghost use Rattle.std.specs.Prelude.{◌≡◌, length};
ghost use Rattle.presentation.specs.Calls.{LongAdd, Opening, Accepting, Adding};
ghost use Rattle.presentation.specs.Lent.{Same, lent_add};

use crate::fault::CallFault;
use crate::grid::Grid;
use crate::product::put_product;
use crate::state::{Open, Presentation};
use crate::table::{TABLE, Transform, put_row};
use kinds::Ring;

// Opens a presentation of n generators and no relations.
pub fn open<E: Ring>(n: usize, right: &mut Transform<'_, E>) -> Result<Open, CallFault>
    ensures same { Same right.old right.new }
    ensures outcome { Opening E.model n right.old.matrix.now right.old.inverse.now right.new.matrix.now right.new.inverse.now result }
{
    if right.is_short() {
        return Err(CallFault::Short);
    }
    if n == 0 || n > 32 {
        return Err(CallFault::Generators);
    }
    // k is the size so far
    for k in 0..n {
        right.grow(k);
    }
    Ok(Presentation::new(0, n, 0))
}

// A, W, P and Q stay apart, as in `steps`.
impl<S> Presentation<S> {
    // Makes a row of n elements the relation after the first m.
    fn accept_row<E: Ring>(
        &self,
        row: &[E],
        relations: &mut [E],
        work: &mut [E],
        left: &mut Transform<'_, E>,
        right: &[E],
    ) -> Result<(), CallFault>
        requires row { length row.now ≡ self.now.n }
        requires long { LongAdd self.now.n row.now right.now (lent_add relations.old work.old left.old) }
        ensures same { Same left.old left.new }
        ensures outcome { Accepting E.model self.now.m (length row.now) row.now right.now (lent_add relations.old work.old left.old) (lent_add relations.new work.new left.new) result }
    {
        if self.m == 32 {
            return Err(CallFault::Full);
        }
        put_product(row, &Grid { cells: right }, self.m, work)?;
        put_row(relations, self.m, row);
        left.grow(self.m);
        Ok(())
    }

    // The same with the first n elements of a row, once all that is lent is long enough.
    fn accept<E: Ring>(
        &self,
        row: &[E],
        relations: &mut [E],
        work: &mut [E],
        left: &mut Transform<'_, E>,
        right: &[E],
    ) -> Result<(), CallFault>
        ensures same { Same left.old left.new }
        ensures outcome { Accepting E.model self.now.m self.now.n row.now right.now (lent_add relations.old work.old left.old) (lent_add relations.new work.new left.new) result }
    {
        if relations.len() < TABLE
            || work.len() < TABLE
            || left.is_short()
            || right.len() < TABLE
            || row.len() < self.n
        {
            return Err(CallFault::Short);
        }
        self.accept_row(&row[..self.n], relations, work, left, right)
    }

    // Adds a relation; the presentation is open again.
    pub fn add<E: Ring>(
        self,
        row: &[E],
        relations: &mut [E],
        work: &mut [E],
        left: &mut Transform<'_, E>,
        right: &[E],
    ) -> Result<Open, (Presentation<S>, CallFault)>
        ensures same { Same left.old left.new }
        ensures outcome { Adding E.model self row.now right.now (lent_add relations.old work.old left.old) (lent_add relations.new work.new left.new) result }
    {
        // no `?`, which would lose the state
        match self.accept(row, relations, work, left, right) {
            Ok(()) => Ok(Presentation::new(self.m + 1, self.n, 0)),
            Err(fault) => Err((self, fault)),
        }
    }
}
