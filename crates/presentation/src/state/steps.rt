// One step of the reduction, and runs of steps.
ghost use Rattle.std.specs.Prelude.{◌≡◌, true, false};
ghost use Rattle.presentation.specs.Lent.{Same, lent_step};
ghost use Rattle.presentation.specs.Calls.{LongStep, after, Performs, Stepping, Running};
ghost use Rattle.presentation.specs.Rests.{Placed};

use crate::fault::{CallFault, TableFault};
use crate::grid::Grid;
use crate::prescribe::Line;
use crate::state::{Finished, Open, Presentation, Run, Step};
use crate::table::{Axis, TABLE, Transform};
use kinds::Euclid;

// Whether one of the tables is under 1,024 elements.
fn is_short<E>(work: &[E], left: &Transform<'_, E>, right: &Transform<'_, E>) -> bool
    ensures long { result ≡ false → LongStep (lent_step work.now left.now right.now) }
    ensures short { result ≡ true → ¬ LongStep (lent_step work.now left.now right.now) }
{
    work.len() < TABLE || left.is_short() || right.is_short()
}

// W, P and Q stay apart below: a struct of them would have to say of every field that it still holds its loan.
impl Open {
    // The same presentation, now that the rest is zero.
    fn finished(self) -> Finished
        ensures { result ≡ self }
    {
        Presentation::new(self.m, self.n, self.c)
    }

    // The presentation after a line: line 8 alone raises the corner.
    fn after<E>(self, line: &Line<E>) -> Open
        requires { Placed self line.now }
        ensures { result ≡ after line.now self }
    {
        match line {
            Line::Advance => Presentation::new(self.m, self.n, self.c + 1),
            _ => self,
        }
    }

    // Performs a line on the tables, whole or not at all. Which one, is data, as `Change`.
    fn perform<E: Euclid>(
        &self,
        line: &Line<E>,
        work: &mut [E],
        left: &mut Transform<'_, E>,
        right: &mut Transform<'_, E>,
    ) -> Result<(), TableFault>
        requires placed { Placed self.now line.now }
        requires long { LongStep (lent_step work.old left.old right.old) }
        ensures left { Same left.old left.new }
        ensures right { Same right.old right.new }
        ensures outcome { Performs E.Ring.model line.now self.now (lent_step work.old left.old right.old) (lent_step work.new left.new right.new) result }
    {
        match line.operation(self.c) {
            Some((axis @ Axis::Row, operation)) => operation.perform(
                axis, self.n, self.m, work, left,
            ),
            Some((axis @ Axis::Column, operation)) => operation.perform(
                axis, self.m, self.n, work, right,
            ),
            None => Ok(()),
        }
    }

    // Takes the step that the rules prescribe.
    pub fn step<E: Euclid>(
        self,
        work: &mut [E],
        left: &mut Transform<'_, E>,
        right: &mut Transform<'_, E>,
    ) -> Result<Step, (Open, CallFault)>
        ensures left { Same left.old left.new }
        ensures right { Same right.old right.new }
        ensures outcome { Stepping E.Ring.model self (lent_step work.old left.old right.old) (lent_step work.new left.new right.new) result }
    {
        if is_short(work, left, right) {
            return Err((self, CallFault::Short));
        }
        let Some(line) = self.prescribe(&Grid { cells: work }) else {
            return Ok(Step::Done(self.finished()));
        };
        // no `?`, which would lose the state
        match self.perform(&line, work, left, right) {
            Ok(()) => Ok(Step::Stepped(self.after(&line))),
            Err(fault) => Err((self, CallFault::from(fault))),
        }
    }

    // Takes steps until none is prescribed, one is refused, or the budget is spent.
    pub fn run<E: Euclid>(
        self,
        budget: u32,
        work: &mut [E],
        left: &mut Transform<'_, E>,
        right: &mut Transform<'_, E>,
    ) -> Result<Run, (Open, u32, CallFault)>
        ensures left { Same left.old left.new }
        ensures right { Same right.old right.new }
        ensures outcome { Running E.Ring.model budget self (lent_step work.old left.old right.old) (lent_step work.new left.new right.new) result }
    {
        if is_short(work, left, right) {
            return Err((self, 0, CallFault::Short));
        }
        // the loop keeps the bounds of the numbers
        self.bounds();
        let mut state = self;
        for count in 0..budget {
            let Some(line) = state.prescribe(&Grid { cells: work }) else {
                return Ok(Run::Done(state.finished(), count));
            };
            // no `?` here either
            match state.perform(&line, work, left, right) {
                Ok(()) => state = state.after(&line),
                Err(fault) => return Err((state, count, CallFault::from(fault))),
            }
        }
        match state.prescribe(&Grid { cells: work }) {
            None => Ok(Run::Done(state.finished(), budget)),
            Some(_) => Ok(Run::Spent(state, budget)),
        }
    }
}
