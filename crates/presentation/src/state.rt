// A presentation: its numbers under their bounds, moved from call to call.
pub mod calls;
pub mod steps;

use std::marker::{Model, PhantomData};

// Says of a presentation that step and run go on with it.
pub struct Unreduced;

// Says of a presentation that the rest of the worktable from the corner on is zero.
pub struct Reduced;

// m relations of n generators, being reduced; c is the corner. S says whether they are reduced.
#[derive(Drop)]
pub struct Presentation<S> {
    pub(crate) m: usize,
    pub(crate) n: usize,
    pub(crate) c: usize,
    state: PhantomData<S>,
}

// A contract sees the numbers.
impl<S> Model for Presentation<S> {
    ghost use Rattle.presentation.specs.Shapes.{Shape, shape, Bounded};

    ghost Value = { Shape };

    ghost view = { λ p. shape p.m p.n p.c };

    ghost invariant = { λ p. Bounded (shape p.m p.n p.c) };
}

impl<S> Presentation<S> {
    ghost use Rattle.std.specs.Prelude.{◌≡◌};
    ghost use Rattle.presentation.specs.Shapes.{shape, Bounded};

    fn new(m: usize, n: usize, c: usize) -> Presentation<S>
        requires { Bounded (shape m n c) }
        ensures { result ≡ shape m n c }
    {
        Presentation {
            m,
            n,
            c,
            state: PhantomData,
        }
    }

    // Shows that the numbers keep their bounds, to whoever holds a presentation or is lent one.
    pub fn bounds(&self)
        ensures { Bounded self.now }
    {
        let _ = &self.m;
    }
}

// A presentation that takes steps.
pub type Open = Presentation<Unreduced>;

// The same, reduced.
pub type Finished = Presentation<Reduced>;

// What a step answers. No `Result`, as in a run: neither is a failure.
#[derive(Drop)]
pub enum Step {
    Stepped(Open),
    Done(Finished),
}

// What a run answers, with the count of the steps that it took.
#[derive(Drop)]
pub enum Run {
    Done(Finished, u32),
    Spent(Open, u32),
}
