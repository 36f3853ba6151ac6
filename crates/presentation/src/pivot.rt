// Dividing by the pivot.
ghost use Rattle.std.specs.Prelude.{◌≢◌};

use kinds::Euclid;

// An element to divide by: it is not zero.
#[derive(Drop)]
pub(crate) struct Pivot<E: Euclid> {
    pub(crate) element: E,
    ghost nonzero: { E.Ring.model.mean element ≢ E.Ring.model.ring.zero },
}

impl<E: Euclid> Pivot<E> {
    ghost use Rattle.std.specs.Prelude.{◌≡◌, ◌↔◌, IsTrue};
    ghost use Rattle.presentation.specs.Rests.{DividedBy};

    // The quotient and the remainder of an element.
    fn divide(&self, a: &E) -> (E, E)
        ensures quotient { E.Ring.model.mean result.0 ≡ E.Ring.model.quotient (E.Ring.model.mean a.now) (E.Ring.model.mean self.now.element) }
        ensures remainder { E.Ring.model.mean result.1 ≡ E.Ring.model.remainder (E.Ring.model.mean a.now) (E.Ring.model.mean self.now.element) }
    {
        let mut quotient = *a;
        let mut remainder = *a;
        match a.divide(&self.element, &mut quotient, &mut remainder) {
            Ok(()) => (quotient, remainder),
            Err(_) => unreachable!(),
        }
    }

    // Whether the pivot divides an element.
    pub(crate) fn divides(&self, a: &E) -> bool
        ensures { IsTrue result ↔ (DividedBy E.Ring.model (E.Ring.model.mean self.now.element) (E.Ring.model.mean a.now)) }
    {
        let (_, remainder) = self.divide(a);
        remainder.is_zero()
    }

    // The quotient of an element.
    pub(crate) fn quotient(&self, a: &E) -> E
        ensures { E.Ring.model.mean result ≡ E.Ring.model.quotient (E.Ring.model.mean a.now) (E.Ring.model.mean self.now.element) }
    {
        let (quotient, _) = self.divide(a);
        quotient
    }
}
