// The interface of a number system: a ring with sums of products, and division with a remainder.
#![tactic(auto)]

ghost use Rattle.std.specs.Prelude.{◌≡◌, IsTrue, ◌↔◌};
ghost use Rattle.algebra.specs.Ring.{RingLaws, Domain, sub};
ghost use Rattle.kinds.specs.Laws.{RangeLaws, SizeLaws, DivisionLaws, NormalLaws};
ghost use Rattle.kinds.specs.Model.{Model, product};
ghost use Rattle.kinds.specs.Outcomes.{fault_number, Becomes, Takes, Divided};

// Why a call on an element or a sum was refused.
#[derive(Clone, Copy, PartialEq, Eq, Debug)]
pub enum ElementFault {
    // the member does not fit
    Range,
    // division by zero
    ZeroDivisor,
    // the sum has taken 32 products
    SumFull,
}

impl ElementFault {
    // The refusal's number in the rules.
    pub fn number(self) -> u8
        ensures { result ≡ fault_number self }
    {
        match self {
            ElementFault::Range => 1,
            ElementFault::ZeroDivisor => 2,
            ElementFault::SumFull => 3,
        }
    }
}

// Elements of a kind. Each means a member of the kind's commutative ring that fits.
pub trait Ring: Copy {
    // Sums of products of elements.
    type Sum: Sums<Self>;

    ghost model: { Model Self Self.Sum };

    // The element becomes zero.
    fn set_zero(&mut self)
        ensures { model.mean self.new ≡ model.ring.zero };

    // The element becomes one.
    fn set_one(&mut self)
        ensures { model.mean self.new ≡ model.ring.one };

    // The element means what `from` means.
    fn copy_from(&mut self, from: &Self)
        ensures { model.mean self.new ≡ model.mean from.now }
    {
        *self = *from;
    }

    // Adds q times y.
    fn add_mul(&mut self, q: &Self, y: &Self) -> Result<(), ElementFault>
        ensures { Becomes model (model.ring.add (model.mean self.old) (product model q.now y.now)) self.old self.new result };

    // Takes q times y away.
    fn sub_mul(&mut self, q: &Self, y: &Self) -> Result<(), ElementFault>
        ensures { Becomes model (sub model.ring (model.mean self.old) (product model q.now y.now)) self.old self.new result };

    // Whether both mean the same member. No derived `==`: two stored values may mean one member.
    fn equals(&self, other: &Self) -> bool
        ensures { IsTrue result ↔ (model.mean self.now ≡ model.mean other.now) };

    // Whether the element means zero.
    fn is_zero(&self) -> bool
        ensures { IsTrue result ↔ (model.mean self.now ≡ model.ring.zero) }
    {
        let mut zero = *self;
        zero.set_zero();
        self.equals(&zero)
    }

    ghost ring: { RingLaws model.ring };

    ghost domain: { Domain model.ring };

    ghost range: { RangeLaws model };

    ghost size: { SizeLaws model };

    ghost division: { DivisionLaws model };

    ghost normal: { NormalLaws model };
}

// A sum of at most 32 products of elements, exact. Each kind has its own: the bound that keeps the next addition inside
// its word is the kind's, so a shared `take` would need a public method with a `requires`.
pub trait Sums<E: Ring<Sum = Self>>: Copy {
    // A sum of no products.
    fn new() -> Self
        ensures total { E.Ring.model.total result ≡ E.Ring.model.ring.zero }
        ensures count { E.Ring.model.count result ≡ 0 };

    // Takes one product more; the 33rd is refused.
    fn take(&mut self, a: &E, b: &E) -> Result<(), ElementFault>
        ensures { Takes E.Ring.model (product E.Ring.model a.now b.now) self.old self.new result };

    // Whether both mean the same member. No derived `==`: sums that took different counts may mean one member.
    fn equals(&self, other: &Self) -> bool
        ensures { IsTrue result ↔ (E.Ring.model.total self.now ≡ E.Ring.model.total other.now) };

    // Puts the sum into an element.
    fn store(&self, out: &mut E) -> Result<(), ElementFault>
        ensures { Becomes E.Ring.model (E.Ring.model.total self.now) out.old out.new result };
}

// A kind whose members divide with a remainder and have a normal form.
pub trait Euclid: Ring {
    // The Euclidean size: 0 exactly for zero.
    fn size(&self) -> u64
        ensures { result ≡ Self.model.size (Self.model.mean self.now) };

    // Sets quotient and remainder of the element by b.
    fn divide(
        &self,
        b: &Self,
        quotient: &mut Self,
        remainder: &mut Self,
    ) -> Result<(), ElementFault>
        ensures { Divided Self.model (Self.model.mean self.now) (Self.model.mean b.now) quotient.old remainder.old quotient.new remainder.new result };

    // Sets the unit that brings the element to its normal form, and the inverse of that unit.
    fn normalise(&self, unit: &mut Self, inverse: &mut Self)
        ensures unit { Self.model.mean unit.new ≡ Self.model.unit (Self.model.mean self.now) }
        ensures inverse { Self.model.mean inverse.new ≡ Self.model.inverse (Self.model.mean self.now) };
}
