// The integers of magnitude at most 536,870,911.
#![tactic(auto)]

ghost use Rattle.std.specs.Prelude.{◌≡◌, ◌≤◌, ℤ, ◌*ℤ◌, unsigned_abs, IfOk};
ghost use Rattle.kinds.specs.Outcomes.{Becomes, Makes};
ghost use Rattle.integers.specs.Meaning.{integers, meaning};
ghost use Rattle.algebra.proofs.Whole.{whole_laws, whole_domain};
ghost use Rattle.integers.specs.Laws.{range_laws, size_laws, division_laws, normal_laws};

use kinds::{ElementFault, Euclid, Ring, Sums};

mod sum;

pub use sum::IntegerSum;

// The largest magnitude that fits.
pub const LIMIT: i32 = 536_870_911;

// An integer. A stored value out of range means zero.
#[derive(Clone, Copy, Debug)]
pub struct Integer {
    pub value: i32,
}

impl Integer {
    // The integer that the element means. A reading and no conversion: a value out of range reads as zero.
    pub fn get(&self) -> i64
        ensures value { result ≡ meaning self.now }
        ensures bound { unsigned_abs result ≤ 536870911 }
    {
        if (-LIMIT..=LIMIT).contains(&self.value) {
            self.value as i64
        } else {
            0
        }
    }

    // The element means z, or Range is refused. Two lines over the kind's own word: a shared one would be no shorter.
    pub fn set(&mut self, z: i64) -> Result<(), ElementFault>
        ensures { Becomes integers z self.old self.new result }
    {
        *self = Integer::try_from(z)?;
        Ok(())
    }
}

// The element whose stored value is z and which means z, or Range is refused.
impl TryFrom<i64> for Integer {
    type Error = ElementFault;

    ghost try_from_gives = { λ z r. Makes integers z r × IfOk r (λ x. x.value ≡ z) };

    fn try_from(z: i64) -> Result<Integer, ElementFault> {
        let limit = LIMIT as i64;
        if (-limit..=limit).contains(&z) {
            Ok(Integer { value: z as i32 })
        } else {
            Err(ElementFault::Range)
        }
    }
}

// The product of what two elements mean: below 2^58 in magnitude.
#[tactic(auto, using(algebra::proofs::Magnitudes::abs_mul_le))]
fn multiply(a: &Integer, b: &Integer) -> i64
    ensures value { result ≡ meaning a.now *ℤ meaning b.now }
    ensures bound { unsigned_abs result ≤ 288230375077969921 }
{
    a.get() * b.get()
}

impl Ring for Integer {
    type Sum = IntegerSum;

    ghost model = { integers };

    ghost ring = { whole_laws };

    ghost domain = { whole_domain };

    ghost range = { range_laws };

    ghost size = { size_laws };

    ghost division = { division_laws };

    ghost normal = { normal_laws };

    fn set_zero(&mut self) {
        self.value = 0;
    }

    fn set_one(&mut self) {
        self.value = 1;
    }

    fn add_mul(&mut self, q: &Integer, y: &Integer) -> Result<(), ElementFault> {
        let z = self.get() + multiply(q, y);
        self.set(z)
    }

    fn sub_mul(&mut self, q: &Integer, y: &Integer) -> Result<(), ElementFault> {
        let z = self.get() - multiply(q, y);
        self.set(z)
    }

    fn equals(&self, other: &Integer) -> bool {
        self.get() == other.get()
    }
}

impl Sums<Integer> for IntegerSum {
    fn new() -> IntegerSum {
        IntegerSum { total: 0, count: 0 }
    }

    fn take(&mut self, a: &Integer, b: &Integer) -> Result<(), ElementFault> {
        if self.count >= 32 {
            return Err(ElementFault::SumFull);
        }
        let total = self.total + multiply(a, b);
        *self = IntegerSum {
            total,
            count: self.count + 1,
        };
        Ok(())
    }

    fn equals(&self, other: &IntegerSum) -> bool {
        self.total == other.total
    }

    fn store(&self, out: &mut Integer) -> Result<(), ElementFault> {
        out.set(self.total)
    }
}

impl Euclid for Integer {
    fn size(&self) -> u64 {
        self.get().unsigned_abs()
    }

    // The remainder is never negative.
    fn divide(
        &self,
        b: &Integer,
        quotient: &mut Integer,
        remainder: &mut Integer,
    ) -> Result<(), ElementFault> {
        let x = self.get();
        let y = b.get();
        if y == 0 {
            return Err(ElementFault::ZeroDivisor);
        }
        quotient.value = x.div_euclid(y) as i32;
        remainder.value = x.rem_euclid(y) as i32;
        Ok(())
    }

    fn normalise(&self, unit: &mut Integer, inverse: &mut Integer) {
        let sign = if self.get() < 0 { -1 } else { 1 };
        unit.value = sign;
        inverse.value = sign;
    }
}
