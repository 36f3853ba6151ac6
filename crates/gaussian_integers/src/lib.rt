// The Gaussian integers with parts of magnitude at most 268,435,455.
#![tactic(auto)]

ghost use Rattle.std.specs.Prelude.{◌≡◌, IfOk};
ghost use Rattle.kinds.specs.Outcomes.{Becomes, Makes};
ghost use Rattle.gaussian_integers.specs.Gaussian.{gauss, gaussian, Within};
ghost use Rattle.gaussian_integers.specs.Meaning.{gaussians, meaning, Fits};
ghost use Rattle.gaussian_integers.specs.Parts.{value};
ghost use Rattle.gaussian_integers.specs.Members.{gaussian_laws};
ghost use Rattle.gaussian_integers.specs.Norms.{gaussian_domain};
ghost use Rattle.gaussian_integers.specs.Laws.{range_laws, size_laws, division_laws, normal_laws};

use kinds::{ElementFault, Euclid, Ring, Sums};
use parts::FittingParts;

mod parts;
mod sum;

pub use parts::Parts;
pub use sum::GaussianSum;

// The largest magnitude of a part.
pub const LIMIT: i32 = 268_435_455;

// A Gaussian integer. With a stored part out of range it means zero.
#[derive(Clone, Copy, Debug)]
pub struct GaussianInteger {
    pub re: i32,
    pub im: i32,
}

impl GaussianInteger {
    // The Gaussian integer that the element means: it fits.
    fn fitting(&self) -> FittingParts
        ensures { value result.parts ≡ meaning self.now }
    {
        let stored = Parts {
            re: self.re as i64,
            im: self.im as i64,
        };
        let zero = Parts { re: 0, im: 0 };
        stored.fitting().unwrap_or(FittingParts { parts: zero })
    }

    // The Gaussian integer that the element means. A reading and no conversion: parts out of range read as zero.
    pub fn get(&self) -> Parts
        ensures value { value result ≡ meaning self.now }
        ensures bound { Fits (value result) }
    {
        self.fitting().parts
    }

    // The element means z, or Range is refused. Two lines over the kind's own word: a shared one would be no shorter.
    pub fn set(&mut self, z: Parts) -> Result<(), ElementFault>
        ensures { Becomes gaussians (value z) self.old self.new result }
    {
        *self = GaussianInteger::try_from(z)?;
        Ok(())
    }
}

// The element whose stored parts are these and which means them.
impl From<FittingParts> for GaussianInteger {
    ghost from_gives = { λ z x. (meaning x ≡ value z.parts) × (gauss x.re x.im ≡ value z.parts) };

    fn from(z: FittingParts) -> GaussianInteger {
        GaussianInteger {
            re: z.parts.re as i32,
            im: z.parts.im as i32,
        }
    }
}

// The element whose stored parts are these and which means them, or Range is refused.
impl TryFrom<Parts> for GaussianInteger {
    type Error = ElementFault;

    ghost try_from_gives = { λ z r. Makes gaussians (value z) r × IfOk r (λ x. gauss x.re x.im ≡ value z) };

    fn try_from(parts: Parts) -> Result<GaussianInteger, ElementFault> {
        let fitting = parts.fitting().ok_or(ElementFault::Range)?;
        Ok(GaussianInteger::from(fitting))
    }
}

// The product of what two elements mean: each part below 2^57 in magnitude.
fn multiply(a: &GaussianInteger, b: &GaussianInteger) -> Parts
    ensures value { value result ≡ gaussian.mul (meaning a.now) (meaning b.now) }
    ensures bound { Within 144115187002114050 (value result) }
{
    a.fitting().times(b.fitting())
}

impl Ring for GaussianInteger {
    type Sum = GaussianSum;

    ghost model = { gaussians };

    ghost ring = { gaussian_laws };

    ghost domain = { gaussian_domain };

    ghost range = { range_laws };

    ghost size = { size_laws };

    ghost division = { division_laws };

    ghost normal = { normal_laws };

    fn set_zero(&mut self) {
        self.re = 0;
        self.im = 0;
    }

    fn set_one(&mut self) {
        self.re = 1;
        self.im = 0;
    }

    fn add_mul(&mut self, q: &GaussianInteger, y: &GaussianInteger) -> Result<(), ElementFault> {
        let z = self.get().plus(multiply(q, y));
        self.set(z)
    }

    fn sub_mul(&mut self, q: &GaussianInteger, y: &GaussianInteger) -> Result<(), ElementFault> {
        let z = self.get().minus(multiply(q, y));
        self.set(z)
    }

    fn equals(&self, other: &GaussianInteger) -> bool {
        self.get() == other.get()
    }
}

impl Sums<GaussianInteger> for GaussianSum {
    fn new() -> GaussianSum {
        GaussianSum {
            total: Parts { re: 0, im: 0 },
            count: 0,
        }
    }

    fn take(&mut self, a: &GaussianInteger, b: &GaussianInteger) -> Result<(), ElementFault> {
        if self.count >= 32 {
            return Err(ElementFault::SumFull);
        }
        let total = self.total.plus(multiply(a, b));
        *self = GaussianSum {
            total,
            count: self.count + 1,
        };
        Ok(())
    }

    fn equals(&self, other: &GaussianSum) -> bool {
        self.total == other.total
    }

    fn store(&self, out: &mut GaussianInteger) -> Result<(), ElementFault> {
        out.set(self.total)
    }
}

impl Euclid for GaussianInteger {
    fn size(&self) -> u64 {
        self.fitting().norm().unsigned_abs()
    }

    // Each part of the quotient is rounded to the nearest whole number, halves upward.
    fn divide(
        &self,
        b: &GaussianInteger,
        quotient: &mut GaussianInteger,
        remainder: &mut GaussianInteger,
    ) -> Result<(), ElementFault> {
        let x = self.fitting();
        let y = b.fitting();
        if y.parts == (Parts { re: 0, im: 0 }) {
            return Err(ElementFault::ZeroDivisor);
        }
        let q = x.quotient(y);
        *quotient = GaussianInteger::from(q);
        *remainder = GaussianInteger::from(x.remainder(y, q));
        Ok(())
    }

    fn normalise(&self, unit: &mut GaussianInteger, inverse: &mut GaussianInteger) {
        let u = self.fitting().unit();
        *unit = GaussianInteger::from(u);
        *inverse = GaussianInteger::from(u.conjugate());
    }
}
