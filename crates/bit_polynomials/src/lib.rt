// Polynomials over the field of two of degree at most 31.
#![tactic(auto)]

ghost use Rattle.std.specs.Prelude.{◌≡◌, IfOk};
ghost use Rattle.kinds.specs.Outcomes.{Becomes, Makes};
ghost use Rattle.bit_polynomials.specs.Binary.{binary};
ghost use Rattle.bit_polynomials.specs.Meaning.{bit_polynomials, meaning};
ghost use Rattle.polynomials.proofs.Laws.{polynomial_laws};
ghost use Rattle.bit_polynomials.specs.Two.{two};
ghost use Rattle.polynomials.proofs.Sizes.{polynomial_domain};
ghost use Rattle.bit_polynomials.specs.Laws.{range_laws, size_laws, division_laws, normal_laws};

use kinds::{ElementFault, Euclid, Ring, Sums};
use words::{add, length, long_division, multiply, one, zero};

mod sum;
mod words;

pub use sum::BitPolynomialSum;

// The largest word of a polynomial that fits: all powers up to the 31st.
pub const LARGEST: u64 = 0xffff_ffff;

// A polynomial: bit k is the coefficient of the k-th power. Every stored value is in range.
#[derive(Clone, Copy, Debug)]
pub struct BitPolynomial {
    pub bits: u32,
}

impl BitPolynomial {
    // The bits of the polynomial that the element means. Its name is that of the other kinds' reading.
    pub fn get(&self) -> u32
        ensures { binary result ≡ meaning self.now }
    {
        self.bits
    }

    // The element means the polynomial of these bits, or Range is refused. Two lines over the kind's own word: a
    // shared one would be no shorter.
    pub fn set(&mut self, bits: u64) -> Result<(), ElementFault>
        ensures { Becomes bit_polynomials (binary bits) self.old self.new result }
    {
        *self = BitPolynomial::try_from(bits)?;
        Ok(())
    }
}

// The element that means the polynomial of these bits.
impl From<u32> for BitPolynomial {
    ghost from_gives = { λ bits x. (x.bits ≡ bits) × (meaning x ≡ binary bits) };

    fn from(bits: u32) -> BitPolynomial {
        BitPolynomial { bits }
    }
}

// The element that means the polynomial of these bits, or Range is refused.
impl TryFrom<u64> for BitPolynomial {
    type Error = ElementFault;

    ghost try_from_gives = { λ bits r. Makes bit_polynomials (binary bits) r × IfOk r (λ x. x.bits ≡ bits) };

    #[tactic(auto, using(crate::specs::MeaningLemmas::word_fits))]
    fn try_from(bits: u64) -> Result<BitPolynomial, ElementFault> {
        if bits > LARGEST {
            return Err(ElementFault::Range);
        }
        Ok(BitPolynomial::from(bits as u32))
    }
}

impl Ring for BitPolynomial {
    type Sum = BitPolynomialSum;

    ghost model = { bit_polynomials };

    ghost ring = { polynomial_laws two };

    ghost domain = { polynomial_domain two };

    ghost range = { range_laws };

    ghost size = { size_laws };

    ghost division = { division_laws };

    ghost normal = { normal_laws };

    fn set_zero(&mut self) {
        *self = BitPolynomial::from(zero());
    }

    fn set_one(&mut self) {
        *self = BitPolynomial::from(one());
    }

    fn add_mul(&mut self, q: &BitPolynomial, y: &BitPolynomial) -> Result<(), ElementFault> {
        let sum = add(self.get() as u64, multiply(q.get(), y.get()));
        self.set(sum)
    }

    // A polynomial is its own opposite, so the difference is the sum.
    #[tactic(auto, using(crate::specs::BinaryLemmas::minus_itself))]
    fn sub_mul(&mut self, q: &BitPolynomial, y: &BitPolynomial) -> Result<(), ElementFault> {
        self.add_mul(q, y)
    }

    #[tactic(auto, using(crate::specs::BinaryLemmas::binary_once))]
    fn equals(&self, other: &BitPolynomial) -> bool {
        self.get() == other.get()
    }
}

impl Sums<BitPolynomial> for BitPolynomialSum {
    fn new() -> BitPolynomialSum {
        BitPolynomialSum {
            total: zero() as u64,
            count: 0,
        }
    }

    fn take(&mut self, a: &BitPolynomial, b: &BitPolynomial) -> Result<(), ElementFault> {
        if self.count >= 32 {
            return Err(ElementFault::SumFull);
        }
        self.total = add(self.total, multiply(a.get(), b.get()));
        self.count += 1;
        Ok(())
    }

    #[tactic(auto, using(crate::specs::BinaryLemmas::binary_once))]
    fn equals(&self, other: &BitPolynomialSum) -> bool {
        self.total == other.total
    }

    fn store(&self, out: &mut BitPolynomial) -> Result<(), ElementFault> {
        out.set(self.total)
    }
}

impl Euclid for BitPolynomial {
    fn size(&self) -> u64 {
        length(self.get()) as u64
    }

    fn divide(
        &self,
        b: &BitPolynomial,
        quotient: &mut BitPolynomial,
        remainder: &mut BitPolynomial,
    ) -> Result<(), ElementFault> {
        if b.is_zero() {
            return Err(ElementFault::ZeroDivisor);
        }
        let (q, r) = long_division(self.get(), b.get());
        *quotient = BitPolynomial::from(q);
        *remainder = BitPolynomial::from(r);
        Ok(())
    }

    // Every polynomial is normal: one is the only unit.
    fn normalise(&self, unit: &mut BitPolynomial, inverse: &mut BitPolynomial) {
        *unit = BitPolynomial::from(one());
        *inverse = BitPolynomial::from(one());
    }
}
