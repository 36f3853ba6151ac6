// Gaussian integers in 64-bit words.
ghost use Rattle.std.specs.Prelude.{◌≡◌, ◌≢◌, ◌≤◌, pos, ◌*ℤ◌, ◌<ℤ◌, unsigned_abs, MatchOption};
ghost use Rattle.algebra.specs.Ring.{sub};
ghost use Rattle.gaussian_integers.specs.Gaussian.{gaussian, conjugate, norm, nearest, rounded, quotient, remainder, unit, Within};
ghost use Rattle.gaussian_integers.specs.Meaning.{Fits};
ghost use Rattle.gaussian_integers.specs.Parts.{value};

use crate::LIMIT;

// The real and the imaginary part of a Gaussian integer.
#[derive(Clone, Copy, PartialEq, Eq, Debug)]
pub struct Parts {
    pub re: i64,
    pub im: i64,
}

// Parts that fit an element.
#[derive(Clone, Copy)]
pub(crate) struct FittingParts {
    pub(crate) parts: Parts,
    ghost fits: { Fits (value parts) },
}

// The product of two parts that fit. Four bare `*` in one expression do not prove in `times`.
#[tactic(auto, using(algebra::proofs::Magnitudes::abs_mul_le))]
fn product(x: i64, y: i64) -> i64
    requires left { unsigned_abs x ≤ 268435455 }
    requires right { unsigned_abs y ≤ 268435455 }
    ensures value { result ≡ x *ℤ y }
    ensures bound { unsigned_abs result ≤ 72057593501057025 }
{
    x * y
}

// x / n to the nearest whole number, halves upward.
fn nearest(x: i64, n: i64) -> i64
    requires small { unsigned_abs x ≤ 144115187002114050 }
    requires few { unsigned_abs n ≤ 144115187002114050 }
    requires positive { pos 0 <ℤ n }
    ensures { result ≡ nearest x n }
{
    (x + x + n).div_euclid(n + n)
}

impl Parts {
    // The same parts, if they fit an element.
    pub(crate) fn fitting(self) -> Option<FittingParts>
        ensures { MatchOption result (¬ (Fits (value self))) (λ z. z.parts ≡ self) }
    {
        let limit = LIMIT as i64;
        let fits = -limit..=limit;
        if fits.contains(&self.re) && fits.contains(&self.im) {
            Some(FittingParts { parts: self })
        } else {
            None
        }
    }

    // The sum of two with parts below 2^62.
    pub(crate) fn plus(self, b: Parts) -> Parts
        requires left { Within 4611686018427387903 (value self) }
        requires right { Within 4611686018427387903 (value b) }
        ensures { value result ≡ gaussian.add (value self) (value b) }
    {
        Parts {
            re: self.re + b.re,
            im: self.im + b.im,
        }
    }

    // The difference of two with parts below 2^62.
    pub(crate) fn minus(self, b: Parts) -> Parts
        requires left { Within 4611686018427387903 (value self) }
        requires right { Within 4611686018427387903 (value b) }
        ensures { value result ≡ sub gaussian (value self) (value b) }
    {
        Parts {
            re: self.re - b.re,
            im: self.im - b.im,
        }
    }

    // Each part over n, to the nearest whole number.
    fn rounded(self, n: i64) -> Parts
        requires small { Within 144115187002114050 (value self) }
        requires few { unsigned_abs n ≤ 144115187002114050 }
        requires positive { pos 0 <ℤ n }
        ensures { value result ≡ rounded (value self) n }
    {
        Parts {
            re: nearest(self.re, n),
            im: nearest(self.im, n),
        }
    }
}

impl FittingParts {
    // The sum of the squared parts.
    pub(crate) fn norm(self) -> i64
        ensures value { result ≡ norm (value self.parts) }
        ensures bound { unsigned_abs result ≤ 144115187002114050 }
    {
        let Parts { re, im } = self.parts;
        product(re, re) + product(im, im)
    }

    // The same real part, and the opposite imaginary part.
    pub(crate) fn conjugate(self) -> FittingParts
        ensures { value result.parts ≡ conjugate (value self.parts) }
    {
        let Parts { re, im } = self.parts;
        FittingParts {
            parts: Parts { re, im: -im },
        }
    }

    // The product.
    pub(crate) fn times(self, b: FittingParts) -> Parts
        ensures value { value result ≡ gaussian.mul (value self.parts) (value b.parts) }
        ensures bound { Within 144115187002114050 (value result) }
    {
        let a = self.parts;
        let b = b.parts;
        Parts {
            re: product(a.re, b.re) - product(a.im, b.im),
            im: product(a.re, b.im) + product(a.im, b.re),
        }
    }

    // The exact quotient by b, rounded.
    pub(crate) fn quotient(self, b: FittingParts) -> FittingParts
        requires nonzero { value b.parts ≢ gaussian.zero }
        ensures { value result.parts ≡ quotient (value self.parts) (value b.parts) }
    {
        let parts = self.times(b.conjugate()).rounded(b.norm());
        FittingParts { parts }
    }

    // What q, the quotient by b, leaves.
    pub(crate) fn remainder(self, b: FittingParts, q: FittingParts) -> FittingParts
        requires nonzero { value b.parts ≢ gaussian.zero }
        requires quotient { value q.parts ≡ quotient (value self.parts) (value b.parts) }
        ensures { value result.parts ≡ remainder (value self.parts) (value b.parts) }
    {
        let parts = self.parts.minus(q.times(b));
        FittingParts { parts }
    }

    // The unit that makes it normal.
    pub(crate) fn unit(self) -> FittingParts
        ensures { value result.parts ≡ unit (value self.parts) }
    {
        let Parts { re, im } = self.parts;
        let (re, im) = if re <= 0 && im > 0 {
            (0, -1)
        } else if re < 0 && im <= 0 {
            (-1, 0)
        } else if re >= 0 && im < 0 {
            (0, 1)
        } else {
            (1, 0)
        };
        FittingParts {
            parts: Parts { re, im },
        }
    }
}
