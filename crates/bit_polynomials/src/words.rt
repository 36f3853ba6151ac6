// Arithmetic of polynomials over the field of two that are held in words.
ghost use Rattle.std.specs.Prelude.{◌≡◌, ◌≤◌, true, ◌≢◌};
ghost use Rattle.polynomials.specs.Polynomial.{Polynomial, size, null, constant, plus, minus, times, quotient, remainder, unit, inverse};
ghost use Rattle.bit_polynomials.specs.Two.{two};
ghost use Rattle.bit_polynomials.specs.Binary.{binary};

// The zero polynomial.
#[tactic(auto, using(crate::specs::BinaryLemmas::binary_zero))]
pub(crate) fn zero() -> u32
    ensures { binary result ≡ null two }
{
    0
}

// The polynomial one: the unit that brings each polynomial to its normal form, and the inverse of that unit.
#[tactic(auto, using(crate::specs::BinaryLemmas::binary_one, crate::specs::MeaningLemmas::unit_one))]
pub(crate) fn one() -> u32
    ensures value { binary result ≡ constant two true }
    ensures unit { (p : Polynomial two) → binary result ≡ unit two p }
    ensures inverse { (p : Polynomial two) → binary result ≡ inverse two p }
{
    1
}

// The sum, which is the difference too: a polynomial is its own opposite.
#[tactic(auto, using(crate::specs::BinaryLemmas::binary_xor, crate::specs::BinaryLemmas::minus_itself))]
pub(crate) fn add(a: u64, b: u64) -> u64
    ensures sum { binary result ≡ plus two (binary a) (binary b) }
    ensures difference { binary result ≡ plus two (binary a) (minus two (binary b)) }
{
    a ^ b
}

// The size of a polynomial: 0 for zero, else its degree + 1.
#[tactic(auto, using(crate::proofs::Turns::length_is))]
pub(crate) fn length(a: u32) -> u32
    ensures value { result ≡ size two (binary a) }
    ensures bound { result ≤ 32 }
{
    32 - a.leading_zeros()
}

// The product: for each power of a, from the highest down, b is added, moved up by it.
#[tactic(auto, using(crate::proofs::Turns::product_turns))]
pub(crate) fn multiply(a: u32, b: u32) -> u64
    ensures { binary result ≡ times two (binary a) (binary b) }
{
    let mut total: u64 = 0;
    let mut left = a;
    while length(left) > 0 {
        let power = length(left) - 1;
        total ^= (b as u64) << power;
        left ^= 1 << power;
    }
    total
}

// Quotient and remainder: b, moved up to the highest power of what is left of a, is taken away from it.
#[tactic(auto, using(crate::proofs::Turns::division_turns))]
pub(crate) fn long_division(a: u32, b: u32) -> (u32, u32)
    requires divisor { binary b ≢ null two }
    ensures quotient { binary result.0 ≡ quotient two (binary a) (binary b) }
    ensures remainder { binary result.1 ≡ remainder two (binary a) (binary b) }
{
    let size = length(b);
    let mut quotient: u32 = 0;
    let mut left = a;
    while length(left) >= size {
        let power = length(left) - size;
        quotient ^= 1 << power;
        left ^= b << power;
    }
    (quotient, left)
}
