// The bit polynomials at their bounds, in products, in division and in sums.
ghost use Rattle.std.specs.Prelude.{◌≡◌};

use bit_polynomials::{BitPolynomial, BitPolynomialSum};
use kinds::{ElementFault, Euclid, Ring, Sums};
use std::test::Fail;

const RANGE: Result<(), ElementFault> = Err(ElementFault::Range);

// All powers from 0 to 31.
const ALL: u32 = 0xffff_ffff;

// The 31st power alone.
const TOP: u32 = 0x8000_0000;

pub(crate) fn bits(bits: u32) -> BitPolynomial
    ensures { result.bits ≡ bits }
{
    BitPolynomial { bits }
}

// Every stored value is in range.
#[test]
fn gets_and_sets(rt: HostRuntime) {
    for stored in [0, 1, 6, TOP, ALL] {
        assert_eq!(rt; bits(stored).get(), stored);
    }
    let cases = [
        (0, Ok(()), 0),
        (0xffff_ffff, Ok(()), ALL),
        (0x8000_0000, Ok(()), TOP),
        (0x1_0000_0000, RANGE, 5),
        (0x1_0000_0001, RANGE, 5),
        (u64::MAX, RANGE, 5),
    ];
    for (word, answer, left) in cases {
        let mut x = bits(5);
        assert_eq!(rt; x.set(word), answer);
        assert_eq!(rt; x.bits, left);
    }
}

// The stored bits of the element made of a word.
#[test]
fn converts(rt: HostRuntime) {
    for stored in [0, 6, TOP, ALL] {
        assert_eq!(rt; BitPolynomial::from(stored).bits, stored);
    }
    let cases = [
        (0, Ok(0)),
        (6, Ok(6)),
        (0xffff_ffff, Ok(ALL)),
        (0x1_0000_0000, Err(ElementFault::Range)),
        (0x1_0000_0001, Err(ElementFault::Range)),
        (u64::MAX, Err(ElementFault::Range)),
    ];
    for (word, stored) in cases {
        assert_eq!(rt; BitPolynomial::try_from(word).map(|x| x.bits), stored);
    }
}

#[test]
fn zero_one_and_copy(rt: HostRuntime) {
    let mut x = bits(6);
    x.set_zero();
    assert!(rt; x.is_zero());
    x.set_one();
    assert_eq!(rt; x.bits, 1);
    for from in [0, 6, TOP, ALL] {
        x.copy_from(&bits(from));
        assert_eq!(rt; x.bits, from);
        assert_eq!(rt; x.is_zero(), from == 0);
    }
}

#[test]
fn compares(rt: HostRuntime) {
    for (a, b, same) in [
        (6, 6, true),
        (6, 5, false),
        (0, TOP, false),
        (ALL, ALL, true),
        (ALL, ALL - 1, false),
    ] {
        assert_eq!(rt; bits(a).equals(&bits(b)), same);
        assert_eq!(rt; bits(b).equals(&bits(a)), same);
    }
}

// Adding and taking away are one, and go out of range together.
#[test]
fn adds_and_takes_away_products(rt: HostRuntime) {
    let cases = [
        (0, 3, 3, Ok(()), 5),
        (6, 3, 5, Ok(()), 9),
        (7, 1, 7, Ok(()), 0),
        (9, 0, ALL, Ok(()), 9),
        (1, 0xffff, 0x1_0001, Ok(()), 0xffff_fffe),
        (0, 0x8000, 0x1_0000, Ok(()), TOP),
        (5, 0x1_0000, 0x1_0000, RANGE, 5),
        (5, 2, TOP, RANGE, 5),
        (ALL, ALL, ALL, RANGE, ALL),
    ];
    for (x, q, y, answer, left) in cases {
        let mut sum = bits(x);
        assert_eq!(rt; sum.add_mul(&bits(q), &bits(y)), answer);
        assert_eq!(rt; sum.bits, left);
        let mut difference = bits(x);
        assert_eq!(rt; difference.sub_mul(&bits(q), &bits(y)), answer);
        assert_eq!(rt; difference.bits, left);
    }
}

#[test]
fn sizes(rt: HostRuntime) {
    for (a, size) in [(0, 0), (1, 1), (2, 2), (3, 2), (6, 3), (TOP, 32), (ALL, 32)] {
        assert_eq!(rt; bits(a).size(), size);
    }
}

#[test]
fn divides(rt: HostRuntime) -> Result<(), Fail> {
    let cases = [
        (6, 5, 1, 3),
        (5, 6, 1, 3),
        (ALL, 1, ALL, 0),
        (ALL, 2, 0x7fff_ffff, 1),
        (ALL, 3, 0x5555_5555, 0),
        (ALL, ALL, 1, 0),
        (TOP, TOP, 1, 0),
        (1, TOP, 0, 1),
        (0, 9, 0, 0),
        (TOP, 7, 0x36db_6db6, 2),
        (0x8000_0001, 0x1_0001, 0x8000, 0x8001),
    ];
    for (a, b, quotient, remainder) in cases {
        let mut q = bits(8);
        let mut r = bits(9);
        bits(a).divide(&bits(b), &mut q, &mut r)?;
        assert_eq!(rt; (q.bits, r.bits), (quotient, remainder));
    }
    Ok(())
}

#[test]
fn divides_by_zero(rt: HostRuntime) {
    for a in [0, 7, ALL] {
        let mut q = bits(8);
        let mut r = bits(9);
        let answer = bits(a).divide(&bits(0), &mut q, &mut r);
        assert_eq!(rt; answer, Err(ElementFault::ZeroDivisor));
        assert_eq!(rt; (q.bits, r.bits), (8, 9));
    }
}

// Every polynomial is normal: its unit is one.
#[test]
fn normalises(rt: HostRuntime) {
    for a in [0, 1, 2, 6, TOP, ALL] {
        let mut unit = bits(8);
        let mut inverse = bits(9);
        bits(a).normalise(&mut unit, &mut inverse);
        assert_eq!(rt; (unit.bits, inverse.bits), (1, 1));
    }
}

// The largest sum has each power up to the 62nd. The 33rd product is refused, and the sum is left. Loops like this one and
// those below test the sums of each kind, over its own numbers and readings: one for all would need a crate of its own,
// and be no shorter.
#[test]
fn sums_take_32(rt: HostRuntime) -> Result<(), Fail> {
    for (a, b, c, d, total) in [
        (ALL, ALL, 0, 0, 0x5555_5555_5555_5555),
        (ALL, TOP, 0x7fff_ffff, 1, 0x7fff_ffff_ffff_ffff),
        (TOP, TOP, TOP, TOP, 0),
        (0xdead_beef, 0x1234_5678, 0, 7, 0xc42_fde8_de11_2da8),
    ] {
        let mut sum = BitPolynomialSum::new();
        assert_eq!(rt; (sum.total, sum.count), (0, 0));
        sum.take(&bits(a), &bits(b))?;
        for _ in 1..32 {
            sum.take(&bits(c), &bits(d))?;
        }
        assert_eq!(rt; (sum.total, sum.count), (total, 32));
        let answer = sum.take(&bits(a), &bits(b));
        assert_eq!(rt; answer, Err(ElementFault::SumFull));
        assert_eq!(rt; (sum.total, sum.count), (total, 32));
    }
    Ok(())
}

// A sum of two products is put into an element that held 5.
#[test]
fn stores_sums(rt: HostRuntime) -> Result<(), Fail> {
    let cases = [
        (3, 3, 2, 2, Ok(()), 1),
        (ALL, 1, 0, 0, Ok(()), ALL),
        (0xffff, 0x1_0001, 1, 1, Ok(()), 0xffff_fffe),
        (TOP, 2, 1, 1, RANGE, 5),
        (TOP, TOP, TOP, TOP, Ok(()), 0),
        (ALL, ALL, 1, 1, RANGE, 5),
    ];
    for (a, b, c, d, answer, left) in cases {
        let mut sum = BitPolynomialSum::new();
        sum.take(&bits(a), &bits(b))?;
        sum.take(&bits(c), &bits(d))?;
        let mut out = bits(5);
        assert_eq!(rt; sum.store(&mut out), answer);
        assert_eq!(rt; out.bits, left);
    }
    Ok(())
}

// Sums are equal by what they mean, whatever they took.
#[test]
fn compares_sums(rt: HostRuntime) -> Result<(), Fail> {
    for (a, b, c, d, same) in [
        (3, 5, 5, 3, true),
        (3, 5, 15, 1, true),
        (3, 5, 3, 3, false),
        (ALL, TOP, TOP, ALL, true),
    ] {
        let mut left = BitPolynomialSum::new();
        left.take(&bits(a), &bits(b))?;
        let mut right = BitPolynomialSum::new();
        right.take(&bits(c), &bits(d))?;
        assert_eq!(rt; left.equals(&right), same);
        right.take(&bits(0), &bits(7))?;
        assert_eq!(rt; left.equals(&right), same);
    }
    Ok(())
}
