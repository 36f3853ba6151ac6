// The integers at their bounds, out of range, in division and in sums.
ghost use Rattle.std.specs.Prelude.{◌≡◌};

use integers::{Integer, IntegerSum, LIMIT};
use kinds::{ElementFault, Euclid, Ring, Sums};
use std::test::Fail;

const RANGE: Result<(), ElementFault> = Err(ElementFault::Range);

pub(crate) fn integer(value: i32) -> Integer
    ensures { result.value ≡ value }
{
    Integer { value }
}

#[test]
fn fault_numbers(rt: HostRuntime) {
    assert_eq!(rt; ElementFault::Range.number(), 1);
    assert_eq!(rt; ElementFault::ZeroDivisor.number(), 2);
    assert_eq!(rt; ElementFault::SumFull.number(), 3);
}

// A stored value out of range means zero.
#[test]
fn gets(rt: HostRuntime) {
    let cases = [
        (0, 0),
        (LIMIT, 536_870_911),
        (-LIMIT, -536_870_911),
        (536_870_912, 0),
        (-536_870_912, 0),
        (i32::MAX, 0),
        (i32::MIN, 0),
    ];
    for (stored, meant) in cases {
        assert_eq!(rt; integer(stored).get(), meant);
    }
}

#[test]
fn sets(rt: HostRuntime) {
    let cases = [
        (0, Ok(()), 0),
        (536_870_911, Ok(()), LIMIT),
        (-536_870_911, Ok(()), -LIMIT),
        (536_870_912, RANGE, 5),
        (-536_870_912, RANGE, 5),
        (4_294_967_296, RANGE, 5),
        (i64::MIN, RANGE, 5),
    ];
    for (z, answer, left) in cases {
        let mut x = integer(5);
        assert_eq!(rt; x.set(z), answer);
        assert_eq!(rt; x.value, left);
    }
}

// The stored value of the element made of z.
#[test]
fn converts(rt: HostRuntime) {
    let cases = [
        (0, Ok(0)),
        (-7, Ok(-7)),
        (536_870_911, Ok(LIMIT)),
        (-536_870_911, Ok(-LIMIT)),
        (536_870_912, Err(ElementFault::Range)),
        (-536_870_912, Err(ElementFault::Range)),
        (4_294_967_296, Err(ElementFault::Range)),
        (i64::MIN, Err(ElementFault::Range)),
    ];
    for (z, stored) in cases {
        assert_eq!(rt; Integer::try_from(z).map(|x| x.value), stored);
    }
}

#[test]
fn zero_one_and_copy(rt: HostRuntime) {
    let mut x = integer(7);
    x.set_zero();
    assert!(rt; x.is_zero());
    x.set_one();
    assert_eq!(rt; x.get(), 1);
    for (from, meant) in [(-9, -9), (LIMIT, 536_870_911), (-536_870_912, 0)] {
        x.copy_from(&integer(from));
        assert_eq!(rt; x.get(), meant);
    }
}

#[test]
fn compares(rt: HostRuntime) {
    let cases = [
        (3, 3, true),
        (3, -3, false),
        (LIMIT, 536_870_912, false),
        (536_870_912, 0, true),
        (536_870_912, i32::MIN, true),
    ];
    for (a, b, same) in cases {
        assert_eq!(rt; integer(a).equals(&integer(b)), same);
        assert_eq!(rt; integer(b).equals(&integer(a)), same);
    }
}

#[test]
fn tells_zero(rt: HostRuntime) {
    for (a, zero) in [
        (0, true),
        (1, false),
        (LIMIT, false),
        (536_870_912, true),
        (-536_870_912, true),
    ] {
        assert_eq!(rt; integer(a).is_zero(), zero);
    }
}

#[test]
fn adds_products(rt: HostRuntime) {
    let cases = [
        (10, 3, -4, Ok(()), -2),
        (LIMIT - 1, 1, 1, Ok(()), LIMIT),
        (LIMIT, 1, 1, RANGE, LIMIT),
        (1 - LIMIT, -1, 1, Ok(()), -LIMIT),
        (-LIMIT, -1, 1, RANGE, -LIMIT),
        (5, LIMIT, LIMIT, RANGE, 5),
        (536_870_912, 2, 3, Ok(()), 6),
        (536_870_912, LIMIT, 2, RANGE, 536_870_912),
        (5, 536_870_912, 3, Ok(()), 5),
        (5, 3, -536_870_912, Ok(()), 5),
    ];
    for (x, q, y, answer, left) in cases {
        let mut x = integer(x);
        assert_eq!(rt; x.add_mul(&integer(q), &integer(y)), answer);
        assert_eq!(rt; x.value, left);
    }
}

#[test]
fn takes_products_away(rt: HostRuntime) {
    let cases = [
        (10, 3, -4, Ok(()), 22),
        (1 - LIMIT, 1, 1, Ok(()), -LIMIT),
        (-LIMIT, 1, 1, RANGE, -LIMIT),
        (LIMIT - 1, -1, 1, Ok(()), LIMIT),
        (LIMIT, -1, 1, RANGE, LIMIT),
        (5, LIMIT, LIMIT, RANGE, 5),
        (536_870_912, 2, 3, Ok(()), -6),
        (536_870_912, LIMIT, 2, RANGE, 536_870_912),
        (5, 536_870_912, 3, Ok(()), 5),
    ];
    for (x, q, y, answer, left) in cases {
        let mut x = integer(x);
        assert_eq!(rt; x.sub_mul(&integer(q), &integer(y)), answer);
        assert_eq!(rt; x.value, left);
    }
}

#[test]
fn sizes(rt: HostRuntime) {
    for (a, size) in [
        (0, 0),
        (-7, 7),
        (LIMIT, 536_870_911),
        (-LIMIT, 536_870_911),
        (536_870_912, 0),
        (i32::MIN, 0),
    ] {
        assert_eq!(rt; integer(a).size(), size);
    }
}

#[test]
fn divides(rt: HostRuntime) -> Result<(), Fail> {
    let cases = [
        (7, 3, 2, 1),
        (-7, 3, -3, 2),
        (7, -3, -2, 1),
        (-7, -3, 3, 2),
        (6, -3, -2, 0),
        (7, 1, 7, 0),
        (LIMIT, -1, -LIMIT, 0),
        (3, 7, 0, 3),
        (-3, 7, -1, 4),
        (-3, -7, 1, 4),
        (0, -5, 0, 0),
        (-1, LIMIT, -1, LIMIT - 1),
        (536_870_912, 3, 0, 0),
    ];
    for (a, b, quotient, remainder) in cases {
        let mut q = integer(8);
        let mut r = integer(9);
        integer(a).divide(&integer(b), &mut q, &mut r)?;
        assert_eq!(rt; (q.value, r.value), (quotient, remainder));
    }
    Ok(())
}

#[test]
fn divides_by_zero(rt: HostRuntime) {
    for (a, b) in [(7, 0), (0, 0), (7, 536_870_912), (-7, i32::MIN)] {
        let mut q = integer(8);
        let mut r = integer(9);
        let answer = integer(a).divide(&integer(b), &mut q, &mut r);
        assert_eq!(rt; answer, Err(ElementFault::ZeroDivisor));
        assert_eq!(rt; (q.value, r.value), (8, 9));
    }
}

#[test]
fn normalises(rt: HostRuntime) -> Result<(), Fail> {
    let cases = [
        (5, 1, 5),
        (0, 1, 0),
        (-5, -1, 5),
        (-LIMIT, -1, 536_870_911),
        (-536_870_912, 1, 0),
    ];
    for (a, sign, normal) in cases {
        let mut unit = integer(8);
        let mut inverse = integer(9);
        integer(a).normalise(&mut unit, &mut inverse);
        assert_eq!(rt; (unit.value, inverse.value), (sign, sign));
        let mut x = integer(0);
        x.add_mul(&unit, &integer(a))?;
        assert_eq!(rt; x.get(), normal);
    }
    Ok(())
}

// The 33rd product is refused, and the sum is left. Loops like this one and those below test the sums of each kind, over
// its own numbers and readings: one for all would need a crate of its own, and be no shorter.
#[test]
fn sums_take_32(rt: HostRuntime) -> Result<(), Fail> {
    for (a, b, total) in [
        (LIMIT, LIMIT, 9_223_372_002_495_037_472),
        (LIMIT, -LIMIT, -9_223_372_002_495_037_472),
        (1, -1, -32),
    ] {
        let mut sum = IntegerSum::new();
        assert_eq!(rt; (sum.total, sum.count), (0, 0));
        for _ in 0..32 {
            sum.take(&integer(a), &integer(b))?;
        }
        assert_eq!(rt; (sum.total, sum.count), (total, 32));
        let answer = sum.take(&integer(a), &integer(b));
        assert_eq!(rt; answer, Err(ElementFault::SumFull));
        assert_eq!(rt; (sum.total, sum.count), (total, 32));
    }
    Ok(())
}

// A sum of two products is put into an element that held 5.
#[test]
fn stores_sums(rt: HostRuntime) -> Result<(), Fail> {
    let cases = [
        (3, 4, 5, -6, Ok(()), -18),
        (LIMIT, 1, 0, 0, Ok(()), LIMIT),
        (LIMIT, 1, 1, 1, RANGE, 5),
        (-LIMIT, 1, 1, -1, RANGE, 5),
        (LIMIT, LIMIT, LIMIT, LIMIT, RANGE, 5),
        (LIMIT, LIMIT, -LIMIT, LIMIT, Ok(()), 0),
        (536_870_912, 3, 2, 3, Ok(()), 6),
    ];
    for (a, b, c, d, answer, left) in cases {
        let mut sum = IntegerSum::new();
        sum.take(&integer(a), &integer(b))?;
        sum.take(&integer(c), &integer(d))?;
        let mut out = integer(5);
        assert_eq!(rt; sum.store(&mut out), answer);
        assert_eq!(rt; out.value, left);
    }
    Ok(())
}

// Sums are equal by what they mean, whatever they took.
#[test]
fn compares_sums(rt: HostRuntime) -> Result<(), Fail> {
    for (a, b, c, d, same) in [
        (2, 3, 3, 2, true),
        (2, 3, 6, 1, true),
        (2, 3, 2, -3, false),
        (LIMIT, LIMIT, -LIMIT, -LIMIT, true),
        (536_870_912, 3, 0, 3, true),
    ] {
        let mut left = IntegerSum::new();
        left.take(&integer(a), &integer(b))?;
        let mut right = IntegerSum::new();
        right.take(&integer(c), &integer(d))?;
        assert_eq!(rt; left.equals(&right), same);
        right.take(&integer(0), &integer(7))?;
        assert_eq!(rt; left.equals(&right), same);
    }
    Ok(())
}
