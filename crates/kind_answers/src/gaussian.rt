// The Gaussian integers at their bounds, out of range, in division and in sums.
ghost use Rattle.std.specs.Prelude.{◌≡◌};

use gaussian_integers::{GaussianInteger, GaussianSum, LIMIT, Parts};
use kinds::{ElementFault, Euclid, Ring, Sums};
use std::test::Fail;

const RANGE: Result<(), ElementFault> = Err(ElementFault::Range);

pub(crate) fn gaussian(parts: (i32, i32)) -> GaussianInteger
    ensures re { result.re ≡ parts.0 }
    ensures im { result.im ≡ parts.1 }
{
    GaussianInteger {
        re: parts.0,
        im: parts.1,
    }
}

// With a stored part out of range the element means zero.
#[test]
fn gets(rt: HostRuntime) {
    let cases = [
        ((0, 0), (0, 0)),
        ((3, -4), (3, -4)),
        ((LIMIT, 7), (268_435_455, 7)),
        ((-LIMIT, 7), (-268_435_455, 7)),
        ((7, LIMIT), (7, 268_435_455)),
        ((7, -LIMIT), (7, -268_435_455)),
        ((268_435_456, 7), (0, 0)),
        ((-268_435_456, 7), (0, 0)),
        ((7, 268_435_456), (0, 0)),
        ((7, -268_435_456), (0, 0)),
        ((i32::MAX, i32::MIN), (0, 0)),
    ];
    for (stored, meant) in cases {
        let z = gaussian(stored).get();
        assert_eq!(rt; (z.re, z.im), meant);
    }
}

// Elements that held 5 + 6i.
#[test]
fn sets(rt: HostRuntime) {
    let cases = [
        ((0, 0), Ok(()), (0, 0)),
        ((268_435_455, -1), Ok(()), (LIMIT, -1)),
        ((-268_435_455, -1), Ok(()), (-LIMIT, -1)),
        ((-1, 268_435_455), Ok(()), (-1, LIMIT)),
        ((-1, -268_435_455), Ok(()), (-1, -LIMIT)),
        ((268_435_456, 0), RANGE, (5, 6)),
        ((-268_435_456, 0), RANGE, (5, 6)),
        ((0, 268_435_456), RANGE, (5, 6)),
        ((0, -268_435_456), RANGE, (5, 6)),
        ((4_294_967_296, 0), RANGE, (5, 6)),
        ((0, i64::MIN), RANGE, (5, 6)),
    ];
    for ((re, im), answer, left) in cases {
        let mut x = gaussian((5, 6));
        assert_eq!(rt; x.set(Parts { re, im }), answer);
        assert_eq!(rt; (x.re, x.im), left);
    }
}

// The stored parts of the element made of z.
#[test]
fn converts(rt: HostRuntime) {
    let cases = [
        ((0, 0), Ok((0, 0))),
        ((3, -4), Ok((3, -4))),
        ((268_435_455, -268_435_455), Ok((LIMIT, -LIMIT))),
        ((-268_435_455, 268_435_455), Ok((-LIMIT, LIMIT))),
        ((268_435_456, 0), Err(ElementFault::Range)),
        ((-268_435_456, 0), Err(ElementFault::Range)),
        ((0, 268_435_456), Err(ElementFault::Range)),
        ((0, -268_435_456), Err(ElementFault::Range)),
        ((4_294_967_296, 0), Err(ElementFault::Range)),
        ((0, i64::MIN), Err(ElementFault::Range)),
    ];
    for ((re, im), stored) in cases {
        assert_eq!(rt;
            GaussianInteger::try_from(Parts { re, im }).map(|x| (x.re, x.im)),
            stored
        );
    }
}

#[test]
fn zero_one_and_copy(rt: HostRuntime) {
    let mut x = gaussian((7, 8));
    x.set_zero();
    assert_eq!(rt; (x.re, x.im), (0, 0));
    x.set_one();
    assert_eq!(rt; (x.re, x.im), (1, 0));
    for (from, meant) in [
        ((-9, 4), (-9, 4)),
        ((LIMIT, -LIMIT), (268_435_455, -268_435_455)),
        ((3, -268_435_456), (0, 0)),
    ] {
        x.copy_from(&gaussian(from));
        let z = x.get();
        assert_eq!(rt; (z.re, z.im), meant);
    }
}

#[test]
fn compares(rt: HostRuntime) {
    let cases = [
        ((3, 4), (3, 4), true),
        ((3, 4), (4, 3), false),
        ((3, 4), (3, -4), false),
        ((3, 4), (-3, 4), false),
        ((LIMIT, 1), (268_435_456, 1), false),
        ((268_435_456, 1), (0, 0), true),
        ((1, 268_435_456), (0, 0), true),
        ((268_435_456, 1), (2, i32::MIN), true),
    ];
    for (a, b, same) in cases {
        assert_eq!(rt; gaussian(a).equals(&gaussian(b)), same);
        assert_eq!(rt; gaussian(b).equals(&gaussian(a)), same);
    }
}

#[test]
fn tells_zero(rt: HostRuntime) {
    for (a, zero) in [
        ((0, 0), true),
        ((1, 0), false),
        ((0, -1), false),
        ((LIMIT, -LIMIT), false),
        ((268_435_456, 1), true),
        ((1, -268_435_456), true),
    ] {
        assert_eq!(rt; gaussian(a).is_zero(), zero);
    }
}

#[test]
fn adds_products(rt: HostRuntime) {
    let cases = [
        ((1, 2), (3, -1), (2, 5), Ok(()), (12, 15)),
        ((LIMIT - 1, 2), (1, 0), (1, 0), Ok(()), (LIMIT, 2)),
        ((LIMIT, 2), (1, 0), (1, 0), RANGE, (LIMIT, 2)),
        ((1 - LIMIT, 2), (-1, 0), (1, 0), Ok(()), (-LIMIT, 2)),
        ((-LIMIT, 2), (0, 1), (0, 1), RANGE, (-LIMIT, 2)),
        ((2, LIMIT - 1), (0, 1), (1, 0), Ok(()), (2, LIMIT)),
        ((2, LIMIT), (0, 1), (1, 0), RANGE, (2, LIMIT)),
        ((2, 1 - LIMIT), (0, -1), (1, 0), Ok(()), (2, -LIMIT)),
        ((2, -LIMIT), (0, -1), (1, 0), RANGE, (2, -LIMIT)),
        ((5, 6), (LIMIT, LIMIT), (LIMIT, -LIMIT), RANGE, (5, 6)),
        ((5, 6), (LIMIT, LIMIT), (-LIMIT, LIMIT), RANGE, (5, 6)),
        ((5, 6), (LIMIT, LIMIT), (LIMIT, LIMIT), RANGE, (5, 6)),
        ((5, 6), (LIMIT, LIMIT), (-LIMIT, -LIMIT), RANGE, (5, 6)),
        ((268_435_456, 9), (2, 0), (3, 1), Ok(()), (6, 2)),
        (
            (9, 268_435_456),
            (LIMIT, 0),
            (2, 0),
            RANGE,
            (9, 268_435_456),
        ),
        ((5, 6), (268_435_456, 1), (3, 0), Ok(()), (5, 6)),
        ((5, 6), (3, 0), (1, -268_435_456), Ok(()), (5, 6)),
    ];
    for (x, q, y, answer, left) in cases {
        let mut x = gaussian(x);
        assert_eq!(rt; x.add_mul(&gaussian(q), &gaussian(y)), answer);
        assert_eq!(rt; (x.re, x.im), left);
    }
}

#[test]
fn takes_products_away(rt: HostRuntime) {
    let cases = [
        ((1, 2), (3, -1), (2, 5), Ok(()), (-10, -11)),
        ((1 - LIMIT, 2), (1, 0), (1, 0), Ok(()), (-LIMIT, 2)),
        ((-LIMIT, 2), (1, 0), (1, 0), RANGE, (-LIMIT, 2)),
        ((LIMIT - 1, 2), (-1, 0), (1, 0), Ok(()), (LIMIT, 2)),
        ((LIMIT, 2), (0, 1), (0, 1), RANGE, (LIMIT, 2)),
        ((2, 1 - LIMIT), (0, 1), (1, 0), Ok(()), (2, -LIMIT)),
        ((2, -LIMIT), (0, 1), (1, 0), RANGE, (2, -LIMIT)),
        ((2, LIMIT - 1), (0, -1), (1, 0), Ok(()), (2, LIMIT)),
        ((2, LIMIT), (0, -1), (1, 0), RANGE, (2, LIMIT)),
        ((5, 6), (LIMIT, LIMIT), (LIMIT, -LIMIT), RANGE, (5, 6)),
        ((5, 6), (LIMIT, LIMIT), (LIMIT, LIMIT), RANGE, (5, 6)),
        ((268_435_456, 9), (2, 0), (3, 1), Ok(()), (-6, -2)),
        (
            (9, 268_435_456),
            (LIMIT, 0),
            (2, 0),
            RANGE,
            (9, 268_435_456),
        ),
        ((5, 6), (268_435_456, 1), (3, 0), Ok(()), (5, 6)),
    ];
    for (x, q, y, answer, left) in cases {
        let mut x = gaussian(x);
        assert_eq!(rt; x.sub_mul(&gaussian(q), &gaussian(y)), answer);
        assert_eq!(rt; (x.re, x.im), left);
    }
}

#[test]
fn sizes(rt: HostRuntime) {
    for (a, size) in [
        ((0, 0), 0),
        ((3, -4), 25),
        ((0, -1), 1),
        ((LIMIT, 0), 72_057_593_501_057_025),
        ((LIMIT, LIMIT), 144_115_187_002_114_050),
        ((-LIMIT, LIMIT), 144_115_187_002_114_050),
        ((268_435_456, 5), 0),
        ((5, i32::MIN), 0),
    ] {
        assert_eq!(rt; gaussian(a).size(), size);
    }
}

// The stored parts of quotient and remainder.
fn divided(a: (i32, i32), b: (i32, i32)) -> Result<((i32, i32), (i32, i32)), ElementFault> {
    let mut q = gaussian((8, 9));
    let mut r = gaussian((6, 7));
    gaussian(a).divide(&gaussian(b), &mut q, &mut r)?;
    Ok(((q.re, q.im), (r.re, r.im)))
}

#[test]
fn divides(rt: HostRuntime) {
    let cases = [
        ((7, 0), (3, 0), (2, 0), (1, 0)),
        ((27, 23), (8, 1), (4, 2), (-3, 3)),
        ((11, 3), (1, 8), (1, -1), (2, -4)),
        ((-5, 7), (2, -3), (-2, 0), (-1, 1)),
        ((9, 9), (10, 0), (1, 1), (-1, -1)),
        ((3, 4), (10, 20), (0, 0), (3, 4)),
        ((0, 0), (3, -4), (0, 0), (0, 0)),
        ((268_435_456, 9), (3, 0), (0, 0), (0, 0)),
        ((9, -268_435_456), (3, 0), (0, 0), (0, 0)),
    ];
    for (a, b, quotient, remainder) in cases {
        assert_eq!(rt; divided(a, b), Ok((quotient, remainder)));
    }
}

// Exact halves in each part and with each sign go upward.
#[test]
fn rounds_halves_upward(rt: HostRuntime) {
    let cases = [
        ((1, 0), (2, 0), (1, 0), (-1, 0)),
        ((-1, 0), (2, 0), (0, 0), (-1, 0)),
        ((0, 1), (2, 0), (0, 1), (0, -1)),
        ((0, -1), (2, 0), (0, 0), (0, -1)),
        ((1, 1), (2, 0), (1, 1), (-1, -1)),
        ((-1, -1), (2, 0), (0, 0), (-1, -1)),
        ((3, -3), (2, 0), (2, -1), (-1, -1)),
        ((-3, 3), (2, 0), (-1, 2), (-1, -1)),
        ((1, 0), (0, 2), (0, 0), (1, 0)),
        ((-1, 0), (0, 2), (0, 1), (1, 0)),
        ((0, 1), (0, 2), (1, 0), (0, -1)),
        ((0, -1), (0, 2), (0, 0), (0, -1)),
        ((1, 0), (1, 1), (1, 0), (0, -1)),
        ((-1, 0), (1, 1), (0, 1), (0, -1)),
        ((0, 1), (1, 1), (1, 1), (0, -1)),
        ((0, -1), (1, 1), (0, 0), (0, -1)),
    ];
    for (a, b, quotient, remainder) in cases {
        assert_eq!(rt; divided(a, b), Ok((quotient, remainder)));
    }
}

// The largest and the smallest parts, by units, by halves and by one another.
#[test]
fn divides_at_the_bounds(rt: HostRuntime) {
    let cases = [
        ((LIMIT, LIMIT), (1, 0), (LIMIT, LIMIT), (0, 0)),
        ((LIMIT, LIMIT), (-1, 0), (-LIMIT, -LIMIT), (0, 0)),
        ((LIMIT, LIMIT), (0, 1), (LIMIT, -LIMIT), (0, 0)),
        ((LIMIT, LIMIT), (0, -1), (-LIMIT, LIMIT), (0, 0)),
        ((-LIMIT, LIMIT), (0, -1), (-LIMIT, -LIMIT), (0, 0)),
        ((LIMIT, -LIMIT), (1, 1), (0, -LIMIT), (0, 0)),
        ((-LIMIT, -LIMIT), (1, 1), (-LIMIT, 0), (0, 0)),
        ((LIMIT, LIMIT), (2, 0), (134_217_728, 134_217_728), (-1, -1)),
        (
            (-LIMIT, -LIMIT),
            (2, 0),
            (-134_217_727, -134_217_727),
            (-1, -1),
        ),
        ((LIMIT, LIMIT), (-LIMIT, LIMIT), (0, -1), (0, 0)),
        ((LIMIT, 0), (LIMIT, LIMIT), (1, 0), (0, -LIMIT)),
        ((0, LIMIT), (LIMIT, LIMIT), (1, 1), (0, -LIMIT)),
        ((-LIMIT, 0), (LIMIT, LIMIT), (0, 1), (0, -LIMIT)),
        ((0, -LIMIT), (LIMIT, LIMIT), (0, 0), (0, -LIMIT)),
        ((1, 0), (LIMIT, LIMIT), (0, 0), (1, 0)),
        ((LIMIT, LIMIT), (LIMIT, LIMIT - 1), (1, 0), (0, 1)),
    ];
    for (a, b, quotient, remainder) in cases {
        assert_eq!(rt; divided(a, b), Ok((quotient, remainder)));
    }
}

#[test]
fn divides_by_zero(rt: HostRuntime) {
    for (a, b) in [
        ((7, 5), (0, 0)),
        ((0, 0), (0, 0)),
        ((7, 5), (268_435_456, 1)),
        ((7, 5), (1, i32::MIN)),
    ] {
        let mut q = gaussian((8, 9));
        let mut r = gaussian((6, 268_435_456));
        let answer = gaussian(a).divide(&gaussian(b), &mut q, &mut r);
        assert_eq!(rt; answer, Err(ElementFault::ZeroDivisor));
        assert_eq!(rt; (q.re, q.im), (8, 9));
        assert_eq!(rt; (r.re, r.im), (6, 268_435_456));
    }
}

// The axes, the quadrants, zero and values out of range.
#[test]
fn normalises(rt: HostRuntime) -> Result<(), Fail> {
    let cases = [
        ((5, 0), (1, 0), (1, 0), (5, 0)),
        ((0, 5), (0, -1), (0, 1), (5, 0)),
        ((-5, 0), (-1, 0), (-1, 0), (5, 0)),
        ((0, -5), (0, 1), (0, -1), (5, 0)),
        ((3, 4), (1, 0), (1, 0), (3, 4)),
        ((-3, 4), (0, -1), (0, 1), (4, 3)),
        ((-3, -4), (-1, 0), (-1, 0), (3, 4)),
        ((3, -4), (0, 1), (0, -1), (4, 3)),
        ((-LIMIT, LIMIT), (0, -1), (0, 1), (LIMIT, LIMIT)),
        ((-LIMIT, -LIMIT), (-1, 0), (-1, 0), (LIMIT, LIMIT)),
        ((0, 0), (1, 0), (1, 0), (0, 0)),
        ((-268_435_456, -7), (1, 0), (1, 0), (0, 0)),
        ((-7, 268_435_456), (1, 0), (1, 0), (0, 0)),
    ];
    for (a, unit, inverse, normal) in cases {
        let mut u = gaussian((8, 9));
        let mut v = gaussian((6, 7));
        gaussian(a).normalise(&mut u, &mut v);
        assert_eq!(rt; (u.re, u.im), unit);
        assert_eq!(rt; (v.re, v.im), inverse);
        let mut x = gaussian((0, 0));
        x.add_mul(&u, &gaussian(a))?;
        assert_eq!(rt; (x.re, x.im), normal);
    }
    Ok(())
}

// The largest and the smallest sums in each part. The 33rd product is refused, and the sum is left.
#[test]
fn sums_take_32(rt: HostRuntime) -> Result<(), Fail> {
    for (a, b, total) in [
        (
            (LIMIT, LIMIT),
            (LIMIT, -LIMIT),
            (4_611_685_984_067_649_600, 0),
        ),
        (
            (LIMIT, LIMIT),
            (-LIMIT, LIMIT),
            (-4_611_685_984_067_649_600, 0),
        ),
        (
            (LIMIT, LIMIT),
            (LIMIT, LIMIT),
            (0, 4_611_685_984_067_649_600),
        ),
        (
            (LIMIT, LIMIT),
            (-LIMIT, -LIMIT),
            (0, -4_611_685_984_067_649_600),
        ),
        ((1, 2), (3, -1), (160, 160)),
    ] {
        let mut sum = GaussianSum::new();
        assert_eq!(rt; (sum.total.re, sum.total.im), (0, 0));
        assert_eq!(rt; sum.count, 0);
        for _ in 0..32 {
            sum.take(&gaussian(a), &gaussian(b))?;
        }
        let answer = sum.take(&gaussian(a), &gaussian(b));
        assert_eq!(rt; answer, Err(ElementFault::SumFull));
        assert_eq!(rt; (sum.total.re, sum.total.im), total);
        assert_eq!(rt; sum.count, 32);
    }
    Ok(())
}

// A sum of two products is put into an element that held 5 + 6i.
#[test]
fn stores_sums(rt: HostRuntime) -> Result<(), Fail> {
    let cases = [
        ((1, 2), (3, -1), (2, 0), (0, -4), Ok(()), (5, -3)),
        ((LIMIT, 0), (1, 0), (0, 0), (0, 0), Ok(()), (LIMIT, 0)),
        ((LIMIT, 0), (1, 0), (1, 0), (1, 0), RANGE, (5, 6)),
        ((-LIMIT, 0), (1, 0), (-1, 0), (1, 0), RANGE, (5, 6)),
        ((0, LIMIT), (1, 0), (0, 0), (0, 0), Ok(()), (0, LIMIT)),
        ((0, LIMIT), (1, 0), (0, 1), (1, 0), RANGE, (5, 6)),
        ((0, -LIMIT), (1, 0), (0, -1), (1, 0), RANGE, (5, 6)),
        (
            (LIMIT, LIMIT),
            (LIMIT, LIMIT),
            (LIMIT, LIMIT),
            (-LIMIT, -LIMIT),
            Ok(()),
            (0, 0),
        ),
        (
            (LIMIT, LIMIT),
            (LIMIT, LIMIT),
            (LIMIT, LIMIT),
            (LIMIT, LIMIT),
            RANGE,
            (5, 6),
        ),
        ((268_435_456, 1), (3, 0), (2, 0), (3, 1), Ok(()), (6, 2)),
    ];
    for (a, b, c, d, answer, left) in cases {
        let mut sum = GaussianSum::new();
        sum.take(&gaussian(a), &gaussian(b))?;
        sum.take(&gaussian(c), &gaussian(d))?;
        let mut out = gaussian((5, 6));
        assert_eq!(rt; sum.store(&mut out), answer);
        assert_eq!(rt; (out.re, out.im), left);
    }
    Ok(())
}

// Sums are equal by what they mean, whatever they took.
#[test]
fn compares_sums(rt: HostRuntime) -> Result<(), Fail> {
    for (a, b, c, d, same) in [
        ((2, 3), (0, 1), (-3, 2), (1, 0), true),
        ((1, 2), (3, -1), (5, 0), (1, 1), true),
        ((2, 3), (1, 0), (2, -3), (1, 0), false),
        ((2, 3), (1, 0), (-2, 3), (1, 0), false),
        (
            (LIMIT, LIMIT),
            (LIMIT, LIMIT),
            (-LIMIT, -LIMIT),
            (-LIMIT, -LIMIT),
            true,
        ),
        ((268_435_456, 1), (3, 0), (0, 0), (3, 0), true),
    ] {
        let mut left = GaussianSum::new();
        left.take(&gaussian(a), &gaussian(b))?;
        let mut right = GaussianSum::new();
        right.take(&gaussian(c), &gaussian(d))?;
        assert_eq!(rt; left.equals(&right), same);
        right.take(&gaussian((0, 0)), &gaussian((7, 8)))?;
        assert_eq!(rt; left.equals(&right), same);
    }
    Ok(())
}
