// Relations over the Gaussian integers and the bit polynomials, reduced by one generic function.
use crate::bits::bits;
use crate::gaussian::gaussian;
use bit_polynomials::BitPolynomial;
use gaussian_integers::GaussianInteger;
use kinds::Euclid;
use presentation::{Run, Transform, open};

// The steps of a reduction of some relations of two generators, over any kind; none if it is refused or not done.
fn steps<E: Euclid>(
    relations: &[[E; 2]],
    a: &mut [E],
    w: &mut [E],
    left: &mut Transform<'_, E>,
    right: &mut Transform<'_, E>,
) -> Option<u32> {
    let mut state = open(2, right).ok()?;
    for row in relations {
        state = state.add(row, a, w, left, right.matrix).ok()?;
    }
    match state.run(100, w, left, right) {
        Ok(Run::Done(_, count)) => Some(count),
        _ => None,
    }
}

fn parts(x: &GaussianInteger) -> (i32, i32) {
    (x.re, x.im)
}

// The steps over the Gaussian integers, and the first two rows of the worktable. One function for this and the next does
// not prove: nothing says that 1,024 elements of a type parameter fit in memory, and `vec!` of one is not covered.
fn gaussian_reduced(relations: &[[GaussianInteger; 2]]) -> (Option<u32>, [[(i32, i32); 2]; 2]) {
    let zero = gaussian((0, 0));
    let mut a = [zero; 1024];
    let mut w = [zero; 1024];
    let mut p = [zero; 1024];
    let mut p_inverse = [zero; 1024];
    let mut q = [zero; 1024];
    let mut q_inverse = [zero; 1024];
    let mut left = Transform {
        matrix: &mut p,
        inverse: &mut p_inverse,
    };
    let mut right = Transform {
        matrix: &mut q,
        inverse: &mut q_inverse,
    };
    let count = steps(relations, &mut a, &mut w, &mut left, &mut right);
    let rows = [[parts(&w[0]), parts(&w[1])], [parts(&w[32]), parts(&w[33])]];
    (count, rows)
}

// The steps over the bit polynomials, and the first two rows of the worktable.
fn bits_reduced(relations: &[[BitPolynomial; 2]]) -> (Option<u32>, [[u32; 2]; 2]) {
    let zero = bits(0);
    let mut a = [zero; 1024];
    let mut w = [zero; 1024];
    let mut p = [zero; 1024];
    let mut p_inverse = [zero; 1024];
    let mut q = [zero; 1024];
    let mut q_inverse = [zero; 1024];
    let mut left = Transform {
        matrix: &mut p,
        inverse: &mut p_inverse,
    };
    let mut right = Transform {
        matrix: &mut q,
        inverse: &mut q_inverse,
    };
    let count = steps(relations, &mut a, &mut w, &mut left, &mut right);
    let rows = [[w[0].bits, w[1].bits], [w[32].bits, w[33].bits]];
    (count, rows)
}

#[test]
fn gaussian_row(rt: HostRuntime) {
    let row = [[gaussian((2, 0)), gaussian((1, 1))]];
    let (count, work) = gaussian_reduced(&row);
    assert_eq!(rt; count, Some(3));
    assert_eq!(rt; work[0], [(1, 1), (0, 0)]);
}

#[test]
fn gaussian_square(rt: HostRuntime) {
    let square = [
        [gaussian((1, 1)), gaussian((2, -1))],
        [gaussian((3, 0)), gaussian((0, 5))],
    ];
    let (count, work) = gaussian_reduced(&square);
    assert_eq!(rt; count, Some(7));
    assert_eq!(rt; work, [[(1, 0), (0, 0)], [(0, 0), (8, 11)]]);
}

#[test]
fn bits_row(rt: HostRuntime) {
    let (count, work) = bits_reduced(&[[bits(6), bits(5)]]);
    assert_eq!(rt; count, Some(4));
    assert_eq!(rt; work[0], [3, 0]);
}

#[test]
fn bits_square(rt: HostRuntime) {
    let square = [[bits(2), bits(0)], [bits(0), bits(3)]];
    let (count, work) = bits_reduced(&square);
    assert_eq!(rt; count, Some(7));
    assert_eq!(rt; work, [[1, 0], [0, 6]]);
}
