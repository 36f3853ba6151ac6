// Reductions of integer matrices: counts of steps, diagonals and refusals.
use crate::numbers::integer;
use integers::Integer;
use kinds::ElementFault;
use presentation::{CallFault, Run, Step, Table, TableFault, Transform, open};
use std::test::Fail;

// What becomes of a matrix: the steps taken and the diagonal of the worktable, or why not. One enum of three, so that a
// test compares one value.
#[derive(Clone, Copy, PartialEq, Eq, Debug)]
enum Outcome {
    Done(u32, [i32; 4]),
    Spent(u32),
    Refused(u32, CallFault),
}

// A row of at most five entries.
fn row(r: &[i32; 5]) -> [Integer; 5] {
    r.map(integer)
}

// The outcome of rows of n entries under a budget. Six arrays and no struct of them: the checker does not cover an element
// of an array in a struct of which another field is lent. Arrays and no `Vec`, so that want of memory is no outcome.
fn reduced(n: usize, rows: &[[i32; 5]], budget: u32) -> Result<Outcome, CallFault> {
    let mut a = [integer(0); 1024];
    let mut w = [integer(0); 1024];
    let mut p = [integer(0); 1024];
    let mut p_inverse = [integer(0); 1024];
    let mut q = [integer(0); 1024];
    let mut q_inverse = [integer(0); 1024];
    let mut left = Transform {
        matrix: &mut p,
        inverse: &mut p_inverse,
    };
    let mut right = Transform {
        matrix: &mut q,
        inverse: &mut q_inverse,
    };
    let mut state = open(n, &mut right)?;
    for r in rows {
        state = state
            .add(&row(r), &mut a, &mut w, &mut left, right.matrix)
            .map_err(|(_, fault)| fault)?;
    }
    Ok(match state.run(budget, &mut w, &mut left, &mut right) {
        Ok(Run::Done(_, count)) => Outcome::Done(
            count,
            [w[0].value, w[33].value, w[66].value, w[99].value],
        ),
        Ok(Run::Spent(_, count)) => Outcome::Spent(count),
        Err((_, count, fault)) => Outcome::Refused(count, fault),
    })
}

#[test]
fn smith_forms(rt: HostRuntime) {
    let cyclic = [[1, 1, -1, 0, 0], [-1, 1, 1, 0, 0], [1, -1, 1, 0, 0]];
    assert_eq!(rt;
        reduced(3, &cyclic, 100),
        Ok(Outcome::Done(8, [1, 2, 2, 0]))
    );
    let coprime = [[2, 0, 0, 0, 0], [0, 3, 0, 0, 0]];
    assert_eq!(rt;
        reduced(2, &coprime, 100),
        Ok(Outcome::Done(8, [1, 6, 0, 0]))
    );
    let large = [[1, 1, 0, 0, 0], [-268435455, 268435455, 0, 0, 0]];
    assert_eq!(rt;
        reduced(2, &large, 100),
        Ok(Outcome::Done(4, [1, 536870910, 0, 0]))
    );
    let knot = [
        [2, -1, -1, 0, 0],
        [-1, 4, -1, -2, 0],
        [-1, -1, 3, -1, 0],
        [0, -2, -1, 3, 0],
    ];
    assert_eq!(rt;
        reduced(4, &knot, 100),
        Ok(Outcome::Done(20, [1, 1, 13, 0]))
    );
}

#[test]
fn diagonals_stay(rt: HostRuntime) {
    let diagonal = [
        [1, 0, 0, 0, 0],
        [0, 2, 0, 0, 0],
        [0, 0, 12, 0, 0],
        [0, 0, 0, 0, 0],
        [0, 0, 0, 0, 0],
    ];
    assert_eq!(rt;
        reduced(4, &diagonal, 100),
        Ok(Outcome::Done(3, [1, 2, 12, 0]))
    );
    assert_eq!(rt; reduced(4, &[], 100), Ok(Outcome::Done(0, [0, 0, 0, 0])));
    assert_eq!(rt;
        reduced(2, &[[0, 0, 0, 0, 0]], 0),
        Ok(Outcome::Done(0, [0, 0, 0, 0]))
    );
}

#[test]
fn budgets(rt: HostRuntime) {
    let coprime = [[2, 0, 0, 0, 0], [0, 3, 0, 0, 0]];
    assert_eq!(rt; reduced(2, &coprime, 8), Ok(Outcome::Done(8, [1, 6, 0, 0])));
    assert_eq!(rt; reduced(2, &coprime, 7), Ok(Outcome::Spent(7)));
    assert_eq!(rt; reduced(2, &coprime, 0), Ok(Outcome::Spent(0)));
    assert_eq!(rt; reduced(2, &[], 0), Ok(Outcome::Done(0, [0, 0, 0, 0])));
}

#[test]
fn refusals(rt: HostRuntime) {
    let past = [[1, 1, 0, 0, 0], [-268435456, 268435456, 0, 0, 0]];
    let fault = TableFault {
        table: Table::Work,
        row: 1,
        column: 1,
        fault: ElementFault::Range,
    };
    assert_eq!(rt;
        reduced(2, &past, 100),
        Ok(Outcome::Refused(0, CallFault::InTable(fault)))
    );
    assert_eq!(rt; reduced(0, &[], 100), Err(CallFault::Generators));
    assert_eq!(rt; reduced(33, &[], 100), Err(CallFault::Generators));
    assert_eq!(rt; reduced(6, &past, 100), Err(CallFault::Short));
    let zero = [0, 0, 0, 0, 0];
    assert_eq!(rt;
        reduced(5, &[zero; 32], 100),
        Ok(Outcome::Done(0, [0, 0, 0, 0]))
    );
    assert_eq!(rt; reduced(5, &[zero; 33], 100), Err(CallFault::Full));
}

#[test]
fn numbers_of_refusals(rt: HostRuntime) {
    assert_eq!(rt; CallFault::Short.number(), 4);
    assert_eq!(rt; CallFault::Generators.number(), 5);
    assert_eq!(rt; CallFault::Full.number(), 6);
    let fault = TableFault {
        table: Table::Left,
        row: 0,
        column: 0,
        fault: ElementFault::Range,
    };
    assert_eq!(rt; CallFault::InTable(fault).number(), 1);
}

// A relation that is refused at a finished presentation leaves the tables.
#[test]
fn refused_relation(rt: HostRuntime) -> Result<(), Fail> {
    let mut a = [integer(0); 1024];
    let mut w = [integer(0); 1024];
    let mut p = [integer(0); 1024];
    let mut p_inverse = [integer(0); 1024];
    let mut q = [integer(0); 1024];
    let mut q_inverse = [integer(0); 1024];
    let mut left = Transform {
        matrix: &mut p,
        inverse: &mut p_inverse,
    };
    let mut right = Transform {
        matrix: &mut q,
        inverse: &mut q_inverse,
    };
    let Ok(state) = open(2, &mut right) else {
        return Err(Fail::new("open"));
    };
    let Ok(state) = state.add(
        &[integer(1), integer(1)],
        &mut a,
        &mut w,
        &mut left,
        right.matrix,
    ) else {
        return Err(Fail::new("add"));
    };
    let Ok(Run::Done(state, count)) = state.run(9, &mut w, &mut left, &mut right) else {
        return Err(Fail::new("run"));
    };
    assert_eq!(rt; count, 2);
    let far = [integer(536870911), integer(-536870911)];
    let Err((_, refused)) = state.add(&far, &mut a, &mut w, &mut left, right.matrix) else {
        return Err(Fail::new("added"));
    };
    let fault = TableFault {
        table: Table::Work,
        row: 1,
        column: 1,
        fault: ElementFault::Range,
    };
    assert_eq!(rt; refused, CallFault::InTable(fault));
    assert!(rt; a[33].value == 0 && w[32].value == 0 && p[33].value == 0);
    Ok(())
}

// A step that lacks room leaves the tables.
#[test]
fn refused_step(rt: HostRuntime) -> Result<(), Fail> {
    let mut a = [integer(0); 1024];
    let mut w = [integer(0); 1024];
    let mut p = [integer(0); 1024];
    let mut p_inverse = [integer(0); 1024];
    let mut q = [integer(0); 1024];
    let mut q_inverse = [integer(0); 1024];
    let mut left = Transform {
        matrix: &mut p,
        inverse: &mut p_inverse,
    };
    let mut right = Transform {
        matrix: &mut q,
        inverse: &mut q_inverse,
    };
    let Ok(state) = open(1, &mut right) else {
        return Err(Fail::new("open"));
    };
    let Ok(state) = state.add(&[integer(-3)], &mut a, &mut w, &mut left, right.matrix) else {
        return Err(Fail::new("add"));
    };
    let mut short = [integer(0); 1023];
    let mut lacking = Transform {
        matrix: right.matrix,
        inverse: &mut short,
    };
    let Err((state, fault)) = state.step(&mut w, &mut left, &mut lacking) else {
        return Err(Fail::new("stepped"));
    };
    assert_eq!(rt; fault, CallFault::Short);
    assert!(rt; w[0].value == -3 && left.matrix[0].value == 1);
    let Ok(Step::Stepped(_)) = state.step(&mut w, &mut left, &mut right) else {
        return Err(Fail::new("not stepped"));
    };
    assert!(rt; w[0].value == 3 && p[0].value == -1 && p_inverse[0].value == -1);
    Ok(())
}
