// The six tables of a presentation of integers, on the heap.
ghost use Rattle.std.specs.Prelude.{◌≡◌, ◌≤◌, length, IfOk, vec_len};
ghost use Rattle.presentation.specs.Shapes.{shape};
ghost use Rattle.calculator.specs.Answers.{zeros, Afterwards};
ghost use Rattle.calculator.specs.Blank.{Blank};

use crate::{BUDGET, Refusal};
use integers::Integer;
use matrix_market::write;
use presentation::{CallFault, Open, Run, Transform, open};
use std::alloc::{AllocError, Global};

// The tables of a presentation.
#[derive(Drop)]
pub(crate) struct Tables {
    relations: Vec<Integer>,
    work: Vec<Integer>,
    left: Vec<Integer>,
    left_inverse: Vec<Integer>,
    right: Vec<Integer>,
    right_inverse: Vec<Integer>,
}

// A table of zeros.
pub(crate) fn table(heap: Global) -> Result<Vec<Integer>, AllocError>
    ensures { IfOk result (λ v. v.items ≡ zeros) }
{
    vec![in heap; Integer { value: 0 }; 1024]
}

// Adds the first n entries of each row to a new presentation.
fn add_rows(
    new: Open,
    rows: &[[Integer; 32]],
    n: usize,
    relations: &mut [Integer],
    work: &mut [Integer],
    left: &mut Transform<'_, Integer>,
    right: &[Integer],
) -> Result<Open, CallFault>
    requires new { new ≡ shape 0 n 0 }
    requires few { n ≤ 32 }
    ensures { IfOk result (λ o. o ≡ shape (length rows.now) n 0) }
{
    let mut state = new;
    for row in rows {
        state = state
            .add(&row[..n], relations, work, left, right)
            .map_err(|(_, fault)| fault)?;
    }
    Ok(state)
}

impl Tables {
    // Tables of zeros.
    pub(crate) fn new(heap: Global) -> Result<Tables, AllocError>
        ensures { IfOk result Blank }
    {
        Ok(Tables {
            relations: table(heap)?,
            work: table(heap)?,
            left: table(heap)?,
            left_inverse: table(heap)?,
            right: table(heap)?,
            right_inverse: table(heap)?,
        })
    }

    // Presents the module of the m relations of a matrix, and reduces it. m and n are as `read` answers them.
    pub(crate) fn reduce(&mut self, m: usize, n: usize, rows: &[Integer]) -> Result<(), Refusal>
        requires long { 1024 ≤ length rows.now }
        requires relations { m ≤ 32 }
        requires generators { n ≤ 32 }
        ensures { Afterwards result }
    {
        let mut left = Transform {
            matrix: &mut self.left,
            inverse: &mut self.left_inverse,
        };
        let mut right = Transform {
            matrix: &mut self.right,
            inverse: &mut self.right_inverse,
        };
        let new = open(n, &mut right)?;
        let (rows, _) = rows.as_chunks::<32>();
        let state = add_rows(
            new,
            &rows[..m],
            n,
            &mut self.relations,
            &mut self.work,
            &mut left,
            right.matrix,
        )?;
        let run = state
            .run(BUDGET, &mut self.work, &mut left, &mut right)
            .map_err(|(_, _, fault)| fault)?;
        match run {
            Run::Done(_, _) => Ok(()),
            Run::Spent(_, _) => Err(Refusal::Spent),
        }
    }

    // The text of the worktable.
    pub(crate) fn form(&self, heap: Global, m: usize, n: usize) -> Result<Vec<u8>, Refusal>
        ensures length { IfOk result (λ form. vec_len form ≤ 12288) }
        ensures outcome { Afterwards result }
    {
        let mut form = vec![in heap; 0u8; 12288]?;
        let len = write(m, n, &self.work, &mut form)?;
        form.truncate(len);
        Ok(form)
    }
}
