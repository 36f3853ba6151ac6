// From the text of a relation matrix to the text of its Smith normal form.
#![tactic(auto)]

ghost use Rattle.std.specs.Prelude.{◌≤◌, IfOk, vec_len};
ghost use Rattle.calculator.specs.Answers.{Answering};

mod refusal;
mod tables;

use matrix_market::read;
pub use refusal::Refusal;
use std::alloc::Global;
use tables::{Tables, table};

// The steps that a reduction may take.
pub const BUDGET: u32 = 100_000;

// The text of the Smith normal form of the matrix that a text holds.
pub fn smith(heap: Global, text: &[u8]) -> Result<Vec<u8>, Refusal>
    ensures answer { Answering text.now result }
    ensures length { IfOk result (λ form. vec_len form ≤ 12288) }
{
    let mut rows = table(heap)?;
    let (m, n) = read(text, &mut rows)?;
    let mut tables = Tables::new(heap)?;
    tables.reduce(m, n, &rows)?;
    tables.form(heap, m, n)
}
