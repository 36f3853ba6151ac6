// The reader: a text into a lent table.
ghost use Rattle.std.specs.Prelude.{◌≡◌, ℕ, suc, ◌≤◌, length, IfOk, Ok, Err, MatchResult};
ghost use Rattle.matrix_market.specs.Layout as layout;
ghost use Rattle.matrix_market.specs.Layout.{before, entries};
ghost use Rattle.matrix_market.specs.Sizes.{Bounded};
ghost use Rattle.matrix_market.specs.Stored.{reading, stored};
ghost use Rattle.matrix_market.specs.Reader.{filled_by, left, matrix_of, value_of};

use crate::ReadFault;
use crate::header::*;
use crate::lines::*;
use crate::numbers::integer;
use crate::sizes::Sizes;
use integers::Integer;
use kinds::ElementFault;

// The entry that `line` gives.
fn entry(line: &[u8]) -> Result<Integer, Option<ElementFault>>
    ensures { result ≡ stored (layout.entry (layout.fields line.now)) }
{
    integer(only_field(line).ok_or(None)?)
}

// The entry that the next line gives.
fn next_entry(lines: &mut Lines) -> Result<Integer, ReadFault>
    ensures { (c : ℕ) → entries lines.old.number (suc c) (left lines.old)
        ≡ before (value_of result) (entries lines.new.number c (left lines.new)) }
{
    let at = lines.number;
    let line = lines.next_line().ok_or(ReadFault::Entry(at, None))?;
    entry(line).map_err(|inner| ReadFault::Entry(at, inner))
}

// The sizes, and the lines of the entries.
#[derive(Clone, Copy)]
struct Body<'a> {
    sizes: Sizes,
    lines: Lines<'a>,
}

impl<'a> Body<'a> {
    // Passes the comments and reads the size line.
    fn open(mut lines: Lines<'a>) -> Result<Self, ReadFault>
        ensures { matrix_of result ≡ layout.body lines.entry.number (left lines.entry) }
    {
        loop {
            let at = lines.number;
            let line = lines.next_line().ok_or(ReadFault::SizeLine(at))?;
            if !is_comment(line) {
                let sizes = sizes(line).ok_or(ReadFault::SizeLine(at))?;
                return Ok(Body { sizes, lines });
            }
        }
    }

    // Reads the entries into their places.
    fn fill(&self, table: &mut [Integer]) -> Result<(), ReadFault>
        requires { 1024 ≤ length table.old }
        ensures { MatchResult result
            (λ _. filled_by self.now table.old ≡ Ok table.new)
            (λ e. filled_by self.now table.old ≡ Err e) }
    {
        let mut lines = self.lines;
        // k is the entry's number, by which its place goes
        for k in 0..self.sizes.count() {
            table[self.sizes.place(k)] = next_entry(&mut lines)?;
        }
        let at = lines.number;
        match lines.next_line() {
            None => Ok(()),
            Some(_) => Err(ReadFault::LeftOver(at)),
        }
    }
}

// Reads `text` into `table`, entry (i, j) at place 32·i + j, and answers m and n.
// A refused read writes nothing.
pub fn read(text: &[u8], table: &mut [Integer]) -> Result<(usize, usize), ReadFault>
    ensures result { result ≡ (reading text.now table.old).0 }
    ensures table { table.new ≡ (reading text.now table.old).1 }
    ensures bound { IfOk result (λ p. Bounded p.0 p.1) }
{
    if table.len() < 1024 {
        return Err(ReadFault::Short);
    }
    if text.len() > 65536 {
        return Err(ReadFault::LeftOver(1));
    }
    let mut lines = Lines::new(text);
    if !lines.next_line().is_some_and(is_header) {
        return Err(ReadFault::Header(1));
    }
    let body = Body::open(lines)?;
    // every refusal comes before the lent table is written
    let mut scratch = [Integer { value: 0 }; 1024];
    body.fill(&mut scratch)?;
    body.fill(table)?;
    Ok((body.sizes.m, body.sizes.n))
}
