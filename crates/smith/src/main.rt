// Reads a relation matrix from standard input and writes its Smith normal form, or why there is none.
#![tactic(auto)]

ghost use Rattle.std.specs.Prelude.{◌≤◌, length, IfOk};

use calculator::{Refusal, smith};
use std::io::{Read, Write};

// The most that is read: one byte more than a matrix may have.
const MOST: usize = 65_537;

// Fills a buffer from standard input; answers how much of it. Each read is lent all the room that is left: the library's
// `read_to_end` begins with short ones, and where a read takes a packet, as of a socket, loses what they have no room for.
fn fill(rt: &HostRuntime, text: &mut [u8]) -> anyhow::Result<usize>
    ensures { IfOk result (λ len. len ≤ length text.old) }
{
    let mut len = 0;
    for _ in 0..MOST {
        let got = rt.stdin().read(&mut text[len..])?;
        if got == 0 {
            break;
        }
        len += got;
    }
    Ok(len)
}

// Prints the form, or one line that says why there is none. Want of memory is an error of the program.
fn run(rt: &HostRuntime) -> anyhow::Result<()> {
    let mut text = vec![in rt.alloc(); 0u8; MOST]?;
    let len = fill(rt, &mut text)?;
    match smith(rt.alloc(), &text[..len]) {
        Ok(form) => rt.stdout().write_all(&form)?,
        Err(Refusal::Memory(error)) => return Err(anyhow::Error::from(error)),
        Err(refusal) => println!(rt; "{refusal}")?,
    }
    Ok(())
}

fn main(rt: HostRuntime) -> anyhow::Result<()> {
    run(&rt)
}
