// The writer: a lent table into a text.
ghost use Rattle.std.specs.Prelude.{◌+◌, ◌*◌, ◌≤◌, length, IfOk};
ghost use Rattle.matrix_market.specs.Layout as layout;
ghost use Rattle.matrix_market.specs.Stored.{Appends, Wrote, members};

use crate::WriteFault;
use crate::sizes::Sizes;
use integers::Integer;

// Puts `bytes` at `at`, and answers where they end, as the functions below do. In a struct with the
// buffer each contract would have to say too that the field is the same loan, as long as before.
fn put(out: &mut [u8], at: usize, bytes: &[u8]) -> usize
    requires { at + length bytes.now ≤ length out.old }
    ensures { Appends at bytes.now out.old result out.new }
{
    let end = at + bytes.len();
    out[at..end].copy_from_slice(bytes);
    end
}

// A number in decimal digits: a minus for a negative one, and no needless zeros.
fn put_number<I: itoa::Integer>(out: &mut [u8], at: usize, x: I) -> usize
    requires { at + length (I.text x) ≤ length out.old }
    ensures { Appends at (I.text x) out.old result out.new }
{
    put(out, at, itoa::Buffer::new().format(x).as_bytes())
}

// The header and the size line.
#[tactic(auto, using(crate::proofs::Pieces::length_size))]
fn put_opening(out: &mut [u8], sizes: Sizes) -> usize
    requires { 50 ≤ length out.old }
    ensures appends { Appends 0 (layout.opening sizes.m sizes.n) out.old result out.new }
    ensures bound { result ≤ 50 }
{
    let end = put(out, 0, b"%%MatrixMarket matrix array integer general\n");
    let end = put_number(out, end, sizes.m);
    let end = put(out, end, b" ");
    let end = put_number(out, end, sizes.n);
    put(out, end, b"\n")
}

// The entries column by column, each at most 10 bytes and its line feed.
#[tactic(auto, using(crate::proofs::Pieces::length_signed))]
fn put_entries(out: &mut [u8], at: usize, sizes: Sizes, table: &[Integer]) -> usize
    requires table { 1024 ≤ length table.now }
    requires room { at + 11264 ≤ length out.old }
    ensures appends { Appends at (layout.column (members sizes.m table.now 0 (sizes.m * sizes.n)))
        out.old result out.new }
    ensures bound { result ≤ at + 11264 }
{
    let mut end = at;
    // k is the entry's number, by which its place goes
    for k in 0..sizes.count() {
        let after = put_number(out, end, table[sizes.place(k)].get());
        end = put(out, after, b"\n");
    }
    end
}

// Writes the m by n integers of `table`, entry (i, j) from place 32·i + j, and answers the length,
// as std's `Read::read` does of a lent buffer. A refusal writes nothing. m and n and no `Sizes`: any can be asked for.
pub fn write(m: usize, n: usize, table: &[Integer], out: &mut [u8]) -> Result<usize, WriteFault>
    ensures text { Wrote m n table.now out.old result out.new }
    ensures bound { IfOk result (λ len. len ≤ 12288) }
{
    if out.len() < 12288 || table.len() < 1024 {
        return Err(WriteFault::Short);
    }
    let sizes = Sizes::new(m, n).ok_or(WriteFault::Sizes)?;
    let end = put_opening(out, sizes);
    Ok(put_entries(out, end, sizes, table))
}
