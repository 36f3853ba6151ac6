// The lines before the entries: the header, the comments and the size line.
ghost use Rattle.std.specs.Prelude.{◌≡◌, false, List, [], ◌∷◌, map, MatchOption};
ghost use Rattle.std.specs.Char.{to_ascii_lowercase};
ghost use Rattle.matrix_market.specs.Layout as layout;
ghost use Rattle.matrix_market.specs.Layout.{Bytes, fields, kind, named};

use crate::lines::*;
use crate::numbers::digits;
use crate::sizes::Sizes;

// What follows the word `w`, in any letter case, where it is the first field of `line`.
fn after_word<'a>(line: &'a [u8], w: &[u8]) -> Option<&'a [u8]>
    requires { map to_ascii_lowercase w.now ≡ w.now }
    ensures { MatchOption result
        ((ws : List Bytes) → named (fields line.now) (w.now ∷ ws) ≡ false)
        (λ t. (ws : List Bytes) → named (fields line.now) (w.now ∷ ws) ≡ named (fields t.now) ws) }
{
    let (field, rest) = next_field(line)?;
    field.eq_ignore_ascii_case(w).then_some(rest)
}

// What follows the words of the kind, where they are the first fields of `line`.
fn after_kind(line: &[u8]) -> Option<&[u8]>
    ensures { MatchOption result
        (named (fields line.now) kind ≡ false)
        (λ t. named (fields line.now) kind ≡ named (fields t.now) []) }
{
    let rest = after_word(line, b"matrix")?;
    let rest = after_word(rest, b"array")?;
    let rest = after_word(rest, b"integer")?;
    after_word(rest, b"general")
}

// Whether the fields of `line` are the words of the kind.
fn names_kind(line: &[u8]) -> bool
    ensures { result ≡ named (fields line.now) kind }
{
    after_kind(line).is_some_and(|rest| next_field(rest).is_none())
}

// Whether `line` is a header.
pub(crate) fn is_header(line: &[u8]) -> bool
    ensures { result ≡ layout.is_header_line line.now }
{
    line.strip_prefix(b"%%MatrixMarket")
        .is_some_and(|rest| field_ends(rest) && names_kind(rest))
}

// Whether `line` is a comment.
pub(crate) fn is_comment(line: &[u8]) -> bool
    ensures { result ≡ layout.is_comment_line line.now }
{
    line.starts_with(b"%")
}

// The sizes that a size line gives.
pub(crate) fn sizes(line: &[u8]) -> Option<Sizes>
    ensures { MatchOption result
        (layout.sizes (fields line.now) ≡ None)
        (λ s. layout.sizes (fields line.now) ≡ Some (s.m, s.n)) }
{
    let (m, rest) = next_field(line)?;
    let n = only_field(rest)?;
    Sizes::new(digits(2, m)? as usize, digits(2, n)? as usize)
}
