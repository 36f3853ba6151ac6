// Texts cut into lines, and lines into fields.
ghost use Rattle.std.specs.Prelude.{◌≡◌, ◌≢◌, ◌+◌, ◌<◌, ◌≤◌, ◌==◌, [], ◌∷◌, not, length, take_while, IfSome, OnSome, MatchOption};
ghost use Rattle.matrix_market.specs.Layout as layout;
ghost use Rattle.matrix_market.specs.Layout.{Bytes};

// The lines of a text that are left, and the number of the first of them, counted from 1.
#[derive(Clone, Copy)]
pub(crate) struct Lines<'a> {
    rest: &'a [u8],
    pub(crate) number: usize,
    ghost small: { number + length rest.now ≤ 65537 },
}

impl<'a> Lines<'a> {
    ghost use Rattle.matrix_market.specs.Reader.{left};

    // All lines of `text`.
    pub(crate) fn new(text: &'a [u8]) -> Self
        requires { length text.now ≤ 65536 }
        ensures all { left result ≡ layout.lines text.now }
        ensures first { result.number ≡ 1 }
    {
        Lines {
            rest: text,
            number: 1,
        }
    }

    // The next line. Not `Iterator::next`: the number is wanted also where no line is left.
    pub(crate) fn next_line(&mut self) -> Option<&'a [u8]>
        ensures line { MatchOption result
            (left self.old ≡ [])
            (λ line. left self.old ≡ line.now ∷ left self.new) }
        ensures number { OnSome result (self.new.number ≡ self.old.number + 1) }
        ensures shorter { OnSome result (length self.new.rest.now < length self.old.rest.now) }
    {
        let (line, rest) = first_line(self.rest)?;
        *self = Lines {
            rest,
            number: self.number + 1,
        };
        Some(line)
    }
}

// A text without a line feed is one line, and nothing follows it. Not inlined: else the start of every next line would be
// computed for both cases, which is slower where lines are short.
#[inline(never)]
fn last_line(text: &[u8]) -> (&[u8], &[u8])
    ensures line { result.0.now ≡ text.now }
    ensures rest { result.1.now ≡ [] }
{
    (text, &[])
}

// The first line of `text`, and what follows its line feed.
fn first_line(text: &[u8]) -> Option<(&[u8], &[u8])>
    ensures cut { MatchOption result
        (layout.lines text.now ≡ [])
        (λ p. layout.lines text.now ≡ p.0.now ∷ layout.lines p.1.now) }
    ensures shorter { IfSome result (λ p. length p.1.now < length text.now) }
{
    if text.is_empty() {
        return None;
    }
    match text.iter().position(|b| *b == b'\n') {
        Some(end) => Some((&text[..end], &text[end + 1..])),
        None => Some(last_line(text)),
    }
}

// Space, tab and carriage return.
fn blank(b: u8) -> bool
    ensures { result ≡ layout.blank b }
{
    matches!(b, b' ' | b'\t' | b'\r')
}

// Whether a field ends where `text` begins.
pub(crate) fn field_ends(text: &[u8]) -> bool
    ensures { result ≡ layout.ends text.now }
{
    text.first().is_none_or(|b| blank(*b))
}

// How many blanks `line` begins with. This and `field_length` stay apart: one that took the test would have to state what
// the test answers.
fn blanks(line: &[u8]) -> usize
    ensures value { result ≡ length (take_while layout.blank line.now) }
    ensures bound { result ≤ length line.now }
{
    line.iter().take_while(|b| blank(**b)).count()
}

// The length of the field that `line` begins with.
fn field_length(line: &[u8]) -> usize
    ensures value { result ≡ length (take_while (λ b. not (layout.blank b)) line.now) }
    ensures bound { result ≤ length line.now }
{
    line.iter().take_while(|b| !blank(**b)).count()
}

// The first field of `line`, and what follows it.
pub(crate) fn next_field(line: &[u8]) -> Option<(&[u8], &[u8])>
    ensures { MatchOption result
        (layout.fields line.now ≡ [])
        (λ p. layout.fields line.now ≡ p.0.now ∷ layout.fields p.1.now) }
{
    let field = &line[blanks(line)..];
    if field.is_empty() {
        return None;
    }
    Some(field.split_at(field_length(field)))
}

// The field of `line`, where it has just one.
pub(crate) fn only_field(line: &[u8]) -> Option<&[u8]>
    ensures { MatchOption result
        ((f : Bytes) → layout.fields line.now ≢ f ∷ [])
        (λ f. layout.fields line.now ≡ f.now ∷ []) }
{
    let (field, rest) = next_field(line)?;
    next_field(rest).is_none().then_some(field)
}
