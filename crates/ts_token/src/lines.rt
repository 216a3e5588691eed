//! The first line of a text, without its end.

ghost use Rattle.std.specs.Prelude.{◌≡◌, ◌<◌, ◌≤◌, ◌∷◌, length};
ghost use Rattle.ts_token.specs.Text.{lines_of};
ghost use Rattle.ts_token.specs.Steps.{without_cr, without_end};

use ts_base::without_lf;

/// A line that ended at an LF, without the CR before it.
fn without_cr<'a>(line: &'a [u8]) -> &'a [u8]
    ensures value { result.now ≡ without_cr line.now }
    ensures within { length result.now ≤ length line.now }
{
    let n = line.len();
    if n > 0 && line[n - 1] == b'\r' {
        &line[..n - 1]
    } else {
        line
    }
}

/// A line, given with its end, without it: an LF and a CR before that.
pub(crate) fn without_end<'a>(line: &'a [u8]) -> &'a [u8]
    ensures value { result.now ≡ without_end line.now }
    ensures within { length result.now ≤ length line.now }
{
    match without_lf(line) {
        Some(front) => without_cr(front),
        None => line,
    }
}

/// The first line without its end, and the bytes after its end.
pub(crate) fn first_line<'a>(text: &'a [u8]) -> (&'a [u8], &'a [u8])
    requires { 0 < length text.now }
    ensures cut { lines_of text.now ≡ result.0.now ∷ lines_of result.1.now }
    ensures shorter { length result.1.now < length text.now }
    ensures within { length result.0.now ≤ length text.now }
{
    let (line, rest) = ts_base::first_line(text);
    (without_end(line), rest)
}
