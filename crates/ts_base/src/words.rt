//! Strict lines and words: each line ends with one LF, and its words stand between single spaces.
//!
//! A text is cut with `first_line`, a line with `without_lf` and then `words_of`. Each space ends a word, so that two
//! spaces, or one at either end, leave an empty word; no other byte is taken away. What is lent is a part of the text.

ghost use Rattle.std.specs.Prelude.{◌≡◌, ◌<◌, ◌≤◌, ◌∷◌, ◌++◌, length, take, drop, None, Some, MatchOption};
ghost use Rattle.std.specs.List.{position};
ghost use Rattle.ts_base.specs.Words.{is_lf, is_space, strict_lines, without_lf, words_of, words_seen, left_of};

/// The first word of a line, and the bytes after the space after it, where there is one.
#[derive(Clone, Copy, Debug)]
pub struct Words<'a> {
    pub first: &'a [u8],
    pub rest: Option<&'a [u8]>,
}

/// Where the first LF stands.
#[tactic(auto, unfolding(crate::specs::Words::is_lf))]
fn lf_at(text: &[u8]) -> Option<usize>
    ensures { result ≡ position is_lf text.now }
{
    text.iter().position(|b| *b == b'\n')
}

/// How many bytes the first line has with its LF, or all that are left where no LF stands.
fn line_end(text: &[u8]) -> usize
    requires { 0 < length text.now }
    ensures within { result ≤ length text.now }
    ensures some { 0 < result }
    ensures cut { strict_lines text.now ≡ take result text.now ∷ strict_lines (drop result text.now) }
{
    match lf_at(text) {
        Some(n) => n + 1,
        None => text.len(),
    }
}

/// The first line with its LF, and the bytes after it. A last line without an LF is lent as it stands.
pub fn first_line<'a>(text: &'a [u8]) -> (&'a [u8], &'a [u8])
    requires { 0 < length text.now }
    ensures cut { strict_lines text.now ≡ result.0.now ∷ strict_lines result.1.now }
    ensures parts { text.now ≡ result.0.now ++ result.1.now }
    ensures some { 0 < length result.0.now }
{
    text.split_at(line_end(text))
}

/// The line without its LF; None exactly where it doesn't end with one.
pub fn without_lf<'a>(text: &'a [u8]) -> Option<&'a [u8]>
    ensures { MatchOption result (without_lf text.now ≡ None) (λ line. without_lf text.now ≡ Some line.now) }
{
    text.strip_suffix(b"\n".as_slice())
}

/// Where the first space stands.
#[tactic(auto, unfolding(crate::specs::Words::is_space))]
fn space_at(line: &[u8]) -> Option<usize>
    ensures { result ≡ position is_space line.now }
{
    line.iter().position(|b| *b == b' ')
}

/// The words of a line without its LF: the first, and the bytes that hold the others. A line has at least one word,
/// which may be empty.
pub fn words_of<'a>(line: &'a [u8]) -> Words<'a>
    ensures words { words_seen result ≡ words_of line.now }
    ensures shorter { left_of result.rest ≤ length line.now }
{
    match space_at(line) {
        Some(n) => Words {
            first: &line[..n],
            rest: Some(&line[n + 1..]),
        },
        None => Words {
            first: line,
            rest: None,
        },
    }
}
