//! How short a word of an expression may be.

ghost use Rattle.std.specs.Prelude.{◌≡◌, ◌≤◌};
ghost use Rattle.ts_regex.specs.Shape.{shape_of};
ghost use Rattle.ts_user.specs.Shortest.{short_length, has_short_word};

use ts_regex::Regex;

/// The length of the shortest word; 3 where it is longer, or where there is none.
fn short_length(regex: &Regex) -> u8
    ensures exact { result ≡ short_length (shape_of regex.now) }
    ensures most { result ≤ 3 }
{
    match regex {
        Regex::Empty => 3,
        Regex::Eps => 0,
        Regex::One(_) => 1,
        Regex::Cat(r, s) => (short_length(r) + short_length(s)).min(3),
        Regex::Alt(r, s) => short_length(r).min(short_length(s)),
        Regex::Star(_) => 0,
    }
}

/// Whether some word has fewer letters than both trims together take, or none at all.
pub(crate) fn has_short_word(regex: &Regex, b: u8, a: u8) -> bool
    requires before { b ≤ 2 }
    requires after { a ≤ 1 }
    ensures { result ≡ has_short_word (shape_of regex.now) b a }
{
    short_length(regex) < (b + a).max(1)
}
