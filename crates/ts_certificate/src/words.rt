//! Exactly so many words after the first of a line.

ghost use Rattle.std.specs.Prelude.{◌≡◌, None, Some, MatchOption};
ghost use Rattle.ts_base.specs.Words.{more_seen};
ghost use Rattle.ts_certificate.specs.WordCounts.{one_of, two_of, three_of, if_alone};

use ts_base::words_of;

/// The word, if there is exactly one.
pub(crate) fn one_word<'a>(rest: Option<&'a [u8]>) -> Option<&'a [u8]>
    ensures { MatchOption result (one_of (more_seen rest.entry) ≡ None)
        (λ w. one_of (more_seen rest.entry) ≡ Some w.now) }
{
    let words = words_of(rest?);
    match words.rest {
        None => Some(words.first),
        Some(_) => None,
    }
}

/// The words, if there are exactly two.
pub(crate) fn two_words<'a>(rest: Option<&'a [u8]>) -> Option<(&'a [u8], &'a [u8])>
    ensures { MatchOption result (two_of (more_seen rest.entry) ≡ None)
        (λ p. two_of (more_seen rest.entry) ≡ Some (p.0.now, p.1.now)) }
{
    let words = words_of(rest?);
    let second = one_word(words.rest)?;
    Some((words.first, second))
}

/// The words, if there are exactly three.
pub(crate) fn three_words<'a>(rest: Option<&'a [u8]>) -> Option<(&'a [u8], &'a [u8], &'a [u8])>
    ensures { MatchOption result (three_of (more_seen rest.entry) ≡ None)
        (λ p. three_of (more_seen rest.entry) ≡ Some (p.0.now, p.1.now, p.2.now)) }
{
    let words = words_of(rest?);
    let (second, third) = two_words(words.rest)?;
    Some((words.first, second, third))
}

/// The value, if no word is left.
pub(crate) fn alone<X: Copy>(rest: Option<&[u8]>, x: X) -> Option<X>
    ensures { result ≡ if_alone x (more_seen rest.entry) }
{
    match rest {
        None => Some(x),
        Some(_) => None,
    }
}
