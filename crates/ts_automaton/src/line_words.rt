//! All words of a line, and parts of them.

ghost use Rattle.std.specs.Prelude.{◌≡◌, ◌<◌, ◌≤◌, length, take, drop, Some, None, IfOk, MatchOption};
ghost use Rattle.std.specs.List.{position};
ghost use Rattle.ts_base.specs.Words.{words_of, all_words};
ghost use Rattle.ts_automaton.specs.FormulaText.{texts};
ghost use Rattle.ts_automaton.specs.Lines.{word_at, is_semi, cut_of};

use std::alloc::Global;
use ts_base::{Memory, words_of};

/// The words of a line, which stand between single spaces.
pub(crate) fn words_in<'a>(alloc: Global, line: &'a [u8]) -> Result<Vec<&'a [u8]>, Memory>
    ensures { IfOk result (λ words. texts words.items ≡ all_words (words_of line.now)) }
{
    let mut found = Vec::new(alloc);
    let mut rest = Some(line);
    while let Some(part) = rest {
        let words = words_of(part);
        found.push(words.first)?;
        rest = words.rest;
    }
    Ok(found)
}

/// The number of the words.
pub(crate) fn word_count(words: &[&[u8]]) -> usize
    ensures { result ≡ length (texts words.now) }
{
    words.len()
}

/// The word at place `k`.
pub(crate) fn word_at<'a>(words: &[&'a [u8]], k: usize) -> &'a [u8]
    requires { k < length (texts words.now) }
    ensures { result.now ≡ word_at (texts words.now) k }
{
    words[k]
}

/// The words from place `k` on.
pub(crate) fn words_from<'t, 'a>(words: &'t [&'a [u8]], k: usize) -> &'t [&'a [u8]]
    requires { k ≤ length (texts words.now) }
    ensures { texts result.now ≡ drop k (texts words.now) }
{
    &words[k..]
}

/// The first `k` words.
pub(crate) fn words_up_to<'t, 'a>(words: &'t [&'a [u8]], k: usize) -> &'t [&'a [u8]]
    requires { k ≤ length (texts words.now) }
    ensures { texts result.now ≡ take k (texts words.now) }
{
    &words[..k]
}

/// The word is a `;`.
pub(crate) fn is_semi(word: &[u8]) -> bool
    ensures { result ≡ is_semi word.now }
{
    word == b";".as_slice()
}

/// The place of the first `;`.
fn semi_at(words: &[&[u8]]) -> Option<usize>
    ensures { result ≡ position (λ w. is_semi w.now) words.now }
{
    words.iter().position(|w| is_semi(w))
}

/// The words before the first `;`, and those after it.
pub(crate) fn cut_at_semi<'t, 'a>(words: &'t [&'a [u8]]) -> Option<(&'t [&'a [u8]], &'t [&'a [u8]])>
    ensures { let cut = cut_of (texts words.now) in
        MatchOption result (cut ≡ None) (λ p. cut ≡ Some (texts p.0.now, texts p.1.now)) }
{
    match semi_at(words) {
        None => None,
        Some(n) => Some((&words[..n], &words[n + 1..])),
    }
}
