//! Single words of a model text: first words, comparisons, names, bounds and ranges.

ghost use Rattle.std.specs.Prelude.{◌≡◌, ◌<◌, true, false, length, MatchOption};
ghost use Rattle.std.specs.List.{list_all, position};
ghost use Rattle.ts_token.specs.Number.{number_of};
ghost use Rattle.ts_model.specs.Words.{form_of, op_of, is_equals, is_count, is_in, is_letter, is_name_byte, is_name, is_dot, range_of};
ghost use Rattle.ts_model.specs.Statement.{word_at};
ghost use Rattle.ts_model.specs.Views.{texts};

use crate::model::Op;
use std::str::from_utf8;
use ts_domain::Interval;
use ts_token::{Word, is_word, number};

/// The form of a line, by its first word.
#[derive(Clone, Copy)]
pub(crate) enum Form {
    Cells,
    Domain,
    Cell,
    Term,
    Require,
    Objective,
}

/// The form of a line that begins with this word.
#[tactic(auto, unfolding(crate::specs::Words::form_of))]
pub(crate) fn form_of(word: &[u8]) -> Option<Form>
    ensures { result ≡ form_of word.now }
{
    if is_word(word, b"cells") {
        Some(Form::Cells)
    } else if is_word(word, b"domain") {
        Some(Form::Domain)
    } else if is_word(word, b"cell") {
        Some(Form::Cell)
    } else if is_word(word, b"term") {
        Some(Form::Term)
    } else if is_word(word, b"require") {
        Some(Form::Require)
    } else if is_word(word, b"objective") {
        Some(Form::Objective)
    } else {
        None
    }
}

/// The comparison that the word is.
#[tactic(auto, unfolding(crate::specs::Words::op_of))]
pub(crate) fn op_of(word: &[u8]) -> Option<Op>
    ensures { result ≡ op_of word.now }
{
    if is_word(word, b"=") {
        Some(Op::Equal)
    } else if is_word(word, b"!=") {
        Some(Op::Unequal)
    } else if is_word(word, b"<=") {
        Some(Op::AtMost)
    } else if is_word(word, b">=") {
        Some(Op::AtLeast)
    } else if is_word(word, b"<") {
        Some(Op::Below)
    } else if is_word(word, b">") {
        Some(Op::Above)
    } else {
        None
    }
}

/// Whether the word is `=`.
#[tactic(auto, unfolding(crate::specs::Words::is_equals))]
pub(crate) fn is_equals(word: &[u8]) -> bool
    ensures { result ≡ is_equals word.now }
{
    word == b"=".as_slice()
}

/// Whether the word is `count`.
#[tactic(auto, unfolding(crate::specs::Words::is_count))]
pub(crate) fn is_count(word: &[u8]) -> bool
    ensures { result ≡ is_count word.now }
{
    word == b"count".as_slice()
}

/// Whether the word is `in`.
#[tactic(auto, unfolding(crate::specs::Words::is_in))]
pub(crate) fn is_in(word: &[u8]) -> bool
    ensures { result ≡ is_in word.now }
{
    word == b"in".as_slice()
}

/// Whether the byte is one of a to z.
#[tactic(auto, unfolding(crate::specs::Words::is_letter))]
fn is_letter(b: u8) -> bool
    ensures { result ≡ is_letter b }
{
    b >= b'a' && b <= b'z'
}

/// Whether the byte may stand in a name.
#[tactic(auto, unfolding(crate::specs::Words::is_name_byte))]
fn is_name_byte(b: u8) -> bool
    ensures { result ≡ is_name_byte b }
{
    is_letter(b) || b >= b'0' && b <= b'9' || b == b'_'
}

/// Whether all bytes may stand in a name.
fn are_name_bytes(bytes: &[u8]) -> bool
    ensures { result ≡ list_all is_name_byte bytes.now }
{
    bytes.iter().all(|b| is_name_byte(*b))
}

/// Whether the word is 1 to 32 of a to z, 0 to 9 and `_`, a letter first.
#[tactic(auto, unfolding(crate::specs::Words::is_name))]
fn is_name(word: &[u8]) -> bool
    ensures { result ≡ is_name word.now }
{
    match word.split_first() {
        None => false,
        Some((b, rest)) => is_letter(*b) && are_name_bytes(rest) && rest.len() <= 31,
    }
}

/// The word as a name, if it is one.
#[tactic(auto, using(crate::proofs::AsciiNames::name_is_text))]
pub(crate) fn name_of<'a>(word: &'a [u8]) -> Option<&'a str>
    ensures { MatchOption result (is_name word.now ≡ false)
        (λ name. (is_name word.now ≡ true) × (name.now ≡ word.now)) }
{
    if !is_name(word) {
        return None;
    }
    match from_utf8(word) {
        Ok(name) => Some(name),
        Err(_) => None,
    }
}

/// The place of the first dot.
fn dot_at(word: &[u8]) -> Option<usize>
    ensures { result ≡ position is_dot word.now }
{
    word.iter().position(|b| *b == b'.')
}

/// The range that the word is: a number, or two numbers with `..` between them.
#[tactic(auto, unfolding(crate::specs::Words::range_of))]
pub(crate) fn range_of(word: &[u8]) -> Option<Interval>
    ensures { result ≡ range_of word.now }
{
    match dot_at(word) {
        None => Some(Interval {
            low: number(word)?,
            high: number(word)?,
        }),
        Some(n) => {
            let rest = &word[n + 1..];
            if rest.is_empty() || rest[0] != b'.' {
                return None;
            }
            Some(Interval {
                low: number(&word[..n])?,
                high: number(&word[n + 2..])?,
            })
        }
    }
}

/// The bytes of the word at a place.
pub(crate) fn text_at<'a>(words: &[Word<'a>], k: usize) -> &'a [u8]
    requires { k < length (texts words.now) }
    ensures { result.now ≡ word_at (texts words.now) k }
{
    words[k].text
}

/// The number that the word at a place is.
pub(crate) fn number_at(words: &[Word], k: usize) -> Option<i64>
    requires { k < length (texts words.now) }
    ensures { result ≡ number_of (word_at (texts words.now) k) }
{
    number(text_at(words, k))
}
