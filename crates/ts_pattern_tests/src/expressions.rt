//! Values from outside: the residuals of the catalogue's patterns, and words of their languages.
//!
//! Expressions are written with the operator after its parts: `.` for Cat, `|` for Alt, `*` for Star, `e` for Eps
//! and `0` for Empty.

pub(super) mod tables;

use super::rows::word;
use std::alloc::Global;
use ts_base::{Letter, Memory};
use ts_regex::{Regex, alt, cat, derive, has_longer, has_word, member, normal, nullable, star};

fn pop(stack: &mut Vec<Regex>) -> Regex {
    stack.pop().unwrap_or(Regex::Empty)
}

fn joined(alloc: Global, operator: u8, stack: &mut Vec<Regex>) -> Result<Regex, Memory> {
    let second = pop(stack);
    let first = pop(stack);
    if operator == b'.' {
        cat(alloc, first, second)
    } else {
        alt(alloc, first, second)
    }
}

/// What a sign or an operator makes of the expressions before it.
fn made(alloc: Global, sign: u8, stack: &mut Vec<Regex>) -> Result<Regex, Memory> {
    match sign {
        b'0' => Ok(Regex::Empty),
        b'e' => Ok(Regex::Eps),
        b'<' => Ok(Regex::One(Letter::Less)),
        b'=' => Ok(Regex::One(Letter::Equal)),
        b'>' => Ok(Regex::One(Letter::Greater)),
        b'*' => star(alloc, pop(stack)),
        operator => joined(alloc, operator, stack),
    }
}

pub(super) fn regex(alloc: Global, text: &[u8]) -> Result<Regex, Memory> {
    let mut stack: Vec<Regex> = Vec::new(alloc);
    for sign in text {
        let top = made(alloc, *sign, &mut stack)?;
        stack.push(top)?;
    }
    Ok(pop(&mut stack))
}

pub(super) fn letters(alloc: Global, text: &[u8]) -> Result<Vec<Letter>, Memory> {
    let mut letters = Vec::new(alloc);
    for sign in text {
        match *sign {
            b'<' => letters.push(Letter::Less)?,
            b'=' => letters.push(Letter::Equal)?,
            b'>' => letters.push(Letter::Greater)?,
            _ => {}
        }
    }
    Ok(letters)
}

/// Whether a word of a row says this.
fn says(row: &[u8], place: usize, holds: bool) -> bool {
    if holds {
        word(row, place) == b"yes".as_slice()
    } else {
        word(row, place) == b"no".as_slice()
    }
}

/// Whether a word of a row is this expression.
fn shows(alloc: Global, row: &[u8], place: usize, found: Regex) -> Result<bool, Memory> {
    Ok(found.same(&regex(alloc, word(row, place))?))
}

/// An expression, and its normal form.
pub(super) fn has_normal_form(alloc: Global, row: &[u8]) -> Result<bool, Memory> {
    shows(alloc, row, 1, normal(alloc, &regex(alloc, word(row, 0))?)?)
}

/// What is left of the expression of a row after a letter, in normal form or as it comes.
fn left(alloc: Global, row: &[u8], letter: Letter, in_form: bool) -> Result<Regex, Memory> {
    let found = derive(alloc, &regex(alloc, word(row, 0))?, letter)?;
    if in_form {
        normal(alloc, &found)
    } else {
        Ok(found)
    }
}

/// An expression, and what is left of it after `<`, `=` and `>`, in normal form or as it comes.
pub(super) fn has_left(alloc: Global, row: &[u8], in_form: bool) -> Result<bool, Memory> {
    for (place, letter) in [(1, Letter::Less), (2, Letter::Equal), (3, Letter::Greater)] {
        if !shows(alloc, row, place, left(alloc, row, letter, in_form)?)? {
            return Ok(false);
        }
    }
    Ok(true)
}

/// An expression, and whether it has the empty word, a word, and a longer word.
pub(super) fn has_kind(alloc: Global, row: &[u8]) -> Result<bool, Memory> {
    let r = regex(alloc, word(row, 0))?;
    Ok(says(row, 1, nullable(&r)) && says(row, 2, has_word(&r)) && says(row, 3, has_longer(&r)))
}

fn is_word(alloc: Global, text: &[u8], word: &[Letter]) -> Result<bool, Memory> {
    member(alloc, &regex(alloc, text)?, word)
}

/// An expression, a word, and whether it is one of the expression's.
pub(super) fn has_word_told(alloc: Global, row: &[u8]) -> Result<bool, Memory> {
    Ok(says(
        row,
        2,
        is_word(alloc, word(row, 0), &letters(alloc, word(row, 1))?)?,
    ))
}

/// Rises, as many falls, and rises again, as far as the length goes.
fn slopes(alloc: Global, length: usize) -> Result<Vec<Letter>, Memory> {
    let mut word = Vec::new(alloc);
    for k in 0..length {
        let falls = 250 <= k && k < 500;
        word.push(if falls { Letter::Greater } else { Letter::Less })?;
    }
    Ok(word)
}

fn is_summit(alloc: Global, length: usize) -> Result<bool, Memory> {
    is_word(alloc, b"<<=<|*.<.|>>=>|*.>.|.", &slopes(alloc, length)?)
}

#[test]
fn long_words_of_summit(rt: HostRuntime) {
    assert!(rt; is_summit(rt.alloc(), 500) == Ok(true));
    assert!(rt; is_summit(rt.alloc(), 501) == Ok(false));
}
