//! The series of a text.

ghost use Rattle.std.specs.Prelude.{◌≡◌, ok_or};
ghost use Rattle.std.specs.Option.{option_map};
ghost use Rattle.ts_token.specs.Views.{cut_view};
ghost use Rattle.ts_model.specs.declared.error.SeriesStop.{SeriesStop};
ghost use Rattle.ts_model.specs.Series.{is_series, after_series, value_of, values_of, series_words, ReadsSeries};
ghost use Rattle.ts_model.specs.Series.{any_series_reading, series_reading, series_within};
ghost use Rattle.ts_model.specs.Views.{texts};

use crate::error::SeriesStop;
use std::alloc::Global;
use ts_base::limits::{CELL_VALUE, CELLS};
use ts_token::{Tokens, Word, number};

/// Whether the word is `series`.
#[tactic(auto, unfolding(crate::specs::Series::is_series))]
fn is_series(word: &[u8]) -> bool
    ensures { result ≡ is_series word.now }
{
    word == b"series".as_slice()
}

/// The word as a number from -1,000,000 to 1,000,000, if it is one.
#[tactic(auto, unfolding(crate::specs::Series::value_of))]
pub fn value_of(word: &[u8]) -> Option<i64>
    ensures { result ≡ value_of word.now }
{
    match number(word) {
        Some(v) if v >= -CELL_VALUE && v <= CELL_VALUE => Some(v),
        _ => None,
    }
}

/// The words after a first word `series`.
fn after_series<'t, 'a>(words: &'t [Word<'a>]) -> Option<&'t [Word<'a>]>
    ensures { option_map (λ ws. texts ws.now) result ≡ after_series (texts words.now) }
{
    match words.split_first() {
        Some((first, rest)) if is_series(first.text) => Some(rest),
        _ => None,
    }
}

/// The words after `series`, if the text is that one line.
fn series_words<'t, 'a>(tokens: &'t Tokens<'a>) -> Option<&'t [Word<'a>]>
    ensures { option_map (λ ws. texts ws.now) result ≡ series_words (cut_view tokens.now)
        (cut_view tokens.now).not_text }
{
    if tokens.not_text.is_some() {
        return None;
    }
    match tokens.lines.as_slice() {
        [line] => after_series(&line.words),
        _ => None,
    }
}

/// The numbers that the words are.
fn values_of(alloc: Global, words: &[Word]) -> Result<Vec<i64>, SeriesStop>
    ensures { ReadsSeries (λ v. v.items) result (ok_or (values_of (texts words.now)) SeriesStop.Number) }
{
    let mut values = Vec::new(alloc);
    for word in words {
        match value_of(word.text) {
            None => return Err(SeriesStop::Number),
            Some(v) => values.push(v)?,
        }
    }
    Ok(values)
}

/// The numbers of the one line `series` of a text, at least `least` and at most `most` of them.
fn read_within(
    alloc: Global,
    tokens: &Tokens<'_>,
    least: usize,
    most: usize,
) -> Result<Vec<i64>, SeriesStop>
    ensures { ReadsSeries (λ v. v.items) result (series_within least most (cut_view tokens.now)) }
{
    match series_words(tokens) {
        None => Err(SeriesStop::Shape),
        Some(words) => {
            let values = values_of(alloc, words)?;
            if least <= values.len() && values.len() <= most {
                Ok(values)
            } else {
                Err(SeriesStop::Length)
            }
        }
    }
}

/// The `n` numbers of a text whose one unskipped line is `series` and numbers from -1,000,000 to 1,000,000; else
/// the first that holds: `Shape` where it isn't one such line, `Number` where a word isn't such a number, `Length`
/// where there aren't `n`.
pub fn read_series(alloc: Global, tokens: &Tokens<'_>, n: u32) -> Result<Vec<i64>, SeriesStop>
    ensures { ReadsSeries (λ v. v.items) result (series_reading n (cut_view tokens.now)) }
{
    read_within(alloc, tokens, n as usize, n as usize)
}

/// The numbers of a series line, 1 to 512 of them, where no model says how many; else the first of the refusals of
/// `read_series` that holds: `Length` where there are more, or none.
pub fn read_any_series(alloc: Global, tokens: &Tokens<'_>) -> Result<Vec<i64>, SeriesStop>
    ensures { ReadsSeries (λ v. v.items) result (any_series_reading (cut_view tokens.now)) }
{
    read_within(alloc, tokens, 1, CELLS)
}
