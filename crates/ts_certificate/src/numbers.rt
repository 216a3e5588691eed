//! Numbers within their ranges.

ghost use Rattle.std.specs.Prelude.{◌≡◌};
ghost use Rattle.ts_certificate.specs.Ranges.{value_of, whole_of, count_of, cell_of, requirement_of};
ghost use Rattle.ts_certificate.specs.Ranges.{asked_of, listed_of};

use ts_base::limits::{CELL_VALUE, CELLS, LISTED, REQUIREMENTS};
use ts_token::number;

/// A value that a cell may have.
pub(crate) fn value_of(word: &[u8]) -> Option<i64>
    ensures { result ≡ value_of word.now }
{
    match number(word) {
        Some(v) if v >= -CELL_VALUE && v <= CELL_VALUE => Some(v),
        _ => None,
    }
}

/// A number of at least 0.
pub(crate) fn whole_of(word: &[u8]) -> Option<u64>
    ensures { result ≡ whole_of word.now }
{
    match number(word) {
        Some(n) if n >= 0 => Some(n as u64),
        _ => None,
    }
}

/// A number from `low` to `high`.
fn count_of(low: u32, high: u32, word: &[u8]) -> Option<u32>
    ensures { result ≡ count_of low high word.now }
{
    match whole_of(word) {
        Some(n) if n >= u64::from(low) && n <= u64::from(high) => Some(n as u32),
        _ => None,
    }
}

/// A cell, counted from 1.
pub(crate) fn cell_of(word: &[u8]) -> Option<u32>
    ensures { result ≡ cell_of word.now }
{
    count_of(1, CELLS as u32, word)
}

/// A requirement, counted from 1.
pub(crate) fn requirement_of(word: &[u8]) -> Option<u32>
    ensures { result ≡ requirement_of word.now }
{
    count_of(1, REQUIREMENTS as u32, word)
}

/// How many series are asked for.
pub(crate) fn asked_of(word: &[u8]) -> Option<u32>
    ensures { result ≡ asked_of word.now }
{
    count_of(1, LISTED, word)
}

/// How many series are listed.
pub(crate) fn listed_of(word: &[u8]) -> Option<u32>
    ensures { result ≡ listed_of word.now }
{
    count_of(0, LISTED, word)
}
