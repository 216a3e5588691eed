//! Rows of a table that is one literal: a row is a line, and one blank stands between two words of it.

use std::alloc::Global;
use ts_base::{Memory, words_of};

/// A word of a row, counted from 0; empty where there are fewer.
pub(super) fn word(row: &[u8], place: usize) -> &[u8] {
    let mut words = words_of(row);
    for _ in 0..place {
        words = words_of(words.rest.unwrap_or(b""));
    }
    words.first
}

/// What stands before the first `|` of a row, and what stands after it. None where there is no `|`.
pub(super) fn halves(row: &[u8]) -> Option<(&[u8], &[u8])> {
    for k in 0..row.len() {
        if row[k] == b'|' {
            return Some((&row[..k], &row[k + 1..]));
        }
    }
    None
}

/// The text that a row writes with `/` for LF.
pub(super) fn text_of(alloc: Global, written: &[u8]) -> Result<Vec<u8>, Memory> {
    let mut text = Vec::new(alloc);
    for byte in written {
        text.push(if *byte == b'/' { b'\n' } else { *byte })?;
    }
    Ok(text)
}
