//! The unfinished line of a certificate, in few bytes.

ghost use Rattle.std.specs.Prelude.{◌≡◌, ◌++◌, ◌<◌, ◌==◌, [], ◌∷◌, IfOk, MatchOption, None, OnErr, OnOk, Some};
ghost use Rattle.std.specs.Prelude.{is_some, length};
ghost use Rattle.ts_base.specs.Words.{all_words, words_of};
ghost use Rattle.ts_certificate.specs.Ranges.{value_of};
ghost use Rattle.ts_checker.specs.Shortened.{Extends, IsSmall, Shortens, open_behind, open_number, series_of_zeros};
ghost use Rattle.ts_checker.specs.Shortened.{zeros};

use std::alloc::Global;
use ts_base::limits::{CELL_VALUE, CELLS};
use ts_base::{Memory, words_of};
use ts_token::number;

/// The most bytes of a line that are kept. A longer line is against the grammar, or a series of more numbers than a
/// model has cells.
const LONGEST: usize = 4_615;

/// The most bytes of a number of a series.
const LONGEST_NUMBER: usize = 8;

/// What is kept of a line before its LF: all bytes, or, if the line is longer than any that may fit a model, a few
/// bytes that are judged as all of them are, whatever follows.
#[derive(Drop)]
pub(crate) struct CertificateLine {
    pub alloc: Global,
    pub bytes: Vec<u8>,
}

impl CertificateLine {
    /// A line before its first byte.
    pub(crate) fn new(alloc: Global) -> CertificateLine
        ensures { result.bytes.items ≡ [] }
    {
        CertificateLine {
            alloc,
            bytes: Vec::new(alloc),
        }
    }

    /// Takes more bytes of the line, none of which is its LF.
    pub(crate) fn feed(&mut self, part: &[u8]) -> Result<(), Memory>
        ensures extends { OnOk result (Extends self.old.bytes.items part.now self.new.bytes.items) }
        ensures small { OnOk result (IsSmall self.new.bytes.items) }
    {
        self.bytes.extend_from_slice(part)?;
        if self.bytes.len() > LONGEST {
            self.bytes = shortened(self.alloc, &self.bytes)?;
        }
        Ok(())
    }

    /// Ends the line with its LF.
    pub(crate) fn end(&mut self) -> Result<(), Memory>
        ensures ok { OnOk result (self.new.bytes.items ≡ self.old.bytes.items ++ 10 ∷ []) }
        ensures err { OnErr result (self.new.bytes.items ≡ self.old.bytes.items) }
    {
        self.bytes.push(b'\n')?;
        Ok(())
    }

    /// Whether no byte was taken.
    pub(crate) fn is_empty(&self) -> bool
        ensures { result ≡ (length self.now.bytes.items == 0) }
    {
        self.bytes.is_empty()
    }

    /// Begins the next line.
    pub(crate) fn clear(&mut self)
        ensures { self.new.bytes.items ≡ [] }
    {
        self.bytes.clear();
    }
}

/// A few bytes in place of a long line: the number at which a series goes on, after more numbers than a model has
/// cells; or a byte with which no line begins.
fn shortened(alloc: Global, line: &[u8]) -> Result<Vec<u8>, Memory>
    requires { 4615 < length line.now }
    ensures shortens { IfOk result (λ short. Shortens line.now short.items) }
    ensures small { IfOk result (λ short. IsSmall short.items) }
{
    match open_number(line) {
        Some(open) => {
            let mut short = zeros(alloc, CELLS + 1)?;
            short.extend_from_slice(open)?;
            Ok(short)
        }
        None => {
            let mut short = Vec::new(alloc);
            short.push(b'?')?;
            Ok(short)
        }
    }
}

/// A series line of `count` zeros, with the space after the last.
fn zeros(alloc: Global, count: usize) -> Result<Vec<u8>, Memory>
    ensures { IfOk result (λ line. line.items ≡ series_of_zeros count) }
{
    let mut line = Vec::new(alloc);
    line.extend_from_slice(b"series ")?;
    for _ in 0..count {
        line.extend_from_slice(b"0 ")?;
    }
    Ok(line)
}

/// The number of a series line at which it may go on; none if the line can't be a series any more.
fn open_number<'a>(line: &'a [u8]) -> Option<&'a [u8]>
    ensures { MatchOption result (open_number (words_of line.now) ≡ None)
        (λ word. open_number (words_of line.now) ≡ Some word.now) }
{
    let words = words_of(line);
    if words.first != b"series".as_slice() {
        return None;
    }
    open_word(words.rest?)
}

/// The last of some words, where all before it are numbers of a series.
fn open_word<'a>(line: &'a [u8]) -> Option<&'a [u8]>
    ensures { MatchOption result (open_behind (all_words (words_of line.now)) ≡ None)
        (λ word. open_behind (all_words (words_of line.now)) ≡ Some word.now) }
{
    let mut words = words_of(line);
    while let Some(rest) = words.rest {
        if !is_value(words.first) {
            return None;
        }
        words = words_of(rest);
    }
    if words.first.len() <= LONGEST_NUMBER {
        Some(words.first)
    } else {
        None
    }
}

/// Whether the word is a number that a cell may have.
fn is_value(word: &[u8]) -> bool
    ensures { result ≡ is_some (value_of word.now) }
{
    match number(word) {
        Some(v) => v >= -CELL_VALUE && v <= CELL_VALUE,
        None => false,
    }
}
