//! The words of a line: its bytes between blanks.

ghost use Rattle.std.specs.Prelude.{◌≡◌, ◌+◌, ◌<◌, ◌^◌, [], length, take, IfOk, IfNone, IfSome};
ghost use Rattle.std.specs.List.{position};
ghost use Rattle.std.specs.Str.{bytes_eq};
ghost use Rattle.ts_base.specs.Limits.{too_many};
ghost use Rattle.ts_token.specs.Text.{is_blank, words_of, words_from};
ghost use Rattle.ts_token.specs.Views.{pieces};
ghost use Rattle.ts_token.specs.Steps.{is_solid, IsNext};

use std::alloc::Global;
use ts_base::Memory;

/// A word, and the number of bytes before it in its line plus 1.
#[derive(Clone, Copy, Debug)]
pub struct Word<'a> {
    pub text: &'a [u8],
    pub column: u32,
}

/// A word, and the bytes after it with their column.
#[derive(Clone, Copy, Debug)]
pub struct NextWord<'a> {
    pub word: Word<'a>,
    pub rest: &'a [u8],
    pub column: u32,
}

/// Whether a word is the given one, byte for byte. Where words are told apart one after the other, a call takes less to
/// prove than a comparison.
pub fn is_word(word: &[u8], given: &[u8]) -> bool
    ensures { result ≡ bytes_eq word.now given.now }
{
    word == given
}

/// A space or a tab.
#[tactic(auto, unfolding(crate::specs::Text::is_blank))]
pub(crate) fn is_blank(b: u8) -> bool
    ensures { result ≡ is_blank b }
{
    b == b' ' || b == b'\t'
}

/// Where the first byte that is no blank stands.
fn solid_at(text: &[u8]) -> Option<usize>
    ensures { result ≡ position is_solid text.now }
{
    text.iter().position(|b| !is_blank(*b))
}

/// Where the first blank stands.
fn blank_at(text: &[u8]) -> Option<usize>
    ensures { result ≡ position is_blank text.now }
{
    text.iter().position(|b| is_blank(*b))
}

/// The first word of the bytes from a column on; the others are words of the bytes after it, from their column on.
pub fn next_word<'a>(rest: &'a [u8], column: u32) -> Option<NextWord<'a>>
    requires { column + length rest.now < 2 ^ 32 }
    ensures none { IfNone result (words_from column rest.now ≡ []) }
    ensures some { IfSome result (λ next. IsNext column rest.now next) }
{
    let blanks = solid_at(rest).unwrap_or(rest.len());
    let (_, rest) = rest.split_at(blanks);
    if rest.is_empty() {
        return None;
    }
    let column = column + blanks as u32;
    let len = blank_at(rest).unwrap_or(rest.len());
    let (text, rest) = rest.split_at(len);
    Some(NextWord {
        word: Word { text, column },
        rest,
        column: column + len as u32,
    })
}

/// All words of a line.
pub(crate) fn cut_words<'a>(alloc: Global, line: &'a [u8]) -> Result<Vec<Word<'a>>, Memory>
    requires { length line.now < too_many }
    ensures { IfOk result (λ words. pieces words.items ≡ words_of line.now) }
{
    let mut words = Vec::new(alloc);
    let mut rest = line;
    let mut column = 1;
    while let Some(next) = next_word(rest, column) {
        words.push(next.word)?;
        rest = next.rest;
        column = next.column;
    }
    Ok(words)
}

/// How many words the bytes from a column on have.
pub fn count_words(bytes: &[u8], column: u32) -> usize
    requires { column + length bytes.now < 2 ^ 32 }
    ensures { result ≡ length (words_from column bytes.now) }
{
    let mut count = 0;
    let mut rest = bytes;
    let mut at = column;
    while let Some(next) = next_word(rest, at) {
        count += 1;
        rest = next.rest;
        at = next.column;
    }
    count
}

/// The first words of the bytes from a column on, at most so many.
pub fn first_words<'a>(
    alloc: Global,
    bytes: &'a [u8],
    column: u32,
    most: usize,
) -> Result<Vec<Word<'a>>, Memory>
    requires { column + length bytes.now < 2 ^ 32 }
    ensures { IfOk result (λ words. pieces words.items ≡ take most (words_from column bytes.now)) }
{
    let mut words = Vec::new(alloc);
    let mut rest = bytes;
    let mut at = column;
    for _ in 0..most {
        match next_word(rest, at) {
            None => return Ok(words),
            Some(next) => {
                words.push(next.word)?;
                rest = next.rest;
                at = next.column;
            }
        }
    }
    Ok(words)
}
