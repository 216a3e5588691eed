//! The lines of a text, with their numbers and words.

ghost use Rattle.std.specs.Prelude.{◌≡◌, ◌<◌, ◌≤◌, length, IfOk, OnOk};
ghost use Rattle.ts_base.specs.Limits.{too_many};
ghost use Rattle.ts_token.specs.Text.{cut_of};
ghost use Rattle.ts_token.specs.Views.{rows, cut_view};
ghost use Rattle.ts_token.specs.Slices.{AreSlices};
ghost use Rattle.ts_token.specs.Steps.{with_line};

use crate::content::{Content, content_of};
use crate::lines::first_line;
use crate::words::{Word, cut_words};
use std::alloc::Global;
use ts_base::Memory;

/// A line by its number, counted from 1, with its words; it has one at least.
#[derive(Drop)]
pub struct Line<'a> {
    pub number: u32,
    pub words: Vec<Word<'a>>,
}

/// The unskipped lines before the first line that isn't text, the number of all lines, and that line's number.
#[derive(Drop)]
pub struct Tokens<'a> {
    pub lines: Vec<Line<'a>>,
    pub count: u32,
    pub not_text: Option<u32>,
}

/// Counts one more line, and keeps it if it belongs to the tokens.
fn take_line<'a>(alloc: Global, tokens: &mut Tokens<'a>, line: &'a [u8]) -> Result<(), Memory>
    requires short { length line.now < too_many }
    requires room { tokens.old.count < too_many }
    ensures { OnOk result (cut_view tokens.new ≡ with_line (cut_view tokens.old) line.now) }
{
    tokens.count += 1;
    if tokens.not_text.is_some() {
        return Ok(());
    }
    match content_of(line) {
        Content::NotText => tokens.not_text = Some(tokens.count),
        Content::Skipped => {}
        Content::Words(_) => {
            let words = cut_words(alloc, line)?;
            tokens.lines.push(Line {
                number: tokens.count,
                words,
            })?;
        }
    }
    Ok(())
}

/// The lines and words of a text of fewer than 4,000,000,000 bytes, in time in proportion to it; each word is lent from
/// the text.
pub fn cut_tokens<'a>(alloc: Global, text: &'a [u8]) -> Result<Tokens<'a>, Memory>
    requires { length text.now < too_many }
    ensures tokens { IfOk result (λ tokens. cut_view tokens ≡ cut_of text.now) }
    ensures slices { IfOk result (λ tokens. AreSlices text.now (rows tokens.lines.items)) }
    ensures counted { IfOk result (λ tokens. tokens.count ≤ length text.now) }
{
    let mut tokens = Tokens {
        lines: Vec::new(alloc),
        count: 0,
        not_text: None,
    };
    let mut rest = text;
    while !rest.is_empty() {
        let (line, after) = first_line(rest);
        take_line(alloc, &mut tokens, line)?;
        rest = after;
    }
    Ok(tokens)
}
