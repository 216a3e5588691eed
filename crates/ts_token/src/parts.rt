//! A text before and after its first line `%%`.

ghost use Rattle.std.specs.Prelude.{◌≡◌, ◌<◌, length};
ghost use Rattle.ts_base.specs.Limits.{too_many};
ghost use Rattle.ts_token.specs.Halves.{is_mark, is_separator, halves_of};
ghost use Rattle.ts_token.specs.Text.{words_of};
ghost use Rattle.ts_token.specs.Views.{parts};

use crate::lines::{first_line, without_end};
use crate::words::next_word;

/// The bytes before the first line whose only word is `%%`, and the bytes after that line. Where there is no such line,
/// `model` is the whole text and `rest` is None.
#[derive(Clone, Copy, Debug)]
pub struct Parts<'a> {
    pub model: &'a [u8],
    pub rest: Option<&'a [u8]>,
}

/// Whether `%%` is the only word of a line, which is given without its end.
fn is_mark(line: &[u8]) -> bool
    requires { length line.now < too_many }
    ensures { result ≡ is_mark (words_of line.now) }
{
    match next_word(line, 1) {
        None => false,
        Some(first) => match next_word(first.rest, first.column) {
            Some(_) => false,
            None => first.word.text == b"%%".as_slice(),
        },
    }
}

/// Whether `%%` is the only word of a line, which is given with its end.
pub(crate) fn is_separator(line: &[u8]) -> bool
    requires some { 0 < length line.now }
    requires short { length line.now < too_many }
    ensures { result ≡ is_separator line.now }
{
    let (bare, _) = first_line(line);
    is_mark(bare)
}

/// The parts of a text of fewer than 4,000,000,000 bytes.
pub fn cut_parts<'a>(text: &'a [u8]) -> Parts<'a>
    requires { length text.now < too_many }
    ensures { parts result ≡ halves_of text.now }
{
    let mut at = 0;
    while at < text.len() {
        let (model, left) = text.split_at(at);
        let (line, rest) = ts_base::first_line(left);
        if is_mark(without_end(line)) {
            return Parts {
                model,
                rest: Some(rest),
            };
        }
        at += line.len();
    }
    Parts {
        model: text,
        rest: None,
    }
}
