//! A line by its only word.

ghost use Rattle.std.specs.Prelude.{◌<◌, length};
ghost use Rattle.ts_base.specs.Limits.{too_many};
ghost use Rattle.ts_token.specs.Gist.{without_end};
ghost use Rattle.ts_token.specs.Singles.{IsSingle};

use crate::content::is_text;
use crate::lines::first_line;
use crate::words::next_word;

/// A line that isn't text, one that is skipped, the only word of another one, or one of more words.
#[derive(Clone, Copy, Debug)]
pub enum Single<'a> {
    NotText,
    Skipped,
    Word(&'a [u8]),
    More,
}

/// What a line of fewer than 4,000,000,000 bytes has for its only word; it is given with its LF, which a last line may
/// lack. Nothing is allocated.
pub fn single_word<'a>(line: &'a [u8]) -> Single<'a>
    requires { length line.now < too_many }
    ensures { IsSingle result (without_end line.now) }
{
    if line.is_empty() {
        return Single::Skipped;
    }
    let (bare, _) = first_line(line);
    single_of(bare)
}

/// What a line without its end has for its only word.
fn single_of<'a>(line: &'a [u8]) -> Single<'a>
    requires { length line.now < too_many }
    ensures { IsSingle result line.now }
{
    if !is_text(line) {
        return Single::NotText;
    }
    let Some(first) = next_word(line, 1) else {
        return Single::Skipped;
    };
    if first.word.text.first() == Some(&b'#') {
        return Single::Skipped;
    }
    match next_word(first.rest, first.column) {
        None => Single::Word(first.word.text),
        Some(_) => Single::More,
    }
}
