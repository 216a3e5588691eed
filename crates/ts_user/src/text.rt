//! The pattern of a text that is read line by line, so that it takes the memory of what its lines so far state.

ghost use Rattle.std.specs.Prelude.{◌≡◌, ◌<◌, length, IfOk, OnOk};
ghost use Rattle.ts_base.specs.Limits.{too_many};
ghost use Rattle.ts_token.specs.Gist.{without_end};
ghost use Rattle.ts_token.specs.Text.{cut_of};
ghost use Rattle.ts_user.specs.LineByLine.{line_after};
ghost use Rattle.ts_user.specs.PatternReading.{is_alone, pattern_reading};
ghost use Rattle.ts_user.specs.Views.{stated_of, Gives, Reads, Tells, IsFit, IsSound};

use crate::draft::Draft;
use crate::user_pattern::UserPattern;
use crate::user_stop::{LineStop, UserKind, UserStop, at_line};
use std::alloc::Global;
use ts_base::first_line;
use ts_token::{Content, first_words, line_content};

/// No form has as many words: of a line with more, this many words decide which kind holds first.
const MOST_WORDS: usize = 6;

/// Whether the text has one line that isn't skipped, and is text up to its end.
fn is_alone(text: &[u8]) -> bool
    requires { length text.now < too_many }
    ensures { result ≡ is_alone (cut_of text.now) }
{
    let mut is_found = false;
    let mut rest = text;
    while !rest.is_empty() {
        let (line, left) = first_line(rest);
        match line_content(line) {
            Content::NotText => return false,
            Content::Skipped => {}
            Content::Words(_) if is_found => return false,
            Content::Words(_) => is_found = true,
        }
        rest = left;
    }
    is_found
}

/// Adds what a line says, which is given with its end, or gives the first kind that holds of it.
fn read_line(draft: &mut Draft, alloc: Global, line: &[u8]) -> Result<(), LineStop>
    requires sound { IsSound draft.old }
    requires short { length line.now < too_many }
    ensures taken { Gives (λ _. stated_of draft.new) result
        (line_after draft.old.alone (stated_of draft.old) (without_end line.now)) }
    ensures sound { OnOk result (IsSound draft.new) }
    ensures alone { OnOk result (draft.new.alone ≡ draft.old.alone) }
{
    match line_content(line) {
        Content::NotText => Err(LineStop::Bad(UserKind::NotText)),
        Content::Skipped => Ok(()),
        Content::Words(bare) => {
            let words = first_words(alloc, bare, 1, MOST_WORDS)?;
            draft.read_line(alloc, &words)
        }
    }
}

/// The pattern that a text of fewer than 4,000,000,000 bytes states, with its transducer; or its first bad line,
/// counted from 1, with the first kind that holds of it, what the whole text lacks being reported at the number of
/// its lines plus 1; or lack of memory. It takes no memory for a line that was read but for what the line states.
pub fn read_pattern_text(alloc: Global, text: &[u8]) -> Result<UserPattern, UserStop>
    requires { length text.now < too_many }
    ensures exact { Reads result (pattern_reading text.now) }
    ensures first { Tells (cut_of text.now) result }
    ensures fit { IfOk result IsFit }
{
    let mut draft = Draft::new(alloc, is_alone(text));
    let mut count = 0;
    let mut rest = text;
    while !rest.is_empty() {
        let (line, left) = first_line(rest);
        count += 1;
        match read_line(&mut draft, alloc, line) {
            Ok(()) => {}
            Err(stop) => return Err(at_line(count, stop)),
        }
        rest = left;
    }
    match draft.ended(alloc) {
        Ok(pattern) => Ok(pattern),
        Err(stop) => Err(at_line(count + 1, stop)),
    }
}
