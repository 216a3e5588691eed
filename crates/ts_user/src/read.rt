//! The pattern of a text, or the first bad line with the first kind that holds of it.

ghost use Rattle.std.specs.Prelude.{◌≡◌, ◌<◌, IfOk};
ghost use Rattle.ts_base.specs.Limits.{too_many};
ghost use Rattle.ts_token.specs.Views.{rows, cut_view};
ghost use Rattle.ts_user.specs.Stated.{nothing};
ghost use Rattle.ts_user.specs.PatternReading.{is_alone, read_rows, pattern_in};
ghost use Rattle.ts_user.specs.Views.{at_line, Drafts, Reads, Tells, IsFit, IsSound};

use crate::draft::Draft;
use crate::user_pattern::UserPattern;
use crate::user_stop::{UserKind, UserStop, at_line};
use std::alloc::Global;
use ts_token::{Line, Tokens};

/// What the lines state, or the first bad one; `alone` says whether the text has one line alone.
fn read_lines(alloc: Global, alone: bool, lines: &[Line]) -> Result<Draft, UserStop>
    ensures rows { Drafts result (read_rows alone nothing (rows lines.now)) }
    ensures sound { IfOk result IsSound }
{
    let mut draft = Draft::new(alloc, alone);
    for line in lines {
        match draft.read_line(alloc, &line.words) {
            Ok(()) => {}
            Err(stop) => return Err(at_line(line.number, stop)),
        }
    }
    Ok(draft)
}

/// Whether the text has one line that isn't skipped.
fn is_alone(tokens: &Tokens) -> bool
    ensures { result ≡ is_alone (cut_view tokens.now) }
{
    tokens.lines.len() == 1 && tokens.not_text.is_none()
}

/// The pattern that a text of fewer than 4,000,000,000 lines states, and the transducer beside it: one of the
/// catalogue, or the expression, the trims and the states of its lines. Each word of the pattern has at least `b + a`
/// letters, and at least one, and the moves fit the kinds of their states; that the transducer finds the occurrences
/// isn't known yet.
///
/// Else it is refused: at its first bad line, counted from 1, with the first kind that holds of it; where no line is
/// bad, at the number of its lines plus 1, with the first of `Missing`, `ShortWord` and `Typing` that holds. `Memory`
/// may come in the place of any answer.
pub fn read_pattern(alloc: Global, tokens: &Tokens<'_>) -> Result<UserPattern, UserStop>
    requires { tokens.now.count < too_many }
    ensures exact { Reads result (pattern_in (cut_view tokens.now)) }
    ensures first { Tells (cut_view tokens.now) result }
    ensures fit { IfOk result IsFit }
{
    let draft = read_lines(alloc, is_alone(tokens), &tokens.lines)?;
    if let Some(line) = tokens.not_text {
        let kind = UserKind::NotText;
        return Err(UserStop::Refused { line, kind });
    }
    match draft.ended(alloc) {
        Ok(pattern) => Ok(pattern),
        Err(stop) => Err(at_line(tokens.count + 1, stop)),
    }
}
