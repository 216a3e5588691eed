//! What a line says, from its words alone.

ghost use Rattle.std.specs.Prelude.{◌≡◌};
ghost use Rattle.ts_user.specs.declared.words.Form.{Form};
ghost use Rattle.ts_user.specs.Words.{pattern_of};
ghost use Rattle.ts_user.specs.Statement.{parsed_by, meaning_in};
ghost use Rattle.ts_user.specs.Views.{texts, meaning_of, Gives};

use crate::expression::expression_of;
use crate::stated::Trims;
use crate::statement::{MoveParts, Statement};
use crate::user_stop::{LineStop, UserKind};
use crate::words::{Form, form_of, kind_of, letter_name, phase_of, sign_of, text_at, trim_of};
use std::alloc::Global;
use ts_pattern::{PatternId, pattern_of};
use ts_token::Word;

/// The pattern with the name that the only word is.
fn pattern_named(word: &[u8]) -> Option<PatternId>
    ensures { result ≡ pattern_of word.now }
{
    pattern_of(word)
}

/// What a `catalogue` line says.
fn parse_catalogue(words: &[Word]) -> Result<Statement, LineStop>
    ensures { Gives meaning_of result (parsed_by Form.Catalogue (texts words.now)) }
{
    if words.len() != 1 {
        return Err(LineStop::Bad(UserKind::Shape));
    }
    Ok(Statement::Catalogue(pattern_named(text_at(words, 0))))
}

/// What a `pattern` line says.
fn parse_pattern(alloc: Global, words: &[Word]) -> Result<Statement, LineStop>
    ensures { Gives meaning_of result (parsed_by Form.Pattern (texts words.now)) }
{
    if words.len() != 1 {
        return Err(LineStop::Bad(UserKind::Shape));
    }
    match expression_of(alloc, text_at(words, 0))? {
        Some(part) => Ok(Statement::Pattern(part)),
        None => Err(LineStop::Bad(UserKind::Expression)),
    }
}

/// What a `trim` line says.
fn parse_trim(words: &[Word]) -> Result<Statement, LineStop>
    ensures { Gives meaning_of result (parsed_by Form.Trim (texts words.now)) }
{
    if words.len() != 2 {
        return Err(LineStop::Bad(UserKind::Shape));
    }
    match (trim_of(2, text_at(words, 0)), trim_of(1, text_at(words, 1))) {
        (Some(before), Some(after)) => Ok(Statement::Trim(Trims { before, after })),
        _ => Err(LineStop::Bad(UserKind::Number)),
    }
}

/// What a `state` line says.
fn parse_state(words: &[Word]) -> Result<Statement, LineStop>
    ensures { Gives meaning_of result (parsed_by Form.State (texts words.now)) }
{
    if words.len() != 2 {
        return Err(LineStop::Bad(UserKind::Shape));
    }
    match letter_name(text_at(words, 0)) {
        Some(name) => Ok(Statement::State {
            name,
            kind: kind_of(text_at(words, 1)),
        }),
        None => Err(LineStop::Bad(UserKind::Shape)),
    }
}

/// What a `move` line says.
fn parse_move(words: &[Word]) -> Result<Statement, LineStop>
    ensures { Gives meaning_of result (parsed_by Form.Move (texts words.now)) }
{
    if words.len() != 4 {
        return Err(LineStop::Bad(UserKind::Shape));
    }
    match (
        letter_name(text_at(words, 0)),
        letter_name(text_at(words, 3)),
    ) {
        (Some(from), Some(to)) => Ok(Statement::Move(MoveParts {
            from,
            sign: sign_of(text_at(words, 1)),
            phase: phase_of(text_at(words, 2)),
            to,
        })),
        _ => Err(LineStop::Bad(UserKind::Shape)),
    }
}

/// What the words of a line say.
pub(crate) fn parse(alloc: Global, words: &[Word]) -> Result<Statement, LineStop>
    ensures { Gives meaning_of result (meaning_in (texts words.now)) }
{
    match words.split_first() {
        None => Err(LineStop::Bad(UserKind::UnknownLine)),
        Some((first, rest)) => match form_of(first.text) {
            None => Err(LineStop::Bad(UserKind::UnknownLine)),
            Some(Form::Catalogue) => parse_catalogue(rest),
            Some(Form::Pattern) => parse_pattern(alloc, rest),
            Some(Form::Trim) => parse_trim(rest),
            Some(Form::State) => parse_state(rest),
            Some(Form::Move) => parse_move(rest),
        },
    }
}
