//! The texts of the refusals.

ghost use Rattle.std.specs.Prelude.{◌≡◌, ◌++◌, Err, IfOk, OnOk, map};
ghost use Rattle.ts_run.specs.Refusals.{OnSeries, kind_word, refused_line, refused_model, refused_series, refused_window};
ghost use Rattle.ts_run.specs.Refusals.{refused_closure, refused_pattern, refused_toomany, sign_of, user_kind_word};
ghost use Rattle.ts_run.specs.Replies.{NoMore, TellsStop};
ghost use Rattle.ts_run.specs.Reply.{ComesOfInput, reply_of};

use crate::reply::Reply;
use crate::status::Status;
use std::alloc::Global;
use ts_base::{Letter, Memory, push_number};
use ts_model::{ModelKind, SeriesStop};
use ts_user::{BuildStop, UserKind};

/// The kind of a bad line, as it is printed.
fn kind_word(kind: ModelKind) -> &'static [u8]
    ensures { result.now ≡ kind_word kind }
{
    match kind {
        ModelKind::NotText => b"nottext",
        ModelKind::UnknownLine => b"unknownline",
        ModelKind::Shape => b"shape",
        ModelKind::Number => b"number",
        ModelKind::NoCells => b"nocells",
        ModelKind::CellsTwice => b"cellstwice",
        ModelKind::CellRange => b"cellrange",
        ModelKind::Empty => b"empty",
        ModelKind::UnknownName => b"unknownname",
        ModelKind::BadPair => b"badpair",
        ModelKind::UnknownTerm => b"unknownterm",
        ModelKind::TermTwice => b"termtwice",
        ModelKind::ObjectiveTwice => b"objectivetwice",
        ModelKind::Limit => b"limit",
        ModelKind::NoObjective => b"noobjective",
    }
}

/// The refusal of a model at its first bad line.
pub fn refused_model(alloc: Global, line: u32, kind: ModelKind) -> Result<Reply, Memory>
    ensures { IfOk result (λ r. reply_of r ≡ refused_model line kind) }
{
    refused_line(alloc, b"refused model line ", line, kind_word(kind))
}

/// The refusal of a text at a line, by these words, its number and the word of its kind.
fn refused_line(alloc: Global, words: &[u8], line: u32, kind: &[u8]) -> Result<Reply, Memory>
    ensures { IfOk result (λ r. reply_of r ≡ refused_line words.now line kind.now) }
{
    let mut text = Vec::from_slice(alloc, words)?;
    push_number(&mut text, i64::from(line))?;
    text.push(b' ')?;
    text.extend_from_slice(kind)?;
    text.push(b'\n')?;
    let status = Status::Refused;
    Ok(Reply { text, status })
}

/// The refusal of a window, where all readings are asked for.
pub(crate) fn refused_window(alloc: Global) -> Result<Reply, Memory>
    ensures { IfOk result (λ r. reply_of r ≡ refused_window) }
{
    let text = Vec::from_slice(alloc, b"refused window\n")?;
    let status = Status::Refused;
    Ok(Reply { text, status })
}

/// The refusal of a series, by what is wrong with it.
pub fn refused_series(alloc: Global, stop: SeriesStop) -> Result<Reply, Memory>
    ensures reply { IfOk result (λ r. OnSeries (Err stop) NoMore (reply_of r)) }
    ensures status { IfOk result (λ r. ComesOfInput r.status) }
{
    match stop {
        SeriesStop::Shape => series_reply(alloc, b"shape"),
        SeriesStop::Number => series_reply(alloc, b"number"),
        SeriesStop::Length => series_reply(alloc, b"length"),
        SeriesStop::Memory => Err(Memory),
    }
}

/// The words with what is wrong with a series.
fn series_reply(alloc: Global, word: &[u8]) -> Result<Reply, Memory>
    ensures { IfOk result (λ r. reply_of r ≡ refused_series word.now) }
{
    let mut text = Vec::from_slice(alloc, b"refused series ")?;
    text.extend_from_slice(word)?;
    text.push(b'\n')?;
    let status = Status::Refused;
    Ok(Reply { text, status })
}

/// The kind of a bad line of a pattern text, as it is printed.
fn user_kind_word(kind: UserKind) -> &'static [u8]
    ensures { result.now ≡ user_kind_word kind }
{
    match kind {
        UserKind::NotText => b"nottext",
        UserKind::UnknownLine => b"unknownline",
        UserKind::Shape => b"shape",
        UserKind::Expression => b"expression",
        UserKind::Number => b"number",
        UserKind::Twice => b"twice",
        UserKind::UnknownName => b"unknownname",
        UserKind::Limit => b"limit",
        UserKind::Missing => b"missing",
        UserKind::ShortWord => b"shortword",
        UserKind::Typing => b"typing",
    }
}

/// The refusal of a pattern text at its first bad line.
pub fn refused_pattern(alloc: Global, line: u32, kind: UserKind) -> Result<Reply, Memory>
    ensures { IfOk result (λ r. reply_of r ≡ refused_pattern line kind) }
{
    refused_line(alloc, b"refused pattern line ", line, user_kind_word(kind))
}

/// A letter as its sign.
fn sign_of(letter: Letter) -> u8
    ensures { result ≡ sign_of letter }
{
    match letter {
        Letter::Less => b'<',
        Letter::Equal => b'=',
        Letter::Greater => b'>',
    }
}

/// Appends the sign of each letter.
fn push_signs(text: &mut Vec<u8>, signature: &[Letter]) -> Result<(), Memory>
    ensures { OnOk result (text.new.items ≡ text.old.items ++ map sign_of signature.now) }
{
    for letter in signature {
        text.push(sign_of(*letter))?;
    }
    Ok(())
}

/// The refusal of a plan by the signature on whose last letter a check fails.
fn refused_closure(alloc: Global, signature: &[Letter]) -> Result<Reply, Memory>
    ensures { IfOk result (λ r. reply_of r ≡ refused_closure signature.now) }
{
    let mut text = Vec::from_slice(alloc, b"refused closure ")?;
    push_signs(&mut text, signature)?;
    text.push(b'\n')?;
    let status = Status::Refused;
    Ok(Reply { text, status })
}

/// The refusal of a plan that would have more than 512 configurations.
fn refused_toomany(alloc: Global) -> Result<Reply, Memory>
    ensures { IfOk result (λ r. reply_of r ≡ refused_toomany) }
{
    let text = Vec::from_slice(alloc, b"refused toomany\n")?;
    let status = Status::Refused;
    Ok(Reply { text, status })
}

/// Why no plan was built, in words.
pub fn refused_plan(alloc: Global, stop: BuildStop) -> Result<Reply, Memory>
    ensures reply { IfOk result (λ r. TellsStop stop (reply_of r)) }
    ensures status { IfOk result (λ r. ComesOfInput r.status) }
{
    match stop {
        BuildStop::Refused { signature } => refused_closure(alloc, &signature),
        BuildStop::TooMany => refused_toomany(alloc),
        BuildStop::Memory => Err(Memory),
    }
}
