//! One line, by where the certificate stands.

ghost use Rattle.std.specs.Prelude.{◌≡◌, ◌≢◌, Err};
ghost use Rattle.ts_base.specs.Words.{words_seen, more_seen};
ghost use Rattle.ts_certificate.specs.declared.stop.LineStop.{LineStop};
ghost use Rattle.ts_certificate.specs.Grammar.{SaysAim, SaysClaim, SaysSeries, SaysTree};
ghost use Rattle.ts_certificate.specs.HeadLines.{aim_of, claim_of, series_of};
ghost use Rattle.ts_certificate.specs.LineOf.{as_line, end_of, end_or_stop, tree_or_end, line_of_words, line_of};
ghost use Rattle.ts_certificate.specs.Reading.{WantsSeries};
ghost use Rattle.ts_certificate.specs.Seen.{line_seen, Gives};
ghost use Rattle.ts_certificate.specs.TreeLines.{tree_of};

use crate::certificate::{Aim, Parsed};
use crate::head::{aim_of, claim_of, series_of};
use crate::numbers::whole_of;
use crate::state::State;
use crate::stop::LineStop;
use crate::tree::tree_of;
use crate::words::two_words;
use std::alloc::Global;
use ts_base::{Words, without_lf, words_of};

/// The aim line.
fn aim_line(words: &Words<'_>) -> Result<Parsed, LineStop>
    ensures line { Gives line_seen result (as_line SaysAim (aim_of (words_seen words.now))) }
    ensures calm { result ≢ Err LineStop.Memory }
{
    match aim_of(words) {
        Some(aim) => Ok(Parsed::Aim(aim)),
        None => Err(LineStop::Grammar),
    }
}

/// The claim line after this aim.
fn claim_line(aim: Aim, words: &Words<'_>) -> Result<Parsed, LineStop>
    ensures line { Gives line_seen result (as_line SaysClaim (claim_of aim (words_seen words.now))) }
    ensures calm { result ≢ Err LineStop.Memory }
{
    match claim_of(aim, words) {
        Some(claim) => Ok(Parsed::Claim(claim)),
        None => Err(LineStop::Grammar),
    }
}

/// A series line.
fn series_line(alloc: Global, words: &Words<'_>) -> Result<Parsed, LineStop>
    ensures { Gives line_seen result (as_line SaysSeries (series_of (words_seen words.now))) }
{
    let values = series_of(alloc, words)?;
    Ok(Parsed::Series(values))
}

/// A tree line.
fn tree_line(words: &Words<'_>) -> Result<Parsed, LineStop>
    ensures line { Gives line_seen result (as_line SaysTree (tree_of (words_seen words.now))) }
    ensures calm { result ≢ Err LineStop.Memory }
{
    match tree_of(words) {
        Some(line) => Ok(Parsed::Tree(line)),
        None => Err(LineStop::Grammar),
    }
}

/// The two numbers after `end`.
fn end_of(rest: Option<&[u8]>) -> Option<(u64, u64)>
    ensures { result ≡ end_of (more_seen rest.entry) }
{
    let (checked, unsearched) = two_words(rest)?;
    Some((whole_of(checked)?, whole_of(unsearched)?))
}

/// An end line after so many tree lines, of which there has to be one.
fn end_or_stop(checked: u64, unsearched: u64, rest: Option<&[u8]>) -> Result<Parsed, LineStop>
    ensures line { Gives line_seen result (end_or_stop checked unsearched (end_of (more_seen rest.entry))) }
    ensures calm { result ≢ Err LineStop.Memory }
{
    match end_of(rest) {
        None => Err(LineStop::Grammar),
        Some((l, o)) => {
            if checked == 0 && unsearched == 0 {
                Err(LineStop::Grammar)
            } else if l != checked {
                Err(LineStop::Counts {
                    said: l,
                    found: checked,
                })
            } else if o != unsearched {
                Err(LineStop::Counts {
                    said: o,
                    found: unsearched,
                })
            } else {
                Ok(Parsed::End {
                    checked: l,
                    unsearched: o,
                })
            }
        }
    }
}

/// A tree line or the end line, after so many tree lines.
fn tree_or_end(checked: u64, unsearched: u64, words: &Words<'_>) -> Result<Parsed, LineStop>
    ensures line { Gives line_seen result (tree_or_end checked unsearched (words_seen words.now)) }
    ensures calm { result ≢ Err LineStop.Memory }
{
    if words.first == b"end".as_slice() {
        end_or_stop(checked, unsearched, words.rest)
    } else {
        tree_line(words)
    }
}

/// What these words say where the certificate stands.
fn line_of_words(alloc: Global, state: State, words: &Words<'_>) -> Result<Parsed, LineStop>
    ensures line { Gives line_seen result (line_of_words state (words_seen words.now)) }
    ensures want { result ≡ Err LineStop.Memory → WantsSeries state }
{
    match state {
        State::Start => aim_line(words),
        State::AfterAim(aim) => claim_line(aim, words),
        State::InSeries(_) => series_line(alloc, words),
        State::InTree {
            checked,
            unsearched,
        } => tree_or_end(checked, unsearched, words),
        State::AfterEnd => Err(LineStop::Grammar),
    }
}

/// What a line with its LF says where the certificate stands, or why it stops the reading.
pub(crate) fn line_of(alloc: Global, state: State, text: &[u8]) -> Result<Parsed, LineStop>
    ensures line { Gives line_seen result (line_of state text.now) }
    ensures want { result ≡ Err LineStop.Memory → WantsSeries state }
{
    match without_lf(text) {
        None => Err(LineStop::Grammar),
        Some(line) => {
            let words = words_of(line);
            line_of_words(alloc, state, &words)
        }
    }
}
