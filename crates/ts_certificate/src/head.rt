//! The first lines: the aim, the claim and the series.

ghost use Rattle.std.specs.Prelude.{◌≡◌, ok_or};
ghost use Rattle.ts_base.specs.Words.{words_seen, more_seen};
ghost use Rattle.ts_certificate.specs.declared.stop.LineStop.{LineStop};
ghost use Rattle.ts_certificate.specs.HeadLines.{list_from, aim_of, best_from, budget_from, best_claim_of};
ghost use Rattle.ts_certificate.specs.HeadLines.{count_from, list_claim_of, claim_of, values_of, series_of};
ghost use Rattle.ts_certificate.specs.Seen.{Gives};
ghost use Rattle.ts_certificate.specs.WordCounts.{one_of};

use crate::certificate::{Aim, Claim};
use crate::numbers::{asked_of, listed_of, value_of};
use crate::stop::LineStop;
use crate::words::{alone, one_word};
use std::alloc::Global;
use ts_base::{Goal, Words, words_of};
use ts_token::ext_of;

/// The word after `generate`: how many series are asked for.
fn list_of(rest: Option<&[u8]>) -> Option<Aim>
    ensures { result ≡ list_from (one_of (more_seen rest.entry)) }
{
    asked_of(one_word(rest)?).map(Aim::List)
}

/// The aim that these words are.
pub(crate) fn aim_of(words: &Words<'_>) -> Option<Aim>
    ensures { result ≡ aim_of (words_seen words.now) }
{
    if words.first == b"maximise".as_slice() {
        alone(words.rest, Aim::Best(Goal::Maximise))
    } else if words.first == b"minimise".as_slice() {
        alone(words.rest, Aim::Best(Goal::Minimise))
    } else if words.first == b"generate".as_slice() {
        list_of(words.rest)
    } else {
        None
    }
}

/// The word after `best`: the objective of the best series.
fn best_of(rest: Option<&[u8]>) -> Option<Claim>
    ensures { result ≡ best_from (one_of (more_seen rest.entry)) }
{
    ext_of(one_word(rest)?).map(Claim::Best)
}

/// The word after `budget` where a best series was asked for: the objective of the one that was found, if any.
fn budget_of(rest: Option<&[u8]>) -> Option<Claim>
    ensures { result ≡ budget_from (one_of (more_seen rest.entry)) }
{
    let word = one_word(rest)?;
    if word == b"none".as_slice() {
        Some(Claim::BudgetNone)
    } else {
        ext_of(word).map(Claim::BudgetBest)
    }
}

/// The claim after `maximise` or `minimise`.
fn best_claim_of(words: &Words<'_>) -> Option<Claim>
    ensures { result ≡ best_claim_of (words_seen words.now) }
{
    if words.first == b"best".as_slice() {
        best_of(words.rest)
    } else if words.first == b"infeasible".as_slice() {
        alone(words.rest, Claim::Infeasible)
    } else if words.first == b"budget".as_slice() {
        budget_of(words.rest)
    } else {
        None
    }
}

/// The word after the claim of a listing: how many series it lists.
fn count_from(rest: Option<&[u8]>) -> Option<u32>
    ensures { result ≡ count_from (one_of (more_seen rest.entry)) }
{
    listed_of(one_word(rest)?)
}

/// The claim after `generate`.
fn list_claim_of(words: &Words<'_>) -> Option<Claim>
    ensures { result ≡ list_claim_of (words_seen words.now) }
{
    if words.first == b"full".as_slice() {
        count_from(words.rest).map(Claim::Full)
    } else if words.first == b"all".as_slice() {
        count_from(words.rest).map(Claim::All)
    } else if words.first == b"budget".as_slice() {
        count_from(words.rest).map(Claim::BudgetList)
    } else {
        None
    }
}

/// The claim that these words are after this aim.
pub(crate) fn claim_of(aim: Aim, words: &Words<'_>) -> Option<Claim>
    ensures { result ≡ claim_of aim (words_seen words.now) }
{
    match aim {
        Aim::Best(_) => best_claim_of(words),
        Aim::List(_) => list_claim_of(words),
    }
}

/// The numbers after `series`, until the first word that is none.
fn values_of(alloc: Global, words: Option<&[u8]>) -> Result<Vec<i64>, LineStop>
    ensures { Gives (λ v. v.items) result (ok_or (values_of (more_seen words.entry)) LineStop.Grammar) }
{
    let mut values = Vec::new(alloc);
    let mut rest = words;
    while let Some(line) = rest {
        let words = words_of(line);
        match value_of(words.first) {
            None => return Err(LineStop::Grammar),
            Some(v) => values.push(v)?,
        }
        rest = words.rest;
    }
    Ok(values)
}

/// The numbers of a series line, at least one.
pub(crate) fn series_of(alloc: Global, words: &Words<'_>) -> Result<Vec<i64>, LineStop>
    ensures { Gives (λ v. v.items) result (ok_or (series_of (words_seen words.now)) LineStop.Grammar) }
{
    if words.first != b"series".as_slice() {
        return Err(LineStop::Grammar);
    }
    let values = values_of(alloc, words.rest)?;
    if values.is_empty() {
        return Err(LineStop::Grammar);
    }
    Ok(values)
}
