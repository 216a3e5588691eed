//! The rules of the lines around the tree: the aim, the claim, the series, and the end.

ghost use Rattle.std.specs.Prelude.{◌≡◌, ◌↔◌, IfOk, IsTrue, Some};
ghost use Rattle.std.specs.List.{AllByRecursion};
ghost use Rattle.ts_base.specs.Limits.{IsCellValue};
ghost use Rattle.ts_domain.specs.BoxSeries.{IsBefore};
ghost use Rattle.ts_filter.specs.Accepts.{AimFits, AllReported, ClaimFits, ComesAfter, IsAsClaimed, SeriesFits};
ghost use Rattle.ts_model.specs.Meets.{values_on};
ghost use Rattle.ts_model.specs.Promise.{IsWhole};
ghost use Rattle.ts_model.specs.Views.{model_parts};
ghost use Rattle.ts_checker.specs.Subjects.{series_of, value_in};

use std::alloc::Global;
use ts_base::{Ext, Memory};
use ts_certificate::{Aim, Claim};
use ts_compile::judge;
use ts_model::Model;

/// Whether the aim fits the model: after `maximise` and `minimise` the model has an objective.
pub(crate) fn aim_fits(model: &Model, aim: Aim) -> bool
    ensures { IsTrue result ↔ AimFits (model_parts model.now) aim }
{
    match aim {
        Aim::Best(_) => model.objective.is_some(),
        Aim::List(_) => true,
    }
}

/// Whether the claim is one of its aim, and its count is what was requested, or below.
pub(crate) fn claim_fits(aim: Aim, claim: Claim) -> bool
    ensures { IsTrue result ↔ ClaimFits aim claim }
{
    match (aim, claim) {
        (Aim::Best(_), Claim::Best(_)) => true,
        (Aim::Best(_), Claim::Infeasible) => true,
        (Aim::Best(_), Claim::BudgetBest(_)) => true,
        (Aim::Best(_), Claim::BudgetNone) => true,
        (Aim::List(asked), Claim::Full(count)) => count == asked,
        (Aim::List(asked), Claim::All(count)) => count < asked,
        (Aim::List(asked), Claim::BudgetList(count)) => count < asked,
        _ => false,
    }
}

/// Whether the series meets the model, and is as the claim says after those before.
pub(crate) fn series_fits(
    alloc: Global,
    model: &Model,
    claim: Claim,
    before: &[Vec<i64>],
    series: &[i64],
) -> Result<bool, Memory>
    requires whole { IsWhole (model_parts model.now) }
    requires values { AllByRecursion IsCellValue series.now }
    ensures { IfOk result (λ fits. IsTrue fits
        ↔ SeriesFits (model_parts model.now) claim (series_of before.now) series.now) }
{
    if series.len() != model.cells.len() {
        return Ok(false);
    }
    let judgement = judge(alloc, model, series)?;
    Ok(judgement.meets() && is_as_claimed(model, claim, &judgement.values, before, series))
}

/// Whether the series has the claimed objective, if these are the values of its terms, or comes after those before.
fn is_as_claimed(
    model: &Model,
    claim: Claim,
    values: &[Ext],
    before: &[Vec<i64>],
    series: &[i64],
) -> bool
    requires { values.now ≡ values_on (model_parts model.now) series.now }
    ensures { IsTrue result ↔ IsAsClaimed (model_parts model.now) claim (series_of before.now) series.now }
{
    match claim {
        Claim::Best(value) | Claim::BudgetBest(value) => is_value(model.objective, values, value),
        Claim::Infeasible | Claim::BudgetNone => true,
        Claim::Full(_) | Claim::All(_) | Claim::BudgetList(_) => comes_after(before, series),
    }
}

/// Whether there is an objective, and this is its value.
fn is_value(objective: Option<u32>, values: &[Ext], value: Ext) -> bool
    ensures { IsTrue result ↔ (value_in values.now objective ≡ Some value) }
{
    match objective {
        Some(term) => match values.get(term as usize) {
            Some(found) => *found == value,
            None => false,
        },
        None => false,
    }
}

/// Whether the last of the series before, if there is one, comes earlier.
fn comes_after(before: &[Vec<i64>], series: &[i64]) -> bool
    ensures { IsTrue result ↔ ComesAfter (series_of before.now) series.now }
{
    match before.last() {
        Some(last) => is_before(last, series),
        None => true,
    }
}

/// Whether the first comes before the second in lexicographic order.
fn is_before(earlier: &[i64], later: &[i64]) -> bool
    ensures { IsTrue result ↔ IsBefore earlier.now later.now }
{
    for i in 0..earlier.len() {
        if i >= later.len() || later[i] < earlier[i] {
            return false;
        }
        if earlier[i] < later[i] {
            return true;
        }
    }
    false
}

/// Whether in a listing each series had its `yes`.
pub(crate) fn all_reported(aim: Aim, reported: usize, listed: usize) -> bool
    ensures { IsTrue result ↔ AllReported aim reported listed }
{
    match aim {
        Aim::Best(_) => true,
        Aim::List(_) => reported == listed,
    }
}
