//! A series judged by a model: which cells lie in their domains, which requirements hold, and what the terms are worth.
//!
//! Nothing here speaks of texts or commands, so that a search and a checker may take it as it is.

ghost use Rattle.std.specs.Prelude.{◌≡◌, ◌↔◌, length, IfOk, IsTrue};
ghost use Rattle.ts_pattern.specs.Limits.{IsSeries};
ghost use Rattle.ts_model.specs.Judgement.{all_hold, all_true, holdings, holds, insides, is_among};
ghost use Rattle.ts_model.specs.Meets.{Meets, values_on};
ghost use Rattle.ts_model.specs.Promise.{IsWhole};
ghost use Rattle.ts_model.specs.Views.{model_parts};

use crate::values::value_by;
use std::alloc::Global;
use ts_base::{Ext, Memory};
use ts_domain::Domain;
use ts_model::{Model, Require, satisfies};
use ts_occurrence::signature;

/// For each cell whether its value lies in its domain, for each requirement whether it holds, and the value of each
/// term.
#[derive(Debug, Drop)]
pub struct Judgement {
    pub inside: Vec<bool>,
    pub holding: Vec<bool>,
    pub values: Vec<Ext>,
}

impl Judgement {
    /// Whether every cell lies inside and every requirement holds.
    pub fn meets(&self) -> bool
        ensures { result ≡ all_hold self.now.inside.items self.now.holding.items }
    {
        are_true(&self.inside) && are_true(&self.holding)
    }
}

/// The judgement of a series with as many cells as the model.
pub fn judge(alloc: Global, model: &Model, series: &[i64]) -> Result<Judgement, Memory>
    requires whole { IsWhole (model_parts model.now) }
    requires series { IsSeries series.now }
    requires cells { length series.now ≡ length model.now.cells.items }
    ensures inside { IfOk result (λ j. j.inside.items ≡ insides model.now.cells.items series.now) }
    ensures values { IfOk result (λ j. j.values.items ≡ values_on (model_parts model.now) series.now) }
    ensures holding { IfOk result (λ j.
        j.holding.items ≡ holdings (values_on (model_parts model.now) series.now) model.now.requirements.items) }
    ensures meets { IfOk result (λ j.
        IsTrue (all_hold j.inside.items j.holding.items) ↔ Meets (model_parts model.now) series.now) }
{
    let inside = insides(alloc, &model.cells, series)?;
    let values = values_on(alloc, model, series)?;
    let holding = holdings(alloc, &model.requirements, &values)?;
    Ok(Judgement {
        inside,
        holding,
        values,
    })
}

/// For each cell, whether its value is in its domain.
fn insides(alloc: Global, cells: &[Domain], series: &[i64]) -> Result<Vec<bool>, Memory>
    requires { length series.now ≡ length cells.now }
    ensures { IfOk result (λ inside. inside.items ≡ insides cells.now series.now) }
{
    let mut inside = Vec::new(alloc);
    for k in 0..series.len() {
        inside.push(has(&cells[k], series[k]))?;
    }
    Ok(inside)
}

/// Whether the domain has the value.
// A call of its own, since an argument is known to lie within 64 bits and a place of a slice isn't.
fn has(domain: &Domain, value: i64) -> bool
    ensures { result ≡ is_among domain.now value }
{
    domain.contains(value)
}

/// The value of each term; one signature serves all terms that look at all cells.
fn values_on(alloc: Global, model: &Model, series: &[i64]) -> Result<Vec<Ext>, Memory>
    requires whole { IsWhole (model_parts model.now) }
    requires series { IsSeries series.now }
    requires cells { length series.now ≡ length model.now.cells.items }
    ensures { IfOk result (λ values. values.items ≡ values_on (model_parts model.now) series.now) }
{
    let letters = signature(alloc, series)?;
    let mut values = Vec::new(alloc);
    for k in 0..model.terms.len() {
        values.push(value_by(alloc, &model.term(k), series, &letters)?)?;
    }
    Ok(values)
}

/// For each requirement, whether it holds of the values.
fn holdings(alloc: Global, requirements: &[Require], values: &[Ext]) -> Result<Vec<bool>, Memory>
    ensures { IfOk result (λ holding. holding.items ≡ holdings values.now requirements.now) }
{
    let mut holding = Vec::new(alloc);
    for require in requirements {
        holding.push(holds(require, values))?;
    }
    Ok(holding)
}

/// Whether the requirement's term is one of those with these values, and its value compares so with the bound.
fn holds(require: &Require, values: &[Ext]) -> bool
    ensures { result ≡ holds values.now require.now }
{
    match values.get(require.term as usize) {
        Some(value) => satisfies(require.op, require.bound, *value),
        None => false,
    }
}

/// Whether each test is true.
fn are_true(tests: &[bool]) -> bool
    ensures { result ≡ all_true tests.now }
{
    tests.iter().all(|test| *test)
}
