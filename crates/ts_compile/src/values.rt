//! The values of a model's terms on a series.

ghost use Rattle.std.specs.Prelude.{◌≡◌, ◌<◌, Some, length, IfOk};
ghost use Rattle.ts_base.specs.Signature.{signature_of};
ghost use Rattle.ts_base.specs.Windows.{LooksInside};
ghost use Rattle.ts_model.specs.Meets.{value_at};
ghost use Rattle.ts_model.specs.Promise.{IsWhole};
ghost use Rattle.ts_model.specs.TermValue.{stated_value};
ghost use Rattle.ts_model.specs.Views.{model_parts, stated_of};
ghost use Rattle.ts_pattern.specs.Limits.{IsSeries};

use std::alloc::Global;
use ts_base::{Ext, Letter, Memory};
use ts_model::{Model, ModelTerm};
use ts_occurrence::{looked_at, value, value_with};

/// The value of the term at place `term`, counted from 0, on a series with as many cells as the model, from -1,000,000
/// to 1,000,000.
pub fn value_of(alloc: Global, m: &Model, term: u32, series: &[i64]) -> Result<Ext, Memory>
    requires whole { IsWhole (model_parts m.now) }
    requires term { term < length m.now.terms.entries }
    requires series { IsSeries series.now }
    requires cells { length series.now ≡ length m.now.cells.items }
    ensures { IfOk result (λ v. value_at (model_parts m.now) series.now term ≡ Some v) }
{
    value_over(alloc, &m.term(term as usize), series)
}

/// The value of a term on the cells that it looks at.
pub(crate) fn value_over(alloc: Global, t: &ModelTerm, series: &[i64]) -> Result<Ext, Memory>
    requires inside { LooksInside (length series.now) t.now.window }
    requires series { IsSeries series.now }
    ensures { IfOk result (λ v. v ≡ stated_value (stated_of t.now) series.now) }
{
    value(alloc, &t.term, looked_at(t.window, series))
}

/// The value of a term, by the signature of the whole series, which serves all terms that look at all cells.
pub(crate) fn value_by(
    alloc: Global,
    t: &ModelTerm,
    series: &[i64],
    letters: &[Letter],
) -> Result<Ext, Memory>
    requires inside { LooksInside (length series.now) t.now.window }
    requires series { IsSeries series.now }
    requires letters { letters.now ≡ signature_of series.now }
    ensures { IfOk result (λ v. v ≡ stated_value (stated_of t.now) series.now) }
{
    match t.window {
        None => value_with(alloc, &t.term, series, letters),
        Some(_) => value_over(alloc, t, series),
    }
}
