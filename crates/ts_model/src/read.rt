//! The end of a text: the model that its lines state, or what is missing.

ghost use Rattle.std.specs.Prelude.{◌≡◌, ◌<◌, ◌≤◌, length, vec_len, IfOk};
ghost use Rattle.ts_base.specs.Limits.{most_cells, too_many};
ghost use Rattle.ts_model.specs.declared.model.Need.{Need};
ghost use Rattle.ts_model.specs.declared.error.ModelKind.{ModelKind};
ghost use Rattle.ts_model.specs.ModelReading.{needs_lists, needs_objective, ended_model};
ghost use Rattle.ts_model.specs.Views.{model_parts, draft_parts, Reads};

use crate::draft::Draft;
use crate::error::{ModelKind, ModelStop};
use crate::model::{Model, Need};
use std::alloc::Global;
use ts_base::Memory;

/// Whether all domains together have a limit.
pub(crate) fn needs_lists(need: Need) -> bool
    ensures { result ≡ needs_lists need }
{
    need != Need::Values
}

/// Whether an objective is needed.
fn needs_objective(need: Need) -> bool
    ensures { result ≡ needs_objective need }
{
    need == Need::Best
}

/// The model of a draft, each cell with a copy of its domain.
fn model_of(alloc: Global, draft: Draft) -> Result<Model, Memory>
    requires few { length draft.cells.own.items ≤ most_cells }
    requires windows { length draft.windows.items ≡ length draft.terms.entries }
    ensures same { IfOk result (λ m. model_parts m ≡ draft_parts draft) }
    ensures counted { IfOk result (λ m. m.n ≡ vec_len m.cells) }
    ensures windows { IfOk result (λ m. length m.windows.items ≡ length m.terms.entries) }
{
    let cells = draft.cells.all(alloc)?;
    Ok(Model {
        n: cells.len() as u32,
        cells,
        terms: draft.terms,
        windows: draft.windows,
        requirements: draft.requirements,
        objective: draft.objective,
    })
}

/// The end of a text of so many lines, none of them bad: the model that they state, or what is missing in it.
pub(crate) fn finish(
    alloc: Global,
    draft: Draft,
    count: u32,
    need: Need,
) -> Result<Model, ModelStop>
    requires few { length draft.cells.own.items ≤ most_cells }
    requires windows { length draft.windows.items ≡ length draft.terms.entries }
    requires room { count < too_many }
    ensures reads { Reads result (ended_model need count (draft_parts draft)) }
    ensures counted { IfOk result (λ m. m.n ≡ vec_len m.cells) }
    ensures windows { IfOk result (λ m. length m.windows.items ≡ length m.terms.entries) }
{
    let line = count + 1;
    if !draft.has_cells() {
        let kind = ModelKind::NoCells;
        return Err(ModelStop::Refused { line, kind });
    }
    if needs_objective(need) && draft.objective.is_none() {
        let kind = ModelKind::NoObjective;
        return Err(ModelStop::Refused { line, kind });
    }
    Ok(model_of(alloc, draft)?)
}
