//! The rules of the lines of a tree, each on the box that waits for it.

ghost use Rattle.std.specs.Prelude.{◌≡◌, ◌≢◌, ◌≤◌, ◌∷◌, [], ◌↔◌, Contains, IfOk, IsTrue, length};
ghost use Rattle.ts_domain.specs.BoxSeries.{IsBox};
ghost use Rattle.ts_domain.specs.Kept.{values_above, values_up_to};
ghost use Rattle.ts_filter.specs.Boxes.{HasCell, box_of};
ghost use Rattle.ts_filter.specs.RefutedWorseDrop.{IsDrop, IsRefuted};
ghost use Rattle.ts_filter.specs.Rules.{IsNext, IsSplit, KeepsRule, MayBeWorse, MayStayOpen};
ghost use Rattle.ts_frontier.specs.Follow.{MakesBoxes};
ghost use Rattle.ts_model.specs.Views.{model_parts};
ghost use Rattle.ts_spans.specs.Machines.{spans_in};
ghost use Rattle.ts_checker.specs.Subjects.{AreTables, head_in};

use crate::subject::{Head, claimed, is_usable, requirement};
use std::alloc::Global;
use ts_base::Memory;
use ts_certificate::{Aim, Claim, TreeLine};
use ts_domain::{Boxed, Domain};
use ts_filter::AllTables;
use ts_model::Model;

/// Whether the line keeps its rule on the box; if so, it may be followed there.
pub(crate) fn keeps_rule(
    alloc: Global,
    model: &Model,
    tables: &mut AllTables<'_>,
    head: &Head,
    b: &Boxed,
    line: TreeLine,
) -> Result<bool, Memory>
    requires tables { AreTables (model_parts model.now) tables.old.machines }
    requires size { length b.now.present ≡ length (model_parts model.now).cells }
    ensures machines { tables.new.machines ≡ tables.old.machines }
    ensures keeps { IfOk result
        (λ keeps. IsTrue keeps ↔ KeepsRule (model_parts model.now) (spans_in (model_parts model.now))
        (head_in head.now) head.now.reported b.now.present line) }
    ensures may { IfOk result (λ keeps. IsTrue keeps → MakesBoxes line b.now.present) }
{
    match line {
        TreeLine::Split { k, t } => Ok(is_split(b, k, t)),
        TreeLine::Remove { k, v, j } => is_drop(alloc, model, tables, b, k, v, j),
        TreeLine::No { j, p } => is_refuted(alloc, model, tables, b, j, p),
        TreeLine::Worse { p } => may_be_worse(alloc, model, tables, head, b, p),
        TreeLine::Yes => Ok(is_next(head, b)),
        TreeLine::Unsearched => Ok(may_stay_open(head.claim)),
    }
}

/// `split K T`: both sides have values.
fn is_split(b: &Boxed, k: u32, t: i64) -> bool
    ensures { IsTrue result ↔ IsSplit k t b.now.present }
{
    has_cell(b, k) && has_sides(b.cell(k), t)
}

/// `drop K V J`: the cell has the value and others, and with the value there the requirement is refuted.
fn is_drop(
    alloc: Global,
    model: &Model,
    tables: &mut AllTables<'_>,
    b: &Boxed,
    k: u32,
    v: i64,
    j: u32,
) -> Result<bool, Memory>
    requires tables { AreTables (model_parts model.now) tables.old.machines }
    requires size { length b.now.present ≡ length (model_parts model.now).cells }
    ensures machines { tables.new.machines ≡ tables.old.machines }
    ensures keeps { IfOk result (λ keeps. IsTrue keeps
        ↔ IsDrop (model_parts model.now).requirements (spans_in (model_parts model.now)) k v j b.now.present) }
    ensures may { IfOk result (λ keeps. IsTrue keeps → MakesBoxes (TreeLine.Remove k v j) b.now.present) }
{
    if !has_cell(b, k) {
        return Ok(false);
    }
    if !has_others(b.cell(k), v) {
        return Ok(false);
    }
    let Some(require) = requirement(&model.requirements, j) else {
        return Ok(false);
    };
    tables.bring(alloc, b)?;
    if !is_usable(tables, require.term, k, b) {
        return Ok(false);
    }
    tables.refuted_value(alloc, &require, k, v, b)
}

/// `no J P`: the requirement is refuted at the cell.
fn is_refuted(
    alloc: Global,
    model: &Model,
    tables: &mut AllTables<'_>,
    b: &Boxed,
    j: u32,
    p: u32,
) -> Result<bool, Memory>
    requires tables { AreTables (model_parts model.now) tables.old.machines }
    requires size { length b.now.present ≡ length (model_parts model.now).cells }
    ensures machines { tables.new.machines ≡ tables.old.machines }
    ensures keeps { IfOk result (λ keeps. IsTrue keeps
        ↔ IsRefuted (model_parts model.now).requirements (spans_in (model_parts model.now)) j p b.now.present) }
{
    let Some(require) = requirement(&model.requirements, j) else {
        return Ok(false);
    };
    tables.bring(alloc, b)?;
    if !is_usable(tables, require.term, p, b) {
        return Ok(false);
    }
    tables.refuted(alloc, &require, p, b)
}

/// `worse P`: the claim has a number, and the objective is no better at the cell.
fn may_be_worse(
    alloc: Global,
    model: &Model,
    tables: &mut AllTables<'_>,
    head: &Head,
    b: &Boxed,
    p: u32,
) -> Result<bool, Memory>
    requires tables { AreTables (model_parts model.now) tables.old.machines }
    requires size { length b.now.present ≡ length (model_parts model.now).cells }
    ensures machines { tables.new.machines ≡ tables.old.machines }
    ensures keeps { IfOk result (λ keeps. IsTrue keeps
        ↔ MayBeWorse (model_parts model.now) (spans_in (model_parts model.now)) (head_in head.now) p b.now.present) }
{
    let (Aim::Best(goal), Some(bar)) = (head.aim, claimed(head.claim)) else {
        return Ok(false);
    };
    let Some(term) = model.objective else {
        return Ok(false);
    };
    tables.bring(alloc, b)?;
    if !is_usable(tables, term, p, b) {
        return Ok(false);
    }
    tables.worse(alloc, term, goal, p, b, bar)
}

/// `yes`: in a listing, the box is the next listed series alone.
fn is_next(head: &Head, b: &Boxed) -> bool
    ensures { IsTrue result ↔ IsNext (head_in head.now) head.now.reported b.now.present }
{
    match (head.aim, head.series.get(head.reported)) {
        (Aim::List(_), Some(series)) => is_box_of(b, series),
        _ => false,
    }
}

/// `open`: the claim leaves boxes that weren't searched.
fn may_stay_open(claim: Claim) -> bool
    ensures { IsTrue result ↔ MayStayOpen claim }
{
    match claim {
        Claim::Best(_) | Claim::Infeasible | Claim::All(_) => false,
        Claim::BudgetBest(_) | Claim::BudgetNone | Claim::Full(_) | Claim::BudgetList(_) => true,
    }
}

/// Whether `k` is the number of a cell.
fn has_cell(b: &Boxed, k: u32) -> bool
    ensures cell { IsTrue result ↔ HasCell k b.now.present }
    ensures domains { IsBox b.now.present }
{
    let cells = b.cells();
    k >= 1 && k <= cells
}

/// Whether there are values up to `t` and values above.
fn has_sides(domain: &Domain, t: i64) -> bool
    ensures { IsTrue result ↔ ((values_up_to t domain.now ≢ []) × (values_above t domain.now ≢ [])) }
{
    let ends = domain.ends();
    ends.low <= t && t < ends.high
}

/// Whether `v` is one of two values or more.
fn has_others(domain: &Domain, v: i64) -> bool
    ensures { IsTrue result ↔ ((2 ≤ length domain.now) × Contains domain.now v) }
{
    domain.contains(v) && !domain.is_single()
}

/// Whether the box is that of the series alone.
fn is_box_of(b: &Boxed, series: &[i64]) -> bool
    ensures { IsTrue result ↔ (b.now.present ≡ box_of series.now) }
{
    if series.len() != b.cells() as usize {
        return false;
    }
    for i in 0..b.cells() {
        if !is_only(b.cell(i + 1), series[i as usize]) {
            return false;
        }
    }
    true
}

/// Whether `v` is the one value.
fn is_only(domain: &Domain, v: i64) -> bool
    ensures { IsTrue result ↔ (domain.now ≡ v ∷ []) }
{
    domain.is_single() && domain.contains(v)
}
