//! The dive: one series, found by keeping the most promising value of each cell and dropping what is refuted.

ghost use Rattle.std.specs.Prelude.{◌≡◌, IfOk, OnOk};
ghost use Rattle.ts_domain.specs.BoxSeries.{IsCell};
ghost use Rattle.ts_filter.specs.Boxes.{IsPart, only};
ghost use Rattle.ts_search.specs.Dive.{dive, dive_end, kept_value};
ghost use Rattle.ts_search.specs.Drops.{next_drop};
ghost use Rattle.ts_frontier.specs.Forms.{form};
ghost use Rattle.ts_search.specs.Posed.{AreTablesOf, HasObjective, IsPosed, MayAsk, MayBring};
ghost use Rattle.ts_search.specs.Shown.{AreHeld};
ghost use Rattle.ts_search.specs.Views.{IsSettled, find_of, search_of};

use crate::contest::Contest;
use crate::found::FoundSeries;
use crate::line::refuted_requirement;
use crate::problem::Problem;
use crate::witnesses::Witnesses;
use std::alloc::Global;
use ts_base::Memory;
use ts_compile::judge;
use ts_domain::Boxed;
use ts_filter::AllTables;
use ts_frontier::{Form, form_of};

/// The dive's series, if the one that is left meets. The dive ends early where a requirement is refuted on the way: no
/// series that is left meets then.
pub(crate) fn dive(
    alloc: Global,
    contest: &Contest<'_>,
    tables: &mut AllTables<'_>,
    witnesses: &mut Witnesses<'_>,
) -> Result<Option<FoundSeries>, Memory>
    requires objective { HasObjective contest.now }
    requires posed { IsPosed contest.now.problem }
    requires tables { AreTablesOf contest.now.problem tables.old.machines }
    requires held { AreHeld contest.now.problem witnesses.old }
    ensures machines { tables.new.machines ≡ tables.old.machines }
    ensures held { OnOk result (AreHeld contest.now.problem witnesses.new) }
    ensures found { let s = search_of contest.now.problem in
        IfOk result (λ found. find_of found ≡ dive s.model s.spans contest.now.goal) }
{
    let mut cells = Boxed::new(alloc, &contest.problem.model.cells)?;
    if !settle(alloc, &contest.problem, tables, witnesses, &mut cells)? {
        return Ok(None);
    }
    for k in 1..cells.cells() + 1 {
        keep_one(alloc, contest, tables, k, &mut cells)?;
        if !settle(alloc, &contest.problem, tables, witnesses, &mut cells)? {
            return Ok(None);
        }
    }
    series_left(alloc, contest, &cells)
}

/// Makes the possible drops, one after the other, and answers whether none is left. It stops early if a requirement is
/// refuted at the last cell. The tables are brought to each box on the way, and to the one that is left.
fn settle(
    alloc: Global,
    problem: &Problem<'_>,
    tables: &mut AllTables<'_>,
    witnesses: &mut Witnesses<'_>,
    cells: &mut Boxed,
) -> Result<bool, Memory>
    requires asked { MayBring problem.now tables.old.machines cells.old.present }
    requires held { AreHeld problem.now witnesses.old }
    ensures machines { tables.new.machines ≡ tables.old.machines }
    ensures asked { OnOk result (MayAsk problem.now tables.new cells.new.present) }
    ensures held { OnOk result (AreHeld problem.now witnesses.new) }
    ensures settled { IfOk result (λ all. IsSettled (search_of problem.now) cells.old.present cells.new.present all) }
{
    problem.bring_tables(alloc, tables, cells)?;
    witnesses.bring(problem, cells);
    while refuted_requirement(alloc, problem, tables, witnesses, cells)?.is_none() {
        match problem.next_drop(alloc, tables, witnesses, cells)? {
            Some(removal) => cells.remove(removal.cell, removal.value)?,
            None => return Ok(true),
        }
        problem.bring_tables(alloc, tables, cells)?;
        witnesses.bring(problem, cells);
    }
    Ok(false)
}

/// Leaves cell `k` one value: the one that leaves the objective the best number open.
fn keep_one(
    alloc: Global,
    contest: &Contest<'_>,
    tables: &mut AllTables<'_>,
    k: u32,
    cells: &mut Boxed,
) -> Result<(), Memory>
    requires objective { HasObjective contest.now }
    requires asked { MayAsk contest.now.problem tables.old cells.old.present }
    requires cell { IsCell k cells.old }
    ensures same { tables.new ≡ tables.old }
    ensures kept { let s = search_of contest.now.problem in OnOk result (cells.new.present
        ≡ only k (kept_value s.model s.spans contest.now.goal k cells.old.present) cells.old.present) }
{
    let v = contest.kept_value(alloc, tables, k, cells)?;
    cells.keep_low(k, v)?;
    cells.keep_high(k, v - 1)?;
    Ok(())
}

/// The one series of the box, if it meets.
fn series_left(
    alloc: Global,
    contest: &Contest<'_>,
    cells: &Boxed,
) -> Result<Option<FoundSeries>, Memory>
    requires objective { HasObjective contest.now }
    requires posed { IsPosed contest.now.problem }
    requires part { IsPart cells.now.present (search_of contest.now.problem).model.cells }
    ensures { IfOk result
        (λ found. find_of found ≡ dive_end (search_of contest.now.problem).model (form cells.now.present)) }
{
    let Form::Alone(series) = form_of(alloc, cells)? else {
        return Ok(None);
    };
    if !judge(alloc, contest.problem.model, &series)?.meets() {
        return Ok(None);
    }
    let value = contest.value(alloc, &series)?;
    Ok(Some(FoundSeries { series, value }))
}
