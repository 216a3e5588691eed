//! The line of a box: the first of its rules that holds, each asked of the box as it is.

ghost use Rattle.std.specs.Prelude.{◌≡◌, IfOk, OnOk};
ghost use Rattle.ts_search.specs.LineOf.{TheBest, TheFirst, branch_line, first_no, line_of, refuted_last};
ghost use Rattle.ts_search.specs.LineOf.{requirements, wide_line};
ghost use Rattle.ts_search.specs.Posed.{HasObjective, MayAsk};
ghost use Rattle.ts_search.specs.Shown.{AreHeld, AreShown};
ghost use Rattle.ts_search.specs.Views.{contest_of, find_of, search_of};

use crate::contest::Contest;
use crate::found::FoundSeries;
use crate::problem::Problem;
use crate::witnesses::Witnesses;
use std::alloc::Global;
use ts_base::Memory;
use ts_certificate::TreeLine;
use ts_domain::Boxed;
use ts_filter::AllTables;
use ts_frontier::{Halving, first_halving};

/// The line of a box in the search for the best series, with the incumbent, if there is one.
pub(crate) fn solve_line(
    alloc: Global,
    contest: &Contest<'_>,
    tables: &mut AllTables<'_>,
    witnesses: &mut Witnesses<'_>,
    cells: &Boxed,
    found: &Option<FoundSeries>,
) -> Result<TreeLine, Memory>
    requires objective { HasObjective contest.now }
    requires asked { MayAsk contest.now.problem tables.old cells.now.present }
    requires shown { AreShown contest.now.problem witnesses.old cells.now.present }
    ensures same { tables.new ≡ tables.old }
    ensures held { OnOk result (AreHeld contest.now.problem witnesses.new) }
    ensures line { IfOk result
        (λ l. l ≡ line_of (TheBest (contest_of contest.now) (find_of found.now)) cells.now.present) }
{
    if let Some(j) = refuted_requirement(alloc, &contest.problem, tables, witnesses, cells)? {
        let p = contest.problem.last();
        return Ok(TreeLine::No { j, p });
    }
    let Some(halving) = first_halving(cells) else {
        let p = contest.problem.last();
        return Ok(TreeLine::Worse { p });
    };
    if contest.is_cut(alloc, tables, found, cells)? {
        let p = contest.problem.last();
        return Ok(TreeLine::Worse { p });
    }
    inner_line(alloc, contest, tables, witnesses, cells, found, halving)
}

/// The line of a box in a listing.
pub(crate) fn listing_line(
    alloc: Global,
    problem: &Problem<'_>,
    tables: &mut AllTables<'_>,
    witnesses: &mut Witnesses<'_>,
    cells: &Boxed,
) -> Result<TreeLine, Memory>
    requires asked { MayAsk problem.now tables.old cells.now.present }
    requires shown { AreShown problem.now witnesses.old cells.now.present }
    ensures same { tables.new ≡ tables.old }
    ensures held { OnOk result (AreHeld problem.now witnesses.new) }
    ensures line { IfOk result (λ l. l ≡ line_of (TheFirst (search_of problem.now)) cells.now.present) }
{
    if let Some(j) = refuted_requirement(alloc, problem, tables, witnesses, cells)? {
        let p = problem.last();
        return Ok(TreeLine::No { j, p });
    }
    let Some(halving) = first_halving(cells) else {
        return Ok(TreeLine::Yes);
    };
    if let Some(line) = inner_no(alloc, problem, tables, witnesses, cells)? {
        return Ok(line);
    }
    branch(alloc, problem, tables, witnesses, cells, halving)
}

/// The least requirement that is refuted at the last cell.
pub(crate) fn refuted_requirement(
    alloc: Global,
    problem: &Problem<'_>,
    tables: &mut AllTables<'_>,
    witnesses: &Witnesses<'_>,
    cells: &Boxed,
) -> Result<Option<u32>, Memory>
    requires asked { MayAsk problem.now tables.old cells.now.present }
    requires shown { AreShown problem.now witnesses.now cells.now.present }
    ensures same { tables.new ≡ tables.old }
    ensures found { IfOk result (λ found. found ≡ refuted_last (search_of problem.now) cells.now.present) }
{
    for j in 1..problem.requirements() + 1 {
        if problem.is_refuted(alloc, tables, witnesses, j, cells)? {
            return Ok(Some(j));
        }
    }
    Ok(None)
}

/// The line of a box of several series that is neither refuted nor cut at the last cell.
fn inner_line(
    alloc: Global,
    contest: &Contest<'_>,
    tables: &mut AllTables<'_>,
    witnesses: &mut Witnesses<'_>,
    cells: &Boxed,
    found: &Option<FoundSeries>,
    halving: Halving,
) -> Result<TreeLine, Memory>
    requires objective { HasObjective contest.now }
    requires asked { MayAsk contest.now.problem tables.old cells.now.present }
    requires shown { AreShown contest.now.problem witnesses.old cells.now.present }
    ensures same { tables.new ≡ tables.old }
    ensures held { OnOk result (AreHeld contest.now.problem witnesses.new) }
    ensures line { IfOk result (λ l. l ≡ wide_line (TheBest (contest_of contest.now) (find_of found.now))
        cells.now.present halving.cell halving.at) }
{
    if let Some(line) = inner_no(alloc, &contest.problem, tables, witnesses, cells)? {
        return Ok(line);
    }
    if let Some(p) = contest.first_cut(alloc, tables, found, cells)? {
        return Ok(TreeLine::Worse { p });
    }
    branch(alloc, &contest.problem, tables, witnesses, cells, halving)
}

/// The least requirement that is refuted at a cell below the last, and the least such cell.
fn inner_no(
    alloc: Global,
    problem: &Problem<'_>,
    tables: &mut AllTables<'_>,
    witnesses: &Witnesses<'_>,
    cells: &Boxed,
) -> Result<Option<TreeLine>, Memory>
    requires asked { MayAsk problem.now tables.old cells.now.present }
    requires shown { AreShown problem.now witnesses.now cells.now.present }
    ensures same { tables.new ≡ tables.old }
    ensures line { IfOk result (λ line.
        line ≡ first_no (search_of problem.now) cells.now.present (requirements (search_of problem.now)) 1) }
{
    for j in 1..problem.requirements() + 1 {
        if let Some(p) = problem.first_refuted(alloc, tables, witnesses, j, cells)? {
            return Ok(Some(TreeLine::No { j, p }));
        }
    }
    Ok(None)
}

/// A drop where one is possible, else the split.
fn branch(
    alloc: Global,
    problem: &Problem<'_>,
    tables: &mut AllTables<'_>,
    witnesses: &mut Witnesses<'_>,
    cells: &Boxed,
    halving: Halving,
) -> Result<TreeLine, Memory>
    requires asked { MayAsk problem.now tables.old cells.now.present }
    requires shown { AreShown problem.now witnesses.old cells.now.present }
    ensures same { tables.new ≡ tables.old }
    ensures held { OnOk result (AreHeld problem.now witnesses.new) }
    ensures line { IfOk result
        (λ l. l ≡ branch_line (search_of problem.now) cells.now.present halving.cell halving.at) }
{
    match problem.next_drop(alloc, tables, witnesses, cells)? {
        Some(removal) => Ok(TreeLine::Remove {
            k: removal.cell,
            v: removal.value,
            j: removal.require,
        }),
        None => Ok(TreeLine::Split {
            k: halving.cell,
            t: halving.at,
        }),
    }
}
