//! The tree of a search as it grows: one box after the other gets its line.

ghost use Rattle.std.specs.Prelude.{◌≡◌, ℕ, IfOk, IsTrue, OnOk, Option};
ghost use Rattle.std.specs.List.{AllByRecursion};
ghost use Rattle.ts_certificate.specs.declared.certificate.TreeLine.TheVariants.{Worse as WorseLine};
ghost use Rattle.ts_filter.specs.Boxes.{IsPart};
ghost use Rattle.ts_frontier.specs.Forms.{form};
ghost use Rattle.ts_search.specs.Dive.{Find};
ghost use Rattle.ts_search.specs.Leaps.{ExcludesInside, IsPaced};
ghost use Rattle.ts_search.specs.LineOf.{TheBest};
ghost use Rattle.ts_search.specs.Posed.{AreTablesOf, HasObjective, IsPosed};
ghost use Rattle.ts_search.specs.Shown.{AreHeld};
ghost use Rattle.ts_search.specs.Turns.{found_after, start, turn, turns};
ghost use Rattle.ts_search.specs.Views.{contest_of, find_of, search_of, state_of};

use crate::contest::Contest;
use crate::found::FoundSeries;
use crate::pace::Pace;
use crate::seeking::Seeking;
use crate::witnesses::Witnesses;
use std::alloc::Global;
use ts_base::Memory;
use ts_certificate::TreeLine;
use ts_domain::Boxed;
use ts_filter::AllTables;
use ts_frontier::{Form, Frontier, follow, form_of};

/// The lines so far, the boxes that wait for theirs, and the best series that was found.
#[derive(Drop)]
pub(crate) struct Tree {
    pub(crate) lines: Vec<TreeLine>,
    pub(crate) frontier: Frontier,
    pub(crate) found: Option<FoundSeries>,
}

/// The tree after at most `budget` lines, or when no box waits any more. Leaps may be made where what excludes a box
/// excludes each box inside it.
pub(crate) fn grow(
    alloc: Global,
    contest: &Contest<'_>,
    tables: &mut AllTables<'_>,
    witnesses: &mut Witnesses<'_>,
    budget: u64,
    leaps: bool,
) -> Result<Tree, Memory>
    requires objective { HasObjective contest.now }
    requires posed { IsPosed contest.now.problem }
    requires tables { AreTablesOf contest.now.problem tables.old.machines }
    requires held { AreHeld contest.now.problem witnesses.old }
    requires inside { IsTrue leaps → (found : Option Find) → ExcludesInside (TheBest (contest_of contest.now) found) }
    ensures machines { tables.new.machines ≡ tables.old.machines }
    ensures turns { IfOk result (λ t. state_of t
        ≡ turns (contest_of contest.now) budget (start (contest_of contest.now))) }
{
    let root = Boxed::new(alloc, &contest.problem.model.cells)?;
    let mut tree = Tree {
        lines: Vec::new(alloc),
        frontier: Frontier::new(alloc, root),
        found: None,
    };
    let mut pace = Pace::new(leaps);
    for _ in 0..budget {
        if tree.frontier.is_empty() {
            return Ok(tree);
        }
        treat(alloc, contest, tables, witnesses, &mut tree, &mut pace)?;
    }
    Ok(tree)
}

/// One turn: the next box gets its line.
fn treat(
    alloc: Global,
    contest: &Contest<'_>,
    tables: &mut AllTables<'_>,
    witnesses: &mut Witnesses<'_>,
    tree: &mut Tree,
    pace: &mut Pace,
) -> Result<(), Memory>
    requires objective { HasObjective contest.now }
    requires posed { IsPosed contest.now.problem }
    requires parts { AllByRecursion (λ b. IsPart b (search_of contest.now.problem).model.cells)
        tree.old.frontier.boxes }
    requires tables { AreTablesOf contest.now.problem tables.old.machines }
    requires held { AreHeld contest.now.problem witnesses.old }
    requires paced { IsPaced (TheBest (contest_of contest.now) (find_of tree.old.found)) pace.old
        tree.old.frontier.boxes }
    ensures machines { tables.new.machines ≡ tables.old.machines }
    ensures held { OnOk result (AreHeld contest.now.problem witnesses.new) }
    ensures turn { OnOk result
        (state_of tree.new ≡ turn (contest_of contest.now) (state_of tree.old)) }
    ensures paced { OnOk result (IsPaced (TheBest (contest_of contest.now) (find_of tree.new.found)) pace.new
        tree.new.frontier.boxes) }
{
    if !tree.frontier.advance()? {
        return Ok(());
    }
    let cells = tree.frontier.present();
    let seeking = Seeking::Best(contest, &tree.found);
    let line = pace.line(alloc, &seeking, tables, witnesses, cells)?;
    pace.pass(&line);
    tree.lines.push(line)?;
    let found = tree.found.take();
    tree.found = found_now(alloc, contest, tree.frontier.present(), line, found)?;
    follow(&mut tree.frontier, &line)
}

/// The incumbent after a line: after `worse`, the one series of the box if it reaches the bar.
fn found_now(
    alloc: Global,
    contest: &Contest<'_>,
    cells: &Boxed,
    line: TreeLine,
    found: Option<FoundSeries>,
) -> Result<Option<FoundSeries>, Memory>
    requires objective { HasObjective contest.now }
    requires posed { IsPosed contest.now.problem }
    requires part { IsPart cells.now.present (search_of contest.now.problem).model.cells }
    ensures { IfOk result (λ f.
        find_of f ≡ found_after (contest_of contest.now) (find_of found) (form cells.now.present) line) }
{
    match line {
        TreeLine::Worse { .. } => found_at(alloc, contest, cells, found),
        _ => Ok(found),
    }
}

/// The incumbent after a line `worse`: the one series of the box if its value reaches the bar, else as before.
fn found_at(
    alloc: Global,
    contest: &Contest<'_>,
    cells: &Boxed,
    found: Option<FoundSeries>,
) -> Result<Option<FoundSeries>, Memory>
    requires objective { HasObjective contest.now }
    requires posed { IsPosed contest.now.problem }
    requires part { IsPart cells.now.present (search_of contest.now.problem).model.cells }
    ensures { IfOk result (λ f. (p : ℕ) →
        find_of f ≡ found_after (contest_of contest.now) (find_of found) (form cells.now.present) (WorseLine p)) }
{
    let Form::Alone(series) = form_of(alloc, cells)? else {
        return Ok(found);
    };
    let value = contest.value(alloc, &series)?;
    if contest.counts(&found, value) {
        return Ok(Some(FoundSeries { series, value }));
    }
    Ok(found)
}
