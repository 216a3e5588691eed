//! Several splits at once: where the line of a box is a split, so are those of the boxes that led to it by splits, if
//! none of these took away a value that might have been dropped.

ghost use Rattle.std.specs.Prelude.{◌≡◌, ◌≤◌, ℕ, [], Contains, IfOk, IsTrue, OnOk, length};
ghost use Rattle.ts_base.specs.Limits.{most_cells};
ghost use Rattle.ts_domain.specs.BoxSeries.{IsCell, cell_of};
ghost use Rattle.ts_filter.specs.Boxes.{only};
ghost use Rattle.ts_filter.specs.RefutedWorseDrop.{IsRefuted};
ghost use Rattle.ts_frontier.specs.Forms.{Wide};
ghost use Rattle.ts_search.specs.Leaps.{AreSplits, AreTried, ExcludesInside, LeadDown, TakesFreeValues};
ghost use Rattle.ts_search.specs.Posed.{MayAsk, MayBring, MaySeek};
ghost use Rattle.ts_search.specs.Shown.{AreHeld};
ghost use Rattle.ts_search.specs.Views.{problem_of, search_of, sought_of};

use crate::problem::Problem;
use crate::seeking::Seeking;
use crate::witnesses::Witnesses;
use std::alloc::Global;
use ts_base::Memory;
use ts_certificate::TreeLine;
use ts_domain::Boxed;
use ts_filter::AllTables;
use ts_frontier::{Halving, halving_from};

/// A leap ends before a cell with more values than this.
const MOST_VALUES: u64 = 256;

/// How many lines, that of the box and those below it, are known to be splits. A leap goes down `reach` splits, or as
/// far as these take away no value that might be dropped, and asks there; then half as far, and so on.
pub(crate) fn leap(
    alloc: Global,
    seeking: &Seeking<'_>,
    tables: &mut AllTables<'_>,
    witnesses: &mut Witnesses<'_>,
    cells: &Boxed,
    reach: u32,
) -> Result<u32, Memory>
    requires objective { MaySeek seeking.now }
    requires asked { MayBring (problem_of seeking.now) tables.old.machines cells.now.present }
    requires held { AreHeld (problem_of seeking.now) witnesses.old }
    requires inside { ExcludesInside (sought_of seeking.now) }
    requires few { reach ≤ 64 }
    ensures machines { tables.new.machines ≡ tables.old.machines }
    ensures held { OnOk result (AreHeld (problem_of seeking.now) witnesses.new) }
    ensures splits { IfOk result (λ n. AreSplits (sought_of seeking.now) n cells.now.present) }
{
    let mut below = copied(alloc, cells)?;
    let mut far = go_down(alloc, seeking.problem(), tables, &mut below, reach)?;
    while far > 0 {
        below.undo(far as usize);
        let line = seeking.line(alloc, tables, witnesses, &below)?;
        if let TreeLine::Split { .. } = line {
            return Ok(far + 1);
        }
        far /= 2;
    }
    Ok(0)
}

/// Goes down splits that take away no value that might be dropped, up to `reach`, each time to the lower side, and
/// answers how many. If there are any, the box that is reached has more series than one.
fn go_down(
    alloc: Global,
    problem: &Problem<'_>,
    tables: &mut AllTables<'_>,
    below: &mut Boxed,
    reach: u32,
) -> Result<u32, Memory>
    requires asked { MayBring problem.now tables.old.machines below.old.present }
    requires first { below.old.earlier ≡ [] }
    ensures machines { tables.new.machines ≡ tables.old.machines }
    ensures few { IfOk result (λ n. n ≤ reach) }
    ensures there { IfOk result (λ n. n ≤ length below.new.earlier) }
    ensures down { OnOk result (LeadDown below.old.present below.new) }
    ensures tried { IfOk result (λ n. AreTried (search_of problem.now) n below.old.present) }
{
    let mut from = 1;
    for i in 0..reach {
        let Some(halving) = halving_from(below, from) else {
            return Ok(i.saturating_sub(1));
        };
        problem.bring_tables(alloc, tables, below)?;
        if !takes_free_values(alloc, problem, tables, below, halving)? {
            return Ok(i);
        }
        below.keep_low(halving.cell, halving.at)?;
        from = halving.cell;
    }
    Ok(reach)
}

/// The box once more, with no box before it.
fn copied(alloc: Global, cells: &Boxed) -> Result<Boxed, Memory>
    requires { length cells.now.present ≤ most_cells }
    ensures { IfOk result (λ b. b ≡ record { earlier = []; present = cells.now.present }) }
{
    let mut domains = Vec::new(alloc);
    for i in 0..cells.cells() {
        domains.push(cells.cell(i + 1).try_clone()?)?;
    }
    Boxed::new(alloc, &domains)
}

/// Whether, as far as is looked, the split takes away no value with which a requirement is refuted at the cell.
fn takes_free_values(
    alloc: Global,
    problem: &Problem<'_>,
    tables: &mut AllTables<'_>,
    cells: &Boxed,
    halving: Halving,
) -> Result<bool, Memory>
    requires asked { MayAsk problem.now tables.old cells.now.present }
    requires cell { IsCell halving.cell cells.now }
    ensures same { tables.new ≡ tables.old }
    ensures free { IfOk result (λ free. IsTrue free →
        TakesFreeValues (search_of problem.now) cells.now.present (Wide halving.cell halving.at)) }
{
    let domain = cells.cell(halving.cell);
    if domain.size() > MOST_VALUES {
        return Ok(false);
    }
    for v in domain.values() {
        if v > halving.at && !is_free(alloc, problem, tables, cells, halving.cell, v)? {
            return Ok(false);
        }
    }
    Ok(true)
}

/// Whether no requirement is refuted at the cell on the box with the value alone there.
fn is_free(
    alloc: Global,
    problem: &Problem<'_>,
    tables: &mut AllTables<'_>,
    cells: &Boxed,
    k: u32,
    v: i64,
) -> Result<bool, Memory>
    requires asked { MayAsk problem.now tables.old cells.now.present }
    requires cell { IsCell k cells.now }
    requires value { Contains (cell_of k cells.now) v }
    ensures same { tables.new ≡ tables.old }
    ensures free { IfOk result (λ free. IsTrue free → (j : ℕ) →
        IsRefuted problem.now.model.now.requirements.items (search_of problem.now).spans j k
        (only k v cells.now.present) → ⊥) }
{
    for j in 1..problem.requirements() + 1 {
        if problem.refutes_value(alloc, tables, j, k, v, cells)? {
            return Ok(false);
        }
    }
    Ok(true)
}
