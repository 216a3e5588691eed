//! The value of a cell that is kept where one is to be chosen.

ghost use Rattle.std.specs.Prelude.{ℤ, Contains, IfOk};
ghost use Rattle.ts_bound.specs.TermSpans.{LooksIn, automata_of};
ghost use Rattle.ts_domain.specs.BoxSeries.{IsCell};
ghost use Rattle.ts_filter.specs.Boxes.{values_at};
ghost use Rattle.ts_filter.specs.CellHulls.{Serves};
ghost use Rattle.ts_filter.specs.KeptValue.{IsKept, IsPreferred, end_in};
ghost use Rattle.ts_filter.specs.KnownRows.{AreKnown, StillKnown};
ghost use Rattle.ts_filter.specs.declared.question.Question.TheVariants.{Ranks};

use crate::box_tables::BoxTables;
use crate::cell_hulls::CellHulls;
use crate::excluded::is_better;
use crate::held_machine::HeldMachine;
use crate::question::Question;
use std::alloc::Global;
use ts_base::{Goal, Memory};
use ts_domain::Boxed;
use ts_glue::Machine;

impl<'a> BoxTables<'a> {
    /// The value of cell `k` that leaves the objective the best number open: of the values with x_k alone there, the
    /// one whose span at `k` has the greatest upper end, or under `Minimise` the least lower end, and of several the
    /// least. For a machine that can't be split, and at a cell outside the window, it is the least value of the cell.
    pub(crate) fn kept_value(
        &mut self,
        alloc: Global,
        goal: Goal,
        k: u32,
        cells: &Boxed,
    ) -> Result<i64, Memory>
        requires cell { IsCell k cells.now }
        requires looks { LooksIn self.old.machine cells.now.present }
        requires known { AreKnown cells.now.present self.old }
        ensures known { StillKnown cells.now.present self.old self.new }
        ensures kept { IfOk result (λ v. IsKept self.old.machine goal k cells.now.present v) }
    {
        if self.is_plain() || !self.looks_at(k) {
            return Ok(cells.cell(k).least());
        }
        self.make_at(alloc, Question::Ranks(goal), k, cells)?;
        Ok(preferred(&self.hulls_at(k, cells), goal))
    }
}

/// The value of cell `k` that leaves the objective the best number open: of the values with x_k alone there, the one
/// whose span at `k` has the greatest upper end, or under `Minimise` the least lower end, and of several the least. For
/// a machine that can't be split, and at a cell outside the window, it is the least value of the cell.
pub fn kept_value(
    alloc: Global,
    m: &Machine,
    goal: Goal,
    k: u32,
    cells: &Boxed,
) -> Result<i64, Memory>
    requires cell { IsCell k cells.now }
    requires looks { LooksIn (automata_of m.now) cells.now.present }
    ensures { IfOk result (λ v. IsKept (automata_of m.now) goal k cells.now.present v) }
{
    BoxTables::new(alloc, HeldMachine::Lent(m)).kept_value(alloc, goal, k, cells)
}

/// The value of the cell whose span has the best end, the least of several.
fn preferred(hulls: &CellHulls<'_>, goal: Goal) -> i64
    requires { Serves hulls.now (Ranks goal) }
    ensures there { Contains (values_at hulls.now.cell hulls.now.cells) result }
    ensures best { (u : ℤ) → Contains (values_at hulls.now.cell hulls.now.cells) u →
        IsPreferred goal (end_in hulls.now.machine goal hulls.now.cell hulls.now.cells) result u }
{
    let values = hulls.values();
    let mut kept = values.least();
    let mut best = hulls.best_end_at(goal, 0, kept);
    let mut place = 0;
    for v in values.values_from(1) {
        place += 1;
        let end = hulls.best_end_at(goal, place, v);
        if is_better(goal, end, best) {
            kept = v;
            best = end;
        }
    }
    kept
}
