//! The first cell below the last at which a span is excluded.

ghost use Rattle.std.specs.Prelude.{◌≡◌, ◌⊎◌, ◌≤◌, ◌+◌, IfOk, IsTrue, None, Some, false};
ghost use Rattle.ts_bound.specs.Looks.{first_looked};
ghost use Rattle.ts_bound.specs.TermSpans.{LooksIn, automata_of};
ghost use Rattle.ts_filter.specs.Question.{Excludes};
ghost use Rattle.ts_filter.specs.Excluded.{Cuts, Refutes};
ghost use Rattle.ts_filter.specs.FirstCell.{IsFirstCell, NoneBefore};
ghost use Rattle.ts_filter.specs.KnownRows.{AreKnown, StillKnown};

use crate::bar::Bar;
use crate::box_tables::BoxTables;
use crate::held_machine::HeldMachine;
use crate::question::Question;
use std::alloc::Global;
use ts_base::{Goal, Memory};
use ts_domain::Boxed;
use ts_glue::Machine;
use ts_model::Require;

impl<'a> BoxTables<'a> {
    /// The least cell below the last at which no number of the span does what is asked. None exactly where there is no
    /// such cell, as for every machine that can't be split.
    pub(crate) fn first_excluded(
        &mut self,
        alloc: Global,
        asked: Question<'_>,
        cells: &Boxed,
    ) -> Result<Option<u32>, Memory>
        requires looks { LooksIn self.old.machine cells.now.present }
        requires known { AreKnown cells.now.present self.old }
        ensures known { StillKnown cells.now.present self.old self.new }
        ensures found { IfOk result
            (λ found. IsFirstCell self.old.machine (Excludes asked.entry) cells.now.present found) }
    {
        if self.is_plain() {
            return Ok(None);
        }
        if self.excluded_before(alloc, asked, cells)? {
            return Ok(Some(1));
        }
        let (first, last) = self.ends(cells);
        let end = end_of_walk(last, cells.cells());
        for p in first..end {
            if self.excluded_at(alloc, asked, p, cells)? {
                return Ok(Some(p));
            }
        }
        Ok(None)
    }

    /// Whether the cells before the window are excluded: each of them has the span of the window's last cell.
    fn excluded_before(
        &mut self,
        alloc: Global,
        asked: Question<'_>,
        cells: &Boxed,
    ) -> Result<bool, Memory>
        requires split { self.old.machine.pair ≡ None → ⊥ }
        requires looks { LooksIn self.old.machine cells.now.present }
        requires known { AreKnown cells.now.present self.old }
        ensures known { StillKnown cells.now.present self.old self.new }
        ensures first { IfOk result (λ told. IsTrue told →
            IsFirstCell self.old.machine (Excludes asked.entry) cells.now.present (Some 1)) }
        ensures none { IfOk result (λ told. told ≡ false → NoneBefore
            self.old.machine (Excludes asked.entry) cells.now.present (first_looked self.old.machine.window)) }
    {
        let (first, last) = self.ends(cells);
        if first == 1 {
            return Ok(false);
        }
        self.excluded_at(alloc, asked, last, cells)
    }
}

/// The cell after those that are asked about one by one: these end with the last cell that is looked at, or before the
/// last of the box.
fn end_of_walk(last: u32, n: u32) -> u32
    ensures within { result ≤ n }
    ensures far { (n ≤ result) ⊎ (last + 1 ≤ result) }
{
    if last < n { last + 1 } else { n }
}

/// The least cell below the last at which no number of the objective's span counts for the bar. None exactly where
/// there is no such cell, as for every machine that can't be split.
pub fn first_cut(
    alloc: Global,
    m: &Machine,
    goal: Goal,
    cells: &Boxed,
    bar: Bar,
) -> Result<Option<u32>, Memory>
    requires { LooksIn (automata_of m.now) cells.now.present }
    ensures { IfOk result (λ found. IsFirstCell (automata_of m.now) (Cuts goal bar) cells.now.present found) }
{
    BoxTables::new(alloc, HeldMachine::Lent(m)).first_excluded(
        alloc,
        Question::Counts(goal, bar),
        cells,
    )
}

/// The least cell below the last at which the requirement is refuted. None exactly where there is no such cell, as for
/// every machine that can't be split.
pub fn first_refuted(
    alloc: Global,
    m: &Machine,
    r: &Require,
    cells: &Boxed,
) -> Result<Option<u32>, Memory>
    requires { LooksIn (automata_of m.now) cells.now.present }
    ensures { IfOk result
        (λ found. IsFirstCell (automata_of m.now) (Refutes r.now.op r.now.bound) cells.now.present found) }
{
    let asked = Question::Compares(r.op, r.bound);
    BoxTables::new(alloc, HeldMachine::Lent(m)).first_excluded(alloc, asked, cells)
}
