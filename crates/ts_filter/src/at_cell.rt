//! What the span of a box at one cell excludes.

ghost use Rattle.std.specs.Prelude.{◌≡◌, ◌↔◌, ◌≤◌, Contains, IfOk, IsTrue, None, length};
ghost use Rattle.ts_bound.specs.TermSpans.{LooksIn, automata_of, term_span};
ghost use Rattle.ts_domain.specs.BoxSeries.{IsCell, cell_of};
ghost use Rattle.ts_filter.specs.Question.{Excludes};
ghost use Rattle.ts_filter.specs.Boxes.{only};
ghost use Rattle.ts_filter.specs.Excluded.{Cuts, Refutes};
ghost use Rattle.ts_filter.specs.KnownRows.{AreKnown, StillKnown};
ghost use Rattle.ts_filter.specs.declared.bar.Bar.TheVariants.{Better};
ghost use Rattle.ts_glue.specs.Machines.{pair_of};

use crate::bar::Bar;
use crate::box_tables::BoxTables;
use crate::held_machine::HeldMachine;
use crate::question::Question;
use std::alloc::Global;
use ts_base::{Ext, Goal, Memory};
use ts_domain::Boxed;
use ts_glue::Machine;
use ts_model::Require;

impl<'a> BoxTables<'a> {
    /// Whether no number of the span at cell `p` does what is asked. For a machine that can't be split only the last
    /// cell may be asked about.
    pub(crate) fn excluded_at(
        &mut self,
        alloc: Global,
        asked: Question<'_>,
        p: u32,
        cells: &Boxed,
    ) -> Result<bool, Memory>
        requires cell { IsCell p cells.now }
        requires usable { self.old.machine.pair ≡ None → p ≡ length cells.now.present }
        requires looks { LooksIn self.old.machine cells.now.present }
        requires known { AreKnown cells.now.present self.old }
        ensures known { StillKnown cells.now.present self.old self.new }
        ensures answered { IfOk result (λ told. IsTrue told
            ↔ Excludes asked.entry (term_span self.old.machine p cells.now.present)) }
    {
        let k = self.read_at(p);
        self.make_at(alloc, asked, k, cells)?;
        let value = self.hulls_at(k, cells).showing(asked, self.likely_at(k));
        match value {
            Some(v) => {
                self.keep_likely(k, v)?;
                Ok(false)
            }
            None => Ok(true),
        }
    }

    /// Whether no number of the span at cell `k` does what is asked, on the box with the value `v` alone there.
    pub(crate) fn value_excluded_at(
        &mut self,
        alloc: Global,
        asked: Question<'_>,
        k: u32,
        v: i64,
        cells: &Boxed,
    ) -> Result<bool, Memory>
        requires cell { IsCell k cells.now }
        requires usable { self.old.machine.pair ≡ None → k ≡ length cells.now.present }
        requires looks { LooksIn self.old.machine cells.now.present }
        requires known { AreKnown cells.now.present self.old }
        requires value { Contains (cell_of k cells.now) v }
        ensures known { StillKnown cells.now.present self.old self.new }
        ensures answered { IfOk result (λ told. IsTrue told
            ↔ Excludes asked.entry (term_span self.old.machine k (only k v cells.now.present))) }
    {
        if !self.looks_at(k) {
            return self.excluded_at(alloc, asked, k, cells);
        }
        self.make_at(alloc, asked, k, cells)?;
        Ok(self.hulls_at(k, cells).value_excludes(asked, v))
    }
}

/// Whether the requirement is refuted at cell `p`: no number of its term's span there compares with the bound as it
/// says. `m` is taken as the machine of the term; if it can't be split, only the last cell may be asked about. Here, as
/// in every question, its window has to end at a cell of the box.
pub fn refuted(
    alloc: Global,
    m: &Machine,
    r: &Require,
    p: u32,
    cells: &Boxed,
) -> Result<bool, Memory>
    requires cell { IsCell p cells.now }
    requires usable { pair_of m.now ≡ None → p ≡ length cells.now.present }
    requires looks { LooksIn (automata_of m.now) cells.now.present }
    ensures { IfOk result (λ told. IsTrue told
        ↔ Refutes r.now.op r.now.bound (term_span (automata_of m.now) p cells.now.present)) }
{
    let asked = Question::Compares(r.op, r.bound);
    BoxTables::new(alloc, HeldMachine::Lent(m)).excluded_at(alloc, asked, p, cells)
}

/// Whether the objective isn't better at cell `p`: no number of its span there is better than `bar`. `m` is taken as
/// the machine of the objective; if it can't be split, only the last cell may be asked about.
pub fn worse(
    alloc: Global,
    m: &Machine,
    goal: Goal,
    p: u32,
    cells: &Boxed,
    bar: Ext,
) -> Result<bool, Memory>
    requires cell { IsCell p cells.now }
    requires usable { pair_of m.now ≡ None → p ≡ length cells.now.present }
    requires looks { LooksIn (automata_of m.now) cells.now.present }
    ensures { IfOk result (λ told. IsTrue told
        ↔ Cuts goal (Better bar) (term_span (automata_of m.now) p cells.now.present)) }
{
    let asked = Question::Counts(goal, Bar::Better(bar));
    BoxTables::new(alloc, HeldMachine::Lent(m)).excluded_at(alloc, asked, p, cells)
}

/// Whether no number of the objective's span at the last cell counts for the bar.
pub fn cut_at_end(
    alloc: Global,
    m: &Machine,
    goal: Goal,
    cells: &Boxed,
    bar: Bar,
) -> Result<bool, Memory>
    requires some { 1 ≤ length cells.now.present }
    requires looks { LooksIn (automata_of m.now) cells.now.present }
    ensures { IfOk result (λ told. IsTrue told
        ↔ Cuts goal bar (term_span (automata_of m.now) (length cells.now.present) cells.now.present)) }
{
    let n = cells.cells();
    let asked = Question::Counts(goal, bar);
    BoxTables::new(alloc, HeldMachine::Lent(m)).excluded_at(alloc, asked, n, cells)
}

/// Whether the requirement is refuted at cell `k` on the box with the value `v` alone there: the condition of a drop
/// where the cell has other values. The machine is that of `refuted`.
pub fn refuted_value(
    alloc: Global,
    m: &Machine,
    r: &Require,
    k: u32,
    v: i64,
    cells: &Boxed,
) -> Result<bool, Memory>
    requires cell { IsCell k cells.now }
    requires usable { pair_of m.now ≡ None → k ≡ length cells.now.present }
    requires looks { LooksIn (automata_of m.now) cells.now.present }
    requires value { Contains (cell_of k cells.now) v }
    ensures { IfOk result (λ told. IsTrue told
        ↔ Refutes r.now.op r.now.bound (term_span (automata_of m.now) k (only k v cells.now.present))) }
{
    let asked = Question::Compares(r.op, r.bound);
    BoxTables::new(alloc, HeldMachine::Lent(m)).value_excluded_at(alloc, asked, k, v, cells)
}
