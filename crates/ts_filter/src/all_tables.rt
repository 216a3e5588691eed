//! Tables that follow a box, of the machines of all terms of a model.

ghost use Rattle.std.specs.Prelude.{◌≡◌, ◌↔◌, ◌<◌, ◌≤◌, Contains, IfOk, IsTrue, OnOk, None};
ghost use Rattle.std.specs.Prelude.{length, map};
ghost use Rattle.std.specs.List.{AllByRecursion};
ghost use Rattle.ts_base.specs.Limits.{too_many};
ghost use Rattle.ts_bound.specs.Room.{bytes_from, most_bytes};
ghost use Rattle.ts_bound.specs.TermSpans.{LooksIn, automata_of, term_span};
ghost use Rattle.ts_domain.specs.BoxSeries.{IsCell, cell_of};
ghost use Rattle.ts_filter.specs.Boxes.{Box, only};
ghost use Rattle.ts_filter.specs.Drops.{IsFirstDrop};
ghost use Rattle.ts_filter.specs.Excluded.{Cuts, Refutes};
ghost use Rattle.ts_filter.specs.FirstCell.{IsFirstCell};
ghost use Rattle.ts_filter.specs.KeptCells.{AreKept};
ghost use Rattle.ts_filter.specs.KeptValue.{IsKept};
ghost use Rattle.ts_filter.specs.MachineSpans.{spans_of};
ghost use Rattle.ts_filter.specs.OfTerm.{OfTerm};
ghost use Rattle.ts_filter.specs.Tables.{AreRowsOfEach, machines_of, named_terms};
ghost use Rattle.ts_filter.specs.declared.bar.Bar.TheVariants.{Better};

use crate::bar::Bar;
use crate::box_tables::BoxTables;
use crate::courses::{TermCourse, first_by_cells};
use crate::drops::Removal;
use crate::held_machine::HeldMachine;
use crate::kept_cells::KeptCells;
use crate::meeting::meet;
use crate::question::Question;
use crate::spares::Spares;
use std::alloc::Global;
use std::marker::Model;
use ts_base::{Ext, Goal, Memory};
use ts_bound::{Others, has_room};
use ts_domain::{Boxed, Domain};
use ts_glue::Machine;
use ts_model::Require;

/// The machines of the terms, in their order, each with the rows of hulls that are known of one box, and that box. Each
/// box has to be brought before it is asked about: then the rows that depend on a cell that differs are forgotten.
/// Callers need not report what changed. If the rows of all might take too much memory, none are kept after a question.
/// The window of each machine that a question is put to has to end at a cell of the box. `courses` has memory for
/// `next_drop`.
#[derive(Drop)]
pub struct AllTables<'a> {
    pub(crate) each: Vec<BoxTables<'a>>,
    pub(crate) keeps: bool,
    seen: Vec<Domain>,
    others: Others,
    courses: Vec<TermCourse>,
}

impl<'a> Model for AllTables<'a> {
    ghost use Rattle.std.specs.Coded.{codes};
    ghost use Rattle.ts_automaton.specs.Codes.{formula_code};
    ghost use Rattle.ts_filter.specs.Tables.{AreRowsOfEach, Tables, machines_of};

    ghost Value = { Tables };

    ghost coded = { Prim.hlevel (codes, formula_code) };

    ghost view = { λ t. record { machines = machines_of t.each.items; cells = t.seen.items } };

    ghost invariant = { λ t. AreRowsOfEach t.seen.items t.each.items };
}

impl<'a> AllTables<'a> {
    /// The tables of these machines, of which nothing is known yet. Questions will be put only to the terms that the
    /// requirements or the objective name, of boxes with no more values than `cells`: that decides whether rows are
    /// kept, or made again for each question.
    pub fn new(
        alloc: Global,
        machines: &'a [Machine],
        requirements: &[Require],
        objective: Option<u32>,
        cells: &[Domain],
    ) -> Result<AllTables<'a>, Memory>
        ensures { IfOk result (λ t. t.machines ≡ map automata_of machines.now) }
    {
        let keeps = keeps_rows(alloc, machines, requirements, objective, cells)?;
        let mut each = Vec::new(alloc);
        for machine in machines {
            each.push(BoxTables::new(alloc, HeldMachine::Lent(machine)))?;
        }
        Ok(AllTables::of(alloc, each, keeps))
    }

    /// The tables of these machines, which they own, of which nothing is known yet. Questions will be put only to the
    /// terms that the requirements or the objective name, of boxes with no more values than `cells`.
    pub fn owning(
        alloc: Global,
        machines: Vec<Machine>,
        requirements: &[Require],
        objective: Option<u32>,
        cells: &[Domain],
    ) -> Result<AllTables<'a>, Memory>
        ensures { IfOk result (λ t. t.machines ≡ map automata_of machines.items) }
    {
        let keeps = keeps_rows(alloc, &machines, requirements, objective, cells)?;
        let mut each = Vec::new(alloc);
        for machine in machines {
            each.push(BoxTables::new(alloc, HeldMachine::Own(machine)))?;
        }
        Ok(AllTables::of(alloc, each, keeps))
    }

    /// Makes the tables those of this box, and so forgets the rows that depend on a cell that differs. The row of a
    /// cell that only lost values shows the others alone, and shows these again once they are back. Each cell is
    /// compared once, whatever number of terms look at it. After `Memory` the tables are those of some box.
    pub fn bring(&mut self, alloc: Global, cells: &Boxed) -> Result<(), Memory>
        requires looks { AllByRecursion (λ a. LooksIn a cells.now.present) self.old.machines }
        ensures machines { self.new.machines ≡ self.old.machines }
        ensures on { OnOk result (self.new.cells ≡ cells.now.present) }
    {
        meet(
            alloc,
            &mut self.each,
            &mut self.seen,
            &mut self.others,
            cells,
        )
    }

    /// How many questions were put to the tables of all terms, each about one cell, and how many values spans were
    /// asked about when drops were looked for, in all. No answer depends on it: it is for tests and measurements, which
    /// see by it what was spared.
    pub fn asked(&self) -> u64 {
        let mut count: u64 = 0;
        for tables in &self.each {
            count = count.wrapping_add(tables.questions());
        }
        count
    }

    /// Whether the machine of the term can't be split.
    pub fn is_plain(&self, term: u32) -> bool
        requires { term < length self.now.machines }
        ensures { OfTerm self.now.machines term (λ a. IsTrue result ↔ (a.pair ≡ None)) }
    {
        self.each[term as usize].is_plain()
    }

    /// Whether the requirement is refuted at cell `p`, by the span of its term's machine there. For a machine that
    /// can't be split only the last cell may be asked about.
    pub fn refuted(
        &mut self,
        alloc: Global,
        r: &Require,
        p: u32,
        cells: &Boxed,
    ) -> Result<bool, Memory>
        requires there { r.now.term < length self.old.machines }
        requires cell { IsCell p cells.now }
        requires usable { OfTerm self.old.machines r.now.term (λ a. a.pair ≡ None → p ≡ length cells.now.present) }
        requires looks { OfTerm self.old.machines r.now.term (λ a. LooksIn a cells.now.present) }
        requires on { self.old.cells ≡ cells.now.present }
        ensures same { self.new ≡ self.old }
        ensures answered { IfOk result (λ told. OfTerm self.old.machines r.now.term (λ a. IsTrue told
            ↔ Refutes r.now.op r.now.bound (term_span a p cells.now.present))) }
    {
        let asked = Question::Compares(r.op, r.bound);
        self.excluded_at(alloc, r.term, asked, p, cells)
    }

    /// Whether `term`, the objective, isn't better than `bar` at cell `p`, by the span of its machine there. For a
    /// machine that can't be split only the last cell may be asked about.
    pub fn worse(
        &mut self,
        alloc: Global,
        term: u32,
        goal: Goal,
        p: u32,
        cells: &Boxed,
        bar: Ext,
    ) -> Result<bool, Memory>
        requires there { term < length self.old.machines }
        requires cell { IsCell p cells.now }
        requires usable { OfTerm self.old.machines term (λ a. a.pair ≡ None → p ≡ length cells.now.present) }
        requires looks { OfTerm self.old.machines term (λ a. LooksIn a cells.now.present) }
        requires on { self.old.cells ≡ cells.now.present }
        ensures same { self.new ≡ self.old }
        ensures answered { IfOk result (λ told. OfTerm self.old.machines term (λ a. IsTrue told
            ↔ Cuts goal (Better bar) (term_span a p cells.now.present))) }
    {
        let asked = Question::Counts(goal, Bar::Better(bar));
        self.excluded_at(alloc, term, asked, p, cells)
    }

    /// Whether the requirement is refuted at cell `k` on the box with the value `v` alone there. For a machine that
    /// can't be split only the last cell may be asked about.
    pub fn refuted_value(
        &mut self,
        alloc: Global,
        r: &Require,
        k: u32,
        v: i64,
        cells: &Boxed,
    ) -> Result<bool, Memory>
        requires there { r.now.term < length self.old.machines }
        requires cell { IsCell k cells.now }
        requires usable { OfTerm self.old.machines r.now.term (λ a. a.pair ≡ None → k ≡ length cells.now.present) }
        requires looks { OfTerm self.old.machines r.now.term (λ a. LooksIn a cells.now.present) }
        requires value { Contains (cell_of k cells.now) v }
        requires on { self.old.cells ≡ cells.now.present }
        ensures same { self.new ≡ self.old }
        ensures answered { IfOk result (λ told. OfTerm self.old.machines r.now.term (λ a. IsTrue told
            ↔ Refutes r.now.op r.now.bound (term_span a k (only k v cells.now.present)))) }
    {
        let asked = Question::Compares(r.op, r.bound);
        self.value_excluded_at(alloc, r.term, asked, k, v, cells)
    }

    /// The least cell below the last at which the requirement is refuted. None exactly where there is no such cell.
    pub fn first_refuted(
        &mut self,
        alloc: Global,
        r: &Require,
        cells: &Boxed,
    ) -> Result<Option<u32>, Memory>
        requires there { r.now.term < length self.old.machines }
        requires looks { OfTerm self.old.machines r.now.term (λ a. LooksIn a cells.now.present) }
        requires on { self.old.cells ≡ cells.now.present }
        ensures same { self.new ≡ self.old }
        ensures found { IfOk result (λ found. OfTerm self.old.machines r.now.term
            (λ a. IsFirstCell a (Refutes r.now.op r.now.bound) cells.now.present found)) }
    {
        let asked = Question::Compares(r.op, r.bound);
        self.first_excluded(alloc, r.term, asked, cells)
    }

    /// Whether no number of the span of `term`, the objective, counts for the bar at the last cell.
    pub fn cut_at_end(
        &mut self,
        alloc: Global,
        term: u32,
        goal: Goal,
        cells: &Boxed,
        bar: Bar,
    ) -> Result<bool, Memory>
        requires there { term < length self.old.machines }
        requires some { 1 ≤ length cells.now.present }
        requires looks { OfTerm self.old.machines term (λ a. LooksIn a cells.now.present) }
        requires on { self.old.cells ≡ cells.now.present }
        ensures same { self.new ≡ self.old }
        ensures answered { IfOk result (λ told. OfTerm self.old.machines term (λ a. IsTrue told
            ↔ Cuts goal bar (term_span a (length cells.now.present) cells.now.present))) }
    {
        let n = cells.cells();
        let asked = Question::Counts(goal, bar);
        self.excluded_at(alloc, term, asked, n, cells)
    }

    /// The least cell below the last at which no number of the span of `term`, the objective, counts for the bar. None
    /// exactly where there is no such cell.
    pub fn first_cut(
        &mut self,
        alloc: Global,
        term: u32,
        goal: Goal,
        cells: &Boxed,
        bar: Bar,
    ) -> Result<Option<u32>, Memory>
        requires there { term < length self.old.machines }
        requires looks { OfTerm self.old.machines term (λ a. LooksIn a cells.now.present) }
        requires on { self.old.cells ≡ cells.now.present }
        ensures same { self.new ≡ self.old }
        ensures found { IfOk result
            (λ found. OfTerm self.old.machines term (λ a. IsFirstCell a (Cuts goal bar) cells.now.present found)) }
    {
        let asked = Question::Counts(goal, bar);
        self.first_excluded(alloc, term, asked, cells)
    }

    /// The value of cell `k` that leaves `term`, the objective, the best number open.
    pub fn kept_value(
        &mut self,
        alloc: Global,
        term: u32,
        goal: Goal,
        k: u32,
        cells: &Boxed,
    ) -> Result<i64, Memory>
        requires there { term < length self.old.machines }
        requires cell { IsCell k cells.now }
        requires looks { OfTerm self.old.machines term (λ a. LooksIn a cells.now.present) }
        requires on { self.old.cells ≡ cells.now.present }
        ensures same { self.new ≡ self.old }
        ensures kept { IfOk result (λ v. OfTerm self.old.machines term (λ a. IsKept a goal k cells.now.present v)) }
    {
        let keeps = self.keeps;
        let tables = &mut self.each[term as usize];
        let kept = tables.kept_value(alloc, goal, k, cells);
        tables.leave(keeps);
        kept
    }

    /// The possible drop with the least cell, then the least value, then the least requirement; none exactly where none
    /// is possible. Nothing is asked of a machine at the cells that are kept, nor of a value that is free. Drops are
    /// looked for cell by cell, in all terms: no later cell is asked about. Only if no rows are kept after a question,
    /// it is done one term after another.
    pub fn next_drop<S: Spares>(
        &mut self,
        alloc: Global,
        requirements: &[Require],
        cells: &Boxed,
        kept: &KeptCells,
        spares: &S,
    ) -> Result<Option<Removal>, Memory>
        requires machines { length self.old.machines < too_many }
        requires requirements { length requirements.now < too_many }
        requires terms { AllByRecursion (λ r. r.term < length self.old.machines) requirements.now }
        requires looks { AllByRecursion (λ a. LooksIn a cells.now.present) self.old.machines }
        requires kept { AreKept requirements.now (spans_of self.old.machines) cells.now.present kept.now }
        requires spares { S.knows requirements.now (spans_of self.old.machines) cells.now.present spares.now }
        requires on { self.old.cells ≡ cells.now.present }
        ensures same { self.new ≡ self.old }
        ensures found { IfOk result
            (λ found. IsFirstDrop requirements.now (spans_of self.old.machines) cells.now.present found) }
    {
        if !self.keeps {
            return self.first_by_terms(alloc, requirements, cells, kept, spares);
        }
        first_by_cells(
            alloc,
            &mut self.each,
            &mut self.courses,
            requirements,
            kept,
            spares,
            cells,
        )
    }
}

impl<'a> AllTables<'a> {
    /// Tables of which nothing is known. `keeps` says whether rows are kept after a question.
    fn of(alloc: Global, each: Vec<BoxTables<'a>>, keeps: bool) -> AllTables<'a>
        requires { (b : Box) → AreRowsOfEach b each.items }
        ensures { result.machines ≡ machines_of each.entry.items }
    {
        AllTables {
            each,
            keeps,
            seen: Vec::new(alloc),
            others: Others::none(alloc),
            courses: Vec::new(alloc),
        }
    }
}

/// Whether the rows of the terms that are named have room, of boxes with no more values than `cells`.
fn keeps_rows(
    alloc: Global,
    machines: &[Machine],
    requirements: &[Require],
    objective: Option<u32>,
    cells: &[Domain],
) -> Result<bool, Memory>
    ensures { IfOk result (λ keeps. IsTrue keeps
        ↔ (bytes_from (named_terms requirements.now objective) 0 (map automata_of machines.now) cells.now
        ≤ most_bytes)) }
{
    let named = named_terms(alloc, requirements, objective)?;
    Ok(has_room(machines, &named, cells))
}

/// The terms that the requirements name, and that of the objective.
fn named_terms(
    alloc: Global,
    requirements: &[Require],
    objective: Option<u32>,
) -> Result<Vec<u32>, Memory>
    ensures { IfOk result (λ named. named.items ≡ named_terms requirements.now objective) }
{
    let mut named: Vec<u32> = requirements.iter().map(|r| r.term).collect(alloc)?;
    if let Some(term) = objective {
        named.push(term)?;
    }
    Ok(named)
}
