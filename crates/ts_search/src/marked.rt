//! What witnesses show of drops, marked before any is looked for.

ghost use Rattle.std.specs.Prelude.{◌≡◌, ◌↔◌, ◌⊎◌, ◌+◌, ◌<◌, ◌≤ℤ◌, ℤ, IfSome, IsTrue, Some};
ghost use Rattle.std.specs.Prelude.{length, slice_get};
ghost use Rattle.ts_domain.specs.BoxSeries.{IsCell};
ghost use Rattle.ts_filter.specs.Boxes.{IsPart, values_at};
ghost use Rattle.ts_filter.specs.KeptCells.{IsSpared};
ghost use Rattle.ts_filter.specs.RefutedWorseDrop.{IsDrop};
ghost use Rattle.ts_model.specs.declared.model.Require.{Require};
ghost use Rattle.ts_search.specs.Posed.{IsPosed};
ghost use Rattle.ts_search.specs.Shown.{AreEnds, AreMarked, AreMet, AreShown, CanSpare, IsEnds, IsOn};
ghost use Rattle.ts_search.specs.Views.{search_of};

use crate::problem::Problem;
use crate::witnesses::Witnesses;
use ts_base::limits::CELL_VALUE;
use ts_bound::ends;
use ts_domain::{Boxed, Interval};

/// A cell that the machine of a term looks at, and its place among these cells, both counted from 1.
#[derive(Clone, Copy)]
struct Looked {
    term: u32,
    cell: u32,
    place: u32,
}

impl<'a> Witnesses<'a> {
    /// Marks the terms of which no requirement is refuted, since all are met by their witnesses, and up to which value
    /// none of them drops one of a cell, as far as the witnesses show. Nothing is allocated.
    pub(crate) fn mark(&mut self, problem: &Problem<'_>, cells: &Boxed)
        requires posed { IsPosed problem.now }
        requires part { IsPart cells.now.present (search_of problem.now).model.cells }
        requires shown { AreShown problem.now self.old cells.now.present }
        ensures { AreMarked problem.now self.new cells.now.present }
    {
        self.kept.forget();
        note_ends(&mut self.ends, cells);
        for term in 0..problem.model.terms.len() {
            self.mark_term(problem, term as u32, cells);
        }
    }

    /// Marks a term, if its machine can be split, and the cells that this looks at.
    fn mark_term(&mut self, problem: &Problem<'_>, term: u32, cells: &Boxed)
        requires posed { IsPosed problem.now }
        requires part { IsPart cells.now.present (search_of problem.now).model.cells }
        requires marked { AreMarked problem.now self.old cells.now.present }
        requires term { term < length problem.now.model.now.terms.entries }
        ensures { AreMarked problem.now self.new cells.now.present }
    {
        let Some(i) = first_on(problem, term) else {
            return;
        };
        if !self.all_met(problem, term) {
            return;
        }
        let machine = self.each[i].machine;
        if machine.reverse().is_none() {
            return;
        }
        self.kept.keep_term(term as usize);
        let (first, last) = ends(machine.window(), cells.cells());
        for cell in first..last + 1 {
            let place = cell - (first - 1);
            self.mark_cell(problem, Looked { term, cell, place }, cells);
        }
    }

    /// Whether each requirement on the term is known to be met.
    fn all_met(&self, problem: &Problem<'_>, term: u32) -> bool
        requires { IsPosed problem.now }
        ensures { IsTrue result ↔ AreMet problem.now self.now term }
    {
        for i in 0..problem.model.requirements.len() {
            if problem.model.requirements[i].term == term && !self.shows(i as u32 + 1) {
                return false;
            }
        }
        true
    }

    /// Marks a cell of a term whose requirements all are met with the value up to which none of them drops one there.
    fn mark_cell(&mut self, problem: &Problem<'_>, at: Looked, cells: &Boxed)
        requires posed { IsPosed problem.now }
        requires part { IsPart cells.now.present (search_of problem.now).model.cells }
        requires marked { AreMarked problem.now self.old cells.now.present }
        requires term { at.term < length problem.now.model.now.terms.entries }
        requires cell { IsCell at.cell cells.now }
        requires met { AreMet problem.now self.old at.term }
        requires spare { CanSpare problem.now at }
        ensures marked { AreMarked problem.now self.new cells.now.present }
        ensures met { AreMet problem.now self.new at.term }
    {
        let values = self.ends[at.cell as usize - 1];
        if values.low == values.high {
            return;
        }
        let limit = self.spares_up_to(problem, at, values, cells);
        if limit < values.low {
            return;
        }
        let limit = or_above_all(limit, values.high);
        self.kept.keep_cell(at.term as usize, at.cell, limit);
    }

    /// Up to which value no requirement on a term, all of which are met, drops one of the cell, as far as their
    /// witnesses show. Its domain has these ends.
    fn spares_up_to(
        &mut self,
        problem: &Problem<'_>,
        at: Looked,
        values: Interval,
        cells: &Boxed,
    ) -> i64
        requires posed { IsPosed problem.now }
        requires part { IsPart cells.now.present (search_of problem.now).model.cells }
        requires shown { AreShown problem.now self.old cells.now.present }
        requires cell { IsCell at.cell cells.now }
        requires met { AreMet problem.now self.old at.term }
        requires spare { CanSpare problem.now at }
        requires ends { IsEnds (values_at at.cell cells.now.present) values }
        ensures shown { AreShown problem.now self.new cells.now.present }
        ensures met { AreMet problem.now self.new at.term }
        ensures same { self.new.kept ≡ self.old.kept }
        ensures same_ends { self.new.ends ≡ self.old.ends }
        ensures spared { IsSpared problem.now.model.now.requirements.items
            (search_of problem.now).spans cells.now.present at.term at.cell result }
    {
        let mut limit = values.high;
        for i in 0..problem.model.requirements.len() {
            limit = self.spares_by_one(problem, i, at, values, limit, cells);
        }
        limit
    }

    /// Up to which value, `limit` at most, the requirement at place `i`, counted from 0, drops none of the cell, whose
    /// domain has these ends; `limit` where it is on another term. Its witness is asked even where no value is left, so
    /// that its runs are known there.
    fn spares_by_one(
        &mut self,
        problem: &Problem<'_>,
        i: usize,
        at: Looked,
        values: Interval,
        limit: i64,
        cells: &Boxed,
    ) -> i64
        requires posed { IsPosed problem.now }
        requires part { IsPart cells.now.present (search_of problem.now).model.cells }
        requires shown { AreShown problem.now self.old cells.now.present }
        requires place { i < length problem.now.model.now.requirements.items }
        requires cell { IsCell at.cell cells.now }
        requires met { AreMet problem.now self.old at.term }
        requires spare { CanSpare problem.now at }
        requires ends { IsEnds (values_at at.cell cells.now.present) values }
        ensures shown { AreShown problem.now self.new cells.now.present }
        ensures met { AreMet problem.now self.new at.term }
        ensures same { self.new.kept ≡ self.old.kept }
        ensures same_ends { self.new.ends ≡ self.old.ends }
        ensures most { result ≤ℤ limit }
        ensures spared { (r : Require) →
            slice_get problem.now.model.now.requirements.items i ≡ Some r → r.term ≡ at.term → (v : ℤ) →
            v ≤ℤ result → IsDrop problem.now.model.now.requirements.items (search_of problem.now).spans at.cell v
            (i + 1)
            cells.now.present → ⊥ }
    {
        let r = &problem.model.requirements[i];
        if r.term != at.term {
            return limit;
        }
        self.each[i].spares_up_to(r, at.place, values.low, limit)
    }
}

/// The limit, or one above all values that a cell may have where it is the greatest of the cell.
fn or_above_all(limit: i64, greatest: i64) -> i64
    ensures { (result ≡ limit) ⊎ (limit ≡ greatest) }
{
    if limit == greatest { CELL_VALUE } else { limit }
}

/// The place of the first requirement on the term, counted from 0.
fn first_on(problem: &Problem<'_>, term: u32) -> Option<usize>
    ensures { IfSome result (λ i. IsOn problem.now term i) }
{
    for i in 0..problem.model.requirements.len() {
        if problem.model.requirements[i].term == term {
            return Some(i);
        }
    }
    None
}

/// Notes the ends of each domain of the box.
fn note_ends(ends: &mut Vec<Interval>, cells: &Boxed)
    requires { length ends.old.items ≡ length cells.now.present }
    ensures count { length ends.new.items ≡ length cells.now.present }
    ensures ends { AreEnds cells.now.present ends.new.items }
{
    for k in 0..cells.cells() {
        ends[k as usize] = cells.cell(k + 1).ends();
    }
}
