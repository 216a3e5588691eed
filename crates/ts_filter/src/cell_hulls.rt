//! The spans at a cell, from the hulls there, as far as a question needs them.

ghost use Rattle.std.specs.Prelude.{
  ◌≡◌,
  ◌↔◌,
  ◌+◌,
  ◌<◌,
  ◌≤◌,
  map,
  ℤ,
  [],
  ◌∷◌,
  Contains,
  IsTrue,
  None,
  Some,
  length,
  slice_get,
};
ghost use Rattle.std.specs.Result.{result_ok};
ghost use Rattle.ts_base.specs.Windows.{looked_at};
ghost use Rattle.ts_bound.specs.Blocks.{last_at, split_at};
ghost use Rattle.ts_bound.specs.Laws.{AreAutomata};
ghost use Rattle.ts_bound.specs.Looks.{count_looked, place_in};
ghost use Rattle.ts_bound.specs.TermSpans.{automata_of, term_span, value_span};
ghost use Rattle.ts_bound.specs.AnyRows.{form_of, form_sides, viewed};
ghost use Rattle.ts_filter.specs.Question.{AsksEach, Excludes};
ghost use Rattle.ts_filter.specs.Ends.{best_end};
ghost use Rattle.ts_filter.specs.declared.question.Question.TheVariants.{Ranks};
ghost use Rattle.ts_filter.specs.Boxes.{values_at};
ghost use Rattle.ts_filter.specs.Alike.{IsServed};
ghost use Rattle.ts_filter.specs.CellHulls.{AreMet, HasHulls, IsAheadRow, IsBackSide, Serves, places_of};
ghost use Rattle.ts_filter.specs.SoFar.{IsSoFar, IsWholeSpan, WithParts};
ghost use Rattle.ts_filter.specs.TermDrops.{IsFirstRefuting};
ghost use Rattle.ts_glue.specs.Machines.{forward_of, pair_of, window_of};
ghost use Rattle.ts_meet.specs.Settled.{Between};
ghost use Rattle.ts_meet.specs.Meets.{hull_of_spans};

use crate::excluded::best_end;
use crate::many_values::{AT_ONCE, last_places, split_places};
use crate::question::Question;
use crate::so_far::SoFar;
use crate::term_requirements::TermRequirements;
use std::marker::Model;
use ts_base::{Ext, Goal, Span};
use ts_bound::{AnyView, asked_between, looked_count, settled_between};
use ts_domain::{Boxed, Domain};
use ts_glue::Machine;
use ts_meet::{Joints, Spot};

/// After a value that pairs of states don't settle, pairs are followed along the places if this many or more are left.
const MANY_PLACES: u64 = 16;

/// The row of a cell of the reverse automaton, and how it is glued to the forward one.
#[derive(Drop)]
pub(crate) struct BackSide<'a> {
    pub(crate) row: AnyView<'a>,
    pub(crate) joints: &'a Joints,
}

/// The rows of one cell of a box that the machine looks at: that of the forward automaton, and that of the reverse one,
/// which the last of these cells can do without. Contracts see the machine, the box and the cell.
#[derive(Drop)]
pub(crate) struct CellHulls<'a> {
    pub(crate) machine: &'a Machine,
    pub(crate) cells: &'a Boxed,
    pub(crate) cell: u32,
    pub(crate) row: AnyView<'a>,
    pub(crate) back: Option<BackSide<'a>>,
}

impl<'a> Model for CellHulls<'a> {
    ghost use Rattle.std.specs.Coded.{codes};
    ghost use Rattle.ts_automaton.specs.Codes.{formula_code};
    ghost use Rattle.ts_bound.specs.TermSpans.{automata_of};
    ghost use Rattle.ts_bound.specs.AnyRows.{form_of, form_sides, viewed};
    ghost use Rattle.ts_filter.specs.CellHulls.{AreHulls, AtCell, at_cell};

    ghost Value = { AtCell };

    ghost coded = { Prim.hlevel (codes, formula_code) };

    ghost view = { λ h. at_cell (automata_of h.machine.now) h.cells.now.present h.cell
        (form_sides (form_of (viewed h.row))) };

    ghost invariant = { λ h. AreHulls (automata_of h.machine.now) h.cells.now.present h.cell (viewed h.row)
        h.back };
}

impl<'a> CellHulls<'a> {
    /// The number of the cell, counted from 1.
    pub(crate) fn cell(&self) -> u32
        ensures { result ≡ self.now.cell }
    {
        self.cell
    }

    /// The values of the cell.
    pub(crate) fn values(&self) -> &Domain
        ensures values { result.now ≡ values_at self.now.cell self.now.cells }
        ensures there { HasHulls self.now.machine self.now.cell self.now.cells }
    {
        self.cells.cell(self.cell)
    }

    /// The value at place `i`, counted from 0. The first one, which is asked about most, is an end of the set.
    fn value_at(&self, i: u64) -> i64
        requires { i < length (values_at self.now.cell self.now.cells) }
        ensures { slice_get (values_at self.now.cell self.now.cells) i ≡ Some result }
    {
        let values = self.values();
        if i == 0 {
            values.least()
        } else {
            values.nth(i)
        }
    }

    /// A value with which it shows that some number of the span at the cell does what is asked; none exactly where no
    /// number does. The value `likely` is asked about first, if it is one of the cell.
    pub(crate) fn showing(&self, asked: Question<'_>, likely: i64) -> Option<i64>
        requires { Serves self.now asked }
        ensures { (result ≡ None)
            ↔ Excludes asked.entry (term_span self.now.machine self.now.cell self.now.cells) }
    {
        if self.shows(asked, likely) {
            return Some(likely);
        }
        self.with_all(asked).err()
    }

    /// Whether `v` is a value of the cell and some number of its span does what is asked.
    fn shows(&self, asked: Question<'_>, v: i64) -> bool
        requires { Serves self.now asked }
        ensures { IsTrue result →
            Excludes asked.entry (term_span self.now.machine self.now.cell self.now.cells) → ⊥ }
    {
        self.values().contains(v) && !self.value_excludes(asked, v)
    }

    /// The number of the first of these requirements that the span at the cell refutes.
    pub(crate) fn first_refuted_by_all(
        &self,
        asked: Question<'_>,
        requirements: TermRequirements<'_>,
    ) -> Option<u32>
        requires serves { Serves self.now asked }
        requires asked { AsksEach requirements asked }
        ensures { IsFirstRefuting requirements.entry.all.now requirements.entry.term
            (term_span self.now.machine self.now.cell self.now.cells) result }
    {
        let known = self.with_all(asked).ok()?;
        requirements.first_refuted(known.span)
    }

    /// The span at the cell, if no number of it does what is asked; otherwise a value with which it shows that one
    /// does. The span is the hull of the spans of the values, and one with such a number settles the question: the
    /// first is asked about alone, since it often does, and the others many at once.
    fn with_all<'b>(&self, asked: Question<'b>) -> Result<SoFar<'b>, i64>
        requires { Serves self.now asked }
        ensures { IsWholeSpan asked.entry (term_span self.now.machine self.now.cell self.now.cells)
            (result_ok result) }
    {
        let values = self.values();
        let count = values.size();
        let mut known = SoFar::none(asked);
        let mut at = 0;
        while at < count {
            let to = next_stop(at, count);
            match self.with_places(known, at, to) {
                Some(more) => known = more,
                None => return Err(self.shown_between(asked, at, to)),
            }
            at = to;
        }
        Ok(known)
    }

    /// A span with those of the values at the places from `from` on added, before `to`; none once a number does what is
    /// asked.
    fn with_places<'b>(&self, so_far: SoFar<'b>, from: u64, to: u64) -> Option<SoFar<'b>>
        requires serves { Serves self.now so_far.asked }
        requires known { IsSoFar so_far }
        requires order { from < to }
        requires few { to ≤ from + 64 }
        requires inside { to ≤ length (values_at self.now.cell self.now.cells) }
        ensures { WithParts so_far.entry (hull_of_spans (map
            (value_span self.now.machine self.now.cell self.now.cells)
            (places_of from to (values_at self.now.cell self.now.cells))) ∷ []) result }
    {
        if to - from == 1 {
            return self.with_value(so_far, from, self.value_at(from));
        }
        self.with_many(so_far, from, to)
    }

    /// A span with those of many values at the places from `from` on added, before `to`; none once a number does what
    /// is asked.
    fn with_many<'b>(&self, so_far: SoFar<'b>, from: u64, to: u64) -> Option<SoFar<'b>>
        requires serves { Serves self.now so_far.asked }
        requires order { from ≤ to }
        requires few { to ≤ from + 64 }
        requires inside { to ≤ length (values_at self.now.cell self.now.cells) }
        ensures { WithParts so_far.entry (hull_of_spans (map
            (value_span self.now.machine self.now.cell self.now.cells)
            (places_of from to (values_at self.now.cell self.now.cells))) ∷ []) result }
    {
        match &self.back {
            Some(back) => split_places(
                so_far,
                self.machine,
                &self.row,
                back,
                self.cells,
                self.cell,
                from,
                to,
            ),
            None => so_far.with(last_places(
                self.machine,
                &self.row,
                self.cells,
                self.cell,
                from,
                to,
            )),
        }
    }

    /// The first value at the places from `from` on, before `to`, of which some number does what is asked; the last one
    /// there if only all together do.
    fn shown_between(&self, asked: Question<'_>, from: u64, to: u64) -> i64
        requires serves { Serves self.now asked }
        requires order { from < to }
        requires inside { to ≤ length (values_at self.now.cell self.now.cells) }
    {
        let values = self.values();
        let mut i = from;
        for v in values.values_from(from) {
            if i + 1 == to || !self.excludes_at(asked, i, v) {
                return v;
            }
            i += 1;
        }
        values.least()
    }

    /// Whether no number of the span does what is asked, on the box with the value `v` alone at the cell.
    pub(crate) fn value_excludes(&self, asked: Question<'_>, v: i64) -> bool
        requires serves { Serves self.now asked }
        requires value { Contains (values_at self.now.cell self.now.cells) v }
        ensures { IsTrue result ↔ Excludes asked.entry (value_span self.now.machine self.now.cell self.now.cells v) }
    {
        let place = self.values().place_of(v);
        self.excludes_at(asked, place, v)
    }

    /// Whether no number of the span of the value `v` does what is asked, which is at place `i`, counted from 0.
    fn excludes_at(&self, asked: Question<'_>, i: u64, v: i64) -> bool
        requires serves { Serves self.now asked }
        requires value { slice_get (values_at self.now.cell self.now.cells) i ≡ Some v }
        ensures { IsTrue result ↔ Excludes asked.entry (value_span self.now.machine self.now.cell self.now.cells v) }
    {
        self.with_value(SoFar::none(asked), i, v).is_some()
    }

    /// The number of the first of these requirements that the span of the value `v` at place `i` refutes. Once some
    /// pairs of states leave none refuted, there is none.
    pub(crate) fn first_refuted(
        &self,
        asked: Question<'_>,
        requirements: TermRequirements<'_>,
        i: u64,
        v: i64,
    ) -> Option<u32>
        requires serves { Serves self.now asked }
        requires asked { AsksEach requirements asked }
        requires value { slice_get (values_at self.now.cell self.now.cells) i ≡ Some v }
        ensures { IsFirstRefuting requirements.entry.all.now requirements.entry.term
            (value_span self.now.machine self.now.cell self.now.cells v) result }
    {
        let known = self.with_value(SoFar::none(asked), i, v)?;
        requirements.first_refuted(known.span)
    }

    /// The best end of the span of the value `v` at place `i`.
    pub(crate) fn best_end_at(&self, goal: Goal, i: u64, v: i64) -> Ext
        requires serves { Serves self.now (Ranks goal) }
        requires value { slice_get (values_at self.now.cell self.now.cells) i ≡ Some v }
        ensures { result ≡ best_end goal (value_span self.now.machine self.now.cell self.now.cells v) }
    {
        match self.with_value(SoFar::none(Question::Ranks(goal)), i, v) {
            Some(known) => best_end(goal, known.span),
            None => unreachable!(),
        }
    }

    /// The place up to which, from the place `from` on, the spans of the values have what is asked, as pairs of states
    /// show whatever values are there. Of the places from there up to `to` nothing is known.
    pub(crate) fn settled_to(&self, asked: Question<'_>, from: u64, to: u64) -> u64
        requires serves { Serves self.now asked }
        requires order { from ≤ to }
        requires inside { to ≤ length (values_at self.now.cell self.now.cells) }
        ensures from { from ≤ result }
        ensures to { result ≤ to }
        ensures met { AreMet asked.entry self.now from result }
    {
        match &self.back {
            Some(back) => met_to(
                asked,
                self.machine,
                &self.row,
                back,
                self.cells,
                self.cell,
                from,
                to,
            ),
            None => from,
        }
    }

    /// The place up to which the spans of the values from the place `from` on have what is asked, as far as it pays to
    /// look: after a value that pairs of states don't settle, few are asked one by one at less cost.
    pub(crate) fn settled_further(&self, asked: Question<'_>, from: u64, to: u64) -> u64
        requires serves { Serves self.now asked }
        requires order { from ≤ to }
        requires inside { to ≤ length (values_at self.now.cell self.now.cells) }
        ensures from { from ≤ result }
        ensures to { result ≤ to }
        ensures met { AreMet asked.entry self.now from result }
    {
        if to - from < MANY_PLACES {
            return from;
        }
        self.settled_to(asked, from, to)
    }

    /// A span with that of the value `v` at place `i` added; none once a number does what is asked.
    fn with_value<'b>(&self, so_far: SoFar<'b>, i: u64, v: i64) -> Option<SoFar<'b>>
        requires serves { Serves self.now so_far.asked }
        requires known { IsSoFar so_far }
        requires value { slice_get (values_at self.now.cell self.now.cells) i ≡ Some v }
        ensures { WithParts so_far.entry (value_span self.now.machine self.now.cell self.now.cells v ∷ []) result }
    {
        match &self.back {
            Some(back) => split_value(
                so_far,
                self.machine,
                &self.row,
                back,
                self.cells,
                self.cell,
                i,
                v,
            ),
            None => last_value(so_far, self.machine, &self.row, self.cells, self.cell, i, v),
        }
    }
}

/// The place up to which values are asked about together, from a place on: the first one alone.
fn next_stop(at: u64, count: u64) -> u64
    requires { at < count }
    ensures more { at < result }
    ensures few { result ≤ at + 64 }
    ensures inside { result ≤ count }
{
    if at == 0 {
        1
    } else if count - at <= AT_ONCE {
        count
    } else {
        at + AT_ONCE
    }
}

/// A span with the finish span at the value `v` of cell `k` added, which is at place `i`; none once a number does what
/// is asked.
fn last_value<'a>(
    so_far: SoFar<'a>,
    m: &Machine,
    row: &AnyView<'_>,
    cells: &Boxed,
    k: u32,
    i: u64,
    v: i64,
) -> Option<SoFar<'a>>
    requires serves { IsServed (form_sides (form_of (viewed row.now))) (forward_of m.now).mark
        (count_looked (window_of m.now) (length cells.now.present)) so_far.asked }
    requires whole { AreAutomata (automata_of m.now) }
    requires known { IsSoFar so_far }
    requires hulls { HasHulls (automata_of m.now) k cells.now.present }
    requires row { IsAheadRow (automata_of m.now) k cells.now.present (viewed row.now) }
    requires value { slice_get (values_at k cells.now.present) i ≡ Some v }
    ensures { WithParts so_far.entry (last_at (forward_of m.now)
        (place_in (window_of m.now) k) (looked_at (window_of m.now) cells.now.present) v ∷ []) result }
{
    let n = looked_count(m.window(), cells.cells());
    so_far.with(row.finish(m.forward(), i as usize, n))
}

/// A span with the glued span at the value `v` of cell `k` added, which is at place `i`; none once a number does what
/// is asked.
fn split_value<'a>(
    so_far: SoFar<'a>,
    m: &Machine,
    row: &AnyView<'_>,
    back: &BackSide<'_>,
    cells: &Boxed,
    k: u32,
    i: u64,
    v: i64,
) -> Option<SoFar<'a>>
    requires serves { IsServed (form_sides (form_of (viewed row.now))) (forward_of m.now).mark
        (count_looked (window_of m.now) (length cells.now.present)) so_far.asked }
    requires known { IsSoFar so_far }
    requires hulls { HasHulls (automata_of m.now) k cells.now.present }
    requires row { IsAheadRow (automata_of m.now) k cells.now.present (viewed row.now) }
    requires form { form_of (viewed back.now.row) ≡ form_of (viewed row.now) }
    requires back { IsBackSide (automata_of m.now) k cells.now.present back.now }
    requires value { slice_get (values_at k cells.now.present) i ≡ Some v }
    ensures { WithParts so_far.entry (split_at (forward_of m.now) (pair_of m.now)
        (place_in (window_of m.now) k) (looked_at (window_of m.now) cells.now.present) v ∷ []) result }
{
    let n = looked_count(m.window(), cells.cells());
    let spot = Spot {
        place: i as usize,
        value: v,
        cells: n,
    };
    match asked_between(so_far.asked, so_far.span, back.joints, row, &back.row, spot) {
        Some(span) => Some(SoFar {
            asked: so_far.asked,
            span,
        }),
        None => None,
    }
}

/// The place up to which, from the place `from` on, the glued spans of the values have what is asked, as far as pairs
/// of states settle it at once.
fn met_to(
    asked: Question<'_>,
    m: &Machine,
    row: &AnyView<'_>,
    back: &BackSide<'_>,
    cells: &Boxed,
    k: u32,
    from: u64,
    to: u64,
) -> u64
    requires serves { IsServed (form_sides (form_of (viewed row.now))) (forward_of m.now).mark
        (count_looked (window_of m.now) (length cells.now.present)) asked }
    requires form { form_of (viewed back.now.row) ≡ form_of (viewed row.now) }
    requires hulls { HasHulls (automata_of m.now) k cells.now.present }
    requires row { IsAheadRow (automata_of m.now) k cells.now.present (viewed row.now) }
    requires back { IsBackSide (automata_of m.now) k cells.now.present back.now }
    requires order { from ≤ to }
    requires inside { to ≤ length (values_at k cells.now.present) }
    ensures from { from ≤ result }
    ensures to { result ≤ to }
    ensures met { Between from result (λ i. (v : ℤ) → slice_get (values_at k cells.now.present) i ≡ Some v →
        Excludes asked.entry (split_at (forward_of m.now) (pair_of m.now)
        (place_in (window_of m.now) k) (looked_at (window_of m.now) cells.now.present) v) → ⊥) }
{
    let n = looked_count(m.window(), cells.cells());
    settled_between(
        asked,
        back.joints,
        row,
        &back.row,
        n,
        from as usize,
        to as usize,
    ) as u64
}
