//! Packed rows of automata of either width, with both ends of each register or with one alone: the one module that
//! tells these forms apart, once a row and once a value of a cell.

ghost use Rattle.std.specs.List.{All};
ghost use Rattle.std.specs.Prelude.{◌≡◌, ◌+◌, ◌≤◌, ℤ, pos, get_or, List, [], ◌∷◌, IfOk, IsTrue, length};
ghost use Rattle.ts_automaton.specs.AutomatonRun.{AreCellValues};
ghost use Rattle.ts_base.specs.Limits.{IsCellValue};
ghost use Rattle.ts_base.specs.Spans.{none_span, span_hull};
ghost use Rattle.ts_bound.specs.AnyRows.{
  IsFormOf,
  IsRowOf,
  columns,
  form_of,
  form_sides,
  glued_between,
  lanes_of,
  row_part,
  row_without,
  viewed,
};
ghost use Rattle.ts_glue.specs.Pairs.{Pair};
ghost use Rattle.ts_meet.specs.Along.{finish_along, hull_over};
ghost use Rattle.ts_meet.specs.Asked.{IsAnswer};
ghost use Rattle.ts_meet.specs.Joints.{AreJoints};
ghost use Rattle.ts_meet.specs.Meets.{HasPlace, finish_hull};
ghost use Rattle.ts_meet.specs.Settled.{Between, HavePlaces};
ghost use Rattle.ts_row.specs.Plans.{IsPlanOf};
ghost use Rattle.ts_row.specs.Rows.{IsRow};
ghost use Rattle.ts_row.specs.Takings.{count_in};
ghost use Rattle.ts_sweep.specs.Sides.{BothEnds};

use crate::packed_rows::{first_packed_row, next_packed_row};
use crate::same_rows::are_same_columns;
use std::alloc::Global;
use ts_automaton::Automaton;
use ts_base::{Memory, Span};
use ts_meet::{Asked, Joints, Spot, asked_along, asked_at, finish_along, finish_at, settled_to};
use ts_row::{Cell, PackedRow, Plan, RowView};
use ts_sweep::packed::{LOWER, UPPER};

/// How a hull is packed: with both ends of the registers of a narrow automaton, with one end alone, or with both ends
/// of the five registers of a wide one.
#[derive(Clone, Copy, Debug, PartialEq, Eq)]
pub enum Form {
    Narrow,
    Upper,
    Lower,
    Wide,
}

impl Form {
    /// The form with both ends of the registers of automata of this width.
    pub fn whole(wide: bool) -> Form
        ensures width { IsFormOf wide result }
        ensures both { form_sides result ≡ BothEnds }
    {
        if wide { Form::Wide } else { Form::Narrow }
    }
}

/// A packed row, in one of the forms.
#[derive(Drop)]
pub enum AnyRow {
    Narrow(PackedRow<6>),
    Upper(PackedRow<UPPER>),
    Lower(PackedRow<LOWER>),
    Wide(PackedRow<10>),
}

/// The hulls of a row at some of its places, lent, in the row's form.
#[derive(Drop)]
pub enum AnyView<'a> {
    Narrow(RowView<'a, 6>),
    Upper(RowView<'a, UPPER>),
    Lower(RowView<'a, LOWER>),
    Wide(RowView<'a, 10>),
}

impl AnyRow {
    /// A row of this form without hulls.
    pub(crate) fn empty(alloc: Global, form: Form) -> AnyRow
        ensures { form_of result ≡ form }
    {
        match form {
            Form::Narrow => AnyRow::Narrow(PackedRow::empty(alloc)),
            Form::Upper => AnyRow::Upper(PackedRow::empty(alloc)),
            Form::Lower => AnyRow::Lower(PackedRow::empty(alloc)),
            Form::Wide => AnyRow::Wide(PackedRow::empty(alloc)),
        }
    }

    /// The form of the row.
    pub(crate) fn form(&self) -> Form
        ensures { result ≡ form_of self.now }
    {
        match self {
            AnyRow::Narrow(_) => Form::Narrow,
            AnyRow::Upper(_) => Form::Upper,
            AnyRow::Lower(_) => Form::Lower,
            AnyRow::Wide(_) => Form::Wide,
        }
    }

    /// The hulls at the places from `from` up to `to` of all states.
    pub(crate) fn part(&self, from: usize, to: usize) -> AnyView<'_>
        requires order { from ≤ to }
        requires inside { All (λ column. to ≤ length column) (columns self.now) }
        ensures { viewed result ≡ row_part from to self.now }
    {
        match self {
            AnyRow::Narrow(row) => AnyView::Narrow(row.part(from, to)),
            AnyRow::Upper(row) => AnyView::Upper(row.part(from, to)),
            AnyRow::Lower(row) => AnyView::Lower(row.part(from, to)),
            AnyRow::Wide(row) => AnyView::Wide(row.part(from, to)),
        }
    }

    /// The row of the cell at which runs start, in the same memory and form.
    pub(crate) fn started(
        self,
        alloc: Global,
        a: &Automaton,
        values: Cell<'_>,
    ) -> Result<AnyRow, Memory>
        requires { IsFormOf a.now.wide (form_of self) }
        ensures form { IfOk result (λ row. form_of row ≡ form_of self) }
        ensures row { IfOk result (λ row. IsRowOf a.now [] values.entry.values.now row) }
    {
        match self {
            AnyRow::Narrow(mut row) => {
                first_packed_row(alloc, a, values, &mut row)?;
                Ok(AnyRow::Narrow(row))
            }
            AnyRow::Upper(mut row) => {
                first_packed_row(alloc, a, values, &mut row)?;
                Ok(AnyRow::Upper(row))
            }
            AnyRow::Lower(mut row) => {
                first_packed_row(alloc, a, values, &mut row)?;
                Ok(AnyRow::Lower(row))
            }
            AnyRow::Wide(mut row) => {
                first_packed_row(alloc, a, values, &mut row)?;
                Ok(AnyRow::Wide(row))
            }
        }
    }

    /// The row of a cell, from that of the cell before, which has the same form, whatever cells came before that one.
    /// It is made in the memory of `self`.
    pub(crate) fn stepped(
        self,
        alloc: Global,
        a: &Automaton,
        plan: &Plan,
        values: Cell<'_>,
        before: &AnyView<'_>,
        next_values: Cell<'_>,
    ) -> Result<AnyRow, Memory>
        requires width { IsFormOf a.now.wide (form_of self) }
        requires form_before { form_of (viewed before.now) ≡ form_of self }
        requires plan { IsPlanOf a.now plan.now }
        requires row { IsRow (lanes_of (viewed before.now)) (length a.now.states) (count_in values)
            (columns (viewed before.now)) }
        ensures form { IfOk result (λ row. form_of row ≡ form_of self) }
        ensures row { IfOk result (λ row. (cells : List (List ℤ)) →
            IsRowOf a.now cells values.entry.values.now (viewed before.now) →
            IsRowOf a.now (values.entry.values.now ∷ cells) next_values.entry.values.now row) }
    {
        match (self, before) {
            (AnyRow::Narrow(mut row), AnyView::Narrow(before)) => {
                next_packed_row(alloc, a, plan, values, before, next_values, &mut row)?;
                Ok(AnyRow::Narrow(row))
            }
            (AnyRow::Upper(mut row), AnyView::Upper(before)) => {
                next_packed_row(alloc, a, plan, values, before, next_values, &mut row)?;
                Ok(AnyRow::Upper(row))
            }
            (AnyRow::Lower(mut row), AnyView::Lower(before)) => {
                next_packed_row(alloc, a, plan, values, before, next_values, &mut row)?;
                Ok(AnyRow::Lower(row))
            }
            (AnyRow::Wide(mut row), AnyView::Wide(before)) => {
                next_packed_row(alloc, a, plan, values, before, next_values, &mut row)?;
                Ok(AnyRow::Wide(row))
            }
            _ => unreachable!(),
        }
    }

    /// Takes the hulls at the places from `from` up to `to` out, of all states.
    pub(crate) fn take_out(&mut self, from: usize, to: usize)
        requires { from ≤ to }
        ensures { self.new ≡ row_without from to self.old }
    {
        match self {
            AnyRow::Narrow(row) => row.take_out(from, to),
            AnyRow::Upper(row) => row.take_out(from, to),
            AnyRow::Lower(row) => row.take_out(from, to),
            AnyRow::Wide(row) => row.take_out(from, to),
        }
    }
}

impl<'a> AnyView<'a> {
    /// The hull of the finish spans of all states, at place `i` of the values of the last cell, of a series of `n`
    /// cells.
    pub fn finish(&self, a: &Automaton, i: usize, n: u32) -> Span
        requires width { IsFormOf a.now.wide (form_of (viewed self.now)) }
        requires place { HasPlace (lanes_of (viewed self.now)) (length a.now.states) i (columns (viewed self.now)) }
        ensures { result ≡ finish_hull (lanes_of (viewed self.now)) a.now (columns (viewed self.now)) i n }
    {
        match self {
            AnyView::Narrow(row) => finish_at(a, row, i, n),
            AnyView::Upper(row) => finish_at(a, row, i, n),
            AnyView::Lower(row) => finish_at(a, row, i, n),
            AnyView::Wide(row) => finish_at(a, row, i, n),
        }
    }

    /// The hull of the finish spans of all states at `count` places from `from` on, of a series of `n` cells.
    pub fn finish_along(&self, a: &Automaton, from: usize, count: usize, n: u32) -> Span
        requires width { IsFormOf a.now.wide (form_of (viewed self.now)) }
        requires places { HavePlaces (lanes_of (viewed self.now)) (length a.now.states) (from + count)
            (columns (viewed self.now)) }
        ensures { result ≡ finish_along (lanes_of (viewed self.now)) a.now (columns (viewed self.now)) from count n }
    {
        match self {
            AnyView::Narrow(row) => finish_along(a, row, from, count, n),
            AnyView::Upper(row) => finish_along(a, row, from, count, n),
            AnyView::Lower(row) => finish_along(a, row, from, count, n),
            AnyView::Wide(row) => finish_along(a, row, from, count, n),
        }
    }
}

/// Whether two rows of automata with `states` states have the same form and the same hulls.
pub(crate) fn are_same(a: &AnyView<'_>, b: &AnyView<'_>, states: u8) -> bool
    requires first { length (columns (viewed a.now)) ≡ states }
    requires second { length (columns (viewed b.now)) ≡ states }
    ensures { IsTrue result → viewed a.now ≡ viewed b.now }
{
    match (a, b) {
        (AnyView::Narrow(a), AnyView::Narrow(b)) => are_same_columns(a, b, states),
        (AnyView::Upper(a), AnyView::Upper(b)) => are_same_columns(a, b, states),
        (AnyView::Lower(a), AnyView::Lower(b)) => are_same_columns(a, b, states),
        (AnyView::Wide(a), AnyView::Wide(b)) => are_same_columns(a, b, states),
        _ => false,
    }
}

/// The hull of a span that is known so far and of the glued spans where two rows of one form meet; none if a number of
/// it does what is asked.
pub fn asked_between<Q: Asked>(
    asked: Q,
    so_far: Span,
    joints: &Joints,
    left: &AnyView<'_>,
    right: &AnyView<'_>,
    spot: Spot,
) -> Option<Span>
    requires form { form_of (viewed right.now) ≡ form_of (viewed left.now) }
    requires width { IsFormOf joints.now.wide (form_of (viewed left.now)) }
    requires whole { span_hull so_far none_span ≡ so_far }
    requires known { Q.excluded asked so_far }
    requires left { HasPlace (lanes_of (viewed left.now)) joints.now.left_states spot.place
        (columns (viewed left.now)) }
    requires right { HasPlace (lanes_of (viewed right.now)) joints.now.right_states spot.place
        (columns (viewed right.now)) }
    requires value { IsCellValue spot.value }
    ensures { (p : Pair) → AreJoints p joints.now → IsAnswer (Q.excluded asked)
        (span_hull so_far (glued_between p (viewed left.now) (viewed right.now) spot.place spot.value spot.cells))
        result }
{
    match (left, right) {
        (AnyView::Narrow(left), AnyView::Narrow(right)) => asked_at(
            asked, so_far, joints, left, right, spot,
        ),
        (AnyView::Upper(left), AnyView::Upper(right)) => asked_at(
            asked, so_far, joints, left, right, spot,
        ),
        (AnyView::Lower(left), AnyView::Lower(right)) => asked_at(
            asked, so_far, joints, left, right, spot,
        ),
        (AnyView::Wide(left), AnyView::Wide(right)) => asked_at(
            asked, so_far, joints, left, right, spot,
        ),
        _ => unreachable!(),
    }
}

/// The place up to which, from the place `from` on, pairs of states settle that the spans where two rows of one form
/// meet have what is asked, whatever values are there. Of the places from there up to `to` nothing is known.
pub fn settled_between<Q: Asked>(
    asked: Q,
    joints: &Joints,
    left: &AnyView<'_>,
    right: &AnyView<'_>,
    cells: u32,
    from: usize,
    to: usize,
) -> usize
    requires form { form_of (viewed right.now) ≡ form_of (viewed left.now) }
    requires width { IsFormOf joints.now.wide (form_of (viewed left.now)) }
    requires left { HavePlaces (lanes_of (viewed left.now)) joints.now.left_states to (columns (viewed left.now)) }
    requires right { HavePlaces (lanes_of (viewed right.now)) joints.now.right_states to (columns (viewed right.now)) }
    requires order { from ≤ to }
    ensures from { from ≤ result }
    ensures to { result ≤ to }
    ensures settled { (p : Pair) → AreJoints p joints.now → Between from result (λ i. (x : ℤ) →
        Q.excluded asked (glued_between p (viewed left.now) (viewed right.now) i x cells) → ⊥) }
{
    match (left, right) {
        (AnyView::Narrow(left), AnyView::Narrow(right)) => settled_to(
            asked, joints, left, right, cells, from, to,
        ),
        (AnyView::Upper(left), AnyView::Upper(right)) => settled_to(
            asked, joints, left, right, cells, from, to,
        ),
        (AnyView::Lower(left), AnyView::Lower(right)) => settled_to(
            asked, joints, left, right, cells, from, to,
        ),
        (AnyView::Wide(left), AnyView::Wide(right)) => settled_to(
            asked, joints, left, right, cells, from, to,
        ),
        _ => unreachable!(),
    }
}

/// The hull of a span that is known so far and of the glued spans where two rows of one form meet, at the places from
/// `from` on where these values are; none if a number of it does what is asked.
pub fn asked_values<Q: Asked>(
    asked: Q,
    so_far: Span,
    joints: &Joints,
    left: &AnyView<'_>,
    right: &AnyView<'_>,
    values: &[i64],
    from: usize,
    cells: u32,
) -> Option<Span>
    requires form { form_of (viewed right.now) ≡ form_of (viewed left.now) }
    requires width { IsFormOf joints.now.wide (form_of (viewed left.now)) }
    requires left { HavePlaces (lanes_of (viewed left.now)) joints.now.left_states (from + length values.now)
        (columns (viewed left.now)) }
    requires right { HavePlaces (lanes_of (viewed right.now)) joints.now.right_states (from + length values.now)
        (columns (viewed right.now)) }
    requires values { AreCellValues values.now }
    ensures { (p : Pair) → AreJoints p joints.now → IsAnswer (Q.excluded asked) (span_hull so_far (hull_over
        (λ i. glued_between p (viewed left.now) (viewed right.now) (from + i) (get_or values.now i (pos 0)) cells)
        (length values.now))) result }
{
    match (left, right) {
        (AnyView::Narrow(left), AnyView::Narrow(right)) => asked_along(
            asked, so_far, joints, left, right, values, from, cells,
        ),
        (AnyView::Upper(left), AnyView::Upper(right)) => asked_along(
            asked, so_far, joints, left, right, values, from, cells,
        ),
        (AnyView::Lower(left), AnyView::Lower(right)) => asked_along(
            asked, so_far, joints, left, right, values, from, cells,
        ),
        (AnyView::Wide(left), AnyView::Wide(right)) => asked_along(
            asked, so_far, joints, left, right, values, from, cells,
        ),
        _ => unreachable!(),
    }
}
