//! The span of a value, where it doesn't have what is asked.

ghost use Rattle.std.specs.Prelude.{◌≡◌, ◌⊎◌, ◌≤◌, IfSome, IsTrue, None, Option, Some, false};
ghost use Rattle.ts_base.specs.declared.span.Span.{Span};
ghost use Rattle.ts_base.specs.Limits.{IsCellValue};
ghost use Rattle.ts_base.specs.Spans.{none_span, span_hull};
ghost use Rattle.ts_glue.specs.Pairs.{Pair};
ghost use Rattle.ts_meet.specs.Asked.{AreEnough, IsAnswer, IsHullUntil, Reaches};
ghost use Rattle.ts_meet.specs.Joints.{AreJoints};
ghost use Rattle.ts_meet.specs.Meets.{HasPlace, glued_hull};
ghost use Rattle.ts_meet.specs.Sides.{StandFor};
ghost use Rattle.ts_sweep.specs.declared.packed.Ends.{Ends};
ghost use Rattle.ts_sweep.specs.Sides.{BothEnds, lane_count, sides};

use crate::joints::Joints;
use crate::marked::{nothing, span_of};
use crate::meets::{glued_at, with_reached};
use crate::settled::reaches;
use crate::spot::Spot;
use ts_automaton::Op;
use ts_base::Span;
use ts_row::RowView;
use ts_sweep::packed::Ends;

/// A question about the numbers of a span: does any of them have a property?
pub trait Asked: Copy {
    ghost use Rattle.std.specs.Prelude.{◌↔◌, IfSome, IsTrue};
    ghost use Rattle.ts_base.specs.declared.span.Span.{Span};
    ghost use Rattle.ts_base.specs.SpanLayer.{IsWithin};
    ghost use Rattle.ts_meet.specs.Asked.{AreEnough};

    /// That no number of a span has the property.
    ghost excluded: { Self → Span → Type 0 };

    /// Whether no number of the span has the property.
    fn excludes(self, span: Span) -> bool
        ensures { IsTrue result ↔ excluded self span };

    /// Ends, in lanes, of which it is known that some number of each span that reaches them has the property.
    fn enough(self) -> Option<Ends>
        ensures { IfSome result (AreEnough (excluded self)) };

    /// If no number of a span has the property, none of a part of the span has it.
    ghost of_part: { (a : Self) (s t : Span) → IsWithin s t → excluded a t → excluded a s };
}

/// The hull of a span that is known so far, and of the glued spans that `glued_at` takes in. None where it has what is
/// asked, which the first states on the left most often show: then the others are left out.
pub fn asked_at<Q: Asked, const N: usize>(
    asked: Q,
    so_far: Span,
    joints: &Joints,
    left: &RowView<'_, N>,
    right: &RowView<'_, N>,
    spot: Spot,
) -> Option<Span>
    requires registers { 6 ≤ lane_count N }
    requires lanes { N ≤ 64 }
    requires alone { (sides N ≡ BothEnds) ⊎ (joints.now.wide ≡ false) }
    requires form { span_hull so_far none_span ≡ so_far }
    requires known { Q.excluded asked so_far }
    requires left { HasPlace N joints.now.left_states spot.place left.now }
    requires right { HasPlace N joints.now.right_states spot.place right.now }
    requires value { IsCellValue spot.value }
    ensures { (p : Pair) → AreJoints p joints.now →
        IsAnswer (Q.excluded asked)
        (span_hull so_far (glued_hull N p left.now right.now spot.place spot.value spot.cells)) result }
{
    match asked.enough() {
        Some(enough) => asked_until(asked, enough, so_far, joints, left, right, spot),
        None => asked_whole(asked, so_far, glued_at(joints, left, right, spot)),
    }
}

/// The hull of a span that is known so far and of another one. None where it has what is asked.
#[inline(always)]
fn asked_whole<Q: Asked>(asked: Q, so_far: Span, span: Span) -> Option<Span>
    ensures { IsAnswer (Q.excluded asked) (span_hull so_far span) result }
{
    let whole = so_far.hull(span);
    if asked.excludes(whole) {
        Some(whole)
    } else {
        None
    }
}

/// The hull of a span that is known so far, and of all glued spans. None where it has what is asked: at once where some
/// of them reach the ends that are enough.
#[inline(always)]
fn asked_until<Q: Asked, const N: usize>(
    asked: Q,
    enough: Ends,
    so_far: Span,
    joints: &Joints,
    left: &RowView<'_, N>,
    right: &RowView<'_, N>,
    spot: Spot,
) -> Option<Span>
    requires registers { 6 ≤ lane_count N }
    requires lanes { N ≤ 64 }
    requires alone { (sides N ≡ BothEnds) ⊎ (joints.now.wide ≡ false) }
    requires enough { AreEnough (Q.excluded asked) enough }
    requires left { HasPlace N joints.now.left_states spot.place left.now }
    requires right { HasPlace N joints.now.right_states spot.place right.now }
    requires value { IsCellValue spot.value }
    ensures { (p : Pair) → AreJoints p joints.now →
        IsAnswer (Q.excluded asked)
        (span_hull so_far (glued_hull N p left.now right.now spot.place spot.value spot.cells)) result }
{
    let hull = glued_until(enough, joints, left, right, spot);
    answered(asked, so_far, hull)
}

/// The answer of which the hull of all glued spans is known: that hull in lanes, or that some of them reach the ends
/// that are enough.
#[inline(always)]
pub(crate) fn answered<Q: Asked>(asked: Q, so_far: Span, hull: Option<Ends>) -> Option<Span>
    ensures { (enough : Option Ends) (whole : Span) → IfSome enough (AreEnough (Q.excluded asked)) →
        IsHullUntil enough whole hull → IsAnswer (Q.excluded asked) (span_hull so_far whole) result }
{
    match hull {
        Some(hull) => asked_whole(asked, so_far, span_of(hull)),
        None => None,
    }
}

/// The ends of the hull of all glued spans. None where those of some of them reach the ends that are enough.
fn glued_until<const N: usize>(
    enough: Ends,
    joints: &Joints,
    left: &RowView<'_, N>,
    right: &RowView<'_, N>,
    spot: Spot,
) -> Option<Ends>
    requires registers { 6 ≤ lane_count N }
    requires lanes { N ≤ 64 }
    requires alone { (sides N ≡ BothEnds) ⊎ (joints.now.wide ≡ false) }
    requires left { HasPlace N joints.now.left_states spot.place left.now }
    requires right { HasPlace N joints.now.right_states spot.place right.now }
    requires value { IsCellValue spot.value }
    ensures { (p : Pair) → AreJoints p joints.now →
        IsHullUntil (Some enough) (glued_hull N p left.now right.now spot.place spot.value spot.cells) result }
{
    match joints.result {
        Op::Add => hull_until(enough, Op::Add, joints, left, right, spot),
        Op::Max => hull_until(enough, Op::Max, joints, left, right, spot),
        Op::Min => hull_until(enough, Op::Min, joints, left, right, spot),
    }
}

/// The ends of the hull of all glued spans, where `operator` is the one that joins results. None where those with the
/// first states on the left reach the ends that are enough.
#[inline(always)]
fn hull_until<const N: usize>(
    enough: Ends,
    operator: Op,
    joints: &Joints,
    left: &RowView<'_, N>,
    right: &RowView<'_, N>,
    spot: Spot,
) -> Option<Ends>
    requires registers { 6 ≤ lane_count N }
    requires lanes { N ≤ 64 }
    requires alone { (sides N ≡ BothEnds) ⊎ (joints.now.wide ≡ false) }
    requires operator { operator ≡ joints.now.result }
    requires left { HasPlace N joints.now.left_states spot.place left.now }
    requires right { HasPlace N joints.now.right_states spot.place right.now }
    requires value { IsCellValue spot.value }
    ensures { (p : Pair) → AreJoints p joints.now →
        IsHullUntil (Some enough) (glued_hull N p left.now right.now spot.place spot.value spot.cells) result }
{
    let mut hull = nothing();
    for q in 0..joints.left_states {
        hull = with_reached(
            hull,
            operator,
            joints,
            q,
            left.hull(q, spot.place),
            right,
            spot,
        );
        if has_reached(hull, enough) {
            return None;
        }
    }
    Some(hull)
}

/// Whether the ends of a hull, in lanes, are those given or farther out; never where nothing was taken in yet.
#[inline(always)]
fn has_reached(hull: Ends, given: Ends) -> bool
    ensures { IsTrue result → (s : Span) → StandFor hull s → Reaches given s }
{
    if hull.above == i64::MIN {
        return false;
    }
    reaches(hull, given)
}

/// Whether the ends of a hull, in lanes, reach the ends that are enough, if any are; never where nothing was taken in
/// yet.
#[inline(always)]
pub(crate) fn is_enough(hull: Ends, enough: Option<Ends>) -> bool
    ensures { IsTrue result → (s : Span) → StandFor hull s → IsHullUntil enough s None }
{
    match enough {
        Some(given) => has_reached(hull, given),
        None => false,
    }
}
