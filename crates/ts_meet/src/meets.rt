//! The span at a value of a cell, from the rows on both sides.

ghost use Rattle.std.specs.Prelude.{◌≡◌, ◌⊎◌, ℕ, ◌<◌, ◌≤◌, false, fold, length};
ghost use Rattle.ts_automaton.specs.Registers.{spans_of};
ghost use Rattle.ts_base.specs.declared.span.Span.{Span};
ghost use Rattle.ts_base.specs.Limits.{IsCellValue};
ghost use Rattle.ts_base.specs.Spans.{span_hull};
ghost use Rattle.ts_glue.specs.Pairs.{Pair};
ghost use Rattle.ts_meet.specs.Joints.{AreJoints};
ghost use Rattle.ts_meet.specs.Meets.{HasPlace, finish_hull, finish_seen, glued_hull, glued_seen, spans_with, standing};
ghost use Rattle.ts_meet.specs.Sides.{StandFor};
ghost use Rattle.ts_row.specs.Rows.{lanes_of};
ghost use Rattle.ts_sweep.specs.Packed.{AreSome, IsPacked, unpacked};
ghost use Rattle.ts_sweep.specs.Sides.{BothEnds, lane_count, sides};

use crate::joints::Joints;
use crate::marked::{joined, marked, nothing, span_of};
use crate::side::shown;
use crate::spot::Spot;
use ts_automaton::{Automaton, Op};
use ts_base::Span;
use ts_row::RowView;
use ts_sweep::front::Front;
use ts_sweep::packed::{Ends, Packed, PackedHull};
use ts_sweep::tree::Tree;

/// The hull of the glued spans of all pairs of states, at a value of a cell: the forward row is on
/// the left, the reverse one on the right. States that no series reaches add nothing.
pub fn glued_at<const N: usize>(
    joints: &Joints,
    left: &RowView<'_, N>,
    right: &RowView<'_, N>,
    spot: Spot,
) -> Span
    requires registers { 6 ≤ lane_count N }
    requires lanes { N ≤ 64 }
    requires alone { (sides N ≡ BothEnds) ⊎ (joints.now.wide ≡ false) }
    requires left { HasPlace N joints.now.left_states spot.place left.now }
    requires right { HasPlace N joints.now.right_states spot.place right.now }
    requires value { IsCellValue spot.value }
    ensures { (p : Pair) → AreJoints p joints.now →
        result ≡ glued_hull N p left.now right.now spot.place spot.value spot.cells }
{
    match joints.result {
        Op::Add => glued_by(Op::Add, joints, left, right, spot),
        Op::Max => glued_by(Op::Max, joints, left, right, spot),
        Op::Min => glued_by(Op::Min, joints, left, right, spot),
    }
}

/// The hull of the glued spans of all pairs of states, where `operator` is the one that joins results.
#[inline(always)]
fn glued_by<const N: usize>(
    operator: Op,
    joints: &Joints,
    left: &RowView<'_, N>,
    right: &RowView<'_, N>,
    spot: Spot,
) -> Span
    requires registers { 6 ≤ lane_count N }
    requires lanes { N ≤ 64 }
    requires alone { (sides N ≡ BothEnds) ⊎ (joints.now.wide ≡ false) }
    requires operator { operator ≡ joints.now.result }
    requires left { HasPlace N joints.now.left_states spot.place left.now }
    requires right { HasPlace N joints.now.right_states spot.place right.now }
    requires value { IsCellValue spot.value }
    ensures { (p : Pair) → AreJoints p joints.now →
        result ≡ glued_hull N p left.now right.now spot.place spot.value spot.cells }
{
    let mut hull = nothing();
    for q in 0..joints.left_states {
        hull = with_reached(
            hull,
            operator,
            joints,
            q,
            left.hull(q, spot.place),
            right,
            spot,
        );
    }
    span_of(hull)
}

/// A hull with the glued spans of one state on the left added, if any series reaches that state.
#[inline(always)]
pub(crate) fn with_reached<const N: usize>(
    hull: Ends,
    operator: Op,
    joints: &Joints,
    q: u8,
    left: &PackedHull<N>,
    right: &RowView<'_, N>,
    spot: Spot,
) -> Ends
    requires registers { 6 ≤ lane_count N }
    requires lanes { N ≤ 64 }
    requires alone { (sides N ≡ BothEnds) ⊎ (joints.now.wide ≡ false) }
    requires operator { operator ≡ joints.now.result }
    requires state { q < joints.now.left_states }
    requires left { IsPacked (lane_count N) (lanes_of N left.now) }
    requires right { HasPlace N joints.now.right_states spot.place right.now }
    requires value { IsCellValue spot.value }
    ensures { (p : Pair) (s : Span) → AreJoints p joints.now → StandFor hull s → StandFor result (fold span_hull s
        (spans_with N p (standing q (spans_of (unpacked (lanes_of N left.now)))) right.now spot.place spot.value
        spot.cells (length p.reverse.states))) }
{
    if !left.is_some() {
        return hull;
    }
    with_state(hull, operator, joints, q, left, right, spot)
}

/// A hull with the glued spans of one state on the left added, which some series reaches.
#[inline(always)]
fn with_state<const N: usize>(
    hull: Ends,
    operator: Op,
    joints: &Joints,
    q: u8,
    left: &PackedHull<N>,
    right: &RowView<'_, N>,
    spot: Spot,
) -> Ends
    requires registers { 6 ≤ lane_count N }
    requires lanes { N ≤ 64 }
    requires alone { (sides N ≡ BothEnds) ⊎ (joints.now.wide ≡ false) }
    requires operator { operator ≡ joints.now.result }
    requires state { q < joints.now.left_states }
    requires left { AreSome (lane_count N) (lanes_of N left.now) }
    requires right { HasPlace N joints.now.right_states spot.place right.now }
    requires value { IsCellValue spot.value }
    ensures { (p : Pair) (s : Span) → AreJoints p joints.now → StandFor hull s → StandFor result (fold span_hull s
        (spans_with N p (standing q (spans_of (unpacked (lanes_of N left.now)))) right.now spot.place spot.value
        spot.cells (length p.reverse.states))) }
{
    let mut all = hull;
    for r in 0..joints.right_states {
        all = with_pair(
            all,
            operator,
            joints,
            q,
            r,
            left,
            right.hull(r, spot.place),
            spot,
        );
    }
    all
}

/// A hull with the glued span of one pair of states added, if any series reaches the state on the right.
#[inline(always)]
pub(crate) fn with_pair<const N: usize>(
    hull: Ends,
    operator: Op,
    joints: &Joints,
    q: u8,
    r: u8,
    left: &PackedHull<N>,
    right: &PackedHull<N>,
    spot: Spot,
) -> Ends
    requires registers { 6 ≤ lane_count N }
    requires lanes { N ≤ 64 }
    requires alone { (sides N ≡ BothEnds) ⊎ (joints.now.wide ≡ false) }
    requires operator { operator ≡ joints.now.result }
    requires state { q < joints.now.left_states }
    requires other { r < joints.now.right_states }
    requires left { AreSome (lane_count N) (lanes_of N left.now) }
    requires right { IsPacked (lane_count N) (lanes_of N right.now) }
    requires value { IsCellValue spot.value }
    ensures { (p : Pair) (s : Span) → AreJoints p joints.now → StandFor hull s → StandFor result (span_hull s
        (glued_seen (sides N) p (standing q (spans_of (unpacked (lanes_of N left.now))))
        (standing r (spans_of (unpacked (lanes_of N right.now)))) spot.value spot.cells)) }
{
    if !right.is_some() {
        return hull;
    }
    let glued = joints.gluing(operator, q, r, spot).glued(left, right);
    joined(hull, marked(joints.mark, glued, spot.cells))
}

/// The hull of the finish spans of all states, at place `i` of the values of the last cell, of a series of `n` cells.
pub fn finish_at<const N: usize>(a: &Automaton, row: &RowView<'_, N>, i: usize, n: u32) -> Span
    requires registers { 6 ≤ lane_count N }
    requires lanes { N ≤ 64 }
    requires alone { (sides N ≡ BothEnds) ⊎ (a.now.wide ≡ false) }
    requires row { HasPlace N (length a.now.states) i row.now }
    ensures { result ≡ finish_hull N a.now row.now i n }
{
    let mut hull = nothing();
    for q in 0..a.states() {
        hull = with_finish(hull, a, row.hull(q, i), n);
    }
    span_of(hull)
}

/// A hull with the finish span of one state added, if any series reaches it.
pub(crate) fn with_finish<const N: usize>(
    hull: Ends,
    a: &Automaton,
    h: &PackedHull<N>,
    n: u32,
) -> Ends
    requires registers { 6 ≤ lane_count N }
    requires lanes { N ≤ 64 }
    requires alone { (sides N ≡ BothEnds) ⊎ (a.now.wide ≡ false) }
    requires packed { IsPacked (lane_count N) (lanes_of N h.now) }
    ensures { (q : ℕ) (s : Span) → StandFor hull s → StandFor result (span_hull s
        (finish_seen (sides N) a.now (standing q (spans_of (unpacked (lanes_of N h.now)))) n)) }
{
    if !h.is_some() {
        return hull;
    }
    let finish = Tree {
        expr: a.finish_expr(),
    };
    let ends = shown::<N>(finish.ends::<PackedHull<N>>(*h, 0));
    joined(hull, marked(a.mark(), ends, n))
}
