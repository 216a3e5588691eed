//! The spans of one value of a cell, from its hulls: each is packed, and glued or finished as a search does it.

ghost use Rattle.std.specs.Prelude.{◌≡◌, ℕ, ◌<◌, Some, fold, length};
ghost use Rattle.ts_automaton.specs.Registers.{spans_of};
ghost use Rattle.ts_automaton.specs.SpanRun.{finish_span_of};
ghost use Rattle.ts_base.specs.Limits.{IsCellValue};
ghost use Rattle.ts_base.specs.Spans.{span_hull};
ghost use Rattle.ts_bound.specs.Blocks.{finishes, glued_all, glued_with};
ghost use Rattle.ts_bound.specs.Fits.{HullFits, HullsFit};
ghost use Rattle.ts_glue.specs.Glued.{glued_span};
ghost use Rattle.ts_glue.specs.Pairs.{Pair};
ghost use Rattle.ts_meet.specs.Joints.{AreJoints};
ghost use Rattle.ts_meet.specs.Meets.{hull_of_spans, standing};

use crate::packing::packed;
use ts_automaton::{Automaton, Hull};
use ts_base::Span;
use ts_meet::{Joints, Spot, finish_of, glued_pair};

/// The hull of the finish spans of all states.
pub(crate) fn finish_block(a: &Automaton, hulls: &[Hull], n: u32) -> Span
    requires states { length hulls.now ≡ length a.now.states }
    requires fit { HullsFit hulls.now }
    ensures { result ≡ hull_of_spans (finishes a.now hulls.now n (length a.now.states)) }
{
    let states = a.states();
    let mut span = Span::none();
    for q in 0..states {
        span = span.hull(finish_state(a, &hulls[q as usize], n));
    }
    span
}

/// The finish span of a state with this hull.
fn finish_state(a: &Automaton, h: &Hull, n: u32) -> Span
    requires { HullFits h.now }
    ensures { (q : ℕ) → result ≡ finish_span_of a.now (standing q (spans_of h.now)) n }
{
    if h.is_none() {
        return Span::none();
    }
    finish_of(a, &packed(h), n)
}

/// The hull of the glued spans of all states on both sides.
pub(crate) fn glue_block(joints: &Joints, left: &[Hull], right: &[Hull], cell: i64, n: u32) -> Span
    requires left_states { length left.now ≡ joints.now.left_states }
    requires right_states { length right.now ≡ joints.now.right_states }
    requires left_fit { HullsFit left.now }
    requires right_fit { HullsFit right.now }
    requires cell { IsCellValue cell }
    ensures { (p : Pair) → AreJoints p joints.now → result ≡ hull_of_spans
        (glued_all (Some p) left.now right.now cell n joints.now.right_states joints.now.left_states) }
{
    let mut span = Span::none();
    for q in 0..joints.left_states {
        span = glue_state(joints, q, &left[q as usize], right, cell, n, span);
    }
    span
}

/// A span with the glued spans of the state `q` on the left, and of all states on the right, joined to it.
fn glue_state(
    joints: &Joints,
    q: u8,
    left: &Hull,
    right: &[Hull],
    cell: i64,
    n: u32,
    before: Span,
) -> Span
    requires state { q < joints.now.left_states }
    requires right_states { length right.now ≡ joints.now.right_states }
    requires left_fits { HullFits left.now }
    requires right_fit { HullsFit right.now }
    requires cell { IsCellValue cell }
    ensures { (p : Pair) → AreJoints p joints.now → result ≡ fold span_hull before
        (glued_with (Some p) (standing q (spans_of left.now)) right.now cell n joints.now.right_states) }
{
    let mut span = before;
    for r in 0..joints.right_states {
        span = span.hull(glue_pair(joints, q, r, left, &right[r as usize], cell, n));
    }
    span
}

/// The glued span of the state `q` on the left and `r` on the right, with these hulls.
fn glue_pair(joints: &Joints, q: u8, r: u8, left: &Hull, right: &Hull, cell: i64, n: u32) -> Span
    requires state { q < joints.now.left_states }
    requires other { r < joints.now.right_states }
    requires left_fits { HullFits left.now }
    requires right_fits { HullFits right.now }
    requires cell { IsCellValue cell }
    ensures { (p : Pair) → AreJoints p joints.now → result
        ≡ glued_span p (standing q (spans_of left.now)) (standing r (spans_of right.now)) cell n }
{
    if left.is_none() || right.is_none() {
        return Span::none();
    }
    let spot = Spot {
        place: 0,
        value: cell,
        cells: n,
    };
    glued_pair(joints, q, r, &packed(left), &packed(right), spot)
}
