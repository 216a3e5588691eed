//! The spans of hulls that lie in no row: of two states that meet, and of one at the last cell.

ghost use Rattle.std.specs.Prelude.{◌≡◌, ◌⊎◌, ℕ, ◌<◌, ◌≤◌, false};
ghost use Rattle.ts_automaton.specs.Registers.{spans_of};
ghost use Rattle.ts_base.specs.Limits.{IsCellValue};
ghost use Rattle.ts_glue.specs.Pairs.{Pair};
ghost use Rattle.ts_meet.specs.Joints.{AreJoints};
ghost use Rattle.ts_meet.specs.Meets.{finish_seen, glued_seen, standing};
ghost use Rattle.ts_row.specs.Rows.{lanes_of};
ghost use Rattle.ts_sweep.specs.Packed.{AreSome, IsPacked, unpacked};
ghost use Rattle.ts_sweep.specs.Sides.{BothEnds, lane_count, sides};

use crate::joints::Joints;
use crate::marked::{nothing, span_of};
use crate::meets::{with_finish, with_pair};
use crate::spot::Spot;
use ts_automaton::Automaton;
use ts_base::Span;
use ts_sweep::packed::PackedHull;

/// The glued span of the state `q` on the left and `r` on the right, at a value of a cell. Some series reaches the
/// state on the left; the span is none where no series reaches the one on the right.
pub fn glued_pair<const N: usize>(
    joints: &Joints,
    q: u8,
    r: u8,
    left: &PackedHull<N>,
    right: &PackedHull<N>,
    spot: Spot,
) -> Span
    requires registers { 6 ≤ lane_count N }
    requires lanes { N ≤ 64 }
    requires alone { (sides N ≡ BothEnds) ⊎ (joints.now.wide ≡ false) }
    requires state { q < joints.now.left_states }
    requires other { r < joints.now.right_states }
    requires left { AreSome (lane_count N) (lanes_of N left.now) }
    requires right { IsPacked (lane_count N) (lanes_of N right.now) }
    requires value { IsCellValue spot.value }
    ensures { (p : Pair) → AreJoints p joints.now → result
        ≡ glued_seen (sides N) p (standing q (spans_of (unpacked (lanes_of N left.now))))
        (standing r (spans_of (unpacked (lanes_of N right.now)))) spot.value spot.cells }
{
    let hull = with_pair(nothing(), joints.result, joints, q, r, left, right, spot);
    span_of(hull)
}

/// The finish span of a hull at the last cell, of a series of `n` cells; none where no series reaches its state.
pub fn finish_of<const N: usize>(a: &Automaton, h: &PackedHull<N>, n: u32) -> Span
    requires registers { 6 ≤ lane_count N }
    requires lanes { N ≤ 64 }
    requires alone { (sides N ≡ BothEnds) ⊎ (a.now.wide ≡ false) }
    requires packed { IsPacked (lane_count N) (lanes_of N h.now) }
    ensures { (q : ℕ) → result
        ≡ finish_seen (sides N) a.now (standing q (spans_of (unpacked (lanes_of N h.now)))) n }
{
    let hull = with_finish(nothing(), a, h, n);
    span_of(hull)
}
