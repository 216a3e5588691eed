//! One end of a span alone, in its lane: most questions need no more, and then half of the lanes isn't read.

ghost use Rattle.std.specs.Prelude.{◌≡◌, ◌≤◌, pos, true, false};
ghost use Rattle.ts_automaton.specs.Registers.{value_in};
ghost use Rattle.ts_glue.specs.Glue.{apart, glue_in, held_of, result_of};
ghost use Rattle.ts_meet.specs.Ends.{AreFewAdded, IsLanePlain, keeps, lane_at, lane_folded};
ghost use Rattle.ts_meet.specs.Joints.{is_add};
ghost use Rattle.ts_meet.specs.Sides.{clamped_values, ends_in, side_of};
ghost use Rattle.ts_row.specs.Rows.{lanes_of};
ghost use Rattle.ts_sweep.specs.Operators.{crossed};
ghost use Rattle.ts_sweep.specs.Packed.{AreSome, IsWithin};
ghost use Rattle.ts_sweep.specs.Sides.{lane_count, sides};

use crate::gluing::{Gluing, is_add};
use crate::side::Side;
use crate::sums::{Clamped, crossed};
use ts_automaton::Op;
use ts_sweep::packed::{Ends, LOWER, PackedHull, UPPER};

/// An end of a span.
#[derive(Clone, Copy)]
pub(crate) enum End {
    Below,
    Above,
}

/// Whether hulls of N lanes have the end.
#[inline(always)]
pub(crate) fn keeps<const N: usize>(end: End) -> bool
    ensures { result ≡ keeps (sides N) end }
{
    match end {
        End::Below => N != UPPER,
        End::Above => N != LOWER,
    }
}

/// The least size of a number that isn't added without a clamp, a power of two: one test shows that several are less.
const MANY: i64 = 9_007_199_254_740_992;

/// The lane of an end of what two runs make, between which no occurrence goes on. If all numbers that are added are
/// small, sums are those of the lanes; otherwise they are clamped: in place where that is common, between wide automata
/// of which one holds nothing.
#[inline(always)]
pub(crate) fn apart_lane<const N: usize>(
    end: End,
    wide: bool,
    operator: Op,
    left: &PackedHull<N>,
    right: &PackedHull<N>,
) -> i64
    requires registers { 6 ≤ lane_count N }
    requires left { AreSome (lane_count N) (lanes_of N left.now) }
    requires right { AreSome (lane_count N) (lanes_of N right.now) }
    ensures { result ≡ lane_at end
        (glue_in clamped_values
        (side_of (sides N) (lanes_of N left.now)) (side_of (sides N) (lanes_of N right.now)) (apart wide operator)) }
{
    let (first, second) = (Side::of(left), Side::of(right));
    if is_plain(end, wide, operator, first) & is_plain(end, wide, operator, second) {
        of_both(end, wide, operator, first, second)
    } else if wide {
        of_both_clamped(end, wide, operator, first, second)
    } else {
        narrow_clamped(end, operator, left, right)
    }
}

/// The lane of an end of what two runs of narrow automata make apart, with clamped sums; rare.
#[inline(never)]
fn narrow_clamped<const N: usize>(
    end: End,
    operator: Op,
    left: &PackedHull<N>,
    right: &PackedHull<N>,
) -> i64
    requires registers { 6 ≤ lane_count N }
    requires left { AreSome (lane_count N) (lanes_of N left.now) }
    requires right { AreSome (lane_count N) (lanes_of N right.now) }
    ensures { result ≡ lane_at end
        (glue_in clamped_values
        (side_of (sides N) (lanes_of N left.now)) (side_of (sides N) (lanes_of N right.now)) (apart false operator)) }
{
    of_both_clamped(end, false, operator, Side::of(left), Side::of(right))
}

/// The lane of an end of what two runs make apart, with clamped sums.
#[inline(always)]
fn of_both_clamped(end: End, wide: bool, operator: Op, left: Side, right: Side) -> i64
    ensures { result
        ≡ lane_at end (glue_in clamped_values (ends_in left) (ends_in right) (apart wide operator)) }
{
    let gluing = Gluing::apart(operator, wide);
    lane(end, gluing.answers::<Clamped>(left, right))
}

/// The lane of an end of what two runs make apart, with the sums of the lanes.
#[inline(always)]
fn of_both(end: End, wide: bool, operator: Op, left: Side, right: Side) -> i64
    requires left { IsLanePlain end wide operator (ends_in left) }
    requires right { IsLanePlain end wide operator (ends_in right) }
    ensures { result
        ≡ lane_at end (glue_in clamped_values (ends_in left) (ends_in right) (apart wide operator)) }
{
    let first = answer(end, wide, operator, left);
    let second = answer(end, wide, operator, right);
    folded(end, operator, first, second)
}

/// The lane of an end of the answer of a run, before the mark.
#[inline(always)]
fn answer(end: End, wide: bool, operator: Op, side: Side) -> i64
    requires { IsLanePlain end wide operator (ends_in side) }
    ensures { result ≡ lane_at end
        (value_in clamped_values (ends_in side) (pos 0) (pos 0) (result_of wide operator)) }
{
    folded(end, operator, lane(end, side.r), held(end, wide, side))
}

/// The lane of an end of what a run has complete or held: of a wide automaton the greatest less the least.
#[inline(always)]
fn held(end: End, wide: bool, side: Side) -> i64
    requires held { wide ≡ true → IsWithin 1 (lane_at end side.c) }
    requires away { wide ≡ true → IsWithin 1 (lane_at end (crossed side.e)) }
    ensures { result ≡ lane_at end (value_in clamped_values (ends_in side) (pos 0) (pos 0) (held_of wide)) }
{
    if wide {
        folded(end, Op::Add, lane(end, side.c), lane(end, crossed(side.e)))
    } else {
        lane(end, side.c)
    }
}

/// What an operator makes of two lanes of an end.
#[inline(always)]
fn folded(end: End, operator: Op, x: i64, y: i64) -> i64
    requires { is_add operator ≡ true → AreFewAdded x y }
    ensures { result ≡ lane_folded end operator x y }
{
    match operator {
        Op::Add => x + y,
        Op::Max => match end {
            End::Below => x.min(y),
            End::Above => x.max(y),
        },
        Op::Min => match end {
            End::Below => x.max(y),
            End::Above => x.min(y),
        },
    }
}

/// Whether all numbers of an end that are added on one side are small.
#[inline(always)]
fn is_plain(end: End, wide: bool, operator: Op, side: Side) -> bool
    ensures { result ≡ true → IsLanePlain end wide operator (ends_in side) }
{
    let adds = is_add(operator);
    is_few(adds, lane(end, side.r))
        & is_few(wide | adds, lane(end, side.c))
        & is_few(wide, lane(end, crossed(side.e)))
}

/// Whether a number is small, if it is added.
#[inline(always)]
fn is_few(added: bool, x: i64) -> bool
    ensures { result ≡ true → added ≡ true → IsWithin 1 x }
{
    if added { -MANY <= x && x < MANY } else { true }
}

/// The lane of an end.
#[inline(always)]
pub(crate) fn lane(end: End, e: Ends) -> i64
    ensures { result ≡ lane_at end e }
{
    match end {
        End::Below => e.below,
        End::Above => e.above,
    }
}
