//! Places of a cell that a pair of states settles: its span has what is asked, whatever value is at the place.
//!
//! Where no occurrence goes on from one state to the other, the span of a pair is made of the answers of both runs: the
//! value isn't in it. Most often the first such pair settles all places of a cell, so that neither a value nor a whole
//! span is needed. Each pair is followed along the places, so what it does is found once for all of them, and what is
//! asked is one end or two, found once before all pairs.

ghost use Rattle.std.specs.Prelude.{◌≡◌, ◌⊎◌, ℕ, ◌<◌, ◌≤◌, ◌≤ℤ◌, ◌<ℤ◌, ℤ, pos, IsTrue, false};
ghost use Rattle.ts_automaton.specs.declared.state.Mark.TheVariants.{Same};
ghost use Rattle.ts_glue.specs.Glue.{is_join};
ghost use Rattle.ts_glue.specs.Pairs.{Pair};
ghost use Rattle.ts_meet.specs.Ends.{end_alone, needed_ends};
ghost use Rattle.ts_meet.specs.Joints.{AreJoints};
ghost use Rattle.ts_meet.specs.Meets.{glued_hull};
ghost use Rattle.ts_meet.specs.Settled.{AlwaysReaches, ArePlaces, Between, HavePlaces};
ghost use Rattle.ts_meet.specs.Settled.{IsSettled, IsSettledBy, IsSettledBySome, with_hull};
ghost use Rattle.ts_row.specs.Rows.{lanes_of};
ghost use Rattle.ts_sweep.specs.Packed.{AreSome, IsPacked};
ghost use Rattle.ts_sweep.specs.Sides.{BothEnds, lane_count, sides};

use crate::asked::Asked;
use crate::joints::Joints;
use crate::lane::{End, apart_lane, keeps};
use crate::marked::marked;
use crate::needed::Needed;
use ts_automaton::{Mark, Op};
use ts_row::RowView;
use ts_sweep::packed::{Ends, Packed, PackedHull};

/// The place up to which, from the place `from` on, pairs of states settle that the spans have what is asked, whatever
/// values are there. Of the places from there up to `to` nothing is known.
pub fn settled_to<Q: Asked, const N: usize>(
    asked: Q,
    joints: &Joints,
    left: &RowView<'_, N>,
    right: &RowView<'_, N>,
    cells: u32,
    from: usize,
    to: usize,
) -> usize
    requires registers { 6 ≤ lane_count N }
    requires lanes { N ≤ 64 }
    requires alone { (sides N ≡ BothEnds) ⊎ (joints.now.wide ≡ false) }
    requires left { HavePlaces N joints.now.left_states to left.now }
    requires right { HavePlaces N joints.now.right_states to right.now }
    requires order { from ≤ to }
    ensures from { from ≤ result }
    ensures to { result ≤ to }
    ensures settled { (p : Pair) → AreJoints p joints.now → Between from result (λ i. (x : ℤ) →
        Q.excluded asked (glued_hull N p left.now right.now i x cells) → ⊥) }
{
    match asked.enough() {
        Some(enough) => settled_by(Needed::of(enough), joints, left, right, cells, from, to),
        None => from,
    }
}

/// The place up to which, from the place `from` on, spans of pairs of states reach the ends that are needed.
fn settled_by<const N: usize>(
    needed: Needed,
    joints: &Joints,
    left: &RowView<'_, N>,
    right: &RowView<'_, N>,
    cells: u32,
    from: usize,
    to: usize,
) -> usize
    requires registers { 6 ≤ lane_count N }
    requires lanes { N ≤ 64 }
    requires alone { (sides N ≡ BothEnds) ⊎ (joints.now.wide ≡ false) }
    requires left { HavePlaces N joints.now.left_states to left.now }
    requires right { HavePlaces N joints.now.right_states to right.now }
    requires order { from ≤ to }
    ensures from { from ≤ result }
    ensures to { result ≤ to }
    ensures settled { (p : Pair) → AreJoints p joints.now →
        Between from result (IsSettled N (needed_ends needed) p left.now right.now cells) }
{
    match needed {
        Needed::Both(e) => settled_in(Needed::Both(e), joints, left, right, cells, from, to),
        Needed::One(end, x) => settled_on(end, x, joints, left, right, cells, from, to),
    }
}

/// The place up to which, from the place `from` on, spans of pairs of states reach the end that is given.
#[inline(always)]
fn settled_on<const N: usize>(
    end: End,
    given: i64,
    joints: &Joints,
    left: &RowView<'_, N>,
    right: &RowView<'_, N>,
    cells: u32,
    from: usize,
    to: usize,
) -> usize
    requires registers { 6 ≤ lane_count N }
    requires lanes { N ≤ 64 }
    requires alone { (sides N ≡ BothEnds) ⊎ (joints.now.wide ≡ false) }
    requires left { HavePlaces N joints.now.left_states to left.now }
    requires right { HavePlaces N joints.now.right_states to right.now }
    requires order { from ≤ to }
    ensures from { from ≤ result }
    ensures to { result ≤ to }
    ensures settled { (p : Pair) → AreJoints p joints.now →
        Between from result (IsSettled N (end_alone end given) p left.now right.now cells) }
{
    match end {
        End::Below => settled_in(
            Needed::One(End::Below, given),
            joints,
            left,
            right,
            cells,
            from,
            to,
        ),
        End::Above => settled_in(
            Needed::One(End::Above, given),
            joints,
            left,
            right,
            cells,
            from,
            to,
        ),
    }
}

/// The place up to which, from the place `from` on, spans of pairs of states reach the ends that are needed, which are
/// constants here as far as a match knows them.
#[inline(always)]
fn settled_in<const N: usize>(
    needed: Needed,
    joints: &Joints,
    left: &RowView<'_, N>,
    right: &RowView<'_, N>,
    cells: u32,
    from: usize,
    to: usize,
) -> usize
    requires registers { 6 ≤ lane_count N }
    requires lanes { N ≤ 64 }
    requires alone { (sides N ≡ BothEnds) ⊎ (joints.now.wide ≡ false) }
    requires left { HavePlaces N joints.now.left_states to left.now }
    requires right { HavePlaces N joints.now.right_states to right.now }
    requires order { from ≤ to }
    ensures from { from ≤ result }
    ensures to { result ≤ to }
    ensures settled { (p : Pair) → AreJoints p joints.now →
        Between from result (IsSettled N (needed_ends needed) p left.now right.now cells) }
{
    let mut at = from;
    for q in 0..joints.left_states {
        if at == to {
            return at;
        }
        at = settled_with(needed, joints, q, left.column(q), right, cells, at, to);
    }
    at
}

/// The place up to which, from `from` on, spans of pairs with the state `q` on the left reach the ends that are
/// needed.
#[inline(always)]
fn settled_with<const N: usize>(
    needed: Needed,
    joints: &Joints,
    q: u8,
    left: &[PackedHull<N>],
    right: &RowView<'_, N>,
    cells: u32,
    from: usize,
    to: usize,
) -> usize
    requires registers { 6 ≤ lane_count N }
    requires lanes { N ≤ 64 }
    requires alone { (sides N ≡ BothEnds) ⊎ (joints.now.wide ≡ false) }
    requires state { q < joints.now.left_states }
    requires left { ArePlaces N to left.now }
    requires right { HavePlaces N joints.now.right_states to right.now }
    requires order { from ≤ to }
    ensures from { from ≤ result }
    ensures to { result ≤ to }
    ensures settled { (p : Pair) → AreJoints p joints.now →
        Between from result (IsSettledBySome N (needed_ends needed) p q left.now right.now cells) }
{
    let mut at = from;
    for r in 0..joints.right_states {
        if at == to {
            return at;
        }
        at = settled_between(needed, joints, q, r, left, right.column(r), cells, at, to);
    }
    at
}

/// The place up to which, from `from` on, the spans of one pair of states reach the ends that are needed: `from` itself
/// where an occurrence goes on from one to the other.
#[inline(always)]
fn settled_between<const N: usize>(
    needed: Needed,
    joints: &Joints,
    q: u8,
    r: u8,
    left: &[PackedHull<N>],
    right: &[PackedHull<N>],
    cells: u32,
    from: usize,
    to: usize,
) -> usize
    requires registers { 6 ≤ lane_count N }
    requires lanes { N ≤ 64 }
    requires alone { (sides N ≡ BothEnds) ⊎ (joints.now.wide ≡ false) }
    requires state { q < joints.now.left_states }
    requires other { r < joints.now.right_states }
    requires left { ArePlaces N to left.now }
    requires right { ArePlaces N to right.now }
    requires order { from ≤ to }
    ensures from { from ≤ result }
    ensures to { result ≤ to }
    ensures settled { (p : Pair) → AreJoints p joints.now →
        Between from result (IsSettledBy N (needed_ends needed) p q r left.now right.now cells) }
{
    if joints.are_joined(q, r) {
        return from;
    }
    if joints.wide {
        settled_by_operator(needed, joints, true, left, right, cells, from, to)
    } else {
        settled_by_operator(needed, joints, false, left, right, cells, from, to)
    }
}

/// The place up to which, from `from` on, the spans of two states reach the ends that are needed, where no occurrence
/// goes on from one to the other. `wide` is whether the automata are.
#[inline(always)]
fn settled_by_operator<const N: usize>(
    needed: Needed,
    joints: &Joints,
    wide: bool,
    left: &[PackedHull<N>],
    right: &[PackedHull<N>],
    cells: u32,
    from: usize,
    to: usize,
) -> usize
    requires registers { 6 ≤ lane_count N }
    requires lanes { N ≤ 64 }
    requires alone { (sides N ≡ BothEnds) ⊎ (joints.now.wide ≡ false) }
    requires wide { wide ≡ joints.now.wide }
    requires left { ArePlaces N to left.now }
    requires right { ArePlaces N to right.now }
    requires order { from ≤ to }
    ensures from { from ≤ result }
    ensures to { result ≤ to }
    ensures settled { (p : Pair) (q r : ℕ) → AreJoints p joints.now → is_join p.table q r ≡ false →
        Between from result (IsSettledBy N (needed_ends needed) p q r left.now right.now cells) }
{
    match joints.result {
        Op::Add => settled_apart(needed, joints, Op::Add, wide, left, right, cells, from, to),
        Op::Max => settled_apart(needed, joints, Op::Max, wide, left, right, cells, from, to),
        Op::Min => settled_apart(needed, joints, Op::Min, wide, left, right, cells, from, to),
    }
}

/// The place up to which, from `from` on, the spans of two states reach the ends that are needed, where no occurrence
/// goes on from one to the other. `operator` is the one that joins results.
#[inline(always)]
fn settled_apart<const N: usize>(
    needed: Needed,
    joints: &Joints,
    operator: Op,
    wide: bool,
    left: &[PackedHull<N>],
    right: &[PackedHull<N>],
    cells: u32,
    from: usize,
    to: usize,
) -> usize
    requires registers { 6 ≤ lane_count N }
    requires lanes { N ≤ 64 }
    requires alone { (sides N ≡ BothEnds) ⊎ (joints.now.wide ≡ false) }
    requires operator { operator ≡ joints.now.result }
    requires wide { wide ≡ joints.now.wide }
    requires left { ArePlaces N to left.now }
    requires right { ArePlaces N to right.now }
    requires order { from ≤ to }
    ensures from { from ≤ result }
    ensures to { result ≤ to }
    ensures settled { (p : Pair) (q r : ℕ) → AreJoints p joints.now → is_join p.table q r ≡ false →
        Between from result (IsSettledBy N (needed_ends needed) p q r left.now right.now cells) }
{
    for i in from..to {
        if !settles(needed, joints, operator, wide, &left[i], &right[i], cells) {
            return i;
        }
    }
    to
}

/// Whether the span of two hulls reaches the ends that are needed, if any series reaches both states and no occurrence
/// goes on from one to the other.
#[inline(always)]
fn settles<const N: usize>(
    needed: Needed,
    joints: &Joints,
    operator: Op,
    wide: bool,
    left: &PackedHull<N>,
    right: &PackedHull<N>,
    cells: u32,
) -> bool
    requires registers { 6 ≤ lane_count N }
    requires lanes { N ≤ 64 }
    requires alone { (sides N ≡ BothEnds) ⊎ (joints.now.wide ≡ false) }
    requires operator { operator ≡ joints.now.result }
    requires wide { wide ≡ joints.now.wide }
    requires left { IsPacked (lane_count N) (lanes_of N left.now) }
    requires right { IsPacked (lane_count N) (lanes_of N right.now) }
    ensures { IsTrue result → (p : Pair) (q r : ℕ) → AreJoints p joints.now → is_join p.table q r ≡ false →
        AlwaysReaches (sides N) (needed_ends needed) p (with_hull N q left.now) (with_hull N r right.now) cells }
{
    if !left.is_some() {
        return false;
    }
    if !right.is_some() {
        return false;
    }
    match needed {
        Needed::Both(e) => answers_settle(e, joints, operator, left, right, cells),
        Needed::One(end, x) => end_settles(end, x, joints, operator, wide, left, right),
    }
}

/// Whether an end of the span of the answers of both runs reaches the one that is given, where both states are reached.
/// Nothing is known of an end that the hulls don't have.
#[inline(always)]
fn end_settles<const N: usize>(
    end: End,
    given: i64,
    joints: &Joints,
    operator: Op,
    wide: bool,
    left: &PackedHull<N>,
    right: &PackedHull<N>,
) -> bool
    requires registers { 6 ≤ lane_count N }
    requires alone { (sides N ≡ BothEnds) ⊎ (joints.now.wide ≡ false) }
    requires operator { operator ≡ joints.now.result }
    requires wide { wide ≡ joints.now.wide }
    requires left { AreSome (lane_count N) (lanes_of N left.now) }
    requires right { AreSome (lane_count N) (lanes_of N right.now) }
    ensures { IsTrue result → (p : Pair) (q r cells : ℕ) → AreJoints p joints.now → is_join p.table q r ≡ false →
        cells ≤ 4294967295 →
        AlwaysReaches (sides N) (end_alone end given) p (with_hull N q left.now) (with_hull N r right.now) cells }
{
    if !keeps::<N>(end) {
        return false;
    }
    reaches_under(
        joints.mark,
        apart_lane(end, wide, operator, left, right),
        given,
    )
}

/// Whether an end is the one given or farther out, under a mark too: a mark may bring in an infinite end alone.
#[inline(always)]
fn reaches_under(mark: Mark, x: i64, given: i64) -> bool
    ensures { IsTrue result → (given ≤ℤ x) × ((x <ℤ pos 9223372036854775807) ⊎ (mark ≡ Same)) }
{
    given <= x && (x < i64::MAX || is_same(mark))
}

/// Whether a mark changes nothing.
#[inline(always)]
fn is_same(mark: Mark) -> bool
    ensures { IsTrue result → mark ≡ Same }
{
    match mark {
        Mark::Same => true,
        Mark::Zero | Mark::Cells => false,
    }
}

/// Whether the span of the answers of both runs reaches the ends that are enough, where both states are reached. It is
/// a call: it is long and rare, and the tests of one end, which are asked most, stand in their loop without it.
#[inline(never)]
fn answers_settle<const N: usize>(
    enough: Ends,
    joints: &Joints,
    operator: Op,
    left: &PackedHull<N>,
    right: &PackedHull<N>,
    cells: u32,
) -> bool
    requires registers { 6 ≤ lane_count N }
    requires lanes { N ≤ 64 }
    requires alone { (sides N ≡ BothEnds) ⊎ (joints.now.wide ≡ false) }
    requires operator { operator ≡ joints.now.result }
    requires left { AreSome (lane_count N) (lanes_of N left.now) }
    requires right { AreSome (lane_count N) (lanes_of N right.now) }
    ensures { IsTrue result → (p : Pair) (q r : ℕ) → AreJoints p joints.now → is_join p.table q r ≡ false →
        AlwaysReaches (sides N) enough p (with_hull N q left.now) (with_hull N r right.now) cells }
{
    let glued = joints.apart(operator).glued(left, right);
    reaches(marked(joints.mark, glued, cells), enough)
}

/// Whether ends, in lanes, are those given or farther out.
#[inline(always)]
pub(crate) fn reaches(e: Ends, given: Ends) -> bool
    ensures { IsTrue result → (given.below ≤ℤ e.below) × (given.above ≤ℤ e.above) }
{
    given.below <= e.below && given.above <= e.above
}
