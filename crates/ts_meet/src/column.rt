//! What is known of the ends of the registers in a column, found once for all values: above which numbers none of them
//! lies. Where those aren't far out, no sum has to be clamped.

ghost use Rattle.std.specs.Prelude.{◌≡◌, ◌<◌, ◌+◌, ◌≤◌, ℕ, [], IfSome, get_or, true};
ghost use Rattle.ts_automaton.specs.Registers.{EachOf};
ghost use Rattle.ts_meet.specs.Peaks.{AreWatched, IsAnswerHeld, IsKnown, IsUnheld, higher, unwatched};
ghost use Rattle.ts_meet.specs.Settled.{ArePlaces, HavePlaces};
ghost use Rattle.ts_meet.specs.Sides.{ends_in, side_of};
ghost use Rattle.ts_row.specs.Rows.{lanes_of};
ghost use Rattle.ts_sweep.specs.declared.packed.Ends.{Ends};
ghost use Rattle.ts_sweep.specs.Lanes.{some_lanes};
ghost use Rattle.ts_sweep.specs.Packed.{IsPacked};
ghost use Rattle.ts_sweep.specs.Sides.{lane_count, sides};

use crate::gluing::is_add;
use crate::joints::{Joints, STATES};
use crate::marked::greater;
use crate::side::{Side, are_plain_where};
use ts_automaton::Op;
use ts_row::RowView;
use ts_sweep::hull::Hull;
use ts_sweep::packed::{Ends, PackedHull};

/// What is known of the ends in a column: each is at most the peak in its lane, if that isn't the greatest number.
#[derive(Clone, Copy)]
pub(crate) struct Watched {
    pub(crate) peaks: Side,
}

impl Watched {
    /// What is known of the hulls at `count` places from `from` on: of narrow ones nothing, unless it is needed.
    pub(crate) fn over<const N: usize>(
        needed: bool,
        wide: bool,
        hulls: &[PackedHull<N>],
        from: usize,
        count: usize,
    ) -> Watched
        requires registers { 6 ≤ lane_count N }
        requires hulls { ArePlaces N (from + count) hulls.now }
        ensures { AreWatched N result hulls.now from count }
    {
        if needed | wide {
            Watched::of_hulls(hulls, from, count)
        } else {
            Watched::nothing()
        }
    }

    /// Whether C is held, if that is told and all numbers that are added or taken away in the answer of a run are
    /// small. From C of narrow automata nothing is taken away, so it is as if held.
    #[inline(always)]
    pub(crate) fn held(self, wide: bool, operator: Op) -> Option<bool>
        ensures { (a : EachOf Ends) → IfSome result (λ held.
            IsKnown self a → IsAnswerHeld wide operator held a) }
    {
        let peaks = self.peaks;
        let adds = is_add(operator);
        if !are_plain_where(adds, peaks.r) {
            return None;
        }
        if !are_plain_where(wide, peaks.e) {
            return None;
        }
        if wide && is_unheld(operator, peaks.c) {
            return Some(false);
        }
        if !are_plain_where(wide | adds, peaks.c) {
            return None;
        }
        Some(true)
    }

    /// The greatest end in each lane of the hulls at `count` places from `from` on.
    #[inline(never)]
    fn of_hulls<const N: usize>(hulls: &[PackedHull<N>], from: usize, count: usize) -> Watched
        requires registers { 6 ≤ lane_count N }
        requires hulls { ArePlaces N (from + count) hulls.now }
        ensures { AreWatched N result hulls.now from count }
    {
        let mut all = Watched {
            peaks: Side::of_lanes(&PackedHull::<N>::nothing()),
        };
        for i in 0..count {
            all = all.with_hull(&hulls[from + i]);
        }
        all
    }

    /// With the ends of one more hull. One of nothing changes none, for nothing is the least number in a lane.
    #[inline(always)]
    fn with_hull<const N: usize>(self, h: &PackedHull<N>) -> Watched
        requires registers { 6 ≤ lane_count N }
        requires packed { IsPacked (lane_count N) (lanes_of N h.now) }
        ensures kept { (a : EachOf Ends) → IsKnown self a → IsKnown result a }
        ensures added { some_lanes (lanes_of N h.now) ≡ true →
            IsKnown result (side_of (sides N) (lanes_of N h.now)) }
    {
        let side = Side::of_lanes(h);
        Watched {
            peaks: higher(self.peaks, side),
        }
    }

    /// Where nothing is known.
    #[inline(always)]
    fn nothing() -> Watched
        ensures { (a : EachOf Ends) → IsKnown result a }
    {
        let any = Ends {
            below: i64::MAX,
            above: i64::MAX,
        };
        Watched {
            peaks: Side {
                c: any,
                e: any,
                d: any,
                f: any,
                r: any,
            },
        }
    }
}

/// The greater of each end of each register.
#[inline(always)]
fn higher(a: Side, b: Side) -> Side
    ensures { ends_in result ≡ higher (ends_in a) (ends_in b) }
{
    Side {
        c: greater(a.c, b.c),
        e: greater(a.e, b.e),
        d: greater(a.d, b.d),
        f: greater(a.f, b.f),
        r: greater(a.r, b.r),
    }
}

/// Whether C is everywhere the infinity that an operator passes over, by the greatest of each end of it.
#[inline(always)]
fn is_unheld(operator: Op, c: Ends) -> bool
    ensures { result ≡ true → IsUnheld operator c }
{
    match operator {
        Op::Add => false,
        Op::Max => c.above <= -i64::MAX,
        Op::Min => c.below <= -i64::MAX,
    }
}

/// What is known of each column of a reverse row at `count` places from `from` on.
pub(crate) fn watched_in<const N: usize>(
    joints: &Joints,
    states: u8,
    row: &RowView<'_, N>,
    from: usize,
    count: usize,
) -> [Watched; STATES]
    requires registers { 6 ≤ lane_count N }
    requires lanes { N ≤ 64 }
    requires few { states ≤ 8 }
    requires row { HavePlaces N states (from + count) row.now }
    ensures { (q : ℕ) → q < states →
        AreWatched N (get_or result q unwatched) (get_or row.now q []) from count }
{
    let mut all = [Watched::nothing(); STATES];
    for q in 0..states {
        let needed = joints.watches_right(q);
        all[q as usize] = Watched::over(needed, joints.wide, row.column(q), from, count);
    }
    all
}
