//! The registers on one side of a cell.

ghost use Rattle.std.specs.Prelude.{◌≡◌, ◌≤◌, ◌<ℤ◌, true};
ghost use Rattle.ts_meet.specs.Joints.{IsOpenPlain};
ghost use Rattle.ts_meet.specs.Sides.{ends_in, pointed_ends, shown_ends, side_of, turned};
ghost use Rattle.ts_row.specs.Rows.{lanes_of};
ghost use Rattle.ts_sweep.specs.Fronts.{ArePlain};
ghost use Rattle.ts_sweep.specs.Lanes.{least};
ghost use Rattle.ts_sweep.specs.Packed.{AreSome, name_ends};
ghost use Rattle.ts_sweep.specs.Sides.{lane_count, sides};

use ts_automaton::Op;
use ts_sweep::packed::{Ends, LOWER, Name, Packed, PackedHull, UPPER};

/// The greatest number in ends that are added without a clamp.
const PLAIN: i64 = 10_000_000_000_000_000;

/// The ends of each register.
#[derive(Clone, Copy)]
pub(crate) struct Side {
    pub(crate) c: Ends,
    pub(crate) e: Ends,
    pub(crate) d: Ends,
    pub(crate) f: Ends,
    pub(crate) r: Ends,
}

impl Side {
    /// The ends of the registers in a packed hull. An end that the hull doesn't have is read as the one that it has.
    #[inline(always)]
    pub(crate) fn of<const N: usize>(h: &PackedHull<N>) -> Side
        requires registers { 6 ≤ lane_count N }
        requires some { AreSome (lane_count N) (lanes_of N h.now) }
        ensures { ends_in result ≡ side_of (sides N) (lanes_of N h.now) }
    {
        Side::of_lanes(h)
    }

    /// The ends of the registers in a packed hull, if registers lie in it. If none do, each lane stays as it is.
    #[inline(always)]
    pub(crate) fn of_lanes<const N: usize>(h: &PackedHull<N>) -> Side
        requires { 6 ≤ lane_count N }
        ensures { AreSome (lane_count N) (lanes_of N h.now) → ends_in result ≡ side_of (sides N) (lanes_of N h.now) }
    {
        Side {
            c: register_of(h, Name::C),
            e: register_of(h, Name::E),
            d: register_of(h, Name::D),
            f: register_of(h, Name::F),
            r: register_of(h, Name::R),
        }
    }
}

/// The ends of a register in a packed hull. An end that the hull doesn't have is read as the one that it has.
#[inline(always)]
fn register_of<const N: usize>(h: &PackedHull<N>, register: Name) -> Ends
    requires { 6 ≤ lane_count N }
    ensures { AreSome (lane_count N) (lanes_of N h.now) →
        result ≡ pointed_ends (sides N) (name_ends (lanes_of N h.now) register) }
{
    pointed::<N>(h.ends(register))
}

/// The ends of a single number or infinity, from the one that a hull of N lanes has; where it has both, all of them.
#[inline(always)]
fn pointed<const N: usize>(e: Ends) -> Ends
    ensures { least <ℤ e.below → least <ℤ e.above → result ≡ pointed_ends (sides N) e }
{
    if N == UPPER {
        Ends {
            below: turned(e.above),
            above: e.above,
        }
    } else if N == LOWER {
        Ends {
            below: e.below,
            above: turned(e.below),
        }
    } else {
        e
    }
}

/// An end in the lane of the other end. The least number, which is nothing, stays.
#[inline(always)]
fn turned(x: i64) -> i64
    ensures { least <ℤ x → result ≡ turned x }
{
    if x == i64::MIN { x } else { -x }
}

/// Ends where one that a hull of N lanes doesn't have is infinite again.
#[inline(always)]
pub(crate) fn shown<const N: usize>(e: Ends) -> Ends
    ensures { result ≡ shown_ends (sides N) e }
{
    if N == UPPER {
        Ends {
            below: i64::MAX,
            above: e.above,
        }
    } else if N == LOWER {
        Ends {
            below: e.below,
            above: i64::MAX,
        }
    } else {
        e
    }
}

/// Whether no end is above 10^16: between two such ends lie small numbers alone.
#[inline(always)]
pub(crate) fn are_plain(e: Ends) -> bool
    ensures { result ≡ true → ArePlain e }
{
    e.below.max(e.above) <= PLAIN
}

/// Whether no end is above 10^16, where that is needed.
#[inline(always)]
pub(crate) fn are_plain_where(needed: bool, e: Ends) -> bool
    ensures { result ≡ true → needed ≡ true → ArePlain e }
{
    !needed || are_plain(e)
}

/// Whether cells that may be none leave a fold with a small number small: the upper end decides on the greatest, the
/// lower one on the least, both on the sum.
#[inline(always)]
pub(crate) fn is_open_plain(fold: Op, e: Ends) -> bool
    ensures { result ≡ true → IsOpenPlain fold e }
{
    match fold {
        Op::Add => are_plain(e),
        Op::Max => e.above <= PLAIN,
        Op::Min => e.below <= PLAIN,
    }
}
