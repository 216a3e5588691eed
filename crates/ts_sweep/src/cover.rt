//! The cover of a column: between which numbers its hulls lie, which tells whether sums stay small.

ghost use Rattle.std.specs.Prelude.{◌≡◌, ◌<◌, ◌≤◌, ℕ, ℤ, List, get_or, length, true};
ghost use Rattle.ts_sweep.specs.Covers.{
  IsBounded,
  IsCoverOf,
  bound_ends,
  cover_ends,
  join_of,
  nothing_of,
  turned,
  turned_hull,
};
ghost use Rattle.ts_sweep.specs.Packed.{IsPacked, ends_in, place};
ghost use Rattle.ts_sweep.specs.Sides.{BothEnds, as_read, lane_count, lanes_in, sides};

use crate::column::Column;
use crate::hull::Hull;
use crate::packed::{Ends, LOWER, Name, Packed, PackedHull, UPPER};

/// The ends of each register that no hull of a column goes beyond.
#[derive(Clone, Copy)]
pub struct Cover {
    pub c: Ends,
    pub e: Ends,
    pub d: Ends,
    pub f: Ends,
    pub r: Ends,
}

impl Cover {
    /// A cover that bounds no number.
    #[inline(always)]
    pub fn greatest() -> Cover
        ensures { (xs : List ℤ) → IsBounded result xs }
    {
        let e = Ends {
            below: i64::MAX,
            above: i64::MAX,
        };
        Cover {
            c: e,
            e,
            d: e,
            f: e,
            r: e,
        }
    }

    /// The ends of a register.
    #[inline(always)]
    pub(crate) fn ends(&self, register: Name) -> Ends
        ensures { result ≡ cover_ends self.now register }
    {
        match register {
            Name::C => self.c,
            Name::E => self.e,
            Name::D => self.d,
            Name::F => self.f,
            Name::R => self.r,
        }
    }
}

/// A lane negated; nothing stays nothing.
#[inline(always)]
fn turned_lane(x: i64) -> i64
    ensures { result ≡ turned x }
{
    if x == i64::MIN { x } else { -x }
}

/// A hull with each lane negated.
#[inline(always)]
fn turned<const N: usize>(h: &PackedHull<N>) -> PackedHull<N>
    ensures { result ≡ turned_hull N h.now }
{
    let mut at = h.at;
    for k in 0..N {
        at[k] = turned_lane(at[k]);
    }
    PackedHull { at }
}

/// A hull, joined with another one whose lanes are negated, where that has one end alone.
#[inline(always)]
fn with_turned<const N: usize>(all: PackedHull<N>, h: &PackedHull<N>) -> PackedHull<N>
    ensures { (sides N ≡ BothEnds → ⊥) → result ≡ join_of N all.entry (turned_hull N h.now) }
{
    if N == UPPER || N == LOWER {
        all.joined(turned(h))
    } else {
        all
    }
}

/// The ends of a register in a cover.
#[inline(always)]
fn bound<const N: usize>(all: &PackedHull<N>, turned: &PackedHull<N>, register: Name) -> Ends
    requires registers { 6 ≤ lane_count N }
    ensures { result ≡ bound_ends (sides N)
        (ends_in (as_read (sides N) (lanes_in N all.now.at)) (place (lane_count N) register))
        (ends_in (as_read (sides N) (lanes_in N turned.now.at)) (place (lane_count N) register)) }
{
    let e = all.ends(register);
    let t = turned.ends(register);
    if N == UPPER {
        Ends {
            below: t.above,
            above: e.above,
        }
    } else if N == LOWER {
        Ends {
            below: e.below,
            above: t.below,
        }
    } else {
        e
    }
}

/// The cover of the hulls of a state.
#[inline(always)]
pub fn cover_of<const N: usize, C: Column<PackedHull<N>>>(
    from: C,
    row: &[C::Item],
    count: usize,
) -> Cover
    requires registers { 6 ≤ lane_count N }
    requires lanes { N ≤ 64 }
    requires whole { C.whole from row.now }
    requires readable { C.readable from row.now }
    requires same { length (C.column from row.now) ≡ count }
    ensures { ((i : ℕ) → i < count →
        IsPacked (lane_count N) (lanes_in N (get_or (C.hulls from row.now) i (nothing_of N)).at)) →
        IsCoverOf (sides N) (λ h. lanes_in N h.at) (nothing_of N) result count (C.hulls from row.now) }
{
    let mut all = PackedHull::<N>::nothing();
    let mut turned = PackedHull::<N>::nothing();
    for i in 0..count {
        let h = from.hull(row, i);
        turned = with_turned(turned, &h);
        all = all.joined(h);
    }
    Cover {
        c: bound(&all, &turned, Name::C),
        e: bound(&all, &turned, Name::E),
        d: bound(&all, &turned, Name::D),
        f: bound(&all, &turned, Name::F),
        r: bound(&all, &turned, Name::R),
    }
}
