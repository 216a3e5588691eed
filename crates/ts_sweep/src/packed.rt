//! Hulls in packed form: a number for each end of a register.
//!
//! A lower end is negated, so that hulls are joined by the greater number in each lane, whichever end it is:
//!
//! ```text
//!   register      C          D          R
//!   lane        0    1     2    3     4    5          a lower end is negated: the span -2 .. 7 is 2, 7
//!              -lo   hi   -lo   hi   -lo   hi
//! ```
//!
//! A wide hull has ten lanes, in the order C, E, D, F, R. A narrow one has none for E and F, which hold 0. A narrow
//! hull of one end alone has three lanes, for its upper ends, or four, for its lower ends and one that is idle, since
//! lanes are joined in pairs. The end that has no lane is taken as infinite.
//!
//! The greatest number represents an infinity. The least one in each lane represents a hull of nothing, which changes
//! no hull that it is joined to.

ghost use Rattle.std.specs.Prelude.{◌≡◌, ◌+◌, ◌*◌, ◌<◌, ◌≤◌, IfSome, Some};
ghost use Rattle.ts_sweep.specs.Lanes.{greater_of, some_lanes};
ghost use Rattle.ts_sweep.specs.Packed.{
  IsPacked,
  IsPlace,
  ends_in,
  is_wide,
  name_ends,
  number_ends,
  place,
  with_ends_in,
};
ghost use Rattle.ts_sweep.specs.Sides.{as_read, has_wide, kept_ends, lane_count, lanes_in, sides, with_kept};
ghost use Rattle.ts_sweep.specs.Small.{IsSmall};

use crate::hull::Hull;

/// Both ends of a register, the lower one negated.
#[derive(Clone, Copy, Debug, PartialEq, Eq)]
pub struct Ends {
    pub below: i64,
    pub above: i64,
}

/// A register.
#[derive(Clone, Copy, Debug, PartialEq, Eq)]
pub enum Name {
    C,
    E,
    D,
    F,
    R,
}

/// How many lanes a hull of upper ends alone has: one for each of C, D and R.
pub const UPPER: usize = 3;

/// How many lanes a hull of lower ends alone has: one is idle.
pub const LOWER: usize = 4;

/// A hull of N lanes: two for each register, or one in a hull of one end alone.
#[derive(Clone, Copy, Debug, PartialEq, Eq)]
pub struct PackedHull<const N: usize> {
    pub at: [i64; N],
}

/// Hulls of registers, two lanes for each register, or one in a hull of one end alone.
pub trait Packed: Hull {
    ghost use Rattle.std.specs.Prelude.{◌⊎◌, ℕ, ℤ, List, false, true};
    ghost use Rattle.ts_sweep.specs.declared.packed.Ends.{Ends};
    ghost use Rattle.ts_sweep.specs.declared.packed.Name.{Name};
    ghost use Rattle.ts_sweep.specs.Lanes.{greater_of, no_lanes, some_lanes};
    ghost use Rattle.ts_sweep.specs.Packed.{IsPacked, ends_in, is_wide, name_ends, place, unpacked, with_ends_in};
    ghost use Rattle.ts_sweep.specs.Sides.{BothEnds, Sides, as_read, kept_ends, read_ends, seen_hull};

    /// Which ends the hull has.
    ghost sides: { Sides };

    /// How many lanes there are for both ends of all registers.
    ghost count: { ℕ };

    /// The lanes of both ends; those of an end that the hull doesn't have are infinite.
    ghost lanes: { Self → List ℤ };

    /// The hull with other ends of a register, if it has lanes for it.
    ghost replaced: { Self → Name → Ends → Self };

    /// Whether there are lanes for E and F.
    fn is_wide() -> bool
        ensures { result ≡ is_wide count };

    /// Whether the hull has both ends.
    fn has_both() -> bool
        ensures { result ≡ true → sides ≡ BothEnds };

    /// Whether registers lie in the hull.
    fn is_some(&self) -> bool
        ensures { result ≡ some_lanes (lanes self.now) };

    /// Whether registers lie in a packed hull, which any lane shows. It is told whether C is taken in as a pair of
    /// lanes.
    fn holds_some(&self, c_paired: bool) -> bool
        requires packed { IsPacked count (lanes self.now) }
        ensures { result ≡ some_lanes (lanes self.now) };

    /// The ends of a register. An end that the hull hasn't is 0, which may be added to anything.
    fn ends(&self, register: Name) -> Ends
        requires registers { 6 ≤ count }
        ensures placed { result ≡ ends_in (as_read sides (lanes self.now)) (place count register) }
        ensures value { result ≡ name_ends (as_read sides (lanes self.now)) register };

    /// Ends as they are read from a hull: one that the hull doesn't have is 0.
    fn read(e: Ends) -> Ends
        ensures { result ≡ read_ends sides e };

    /// The hull with other ends of a register, if it has lanes for it.
    fn with(self, register: Name, e: Ends) -> Self
        requires registers { 6 ≤ count }
        ensures { result ≡ replaced self register e };

    ghost both_lanes: { (a b : Self) → lanes (Self.both a b) ≡ greater_of (lanes a) (lanes b) };

    ghost none_lanes: { lanes Self.none ≡ no_lanes count };

    ghost takes_none: { (h : Self) → IsPacked count (lanes h) → Self.both h Self.none ≡ h };

    ghost replaced_lanes: { (h : Self) (register : Name) (e : Ends) → lanes (replaced h register e)
        ≡ with_ends_in (lanes h) (place count register) (kept_ends sides e) };

    ghost alone: { (sides ≡ BothEnds) ⊎ (is_wide count ≡ false) };

    ghost shown: { (h : Self) → 6 ≤ count → IsPacked count (lanes h) →
        seen_hull sides (unpacked (lanes h)) ≡ unpacked (lanes h) };
}

/// The ends of a number.
#[inline(always)]
pub(crate) fn number(x: i64) -> Ends
    requires { IsSmall x }
    ensures { result ≡ number_ends x }
{
    Ends {
        below: -x,
        above: x,
    }
}

/// The greater number in each lane.
#[inline(always)]
fn greater<const N: usize>(a: [i64; N], b: [i64; N]) -> [i64; N]
    ensures { result ≡ greater_of a.entry b.entry }
{
    let mut out = a;
    for k in 0..N {
        out[k] = out[k].max(b[k]);
    }
    out
}

/// Whether lanes hold registers: the first lane shows it.
#[inline(always)]
fn has_some<const N: usize>(at: [i64; N]) -> bool
    ensures { result ≡ some_lanes (lanes_in N at.entry) }
{
    N > 0 && at[0] != i64::MIN
}

/// Whether packed lanes hold registers: any lane shows it.
#[inline(always)]
fn shows_some<const N: usize>(at: [i64; N], lane: usize) -> bool
    requires whole { 6 ≤ N }
    requires inside { lane < N }
    requires packed { IsPacked (lane_count N) (lanes_in N at) }
    ensures { result ≡ some_lanes (lanes_in N at.entry) }
{
    at[lane] != i64::MIN
}

/// Whether packed lanes hold registers. The compiler takes in two lanes as a pair, but not where one of them is read
/// before the other, as it is here. So this reads a lane of F in a wide hull, since moves mostly change its ends one by
/// one, and one of D in a narrow hull whose C is a pair.
#[inline(always)]
fn holds_some<const N: usize>(at: [i64; N], c_paired: bool) -> bool
    requires packed { IsPacked (lane_count N) (lanes_in N at) }
    ensures { result ≡ some_lanes (lanes_in N at.entry) }
{
    if N >= 10 {
        shows_some::<N>(at, 6)
    } else if N >= 6 && c_paired {
        shows_some::<N>(at, 2)
    } else {
        has_some::<N>(at)
    }
}

/// Whether there are lanes for five registers.
#[inline(always)]
fn has_ten<const N: usize>() -> bool
    ensures { result ≡ has_wide N }
{
    10 <= N
}

/// The place of a register, if it has one.
#[inline(always)]
fn place<const N: usize>(register: Name) -> Option<usize>
    requires registers { 6 ≤ lane_count N }
    ensures value { result ≡ place (lane_count N) register }
    ensures inside { IsPlace (lane_count N) result }
    ensures few { IfSome result (λ p. p ≤ 4) }
{
    let wide = has_ten::<N>();
    match register {
        Name::C => Some(0),
        Name::E => if wide { Some(1) } else { None },
        Name::D => Some(if wide { 2 } else { 1 }),
        Name::F => if wide { Some(3) } else { None },
        Name::R => Some(if wide { 4 } else { 2 }),
    }
}

/// The ends of the register at a place in lanes.
#[inline(always)]
fn ends_at<const N: usize>(at: &[i64; N], p: usize) -> Ends
    requires inside { 2 * p + 1 < lane_count N }
    requires few { p ≤ 4 }
    ensures { result ≡ ends_in (as_read (sides N) (lanes_in N at.now)) (Some p) }
{
    if N == UPPER {
        Ends {
            below: 0,
            above: at[p],
        }
    } else if N == LOWER {
        Ends {
            below: at[p],
            above: 0,
        }
    } else {
        Ends {
            below: at[2 * p],
            above: at[2 * p + 1],
        }
    }
}

/// The ends at a place in lanes, if there is one.
#[inline(always)]
fn ends_of<const N: usize>(at: &[i64; N], place: Option<usize>) -> Ends
    requires inside { IsPlace (lane_count N) place }
    requires few { IfSome place (λ p. p ≤ 4) }
    ensures { result ≡ ends_in (as_read (sides N) (lanes_in N at.now)) place }
{
    match place {
        Some(p) => ends_at(at, p),
        None => Ends { below: 0, above: 0 },
    }
}

/// Lanes with other ends of the register at a place.
#[inline(always)]
fn with_ends_at<const N: usize>(lanes: [i64; N], p: usize, e: Ends) -> [i64; N]
    requires inside { 2 * p + 1 < lane_count N }
    requires few { p ≤ 4 }
    ensures { result ≡ with_kept (sides N) lanes.entry (Some p) e }
{
    let mut at = lanes;
    if N == UPPER {
        at[p] = e.above;
    } else if N == LOWER {
        at[p] = e.below;
    } else {
        at[2 * p] = e.below;
        at[2 * p + 1] = e.above;
    }
    at
}

/// Lanes with other ends at a place, if there is one.
#[inline(always)]
fn with_ends<const N: usize>(lanes: [i64; N], place: Option<usize>, e: Ends) -> [i64; N]
    requires inside { IsPlace (lane_count N) place }
    requires few { IfSome place (λ p. p ≤ 4) }
    ensures { result ≡ with_kept (sides N) lanes.entry place e }
{
    match place {
        Some(p) => with_ends_at(lanes, p, e),
        None => lanes,
    }
}

impl<const N: usize> Hull for PackedHull<N> {
    ghost use Rattle.std.proofs.Common.{ap};
    ghost use Rattle.ts_sweep.specs.Lanes.{greater_of, no_lanes};
    ghost use Rattle.ts_sweep.specs.LaneLaws.{lanes_associative, lanes_commutative, lanes_idempotent};

    ghost both = { λ a b. record { at = greater_of a.at b.at } };

    ghost none = { record { at = no_lanes N } };

    ghost associative = { λ a b c. ap (λ xs. record { at = xs }) (lanes_associative a.at b.at c.at) };

    ghost commutative = { λ a b. ap (λ xs. record { at = xs }) (lanes_commutative a.at b.at) };

    ghost idempotent = { λ a. ap (λ xs. record { at = xs }) (lanes_idempotent a.at) };

    #[inline(always)]
    fn nothing() -> PackedHull<N> {
        PackedHull { at: [i64::MIN; N] }
    }

    #[inline(always)]
    fn joined(self, other: PackedHull<N>) -> PackedHull<N> {
        PackedHull {
            at: greater::<N>(self.at, other.at),
        }
    }
}

impl<const N: usize> Packed for PackedHull<N> {
    ghost use Rattle.std.proofs.Common.{ap};
    ghost use Rattle.ts_sweep.specs.Packed.{place};
    ghost use Rattle.ts_sweep.specs.Sides.{lane_count, lanes_in, sides, with_kept};
    ghost use Rattle.ts_sweep.specs.SidesLaws.{alone, joined_by, none_by, replaced_by, shown, takes_none};

    ghost sides = { sides N };

    ghost count = { lane_count N };

    ghost lanes = { λ h. lanes_in N h.at };

    ghost replaced = { λ h register e. record { at = with_kept (sides N) h.at (place (lane_count N) register) e } };

    ghost both_lanes = { λ a b. joined_by (sides N) a.at b.at };

    ghost none_lanes = { none_by (sides N) N };

    ghost takes_none = { λ h p. ap (λ xs. record { at = xs }) (takes_none (sides N) N h.at p) };

    ghost replaced_lanes = { λ h register e. replaced_by (sides N) h.at (place (lane_count N) register) e };

    ghost alone = { alone N };

    ghost shown = { λ h big p. shown (sides N) N h.at big p };

    #[inline(always)]
    fn is_wide() -> bool {
        has_ten::<N>()
    }

    #[inline(always)]
    fn has_both() -> bool {
        N != UPPER && N != LOWER
    }

    #[inline(always)]
    fn is_some(&self) -> bool {
        has_some::<N>(self.at)
    }

    #[inline(always)]
    fn holds_some(&self, c_paired: bool) -> bool {
        holds_some::<N>(self.at, c_paired)
    }

    #[inline(always)]
    fn ends(&self, register: Name) -> Ends {
        ends_of::<N>(&self.at, place::<N>(register))
    }

    #[inline(always)]
    fn read(e: Ends) -> Ends {
        if N == UPPER {
            Ends {
                below: 0,
                above: e.above,
            }
        } else if N == LOWER {
            Ends {
                below: e.below,
                above: 0,
            }
        } else {
            e
        }
    }

    #[inline(always)]
    fn with(self, register: Name, e: Ends) -> PackedHull<N> {
        PackedHull {
            at: with_ends::<N>(self.at, place::<N>(register), e),
        }
    }
}
