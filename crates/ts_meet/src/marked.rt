//! Marks on ends, and the hull of spans that are taken in one after the other.

ghost use Rattle.std.specs.Prelude.{◌≡◌, ◌<ℤ◌, neg_ℤ, pos, true};
ghost use Rattle.ts_base.specs.declared.span.Span.{Span};
ghost use Rattle.ts_base.specs.Spans.{none_span, span_hull};
ghost use Rattle.ts_automaton.specs.SpanRun.{marked_span};
ghost use Rattle.ts_meet.specs.Sides.{StandFor, first_end, hull_of_lanes, marked_above, marked_below, marked_ends};
ghost use Rattle.ts_sweep.specs.Lanes.{least};
ghost use Rattle.ts_sweep.specs.Packed.{IsPackOf, IsSomeEnds, max_ends, negated, upper};

use ts_automaton::Mark;
use ts_base::{Ext, Span};
use ts_sweep::packed::Ends;

/// A mark on both ends, and the hull of the two.
#[inline(always)]
pub(crate) fn marked(mark: Mark, e: Ends, n: u32) -> Ends
    requires { IsSomeEnds e }
    ensures { (s : Span) → IsPackOf e s → IsPackOf result (marked_span mark n s) }
{
    match mark {
        Mark::Same => e,
        Mark::Zero | Mark::Cells => with_mark(mark, e, n),
    }
}

/// A mark that may change an infinite end, on both ends, and the hull of the two.
#[inline(always)]
fn with_mark(mark: Mark, e: Ends, n: u32) -> Ends
    requires { IsSomeEnds e }
    ensures { (s : Span) → IsPackOf e s → IsPackOf result (marked_span mark n s) }
{
    if are_finite(e) {
        e
    } else {
        marked_ends(mark, e, n)
    }
}

/// Whether no end is infinite outwards.
#[inline(always)]
fn are_finite(e: Ends) -> bool
    ensures { result ≡ true → (e.below <ℤ pos 9223372036854775807) × (e.above <ℤ pos 9223372036854775807) }
{
    e.below < i64::MAX && e.above < i64::MAX
}

/// A mark that is a constant, on both ends, and the hull of the two: then one end tells whether it changes anything.
#[inline(always)]
pub(crate) fn marked_by(mark: Mark, e: Ends, n: u32) -> Ends
    requires { IsSomeEnds e }
    ensures { (s : Span) → IsPackOf e s → IsPackOf result (marked_span mark n s) }
{
    match mark {
        Mark::Same => e,
        Mark::Zero | Mark::Cells => with_known(mark, e, n),
    }
}

/// A mark that is a constant and may change an infinite end, on both ends, and the hull of the two.
#[inline(always)]
fn with_known(mark: Mark, e: Ends, n: u32) -> Ends
    requires { IsSomeEnds e }
    ensures { (s : Span) → IsPackOf e s → IsPackOf result (marked_span mark n s) }
{
    if is_kept(mark, e) {
        e
    } else {
        marked_ends(mark, e, n)
    }
}

/// Whether the end that a mark changes first isn't infinite outwards: then it changes neither.
#[inline(always)]
fn is_kept(mark: Mark, e: Ends) -> bool
    ensures { result ≡ true → first_end mark e <ℤ pos 9223372036854775807 }
{
    match mark {
        Mark::Same | Mark::Zero => e.below < i64::MAX,
        Mark::Cells => e.above < i64::MAX,
    }
}

/// A mark that may change a number, on both ends, and the hull of the two.
fn marked_ends(mark: Mark, e: Ends, n: u32) -> Ends
    requires below { least <ℤ e.below }
    requires above { least <ℤ e.above }
    ensures { result ≡ marked_ends mark n e }
{
    let below = marked_below(mark, e.below, n);
    let above = marked_above(mark, e.above, n);
    hull_of_lanes(below, above)
}

/// The hull of the numbers in two lanes, the first as a lower end.
fn hull_of_lanes(below: i64, above: i64) -> Ends
    requires below { least <ℤ below }
    requires above { least <ℤ above }
    ensures { result ≡ hull_of_lanes below above }
{
    let first = Ends {
        below,
        above: opposite(below),
    };
    let last = Ends {
        below: opposite(above),
        above,
    };
    greater(first, last)
}

/// A number on the other side of 0.
fn opposite(x: i64) -> i64
    requires { least <ℤ x }
    ensures { result ≡ neg_ℤ x }
{
    -x
}

/// A mark on a lower end.
fn marked_below(mark: Mark, x: i64, n: u32) -> i64
    requires { least <ℤ x }
    ensures value { result ≡ marked_below mark n x }
    ensures above { least <ℤ result }
{
    match mark {
        Mark::Zero if x >= i64::MAX => 0,
        Mark::Cells if x <= -i64::MAX => -(n as i64),
        _ => x,
    }
}

/// A mark on an upper end.
fn marked_above(mark: Mark, x: i64, n: u32) -> i64
    requires { least <ℤ x }
    ensures value { result ≡ marked_above mark n x }
    ensures above { least <ℤ result }
{
    match mark {
        Mark::Zero if x <= -i64::MAX => 0,
        Mark::Cells if x >= i64::MAX => n as i64,
        _ => x,
    }
}

/// The ends of a hull into which nothing was taken yet.
#[inline(always)]
pub(crate) fn nothing() -> Ends
    ensures { StandFor result none_span }
{
    Ends {
        below: i64::MIN,
        above: i64::MIN,
    }
}

/// A hull with one more span joined to it.
#[inline(always)]
pub(crate) fn joined(hull: Ends, e: Ends) -> Ends
    ensures { (s t : Span) → StandFor hull s → IsPackOf e t → StandFor result (span_hull s t) }
{
    greater(hull, e)
}

/// The hull of two hulls.
#[inline(always)]
pub(crate) fn hull_of_both(a: Ends, b: Ends) -> Ends
    ensures { (s t : Span) → StandFor a s → StandFor b t → StandFor result (span_hull s t) }
{
    greater(a, b)
}

/// The greater of each end.
#[inline(always)]
pub(crate) fn greater(a: Ends, b: Ends) -> Ends
    ensures { result ≡ max_ends a b }
{
    Ends {
        below: a.below.max(b.below),
        above: a.above.max(b.above),
    }
}

/// The span that the ends of a hull represent, none if nothing was taken in.
pub(crate) fn span_of(hull: Ends) -> Span
    ensures { (s : Span) → StandFor hull s → result ≡ s }
{
    Span {
        lo: lower(hull.below),
        hi: upper(hull.above),
    }
}

/// The upper end that a lane represents.
fn upper(x: i64) -> Ext
    ensures { result ≡ upper x }
{
    if x <= -i64::MAX {
        Ext::NegInf
    } else if i64::MAX <= x {
        Ext::PosInf
    } else {
        Ext::Int(x)
    }
}

/// The lower end that a lane represents, negated there.
fn lower(x: i64) -> Ext
    ensures { result ≡ negated (upper x) }
{
    if x <= -i64::MAX {
        Ext::PosInf
    } else if i64::MAX <= x {
        Ext::NegInf
    } else {
        Ext::Int(-x)
    }
}
