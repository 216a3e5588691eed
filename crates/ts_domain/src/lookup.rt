//! Where a number lies among the ranges of a set, found by halving.

ghost use Rattle.std.specs.Prelude.{◌≡◌, ◌≤◌, ◌<ℤ◌, ◌≤ℤ◌, ℤ, neg_ℤ, IsTrue, ◌↔◌, length, int_le, int_lt, Contains};
ghost use Rattle.ts_base.specs.Limits.{greatest_value};
ghost use Rattle.ts_domain.specs.Values.{RangesFrom, values_of};
ghost use Rattle.ts_domain.specs.Pieces.{leading_count, IsLastUpTo, IsFirstFrom, SomeUpTo, SomeFrom};

use crate::interval::Interval;

/// How many ranges end below `t`.
pub(crate) fn ended_below(ranges: &[Interval], t: i64) -> usize
    requires { RangesFrom (neg_ℤ greatest_value) ranges.now }
    ensures count { result ≡ leading_count (λ r. int_lt r.high t) ranges.now }
    ensures bound { result ≤ length ranges.now }
{
    ranges.partition_point(|range| range.high < t)
}

/// How many ranges begin at `t` or below.
pub(crate) fn begun_by(ranges: &[Interval], t: i64) -> usize
    requires { RangesFrom (neg_ℤ greatest_value) ranges.now }
    ensures count { result ≡ leading_count (λ r. int_le r.low t) ranges.now }
    ensures bound { result ≤ length ranges.now }
{
    ranges.partition_point(|range| range.low <= t)
}

/// Whether some range has the number.
pub(crate) fn has(ranges: &[Interval], v: i64) -> bool
    requires { RangesFrom (neg_ℤ greatest_value) ranges.now }
    ensures { IsTrue result ↔ Contains (values_of ranges.now) v }
{
    let at = ended_below(ranges, v);
    at < ranges.len() && ranges[at].low <= v
}

/// The greatest number up to `t`.
pub(crate) fn last_up_to(ranges: &[Interval], t: i64) -> i64
    requires apart { RangesFrom (neg_ℤ greatest_value) ranges.now }
    requires some { SomeUpTo (values_of ranges.now) t }
    ensures { IsLastUpTo (values_of ranges.now) t result }
{
    let begun = begun_by(ranges, t);
    ranges[begun - 1].high.min(t)
}

/// The least number from `t` on.
pub(crate) fn first_from(ranges: &[Interval], t: i64) -> i64
    requires apart { RangesFrom (neg_ℤ greatest_value) ranges.now }
    requires some { SomeFrom (values_of ranges.now) t }
    ensures { IsFirstFrom (values_of ranges.now) t result }
{
    let ended = ended_below(ranges, t);
    ranges[ended].low.max(t)
}

/// The end of the range that has `t`, and `t` itself where none has it.
pub(crate) fn range_end(ranges: &[Interval], t: i64) -> i64
    requires { RangesFrom (neg_ℤ greatest_value) ranges.now }
    ensures from { t ≤ℤ result }
    ensures all { (w : ℤ) → t <ℤ w → w ≤ℤ result → Contains (values_of ranges.now) w }
{
    let at = ended_below(ranges, t);
    if at < ranges.len() && ranges[at].low <= t {
        ranges[at].high
    } else {
        t
    }
}
