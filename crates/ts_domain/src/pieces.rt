//! A piece of ranges: how many numbers are in it, and which stands where.

ghost use Rattle.std.specs.Prelude.{◌≡◌, ◌<◌, ◌≤◌, ◌<ℤ◌, ◌≤ℤ◌, ◌+ℤ◌, ◌↔◌, ℤ, IsTrue, Contains, pos, neg_ℤ, filter};
ghost use Rattle.std.specs.Prelude.{int_lt, length, slice_get, Some};
ghost use Rattle.ts_base.specs.Limits.{greatest_value};
ghost use Rattle.ts_domain.specs.Kept.{values_up_to, values_above};
ghost use Rattle.ts_domain.specs.Values.{RangesFrom, values_of};
ghost use Rattle.ts_domain.specs.Pieces.{IsPiece, values_in};

use crate::counted::CountedRanges;
use crate::cut::up_to;
use crate::interval::Interval;
use crate::lookup::{has, range_end};

/// Whether a piece has the number.
pub(crate) fn has_in(ranges: &[Interval], piece: Interval, v: i64) -> bool
    requires apart { RangesFrom (neg_ℤ greatest_value) ranges.now }
    requires piece { IsPiece (values_of ranges.now) piece }
    ensures { IsTrue result ↔ Contains (values_in (values_of ranges.now) piece) v }
{
    piece.low <= v && v <= piece.high && has(ranges, v)
}

/// How many numbers lie in a piece.
#[inline(always)]
pub(crate) fn count_in(ranges: &CountedRanges, piece: Interval) -> u64
    requires apart { RangesFrom (neg_ℤ greatest_value) ranges.now.items.items }
    requires piece { IsPiece (values_of ranges.now.items.items) piece }
    ensures { result ≡ length (values_in (values_of ranges.now.items.items) piece) }
{
    let first = ranges.place_of(piece.low);
    let last = ranges.place_of(piece.high);
    last - first + 1
}

/// How many numbers of a piece are at most `t`.
#[inline(always)]
pub(crate) fn count_up_to(ranges: &CountedRanges, piece: Interval, t: i64) -> u64
    requires apart { RangesFrom (neg_ℤ greatest_value) ranges.now.items.items }
    requires piece { IsPiece (values_of ranges.now.items.items) piece }
    ensures { result ≡ length (values_up_to t (values_in (values_of ranges.now.items.items) piece)) }
{
    match up_to(ranges.items.as_slice(), piece, t) {
        None => 0,
        Some(part) => count_in(ranges, part),
    }
}

/// How many numbers of a piece lie above `t` and below `u`.
#[inline(always)]
pub(crate) fn count_between(ranges: &CountedRanges, piece: Interval, t: i64, u: i64) -> u64
    requires apart { RangesFrom (neg_ℤ greatest_value) ranges.now.items.items }
    requires piece { IsPiece (values_of ranges.now.items.items) piece }
    requires rising { t <ℤ u }
    ensures { result
        ≡ length (filter (λ v. int_lt v u) (values_above t (values_in (values_of ranges.now.items.items) piece))) }
{
    count_up_to(ranges, piece, u - 1) - count_up_to(ranges, piece, t)
}

/// A count with so many more, or fewer.
pub(crate) fn with_more(count: u64, more: i64) -> u64
    requires small { count ≤ 4000000 }
    requires from { neg_ℤ (pos count) ≤ℤ more }
    requires to { more ≤ℤ pos 4000000 }
    ensures { pos result ≡ pos count +ℤ more }
{
    (count as i64 + more) as u64
}

/// The number at place `i` of a piece.
pub(crate) fn nth_in(ranges: &CountedRanges, piece: Interval, i: u64) -> i64
    requires apart { RangesFrom (neg_ℤ greatest_value) ranges.now.items.items }
    requires piece { IsPiece (values_of ranges.now.items.items) piece }
    requires below { i < length (values_in (values_of ranges.now.items.items) piece) }
    ensures { slice_get (values_in (values_of ranges.now.items.items) piece) i ≡ Some result }
{
    let at = ranges.place_of(piece.low) + i;
    ranges.at_place(at)
}

/// How far the numbers above `v` lie in a piece without a gap: to the end of the range of `v`, or of the piece.
pub(crate) fn end_in(ranges: &[Interval], piece: Interval, v: i64) -> i64
    requires apart { RangesFrom (neg_ℤ greatest_value) ranges.now }
    requires piece { IsPiece (values_of ranges.now) piece }
    ensures from { v ≤ℤ result }
    ensures all { (w : ℤ) → v <ℤ w → w ≤ℤ result → Contains (values_in (values_of ranges.now) piece) w }
{
    if v < piece.low || piece.high < v {
        return v;
    }
    range_end(ranges, v).min(piece.high)
}
