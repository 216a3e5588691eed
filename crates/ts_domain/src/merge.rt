//! The union of ranges that may come in any order and overlap.

ghost use Rattle.std.specs.Prelude.{◌≡◌, ◌<◌, ◌≤◌, ◌↔◌, ℤ, neg_ℤ, ◌⊎◌};
ghost use Rattle.std.specs.Prelude.{[], length, IsTrue, IfOk, All, Contains, int_lt};
ghost use Rattle.std.specs.List.{list_any, zip};
ghost use Rattle.ts_base.specs.Limits.{greatest_value};
ghost use Rattle.ts_domain.specs.Union.{SomeEmpty, InSome, IsUsable, LowsRise, intervals_of};
ghost use Rattle.ts_domain.specs.Values.{values_of, AreRanges};

use crate::interval::Interval;
use smallvec::SmallVec;
use std::alloc::Global;
use ts_base::Memory;

/// Whether some low is above its high.
fn has_empty(lows: &[i64], highs: &[i64]) -> bool
    ensures { result ≡ list_any (λ p. int_lt p.1 p.0) (zip lows.now highs.now) }
{
    lows.iter().zip(highs).any(|(low, high)| low > high)
}

/// Whether there is no range, or some low is above its high.
pub(crate) fn has_no_union(lows: &[i64], highs: &[i64]) -> bool
    requires { length lows.now ≡ length highs.now }
    ensures { IsTrue result ↔ ((lows.now ≡ []) ⊎ SomeEmpty lows.now highs.now) }
{
    lows.is_empty() || has_empty(lows, highs)
}

/// The two lists as one list of ranges.
pub(crate) fn ranges_of(alloc: Global, lows: &[i64], highs: &[i64]) -> Result<Vec<Interval>, Memory>
    ensures { IfOk result (λ v. v.items ≡ intervals_of lows.now highs.now) }
{
    let ranges = lows
        .iter()
        .zip(highs)
        .map(|(low, high)| Interval {
            low: *low,
            high: *high,
        })
        .collect(alloc)?;
    Ok(ranges)
}

/// The ranges by rising lows, in the same memory.
fn sorted_ranges(ranges: Vec<Interval>) -> Vec<Interval>
    requires { All IsUsable ranges.items }
    ensures sorted { LowsRise (neg_ℤ greatest_value) result.items }
    ensures same { (v : ℤ) → InSome result.items v ↔ InSome ranges.items v }
    ensures len { length result.items ≡ length ranges.items }
{
    let mut sorted = ranges;
    sorted.as_mut_slice().sort_unstable();
    sorted
}

/// How many ranges are left of those that come by rising lows when they are joined.
fn joined_count(sorted: &[Interval]) -> usize
    ensures { result ≤ length sorted.now }
{
    let mut count = 0;
    let mut high = i64::MIN;
    for next in sorted {
        if next.low > high.saturating_add(1) {
            count += 1;
        }
        high = high.max(next.high);
    }
    count
}

/// The union of ranges that come by rising lows: each is joined with the last one where no gap lies between them. Its
/// memory is as large as it has to be, however many ranges are joined.
pub(crate) fn joined(alloc: Global, sorted: &[Interval]) -> Result<SmallVec<Interval, 2>, Memory>
    requires some { 0 < length sorted.now }
    requires sorted { LowsRise (neg_ℤ greatest_value) sorted.now }
    ensures union { IfOk result (λ ranges. (v : ℤ) → Contains (values_of ranges.items) v ↔ InSome sorted.now v) }
    ensures apart { IfOk result (λ ranges. AreRanges ranges.items) }
{
    let mut ranges = SmallVec::with_capacity(alloc, joined_count(sorted))?;
    let mut last = sorted[0];
    for next in sorted {
        if next.low <= last.high + 1 {
            last.high = last.high.max(next.high);
        } else {
            ranges.push(last)?;
            last = *next;
        }
    }
    ranges.push(last)?;
    Ok(ranges)
}

/// The union of ranges, none of them empty or beyond the limits. Their own memory is given back before it returns.
pub(crate) fn union_of(
    alloc: Global,
    ranges: Vec<Interval>,
) -> Result<SmallVec<Interval, 2>, Memory>
    requires some { 0 < length ranges.items }
    requires usable { All IsUsable ranges.items }
    ensures union { IfOk result (λ union. (v : ℤ) → Contains (values_of union.items) v ↔ InSome ranges.items v) }
    ensures apart { IfOk result (λ union. AreRanges union.items) }
{
    let sorted = sorted_ranges(ranges);
    joined(alloc, &sorted)
}
