//! The ranges that sets share, with what lies before each: so a place is found by halving.

ghost use Rattle.std.specs.Prelude.{◌≡◌, ◌<◌, neg_ℤ, length, slice_get, Some, IfOk, Contains};
ghost use Rattle.ts_base.specs.Limits.{greatest_value};
ghost use Rattle.ts_domain.specs.Counts.{counts_from, HasPlace};
ghost use Rattle.ts_domain.specs.Values.{AreRanges, RangesFrom, values_of};

use crate::interval::Interval;
use crate::lookup::ended_below;
use smallvec::SmallVec;
use std::alloc::Global;
use ts_base::Memory;

/// Ranges, and of each of them how many numbers lie in those before it.
#[derive(Drop)]
pub(crate) struct CountedRanges {
    pub(crate) items: SmallVec<Interval, 2>,
    before: SmallVec<u32, 2>,
    ghost counted: { before.items ≡ counts_from 0 items.items },
}

impl CountedRanges {
    /// These ranges, counted.
    pub(crate) fn new(alloc: Global, items: SmallVec<Interval, 2>) -> Result<CountedRanges, Memory>
        requires { AreRanges items.items }
        ensures { IfOk result (λ ranges. ranges.items.items ≡ items.items) }
    {
        let before = counts(alloc, items.as_slice())?;
        Ok(CountedRanges { items, before })
    }

    /// The place of one of the numbers, counted from 0; in one range alone nothing has to be searched for.
    #[inline(always)]
    pub(crate) fn place_of(&self, v: i64) -> u64
        requires apart { RangesFrom (neg_ℤ greatest_value) self.now.items.items }
        requires has { Contains (values_of self.now.items.items) v }
        ensures { slice_get (values_of self.now.items.items) result ≡ Some v }
    {
        let items = self.items.as_slice();
        if items.len() == 1 {
            return (v - items[0].low) as u64;
        }
        let before = self.before.as_slice();
        let at = ended_below(items, v);
        let above = v - items[at].low;
        before[at] as u64 + above as u64
    }

    /// The number at a place.
    pub(crate) fn at_place(&self, i: u64) -> i64
        requires apart { RangesFrom (neg_ℤ greatest_value) self.now.items.items }
        requires below { i < length (values_of self.now.items.items) }
        ensures { slice_get (values_of self.now.items.items) i ≡ Some result }
    {
        let items = self.items.as_slice();
        let before = self.before.as_slice();
        let at = range_of_place(items, before, i);
        let above = i - before[at] as u64;
        items[at].low + above as i64
    }
}

/// Of each range how many numbers lie before it.
fn counts(alloc: Global, ranges: &[Interval]) -> Result<SmallVec<u32, 2>, Memory>
    requires { RangesFrom (neg_ℤ greatest_value) ranges.now }
    ensures { IfOk result (λ before. before.items ≡ counts_from 0 ranges.now) }
{
    let mut before = SmallVec::new(alloc);
    let mut count = 0;
    for range in ranges {
        let place = count as u32;
        before.push(place)?;
        count += range.count();
    }
    Ok(before)
}

/// The number of the range that has the number at a place.
fn range_of_place(ranges: &[Interval], before: &[u32], i: u64) -> usize
    requires apart { RangesFrom (neg_ℤ greatest_value) ranges.now }
    requires counted { before.now ≡ counts_from 0 ranges.now }
    requires below { i < length (values_of ranges.now) }
    ensures in_ranges { result < length ranges.now }
    ensures in_counts { result < length before.now }
    ensures place { HasPlace ranges.now before.now i result }
{
    let begun = before.partition_point(|before| *before as u64 <= i);
    begun - 1
}
