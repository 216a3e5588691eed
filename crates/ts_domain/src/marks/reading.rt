//! What is read of marks, and of a set that differs from a piece of ranges at them.

ghost use Rattle.std.specs.Prelude.{◌≡◌, ◌<◌, ◌<ℤ◌, ◌≤ℤ◌, ℤ, neg_ℤ, IsTrue};
ghost use Rattle.std.specs.Prelude.{filter, int_le, length, slice_get, Some, None};
ghost use Rattle.std.specs.List.{AllByRecursion};
ghost use Rattle.ts_base.specs.Limits.{greatest_value};
ghost use Rattle.ts_domain.specs.Kept.{values_above};
ghost use Rattle.ts_domain.specs.Marks.{gain, mark_at, AreTold, numbers};
ghost use Rattle.ts_domain.specs.Pieces.{IsPiece, values_in};
ghost use Rattle.ts_domain.specs.Values.{RangesFrom, values_of};

use super::{Marks, Root};
use crate::counted::CountedRanges;
use crate::interval::Interval;
use crate::pieces::{count_between, count_up_to, nth_in, with_more};

impl Marks {
    /// Which of two trees' topmost nodes stands above the other one.
    pub(super) fn priority(&self) -> u64 {
        match &self.root {
            Root::Empty => 0,
            Root::Full(node) => mixed(node.mark.value.unsigned_abs()),
        }
    }

    /// What the mark at a number says, if there is one: whether the number is gone.
    pub(crate) fn at(&self, v: i64) -> Option<bool>
        ensures { result ≡ mark_at v self.now }
    {
        match &self.root {
            Root::Empty => None,
            Root::Full(node) => {
                if v < node.mark.value {
                    node.before.at(v)
                } else if node.mark.value < v {
                    node.behind.at(v)
                } else {
                    Some(node.mark.gone)
                }
            }
        }
    }

    /// How many numbers the set has more by the marks up to `t`.
    pub(crate) fn more_up_to(&self, t: i64) -> i64
        ensures { result ≡ gain (filter (λ m. int_le m.value t) self.now) }
    {
        let node = match &self.root {
            Root::Empty => return 0,
            Root::Full(node) => node,
        };
        if t < node.mark.value {
            return node.before.more_up_to(t);
        }
        node.before.more() + node.mark.more() + node.behind.more_up_to(t)
    }

    /// How far above `v`, and not above `end`, no number is marked.
    pub(crate) fn free_to(&self, v: i64, end: i64) -> i64
        requires { v ≤ℤ end }
        ensures from { v ≤ℤ result }
        ensures to { result ≤ℤ end }
        ensures free { (w : ℤ) → v <ℤ w → w ≤ℤ result → mark_at w self.now ≡ None }
    {
        let node = match &self.root {
            Root::Empty => return end,
            Root::Full(node) => node,
        };
        let here = node.mark.value;
        if here <= v {
            return node.behind.free_to(v, end);
        }
        let sooner = end.min(here - 1);
        node.before.free_to(v, sooner)
    }

    /// The number at place `i` of those above `t`, in the set that differs from a piece of ranges at the marks, which
    /// are above `t` too.
    pub(crate) fn nth_above(&self, ranges: &CountedRanges, piece: Interval, t: i64, i: u64) -> i64
        requires apart { RangesFrom (neg_ℤ greatest_value) ranges.now.items.items }
        requires piece { IsPiece (values_of ranges.now.items.items) piece }
        requires told { AreTold (values_in (values_of ranges.now.items.items) piece) self.now }
        requires above { AllByRecursion (λ m. t <ℤ m.value) self.now }
        requires below { i
            < length (numbers (values_above t (values_in (values_of ranges.now.items.items) piece)) self.now) }
        ensures { slice_get (numbers (values_above t (values_in (values_of ranges.now.items.items) piece)) self.now) i
            ≡ Some result }
    {
        let node = match &self.root {
            Root::Empty => return nth_in(ranges, piece, count_up_to(ranges, piece, t) + i),
            Root::Full(node) => node,
        };
        let here = node.mark.value;
        let before = with_more(count_between(ranges, piece, t, here), node.before.more());
        if i < before {
            node.before.nth_above(ranges, piece, t, i)
        } else if node.mark.gone {
            node.behind.nth_above(ranges, piece, here, i - before)
        } else if i == before {
            here
        } else {
            node.behind.nth_above(ranges, piece, here, i - before - 1)
        }
    }

    /// Whether both are trees of one form with the same marks.
    pub(crate) fn is_same(&self, other: &Marks) -> bool
        ensures { IsTrue result → self.now ≡ other.now }
    {
        match (&self.root, &other.root) {
            (Root::Empty, Root::Empty) => true,
            (Root::Full(one), Root::Full(two)) => {
                one.mark == two.mark
                    && one.before.is_same(&two.before)
                    && one.behind.is_same(&two.behind)
            }
            _ => false,
        }
    }
}

/// Another number for each, with no order in them: numbers at equal steps would else rise for long.
fn mixed(n: u64) -> u64 {
    let n = n.wrapping_mul(0x9E37_79B9_7F4A_7C15);
    (n ^ (n >> 32)).wrapping_mul(0xD6E8_FEB8_6659_FD93)
}
