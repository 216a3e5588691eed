//! A way over ranges.

ghost use Rattle.std.specs.Prelude.{◌≡◌, ℕ, neg_ℤ, slice_get, Some, IfSome};
ghost use Rattle.ts_base.specs.Limits.{greatest_value};
ghost use Rattle.ts_domain.specs.Pieces.{IsPiece, values_in};
ghost use Rattle.ts_domain.specs.Values.{RangesFrom, values_of};
ghost use Rattle.ts_domain.specs.Ways.{IsWay};

use crate::interval::Interval;
use crate::lookup::ended_below;

/// The numbers from `next` to `last`, and after them those of the ranges `rest` up to `limit`.
#[derive(Clone, Copy)]
pub(crate) struct Way<'a> {
    pub(crate) next: i64,
    pub(crate) last: i64,
    pub(crate) rest: &'a [Interval],
    pub(crate) limit: i64,
}

/// The way over a piece from one of its numbers on, which is searched for.
pub(crate) fn way_at<'a>(ranges: &'a [Interval], piece: Interval, v: i64) -> Option<Way<'a>>
    requires apart { RangesFrom (neg_ℤ greatest_value) ranges.now }
    requires piece { IsPiece (values_of ranges.now) piece }
    ensures { (i : ℕ) → slice_get (values_in (values_of ranges.now) piece) i ≡ Some v →
        IfSome result (IsWay (values_in (values_of ranges.now) piece) i) }
{
    let at = ended_below(ranges, v);
    match &ranges[at..] {
        [first, rest @ ..] => Some(Way {
            next: v,
            last: first.high.min(piece.high),
            rest,
            limit: piece.high,
        }),
        [] => None,
    }
}
