//! What a change leaves of a piece of a set.

ghost use Rattle.std.specs.Prelude.{neg_ℤ, int_le, int_lt};
ghost use Rattle.ts_base.specs.Limits.{greatest_value};
ghost use Rattle.ts_domain.specs.Values.{RangesFrom, values_of};
ghost use Rattle.ts_domain.specs.Pieces.{IsPiece, IsPart};

use crate::interval::Interval;
use crate::lookup::{first_from, last_up_to};

/// The numbers of a piece up to `t`, `None` for none.
#[inline(always)]
pub(crate) fn up_to(ranges: &[Interval], piece: Interval, t: i64) -> Option<Interval>
    requires apart { RangesFrom (neg_ℤ greatest_value) ranges.now }
    requires piece { IsPiece (values_of ranges.now) piece }
    ensures { IsPart (values_of ranges.now) (λ v. int_le v t) piece result }
{
    if piece.high <= t {
        Some(piece)
    } else if piece.low <= t {
        Some(Interval {
            low: piece.low,
            high: last_up_to(ranges, t),
        })
    } else {
        None
    }
}

/// The numbers of a piece above `t`, `None` for none.
pub(crate) fn above(ranges: &[Interval], piece: Interval, t: i64) -> Option<Interval>
    requires apart { RangesFrom (neg_ℤ greatest_value) ranges.now }
    requires piece { IsPiece (values_of ranges.now) piece }
    ensures { IsPart (values_of ranges.now) (λ v. int_lt t v) piece result }
{
    if t < piece.low {
        Some(piece)
    } else if t < piece.high {
        Some(Interval {
            low: first_from(ranges, t + 1),
            high: piece.high,
        })
    } else {
        None
    }
}
