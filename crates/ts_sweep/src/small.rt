//! Columns in which no number is large: there no sum of a few is clamped.

ghost use Rattle.std.specs.Prelude.{◌≡◌, ◌≤◌};
ghost use Rattle.std.specs.List.{list_all};
ghost use Rattle.ts_hull.specs.Smalls.{small, small_span};
ghost use Rattle.ts_sweep.specs.Packed.{ends_span, small_lanes, upper};
ghost use Rattle.ts_sweep.specs.Sides.{as_read};

use crate::packed::{Ends, Name, Packed};

/// Sums of a few numbers up to this size aren't clamped.
const SMALL: i64 = 10_000_000_000_000_000;

/// Whether a lane is an infinity, or no number above 10^16 in size.
#[inline(always)]
fn is_small_lane(x: i64) -> bool
    ensures { result ≡ small (upper x) }
{
    (x <= -i64::MAX) | (i64::MAX <= x) | (-SMALL <= x) & (x <= SMALL)
}

/// Whether neither end of a register is a number above 10^16 in size.
#[inline(always)]
fn are_small_ends(e: Ends) -> bool
    ensures { result ≡ small_span (ends_span e) }
{
    is_small_lane(e.below) & is_small_lane(e.above)
}

/// Whether no register of a hull has a number above 10^16 in size.
#[inline(always)]
fn is_small<H: Packed>(h: &H) -> bool
    requires { 6 ≤ H.count }
    ensures { result ≡ small_lanes (as_read H.sides (H.lanes h.now)) }
{
    are_small_ends(h.ends(Name::C))
        & are_small_ends(h.ends(Name::E))
        & are_small_ends(h.ends(Name::D))
        & are_small_ends(h.ends(Name::F))
        & are_small_ends(h.ends(Name::R))
}

/// Whether no hull of a column has a number above 10^16 in size. The cover doesn't show it: an infinity there may hide
/// a large number.
#[inline(never)]
pub(crate) fn are_small<H: Packed>(hulls: &[H]) -> bool
    requires { 6 ≤ H.count }
    ensures { result ≡ list_all (λ h. small_lanes (as_read H.sides (H.lanes h))) hulls.now }
{
    hulls.iter().all(|h| is_small::<H>(h))
}
