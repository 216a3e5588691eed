//! Whether a state is reached, and the cover of its hulls.

ghost use Rattle.std.specs.Prelude.{◌≡◌, ℕ, ◌<◌, ◌≤◌, false, get_or, length};
ghost use Rattle.ts_hull.specs.Hulls.{none};
ghost use Rattle.ts_row.specs.Rows.{IsColumn, lanes_of, nothing};
ghost use Rattle.ts_sweep.specs.Columns.{hull_at};
ghost use Rattle.ts_sweep.specs.Covers.{IsCoverOf};
ghost use Rattle.ts_sweep.specs.Lanes.{some_lanes};
ghost use Rattle.ts_sweep.specs.Sides.{lane_count, sides};

use ts_sweep::column::Dense;
use ts_sweep::cover::{Cover, cover_of};
use ts_sweep::packed::{Packed, PackedHull};

/// Whether registers lie in the hull at a place.
#[inline(always)]
fn holds_at<const N: usize>(column: &[PackedHull<N>], i: usize) -> bool
    requires { i < length column.now }
    ensures { result ≡ some_lanes (lanes_of N (get_or column.now i (nothing N))) }
{
    column[i].is_some()
}

/// Whether registers lie in any hull of a state. It looks no further than the first such hull.
#[inline(always)]
pub(crate) fn is_reached<const N: usize>(column: &[PackedHull<N>], count: usize) -> bool
    requires registers { 6 ≤ lane_count N }
    requires column { IsColumn N count column.now }
    ensures { result ≡ false → (i : ℕ) → i < count → hull_at (lanes_of N) (nothing N) column.now i ≡ none }
{
    for i in 0..count {
        if holds_at(column, i) {
            return true;
        }
    }
    false
}

/// The cover of the hulls of a state. Sums alone ask for it, so where no move of the state adds, it bounds no number.
#[inline(always)]
pub(crate) fn state_cover<const N: usize>(
    adds: bool,
    column: &[PackedHull<N>],
    count: usize,
) -> Cover
    requires registers { 6 ≤ lane_count N }
    requires lanes { N ≤ 64 }
    requires column { IsColumn N count column.now }
    ensures { IsCoverOf (sides N) (lanes_of N) (nothing N) result count column.now }
{
    if adds {
        cover_of::<N, Dense>(Dense, column, count)
    } else {
        Cover::greatest()
    }
}
