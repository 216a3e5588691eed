//! The spans of many values of a cell, taken in at once.

ghost use Rattle.std.specs.Prelude.{◌≡◌, ◌+◌, ◌-◌, ℕ, ◌<◌, ◌≤◌, pos, [], ◌∷◌, get_or, length, map};
ghost use Rattle.ts_base.specs.Windows.{looked_at};
ghost use Rattle.ts_bound.specs.Blocks.{last_at, split_at};
ghost use Rattle.ts_bound.specs.Laws.{AreAutomata};
ghost use Rattle.ts_bound.specs.Looks.{count_looked, place_in};
ghost use Rattle.ts_bound.specs.TermSpans.{automata_of};
ghost use Rattle.ts_bound.specs.AnyRows.{form_of, form_sides, viewed};
ghost use Rattle.ts_filter.specs.Alike.{IsServed};
ghost use Rattle.ts_filter.specs.Boxes.{values_at};
ghost use Rattle.ts_filter.specs.CellHulls.{FindsAll, HasHulls, IsAheadRow, IsBackSide, places_of};
ghost use Rattle.ts_filter.specs.SoFar.{WithParts};
ghost use Rattle.ts_glue.specs.Machines.{forward_of, pair_of, window_of};
ghost use Rattle.ts_meet.specs.Meets.{hull_of_spans};

use crate::cell_hulls::BackSide;
use crate::so_far::SoFar;
use ts_base::Span;
use ts_bound::{AnyView, asked_values, looked_count};
use ts_domain::{Boxed, Domain};
use ts_glue::Machine;

/// The most values that are taken in at once.
pub(crate) const AT_ONCE: u64 = 64;

/// The hull of the finish spans of the values of cell `k` at the places from `from` on, before `to`.
pub(crate) fn last_places(
    m: &Machine,
    row: &AnyView<'_>,
    cells: &Boxed,
    k: u32,
    from: u64,
    to: u64,
) -> Span
    requires whole { AreAutomata (automata_of m.now) }
    requires hulls { HasHulls (automata_of m.now) k cells.now.present }
    requires row { IsAheadRow (automata_of m.now) k cells.now.present (viewed row.now) }
    requires order { from ≤ to }
    requires inside { to ≤ length (values_at k cells.now.present) }
    ensures { FindsAll (IsServed (form_sides (form_of (viewed row.now))) (forward_of m.now).mark
        (count_looked (window_of m.now) (length cells.now.present))) result
        (last_at (forward_of m.now) (place_in (window_of m.now) k) (looked_at (window_of m.now) cells.now.present))
        (places_of from to (values_at k cells.now.present)) }
{
    let n = looked_count(m.window(), cells.cells());
    row.finish_along(m.forward(), from as usize, (to - from) as usize, n)
}

/// A span with the glued spans of the values of cell `k` at the places from `from` on added, before `to`; none once a
/// number does what is asked.
pub(crate) fn split_places<'a>(
    so_far: SoFar<'a>,
    m: &Machine,
    row: &AnyView<'_>,
    back: &BackSide<'_>,
    cells: &Boxed,
    k: u32,
    from: u64,
    to: u64,
) -> Option<SoFar<'a>>
    requires serves { IsServed (form_sides (form_of (viewed row.now))) (forward_of m.now).mark
        (count_looked (window_of m.now) (length cells.now.present)) so_far.asked }
    requires hulls { HasHulls (automata_of m.now) k cells.now.present }
    requires row { IsAheadRow (automata_of m.now) k cells.now.present (viewed row.now) }
    requires form { form_of (viewed back.now.row) ≡ form_of (viewed row.now) }
    requires back { IsBackSide (automata_of m.now) k cells.now.present back.now }
    requires order { from ≤ to }
    requires few { to ≤ from + 64 }
    requires inside { to ≤ length (values_at k cells.now.present) }
    ensures { WithParts so_far.entry (hull_of_spans (map (split_at (forward_of m.now) (pair_of m.now)
        (place_in (window_of m.now) k) (looked_at (window_of m.now) cells.now.present))
        (places_of from to (values_at k cells.now.present))) ∷ []) result }
{
    let n = looked_count(m.window(), cells.cells());
    let listed = listed(cells.cell(k), from, to);
    let count = (to - from) as usize;
    match asked_values(
        so_far.asked,
        so_far.span,
        back.joints,
        row,
        &back.row,
        &listed[0..count],
        from as usize,
        n,
    ) {
        Some(span) => Some(SoFar {
            asked: so_far.asked,
            span,
        }),
        None => None,
    }
}

/// The values of a domain at the places from `from` on, before `to`; zeros after them.
fn listed(values: &Domain, from: u64, to: u64) -> [i64; 64]
    requires order { from ≤ to }
    requires few { to ≤ from + 64 }
    requires inside { to ≤ length values.now }
    ensures length { length result ≡ 64 }
    ensures values { (i : ℕ) → i < to - from → get_or result i (pos 0) ≡ get_or values.now (from + i) (pos 0) }
{
    let mut listed = [0_i64; 64];
    let mut walk = values.values_from(from);
    for i in 0..(to - from) as usize {
        if let Some(v) = walk.next() {
            listed[i] = v;
        }
    }
    listed
}
