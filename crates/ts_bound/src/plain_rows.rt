//! Packed rows, written out as hulls that aren't packed.

ghost use Rattle.std.specs.Prelude.{◌≡◌, ◌<◌, ◌≤◌, [], get_or, length};
ghost use Rattle.ts_bound.specs.AnyRows.{viewed};
ghost use Rattle.ts_bound.specs.PlainRows.{IsPlain};
ghost use Rattle.ts_bound.specs.RowStacks.{hulls_in};
ghost use Rattle.ts_row.specs.Rows.{IsRow, flat_row};

use crate::any_row::AnyView;
use ts_automaton::Hull;
use ts_row::RowView;
use ts_sweep::strided::unpacked;

/// Writes the hulls of a row with both ends of each register over others: value by value, one for each state.
pub(crate) fn write_row(view: &AnyView<'_>, states: u8, row: &mut [Hull])
    requires plain { IsPlain states (viewed view.now) }
    requires len { length row.old ≡ length (hulls_in states (viewed view.now)) }
    ensures { row.new ≡ hulls_in states (viewed view.now) }
{
    match view {
        AnyView::Narrow(view) => write_hulls(view, states, row),
        AnyView::Wide(view) => write_hulls(view, states, row),
        _ => unreachable!(),
    }
}

/// Writes hulls of N lanes over others: value by value, one for each state.
fn write_hulls<const N: usize>(view: &RowView<'_, N>, states: u8, row: &mut [Hull])
    requires registers { 6 ≤ N }
    requires lanes { N ≤ 64 }
    requires some { 0 < states }
    requires is_row { IsRow N states (length (get_or view.now 0 [])) view.now }
    requires len { length row.old ≡ length (flat_row N states (length (get_or view.now 0 [])) view.now) }
    ensures { row.new ≡ flat_row N states (length (get_or view.now 0 [])) view.now }
{
    let count = states as usize;
    for p in 0..row.len() {
        row[p] = unpacked(view.hull((p % count) as u8, p / count));
    }
}
