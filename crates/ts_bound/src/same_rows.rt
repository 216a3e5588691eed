//! Whether two packed rows are the same.

ghost use Rattle.std.specs.Prelude.{◌≡◌, ◌≤◌, IsTrue, length};

use ts_row::RowView;
use ts_sweep::packed::PackedHull;

/// Whether two packed rows of automata with `states` states have the same hulls.
pub(crate) fn are_same_columns<const N: usize>(
    a: &RowView<'_, N>,
    b: &RowView<'_, N>,
    states: u8,
) -> bool
    requires lanes { N ≤ 64 }
    requires first { length a.now ≡ states }
    requires second { length b.now ≡ states }
    ensures { IsTrue result → a.now ≡ b.now }
{
    for q in 0..states {
        if !are_same_hulls(a.column(q), b.column(q)) {
            return false;
        }
    }
    true
}

/// Whether two columns have the same hulls in the same order.
fn are_same_hulls<const N: usize>(a: &[PackedHull<N>], b: &[PackedHull<N>]) -> bool
    requires lanes { N ≤ 64 }
    ensures { IsTrue result → a.now ≡ b.now }
{
    if a.len() != b.len() {
        return false;
    }
    for i in 0..a.len() {
        if a[i] != b[i] {
            return false;
        }
    }
    true
}
