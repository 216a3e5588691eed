//! The spans of a machine at a cell.

ghost use Rattle.std.specs.Prelude.{
  ◌≡◌,
  ◌+◌,
  ◌*◌,
  ◌≤◌,
  Contains,
  IsTrue,
  MatchOption,
  Some,
  length,
  slice_get,
  slice_range,
};
ghost use Rattle.ts_base.specs.Windows.{looked_at};
ghost use Rattle.ts_bound.specs.Blocks.{AreBackRows};
ghost use Rattle.ts_bound.specs.HullTables.{forward_table};
ghost use Rattle.ts_bound.specs.Looks.{is_looked, place_in};
ghost use Rattle.ts_bound.specs.TermSpans.{LooksIn, automata_of, inner_value_span, term_span, value_span};
ghost use Rattle.ts_domain.specs.BoxSeries.{IsCell, cell_of};
ghost use Rattle.ts_glue.specs.Machines.{forward_of, pair_of, window_of};

use crate::block::{finish_block, glue_block};
use crate::laws::machine_is_whole;
use crate::looks::{is_looked, looked_count, read_at};
use crate::table::HullTable;
use ts_automaton::Hull;
use ts_base::Span;
use ts_domain::Boxed;
use ts_glue::Machine;
use ts_meet::Joints;

/// The span at cell `p` of a box, from its tables; at a cell outside the machine's window that of the window's last
/// cell. Without the backward table only the last cell of the box has a span.
pub fn term_span(
    m: &Machine,
    ahead: &HullTable,
    back: Option<&HullTable>,
    cells: &Boxed,
    p: u32,
) -> Span
    requires cell { IsCell p cells.now }
    requires looks { LooksIn (automata_of m.now) cells.now.present }
    requires ahead { ahead.now ≡ forward_table (forward_of m.now) (window_of m.now) cells.now.present }
    requires back { MatchOption back (p ≡ length cells.now.present)
        (λ t. AreBackRows (pair_of m.now) (window_of m.now) cells.now.present t.now) }
    ensures { result ≡ term_span (automata_of m.now) p cells.now.present }
{
    let k = read_at(m.window(), p);
    let values = cells.cell(k);
    let mut span = Span::none();
    for i in 0..values.size() {
        span = span.hull(span_at(m, ahead, back, cells, k, i, values.nth(i)));
    }
    span
}

/// The span at cell `p` of the box with the value `v` alone there, from the tables of the whole box; at a cell outside
/// the machine's window that of the window's last cell.
pub fn value_span(
    m: &Machine,
    ahead: &HullTable,
    back: Option<&HullTable>,
    cells: &Boxed,
    p: u32,
    v: i64,
) -> Span
    requires cell { IsCell p cells.now }
    requires looks { LooksIn (automata_of m.now) cells.now.present }
    requires ahead { ahead.now ≡ forward_table (forward_of m.now) (window_of m.now) cells.now.present }
    requires back { MatchOption back (p ≡ length cells.now.present)
        (λ t. AreBackRows (pair_of m.now) (window_of m.now) cells.now.present t.now) }
    requires value { Contains (cell_of p cells.now) v }
    ensures { result ≡ value_span (automata_of m.now) p cells.now.present v }
{
    if !is_looked(m.window(), p) {
        return term_span(m, ahead, back, cells, p);
    }
    let place = cells.cell(p).place_of(v);
    span_at(m, ahead, back, cells, p, place, v)
}

/// The span of the value `v`, which is at place `i` of a cell that is looked at.
fn span_at(
    m: &Machine,
    ahead: &HullTable,
    back: Option<&HullTable>,
    cells: &Boxed,
    k: u32,
    i: u64,
    v: i64,
) -> Span
    requires cell { IsCell k cells.now }
    requires looked { IsTrue (is_looked (window_of m.now) k) }
    requires value { slice_get (cell_of k cells.now) i ≡ Some v }
    requires looks { LooksIn (automata_of m.now) cells.now.present }
    requires ahead { ahead.now ≡ forward_table (forward_of m.now) (window_of m.now) cells.now.present }
    requires back { MatchOption back
        (place_in (window_of m.now) k ≡ length (looked_at (window_of m.now) cells.now.present))
        (λ t. AreBackRows (pair_of m.now) (window_of m.now) cells.now.present t.now) }
    ensures { result ≡ inner_value_span (automata_of m.now) (place_in (window_of m.now) k)
        (looked_at (window_of m.now) cells.now.present) v }
{
    machine_is_whole(m);
    let n = looked_count(m.window(), cells.cells());
    let a = m.forward();
    let row = ahead.row(k);
    let left = block(row, a.states(), i);
    match back {
        Some(back) => {
            let joints = Joints::of(m);
            let back_row = back.row(k);
            let right = block(back_row, joints.right_states, i);
            glue_block(&joints, left, right, v, n)
        }
        None => finish_block(a, left, n),
    }
}

/// The hulls of the value at place `i`, one for each state, of a row.
fn block(row: &[Hull], states: u8, i: u64) -> &[Hull]
    requires { i * states + states ≤ length row.now }
    ensures { result.now ≡ slice_range row.now (i * states) (i * states + states) }
{
    let states = states as usize;
    let from = i as usize * states;
    &row[from..from + states]
}
