//! The tables of a box.

ghost use Rattle.std.specs.Prelude.{◌≡◌, ◌-◌, ◌≤◌, IfOk, IfSome, IsSome, length, set};
ghost use Rattle.ts_base.specs.Windows.{LooksInside};
ghost use Rattle.ts_bound.specs.AnyRows.{form_sides, viewed};
ghost use Rattle.ts_bound.specs.BoxRows.{AreRows};
ghost use Rattle.ts_bound.specs.HullTables.{backward_table, forward_table};
ghost use Rattle.ts_bound.specs.PlainRows.{IsPlain, place_by, table_by};
ghost use Rattle.ts_bound.specs.Reading.{cells_read};
ghost use Rattle.ts_bound.specs.RowStacks.{hulls_in};
ghost use Rattle.ts_bound.specs.Rows.{IsRow, row_at};
ghost use Rattle.ts_bound.specs.TermSpans.{LooksIn, automata_of};
ghost use Rattle.ts_glue.specs.Machines.{forward_of, pair_of, reverse_of, window_of};
ghost use Rattle.ts_sweep.specs.Sides.{BothEnds};

use crate::any_row::{AnyView, Form};
use crate::looks::ends;
use crate::plain_rows::write_row;
use crate::reading::{Direction, Reading};
use crate::row_stack::RowStack;
use crate::rows::make_rows;
use crate::table::HullTable;
use std::alloc::Global;
use ts_automaton::Automaton;
use ts_base::{Memory, Range};
use ts_domain::Boxed;
use ts_glue::Machine;

/// The hulls of a box for the machine's forward automaton, which reads the cells from the first to the last, or those
/// of its window alone.
pub fn forward(alloc: Global, m: &Machine, cells: &Boxed) -> Result<HullTable, Memory>
    requires { LooksIn (automata_of m.now) cells.now.present }
    ensures { IfOk result (λ t. t ≡ forward_table (forward_of m.now) (window_of m.now) cells.now.present) }
{
    table_of(alloc, m.forward(), m.window(), cells, Direction::FromFirst)
}

/// The hulls of a box for the machine's reverse automaton, which reads the cells from the last to the first, or those
/// of its window alone. Only for a machine that can be split.
pub fn backward(alloc: Global, m: &Machine, cells: &Boxed) -> Result<HullTable, Memory>
    requires split { IsSome (pair_of m.now) }
    requires looks { LooksIn (automata_of m.now) cells.now.present }
    ensures { IfOk result (λ t. IfSome (reverse_of m.now)
        (λ b. t ≡ backward_table b (window_of m.now) cells.now.present)) }
{
    match m.reverse() {
        Some(reverse) => table_of(alloc, reverse, m.window(), cells, Direction::FromLast),
        None => unreachable!(),
    }
}

/// The hulls of a box for an automaton that reads the cells in this order. The rows are those that a search makes,
/// with both ends of each register.
pub(crate) fn table_of(
    alloc: Global,
    a: &Automaton,
    window: Option<Range>,
    cells: &Boxed,
    direction: Direction,
) -> Result<HullTable, Memory>
    requires { LooksInside (length cells.now.present) window }
    ensures { IfOk result (λ t. t ≡ table_by direction a.now window cells.now.present) }
{
    let reading = Reading {
        cells,
        window,
        direction,
    };
    let rows = all_rows(alloc, a, reading)?;
    let mut table = HullTable::empty(alloc, cells, window, a.states())?;
    let (first, last) = ends(window, cells.cells());
    for k in first - 1..last {
        let i = place_of(direction, first, last, k + 1);
        put_row(&mut table, k + 1, &rows.row(i), a.states());
    }
    Ok(table)
}

/// The rows at all cells that are read.
fn all_rows(alloc: Global, a: &Automaton, reading: Reading<'_>) -> Result<RowStack, Memory>
    ensures rows { IfOk result (λ s. AreRows a.now (cells_read reading.entry) s) }
    ensures all { IfOk result (λ s. length (cells_read reading.entry) ≤ length s.known) }
    ensures both { IfOk result (λ s. form_sides s.planned.form ≡ BothEnds) }
{
    let form = Form::whole(a.wide());
    let mut rows = RowStack::new(alloc, a, form);
    make_rows(alloc, &mut rows, a, reading, reading.count())?;
    Ok(rows)
}

/// At which place cell `k` is read, counted from 0, where it is one of those from the first to the last.
fn place_of(direction: Direction, first: u32, last: u32, k: u32) -> usize
    requires low { first ≤ k }
    requires high { k ≤ last }
    ensures { result ≡ place_by direction first last k }
{
    match direction {
        Direction::FromFirst => (k - first) as usize,
        Direction::FromLast => (last - k) as usize,
    }
}

/// Writes a row with both ends of each register into the table, as that of cell `k`.
fn put_row(table: &mut HullTable, k: u32, view: &AnyView<'_>, states: u8)
    requires row { IsRow k table.old }
    requires plain { IsPlain states (viewed view.now) }
    requires len { length (row_at k table.old) ≡ length (hulls_in states (viewed view.now)) }
    ensures { table.new ≡ set table.old (k - 1) (hulls_in states (viewed view.now)) }
{
    write_row(view, states, table.row_mut(k));
}
