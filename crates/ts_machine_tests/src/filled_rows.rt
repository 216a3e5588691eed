//! Rows that the call without memory makes, each from the row before it in the table of a box, which lends both. The
//! automata and boxes are those of `told`, where rows of these tables are compared with values from outside: wide and
//! narrow automata, cells with gaps and without, and numbers that sweeps don't take.

ghost use Rattle.std.specs.Prelude.{◌≡◌, ◌≤◌, None, length};
ghost use Rattle.ts_bound.specs.HullTables.{forward_table};
ghost use Rattle.ts_glue.specs.Machines.{forward_of, window_of};

use super::told::cells_of;
use super::told::machines::{boxes, plain};
use std::alloc::Global;
use std::test::Fail;
use ts_automaton::Hull;
use ts_base::{Ext, Memory, Span};
use ts_bound::{HullTable, fill_row, forward};
use ts_domain::Boxed;
use ts_glue::Machine;

/// What a row is full of before it is made.
fn stale() -> Hull {
    let nine = Span::one(Ext::Int(9));
    Hull {
        c: nine,
        e: nine,
        d: nine,
        f: nine,
        r: nine,
    }
}

fn is_same(row: &[Hull], other: &[Hull]) -> bool {
    row == other
}

/// Whether the row of cell `k`, made from that of the cell before in another table of the box, is the one of the table.
fn row_is_filled(
    alloc: Global,
    m: &Machine,
    cells: &Boxed,
    table: &HullTable,
    k: u32,
) -> Result<bool, Memory>
    requires plain { window_of m.now ≡ None }
    requires table { table.now ≡ forward_table (forward_of m.now) (window_of m.now) cells.now.present }
    requires first { 2 ≤ k }
    requires last { k ≤ length cells.now.present }
{
    let a = m.forward();
    a.states();
    let mut filled = forward(alloc, m, cells)?;
    let (before, next) = filled.rows(k - 1);
    next.fill(stale());
    fill_row(a, cells.cell(k - 1), before, cells.cell(k), next);
    Ok(is_same(next, table.row(k)))
}

fn rows_are_filled(alloc: Global, m: &Machine, cells: &Boxed) -> Result<bool, Memory>
    requires { window_of m.now ≡ None }
{
    let table = forward(alloc, m, cells)?;
    for before in 1..cells.cells() {
        if !row_is_filled(alloc, m, cells, &table, before + 1)? {
            return Ok(false);
        }
    }
    Ok(true)
}

/// The first of the automata by which a row of the box isn't filled so.
fn first_wrong<'a>(alloc: Global, head: &'a str) -> Result<Option<&'a str>, Fail> {
    let (names, model) = head.split_once('\n').ok_or("no cells")?;
    let cells = cells_of(alloc, model)?;
    for name in names.split_whitespace() {
        if !rows_are_filled(alloc, &plain(alloc, name)?, &cells)? {
            return Ok(Some(name));
        }
    }
    Ok(None)
}

#[test]
fn rows(rt: HostRuntime) -> Result<(), Fail> {
    for text in boxes().split('%') {
        let (head, _) = text.split_once('/').ok_or("no box")?;
        let (_, head) = head.split_once(':').ok_or("no automata")?;
        if !head.contains('|') {
            let wrong = first_wrong(rt.alloc(), head)?;
            assert!(rt; wrong.is_none(), "{head}");
        }
    }
    Ok(())
}
