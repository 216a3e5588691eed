//! The rows of hulls of a box, made one after the other in the order in which an automaton reads the cells.

ghost use Rattle.std.specs.Prelude.{◌≡◌, ◌<◌, ◌≤◌, [], IfOk, OnOk, get_or, length};
ghost use Rattle.ts_bound.specs.BoxRows.{AreRows};
ghost use Rattle.ts_bound.specs.Reading.{IsBefore, cells_read};
ghost use Rattle.ts_bound.specs.RowStacks.{IsLaid, hulls_in, rows_seen, seen_by, shown};

use crate::reading::Reading;
use crate::row_stack::{HullRow, RowStack};
use crate::two_cells::TwoCells;
use std::alloc::Global;
use ts_automaton::Automaton;
use ts_base::Memory;

/// Makes the missing rows of the `count` cells that the automaton reads first.
pub fn make_rows(
    alloc: Global,
    rows: &mut RowStack,
    a: &Automaton,
    reading: Reading<'_>,
    count: usize,
) -> Result<(), Memory>
    requires cells { count ≤ length (cells_read reading) }
    requires known { AreRows a.now (cells_read reading) rows.old }
    ensures known { AreRows a.now (cells_read reading.entry) rows.new }
    ensures planned { rows.new.planned ≡ rows.old.planned }
    ensures enough { OnOk result (count ≤ length rows.new.known) }
{
    if rows.len() < count {
        let mut lists = rows.take_lists(alloc);
        make_missing(alloc, rows, a, reading, count, &mut lists)?;
        rows.keep_lists(lists);
    }
    Ok(())
}

/// Makes the missing rows of the `count` cells that the automaton reads first. The values of each cell are listed once.
fn make_missing(
    alloc: Global,
    rows: &mut RowStack,
    a: &Automaton,
    reading: Reading<'_>,
    count: usize,
    lists: &mut TwoCells,
) -> Result<(), Memory>
    requires cells { count ≤ length (cells_read reading) }
    requires known { AreRows a.now (cells_read reading) rows.old }
    requires more { length rows.old.known < count }
    ensures known { AreRows a.now (cells_read reading.entry) rows.new }
    ensures planned { rows.new.planned ≡ rows.old.planned }
    ensures enough { OnOk result (count ≤ length rows.new.known) }
{
    lists.begin(reading, rows.len())?;
    while rows.len() < count {
        make_row(alloc, rows, a, reading, lists)?;
    }
    Ok(())
}

/// Makes the row of the cell that is read next. If it comes out as it was, all above it are right too. Before and after
/// it `lists` has the values of the cell before the next one.
fn make_row(
    alloc: Global,
    rows: &mut RowStack,
    a: &Automaton,
    reading: Reading<'_>,
    lists: &mut TwoCells,
) -> Result<(), Memory>
    requires more { length rows.old.known < length (cells_read reading) }
    requires known { AreRows a.now (cells_read reading) rows.old }
    requires before { IsBefore (cells_read reading) (length rows.old.known) lists.old.before }
    ensures known { AreRows a.now (cells_read reading.entry) rows.new }
    ensures planned { rows.new.planned ≡ rows.old.planned }
    ensures more { OnOk result (length rows.old.known < length rows.new.known) }
    ensures before { OnOk result (IsBefore (cells_read reading.entry) (length rows.new.known) lists.new.before) }
{
    let spare = rows.take_spare(alloc);
    let row = next_row(alloc, rows, a, reading, lists, spare)?;
    if rows.stands(&row) {
        rows.know_all(row);
        return lists.begin(reading, rows.len());
    }
    rows.push(row)?;
    lists.go_on();
    Ok(())
}

/// The row of the cell that is read after those of these rows, in the memory of `lists` and `spare`. `lists` has the
/// values of the cell before it, and then its own values too.
fn next_row(
    alloc: Global,
    rows: &RowStack,
    a: &Automaton,
    reading: Reading<'_>,
    lists: &mut TwoCells,
    spare: HullRow,
) -> Result<HullRow, Memory>
    requires more { length rows.now.known < length (cells_read reading) }
    requires known { AreRows a.now (cells_read reading) rows.now }
    requires before { IsBefore (cells_read reading) (length rows.now.known) lists.old.before }
    ensures here { IfOk result (λ row. lists.new.here ≡ get_or (cells_read reading.entry) (length rows.now.known) []) }
    ensures laid { IfOk result (λ row. IsLaid rows.now.planned row) }
    ensures none { IfOk result (λ row. row.values.items ≡ []) }
    ensures hulls { IfOk result (λ row. hulls_in rows.now.planned.states (shown row)
        ≡ get_or (rows_seen (seen_by a.now rows.now.planned) (cells_read reading.entry)) (length rows.now.known) []) }
{
    let i = rows.len();
    let values = reading.at(i);
    let spare = spare.with_room(alloc, rows.form(), values.size() as usize);
    lists.here.reset(values)?;
    if i == 0 {
        let first = spare.started(alloc, a, lists.here.lend())?;
        return Ok(first);
    }
    let before = rows.row(i - 1);
    let row = spare.stepped(
        alloc,
        a,
        rows.plan(),
        lists.before.lend(),
        &before,
        lists.here.lend(),
    )?;
    Ok(row)
}
