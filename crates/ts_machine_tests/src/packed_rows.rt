//! The packed row of a cell of a box, made step by step from that of the cell at which runs start, with as many ends of
//! registers as there are lanes.

ghost use Rattle.std.specs.Prelude.{◌≡◌, ℤ, ◌<◌, ◌≤◌, ◌-◌, ◌+◌, IfOk, List, [], cond, length};
ghost use Rattle.ts_bound.specs.PackedRows.{IsPackedRow};
ghost use Rattle.ts_domain.specs.BoxSeries.{IsCell, cell_of};
ghost use Rattle.ts_row.specs.Rows.{IsRow};
ghost use Rattle.ts_sweep.specs.Sides.{has_wide, lane_count};

use std::alloc::Global;
use ts_automaton::Automaton;
use ts_base::Memory;
use ts_bound::{CellValues, first_packed_row, next_packed_row};
use ts_domain::{Boxed, Domain};
use ts_row::{PackedRow, Plan, RowView};

/// All places of the row of an automaton at a cell, lent.
pub(crate) fn whole_row<'a, const N: usize>(
    a: &Automaton,
    cell: &Domain,
    row: &'a PackedRow<N>,
) -> RowView<'a, N>
    requires { IsRow N (length a.now.states) (length cell.now) row.now }
    ensures value { result ≡ row.now }
    ensures row { IsRow N (length a.now.states) (length cell.now) result }
{
    row.part(0, cell.size() as usize)
}

/// The cell that is read after `before` others, from the first one on or from the last one back.
fn read_cell(n: u32, back: bool, before: u32) -> u32
    requires { before < n }
    ensures { result ≡ cond back (n - before) (before + 1) }
{
    if back { n - before } else { before + 1 }
}

/// The row of the cell at which runs start.
fn first_row<const N: usize>(
    alloc: Global,
    a: &Automaton,
    cell: &Domain,
) -> Result<PackedRow<N>, Memory>
    requires width { a.now.wide ≡ has_wide N }
    requires registers { 6 ≤ lane_count N }
    requires lanes { N ≤ 64 }
    ensures { IfOk result (λ r. IsPackedRow N a.now [] cell.now r) }
{
    let values = CellValues::of(alloc, cell)?;
    let mut row = PackedRow::empty(alloc);
    first_packed_row(alloc, a, values.lend(), &mut row)?;
    Ok(row)
}

/// The row of a cell, from that of the cell before.
fn next_row<const N: usize>(
    alloc: Global,
    a: &Automaton,
    row: &PackedRow<N>,
    cell: &Domain,
    next_cell: &Domain,
) -> Result<PackedRow<N>, Memory>
    requires width { a.now.wide ≡ has_wide N }
    requires registers { 6 ≤ lane_count N }
    requires lanes { N ≤ 64 }
    requires row { (before : List (List ℤ)) × IsPackedRow N a.now before cell.now row.now }
    ensures { IfOk result (λ r. (before : List (List ℤ)) × IsPackedRow N a.now before next_cell.now r) }
{
    let plan = Plan::of(a);
    let values = CellValues::of(alloc, cell)?;
    let next_values = CellValues::of(alloc, next_cell)?;
    let mut next = PackedRow::empty(alloc);
    next_packed_row(
        alloc,
        a,
        &plan,
        values.lend(),
        &whole_row(a, cell, row),
        next_values.lend(),
        &mut next,
    )?;
    Ok(next)
}

/// The row of the cell that is read after some others, from the first one on or from the last one back.
fn row_after<const N: usize>(
    alloc: Global,
    a: &Automaton,
    cells: &Boxed,
    back: bool,
    before: u32,
) -> Result<PackedRow<N>, Memory>
    requires width { a.now.wide ≡ has_wide N }
    requires registers { 6 ≤ lane_count N }
    requires lanes { N ≤ 64 }
    requires cell { before < length cells.now.present }
    ensures { IfOk result (λ r. IsRow N (length a.now.states)
        (length (cell_of (cond back (length cells.now.present - before) (before + 1)) cells.now)) r) }
{
    let n = cells.cells();
    let mut row = first_row(alloc, a, cells.cell(read_cell(n, back, 0)))?;
    for read in 0..before {
        let cell = cells.cell(read_cell(n, back, read));
        row = next_row(
            alloc,
            a,
            &row,
            cell,
            cells.cell(read_cell(n, back, read + 1)),
        )?;
    }
    Ok(row)
}

/// The row of cell `k`, read in one of these ways.
pub(crate) fn row_at<const N: usize>(
    alloc: Global,
    a: &Automaton,
    cells: &Boxed,
    back: bool,
    k: u32,
) -> Result<PackedRow<N>, Memory>
    requires width { a.now.wide ≡ has_wide N }
    requires registers { 6 ≤ lane_count N }
    requires lanes { N ≤ 64 }
    requires cell { IsCell k cells.now }
    ensures { IfOk result (λ r. IsRow N (length a.now.states) (length (cell_of k cells.now)) r) }
{
    if back {
        row_after(alloc, a, cells, true, cells.cells() - k)
    } else {
        row_after(alloc, a, cells, false, k - 1)
    }
}
