//! Packed rows of hulls, or of one end of them: that of a cell made from that of the cell before.

ghost use Rattle.std.specs.Prelude.{◌≡◌, ◌≤◌, ℤ, List, [], ◌∷◌, IfOk, length};
ghost use Rattle.ts_bound.specs.PackedRows.{IsPackedRow};
ghost use Rattle.ts_row.specs.Plans.{IsPlanOf};
ghost use Rattle.ts_row.specs.Rows.{IsRow};
ghost use Rattle.ts_row.specs.Takings.{count_in};
ghost use Rattle.ts_sweep.specs.Sides.{has_wide, lane_count};

use std::alloc::Global;
use ts_automaton::Automaton;
use ts_base::Memory;
use ts_row::{Cell, PackedRow, Plan, RowView, next_row, start_row};

/// Makes of `row` that of the cell at which runs start, in the same memory. After `Memory` its hulls are unspecified.
pub fn first_packed_row<const N: usize>(
    alloc: Global,
    a: &Automaton,
    values: Cell<'_>,
    row: &mut PackedRow<N>,
) -> Result<(), Memory>
    requires width { a.now.wide ≡ has_wide N }
    requires registers { 6 ≤ lane_count N }
    requires lanes { N ≤ 64 }
    ensures { IfOk result (λ u. IsPackedRow N a.now [] values.entry.values.now row.new) }
{
    start_row(alloc, a, values.values.len(), row)?;
    Ok(())
}

/// Makes of `next` the row of a cell, from that of the cell before, whatever cells came before that one, in the same
/// memory. After `Memory` its hulls are unspecified.
pub fn next_packed_row<const N: usize>(
    alloc: Global,
    a: &Automaton,
    plan: &Plan,
    values: Cell<'_>,
    before: &RowView<'_, N>,
    next_values: Cell<'_>,
    next: &mut PackedRow<N>,
) -> Result<(), Memory>
    requires width { a.now.wide ≡ has_wide N }
    requires registers { 6 ≤ lane_count N }
    requires lanes { N ≤ 64 }
    requires plan { IsPlanOf a.now plan.now }
    requires row { IsRow N (length a.now.states) (count_in values) before.now }
    ensures { IfOk result (λ u. (cells : List (List ℤ)) → IsPackedRow N a.now cells values.entry.values.now before.now →
        IsPackedRow N a.now (values.entry.values.now ∷ cells) next_values.entry.values.now next.new) }
{
    // the ends that are kept need no others, by the rules, which each call on an automaton promises
    a.states();
    next_row(alloc, a, plan, values, before, next_values, next)?;
    Ok(())
}
