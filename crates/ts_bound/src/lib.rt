//! Hull tables: what every run over a series of a box can hold in its registers, cell by cell; and packed rows of them
//! that outlive the box.
//!
//! A box has a set of values for each cell. For each cell, each of its values and each state a table has one hull,
//! which holds the registers of every run of an automaton that stands there. The layer above may rely on this: a table
//! is exactly the one of the definition, however its rows are filled; a span is exactly the hull of what its hulls
//! show, and holds the answer of the machine on every series of the box; and the span of the box with one value alone
//! at a cell is read off the tables of the whole box. A machine with a window has rows at the window's cells alone; at
//! a cell outside it has the span of the window's last cell.
//!
//! A `RowStack` has the same rows packed, with the ends of registers that a question needs. It is told which cells of a
//! box change: rows that the change doesn't reach stay known, and so do those after a row that comes out as it was;
//! where a cell only lost values, its row shows the others, and shows lost ones again once they are back. Rows that are
//! known are exactly those of the box. Nothing here knows of bounds or requirements: what is asked of the numbers of a
//! span comes from above.
//!
//! ```text
//! let ahead = forward(alloc, &machine, &cells)?;
//! let span = term_span(&machine, &ahead, None, &cells, cells.cells());
//!
//! let mut rows = RowStack::new(alloc, machine.forward(), Form::Narrow);
//! make_rows(alloc, &mut rows, machine.forward(), reading, 3)?;   // the rows of the first three cells that are read
//! others.find(seen, &cells)?;                                    // which cells of the box aren't as they were seen
//! rows.leave(1, 2, None, before, now);                           // the row of the first cell stays known
//! ```
#![tactic(auto)]

mod any_row;
mod between;
mod block;
mod cell_values;
mod found;
mod gone;
pub mod laws;
mod looks;
mod lost;
mod moves;
mod others;
mod packable;
mod packed_rows;
mod packing;
mod pairs;
mod places;
mod plain_rows;
mod planned;
mod reading;
mod room;
mod row;
mod row_stack;
mod rows;
mod same_rows;
mod spans;
mod table;
mod tables;
mod two_cells;

pub use any_row::{AnyRow, AnyView, Form, asked_between, asked_values, settled_between};
pub use cell_values::CellValues;
pub use gone::{Change, Gone, Other};
pub use looks::{ends, is_looked, looked_count, read_at};
pub use others::Others;
pub use packed_rows::{first_packed_row, next_packed_row};
pub use reading::{Direction, Reading};
pub use room::has_room;
pub use row::fill_row;
pub use row_stack::RowStack;
pub use rows::make_rows;
pub use spans::{term_span, value_span};
pub use table::HullTable;
pub use tables::{backward, forward};
