//! Rows of hulls that stay packed: for each cell of a box and each state of an automaton a column, with a hull for each
//! value of the cell.
//!
//! A row is made from the row before, state by state: the moves of a state are taken in from its column into the
//! columns that they lead to. How each move is taken in is worked out once for an automaton, as its `Plan`. A row is
//! read through a `RowView`, at all of its places or at some.
//!
//! ```text
//!   row before                 plan of state 1             next row
//!   state 0   . . . .                                      state 0   . . .
//!   state 1   h h h h   ---->  <  Longer(Width)   ---->    state 1   . . .
//!   state 2   . . . .          =  with `<`                 state 2   . . .
//!                              >  Found(Width)    ---->
//! ```
#![tactic(auto)]

mod between;
mod cell;
mod clamped;
mod emission;
mod next_shapes;
mod packed_row;
mod pair_shapes;
mod plan;
mod row_steps;
mod row_view;
mod shapes;
mod start;
mod state_cover;
mod sum_shapes;
mod words;

pub use cell::Cell;
pub use packed_row::PackedRow;
pub use plan::Plan;
pub use row_steps::next_row;
pub use row_view::RowView;
pub use start::start_row;
