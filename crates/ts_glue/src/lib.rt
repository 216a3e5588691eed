//! Machines: an automaton that reads a series forward, and one that reads it from the last cell back, with a table that
//! glues the values of both at the cell where they meet.
//!
//! The layer above may rely on this: the forward automaton of a machine is exactly the one that it was made of; where
//! there is a reverse one, the glued value at every cell of every series within the limits is the forward answer, and a
//! glued span holds the glued value of all registers in the two hulls, before the mark.
//!
//! ```text
//! let machine = Machine::glued(forward, reverse, table);
//! let answer = glue_value(&machine, left, right, series[k], 7);
//! ```
#![tactic(auto)]

mod glue;
mod gluing;
pub mod laws;
mod machine;
mod operand;
mod shape;
mod table;

pub use glue::{glue_span, glue_value};
pub use machine::Machine;
pub use operand::Part;
pub use shape::{STATES, Seam, Shape, Shapes};
pub use table::{CellUnit, FoldOp, GlueTable};
