//! How the runs of a machine are glued, pair of states by pair of states.

ghost use Rattle.std.specs.Prelude.{◌≤◌};

use ts_automaton::{Mark, Op};
pub(crate) use ts_glue::STATES;
use ts_glue::{CellUnit, Shape};

/// What is kept of a machine: the operators that join results and fold cells, what a cell is worth, whether its
/// automata are wide, the mark; how many states both automata have, and the shape of each pair of them.
#[derive(Clone, Copy)]
pub struct Joints {
    pub(crate) result: Op,
    pub(crate) fold: Op,
    pub(crate) unit: CellUnit,
    pub(crate) wide: bool,
    pub(crate) mark: Mark,
    pub left_states: u8,
    pub right_states: u8,
    pub(crate) shapes: [[Shape; STATES]; STATES],
    ghost left_few: { left_states ≤ 8 },
    ghost right_few: { right_states ≤ 8 },
}
