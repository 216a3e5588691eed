//! How the values of two runs that meet at a cell are glued.

use ts_base::Join;

/// How the cells of an occurrence are joined: their sum, the greatest or the least of them; or the greatest and the
/// least apart, of which the first less the second counts. Then both automata are wide.
#[derive(Clone, Copy, Debug, PartialEq, Eq)]
pub enum FoldOp {
    Add,
    Max,
    Min,
    Pair,
}

/// What a cell is worth in an occurrence: 1, or its value.
#[derive(Clone, Copy, Debug, PartialEq, Eq)]
pub enum CellUnit {
    Unit,
    Value,
}

/// How many cells an occurrence leaves out at its end, 0 or 1; how its cells are joined, and what each of them is
/// worth; and the pairs of states, the first of the forward and the second of the reverse automaton, between which one
/// occurrence goes on.
#[derive(Debug, PartialEq, Eq, Drop)]
pub struct GlueTable {
    pub a: u8,
    pub op: FoldOp,
    pub unit: CellUnit,
    pub joins: Vec<Join>,
}
