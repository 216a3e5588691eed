//! The value of a cell at which two rows meet.

/// A value of a cell: its place among the cell's values, counted from 0, the value itself, and how many cells the
/// series has.
#[derive(Clone, Copy, Debug, PartialEq, Eq)]
pub struct Spot {
    pub place: usize,
    pub value: i64,
    pub cells: u32,
}
