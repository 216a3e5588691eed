//! Cells that differ from those that were seen, and values that a cell has lost.

ghost use Rattle.std.specs.Prelude.{◌<◌, ◌≤◌};

/// Values that a cell has lost and that stood side by side there: those at the places from `from` up to `to`, counted
/// from 0.
#[derive(Clone, Copy)]
pub struct Gone {
    pub from: usize,
    pub to: usize,
    pub ghost ordered: { from ≤ to },
}

/// A cell that may not be as it was, at a place counted from 0; and which values it has lost, where that is known.
#[derive(Clone, Copy)]
pub struct Other {
    pub at: usize,
    pub gone: Option<Gone>,
}

/// Cells that may not be as they were: those at the places from `first` up to `last` of `count`, counted from 0; and
/// which values the first and the last of them have lost, where that is known.
#[derive(Clone, Copy)]
pub struct Change {
    pub first: usize,
    pub last: usize,
    pub count: usize,
    pub gone_first: Option<Gone>,
    pub gone_last: Option<Gone>,
    pub ghost some: { first < last },
    pub ghost within: { last ≤ count },
}
