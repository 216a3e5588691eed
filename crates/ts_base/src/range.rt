//! Ranges of cells, and what a transducer's state may keep.

/// The cells, or signs, from `first` to `last`, counted from 1.
#[derive(Clone, Copy, Debug, PartialEq, Eq, PartialOrd, Ord)]
pub struct Range {
    pub first: u32,
    pub last: u32,
}

/// What a state of a transducer keeps: nothing, perhaps a start, or a range that may still grow.
#[derive(Clone, Copy, Debug, PartialEq, Eq)]
pub enum Kind {
    Idle,
    Pending,
    Held,
}

/// A forward and a reverse state between which one occurrence goes on.
#[derive(Clone, Copy, Debug, PartialEq, Eq)]
pub struct Join {
    pub forward: u8,
    pub reverse: u8,
}
