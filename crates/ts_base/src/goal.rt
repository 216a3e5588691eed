//! What is best.

/// Whether the greatest or the least value is best.
#[derive(Clone, Copy, Debug, PartialEq, Eq)]
pub enum Goal {
    Maximise,
    Minimise,
}
