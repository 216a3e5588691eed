//! What the checks ask of the words of a residual.

/// Which words a residual has.
#[derive(Clone, Copy, Debug, PartialEq, Eq)]
pub struct Words {
    /// The empty word is one of them.
    pub nullable: bool,
    /// A longer word is.
    pub longer: bool,
}
