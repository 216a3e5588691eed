//! The nodes of expressions.

/// An expression whose parts are named by their numbers.
#[derive(Clone, Copy, Debug, PartialEq, Eq, Hash)]
pub enum Node {
    /// No word.
    Empty,
    /// The empty word alone.
    Eps,
    /// The word of this one letter alone.
    Less,
    Equal,
    Greater,
    /// A word of the first followed by one of the second.
    Cat(usize, usize),
    /// A word of one of the two.
    Alt(usize, usize),
    /// Any number of words of the inner one.
    Star(usize),
}
