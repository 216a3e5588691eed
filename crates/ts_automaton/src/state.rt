//! States with their moves, and the mark of an answer.

use crate::expr::Expr;

/// What becomes of an answer: nothing; -inf becomes 0; +inf becomes the number of cells.
#[derive(Clone, Copy, Debug, PartialEq, Eq)]
pub enum Mark {
    Same,
    Zero,
    Cells,
}

/// A move: the place of the state that it leads to, and an expression for each register's new value. In a narrow
/// automaton `e` and `f` are `Zero`.
#[derive(Debug, PartialEq, Eq, Drop)]
pub struct Turn {
    pub next: u8,
    pub c: Expr,
    pub e: Expr,
    pub d: Expr,
    pub f: Expr,
    pub r: Expr,
}

/// A state: its name, a letter `a` to `z`; whether a range is held in it; and its move on each letter.
#[derive(Debug, PartialEq, Eq, Drop)]
pub struct State {
    pub name: u8,
    pub held: bool,
    pub less: Turn,
    pub equal: Turn,
    pub greater: Turn,
}
