//! What was read of a block so far.

use crate::expr::Expr;
use crate::regs::Regs;
use crate::state::{Mark, Turn};
use std::collections::VecDeque;

/// The order in which the cells are read, which the head line of a block names. It isn't part of the automaton.
#[derive(Clone, Copy, Debug, PartialEq, Eq)]
pub enum Direction {
    Forward,
    Reverse,
}

/// A state line: the letter of a state, and whether an occurrence is held in it.
#[derive(Clone, Copy, Debug, PartialEq, Eq)]
pub struct StateLine {
    pub name: u8,
    pub held: bool,
}

/// The lines of a block: its moves stand for each state in order, on `<`, `=` and `>`.
#[derive(Drop)]
pub(crate) struct Block {
    pub(crate) direction: Direction,
    pub(crate) wide: bool,
    pub(crate) states: Vec<StateLine>,
    pub(crate) start: Regs,
    pub(crate) moves: VecDeque<Turn>,
    pub(crate) finish: Expr,
    pub(crate) mark: Mark,
}

/// The lines of a block up to some line, by what may come next: the head, a state or the start, a move or the
/// finish, the end, or nothing more.
#[derive(Drop)]
pub(crate) enum Prefix {
    AtHead,
    AtStates {
        direction: Direction,
        wide: bool,
        states: Vec<StateLine>,
    },
    AtMoves {
        direction: Direction,
        wide: bool,
        states: Vec<StateLine>,
        start: Regs,
        moves: VecDeque<Turn>,
    },
    AtEnd(Block),
    Whole(Block),
}
