//! Registers, hulls of registers, and the state in which an automaton has them.

use ts_base::{Ext, Span};

/// The values of the registers. In a narrow automaton `e` and `f` are always 0.
#[derive(Clone, Copy, Debug, PartialEq, Eq)]
pub struct Regs {
    pub c: Ext,
    pub e: Ext,
    pub d: Ext,
    pub f: Ext,
    pub r: Ext,
}

/// A state, by its place, and the registers there.
#[derive(Clone, Copy, Debug, PartialEq, Eq)]
pub struct At {
    pub state: u8,
    pub regs: Regs,
}

/// A span for each register. In a narrow automaton `e` and `f` hold 0 alone, and are none where the hull is none.
#[derive(Clone, Copy, Debug, PartialEq, Eq)]
pub struct Hull {
    pub c: Span,
    pub e: Span,
    pub d: Span,
    pub f: Span,
    pub r: Span,
}

/// A state, by its place, and the hull of the registers there.
#[derive(Clone, Copy, Debug, PartialEq, Eq)]
pub struct HullAt {
    pub state: u8,
    pub hull: Hull,
}
