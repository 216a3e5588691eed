//! Where an automaton stands after each beginning of a series whose cells change.

ghost use Rattle.std.specs.Prelude.{◌≡◌, ◌↔◌, ◌<◌, ◌≤◌, ◌+◌, ◌++◌, ◌∷◌, [], IfOk, IsTrue, length, set, take};
ghost use Rattle.ts_automaton.specs.Body.{Body};
ghost use Rattle.ts_automaton.specs.AutomatonRun.{Stands, after, standing_of};
ghost use Rattle.ts_witness.specs.Runs.{IsSide, Runs, cells_in};

use std::alloc::Global;
use ts_automaton::{At, Automaton, Regs};
use ts_base::{Ext, Memory};

/// Where an automaton stands after the cells before a place, and the value of the last of them; at the first place it
/// is the start, whatever the value.
#[derive(Clone, Copy)]
pub(crate) struct Side {
    pub(crate) at: At,
    pub(crate) cell: i64,
}

impl Side {
    /// Whether this is what an automaton has before a place.
    fn is(&self, at: &At, cell: i64) -> bool
        ensures state { IsTrue result → self.now.at ≡ at.now }
        ensures cell { IsTrue result → self.now.cell ≡ cell }
    {
        if self.cell != cell {
            return false;
        }
        if self.at.state != at.state {
            return false;
        }
        are_same(&self.at.regs, &at.regs)
    }
}

/// Whether all registers hold the same.
fn are_same(a: &Regs, b: &Regs) -> bool
    ensures { IsTrue result ↔ (a.now ≡ b.now) }
{
    if !is_one(a.r, b.r) {
        return false;
    }
    if !is_one(a.d, b.d) {
        return false;
    }
    if !is_one(a.c, b.c) {
        return false;
    }
    if !is_one(a.e, b.e) {
        return false;
    }
    is_one(a.f, b.f)
}

/// Whether both are one number.
fn is_one(a: Ext, b: Ext) -> bool
    ensures { IsTrue result ↔ (a ≡ b) }
{
    match (a, b) {
        (Ext::Int(x), Ext::Int(y)) => x == y,
        (Ext::NegInf, Ext::NegInf) | (Ext::PosInf, Ext::PosInf) => true,
        _ => false,
    }
}

/// A series, and of its first cells, as many as are known, where an automaton stands after each.
#[derive(Drop)]
pub(crate) struct Run {
    pub(crate) cells: Vec<i64>,
    pub(crate) states: Vec<At>,
    pub(crate) known: usize,
}

impl Run {
    /// The value of the cell at place `i` from now on. What was known from there on is forgotten.
    pub(crate) fn set(&mut self, i: usize, v: i64)
        requires place { i < length (cells_in self.old) }
        ensures cells { cells_in self.new ≡ set (cells_in self.old) i v }
        ensures runs { (b : Body) → Runs b self.old → Runs b self.new }
    {
        self.cells[i] = v;
        if i < self.known {
            self.known = i;
        }
    }

    /// Where the automaton stands after the cells before place `i` and then the value `v`, once these are known.
    pub(crate) fn arrived(&self, a: &Automaton, i: usize, v: i64) -> At
        requires runs { Runs a.now self.now }
        requires known { i ≤ self.now.known }
        ensures value { standing_of result ≡ after a.now (take i (cells_in self.now) ++ v ∷ []) }
        ensures stands { Stands a.now (standing_of result) }
    {
        if i == 0 {
            return a.start();
        }
        a.step(self.states[i - 1], self.cells[i - 1], v)
    }

    /// Makes the state after one more cell known.
    fn know_next(&mut self, a: &Automaton)
        requires runs { Runs a.now self.old }
        requires left { self.old.known < length (cells_in self.old) }
        ensures runs { Runs a.now self.new }
        ensures cells { cells_in self.new ≡ cells_in self.old }
        ensures known { self.new.known ≡ self.old.known + 1 }
    {
        let i = self.known;
        let at = self.arrived(a, i, self.cells[i]);
        self.states[i] = at;
        self.known = i + 1;
    }

    /// Makes the states after the first `count` cells known.
    fn know(&mut self, a: &Automaton, count: usize)
        requires runs { Runs a.now self.old }
        requires count { count ≤ length (cells_in self.old) }
        ensures runs { Runs a.now self.new }
        ensures cells { cells_in self.new ≡ cells_in self.old }
        ensures known { count ≤ self.new.known }
    {
        while self.known < count {
            self.know_next(a);
        }
    }

    /// Where the automaton stands after the cells before place `i` and then the value `v`.
    pub(crate) fn with(&mut self, a: &Automaton, i: usize, v: i64) -> At
        requires runs { Runs a.now self.old }
        requires place { i < length (cells_in self.old) }
        ensures runs { Runs a.now self.new }
        ensures cells { cells_in self.new ≡ cells_in self.old }
        ensures value { standing_of result ≡ after a.now (take i (cells_in self.old) ++ v ∷ []) }
        ensures stands { Stands a.now (standing_of result) }
    {
        self.know(a, i);
        self.arrived(a, i, v)
    }

    /// What is known beside place `i`: with a value there it decides where the automaton stands next.
    pub(crate) fn side(&mut self, a: &Automaton, i: usize) -> Side
        requires runs { Runs a.now self.old }
        requires place { i < length (cells_in self.old) }
        ensures runs { Runs a.now self.new }
        ensures cells { cells_in self.new ≡ cells_in self.old }
        ensures side { IsSide a.now (cells_in self.old) i result }
    {
        self.know(a, i);
        if i == 0 {
            return Side {
                at: a.start(),
                cell: 0,
            };
        }
        Side {
            at: self.states[i - 1],
            cell: self.cells[i - 1],
        }
    }

    /// Whether this side is what is known beside place `i`, as far as it matters: at the first place nothing does.
    pub(crate) fn has_beside(&mut self, a: &Automaton, i: usize, side: &Side) -> bool
        requires runs { Runs a.now self.old }
        requires place { i < length (cells_in self.old) }
        ensures runs { Runs a.now self.new }
        ensures cells { cells_in self.new ≡ cells_in self.old }
        ensures side { IsTrue result → IsSide a.now (cells_in self.old) i side.now }
    {
        self.know(a, i);
        if i == 0 {
            return true;
        }
        side.is(&self.states[i - 1], self.cells[i - 1])
    }

    /// A run of these cells, of which nothing is known. `filler` stands where nothing is known.
    pub(crate) fn new(alloc: Global, cells: Vec<i64>, filler: At) -> Result<Run, Memory>
        ensures cells { IfOk result (λ r. cells_in r ≡ cells.items) }
        ensures runs { IfOk result (λ r. (b : Body) → Runs b r) }
    {
        let states = vec![in alloc; filler; cells.len()]?;
        Ok(Run {
            cells,
            states,
            known: 0,
        })
    }
}
