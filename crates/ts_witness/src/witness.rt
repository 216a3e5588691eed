//! A series with its value, and the value of each series that differs from it in one cell.

ghost use Rattle.std.specs.Prelude.{◌≡◌, ◌<◌, ◌≤◌, ◌-◌, ◌+◌, ◌⊎◌, ◌++◌, ◌∷◌, ℤ, [], IfOk, IfSome, IsSome, IsTrue, Some};
ghost use Rattle.std.specs.Prelude.{◌≤ℤ◌, length, reverse, set, slice_get, take};
ghost use Rattle.ts_automaton.specs.AutomatonRun.{AreCellValues, Stands, after, answer, standing_of};
ghost use Rattle.ts_base.specs.Limits.{IsCellValue, most_cells};
ghost use Rattle.ts_base.specs.Signature.{letter_of, signature_of};
ghost use Rattle.ts_glue.specs.declared.machine.Machine.{Machine};
ghost use Rattle.ts_glue.specs.Machines.{forward_of, pair_of, reverse_of};
ghost use Rattle.ts_glue.specs.Pairs.{Pair};
ghost use Rattle.ts_witness.specs.Runs.{IsSide, Runs, cells_in};
ghost use Rattle.ts_witness.specs.Witnesses.{AreSides, IsWitness, series_of};

use crate::run::{Run, Side};
use std::alloc::Global;
use ts_automaton::At;
use ts_base::{Ext, Memory};
use ts_glue::{Machine, glue_value};

/// What the two runs of a witness have beside a cell.
#[derive(Clone, Copy)]
pub(crate) struct Sides {
    pub(crate) left: Side,
    pub(crate) right: Side,
}

/// A series of up to 512 cells, with where the automata of a machine stand along it, as far as they were asked: the
/// forward one after the first cells, the reverse one after the last ones. After `new` nothing is allocated.
#[derive(Drop)]
pub struct Witness {
    ahead: Run,
    behind: Run,
}

impl Witness {
    /// The witness of a series. Nothing is run yet.
    pub fn new(alloc: Global, m: &Machine, series: Vec<i64>) -> Result<Witness, Memory>
        ensures series { IfOk result (λ w. series_of w ≡ series.items) }
        ensures witness { IfOk result (λ w. IsWitness m.now w) }
    {
        let filler = m.forward().start();
        let behind = Run::new(alloc, reversed(alloc, &series)?, filler)?;
        let ahead = Run::new(alloc, series, filler)?;
        Ok(Witness { ahead, behind })
    }

    /// The value at cell `k`, counted from 1.
    pub fn cell(&self, k: u32) -> i64
        requires from { 1 ≤ k }
        requires to { k ≤ length (series_of self.now) }
        ensures { slice_get (series_of self.now) (k - 1) ≡ Some result }
    {
        self.ahead.cells[k as usize - 1]
    }

    /// The value of the series, which has a cell. Where the machine can be split it is read at the first cell that
    /// isn't known from the first one on, so a change costs what lies between it and the one before.
    pub fn value(&mut self, m: &Machine) -> Ext
        requires witness { IsWitness m.now self.old }
        requires some { 1 ≤ length (series_of self.old) }
        requires few { length (series_of self.old) ≤ most_cells }
        requires cells { AreCellValues (series_of self.old) }
        ensures witness { IsWitness m.now self.new }
        ensures series { series_of self.new ≡ series_of self.old }
        ensures value { result ≡ answer (forward_of m.now) (series_of self.old) }
    {
        match m.reverse() {
            Some(_) => {
                let i = self.ahead.known.min(self.ahead.cells.len() - 1);
                let cell = self.ahead.cells[i];
                self.value_with(m, i as u32 + 1, cell)
            }
            None => self.value_at_end(m),
        }
    }

    /// The value of the series, which has a cell, read at the last one.
    fn value_at_end(&mut self, m: &Machine) -> Ext
        requires witness { IsWitness m.now self.old }
        requires some { 1 ≤ length (series_of self.old) }
        requires few { length (series_of self.old) ≤ most_cells }
        ensures witness { IsWitness m.now self.new }
        ensures series { series_of self.new ≡ series_of self.old }
        ensures value { result ≡ answer (forward_of m.now) (series_of self.old) }
    {
        let n = self.ahead.cells.len();
        let cell = self.ahead.cells[n - 1];
        let at = self.ahead.with(m.forward(), n - 1, cell);
        m.forward().finish(at, n as u32)
    }

    /// The value of the series with `v`, from -1,000,000 to 1,000,000, at cell `k`, counted from 1. Only for a machine
    /// that can be split.
    pub fn value_with(&mut self, m: &Machine, k: u32, v: i64) -> Ext
        requires split { IsSome (pair_of m.now) }
        requires witness { IsWitness m.now self.old }
        requires few { length (series_of self.old) ≤ most_cells }
        requires cells { AreCellValues (series_of self.old) }
        requires from { 1 ≤ k }
        requires to { k ≤ length (series_of self.old) }
        requires value { IsCellValue v }
        ensures witness { IsWitness m.now self.new }
        ensures series { series_of self.new ≡ series_of self.old }
        ensures value { result ≡ answer (forward_of m.now) (set (series_of self.old) (k - 1) v) }
    {
        let n = self.ahead.cells.len();
        let i = k as usize;
        let left = self.ahead.with(m.forward(), i - 1, v);
        let right = arrive_behind(&mut self.behind, m, n - i, v);
        glue_value(m, left, right, v, n as u32)
    }

    /// The value of the series with `v`, from -1,000,000 to 1,000,000, at cell `k`, counted from 1, if both runs are
    /// known up to that cell: nothing is run. Only for a machine that can be split.
    pub(crate) fn known_value_with(&self, m: &Machine, k: u32, v: i64) -> Option<Ext>
        requires split { IsSome (pair_of m.now) }
        requires witness { IsWitness m.now self.now }
        requires few { length (series_of self.now) ≤ most_cells }
        requires cells { AreCellValues (series_of self.now) }
        requires from { 1 ≤ k }
        requires to { k ≤ length (series_of self.now) }
        requires value { IsCellValue v }
        ensures { IfSome result (λ x. x ≡ answer (forward_of m.now) (set (series_of self.now) (k - 1) v)) }
    {
        let n = self.ahead.cells.len();
        let i = k as usize;
        if self.ahead.known < i - 1 || self.behind.known < n - i {
            return None;
        }
        let ahead = self.ahead.arrived(m.forward(), i - 1, v);
        let behind = arrived_behind(&self.behind, m, n - i, v);
        Some(glue_value(m, ahead, behind, v, n as u32))
    }

    /// What both runs have beside cell `k`, counted from 1. Only for a machine that can be split.
    pub(crate) fn sides(&mut self, m: &Machine, k: u32) -> Sides
        requires split { IsSome (pair_of m.now) }
        requires witness { IsWitness m.now self.old }
        requires from { 1 ≤ k }
        requires to { k ≤ length (series_of self.old) }
        ensures witness { IsWitness m.now self.new }
        ensures series { series_of self.new ≡ series_of self.old }
        ensures sides { AreSides m.now (series_of self.old) (k - 1) result }
    {
        let n = self.ahead.cells.len();
        let i = k as usize;
        let left = self.ahead.side(m.forward(), i - 1);
        let right = side_behind(&mut self.behind, m, n - i);
        Sides { left, right }
    }

    /// Whether both runs have this beside cell `k`, counted from 1, as far as it matters. Only for a machine that can
    /// be split.
    pub(crate) fn has_beside(&mut self, m: &Machine, k: u32, sides: &Sides) -> bool
        requires split { IsSome (pair_of m.now) }
        requires witness { IsWitness m.now self.old }
        requires from { 1 ≤ k }
        requires to { k ≤ length (series_of self.old) }
        ensures witness { IsWitness m.now self.new }
        ensures series { series_of self.new ≡ series_of self.old }
        ensures sides { IsTrue result → AreSides m.now (series_of self.old) (k - 1) sides.now }
    {
        let n = self.ahead.cells.len();
        let i = k as usize;
        if !self.ahead.has_beside(m.forward(), i - 1, &sides.left) {
            return false;
        }
        has_behind(&mut self.behind, m, n - i, &sides.right)
    }

    /// Whether `v` at cell `k`, counted from 1, compares with the cells beside it as `u` does there.
    pub(crate) fn compares_as(&self, k: u32, u: i64, v: i64) -> bool
        requires from { 1 ≤ k }
        requires to { k ≤ length (series_of self.now) }
        ensures { IsTrue result → signature_of (set (series_of self.now) (k - 1) u)
            ≡ signature_of (set (series_of self.now) (k - 1) v) }
    {
        let cells = self.ahead.cells.as_slice();
        let i = k as usize - 1;
        if !are_like_after(cells, i, u, v) {
            return false;
        }
        are_like_before(cells, i, u, v)
    }

    /// A number up to which all from `v` on at cell `k`, counted from 1, compare with the cells beside it as `v` does.
    pub(crate) fn alike_up_to(&self, k: u32, v: i64) -> i64
        requires cells { AreCellValues (series_of self.now) }
        requires from { 1 ≤ k }
        requires to { k ≤ length (series_of self.now) }
        ensures to { v ≤ℤ result }
        ensures alike { (w : ℤ) → v ≤ℤ w → w ≤ℤ result →
            signature_of (set (series_of self.now) (k - 1) v) ≡ signature_of (set (series_of self.now) (k - 1) w) }
    {
        let cells = self.ahead.cells.as_slice();
        let i = k as usize - 1;
        alike_after(cells, i, v).min(alike_before(cells, i, v))
    }

    /// The value of cell `k`, counted from 1, from now on.
    pub fn set(&mut self, k: u32, v: i64)
        requires from { 1 ≤ k }
        requires to { k ≤ length (series_of self.old) }
        requires mirror { length (cells_in self.old.behind) ≡ length (series_of self.old) }
        ensures series { series_of self.new ≡ set (series_of self.old) (k - 1) v }
        ensures witness { (m : Machine) → IsWitness m self.old → IsWitness m self.new }
    {
        let n = self.ahead.cells.len();
        let i = k as usize;
        self.ahead.set(i - 1, v);
        self.behind.set(n - i, v);
    }
}

/// Whether both values compare in the same way with the cell before place `i`, if there is one.
fn are_like_after(cells: &[i64], i: usize, u: i64, v: i64) -> bool
    requires { i < length cells.now }
    ensures { IsTrue result →
        (i ≡ 0) ⊎ ((x : ℤ) → slice_get cells.now (i - 1) ≡ Some x → letter_of x u ≡ letter_of x v) }
{
    i == 0 || are_like(cells[i - 1], u, v)
}

/// Whether both compare in the same way with the cell after place `i`, if there is one.
fn are_like_before(cells: &[i64], i: usize, u: i64, v: i64) -> bool
    requires { i < length cells.now }
    ensures { IsTrue result →
        (length cells.now ≤ i + 1) ⊎ ((x : ℤ) → slice_get cells.now (i + 1) ≡ Some x → letter_of u x ≡ letter_of v x) }
{
    cells.len() <= i + 1 || are_like(cells[i + 1], u, v)
}

/// A number up to which all from `v` on compare as `v` does with the cell before place `i`, if there is one.
fn alike_after(cells: &[i64], i: usize, v: i64) -> i64
    requires cells { AreCellValues cells.now }
    requires place { i < length cells.now }
    ensures to { v ≤ℤ result }
    ensures alike { (w : ℤ) → v ≤ℤ w → w ≤ℤ result →
        (i ≡ 0) ⊎ ((x : ℤ) → slice_get cells.now (i - 1) ≡ Some x → letter_of x v ≡ letter_of x w) }
{
    if i == 0 {
        return i64::MAX;
    }
    alike_to(cells[i - 1], v)
}

/// A number up to which all from `v` on compare as `v` does with the cell after place `i`, if there is one.
fn alike_before(cells: &[i64], i: usize, v: i64) -> i64
    requires cells { AreCellValues cells.now }
    requires place { i < length cells.now }
    ensures to { v ≤ℤ result }
    ensures alike { (w : ℤ) → v ≤ℤ w → w ≤ℤ result →
        (length cells.now ≤ i + 1) ⊎ ((x : ℤ) → slice_get cells.now (i + 1) ≡ Some x → letter_of v x ≡ letter_of w x) }
{
    if cells.len() <= i + 1 {
        return i64::MAX;
    }
    alike_to(cells[i + 1], v)
}

/// A number up to which all from `v` on compare with `x` as `v` does.
fn alike_to(x: i64, v: i64) -> i64
    requires { IsCellValue x }
    ensures to { v ≤ℤ result }
    ensures after { (w : ℤ) → v ≤ℤ w → w ≤ℤ result → letter_of x v ≡ letter_of x w }
    ensures before { (w : ℤ) → v ≤ℤ w → w ≤ℤ result → letter_of v x ≡ letter_of w x }
{
    if v < x {
        x - 1
    } else if v == x {
        v
    } else {
        i64::MAX
    }
}

/// Whether `u` and `v` compare in the same way with `x`.
fn are_like(x: i64, u: i64, v: i64) -> bool
    ensures after { IsTrue result → letter_of x u ≡ letter_of x v }
    ensures before { IsTrue result → letter_of u x ≡ letter_of v x }
{
    (x < u) == (x < v) && (u < x) == (v < x)
}

/// Where the reverse automaton stands after the last `j` cells and then the value `v`.
fn arrive_behind(run: &mut Run, m: &Machine, j: usize, v: i64) -> At
    requires split { IsSome (pair_of m.now) }
    requires runs { (p : Pair) → pair_of m.now ≡ Some p → Runs p.reverse run.old }
    requires place { j < length (cells_in run.old) }
    ensures runs { (p : Pair) → pair_of m.now ≡ Some p → Runs p.reverse run.new }
    ensures cells { cells_in run.new ≡ cells_in run.old }
    ensures value { (p : Pair) → pair_of m.now ≡ Some p →
        standing_of result ≡ after p.reverse (take j (cells_in run.old) ++ v ∷ []) }
    ensures stands { IfSome (reverse_of m.now) (λ b. Stands b (standing_of result)) }
{
    match m.reverse() {
        Some(reverse) => run.with(reverse, j, v),
        None => unreachable!(),
    }
}

/// Where the reverse automaton stands after the last `j` cells, which are known, and then the value `v`.
fn arrived_behind(run: &Run, m: &Machine, j: usize, v: i64) -> At
    requires split { IsSome (pair_of m.now) }
    requires runs { (p : Pair) → pair_of m.now ≡ Some p → Runs p.reverse run.now }
    requires known { j ≤ run.now.known }
    ensures value { (p : Pair) → pair_of m.now ≡ Some p →
        standing_of result ≡ after p.reverse (take j (cells_in run.now) ++ v ∷ []) }
    ensures stands { IfSome (reverse_of m.now) (λ b. Stands b (standing_of result)) }
{
    match m.reverse() {
        Some(reverse) => run.arrived(reverse, j, v),
        None => unreachable!(),
    }
}

/// What the run of the reverse automaton has beside the cell after which there are `j` others.
fn side_behind(run: &mut Run, m: &Machine, j: usize) -> Side
    requires split { IsSome (pair_of m.now) }
    requires runs { (p : Pair) → pair_of m.now ≡ Some p → Runs p.reverse run.old }
    requires place { j < length (cells_in run.old) }
    ensures runs { (p : Pair) → pair_of m.now ≡ Some p → Runs p.reverse run.new }
    ensures cells { cells_in run.new ≡ cells_in run.old }
    ensures side { (p : Pair) → pair_of m.now ≡ Some p → IsSide p.reverse (cells_in run.old) j result }
{
    match m.reverse() {
        Some(reverse) => run.side(reverse, j),
        None => unreachable!(),
    }
}

/// Whether this is what the run of the reverse automaton has beside the cell after which there are `j` others.
fn has_behind(run: &mut Run, m: &Machine, j: usize, side: &Side) -> bool
    requires split { IsSome (pair_of m.now) }
    requires runs { (p : Pair) → pair_of m.now ≡ Some p → Runs p.reverse run.old }
    requires place { j < length (cells_in run.old) }
    ensures runs { (p : Pair) → pair_of m.now ≡ Some p → Runs p.reverse run.new }
    ensures cells { cells_in run.new ≡ cells_in run.old }
    ensures side { IsTrue result → (p : Pair) → pair_of m.now ≡ Some p →
        IsSide p.reverse (cells_in run.old) j side.now }
{
    match m.reverse() {
        Some(reverse) => run.has_beside(reverse, j, side),
        None => unreachable!(),
    }
}

/// The cells from the last one down to the first.
fn reversed(alloc: Global, series: &Vec<i64>) -> Result<Vec<i64>, Memory>
    ensures { IfOk result (λ r. r.items ≡ reverse series.now.items) }
{
    Ok(series.iter().rev().copied().collect(alloc)?)
}
