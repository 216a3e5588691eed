//! A table of hulls in one vector.

ghost use Rattle.std.specs.Prelude.{◌≡◌, ◌+◌, ◌*◌, ◌-◌, ◌≤◌, if◌then◌else◌, IfOk, length, map, take, drop, slice_range};
ghost use Rattle.std.proofs.Common.{replicate};
ghost use Rattle.std.specs.Borrow.{sem};
ghost use Rattle.ts_base.specs.Windows.{LooksInside};
ghost use Rattle.ts_bound.specs.HullTables.{only_looked};
ghost use Rattle.ts_bound.specs.LendsRows.{LendsParts, LendsRow, LendsTwo};
ghost use Rattle.ts_bound.specs.Looks.{is_looked};
ghost use Rattle.ts_bound.specs.Rows.{IsRow, concat_rows, place, row_at};
ghost use Rattle.ts_domain.specs.BoxSeries.{IsCell, cell_of};
ghost use Rattle.ts_hull.specs.Hulls.{none};

use crate::looks::is_looked;
use std::alloc::Global;
use std::marker::Model;
use ts_automaton::Hull;
use ts_base::{Memory, Range};
use ts_domain::Boxed;

/// One hull per cell, value and state, in one vector: that of the value at place `i` in rising order and of the state
/// `q`, both counted from 0, is in the row of its cell at place `i` times the number of states plus `q`. Contracts see
/// the rows, one after the other. What no series reaches has a hull that is none. A cell that isn't looked at has an
/// empty row.
#[derive(Drop)]
pub struct HullTable {
    hulls: Vec<Hull>,
    // where the row of each cell begins, and where the last one ends
    starts: Vec<usize>,
}

impl Model for HullTable {
    ghost use Rattle.std.specs.Prelude.{List, length};
    ghost use Rattle.ts_automaton.specs.declared.regs.Hull.{Hull};
    ghost use Rattle.ts_bound.specs.Rows.{Starts, rows_of};

    ghost Value = { List (List Hull) };

    ghost view = { λ t. rows_of t.starts.items t.hulls.items };

    ghost invariant = { λ t. Starts t.starts.items (length t.hulls.items) };
}

impl HullTable {
    /// The rows of a box for an automaton with `states` states, in which every hull is none; the rows of the cells that
    /// aren't looked at are empty.
    pub(crate) fn empty(
        alloc: Global,
        cells: &Boxed,
        window: Option<Range>,
        states: u8,
    ) -> Result<HullTable, Memory>
        requires { LooksInside (length cells.now.present) window }
        ensures { IfOk result (λ t. t
            ≡ map (λ d. replicate (length d * states) none) (only_looked window cells.now.present)) }
    {
        let mut starts = Vec::new(alloc);
        starts.push(0)?;
        let mut total = 0;
        for k in 0..cells.cells() {
            total = end_of(total, looked_size(cells, window, k + 1), states)?;
            starts.push(total)?;
        }
        Ok(HullTable {
            hulls: Vec::from_elem(alloc, Hull::none(), total)?,
            starts,
        })
    }

    /// Where the rows of `count` cells from cell `k` on begin and end: the one function that turns cells into places.
    fn bounds(&self, k: u32, count: u32) -> (usize, usize)
        requires first { 1 ≤ k }
        requires last { k - 1 + count ≤ length self.now }
        ensures from { result.0 ≡ place self.now (k - 1) }
        ensures to { result.1 ≡ place self.now (k - 1 + count) }
    {
        let row = k as usize - 1;
        (self.starts[row], self.starts[row + count as usize])
    }

    /// The row of cell `k`.
    pub fn row(&self, k: u32) -> &[Hull]
        requires { IsRow k self.now }
        ensures { result.now ≡ row_at k self.now }
    {
        let (from, to) = self.bounds(k, 1);
        part(&self.hulls, from, to)
    }

    /// The row of cell `k`, borrowed for change. What is written to it is in the table afterwards; every other row
    /// stays.
    pub fn row_mut(&mut self, k: u32) -> &mut [Hull]
        requires { IsRow k self.old }
        ensures* writes_back { sem 𝓛 (LendsRow self.entry k result) }
        ensures value { result.now ≡ row_at k self.old }
    {
        let (from, to) = self.bounds(k, 1);
        self.hulls.slice_mut(from..to)
    }

    /// The rows of cells `k` and `k + 1` as one.
    fn both_mut(&mut self, k: u32) -> &mut [Hull]
        requires first { 1 ≤ k }
        requires last { k + 1 ≤ length self.old }
        ensures* writes_back { sem 𝓛 (LendsRow self.entry k result) }
        ensures value { result.now ≡ slice_range (concat_rows self.old) (place self.old (k - 1))
            (place self.old (k + 1)) }
    {
        let (from, to) = self.bounds(k, 2);
        self.hulls.slice_mut(from..to)
    }

    /// The rows of cells `k` and `k + 1`, borrowed for change. What is written to them is in the table afterwards;
    /// every other row stays.
    pub fn rows(&mut self, k: u32) -> (&mut [Hull], &mut [Hull])
        requires first { 1 ≤ k }
        requires last { k + 1 ≤ length self.old }
        ensures* writes_back { sem 𝓛 (LendsTwo self.entry k result) }
        ensures first { result.0.now ≡ row_at k self.old }
        ensures second { result.1.now ≡ row_at (k + 1) self.old }
    {
        let len = self.width(k);
        cut(self.both_mut(k), len)
    }

    /// How many hulls the row of cell `k` has.
    fn width(&mut self, k: u32) -> usize
        requires first { 1 ≤ k }
        requires last { k ≤ length self.old }
        ensures same { self.new ≡ self.old }
        ensures width { place self.old (k - 1) + result ≡ place self.old k }
    {
        let (from, to) = self.bounds(k, 1);
        to - from
    }
}

/// How many values of cell `k` are looked at: all, or none.
fn looked_size(cells: &Boxed, window: Option<Range>, k: u32) -> u64
    requires { IsCell k cells.now }
    ensures { result ≡ (if is_looked window k then length (cell_of k cells.now) else 0) }
{
    if is_looked(window, k) {
        cells.cell(k).size()
    } else {
        0
    }
}

/// Where a row of `values` values ends. A table whose places can't be counted has no memory.
fn end_of(begin: usize, values: u64, states: u8) -> Result<usize, Memory>
    ensures { IfOk result (λ end. end ≡ begin + values * states) }
{
    (values as usize)
        .checked_mul(states as usize)
        .and_then(|hulls| begin.checked_add(hulls))
        .ok_or(Memory)
}

/// The first `len` hulls, and the others.
fn cut(hulls: &mut [Hull], len: usize) -> (&mut [Hull], &mut [Hull])
    requires { len ≤ length hulls.old }
    ensures* writes_back { sem 𝓛 (LendsParts hulls.entry result) }
    ensures front { result.0.now ≡ take len hulls.old }
    ensures back { result.1.now ≡ drop len hulls.old }
{
    hulls.split_at_mut(len)
}

/// The hulls from a place to another.
fn part(hulls: &[Hull], from: usize, to: usize) -> &[Hull]
    requires order { from ≤ to }
    requires inside { to ≤ length hulls.now }
    ensures { result.now ≡ slice_range hulls.now from to }
{
    &hulls[from..to]
}
