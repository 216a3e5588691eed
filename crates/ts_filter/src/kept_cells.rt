//! What is known of drops before any is looked for.

ghost use Rattle.std.specs.Prelude.{◌≡◌, ◌-◌, ◌<◌, ◌≤◌, IfOk, Some, length, map, option_map, replicate};
ghost use Rattle.std.specs.Prelude.{slice_get, unwrap_or};
ghost use Rattle.ts_filter.specs.KeptCells.{TermKept, below_all, forgotten, is_alive_in, spared_in, unknown};
ghost use Rattle.ts_filter.specs.KeptCells.{with_alive, with_known, with_spared};

use std::alloc::Global;
use std::marker::Model;
use ts_base::Memory;
use ts_base::limits::CELL_VALUE;

/// A limit that no value of a cell is up to.
const BELOW_ALL: i64 = -CELL_VALUE - 1;

/// What is known of the requirements on one term: whether none is refuted at any cell, and up to which value none drops
/// one of a cell.
#[derive(Drop)]
pub(crate) struct KeptTerm {
    alive: bool,
    cells: Vec<i64>,
}

impl Model for KeptTerm {
    ghost use Rattle.ts_filter.specs.KeptCells.{TermKept};

    ghost Value = { TermKept };

    ghost view = { λ t. record { alive = t.alive; cells = t.cells.items } };
}

/// For each term, as far as its user knows: whether its requirements are refuted nowhere in a box, and up to which
/// value of each cell they drop none.
#[derive(Drop)]
pub struct KeptCells {
    each: Vec<KeptTerm>,
}

impl Model for KeptCells {
    ghost use Rattle.std.specs.Prelude.{List};
    ghost use Rattle.ts_filter.specs.KeptCells.{TermKept};

    ghost Value = { List TermKept };

    ghost view = { λ t. t.each.items };
}

impl KeptCells {
    /// Nothing is known of this many terms and cells. All memory is taken here; `Memory` is the only refusal.
    pub fn new(alloc: Global, terms: usize, cells: usize) -> Result<KeptCells, Memory>
        ensures { IfOk result (λ kept. kept ≡ replicate terms (unknown cells)) }
    {
        let mut each = Vec::new(alloc);
        for _ in 0..terms {
            each.push(KeptTerm::new(alloc, cells)?)?;
        }
        Ok(KeptCells { each })
    }

    /// Forgets all that is known.
    pub fn forget(&mut self)
        ensures { self.new ≡ map forgotten self.old }
    {
        forget_each(self.each.as_mut_slice());
    }

    /// Notes that no requirement on the term is refuted at any cell.
    pub fn keep_term(&mut self, term: usize)
        requires { term < length self.old }
        ensures { self.new ≡ with_known with_alive term self.old }
    {
        self.each[term].keep();
    }

    /// Notes that no requirement on the term drops a value of cell `k`, counted from 1, that is at most `limit`.
    pub fn keep_cell(&mut self, term: usize, k: u32, limit: i64)
        requires term { term < length self.old }
        requires from { 1 ≤ k }
        requires to { (t : TermKept) → slice_get self.old term ≡ Some t → k ≤ length t.cells }
        ensures { self.new ≡ with_known (with_spared k limit) term self.old }
    {
        self.each[term].keep_cell(k, limit);
    }

    /// What is known of the term; none where nothing is kept of it.
    pub(crate) fn of_term(&self, term: usize) -> Option<&KeptTerm>
        ensures { option_map (λ t. t.now) result ≡ slice_get self.now term }
    {
        self.each.get(term)
    }
}

impl KeptTerm {
    fn new(alloc: Global, cells: usize) -> Result<KeptTerm, Memory>
        ensures { IfOk result (λ t. t ≡ unknown cells) }
    {
        let cells = vec![in alloc; BELOW_ALL; cells]?;
        Ok(KeptTerm {
            alive: false,
            cells,
        })
    }

    fn forget(&mut self)
        ensures { self.new ≡ forgotten self.old }
    {
        self.alive = false;
        clear(self.cells.as_mut_slice());
    }

    fn keep(&mut self)
        ensures { self.new ≡ with_alive self.old }
    {
        self.alive = true;
    }

    fn keep_cell(&mut self, k: u32, limit: i64)
        requires from { 1 ≤ k }
        requires to { k ≤ length self.old.cells }
        ensures { self.new ≡ with_spared k limit self.old }
    {
        self.cells[k as usize - 1] = limit;
    }

    fn spared_to(&self, k: u32) -> i64
        requires { 1 ≤ k }
        ensures { result ≡ unwrap_or (slice_get self.now.cells (k - 1)) below_all }
    {
        match self.cells.get(k as usize - 1) {
            Some(limit) => *limit,
            None => BELOW_ALL,
        }
    }
}

/// Whether it is known that no requirement on the term is refuted at any cell.
pub(crate) fn is_alive(kept: Option<&KeptTerm>) -> bool
    ensures { result ≡ is_alive_in (option_map (λ t. t.now) kept.entry) }
{
    match kept {
        Some(term) => term.alive,
        None => false,
    }
}

/// The number up to which no requirement on the term is known to drop a value of cell `k`.
pub(crate) fn spared_to(kept: Option<&KeptTerm>, k: u32) -> i64
    requires { 1 ≤ k }
    ensures { result ≡ spared_in (option_map (λ t. t.now) kept.entry) k }
{
    match kept {
        Some(term) => term.spared_to(k),
        None => BELOW_ALL,
    }
}

/// Forgets what is known of each of these terms.
fn forget_each(each: &mut [KeptTerm])
    ensures { each.new ≡ map forgotten each.old }
{
    for term in 0..each.len() {
        each[term].forget();
    }
}

/// Takes away all marks.
fn clear(marks: &mut [i64])
    ensures { marks.new ≡ map (λ limit. below_all) marks.old }
{
    for i in 0..marks.len() {
        marks[i] = BELOW_ALL;
    }
}
