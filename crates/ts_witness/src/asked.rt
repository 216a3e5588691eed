//! What need not be asked of a box, since a series of it meets a requirement.

ghost use Rattle.std.specs.Prelude.{◌≡◌, ◌≤◌, ◌-◌, IsSome, IsTrue, length, set, true};
ghost use Rattle.ts_automaton.specs.AutomatonRun.{AreCellValues, answer};
ghost use Rattle.ts_base.specs.Limits.{IsCellValue, most_cells};
ghost use Rattle.ts_glue.specs.Machines.{forward_of, pair_of};
ghost use Rattle.ts_bound.specs.TermSpans.{automata_of};
ghost use Rattle.ts_model.specs.Compares.{compares};
ghost use Rattle.ts_witness.specs.Laws.{IsAlive, IsKept};
ghost use Rattle.ts_witness.specs.Witnesses.{IsWitness, series_of};

use crate::witness::Witness;
use ts_glue::Machine;
use ts_model::{Require, satisfies};

impl Witness {
    /// Whether the series meets a requirement on the term of this machine. If so, the requirement is refuted at no cell
    /// of any box with the series in the cells that the machine looks at.
    pub fn holds(&mut self, m: &Machine, r: &Require) -> bool
        requires witness { IsWitness m.now self.old }
        requires some { 1 ≤ length (series_of self.old) }
        requires few { length (series_of self.old) ≤ most_cells }
        requires cells { AreCellValues (series_of self.old) }
        ensures witness { IsWitness m.now self.new }
        ensures series { series_of self.new ≡ series_of self.old }
        ensures told { result ≡ compares r.now.op r.now.bound (answer (forward_of m.now) (series_of self.old)) }
        ensures alive { IsTrue result → IsAlive (automata_of m.now) r.now (series_of self.old) }
    {
        satisfies(r.op, r.bound, self.value(m))
    }

    /// Whether the series with `v` at place `k`, counted from 1, meets a requirement on the term of this machine, which
    /// can be split. If so, the requirement drops `v` there on no box with the series.
    pub(crate) fn keeps(&mut self, m: &Machine, r: &Require, k: u32, v: i64) -> bool
        requires split { IsSome (pair_of m.now) }
        requires witness { IsWitness m.now self.old }
        requires few { length (series_of self.old) ≤ most_cells }
        requires cells { AreCellValues (series_of self.old) }
        requires from { 1 ≤ k }
        requires to { k ≤ length (series_of self.old) }
        requires value { IsCellValue v }
        ensures witness { IsWitness m.now self.new }
        ensures series { series_of self.new ≡ series_of self.old }
        ensures told { result
            ≡ compares r.now.op r.now.bound (answer (forward_of m.now) (set (series_of self.old) (k - 1) v)) }
        ensures kept { IsTrue result → IsKept (automata_of m.now) r.now (series_of self.old) k v }
    {
        satisfies(r.op, r.bound, self.value_with(m, k, v))
    }
    /// Whether the series with `v` at place `k`, counted from 1, meets a requirement on the term of this machine, which
    /// can be split, as far as the runs are known: where that takes more than they are, the answer is no.
    pub(crate) fn is_known_to_keep(&self, m: &Machine, r: &Require, k: u32, v: i64) -> bool
        requires split { IsSome (pair_of m.now) }
        requires witness { IsWitness m.now self.now }
        requires few { length (series_of self.now) ≤ most_cells }
        requires cells { AreCellValues (series_of self.now) }
        requires from { 1 ≤ k }
        requires to { k ≤ length (series_of self.now) }
        requires value { IsCellValue v }
        ensures { IsTrue result → compares r.now.op r.now.bound
            (answer (forward_of m.now) (set (series_of self.now) (k - 1) v)) ≡ true }
    {
        match self.known_value_with(m, k, v) {
            Some(value) => satisfies(r.op, r.bound, value),
            None => false,
        }
    }
}
