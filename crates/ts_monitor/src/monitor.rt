//! The automata of all terms, run over readings.

ghost use Rattle.std.specs.Prelude.{ℤ, ◌≡◌, ◌<◌, ◌≤◌, ◌+◌, ◌++◌, ◌∷◌, List, [], Some, IfOk, length, map, slice_get};
ghost use Rattle.ts_automaton.specs.AutomatonRun.{standing_of, start_of};
ghost use Rattle.ts_base.specs.Limits.{IsCellValue};
ghost use Rattle.ts_compile.specs.Programs.{LooksAtAll};
ghost use Rattle.ts_decorate.specs.Answers.{longest};
ghost use Rattle.ts_glue.specs.Machines.{forward_of};
ghost use Rattle.ts_monitor.specs.Monitors.{AllStand, StandsFor, moved, moved_after};
ghost use Rattle.ts_pattern.specs.TermValue.{term_value};

use std::alloc::Global;
use std::marker::Model;
use ts_automaton::At;
use ts_base::{Ext, Memory};
use ts_compile::Program;
use ts_glue::Machine;

/// The terms of a program over the readings so far, of which there are at most 100,000, each from -1,000,000 to
/// 1,000,000.
#[derive(Drop)]
pub struct Monitor {
    program: Program,
    runs: Vec<At>,
    count: u32,
    last: i64,
}

impl Model for Monitor {
    ghost use Rattle.std.specs.Prelude.{◌≤◌, map};
    ghost use Rattle.ts_automaton.specs.AutomatonRun.{standing_of};
    ghost use Rattle.ts_base.specs.Limits.{IsCellValue};
    ghost use Rattle.ts_compile.specs.Compiled.{machine_body};
    ghost use Rattle.ts_decorate.specs.Answers.{longest};
    ghost use Rattle.ts_monitor.specs.Monitors.{AllStand, Watched};

    ghost Value = { Watched };

    ghost view = { λ m. record {
      terms = m.program.terms.items;
      count = m.count;
      last = m.last;
      standings = map standing_of m.runs.items;
    } };

    ghost invariant = { λ m. (m.count ≤ longest) × IsCellValue m.last
        × AllStand (map machine_body m.program.terms.items) (map standing_of m.runs.items) };
}

impl Monitor {
    /// Before the first reading. No machine has a window: each term looks at all readings.
    pub fn new(alloc: Global, p: Program) -> Result<Monitor, Memory>
        requires { LooksAtAll p }
        ensures terms { IfOk result (λ m. m.terms ≡ p.terms.items) }
        ensures stands { IfOk result (λ m. StandsFor m []) }
    {
        let runs = starts(alloc, p.machines())?;
        Ok(Monitor {
            program: p,
            runs,
            count: 0,
            last: 0,
        })
    }

    /// The number of readings so far, 0 to 100,000.
    pub fn count(&self) -> u32
        ensures count { result ≡ self.now.count }
        ensures few { result ≤ longest }
    {
        self.count
    }

    /// The number of terms.
    #[tactic(auto, using(crate::proofs::Moves::as_many))]
    pub fn terms(&self) -> usize
        ensures { result ≡ length self.now.terms }
    {
        self.program.machines().len()
    }

    /// Takes the next reading: fewer than 100,000 were taken, and it is from -1,000,000 to 1,000,000.
    pub fn take(&mut self, v: i64)
        requires few { self.old.count < longest }
        requires reading { IsCellValue v }
        ensures terms { self.new.terms ≡ self.old.terms }
        ensures count { self.new.count ≡ self.old.count + 1 }
        ensures stands { (xs : List ℤ) → StandsFor self.old xs → StandsFor self.new (xs ++ v ∷ []) }
    {
        let machines = self.program.machines();
        move_on(machines, &mut self.runs, self.count, self.last, v);
        self.last = v;
        self.count += 1;
    }

    /// The value of the term at place `term`, counted from 0, on the readings so far, of which there is one.
    pub fn value(&self, term: u32) -> Ext
        requires some { 1 ≤ self.now.count }
        requires term { term < length self.now.terms }
        ensures { (xs : List ℤ) → StandsFor self.now xs →
            slice_get (map (λ t. term_value t xs) self.now.terms) term ≡ Some result }
    {
        let place = term as usize;
        let forward = self.program.machines()[place].forward();
        forward.finish(self.runs[place], self.count)
    }
}

/// The start of each machine's automaton.
fn starts(alloc: Global, machines: &[Machine]) -> Result<Vec<At>, Memory>
    ensures { IfOk result
        (λ runs. map standing_of runs.items ≡ map start_of (map forward_of machines.now)) }
{
    let mut runs = Vec::new(alloc);
    for place in 0..machines.len() {
        runs.push(machines[place].forward().start())?;
    }
    Ok(runs)
}

/// Makes the move from the last reading to the next one in each machine's automaton, where there was a last one.
fn move_on(machines: &[Machine], runs: &mut Vec<At>, count: u32, last: i64, next: i64)
    requires { AllStand (map forward_of machines.now) (map standing_of runs.old.items) }
    ensures { map standing_of runs.new.items
        ≡ moved_after count (map forward_of machines.now) (map standing_of runs.old.items) last next }
{
    if count > 0 {
        move_all(machines, runs, last, next);
    }
}

/// Makes the move of two neighbouring readings in each machine's automaton.
fn move_all(machines: &[Machine], runs: &mut Vec<At>, this: i64, next: i64)
    requires { AllStand (map forward_of machines.now) (map standing_of runs.old.items) }
    ensures { map standing_of runs.new.items
        ≡ moved (map forward_of machines.now) (map standing_of runs.old.items) this next }
{
    for place in 0..machines.len() {
        runs[place] = machines[place].forward().step(runs[place], this, next);
    }
}
