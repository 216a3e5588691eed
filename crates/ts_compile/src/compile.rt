//! The machine of a term, and the machines of a model's terms.

ghost use Rattle.std.specs.Prelude.{◌≡◌, IfOk, None};
ghost use Rattle.ts_automaton.specs.AutomatonRun.{HoldsMarkUpTo};
ghost use Rattle.ts_base.specs.Limits.{most_cells};
ghost use Rattle.ts_base.specs.Windows.{LooksInside};
ghost use Rattle.ts_compile.specs.Compiled.{AnswersTerm, machine_body, machine_pair};
ghost use Rattle.ts_compile.specs.Programs.{IsProgramOf};
ghost use Rattle.ts_decorate.specs.Answers.{longest};
ghost use Rattle.ts_glue.specs.Machines.{forward_of, pair_of, window_of};
ghost use Rattle.ts_model.specs.Promise.{IsWhole};
ghost use Rattle.ts_model.specs.Views.{model_parts};

use crate::gluing::glue_table;
use crate::program::Program;
use std::alloc::Global;
use ts_base::Memory;
use ts_decorate::decorate;
use ts_glue::Machine;
use ts_model::{Model, ModelTerm};
use ts_pattern::{Term, trim_after};
use ts_seed::{joins_by_id, partner_by_id, transducer_by_id};

/// The machine of a term: on every series of 1 to 100,000 cells from -1,000,000 to 1,000,000 its answer is the value.
/// It can be split exactly where the pattern has a partner, which has the same e-ranges where the series is read from
/// its end. Neither a plan nor an expression is made: that each seed is closed is proved, so none of them is tested.
pub fn compile_term(alloc: Global, t: &Term) -> Result<Machine, Memory>
    ensures body { IfOk result (λ m. forward_of m ≡ machine_body t.now) }
    ensures pair { IfOk result (λ m. pair_of m ≡ machine_pair t.now) }
    ensures answer { IfOk result (λ m. AnswersTerm (forward_of m) t.now) }
    ensures marked { IfOk result (λ m. HoldsMarkUpTo longest (forward_of m)) }
    ensures whole { IfOk result (λ m. window_of m ≡ None) }
{
    let a = trim_after(t.pattern);
    let rows = transducer_by_id(t.pattern);
    let forward = decorate(alloc, &rows, a, t.aggregator, t.feature)?;
    match partner_by_id(t.pattern) {
        Some(partner) => {
            let back = transducer_by_id(partner);
            let reverse = decorate(alloc, &back, a, t.aggregator, t.feature)?;
            let joins = joins_by_id(alloc, t.pattern)?;
            let table = glue_table(a, t.feature, joins);
            Ok(Machine::glued(forward, reverse, table))
        }
        None => Ok(Machine::plain(forward)),
    }
}

/// The machine of a term of a model, over the cells that the term looks at.
fn compile_over(alloc: Global, t: &ModelTerm) -> Result<Machine, Memory>
    requires { LooksInside most_cells t.now.window }
    ensures body { IfOk result (λ m. forward_of m ≡ machine_body t.now.term) }
    ensures pair { IfOk result (λ m. pair_of m ≡ machine_pair t.now.term) }
    ensures window { IfOk result (λ m. window_of m ≡ t.now.window) }
{
    let machine = compile_term(alloc, &t.term)?;
    match t.window {
        None => Ok(machine),
        Some(window) => Ok(machine.over(window.first, window.last)),
    }
}

/// The terms of a model with their machines.
pub fn compile_model(alloc: Global, m: &Model) -> Result<Program, Memory>
    requires { IsWhole (model_parts m.now) }
    ensures { IfOk result (λ p. IsProgramOf p m.now) }
{
    let mut terms = Vec::new(alloc);
    let mut machines = Vec::new(alloc);
    for k in 0..m.terms.len() {
        let term = m.term(k);
        machines.push(compile_over(alloc, &term)?)?;
        terms.push(term.term)?;
    }
    Ok(Program { terms, machines })
}
