//! Automata whose parts keep the rules.

ghost use Rattle.std.specs.Prelude.{◌≡◌, ◌<◌, ◌≤◌, ◌↔◌, IsTrue, IsSome, IfSome, length};
ghost use Rattle.ts_automaton.specs.Body.{body_of, move_of, move_on, node_at, node_of, parts_of};
ghost use Rattle.ts_automaton.specs.Formula.{formula};
ghost use Rattle.ts_automaton.specs.Registers.{regs_of};
ghost use Rattle.ts_automaton.specs.Typing.{is_automaton};

use crate::expr::Expr;
use crate::parts::Parts;
use crate::regs::Regs;
use crate::state::{Mark, State, Turn};
use std::marker::Model;
use ts_base::Letter;

/// One to eight states, of which the first is the start, with the start constants, the finish expression and the mark
/// of the answer; narrow, with the registers C, D and R, or wide, with E and F too. Every rule on them is kept.
#[derive(Drop)]
pub struct Automaton {
    parts: Parts,
}

impl Model for Automaton {
    ghost use Rattle.std.specs.Coded.{codes};
    ghost use Rattle.std.specs.Prelude.{IsTrue};
    ghost use Rattle.ts_automaton.specs.Body.{Body, parts_of};
    ghost use Rattle.ts_automaton.specs.Codes.{formula_code};
    ghost use Rattle.ts_automaton.specs.Typing.{is_automaton};

    ghost Value = { Body };

    ghost coded = { Prim.hlevel (codes, formula_code) };

    ghost view = { λ m. parts_of m.parts };

    ghost invariant = { λ m. IsTrue (is_automaton (parts_of m.parts)) };
}

impl Automaton {
    /// The automaton of these parts. None exactly where a rule is broken: there are one to eight states with
    /// different names, each a letter `a` to `z`; moves lead to states; a start constant is 0, 1, -inf or +inf; an
    /// expression has at most 15 words; in a narrow one the start constants of E and F and their expressions are 0, and
    /// E, F and `Sub` stand nowhere; the first state is free; moves and the finish expression are well typed.
    pub fn new(
        states: Vec<State>,
        start: Regs,
        finish: Expr,
        mark: Mark,
        wide: bool,
    ) -> Option<Automaton>
        ensures exactly { IsSome result ↔ IsTrue (is_automaton (body_of states.items start finish mark wide)) }
        ensures same { IfSome result (λ m. m ≡ body_of states.items start finish mark wide) }
    {
        let parts = Parts {
            states,
            start,
            finish,
            mark,
            wide,
        };
        if parts.keep_rules() {
            Some(Automaton { parts })
        } else {
            None
        }
    }

    /// The automaton of parts of which every rule is known to hold.
    pub(crate) fn from_parts(parts: Parts) -> Automaton
        requires { IsTrue (is_automaton (parts_of parts)) }
        ensures { result ≡ parts_of parts }
    {
        Automaton { parts }
    }

    /// Its parts, lent.
    #[tactic(auto, using(crate::proofs::Rules::few_states))]
    pub(crate) fn parts(&self) -> &Parts
        ensures same { parts_of result.now ≡ self.now }
        ensures few { length result.now.states.items ≤ 8 }
    {
        &self.parts
    }

    /// The number of its states, 1 to 8.
    #[tactic(auto, using(crate::proofs::Rules::few_states))]
    pub fn states(&self) -> u8
        ensures count { result ≡ length self.now.states }
        ensures some { 1 ≤ result }
        ensures few { result ≤ 8 }
        ensures rules { IsTrue (is_automaton self.now) }
    {
        self.parts.states.len() as u8
    }

    /// The state at place `q`, counted from 0.
    pub fn state(&self, q: u8) -> &State
        requires { q < length self.now.states }
        ensures value { node_of result.now ≡ node_at self.now.states q }
        ensures rules { IsTrue (is_automaton self.now) }
    {
        &self.parts.states[q as usize]
    }

    /// The finish expression.
    pub fn finish_expr(&self) -> &Expr
        ensures value { formula result.now ≡ self.now.finish }
        ensures rules { IsTrue (is_automaton self.now) }
    {
        &self.parts.finish
    }

    /// What becomes of the value of the finish expression.
    pub fn mark(&self) -> Mark
        ensures { result ≡ self.now.mark }
    {
        self.parts.mark
    }

    /// Whether it has the registers E and F too: what it was made with.
    pub fn wide(&self) -> bool
        ensures { result ≡ self.now.wide }
    {
        self.parts.wide
    }

    /// The start constants.
    pub(crate) fn start_regs(&self) -> Regs
        ensures value { regs_of result ≡ self.now.start }
        ensures rules { IsTrue (is_automaton self.now) }
    {
        self.parts.start
    }

    /// The move of a state on a letter.
    pub(crate) fn turn(&self, q: u8, letter: Letter) -> &Turn
        requires { q < length self.now.states }
        ensures value { move_of result.now ≡ move_on letter (node_at self.now.states q) }
        ensures rules { IsTrue (is_automaton self.now) }
    {
        let state = &self.parts.states[q as usize];
        match letter {
            Letter::Less => &state.less,
            Letter::Equal => &state.equal,
            Letter::Greater => &state.greater,
        }
    }
}
