//! The parts of an automaton, and the rules on how they look.

ghost use Rattle.std.specs.Prelude.{◌≡◌, length, map, min, nat_eq};
ghost use Rattle.std.specs.List.{list_all, list_any};
ghost use Rattle.ts_automaton.specs.Body.{move_of, node_of, parts_of};
ghost use Rattle.ts_automaton.specs.Formula.{formula, is_zero, words_in};
ghost use Rattle.ts_automaton.specs.Registers.{regs_of};
ghost use Rattle.ts_automaton.specs.Typing.{is_constant, is_name, is_number_zero, is_short, is_expression, are_constants, are_expressions, are_different, leads_below, has_expressions_in, has_few_states, has_names, has_constants, has_targets, has_expressions, is_formed};

use crate::expr::Expr;
use crate::regs::Regs;
use crate::state::{Mark, State, Turn};
use ts_base::Ext;

/// The parts of an automaton, of which the rules may not hold yet.
#[derive(Drop)]
pub(crate) struct Parts {
    pub(crate) states: Vec<State>,
    pub(crate) start: Regs,
    pub(crate) finish: Expr,
    pub(crate) mark: Mark,
    pub(crate) wide: bool,
}

impl Parts {
    /// Whether the rules on how the parts look hold, whatever their types.
    pub(crate) fn is_formed(&self) -> bool
        ensures { result ≡ is_formed (parts_of self.now) }
    {
        self.has_few_states()
            && self.has_names()
            && self.has_constants()
            && self.has_targets()
            && self.has_expressions()
    }

    /// Whether there are one to eight states.
    fn has_few_states(&self) -> bool
        ensures { result ≡ has_few_states (parts_of self.now) }
    {
        1 <= self.states.len() && self.states.len() <= 8
    }

    /// Whether the states have different names, each a letter.
    #[tactic(auto, using(crate::proofs::Lists::mapped))]
    fn has_names(&self) -> bool
        ensures { result ≡ has_names (parts_of self.now) }
    {
        all_named(&self.states) && are_different(&self.states)
    }

    /// Whether each start constant is 0, 1, -inf or +inf, and those of E and F are 0 in a narrow automaton.
    fn has_constants(&self) -> bool
        ensures { result ≡ has_constants (parts_of self.now) }
    {
        are_constants(self.start, self.wide)
    }

    /// Whether each move leads to a state.
    #[tactic(auto, using(crate::proofs::Lists::mapped))]
    fn has_targets(&self) -> bool
        ensures { result ≡ has_targets (parts_of self.now) }
    {
        all_lead_within(&self.states)
    }

    /// Whether each expression may stand in an automaton of this width.
    #[tactic(auto, using(crate::proofs::Lists::mapped))]
    fn has_expressions(&self) -> bool
        ensures { result ≡ has_expressions (parts_of self.now) }
    {
        all_have_expressions(&self.states, self.wide) && is_expression(&self.finish, self.wide)
    }
}

/// Whether each name is a letter `a` to `z`.
fn all_named(states: &[State]) -> bool
    ensures { result ≡ list_all (λ s. is_name s.name) states.now }
{
    states
        .iter()
        .all(|state| b'a' <= state.name && state.name <= b'z')
}

/// Whether no two of the states have one name.
#[tactic(auto, using(crate::proofs::Lists::mapped))]
fn are_different(states: &[State]) -> bool
    ensures { result ≡ are_different (map node_of states.now) }
{
    match states {
        [] => true,
        [first, rest @ ..] => !has_name(rest, first.name) && are_different(rest),
    }
}

/// Whether one of the states has the name.
fn has_name(states: &[State], name: u8) -> bool
    ensures { result ≡ list_any (λ s. nat_eq s.name name) states.now }
{
    states.iter().any(|state| state.name == name)
}

/// Whether an automaton of this width may have these start constants.
fn are_constants(start: Regs, wide: bool) -> bool
    ensures { result ≡ are_constants wide (regs_of start) }
{
    is_constant(start.c)
        && is_constant(start.e)
        && is_constant(start.d)
        && is_constant(start.f)
        && is_constant(start.r)
        && (wide || (is_number_zero(start.e) && is_number_zero(start.f)))
}

/// Whether it is the number 0.
fn is_number_zero(e: Ext) -> bool
    ensures { result ≡ is_number_zero e }
{
    match e {
        Ext::Int(x) => x == 0,
        Ext::NegInf | Ext::PosInf => false,
    }
}

/// Whether it is 0, 1, -inf or +inf.
fn is_constant(e: Ext) -> bool
    ensures { result ≡ is_constant e }
{
    match e {
        Ext::Int(x) => x == 0 || x == 1,
        Ext::NegInf | Ext::PosInf => true,
    }
}

/// Whether each move of a state leads to one of the first `count` states.
fn leads_below(state: &State, count: usize) -> bool
    ensures { result ≡ leads_below count (node_of state.now) }
{
    (state.less.next as usize) < count
        && (state.equal.next as usize) < count
        && (state.greater.next as usize) < count
}

/// The number of words of an expression, at most that of a `usize`.
fn words(e: &Expr) -> usize
    ensures { result ≡ min (words_in (formula e.now)) usize.MAX }
{
    match e {
        Expr::Add(a, b) | Expr::Sub(a, b) | Expr::Max(a, b) | Expr::Min(a, b) => words(a)
            .saturating_add(words(b))
            .saturating_add(1),
        _ => 1,
    }
}

/// Whether the expression has at most 15 words.
fn is_short(e: &Expr) -> bool
    ensures { result ≡ is_short (formula e.now) }
{
    words(e) <= 15
}

/// Whether each move of each state leads to one of them.
fn all_lead_within(states: &[State]) -> bool
    ensures { result ≡ list_all (λ s. leads_below (length states.now) (node_of s)) states.now }
{
    let count = states.len();
    states.iter().all(|s| leads_below(s, count))
}

/// Whether an automaton of this width may have the expression.
fn is_expression(e: &Expr, wide: bool) -> bool
    ensures { result ≡ is_expression wide (formula e.now) }
{
    is_short(e) && e.is_of(wide)
}

/// Whether the expression is the constant 0 alone.
fn is_zero(e: &Expr) -> bool
    ensures { result ≡ is_zero (formula e.now) }
{
    match e {
        Expr::Zero => true,
        _ => false,
    }
}

/// Whether an automaton of this width may have the expressions of each state's moves.
fn all_have_expressions(states: &[State], wide: bool) -> bool
    ensures { result ≡ list_all (λ s. has_expressions_in wide (node_of s)) states.now }
{
    states.iter().all(|s| has_expressions_in(s, wide))
}

/// Whether an automaton of this width may have the expressions of a state's moves.
fn has_expressions_in(state: &State, wide: bool) -> bool
    ensures { result ≡ has_expressions_in wide (node_of state.now) }
{
    are_expressions(&state.less, wide)
        && are_expressions(&state.equal, wide)
        && are_expressions(&state.greater, wide)
}

/// Whether an automaton of this width may have the expressions of a move.
fn are_expressions(turn: &Turn, wide: bool) -> bool
    ensures { result ≡ are_expressions wide (move_of turn.now).to }
{
    is_expression(&turn.c, wide)
        && is_expression(&turn.e, wide)
        && is_expression(&turn.d, wide)
        && is_expression(&turn.f, wide)
        && is_expression(&turn.r, wide)
        && (wide || (is_zero(&turn.e) && is_zero(&turn.f)))
}
