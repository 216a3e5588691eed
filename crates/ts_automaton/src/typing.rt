//! The typing of an automaton's parts, and the first place against it.

ghost use Rattle.std.specs.Prelude.{◌≡◌, ◌<◌, ◌≤◌, length};
ghost use Rattle.std.specs.List.{list_any};
ghost use Rattle.ts_automaton.specs.Body.{move_of, node_at, parts_of};
ghost use Rattle.ts_automaton.specs.Formula.{formula};
ghost use Rattle.ts_automaton.specs.Kinds.{formula_kind, kinds_of};
ghost use Rattle.ts_automaton.specs.Typing.{fits_kind, fits_kinds, kinds_at, kinds_where, reads_registers, is_finish_typed, is_finish_typed_where_held, is_automaton, move_fault, typing_fault};

use crate::expr::{Expr, Operator};
use crate::kind::{Kinds, RegKind};
use crate::parts::Parts;
use crate::state::{State, Turn};
use ts_base::{Letter, Op};

/// A place of an automaton's parts that is typed: the first state, which has to be free; the move of a state on a
/// letter; and the finish expression.
#[derive(Clone, Copy)]
pub(crate) enum Place {
    Start,
    Moving { state: u8, letter: Letter },
    Finish,
}

impl Parts {
    /// Whether all rules hold.
    #[tactic(auto, using(crate::proofs::Listed::typed_or_fault, crate::proofs::Listed::few_formed))]
    pub(crate) fn keep_rules(&self) -> bool
        ensures { result ≡ is_automaton (parts_of self.now) }
    {
        self.is_formed() && self.first_fault().is_none()
    }

    /// The first place against the typing, in the order of the text. There are at most 256 states.
    pub(crate) fn first_fault(&self) -> Option<Place>
        requires { length self.now.states.items ≤ 256 }
        ensures { result ≡ typing_fault (parts_of self.now) }
    {
        if self.starts_held() {
            return Some(Place::Start);
        }
        let moving = self.first_move_fault();
        if moving.is_some() {
            return moving;
        }
        if self.is_finish_typed() {
            None
        } else {
            Some(Place::Finish)
        }
    }

    /// Whether the first state is held.
    fn starts_held(&self) -> bool
        ensures { result ≡ (node_at (parts_of self.now).states 0).held }
    {
        match self.states.first() {
            Some(state) => state.held,
            None => false,
        }
    }

    /// The first move against the typing.
    fn first_move_fault(&self) -> Option<Place>
        requires { length self.now.states.items ≤ 256 }
        ensures { result ≡ move_fault (parts_of self.now) 0 (length self.now.states.items) }
    {
        for q in 0..self.states.len() {
            let fault = self.move_fault(q as u8);
            if fault.is_some() {
                return fault;
            }
        }
        None
    }

    /// The first move of a state against the typing.
    fn move_fault(&self, q: u8) -> Option<Place>
        requires { q < length self.now.states.items }
        ensures { result ≡ move_fault (parts_of self.now) q 1 }
    {
        let state = &self.states[q as usize];
        let letter = if !self.is_turn_typed(state.held, &state.less) {
            Letter::Less
        } else if !self.is_turn_typed(state.held, &state.equal) {
            Letter::Equal
        } else if !self.is_turn_typed(state.held, &state.greater) {
            Letter::Greater
        } else {
            return None;
        };
        Some(Place::Moving { state: q, letter })
    }

    /// Whether the new values of a move have the kinds of the state that is reached.
    fn is_turn_typed(&self, held: bool, turn: &Turn) -> bool
        ensures { let b = parts_of self.now in
            result ≡ fits_kinds (kinds_where b held) (move_of turn.now).to (kinds_at b turn.now.next) }
    {
        let reaches_held = match self.states.get(turn.next as usize) {
            Some(state) => state.held,
            None => false,
        };
        turn.fits(self.kinds(held), self.kinds(reaches_held))
    }

    /// The kinds of the registers in a held or in a free state.
    pub(crate) fn kinds(&self, held: bool) -> Kinds
        ensures { kinds_of result ≡ kinds_where (parts_of self.now) held }
    {
        Kinds {
            c: if held {
                RegKind::Int
            } else {
                RegKind::of(self.start.c)
            },
            e: RegKind::of(self.start.e),
            d: RegKind::of(self.start.d),
            f: RegKind::of(self.start.f),
            r: RegKind::of(self.start.r),
        }
    }

    /// Whether the finish expression reads no cell, and has a kind in free states and in held ones.
    #[tactic(auto, using(crate::proofs::Lists::mapped))]
    fn is_finish_typed(&self) -> bool
        ensures { result ≡ is_finish_typed (parts_of self.now) }
    {
        self.finish.reads_registers()
            && self.finish.kind(self.kinds(false)).is_some()
            && self.is_finish_typed_where_held()
    }

    /// Whether there is no held state, or the finish expression has a kind in one.
    #[tactic(auto, using(crate::proofs::Lists::mapped))]
    fn is_finish_typed_where_held(&self) -> bool
        ensures { result ≡ is_finish_typed_where_held (parts_of self.now) }
    {
        !has_held(&self.states) || self.finish.kind(self.kinds(true)).is_some()
    }
}

/// Whether a state is held.
fn has_held(states: &[State]) -> bool
    ensures { result ≡ list_any (λ s. s.held) states.now }
{
    states.iter().any(|state| state.held)
}

impl Turn {
    /// Whether the new values have the new kinds, where the old ones have the old kinds.
    fn fits(&self, old: Kinds, new: Kinds) -> bool
        ensures { result ≡ fits_kinds (kinds_of old) (move_of self.now).to (kinds_of new) }
    {
        self.c.fits(old, new.c)
            && self.e.fits(old, new.e)
            && self.d.fits(old, new.d)
            && self.f.fits(old, new.f)
            && self.r.fits(old, new.r)
    }
}

impl Expr {
    /// Whether the expression has a kind, and that is within the other.
    fn fits(&self, old: Kinds, new: RegKind) -> bool
        ensures { result ≡ fits_kind (formula_kind (kinds_of old) (formula self.now)) new }
    {
        match self.kind(old) {
            Some(kind) => kind.is_within(new),
            None => false,
        }
    }

    /// The kind of the expression over registers of these kinds. None where it is against the typing.
    fn kind(&self, of: Kinds) -> Option<RegKind>
        ensures { result ≡ formula_kind (kinds_of of) (formula self.now) }
    {
        match self {
            Expr::C => Some(of.c),
            Expr::E => Some(of.e),
            Expr::D => Some(of.d),
            Expr::F => Some(of.f),
            Expr::R => Some(of.r),
            Expr::This | Expr::Next | Expr::Zero | Expr::Unit => Some(RegKind::Int),
            Expr::NegInf => Some(RegKind::Low),
            Expr::PosInf => Some(RegKind::High),
            Expr::Add(a, b) => RegKind::joined(Operator::Fold(Op::Add), a.kind(of)?, b.kind(of)?),
            Expr::Sub(a, b) => RegKind::joined(Operator::Sub, a.kind(of)?, b.kind(of)?),
            Expr::Max(a, b) => RegKind::joined(Operator::Fold(Op::Max), a.kind(of)?, b.kind(of)?),
            Expr::Min(a, b) => RegKind::joined(Operator::Fold(Op::Min), a.kind(of)?, b.kind(of)?),
        }
    }

    /// Whether neither the cell nor the next one stands in it.
    fn reads_registers(&self) -> bool
        ensures { result ≡ reads_registers (formula self.now) }
    {
        match self {
            Expr::This | Expr::Next => false,
            Expr::Add(a, b) | Expr::Sub(a, b) | Expr::Max(a, b) | Expr::Min(a, b) => {
                a.reads_registers() && b.reads_registers()
            }
            _ => true,
        }
    }
}
