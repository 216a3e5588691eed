//! Runs over numbers.

ghost use Rattle.std.specs.Prelude.{◌≡◌};
ghost use Rattle.ts_automaton.specs.AutomatonRun.{Stands, finish_of, under_mark, registers_after, standing_of, start_of, step_of};
ghost use Rattle.ts_automaton.specs.Body.{move_of};
ghost use Rattle.ts_automaton.specs.Formula.{formula};
ghost use Rattle.ts_automaton.specs.Kinds.{Fits};
ghost use Rattle.ts_automaton.specs.Registers.{Takes, TakesAll, numbers, regs_of, value_in};

use crate::automaton::Automaton;
use crate::differences::difference;
use crate::expr::Expr;
use crate::regs::{At, Regs};
use crate::state::{Mark, Turn};
use ts_base::{Ext, Op, letter_of};

impl Automaton {
    /// The first state with the start constants.
    #[tactic(auto, using(crate::proofs::StepLaws::start_stands))]
    pub fn start(&self) -> At
        ensures value { standing_of result ≡ start_of self.now }
        ensures stands { Stands self.now (standing_of result) }
    {
        At {
            state: 0,
            regs: self.start_regs(),
        }
    }

    /// The move of two neighbouring cells.
    pub fn step(&self, at: At, this: i64, next: i64) -> At
        requires { Stands self.now (standing_of at) }
        ensures value { standing_of result ≡ step_of self.now (standing_of at) this next }
        ensures stands { Stands self.now (standing_of result) }
    {
        let turn = self.turn(at.state, letter_of(this, next));
        At {
            state: turn.next,
            regs: turn.moved(&at.regs, this, next),
        }
    }

    /// The answer after a series of `n` cells, under the mark.
    pub fn finish(&self, at: At, n: u32) -> Ext
        requires { Stands self.now (standing_of at) }
        ensures { result ≡ finish_of self.now (standing_of at) n }
    {
        self.mark()
            .applied(self.finish_expr().value(&at.regs, 0, 0), n)
    }
}

impl Turn {
    /// The registers after the move.
    fn moved(&self, regs: &Regs, this: i64, next: i64) -> Regs
        requires { TakesAll Fits numbers (regs_of regs.now) this next (move_of self.now).to }
        ensures { regs_of result ≡ registers_after numbers (regs_of regs.now) this next (move_of self.now) }
    {
        Regs {
            c: self.c.value(regs, this, next),
            e: self.e.value(regs, this, next),
            d: self.d.value(regs, this, next),
            f: self.f.value(regs, this, next),
            r: self.r.value(regs, this, next),
        }
    }
}

impl Expr {
    /// Its value; each operator in it meets two values that it takes.
    fn value(&self, regs: &Regs, this: i64, next: i64) -> Ext
        requires { Takes Fits numbers (regs_of regs.now) this next (formula self.now) }
        ensures { result ≡ value_in numbers (regs_of regs.now) this next (formula self.now) }
    {
        match self {
            Expr::C => regs.c,
            Expr::E => regs.e,
            Expr::D => regs.d,
            Expr::F => regs.f,
            Expr::R => regs.r,
            Expr::This => Ext::Int(this),
            Expr::Next => Ext::Int(next),
            Expr::Zero => Ext::Int(0),
            Expr::Unit => Ext::Int(1),
            Expr::NegInf => Ext::NegInf,
            Expr::PosInf => Ext::PosInf,
            Expr::Add(a, b) => Op::Add.applied(
                a.value(regs, this, next),
                b.value(regs, this, next),
            ),
            Expr::Sub(a, b) => difference(a.value(regs, this, next), b.value(regs, this, next)),
            Expr::Max(a, b) => Op::Max.applied(
                a.value(regs, this, next),
                b.value(regs, this, next),
            ),
            Expr::Min(a, b) => Op::Min.applied(
                a.value(regs, this, next),
                b.value(regs, this, next),
            ),
        }
    }
}

impl Mark {
    /// What becomes of an answer after `n` cells.
    pub fn applied(self, answer: Ext, n: u32) -> Ext
        ensures { result ≡ under_mark self n answer }
    {
        match (self, answer) {
            (Mark::Zero, Ext::NegInf) => Ext::Int(0),
            (Mark::Cells, Ext::PosInf) => Ext::Int(n as i64),
            _ => answer,
        }
    }
}
