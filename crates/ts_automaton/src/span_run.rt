//! Runs over hulls: a span for each register.

ghost use Rattle.std.specs.Prelude.{◌≡◌, IsTrue, not, pos, if◌then◌else◌};
ghost use Rattle.ts_automaton.specs.Body.{move_of};
ghost use Rattle.ts_automaton.specs.Formula.{formula};
ghost use Rattle.ts_automaton.specs.Kinds.{SpansFit};
ghost use Rattle.ts_automaton.specs.Registers.{Takes, TakesAll, regs_of, spans, spans_of, value_in};
ghost use Rattle.ts_automaton.specs.SpanRun.{HullStands, finish_span_of, has_registers, hull_standing, marked_span, moved_hull, none_hull, one_hull, span_step};
ghost use Rattle.ts_base.specs.Spans.{none_span};

use crate::automaton::Automaton;
use crate::differences::difference_span;
use crate::expr::Expr;
use crate::regs::{Hull, HullAt, Regs};
use crate::state::{Mark, Turn};
use ts_base::{Ext, Op, Span, letter_of};

impl Hull {
    /// The form of every hull that holds no registers.
    pub fn none() -> Hull
        ensures { spans_of result ≡ none_hull }
    {
        Hull {
            c: Span::none(),
            e: Span::none(),
            d: Span::none(),
            f: Span::none(),
            r: Span::none(),
        }
    }

    /// The hull of these registers alone.
    pub fn one(regs: Regs) -> Hull
        ensures { spans_of result ≡ one_hull (regs_of regs) }
    {
        Hull {
            c: Span::one(regs.c),
            e: Span::one(regs.e),
            d: Span::one(regs.d),
            f: Span::one(regs.f),
            r: Span::one(regs.r),
        }
    }

    /// Whether no registers lie in the hull. All five spans are read, without a branch: this is asked of every hull.
    pub fn is_none(&self) -> bool
        ensures { result ≡ not (has_registers (spans_of self.now)) }
    {
        self.c.is_none() | self.e.is_none() | self.d.is_none() | self.f.is_none() | self.r.is_none()
    }
}

impl Automaton {
    /// The move of two neighbouring cells on a hull. A hull that is none stays none.
    pub fn eval_span(&self, at: HullAt, this: i64, next: i64) -> HullAt
        requires { HullStands self.now (hull_standing at) }
        ensures value { hull_standing result ≡ span_step self.now (hull_standing at) this next }
        ensures stands { HullStands self.now (hull_standing result) }
    {
        let turn = self.turn(at.state, letter_of(this, next));
        HullAt {
            state: turn.next,
            hull: turn.moved_hull(&at.hull, this, next),
        }
    }

    /// The span of the answers after a series of `n` cells: the mark is applied to both ends, and the hull of the two
    /// is taken. That of a hull that is none is none.
    pub fn finish_span(&self, at: HullAt, n: u32) -> Span
        requires { HullStands self.now (hull_standing at) }
        ensures { result ≡ finish_span_of self.now (hull_standing at) n }
    {
        let finish = self.finish_expr();
        self.mark().applied_to_span(finish.finished(&at.hull), n)
    }
}

impl Turn {
    /// The hull after the move. A hull that is none stays none.
    fn moved_hull(&self, hull: &Hull, this: i64, next: i64) -> Hull
        requires { let h = spans_of hull.now in
            IsTrue (has_registers h) → TakesAll SpansFit spans h this next (move_of self.now).to }
        ensures { spans_of result ≡ moved_hull (spans_of hull.now) this next (move_of self.now) }
    {
        if hull.is_none() {
            return Hull::none();
        }
        Hull {
            c: self.c.span(hull, this, next),
            e: self.e.span(hull, this, next),
            d: self.d.span(hull, this, next),
            f: self.f.span(hull, this, next),
            r: self.r.span(hull, this, next),
        }
    }
}

impl Expr {
    /// The span of a finish expression, which reads no cell; none where the hull is none.
    fn finished(&self, hull: &Hull) -> Span
        requires { let h = spans_of hull.now in
            IsTrue (has_registers h) → Takes SpansFit spans h (pos 0) (pos 0) (formula self.now) }
        ensures { result ≡ (if has_registers (spans_of hull.now)
            then value_in spans (spans_of hull.now) (pos 0) (pos 0) (formula self.now) else none_span) }
    {
        if hull.is_none() {
            return Span::none();
        }
        self.span(hull, 0, 0)
    }

    /// Its span; each operator in it meets two spans that it takes.
    fn span(&self, hull: &Hull, this: i64, next: i64) -> Span
        requires { Takes SpansFit spans (spans_of hull.now) this next (formula self.now) }
        ensures { result ≡ value_in spans (spans_of hull.now) this next (formula self.now) }
    {
        match self {
            Expr::C => hull.c,
            Expr::E => hull.e,
            Expr::D => hull.d,
            Expr::F => hull.f,
            Expr::R => hull.r,
            Expr::This => Span::one(Ext::Int(this)),
            Expr::Next => Span::one(Ext::Int(next)),
            Expr::Zero => Span::one(Ext::Int(0)),
            Expr::Unit => Span::one(Ext::Int(1)),
            Expr::NegInf => Span::one(Ext::NegInf),
            Expr::PosInf => Span::one(Ext::PosInf),
            Expr::Add(a, b) => Op::Add.applied_to_spans(
                a.span(hull, this, next),
                b.span(hull, this, next),
            ),
            Expr::Sub(a, b) => {
                difference_span(a.span(hull, this, next), b.span(hull, this, next))
            }
            Expr::Max(a, b) => Op::Max.applied_to_spans(
                a.span(hull, this, next),
                b.span(hull, this, next),
            ),
            Expr::Min(a, b) => Op::Min.applied_to_spans(
                a.span(hull, this, next),
                b.span(hull, this, next),
            ),
        }
    }
}

impl Mark {
    /// What becomes of a span of answers after `n` cells.
    pub fn applied_to_span(self, answers: Span, n: u32) -> Span
        ensures { result ≡ marked_span self n answers }
    {
        if answers.is_none() {
            return Span::none();
        }
        Span::one(self.applied(answers.lo, n)).hull(Span::one(self.applied(answers.hi, n)))
    }
}
