//! What glued values are made of: numbers, or spans of numbers.

ghost use Rattle.std.specs.Prelude.{◌≡◌, pos};
ghost use Rattle.ts_automaton.specs.Kinds.{Fits, SpansFit};
ghost use Rattle.ts_automaton.specs.Registers.{Values, numbers, regs_of, spans, spans_of, value_in};
ghost use Rattle.ts_automaton.specs.declared.expr.Operator.{Operator};
ghost use Rattle.ts_base.specs.declared.ext.Ext.TheVariants.{Int};
ghost use Rattle.ts_glue.specs.Glue.{held_in, open_in, registers_in};

use ts_automaton::{Hull, Operator, Regs};
use ts_base::{Ext, Span};

/// What the operators of expressions take.
pub(crate) trait Operand: Copy {
    ghost values: { Values Self };

    ghost takes: { Operator → Self → Self → Type 0 };

    /// What an operator makes of two that it takes.
    fn joined(operator: Operator, first: Self, second: Self) -> Self
        requires { takes operator first second }
        ensures { result ≡ values.join operator first second };

    /// A number.
    fn number(x: i64) -> Self
        ensures { result ≡ values.constant (Int x) };
}

impl Operand for Ext {
    ghost values = { numbers };

    ghost takes = { Fits };

    fn joined(operator: Operator, first: Ext, second: Ext) -> Ext {
        operator.applied(first, second)
    }

    fn number(x: i64) -> Ext {
        Ext::Int(x)
    }
}

impl Operand for Span {
    ghost values = { spans };

    ghost takes = { SpansFit };

    fn joined(operator: Operator, first: Span, second: Span) -> Span {
        operator.applied_to_spans(first, second)
    }

    fn number(x: i64) -> Span {
        Span::one(Ext::Int(x))
    }
}

/// A part of what is folded of an occurrence: the whole of it, in C and D, and what is taken away from it in a wide
/// automaton, in E and F.
#[derive(Clone, Copy, Debug, PartialEq, Eq)]
pub enum Part {
    Whole,
    Away,
}

/// The registers on one side of a cell.
#[derive(Clone, Copy)]
pub(crate) struct Side<V> {
    pub(crate) c: V,
    pub(crate) e: V,
    pub(crate) d: V,
    pub(crate) f: V,
    pub(crate) r: V,
}

impl Side<Ext> {
    /// The registers of a run.
    pub(crate) fn of_run(regs: Regs) -> Side<Ext>
        ensures { registers_in result ≡ regs_of regs }
    {
        Side {
            c: regs.c,
            e: regs.e,
            d: regs.d,
            f: regs.f,
            r: regs.r,
        }
    }
}

impl Side<Span> {
    /// The registers of all runs in a hull.
    pub(crate) fn of_hull(hull: Hull) -> Side<Span>
        ensures { registers_in result ≡ spans_of hull }
    {
        Side {
            c: hull.c,
            e: hull.e,
            d: hull.d,
            f: hull.f,
            r: hull.r,
        }
    }
}

impl<V: Operand> Side<V> {
    /// What is held of a part.
    pub(crate) fn held(self, part: Part) -> V
        ensures { result ≡ value_in V.values (registers_in self) (pos 0) (pos 0) (held_in part) }
    {
        match part {
            Part::Whole => self.c,
            Part::Away => self.e,
        }
    }

    /// What may come to it.
    pub(crate) fn open(self, part: Part) -> V
        ensures { result ≡ value_in V.values (registers_in self) (pos 0) (pos 0) (open_in part) }
    {
        match part {
            Part::Whole => self.d,
            Part::Away => self.f,
        }
    }
}
