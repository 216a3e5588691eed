//! Differences of numbers and of spans, and what an operator of expressions makes of two.

ghost use Rattle.std.specs.Prelude.{◌≡◌, IsTrue};
ghost use Rattle.ts_base.specs.Spans.{has_some};
ghost use Rattle.ts_automaton.specs.Differences.{difference, difference_span, number_op, span_op};

use crate::expr::Operator;
use ts_base::{Ext, Span};

/// The difference of two numbers lies from -`CLAMP` to `CLAMP`, as a sum does.
const CLAMP: i64 = 100_000_000_000_000_000;

/// `x` less `y`: of two numbers their difference, clamped at -10^17 and 10^17; else `NegInf` where `x` is `NegInf` or
/// `y` is `PosInf`; else `PosInf`.
pub fn difference(x: Ext, y: Ext) -> Ext
    ensures { result ≡ difference x y }
{
    match (x, y) {
        (Ext::NegInf, _) | (_, Ext::PosInf) => Ext::NegInf,
        (Ext::PosInf, _) | (_, Ext::NegInf) => Ext::PosInf,
        (Ext::Int(x), Ext::Int(y)) => Ext::Int(x.saturating_sub(y).clamp(-CLAMP, CLAMP)),
    }
}

/// From the least to the greatest difference of a number of `x` and one of `y`; none where one is none.
pub fn difference_span(x: Span, y: Span) -> Span
    ensures { result ≡ difference_span x y }
{
    if x.is_none() || y.is_none() {
        return Span::none();
    }
    Span {
        lo: difference(x.lo, y.hi),
        hi: difference(x.hi, y.lo),
    }
}

impl Operator {
    /// What it makes of two numbers.
    pub fn applied(self, a: Ext, b: Ext) -> Ext
        ensures { result ≡ number_op self a b }
    {
        match self {
            Operator::Fold(op) => op.applied(a, b),
            Operator::Sub => difference(a, b),
        }
    }

    /// What it makes of two spans. Neither is none.
    pub fn applied_to_spans(self, s: Span, t: Span) -> Span
        requires { IsTrue (has_some s) × IsTrue (has_some t) }
        ensures { result ≡ span_op self s t }
    {
        match self {
            Operator::Fold(op) => op.applied_to_spans(s, t),
            Operator::Sub => difference_span(s, t),
        }
    }
}
