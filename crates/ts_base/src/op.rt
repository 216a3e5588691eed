//! Operators over two numbers.

ghost use Rattle.std.specs.Prelude.{◌≡◌, IsTrue};
ghost use Rattle.ts_base.specs.Operators.{ext_op};
ghost use Rattle.ts_base.specs.Spans.{end_by_end, has_some};

use crate::ext::Ext;
use crate::span::Span;

/// An operator over two numbers: their sum, the greater or the lesser of the two.
#[derive(Clone, Copy, Debug, PartialEq, Eq)]
pub enum Op {
    Add,
    Max,
    Min,
}

impl Op {
    /// What it makes of two numbers.
    pub fn applied(self, a: Ext, b: Ext) -> Ext
        ensures { result ≡ ext_op self a b }
    {
        match self {
            Op::Add => a.plus(b),
            Op::Max => a.greater(b),
            Op::Min => a.lesser(b),
        }
    }

    /// What it makes of two spans, end by end. Neither is none.
    #[tactic(auto, using(crate::proofs::SpanLaws::lifted_ends))]
    pub fn applied_to_spans(self, s: Span, t: Span) -> Span
        requires { IsTrue (has_some s) × IsTrue (has_some t) }
        ensures { result ≡ end_by_end (ext_op self) s t }
    {
        Span {
            lo: self.applied(s.lo, t.lo),
            hi: self.applied(s.hi, t.hi),
        }
    }
}
