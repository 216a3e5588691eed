//! Kinds of registers: which infinity may stand in one.

ghost use Rattle.std.specs.Prelude.{◌≡◌};
ghost use Rattle.ts_automaton.specs.Kinds.{is_within, kind_of, op_kind};

use crate::expr::Operator;
use ts_base::{Ext, Op};

/// What a register or an expression may be: numbers; numbers and -inf; numbers and +inf.
#[derive(Clone, Copy, Debug, PartialEq, Eq)]
pub enum RegKind {
    Int,
    Low,
    High,
}

/// The kind of each register.
#[derive(Clone, Copy)]
pub(crate) struct Kinds {
    pub(crate) c: RegKind,
    pub(crate) e: RegKind,
    pub(crate) d: RegKind,
    pub(crate) f: RegKind,
    pub(crate) r: RegKind,
}

impl RegKind {
    /// The narrowest kind of a value.
    pub(crate) fn of(e: Ext) -> RegKind
        ensures { result ≡ kind_of e }
    {
        match e {
            Ext::NegInf => RegKind::Low,
            Ext::Int(_) => RegKind::Int,
            Ext::PosInf => RegKind::High,
        }
    }

    /// Whether each value of this kind is one of the other.
    pub(crate) fn is_within(self, wider: RegKind) -> bool
        ensures { result ≡ is_within self wider }
    {
        self == RegKind::Int || self == wider
    }

    /// The kind of what an operator makes of two kinds. None where it doesn't take them.
    pub(crate) fn joined(operator: Operator, a: RegKind, b: RegKind) -> Option<RegKind>
        ensures { result ≡ op_kind operator a b }
    {
        match operator {
            Operator::Fold(Op::Add) => match (a, b) {
                (RegKind::Int, RegKind::Int) => Some(RegKind::Int),
                _ => None,
            },
            Operator::Fold(Op::Max) => match (a, b) {
                (RegKind::High, _) | (_, RegKind::High) => None,
                (RegKind::Low, RegKind::Low) => Some(RegKind::Low),
                _ => Some(RegKind::Int),
            },
            Operator::Fold(Op::Min) => match (a, b) {
                (RegKind::Low, _) | (_, RegKind::Low) => None,
                (RegKind::High, RegKind::High) => Some(RegKind::High),
                _ => Some(RegKind::Int),
            },
            Operator::Sub => match b {
                RegKind::Int => Some(a),
                _ => None,
            },
        }
    }
}
