//! Operators that fold cells: types where they are known, so that a fold looks none up.

ghost use Rattle.std.specs.Prelude.{◌≡◌, neg_ℤ};
ghost use Rattle.ts_base.specs.Limits.{IsCellValue};

use crate::sums::{Near, Sums};
use ts_automaton::{Op, Operator};
use ts_sweep::operator::{Greater, Lesser, Operator as OnEnds, Plus};
use ts_sweep::packed::Ends;

/// An operator that folds cells with the sums `S`.
pub(crate) trait Folding<S: Sums>: Copy {
    ghost use Rattle.std.specs.Prelude.{◌≡◌, neg_ℤ};
    ghost use Rattle.ts_base.specs.declared.ext.Ext.TheVariants.{Int};
    ghost use Rattle.ts_base.specs.Limits.{IsCellValue};
    ghost use Rattle.ts_automaton.specs.declared.expr.Operator.TheVariants.{Fold};
    ghost use Rattle.ts_base.specs.declared.op.Op.{Op};
    ghost use Rattle.ts_base.specs.declared.op.Op.TheVariants.{Add};
    ghost use Rattle.ts_meet.specs.Joints.{once};

    /// The operator.
    ghost fold: { Self → Op };

    /// What it makes of ends that it takes.
    fn folded(self, first: Ends, second: Ends) -> Ends
        requires { S.takes (Fold (fold self)) first second }
        ensures { result ≡ S.values.join (Fold (fold self)) first second };

    /// What both sides have folded, less what the cell is worth where that would count twice.
    fn once(self, both: Ends, worth: i64) -> Ends
        requires takes { fold self ≡ Add → S.takes (Fold Add) both (S.values.constant (Int (neg_ℤ worth))) }
        requires worth { IsCellValue worth }
        ensures { result ≡ once S.values (fold self) both (S.values.constant (Int (neg_ℤ worth))) };
}

impl<S: Sums> Folding<S> for Op {
    ghost fold = { λ o. o };

    #[inline(always)]
    fn folded(self, first: Ends, second: Ends) -> Ends {
        S::joined(Operator::Fold(self), first, second)
    }

    #[inline(always)]
    fn once(self, both: Ends, worth: i64) -> Ends {
        match self {
            Op::Add => S::joined(Operator::Fold(Op::Add), both, S::number(opposite(worth))),
            Op::Max | Op::Min => both,
        }
    }
}

impl Folding<Near> for Plus {
    ghost use Rattle.ts_base.specs.declared.op.Op.TheVariants.{Add};

    ghost fold = { λ k. Add };

    #[inline(always)]
    fn folded(self, first: Ends, second: Ends) -> Ends {
        self.of(first, second)
    }

    #[inline(always)]
    fn once(self, both: Ends, worth: i64) -> Ends {
        Near::joined(Operator::Fold(Op::Add), both, Near::number(opposite(worth)))
    }
}

impl Folding<Near> for Greater {
    ghost use Rattle.ts_base.specs.declared.op.Op.TheVariants.{Max};

    ghost fold = { λ k. Max };

    #[inline(always)]
    fn folded(self, first: Ends, second: Ends) -> Ends {
        self.of(first, second)
    }

    #[inline(always)]
    fn once(self, both: Ends, worth: i64) -> Ends {
        both
    }
}

impl<S: Sums> Folding<S> for Lesser {
    ghost use Rattle.ts_base.specs.declared.op.Op.TheVariants.{Min};

    ghost fold = { λ k. Min };

    #[inline(always)]
    fn folded(self, first: Ends, second: Ends) -> Ends {
        S::least(first, second)
    }

    #[inline(always)]
    fn once(self, both: Ends, worth: i64) -> Ends {
        both
    }
}

/// The opposite of what a cell is worth.
#[inline(always)]
fn opposite(worth: i64) -> i64
    requires { IsCellValue worth }
    ensures value { result ≡ neg_ℤ worth }
    ensures cell { IsCellValue result }
{
    -worth
}
