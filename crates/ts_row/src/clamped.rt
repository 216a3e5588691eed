//! Operators as types whose sums are clamped: they serve hulls in whose registers infinities or large numbers lie.

use ts_automaton::Op;
use ts_sweep::operator::Operator;
use ts_sweep::packed::Ends;
use ts_sweep::tree::AnyOperator;

/// The sum, clamped.
#[derive(Clone, Copy)]
pub(crate) struct ClampedPlus;

/// The first operand less the second, clamped.
#[derive(Clone, Copy)]
pub(crate) struct ClampedMinus;

impl Operator for ClampedPlus {
    ghost use Rattle.std.specs.Prelude.{false};
    ghost use Rattle.ts_automaton.specs.declared.expr.Operator.TheVariants.{Fold};
    ghost use Rattle.ts_base.specs.declared.op.Op.TheVariants.{Add};
    ghost use Rattle.ts_sweep.specs.Trees.{folded_by};
    ghost use Rattle.ts_sweep.specs.TreeLaws.{any_packs, any_within};

    ghost op = { λ k. Fold Add };

    ghost adds = { λ k. false };

    ghost joined = { λ k a b. folded_by Add a b };

    ghost packs = { λ k s i j a b t u serves few small p q. any_packs Add s a b t u p q };

    ghost within = { λ k i j a b few p q. any_within Add i j a b few p q };

    #[inline(always)]
    fn is_sum(self) -> bool {
        false
    }

    #[inline(always)]
    fn is_difference(self) -> bool {
        false
    }

    #[inline(always)]
    fn of(self, a: Ends, b: Ends) -> Ends {
        AnyOperator { op: Op::Add }.of(a, b)
    }
}

impl Operator for ClampedMinus {
    ghost use Rattle.std.specs.Prelude.{false};
    ghost use Rattle.ts_automaton.specs.declared.expr.Operator.TheVariants.{Sub};
    ghost use Rattle.ts_row.specs.ClampedLaws.{clamped_less_packs, clamped_less_within};
    ghost use Rattle.ts_sweep.specs.Trees.{joined_by};

    ghost op = { λ k. Sub };

    ghost adds = { λ k. false };

    ghost joined = { λ k a b. joined_by Sub a b };

    ghost packs = { λ k s i j a b t u serves few small p q. clamped_less_packs s a b t u serves p q };

    ghost within = { λ k i j a b few p q. clamped_less_within i j a b few p q };

    #[inline(always)]
    fn is_sum(self) -> bool {
        false
    }

    #[inline(always)]
    fn is_difference(self) -> bool {
        true
    }

    #[inline(always)]
    fn of(self, a: Ends, b: Ends) -> Ends {
        let negated = Ends {
            below: b.above,
            above: b.below,
        };
        AnyOperator { op: Op::Add }.of(a, negated)
    }
}
