//! Operators on ends, as types.

ghost use Rattle.std.specs.Prelude.{◌≡◌, true};
ghost use Rattle.ts_sweep.specs.Operators.{crossed};
ghost use Rattle.ts_sweep.specs.Packed.{AreWithin};

use crate::packed::Ends;

/// An operator, as a type: what it makes of two ends is then a constant of a sweep.
pub trait Operator: Copy {
    ghost use Rattle.std.specs.Prelude.{◌≡◌, ℕ, ◌+◌, ◌≤◌, Bool, true};
    ghost use Rattle.ts_base.specs.declared.span.Span.{Span};
    ghost use Rattle.ts_automaton.specs.declared.expr.Operator.{Operator};
    ghost use Rattle.ts_hull.specs.Sealed.{sealed_op};
    ghost use Rattle.ts_sweep.specs.declared.packed.Ends.{Ends};
    ghost use Rattle.ts_sweep.specs.Fronts.{Serves, is_sub};
    ghost use Rattle.ts_sweep.specs.Packed.{AreWithin};
    ghost use Rattle.ts_sweep.specs.Sides.{IsEndsOf, Sides};

    /// The operator.
    ghost op: { Self → Operator };

    /// That the operator adds: then its operands have to be small numbers.
    ghost adds: { Self → Bool };

    /// What the operator makes of ends.
    ghost joined: { Self → Ends → Ends → Ends };

    /// Whether the operator adds.
    fn is_sum(self) -> bool
        ensures { result ≡ adds self };

    /// Whether the operator is the difference.
    fn is_difference(self) -> bool
        ensures { result ≡ is_sub (op self) };

    /// The operator on two ends.
    fn of(self, a: Ends, b: Ends) -> Ends
        requires first { adds self ≡ true → AreWithin 9 a }
        requires second { adds self ≡ true → AreWithin 9 b }
        ensures { result ≡ joined self a b };

    ghost packs: { (k : Self) (s : Sides) (i j : ℕ) (a b : Ends) (t u : Span) → Serves s (op k) → i + j ≤ 10 →
        (adds k ≡ true → AreWithin i a × AreWithin j b) →
        IsEndsOf s a t → IsEndsOf s b u → IsEndsOf s (joined k a b) (sealed_op (op k) t u) };

    ghost within: { (k : Self) (i j : ℕ) (a b : Ends) → i + j ≤ 10 → AreWithin i a → AreWithin j b →
        AreWithin (i + j) (joined k a b) };
}

/// An operator that may take the next cell as its last operand: any but the difference.
pub trait Folds: Operator {
    ghost use Rattle.std.specs.Prelude.{◌≡◌};
    ghost use Rattle.ts_base.specs.declared.op.Op.{Op};
    ghost use Rattle.ts_automaton.specs.declared.expr.Operator.TheVariants.{Fold};

    /// The operator.
    ghost fold: { Self → Op };

    ghost folds: { (k : Self) → Self.op k ≡ Fold (fold k) };
}

/// The sum.
#[derive(Clone, Copy)]
pub struct Plus;

/// The first operand less the second.
#[derive(Clone, Copy)]
pub struct Minus;

/// The greater operand.
#[derive(Clone, Copy)]
pub struct Greater;

/// The lesser operand.
#[derive(Clone, Copy)]
pub struct Lesser;

impl Operator for Plus {
    ghost use Rattle.std.specs.Prelude.{true};
    ghost use Rattle.ts_automaton.specs.declared.expr.Operator.TheVariants.{Fold};
    ghost use Rattle.ts_base.specs.declared.op.Op.TheVariants.{Add};
    ghost use Rattle.ts_sweep.specs.Operators.{sum_of_ends};
    ghost use Rattle.ts_sweep.specs.OperatorLaws.{sum_packs, sum_within};

    ghost op = { λ k. Fold Add };

    ghost adds = { λ k. true };

    ghost joined = { λ k a b. sum_of_ends a b };

    ghost packs = { λ k s i j a b t u serves few small p q. sum_packs s i j a b t u few small p q };

    ghost within = { λ k i j a b few p q. sum_within i j a b p q };

    #[inline(always)]
    fn is_sum(self) -> bool {
        true
    }

    #[inline(always)]
    fn is_difference(self) -> bool {
        false
    }

    #[inline(always)]
    fn of(self, a: Ends, b: Ends) -> Ends {
        Ends {
            below: a.below + b.below,
            above: a.above + b.above,
        }
    }
}

impl Folds for Plus {
    ghost use Rattle.std.proofs.Common.{refl};
    ghost use Rattle.ts_base.specs.declared.op.Op.TheVariants.{Add};

    ghost fold = { λ k. Add };

    ghost folds = { λ k. refl };
}

/// Ends with lower and upper exchanged: those of the negated span.
#[inline(always)]
pub(crate) fn crossed(e: Ends) -> Ends
    ensures { result ≡ crossed e }
{
    Ends {
        below: e.above,
        above: e.below,
    }
}

impl Operator for Minus {
    ghost use Rattle.std.specs.Prelude.{true};
    ghost use Rattle.ts_automaton.specs.declared.expr.Operator.TheVariants.{Sub};
    ghost use Rattle.ts_sweep.specs.Operators.{crossed, sum_of_ends};
    ghost use Rattle.ts_sweep.specs.OperatorLaws.{less_packs, less_within};

    ghost op = { λ k. Sub };

    ghost adds = { λ k. true };

    ghost joined = { λ k a b. sum_of_ends a (crossed b) };

    ghost packs = { λ k s i j a b t u serves few small p q. less_packs s i j a b t u serves few small p q };

    ghost within = { λ k i j a b few p q. less_within i j a b p q };

    #[inline(always)]
    fn is_sum(self) -> bool {
        true
    }

    #[inline(always)]
    fn is_difference(self) -> bool {
        true
    }

    #[inline(always)]
    fn of(self, a: Ends, b: Ends) -> Ends {
        Plus.of(a, crossed(b))
    }
}

impl Operator for Greater {
    ghost use Rattle.std.specs.Prelude.{false};
    ghost use Rattle.ts_automaton.specs.declared.expr.Operator.TheVariants.{Fold};
    ghost use Rattle.ts_base.specs.declared.op.Op.TheVariants.{Max};
    ghost use Rattle.ts_sweep.specs.Operators.{greater_of_ends};
    ghost use Rattle.ts_sweep.specs.OperatorLaws.{greater_packs, greater_within};

    ghost op = { λ k. Fold Max };

    ghost adds = { λ k. false };

    ghost joined = { λ k a b. greater_of_ends a b };

    ghost packs = { λ k s i j a b t u serves few small p q. greater_packs s a b t u p q };

    ghost within = { λ k i j a b few p q. greater_within i j a b p q };

    #[inline(always)]
    fn is_sum(self) -> bool {
        false
    }

    #[inline(always)]
    fn is_difference(self) -> bool {
        false
    }

    #[inline(always)]
    fn of(self, a: Ends, b: Ends) -> Ends {
        Ends {
            below: a.below.min(b.below),
            above: a.above.max(b.above),
        }
    }
}

impl Folds for Greater {
    ghost use Rattle.std.proofs.Common.{refl};
    ghost use Rattle.ts_base.specs.declared.op.Op.TheVariants.{Max};

    ghost fold = { λ k. Max };

    ghost folds = { λ k. refl };
}

impl Operator for Lesser {
    ghost use Rattle.std.specs.Prelude.{false};
    ghost use Rattle.ts_automaton.specs.declared.expr.Operator.TheVariants.{Fold};
    ghost use Rattle.ts_base.specs.declared.op.Op.TheVariants.{Min};
    ghost use Rattle.ts_sweep.specs.Operators.{lesser_of_ends};
    ghost use Rattle.ts_sweep.specs.OperatorLaws.{lesser_packs, lesser_within};

    ghost op = { λ k. Fold Min };

    ghost adds = { λ k. false };

    ghost joined = { λ k a b. lesser_of_ends a b };

    ghost packs = { λ k s i j a b t u serves few small p q. lesser_packs s a b t u p q };

    ghost within = { λ k i j a b few p q. lesser_within i j a b p q };

    #[inline(always)]
    fn is_sum(self) -> bool {
        false
    }

    #[inline(always)]
    fn is_difference(self) -> bool {
        false
    }

    #[inline(always)]
    fn of(self, a: Ends, b: Ends) -> Ends {
        Ends {
            below: a.below.max(b.below),
            above: a.above.min(b.above),
        }
    }
}

impl Folds for Lesser {
    ghost use Rattle.std.proofs.Common.{refl};
    ghost use Rattle.ts_base.specs.declared.op.Op.TheVariants.{Min};

    ghost fold = { λ k. Min };

    ghost folds = { λ k. refl };
}
