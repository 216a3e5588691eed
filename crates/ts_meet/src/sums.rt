//! Operators on ends: with the sums of the lanes, which small numbers allow, or with clamped sums of any numbers.

ghost use Rattle.std.specs.Prelude.{◌≡◌, true};
ghost use Rattle.ts_automaton.specs.declared.expr.Operator.TheVariants.{Sub};
ghost use Rattle.ts_base.specs.Limits.{IsCellValue};
ghost use Rattle.ts_meet.specs.Sides.{
  IsHighest,
  IsInfinity,
  IsLowest,
  IsNeutral,
  TakesNear,
  TakesPlain,
  is_far,
  plain_by,
};
ghost use Rattle.ts_sweep.specs.Operators.{crossed};
ghost use Rattle.ts_sweep.specs.Packed.{number_ends};

use ts_automaton::{Op, Operator};
use ts_sweep::operator::{Greater, Lesser, Minus, Operator as OnEnds, Plus};
use ts_sweep::packed::Ends;
use ts_sweep::tree::AnyOperator;

/// What the operators of expressions make of ends.
pub(crate) trait Sums: Copy {
    ghost use Rattle.std.specs.Prelude.{◌≡◌, ℤ};
    ghost use Rattle.ts_base.specs.declared.ext.Ext.TheVariants.{Int};
    ghost use Rattle.ts_base.specs.declared.span.Span.{Span};
    ghost use Rattle.ts_base.specs.Limits.{IsCellValue};
    ghost use Rattle.ts_base.specs.Spans.{one_span};
    ghost use Rattle.ts_automaton.specs.declared.expr.Operator.{Operator};
    ghost use Rattle.ts_automaton.specs.declared.expr.Operator.TheVariants.{Fold};
    ghost use Rattle.ts_base.specs.declared.op.Op.TheVariants.{Min};
    ghost use Rattle.ts_automaton.specs.Registers.{Values};
    ghost use Rattle.ts_hull.specs.Sealed.{sealed_op};
    ghost use Rattle.ts_sweep.specs.declared.packed.Ends.{Ends};
    ghost use Rattle.ts_sweep.specs.Packed.{IsPackOf};

    ghost values: { Values Ends };

    ghost takes: { Operator → Ends → Ends → Type 0 };

    /// What an operator makes of ends that it takes.
    fn joined(operator: Operator, first: Ends, second: Ends) -> Ends
        requires { takes operator first second }
        ensures { result ≡ values.join operator first second };

    /// The lesser of ends.
    fn least(first: Ends, second: Ends) -> Ends
        requires { takes (Fold Min) first second }
        ensures { result ≡ values.join (Fold Min) first second };

    /// The ends of a number.
    fn number(x: i64) -> Ends
        requires { IsCellValue x }
        ensures { result ≡ values.constant (Int x) };

    ghost number_packs: { (x : ℤ) → IsCellValue x → IsPackOf (values.constant (Int x)) (one_span (Int x)) };

    ghost packs: { (o : Operator) (a b : Ends) (s t : Span) → takes o a b → IsPackOf a s → IsPackOf b t →
        IsPackOf (values.join o a b) (sealed_op o s t) };
}

/// Sums of small numbers.
#[derive(Clone, Copy)]
pub(crate) struct Plain;

/// Sums of small numbers, where nothing is taken away from an infinity.
#[derive(Clone, Copy)]
pub(crate) struct Near;

/// Sums of any numbers, which are clamped and know infinities.
#[derive(Clone, Copy)]
pub(crate) struct Clamped;

/// The ends of a number.
#[inline(always)]
fn number(x: i64) -> Ends
    requires { IsCellValue x }
    ensures { result ≡ number_ends x }
{
    Ends {
        below: -x,
        above: x,
    }
}

/// Ends with lower and upper exchanged: those of what is taken away.
#[inline(always)]
pub(crate) fn crossed(e: Ends) -> Ends
    ensures { result ≡ crossed e }
{
    Ends {
        below: e.above,
        above: e.below,
    }
}

/// The first less the second, a small number. One infinity stays: it stands for what is held of an occurrence where
/// none is open.
#[inline(always)]
fn less(first: Ends, second: Ends) -> Ends
    requires { TakesPlain Sub first second }
    ensures { result ≡ plain_by Sub first second }
{
    if is_far(first) {
        first
    } else {
        Minus.of(first, second)
    }
}

/// The first less the second, both small numbers.
#[inline(always)]
pub(crate) fn less_near(first: Ends, second: Ends) -> Ends
    requires { TakesNear Sub first second }
    ensures { result ≡ plain_by Sub first second }
{
    Minus.of(first, second)
}

/// Whether an end is infinite outwards.
#[inline(always)]
fn is_far(e: Ends) -> bool
    ensures { result ≡ is_far e }
{
    i64::MAX <= e.below.max(e.above)
}

/// Whether both ends are one infinity.
#[inline(always)]
pub(crate) fn is_infinity(e: Ends) -> bool
    ensures { result ≡ true → IsInfinity e }
{
    is_low(e) || is_high(e)
}

/// Whether both ends are the infinity that an operator passes over.
#[inline(always)]
pub(crate) fn is_neutral(operator: Op, e: Ends) -> bool
    ensures { result ≡ true → IsNeutral operator e }
{
    match operator {
        Op::Add => false,
        Op::Max => is_low(e),
        Op::Min => is_high(e),
    }
}

/// Whether both ends are minus infinity.
#[inline(always)]
fn is_low(e: Ends) -> bool
    ensures { result ≡ true → IsLowest e }
{
    e.below == i64::MAX && e.above == -i64::MAX
}

/// Whether both ends are infinity.
#[inline(always)]
fn is_high(e: Ends) -> bool
    ensures { result ≡ true → IsHighest e }
{
    e.below == -i64::MAX && e.above == i64::MAX
}

impl Sums for Plain {
    ghost use Rattle.ts_meet.specs.Sides.{TakesPlain, plain_values};
    ghost use Rattle.ts_meet.specs.SideLaws.{cell_packs, plain_packs};

    ghost values = { plain_values };

    ghost takes = { TakesPlain };

    ghost number_packs = { λ x h. cell_packs x h };

    ghost packs = { λ o a b s t h p q. plain_packs o a b s t h p q };

    #[inline(always)]
    fn joined(operator: Operator, first: Ends, second: Ends) -> Ends {
        match operator {
            Operator::Fold(Op::Add) => Plus.of(first, second),
            Operator::Fold(Op::Max) => Greater.of(first, second),
            Operator::Fold(Op::Min) => Lesser.of(first, second),
            Operator::Sub => less(first, second),
        }
    }

    #[inline(always)]
    fn least(first: Ends, second: Ends) -> Ends {
        Lesser.of(first, second)
    }

    #[inline(always)]
    fn number(x: i64) -> Ends {
        number(x)
    }
}

impl Sums for Near {
    ghost use Rattle.ts_meet.specs.Sides.{TakesNear, plain_values};
    ghost use Rattle.ts_meet.specs.SideLaws.{cell_packs, plain_packs};

    ghost values = { plain_values };

    ghost takes = { TakesNear };

    ghost number_packs = { λ x h. cell_packs x h };

    ghost packs = { λ o a b s t h p q. plain_packs o a b s t h.0 p q };

    #[inline(always)]
    fn joined(operator: Operator, first: Ends, second: Ends) -> Ends {
        match operator {
            Operator::Fold(Op::Add) => Plus.of(first, second),
            Operator::Fold(Op::Max) => Greater.of(first, second),
            Operator::Fold(Op::Min) => Lesser.of(first, second),
            Operator::Sub => less_near(first, second),
        }
    }

    #[inline(always)]
    fn least(first: Ends, second: Ends) -> Ends {
        Lesser.of(first, second)
    }

    #[inline(always)]
    fn number(x: i64) -> Ends {
        number(x)
    }
}

impl Sums for Clamped {
    ghost use Rattle.ts_meet.specs.Sides.{TakesAny, clamped_values};
    ghost use Rattle.ts_meet.specs.SideLaws.{cell_packs, clamped_packs};

    ghost values = { clamped_values };

    ghost takes = { TakesAny };

    ghost number_packs = { λ x h. cell_packs x h };

    ghost packs = { λ o a b s t h p q. clamped_packs o a b s t p q };

    #[inline(always)]
    fn joined(operator: Operator, first: Ends, second: Ends) -> Ends {
        match operator {
            Operator::Fold(op) => AnyOperator { op }.of(first, second),
            Operator::Sub => AnyOperator { op: Op::Add }.of(first, crossed(second)),
        }
    }

    #[inline(always)]
    fn least(first: Ends, second: Ends) -> Ends {
        Lesser.of(first, second)
    }

    #[inline(always)]
    fn number(x: i64) -> Ends {
        number(x)
    }
}
