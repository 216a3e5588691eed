//! Ends of spans that are enough for what is asked: whatever lies between, some number has it.

ghost use Rattle.std.specs.Prelude.{◌≡◌, IfSome};
ghost use Rattle.ts_base.specs.declared.ext.Ext.TheVariants.{Int};
ghost use Rattle.ts_base.specs.declared.span.Span.{Span};
ghost use Rattle.ts_filter.specs.Excluded.{Cuts, Refutes};
ghost use Rattle.ts_meet.specs.Asked.{AreEnough, Reaches};
ghost use Rattle.ts_sweep.specs.Packed.{IsWithin, max_ends};

use crate::bar::Bar;
use ts_base::{Ext, Goal};
use ts_model::{Op, Require};
use ts_sweep::packed::Ends;

/// The greatest bound for which ends are looked for: one more is still a number, and no infinity.
const LARGEST: i64 = 1_000_000_000_000_000_000;

/// Ends that every span reaches.
#[inline(always)]
pub(crate) fn any_ends() -> Ends {
    Ends {
        below: i64::MIN,
        above: i64::MIN,
    }
}

/// Ends of spans in which some number meets the comparison with the bound. There are none for `!=` and for infinite
/// bounds.
pub(crate) fn enough_to_compare(op: Op, bound: Ext) -> Option<Ends>
    ensures { IfSome result (AreEnough (Refutes op bound)) }
{
    match bound {
        Ext::Int(b) if -LARGEST <= b && b <= LARGEST => enough_by(op, b),
        _ => None,
    }
}

/// Ends of spans in which some number meets the comparison with a number.
fn enough_by(op: Op, b: i64) -> Option<Ends>
    requires { IsWithin 100 b }
    ensures { IfSome result (AreEnough (Refutes op (Int b))) }
{
    match op {
        Op::Equal => Some(Ends {
            below: -b,
            above: b,
        }),
        Op::Unequal => None,
        Op::AtMost => Some(enough_below(-b)),
        Op::AtLeast => Some(enough_above(b)),
        Op::Below => Some(enough_below(1 - b)),
        Op::Above => Some(enough_above(b + 1)),
    }
}

/// The lane of a lower end alone.
fn enough_below(x: i64) -> Ends
    ensures { result.below ≡ x }
{
    Ends {
        below: x,
        above: i64::MIN,
    }
}

/// The lane of an upper end alone.
fn enough_above(x: i64) -> Ends
    ensures { result.above ≡ x }
{
    Ends {
        below: i64::MIN,
        above: x,
    }
}

/// Ends of spans in which some number counts for the bar.
pub(crate) fn enough_to_count(goal: Goal, bar: Bar) -> Option<Ends>
    ensures { IfSome result (AreEnough (Cuts goal bar)) }
{
    match (goal, bar) {
        (Goal::Maximise, Bar::Better(w)) => enough_to_compare(Op::Above, w),
        (Goal::Maximise, Bar::AsGood(w)) => enough_to_compare(Op::AtLeast, w),
        (Goal::Minimise, Bar::Better(w)) => enough_to_compare(Op::Below, w),
        (Goal::Minimise, Bar::AsGood(w)) => enough_to_compare(Op::AtMost, w),
    }
}

/// Ends of spans that reach these, and in which some number meets the requirement, if it is of the term.
pub(crate) fn enough_to_meet(ends: Ends, r: &Require, term: u32) -> Option<Ends>
    ensures { IfSome result (λ both. (s : Span) → Reaches both s →
        Reaches ends s × (r.now.term ≡ term → Refutes r.now.op r.now.bound s → ⊥)) }
{
    if r.term != term {
        return Some(ends);
    }
    let own = enough_to_compare(r.op, r.bound)?;
    Some(farther(ends, own))
}

/// Ends that are reached by what reaches both.
fn farther(a: Ends, b: Ends) -> Ends
    ensures { result ≡ max_ends a b }
{
    Ends {
        below: a.below.max(b.below),
        above: a.above.max(b.above),
    }
}
