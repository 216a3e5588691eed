//! Expressions and operators that are known only when the program runs. Their sums are clamped and know infinities, so
//! they serve all hulls.

ghost use Rattle.std.specs.Prelude.{◌≡◌, ◌≤◌, ◌↔◌, IsTrue};
ghost use Rattle.ts_automaton.specs.Formula.{formula, is_narrow};
ghost use Rattle.ts_automaton.specs.declared.expr.Operator.TheVariants.{Sub};
ghost use Rattle.ts_sweep.specs.Sides.{as_read};
ghost use Rattle.ts_sweep.specs.Small.{IsSmall};
ghost use Rattle.ts_sweep.specs.Trees.{IsHalf, folded_by, joined_by, sum_above, sum_below, tree_value};

use crate::cover::Cover;
use crate::front::Front;
use crate::operator::{Folds, Operator, crossed};
use crate::packed::{Ends, Name, Packed, number};
use ts_automaton::{Expr, Op};

/// An operator that may take the next cell as its last operand.
#[derive(Clone, Copy)]
pub struct AnyOperator {
    pub op: Op,
}

/// An expression that doesn't read the next cell.
#[derive(Clone, Copy)]
pub struct Tree<'a> {
    pub expr: &'a Expr,
}

/// Whether neither E nor F nor a difference stands in an expression.
pub(crate) fn is_narrow(e: &Expr) -> bool
    ensures { result ≡ is_narrow (formula e.now) }
{
    match e {
        Expr::E | Expr::F | Expr::Sub(_, _) => false,
        Expr::Add(a, b) | Expr::Max(a, b) | Expr::Min(a, b) => is_narrow(a) && is_narrow(b),
        _ => true,
    }
}

/// Whether a number is so small that no sum of two such ones is clamped.
#[inline(always)]
fn is_half(x: i64) -> bool
    ensures { IsTrue result ↔ IsHalf x }
{
    x >= -50_000_000_000_000_000 && x <= 50_000_000_000_000_000
}

/// The sum of two upper ends, clamped. Most are small, and added at once.
#[inline(always)]
fn above_both(x: i64, y: i64) -> i64
    ensures { result ≡ sum_above x y }
{
    if is_half(x) && is_half(y) {
        x + y
    } else {
        above_any(x, y)
    }
}

/// The sum of any two upper ends, clamped.
fn above_any(x: i64, y: i64) -> i64
    ensures { result ≡ sum_above x y }
{
    if x <= -i64::MAX || y <= -i64::MAX {
        -i64::MAX
    } else if x == i64::MAX || y == i64::MAX {
        i64::MAX
    } else {
        x.saturating_add(y)
            .clamp(-100_000_000_000_000_000, 100_000_000_000_000_000)
    }
}

/// The sum of two lower ends, which are negated, clamped. Most are small, and added at once.
#[inline(always)]
fn below_both(x: i64, y: i64) -> i64
    ensures { result ≡ sum_below x y }
{
    if is_half(x) && is_half(y) {
        x + y
    } else {
        below_any(x, y)
    }
}

/// The sum of any two lower ends, which are negated, clamped.
fn below_any(x: i64, y: i64) -> i64
    ensures { result ≡ sum_below x y }
{
    if x == i64::MAX || y == i64::MAX {
        i64::MAX
    } else if x <= -i64::MAX || y <= -i64::MAX {
        -i64::MAX
    } else {
        x.saturating_add(y)
            .clamp(-100_000_000_000_000_000, 100_000_000_000_000_000)
    }
}

/// An operator on ends.
pub(crate) fn folded_ends(op: Op, a: Ends, b: Ends) -> Ends
    ensures { result ≡ folded_by op a b }
{
    match op {
        Op::Add => Ends {
            below: below_both(a.below, b.below),
            above: above_both(a.above, b.above),
        },
        Op::Max => Ends {
            below: a.below.min(b.below),
            above: a.above.max(b.above),
        },
        Op::Min => Ends {
            below: a.below.max(b.below),
            above: a.above.min(b.above),
        },
    }
}

/// The ends of an expression in lanes, at a value and the next one. A word is read at once; operators alone are calls.
#[cycle(tree)]
#[inline(always)]
pub(crate) fn tree_ends<H: Packed>(e: &Expr, h: H, x: i64, y: i64) -> Ends
    requires registers { 6 ≤ H.count }
    requires small { IsSmall x }
    requires next { IsSmall y }
    ensures { result ≡ tree_value (formula e.now) (as_read H.sides (H.lanes h)) x y }
{
    match e {
        Expr::C => h.ends(Name::C),
        Expr::E => h.ends(Name::E),
        Expr::D => h.ends(Name::D),
        Expr::F => h.ends(Name::F),
        Expr::R => h.ends(Name::R),
        Expr::This => number(x),
        Expr::Next => number(y),
        Expr::Zero => number(0),
        Expr::Unit => number(1),
        Expr::NegInf => Ends {
            below: i64::MAX,
            above: -i64::MAX,
        },
        Expr::PosInf => Ends {
            below: -i64::MAX,
            above: i64::MAX,
        },
        Expr::Add(a, b) => joined_ends::<H>(Op::Add, a, b, h, x, y),
        Expr::Sub(a, b) => less_ends::<H>(a, b, h, x, y),
        Expr::Max(a, b) => joined_ends::<H>(Op::Max, a, b, h, x, y),
        Expr::Min(a, b) => joined_ends::<H>(Op::Min, a, b, h, x, y),
    }
}

/// The ends of two expressions that an operator joins.
#[cycle(tree)]
fn joined_ends<H: Packed>(op: Op, a: &Expr, b: &Expr, h: H, x: i64, y: i64) -> Ends
    requires registers { 6 ≤ H.count }
    requires small { IsSmall x }
    requires next { IsSmall y }
    ensures { result ≡ folded_by op (tree_value (formula a.now) (as_read H.sides (H.lanes h)) x y)
        (tree_value (formula b.now) (as_read H.sides (H.lanes h)) x y) }
{
    let first = tree_ends::<H>(a, h, x, y);
    let second = tree_ends::<H>(b, h, x, y);
    folded_ends(op, first, second)
}

/// The ends of a difference.
#[cycle(tree)]
fn less_ends<H: Packed>(a: &Expr, b: &Expr, h: H, x: i64, y: i64) -> Ends
    requires registers { 6 ≤ H.count }
    requires small { IsSmall x }
    requires next { IsSmall y }
    ensures { result ≡ joined_by Sub (tree_value (formula a.now) (as_read H.sides (H.lanes h)) x y)
        (tree_value (formula b.now) (as_read H.sides (H.lanes h)) x y) }
{
    let first = tree_ends::<H>(a, h, x, y);
    let second = tree_ends::<H>(b, h, x, y);
    folded_ends(Op::Add, first, crossed(second))
}

impl Operator for AnyOperator {
    ghost use Rattle.std.specs.Prelude.{false};
    ghost use Rattle.ts_automaton.specs.declared.expr.Operator.TheVariants.{Fold};
    ghost use Rattle.ts_sweep.specs.Trees.{folded_by};
    ghost use Rattle.ts_sweep.specs.TreeLaws.{any_packs, any_within};

    ghost op = { λ k. Fold k.op };

    ghost adds = { λ k. false };

    ghost joined = { λ k a b. folded_by k.op a b };

    ghost packs = { λ k s i j a b t u serves few small p q. any_packs k.op s a b t u p q };

    ghost within = { λ k i j a b few p q. any_within k.op i j a b few p q };

    #[inline(always)]
    fn is_sum(self) -> bool {
        false
    }

    #[inline(always)]
    fn is_difference(self) -> bool {
        false
    }

    #[inline(always)]
    fn of(self, a: Ends, b: Ends) -> Ends {
        folded_ends(self.op, a, b)
    }
}

impl Folds for AnyOperator {
    ghost use Rattle.std.proofs.Common.{refl};

    ghost fold = { λ k. k.op };

    ghost folds = { λ k. refl };
}

impl<'a> Front for Tree<'a> {
    ghost use Rattle.std.specs.Prelude.{◌≡◌, false, pos};
    ghost use Rattle.std.proofs.Common.{refl};
    ghost use Rattle.ts_automaton.specs.Formula.{formula};
    ghost use Rattle.ts_sweep.specs.FrontLaws.{never_added};
    ghost use Rattle.ts_sweep.specs.Trees.{tree_value};
    ghost use Rattle.ts_sweep.specs.TreeLaws.{tree_packs, zero_small};

    ghost formula = { λ k. formula k.expr.now };

    ghost words = { λ k. 1 };

    ghost fit = { λ k added xs. added ≡ false };

    ghost value = { λ k xs x. tree_value (formula k.expr.now) xs x (pos 0) };

    ghost looser = { λ k xs h. refl };

    ghost within = { λ k xs x few h small. never_added h };

    ghost packs = { λ k s xs h x are suits fits small. tree_packs (formula k.expr.now) s xs h x (pos 0) are suits
        small zero_small };

    #[inline(always)]
    fn words(self) -> u8 {
        1
    }

    #[inline(always)]
    fn is_narrow(self) -> bool {
        is_narrow(self.expr)
    }

    #[inline(always)]
    fn is_fit(self, added: bool, _cover: &Cover) -> bool {
        !added
    }

    #[inline(always)]
    fn ends<H: Packed>(self, h: H, x: i64) -> Ends {
        tree_ends::<H>(self.expr, h, x, 0)
    }
}
