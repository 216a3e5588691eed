//! How an expression reads the next cell.

ghost use Rattle.std.specs.Prelude.{◌≡◌};
ghost use Rattle.ts_automaton.specs.Formula.{Join, formula};
ghost use Rattle.ts_automaton.specs.declared.expr.Operator.TheVariants.{Fold, Sub};
ghost use Rattle.ts_hull.specs.Splits.{is_double, is_front, is_next, operands, split_formula, tail_of};
ghost use Rattle.ts_sweep.specs.AnyParts.{split_read};

use ts_automaton::{Expr, Op};

/// How an expression reads the next cell: never, as the last operand of its operator, or as the last operand of the
/// operator that is its last operand.
#[derive(Clone, Copy)]
pub enum Reading {
    Never,
    Last,
    Inner,
}

/// Whether an expression doesn't read the next cell.
fn is_front(e: &Expr) -> bool
    ensures { result ≡ is_front (formula e.now) }
{
    match e {
        Expr::Next => false,
        Expr::Add(a, b) | Expr::Sub(a, b) | Expr::Max(a, b) | Expr::Min(a, b) => {
            is_front(a) && is_front(b)
        }
        _ => true,
    }
}

/// Whether an expression is the next cell itself.
fn is_next(e: &Expr) -> bool
    ensures { result ≡ is_next (formula e.now) }
{
    match e {
        Expr::Next => true,
        _ => false,
    }
}

/// How many operands an expression has, counted up to 255.
fn operands(e: &Expr) -> u8
    ensures { result ≡ operands (formula e.now) }
{
    match e {
        Expr::Add(a, b) | Expr::Sub(a, b) | Expr::Max(a, b) | Expr::Min(a, b) => {
            operands(a).saturating_add(operands(b))
        }
        _ => 1,
    }
}

/// Whether `o e (p f r)` may be taken as `o (o e f) r`, with `r` the next cell: of so few operands, each of at most
/// 10^16 in size, no sum is clamped.
fn is_double(o: Op, p: Op, e: &Expr, f: &Expr, r: &Expr) -> bool
    ensures { result ≡ is_double o p (formula e.now) (formula f.now) (formula r.now) }
{
    match (o, p) {
        (Op::Add, Op::Add) | (Op::Max, Op::Max) | (Op::Min, Op::Min) => {
            is_next(r) && is_front(e) && is_front(f) && operands(e) as u16 + operands(f) as u16 <= 7
        }
        _ => false,
    }
}

/// How `o e (p f r)` reads the next cell, if it does.
fn double_reading(o: Op, p: Op, e: &Expr, f: &Expr, r: &Expr) -> Option<Reading>
    ensures { split_read result (Join (Fold o) (formula e.now) (Join (Fold p) (formula f.now) (formula r.now)))
        ≡ tail_of o (formula e.now) (Join (Fold p) (formula f.now) (formula r.now)) }
{
    if is_double(o, p, e, f, r) {
        Some(Reading::Inner)
    } else {
        None
    }
}

/// How an operator over two expressions reads the next cell, if it does.
fn tail_reading(o: Op, a: &Expr, b: &Expr) -> Option<Reading>
    ensures { split_read result (Join (Fold o) (formula a.now) (formula b.now))
        ≡ tail_of o (formula a.now) (formula b.now) }
{
    match b {
        Expr::Next => {
            if is_front(a) {
                Some(Reading::Last)
            } else {
                None
            }
        }
        Expr::Add(f, r) => double_reading(o, Op::Add, a, f, r),
        Expr::Max(f, r) => double_reading(o, Op::Max, a, f, r),
        Expr::Min(f, r) => double_reading(o, Op::Min, a, f, r),
        _ => None,
    }
}

/// How an operator over two expressions reads the next cell.
fn joined_reading(o: Op, a: &Expr, b: &Expr) -> Option<Reading>
    ensures { split_read result (Join (Fold o) (formula a.now) (formula b.now))
        ≡ split_formula (Join (Fold o) (formula a.now) (formula b.now)) }
{
    if is_front(a) && is_front(b) {
        Some(Reading::Never)
    } else {
        tail_reading(o, a, b)
    }
}

/// How a difference reads the next cell: neither of its expressions may.
fn less_reading(a: &Expr, b: &Expr) -> Option<Reading>
    ensures { split_read result (Join Sub (formula a.now) (formula b.now))
        ≡ split_formula (Join Sub (formula a.now) (formula b.now)) }
{
    if is_front(a) && is_front(b) {
        Some(Reading::Never)
    } else {
        None
    }
}

impl Reading {
    /// How an expression reads the next cell; none where it does in another way.
    pub(crate) fn of(e: &Expr) -> Option<Reading>
        ensures { split_read result (formula e.now) ≡ split_formula (formula e.now) }
    {
        match e {
            Expr::Next => None,
            Expr::Add(a, b) => joined_reading(Op::Add, a, b),
            Expr::Sub(a, b) => less_reading(a, b),
            Expr::Max(a, b) => joined_reading(Op::Max, a, b),
            Expr::Min(a, b) => joined_reading(Op::Min, a, b),
            _ => Some(Reading::Never),
        }
    }
}
