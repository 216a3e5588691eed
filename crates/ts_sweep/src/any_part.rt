//! Expressions that are known only when the program runs, by how they read the next cell.

ghost use Rattle.std.specs.Prelude.{◌≡◌, ◌≤◌};
ghost use Rattle.ts_automaton.specs.Formula.{formula};
ghost use Rattle.ts_sweep.specs.declared.reading.Reading.TheVariants.{Inner, Last};
ghost use Rattle.ts_sweep.specs.AnyParts.{inner_split, split_as, split_by};
ghost use Rattle.ts_sweep.specs.Small.{IsSmall};

use crate::cover::Cover;
use crate::packed::{Ends, Packed, number};
use crate::part::Part;
use crate::reading::Reading;
use crate::tree::{folded_ends, is_narrow, tree_ends};
use ts_automaton::{Expr, Op};

/// An expression that doesn't read the next cell; an operator over one that doesn't and the next cell; or an operator
/// over two that don't and the next cell, `o e (o f y)`, which is taken as `o (o e f) y`.
#[derive(Clone, Copy)]
pub enum AnyPart<'a> {
    Front(&'a Expr),
    Tail(Op, &'a Expr),
    Double(Op, &'a Expr, &'a Expr),
}

/// The part that an operator over two expressions is, of which the latter reads the next cell last.
fn inner_part<'a>(o: Op, a: &'a Expr, b: &'a Expr) -> Option<AnyPart<'a>>
    ensures { split_by result ≡ inner_split o (formula a.now) (formula b.now) }
{
    match b {
        Expr::Add(f, _) | Expr::Sub(f, _) | Expr::Max(f, _) | Expr::Min(f, _) => {
            Some(AnyPart::Double(o, a, f))
        }
        _ => None,
    }
}

/// The part that an expression is which reads the next cell as its last operand.
fn last_part<'a>(e: &'a Expr) -> Option<AnyPart<'a>>
    ensures { split_by result ≡ split_as Last (formula e.now) }
{
    match e {
        Expr::Add(a, _) => Some(AnyPart::Tail(Op::Add, a)),
        Expr::Max(a, _) => Some(AnyPart::Tail(Op::Max, a)),
        Expr::Min(a, _) => Some(AnyPart::Tail(Op::Min, a)),
        _ => None,
    }
}

/// The part that an expression is which reads the next cell as the last operand of its last operand.
fn double_part<'a>(e: &'a Expr) -> Option<AnyPart<'a>>
    ensures { split_by result ≡ split_as Inner (formula e.now) }
{
    match e {
        Expr::Add(a, b) => inner_part(Op::Add, a, b),
        Expr::Max(a, b) => inner_part(Op::Max, a, b),
        Expr::Min(a, b) => inner_part(Op::Min, a, b),
        _ => None,
    }
}

impl<'a> AnyPart<'a> {
    /// The part that an expression is which reads the next cell so; none where it has too few operands.
    pub(crate) fn of(e: &'a Expr, reading: Reading) -> Option<AnyPart<'a>>
        ensures { split_by result ≡ split_as reading (formula e.now) }
    {
        match reading {
            Reading::Never => Some(AnyPart::Front(e)),
            Reading::Last => last_part(e),
            Reading::Inner => double_part(e),
        }
    }
}

impl<'a> Part for AnyPart<'a> {
    ghost use Rattle.std.specs.Prelude.{pos};
    ghost use Rattle.ts_sweep.specs.Trees.{tree_value};
    ghost use Rattle.ts_sweep.specs.AnyParts.{part_split, part_tails, part_front, part_closed};
    ghost use Rattle.ts_sweep.specs.AnyPartLaws.{part_packs, part_no_tail, part_closed_packs};

    ghost split = { λ k. part_split k };

    ghost tails = { λ k. part_tails k };

    ghost fit = { λ k xs. Unit {0} };

    ghost front = { λ k xs x. tree_value (part_front k) xs x (pos 0) };

    ghost closable = { λ k e. Unit {0} };

    ghost closing = { λ k e y. part_closed k e y };

    ghost closable_both = { λ k a b p q. tt };

    ghost closable_front = { λ k xs x h small. tt };

    ghost closable_read = { λ k s e p. tt };

    ghost front_packs = { λ k s xs h x are suits fits small. part_packs k s xs h x are suits small };

    ghost no_tail = { λ k t s y. part_no_tail k s y t };

    ghost closing_packs = { λ k s e t y p h small. part_closed_packs k s e t y p small };

    #[inline(always)]
    fn has_tail(self) -> bool {
        match self {
            AnyPart::Front(_) => false,
            _ => true,
        }
    }

    #[inline(always)]
    fn is_word(self) -> bool {
        false
    }

    #[inline(always)]
    fn is_narrow(self) -> bool {
        match self {
            AnyPart::Front(e) | AnyPart::Tail(_, e) => is_narrow(e),
            AnyPart::Double(_, e, f) => is_narrow(e) && is_narrow(f),
        }
    }

    #[inline(always)]
    fn is_fit(self, _cover: &Cover) -> bool {
        true
    }

    #[inline(always)]
    fn begun<H: Packed>(self, h: H, x: i64) -> Ends {
        match self {
            AnyPart::Front(e) | AnyPart::Tail(_, e) => tree_ends::<H>(e, h, x, 0),
            AnyPart::Double(o, e, f) => folded_ends(
                o,
                tree_ends::<H>(e, h, x, 0),
                tree_ends::<H>(f, h, x, 0),
            ),
        }
    }

    #[inline(always)]
    fn closed(self, e: Ends, y: i64) -> Ends {
        match self {
            AnyPart::Front(_) => e,
            AnyPart::Tail(o, _) | AnyPart::Double(o, _, _) => folded_ends(o, e, number(y)),
        }
    }
}
