//! A move on `=`, whatever its expressions are: the next cell is the cell.

ghost use Rattle.std.specs.Prelude.{◌≡◌, ◌≤◌, false, true};
ghost use Rattle.ts_automaton.specs.Body.{move_of};
ghost use Rattle.ts_automaton.specs.Formula.{formula, is_zero};
ghost use Rattle.ts_automaton.specs.Registers.{rests};
ghost use Rattle.ts_base.specs.declared.letter.Letter.TheVariants.{Equal};
ghost use Rattle.ts_sweep.specs.Columns.{IsMoved};
ghost use Rattle.ts_sweep.specs.Covers.{IsCoverOf};
ghost use Rattle.ts_sweep.specs.Packed.{ArePacked, is_wide};

use crate::cover::Cover;
use crate::front::Front;
use crate::moves::Parts;
use crate::packed::{Ends, Packed};
use crate::part::Whole;
use crate::take::take_column;
use crate::tree::{is_narrow, tree_ends};
use crate::values::Values;
use ts_automaton::{Expr, Turn};
use ts_base::Letter;

/// An expression in which the next cell is read as the cell.
#[derive(Clone, Copy)]
pub struct Here<'a> {
    pub expr: &'a Expr,
}

impl<'a> Front for Here<'a> {
    ghost use Rattle.std.specs.Prelude.{◌≡◌, false, pos, true};
    ghost use Rattle.std.proofs.Common.{refl};
    ghost use Rattle.ts_automaton.specs.Formula.{formula};
    ghost use Rattle.ts_sweep.specs.FrontLaws.{never_added};
    ghost use Rattle.ts_sweep.specs.Here.{here_formula};
    ghost use Rattle.ts_sweep.specs.Trees.{tree_value};
    ghost use Rattle.ts_sweep.specs.TreeLaws.{tree_packs, zero_small};

    ghost formula = { λ k. here_formula true (formula k.expr.now) };

    ghost words = { λ k. 1 };

    ghost fit = { λ k added xs. added ≡ false };

    ghost value = { λ k xs x. tree_value (here_formula true (formula k.expr.now)) xs x (pos 0) };

    ghost looser = { λ k xs h. refl };

    ghost within = { λ k xs x few h small. never_added h };

    ghost packs = { λ k s xs h x are suits fits small. tree_packs (here_formula true (formula k.expr.now)) s xs h x
        (pos 0) are suits small zero_small };

    #[inline(always)]
    fn words(self) -> u8 {
        1
    }

    #[inline(always)]
    fn is_narrow(self) -> bool {
        is_narrow(self.expr)
    }

    #[inline(always)]
    fn is_fit(self, added: bool, _cover: &Cover) -> bool {
        !added
    }

    #[inline(always)]
    fn ends<H: Packed>(self, h: H, x: i64) -> Ends {
        tree_ends::<H>(self.expr, h, x, x)
    }
}

/// Takes in a move on `=` by a sweep, whatever its expressions are: they are evaluated at each value.
pub fn take_equal<H: Packed, V: Values, W: Values>(
    t: &Turn,
    cover: &Cover,
    values: V,
    before: &[H],
    next_values: W,
    next: &mut [H],
) -> bool
    requires registers { 6 ≤ H.count }
    requires width { rests is_zero (is_wide H.count) (move_of t.now).to ≡ true }
    requires ok { V.ok values }
    requires next_ok { W.ok next_values }
    requires packed { ArePacked H.lanes H.none H.count (V.len values) before.now }
    requires covers { IsCoverOf H.sides H.lanes H.none cover.now (V.len values) before.now }
    requires next_packed { ArePacked H.lanes H.none H.count (W.len next_values) next.old }
    ensures packed { ArePacked H.lanes H.none H.count (W.len next_values) next.new }
    ensures taken { result ≡ true → IsMoved H.sides H.lanes H.none (move_of t.now) Equal false (V.len values)
        (V.value values) before.now (W.len next_values) (W.value next_values) next.old next.new }
    ensures kept { result ≡ false → next.new ≡ next.old }
{
    let parts = Parts {
        c: Whole {
            front: Here { expr: &t.c },
        },
        e: Whole {
            front: Here { expr: &t.e },
        },
        d: Whole {
            front: Here { expr: &t.d },
        },
        f: Whole {
            front: Here { expr: &t.f },
        },
        r: Whole {
            front: Here { expr: &t.r },
        },
    };
    take_column::<H, _, V, W>(
        parts,
        Letter::Equal,
        false,
        cover,
        values,
        before,
        next_values,
        next,
    )
}
