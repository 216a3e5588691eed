//! Which sweep takes in a move of a shape that reads the next cell.

ghost use Rattle.std.specs.Prelude.{◌≡◌, true, false};
ghost use Rattle.ts_automaton.specs.Formula.{Leaf};
ghost use Rattle.ts_automaton.specs.declared.expr.Atom.TheVariants.{This as ThisWord};
ghost use Rattle.ts_automaton.specs.declared.expr.Operator.TheVariants.{Fold};
ghost use Rattle.ts_hull.specs.Cuts.{all_swept};
ghost use Rattle.ts_row.specs.Plans.{
  cell_op,
  cell_start,
  cell_word,
  found_tails,
  inside_tails,
  longer_tails,
};
ghost use Rattle.ts_row.specs.Rows.{IsColumn};
ghost use Rattle.ts_row.specs.Takings.{IsCovered, MovesAs, MovesBy, count_in};

use crate::between::{Between, On};
use crate::cell::Cell;
use crate::plan::CellFold;
use ts_sweep::front::{Front, High, Join, Low, Register, This, Zero};
use ts_sweep::moves::{Moves, Parts};
use ts_sweep::operator::{Folds, Greater, Lesser, Plus};
use ts_sweep::packed::PackedHull;
use ts_sweep::part::{Tail, Whole};
use ts_sweep::take::take_next;

/// Takes in a move that may read the next cell by a sweep, if its numbers and sums stay small.
#[inline(always)]
pub(crate) fn sweep_next<const N: usize, F: Moves<PackedHull<N>>>(
    by: F,
    on: On,
    t: &Between<'_, N>,
    next: &mut [PackedHull<N>],
) -> bool
    requires swept { all_swept (F.cut by) ≡ true }
    requires covered { IsCovered N t.now }
    requires next_packed { IsColumn N (count_in t.now.next_values.now) next.old }
    ensures packed { IsColumn N (count_in t.now.next_values.now) next.new }
    ensures taken { result ≡ true → MovesBy N t.now on (F.cut by) next.old next.new }
    ensures kept { result ≡ false → next.new ≡ next.old }
{
    take_next::<PackedHull<N>, F, &Cell<'_>, &Cell<'_>>(
        by,
        on.letter,
        on.twin,
        t.cover,
        t.values,
        t.before,
        t.next_values,
        next,
    )
}

/// A move that makes `D` of `D` and the next cell.
#[inline(never)]
fn longer_next_as<const N: usize, O: Folds>(
    by: O,
    on: On,
    t: &Between<'_, N>,
    next: &mut [PackedHull<N>],
) -> bool
    requires covered { IsCovered N t.now }
    requires next_packed { IsColumn N (count_in t.now.next_values.now) next.old }
    ensures packed { IsColumn N (count_in t.now.next_values.now) next.new }
    ensures taken { result ≡ true → MovesAs N t.now on (longer_tails (O.fold by)) next.old next.new }
    ensures kept { result ≡ false → next.new ≡ next.old }
{
    let parts = Parts {
        c: Whole {
            front: Register::<0>,
        },
        e: Whole {
            front: Register::<1>,
        },
        d: Tail {
            by,
            front: Register::<2>,
        },
        f: Tail {
            by: Lesser,
            front: Register::<3>,
        },
        r: Whole {
            front: Register::<4>,
        },
    };
    sweep_next(parts, on, t, next)
}

/// A move that makes `C` of `D`, the cell and the next one, and resets `D`.
#[inline(never)]
fn found_next_as<const N: usize, O: Folds, V: Front>(
    by: O,
    start: V,
    on: On,
    t: &Between<'_, N>,
    next: &mut [PackedHull<N>],
) -> bool
    requires covered { IsCovered N t.now }
    requires next_packed { IsColumn N (count_in t.now.next_values.now) next.old }
    ensures packed { IsColumn N (count_in t.now.next_values.now) next.new }
    ensures taken { result ≡ true → MovesAs N t.now on
        (found_tails (O.op by) (O.fold by) (Leaf ThisWord) (V.formula start)) next.old next.new }
    ensures kept { result ≡ false → next.new ≡ next.old }
{
    let parts = Parts {
        c: Tail {
            by,
            front: Join {
                by,
                left: Register::<2>,
                right: This,
            },
        },
        e: Tail {
            by: Lesser,
            front: Join {
                by: Lesser,
                left: Register::<3>,
                right: This,
            },
        },
        d: Whole { front: start },
        f: Whole { front: High },
        r: Whole {
            front: Register::<4>,
        },
    };
    sweep_next(parts, on, t, next)
}

/// A move that makes `C` of `C`, `D` and the next cell, and resets `D`.
#[inline(never)]
fn inside_next_as<const N: usize, O: Folds, V: Front>(
    by: O,
    start: V,
    on: On,
    t: &Between<'_, N>,
    next: &mut [PackedHull<N>],
) -> bool
    requires covered { IsCovered N t.now }
    requires next_packed { IsColumn N (count_in t.now.next_values.now) next.old }
    ensures packed { IsColumn N (count_in t.now.next_values.now) next.new }
    ensures taken { result ≡ true → MovesAs N t.now on
        (inside_tails (O.op by) (O.fold by) (V.formula start)) next.old next.new }
    ensures kept { result ≡ false → next.new ≡ next.old }
{
    let parts = Parts {
        c: Tail {
            by,
            front: Join {
                by,
                left: Register::<0>,
                right: Register::<2>,
            },
        },
        e: Tail {
            by: Lesser,
            front: Join {
                by: Lesser,
                left: Register::<1>,
                right: Register::<3>,
            },
        },
        d: Whole { front: start },
        f: Whole { front: High },
        r: Whole {
            front: Register::<4>,
        },
    };
    sweep_next(parts, on, t, next)
}

/// Takes in a move of the shape `LongerNext`. Only folds that read cells read the next one.
#[inline(always)]
pub(crate) fn longer_next<const N: usize>(
    f: CellFold,
    on: On,
    t: &Between<'_, N>,
    next: &mut [PackedHull<N>],
) -> bool
    requires covered { IsCovered N t.now }
    requires next_packed { IsColumn N (count_in t.now.next_values.now) next.old }
    ensures packed { IsColumn N (count_in t.now.next_values.now) next.new }
    ensures taken { result ≡ true → MovesAs N t.now on (longer_tails (cell_op f)) next.old next.new }
    ensures kept { result ≡ false → next.new ≡ next.old }
{
    match f {
        CellFold::Surf => longer_next_as(Plus, on, t, next),
        CellFold::Greatest => longer_next_as(Greater, on, t, next),
        CellFold::Least => longer_next_as(Lesser, on, t, next),
        _ => false,
    }
}

/// Takes in a move of the shape `FoundNext`. Only folds that read cells read the next one.
#[inline(always)]
pub(crate) fn found_next<const N: usize>(
    f: CellFold,
    on: On,
    t: &Between<'_, N>,
    next: &mut [PackedHull<N>],
) -> bool
    requires covered { IsCovered N t.now }
    requires next_packed { IsColumn N (count_in t.now.next_values.now) next.old }
    ensures packed { IsColumn N (count_in t.now.next_values.now) next.new }
    ensures taken { result ≡ true → MovesAs N t.now on
        (found_tails (Fold (cell_op f)) (cell_op f) (cell_word f) (cell_start f)) next.old next.new }
    ensures kept { result ≡ false → next.new ≡ next.old }
{
    match f {
        CellFold::Surf => found_next_as(Plus, Zero, on, t, next),
        CellFold::Greatest => found_next_as(Greater, Low, on, t, next),
        CellFold::Least => found_next_as(Lesser, High, on, t, next),
        _ => false,
    }
}

/// Takes in a move of the shape `InsideNext`. Only folds that read cells read the next one.
#[inline(always)]
pub(crate) fn inside_next<const N: usize>(
    f: CellFold,
    on: On,
    t: &Between<'_, N>,
    next: &mut [PackedHull<N>],
) -> bool
    requires covered { IsCovered N t.now }
    requires next_packed { IsColumn N (count_in t.now.next_values.now) next.old }
    ensures packed { IsColumn N (count_in t.now.next_values.now) next.new }
    ensures taken { result ≡ true → MovesAs N t.now on
        (inside_tails (Fold (cell_op f)) (cell_op f) (cell_start f)) next.old next.new }
    ensures kept { result ≡ false → next.new ≡ next.old }
{
    match f {
        CellFold::Surf => inside_next_as(Plus, Zero, on, t, next),
        CellFold::Greatest => inside_next_as(Greater, Low, on, t, next),
        CellFold::Least => inside_next_as(Lesser, High, on, t, next),
        _ => false,
    }
}
