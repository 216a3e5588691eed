//! Which sweep takes in a move of a shape: a type for each. The parts for E and F are used in wide rows alone.

ghost use Rattle.std.specs.Prelude.{◌≡◌, true, false};
ghost use Rattle.ts_automaton.specs.declared.expr.Operator.TheVariants.{Fold, Sub};
ghost use Rattle.ts_base.specs.declared.op.Op.TheVariants.{Add};
ghost use Rattle.ts_hull.specs.Cuts.{all_whole};
ghost use Rattle.ts_row.specs.Plans.{
  IsShapeOf,
  anew_fronts,
  begun_fronts,
  cell_op,
  cell_start,
  cell_word,
  ended_fronts,
  found_fronts,
  found_of,
  found_twice_fronts,
  found_twice_of,
  held_of,
  inside_fronts,
  less_of,
  longer_fronts,
  range_op,
  range_start,
};
ghost use Rattle.ts_row.specs.Rows.{IsColumn};
ghost use Rattle.ts_row.specs.Takings.{IsCovered, IsShapeTaken, MovesAs, MovesBy, count_in};
ghost use Rattle.ts_sweep.specs.Sides.{has_wide};

use crate::between::{Between, On};
use crate::cell::Cell;
use crate::clamped::{ClampedMinus, ClampedPlus};
use crate::next_shapes::{found_next, inside_next, longer_next};
use crate::plan::{CellFold, RangeFold, Shape};
use ts_sweep::front::{Front, High, Join, Low, One, Register, This, Zero};
use ts_sweep::moves::{Keep, Moves, Parts};
use ts_sweep::operator::{Greater, Lesser, Minus, Operator, Plus};
use ts_sweep::packed::{Packed, PackedHull};
use ts_sweep::part::Whole;
use ts_sweep::take::take_column;

/// Takes in a move by a sweep, if its sums stay small.
#[inline(always)]
pub(crate) fn sweep_as<const N: usize, F: Moves<PackedHull<N>>>(
    by: F,
    on: On,
    t: &Between<'_, N>,
    next: &mut [PackedHull<N>],
) -> bool
    requires whole { all_whole (F.cut by) ≡ true }
    requires covered { IsCovered N t.now }
    requires next_packed { IsColumn N (count_in t.now.next_values.now) next.old }
    ensures packed { IsColumn N (count_in t.now.next_values.now) next.new }
    ensures taken { result ≡ true → MovesBy N t.now on (F.cut by) next.old next.new }
    ensures kept { result ≡ false → next.new ≡ next.old }
{
    take_column::<PackedHull<N>, F, &Cell<'_>, &Cell<'_>>(
        by,
        on.letter,
        on.twin,
        t.cover,
        t.values,
        t.before,
        t.next_values,
        next,
    )
}

/// The least of a register and the cell.
#[inline(always)]
fn least<const K: usize>(register: Register<K>) -> Join<Lesser, Register<K>, This> {
    Join {
        by: Lesser,
        left: register,
        right: This,
    }
}

/// `D` with the worth of a cell.
#[inline(always)]
fn once<O: Operator, W: Front>(by: O, word: W) -> Join<O, Register<2>, W> {
    Join {
        by,
        left: Register::<2>,
        right: word,
    }
}

/// `D` with the worth of two cells.
#[inline(always)]
fn twice<O: Operator, W: Front>(by: O, word: W) -> Join<O, Join<O, Register<2>, W>, W> {
    Join {
        by,
        left: once(by, word),
        right: word,
    }
}

/// The least of `F` and the cell, twice.
#[inline(always)]
fn least_twice() -> Join<Lesser, Join<Lesser, Register<3>, This>, This> {
    Join {
        by: Lesser,
        left: least(Register::<3>),
        right: This,
    }
}

/// A move that makes `D` of `D` and a word.
#[inline(never)]
fn longer_as<const N: usize, O: Operator, W: Front>(
    by: O,
    word: W,
    on: On,
    t: &Between<'_, N>,
    next: &mut [PackedHull<N>],
) -> bool
    requires covered { IsCovered N t.now }
    requires next_packed { IsColumn N (count_in t.now.next_values.now) next.old }
    ensures packed { IsColumn N (count_in t.now.next_values.now) next.new }
    ensures taken { result ≡ true → MovesAs N t.now on (longer_fronts (O.op by) (W.formula word)) next.old next.new }
    ensures kept { result ≡ false → next.new ≡ next.old }
{
    let parts = Parts {
        c: Whole {
            front: Register::<0>,
        },
        e: Whole {
            front: Register::<1>,
        },
        d: Whole {
            front: Join {
                by,
                left: Register::<2>,
                right: word,
            },
        },
        f: Whole {
            front: least(Register::<3>),
        },
        r: Whole {
            front: Register::<4>,
        },
    };
    sweep_as(parts, on, t, next)
}

/// A move that resets `D`.
#[inline(never)]
fn begun_as<const N: usize, V: Front>(
    start: V,
    on: On,
    t: &Between<'_, N>,
    next: &mut [PackedHull<N>],
) -> bool
    requires covered { IsCovered N t.now }
    requires next_packed { IsColumn N (count_in t.now.next_values.now) next.old }
    ensures packed { IsColumn N (count_in t.now.next_values.now) next.new }
    ensures taken { result ≡ true → MovesAs N t.now on (begun_fronts (V.formula start)) next.old next.new }
    ensures kept { result ≡ false → next.new ≡ next.old }
{
    let parts = Parts {
        c: Whole {
            front: Register::<0>,
        },
        e: Whole {
            front: Register::<1>,
        },
        d: Whole { front: start },
        f: Whole { front: High },
        r: Whole {
            front: Register::<4>,
        },
    };
    sweep_as(parts, on, t, next)
}

/// A move that makes `C` of `D` and a word, and resets `D`.
#[inline(never)]
fn found_as<const N: usize, O: Operator, W: Front, V: Front>(
    by: O,
    word: W,
    start: V,
    on: On,
    t: &Between<'_, N>,
    next: &mut [PackedHull<N>],
) -> bool
    requires covered { IsCovered N t.now }
    requires next_packed { IsColumn N (count_in t.now.next_values.now) next.old }
    ensures packed { IsColumn N (count_in t.now.next_values.now) next.new }
    ensures taken { result ≡ true → MovesAs N t.now on
        (found_fronts (O.op by) (W.formula word) (V.formula start)) next.old next.new }
    ensures kept { result ≡ false → next.new ≡ next.old }
{
    let parts = Parts {
        c: Whole {
            front: Join {
                by,
                left: Register::<2>,
                right: word,
            },
        },
        e: Whole {
            front: least(Register::<3>),
        },
        d: Whole { front: start },
        f: Whole { front: High },
        r: Whole {
            front: Register::<4>,
        },
    };
    sweep_as(parts, on, t, next)
}

/// A move that makes `C` of `C`, `D` and a word, and resets `D`.
#[inline(never)]
fn inside_as<const N: usize, O: Operator, W: Front, V: Front>(
    by: O,
    word: W,
    start: V,
    on: On,
    t: &Between<'_, N>,
    next: &mut [PackedHull<N>],
) -> bool
    requires covered { IsCovered N t.now }
    requires next_packed { IsColumn N (count_in t.now.next_values.now) next.old }
    ensures packed { IsColumn N (count_in t.now.next_values.now) next.new }
    ensures taken { result ≡ true → MovesAs N t.now on
        (inside_fronts (O.op by) (W.formula word) (V.formula start)) next.old next.new }
    ensures kept { result ≡ false → next.new ≡ next.old }
{
    let parts = Parts {
        c: Whole {
            front: Join {
                by,
                left: Register::<0>,
                right: Join {
                    by,
                    left: Register::<2>,
                    right: word,
                },
            },
        },
        e: Whole {
            front: Join {
                by: Lesser,
                left: Register::<1>,
                right: least(Register::<3>),
            },
        },
        d: Whole { front: start },
        f: Whole { front: High },
        r: Whole {
            front: Register::<4>,
        },
    };
    sweep_as(parts, on, t, next)
}

/// A move that joins `R` with what was found, and resets `D`.
#[inline(never)]
fn ended_as<const N: usize, O: Operator, X: Front, V: Front>(
    by: O,
    found: X,
    start: V,
    on: On,
    t: &Between<'_, N>,
    next: &mut [PackedHull<N>],
) -> bool
    requires covered { IsCovered N t.now }
    requires next_packed { IsColumn N (count_in t.now.next_values.now) next.old }
    ensures packed { IsColumn N (count_in t.now.next_values.now) next.new }
    ensures taken { result ≡ true → MovesAs N t.now on
        (ended_fronts (O.op by) (X.formula found) (V.formula start)) next.old next.new }
    ensures kept { result ≡ false → next.new ≡ next.old }
{
    let parts = Parts {
        c: Whole {
            front: Register::<0>,
        },
        e: Whole {
            front: Register::<1>,
        },
        d: Whole { front: start },
        f: Whole { front: High },
        r: Whole {
            front: Join {
                by,
                left: Register::<4>,
                right: found,
            },
        },
    };
    sweep_as(parts, on, t, next)
}

/// A move that joins `R` with what a row of the width finds, in a wide one less the least.
#[inline(always)]
fn ended_by<const N: usize, O: Operator, M: Operator, X: Front, Y: Front, V: Front>(
    by: O,
    minus: M,
    found: X,
    low: Y,
    start: V,
    on: On,
    t: &Between<'_, N>,
    next: &mut [PackedHull<N>],
) -> bool
    requires difference { M.op minus ≡ Sub }
    requires covered { IsCovered N t.now }
    requires next_packed { IsColumn N (count_in t.now.next_values.now) next.old }
    ensures packed { IsColumn N (count_in t.now.next_values.now) next.new }
    ensures taken { result ≡ true → MovesAs N t.now on (ended_fronts (O.op by)
        (less_of (has_wide N) (X.formula found) (Y.formula low)) (V.formula start)) next.old next.new }
    ensures kept { result ≡ false → next.new ≡ next.old }
{
    if PackedHull::<N>::is_wide() {
        let less = Join {
            by: minus,
            left: found,
            right: low,
        };
        ended_as(by, less, start, on, t, next)
    } else {
        ended_as(by, found, start, on, t, next)
    }
}

/// A move that joins `R` with what is held, and resets that and `D`.
#[inline(never)]
fn anew_as<const N: usize, O: Operator, U: Front, X: Front, V: Front>(
    by: O,
    range_start: U,
    held: X,
    start: V,
    on: On,
    t: &Between<'_, N>,
    next: &mut [PackedHull<N>],
) -> bool
    requires covered { IsCovered N t.now }
    requires next_packed { IsColumn N (count_in t.now.next_values.now) next.old }
    ensures packed { IsColumn N (count_in t.now.next_values.now) next.new }
    ensures taken { result ≡ true → MovesAs N t.now on
        (anew_fronts (O.op by) (U.formula range_start) (X.formula held) (V.formula start)) next.old next.new }
    ensures kept { result ≡ false → next.new ≡ next.old }
{
    let parts = Parts {
        c: Whole { front: range_start },
        e: Whole { front: Zero },
        d: Whole { front: start },
        f: Whole { front: High },
        r: Whole {
            front: Join {
                by,
                left: Register::<4>,
                right: held,
            },
        },
    };
    sweep_as(parts, on, t, next)
}

/// A move that joins `R` with what a row of the width holds, C or C less E, and resets that and `D`.
#[inline(always)]
fn anew_by<const N: usize, O: Operator, U: Front, V: Front>(
    by: O,
    range_start: U,
    start: V,
    on: On,
    t: &Between<'_, N>,
    next: &mut [PackedHull<N>],
) -> bool
    requires covered { IsCovered N t.now }
    requires next_packed { IsColumn N (count_in t.now.next_values.now) next.old }
    ensures packed { IsColumn N (count_in t.now.next_values.now) next.new }
    ensures taken { result ≡ true → MovesAs N t.now on
        (anew_fronts (O.op by) (U.formula range_start) (held_of (has_wide N)) (V.formula start)) next.old next.new }
    ensures kept { result ≡ false → next.new ≡ next.old }
{
    if PackedHull::<N>::is_wide() {
        let less = Join {
            by: Minus,
            left: Register::<0>,
            right: Register::<1>,
        };
        anew_as(by, range_start, less, start, on, t, next)
    } else {
        anew_as(by, range_start, Register::<0>, start, on, t, next)
    }
}

/// A move that makes `C` of `D` and the worth of two cells, and resets `D`.
#[inline(never)]
fn found_twice_as<const N: usize, O: Operator, W: Front, V: Front>(
    by: O,
    word: W,
    start: V,
    on: On,
    t: &Between<'_, N>,
    next: &mut [PackedHull<N>],
) -> bool
    requires covered { IsCovered N t.now }
    requires next_packed { IsColumn N (count_in t.now.next_values.now) next.old }
    ensures packed { IsColumn N (count_in t.now.next_values.now) next.new }
    ensures taken { result ≡ true → MovesAs N t.now on
        (found_twice_fronts (O.op by) (W.formula word) (V.formula start)) next.old next.new }
    ensures kept { result ≡ false → next.new ≡ next.old }
{
    let first = Join {
        by,
        left: Register::<2>,
        right: word,
    };
    let parts = Parts {
        c: Whole {
            front: Join {
                by,
                left: first,
                right: word,
            },
        },
        e: Whole {
            front: least_twice(),
        },
        d: Whole { front: start },
        f: Whole { front: High },
        r: Whole {
            front: Register::<4>,
        },
    };
    sweep_as(parts, on, t, next)
}

/// Takes in a move of the shape `Longer`.
#[inline(always)]
fn longer<const N: usize>(
    f: CellFold,
    on: On,
    t: &Between<'_, N>,
    next: &mut [PackedHull<N>],
) -> bool
    requires covered { IsCovered N t.now }
    requires next_packed { IsColumn N (count_in t.now.next_values.now) next.old }
    ensures packed { IsColumn N (count_in t.now.next_values.now) next.new }
    ensures taken { result ≡ true → MovesAs N t.now on
        (longer_fronts (Fold (cell_op f)) (cell_word f)) next.old next.new }
    ensures kept { result ≡ false → next.new ≡ next.old }
{
    match f {
        CellFold::Ones => longer_as(Greater, One, on, t, next),
        CellFold::Width => longer_as(Plus, One, on, t, next),
        CellFold::Surf => longer_as(Plus, This, on, t, next),
        CellFold::Greatest => longer_as(Greater, This, on, t, next),
        CellFold::Least => longer_as(Lesser, This, on, t, next),
    }
}

/// Takes in a move of the shape `Begun`.
#[inline(always)]
fn begun<const N: usize>(
    f: CellFold,
    on: On,
    t: &Between<'_, N>,
    next: &mut [PackedHull<N>],
) -> bool
    requires covered { IsCovered N t.now }
    requires next_packed { IsColumn N (count_in t.now.next_values.now) next.old }
    ensures packed { IsColumn N (count_in t.now.next_values.now) next.new }
    ensures taken { result ≡ true → MovesAs N t.now on (begun_fronts (cell_start f)) next.old next.new }
    ensures kept { result ≡ false → next.new ≡ next.old }
{
    match f {
        CellFold::Ones => begun_as(One, on, t, next),
        CellFold::Width | CellFold::Surf => begun_as(Zero, on, t, next),
        CellFold::Greatest => begun_as(Low, on, t, next),
        CellFold::Least => begun_as(High, on, t, next),
    }
}

/// Takes in a move of the shape `Found`.
#[inline(always)]
fn found<const N: usize>(
    f: CellFold,
    on: On,
    t: &Between<'_, N>,
    next: &mut [PackedHull<N>],
) -> bool
    requires covered { IsCovered N t.now }
    requires next_packed { IsColumn N (count_in t.now.next_values.now) next.old }
    ensures packed { IsColumn N (count_in t.now.next_values.now) next.new }
    ensures taken { result ≡ true → MovesAs N t.now on
        (found_fronts (Fold (cell_op f)) (cell_word f) (cell_start f)) next.old next.new }
    ensures kept { result ≡ false → next.new ≡ next.old }
{
    match f {
        CellFold::Ones => found_as(Greater, One, One, on, t, next),
        CellFold::Width => found_as(Plus, One, Zero, on, t, next),
        CellFold::Surf => found_as(Plus, This, Zero, on, t, next),
        CellFold::Greatest => found_as(Greater, This, Low, on, t, next),
        CellFold::Least => found_as(Lesser, This, High, on, t, next),
    }
}

/// Takes in a move of the shape `Inside`.
#[inline(always)]
fn inside<const N: usize>(
    f: CellFold,
    on: On,
    t: &Between<'_, N>,
    next: &mut [PackedHull<N>],
) -> bool
    requires covered { IsCovered N t.now }
    requires next_packed { IsColumn N (count_in t.now.next_values.now) next.old }
    ensures packed { IsColumn N (count_in t.now.next_values.now) next.new }
    ensures taken { result ≡ true → MovesAs N t.now on
        (inside_fronts (Fold (cell_op f)) (cell_word f) (cell_start f)) next.old next.new }
    ensures kept { result ≡ false → next.new ≡ next.old }
{
    match f {
        CellFold::Ones => inside_as(Greater, One, One, on, t, next),
        CellFold::Width => inside_as(Plus, One, Zero, on, t, next),
        CellFold::Surf => inside_as(Plus, This, Zero, on, t, next),
        CellFold::Greatest => inside_as(Greater, This, Low, on, t, next),
        CellFold::Least => inside_as(Lesser, This, High, on, t, next),
    }
}

/// Takes in a move that ends ranges, with any operator for them, by a sum and a difference.
#[inline(always)]
fn ended_from<const N: usize, S: Operator, M: Operator, X: Front, Y: Front, V: Front>(
    g: RangeFold,
    plus: S,
    minus: M,
    found: X,
    low: Y,
    start: V,
    on: On,
    t: &Between<'_, N>,
    next: &mut [PackedHull<N>],
) -> bool
    requires sum { S.op plus ≡ Fold Add }
    requires difference { M.op minus ≡ Sub }
    requires covered { IsCovered N t.now }
    requires next_packed { IsColumn N (count_in t.now.next_values.now) next.old }
    ensures packed { IsColumn N (count_in t.now.next_values.now) next.new }
    ensures taken { result ≡ true → MovesAs N t.now on (ended_fronts (Fold (range_op g))
        (less_of (has_wide N) (X.formula found) (Y.formula low)) (V.formula start)) next.old next.new }
    ensures kept { result ≡ false → next.new ≡ next.old }
{
    match g {
        RangeFold::Sum => ended_by(plus, minus, found, low, start, on, t, next),
        RangeFold::Highest => ended_by(Greater, minus, found, low, start, on, t, next),
        RangeFold::Lowest => ended_by(Lesser, minus, found, low, start, on, t, next),
    }
}

/// Takes in a move that ends ranges whose cells begin with an infinity, which no plain sum takes: where one may still
/// be in `D`, sums are clamped.
#[inline(always)]
fn ended_open<const N: usize, X: Front, Y: Front, V: Front>(
    g: RangeFold,
    found: X,
    low: Y,
    start: V,
    on: On,
    t: &Between<'_, N>,
    next: &mut [PackedHull<N>],
) -> bool
    requires covered { IsCovered N t.now }
    requires next_packed { IsColumn N (count_in t.now.next_values.now) next.old }
    ensures packed { IsColumn N (count_in t.now.next_values.now) next.new }
    ensures taken { result ≡ true → MovesAs N t.now on (ended_fronts (Fold (range_op g))
        (less_of (has_wide N) (X.formula found) (Y.formula low)) (V.formula start)) next.old next.new }
    ensures kept { result ≡ false → next.new ≡ next.old }
{
    if ended_from(g, Plus, Minus, found, low, start, on, t, next) {
        return true;
    }
    ended_from(g, ClampedPlus, ClampedMinus, found, low, start, on, t, next)
}

/// Takes in a move of the shape `Ended`.
#[inline(always)]
fn ended<const N: usize>(
    g: RangeFold,
    f: CellFold,
    on: On,
    t: &Between<'_, N>,
    next: &mut [PackedHull<N>],
) -> bool
    requires covered { IsCovered N t.now }
    requires next_packed { IsColumn N (count_in t.now.next_values.now) next.old }
    ensures packed { IsColumn N (count_in t.now.next_values.now) next.new }
    ensures taken { result ≡ true → MovesAs N t.now on (ended_fronts (Fold (range_op g))
        (found_of (has_wide N) (Fold (cell_op f)) (cell_word f)) (cell_start f)) next.old next.new }
    ensures kept { result ≡ false → next.new ≡ next.old }
{
    let low = least(Register::<3>);
    match f {
        CellFold::Ones => ended_from(g, Plus, Minus, once(Greater, One), low, One, on, t, next),
        CellFold::Width => ended_from(g, Plus, Minus, once(Plus, One), low, Zero, on, t, next),
        CellFold::Surf => ended_from(g, Plus, Minus, once(Plus, This), low, Zero, on, t, next),
        CellFold::Greatest => ended_open(g, once(Greater, This), low, Low, on, t, next),
        CellFold::Least => ended_open(g, once(Lesser, This), low, High, on, t, next),
    }
}

/// Takes in a move of the shape `Anew`, with any operator for the ranges.
#[inline(always)]
fn anew_from<const N: usize, V: Front>(
    g: RangeFold,
    start: V,
    on: On,
    t: &Between<'_, N>,
    next: &mut [PackedHull<N>],
) -> bool
    requires covered { IsCovered N t.now }
    requires next_packed { IsColumn N (count_in t.now.next_values.now) next.old }
    ensures packed { IsColumn N (count_in t.now.next_values.now) next.new }
    ensures taken { result ≡ true → MovesAs N t.now on
        (anew_fronts (Fold (range_op g)) (range_start g) (held_of (has_wide N)) (V.formula start)) next.old next.new }
    ensures kept { result ≡ false → next.new ≡ next.old }
{
    match g {
        RangeFold::Sum => anew_by(Plus, Zero, start, on, t, next),
        RangeFold::Highest => anew_by(Greater, Low, start, on, t, next),
        RangeFold::Lowest => anew_by(Lesser, High, start, on, t, next),
    }
}

/// Takes in a move of the shape `Anew`.
#[inline(always)]
fn anew<const N: usize>(
    g: RangeFold,
    f: CellFold,
    on: On,
    t: &Between<'_, N>,
    next: &mut [PackedHull<N>],
) -> bool
    requires covered { IsCovered N t.now }
    requires next_packed { IsColumn N (count_in t.now.next_values.now) next.old }
    ensures packed { IsColumn N (count_in t.now.next_values.now) next.new }
    ensures taken { result ≡ true → MovesAs N t.now on
        (anew_fronts (Fold (range_op g)) (range_start g) (held_of (has_wide N)) (cell_start f)) next.old next.new }
    ensures kept { result ≡ false → next.new ≡ next.old }
{
    match f {
        CellFold::Ones => anew_from(g, One, on, t, next),
        CellFold::Width | CellFold::Surf => anew_from(g, Zero, on, t, next),
        CellFold::Greatest => anew_from(g, Low, on, t, next),
        CellFold::Least => anew_from(g, High, on, t, next),
    }
}

/// Takes in a move of the shape `FoundTwice`.
#[inline(always)]
fn found_twice<const N: usize>(
    f: CellFold,
    on: On,
    t: &Between<'_, N>,
    next: &mut [PackedHull<N>],
) -> bool
    requires covered { IsCovered N t.now }
    requires next_packed { IsColumn N (count_in t.now.next_values.now) next.old }
    ensures packed { IsColumn N (count_in t.now.next_values.now) next.new }
    ensures taken { result ≡ true → MovesAs N t.now on
        (found_twice_fronts (Fold (cell_op f)) (cell_word f) (cell_start f)) next.old next.new }
    ensures kept { result ≡ false → next.new ≡ next.old }
{
    match f {
        CellFold::Ones => found_twice_as(Greater, One, One, on, t, next),
        CellFold::Width => found_twice_as(Plus, One, Zero, on, t, next),
        CellFold::Surf => found_twice_as(Plus, This, Zero, on, t, next),
        CellFold::Greatest => found_twice_as(Greater, This, Low, on, t, next),
        CellFold::Least => found_twice_as(Lesser, This, High, on, t, next),
    }
}

/// Takes in a move of the shape `EndedTwice`.
#[inline(always)]
fn ended_twice<const N: usize>(
    g: RangeFold,
    f: CellFold,
    on: On,
    t: &Between<'_, N>,
    next: &mut [PackedHull<N>],
) -> bool
    requires covered { IsCovered N t.now }
    requires next_packed { IsColumn N (count_in t.now.next_values.now) next.old }
    ensures packed { IsColumn N (count_in t.now.next_values.now) next.new }
    ensures taken { result ≡ true → MovesAs N t.now on (ended_fronts (Fold (range_op g))
        (found_twice_of (has_wide N) (Fold (cell_op f)) (cell_word f)) (cell_start f)) next.old next.new }
    ensures kept { result ≡ false → next.new ≡ next.old }
{
    let low = least_twice();
    match f {
        CellFold::Ones => ended_from(g, Plus, Minus, twice(Greater, One), low, One, on, t, next),
        CellFold::Width => ended_from(g, Plus, Minus, twice(Plus, One), low, Zero, on, t, next),
        CellFold::Surf => ended_from(g, Plus, Minus, twice(Plus, This), low, Zero, on, t, next),
        CellFold::Greatest => ended_open(g, twice(Greater, This), low, Low, on, t, next),
        CellFold::Least => ended_open(g, twice(Lesser, This), low, High, on, t, next),
    }
}

/// Takes in a move by the sweep of its shape, if its sums stay small.
pub(crate) fn take_shape<const N: usize>(
    shape: Shape,
    on: On,
    t: &Between<'_, N>,
    next: &mut [PackedHull<N>],
) -> bool
    requires covered { IsCovered N t.now }
    requires next_packed { IsColumn N (count_in t.now.next_values.now) next.old }
    ensures packed { IsColumn N (count_in t.now.next_values.now) next.new }
    ensures taken { result ≡ true → IsShapeTaken N t.now on shape next.old next.new }
    ensures kept { result ≡ false → next.new ≡ next.old }
{
    match shape {
        Shape::Kept => sweep_as(Keep, on, t, next),
        Shape::Longer(f) => longer(f, on, t, next),
        Shape::Begun(f) => begun(f, on, t, next),
        Shape::Found(f) => found(f, on, t, next),
        Shape::Inside(f) => inside(f, on, t, next),
        Shape::Ended(g, f) => ended(g, f, on, t, next),
        Shape::Anew(g, f) => anew(g, f, on, t, next),
        Shape::FoundTwice(f) => found_twice(f, on, t, next),
        Shape::EndedTwice(g, f) => ended_twice(g, f, on, t, next),
        Shape::LongerNext(f) => longer_next(f, on, t, next),
        Shape::FoundNext(f) => found_next(f, on, t, next),
        Shape::InsideNext(f) => inside_next(f, on, t, next),
        Shape::Other => false,
    }
}
