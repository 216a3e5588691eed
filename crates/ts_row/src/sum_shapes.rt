//! Moves that join `R` with what is found of two cells: swept where a letter says which cell is the greater. They join
//! it with that cell or the other, or add their difference.

ghost use Rattle.std.specs.Prelude.{◌≡◌, false, true};
ghost use Rattle.ts_automaton.specs.Body.{move_of};
ghost use Rattle.ts_automaton.specs.Formula.{Join as Joined, Leaf};
ghost use Rattle.ts_automaton.specs.declared.expr.Atom.TheVariants.{R, This as ThisWord};
ghost use Rattle.ts_automaton.specs.declared.expr.Operator.TheVariants.{Fold, Sub};
ghost use Rattle.ts_base.specs.declared.op.Op.TheVariants.{Add, Max};
ghost use Rattle.ts_hull.specs.Splits.{TailOf, is_swept, split_formula};
ghost use Rattle.ts_row.specs.Plans.{emitted_cut};
ghost use Rattle.ts_row.specs.Rows.{IsColumn};
ghost use Rattle.ts_row.specs.Takings.{AreEmitted, HasMoved, IsCovered, MovesAs, TurnsAs, count_in};
ghost use Rattle.ts_sweep.specs.Fronts.{IsMoveFor};
ghost use Rattle.ts_sweep.specs.PairMoves.{emission, found_atom, pair_op, start_atom};
ghost use Rattle.ts_sweep.specs.Sides.{has_wide, sides};

use crate::between::{Between, On};
use crate::cell::Cell;
use crate::next_shapes::sweep_next;
use ts_automaton::Op;
use ts_base::Letter;
use ts_sweep::front::{Front, High, Join, Low, Register, This};
use ts_sweep::moves::Parts;
use ts_sweep::operator::{Folds, Greater, Lesser, Minus, Plus};
use ts_sweep::packed::{Packed, PackedHull};
use ts_sweep::pair_move::Emission;
use ts_sweep::part::{Part, Tail, Whole};
use ts_sweep::turned::take_turned;

/// Takes in a move that makes `R` of an expression and resets `D`, by a sweep, if its numbers and sums stay small.
#[inline(never)]
fn emitted_as<const N: usize, V: Front, P: Part>(
    start: V,
    ranges: P,
    on: On,
    t: &Between<'_, N>,
    next: &mut [PackedHull<N>],
) -> bool
    requires swept { is_swept (P.split ranges) ≡ true }
    requires covered { IsCovered N t.now }
    requires next_packed { IsColumn N (count_in t.now.next_values.now) next.old }
    ensures packed { IsColumn N (count_in t.now.next_values.now) next.new }
    ensures taken { result ≡ true →
        MovesAs N t.now on (emitted_cut (V.formula start) (P.split ranges)) next.old next.new }
    ensures kept { result ≡ false → next.new ≡ next.old }
{
    let parts = Parts {
        c: Whole {
            front: Register::<0>,
        },
        e: Whole {
            front: Register::<1>,
        },
        d: Whole { front: start },
        f: Whole { front: High },
        r: ranges,
    };
    sweep_next(parts, on, t, next)
}

/// Takes in a move that joins `R` with the greater of two cells, or the lesser, by a sweep: which of them it is a
/// letter says.
fn join_cell<const N: usize, O: Folds>(
    by: O,
    greatest: bool,
    on: On,
    t: &Between<'_, N>,
    next: &mut [PackedHull<N>],
) -> bool
    requires covered { IsCovered N t.now }
    requires next_packed { IsColumn N (count_in t.now.next_values.now) next.old }
    ensures packed { IsColumn N (count_in t.now.next_values.now) next.new }
    ensures taken { result ≡ true → MovesAs N t.now on (emitted_cut (Leaf (start_atom (pair_op greatest)))
        (split_formula (Joined (Fold (O.fold by)) (Leaf R) (Leaf (found_atom on.letter greatest)))))
        next.old next.new }
    ensures kept { result ≡ false → next.new ≡ next.old }
{
    let this = Whole {
        front: Join {
            by,
            left: Register::<4>,
            right: This,
        },
    };
    let next_cell = Tail {
        by,
        front: Register::<4>,
    };
    match (on.letter, greatest) {
        (Letter::Less, true) => emitted_as(Low, next_cell, on, t, next),
        (Letter::Less, false) => emitted_as(High, this, on, t, next),
        (Letter::Greater, true) => emitted_as(Low, this, on, t, next),
        (Letter::Greater, false) => emitted_as(High, next_cell, on, t, next),
        (Letter::Equal, _) => false,
    }
}

/// Takes in a move that joins `R` with the greater of two cells, or the lesser, by an operator.
fn join_by<const N: usize>(
    ranges: Op,
    greatest: bool,
    on: On,
    t: &Between<'_, N>,
    next: &mut [PackedHull<N>],
) -> bool
    requires covered { IsCovered N t.now }
    requires next_packed { IsColumn N (count_in t.now.next_values.now) next.old }
    ensures packed { IsColumn N (count_in t.now.next_values.now) next.new }
    ensures taken { result ≡ true → MovesAs N t.now on (emitted_cut (Leaf (start_atom (pair_op greatest)))
        (split_formula (Joined (Fold ranges) (Leaf R) (Leaf (found_atom on.letter greatest))))) next.old next.new }
    ensures kept { result ≡ false → next.new ≡ next.old }
{
    match ranges {
        Op::Add => join_cell(Plus, greatest, on, t, next),
        Op::Max => join_cell(Greater, greatest, on, t, next),
        Op::Min => join_cell(Lesser, greatest, on, t, next),
    }
}

/// Takes in an emission of a narrow automaton by a sweep, if it joins `R` with the greater or the lesser cell.
fn join_found<const N: usize>(
    by: Emission<'_>,
    on: On,
    t: &Between<'_, N>,
    next: &mut [PackedHull<N>],
) -> bool
    requires narrow { has_wide N ≡ false }
    requires covered { IsCovered N t.now }
    requires suits { IsMoveFor (sides N) (move_of by.turn.now) }
    requires made { (move_of by.turn.now).to ≡ emission (has_wide N) by.ranges by.cells }
    requires fit { AreEmitted N by (count_in t.now.values.now) t.now.before.now }
    requires next_packed { IsColumn N (count_in t.now.next_values.now) next.old }
    ensures packed { IsColumn N (count_in t.now.next_values.now) next.new }
    ensures moved { result ≡ true → HasMoved N t.now on (move_of by.entry.turn.now) next.old next.new }
    ensures kept { result ≡ false → next.new ≡ next.old }
{
    match by.cells {
        Op::Max => join_by(by.ranges, true, on, t, next),
        Op::Min => join_by(by.ranges, false, on, t, next),
        Op::Add => false,
    }
}

/// Takes in a move that adds the next cell less the cell to `R`, by a sweep.
fn add_rise<const N: usize>(on: On, t: &Between<'_, N>, next: &mut [PackedHull<N>]) -> bool
    requires covered { IsCovered N t.now }
    requires next_packed { IsColumn N (count_in t.now.next_values.now) next.old }
    ensures packed { IsColumn N (count_in t.now.next_values.now) next.new }
    ensures taken { result ≡ true → MovesAs N t.now on
        (emitted_cut (Leaf (start_atom Max)) (TailOf Add (Joined Sub (Leaf R) (Leaf ThisWord)))) next.old next.new }
    ensures kept { result ≡ false → next.new ≡ next.old }
{
    let less = Join {
        by: Minus,
        left: Register::<4>,
        right: This,
    };
    let rise = Tail {
        by: Plus,
        front: less,
    };
    emitted_as(Low, rise, on, t, next)
}

/// Takes in a move that adds the cell to `R`, and the next one negated, by a sweep.
fn add_fall<const N: usize>(on: On, t: &Between<'_, N>, next: &mut [PackedHull<N>]) -> bool
    requires covered { IsCovered N t.now }
    requires next_packed { IsColumn N (count_in t.now.next_values.now) next.old }
    ensures packed { IsColumn N (count_in t.now.next_values.now) next.new }
    ensures taken { result ≡ true → TurnsAs N t.now on (emitted_cut (Leaf (start_atom Max))
        (TailOf Add (Joined (Fold Add) (Leaf R) (Leaf ThisWord)))) next.old next.new }
    ensures kept { result ≡ false → next.new ≡ next.old }
{
    let sum = Join {
        by: Plus,
        left: Register::<4>,
        right: This,
    };
    let parts = Parts {
        c: Whole {
            front: Register::<0>,
        },
        e: Whole {
            front: Register::<1>,
        },
        d: Whole { front: Low },
        f: Whole { front: High },
        r: Tail {
            by: Plus,
            front: sum,
        },
    };
    take_turned::<PackedHull<N>, _, &Cell<'_>, &Cell<'_>>(
        parts,
        on.letter,
        on.twin,
        t.cover,
        t.values,
        t.before,
        t.next_values,
        next,
    )
}

/// Takes in an emission that adds the difference of both cells to `R`, by a sweep: on `<` it is the next cell less the
/// cell, on `>` the cell less the next one.
fn add_difference<const N: usize>(
    by: Emission<'_>,
    on: On,
    t: &Between<'_, N>,
    next: &mut [PackedHull<N>],
) -> bool
    requires wide { has_wide N ≡ true }
    requires adds { by.ranges ≡ Add }
    requires covered { IsCovered N t.now }
    requires suits { IsMoveFor (sides N) (move_of by.turn.now) }
    requires made { (move_of by.turn.now).to ≡ emission (has_wide N) by.ranges by.cells }
    requires one { by.cells ≡ Max }
    requires fit { AreEmitted N by (count_in t.now.values.now) t.now.before.now }
    requires next_packed { IsColumn N (count_in t.now.next_values.now) next.old }
    ensures packed { IsColumn N (count_in t.now.next_values.now) next.new }
    ensures moved { result ≡ true → HasMoved N t.now on (move_of by.entry.turn.now) next.old next.new }
    ensures kept { result ≡ false → next.new ≡ next.old }
{
    let _by = by;
    match on.letter {
        Letter::Less => add_rise(on, t, next),
        Letter::Greater => add_fall(on, t, next),
        Letter::Equal => false,
    }
}

/// Takes in an emission by a sweep, if it joins `R` with the greater or the lesser cell, or adds their difference, and
/// a letter says which cell is the greater.
pub(crate) fn sweep_found<const N: usize>(
    by: Emission<'_>,
    on: On,
    t: &Between<'_, N>,
    next: &mut [PackedHull<N>],
) -> bool
    requires covered { IsCovered N t.now }
    requires suits { IsMoveFor (sides N) (move_of by.turn.now) }
    requires made { (move_of by.turn.now).to ≡ emission (has_wide N) by.ranges by.cells }
    requires one { has_wide N ≡ true → by.cells ≡ Max }
    requires fit { AreEmitted N by (count_in t.now.values.now) t.now.before.now }
    requires next_packed { IsColumn N (count_in t.now.next_values.now) next.old }
    ensures packed { IsColumn N (count_in t.now.next_values.now) next.new }
    ensures moved { result ≡ true → HasMoved N t.now on (move_of by.entry.turn.now) next.old next.new }
    ensures kept { result ≡ false → next.new ≡ next.old }
{
    if !PackedHull::<N>::is_wide() {
        return join_found(by, on, t, next);
    }
    match by.ranges {
        Op::Add => add_difference(by, on, t, next),
        _ => false,
    }
}
