//! Moves over pairs of values whose operators are known, so that the compiler makes a loop for each.

ghost use Rattle.std.specs.Prelude.{◌≡◌, ◌<◌, IfSome, ℕ, ℤ, List, false, get_or, true};
ghost use Rattle.ts_automaton.specs.Body.{Move, move_of};
ghost use Rattle.ts_automaton.specs.Registers.{rests};
ghost use Rattle.ts_automaton.specs.Formula.{is_zero};
ghost use Rattle.ts_base.specs.declared.op.Op.TheVariants.{Add, Max};
ghost use Rattle.ts_row.specs.Plans.{AreOperatorsOf};
ghost use Rattle.ts_row.specs.Rows.{IsColumn, lanes_of, nothing};
ghost use Rattle.ts_row.specs.Takings.{AreEmitted, HasMoved, IsCovered, count_in};
ghost use Rattle.ts_sweep.specs.declared.packed.Name.TheVariants.{R as NameR};
ghost use Rattle.ts_sweep.specs.Covers.{IsBounded};
ghost use Rattle.ts_sweep.specs.Fronts.{IsMoveFor};
ghost use Rattle.ts_sweep.specs.Lanes.{some_lanes};
ghost use Rattle.ts_sweep.specs.Packed.{AreWithin, name_ends};
ghost use Rattle.ts_sweep.specs.PairMoves.{IsBegun, emission, pair_op};
ghost use Rattle.ts_sweep.specs.Sides.{as_read, has_wide, lane_count, sides};

use crate::between::{Between, On};
use crate::cell::Cell;
use crate::emission::Operators;
use crate::sum_shapes::sweep_found;
use ts_automaton::{Op, Turn};
use ts_base::Letter;
use ts_sweep::cover::Cover;
use ts_sweep::front::{Front, Register};
use ts_sweep::packed::{Packed, PackedHull};
use ts_sweep::pair_move::{AnyMove, Emission, PairMove, are_begun};
use ts_sweep::pairs::take_pairs;
use ts_sweep::spread::take_spread;
use ts_sweep::values::Listed;

/// Whether sums of R and what is found stay small.
#[inline(always)]
fn is_plain(ranges: Op, cover: &Cover) -> bool
    ensures { result ≡ true → ranges ≡ Add → (xs : List ℤ) → IsBounded cover.now xs → AreWithin 1 (name_ends xs NameR) }
{
    ranges != Op::Add || Register::<4>.is_fit(true, cover)
}

/// Takes in a move by pairs of values. The loops over them are given the values by themselves and not their cells, so
/// that they needn't look for them at each pair.
#[inline(always)]
fn take_listed<const N: usize, M: PairMove>(
    by: M,
    on: On,
    t: &Between<'_, N>,
    next: &mut [PackedHull<N>],
)
    requires covered { IsCovered N t.now }
    requires width { rests is_zero (has_wide N) (M.made by).to ≡ true }
    requires suits { IsMoveFor (sides N) (M.made by) }
    requires fit { (i : ℕ) → i < count_in t.now.values.now →
        some_lanes (lanes_of N (get_or t.now.before.now i (nothing N))) ≡ true →
        M.fit by (sides N) (lane_count N) (as_read (sides N) (lanes_of N (get_or t.now.before.now i (nothing N)))) }
    requires next_packed { IsColumn N (count_in t.now.next_values.now) next.old }
    ensures packed { IsColumn N (count_in t.now.next_values.now) next.new }
    ensures moved { HasMoved N t.now on (M.made by) next.old next.new }
{
    take_pairs::<PackedHull<N>, M, Listed<'_>, Listed<'_>>(
        by,
        on.letter,
        on.twin,
        Listed {
            values: t.values.values,
        },
        t.before,
        Listed {
            values: t.next_values.values,
        },
        next,
    );
}

/// Takes in an emission.
#[inline(always)]
fn emit_as<const N: usize>(by: Emission<'_>, on: On, t: &Between<'_, N>, next: &mut [PackedHull<N>])
    requires covered { IsCovered N t.now }
    requires width { rests is_zero (has_wide N) (move_of by.turn.now).to ≡ true }
    requires suits { IsMoveFor (sides N) (move_of by.turn.now) }
    requires fit { AreEmitted N by (count_in t.now.values.now) t.now.before.now }
    requires next_packed { IsColumn N (count_in t.now.next_values.now) next.old }
    ensures packed { IsColumn N (count_in t.now.next_values.now) next.new }
    ensures moved { HasMoved N t.now on (move_of by.entry.turn.now) next.old next.new }
{
    take_listed(by, on, t, next);
}

/// An emission whose operators are those given.
#[inline(always)]
fn with_operators<'a>(by: Emission<'a>, ranges: Op, cells: Op) -> Emission<'a>
    requires ranges { by.ranges ≡ ranges }
    requires cells { by.cells ≡ cells }
    ensures { result ≡ by.entry }
{
    Emission {
        turn: by.turn,
        ranges,
        cells,
    }
}

/// Takes in an emission: a loop for each operator of ranges and of cells.
fn emit<const N: usize>(by: Emission<'_>, on: On, t: &Between<'_, N>, next: &mut [PackedHull<N>])
    requires covered { IsCovered N t.now }
    requires width { rests is_zero (has_wide N) (move_of by.turn.now).to ≡ true }
    requires suits { IsMoveFor (sides N) (move_of by.turn.now) }
    requires fit { AreEmitted N by (count_in t.now.values.now) t.now.before.now }
    requires next_packed { IsColumn N (count_in t.now.next_values.now) next.old }
    ensures packed { IsColumn N (count_in t.now.next_values.now) next.new }
    ensures moved { HasMoved N t.now on (move_of by.entry.turn.now) next.old next.new }
{
    match (by.ranges, by.cells) {
        (Op::Add, Op::Add) => emit_as(with_operators(by, Op::Add, Op::Add), on, t, next),
        (Op::Max, Op::Add) => emit_as(with_operators(by, Op::Max, Op::Add), on, t, next),
        (Op::Min, Op::Add) => emit_as(with_operators(by, Op::Min, Op::Add), on, t, next),
        (Op::Add, Op::Max) => emit_as(with_operators(by, Op::Add, Op::Max), on, t, next),
        (Op::Max, Op::Max) => emit_as(with_operators(by, Op::Max, Op::Max), on, t, next),
        (Op::Min, Op::Max) => emit_as(with_operators(by, Op::Min, Op::Max), on, t, next),
        (Op::Add, Op::Min) => emit_as(with_operators(by, Op::Add, Op::Min), on, t, next),
        (Op::Max, Op::Min) => emit_as(with_operators(by, Op::Max, Op::Min), on, t, next),
        (Op::Min, Op::Min) => emit_as(with_operators(by, Op::Min, Op::Min), on, t, next),
    }
}

/// Takes in an emission: by the sweep of what it joins R with where that may be, or else by pairs of values.
fn take_found<const N: usize>(
    by: Emission<'_>,
    on: On,
    t: &Between<'_, N>,
    next: &mut [PackedHull<N>],
)
    requires covered { IsCovered N t.now }
    requires width { rests is_zero (has_wide N) (move_of by.turn.now).to ≡ true }
    requires suits { IsMoveFor (sides N) (move_of by.turn.now) }
    requires made { (move_of by.turn.now).to ≡ emission (has_wide N) by.ranges by.cells }
    requires one { has_wide N ≡ true → by.cells ≡ Max }
    requires fit { AreEmitted N by (count_in t.now.values.now) t.now.before.now }
    requires next_packed { IsColumn N (count_in t.now.next_values.now) next.old }
    ensures packed { IsColumn N (count_in t.now.next_values.now) next.new }
    ensures moved { HasMoved N t.now on (move_of by.entry.turn.now) next.old next.new }
{
    if sweep_found(by, on, t, next) {
        return;
    }
    emit(by, on, t, next);
}

/// Whether the greatest of the ranges is taken, or the least, where a move that takes in ranges may be swept.
#[inline(always)]
fn spread_of<const N: usize>(ranges: Op, letter: Letter) -> Option<bool>
    ensures { IfSome result (λ greatest. (has_wide N ≡ true) × (ranges ≡ pair_op greatest)) }
{
    if !PackedHull::<N>::is_wide() {
        return None;
    }
    match (ranges, letter) {
        (_, Letter::Equal) | (Op::Add, _) => None,
        (Op::Max, _) => Some(true),
        (Op::Min, _) => Some(false),
    }
}

/// Takes in a move that joins R with the difference of both cells, by the greatest or else by the least.
#[inline(never)]
fn spread<const N: usize>(greatest: bool, on: On, t: &Between<'_, N>, next: &mut [PackedHull<N>])
    requires covered { IsCovered N t.now }
    requires wide { has_wide N ≡ true }
    requires begun { (i : ℕ) → i < count_in t.now.values.now →
        some_lanes (lanes_of N (get_or t.now.before.now i (nothing N))) ≡ true →
        IsBegun (sides N) true Max (as_read (sides N) (lanes_of N (get_or t.now.before.now i (nothing N)))) }
    requires next_packed { IsColumn N (count_in t.now.next_values.now) next.old }
    ensures packed { IsColumn N (count_in t.now.next_values.now) next.new }
    ensures moved { (m : Move) → m.to ≡ emission true (pair_op greatest) Max →
        HasMoved N t.now on m next.old next.new }
{
    take_spread::<PackedHull<N>, &Cell<'_>, &Cell<'_>>(
        greatest,
        on.letter,
        on.twin,
        t.values,
        t.before,
        t.next_values,
        next,
    );
}

/// Takes in an emission: by a sweep where that may be, or else by pairs of values.
fn take_begun<const N: usize>(
    by: Emission<'_>,
    on: On,
    t: &Between<'_, N>,
    next: &mut [PackedHull<N>],
)
    requires covered { IsCovered N t.now }
    requires width { rests is_zero (has_wide N) (move_of by.turn.now).to ≡ true }
    requires suits { IsMoveFor (sides N) (move_of by.turn.now) }
    requires made { (move_of by.turn.now).to ≡ emission (has_wide N) by.ranges by.cells }
    requires one { has_wide N ≡ true → by.cells ≡ Max }
    requires fit { AreEmitted N by (count_in t.now.values.now) t.now.before.now }
    requires next_packed { IsColumn N (count_in t.now.next_values.now) next.old }
    ensures packed { IsColumn N (count_in t.now.next_values.now) next.new }
    ensures moved { HasMoved N t.now on (move_of by.entry.turn.now) next.old next.new }
{
    match spread_of::<N>(by.ranges, on.letter) {
        Some(greatest) => spread(greatest, on, t, next),
        None => take_found(by, on, t, next),
    }
}

/// Takes in a move as an emission, if it is one, by its operators.
fn take_emission<const N: usize>(
    turn: &Turn,
    operators: Option<Operators>,
    on: On,
    t: &Between<'_, N>,
    next: &mut [PackedHull<N>],
) -> bool
    requires covered { IsCovered N t.now }
    requires width { rests is_zero (has_wide N) (move_of turn.now).to ≡ true }
    requires suits { IsMoveFor (sides N) (move_of turn.now) }
    requires operators { IfSome operators (AreOperatorsOf (has_wide N) (move_of turn.now)) }
    requires next_packed { IsColumn N (count_in t.now.next_values.now) next.old }
    ensures packed { IsColumn N (count_in t.now.next_values.now) next.new }
    ensures moved { result ≡ true → HasMoved N t.now on (move_of turn.now) next.old next.new }
    ensures kept { result ≡ false → next.new ≡ next.old }
{
    match operators {
        Some(found) => {
            if is_plain(found.ranges, t.cover)
                && are_begun::<PackedHull<N>>(t.before, found.cells)
            {
                take_begun(
                    Emission {
                        turn,
                        ranges: found.ranges,
                        cells: found.cells,
                    },
                    on,
                    t,
                    next,
                );
                true
            } else {
                false
            }
        }
        None => false,
    }
}

/// Takes in a move by pairs of values, if it can't be swept: by a loop for its operators, or else by its expressions.
pub(crate) fn take_by_pairs<const N: usize>(
    turn: &Turn,
    operators: Option<Operators>,
    on: On,
    t: &Between<'_, N>,
    next: &mut [PackedHull<N>],
)
    requires covered { IsCovered N t.now }
    requires width { rests is_zero (has_wide N) (move_of turn.now).to ≡ true }
    requires suits { IsMoveFor (sides N) (move_of turn.now) }
    requires operators { IfSome operators (AreOperatorsOf (has_wide N) (move_of turn.now)) }
    requires next_packed { IsColumn N (count_in t.now.next_values.now) next.old }
    ensures packed { IsColumn N (count_in t.now.next_values.now) next.new }
    ensures moved { HasMoved N t.now on (move_of turn.now) next.old next.new }
{
    if take_emission(turn, operators, on, t, next) {
        return;
    }
    take_listed(AnyMove { turn }, on, t, next);
}
