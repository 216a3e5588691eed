//! A row from the row before, state by state.

ghost use Rattle.std.specs.Prelude.{◌≡◌, ℕ, ◌+◌, ◌*◌, ◌<◌, ◌≤◌, IfOk, false, true, get_or, length, slice_range};
ghost use Rattle.ts_automaton.specs.Body.{move_of};
ghost use Rattle.ts_automaton.specs.Formula.{is_zero};
ghost use Rattle.ts_automaton.specs.Registers.{rests};
ghost use Rattle.ts_base.specs.declared.letter.Letter.TheVariants.{Equal};
ghost use Rattle.ts_hull.specs.Sealed.{move_at};
ghost use Rattle.ts_row.specs.Plans.{IsMovePlan, IsPlanAt, IsPlanOf, IsStatePlan, is_equal};
ghost use Rattle.ts_row.specs.Rows.{HasTaken, IsColumn, IsRow, hull_in, lanes_of, next_hull, nothing, seen_gives};
ghost use Rattle.ts_row.specs.Takings.{HasMoved, HasTakenAt, IsCovered, count_in, taken_to, two_taken_to, value_in};
ghost use Rattle.ts_sweep.specs.Columns.{hull_at};
ghost use Rattle.ts_sweep.specs.Fronts.{IsMoveFor};
ghost use Rattle.ts_sweep.specs.Sides.{has_wide, lane_count, seen_hull, sides};

use crate::between::{Between, On};
use crate::cell::Cell;
use crate::packed_row::PackedRow;
use crate::pair_shapes::take_by_pairs;
use crate::plan::{Equals, MovePlan, Plan, StatePlan, turn};
use crate::row_view::RowView;
use crate::shapes::take_shape;
use crate::state_cover::{is_reached, state_cover};
use std::alloc::Global;
use ts_automaton::{Automaton, Turn};
use ts_base::{Letter, Memory};
use ts_sweep::here::take_equal;
use ts_sweep::hull::Hull;
use ts_sweep::packed::PackedHull;
use ts_sweep::swept::take_swept;

/// A move, with its plan and the letter on which it is taken in.
#[derive(Clone, Copy)]
struct Planned<'a> {
    turn: &'a Turn,
    plan: &'a MovePlan,
    on: On,
}

/// The move of a state on a letter, as it is planned.
#[inline(always)]
fn planned_move<'a, const N: usize>(
    a: &'a Automaton,
    q: u8,
    letter: Letter,
    twin: bool,
    plan: &'a MovePlan,
) -> Planned<'a>
    requires width { a.now.wide ≡ has_wide N }
    requires state { q < length a.now.states }
    requires alone { letter ≡ Equal → twin ≡ false }
    requires plan { IsPlanAt a.now q letter plan.now }
    ensures value { move_of result.turn.now ≡ move_at a.now q letter }
    ensures leads { result.turn.now.next < length a.now.states }
    ensures rests { rests is_zero (has_wide N) (move_of result.turn.now).to ≡ true }
    ensures suits { IsMoveFor (sides N) (move_of result.turn.now) }
    ensures plan { IsMovePlan (has_wide N) result.plan.now (is_equal result.on.letter) (move_of result.turn.now) }
    ensures letter { result.on.letter ≡ letter }
    ensures twin { result.on.twin ≡ twin }
{
    Planned {
        turn: turn(a, q, letter),
        plan,
        on: On { letter, twin },
    }
}

/// Takes a move into a column by a sweep that evaluates its expressions, if the plan has found how they read the next
/// cell. On `=` it can be swept whatever they read, since the next cell is the cell.
fn take_tree<const N: usize>(m: Planned<'_>, t: &Between<'_, N>, next: &mut [PackedHull<N>]) -> bool
    requires covered { IsCovered N t.now }
    requires width { rests is_zero (has_wide N) (move_of m.turn.now).to ≡ true }
    requires plan { IsMovePlan (has_wide N) m.plan.now (is_equal m.on.letter) (move_of m.turn.now) }
    requires next_packed { IsColumn N (count_in t.now.next_values.now) next.old }
    ensures packed { IsColumn N (count_in t.now.next_values.now) next.new }
    ensures moved { result ≡ true → HasMoved N t.now m.entry.on (move_of m.entry.turn.now) next.old next.new }
    ensures kept { result ≡ false → next.new ≡ next.old }
{
    match (m.on.letter, m.plan.readings) {
        (Letter::Equal, _) => take_equal::<PackedHull<N>, &Cell<'_>, &Cell<'_>>(
            m.turn,
            t.cover,
            t.values,
            t.before,
            t.next_values,
            next,
        ),
        (_, Some(readings)) => take_swept::<PackedHull<N>, &Cell<'_>, &Cell<'_>>(
            m.turn,
            readings,
            m.on.letter,
            m.on.twin,
            t.cover,
            t.values,
            t.before,
            t.next_values,
            next,
        ),
        (_, None) => false,
    }
}

/// Takes a move into a column that no shape takes in: by the sweep of its expressions, or else by pairs. The parts of a
/// planned move are arguments by themselves, so that a caller that doesn't come here needs no memory for it.
#[inline(never)]
fn take_other<const N: usize>(
    turn: &Turn,
    plan: &MovePlan,
    on: On,
    t: &Between<'_, N>,
    next: &mut [PackedHull<N>],
)
    requires covered { IsCovered N t.now }
    requires width { rests is_zero (has_wide N) (move_of turn.now).to ≡ true }
    requires suits { IsMoveFor (sides N) (move_of turn.now) }
    requires plan { IsMovePlan (has_wide N) plan.now (is_equal on.letter) (move_of turn.now) }
    requires next_packed { IsColumn N (count_in t.now.next_values.now) next.old }
    ensures packed { IsColumn N (count_in t.now.next_values.now) next.new }
    ensures moved { HasMoved N t.now on (move_of turn.now) next.old next.new }
{
    if take_tree(Planned { turn, plan, on }, t, next) {
        return;
    }
    take_by_pairs(turn, plan.operators, on, t, next);
}

/// Takes a move into a column: by the sweep of its shape, or else in another way.
fn take_turn<const N: usize>(m: Planned<'_>, t: &Between<'_, N>, next: &mut [PackedHull<N>])
    requires covered { IsCovered N t.now }
    requires width { rests is_zero (has_wide N) (move_of m.turn.now).to ≡ true }
    requires suits { IsMoveFor (sides N) (move_of m.turn.now) }
    requires plan { IsMovePlan (has_wide N) m.plan.now (is_equal m.on.letter) (move_of m.turn.now) }
    requires next_packed { IsColumn N (count_in t.now.next_values.now) next.old }
    ensures packed { IsColumn N (count_in t.now.next_values.now) next.new }
    ensures moved { HasMoved N t.now m.entry.on (move_of m.entry.turn.now) next.old next.new }
{
    if take_shape(m.plan.shape, m.on, t, next) {
        return;
    }
    take_other(m.turn, m.plan, m.on, t, next);
}

/// Takes a move into the column of the state that it leads to, of columns that lie one after another, each with room
/// for `stride` hulls.
fn take_at<const N: usize>(
    m: Planned<'_>,
    t: &Between<'_, N>,
    stride: usize,
    hulls: &mut [PackedHull<N>],
)
    requires covered { IsCovered N t.now }
    requires width { rests is_zero (has_wide N) (move_of m.turn.now).to ≡ true }
    requires suits { IsMoveFor (sides N) (move_of m.turn.now) }
    requires plan { IsMovePlan (has_wide N) m.plan.now (is_equal m.on.letter) (move_of m.turn.now) }
    requires inside { m.turn.now.next * stride + count_in t.now.next_values.now ≤ length hulls.old }
    requires packed { IsColumn N (count_in t.now.next_values.now) (slice_range hulls.old (m.turn.now.next * stride)
        (m.turn.now.next * stride + count_in t.now.next_values.now)) }
    ensures { HasTakenAt N t.now m.entry.on (move_of m.entry.turn.now) (m.entry.turn.now.next * stride) hulls.old
        hulls.new }
{
    let from = m.turn.next as usize * stride;
    let to = from + t.next_values.values.len();
    take_turn(m, t, &mut hulls[from..to]);
}

/// Takes a move into the row, at the state that it leads to. The parts of a planned move are arguments by themselves,
/// so that they need no memory.
#[inline(never)]
fn take_move<const N: usize>(
    turn: &Turn,
    plan: &MovePlan,
    on: On,
    t: &Between<'_, N>,
    next: &mut PackedRow<N>,
)
    requires covered { IsCovered N t.now }
    requires width { rests is_zero (has_wide N) (move_of turn.now).to ≡ true }
    requires suits { IsMoveFor (sides N) (move_of turn.now) }
    requires plan { IsMovePlan (has_wide N) plan.now (is_equal on.letter) (move_of turn.now) }
    requires leads { turn.now.next < length next.old }
    requires row { IsRow N (length next.old) (count_in t.now.next_values.now) next.old }
    ensures row { IsRow N (length next.old) (count_in t.now.next_values.now) next.new }
    ensures taken { HasTaken N (length next.old) (count_in t.now.next_values.now) (value_in t.now.next_values.now)
        (taken_to N t.now on (move_of turn.now)) next.old next.new }
{
    let m = Planned { turn, plan, on };
    take_at(m, t, next.stride, &mut next.hulls);
}

/// Takes two moves into the row.
fn take_two<const N: usize>(
    m: Planned<'_>,
    k: Planned<'_>,
    t: &Between<'_, N>,
    next: &mut PackedRow<N>,
)
    requires covered { IsCovered N t.now }
    requires width { rests is_zero (has_wide N) (move_of m.turn.now).to ≡ true }
    requires suits { IsMoveFor (sides N) (move_of m.turn.now) }
    requires plan { IsMovePlan (has_wide N) m.plan.now (is_equal m.on.letter) (move_of m.turn.now) }
    requires other_width { rests is_zero (has_wide N) (move_of k.turn.now).to ≡ true }
    requires other_suits { IsMoveFor (sides N) (move_of k.turn.now) }
    requires other_plan { IsMovePlan (has_wide N) k.plan.now (is_equal k.on.letter) (move_of k.turn.now) }
    requires leads { m.turn.now.next < length next.old }
    requires other_leads { k.turn.now.next < length next.old }
    requires row { IsRow N (length next.old) (count_in t.now.next_values.now) next.old }
    ensures row { IsRow N (length next.old) (count_in t.now.next_values.now) next.new }
    ensures taken { HasTaken N (length next.old) (count_in t.now.next_values.now) (value_in t.now.next_values.now)
        (two_taken_to N t.now m.entry.on (move_of m.entry.turn.now) k.entry.on
        (move_of k.entry.turn.now)) next.old next.new }
{
    take_move(m.turn, m.plan, m.on, t, next);
    take_move(k.turn, k.plan, k.on, t, next);
}

/// Takes all moves of a state into the row. In most states the move on `=` is the same as another, and is taken in with
/// it.
fn take_moves<const N: usize>(
    a: &Automaton,
    q: u8,
    plan: &StatePlan,
    t: &Between<'_, N>,
    next: &mut PackedRow<N>,
)
    requires width { a.now.wide ≡ has_wide N }
    requires state { q < length a.now.states }
    requires plan { IsStatePlan a.now q plan.now }
    requires covered { IsCovered N t.now }
    requires states { length next.old ≡ length a.now.states }
    requires row { IsRow N (length next.old) (count_in t.now.next_values.now) next.old }
    ensures row { IsRow N (length next.old) (count_in t.now.next_values.now) next.new }
    ensures taken { HasTaken N (length next.old) (count_in t.now.next_values.now) (value_in t.now.next_values.now)
        (seen_gives N a.now q (count_in t.now.values.now) (value_in t.now.values.now)
        (hull_at (lanes_of N) (nothing N) t.now.before.now))
        next.old next.new }
{
    match plan.equals {
        Equals::WithLess => {
            let less = planned_move::<N>(a, q, Letter::Less, true, &plan.less);
            let greater = planned_move::<N>(a, q, Letter::Greater, false, &plan.greater);
            take_two(less, greater, t, next);
        }
        Equals::WithGreater => {
            let less = planned_move::<N>(a, q, Letter::Less, false, &plan.less);
            let greater = planned_move::<N>(a, q, Letter::Greater, true, &plan.greater);
            take_two(less, greater, t, next);
        }
        Equals::Alone => {
            let less = planned_move::<N>(a, q, Letter::Less, false, &plan.less);
            let equal = planned_move::<N>(a, q, Letter::Equal, false, &plan.equal);
            let greater = planned_move::<N>(a, q, Letter::Greater, false, &plan.greater);
            take_two(less, equal, t, next);
            take_move(greater.turn, greater.plan, greater.on, t, next);
        }
    }
}

/// Takes all moves of a state into the row, if any series reaches the state.
fn take_state<const N: usize>(
    a: &Automaton,
    q: u8,
    plan: &StatePlan,
    values: &Cell<'_>,
    column: &[PackedHull<N>],
    next_values: &Cell<'_>,
    next: &mut PackedRow<N>,
)
    requires width { a.now.wide ≡ has_wide N }
    requires registers { 6 ≤ lane_count N }
    requires lanes { N ≤ 64 }
    requires state { q < length a.now.states }
    requires plan { IsStatePlan a.now q plan.now }
    requires column { IsColumn N (count_in values.now) column.now }
    requires states { length next.old ≡ length a.now.states }
    requires row { IsRow N (length next.old) (count_in next_values.now) next.old }
    ensures row { IsRow N (length next.old) (count_in next_values.now) next.new }
    ensures taken { HasTaken N (length next.old) (count_in next_values.now) (value_in next_values.now)
        (seen_gives N a.now q (count_in values.now) (value_in values.now)
        (hull_at (lanes_of N) (nothing N) column.now)) next.old next.new }
{
    let count = values.values.len();
    if !is_reached(column, count) {
        return;
    }
    let cover = state_cover(plan.adds, column, count);
    let t = Between {
        values,
        before: column,
        cover: &cover,
        next_values,
    };
    take_moves(a, q, plan, &t, next);
}

/// The row of a cell, made from the row of the cell before in the memory of `next`: the hull of each state and value is
/// what is seen of what all states and values before give. After `Memory` the hulls of `next` are unspecified.
pub fn next_row<const N: usize>(
    alloc: Global,
    a: &Automaton,
    plan: &Plan,
    values: Cell<'_>,
    before: &RowView<'_, N>,
    next_values: Cell<'_>,
    next: &mut PackedRow<N>,
) -> Result<(), Memory>
    requires width { a.now.wide ≡ has_wide N }
    requires registers { 6 ≤ lane_count N }
    requires lanes { N ≤ 64 }
    requires plan { IsPlanOf a.now plan.now }
    requires row { IsRow N (length a.now.states) (count_in values) before.now }
    ensures { IfOk result (λ u. IsRow N (length a.now.states) (count_in next_values.entry) next.new
        × ((t j : ℕ) → t < length a.now.states → j < count_in next_values.entry → hull_in N next.new t j
        ≡ seen_hull (sides N) (next_hull a.now (count_in values.entry) (value_in values.entry) (hull_in N before.now)
        (value_in next_values.entry j) t))) }
{
    next.clear(a.states(), next_values.values.len())?;
    for q in 0..a.states() {
        take_state(
            a,
            q,
            &plan.states[q as usize],
            &values,
            before.column(q),
            &next_values,
            next,
        );
    }
    Ok(())
}
