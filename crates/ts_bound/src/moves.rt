//! The moves of a state: each is taken in by a sweep over both cells, where that is exact, else by pairs of values.

ghost use Rattle.std.specs.Prelude.{◌≡◌, ◌<◌, true, false, length};
ghost use Rattle.ts_automaton.specs.Body.{move_of, move_on, node_of};
ghost use Rattle.ts_bound.specs.Moves.{IsNextRow, Stands, states_in, with_all, with_turn};
ghost use Rattle.ts_hull.specs.Sealed.{move_at};

use crate::between::Between;
use crate::pairs::pair_move;
use crate::places::Places;
use ts_automaton::{Automaton, Hull, State, Turn};
use ts_base::Letter;
use ts_sweep::row::take_row;
use ts_sweep::strided::Strided;
use ts_sweep::swept::{AnyParts, swept_parts};

/// The move on a letter.
fn turn_on(state: &State, l: Letter) -> &Turn
    ensures { move_of result.now ≡ move_on l (node_of state.now) }
{
    match l {
        Letter::Less => &state.less,
        Letter::Equal => &state.equal,
        Letter::Greater => &state.greater,
    }
}

/// The move of a state on a letter.
fn turn(a: &Automaton, q: u8, l: Letter) -> &Turn
    requires { q < length a.now.states }
    ensures value { move_of result.now ≡ move_at a.now q l }
    ensures exists { result.now.next < length a.now.states }
{
    turn_on(a.state(q), l)
}

/// Takes in a move of a state by a sweep, if it can be swept and no number is so large that its sums are clamped. It
/// goes over ten lanes, which have a place for each register of any automaton.
fn sweep_move(m: &Between<'_>, t: &Turn, q: u8, l: Letter, next: &mut [Hull]) -> bool
    requires state { q < states_in m.now }
    requires leads { t.now.next < states_in m.now }
    requires next { IsNextRow m.now next.old }
    ensures taken { result ≡ true → next.new ≡ with_turn m.now (move_of t.now) q l next.old }
    ensures kept { result ≡ false → next.new ≡ next.old }
{
    if !m.is_small {
        return false;
    }
    let Some(by) = swept_parts(t) else {
        return false;
    };
    let states = m.automaton.states() as usize;
    let from = Strided {
        state: q as usize,
        states,
        count: m.values.count,
    };
    let to = Strided {
        state: t.next as usize,
        states,
        count: m.next_values.count,
    };
    take_row::<10, AnyParts<'_>, Places<'_>, Places<'_>>(
        by,
        l,
        false,
        m.values,
        from,
        m.before,
        m.next_values,
        to,
        next,
    )
}

/// Takes in the move of a state on a letter.
fn take_move(m: &Between<'_>, q: u8, l: Letter, next: &mut [Hull])
    requires state { q < states_in m.now }
    requires kinds { Stands m.now }
    requires next { IsNextRow m.now next.old }
    ensures { next.new ≡ with_turn m.now (move_at m.now.automaton.now q l) q l next.old }
{
    let t = turn(m.automaton, q, l);
    if !sweep_move(m, t, q, l, next) {
        pair_move(m, t, q, l, next);
    }
}

/// Takes in all moves of a state.
pub(crate) fn take_state(m: &Between<'_>, q: u8, next: &mut [Hull])
    requires state { q < states_in m.now }
    requires kinds { Stands m.now }
    requires next { IsNextRow m.now next.old }
    ensures { next.new ≡ with_all m.now q next.old }
{
    take_move(m, q, Letter::Less, next);
    take_move(m, q, Letter::Equal, next);
    take_move(m, q, Letter::Greater, next);
}
