//! A move that isn't swept: over all pairs of values that its letter fits.

ghost use Rattle.std.specs.Prelude.{◌≡◌, ◌+◌, ◌*◌, ◌<◌, pos, length, get_or};
ghost use Rattle.ts_automaton.specs.Body.{move_of};
ghost use Rattle.ts_base.specs.Signature.{letter_of};
ghost use Rattle.ts_bound.specs.Moves.{IsNextRow, Stands, states_in, with_turn};
ghost use Rattle.ts_hull.specs.Hulls.{hull_of_both};
ghost use Rattle.ts_hull.specs.Sealed.{move_at};
ghost use Rattle.ts_hull.specs.Sweeps.{hull_in, move_entry, pair_gives, same_letter, step_place, with_hull_at};

use crate::between::Between;
use ts_automaton::{Hull, HullAt, Turn};
use ts_base::Letter;
use ts_sweep::values::Values;

/// The place that comes at step `k` of `n` in the order of a letter: from the top for `>`, else from the first.
fn step_place(l: Letter, n: usize, k: usize) -> usize
    requires { k < n }
    ensures value { result ≡ step_place l n k }
    ensures inside { result < n }
{
    match l {
        Letter::Greater => n - 1 - k,
        _ => k,
    }
}

/// Whether a value compares with the next one as the letter says.
#[tactic(auto, using(ts_hull::proofs::Letters::letters_are))]
fn fits(l: Letter, this: i64, next: i64) -> bool
    ensures { result ≡ same_letter (letter_of this next) l }
{
    match l {
        Letter::Less => this < next,
        Letter::Equal => this == next,
        Letter::Greater => next < this,
    }
}

/// The hull of two, register by register.
#[tactic(auto, unfolding(ts_hull::specs::Hulls::hull_of_both))]
fn hull_of_both(first: &Hull, second: &Hull) -> Hull
    ensures { result ≡ hull_of_both first.now second.now }
{
    Hull {
        c: first.c.hull(second.c),
        e: first.e.hull(second.e),
        d: first.d.hull(second.d),
        f: first.f.hull(second.f),
        r: first.r.hull(second.r),
    }
}

/// The hull of a state at a place, together with the state.
fn hull_at(m: &Between<'_>, q: u8, i: usize) -> HullAt
    requires inside { i < length m.now.values.domain.now }
    requires state { q < states_in m.now }
    ensures { result ≡ record { state = q; hull = hull_in (states_in m.now) q m.now.before.now i } }
{
    let place = i * m.automaton.states() as usize + q as usize;
    HullAt {
        state: q,
        hull: m.before[place],
    }
}

/// What the move of a state on a letter gives from a place to a place.
fn given(m: &Between<'_>, q: u8, l: Letter, i: usize, j: usize) -> Hull
    requires inside { i < length m.now.values.domain.now }
    requires next_inside { j < length m.now.next_values.domain.now }
    requires state { q < states_in m.now }
    requires kinds { Stands m.now }
    ensures { result ≡ pair_gives (move_at m.now.automaton.now q l) l (states_in m.now) q m.now.values.domain.now
        m.now.before.now (get_or m.now.next_values.domain.now j (pos 0)) i }
{
    let this = m.values.at(i);
    let next = m.next_values.at(j);
    if fits(l, this, next) {
        m.automaton.eval_span(hull_at(m, q, i), this, next).hull
    } else {
        Hull::none()
    }
}

/// What the move of a state on a letter gives from all places to a place.
fn all_given(m: &Between<'_>, q: u8, l: Letter, j: usize) -> Hull
    requires next_inside { j < length m.now.next_values.domain.now }
    requires state { q < states_in m.now }
    requires kinds { Stands m.now }
    ensures { result ≡ move_entry (move_at m.now.automaton.now q l) l (states_in m.now) q m.now.values.domain.now
        m.now.before.now (get_or m.now.next_values.domain.now j (pos 0)) }
{
    let mut all = Hull::none();
    for i in 0..m.values.count {
        all = hull_of_both(&all, &given(m, q, l, i, j));
    }
    all
}

/// Joins a hull to that at a place.
fn join_at(next: &mut [Hull], place: usize, h: &Hull)
    requires { place < length next.old }
    ensures { next.new ≡ with_hull_at next.old place h.now }
{
    next[place] = hull_of_both(&next[place], h);
}

/// Takes in the move of a state on a letter, over all pairs of values.
pub(crate) fn pair_move(m: &Between<'_>, t: &Turn, q: u8, l: Letter, next: &mut [Hull])
    requires state { q < states_in m.now }
    requires turn { move_of t.now ≡ move_at m.now.automaton.now q l }
    requires leads { t.now.next < states_in m.now }
    requires kinds { Stands m.now }
    requires next { IsNextRow m.now next.old }
    ensures { next.new ≡ with_turn m.now (move_of t.now) q l next.old }
{
    let states = m.automaton.states() as usize;
    let count = m.next_values.count;
    for k in 0..count {
        let j = step_place(l, count, k);
        join_at(next, j * states + t.next as usize, &all_given(m, q, l, j));
    }
}
