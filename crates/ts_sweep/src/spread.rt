//! Moves that join R with the difference of both cells, by the greatest or by the least: swept.
//!
//! The differences fall from the farthest value on, or from the nearest one on where they are negated. An end of R that
//! takes the lesser of what a hull has and of a difference is therefore found by a walk in that order, which ends as
//! soon as no further value gives more; most often that is after the first one.

ghost use Rattle.std.specs.Prelude.{◌≡◌, ◌≤◌, ◌<◌, ◌≤ℤ◌, ◌<ℤ◌, ℕ, pos, suc, ℤ, cond, get_or, length, true, false};
ghost use Rattle.std.specs.Int.{int_max, int_min};
ghost use Rattle.ts_automaton.specs.Body.{Move};
ghost use Rattle.ts_base.specs.declared.letter.Letter.TheVariants.{Equal, Greater, Less};
ghost use Rattle.ts_base.specs.Limits.{IsCellValue};
ghost use Rattle.ts_base.specs.declared.op.Op.TheVariants.{Max};
ghost use Rattle.ts_hull.specs.Sweeps.{compares};
ghost use Rattle.ts_sweep.specs.Columns.{IsMoved};
ghost use Rattle.ts_sweep.specs.Lanes.{some_lanes};
ghost use Rattle.ts_sweep.specs.Packed.{ArePacked, is_wide};
ghost use Rattle.ts_sweep.specs.PairMoves.{IsBegun, emission, pair_op, reach_by};
ghost use Rattle.ts_sweep.specs.Sides.{as_read};
ghost use Rattle.ts_sweep.specs.Small.{IsSmall};
ghost use Rattle.ts_sweep.specs.Spreads.{
  Falls,
  apart,
  beyond,
  end_of,
  lesser_of,
  spread_ends,
  spread_hull,
  top_of,
};
ghost use Rattle.ts_sweep.specs.Sweeps.{step_place};

use crate::column::Dense;
use crate::hull::Hull;
use crate::packed::{Ends, Name, Packed};
use crate::pair_move::start_ends;
use crate::pairs::{Reach, hull_of, reach_of, reaches};
use crate::runs;
use crate::source::Fronts;
use crate::steps::step_place;
use crate::take::take;
use crate::values::{Run, Values};
use ts_base::{Letter, Op};

/// A move that joins R with the difference of both cells, by the greatest or else by the least, and resets D and F: the
/// letter that it is made on, and the values and hulls that it is made from.
#[derive(Clone, Copy)]
pub struct Spread<'a, H, V> {
    greatest: bool,
    letter: Letter,
    twin: bool,
    values: V,
    before: &'a [H],
}

/// An end of the difference of two cells, the lower one negated.
#[inline(always)]
fn apart<const ABOVE: bool>(v: i64, w: i64) -> i64
    requires value { IsSmall v }
    requires next { IsSmall w }
    ensures { result ≡ apart ABOVE v w }
{
    if ABOVE {
        v.max(w) - v.min(w)
    } else {
        v.min(w) - v.max(w)
    }
}

/// An end of a register.
#[inline(always)]
fn end_of<const ABOVE: bool>(e: Ends) -> i64
    ensures { result ≡ end_of ABOVE e }
{
    if ABOVE { e.above } else { e.below }
}

/// An end of the difference of two cells, or that of R if it is less and asked for; nothing for a hull of nothing.
#[inline(always)]
fn lesser<const ABOVE: bool, H: Packed>(bounded: bool, h: H, v: i64, w: i64) -> i64
    requires registers { 6 ≤ H.count }
    requires value { IsSmall v }
    requires next { IsSmall w }
    ensures { result ≡ lesser_of H.lanes H.sides ABOVE bounded h v w }
{
    if !h.is_some() {
        return i64::MIN;
    }
    let found = apart::<ABOVE>(v, w);
    if bounded {
        end_of::<ABOVE>(h.ends(Name::R)).min(found)
    } else {
        found
    }
}

/// Whether the value at a place compares with a next one as a letter says.
#[inline(always)]
fn is_reached<V: Values>(
    letter: Letter,
    twin: bool,
    reach: Reach,
    values: V,
    i: usize,
    w: i64,
) -> bool
    requires ok { V.ok values }
    requires reach { reach ≡ reach_by letter twin w }
    requires inside { i < V.len values }
    requires next { IsSmall w }
    ensures { result ≡ compares letter twin (V.value values i) w }
{
    let _on = (letter, twin, w);
    let v = values.at(i);
    reaches(reach, v)
}

/// Whether the value at a step may give more than what was found.
#[inline(always)]
fn may_give<const ABOVE: bool, const UP: bool, V: Values>(
    letter: Letter,
    twin: bool,
    reach: Reach,
    values: V,
    n: usize,
    k: usize,
    w: i64,
    found: i64,
) -> bool
    requires ok { V.ok values }
    requires reach { reach ≡ reach_by letter twin w }
    requires count { n ≡ V.len values }
    requires next { IsSmall w }
    ensures inside { result ≡ true → k < n }
    ensures reached { result ≡ false → k < n → compares letter twin (V.value values (step_place UP n k)) w ≡ true }
    ensures more { result ≡ false → k < n → apart ABOVE (V.value values (step_place UP n k)) w ≤ℤ found }
{
    if n <= k {
        return false;
    }
    let i = step_place::<UP>(n, k);
    !is_reached(letter, twin, reach, values, i, w) || found < apart::<ABOVE>(values.at(i), w)
}

/// What the hull at a place gives.
#[inline(always)]
fn given_at<const ABOVE: bool, H: Packed, V: Values>(
    values: V,
    before: &[H],
    bounded: bool,
    i: usize,
    w: i64,
) -> i64
    requires registers { 6 ≤ H.count }
    requires ok { V.ok values }
    requires before { V.len values ≤ length before.now }
    requires inside { i < V.len values }
    requires next { IsSmall w }
    ensures { result ≡ lesser_of H.lanes H.sides ABOVE bounded (get_or before.now i H.none) (V.value values i) w }
{
    let h = hull_of(before, i);
    let v = values.at(i);
    lesser::<ABOVE, H>(bounded, h, v, w)
}

/// What was found so far, and what the hull at a place gives if its value compares with the next one.
#[inline(always)]
fn with_given<const ABOVE: bool, H: Packed, V: Values>(
    letter: Letter,
    twin: bool,
    reach: Reach,
    values: V,
    before: &[H],
    bounded: bool,
    i: usize,
    w: i64,
    found: i64,
) -> i64
    requires registers { 6 ≤ H.count }
    requires ok { V.ok values }
    requires before { V.len values ≤ length before.now }
    requires reach { reach ≡ reach_by letter twin w }
    requires inside { i < V.len values }
    requires next { IsSmall w }
    ensures { result ≡ cond (compares letter twin (V.value values i) w)
        (int_max found (lesser_of H.lanes H.sides ABOVE bounded (get_or before.now i H.none) (V.value values i) w))
        found }
{
    if is_reached(letter, twin, reach, values, i, w) {
        found.max(given_at::<ABOVE, H, V>(values, before, bounded, i, w))
    } else {
        found
    }
}

/// How far a next value lies beyond the first value of a run, or below the end of it.
#[inline(always)]
fn beyond<const UP: bool>(run: Run, w: i64) -> i64
    requires first { IsCellValue run.first }
    requires few { run.count ≤ 2000001 }
    requires next { IsSmall w }
    ensures value { result ≡ beyond UP run.first run.count w }
    ensures few { result ≤ℤ pos 100000000 }
{
    if UP {
        w - run.first
    } else {
        runs::end_of(run) - w
    }
}

/// A number less one, as a count; 0 where that is below 0.
#[inline(always)]
fn counted(x: i64) -> usize
    requires { x ≤ℤ pos 100000000 }
    ensures { (k : ℕ) → k < result → pos (suc k) <ℤ x }
{
    if x <= 1 { 0 } else { x as usize - 1 }
}

/// Whether the values that compare come last.
#[inline(always)]
fn come_last<const UP: bool>(letter: Letter) -> bool
    ensures { result ≡ true → letter ≡ cond UP Greater Less }
{
    match letter {
        Letter::Less => !UP,
        Letter::Equal => false,
        Letter::Greater => UP,
    }
}

/// How many of the first steps are skipped, found by bisection: none of them comes to a value that compares with a next
/// one. The values that compare come last.
#[inline(always)]
fn halved<const UP: bool, V: Values>(letter: Letter, twin: bool, values: V, w: i64) -> usize
    requires ok { V.ok values }
    requires next { IsSmall w }
    requires last { letter ≡ cond UP Greater Less }
    ensures { (k : ℕ) → k < V.len values → k < result →
        compares letter twin (V.value values (step_place UP (V.len values) k)) w ≡ false }
{
    let n = values.count();
    let reach = reach_of(letter, twin, w);
    let mut low = 0;
    let mut high = n;
    while low < high {
        let mid = low + (high - low) / 2;
        let i = step_place::<UP>(n, mid);
        if is_reached(letter, twin, reach, values, i, w) {
            high = mid;
        } else {
            low = mid + 1;
        }
    }
    low
}

/// How many of the first steps are skipped: none of them comes to a value that compares with a next one.
#[inline(always)]
fn first_step<const UP: bool, V: Values>(letter: Letter, twin: bool, values: V, w: i64) -> usize
    requires ok { V.ok values }
    requires next { IsSmall w }
    ensures { (k : ℕ) → k < V.len values → k < result →
        compares letter twin (V.value values (step_place UP (V.len values) k)) w ≡ false }
{
    if !come_last::<UP>(letter) {
        return 0;
    }
    match values.run() {
        Some(run) => counted(beyond::<UP>(run, w)),
        None => halved::<UP, V>(letter, twin, values, w),
    }
}

/// The greatest number that the values give, or `most` if that is less.
#[inline(always)]
fn walked<const ABOVE: bool, const UP: bool, H: Packed, V: Values>(
    letter: Letter,
    twin: bool,
    values: V,
    before: &[H],
    bounded: bool,
    most: i64,
    w: i64,
) -> i64
    requires registers { 6 ≤ H.count }
    requires ok { V.ok values }
    requires before { V.len values ≤ length before.now }
    requires falls { Falls ABOVE UP letter twin w }
    requires next { IsSmall w }
    ensures { result ≡ int_min (top_of H.lanes H.sides H.none before.now letter twin (V.len values) (V.value values) w
        ABOVE bounded) most }
{
    let n = values.count();
    let reach = reach_of(letter, twin, w);
    let mut found = i64::MIN;
    let mut k = first_step::<UP, V>(letter, twin, values, w);
    while found < most && may_give::<ABOVE, UP, V>(letter, twin, reach, values, n, k, w, found) {
        let i = step_place::<UP>(n, k);
        found = with_given::<ABOVE, H, V>(
            letter, twin, reach, values, before, bounded, i, w, found,
        );
        k += 1;
    }
    found.min(most)
}

/// The greatest number that the values give, or `most` if that is less, in the order in which the differences fall.
#[inline(always)]
fn top_of<const ABOVE: bool, H: Packed, V: Values>(
    letter: Letter,
    twin: bool,
    values: V,
    before: &[H],
    bounded: bool,
    most: i64,
    w: i64,
) -> i64
    requires registers { 6 ≤ H.count }
    requires ok { V.ok values }
    requires before { V.len values ≤ length before.now }
    requires next { IsSmall w }
    ensures { result ≡ int_min (top_of H.lanes H.sides H.none before.now letter twin (V.len values) (V.value values) w
        ABOVE bounded) most }
{
    if (letter == Letter::Less) == ABOVE {
        walked::<ABOVE, true, H, V>(letter, twin, values, before, bounded, most, w)
    } else {
        walked::<ABOVE, false, H, V>(letter, twin, values, before, bounded, most, w)
    }
}

/// The greatest of an end of R in the joined hulls and of the differences.
#[inline(always)]
fn each_end<const ABOVE: bool, H: Packed, V: Values>(
    letter: Letter,
    twin: bool,
    values: V,
    before: &[H],
    end: i64,
    w: i64,
) -> i64
    requires registers { 6 ≤ H.count }
    requires ok { V.ok values }
    requires before { V.len values ≤ length before.now }
    requires next { IsSmall w }
    ensures { result ≡ int_max end (top_of H.lanes H.sides H.none before.now letter twin (V.len values)
        (V.value values) w ABOVE false) }
{
    end.max(top_of::<ABOVE, H, V>(letter, twin, values, before, false, i64::MAX, w))
}

/// The ends of R, from those of the joined hulls.
#[inline(always)]
fn spread_ends<H: Packed, V: Values>(
    greatest: bool,
    letter: Letter,
    twin: bool,
    values: V,
    before: &[H],
    r: Ends,
    w: i64,
) -> Ends
    requires registers { 6 ≤ H.count }
    requires ok { V.ok values }
    requires before { V.len values ≤ length before.now }
    requires next { IsSmall w }
    ensures { result ≡ spread_ends greatest
        (top_of H.lanes H.sides H.none before.now letter twin (V.len values) (V.value values) w) r }
{
    if greatest {
        Ends {
            below: top_of::<false, H, V>(letter, twin, values, before, true, r.below, w),
            above: each_end::<true, H, V>(letter, twin, values, before, r.above, w),
        }
    } else {
        Ends {
            below: each_end::<false, H, V>(letter, twin, values, before, r.below, w),
            above: top_of::<true, H, V>(letter, twin, values, before, true, r.above, w),
        }
    }
}

/// What becomes of joined hulls: D and F begin anew.
#[inline(always)]
fn spread_hull<H: Packed, V: Values>(
    greatest: bool,
    letter: Letter,
    twin: bool,
    values: V,
    before: &[H],
    h: H,
    w: i64,
) -> H
    requires registers { 6 ≤ H.count }
    requires ok { V.ok values }
    requires before { V.len values ≤ length before.now }
    requires next { IsSmall w }
    ensures { result ≡ spread_hull H.lanes H.sides H.replaced greatest
        (top_of H.lanes H.sides H.none before.now letter twin (V.len values) (V.value values) w) h }
{
    let c = h.ends(Name::C);
    let e = h.ends(Name::E);
    let d = start_ends(Op::Max);
    let f = start_ends(Op::Min);
    let held = h.ends(Name::R);
    let r = spread_ends::<H, V>(greatest, letter, twin, values, before, held, w);
    h.with(Name::C, c)
        .with(Name::E, e)
        .with(Name::D, d)
        .with(Name::F, f)
        .with(Name::R, r)
}

impl<'a, H: Packed, V: Values> Fronts<H> for Spread<'a, H, V> {
    ghost use Rattle.std.specs.Prelude.{cond, length};
    ghost use Rattle.ts_sweep.specs.Lanes.{some_lanes};
    ghost use Rattle.ts_sweep.specs.Packed.{IsPacked};
    ghost use Rattle.ts_sweep.specs.Spreads.{spread_hull, top_of};
    ghost use Rattle.ts_sweep.specs.SpreadLaws.{closable_some, both_closable, none_closes};

    ghost fit = { λ k h. IsPacked H.count (H.lanes h) × (6 ≤ H.count) × V.ok k.values
        × (V.len k.values ≤ length k.before.now) };

    ghost closable = { λ k h. IsPacked H.count (H.lanes h) × (some_lanes (H.lanes h) ≡ true →
        (6 ≤ H.count) × V.ok k.values × (V.len k.values ≤ length k.before.now)) };

    ghost front = { λ k h v. h };

    ghost closing = { λ k h w. cond (some_lanes (H.lanes h)) (spread_hull H.lanes H.sides H.replaced k.greatest
        (top_of H.lanes H.sides H.none k.before.now k.letter k.twin (V.len k.values) (V.value k.values) w) h) h };

    ghost closes_none = { λ k w. none_closes H.lanes H.count H.none H.none_lanes _ };

    ghost closable_none = { λ k. closable_some H.lanes H.count H.none H.none_lanes _ };

    ghost closable_both = { λ k a b p q. both_closable H.both H.lanes H.count H.both_lanes _ a b p q };

    ghost closable_front = { λ k h v p small. (p.0, λ some. (p.1, p.2, p.3)) };

    #[inline(always)]
    fn taken(self, run: H, h: H, _value: i64) -> H {
        run.joined(h)
    }

    #[inline(always)]
    fn closed(self, run: H, next_value: i64) -> H {
        if !run.is_some() {
            return run;
        }
        spread_hull::<H, V>(
            self.greatest,
            self.letter,
            self.twin,
            self.values,
            self.before,
            run,
            next_value,
        )
    }
}

/// Takes in a move that joins R with the difference of both cells, by the greatest or else by the least: each next hull
/// takes in what the move gives to its value.
#[inline(always)]
pub fn take_spread<H: Packed, V: Values, W: Values>(
    greatest: bool,
    letter: Letter,
    twin: bool,
    values: V,
    before: &[H],
    next_values: W,
    next: &mut [H],
)
    requires registers { 6 ≤ H.count }
    requires wide { is_wide H.count ≡ true }
    requires ok { V.ok values }
    requires next_ok { W.ok next_values }
    requires packed { ArePacked H.lanes H.none H.count (V.len values) before.now }
    requires begun { (i : ℕ) → i < V.len values → some_lanes (H.lanes (get_or before.now i H.none)) ≡ true →
        IsBegun H.sides true Max (as_read H.sides (H.lanes (get_or before.now i H.none))) }
    requires next_packed { ArePacked H.lanes H.none H.count (W.len next_values) next.old }
    requires alone { letter ≡ Equal → twin ≡ false }
    ensures packed { ArePacked H.lanes H.none H.count (W.len next_values) next.new }
    ensures taken { (m : Move) → m.to ≡ emission true (pair_op greatest) Max →
        IsMoved H.sides H.lanes H.none m letter twin (V.len values) (V.value values) before.now
        (W.len next_values) (W.value next_values) next.old next.new }
{
    let by = Spread {
        greatest,
        letter,
        twin,
        values,
        before,
    };
    take::<H, Spread<'_, H, V>, V, W, Dense>(
        by,
        letter,
        twin,
        values,
        Dense,
        before,
        next_values,
        Dense,
        next,
    );
}
