//! A move over pairs of values: for what can't be swept.

ghost use Rattle.std.specs.Prelude.{◌≡◌, ℕ, ◌<◌, ◌≤◌, cond, get_or, length, set, true};
ghost use Rattle.ts_automaton.specs.Formula.{is_zero};
ghost use Rattle.ts_automaton.specs.Registers.{rests};
ghost use Rattle.ts_hull.specs.Hulls.{hull_of_both, none};
ghost use Rattle.ts_hull.specs.Sealed.{after_move};
ghost use Rattle.ts_hull.specs.Sweeps.{compares};
ghost use Rattle.ts_sweep.specs.Columns.{IsGift, IsMoved, gives, hull_at};
ghost use Rattle.ts_sweep.specs.Fronts.{IsMoveFor};
ghost use Rattle.ts_sweep.specs.Lanes.{some_lanes};
ghost use Rattle.ts_sweep.specs.Moves.{beside, of_name};
ghost use Rattle.ts_sweep.specs.PairMoves.{bounds, reach_by, reaches};
ghost use Rattle.ts_sweep.specs.Packed.{ArePacked, IsPacked, is_wide, unpacked};
ghost use Rattle.ts_sweep.specs.Sides.{as_read, kept_ends, seen_hull};
ghost use Rattle.ts_sweep.specs.Small.{IsSmall};
ghost use Rattle.ts_sweep.specs.Trees.{tree_value};

use crate::packed::{Ends, Name, Packed};
use crate::pair_move::PairMove;
use crate::values::Values;
use ts_base::Letter;

/// The ends of E or F after a move; in a narrow hull, which has no lanes for them, those of 0.
#[inline(always)]
fn ends_beside<H: Packed, M: PairMove>(by: M, register: Name, h: H, x: i64, y: i64) -> Ends
    requires registers { 6 ≤ H.count }
    requires fit { M.fit by H.sides H.count (as_read H.sides (H.lanes h)) }
    requires this { IsSmall x }
    requires next { IsSmall y }
    ensures { kept_ends H.sides result ≡ kept_ends H.sides (beside (is_wide H.count)
        (tree_value (of_name (M.made by).to register) (as_read H.sides (H.lanes h)) x y)) }
{
    if H::is_wide() {
        by.ends(register, h, x, y)
    } else {
        Ends { below: 0, above: 0 }
    }
}

/// What a move makes of a hull between two values.
#[inline(always)]
fn moved<H: Packed, M: PairMove>(by: M, h: H, x: i64, y: i64) -> H
    requires registers { 6 ≤ H.count }
    requires width { rests is_zero (is_wide H.count) (M.made by).to ≡ true }
    requires suits { IsMoveFor H.sides (M.made by) }
    requires packed { IsPacked H.count (H.lanes h) }
    requires fit { some_lanes (H.lanes h) ≡ true → M.fit by H.sides H.count (as_read H.sides (H.lanes h)) }
    requires this { IsSmall x }
    requires next { IsSmall y }
    ensures packed { IsPacked H.count (H.lanes result) }
    ensures value { unpacked (H.lanes result)
        ≡ seen_hull H.sides (after_move (M.made by) (unpacked (H.lanes h)) x y) }
{
    if !h.is_some() {
        return h;
    }
    let c = by.ends(Name::C, h, x, y);
    let e = ends_beside::<H, M>(by, Name::E, h, x, y);
    let d = by.ends(Name::D, h, x, y);
    let f = ends_beside::<H, M>(by, Name::F, h, x, y);
    let r = by.ends(Name::R, h, x, y);
    h.with(Name::C, c)
        .with(Name::E, e)
        .with(Name::D, d)
        .with(Name::F, f)
        .with(Name::R, r)
}

/// The values that compare with a next one as a letter says: those between two bounds.
#[derive(Clone, Copy)]
pub(crate) struct Reach {
    pub(crate) low: i64,
    pub(crate) high: i64,
}

/// The values that compare with the next one as a letter says, or are equal to it where there is a twin.
#[inline(always)]
pub(crate) fn reach_of(letter: Letter, twin: bool, w: i64) -> Reach
    requires { IsSmall w }
    ensures { result ≡ reach_by letter twin w }
{
    match (letter, twin) {
        (Letter::Less, false) => bounds(i64::MIN, w - 1),
        (Letter::Less, true) => bounds(i64::MIN, w),
        (Letter::Equal, _) => bounds(w, w),
        (Letter::Greater, false) => bounds(w + 1, i64::MAX),
        (Letter::Greater, true) => bounds(w, i64::MAX),
    }
}

/// The reach from one value to another.
#[inline(always)]
fn bounds(low: i64, high: i64) -> Reach
    ensures { result ≡ bounds low high }
{
    Reach { low, high }
}

/// Whether a value lies within a reach.
#[inline(always)]
pub(crate) fn reaches(reach: Reach, v: i64) -> bool
    ensures { result ≡ reaches reach v }
{
    reach.low <= v && v <= reach.high
}

/// A hull, joined with what a move makes of another one between two values.
#[inline(always)]
fn with_pair<H: Packed, M: PairMove>(by: M, h: H, v: i64, w: i64, all: H) -> H
    requires registers { 6 ≤ H.count }
    requires width { rests is_zero (is_wide H.count) (M.made by).to ≡ true }
    requires suits { IsMoveFor H.sides (M.made by) }
    requires packed { IsPacked H.count (H.lanes h) }
    requires fit { some_lanes (H.lanes h) ≡ true → M.fit by H.sides H.count (as_read H.sides (H.lanes h)) }
    requires all { IsPacked H.count (H.lanes all) }
    requires this { IsSmall v }
    requires next { IsSmall w }
    ensures packed { IsPacked H.count (H.lanes result) }
    ensures value { unpacked (H.lanes result) ≡ hull_of_both (unpacked (H.lanes all))
        (seen_hull H.sides (after_move (M.made by) (unpacked (H.lanes h)) v w)) }
{
    all.joined(moved(by, h, v, w))
}

/// The hull at a place.
#[inline(always)]
pub(crate) fn hull_of<H: Packed>(before: &[H], i: usize) -> H
    requires { i < length before.now }
    ensures { result ≡ get_or before.now i H.none }
{
    before[i]
}

/// Joins a hull to that at a place.
#[inline(always)]
fn join_at<H: Packed>(next: &mut [H], j: usize, h: H)
    requires { j < length next.old }
    ensures { next.new ≡ set next.old j (H.both (get_or next.old j H.none) h) }
{
    next[j] = next[j].joined(h);
}

/// A hull, joined with what a move makes of the hull at a place, if the value there compares with the next one as the
/// letter says.
#[inline(always)]
fn with_moved<H: Packed, M: PairMove, V: Values>(
    by: M,
    letter: Letter,
    twin: bool,
    reach: Reach,
    values: V,
    before: &[H],
    i: usize,
    w: i64,
    all: H,
) -> H
    requires registers { 6 ≤ H.count }
    requires width { rests is_zero (is_wide H.count) (M.made by).to ≡ true }
    requires suits { IsMoveFor H.sides (M.made by) }
    requires reach { reach ≡ reach_by letter twin w }
    requires ok { V.ok values }
    requires before { ArePacked H.lanes H.none H.count (V.len values) before.now }
    requires fit { (i : ℕ) → i < V.len values → some_lanes (H.lanes (get_or before.now i H.none)) ≡ true →
        M.fit by H.sides H.count (as_read H.sides (H.lanes (get_or before.now i H.none))) }
    requires inside { i < V.len values }
    requires next { IsSmall w }
    requires all { IsPacked H.count (H.lanes all) }
    ensures packed { IsPacked H.count (H.lanes result) }
    ensures value { unpacked (H.lanes result) ≡ hull_of_both (unpacked (H.lanes all)) (seen_hull H.sides
        (cond (compares letter twin (V.value values i) w)
        (after_move (M.made by) (hull_at H.lanes H.none before.now i) (V.value values i) w) none)) }
{
    let _on = (letter, twin);
    let v = values.at(i);
    if reaches(reach, v) {
        with_pair(by, hull_of(before, i), v, w, all)
    } else {
        all
    }
}

/// What a move gives to a next value.
#[inline(always)]
fn given<H: Packed, M: PairMove, V: Values>(
    by: M,
    letter: Letter,
    twin: bool,
    values: V,
    before: &[H],
    w: i64,
) -> H
    requires registers { 6 ≤ H.count }
    requires width { rests is_zero (is_wide H.count) (M.made by).to ≡ true }
    requires suits { IsMoveFor H.sides (M.made by) }
    requires ok { V.ok values }
    requires before { ArePacked H.lanes H.none H.count (V.len values) before.now }
    requires fit { (i : ℕ) → i < V.len values → some_lanes (H.lanes (get_or before.now i H.none)) ≡ true →
        M.fit by H.sides H.count (as_read H.sides (H.lanes (get_or before.now i H.none))) }
    requires next { IsSmall w }
    ensures packed { IsPacked H.count (H.lanes result) }
    ensures value { unpacked (H.lanes result) ≡ seen_hull H.sides
        (gives (M.made by) letter twin (V.len values) (V.value values) (hull_at H.lanes H.none before.now) w) }
{
    let reach = reach_of(letter, twin, w);
    let mut all = H::nothing();
    for i in 0..values.count() {
        all = with_moved::<H, M, V>(by, letter, twin, reach, values, before, i, w, all);
    }
    all
}

/// The next hull at a place takes in what the move gives to its value.
#[inline(always)]
fn take_given<H: Packed, M: PairMove, V: Values, W: Values>(
    by: M,
    letter: Letter,
    twin: bool,
    values: V,
    before: &[H],
    next_values: W,
    next: &mut [H],
    j: usize,
)
    requires registers { 6 ≤ H.count }
    requires width { rests is_zero (is_wide H.count) (M.made by).to ≡ true }
    requires suits { IsMoveFor H.sides (M.made by) }
    requires ok { V.ok values }
    requires next_ok { W.ok next_values }
    requires packed { ArePacked H.lanes H.none H.count (V.len values) before.now }
    requires fit { (i : ℕ) → i < V.len values → some_lanes (H.lanes (get_or before.now i H.none)) ≡ true →
        M.fit by H.sides H.count (as_read H.sides (H.lanes (get_or before.now i H.none))) }
    requires inside { j < W.len next_values }
    requires next_packed { length next.old ≡ W.len next_values }
    ensures { IsGift H.both H.lanes H.none H.count (seen_hull H.sides
        (gives (M.made by) letter twin (V.len values) (V.value values) (hull_at H.lanes H.none before.now)
        (W.value next_values j))) j next.old next.new }
{
    let w = next_values.at(j);
    let gift = given::<H, M, V>(by, letter, twin, values, before, w);
    join_at(next, j, gift);
}

/// Takes in a move by pairs of values: each next hull takes in what the move gives to its value.
#[inline(always)]
pub fn take_pairs<H: Packed, M: PairMove, V: Values, W: Values>(
    by: M,
    letter: Letter,
    twin: bool,
    values: V,
    before: &[H],
    next_values: W,
    next: &mut [H],
)
    requires registers { 6 ≤ H.count }
    requires width { rests is_zero (is_wide H.count) (M.made by).to ≡ true }
    requires suits { IsMoveFor H.sides (M.made by) }
    requires ok { V.ok values }
    requires next_ok { W.ok next_values }
    requires packed { ArePacked H.lanes H.none H.count (V.len values) before.now }
    requires fit { (i : ℕ) → i < V.len values → some_lanes (H.lanes (get_or before.now i H.none)) ≡ true →
        M.fit by H.sides H.count (as_read H.sides (H.lanes (get_or before.now i H.none))) }
    requires next_packed { ArePacked H.lanes H.none H.count (W.len next_values) next.old }
    ensures packed { ArePacked H.lanes H.none H.count (W.len next_values) next.new }
    ensures taken { IsMoved H.sides H.lanes H.none (M.made by) letter twin (V.len values)
        (V.value values) before.now
        (W.len next_values) (W.value next_values) next.old next.new }
{
    for j in 0..next_values.count() {
        take_given::<H, M, V, W>(by, letter, twin, values, before, next_values, next, j);
    }
}
