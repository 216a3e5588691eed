//! The hull of the spans of many values of a cell, pair of states by pair of states: how a pair is glued is found once,
//! and then all values are glued in one loop. A question ends at the first pair with which it is settled.

ghost use Rattle.std.specs.Prelude.{◌≡◌, ◌⊎◌, ℕ, ◌+◌, ◌<◌, ◌≤◌, ℤ, true, false, [], get_or, length};
ghost use Rattle.ts_automaton.specs.AutomatonRun.{AreCellValues};
ghost use Rattle.ts_base.specs.declared.span.Span.{Span};
ghost use Rattle.ts_base.specs.Limits.{IsCellValue};
ghost use Rattle.ts_base.specs.Spans.{span_hull};
ghost use Rattle.ts_glue.specs.Glue.{glue_of, is_join};
ghost use Rattle.ts_glue.specs.Pairs.{Pair};
ghost use Rattle.ts_meet.specs.Along.{glued_along, hull_over, pair_along, with_along};
ghost use Rattle.ts_meet.specs.Asked.{IsAnswer, IsHullUntil};
ghost use Rattle.ts_meet.specs.Joints.{AreJoints, IsGluing, expression, numbered, numbered_mark};
ghost use Rattle.ts_meet.specs.Meets.{glued_seen};
ghost use Rattle.ts_meet.specs.Peaks.{ArePlainHeld, AreTaken, AreWatched, IsTaken, unwatched};
ghost use Rattle.ts_meet.specs.Settled.{ArePlaces, HavePlaces, with_hull};
ghost use Rattle.ts_meet.specs.Sides.{StandFor};
ghost use Rattle.ts_row.specs.Rows.{lanes_of};
ghost use Rattle.ts_sweep.specs.Packed.{IsPacked};
ghost use Rattle.ts_sweep.specs.Sides.{BothEnds, lane_count, sides};

use crate::asked::{Asked, answered, is_enough};
use crate::column::{Watched, watched_in};
use crate::fold::{CELLS, GREATEST, LEAST, SAME, SUM, ZERO, numbered, numbered_mark};
use crate::gluing::Gluing;
use crate::joints::{Joints, STATES};
use crate::marked::{hull_of_both, joined, marked_by, nothing};
use crate::seam::{Any, Apart, Joined, PlainApart, Seam, glued_by};
use ts_automaton::{Mark, Op};
use ts_base::Span;
use ts_row::RowView;
use ts_sweep::packed::{Ends, Packed, PackedHull};

/// The hull of a span that is known so far, and of the glued spans of all pairs of states at the places from `from` on
/// where these values of the cell are: the forward row is on the left, the reverse one on the right. None where it has
/// what is asked, which the first pairs most often show: then the others are left out.
pub fn asked_along<Q: Asked, const N: usize>(
    asked: Q,
    so_far: Span,
    joints: &Joints,
    left: &RowView<'_, N>,
    right: &RowView<'_, N>,
    values: &[i64],
    from: usize,
    cells: u32,
) -> Option<Span>
    requires registers { 6 ≤ lane_count N }
    requires lanes { N ≤ 64 }
    requires alone { (sides N ≡ BothEnds) ⊎ (joints.now.wide ≡ false) }
    requires left { HavePlaces N joints.now.left_states (from + length values.now) left.now }
    requires right { HavePlaces N joints.now.right_states (from + length values.now) right.now }
    requires values { AreCellValues values.now }
    ensures { (p : Pair) → AreJoints p joints.now → IsAnswer (Q.excluded asked)
        (span_hull so_far (glued_along N p left.now right.now from values.now cells)) result }
{
    let hull = hull_along(asked.enough(), joints, left, right, values, from, cells);
    answered(asked, so_far, hull)
}

/// The ends of the hull of the glued spans of all pairs of states at these places. None where those of some of them
/// reach the ends that are enough.
fn hull_along<const N: usize>(
    enough: Option<Ends>,
    joints: &Joints,
    left: &RowView<'_, N>,
    right: &RowView<'_, N>,
    values: &[i64],
    from: usize,
    cells: u32,
) -> Option<Ends>
    requires registers { 6 ≤ lane_count N }
    requires lanes { N ≤ 64 }
    requires alone { (sides N ≡ BothEnds) ⊎ (joints.now.wide ≡ false) }
    requires left { HavePlaces N joints.now.left_states (from + length values.now) left.now }
    requires right { HavePlaces N joints.now.right_states (from + length values.now) right.now }
    requires values { AreCellValues values.now }
    ensures { (p : Pair) → AreJoints p joints.now →
        IsHullUntil enough (glued_along N p left.now right.now from values.now cells) result }
{
    match joints.result {
        Op::Add => along_by::<SUM, N>(enough, joints, left, right, values, from, cells),
        Op::Max => along_by::<GREATEST, N>(enough, joints, left, right, values, from, cells),
        Op::Min => along_by::<LEAST, N>(enough, joints, left, right, values, from, cells),
    }
}

/// The ends of the hull of the glued spans of all pairs of states at these places. None where those of some of them
/// reach the ends that are enough. `O` is the number of the operator that joins results.
#[inline(always)]
fn along_by<const O: u8, const N: usize>(
    enough: Option<Ends>,
    joints: &Joints,
    left: &RowView<'_, N>,
    right: &RowView<'_, N>,
    values: &[i64],
    from: usize,
    cells: u32,
) -> Option<Ends>
    requires registers { 6 ≤ lane_count N }
    requires lanes { N ≤ 64 }
    requires alone { (sides N ≡ BothEnds) ⊎ (joints.now.wide ≡ false) }
    requires operator { numbered O ≡ joints.now.result }
    requires left { HavePlaces N joints.now.left_states (from + length values.now) left.now }
    requires right { HavePlaces N joints.now.right_states (from + length values.now) right.now }
    requires values { AreCellValues values.now }
    ensures { (p : Pair) → AreJoints p joints.now →
        IsHullUntil enough (glued_along N p left.now right.now from values.now cells) result }
{
    let seconds = watched_in(joints, joints.right_states, right, from, values.len());
    let mut hull = nothing();
    for q in 0..joints.left_states {
        let column = left.column(q);
        match with_columns::<O, N>(
            hull, enough, joints, q, column, right, &seconds, values, from, cells,
        ) {
            Some(more) => hull = more,
            None => return None,
        }
    }
    Some(hull)
}

/// A hull with the glued spans of one state on the left added. None once it reaches the ends that are enough.
#[inline(always)]
fn with_columns<const O: u8, const N: usize>(
    hull: Ends,
    enough: Option<Ends>,
    joints: &Joints,
    q: u8,
    left: &[PackedHull<N>],
    right: &RowView<'_, N>,
    seconds: &[Watched; STATES],
    values: &[i64],
    from: usize,
    cells: u32,
) -> Option<Ends>
    requires registers { 6 ≤ lane_count N }
    requires alone { (sides N ≡ BothEnds) ⊎ (joints.now.wide ≡ false) }
    requires operator { numbered O ≡ joints.now.result }
    requires state { q < joints.now.left_states }
    requires left { ArePlaces N (from + length values.now) left.now }
    requires right { HavePlaces N joints.now.right_states (from + length values.now) right.now }
    requires seconds { (r : ℕ) → r < joints.now.right_states →
        AreWatched N (get_or seconds.now r unwatched) (get_or right.now r []) from (length values.now) }
    requires values { AreCellValues values.now }
    ensures { (p : Pair) (so_far : ℕ → Span) → AreJoints p joints.now →
        StandFor hull (hull_over so_far (length values.now)) → IsHullUntil enough (hull_over
        (with_along N p q left.now right.now from values.now cells (length p.reverse.states) so_far)
        (length values.now)) result }
{
    let needed = joints.watches_left(q);
    let first = Watched::over(needed, joints.wide, left, from, values.len());
    let mut all = hull;
    for r in 0..joints.right_states {
        let second = seconds[r as usize];
        let column = right.column(r);
        let pair = along_pair::<O, N>(
            joints, q, r, first, second, left, column, values, from, cells,
        );
        all = hull_of_both(all, pair);
        if is_enough(all, enough) {
            return None;
        }
    }
    Some(all)
}

/// The hull of the glued spans of one pair of states at the places from `from` on where these values are.
#[inline(always)]
fn along_pair<const O: u8, const N: usize>(
    joints: &Joints,
    q: u8,
    r: u8,
    first: Watched,
    second: Watched,
    left: &[PackedHull<N>],
    right: &[PackedHull<N>],
    values: &[i64],
    from: usize,
    cells: u32,
) -> Ends
    requires registers { 6 ≤ lane_count N }
    requires alone { (sides N ≡ BothEnds) ⊎ (joints.now.wide ≡ false) }
    requires operator { numbered O ≡ joints.now.result }
    requires state { q < joints.now.left_states }
    requires other { r < joints.now.right_states }
    requires left { ArePlaces N (from + length values.now) left.now }
    requires right { ArePlaces N (from + length values.now) right.now }
    requires first { AreWatched N first left.now from (length values.now) }
    requires second { AreWatched N second right.now from (length values.now) }
    requires values { AreCellValues values.now }
    ensures { (p : Pair) → AreJoints p joints.now → StandFor result
        (pair_along N p q r left.now right.now from values.now cells (length values.now)) }
{
    if joints.are_joined(q, r) {
        along_joined::<O, N>(
            joints, q, r, first, second, left, right, values, from, cells,
        )
    } else {
        along_apart::<O, N>(joints, first, second, left, right, values, from, cells)
    }
}

/// The hull where no occurrence goes on from one state to the other.
fn along_apart<const O: u8, const N: usize>(
    joints: &Joints,
    first: Watched,
    second: Watched,
    left: &[PackedHull<N>],
    right: &[PackedHull<N>],
    values: &[i64],
    from: usize,
    cells: u32,
) -> Ends
    requires registers { 6 ≤ lane_count N }
    requires alone { (sides N ≡ BothEnds) ⊎ (joints.now.wide ≡ false) }
    requires operator { numbered O ≡ joints.now.result }
    requires left { ArePlaces N (from + length values.now) left.now }
    requires right { ArePlaces N (from + length values.now) right.now }
    requires first { AreWatched N first left.now from (length values.now) }
    requires second { AreWatched N second right.now from (length values.now) }
    requires values { AreCellValues values.now }
    ensures { (p : Pair) (q r : ℕ) → AreJoints p joints.now → is_join p.table q r ≡ false → StandFor result
        (pair_along N p q r left.now right.now from values.now cells (length values.now)) }
{
    if joints.wide {
        along_width::<O, true, N>(joints, first, second, left, right, values, from, cells)
    } else {
        along_width::<O, false, N>(joints, first, second, left, right, values, from, cells)
    }
}

/// The hull where no occurrence goes on. `WIDE` is whether the automata are wide.
#[inline(always)]
fn along_width<const O: u8, const WIDE: bool, const N: usize>(
    joints: &Joints,
    first: Watched,
    second: Watched,
    left: &[PackedHull<N>],
    right: &[PackedHull<N>],
    values: &[i64],
    from: usize,
    cells: u32,
) -> Ends
    requires registers { 6 ≤ lane_count N }
    requires alone { (sides N ≡ BothEnds) ⊎ (joints.now.wide ≡ false) }
    requires operator { numbered O ≡ joints.now.result }
    requires width { joints.now.wide ≡ WIDE }
    requires left { ArePlaces N (from + length values.now) left.now }
    requires right { ArePlaces N (from + length values.now) right.now }
    requires first { AreWatched N first left.now from (length values.now) }
    requires second { AreWatched N second right.now from (length values.now) }
    requires values { AreCellValues values.now }
    ensures { (p : Pair) (q r : ℕ) → AreJoints p joints.now → is_join p.table q r ≡ false → StandFor result
        (pair_along N p q r left.now right.now from values.now cells (length values.now)) }
{
    let gluing = Gluing::apart(numbered(O), WIDE);
    let here = first.held(gluing.wide, gluing.result);
    let there = second.held(gluing.wide, gluing.result);
    match (here, there) {
        (Some(here), Some(there)) => along_held::<O, WIDE, N>(
            here, there, joints, gluing, left, right, values, from, cells,
        ),
        _ => {
            let seam = Apart::<O, WIDE>;
            along_glued(seam, joints, gluing, left, right, values, from, cells)
        }
    }
}

/// The hull where no occurrence goes on, all numbers that are added or taken away are small, and it is told on each
/// side whether C is held: that is a constant of the loop.
#[inline(always)]
fn along_held<const O: u8, const WIDE: bool, const N: usize>(
    here: bool,
    there: bool,
    joints: &Joints,
    gluing: Gluing,
    left: &[PackedHull<N>],
    right: &[PackedHull<N>],
    values: &[i64],
    from: usize,
    cells: u32,
) -> Ends
    requires apart { (gluing.joins ≡ false) × (gluing.result ≡ numbered O) × (gluing.wide ≡ WIDE) }
    requires registers { 6 ≤ lane_count N }
    requires alone { (sides N ≡ BothEnds) ⊎ (gluing.wide ≡ false) }
    requires left { ArePlaces N (from + length values.now) left.now }
    requires right { ArePlaces N (from + length values.now) right.now }
    requires values { AreCellValues values.now }
    requires held { AreTaken N (ArePlainHeld here there gluing) left.now right.now from (length values.now) }
    ensures { (p : Pair) (q r : ℕ) → AreJoints p joints.now → IsGluing p q r gluing → StandFor result
        (pair_along N p q r left.now right.now from values.now cells (length values.now)) }
{
    match (here, there) {
        (true, true) => {
            let seam = PlainApart::<O, WIDE, true, true>;
            along_glued(seam, joints, gluing, left, right, values, from, cells)
        }
        (true, false) => {
            let seam = PlainApart::<O, WIDE, true, false>;
            along_glued(seam, joints, gluing, left, right, values, from, cells)
        }
        (false, true) => {
            let seam = PlainApart::<O, WIDE, false, true>;
            along_glued(seam, joints, gluing, left, right, values, from, cells)
        }
        (false, false) => {
            let seam = PlainApart::<O, WIDE, false, false>;
            along_glued(seam, joints, gluing, left, right, values, from, cells)
        }
    }
}

/// The hull where one occurrence goes on from the state `q` on the left to `r` on the right.
#[inline(always)]
fn along_joined<const O: u8, const N: usize>(
    joints: &Joints,
    q: u8,
    r: u8,
    first: Watched,
    second: Watched,
    left: &[PackedHull<N>],
    right: &[PackedHull<N>],
    values: &[i64],
    from: usize,
    cells: u32,
) -> Ends
    requires registers { 6 ≤ lane_count N }
    requires alone { (sides N ≡ BothEnds) ⊎ (joints.now.wide ≡ false) }
    requires operator { numbered O ≡ joints.now.result }
    requires state { q < joints.now.left_states }
    requires other { r < joints.now.right_states }
    requires left { ArePlaces N (from + length values.now) left.now }
    requires right { ArePlaces N (from + length values.now) right.now }
    requires first { AreWatched N first left.now from (length values.now) }
    requires second { AreWatched N second right.now from (length values.now) }
    requires values { AreCellValues values.now }
    ensures { (p : Pair) → AreJoints p joints.now → is_join p.table q r ≡ true → StandFor result
        (pair_along N p q r left.now right.now from values.now cells (length values.now)) }
{
    match (joints.wide, joints.fold) {
        (false, Op::Add) => along_folded::<O, SUM, false, N>(
            joints, q, r, first, second, left, right, values, from, cells,
        ),
        (false, Op::Max) => along_folded::<O, GREATEST, false, N>(
            joints, q, r, first, second, left, right, values, from, cells,
        ),
        (false, Op::Min) => along_folded::<O, LEAST, false, N>(
            joints, q, r, first, second, left, right, values, from, cells,
        ),
        (true, Op::Max) => along_folded::<O, GREATEST, true, N>(
            joints, q, r, first, second, left, right, values, from, cells,
        ),
        (true, Op::Add | Op::Min) => {
            let gluing = joints.joined(numbered(O), joints.fold, q, r);
            along_glued(Any, joints, gluing, left, right, values, from, cells)
        }
    }
}

/// The hull where one occurrence goes on from one state to the other. `F` is the number of the operator that folds it,
/// `WIDE` is whether the automata are wide.
#[inline(always)]
fn along_folded<const O: u8, const F: u8, const WIDE: bool, const N: usize>(
    joints: &Joints,
    q: u8,
    r: u8,
    first: Watched,
    second: Watched,
    left: &[PackedHull<N>],
    right: &[PackedHull<N>],
    values: &[i64],
    from: usize,
    cells: u32,
) -> Ends
    requires registers { 6 ≤ lane_count N }
    requires alone { (sides N ≡ BothEnds) ⊎ (joints.now.wide ≡ false) }
    requires operator { numbered O ≡ joints.now.result }
    requires fold { numbered F ≡ joints.now.fold }
    requires width { joints.now.wide ≡ WIDE }
    requires state { q < joints.now.left_states }
    requires other { r < joints.now.right_states }
    requires left { ArePlaces N (from + length values.now) left.now }
    requires right { ArePlaces N (from + length values.now) right.now }
    requires first { AreWatched N first left.now from (length values.now) }
    requires second { AreWatched N second right.now from (length values.now) }
    requires values { AreCellValues values.now }
    ensures { (p : Pair) → AreJoints p joints.now → is_join p.table q r ≡ true → StandFor result
        (pair_along N p q r left.now right.now from values.now cells (length values.now)) }
{
    let gluing = joints.joined(numbered(O), numbered(F), q, r);
    if !gluing.is_plain_within(first, second) {
        return along_glued(Any, joints, gluing, left, right, values, from, cells);
    }
    if gluing.trims {
        let seam = Joined::<O, F, WIDE, true>;
        along_glued(seam, joints, gluing, left, right, values, from, cells)
    } else {
        let seam = Joined::<O, F, WIDE, false>;
        along_glued(seam, joints, gluing, left, right, values, from, cells)
    }
}

/// The hull of the glued spans of two states that are glued so, but for what the cell is worth.
#[inline(always)]
fn along_glued<S: Seam<N>, const N: usize>(
    seam: S,
    joints: &Joints,
    gluing: Gluing,
    left: &[PackedHull<N>],
    right: &[PackedHull<N>],
    values: &[i64],
    from: usize,
    cells: u32,
) -> Ends
    requires fits { S.fits gluing }
    requires registers { 6 ≤ lane_count N }
    requires alone { (sides N ≡ BothEnds) ⊎ (gluing.wide ≡ false) }
    requires left { ArePlaces N (from + length values.now) left.now }
    requires right { ArePlaces N (from + length values.now) right.now }
    requires values { AreCellValues values.now }
    requires takes { AreTaken N (S.takes gluing) left.now right.now from (length values.now) }
    ensures { (p : Pair) (q r : ℕ) → AreJoints p joints.now → IsGluing p q r gluing → StandFor result
        (pair_along N p q r left.now right.now from values.now cells (length values.now)) }
{
    match joints.mark {
        Mark::Same => {
            along_values::<S, SAME, N>(seam, joints, gluing, left, right, values, from, cells)
        }
        Mark::Zero => {
            along_values::<S, ZERO, N>(seam, joints, gluing, left, right, values, from, cells)
        }
        Mark::Cells => {
            along_values::<S, CELLS, N>(seam, joints, gluing, left, right, values, from, cells)
        }
    }
}

/// The hull of the glued spans of two states that are glued so, but for what the cell is worth. `M` is the number of
/// the mark. It is a call for each way, so that all that is constant in its loop is known there.
#[inline(never)]
fn along_values<S: Seam<N>, const M: u8, const N: usize>(
    seam: S,
    joints: &Joints,
    gluing: Gluing,
    left: &[PackedHull<N>],
    right: &[PackedHull<N>],
    values: &[i64],
    from: usize,
    cells: u32,
) -> Ends
    requires fits { S.fits gluing }
    requires registers { 6 ≤ lane_count N }
    requires alone { (sides N ≡ BothEnds) ⊎ (gluing.wide ≡ false) }
    requires left { ArePlaces N (from + length values.now) left.now }
    requires right { ArePlaces N (from + length values.now) right.now }
    requires values { AreCellValues values.now }
    requires takes { AreTaken N (S.takes gluing) left.now right.now from (length values.now) }
    requires mark { numbered_mark M ≡ joints.now.mark }
    ensures { (p : Pair) (q r : ℕ) → AreJoints p joints.now → IsGluing p q r gluing → StandFor result
        (pair_along N p q r left.now right.now from values.now cells (length values.now)) }
{
    let mut hull = nothing();
    for i in 0..values.len() {
        hull = with_value::<S, M, N>(
            seam,
            hull,
            joints,
            gluing,
            values[i],
            &left[from + i],
            &right[from + i],
            cells,
        );
    }
    hull
}

/// A hull with the glued span of two hulls at a value added, if any series reaches both states.
#[inline(always)]
fn with_value<S: Seam<N>, const M: u8, const N: usize>(
    seam: S,
    hull: Ends,
    joints: &Joints,
    gluing: Gluing,
    value: i64,
    left: &PackedHull<N>,
    right: &PackedHull<N>,
    cells: u32,
) -> Ends
    requires fits { S.fits gluing }
    requires registers { 6 ≤ lane_count N }
    requires alone { (sides N ≡ BothEnds) ⊎ (gluing.wide ≡ false) }
    requires left { IsPacked (lane_count N) (lanes_of N left.now) }
    requires right { IsPacked (lane_count N) (lanes_of N right.now) }
    requires value { IsCellValue value }
    requires takes { IsTaken N (S.takes gluing) left.now right.now }
    requires mark { numbered_mark M ≡ joints.now.mark }
    ensures { (p : Pair) (q r : ℕ) (s : Span) → AreJoints p joints.now → IsGluing p q r gluing → StandFor hull s →
        StandFor result (span_hull s
        (glued_seen (sides N) p (with_hull N q left.now) (with_hull N r right.now) value cells)) }
{
    let worth = joints.unit.worth(value);
    with_glued::<S, M, N>(
        seam,
        hull,
        joints,
        gluing.with_worth(worth),
        left,
        right,
        cells,
    )
}

/// A hull with the glued span of two hulls added, if any series reaches both states.
#[inline(always)]
fn with_glued<S: Seam<N>, const M: u8, const N: usize>(
    seam: S,
    hull: Ends,
    joints: &Joints,
    gluing: Gluing,
    left: &PackedHull<N>,
    right: &PackedHull<N>,
    cells: u32,
) -> Ends
    requires fits { S.fits gluing }
    requires registers { 6 ≤ lane_count N }
    requires alone { (sides N ≡ BothEnds) ⊎ (gluing.wide ≡ false) }
    requires left { IsPacked (lane_count N) (lanes_of N left.now) }
    requires right { IsPacked (lane_count N) (lanes_of N right.now) }
    requires worth { IsCellValue gluing.worth }
    requires takes { IsTaken N (S.takes gluing) left.now right.now }
    requires mark { numbered_mark M ≡ joints.now.mark }
    ensures { (p : Pair) (q r : ℕ) (x : ℤ) (s : Span) → AreJoints p joints.now →
        expression gluing ≡ glue_of p q r x → StandFor hull s → StandFor result (span_hull s
        (glued_seen (sides N) p (with_hull N q left.now) (with_hull N r right.now) x cells)) }
{
    if !left.is_some() {
        return hull;
    }
    if !right.is_some() {
        return hull;
    }
    let glued = glued_by(seam, gluing, left, right);
    joined(hull, marked_by(numbered_mark(M), glued, cells))
}
