//! A small tree walked line by line, places to split at, and many boxes that wait at once.

ghost use Rattle.std.specs.Prelude.{IsTrue};
ghost use Rattle.ts_frontier.specs.Follow.{MakesBoxes};

use crate::boxes::removals::evens;
use crate::boxes::{one_cell, union};
use TreeLine::{No, Remove, Split, Unsearched, Worse, Yes};
use std::alloc::Global;
use ts_base::Memory;
use ts_certificate::TreeLine;
use ts_domain::Boxed;
use ts_frontier::{Form, Frontier, follow, form_of};

/// The first and last values of the next box's cells, a line on that box, and how many boxes wait after it.
static TREE: [(&[(i64, i64)], TreeLine, u64); 12] = [
    (&[(0, 7), (0, 6)], Remove { k: 2, v: 6, j: 1 }, 1), // 0..7, 0..2 and 5
    (&[(0, 7), (0, 5)], Split { k: 2, t: 0 }, 2), // 0..7, 0 | 0..7, 1..5
    (&[(0, 7), (0, 0)], Split { k: 1, t: 6 }, 3), // 0..6, 0 | 7, 0 | 0..7, 1..5
    (&[(0, 6), (0, 0)], Remove { k: 1, v: 0, j: 1 }, 3), // 1..6, 0 | 7, 0 | 0..7, 1..5
    (&[(1, 6), (0, 0)], No { j: 1, p: 2 }, 2),
    (&[(7, 7), (0, 0)], Yes, 1),
    (&[(0, 7), (1, 5)], Split { k: 2, t: 4 }, 2), // 0..7, 1..2 | 0..7, 5
    (&[(0, 7), (1, 2)], Worse { p: 1 }, 1),
    (&[(0, 7), (5, 5)], Split { k: 1, t: 3 }, 2), // 0..3, 5 | 4..7, 5
    (&[(0, 3), (5, 5)], Unsearched, 1),
    (&[(4, 7), (5, 5)], Remove { k: 1, v: 5, j: 2 }, 1),
    (&[(4, 7), (5, 5)], Yes, 0),
];

/// The values of each cell, the cell and value to split at, and the series where there is none.
static FORMS: [(&[&[i64]], Option<(u32, i64)>, &[i64]); 7] = [
    (&[], None, &[]),
    (&[&[5]], None, &[5]),
    (&[&[-1_000_000], &[5]], None, &[-1_000_000, 5]),
    (&[&[-1, 3]], Some((1, -1)), &[]),
    (&[&[0, 1, 9], &[-1, 3]], Some((1, 1)), &[]),
    (&[&[5], &[10, 11, 12, 13]], Some((2, 11)), &[]),
    (
        &[&[-9], &[5], &[-7, 0, 1, 2, 8, 9], &[-1, 3]],
        Some((3, 1)),
        &[],
    ),
];

// The tables behind functions, so that the proofs of the tests don't read them.
fn tree() -> &'static [(&'static [(i64, i64)], TreeLine, u64)] {
    &TREE
}

fn forms() -> &'static [(
    &'static [&'static [i64]],
    Option<(u32, i64)>,
    &'static [i64],
)] {
    &FORMS
}

fn box_of(alloc: Global, cells: &[&[i64]]) -> Option<Boxed> {
    let mut domains = Vec::new(alloc);
    for values in cells {
        domains.push(union(alloc, values, values)?).ok()?;
    }
    if 10 <= domains.len() {
        return None;
    }
    Boxed::new(alloc, &domains).ok()
}

/// Whether the line's cell is there, and has values on both sides of a split, or one that is taken and another one.
fn fits(present: &Boxed, line: &TreeLine) -> bool
    ensures { IsTrue result → MakesBoxes line.now present.now.present }
{
    match *line {
        Split { k, t } => {
            if k < 1 || present.cells() < k {
                return false;
            }
            let ends = present.cell(k).ends();
            ends.low <= t && t < ends.high
        }
        Remove { k, v, .. } => {
            if k < 1 || present.cells() < k {
                return false;
            }
            let domain = present.cell(k);
            let ends = domain.ends();
            ends.low < ends.high && domain.contains(v)
        }
        _ => true,
    }
}

/// Whether the cells have these first and last values.
fn has_ends(present: &Boxed, wanted: &[(i64, i64)]) -> bool {
    let mut k = 0_u32;
    for (low, high) in wanted {
        k = k.saturating_add(1);
        if k < 1 || present.cells() < k {
            return false;
        }
        let found = present.cell(k).ends();
        if (found.low, found.high) != (*low, *high) {
            return false;
        }
    }
    present.cells() == k
}

/// Whether the next box has these ends; then the line is followed on it.
fn step(frontier: &mut Frontier, ends: &[(i64, i64)], line: &TreeLine) -> Result<bool, Memory> {
    if !frontier.advance()? {
        return Ok(false);
    }
    let present = frontier.present();
    if !has_ends(present, ends) || !fits(present, line) {
        return Ok(false);
    }
    follow(frontier, line)?;
    Ok(true)
}

/// Whether no box waits any more.
fn is_through(frontier: &mut Frontier) -> Result<bool, Memory> {
    Ok(!frontier.advance()? && frontier.is_empty())
}

fn lines_hold(frontier: &mut Frontier) -> Result<bool, Memory> {
    for (ends, line, waiting) in tree() {
        let is_empty = frontier.is_empty();
        if is_empty || !step(frontier, ends, line)? || frontier.waiting() != *waiting {
            return Ok(false);
        }
    }
    is_through(frontier)
}

fn tree_holds(alloc: Global) -> Result<bool, Memory> {
    match box_of(alloc, &[&[0, 1, 2, 3, 4, 5, 6, 7], &[0, 1, 2, 5, 6]]) {
        Some(cells) => {
            let mut frontier = Frontier::new(alloc, cells);
            lines_hold(&mut frontier)
        }
        None => Ok(false),
    }
}

#[test]
fn the_lines_of_a_tree(rt: HostRuntime) {
    assert!(rt; tree_holds(rt.alloc()) == Ok(true));
}

fn form_holds(
    alloc: Global,
    cells: &[&[i64]],
    place: Option<(u32, i64)>,
    series: &[i64],
) -> Option<bool> {
    let present = box_of(alloc, cells)?;
    match form_of(alloc, &present).ok()? {
        Form::Alone(only) => Some(place.is_none() && only.as_slice() == series),
        Form::Wide(halving) => Some(Some((halving.cell, halving.at)) == place),
    }
}

#[test]
fn places_to_split_at(rt: HostRuntime) {
    let rows = forms();
    for row in 0..rows.len() {
        let (cells, place, series) = rows[row];
        assert!(rt;
            form_holds(rt.alloc(), cells, place, series) == Some(true),
            "row {row}"
        );
    }
}

/// Splits the greatest value off again and again.
fn splits_off(frontier: &mut Frontier) -> Result<bool, Memory> {
    for split in 0..4095_i64 {
        let t = 8188_i64.saturating_sub(split.saturating_mul(2));
        if !step(frontier, &[(0, t.saturating_add(2))], &Split { k: 1, t })? {
            return Ok(false);
        }
    }
    Ok(frontier.waiting() == 4096)
}

/// Takes the first 4,000 of the boxes of one value each.
fn takes_each(frontier: &mut Frontier) -> Result<bool, Memory> {
    for half in 0..4000_i64 {
        let value = half.saturating_mul(2);
        if !step(frontier, &[(value, value)], &Yes)? {
            return Ok(false);
        }
    }
    Ok(frontier.waiting() == 96)
}

fn many_hold(frontier: &mut Frontier) -> Result<bool, Memory> {
    if !splits_off(frontier)? || !takes_each(frontier)? {
        return Ok(false);
    }
    frontier.clear();
    is_through(frontier)
}

fn many_boxes_hold(alloc: Global) -> Result<bool, Memory> {
    match one_cell(alloc, &evens(alloc)?) {
        Some(cells) => {
            let mut frontier = Frontier::new(alloc, cells);
            many_hold(&mut frontier)
        }
        None => Ok(false),
    }
}

/// One cell of separate values, of which the greatest one is split off again and again: each then waits in a box of its
/// own, the least one first.
#[test]
fn as_many_boxes_as_values(rt: HostRuntime) {
    assert!(rt; many_boxes_hold(rt.alloc()) == Ok(true));
}
