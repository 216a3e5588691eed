//! Unions, changes and ways back, worked out by hand.

ghost use Rattle.std.specs.Prelude.{◌&&◌, ◌≡◌, int_le, neg_ℤ, pos};
ghost use Rattle.std.specs.List.{list_all};

pub(crate) mod removals;

use std::alloc::Global;
use ts_base::Memory;
use ts_domain::{Boxed, Domain};

/// What a change of a cell leaves of its values: those up to a number, those above it, or all but one.
#[derive(Clone, Copy)]
enum Keep {
    UpTo(i64),
    Above(i64),
    AllBut(i64),
}

/// Low ends, high ends, the ranges of the union, and how many numbers it has; none where it is refused.
type Union = (&'static [i64], &'static [i64], &'static [(i64, i64)], u64);

static UNIONS: [Union; 13] = [
    (&[5], &[4], &[], 0),
    (&[], &[], &[], 0),
    (&[0, 9, 3], &[2, 8, 4], &[], 0),
    (&[3], &[3], &[(3, 3)], 1),
    (&[3], &[4], &[(3, 4)], 2),
    (&[1, 3], &[4, 6], &[(1, 6)], 6),
    (&[4, 1], &[6, 3], &[(1, 6)], 6),
    (&[5, 1], &[6, 3], &[(1, 3), (5, 6)], 5),
    (&[1, 2], &[9, 3], &[(1, 9)], 9),
    (&[2, 2], &[5, 5], &[(2, 5)], 4),
    (&[7, -3, 0], &[9, -1, 0], &[(-3, 0), (7, 9)], 7),
    (&[1, 5, 2, 8], &[1, 6, 3, 8], &[(1, 3), (5, 6), (8, 8)], 6),
    (
        &[999_999, -1_000_000],
        &[1_000_000, -1_000_000],
        &[(-1_000_000, -1_000_000), (999_999, 1_000_000)],
        3,
    ),
];

/// A change of 0..4, 7..9 and 12, a value that stays, and the ranges after it.
static CHANGES: [(Keep, i64, &[(i64, i64)]); 16] = [
    (Keep::UpTo(5), 4, &[(0, 4)]),
    (Keep::UpTo(4), 4, &[(0, 4)]),
    (Keep::UpTo(7), 7, &[(0, 4), (7, 7)]),
    (Keep::UpTo(0), 0, &[(0, 0)]),
    (Keep::UpTo(i64::MAX), 12, &[(0, 4), (7, 9), (12, 12)]),
    (Keep::Above(4), 7, &[(7, 9), (12, 12)]),
    (Keep::Above(6), 7, &[(7, 9), (12, 12)]),
    (Keep::Above(3), 4, &[(4, 4), (7, 9), (12, 12)]),
    (Keep::Above(11), 12, &[(12, 12)]),
    (Keep::Above(i64::MIN), 0, &[(0, 4), (7, 9), (12, 12)]),
    (Keep::AllBut(0), 1, &[(1, 4), (7, 9), (12, 12)]),
    (Keep::AllBut(2), 1, &[(0, 1), (3, 4), (7, 9), (12, 12)]),
    (Keep::AllBut(9), 1, &[(0, 4), (7, 8), (12, 12)]),
    (Keep::AllBut(12), 1, &[(0, 4), (7, 9)]),
    (Keep::AllBut(6), 1, &[(0, 4), (7, 9), (12, 12)]),
    (Keep::AllBut(i64::MIN), 1, &[(0, 4), (7, 9), (12, 12)]),
];

// Each table behind a function, so that the proof of the test doesn't read it.
fn unions() -> &'static [Union] {
    &UNIONS
}

fn changes() -> &'static [(Keep, i64, &'static [(i64, i64)])] {
    &CHANGES
}

pub(crate) fn within(values: &[i64]) -> bool
    ensures { result ≡ list_all (λ v. int_le (neg_ℤ (pos 1000000)) v && int_le v (pos 1000000)) values.now }
{
    values
        .iter()
        .all(|value| -1_000_000 <= *value && *value <= 1_000_000)
}

/// The union of ranges; None where it is refused, or past the limits.
pub(crate) fn union(alloc: Global, lows: &[i64], highs: &[i64]) -> Option<Domain> {
    if lows.len() != highs.len() || !within(lows) || !within(highs) {
        return None;
    }
    Domain::from_ranges(alloc, lows, highs).ok()
}

/// The box of one cell with these numbers.
pub(crate) fn one_cell(alloc: Global, numbers: &[i64]) -> Option<Boxed> {
    let domain = union(alloc, numbers, numbers)?;
    Boxed::new(alloc, &[domain]).ok()
}

/// Whether the walk gives this many numbers, each of the set and above the one before.
fn walks_over(domain: &Domain, count: u64) -> bool {
    let mut seen = 0_u64;
    let mut last = None;
    for value in domain.values() {
        if !domain.contains(value) || Some(value) <= last {
            return false;
        }
        last = Some(value);
        seen = seen.saturating_add(1);
    }
    seen == count
}

fn is_in(ranges: &[(i64, i64)], value: i64) -> bool {
    for (low, high) in ranges {
        if *low <= value && value <= *high {
            return true;
        }
    }
    false
}

/// Whether the set has the numbers of these ranges, and no other one.
fn has_ranges(domain: &Domain, wanted: &[(i64, i64)]) -> bool {
    let mut count = 0_i64;
    for (low, high) in wanted {
        if !domain.contains(*low) || !domain.contains(*high) {
            return false;
        }
        count = count.saturating_add(high.saturating_sub(*low).saturating_add(1));
    }
    let mut seen = 0_i64;
    for value in domain.values() {
        if !is_in(wanted, value) {
            return false;
        }
        seen = seen.saturating_add(1);
    }
    seen == count
}

/// Whether the set has these numbers as its first and its last one, and none before and after them.
fn has_ends(domain: &Domain, first: i64, last: i64) -> bool {
    let ends = domain.ends();
    (ends.low, ends.high, domain.least()) == (first, last, first)
        && !domain.contains(first.saturating_sub(1))
        && !domain.contains(last.saturating_add(1))
}

/// Whether the ranges begin and end with these.
fn are_ends(ranges: &[(i64, i64)], first: i64, last: i64) -> bool {
    match (ranges.first(), ranges.last()) {
        (Some((low, _)), Some((_, high))) => (*low, *high) == (first, last),
        _ => false,
    }
}

/// Whether the set has these ranges, this many numbers, and the ends of the ranges as its first and last number.
fn is_union(domain: &Domain, wanted: &[(i64, i64)], count: u64) -> bool {
    let size = domain.size();
    if size != count || size < 1 || domain.is_single() != (count == 1) {
        return false;
    }
    let (first, last) = (domain.nth(0), domain.nth(size - 1));
    are_ends(wanted, first, last)
        && has_ends(domain, first, last)
        && has_ranges(domain, wanted)
        && (10 <= count || walks_over(domain, count))
}

fn union_holds(alloc: Global, row: &Union) -> bool {
    let (lows, highs, wanted, count) = row;
    match union(alloc, lows, highs) {
        Some(domain) => is_union(&domain, wanted, *count),
        None => wanted.is_empty(),
    }
}

#[test]
fn unions_of_ranges(rt: HostRuntime) {
    let rows = unions();
    for place in 0..rows.len() {
        assert!(rt; union_holds(rt.alloc(), &rows[place]), "row {place}");
    }
}

/// Changes cell `k`, where the value `stays`; no change where it doesn't.
fn change(cells: &mut Boxed, k: u32, keep: Keep, stays: i64) -> Result<bool, Memory> {
    if k < 1 || cells.cells() < k {
        return Ok(false);
    }
    if !cells.cell(k).contains(stays) {
        return Ok(false);
    }
    match keep {
        Keep::UpTo(t) if stays <= t => cells.keep_low(k, t)?,
        Keep::Above(t) if t < stays => cells.keep_high(k, t)?,
        Keep::AllBut(gone) if stays != gone => cells.remove(k, gone)?,
        _ => return Ok(false),
    }
    Ok(true)
}

fn are_cells(cells: &Boxed, first: &[(i64, i64)], second: &[(i64, i64)]) -> bool {
    cells.cells() == 2 && has_ranges(cells.cell(1), first) && has_ranges(cells.cell(2), second)
}

/// Goes back to a mark, and answers whether the box is there.
fn goes_back(cells: &mut Boxed, mark: usize) -> bool {
    if cells.mark() < mark {
        return false;
    }
    cells.undo(mark);
    cells.mark() == mark
}

const BOTH: [(i64, i64); 2] = [(3, 3), (5, 5)];

const WHOLE: [(i64, i64); 3] = [(0, 4), (7, 9), (12, 12)];

/// Changes the second cell and goes back.
fn change_holds(
    cells: &mut Boxed,
    keep: Keep,
    stays: i64,
    wanted: &[(i64, i64)],
) -> Result<bool, Memory> {
    let mark = cells.mark();
    Ok(
        change(cells, 2, keep, stays)?
            && are_cells(cells, &BOTH, wanted)
            && goes_back(cells, mark)
            && are_cells(cells, &BOTH, &WHOLE),
    )
}

fn each_change_holds(cells: &mut Boxed) -> Result<bool, Memory> {
    for (keep, stays, wanted) in changes() {
        if !change_holds(cells, *keep, *stays, wanted)? {
            return Ok(false);
        }
    }
    Ok(true)
}

/// Six changes one after the other: a cell, what is kept, and a value that stays.
const SIX: [(u32, Keep, i64); 6] = [
    (2, Keep::UpTo(8), 3),
    (1, Keep::AllBut(3), 5),
    (2, Keep::AllBut(3), 1),
    (2, Keep::Above(2), 4),
    (1, Keep::UpTo(5), 5),
    (2, Keep::Above(7), 8),
];

fn makes_six(cells: &mut Boxed) -> Result<bool, Memory> {
    for (k, keep, stays) in SIX {
        if !change(cells, k, keep, stays)? {
            return Ok(false);
        }
    }
    Ok(are_cells(cells, &[(5, 5)], &[(8, 8)]))
}

/// Ways back from the six changes: to the third, twice, to the first and to none.
fn ways_back_hold(cells: &mut Boxed) -> bool {
    for _ in 0..2 {
        if !goes_back(cells, 3) || !are_cells(cells, &[(5, 5)], &[(0, 2), (4, 4), (7, 8)]) {
            return false;
        }
    }
    goes_back(cells, 1)
        && are_cells(cells, &BOTH, &[(0, 4), (7, 8)])
        && goes_back(cells, 0)
        && are_cells(cells, &BOTH, &WHOLE)
}

/// Whether two sets answer what they should.
fn are_told(both: &Domain, whole: &Domain) -> Result<bool, Memory> {
    if whole.size() != 9 {
        return Ok(false);
    }
    Ok(
        whole.nth(5) == 7
            && !whole.contains(6)
            && !whole.is_single()
            && both.is_same(&both.try_clone()?)
            && !both.is_same(whole),
    )
}

/// The box of both sets. None where they answer something else.
fn two_cells(alloc: Global) -> Option<Boxed> {
    let both = union(alloc, &[3, 5], &[3, 5])?;
    let whole = union(alloc, &[0, 7, 12], &[4, 9, 12])?;
    if are_told(&both, &whole) != Ok(true) {
        return None;
    }
    Boxed::new(alloc, &[both, whole]).ok()
}

fn changes_hold(alloc: Global) -> Result<bool, Memory> {
    match two_cells(alloc) {
        Some(mut cells) => Ok(
            each_change_holds(&mut cells)? && makes_six(&mut cells)? && ways_back_hold(&mut cells),
        ),
        None => Ok(false),
    }
}

#[test]
fn changes_and_ways_back(rt: HostRuntime) {
    assert!(rt; changes_hold(rt.alloc()) == Ok(true));
}
