//! Cells that lose one number after the other, and get them back.

ghost use Rattle.std.specs.Prelude.{◌≡◌, IsTrue, length};
ghost use Rattle.ts_domain.specs.BoxSeries.{cell_of};

use super::{Keep, change, goes_back, one_cell};
use std::alloc::Global;
use ts_base::Memory;
use ts_domain::Boxed;

/// The first number that a cell of even numbers up to 8,190 loses, the step to the next one, how many it loses, and a
/// number that stays: from the low end, from the high end, from the middle on, and with a gap after each.
static LOSSES: [(i64, i64, u32, i64); 4] = [
    (0, 2, 4095, 8190),
    (8190, -2, 4095, 0),
    (4096, 2, 2047, 0),
    (2, 4, 1023, 0),
];

fn losses() -> &'static [(i64, i64, u32, i64)] {
    &LOSSES
}

/// Whether the one cell has this many numbers.
fn has_count(cells: &Boxed, count: u64) -> bool
    ensures { IsTrue result → (length cells.now.present ≡ 1) × (length (cell_of 1 cells.now) ≡ count) }
{
    cells.cells() == 1 && cells.cell(1).size() == count
}

/// The cell loses one number after the other, and gets them back.
fn loss_holds(
    cells: &mut Boxed,
    first: i64,
    step: i64,
    count: u32,
    stays: i64,
) -> Result<bool, Memory> {
    let mut gone = first;
    for _ in 0..count {
        if !change(cells, 1, Keep::AllBut(gone), stays)? {
            return Ok(false);
        }
        gone = gone.saturating_add(step);
    }
    Ok(
        has_count(cells, 4096_u64.saturating_sub(count as u64))
            && cells.mark() == count as usize
            && goes_back(cells, 0)
            && has_count(cells, 4096),
    )
}

fn losses_hold(cells: &mut Boxed) -> Result<bool, Memory> {
    for (first, step, count, stays) in losses() {
        if !loss_holds(cells, *first, *step, *count, *stays)? {
            return Ok(false);
        }
    }
    Ok(true)
}

fn loses_one_after_the_other(alloc: Global) -> Result<bool, Memory> {
    match one_cell(alloc, &evens(alloc)?) {
        Some(mut cells) => losses_hold(&mut cells),
        None => Ok(false),
    }
}

#[test]
fn one_number_less_after_the_other(rt: HostRuntime) {
    assert!(rt; loses_one_after_the_other(rt.alloc()) == Ok(true));
}

/// The even numbers up to 8,190.
pub(crate) fn evens(alloc: Global) -> Result<Vec<i64>, Memory> {
    let mut evens = Vec::new(alloc);
    for half in 0..4096_i64 {
        evens.push(half.saturating_mul(2))?;
    }
    Ok(evens)
}

/// The even numbers up to 7,998, without the second one of each of the first `gone` pairs.
fn plain_list(alloc: Global, gone: i64) -> Result<Vec<i64>, Memory> {
    let mut numbers = Vec::new(alloc);
    for half in 0..4000_i64 {
        if half % 2 == 0 || half / 2 >= gone {
            numbers.push(half.saturating_mul(2))?;
        }
    }
    Ok(numbers)
}

/// Whether the cell has the numbers of the list, by their places and on the way over them.
fn has_list(cells: &Boxed, wanted: &[i64]) -> bool {
    if !has_count(cells, wanted.len() as u64) {
        return false;
    }
    let cell = cells.cell(1);
    let mut walk = cell.values();
    for (i, value) in wanted.iter().enumerate() {
        if cell.nth(i as u64) != *value || walk.next() != Some(*value) {
            return false;
        }
    }
    walk.next().is_none()
}

/// The second number of each pair is taken away.
fn loses_each_second(cells: &mut Boxed) -> Result<bool, Memory> {
    for pair in 0..2000_i64 {
        let second = pair.saturating_mul(4).saturating_add(2);
        if !change(cells, 1, Keep::AllBut(second), 0)? {
            return Ok(false);
        }
    }
    Ok(true)
}

/// Goes back to where `pairs` pairs had lost their second number.
fn comes_back(alloc: Global, cells: &mut Boxed, pairs: u16) -> Result<bool, Memory> {
    let wanted = plain_list(alloc, i64::from(pairs))?;
    Ok(goes_back(cells, usize::from(pairs)) && has_list(cells, &wanted))
}

fn second_numbers_hold(alloc: Global, cells: &mut Boxed) -> Result<bool, Memory> {
    if !loses_each_second(cells)? {
        return Ok(false);
    }
    for pairs in [2000, 1337, 64, 0] {
        if !comes_back(alloc, cells, pairs)? {
            return Ok(false);
        }
    }
    Ok(true)
}

fn loses_second_numbers(alloc: Global) -> Result<bool, Memory> {
    match one_cell(alloc, &plain_list(alloc, 0)?) {
        Some(mut cells) => second_numbers_hold(alloc, &mut cells),
        None => Ok(false),
    }
}

#[test]
fn each_second_number_less(rt: HostRuntime) {
    assert!(rt; loses_second_numbers(rt.alloc()) == Ok(true));
}
