//! The ranges of a series in words.

ghost use Rattle.std.specs.Prelude.{◌≡◌, ◌+◌, ◌-◌, ◌++◌, ◌<◌, ◌≤◌, length, drop, IfOk, OnOk};
ghost use Rattle.std.specs.Fmt.{decimal};
ghost use Rattle.ts_base.specs.Limits.{too_many};
ghost use Rattle.ts_mark.specs.Rising.{AreRising};
ghost use Rattle.ts_mark.specs.MarkText.{count_line, range_line, range_lines, mark_line, more_numbers, joined, cell_words, marks_text};
ghost use Rattle.ts_mark.specs.Walk.{ended, begun, counted};

use std::alloc::Global;
use ts_base::{Memory, Range, push_number};

/// How many ranges there are, the cells of each, and for each of so many cells the numbers of the ranges that hold it,
/// from 1, rising and joined by `+`, or 0. Each range begins and ends after the one before, as those of `marks` do.
pub fn marks_text(alloc: Global, cells: u32, ranges: &[Range]) -> Result<Vec<u8>, Memory>
    requires few { length ranges.now < too_many }
    requires rising { AreRising ranges.now }
    ensures { IfOk result (λ text. text.items ≡ marks_text cells ranges.now) }
{
    let mut text = Vec::new(alloc);
    push_count(&mut text, ranges.len())?;
    push_ranges(&mut text, ranges)?;
    push_marks(&mut text, cells, ranges)?;
    Ok(text)
}

/// The line that says how many ranges there are.
fn push_count(text: &mut Vec<u8>, count: usize) -> Result<(), Memory>
    requires { count < 9223372036854775808 }
    ensures { OnOk result (text.new.items ≡ text.old.items ++ count_line count) }
{
    text.extend_from_slice(b"occurrences ")?;
    push_numeral(text, count)?;
    text.push(b'\n')?;
    Ok(())
}

/// A line for each range.
fn push_ranges(text: &mut Vec<u8>, ranges: &[Range]) -> Result<(), Memory>
    ensures { OnOk result (text.new.items ≡ text.old.items ++ range_lines ranges.now) }
{
    for range in ranges {
        push_range(text, *range)?;
    }
    Ok(())
}

/// The line of one range.
fn push_range(text: &mut Vec<u8>, range: Range) -> Result<(), Memory>
    ensures { OnOk result (text.new.items ≡ text.old.items ++ range_line range) }
{
    text.extend_from_slice(b"range ")?;
    push_number(text, i64::from(range.first))?;
    text.push(b' ')?;
    push_number(text, i64::from(range.last))?;
    text.push(b'\n')?;
    Ok(())
}

/// The line with a word for each cell.
fn push_marks(text: &mut Vec<u8>, cells: u32, ranges: &[Range]) -> Result<(), Memory>
    requires few { length ranges.now < too_many }
    requires rising { AreRising ranges.now }
    ensures { OnOk result (text.new.items ≡ text.old.items ++ mark_line cells ranges.now) }
{
    text.extend_from_slice(b"mark")?;
    push_cells(text, cells, ranges)?;
    text.push(b'\n')?;
    Ok(())
}

/// A word for each cell. Both ends of the ranges rise: those that ended before the cell stand before all others, and
/// those that begin after it after, so that two places go on with the cells.
fn push_cells(text: &mut Vec<u8>, cells: u32, ranges: &[Range]) -> Result<(), Memory>
    requires few { length ranges.now < too_many }
    requires rising { AreRising ranges.now }
    ensures { OnOk result (text.new.items ≡ text.old.items ++ cell_words ranges.now 1 cells) }
{
    let mut first = 0;
    let mut behind = 0;
    for k in 0..cells {
        first = past_ended(ranges, first, k + 1);
        behind = past_begun(ranges, behind, k + 1);
        text.push(b' ')?;
        push_joined(text, first, behind)?;
    }
    Ok(())
}

/// The place after the ranges that end before the cell, from this one on.
fn past_ended(ranges: &[Range], from: usize, cell: u32) -> usize
    requires { from ≤ length ranges.now }
    ensures exact { result ≡ from + ended cell (drop from ranges.now) }
    ensures inside { result ≤ length ranges.now }
{
    let mut place = from;
    while place < ranges.len() && ranges[place].last < cell {
        place += 1;
    }
    place
}

/// The place after the ranges that begin at the cell or before it, from this one on.
fn past_begun(ranges: &[Range], from: usize, cell: u32) -> usize
    requires { from ≤ length ranges.now }
    ensures exact { result ≡ from + begun cell (drop from ranges.now) }
    ensures inside { result ≤ length ranges.now }
{
    let mut place = from;
    while place < ranges.len() && ranges[place].first <= cell {
        place += 1;
    }
    place
}

/// The numbers of the ranges from one place to before another, joined by `+`; 0 where there is none.
fn push_joined(text: &mut Vec<u8>, first: usize, behind: usize) -> Result<(), Memory>
    requires few { behind < too_many }
    ensures { OnOk result (text.new.items ≡ text.old.items ++ joined (counted (first + 1) (behind - first))) }
{
    if first >= behind {
        text.push(b'0')?;
        return Ok(());
    }
    push_numeral(text, first + 1)?;
    push_more(text, first + 1, behind)
}

/// The numbers of the ranges from one place to before another, each after a `+`.
fn push_more(text: &mut Vec<u8>, first: usize, behind: usize) -> Result<(), Memory>
    requires few { behind < too_many }
    ensures { OnOk result (text.new.items ≡ text.old.items ++ more_numbers (counted (first + 1) (behind - first))) }
{
    for k in first..behind {
        text.push(b'+')?;
        push_numeral(text, k + 1)?;
    }
    Ok(())
}

/// One number.
fn push_numeral(text: &mut Vec<u8>, number: usize) -> Result<(), Memory>
    requires { number < 9223372036854775808 }
    ensures { OnOk result (text.new.items ≡ text.old.items ++ decimal number) }
{
    push_number(text, number as i64)
}
