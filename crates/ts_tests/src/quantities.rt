//! Words at both ends of each range and one past each, and words that write no number; the numbers of the statuses; and
//! the requirement of the model of `sample`.

use std::alloc::Global;
use ts_base::{Ext, Memory};
use ts_model::{Op, Require};
use ts_run::{Budget, Cells, Count, Status, sample_model};

/// A word, and what it is as a budget, as a count and as a number of cells.
type Row = (&'static str, Option<u32>, Option<u32>, Option<u32>);

static WORDS: [Row; 16] = [
    ("", None, None, None),
    ("0", None, None, None),
    ("1", Some(1), Some(1), Some(1)),
    ("512", Some(512), Some(512), Some(512)),
    ("513", Some(513), Some(513), None),
    ("5000", Some(5000), Some(5000), None),
    ("5001", Some(5001), None, None),
    ("4000000", Some(4_000_000), None, None),
    ("4000001", None, None, None),
    ("4294967297", None, None, None),
    ("18446744073709551617", None, None, None),
    ("01", None, None, None),
    ("-0", None, None, None),
    ("-1", None, None, None),
    ("+1", None, None, None),
    ("1x", None, None, None),
];

fn words() -> &'static [Row] {
    &WORDS
}

/// Whether the word is this budget, or none.
fn is_budget(word: &[u8], wanted: Option<u32>) -> bool {
    match Budget::of(word) {
        Some(budget) => wanted == Some(budget.lines()),
        None => wanted.is_none(),
    }
}

/// Whether the word is this count, or none.
fn is_count(word: &[u8], wanted: Option<u32>) -> bool {
    match Count::of(word) {
        Some(count) => wanted == Some(count.series()),
        None => wanted.is_none(),
    }
}

/// Whether the word is this number of cells, or none.
fn are_cells(word: &[u8], wanted: Option<u32>) -> bool {
    match Cells::of(word) {
        Some(cells) => wanted == Some(cells.cells()),
        None => wanted.is_none(),
    }
}

#[test]
fn numbers_within(rt: HostRuntime) {
    for (word, budget, count, cells) in words() {
        let bytes = word.as_bytes();
        assert!(rt;
            is_budget(bytes, *budget) && is_count(bytes, *count) && are_cells(bytes, *cells),
            "{word}"
        );
    }
    assert!(rt; Budget::default().lines() == 100_000);
}

/// The status of a call, and the exit status of the program.
static CODES: [(Status, u8); 7] = [
    (Status::Done, 0),
    (Status::No, 1),
    (Status::Refused, 2),
    (Status::Budget, 3),
    (Status::ReadFault, 4),
    (Status::WriteFault, 5),
    (Status::Memory, 6),
];

fn codes() -> &'static [(Status, u8)] {
    &CODES
}

#[test]
fn codes_of_statuses(rt: HostRuntime) {
    for (status, code) in codes() {
        assert!(rt; status.code() == *code, "{code}");
    }
}

/// The one requirement of its model: peaks are no wider than 3. No answer of `sample` shows it, since the first best
/// series has no wider peak anyway.
fn has_requirement(alloc: Global) -> Result<bool, Memory> {
    let model = sample_model(alloc, 1)?;
    let wanted = Require {
        term: 1,
        op: Op::AtMost,
        bound: Ext::Int(3),
    };
    match model.requirements.as_slice() {
        [only] => Ok(*only == wanted),
        _ => Ok(false),
    }
}

#[test]
fn requirement_of_sample(rt: HostRuntime) {
    assert!(rt; has_requirement(rt.alloc()) == Ok(true));
}
