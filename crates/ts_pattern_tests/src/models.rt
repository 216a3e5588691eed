//! What models hold that were read of texts, worked out by hand. Texts that are refused are in `examples/rows`.
//!
//! A table is one literal of rows: what is read, a `|`, and the text of which it is read, in which `/` stands for LF.

ghost use Rattle.std.specs.Prelude.{◌+◌, ◌<◌, ◌≤◌, length};
ghost use Rattle.ts_model.specs.LineByLine.{HasRoom, lines_read};

use super::rows::{halves, text_of};
use std::alloc::{AllocError, Global};
use ts_base::{Memory, first_line};
use ts_model::{Model, ModelReader, ModelStop, Need, read_model, read_series};
use ts_token::{ShortLine, cut_tokens};

mod comparisons;

/// The number of cells, the values of each after a colon, the objective, the requirements and the terms; or the line
/// that is refused, and why.
static HELD: &str = "\
2: 0 1 2 3 4 5 6 7 8 9: 0 1 2 3 4 5 6 7 8 9 None [] {}|cells 2/
3: 5: 0 1 2 3 4 5 6 7 8 9: 0 1 2 3 4 5 6 7 8 9 None [] {}|cells 3/cell 1 5/
2: 0 1 2 3 4 5 6 7 8 9: -7 -6 0 3 4 5 None [] {}|cells 2/cell 2 0 3..5 -7..-6 4/
3: 0 1 2 3: 2 3 4 5: 0 1 2 3 None [] {}|cells 3/domain 0..3/cell 2 2..5/
2: 0 1: 0 1 None [] {}|cells 2/cell 1 5/domain 0 1/
2: 2: 0 1 2 3 4 5 6 7 8 9 None [] {}|cells 2/cell 1 5/cell 1 2/
2: 5 6: 5 6 None [] {}|cells 2/domain 0..3/domain 5..6/
2: 0 1 2 3 4 7 9: 0 1 2 3 4 7 9 None [] {}|cells 2/domain 9 0..2 7 2..4 1 7 3 0 0/
3: 0 1: 5 6 7: 0 1 Some(1) \
    [Require { term: 1, op: AtMost, bound: NegInf }, Require { term: 0, op: Above, bound: Int(4) }] \
    {\"w\": Term { aggregator: Sum, feature: Width, pattern: Peak }, \
    \"c\": Term { aggregator: Sum, feature: One, pattern: Peak }, \
    \"a\": Term { aggregator: Max, feature: Min, pattern: Valley }}|\
    cells 3/domain 0..1/term w = sum width peak/term c = count peak/term a = max min valley/cell 2 7 5..6 6/\
    require c <= -inf/require w > 4/objective c/
3 UnknownLine|cells 2/# \t one/foo 1/";

// The table behind a function, so that the proof of a test doesn't read it.
pub(super) fn held() -> &'static str {
    HELD
}

/// How the lines of a model are read.
#[derive(Clone, Copy)]
enum Direction {
    Together,
    OneByOne,
    /// By what is kept of each line.
    Shortened,
}

/// What is read of a text, as rows write it.
fn told(alloc: Global, read: Result<Model, ModelStop>) -> Result<String, AllocError> {
    match read {
        Ok(model) => parts_of(alloc, &model),
        Err(ModelStop::Refused { line, kind }) => format!(in alloc; "{line} {kind:?}"),
        Err(ModelStop::Memory) => String::from_str(alloc, "memory"),
    }
}

/// Whether what is read of the text of a row is what the row says, in whatever way its lines are read.
pub(super) fn is_held(alloc: Global, row: &[u8]) -> Result<bool, Memory> {
    let Some((want, written)) = halves(row) else {
        return Ok(false);
    };
    let text = text_of(alloc, written)?;
    if text.len() >= 10_000 {
        return Ok(false);
    }
    for way in [
        Direction::Together,
        Direction::OneByOne,
        Direction::Shortened,
    ] {
        if told(alloc, read_by(alloc, &text, way))?.as_bytes() != want {
            return Ok(false);
        }
    }
    Ok(true)
}

fn read_by(alloc: Global, text: &[u8], way: Direction) -> Result<Model, ModelStop>
    requires { length text.now < 10000 }
{
    match way {
        Direction::Together => read_model(alloc, text, Need::Values),
        Direction::OneByOne => read_by_lines(alloc, text, false),
        Direction::Shortened => read_by_lines(alloc, text, true),
    }
}

fn read_by_lines(alloc: Global, text: &[u8], shortened: bool) -> Result<Model, ModelStop>
    requires { length text.now < 10000 }
{
    let mut reader = ModelReader::new(alloc, Need::Values)?;
    let mut rest = text;
    while !rest.is_empty() {
        let (line, left) = first_line(rest);
        read_line(alloc, &mut reader, line, shortened)?;
        rest = left;
    }
    reader.finish()
}

fn read_line(
    alloc: Global,
    reader: &mut ModelReader,
    line: &[u8],
    shortened: bool,
) -> Result<(), Memory>
    requires room { HasRoom reader.old }
    requires short { length line.now < 10000 }
    ensures { lines_read reader.new ≤ lines_read reader.old + 1 }
{
    if !shortened {
        return reader.line(line);
    }
    let mut kept = ShortLine::new(alloc);
    kept.feed(line)?;
    reader.line(kept.bytes())
}

fn parts_of(alloc: Global, model: &Model) -> Result<String, AllocError> {
    let Model {
        n,
        objective,
        requirements,
        terms,
        ..
    } = model;
    let values = values_of(alloc, model)?;
    format!(in alloc; "{n}{values} {objective:?} {requirements:?} {terms:?}")
}

/// A colon for each cell, and its values after it.
fn values_of(alloc: Global, model: &Model) -> Result<String, AllocError> {
    let mut text = String::new(alloc);
    for cell in &model.cells {
        text.push_str(":")?;
        for value in cell.values() {
            text.push_str(&format!(in alloc; " {value}")?)?;
        }
    }
    Ok(text)
}

/// Whether this series is read of a text, for as many cells.
fn is_read(alloc: Global, text: &[u8], wanted: &[i64]) -> Result<bool, Memory> {
    if text.len() >= 10_000 || wanted.len() >= 10 {
        return Ok(false);
    }
    let tokens = cut_tokens(alloc, text)?;
    match read_series(alloc, &tokens, wanted.len() as u32) {
        Ok(series) => Ok(series.as_slice() == wanted),
        Err(_) => Ok(false),
    }
}

#[test]
fn series_of_texts(rt: HostRuntime) {
    assert!(rt; is_read(rt.alloc(), b"series\n", &[]) == Ok(true));
    assert!(rt; is_read(rt.alloc(), b"series 1 2\n", &[1, 2]) == Ok(true));
}
