//! Words of a table: numbers, spans and rows of hulls.

use std::alloc::Global;
use std::test::Fail;
use ts_automaton::Hull;
use ts_base::{Ext, Span};

/// A word of a text, counted from 0; empty where there are fewer.
pub(crate) fn word(text: &str, place: usize) -> &str {
    text.split_whitespace().nth(place).unwrap_or("")
}

pub(super) fn number(written: &str) -> Result<i64, Fail> {
    Ok(written.parse::<i64>().ok().ok_or("no number")?)
}

pub(super) fn cell(written: &str) -> Result<u32, Fail> {
    Ok(written.parse::<u32>().ok().ok_or("no cell")?)
}

/// A number or an infinity; `e` is what results begin with.
pub(super) fn end(written: &str, e: Ext) -> Option<Ext> {
    match written {
        "e" => Some(e),
        "-inf" => Some(Ext::NegInf),
        "+inf" => Some(Ext::PosInf),
        number => Some(Ext::Int(number.parse::<i64>().ok()?)),
    }
}

pub(crate) fn span(written: &str, e: Ext) -> Option<Span> {
    let (lo, hi) = written.split_once(':').unwrap_or((written, written));
    Some(Span {
        lo: end(lo, e)?,
        hi: end(hi, e)?,
    })
}

/// The span at a place of a hull, and that of 0 where there is none.
fn span_at(written: &str, place: usize, e: Ext) -> Option<Span> {
    match word(written, place) {
        "" => Some(Span::one(Ext::Int(0))),
        written => span(written, e),
    }
}

fn hull(written: &str, first: Ext) -> Option<Hull> {
    if word(written, 0) == "-" {
        return Some(Hull::none());
    }
    let [c, e, d, f, r] = if word(written, 3).is_empty() {
        [0, 9, 1, 9, 2]
    } else {
        [0, 1, 2, 3, 4]
    };
    Some(Hull {
        c: span_at(written, c, first)?,
        e: span_at(written, e, first)?,
        d: span_at(written, d, first)?,
        f: span_at(written, f, first)?,
        r: span_at(written, r, first)?,
    })
}

/// The hulls of a row as it is written.
pub(super) fn row_of(alloc: Global, written: &str, e: Ext) -> Result<Vec<Hull>, Fail> {
    let mut row = Vec::new(alloc);
    for part in written.split('|') {
        row.push(hull(part, e).ok_or("no hull")?)?;
    }
    Ok(row)
}
