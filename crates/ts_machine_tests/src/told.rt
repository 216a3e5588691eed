//! Boxes with what is said of them under one term or automaton: rows of hulls, spans, and what spans leave out. All
//! numbers are by programs that know no Rattle: they follow the definitions over all pairs of values, or go over all
//! series, and make the automata of terms from the tables of seeds.
//!
//! A table is one text. A box is a head and, after a line `/`, lines about it; a line `%` stands between two boxes. A
//! head is a model of one term, perhaps with a requirement; or, after `machines:`, the names of automata, perhaps
//! after a `|` the first and the last cell that they look at, and below them a model without a term: then a line has a
//! span for each of them.
//!
//! | line | what it says |
//! |---|---|
//! | `ahead K ROW`, `back K ROW` | the row of cell K in each table: none at a cell that isn't looked at |
//! | `at K SPAN` | the span at cell K |
//! | `at K SPAN\|V SPAN\|V SPAN drop` | besides that with each of its values alone; which the requirement drops |
//! | `kept K V W` | the values that a dive keeps at cell K for the greatest and the least objective |
//! | `drops T OP B, ..: K V J` | the first drop by these requirements on term T, which is 0, or `none` |
//! | `widths T OP B, ..: K V J` | the same by requirements on the three automata of widths of peaks |
//!
//! A row has a `|` between two hulls: a hull as its spans of C, E, D, F and R, or of C, D and R where E and F hold 0,
//! and `-` where it is none; a span as its two ends with a `:` between them, or as its only number. An `e` stands for
//! what results begin with.

ghost use Rattle.std.specs.Prelude.{◌≡◌, ◌≤◌, Contains, IfOk, IsTrue, None, length};
ghost use Rattle.ts_bound.specs.Rows.{IsRow};
ghost use Rattle.ts_bound.specs.TermSpans.{LooksIn, automata_of};
ghost use Rattle.ts_domain.specs.BoxSeries.{IsCell, cell_of};
ghost use Rattle.ts_glue.specs.Machines.{pair_of, window_of};
ghost use Rattle.ts_model.specs.Promise.{IsWhole};
ghost use Rattle.ts_model.specs.Views.{model_parts};

mod calls;
mod drops;
mod kept_cells;
pub(crate) mod machines;
mod terms;
mod widths;
mod windows;
pub(crate) mod written;

use machines::plain;
use std::alloc::Global;
use std::test::Fail;
use ts_base::{Ext, Span};
use ts_bound::{HullTable, backward, forward, term_span, value_span};
use ts_compile::compile_model;
use ts_domain::Boxed;
use ts_filter::refuted_value;
use ts_glue::Machine;
use ts_model::{Model, Need, Require, read_model};
use ts_pattern::Aggregator;
use written::{cell, number, row_of, span, word};

/// Whether the machine looks at cells of the box.
pub(crate) fn looks_in(m: &Machine, cells: &Boxed) -> bool
    ensures { IsTrue result → LooksIn (automata_of m.now) cells.now.present }
{
    match m.window() {
        None => true,
        Some(window) => {
            1 <= window.first && window.first <= window.last && window.last <= cells.cells()
        }
    }
}

fn model_of(alloc: Global, text: &str) -> Result<Model, Fail>
    ensures { IfOk result (λ m. IsWhole (model_parts m)) }
{
    if 1000 < text.len() {
        Err("a long text")?
    }
    match read_model(alloc, text.as_bytes(), Need::List) {
        Ok(model) => Ok(model),
        Err(_) => Err("no model")?,
    }
}

fn box_of(alloc: Global, model: &Model) -> Result<Boxed, Fail>
    ensures { IfOk result (λ b. 1 ≤ length b.present) }
{
    if model.cells.len() < 1 || 99 < model.cells.len() {
        Err("no cell, or many")?
    }
    Ok(Boxed::new(alloc, &model.cells)?)
}

/// The cells of a model.
pub(crate) fn cells_of(alloc: Global, text: &str) -> Result<Boxed, Fail>
    ensures { IfOk result (λ b. 1 ≤ length b.present) }
{
    box_of(alloc, &model_of(alloc, text)?)
}

/// The row of a cell; `e` is what results begin with.
fn row_holds(alloc: Global, table: &HullTable, k: u32, written: &str, e: Ext) -> Result<bool, Fail>
    requires { IsRow k table.now }
{
    let row = table.row(k);
    if written == "" {
        return Ok(row.len() == 0);
    }
    Ok(row == row_of(alloc, written, e)?.as_slice())
}

fn ahead_holds(
    alloc: Global,
    m: &Machine,
    cells: &Boxed,
    k: u32,
    written: &str,
    e: Ext,
) -> Result<bool, Fail>
    requires cell { IsCell k cells.now }
    requires looks { LooksIn (automata_of m.now) cells.now.present }
{
    let table = forward(alloc, m, cells)?;
    row_holds(alloc, &table, k, written, e)
}

#[tactic(auto, using(crate::proofs::Splits::split_is))]
fn back_holds(
    alloc: Global,
    m: &Machine,
    cells: &Boxed,
    k: u32,
    written: &str,
    e: Ext,
) -> Result<bool, Fail>
    requires cell { IsCell k cells.now }
    requires looks { LooksIn (automata_of m.now) cells.now.present }
{
    m.reverse().ok_or("no reverse automaton")?;
    let table = backward(alloc, m, cells)?;
    row_holds(alloc, &table, k, written, e)
}

/// The span at a cell, and with a value of it alone.
#[tactic(auto, using(crate::proofs::Splits::split_is, crate::proofs::Splits::back_rows))]
pub(crate) fn spans_at(
    alloc: Global,
    m: &Machine,
    cells: &Boxed,
    k: u32,
    v: i64,
) -> Result<(Span, Span), Fail>
    requires cell { IsCell k cells.now }
    requires usable { pair_of m.now ≡ None → k ≡ length cells.now.present }
    requires looks { LooksIn (automata_of m.now) cells.now.present }
    requires value { Contains (cell_of k cells.now) v }
{
    let ahead = forward(alloc, m, cells)?;
    match m.reverse() {
        None => Ok((
            term_span(m, &ahead, None, cells, k),
            value_span(m, &ahead, None, cells, k, v),
        )),
        Some(_) => {
            let back = backward(alloc, m, cells)?;
            Ok((
                term_span(m, &ahead, Some(&back), cells, k),
                value_span(m, &ahead, Some(&back), cells, k, v),
            ))
        }
    }
}

/// One value of a cell, the span with it alone at a place after it, and whether the requirement drops it.
fn value_is_told(
    alloc: Global,
    m: &Machine,
    r: Option<&Require>,
    cells: &Boxed,
    k: u32,
    alone: &str,
    place: usize,
) -> Result<bool, Fail>
    requires cell { IsCell k cells.now }
    requires usable { pair_of m.now ≡ None → k ≡ length cells.now.present }
    requires looks { LooksIn (automata_of m.now) cells.now.present }
{
    let v = number(word(alone, 0))?;
    if !cells.cell(k).contains(v) {
        return Ok(false);
    }
    let wanted = span(word(alone, place), Ext::Int(0)).ok_or("no span")?;
    if let Some(r) = r {
        if refuted_value(alloc, m, r, k, v, cells)? != (word(alone, 2) == "drop") {
            return Ok(false);
        }
    }
    let (_, at_value) = spans_at(alloc, m, cells, k, v)?;
    Ok(at_value == wanted && calls::value_holds(alloc, m, cells, k, v, wanted)?)
}

/// Whether all values of a cell are as they are written.
fn values_are_told(
    alloc: Global,
    m: &Machine,
    r: Option<&Require>,
    cells: &Boxed,
    k: u32,
    values: &str,
    place: usize,
) -> Result<bool, Fail>
    requires cell { IsCell k cells.now }
    requires usable { pair_of m.now ≡ None → k ≡ length cells.now.present }
    requires looks { LooksIn (automata_of m.now) cells.now.present }
{
    let mut count: u64 = 0;
    for alone in values.split('|') {
        if !value_is_told(alloc, m, r, cells, k, alone, place)? {
            return Ok(false);
        }
        count = count.saturating_add(1);
    }
    Ok(cells.cell(k).size() == count)
}

/// Whether the span at a cell, what it leaves out, and perhaps its values are as they are written.
fn spans_are_told(
    alloc: Global,
    m: &Machine,
    r: Option<&Require>,
    cells: &Boxed,
    k: u32,
    written: &str,
    place: usize,
) -> Result<bool, Fail>
    requires cell { IsCell k cells.now }
    requires usable { pair_of m.now ≡ None → k ≡ length cells.now.present }
    requires looks { LooksIn (automata_of m.now) cells.now.present }
{
    let (whole, values) = written.split_once('|').unwrap_or((written, ""));
    let wanted = span(word(whole, place), Ext::Int(0)).ok_or("no span")?;
    let least = cells.cell(k).least();
    let (at_cell, _) = spans_at(alloc, m, cells, k, least)?;
    if at_cell != wanted || !calls::cell_holds(alloc, m, k, cells, wanted)? {
        return Ok(false);
    }
    if k == cells.cells() && !calls::end_holds(alloc, m, cells, wanted)? {
        return Ok(false);
    }
    if values == "" {
        return Ok(true);
    }
    values_are_told(alloc, m, r, cells, k, values, place.saturating_add(1))
}

/// A line about a cell; `place` is that of the machine among those of the head.
fn cell_line_holds(
    alloc: Global,
    m: &Machine,
    r: Option<&Require>,
    cells: &Boxed,
    e: Ext,
    place: usize,
    line: (&str, &str),
) -> Result<bool, Fail>
    requires { LooksIn (automata_of m.now) cells.now.present }
{
    let (what, rest) = line;
    let (k, written) = rest.split_once(' ').unwrap_or((rest, ""));
    let k = cell(k)?;
    if k < 1 || cells.cells() < k {
        return Ok(false);
    }
    match what {
        "ahead" => ahead_holds(alloc, m, cells, k, written, e),
        "back" => back_holds(alloc, m, cells, k, written, e),
        "kept" => calls::are_kept(alloc, m, k, cells, written),
        "at" if m.reverse().is_some() || k == cells.cells() => {
            spans_are_told(alloc, m, r, cells, k, written, place)
        }
        _ => Ok(false),
    }
}

fn line_holds(
    alloc: Global,
    m: &Machine,
    r: Option<&Require>,
    cells: &Boxed,
    e: Ext,
    place: usize,
    line: &str,
) -> Result<bool, Fail>
    requires { LooksIn (automata_of m.now) cells.now.present }
{
    let (what, written) = line.split_once(' ').ok_or("no line")?;
    match what {
        "drops" => drops::drop_holds(alloc, m, cells, written),
        "widths" => drops::drop_of_widths_holds(alloc, cells, written),
        _ => cell_line_holds(alloc, m, r, cells, e, place, (what, written)),
    }
}

/// The first line that doesn't hold, and `first` where other cells are answered first.
fn first_wrong<'a>(
    alloc: Global,
    m: &Machine,
    r: Option<&Require>,
    cells: &Boxed,
    e: Ext,
    place: usize,
    told: &'a str,
) -> Result<Option<&'a str>, Fail>
    requires { LooksIn (automata_of m.now) cells.now.present }
{
    for line in told.lines() {
        if line != "" && !line_holds(alloc, m, r, cells, e, place, line)? {
            return Ok(Some(line));
        }
    }
    if calls::first_cells_hold(alloc, m, cells)? {
        Ok(None)
    } else {
        Ok(Some("first"))
    }
}

/// What results begin with, by the first letters of an automaton's name.
fn begin_by_name(name: &str) -> Ext {
    if name.starts_with("max") {
        Ext::NegInf
    } else if name.starts_with("min") {
        Ext::PosInf
    } else {
        Ext::Int(0)
    }
}

/// What results of a model's only term begin with.
fn begin_of(model: &Model) -> Ext {
    match model.terms.values().next() {
        Some(term) if term.aggregator == Aggregator::Max => Ext::NegInf,
        Some(term) if term.aggregator == Aggregator::Min => Ext::PosInf,
        _ => Ext::Int(0),
    }
}

/// The first and the last cell of the window that is written, if one is.
fn written_window(written: &str) -> Result<Option<(u32, u32)>, Fail> {
    if written == "" {
        return Ok(None);
    }
    let (first, last) = (cell(word(written, 0))?, cell(word(written, 1))?);
    if first < 1 || last < first || 512 < last {
        Err("no window")?
    }
    Ok(Some((first, last)))
}

/// The machine over a window.
fn over(m: Machine, window: Option<(u32, u32)>) -> Machine
    requires { window_of m ≡ None }
{
    match window {
        Some((first, last)) if 1 <= first && first <= last && last <= 512 => m.over(first, last),
        _ => m,
    }
}

/// The first line of a box that doesn't hold for a machine, or all where it doesn't look at the box.
fn first_wrong_of_machine<'a>(
    alloc: Global,
    name: &str,
    window: Option<(u32, u32)>,
    cells: &Boxed,
    place: usize,
    told: &'a str,
) -> Result<Option<&'a str>, Fail> {
    let m = over(plain(alloc, name)?, window);
    if !looks_in(&m, cells) {
        return Ok(Some(told));
    }
    first_wrong(alloc, &m, None, cells, begin_by_name(name), place, told)
}

/// The first line of a box that doesn't hold for one of its machines.
fn first_wrong_of_machines<'a>(
    alloc: Global,
    head: &str,
    told: &'a str,
) -> Result<Option<&'a str>, Fail> {
    let (names, model) = head.split_once('\n').ok_or("no cells")?;
    let (names, window) = names.split_once('|').unwrap_or((names, ""));
    let window = written_window(window)?;
    let cells = cells_of(alloc, model)?;
    let mut place = 0;
    for name in names.split_whitespace() {
        let wrong = first_wrong_of_machine(alloc, name, window, &cells, place, told)?;
        if wrong.is_some() {
            return Ok(wrong);
        }
        place = place.saturating_add(1);
    }
    Ok(None)
}

/// The first line that doesn't hold for a model's machine, or all where there isn't one.
fn first_wrong_of_model<'a>(
    alloc: Global,
    model: &Model,
    told: &'a str,
) -> Result<Option<&'a str>, Fail>
    requires { IsWhole (model_parts model.now) }
{
    let program = compile_model(alloc, model)?;
    let cells = box_of(alloc, model)?;
    match program.machines() {
        [m] if looks_in(m, &cells) => {
            first_wrong(
                alloc,
                m,
                model.requirements.first(),
                &cells,
                begin_of(model),
                0,
                told,
            )
        }
        _ => Ok(Some(told)),
    }
}

fn first_wrong_of<'a>(alloc: Global, text: &'a str) -> Result<Option<&'a str>, Fail> {
    let (head, told) = text.split_once('/').ok_or("no box")?;
    match head.split_once(':') {
        Some((_, machines)) => first_wrong_of_machines(alloc, machines, told),
        None => first_wrong_of_model(alloc, &model_of(alloc, head)?, told),
    }
}

#[test]
fn boxes(rt: HostRuntime) -> Result<(), Fail> {
    for table in [
        windows::boxes(),
        machines::boxes(),
        widths::boxes(),
        terms::boxes(),
    ] {
        for text in table.split('%') {
            let wrong = first_wrong_of(rt.alloc(), text)?;
            assert!(rt; wrong.is_none(), "{text}");
        }
    }
    Ok(())
}
