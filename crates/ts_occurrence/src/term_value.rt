//! The value of a term on a series: its aggregator over the features of the occurrences.
//!
//! Sums are whole numbers within 512 * 1024 * 1,000,000, far from the ends of an `i64` and from the clamp of
//! `Ext::plus`.

ghost use Rattle.std.specs.Prelude.{◌≡◌, ◌≤◌, map, length, IfOk, IfSome};
ghost use Rattle.std.specs.List.{All, AllByRecursion};
ghost use Rattle.ts_base.specs.Signature.{signature_of};
ghost use Rattle.ts_pattern.specs.Limits.{IsSeries};
ghost use Rattle.ts_base.specs.Limits.{IsCellValue, most_cells};
ghost use Rattle.ts_base.specs.Operators.{int_op};
ghost use Rattle.ts_pattern.specs.FeatureValue.{over, or_zero, feature_of_cells, feature_value};
ghost use Rattle.ts_pattern.specs.Folded.{joined_by, taken_away};
ghost use Rattle.ts_pattern.specs.Arithmetic.{worth_of};
ghost use Rattle.ts_transducer.specs.Inside.{IsInside};
ghost use Rattle.ts_occurrence.specs.Total.{IsWithin, with_one};
ghost use Rattle.ts_pattern.specs.TermValue.{value_of_none, aggregate_of_ranges, term_value};

use crate::occurrence::occurrences;
use crate::series::{part, signature};
use std::alloc::Global;
use ts_base::{Ext, Letter, Memory, Op, Range};
use ts_pattern::{Aggregator, CellFold, Feature, Term, Worth, pattern_by_id};

/// The value of the term on a series of 1 to 512 cells from -1,000,000 to 1,000,000.
pub fn value(alloc: Global, t: &Term, series: &[i64]) -> Result<Ext, Memory>
    requires { IsSeries series.now }
    ensures { IfOk result (λ v. v ≡ term_value t.now series.now) }
{
    let letters = signature(alloc, series)?;
    value_with(alloc, t, series, &letters)
}

/// The value of the term on a series whose signature is at hand: one signature serves all terms of a model.
pub fn value_with(
    alloc: Global,
    t: &Term,
    series: &[i64],
    letters: &[Letter],
) -> Result<Ext, Memory>
    requires series { IsSeries series.now }
    requires letters { letters.now ≡ signature_of series.now }
    ensures { IfOk result (λ v. v ≡ term_value t.now series.now) }
{
    let pattern = pattern_by_id(alloc, t.pattern)?;
    let ranges = occurrences(alloc, &pattern, letters)?;
    Ok(aggregate(t.aggregator, t.feature, &ranges, series))
}

/// The aggregator over the features of at most 512 ranges inside of the series, as a transducer decodes them.
pub fn aggregate(g: Aggregator, f: Feature, ranges: &[Range], series: &[i64]) -> Ext
    requires series { IsSeries series.now }
    requires few { length ranges.now ≤ most_cells }
    requires inside { AllByRecursion (λ r. IsInside (length series.now) r) ranges.now }
    ensures { result ≡ aggregate_of_ranges g f ranges.now series.now }
{
    match total(g.fold().op, f, ranges, series) {
        Some(x) => Ext::Int(x),
        None => value_of_none(g, f, series.len()),
    }
}

/// The features of the ranges joined; None where there is no range.
fn total(op: Op, f: Feature, ranges: &[Range], series: &[i64]) -> Option<i64>
    requires series { IsSeries series.now }
    requires few { length ranges.now ≤ most_cells }
    requires inside { AllByRecursion (λ r. IsInside (length series.now) r) ranges.now }
    ensures { result ≡ over (int_op op) (map (λ r. feature_value f r series.now) ranges.now) }
{
    let mut total = None;
    for k in 0..ranges.len() {
        let x = feature_at(f, ranges[k], series);
        total = Some(join(op, total, x));
    }
    total
}

/// The total joined with one more number.
fn join(op: Op, total: Option<i64>, x: i64) -> i64
    requires total { IfSome total (λ t. IsWithin 1000000000000 t) }
    requires feature { IsWithin 1024000000 x }
    ensures { result ≡ with_one (int_op op) total x }
{
    match (op, total) {
        (_, None) => x,
        (Op::Add, Some(t)) => t + x,
        (Op::Max, Some(t)) => t.max(x),
        (Op::Min, Some(t)) => t.min(x),
    }
}

/// The value without an occurrence, in a series of `n` cells.
fn value_of_none(g: Aggregator, f: Feature, n: usize) -> Ext
    requires { n ≤ most_cells }
    ensures { result ≡ value_of_none g f n }
{
    match (g, f) {
        (Aggregator::Max, Feature::Width) => Ext::Int(0),
        (Aggregator::Min, Feature::Width) => Ext::Int(n as i64),
        _ => g.fold().default.value(),
    }
}

fn feature_at(f: Feature, r: Range, series: &[i64]) -> i64
    requires series { IsSeries series.now }
    requires inside { IsInside (length series.now) r }
    ensures exact { result ≡ feature_value f r series.now }
    ensures within { IsWithin 1024000000 result }
{
    feature(f, part(r, series))
}

/// The feature of an e-range with those cells: what its rows make of what each cell is worth there.
fn feature(f: Feature, cells: &[i64]) -> i64
    requires some { 1 ≤ length cells.now }
    requires few { length cells.now ≤ most_cells }
    requires cells { All IsCellValue cells.now }
    ensures exact { result ≡ feature_of_cells f cells.now }
    ensures within { IsWithin 1024000000 result }
{
    let whole = joined(f.fold(), cells);
    let less = taken_away(f.less(), cells);
    whole - less
}

/// What is taken away from it.
fn taken_away(row: Option<CellFold>, cells: &[i64]) -> i64
    requires few { length cells.now ≤ most_cells }
    requires cells { All IsCellValue cells.now }
    ensures exact { result ≡ taken_away row cells.now }
    ensures within { IsWithin 512000000 result }
{
    match row {
        Some(row) => joined(row, cells),
        None => 0,
    }
}

/// What a row joins of what each cell is worth.
fn joined(row: CellFold, cells: &[i64]) -> i64
    requires few { length cells.now ≤ most_cells }
    requires cells { All IsCellValue cells.now }
    ensures exact { result ≡ or_zero (joined_by row cells.now) }
    ensures within { IsWithin 512000000 result }
{
    over(row.op, row.worth, cells).unwrap_or(0)
}

/// What the cells are worth, joined; None where there is none.
fn over(op: Op, worth: Worth, cells: &[i64]) -> Option<i64>
    requires few { length cells.now ≤ most_cells }
    requires cells { All IsCellValue cells.now }
    ensures exact { result ≡ over (int_op op) (map (worth_of worth) cells.now) }
    ensures within { IfSome result (λ x. IsWithin 512000000 x) }
{
    let mut total = None;
    for k in 0..cells.len() {
        let x = worth_at(worth, cells[k]);
        total = Some(join(op, total, x));
    }
    total
}

/// What a cell of this value is worth.
fn worth_at(worth: Worth, cell: i64) -> i64
    requires { IsCellValue cell }
    ensures exact { result ≡ worth_of worth cell }
    ensures within { IsWithin 1000000 result }
{
    match worth {
        Worth::Unit => 1,
        Worth::Cell => cell,
    }
}
