//! Packed rows that meet at a cell give the spans that tables of plain hulls give: at each value of each cell of a box,
//! under all sixteen pairs of aggregator and feature.

ghost use Rattle.std.specs.Prelude.{◌≡◌, ◌<◌, ◌≤◌, IsSome, Some, length};
ghost use Rattle.ts_base.specs.Limits.{IsCellValue};
ghost use Rattle.ts_bound.specs.TermSpans.{LooksIn, automata_of};
ghost use Rattle.ts_domain.specs.BoxSeries.{IsCell, cell_of};
ghost use Rattle.ts_glue.specs.Machines.{forward_of, pair_of, reverse_of};
ghost use Rattle.ts_meet.specs.Meets.{HasPlace};
ghost use Rattle.ts_sweep.specs.Sides.{BothEnds, has_wide, lane_count, sides};

use super::packed_rows::{row_at, whole_row};
use super::told::{cells_of, looks_in, spans_at};
use std::alloc::Global;
use std::test::Fail;
use ts_automaton::Automaton;
use ts_base::{Memory, Span};
use ts_compile::compile_term;
use ts_domain::Boxed;
use ts_glue::Machine;
use ts_meet::{Asked, Joints, Spot, asked_at, finish_at, glued_at};
use ts_pattern::{Aggregator, Feature, PatternId, Term};
use ts_row::RowView;
use ts_sweep::packed::Ends;

/// Ranges of values, two of them with gaps.
static CELLS: &str =
    "cells 6\ncell 1 0..2\ncell 2 1..2 4\ncell 3 -2..1\ncell 4 3\ncell 5 0..1 6\ncell 6 1..3\n";

// The text behind a function, so that no proof reads it.
fn cells() -> &'static str {
    CELLS
}

/// What no span has.
#[derive(Clone, Copy)]
struct Nothing;

impl Asked for Nothing {
    ghost excluded = { λ a s. Unit {0} };

    ghost of_part = { λ a s t w h. tt };

    fn excludes(self, _span: Span) -> bool {
        true
    }

    fn enough(self) -> Option<Ends> {
        None
    }
}

/// The span where two rows meet, as it is given and as it is asked for.
fn met<const N: usize>(
    joints: &Joints,
    left: &RowView<'_, N>,
    right: &RowView<'_, N>,
    spot: Spot,
) -> Option<Span>
    requires registers { 6 ≤ lane_count N }
    requires lanes { N ≤ 64 }
    requires both { sides N ≡ BothEnds }
    requires left { HasPlace N joints.now.left_states spot.place left.now }
    requires right { HasPlace N joints.now.right_states spot.place right.now }
    requires value { IsCellValue spot.value }
{
    let span = glued_at(joints, left, right, spot);
    let asked = asked_at(Nothing, Span::none(), joints, left, right, spot)?;
    if asked == span { Some(span) } else { None }
}

/// The span at a value of a cell, by packed rows.
fn span_by_rows(
    alloc: Global,
    m: &Machine,
    cells: &Boxed,
    k: u32,
    i: u64,
) -> Result<Option<Span>, Fail>
    requires cell { IsCell k cells.now }
    requires place { i < length (cell_of k cells.now) }
{
    let reverse = m.reverse().ok_or("no reverse automaton")?;
    if reverse.wide() != m.forward().wide() {
        Err("two widths")?
    }
    if reverse.wide() {
        span_in_lanes::<10>(alloc, m, reverse, cells, k, i)
    } else {
        span_in_lanes::<6>(alloc, m, reverse, cells, k, i)
    }
}

/// The span where two rows meet at a value, in lanes of the width of both automata.
#[tactic(auto, using(crate::proofs::Splits::split_is))]
fn span_in_lanes<const N: usize>(
    alloc: Global,
    m: &Machine,
    reverse: &Automaton,
    cells: &Boxed,
    k: u32,
    i: u64,
) -> Result<Option<Span>, Fail>
    requires registers { 6 ≤ lane_count N }
    requires lanes { N ≤ 64 }
    requires both { sides N ≡ BothEnds }
    requires forward { (forward_of m.now).wide ≡ has_wide N }
    requires reverse { reverse_of m.now ≡ Some reverse.now }
    requires backward { reverse.now.wide ≡ has_wide N }
    requires cell { IsCell k cells.now }
    requires place { i < length (cell_of k cells.now) }
{
    let value = cells.cell(k).nth(i);
    if value < -1_000_000 || 1_000_000 < value {
        return Ok(None);
    }
    let joints = Joints::of(m);
    let left = row_at::<N>(alloc, m.forward(), cells, false, k)?;
    let right = row_at::<N>(alloc, reverse, cells, true, k)?;
    let spot = Spot {
        place: i as usize,
        value,
        cells: cells.cells(),
    };
    let left = whole_row(m.forward(), cells.cell(k), &left);
    let right = whole_row(reverse, cells.cell(k), &right);
    Ok(met(&joints, &left, &right, spot))
}

/// The span at a value of the last cell, by finish spans.
fn span_at_end(alloc: Global, a: &Automaton, cells: &Boxed, i: u64) -> Result<Span, Memory>
    requires cell { IsCell (length cells.now.present) cells.now }
    requires place { i < length (cell_of (length cells.now.present) cells.now) }
{
    if a.wide() {
        end_in_lanes::<10>(alloc, a, cells, i)
    } else {
        end_in_lanes::<6>(alloc, a, cells, i)
    }
}

/// The span at a value of the last cell, by finish spans, in lanes of the automaton's width.
fn end_in_lanes<const N: usize>(
    alloc: Global,
    a: &Automaton,
    cells: &Boxed,
    i: u64,
) -> Result<Span, Memory>
    requires width { a.now.wide ≡ has_wide N }
    requires registers { 6 ≤ lane_count N }
    requires lanes { N ≤ 64 }
    requires both { sides N ≡ BothEnds }
    requires cell { IsCell (length cells.now.present) cells.now }
    requires place { i < length (cell_of (length cells.now.present) cells.now) }
{
    let n = cells.cells();
    let row = row_at::<N>(alloc, a, cells, false, n)?;
    Ok(finish_at(a, &whole_row(a, cells.cell(n), &row), i as usize, n))
}

/// Whether both ways give the same spans at all values of a cell.
fn is_same_at(alloc: Global, m: &Machine, cells: &Boxed, k: u32) -> Result<bool, Fail>
    requires split { IsSome (pair_of m.now) }
    requires cell { IsCell k cells.now }
    requires looks { LooksIn (automata_of m.now) cells.now.present }
{
    for i in 0..cells.cell(k).size() {
        let v = cells.cell(k).nth(i);
        if !cells.cell(k).contains(v) {
            return Ok(false);
        }
        let (_, span) = spans_at(alloc, m, cells, k, v)?;
        if span_by_rows(alloc, m, cells, k, i)? != Some(span) {
            return Ok(false);
        }
        if k == cells.cells() && span_at_end(alloc, m.forward(), cells, i)? != span {
            return Ok(false);
        }
    }
    Ok(true)
}

/// The first cell at which both ways differ, of a machine that can be split.
#[tactic(auto, using(crate::proofs::Splits::split_is))]
fn first_other(alloc: Global, m: &Machine, cells: &Boxed) -> Result<Option<u32>, Fail>
    requires cells { 1 ≤ length cells.now.present }
    requires looks { LooksIn (automata_of m.now) cells.now.present }
{
    m.reverse().ok_or("no reverse automaton")?;
    for k in 0..cells.cells() {
        if !is_same_at(alloc, m, cells, k + 1)? {
            return Ok(Some(k + 1));
        }
    }
    Ok(None)
}

/// Whether both ways give the same spans at all cells under a term.
fn is_same_under(alloc: Global, term: &Term, cells: &Boxed) -> Result<bool, Fail>
    requires { 1 ≤ length cells.now.present }
{
    let m = compile_term(alloc, term)?;
    if !looks_in(&m, cells) {
        return Ok(false);
    }
    Ok(first_other(alloc, &m, cells)?.is_none())
}

/// The first feature that folds cells under which both ways differ, with this aggregator.
fn wrong_feature(
    alloc: Global,
    aggregator: Aggregator,
    pattern: PatternId,
    cells: &Boxed,
) -> Result<Option<Feature>, Fail>
    requires { 1 ≤ length cells.now.present }
{
    for feature in [
        Feature::Width,
        Feature::Surf,
        Feature::Max,
        Feature::Min,
        Feature::Range,
    ] {
        let term = Term::new(aggregator, feature, pattern).ok_or("no term")?;
        if !is_same_under(alloc, &term, cells)? {
            return Ok(Some(feature));
        }
    }
    Ok(None)
}

/// Whether both ways give the same spans where the ranges of the pattern are counted, and under each aggregator with
/// each other feature.
fn is_same_of(alloc: Global, pattern: PatternId, cells: &Boxed) -> Result<bool, Fail>
    requires { 1 ≤ length cells.now.present }
{
    let count = Term::new(Aggregator::Sum, Feature::One, pattern).ok_or("no term")?;
    let mut same = is_same_under(alloc, &count, cells)?;
    for aggregator in [Aggregator::Sum, Aggregator::Max, Aggregator::Min] {
        same = same && wrong_feature(alloc, aggregator, pattern, cells)?.is_none();
    }
    Ok(same)
}

#[test]
fn packed_rows_meet_as_tables_do(rt: HostRuntime) -> Result<(), Fail> {
    let cells = cells_of(rt.alloc(), cells())?;
    for pattern in [
        PatternId::Peak,
        PatternId::DecreasingTerrace,
        PatternId::Zigzag,
        PatternId::Plain,
    ] {
        assert!(rt; is_same_of(rt.alloc(), pattern, &cells)?, "{pattern:?}");
    }
    Ok(())
}
