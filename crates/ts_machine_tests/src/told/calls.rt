//! What the calls of `ts_filter` answer of a box, against its spans: all comparisons with ten bounds, and both goals.

ghost use Rattle.std.specs.Prelude.{◌≡◌, ◌≤◌, None, length};
ghost use Rattle.ts_bound.specs.TermSpans.{LooksIn, automata_of};
ghost use Rattle.ts_domain.specs.BoxSeries.{IsCell};
ghost use Rattle.ts_glue.specs.Machines.{pair_of};

use super::spans_at;
use super::written::{number, word};
use Ext::{Int, NegInf, PosInf};
use std::alloc::Global;
use std::test::Fail;
use ts_base::{Ext, Goal, Memory, Span};
use ts_domain::Boxed;
use ts_filter::{
    Bar, cut_at_end, cuts, first_cut, first_refuted, kept_value, refuted, refuted_value, refutes,
    worse,
};
use ts_glue::Machine;
use ts_model::{Op, Require};

const COMPARISONS: [Op; 6] = [
    Op::Equal,
    Op::Unequal,
    Op::AtMost,
    Op::AtLeast,
    Op::Below,
    Op::Above,
];

const BOUNDS: [Ext; 10] = [
    NegInf,
    Int(-1),
    Int(0),
    Int(1),
    Int(2),
    Int(3),
    Int(4),
    Int(6),
    Int(9),
    PosInf,
];

const GOALS: [Goal; 2] = [Goal::Maximise, Goal::Minimise];

/// Whether the requirements and both goals are answered at a cell as its span has it.
fn bound_holds(
    alloc: Global,
    m: &Machine,
    p: u32,
    cells: &Boxed,
    bound: Ext,
    span: Span,
) -> Result<bool, Memory>
    requires cell { IsCell p cells.now }
    requires split { pair_of m.now ≡ None → p ≡ length cells.now.present }
    requires looks { LooksIn (automata_of m.now) cells.now.present }
{
    for op in COMPARISONS {
        let r = Require { term: 0, op, bound };
        if refuted(alloc, m, &r, p, cells)? != refutes(op, bound, span) {
            return Ok(false);
        }
    }
    for goal in GOALS {
        let cut = cuts(goal, Bar::Better(bound), span);
        if worse(alloc, m, goal, p, cells, bound)? != cut {
            return Ok(false);
        }
    }
    Ok(true)
}

pub(super) fn cell_holds(
    alloc: Global,
    m: &Machine,
    p: u32,
    cells: &Boxed,
    span: Span,
) -> Result<bool, Memory>
    requires cell { IsCell p cells.now }
    requires split { pair_of m.now ≡ None → p ≡ length cells.now.present }
    requires looks { LooksIn (automata_of m.now) cells.now.present }
{
    for bound in BOUNDS {
        if !bound_holds(alloc, m, p, cells, bound, span)? {
            return Ok(false);
        }
    }
    Ok(true)
}

/// Whether the requirements are answered as the span has it, where a cell has this value alone: a bound and the span.
fn value_bound_holds(
    alloc: Global,
    m: &Machine,
    cells: &Boxed,
    p: u32,
    v: i64,
    told: (Ext, Span),
) -> Result<bool, Memory>
    requires cell { IsCell p cells.now }
    requires split { pair_of m.now ≡ None → p ≡ length cells.now.present }
    requires looks { LooksIn (automata_of m.now) cells.now.present }
{
    if !cells.cell(p).contains(v) {
        return Ok(false);
    }
    let (bound, span) = told;
    for op in COMPARISONS {
        let r = Require { term: 0, op, bound };
        if refuted_value(alloc, m, &r, p, v, cells)? != refutes(op, bound, span) {
            return Ok(false);
        }
    }
    Ok(true)
}

/// Whether the requirements of each bound are answered as its span has it, where the cell has one value alone.
pub(super) fn value_holds(
    alloc: Global,
    m: &Machine,
    cells: &Boxed,
    p: u32,
    v: i64,
    span: Span,
) -> Result<bool, Memory>
    requires cell { IsCell p cells.now }
    requires split { pair_of m.now ≡ None → p ≡ length cells.now.present }
    requires looks { LooksIn (automata_of m.now) cells.now.present }
{
    for bound in BOUNDS {
        if !value_bound_holds(alloc, m, cells, p, v, (bound, span))? {
            return Ok(false);
        }
    }
    Ok(true)
}

/// Whether nothing better, and nothing as good, is answered as the span at the last cell has it.
pub(super) fn end_holds(
    alloc: Global,
    m: &Machine,
    cells: &Boxed,
    span: Span,
) -> Result<bool, Memory>
    requires some { 1 ≤ length cells.now.present }
    requires looks { LooksIn (automata_of m.now) cells.now.present }
{
    for goal in GOALS {
        for bound in BOUNDS {
            for bar in [Bar::Better(bound), Bar::AsGood(bound)] {
                if cut_at_end(alloc, m, goal, cells, bar)? != cuts(goal, bar, span) {
                    return Ok(false);
                }
            }
        }
    }
    Ok(true)
}

/// Whether the written values are kept for the greatest and for the least objective.
pub(super) fn are_kept(
    alloc: Global,
    m: &Machine,
    p: u32,
    cells: &Boxed,
    written: &str,
) -> Result<bool, Fail>
    requires cell { IsCell p cells.now }
    requires looks { LooksIn (automata_of m.now) cells.now.present }
{
    for (place, goal) in [(0, Goal::Maximise), (1, Goal::Minimise)] {
        let wanted = number(word(written, place))?;
        if kept_value(alloc, m, goal, p, cells)? != wanted {
            return Ok(false);
        }
    }
    Ok(true)
}

/// The spans at the cells below the last one, of a machine that can be split; else none.
fn spans_below(alloc: Global, m: &Machine, cells: &Boxed) -> Result<Vec<Span>, Fail>
    requires { LooksIn (automata_of m.now) cells.now.present }
{
    let mut spans = Vec::new(alloc);
    if m.reverse().is_none() {
        return Ok(spans);
    }
    for k in 1..cells.cells() {
        let least = cells.cell(k).least();
        spans.push(spans_at(alloc, m, cells, k, least)?.0)?;
    }
    Ok(spans)
}

/// The first cell whose span the requirement refutes.
fn first_refuting(spans: &[Span], op: Op, bound: Ext) -> Option<u32>
    requires { length spans.now ≤ 99 }
{
    for at in 0..spans.len() {
        if refutes(op, bound, spans[at]) {
            return Some(at as u32 + 1);
        }
    }
    None
}

/// The first cell in whose span no number counts for the bar.
fn first_cutting(spans: &[Span], goal: Goal, bar: Bar) -> Option<u32>
    requires { length spans.now ≤ 99 }
{
    for at in 0..spans.len() {
        if cuts(goal, bar, spans[at]) {
            return Some(at as u32 + 1);
        }
    }
    None
}

fn first_bound_holds(
    alloc: Global,
    m: &Machine,
    cells: &Boxed,
    spans: &[Span],
    bound: Ext,
) -> Result<bool, Memory>
    requires few { length spans.now ≤ 99 }
    requires looks { LooksIn (automata_of m.now) cells.now.present }
{
    for op in COMPARISONS {
        let r = Require { term: 0, op, bound };
        if first_refuted(alloc, m, &r, cells)? != first_refuting(spans, op, bound) {
            return Ok(false);
        }
    }
    for goal in GOALS {
        for bar in [Bar::Better(bound), Bar::AsGood(bound)] {
            if first_cut(alloc, m, goal, cells, bar)? != first_cutting(spans, goal, bar) {
                return Ok(false);
            }
        }
    }
    Ok(true)
}

/// Whether the first cells below the last are answered as their spans have it.
pub(super) fn first_cells_hold(alloc: Global, m: &Machine, cells: &Boxed) -> Result<bool, Fail>
    requires { LooksIn (automata_of m.now) cells.now.present }
{
    let spans = spans_below(alloc, m, cells)?;
    if 99 < spans.len() {
        return Ok(false);
    }
    for bound in BOUNDS {
        if !first_bound_holds(alloc, m, cells, &spans, bound)? {
            return Ok(false);
        }
    }
    Ok(true)
}
