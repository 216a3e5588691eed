//! Sweeps over two cells without gaps: one counted loop.

ghost use Rattle.std.specs.Prelude.{◌≡◌, ℕ, pos, neg_ℤ, ◌<◌, ◌≤◌, ◌+◌, ◌-◌, ◌≢◌, ◌+ℤ◌, length, get_or};
ghost use Rattle.ts_base.specs.Limits.{IsCellValue};
ghost use Rattle.ts_sweep.specs.Small.{IsAhead, IsCut, IsSmall, ahead_of, with_twin};
ghost use Rattle.ts_sweep.specs.Sweeps.{IsTakenIn, Leads, passed_hull, step_place};

use crate::column::Column;
use crate::hull::Hull;
use crate::source::Fronts;
use crate::steps::{step_place, taken_from};
use crate::values::{Run, Values};

/// How far one cell is ahead of the next, in the order of the sweep.
#[inline(always)]
fn ahead<const UP: bool>(values: Run, next_values: Run) -> i64
    requires first { IsCellValue values.first }
    requires few { values.count ≤ 2000001 }
    requires next_first { IsCellValue next_values.first }
    requires next_few { next_values.count ≤ 2000001 }
    ensures value { result ≡ ahead_of UP values.first values.count next_values.first next_values.count }
    ensures small { IsAhead result }
{
    if UP {
        next_values.first - values.first
    } else {
        end_of(values) - end_of(next_values)
    }
}

/// The value after the last one of a cell.
#[inline(always)]
pub(crate) fn end_of(values: Run) -> i64
    requires first { IsCellValue values.first }
    requires few { values.count ≤ 2000001 }
    ensures { result ≡ values.first +ℤ pos values.count }
{
    values.first + values.count as i64
}

/// One more if the move has a twin: then an equal value is passed too.
#[inline(always)]
fn with_twin(ahead: i64, twin: bool) -> i64
    requires { IsAhead ahead }
    ensures value { result ≡ with_twin twin ahead }
    ensures small { IsSmall result }
{
    if twin { ahead + 1 } else { ahead }
}

/// A number as a count, from 0 to the most.
#[inline(always)]
fn count_to(x: i64, most: usize) -> usize
    requires { most ≤ 2000001 }
    ensures cut { IsCut x most result }
    ensures within { result ≤ most }
{
    if x <= 0 {
        0
    } else if x < most as i64 {
        x as usize
    } else {
        most
    }
}

/// How many values are passed at the first step, and how many next values come before the first is passed: none beyond
/// those of either cell, so that there are no empty steps.
#[derive(Clone, Copy)]
struct Lead {
    ahead: usize,
    behind: usize,
}

/// How many values are passed at the first step; below 0 if the first value is passed at a later one.
#[inline(always)]
fn whole_lead<const UP: bool>(twin: bool, values: Run, next_values: Run) -> i64
    requires first { IsCellValue values.first }
    requires few { values.count ≤ 2000001 }
    requires next_first { IsCellValue next_values.first }
    requires next_few { next_values.count ≤ 2000001 }
    ensures value { result
        ≡ with_twin twin (ahead_of UP values.first values.count next_values.first next_values.count) }
    ensures small { IsSmall result }
{
    with_twin(ahead::<UP>(values, next_values), twin)
}

/// The lead, cut to the counts of both cells.
#[inline(always)]
fn cut_lead(lead: i64, count: usize, next_count: usize) -> Lead
    requires lead { IsSmall lead }
    requires few { count ≤ 2000001 }
    requires next_few { next_count ≤ 2000001 }
    ensures ahead { IsCut lead count result.ahead }
    ensures behind { IsCut (neg_ℤ lead) next_count result.behind }
    ensures few_ahead { result.ahead ≤ count }
    ensures few_behind { result.behind ≤ next_count }
{
    Lead {
        ahead: count_to(lead, count),
        behind: count_to(-lead, next_count),
    }
}

/// The lead of a sweep.
#[inline(always)]
fn lead_of<const UP: bool>(twin: bool, values: Run, next_values: Run) -> Lead
    requires first { IsCellValue values.first }
    requires few { values.count ≤ 2000001 }
    requires next_first { IsCellValue next_values.first }
    requires next_few { next_values.count ≤ 2000001 }
    ensures ahead { result.ahead ≤ values.count }
    ensures behind { result.behind ≤ next_values.count }
    ensures leads { Leads UP twin (λ i. values.first +ℤ pos i) values.count
        (λ k. next_values.first +ℤ pos k) next_values.count result.ahead
        result.behind }
{
    let lead = whole_lead::<UP>(twin, values, next_values);
    cut_lead(lead, values.count, next_values.count)
}

/// A running hull, with the front of the value at a step, if there is one.
#[inline(always)]
fn taken_at<const UP: bool, H: Hull, F: Fronts<H>, C: Column<H>>(
    by: F,
    values: Run,
    from: C,
    before: &[C::Item],
    t: usize,
    run: H,
) -> H
    requires first { IsCellValue values.first }
    requires few { values.count ≤ 2000001 }
    requires whole { C.whole from before.now }
    requires readable { C.readable from before.now }
    requires same { length (C.column from before.now) ≡ values.count }
    requires fit { (i : ℕ) → i < values.count → F.fit by (get_or (C.hulls from before.now) i H.none) }
    requires takes { H.both run H.none ≡ run }
    ensures there { t < values.count → result ≡ H.both run
        (F.front by (get_or (C.hulls from before.now) (step_place UP values.count t) H.none)
        (values.first +ℤ pos (step_place UP values.count t))) }
    ensures beyond { values.count ≤ t → result ≡ run }
    ensures closable { F.closable by run → F.closable by result }
{
    if t < values.count {
        taken_from::<H, F, Run, C>(
            by,
            values,
            from,
            before,
            step_place::<UP>(values.count, t),
            run,
        )
    } else {
        run
    }
}

/// The next value at a step, if there is one, takes in a hull.
#[inline(always)]
fn put_at<const UP: bool, H: Hull, F: Fronts<H>, C: Column<H>>(
    by: F,
    next_values: Run,
    lead: Lead,
    t: usize,
    run: H,
    to: C,
    next: &mut [C::Item],
)
    requires closable { F.closable by run }
    requires whole { C.whole to next.old }
    requires first { IsCellValue next_values.first }
    requires few { next_values.count ≤ 2000001 }
    requires ahead { lead.ahead ≤ 2000001 }
    requires behind { lead.behind ≤ next_values.count }
    requires same { length (C.column to next.old) ≡ next_values.count }
    requires inside { t + lead.behind < next_values.count + lead.ahead }
    ensures len { length (C.column to next.new) ≡ length (C.column to next.old) }
    ensures here { (k : ℕ) → k < next_values.count → k + lead.ahead ≡ t + lead.behind →
        get_or (C.column to next.new) (step_place UP next_values.count k) C.blank
        ≡ C.taking (get_or (C.column to next.old) (step_place UP next_values.count k) C.blank)
        (F.closing by run (next_values.first +ℤ pos (step_place UP next_values.count k))) }
    ensures others { (k : ℕ) → k < next_values.count → k + lead.ahead ≢ t + lead.behind →
        get_or (C.column to next.new) (step_place UP next_values.count k) C.blank
        ≡ get_or (C.column to next.old) (step_place UP next_values.count k) C.blank }
    ensures whole { C.whole to next.new }
    ensures beside { C.beside to next.old next.new }
{
    if lead.ahead <= t + lead.behind {
        let j = step_place::<UP>(next_values.count, t + lead.behind - lead.ahead);
        to.take_in(next, j, by.closed(run, next_values.at(j)));
    }
}

/// Takes in a move by a sweep: each item of the next values takes in the closed hull of the fronts of the values that
/// are passed there.
#[inline(never)]
pub fn sweep_runs<const UP: bool, H: Hull, F: Fronts<H>, C: Column<H>>(
    by: F,
    twin: bool,
    values: Run,
    from: C,
    before: &[C::Item],
    next_values: Run,
    to: C,
    next: &mut [C::Item],
)
    requires first { IsCellValue values.first }
    requires few { values.count ≤ 2000001 }
    requires whole { C.whole from before.now }
    requires readable { C.readable from before.now }
    requires same { length (C.column from before.now) ≡ values.count }
    requires fit { (i : ℕ) → i < values.count → F.fit by (get_or (C.hulls from before.now) i H.none) }
    requires next_first { IsCellValue next_values.first }
    requires next_few { next_values.count ≤ 2000001 }
    requires next_whole { C.whole to next.old }
    requires next_same { length (C.column to next.old) ≡ next_values.count }
    ensures taken { IsTakenIn C.taking H.none C.blank
        (λ j. F.closing by
        (passed_hull H.both H.none UP twin (F.front by) (C.hulls from before.now) (λ i. values.first +ℤ pos i)
        (next_values.first +ℤ pos j))
        (next_values.first +ℤ pos j))
        (C.column to next.old) (C.column to next.new) }
    ensures whole { C.whole to next.new }
    ensures beside { C.beside to next.old next.new }
{
    let lead = lead_of::<UP>(twin, values, next_values);
    let mut run = H::nothing();
    for t in 0..next_values.count + lead.ahead - lead.behind {
        put_at::<UP, H, F, C>(by, next_values, lead, t, run, to, next);
        run = taken_at::<UP, H, F, C>(by, values, from, before, t, run);
    }
}
