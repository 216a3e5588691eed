//! The machine of each of the 22 patterns answers the value of each series of `terms`, under all sixteen pairs of
//! aggregator and feature; and that of a pattern that has a partner gives it wherever the series is split, and its
//! reverse automaton answers it on the series read from the end.

ghost use Rattle.std.specs.Prelude.{◌≤◌, ◌<◌, length};
ghost use Rattle.ts_automaton.specs.AutomatonRun.{Stands, standing_of};

use super::terms::{Values, all_series, answer, forward_at, term_of, value};
use super::{first_values, last_values};
use std::alloc::Global;
use ts_automaton::{At, Automaton, Regs};
use ts_base::{Ext, Memory};
use ts_compile::compile_term;
use ts_glue::{Machine, glue_value};
use ts_pattern::{Aggregator, Feature, PatternId, Term};

/// Where the automaton stands after the cells from the last one down to cell `k`, counted from 1.
fn reverse_at(automaton: &Automaton, series: &[i64], k: usize) -> At
    requires some { 1 ≤ k }
    requires within { k ≤ length series.now }
    ensures { Stands automaton.now (standing_of result) }
{
    let mut at = automaton.start();
    for read in 1..series.len() + 1 - k {
        let this = series.len() - read;
        at = automaton.step(at, series[this], series[this - 1]);
    }
    at
}

/// The glued value at cell `k`. None where the machine can't be split, or the cell's value isn't within the limits.
#[tactic(auto, using(crate::proofs::Splits::split_is))]
fn glued_at(machine: &Machine, series: &[i64], k: usize) -> Option<Ext>
    requires some { 1 ≤ k }
    requires within { k ≤ length series.now }
    requires few { length series.now ≤ 100000 }
{
    let cell = series[k - 1];
    if cell < -1_000_000 || 1_000_000 < cell {
        return None;
    }
    let reverse = machine.reverse()?;
    let left = forward_at(machine.forward(), series, k);
    let right = reverse_at(reverse, series, k);
    Some(glue_value(machine, left, right, cell, series.len() as u32))
}

/// Whether a pattern, itself or another one, has the same e-ranges where the series is read from its end.
pub fn has_partner(pattern: PatternId) -> bool {
    !matches!(
        pattern,
        PatternId::Inflexion
            | PatternId::DipOnIncreasingSequence
            | PatternId::BumpOnDecreasingSequence
    )
}

/// What the reverse automaton answers on the series, read from its end. None where the machine can't be split.
fn reverse_answer(machine: &Machine, series: &[i64]) -> Option<Ext>
    requires some { 1 ≤ length series.now }
    requires few { length series.now ≤ 100000 }
{
    let reverse = machine.reverse()?;
    let at = reverse_at(reverse, series, 1);
    Some(reverse.finish(at, series.len() as u32))
}

/// Whether the value is glued at each cell, and is the reverse automaton's answer.
pub fn is_glued(machine: &Machine, series: &[i64], wanted: Ext) -> bool
    requires { length series.now ≤ 100000 }
{
    for cell in 1..series.len() + 1 {
        if glued_at(machine, series, cell) != Some(wanted) {
            return false;
        }
    }
    series.is_empty() || reverse_answer(machine, series) == Some(wanted)
}

/// Whether the machine answers the value, and where it can be split it is glued at each cell.
fn has_value(machine: &Machine, splits: bool, series: &[i64], wanted: Ext) -> bool
    requires { length series.now ≤ 100000 }
{
    answer(machine.forward(), series) == wanted && (!splits || is_glued(machine, series, wanted))
}

/// Whether the machine has the values of a pair on all series.
fn has_values(machine: &Machine, splits: bool, values: &Values, pair: usize) -> bool
    requires { pair < 16 }
{
    let all = all_series();
    for k in 0..10 {
        let series = all[k];
        if 100_000 < series.len() || !has_value(machine, splits, series, value(values[k][pair])) {
            return false;
        }
    }
    true
}

/// Whether the machine can be split where the pattern has a partner, and has the values.
fn splits_as_told(machine: &Machine, pattern: PatternId, values: &Values, pair: usize) -> bool
    requires { pair < 16 }
{
    let splits = has_partner(pattern);
    machine.reverse().is_some() == splits && has_values(machine, splits, values, pair)
}

fn term_holds(
    alloc: Global,
    pattern: PatternId,
    values: &Values,
    pair: usize,
) -> Result<bool, Memory>
    requires { pair < 16 }
{
    match term_of(pattern, pair) {
        Some(term) => Ok(splits_as_told(&compile_term(alloc, &term)?, pattern, values, pair)),
        None => Ok(false),
    }
}

/// The first pair under which a pattern has another value.
fn first_wrong(
    alloc: Global,
    pattern: PatternId,
    values: &Values,
) -> Result<Option<usize>, Memory> {
    for pair in 0..16 {
        if !term_holds(alloc, pattern, values, pair)? {
            return Ok(Some(pair));
        }
    }
    Ok(None)
}

#[test]
fn machines_have_the_values_of_terms(rt: HostRuntime) {
    for patterns in [first_values::values(), last_values::values()] {
        for (pattern, values) in patterns {
            assert!(rt;
                first_wrong(rt.alloc(), *pattern, values) == Ok(None),
                "{pattern:?}"
            );
        }
    }
}

/// One peak, from the second cell to the fifth.
static PEAK: [i64; 7] = [1, 3, 3, 2, 2, 1, 4];

// The table behind a function, so that the proof doesn't read it.
fn peak() -> &'static [i64] {
    &PEAK
}

/// A state, by its place, with registers that are numbers.
fn standing(state: u8, c: i64, d: i64, r: i64) -> At {
    At {
        state,
        regs: Regs {
            c: Ext::Int(c),
            e: Ext::Int(0),
            d: Ext::Int(d),
            f: Ext::Int(0),
            r: Ext::Int(r),
        },
    }
}

// The peak has two cells before the fourth, in C on the left, and one after it, which is still open on the right.
fn stands_in_the_peak(machine: &Machine) -> bool {
    let series = peak();
    if series.len() != 7 {
        return false;
    }
    match machine.reverse() {
        Some(reverse) => {
            is_glued(machine, series, Ext::Int(4))
                && forward_at(machine.forward(), series, 4) == standing(2, 2, 0, 0)
                && reverse_at(reverse, series, 4) == standing(1, 0, 1, 0)
        }
        None => false,
    }
}

fn has_peak(alloc: Global) -> Result<bool, Memory> {
    match Term::new(Aggregator::Sum, Feature::Width, PatternId::Peak) {
        Some(term) => Ok(stands_in_the_peak(&compile_term(alloc, &term)?)),
        None => Ok(false),
    }
}

#[test]
fn a_peak_is_glued_at_each_cell(rt: HostRuntime) {
    assert!(rt; has_peak(rt.alloc()) == Ok(true));
}
