//! The sixteen pairs of aggregator and feature, and ten series that use each move of each seed. The values of terms on
//! them, in `first_values` and `last_values`, were found by trying the expressions on all parts of the signatures.

ghost use Rattle.std.specs.Prelude.{◌≤◌, length};
ghost use Rattle.ts_automaton.specs.AutomatonRun.{Stands, standing_of};

use ts_automaton::{At, Automaton};
use ts_base::Ext;
use ts_pattern::{Aggregator, Feature, PatternId, Term};

/// The value on each series, under each pair in the order of `PAIRS`.
pub type Values = [[i64; 16]; 10];

// These stand for -inf and +inf in the tables.
pub const LOW: i64 = i64::MIN;

pub const HIGH: i64 = i64::MAX;

/// The aggregators and features that make a term.
pub const PAIRS: [(Aggregator, Feature); 16] = [
    (Aggregator::Sum, Feature::One),
    (Aggregator::Sum, Feature::Width),
    (Aggregator::Sum, Feature::Surf),
    (Aggregator::Sum, Feature::Max),
    (Aggregator::Sum, Feature::Min),
    (Aggregator::Max, Feature::Width),
    (Aggregator::Max, Feature::Surf),
    (Aggregator::Max, Feature::Max),
    (Aggregator::Max, Feature::Min),
    (Aggregator::Min, Feature::Width),
    (Aggregator::Min, Feature::Surf),
    (Aggregator::Min, Feature::Max),
    (Aggregator::Min, Feature::Min),
    (Aggregator::Sum, Feature::Range),
    (Aggregator::Max, Feature::Range),
    (Aggregator::Min, Feature::Range),
];

static SERIES: [&[i64]; 10] = [
    &[4],
    &[3, 3, 3, 3],
    &[-3, -2, -3, 0, 0, 2, 6, 9, 9, 7, 4, 6, 3, -1, -1, 2],
    &[3, -1, -1, -5, -3, -3, 0, 1, -3, 1, -2, 1, 1, 1],
    &[-2, 0, 0, -2, 1, 3, 2, 5, 8, 6, 5, 5, 4, 4, 4],
    &[2, 3, 3, 6, 7, 5, 7, 7, 3, 2, -2, 2, 2, 5, 2, 2],
    &[1, 2, 2, 0, -1, 2, 0, 0, -1, 2, 6, 8, 4, 5, 6],
    &[4, 1, -3, -2, -3, 0, 3, 4, 2, 4, 5, 3, 3, 6, 2, 2],
    &[-2, -4, -5, -1, -3, -4, 0, 4, 2, 2, -1, -5, -5, -6],
    &[0, -3, -3, 1, 1, 5, 3, 2, 4, 0, -4, 0, -2, -4],
];

pub fn all_series() -> &'static [&'static [i64]; 10] {
    &SERIES
}

/// Where the automaton stands after the first `k` cells.
pub fn forward_at(automaton: &Automaton, series: &[i64], k: usize) -> At
    requires { k ≤ length series.now }
    ensures { Stands automaton.now (standing_of result) }
{
    let mut at = automaton.start();
    for place in 1..k {
        at = automaton.step(at, series[place - 1], series[place]);
    }
    at
}

/// The answer of the automaton on a series.
pub fn answer(automaton: &Automaton, series: &[i64]) -> Ext
    requires { length series.now ≤ 100000 }
{
    automaton.finish(
        forward_at(automaton, series, series.len()),
        series.len() as u32,
    )
}

/// The value that a table writes so.
pub fn value(written: i64) -> Ext {
    match written {
        LOW => Ext::NegInf,
        HIGH => Ext::PosInf,
        _ => Ext::Int(written),
    }
}

/// The term of a pattern under a pair.
pub fn term_of(pattern: PatternId, pair: usize) -> Option<Term> {
    let (aggregator, feature) = *PAIRS.get(pair)?;
    Term::new(aggregator, feature, pattern)
}
