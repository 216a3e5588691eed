//! Each public call once: names, terms, a pattern, and a plan.

use std::alloc::Global;
use ts_base::{Letter, Memory};
use ts_pattern::{
    Aggregator, Configuration, Feature, Live, PatternId, Plan, Tag, Term, aggregator_name,
    aggregator_of, feature_name, feature_of, pattern_by_id, pattern_name, pattern_of,
};
use ts_regex::{Regex, member};

/// Names of no pattern, no feature and no aggregator.
const UNKNOWN: [&str; 6] = ["hill", "peaks", "Peak", "dip", "surface", "count"];

fn are_unknown() -> bool {
    for name in UNKNOWN {
        let name = name.as_bytes();
        if pattern_of(name).is_some()
            || feature_of(name).is_some()
            || aggregator_of(name).is_some()
        {
            return false;
        }
    }
    true
}

fn patterns_are_named() -> bool {
    pattern_of(b"dip_on_increasing_sequence") == Some(PatternId::DipOnIncreasingSequence)
        && pattern_name(PatternId::Gorge) == b"gorge".as_slice()
}

fn features_are_named() -> bool {
    feature_of(b"surf") == Some(Feature::Surf)
        && feature_of(b"max") == Some(Feature::Max)
        && feature_of(b"min") == Some(Feature::Min)
        && feature_of(b"range") == Some(Feature::Range)
        && feature_name(Feature::Surf) == b"surf".as_slice()
}

fn aggregators_are_named() -> bool {
    aggregator_of(b"max") == Some(Aggregator::Max)
        && aggregator_of(b"min") == Some(Aggregator::Min)
        && aggregator_name(Aggregator::Sum) == b"sum".as_slice()
}

/// Ones are added alone, ranges are added and compared.
fn makes_terms(aggregator: Aggregator) -> bool {
    let ones = Term::new(aggregator, Feature::One, PatternId::Peak).is_some();
    ones == (aggregator == Aggregator::Sum)
        && Term::new(aggregator, Feature::Range, PatternId::Peak).is_some()
}

#[test]
fn names_and_terms(rt: HostRuntime) {
    assert!(rt; are_unknown());
    assert!(rt; patterns_are_named());
    assert!(rt; features_are_named());
    assert!(rt; aggregators_are_named());
    for aggregator in [Aggregator::Sum, Aggregator::Max, Aggregator::Min] {
        assert!(rt; makes_terms(aggregator));
    }
    for id in PatternId::ALL {
        assert!(rt; pattern_of(pattern_name(id)) == Some(id), "{id:?}");
    }
}

fn dip_is_read(alloc: Global) -> Result<bool, Memory> {
    let dip = pattern_by_id(alloc, PatternId::DipOnIncreasingSequence)?;
    let word = [
        Letter::Less,
        Letter::Less,
        Letter::Greater,
        Letter::Less,
        Letter::Less,
    ];
    let whole = member(alloc, &dip.regex, &word)? && !member(alloc, &dip.regex, &word[1..])?;
    let copy = dip.try_clone(alloc)?;
    Ok(whole && copy.b == 2 && copy.a == 1 && copy.regex.same(&dip.regex))
}

#[test]
fn pattern_of_a_dip(rt: HostRuntime) {
    assert!(rt; dip_is_read(rt.alloc()) == Ok(true));
}

/// A plan of one residual and two configurations, the second with one entry.
fn plan(alloc: Global, letter: Letter, state: u8, residual: u32) -> Result<Plan, Memory> {
    let mut residuals = Vec::new(alloc);
    residuals.push(Regex::One(letter))?;
    let mut live = Vec::new(alloc);
    let tag = Tag::Due;
    live.push(Live { residual, tag })?;
    let mut configurations = Vec::new(alloc);
    let none = Vec::new(alloc);
    configurations.push(Configuration { state, live: none })?;
    configurations.push(Configuration { state: 1, live })?;
    Ok(Plan {
        residuals,
        configurations,
    })
}

/// Whether such a plan is one of the pattern `<`.
fn is_plan(alloc: Global, letter: Letter, state: u8, residual: u32) -> Result<bool, Memory> {
    let increasing = pattern_by_id(alloc, PatternId::Increasing)?;
    plan(alloc, letter, state, residual)?.is_of(alloc, &increasing)
}

#[test]
fn plans_of_a_pattern(rt: HostRuntime) {
    for (letter, state, residual, wanted) in [
        (Letter::Less, 0, 0, true),
        (Letter::Equal, 0, 0, false),
        (Letter::Less, 1, 0, false),
        (Letter::Less, 0, 1, false),
    ] {
        assert!(rt; is_plan(rt.alloc(), letter, state, residual) == Ok(wanted));
    }
}
