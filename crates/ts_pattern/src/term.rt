//! Terms: an aggregator over the features of a pattern's occurrences.

ghost use Rattle.std.specs.Prelude.{◌≡◌, IsTrue, MatchOption, false};
ghost use Rattle.ts_pattern.specs.Names.{is_pair};

use crate::name::{Aggregator, Feature, PatternId};

/// A term of a model: the aggregator over the features of the pattern's occurrences.
/// The feature `one` goes with `sum` alone.
#[derive(Clone, Copy, Debug, PartialEq, Eq)]
pub struct Term {
    pub aggregator: Aggregator,
    pub feature: Feature,
    pub pattern: PatternId,
    pub ghost pair: { IsTrue (is_pair aggregator feature) },
}

impl Term {
    /// The term; None exactly for the feature `one` with another aggregator than `sum`.
    pub fn new(aggregator: Aggregator, feature: Feature, pattern: PatternId) -> Option<Term>
        ensures { MatchOption result (is_pair aggregator feature ≡ false)
            (λ t. (t.aggregator ≡ aggregator) × (t.feature ≡ feature) × (t.pattern ≡ pattern)) }
    {
        match (aggregator, feature) {
            (Aggregator::Max | Aggregator::Min, Feature::One) => None,
            _ => Some(Term {
                aggregator,
                feature,
                pattern,
            }),
        }
    }
}
