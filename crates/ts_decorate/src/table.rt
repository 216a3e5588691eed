//! The mark of an answer.

ghost use Rattle.std.specs.Prelude.{◌≡◌};
ghost use Rattle.ts_decorate.specs.Decoration.{mark_of};

use ts_automaton::Mark;
use ts_pattern::{Aggregator, Feature};

/// The mark of the answer: without an occurrence the greatest width is 0, and the least the number of the cells.
pub(crate) fn mark(aggregator: Aggregator, feature: Feature) -> Mark
    ensures { result ≡ mark_of aggregator feature }
{
    match (aggregator, feature) {
        (Aggregator::Max, Feature::Width) => Mark::Zero,
        (Aggregator::Min, Feature::Width) => Mark::Cells,
        _ => Mark::Same,
    }
}
