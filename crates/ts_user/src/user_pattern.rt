//! A pattern with its transducer.

use ts_pattern::Pattern;
use ts_transducer::Transducer;

/// What a pattern text states: a pattern, and a transducer that is to find its occurrences. That it does is not yet
/// known: a closed plan shows it.
#[derive(Drop)]
pub struct UserPattern {
    pub pattern: Pattern,
    pub transducer: Transducer,
}
