//! Patterns: an expression and the cells that an occurrence leaves out at its ends.
//!
//! The patterns, features and aggregators are those of the Global Constraint Catalog, Volume II. A term of a model
//! is an aggregator over a feature of a pattern's occurrences, each known by its name. This crate has the table of the
//! 22 patterns and a row for each feature and aggregator of how it counts, says what an occurrence is and what a term
//! is worth on a series, and holds the plans by which a transducer is shown to find the occurrences. It promises to the
//! layers above that a name is read as exactly the pattern, feature or aggregator of that name, that a `Term` never
//! joins `one` with another aggregator than `sum`, that no word of a pattern is shorter than its two trims together,
//! that a feature is what its row joins (`laws::features_are_folds`), and that the list of occurrences is the list of
//! the maximal matches over words (`laws::all_occurrences`).
//!
//! ```text
//! let peak = pattern_by_id(alloc, PatternId::Peak)?; // <(=|<)*(>|=)*>, one cell trimmed at each end
//! let term = Term::new(Aggregator::Sum, Feature::Width, PatternId::Peak); // Some(..)
//! ```
#![tactic(auto)]

mod arithmetic;
pub mod laws;
mod name;
mod pattern;
mod plan;
mod table;
mod term;

pub use arithmetic::{CellFold, RangeFold, Worth};
pub use name::{
    Aggregator, Feature, PatternId, aggregator_name, aggregator_of, feature_name, feature_of,
    pattern_name, pattern_of,
};
pub use pattern::Pattern;
pub use plan::{Configuration, Live, Plan, Tag};
pub use table::{pattern_by_id, trim_after};
pub use term::Term;
