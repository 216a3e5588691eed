//! The occurrences of a pattern in a series, and the value of a term on it: the definitions as code. The layers above
//! compute values in other ways, and are proved to agree with them.
//!
//! A series is worked on by four calls: `signature` makes its letters, `occurrences` finds the e-ranges of
//! the maximal matches, `part` lends the cells of a range, and `value` aggregates their features. The promise to the
//! layers above: on every series within the limits `value` answers the term's value by the definition over all places,
//! whatever the pattern; only lack of memory is answered otherwise. `value_with` takes the signature from its caller,
//! so that all terms of a model share one; `aggregate` takes the ranges, for who has them from elsewhere.
//!
//! The search reads one letter at a time and keeps, for each start at which a match may begin or grow, what is left to
//! read of the expression, in normal form. What is left is kept by its number among the few residuals that are met, so
//! that a letter costs a look at a table for each live start, and no two places are compared.
//!
//! ```text
//! let width = Term::new(Aggregator::Sum, Feature::Width, PatternId::Peak); // Some(term)
//! value(alloc, &term, &[1, 3, 3, 2, 2, 1, 4])?; // Ext::Int(4), the width of the peak in cells 2 to 5
//! ```
#![tactic(auto)]

mod live;
mod occurrence;
mod residuals;
mod series;
mod term_value;

pub use occurrence::occurrences;
pub use series::{looked_at, part, signature};
pub use term_value::{aggregate, value, value_with};
