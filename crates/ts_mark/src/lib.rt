//! The occurrences of a pattern in a series, as ranges of cells and in words.
//!
//! The ranges are decoded from the signature by a transducer that is known to find the occurrences of its pattern, so
//! that a series costs one step a cell, whatever the pattern is.
//!
//! ```text
//! let ranges = marks(alloc, &validated, pattern.a, &series)?;
//! let text = marks_text(alloc, series.len(), &ranges)?;
//! ```
#![tactic(auto)]

pub mod laws;
mod ranges;
mod text;

pub use ranges::marks;
pub use text::marks_text;
