//! Transducers become automata: the phase letters of their moves become expressions over registers.
//!
//! `C` is the value of the range that is held, `D` that of the cells which may still come to it, `R` that of the ranges
//! that are complete; where something is taken away from a range, `E` and `F` are to that as `C` and `D` are to the
//! range (Global Constraint Catalog, Volume II: decoration of transducers). The layer above may rely on
//! this: the automaton answers the aggregate of the features of the ranges that the transducer decodes, on every series
//! of up to 100,000 cells, and no sum on the way is ever clamped.
//!
//! ```text
//! let widths = decorate(alloc, &peak, 1, Aggregator::Sum, Feature::Width)?;
//! ```
#![tactic(auto)]

mod builder;
mod decoration;
pub mod laws;
mod table;

pub use decoration::decorate;
