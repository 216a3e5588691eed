//! The machines of a model's terms, and the terms' values.
//!
//! A term's machine is the seed transducer of its pattern, decorated with the registers of its aggregator and feature
//! (Global Constraint Catalog, Volume II). Where the pattern has a partner, which has the same e-ranges where a series
//! is read from its end (for eleven patterns it is the pattern itself), the partner's automaton stands beside it with a
//! glue table, and the machine can be split at each cell.
//!
//! The layer above may rely on this: a machine is exactly the one that the tables give its term; its answer, and where
//! it can be split the glued value at every cell, is the value of the term on every series of up to 100,000 cells; a
//! `Program` has terms and the machine of each, and `write_program` gives its text. Values come from no machine:
//! `value_of` gives that of one term by the definition of occurrences, and `judge` those of all terms, which cells lie
//! in their domains, and which requirements hold.
//!
//! ```text
//! let peaks = compile_term(alloc, &Term::new(Aggregator::Sum, Feature::Width, PatternId::Peak)?)?;
//! let at = peaks.forward().start();
//! let judgement = judge(alloc, &model, &[1, 3, 3, 2, 2, 1, 4])?;
//! ```
#![tactic(auto)]

mod compile;
mod glue_text;
mod gluing;
mod judging;
pub mod laws;
mod program;
mod text;
mod values;
mod words;

pub use compile::{compile_model, compile_term};
pub use judging::{Judgement, judge};
pub use program::Program;
pub use text::write_program;
pub use values::value_of;
