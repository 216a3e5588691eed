//! The seed transducers of the 22 patterns (Global Constraint Catalog, Volume II).
//!
//! Each seed is a table of the catalogue: a row a state, with its kind and a move on `<`, `=` and `>`. Beside it
//! stands a plan, a table by which a reader who trusts no table can validate the transducer against the pattern's
//! expression. The layer above may rely on this: `seed_by_id` gives exactly the tables, each plan is one of its
//! pattern, and each seed with its plan is closed. A caller who needs no plan asks `transducer_by_id`, `partner_by_id`
//! and `joins_by_id`. One file holds the tables of one family of patterns; their states have the letters of the
//! catalogue.
//!
//! ```text
//! let seed = seed_by_id(alloc, PatternId::Peak)?;
//! let start = seed.transducer.rows()[0];
//! ```
#![tactic(auto)]

mod dips;
pub mod laws;
mod peaks;
mod plateaus;
mod seed;
mod sequences;
mod summits;
mod table;
mod terraces;
mod zigzags;

pub use seed::{Seed, joins_by_id, partner_by_id, seed_by_id, transducer_by_id};
