//! Witnesses: a series of a box that meets a requirement shows that it excludes nothing of the box.
//!
//! The layer above may rely on this: where `holds` is true of a requirement, it is refuted at no cell of any box with
//! the series; no value of a cell up to the one that `keeps_up_to` answers is dropped by it there. So neither need be
//! asked of tables.
#![tactic(auto)]

mod asked;
pub mod laws;
mod reading;
mod run;
mod spared;
mod witness;

pub use spared::Spared;
pub use witness::Witness;
