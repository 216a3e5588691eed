//! What excludes boxes of a model from the search, and when a certificate of that is accepted.
//!
//! The layer above may rely on this: `refutes` and `cuts` answer exactly whether a comparison with a bound holds of no
//! number of a span, or none counts for a bar. The calls on a machine and a box answer this of the span at a cell,
//! and name the first cell, the first drop and the value to keep; each makes the rows of a machine once, however many
//! cells there are, and looks at no further pair of states once a number of a span does as asked. `AllTables` answers
//! the same questions for the machines of all terms, of a box that was brought before, and keeps the rows of hulls for
//! the next box, as far as the change between the two doesn't reach them: how they are made, kept and found again is
//! the business of ts_bound. `bring` finds out by itself what has changed. Nothing is asked at cells of which its user
//! knows that they have no drop (`KeptCells`), nor of values of which the user says so when asked (`Spares`).
//! The definitions state the rule of each line of a certificate, when a certificate is accepted, its first failing line
//! and what its claim means; by the laws an accepted certificate means what it claims, whoever wrote it, wherever spans
//! hold the values of their terms.
//!
//! ```text
//! let span = Span { lo: Ext::Int(2), hi: Ext::Int(5) };
//! refutes(Op::AtMost, Ext::Int(1), span)                     // true: no number from 2 to 5 is at most 1
//! cuts(Goal::Maximise, Bar::Better(Ext::Int(5)), span)       // true: none is greater than 5
//! cuts(Goal::Maximise, Bar::AsGood(Ext::Int(5)), span)       // false: 5 is as good
//! next_drop(alloc, &machines, &requirements, &cells)?        // a value that no series with it meets, if one is known
//!
//! let mut tables = AllTables::new(alloc, &machines, &requirements, objective, &domains)?;
//! tables.bring(alloc, &cells)?;                              // no row is made before it is asked for
//! tables.refuted(alloc, &requirement, n, &cells)?;           // asks for forward rows alone, since cell n is the last
//! cells.remove(k, v)?;
//! tables.bring(alloc, &cells)?;                              // forgets what the change reached
//! tables.first_cut(alloc, term, goal, &cells, bar)?          // rebuilds what it needs of that
//! ```
#![tactic(auto)]

mod all_tables;
mod asking;
mod at_cell;
mod bar;
mod box_tables;
mod cell_hulls;
mod courses;
mod drops;
mod enough;
mod enough_form;
mod excluded;
mod first_cell;
mod held_machine;
mod kept;
mod kept_cells;
pub mod laws;
mod many_values;
mod meeting;
mod placed_values;
mod question;
mod so_far;
mod spares;
mod term_requirements;

pub use all_tables::AllTables;
pub use at_cell::{cut_at_end, refuted, refuted_value, worse};
pub use bar::Bar;
pub use drops::{Removal, next_drop};
pub use excluded::{counts, cuts, refutes};
pub use first_cell::{first_cut, first_refuted};
pub use kept::kept_value;
pub use kept_cells::KeptCells;
pub use spares::{Answer, NothingSpared, Spares};
pub use ts_base::Goal;
