//! The boxes that wait for their line in a branch tree, the next one first.
//!
//! A [`Frontier`] keeps them as one `Boxed` with its trail, and for each upper side that waits three numbers: where on
//! the trail its box stands, a cell, and what its values are above. To the layers above it is the list of the waiting
//! boxes, and whether the next one is *present*, that is, made and lent by `present`.
//!
//! | call | the waiting boxes | memory |
//! |---|---|---|
//! | `advance` | the same; the next one becomes present | one change of a cell |
//! | [`follow`], a split | the next one gives way to its lower, then its upper side | one change of a cell, one entry |
//! | [`follow`], a removal | the next one loses a value of a cell | one change of a cell |
//! | [`follow`], another line; `clear` | all but the next one; none | none |
//!
//! A split finds an end of one cell's set by halving and copies the set's marks, or makes its ranges anew where it has
//! lost more than 128 numbers by marks; a removal sets a mark; an advance costs what a split does, and by the changes
//! since its box was split. None costs by the number of cells. After `Memory` nothing has changed.
//!
//! However many lines are followed, few boxes wait: by the law `few_wait` at most one more than the values of all cells
//! of the first box, less its cells. [`first_halving`] says where a box is split, as does [`halving_from`], where it is
//! known of the first cells that they have one value; [`form_of`] answers that, or the one series of a box of one.
//!
//! ```text
//! let mut frontier = Frontier::new(alloc, cells);
//! while frontier.advance()? {
//!     let line = line_of(frontier.present())?;
//!     follow(&mut frontier, &line)?;
//! }
//! ```
#![tactic(auto)]

mod frontier;
mod halve;
pub mod laws;
mod lines;

pub use frontier::Frontier;
pub use halve::{Form, Halving, first_halving, form_of, halving_from};
pub use lines::follow;
