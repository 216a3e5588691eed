//! The search for the best series of a model, and for its first series in order.
//!
//! The layer above may rely on this: the certificate of `solve` names the first best series of a model, or that none
//! meets, or what a spent budget leaves; that of `list` has the first series that meet, in order. Both are accepted,
//! keep the rules of lean trees, and are the only ones that do: nothing in a tree is left to choose. The only other
//! answer is lack of memory.
//!
//! One pure function says which line a box gets; the code asks its tests one after the other and stops at the first
//! that holds. A box that waits is a mark on a trail and one change. The tests share the rows of hulls of a box, and
//! those that a change doesn't reach serve the next box. Where splits follow one another, several lines are found at
//! once.
//!
//! ```text
//! let program = compile_model(alloc, &model)?;
//! let best = solve(alloc, &model, &program, Goal::Maximise, 100_000)?;
//! let first = list(alloc, &model, &program, 5, 100_000)?;
//! ```
#![tactic(auto)]

mod best;
mod contest;
mod dive;
mod found;
mod inside;
pub mod laws;
mod leap;
mod line;
mod listing;
mod marked;
mod nearest;
mod pace;
mod problem;
mod seeking;
mod shown;
mod sparing;
mod tree;
mod witnesses;

pub use best::solve;
pub use listing::{asked_by_list, list};
