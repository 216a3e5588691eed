//! Where two runs meet: the spans of the values of a cell, from the packed rows of hulls on both sides of it.
//!
//! At a value the forward run stands in some states, the reverse one in others. For each pair of states the hulls on
//! both sides are glued to a span, the mark is applied to it, and the hull of all these spans is the span of the value.
//!
//! ```text
//!   forward row             the cell            reverse row
//!   state 0   . . . .                           . . . .   state 0
//!   state 1   h h h h  ---- v v v v  ---------  h h h h   state 1      how each pair is glued: `Joints`,
//!   state 2   . . . .                           h h h h   state 2      found once for a machine
//! ```
//!
//! All is done by the ends of registers, as they lie in lanes. What is made is exactly what ts_glue makes of spans. Of
//! hulls that have one end alone, what is made is what that end shows: the other end of each span is infinite, before
//! the mark.
#![tactic(auto)]

mod alone;
mod along;
mod asked;
mod column;
mod finished;
mod fold;
mod folding;
mod found;
mod gluing;
mod joints;
mod lane;
mod marked;
mod meets;
mod needed;
mod part;
mod seam;
mod settled;
mod side;
mod spot;
mod sums;

pub use alone::{finish_of, glued_pair};
pub use along::asked_along;
pub use asked::{Asked, asked_at};
pub use finished::finish_along;
pub use joints::Joints;
pub use meets::{finish_at, glued_at};
pub use settled::settled_to;
pub use spot::Spot;
