//! The spans of a model's terms.
//!
//! A term's span at a cell of a box is that of the machine that the tables give it. The layers above may rely on this:
//! the spans hold the values of their terms on every series of a box, are exact for a single series at the last cell,
//! and come from the machines of the model's program. So what they refute has no series that meets, and what they cut
//! none that is better.
#![tactic(auto)]

pub mod laws;
