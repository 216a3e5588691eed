//! The ground that every crate stands on: numbers with infinities and spans of them, the letters of a signature, ranges
//! of cells, limits, and the outside.
//!
//! A crate above reads and writes through `Source` and `Sink`, and learns by their clauses which bytes were given and
//! taken, and that a fault comes only where one was counted:
//!
//! ```text
//! let values = Span::one(Ext::Int(4)).hull(Span::one(Ext::Int(7)));
//! let sums = values.plus(Span::one(Ext::Int(-1)));
//! push_ext(&mut text, sums.hi)?; // 6
//! write_all(sink, &text)?;
//! ```
#![tactic(auto)]

mod constant;
mod error;
mod ext;
mod goal;
mod in_memory;
mod intake;
mod laws;
mod letter;
pub mod limits;
mod never;
mod op;
mod outside;
mod range;
mod read_write;
mod span;
mod standard;
mod text;
mod words;

pub use constant::Constant;
pub use error::{Failed, Memory};
pub use ext::Ext;
pub use goal::Goal;
pub use in_memory::{MemorySink, MemorySource};
pub use intake::Intake;
pub use laws::{
    count_rises, derived_orders_are_meant, hull_is_least, limits_agree, none_holds_nothing,
    numbers_are_in_order, spans_hold_results,
};
pub use letter::{Letter, flip, letter_of};
pub use never::{NeverSink, NeverSource};
pub use op::Op;
pub use outside::{Sink, Source};
pub use range::{Join, Kind, Range};
pub use read_write::{PIECE, ReadStop, read_all, read_front, take_all, write_all, zeros};
pub use span::Span;
pub use standard::{StdIn, StdOut};
pub use text::{push_ext, push_number};
pub use words::{Words, first_line, without_lf, words_of};
