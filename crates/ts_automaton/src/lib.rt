//! Automata with typed registers over a series of cells, and their runs on numbers and on spans.
//!
//! An automaton reads a series two neighbouring cells at a time. Each move gives the registers new values by
//! expressions over the old ones and the two cells, and at the end the finish expression gives the answer. A narrow
//! automaton has the registers C, D and R, a wide one E and F too. The layer above may rely on this: the states and
//! expressions of an `Automaton` are well typed, so no operator ever meets an operand that it doesn't take; a run over
//! spans holds every run over numbers within them.
//!
//! ```text
//! let peak = Automaton::new(states, start, finish, Mark::Same, false)?;
//! let mut at = peak.start();
//! for pair in series.windows(2) {
//!     at = peak.step(at, pair[0], pair[1]);
//! }
//! let answer = peak.finish(at, 7);
//! ```
#![tactic(auto)]

mod automaton;
mod automaton_text;
mod differences;
mod draft;
mod expr;
mod expr_text;
mod kind;
pub mod laws;
mod line_words;
mod lines;
mod move_lines;
mod parts;
mod reader;
mod regs;
mod run;
mod span_run;
mod state;
mod stop;
pub mod text_laws;
mod typing;
mod writer;

pub use automaton::Automaton;
pub use automaton_text::read;
pub use differences::{difference, difference_span};
pub use draft::{Direction, StateLine};
pub use expr::{Atom, Expr, Operator};
pub use kind::RegKind;
pub use regs::{At, Hull, HullAt, Regs};
pub use state::{Mark, State, Turn};
pub use stop::AutoStop;
pub use ts_base::Op;
pub use writer::{write, write_head};
