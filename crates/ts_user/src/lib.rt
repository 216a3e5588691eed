//! Patterns that a user states: an expression, its trims and a transducer, and the plan that shows that they fit.
//!
//! A transducer of a user's own may find other ranges than the occurrences of the pattern beside it. `build_plan` lists
//! the configurations in which the transducer and the live starts of the pattern's matches can stand together, in the
//! order in which they are first reached, and looks at the checks of each step before it lists where the step leads. A
//! plan that it gives is closed, so `validate` takes it; else it says by which signature a check fails, or that there
//! are more than 512 configurations.
//!
//! `read_pattern_text` reads a pattern text, line by line, as models are read; `read_pattern` reads the words of one.
//! An expression of at most 64 bytes is read by a recursive descent from its last byte to its first: a sequence or a
//! union nests to the right by itself, and a repeat sign is met before what it repeats. Of a longer one only the
//! outline is read, which takes no recursion.
//!
//! ```text
//! let user = read_pattern_text(alloc, text)?;
//! let plan = build_plan(alloc, &user.transducer, &user.pattern)?;
//! let validated = validate(alloc, user.transducer, &user.pattern, &plan)?;
//! ```
#![tactic(auto)]

mod book;
mod build_stop;
mod draft;
mod ended;
mod expression;
mod keys;
pub mod laws;
mod level;
mod listing;
mod outline;
mod parse;
mod part;
mod plan;
mod read;
mod shortest;
mod stated;
mod statement;
mod step;
mod symbol;
mod text;
pub mod text_laws;
mod user_pattern;
mod user_stop;
mod words;

pub use build_stop::BuildStop;
pub use plan::build_plan;
pub use read::read_pattern;
pub use text::read_pattern_text;
pub use user_pattern::UserPattern;
pub use user_stop::{UserKind, UserStop};
