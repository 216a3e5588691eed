//! Transducers against patterns: does a transducer find the occurrences of a pattern, in every signature?
//!
//! A plan lists the configurations in which the transducer and the live starts of the pattern's matches can stand
//! together. `validate` walks over those that are reached and looks at the six checks of each step; where all hold,
//! the plan is closed, and that is proof enough: for every signature the ranges that the transducer decodes are the
//! e-ranges of the occurrences, in their order. `Validated` carries that fact to the layers above.
//!
//! The plan's residuals are looked up once, in a table of expressions in which what a letter leaves of a part is worked
//! out once. Each step then compares numbers alone, so that a plan takes as many comparisons of entries as it has
//! configurations times steps.
//!
//! ```text
//! let validated = validate(alloc, seed.transducer, &peak, &seed.plan)?;
//! let rows = validated.transducer().rows();
//! ```
#![tactic(auto)]

mod arrival;
mod closure;
mod facts;
mod failure;
mod knowledge;
pub mod laws;
mod residuals;
mod step;
mod stop;
mod tags;
mod trial;
mod validated;
mod words;

pub use closure::validate;
pub use facts::{Kept, kept_agree};
pub use step::row;
pub use stop::ValidateStop;
pub use tags::{first_tag, none_kept, tag_after};
pub use validated::Validated;
pub use words::Words;
