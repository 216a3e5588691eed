//! The checker of certificates: is what a certificate claims shown by its lines?
//!
//! A [`Checker`] is fed the lines of a certificate one by one and keeps none of them. It keeps the boxes that wait for
//! their line, on one trail, so that a box costs what differs from the one before and never a copy of all domains; and
//! rows of hulls, of which a line rebuilds those that its box changes.
//!
//! A [`Verifier`] is fed the whole input of `verify`, a model and, after a line `%%`, its certificate, in pieces that
//! may be cut anywhere. It ends with the refusal of the model or with the checker's verdict, by all bytes together.
//!
//! The layer above may rely on this. The verdict is exactly that of the definitions: refused at the first line against
//! the grammar or the counts, whatever the lines are worth; else accepted exactly where every line keeps its rule, or
//! rejected at the first line that breaks it. And what is accepted is true of the model, whoever wrote the certificate:
//! the claim is said of series, values of terms and the boxes of the `open` lines alone.
//!
//! ```text
//! let mut checker = Checker::new(alloc, model, program)?;
//! checker.feed_line(b"generate 1\n")?;
//! checker.feed_line(b"all 0\n")?;
//! checker.feed_line(b"no 1 3\n")?;
//! checker.feed_line(b"end 1 0\n")?;
//! checker.finish()   // Accepted, where requirement 1 is refuted at cell 3 on the model's box
//! ```
#![tactic(auto)]

mod certificate_line;
mod checker;
mod head;
mod input;
mod judging;
pub mod laws;
mod lines;
mod opened_model;
mod rules;
mod standing;
mod subject;
mod verdict;
mod verifier;
mod verify_end;
mod whole;

pub use checker::Checker;
pub use verdict::Verdict;
pub use verifier::Verifier;
pub use verify_end::VerifyEnd;
pub use whole::verdict_on;
