//! Certificates as texts: what was asked for, what is claimed and found, and why nothing better is left, a line a fact.
//!
//! `write_certificate` writes the one text of a certificate. `LineReader` reads it line by line and stops at the first
//! line that is against the grammar, or at an end line whose counts differ from those of the lines before. What was
//! written is read as the same certificate, and a text is read to its end only where it is the text of a certificate.
//!
//! ```text
//! let mut reader = LineReader::new();
//! reader.line(alloc, b"generate 2\n")? // Parsed::Aim(Aim::List(2))
//! reader.line(alloc, b"best 1\n")      // Err(CertStop::Text { line: 2 }): a listing has no best value
//! ```
#![tactic(auto)]

mod certificate;
mod head;
pub mod laws;
mod line;
mod numbers;
mod reader;
mod state;
mod stop;
mod tree;
mod words;
mod write;

pub use certificate::{Aim, Certificate, Claim, Parsed, TreeLine};
pub use reader::LineReader;
pub use stop::CertStop;
pub use write::write_certificate;
