//! Transducers over signatures, and the decoder of their phase letters.
//!
//! A transducer reads the letters of a signature from left to right; each move has a phase letter, which says
//! what the sign just read does to the occurrence at hand (Global Constraint Catalog, Volume II). `Decoder`
//! turns phase letters into the ranges of the occurrences, and `decoded` gives those of a whole signature. The
//! layers above may rely on this: the moves of a `Transducer` are well typed, so that the kind of a state says what
//! the decoder keeps there (`laws::kinds_are_kept`), and every range that is decoded has a cell and lies in the
//! series (`laws::decoded_ranges`).
//!
//! ```text
//! let peak = Transducer::new(rows)?;
//! let ranges = decoded(alloc, &peak, 1, &signs)?;
//! ```
#![tactic(auto)]

mod decode;
mod decoder;
pub mod laws;
mod row;
mod transducer;

pub use decode::decoded;
pub use decoder::Decoder;
pub use row::{Arrow, Phase, Row};
pub use transducer::Transducer;
