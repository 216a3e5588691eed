//! Finite sets of numbers, and boxes of them that remember how they came about.
//!
//! A [`Domain`] is a non-empty set of numbers from -1,000,000 to 1,000,000. To the layer above it is the rising list
//! of its numbers. A [`Boxed`] has one domain per cell and a trail of earlier domains: to the layer above it is the
//! list of its boxes, the present one last.
//! Each change leaves exactly the named values of one cell and adds a box, and `undo` goes back to any earlier box
//! without memory. After `Memory` the value is as it was.
//!
//! A domain is made of sorted ranges, which never change, of one piece of them, and of marks: it has what of the
//! ranges lies in the piece, and at a marked number it is the other way round. Copies and smaller sets share the
//! ranges by a count, so a box of many cells with one domain has its ranges once. `keep_low` and `keep_high` make a
//! piece, whose ends are found by halving, and copy the marks that stay; the trail keeps the domain before. `remove`
//! marks a number in place, and its undo takes the mark away, so each costs by the depth of the marks' tree, and the
//! trail keeps the number and a node for it. A set that has lost more than 128 numbers by marks gets ranges of its
//! own where a smaller set is copied from it. Beside each range stands how many numbers lie before it, so the place
//! of a number is found by halving. A way over the numbers goes from range to range, and searches for its first number
//! alone; where numbers are marked, for the first of each run.
//!
//! ```text
//! let digits = Domain::from_ranges(alloc, &[0, 7], &[4, 9])?;
//! let mut cells = Boxed::new(alloc, &[digits])?;
//! let mark = cells.mark();
//! cells.keep_low(1, 5)?; // 0..4
//! cells.undo(mark); // 0..4 and 7..9
//! ```
#![tactic(auto)]

mod boxed;
mod counted;
mod cut;
mod domain;
mod interval;
mod keep;
pub mod laws;
mod lookup;
mod marks;
mod merge;
mod pieces;
mod stop;
mod values;
mod way;

pub use boxed::Boxed;
pub use domain::Domain;
pub use interval::Interval;
pub use stop::DomainStop;
pub use values::Values;
