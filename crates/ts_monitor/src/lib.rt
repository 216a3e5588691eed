//! The values of a model's terms over readings that come one by one.
//!
//! A monitor keeps, for each term, the state and the registers of the automaton that stands for it, and of the readings
//! the last one alone: a hundred thousand of them take the memory of one. The layer above may rely on this: a new
//! monitor stands for no readings, one that stands for some stands for these and one more after `take`, and what
//! `value` answers is the value of the term on all readings so far, by the definition of its pattern.
//!
//! ```text
//! let mut monitor = Monitor::new(alloc, compile_model(alloc, &model)?)?;
//! monitor.take(3);
//! let peaks = monitor.value(0);
//! ```
#![tactic(auto)]

mod monitor;

pub use monitor::Monitor;
