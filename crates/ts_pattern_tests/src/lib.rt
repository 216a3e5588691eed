//! The tests of what is read and answered of texts, letters, words, patterns, models and certificates.
//!
//! A crate with tests is proved twice, once without them and once with them. So tests of public calls stand in crates
//! where nothing else is proved: here, in `ts_machine_tests` those of automata, of what they say of series and boxes,
//! and of boxes that wait, in `ts_tests` those of values of models, searches, verdicts and `ts_run`. What a whole run
//! of a command writes is no test but a row of `examples/rows`. Each module is named for what it tries, and each
//! expected value comes from outside the program: from a definition worked out by hand, or by enumeration.
#![tactic(auto)]

#[cfg(test)]
mod base;
#[cfg(test)]
mod certificates;
#[cfg(test)]
mod expressions;
#[cfg(test)]
mod marked;
#[cfg(test)]
mod models;
#[cfg(test)]
mod occurrences;
#[cfg(test)]
mod patterns;
#[cfg(test)]
mod planned;
#[cfg(test)]
mod rows;
#[cfg(test)]
mod seed_tables;
#[cfg(test)]
mod seeds;
#[cfg(test)]
mod standard;
#[cfg(test)]
mod tables;
#[cfg(test)]
mod tokens;
#[cfg(test)]
mod transducers;
#[cfg(test)]
mod validated;
