//! The tests of the values of models, of readings that come one by one, of searches, and of what checks their
//! certificates, as far as no command prints what is tried, and each public call once; and of `ts_run`'s public calls
//! other than `run`. What commands print is in the tables of `examples/rows`.
//!
//! `ts_pattern_tests` says why tests stand in crates of their own. Each module is named for what it tries, and
//! each expected value comes from outside the program: from a definition worked out by hand, or by enumeration.
#![tactic(auto)]

#[cfg(test)]
mod checked;
#[cfg(test)]
mod models;
#[cfg(test)]
mod quantities;
