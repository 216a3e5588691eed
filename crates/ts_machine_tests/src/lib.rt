//! The tests of automata, of the values of terms, of texts of automata, of hulls and spans of boxes, of what they
//! exclude, of boxes that wait, and of the values that a witness spares.
//!
//! `ts_pattern_tests` says why tests stand in crates of their own. Each module is named for what it tries, and
//! each expected value comes from outside the program: from a definition worked out by hand, or by enumeration.
#![tactic(auto)]

#[cfg(test)]
mod automata;
#[cfg(test)]
mod automaton_texts;
#[cfg(test)]
mod boxes;
#[cfg(test)]
mod decorated;
#[cfg(test)]
mod filled_rows;
#[cfg(test)]
mod filters;
#[cfg(test)]
mod first_values;
#[cfg(test)]
mod glued;
#[cfg(test)]
mod glued_values;
#[cfg(test)]
mod last_values;
#[cfg(test)]
mod met;
#[cfg(test)]
mod met_one_end;
#[cfg(test)]
mod packed_rows;
#[cfg(test)]
mod ranges;
#[cfg(test)]
mod spared;
#[cfg(test)]
mod terms;
#[cfg(test)]
mod told;
#[cfg(test)]
mod waiting;
