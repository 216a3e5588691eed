//! Hulls of registers: what a row of them is, how the moves of an automaton are split, and what a sweep makes of a row.
//!
//! A move's expression that reads the next cell only as its last operand is split in two: its front, which doesn't read
//! it, and what the next cell makes of the hull of fronts. The layers above may rely on this: the hull of what a move
//! gives to a next value from many values is the hull of the fronts, closed once by that value. This crate has
//! definitions and laws alone; the code that they describe is in the crates above.
#![tactic(auto)]
