//! Regular expressions over the letters of a signature (`<`, `=`, `>`), read one letter at a time.
//!
//! A pattern of a time series is an expression. This crate says what its words are, and what is left of them once a
//! letter has been read: the derivative (Brzozowski 1964). Whoever looks for occurrences keeps what is left for each
//! start, and asks of it whether the empty word is there (an occurrence may end), whether a longer one is (it may go
//! on), and whether any is (the start is still alive).
//!
//! To the layers above it promises, for each call, what it says of the language, which is defined by words alone and
//! never by derivatives; and that a normal form is a function of the expression's form, so that the residuals of a
//! pattern can be listed in a table. Contracts see an expression as a plain tree without pointers, `Shape`; the laws
//! meant for callers stand in `proofs/Laws`.
//!
//! A derivative doubles a `Cat` whose first part has the empty word, so whoever reads many letters takes the normal
//! form after each one. Its members stand in order, each before the next (`form_laws::members_rise`), and it is meant
//! to keep small what is left (its size is not proved):
//!
//! ```text
//! let left = residual(alloc, &pattern, Letter::Less)?;
//! let ends_here = nullable(&left);
//! ```
//!
//! Each call, and the drop of an expression, goes as deep into the stack as the expression is nested.
#![tactic(auto)]

mod derivative;
pub mod form_laws;
mod membership;
mod normal_form;
mod order;
mod regex;

pub use derivative::{derive, has_longer, has_word, nullable};
pub use membership::member;
pub use normal_form::{normal, residual};
pub use regex::{Regex, alt, cat, star};
