//! Sweeps: what a move makes of the hulls of a state, in one run over the values of two cells.
//!
//! A move on `<` gives to each next value what it makes of the hulls of all lesser values. Both cells' values rise, so
//! what is taken in for one next value is there for the following ones too: a running hull is kept, and each value is
//! taken in once.
//!
//! ```text
//!   values         2     5     6        9             each is taken in, its front, before the first next value above
//!                   \     \     \        \            it; with a twin, a move on `=` that is the same, before the
//!   running hull  ---o--.--o-----o--.--.--o---        first one that isn't below it
//!                        \           \  \
//!   next values           4           7  8            each joins the running hull, closed by it
//! ```
//!
//! What is swept is a matter of types, so the compiler makes a loop over the values that decides nothing:
//! - `Values`: the values of a cell, a `Run` without gaps or `Listed` ones; two runs are swept by a counted loop;
//! - `Fronts`: what a move makes of a hull, and what the next value makes of the running one; `Moves` says of which
//! move;
//! - `Parts` of a `Front` for each register, with words (`One`, `This`, `Zero` ..) and operators as types; `Tree` and
//! `AnyPart` are what is known only when the program runs;
//! - `Hull`: what is joined; `PackedHull` is two numbers a register, six lanes for a narrow hull and ten for a wide
//! one, or one number a register, where one end alone is wanted;
//! - `Column`: where the hulls of a state are, `Dense` in a column of their own or `Strided` in a row of plain hulls.
//!
//! A move `take`n in is exactly the join over all pairs of values that the letter names.
#![tactic(auto)]

pub mod any_part;
pub mod column;
pub mod cover;
pub mod equal;
pub mod front;
pub mod here;
pub mod hull;
pub mod moves;
pub mod operator;
pub mod packed;
pub mod pair_move;
pub mod pairs;
pub mod part;
pub mod reading;
pub mod row;
pub mod runs;
mod small;
pub mod source;
pub mod spread;
mod steps;
pub mod strided;
pub mod sweep;
pub mod swept;
pub mod take;
pub mod tree;
pub mod turned;
pub mod values;
