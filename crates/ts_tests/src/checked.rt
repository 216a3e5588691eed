//! What a checker and a verifier report on the way, worked out by hand.

mod certificates;
mod inputs;
