//! What a line says.

use crate::part::Part;
use crate::stated::Trims;
use ts_base::{Kind, Letter};
use ts_pattern::PatternId;
use ts_transducer::Phase;

/// A move: from a state, on a sign, by a phase letter, to a state; the states by their letters.
#[derive(Clone, Copy)]
pub(crate) struct MoveParts {
    pub from: u8,
    pub sign: Option<Letter>,
    pub phase: Option<Phase>,
    pub to: u8,
}

/// What a line says; None in the place of a name that isn't in its table.
#[derive(Drop)]
pub(crate) enum Statement {
    Catalogue(Option<PatternId>),
    Pattern(Part),
    Trim(Trims),
    State { name: u8, kind: Option<Kind> },
    Move(MoveParts),
}
