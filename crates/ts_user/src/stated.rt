//! The states of a pattern text, whose moves come line by line.

ghost use Rattle.std.specs.Prelude.{◌≡◌, ◌≤◌};
ghost use Rattle.ts_user.specs.Stated.{arrow_stated, with_arrow, new_state, is_complete, row_stated};

use ts_base::{Kind, Letter};
use ts_transducer::{Arrow, Phase, Row};

/// How many cells an occurrence leaves out before, at most 2, and after, at most 1.
#[derive(Clone, Copy)]
pub(crate) struct Trims {
    pub before: u8,
    pub after: u8,
    ghost small_before: { before ≤ 2 },
    ghost small_after: { after ≤ 1 },
}

/// A state by its letter, with the moves that stand so far.
#[derive(Clone, Copy)]
pub(crate) struct StatedState {
    pub name: u8,
    pub kind: Kind,
    pub less: Option<Arrow>,
    pub equal: Option<Arrow>,
    pub greater: Option<Arrow>,
}

impl StatedState {
    /// A state without moves.
    pub(crate) fn new(name: u8, kind: Kind) -> StatedState
        ensures { result ≡ new_state name kind }
    {
        StatedState {
            name,
            kind,
            less: None,
            equal: None,
            greater: None,
        }
    }

    /// The state's move on a letter.
    pub(crate) fn arrow(&self, letter: Letter) -> Option<Arrow>
        ensures { result ≡ arrow_stated letter self.now }
    {
        match letter {
            Letter::Less => self.less,
            Letter::Equal => self.equal,
            Letter::Greater => self.greater,
        }
    }

    /// The state with this move on the letter.
    pub(crate) fn with_arrow(self, letter: Letter, arrow: Arrow) -> StatedState
        ensures { result ≡ with_arrow letter arrow self }
    {
        let arrow = Some(arrow);
        match letter {
            Letter::Less => StatedState {
                less: arrow,
                ..self
            },
            Letter::Equal => StatedState {
                equal: arrow,
                ..self
            },
            Letter::Greater => StatedState {
                greater: arrow,
                ..self
            },
        }
    }

    /// Whether the state has its three moves.
    pub(crate) fn is_complete(&self) -> bool
        ensures { result ≡ is_complete self.now }
    {
        self.less.is_some() && self.equal.is_some() && self.greater.is_some()
    }

    /// The state's row; a move that doesn't stand leads to the start and does nothing.
    pub(crate) fn row(&self) -> Row
        ensures { result ≡ row_stated self.now }
    {
        let stay = Arrow {
            phase: Phase::Out,
            next: 0,
        };
        Row {
            kind: self.kind,
            less: self.less.unwrap_or(stay),
            equal: self.equal.unwrap_or(stay),
            greater: self.greater.unwrap_or(stay),
        }
    }
}
