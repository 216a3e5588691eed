//! The rows of a transducer's table: one per state, with a move for each letter.

ghost use Rattle.std.specs.Prelude.{◌≡◌};
ghost use Rattle.ts_transducer.specs.Decode.{arrow_on, resting_row};

use ts_base::{Kind, Letter};

/// What a sign does to the occurrence at hand.
#[derive(Clone, Copy, Debug, PartialEq, Eq)]
pub enum Phase {
    /// Outside of every occurrence.
    Out,
    /// A start that was kept is given up.
    OutR,
    /// The held range is complete.
    OutA,
    /// The sign may stand before the end of a first match.
    MaybeB,
    /// The sign may lie inside a longer match than the one held.
    MaybeA,
    /// A first match, which may still grow.
    Found,
    /// A match that cannot grow.
    FoundE,
    /// The match grows to this sign.
    Inside,
}

/// A move: its phase letter and the state that it leads to.
#[derive(Clone, Copy, Debug, PartialEq, Eq)]
pub struct Arrow {
    pub phase: Phase,
    pub next: u8,
}

/// A state: what it keeps, and its move on each letter.
#[derive(Clone, Copy, Debug, PartialEq, Eq)]
pub struct Row {
    pub kind: Kind,
    pub less: Arrow,
    pub equal: Arrow,
    pub greater: Arrow,
}

impl Row {
    /// The move on a letter.
    pub fn arrow(&self, letter: Letter) -> Arrow
        ensures { result ≡ arrow_on letter self.now }
    {
        match letter {
            Letter::Less => self.less,
            Letter::Equal => self.equal,
            Letter::Greater => self.greater,
        }
    }
}

impl Default for Row {
    ghost is_default = { λ r. r ≡ resting_row };

    /// A row that stays at the start and does nothing: what fills the unused places of a table.
    fn default() -> Row {
        let stay = Arrow {
            phase: Phase::Out,
            next: 0,
        };
        Row {
            kind: Kind::Idle,
            less: stay,
            equal: stay,
            greater: stay,
        }
    }
}
