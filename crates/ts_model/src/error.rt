//! The kinds of bad lines, and why a reader stops.

ghost use Rattle.std.specs.Prelude.{◌≡◌};
ghost use Rattle.ts_model.specs.declared.error.LineStop.TheVariants.{NoMemory};
ghost use Rattle.ts_model.specs.declared.error.ModelStop.TheVariants.{Memory as ModelMemory};
ghost use Rattle.ts_model.specs.declared.error.SeriesStop.TheVariants.{Memory as SeriesMemory};
ghost use Rattle.ts_model.specs.Views.{at_line};

use std::alloc::{AllocError, AllocFailed};
use thiserror::Error;
use ts_base::Memory;

/// What may be wrong with a line of a model text; of one line, the first kind that holds is reported.
#[derive(Clone, Copy, Debug, PartialEq, Eq)]
pub enum ModelKind {
    /// A byte is neither printable ASCII nor a tab.
    NotText,
    /// The first word begins no form.
    UnknownLine,
    /// The words don't fit the form of the first one.
    Shape,
    /// A word in the place of a number, a range or a bound isn't one.
    Number,
    /// No `cells` line stands so far, or in the whole text.
    NoCells,
    /// A `cells` line stands already.
    CellsTwice,
    /// The number of cells isn't from 1 to 512, or the cell doesn't exist.
    CellRange,
    /// A range ends before it begins.
    Empty,
    /// No aggregator, feature or pattern has that name.
    UnknownName,
    /// The feature `one` stands with another aggregator than `sum`.
    BadPair,
    /// No term so far has that name.
    UnknownTerm,
    /// A term so far has that name.
    TermTwice,
    /// An `objective` line stands already.
    ObjectiveTwice,
    /// The line passes a limit.
    Limit,
    /// An objective is needed and none stands.
    NoObjective,
}

/// Why a line adds nothing: the first kind that holds of it, or lack of memory.
#[derive(Clone, Copy)]
pub(crate) enum LineStop {
    Bad(ModelKind),
    NoMemory,
}

impl From<Memory> for LineStop {
    ghost from_gives = { λ _ stop. stop ≡ NoMemory };

    fn from(_error: Memory) -> LineStop {
        LineStop::NoMemory
    }
}

impl From<AllocError> for LineStop {
    ghost from_gives = { λ _ stop. stop ≡ NoMemory };

    fn from(_error: AllocError) -> LineStop {
        LineStop::NoMemory
    }
}

impl<T: Drop> From<AllocFailed<T>> for LineStop {
    ghost from_gives = { λ _ stop. stop ≡ NoMemory };

    fn from(_error: AllocFailed<T>) -> LineStop {
        LineStop::NoMemory
    }
}

/// Why a text states no model: its first bad line, counted from 1, and the first kind that holds of it; or want
/// of memory.
#[derive(Clone, Copy, Debug, PartialEq, Eq, Error)]
pub enum ModelStop {
    #[error("line {line}: {kind:?}")]
    Refused { line: u32, kind: ModelKind },
    #[error("out of memory")]
    Memory,
}

impl From<Memory> for ModelStop {
    ghost from_gives = { λ _ stop. stop ≡ ModelMemory };

    fn from(_error: Memory) -> ModelStop {
        ModelStop::Memory
    }
}

/// The stop of a line by its number.
pub(crate) fn at_line(line: u32, stop: LineStop) -> ModelStop
    ensures { result ≡ at_line line stop }
{
    match stop {
        LineStop::Bad(kind) => ModelStop::Refused { line, kind },
        LineStop::NoMemory => ModelStop::Memory,
    }
}

/// Why a text states no series: it isn't one `series` line, a word isn't a number within the limits, or there are
/// too many or too few; or lack of memory.
#[derive(Clone, Copy, Debug, PartialEq, Eq, Error)]
pub enum SeriesStop {
    #[error("not one series line")]
    Shape,
    #[error("not a number from -1,000,000 to 1,000,000")]
    Number,
    #[error("not as many numbers as cells")]
    Length,
    #[error("out of memory")]
    Memory,
}

impl<T: Drop> From<AllocFailed<T>> for SeriesStop {
    ghost from_gives = { λ _ stop. stop ≡ SeriesMemory };

    fn from(_error: AllocFailed<T>) -> SeriesStop {
        SeriesStop::Memory
    }
}
