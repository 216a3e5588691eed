//! What may be wrong with a pattern text.

ghost use Rattle.std.specs.Prelude.{◌≡◌};
ghost use Rattle.ts_user.specs.declared.user_stop.LineStop.TheVariants.{NoMemory as NoMemoryLeft};
ghost use Rattle.ts_user.specs.Views.{at_line};

use std::alloc::AllocFailed;
use thiserror::Error;
use ts_base::Memory;

/// What may be wrong with a pattern text. Of its first bad line the first kind that holds is reported; "before" means
/// by the lines before it. `Missing`, `ShortWord` and `Typing` are looked at in a text without a bad line, and reported
/// at the number of its lines plus 1. A line without words, or whose first word begins with `#`, is skipped.
#[derive(Clone, Copy, Debug, PartialEq, Eq)]
pub enum UserKind {
    /// A byte of the line is neither printable ASCII nor a tab.
    NotText,
    /// The line's first word is none of `catalogue`, `pattern`, `trim`, `state` and `move`.
    UnknownLine,
    /// There are more or fewer words than the line's form has, or a state's name isn't one letter from `a` to `z`.
    Shape,
    /// The word of the pattern isn't in the grammar of expressions.
    Expression,
    /// The trim before isn't a number from 0 to 2, or the trim after isn't 0 or 1.
    Number,
    /// What the line states is stated before: the pattern, the trims, a state of that name, or a move of that state on
    /// that sign. Or it is a `catalogue` line, and not the only line that isn't skipped.
    Twice,
    /// There is no such pattern in the catalogue, no such kind, sign or phase, or no state of that name before.
    UnknownName,
    /// There are eight states before a `state` line; or the expression has more than 64 bytes, or more than 256 nodes,
    /// where `r+` is `r` followed by `r*`.
    Limit,
    /// There is no `catalogue` line, and either no `pattern`, no `trim` or no `state` line, or a state without a move
    /// on each sign.
    Missing,
    /// A word of the pattern is empty, or has fewer letters than both trims together.
    ShortWord,
    /// The first state isn't idle, or the phase of a move isn't one between the kinds of its two states: from an idle
    /// one `out`, from a pending one `out_r`, from a held one `out_a`, to an idle or pending one; from an idle or
    /// pending one `maybe_b` to a pending one, `found` to a held one, `found_e` to an idle or pending one; from a held
    /// one `maybe_a` and `in` to a held one.
    Typing,
}

/// Why a text states no pattern: its first bad line, counted from 1, and the first kind that holds of it; or lack of
/// memory.
#[derive(Clone, Copy, Debug, PartialEq, Eq, Error)]
pub enum UserStop {
    #[error("line {line}: {kind:?}")]
    Refused { line: u32, kind: UserKind },
    #[error("out of memory")]
    Memory,
}

impl From<Memory> for UserStop {
    ghost use Rattle.ts_user.specs.declared.user_stop.UserStop.TheVariants.{Memory as NoMemory};

    ghost from_gives = { λ _ e. e ≡ NoMemory };

    fn from(_error: Memory) -> UserStop {
        UserStop::Memory
    }
}

/// Why a line adds nothing: the first kind that holds of it, or lack of memory.
#[derive(Clone, Copy)]
pub(crate) enum LineStop {
    Bad(UserKind),
    NoMemory,
}

impl From<Memory> for LineStop {
    ghost from_gives = { λ _ stop. stop ≡ NoMemoryLeft };

    fn from(_error: Memory) -> LineStop {
        LineStop::NoMemory
    }
}

impl<T: Drop> From<AllocFailed<T>> for LineStop {
    ghost from_gives = { λ _ stop. stop ≡ NoMemoryLeft };

    fn from(_error: AllocFailed<T>) -> LineStop {
        LineStop::NoMemory
    }
}

/// The stop of a line by its number.
pub(crate) fn at_line(line: u32, stop: LineStop) -> UserStop
    ensures { result ≡ at_line line stop }
{
    match stop {
        LineStop::Bad(kind) => UserStop::Refused { line, kind },
        LineStop::NoMemory => UserStop::Memory,
    }
}
