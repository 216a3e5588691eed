//! The pattern that the lines of a text state, at its end.

ghost use Rattle.std.specs.Prelude.{◌≡◌, ◌≤◌, ◌&&◌, map, length, nat_lt, Some, IfOk};
ghost use Rattle.std.specs.List.{list_all};
ghost use Rattle.ts_regex.specs.Shape.{shape_of};
ghost use Rattle.ts_user.specs.Stated.{most_states, nothing, is_complete, row_stated, described_as, described_by, judged, ended_stated};
ghost use Rattle.ts_user.specs.Views.{pair_of, stated_of, described_of, Gives, IsFit, IsSound};

use crate::draft::Draft;
use crate::shortest::has_short_word;
use crate::stated::{StatedState, Trims};
use crate::user_pattern::UserPattern;
use crate::user_stop::{LineStop, UserKind};
use arrayvec::ArrayVec;
use std::alloc::Global;
use ts_base::Memory;
use ts_pattern::{Pattern, PatternId, pattern_by_id};
use ts_regex::Regex;
use ts_seed::transducer_by_id;
use ts_transducer::{Row, Transducer};

/// The rows of the states.
fn rows_of(states: &[StatedState]) -> ArrayVec<Row, 8>
    requires { length states.now ≤ most_states }
    ensures { result.items ≡ map row_stated states.now }
{
    let mut rows = ArrayVec::new();
    for state in states {
        rows.push(state.row());
    }
    rows
}

/// Whether each state has its three moves.
fn all_complete(states: &[StatedState]) -> bool
    ensures { result ≡ list_all is_complete states.now }
{
    states.iter().all(|state| state.is_complete())
}

/// Whether there are states, and each has its three moves.
fn are_complete(states: &[StatedState]) -> bool
    ensures { result ≡ (nat_lt 0 (length states.now) && list_all is_complete states.now) }
{
    states.len() > 0 && all_complete(states)
}

/// The pattern of the catalogue with this name.
fn from_catalogue(alloc: Global, id: PatternId) -> Result<UserPattern, Memory>
    ensures same { IfOk result (λ u. described_of u ≡ described_by (Some id) nothing) }
    ensures fit { IfOk result IsFit }
{
    Ok(UserPattern {
        pattern: pattern_by_id(alloc, id)?,
        transducer: transducer_by_id(id),
    })
}

/// The pattern of these parts, or the first kind that holds of it.
#[tactic(auto, using(crate::proofs::ShortWords::long_words))]
fn of_parts(regex: Regex, trims: Trims, states: &[StatedState]) -> Result<UserPattern, LineStop>
    requires { length states.now ≤ most_states }
    ensures judged { Gives described_of result (judged (described_as (shape_of regex) (pair_of trims) states.now)) }
    ensures fit { IfOk result IsFit }
{
    if has_short_word(&regex, trims.before, trims.after) {
        return Err(LineStop::Bad(UserKind::ShortWord));
    }
    match Transducer::new(rows_of(states)) {
        None => Err(LineStop::Bad(UserKind::Typing)),
        Some(transducer) => Ok(UserPattern {
            pattern: Pattern {
                regex,
                b: trims.before,
                a: trims.after,
            },
            transducer,
        }),
    }
}

impl Draft {
    /// The pattern that the lines state, none of them bad, or the first kind that holds at the end of the text.
    pub(crate) fn ended(self, alloc: Global) -> Result<UserPattern, LineStop>
        requires sound { IsSound self }
        ensures ended { Gives described_of result (ended_stated (stated_of self)) }
        ensures fit { IfOk result IsFit }
    {
        let Draft {
            catalogue,
            expression,
            trims,
            states,
            ..
        } = self;
        if let Some(id) = catalogue {
            return Ok(from_catalogue(alloc, id)?);
        }
        if !are_complete(&states) {
            return Err(LineStop::Bad(UserKind::Missing));
        }
        match (expression, trims) {
            (Some(regex), Some(trims)) => of_parts(regex, trims, &states),
            _ => Err(LineStop::Bad(UserKind::Missing)),
        }
    }
}
