//! `mark`: where a pattern occurs in a series.

ghost use Rattle.std.specs.Prelude.{◌<◌, ◌≤◌, length};
ghost use Rattle.ts_base.specs.Limits.{too_many};
ghost use Rattle.ts_user.specs.Views.{described_of};
ghost use Rattle.ts_run.specs.MarkReply.{MarkReply, PlannedReply};
ghost use Rattle.ts_run.specs.Replies.{Gives, GivesValidated};

use crate::parts::{any_series_of, pattern_of};
use crate::refusal::refused_plan;
use crate::reply::{Reply, Stop};
use crate::status::Status;
use std::alloc::Global;
use ts_mark::{marks, marks_text};
use ts_token::cut_parts;
use ts_user::{UserPattern, build_plan};
use ts_validate::{ValidateStop, Validated, validate};

/// The refusal of the pattern, that of its plan, that of the series, or the occurrences in words.
pub fn mark(alloc: Global, bytes: &[u8]) -> Result<Reply, Stop>
    requires { length bytes.now < too_many }
    ensures { Gives (MarkReply bytes.now) result }
{
    let parts = cut_parts(bytes);
    let user = pattern_of(alloc, parts.model)?;
    mark_series(alloc, user, parts.rest.unwrap_or(b""))
}

/// The refusal of the plan, that of the series in this text, or its occurrences in words.
fn mark_series(alloc: Global, user: UserPattern, text: &[u8]) -> Result<Reply, Stop>
    requires few { length text.now < too_many }
    requires after { user.pattern.a ≤ 1 }
    ensures { Gives (PlannedReply text.now (described_of user)) result }
{
    let validated = validated(alloc, user)?;
    let series = any_series_of(alloc, text)?;
    let ranges = marks(alloc, &validated, validated.pattern().a, &series)?;
    let text = marks_text(alloc, series.len() as u32, &ranges)?;
    let status = Status::Done;
    Ok(Reply { text, status })
}

/// The transducer, known to find the occurrences of its pattern; or the refusal of their plan.
fn validated(alloc: Global, user: UserPattern) -> Result<Validated, Stop>
    ensures { GivesValidated (described_of user) result }
{
    let plan = match build_plan(alloc, &user.transducer, &user.pattern) {
        Ok(plan) => plan,
        Err(stop) => {
            let reply = refused_plan(alloc, stop)?;
            return Err(Stop::Refused(reply));
        }
    };
    match validate(alloc, user.transducer, &user.pattern, &plan) {
        Ok(validated) => Ok(validated),
        Err(ValidateStop::Memory) => Err(Stop::Memory),
        // a plan that was built is closed
        Err(ValidateStop::Refused { .. }) => unreachable!(),
    }
}
