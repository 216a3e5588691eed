//! The parts of an input: its model or its pattern, and its series; or the refusal of a bad one.

ghost use Rattle.std.specs.Prelude.{◌≡◌, ◌<◌, ◌≤◌, length, IfOk, vec_len};
ghost use Rattle.ts_base.specs.Limits.{most_cells, too_many};
ghost use Rattle.ts_pattern.specs.Limits.{IsSeries};
ghost use Rattle.ts_token.specs.Text.{cut_of};
ghost use Rattle.ts_model.specs.ModelReading.{model_reading};
ghost use Rattle.ts_model.specs.Promise.{IsWhole, KeepsLimits};
ghost use Rattle.ts_model.specs.Series.{any_series_reading, series_reading};
ghost use Rattle.ts_model.specs.Views.{model_parts};
ghost use Rattle.ts_user.specs.PatternReading.{pattern_reading};
ghost use Rattle.ts_user.specs.Views.{IsFit};
ghost use Rattle.ts_run.specs.Quantities.{IsWithin};
ghost use Rattle.ts_run.specs.Replies.{GivesModel, GivesPattern, GivesSeries};

use crate::refusal::{refused_model, refused_pattern, refused_series};
use crate::reply::Stop;
use std::alloc::Global;
use ts_model::{Model, ModelStop, Need, read_any_series, read_model, read_series};
use ts_token::cut_tokens;
use ts_user::{UserPattern, UserStop, read_pattern_text};

/// The model that the text states, in the limits of the need, or its refusal: the first step of each command that has
/// a model.
pub fn model_of(alloc: Global, text: &[u8], need: Need) -> Result<Model, Stop>
    requires { length text.now < too_many }
    ensures gives { GivesModel (model_reading need text.now) result }
    ensures counted { IfOk result (λ m. m.n ≡ vec_len m.cells) }
    ensures whole { IfOk result (λ m. IsWhole (model_parts m)) }
    ensures limits { IfOk result (λ m. KeepsLimits need (model_parts m)) }
{
    match read_model(alloc, text, need) {
        Ok(model) => Ok(model),
        Err(ModelStop::Refused { line, kind }) => {
            Err(Stop::Refused(refused_model(alloc, line, kind)?))
        }
        Err(ModelStop::Memory) => Err(Stop::Memory),
    }
}

/// The pattern that the text states with its transducer, or its refusal.
pub fn pattern_of(alloc: Global, text: &[u8]) -> Result<UserPattern, Stop>
    requires { length text.now < too_many }
    ensures gives { GivesPattern (pattern_reading text.now) result }
    ensures fit { IfOk result IsFit }
{
    match read_pattern_text(alloc, text) {
        Ok(user) => Ok(user),
        Err(UserStop::Refused { line, kind }) => {
            Err(Stop::Refused(refused_pattern(alloc, line, kind)?))
        }
        Err(UserStop::Memory) => Err(Stop::Memory),
    }
}

/// The series of `n` values that the text states, or its refusal.
pub fn series_of(alloc: Global, text: &[u8], n: u32) -> Result<Vec<i64>, Stop>
    requires few { length text.now < too_many }
    requires cells { (1 ≤ n) × (n ≤ most_cells) }
    ensures gives { GivesSeries (λ xs. xs.items) (series_reading n (cut_of text.now)) result }
    ensures count { IfOk result (λ xs. length xs.items ≡ n) }
    ensures series { IfOk result (λ xs. IsSeries xs.items) }
{
    let tokens = cut_tokens(alloc, text)?;
    match read_series(alloc, &tokens, n) {
        Ok(series) => Ok(series),
        Err(stop) => {
            let reply = refused_series(alloc, stop)?;
            Err(Stop::Refused(reply))
        }
    }
}

/// The series of 1 to 512 values that the text states, or its refusal.
pub fn any_series_of(alloc: Global, text: &[u8]) -> Result<Vec<i64>, Stop>
    requires { length text.now < too_many }
    ensures gives { GivesSeries (λ xs. xs.items) (any_series_reading (cut_of text.now)) result }
    ensures count { IfOk result (λ xs. IsWithin 1 most_cells (length xs.items)) }
{
    let tokens = cut_tokens(alloc, text)?;
    match read_any_series(alloc, &tokens) {
        Ok(series) => Ok(series),
        Err(stop) => {
            let reply = refused_series(alloc, stop)?;
            Err(Stop::Refused(reply))
        }
    }
}
