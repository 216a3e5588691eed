//! `check`: whether a series meets a model.

ghost use Rattle.std.specs.Prelude.{◌≡◌, ◌<◌, length, vec_len};
ghost use Rattle.ts_base.specs.Limits.{too_many};
ghost use Rattle.ts_model.specs.Promise.{IsWhole};
ghost use Rattle.ts_model.specs.Views.{model_parts};
ghost use Rattle.ts_run.specs.AnswerTexts.{CheckReply, SeriesReply};
ghost use Rattle.ts_run.specs.Replies.{Gives};

use crate::parts::{model_of, series_of};
use crate::reply::{Reply, Stop};
use crate::verdict::verdict;
use std::alloc::Global;
use ts_compile::judge;
use ts_model::{Model, Need};
use ts_token::cut_parts;

/// The refusal of the model, that of the series, or the verdict on the series.
pub fn check(alloc: Global, bytes: &[u8]) -> Result<Reply, Stop>
    requires { length bytes.now < too_many }
    ensures { Gives (CheckReply bytes.now) result }
{
    let parts = cut_parts(bytes);
    let model = model_of(alloc, parts.model, Need::Values)?;
    check_series(alloc, &model, parts.rest.unwrap_or(b""))
}

/// The refusal of the series in this text, or the verdict on it.
fn check_series(alloc: Global, model: &Model, text: &[u8]) -> Result<Reply, Stop>
    requires few { length text.now < too_many }
    requires counted { model.now.n ≡ vec_len model.now.cells }
    requires whole { IsWhole (model_parts model.now) }
    ensures { Gives (SeriesReply text.now (model_parts model.now)) result }
{
    let series = series_of(alloc, text, model.n)?;
    let judgement = judge(alloc, model, &series)?;
    Ok(verdict(alloc, model, &judgement)?)
}
