//! `maximise` and `minimise`: the first best series of a model, with a certificate.

ghost use Rattle.std.specs.Prelude.{◌<◌, length};
ghost use Rattle.ts_base.specs.Limits.{too_many};
ghost use Rattle.ts_run.specs.AnswerTexts.{BestReply};
ghost use Rattle.ts_run.specs.Replies.{Gives};

use crate::certified::certified;
use crate::parts::model_of;
use crate::quantity::Budget;
use crate::reply::{Reply, Stop};
use std::alloc::Global;
use ts_base::Goal;
use ts_compile::compile_model;
use ts_model::Need;
use ts_search::solve;

/// The refusal of the model, or the certificate of its first best series.
pub fn best(alloc: Global, bytes: &[u8], goal: Goal, budget: Budget) -> Result<Reply, Stop>
    requires { length bytes.now < too_many }
    ensures { Gives (BestReply goal budget bytes.now) result }
{
    let model = model_of(alloc, bytes, Need::Best)?;
    let program = compile_model(alloc, &model)?;
    let certificate = solve(alloc, &model, &program, goal, u64::from(budget.lines()))?;
    Ok(certified(alloc, &certificate)?)
}
