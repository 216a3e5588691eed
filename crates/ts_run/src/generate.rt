//! `generate`: the first series of a model, with a certificate.

ghost use Rattle.std.specs.Prelude.{◌<◌, length};
ghost use Rattle.ts_base.specs.Limits.{too_many};
ghost use Rattle.ts_run.specs.AnswerTexts.{ListReply};
ghost use Rattle.ts_run.specs.Replies.{Gives};

use crate::certified::certified;
use crate::parts::model_of;
use crate::quantity::{Budget, Count};
use crate::reply::{Reply, Stop};
use std::alloc::Global;
use ts_compile::compile_model;
use ts_model::Need;
use ts_search::list;

/// The refusal of the model, or the certificate of its first `count` series.
pub fn generate(alloc: Global, bytes: &[u8], count: Count, budget: Budget) -> Result<Reply, Stop>
    requires { length bytes.now < too_many }
    ensures { Gives (ListReply count budget bytes.now) result }
{
    let model = model_of(alloc, bytes, Need::List)?;
    let program = compile_model(alloc, &model)?;
    let lines = u64::from(budget.lines());
    let certificate = list(alloc, &model, &program, count.series(), lines)?;
    Ok(certified(alloc, &certificate)?)
}
