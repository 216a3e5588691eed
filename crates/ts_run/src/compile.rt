//! `compile`: the automata of a model's terms as a text.

ghost use Rattle.std.specs.Prelude.{◌<◌, length};
ghost use Rattle.ts_base.specs.Limits.{too_many};
ghost use Rattle.ts_run.specs.AnswerTexts.{CompileReply};
ghost use Rattle.ts_run.specs.Replies.{Gives};

use crate::parts::model_of;
use crate::reply::{Reply, Stop};
use crate::status::Status;
use std::alloc::Global;
use ts_compile::{compile_model, write_program};
use ts_model::Need;

/// The refusal of the model, or the text of its program.
pub fn compile(alloc: Global, bytes: &[u8]) -> Result<Reply, Stop>
    requires { length bytes.now < too_many }
    ensures { Gives (CompileReply bytes.now) result }
{
    let model = model_of(alloc, bytes, Need::Values)?;
    let program = compile_model(alloc, &model)?;
    let text = write_program(alloc, &model, &program)?;
    let status = Status::Done;
    Ok(Reply { text, status })
}
