//! What a command replies to the bytes of its input.

ghost use Rattle.std.specs.Prelude.{◌<◌, length, IfOk};
ghost use Rattle.ts_base.specs.Limits.{too_many};
ghost use Rattle.ts_run.specs.AnswerTexts.{IsReply};
ghost use Rattle.ts_run.specs.Commands.{RepliesAtOnce};
ghost use Rattle.ts_run.specs.Reply.{ComesOfInput, reply_of};

use crate::best::best;
use crate::check::check;
use crate::command::Command;
use crate::compile::compile;
use crate::generate::generate;
use crate::mark::mark;
use crate::reply::{Reply, or_refusal};
use crate::sample::sample;
use std::alloc::Global;
use ts_base::Memory;

/// What a command that replies to all bytes of its input at once replies to these.
pub fn reply_to(alloc: Global, command: &Command, bytes: &[u8]) -> Result<Reply, Memory>
    requires few { length bytes.now < too_many }
    requires at_once { RepliesAtOnce command.now }
    ensures reply { IfOk result (λ r. IsReply command.now bytes.now (reply_of r)) }
    ensures status { IfOk result (λ r. ComesOfInput r.status) }
{
    match *command {
        Command::Check => or_refusal(check(alloc, bytes)),
        Command::Compile => or_refusal(compile(alloc, bytes)),
        Command::Verify | Command::Watch => unreachable!(),
        Command::Best { goal, budget } => or_refusal(best(alloc, bytes, goal, budget)),
        Command::Generate { count, budget } => or_refusal(generate(alloc, bytes, count, budget)),
        Command::Sample { cells } => sample(alloc, cells),
        Command::Mark => or_refusal(mark(alloc, bytes)),
    }
}
