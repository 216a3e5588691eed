//! What takes the bytes of an input piece by piece, and then replies to all of them.

ghost use Rattle.std.specs.Prelude.{ℕ, ◌<◌, List, length, IfOk};
ghost use Rattle.ts_base.specs.Limits.{too_many};
ghost use Rattle.ts_run.specs.AnswerTexts.{IsReply};
ghost use Rattle.ts_run.specs.Reply.{ComesOfInput, reply_of};

use crate::command::Command;
use crate::reply::Reply;
use crate::reply_to::reply_to;
use std::alloc::Global;
use ts_base::{Intake, Memory};

/// An intake that replies to the bytes that it took, for the commands that it serves.
pub trait Respond: Intake + Drop {
    ghost use Rattle.ts_run.specs.declared.command.Command.{Command};

    ghost serves: { Command → Type 0 };

    /// What the command replies to the bytes that were taken.
    fn reply(self, alloc: Global, command: &Command) -> Result<Reply, Memory>
        requires serves { serves command.now }
        requires few { (bytes : List ℕ) × Self.took bytes self × (length bytes < too_many) }
        ensures reply { IfOk result (λ r.
            (bytes : List ℕ) → Self.took bytes self → IsReply command.now bytes (reply_of r)) }
        ensures status { IfOk result (λ r. ComesOfInput r.status) };
}

/// Serves the commands that reply to all bytes at once.
impl Respond for Vec<u8> {
    ghost use Rattle.ts_run.specs.Commands.{RepliesAtOnce};

    ghost serves = { λ command. RepliesAtOnce command };

    fn reply(self, alloc: Global, command: &Command) -> Result<Reply, Memory> {
        reply_to(alloc, command, &self)
    }
}
