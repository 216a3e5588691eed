//! `verify`: whether a certificate shows what it claims of a model.

ghost use Rattle.std.specs.Prelude.{◌≡◌, [], IfOk};
ghost use Rattle.ts_checker.specs.Feeding.{HasFed};
ghost use Rattle.ts_run.specs.AnswerTexts.{end_reply};
ghost use Rattle.ts_run.specs.Reply.{ComesOfInput, reply_of};
ghost use Rattle.ts_run.specs.Verified.{line_reply, verdict_reply};
ghost use Rattle.ts_run.specs.declared.command.Command.TheVariants.{Verify};

use crate::command::Command;
use crate::intake::Respond;
use crate::refusal::refused_model;
use crate::reply::Reply;
use crate::status::Status;
use std::alloc::Global;
use ts_base::limits::TOO_MANY;
use ts_base::{Intake, Memory, push_number};
use ts_checker::{Verdict, Verifier, VerifyEnd};

/// Takes the input of `verify`, and keeps no bytes but those of a model or a line that hasn't ended.
#[derive(Drop)]
pub struct Verifying(Verifier);

impl Verifying {
    /// A verifier that has taken nothing so far.
    pub fn new(alloc: Global) -> Verifying
        ensures { HasFed [] result.0 }
    {
        Verifying(Verifier::new(alloc))
    }
}

impl Intake for Verifying {
    ghost took = { λ bytes v. HasFed bytes v.0 };

    fn take(&mut self, piece: &[u8]) -> Result<(), Memory> {
        // the limit of an input keeps this from coming
        if piece.len() >= TOO_MANY as usize - self.0.count() {
            return Err(Memory);
        }
        self.0.feed(piece)
    }
}

impl Respond for Verifying {
    ghost serves = { λ command. command ≡ Verify };

    fn reply(self, alloc: Global, _command: &Command) -> Result<Reply, Memory> {
        let end = self.0.finish()?;
        end_reply(alloc, end)
    }
}

/// How an input ends, in words.
fn end_reply(alloc: Global, end: VerifyEnd) -> Result<Reply, Memory>
    ensures reply { IfOk result (λ r. reply_of r ≡ end_reply end) }
    ensures status { IfOk result (λ r. ComesOfInput r.status) }
{
    match end {
        VerifyEnd::Model { line, kind } => refused_model(alloc, line, kind),
        VerifyEnd::Verdict(verdict) => verdict_reply(alloc, verdict),
    }
}

/// The verdict in words.
pub fn verdict_reply(alloc: Global, verdict: Verdict) -> Result<Reply, Memory>
    ensures reply { IfOk result (λ r. reply_of r ≡ verdict_reply verdict) }
    ensures status { IfOk result (λ r. ComesOfInput r.status) }
{
    match verdict {
        Verdict::Accepted => Ok(Reply {
            text: Vec::from_slice(alloc, b"accepted\n")?,
            status: Status::Done,
        }),
        Verdict::Rejected(line) => line_reply(alloc, b"rejected line ", line, Status::No),
        Verdict::Refused(line) => {
            line_reply(alloc, b"refused certificate line ", line, Status::Refused)
        }
    }
}

/// The words with the number of a line.
pub fn line_reply(alloc: Global, words: &[u8], line: u32, status: Status) -> Result<Reply, Memory>
    ensures { IfOk result (λ r. reply_of r ≡ line_reply words.now line status) }
{
    let mut text = Vec::from_slice(alloc, words)?;
    push_number(&mut text, i64::from(line))?;
    text.push(b'\n')?;
    Ok(Reply { text, status })
}
