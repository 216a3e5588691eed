//! What a command replies, and why it goes no further.

ghost use Rattle.std.specs.Prelude.{◌≡◌, ◌⊎◌, ◌++◌, Ok, Err, IfOk, OnErr};
ghost use Rattle.ts_run.specs.declared.reply.Stop.TheVariants.{Memory as NoMemory};

use crate::status::Status;
use ts_base::Memory;

/// A text, and the status with which the call ends once it is written.
#[derive(Debug, Drop)]
pub struct Reply {
    pub text: Vec<u8>,
    pub status: Status,
}

/// Why a command goes no further: a refusal, already in words, or lack of memory.
#[derive(Debug, Drop)]
pub enum Stop {
    Refused(Reply),
    Memory,
}

impl From<Memory> for Stop {
    ghost from_gives = { λ _ stop. stop ≡ NoMemory };

    fn from(_error: Memory) -> Stop {
        Stop::Memory
    }
}

/// The reply of a command, which may be its refusal.
pub fn or_refusal(reply: Result<Reply, Stop>) -> Result<Reply, Memory>
    ensures ok { IfOk result (λ r. (reply ≡ Ok r) ⊎ (reply ≡ Err (Stop.Refused r))) }
    ensures memory { OnErr result (reply ≡ Err Stop.Memory) }
{
    match reply {
        Ok(reply) => Ok(reply),
        Err(Stop::Refused(reply)) => Ok(reply),
        Err(Stop::Memory) => Err(Memory),
    }
}

/// Appends the text of a reply to this one, which stays as it is after `Memory`; the status is the reply's.
pub fn push_reply(text: &mut Vec<u8>, reply: &Reply) -> Result<Status, Memory>
    ensures ok { IfOk result (λ status.
        (text.new.items ≡ text.old.items ++ reply.now.text.items) × (status ≡ reply.now.status)) }
    ensures err { OnErr result (text.new.items ≡ text.old.items) }
{
    text.extend_from_slice(&reply.text)?;
    Ok(reply.status)
}
