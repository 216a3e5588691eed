//! The top call.

ghost use Rattle.std.specs.Prelude.{◌≡◌, ◌≢◌, ◌<◌, []};
ghost use Rattle.ts_base.specs.Limits.{too_many};
ghost use Rattle.ts_run.specs.AnswerTexts.{IsReply};
ghost use Rattle.ts_run.specs.Commands.{RepliesAtOnce, command_of, input_of, words_in};
ghost use Rattle.ts_run.specs.Endings.{RunEnds, WholeEnds, WholeTakes, due_of, sink_tells, source_tells};
ghost use Rattle.ts_run.specs.LiveEndings.{LiveEnds};
ghost use Rattle.ts_run.specs.Reply.{EndsWith, TellsNoFault};
ghost use Rattle.ts_run.specs.Well.{ReadsWell, WritesWell};
ghost use Rattle.ts_run.specs.declared.command.Input.TheVariants.{Live, Whole};

use crate::command::{Command, Input};
use crate::intake::Respond;
use crate::reply_to::reply_to;
use crate::status::Status;
use crate::stream::run_live;
use crate::verify::Verifying;
use crate::watch::Watching;
use crate::write::write_reply;
use std::alloc::Global;
use ts_base::{Memory, NeverSink, NeverSource, ReadStop, Sink, Source, take_all};

/// Does what the words ask for: reads the source, writes the reply to the sink, and says how it ended.
///
/// Words that aren't a command are refused and the source stays unread, as it does on `sample`. If a read failed, which
/// shows in the count of faults, the reply is `fault read`; else it is what the command answers to the bytes that the
/// source had left, by the theorem (`Headline`). After `Memory` the sink is as it was and no read failed; after
/// `WriteFault`, which is reported only where a fault was counted, it has taken a prefix of the reply. After every
/// other status the reply was taken whole, the sink was finished once, and no fault of its own was counted. Nothing is
/// read once a read failed, or the end of the source was found.
///
/// `watch` takes its input as a stream: what a piece of it owes is written before the next is read. So a failed read,
/// or a byte more than the limit, is reported after what was owed before, and after `Memory` the sink has taken
/// whole lines.
pub fn run<S: Source, K: Sink>(
    alloc: Global,
    words: &Vec<String>,
    source: &mut S,
    sink: &mut K,
) -> Status
    ensures { RunEnds (source_tells S.left S.source_faults S.source_broken S.source_ends)
        (sink_tells K.taken K.sink_faults K.sink_broken K.finished K.finishes)
        (command_of (words_in words.now.items)) source.old source.new sink.old sink.new result }
{
    let Some(command) = Command::of(words) else {
        return write_reply(sink, b"refused words\n", Status::Refused);
    };
    match command.input() {
        Input::Whole { limit } => run_whole(alloc, &command, limit, source, sink),
        Input::Live { limit } => run_stream(alloc, &command, limit, source, sink),
        Input::Nothing => run_unread(alloc, &command, sink),
    }
}

/// The call over a source and a sink that never fail: no fault is reported.
pub fn run_over_never(
    alloc: Global,
    words: &Vec<String>,
    source: &mut NeverSource,
    sink: &mut NeverSink,
) -> Status
    ensures { TellsNoFault result }
{
    run(alloc, words, source, sink)
}

/// The call of a command that reads nothing: its reply is that to an empty input.
fn run_unread<K: Sink>(alloc: Global, command: &Command, sink: &mut K) -> Status
    requires { RepliesAtOnce command.now }
    ensures ends { EndsWith (IsReply command.now []) (K.taken sink.old) (K.taken sink.new) result }
    ensures reads { result ≢ Status.ReadFault }
    ensures writes { WritesWell K.sink_faults K.sink_broken K.finished K.finishes sink.old sink.new result }
    ensures memory { result ≡ Status.Memory → sink.new ≡ sink.old }
{
    match reply_to(alloc, command, b"") {
        Ok(reply) => write_reply(sink, &reply.text, reply.status),
        Err(Memory) => Status::Memory,
    }
}

/// The call of a command that takes its whole input, of at most `limit` bytes, before it writes: `verify` piece by
/// piece, the others as a whole.
fn run_whole<S: Source, K: Sink>(
    alloc: Global,
    command: &Command,
    limit: usize,
    source: &mut S,
    sink: &mut K,
) -> Status
    requires few { limit < too_many }
    requires whole { input_of command.now ≡ Whole limit }
    ensures ends { WholeEnds limit (IsReply command.now) (S.left source.old)
        (S.source_faults source.old) (S.source_faults source.new) (K.taken sink.old) (K.taken sink.new) result }
    ensures takes { WholeTakes limit (S.left source.old) (S.left source.new) result }

    ensures reads { ReadsWell S.source_faults S.source_broken S.source_ends source.old source.new result }
    ensures writes { WritesWell K.sink_faults K.sink_broken K.finished K.finishes sink.old sink.new result }
    ensures memory { result ≡ Status.Memory → sink.new ≡ sink.old }
{
    match *command {
        Command::Verify => run_into(alloc, command, Verifying::new(alloc), limit, source, sink),
        _ => run_into(alloc, command, Vec::new(alloc), limit, source, sink),
    }
}

/// The call of a command that answers its input, of at most `limit` bytes, as it comes.
fn run_stream<S: Source, K: Sink>(
    alloc: Global,
    command: &Command,
    limit: usize,
    source: &mut S,
    sink: &mut K,
) -> Status
    requires few { limit < too_many }
    requires live { input_of command.now ≡ Live limit }
    ensures ends { LiveEnds limit (IsReply command.now) (due_of command.now) (S.left source.old) (S.left source.new)
        (S.source_faults source.old) (S.source_faults source.new) (K.taken sink.old) (K.taken sink.new) result }

    ensures reads { ReadsWell S.source_faults S.source_broken S.source_ends source.old source.new result }
    ensures writes { WritesWell K.sink_faults K.sink_broken K.finished K.finishes sink.old sink.new result }
    ensures calm { result ≡ Status.Memory → K.sink_faults sink.new ≡ K.sink_faults sink.old }
    ensures unfinished { result ≡ Status.Memory → K.finishes sink.new ≡ K.finishes sink.old }
{
    match *command {
        Command::Watch => run_live(alloc, &mut Watching::new(alloc), limit, source, sink),
        _ => unreachable!(),
    }
}

/// The call whose input goes to this intake, which serves the command and has taken nothing so far.
fn run_into<I: Respond, S: Source, K: Sink>(
    alloc: Global,
    command: &Command,
    intake: I,
    limit: usize,
    source: &mut S,
    sink: &mut K,
) -> Status
    requires few { limit < too_many }
    requires serves { I.serves command.now }
    requires none { I.took [] intake }
    ensures ends { WholeEnds limit (IsReply command.now) (S.left source.old)
        (S.source_faults source.old) (S.source_faults source.new) (K.taken sink.old) (K.taken sink.new) result }
    ensures takes { WholeTakes limit (S.left source.old) (S.left source.new) result }

    ensures reads { ReadsWell S.source_faults S.source_broken S.source_ends source.old source.new result }
    ensures writes { WritesWell K.sink_faults K.sink_broken K.finished K.finishes sink.old sink.new result }
    ensures memory { result ≡ Status.Memory → sink.new ≡ sink.old }
{
    let mut intake = intake;
    match take_all(alloc, source, limit, &mut intake) {
        Err(ReadStop::ReadFault) => write_reply(sink, b"fault read\n", Status::ReadFault),
        Err(ReadStop::TooLong) => write_reply(sink, b"refused length\n", Status::Refused),
        Err(ReadStop::Memory) => Status::Memory,
        Ok(()) => match intake.reply(alloc, command) {
            Ok(reply) => write_reply(sink, &reply.text, reply.status),
            Err(Memory) => Status::Memory,
        },
    }
}
