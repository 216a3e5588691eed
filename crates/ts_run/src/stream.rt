//! The loop that reads pieces of a stream, and writes what they owe before it reads on.

ghost use Rattle.std.specs.Prelude.{ℕ, ◌≡◌, ◌≢◌, ◌<◌, List, [], ◌+◌, ◌++◌, length, None, Some};
ghost use Rattle.ts_base.specs.Limits.{too_many};
ghost use Rattle.ts_run.specs.LiveEndings.{LiveEnds};
ghost use Rattle.ts_run.specs.LiveSteps.{EndsBehind, PieceWell, Serves};
ghost use Rattle.ts_run.specs.Streams.{IsStream};
ghost use Rattle.ts_run.specs.Well.{ReadsWell, WritesWell};

use crate::live::Live;
use crate::status::Status;
use crate::write::write_reply;
use std::alloc::Global;
use ts_base::{Memory, PIECE, Sink, Source, read_front, write_all, zeros};

/// Answers a stream as it comes: reads a piece, writes what it owes, and reads on, up to the end, to the first piece
/// that ends the stream, or to one byte more than `limit`. Nothing is kept but the piece and what it owes.
pub(crate) fn run_live<L: Live, S: Source, K: Sink>(
    alloc: Global,
    live: &mut L,
    limit: usize,
    source: &mut S,
    sink: &mut K,
) -> Status
    requires few { limit < too_many }
    requires stream { IsStream L.due L.reply }
    requires none { L.came [] live.old }
    ensures ends { LiveEnds limit (λ bytes r. r ≡ L.reply bytes) L.due (S.left source.old) (S.left source.new)
        (S.source_faults source.old) (S.source_faults source.new) (K.taken sink.old) (K.taken sink.new) result }

    ensures reads { ReadsWell S.source_faults S.source_broken S.source_ends source.old source.new result }
    ensures writes { WritesWell K.sink_faults K.sink_broken K.finished K.finishes sink.old sink.new result }
    ensures calm { result ≡ Status.Memory → K.sink_faults sink.new ≡ K.sink_faults sink.old }
    ensures unfinished { result ≡ Status.Memory → K.finishes sink.new ≡ K.finishes sink.old }
{
    let Ok(room) = zeros(alloc, PIECE) else {
        return Status::Memory;
    };
    let mut buffer = room;
    let mut text = Vec::new(alloc);
    let mut spare = limit;
    loop {
        let asked = buffer.len().min(spare + 1);
        let Ok(more) = read_front(source, &mut buffer, asked) else {
            return write_reply(sink, b"fault read\n", Status::ReadFault);
        };
        if more == 0 {
            return end_stream(live, &mut text, sink);
        }
        let fits = more.min(spare);
        if let Some(status) = serve_piece(live, &buffer[..fits], &mut text, sink) {
            return status;
        }
        if more > spare {
            return write_reply(sink, b"refused length\n", Status::Refused);
        }
        spare -= more;
    }
}

/// Takes a piece and writes what it owes by one text; says the status where that ends the call.
fn serve_piece<L: Live, K: Sink>(
    live: &mut L,
    piece: &[u8],
    text: &mut Vec<u8>,
    sink: &mut K,
) -> Option<Status>
    requires stream { IsStream L.due L.reply }
    requires some { (bytes : List ℕ) × L.came bytes live.old × (length bytes + length piece.now < too_many) }
    ensures serves { (bytes : List ℕ) → L.came bytes live.old →
        Serves L.due bytes piece.now (K.taken sink.old) (K.taken sink.new) result }
    ensures goes_on { result ≡ None → (bytes : List ℕ) → L.came bytes live.old → L.came (bytes ++ piece.now) live.new }
    ensures reads { result ≢ Some Status.ReadFault }

    ensures writes { PieceWell K.sink_faults K.sink_broken K.finished K.finishes sink.old sink.new result }
    ensures calm { result ≡ Some Status.Memory → K.sink_faults sink.new ≡ K.sink_faults sink.old }
    ensures unfinished { result ≡ Some Status.Memory → K.finishes sink.new ≡ K.finishes sink.old }
{
    text.clear();
    match live.take(piece, text) {
        Ok(Some(status)) => Some(write_reply(sink, text, status)),
        Ok(None) => {
            if write_all(sink, text).is_err() {
                return Some(Status::WriteFault);
            }
            None
        }
        Err(Memory) => {
            if write_all(sink, text).is_err() {
                return Some(Status::WriteFault);
            }
            Some(Status::Memory)
        }
    }
}

/// Writes the rest of the reply at the end of the input.
fn end_stream<L: Live, K: Sink>(live: &mut L, text: &mut Vec<u8>, sink: &mut K) -> Status
    requires stream { IsStream L.due L.reply }
    requires some { (bytes : List ℕ) × L.came bytes live.old × (length bytes < too_many) }
    ensures ends { (bytes : List ℕ) → L.came bytes live.old →
        EndsBehind (L.due bytes) (L.reply bytes) (K.taken sink.old) (K.taken sink.new) result }
    ensures reads { result ≢ Status.ReadFault }

    ensures writes { WritesWell K.sink_faults K.sink_broken K.finished K.finishes sink.old sink.new result }
    ensures memory { result ≡ Status.Memory → sink.new ≡ sink.old }
{
    text.clear();
    match live.finish(text) {
        Ok(status) => write_reply(sink, text, status),
        Err(Memory) => Status::Memory,
    }
}
