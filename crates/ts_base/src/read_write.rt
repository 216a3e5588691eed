//! The whole of a source, by one loop whose bytes go to an intake, and the whole of a text to a sink.

ghost use Rattle.std.specs.Prelude.{◌≡◌, ◌≢◌, ◌<◌, ◌≤◌, ◌+◌, [], length, take, vec_len, false, IsTrue};
ghost use Rattle.std.specs.Prelude.{Err, IfOk, IfSome, MatchResult, OnOk, OnErr};
ghost use Rattle.ts_base.specs.Limits.{too_many};
ghost use Rattle.ts_base.specs.Outside.{AtEnd, GaveAtMost, HasMoreThan, Prefix, Rose};
ghost use Rattle.ts_base.specs.Outside.{left_after, one_more, put_back, taken_more};
ghost use Rattle.ts_base.specs.Taken.{TookAll};
ghost use Rattle.ts_base.specs.declared.read_write.ReadStop.TheVariants.{ReadFault as FaultOfReading};
ghost use Rattle.ts_base.specs.declared.read_write.ReadStop.TheVariants.{Memory as NoMemory};

use crate::error::{Failed, Memory};
use crate::intake::Intake;
use crate::outside::{Sink, Source};
use std::alloc::Global;
use thiserror::Error;

/// Why a source was not read to its end.
#[derive(Clone, Copy, Debug, PartialEq, Eq, Error)]
pub enum ReadStop {
    #[error("a read failed")]
    ReadFault,
    #[error("there is more than was asked for")]
    TooLong,
    #[error("out of memory")]
    Memory,
}

impl From<Failed> for ReadStop {
    ghost from_gives = { λ _ e. e ≡ FaultOfReading };

    fn from(_error: Failed) -> ReadStop {
        ReadStop::ReadFault
    }
}

impl From<Memory> for ReadStop {
    ghost from_gives = { λ _ e. e ≡ NoMemory };

    fn from(_error: Memory) -> ReadStop {
        ReadStop::Memory
    }
}

/// How many bytes a read asks for at most.
pub const PIECE: usize = 65_536;

/// All bytes that `source` has left, where they are at most `limit`.
///
/// `TooLong` comes exactly where there are more, and then one byte more than `limit` was taken. `ReadFault` comes
/// only where a read failed. The source isn't read again after that, nor once its end was found. At most `limit + 1`
/// bytes are taken in every case.
pub fn read_all<S: Source>(alloc: Global, source: &mut S, limit: usize) -> Result<Vec<u8>, ReadStop>
    requires { limit < too_many }
    ensures all { IfOk result (λ bytes. IfSome (S.left source.old) (λ left. left ≡ bytes.items)) }
    ensures gave_all { IfOk result (λ bytes. S.left source.old ≡ put_back bytes.items (S.left source.new)) }
    ensures end { OnOk result (AtEnd (S.left source.new)) }
    ensures within { IfOk result (λ bytes. length bytes.items ≤ limit) }
    ensures ended { OnOk result (S.source_ends source.new ≡ one_more (S.source_ends source.old)) }
    ensures before { OnErr result (S.source_ends source.new ≡ S.source_ends source.old) }

    ensures too_long { result ≡ Err ReadStop.TooLong → HasMoreThan limit (S.left source.old) }
    ensures one_more { result ≡ Err ReadStop.TooLong → S.left source.new ≡ left_after (limit + 1) (S.left source.old) }
    ensures gave { GaveAtMost (limit + 1) (S.left source.old) (S.left source.new) }

    ensures cause { result ≡ Err ReadStop.ReadFault → Rose (S.source_faults source.old) (S.source_faults source.new) }
    ensures broken { result ≡ Err ReadStop.ReadFault → IsTrue (S.source_broken source.new) }
    ensures calm { result ≢ Err ReadStop.ReadFault → S.source_faults source.new ≡ S.source_faults source.old }
    ensures want { result ≡ Err ReadStop.Memory → GaveAtMost limit (S.left source.old) (S.left source.new) }
    ensures later { S.source_faults source.old ≤ S.source_faults source.new }
{
    let mut bytes = Vec::new(alloc);
    take_all(alloc, source, limit, &mut bytes)?;
    Ok(bytes)
}

/// Gives all bytes that `source` has left to `intake`, where they are at most `limit`, piece by piece.
///
/// `TooLong` comes exactly where there are more, and then one byte more than `limit` was read. `ReadFault` comes only
/// where a read failed. The source isn't read again after that, nor once its end was found. `Memory` comes before the
/// first read, or is what the intake answered to a piece within the limit.
pub fn take_all<S: Source, I: Intake>(
    alloc: Global,
    source: &mut S,
    limit: usize,
    intake: &mut I,
) -> Result<(), ReadStop>
    requires few { limit < too_many }
    requires none { I.took [] intake.old }
    ensures all { OnOk result (TookAll I.took limit (S.left source.old) (S.left source.new) intake.new) }
    ensures ended { OnOk result (S.source_ends source.new ≡ one_more (S.source_ends source.old)) }
    ensures before { OnErr result (S.source_ends source.new ≡ S.source_ends source.old) }

    ensures too_long { result ≡ Err ReadStop.TooLong → HasMoreThan limit (S.left source.old) }
    ensures one_more { result ≡ Err ReadStop.TooLong → S.left source.new ≡ left_after (limit + 1) (S.left source.old) }
    ensures gave { GaveAtMost (limit + 1) (S.left source.old) (S.left source.new) }

    ensures cause { result ≡ Err ReadStop.ReadFault → Rose (S.source_faults source.old) (S.source_faults source.new) }
    ensures broken { result ≡ Err ReadStop.ReadFault → IsTrue (S.source_broken source.new) }
    ensures calm { result ≢ Err ReadStop.ReadFault → S.source_faults source.new ≡ S.source_faults source.old }
    ensures want { result ≡ Err ReadStop.Memory → GaveAtMost limit (S.left source.old) (S.left source.new) }
    ensures later { S.source_faults source.old ≤ S.source_faults source.new }
{
    let mut buffer = zeros(alloc, PIECE)?;
    let mut spare = limit;
    loop {
        let room = buffer.len().min(spare + 1);
        let more = read_front(source, &mut buffer, room)?;
        if more == 0 {
            return Ok(());
        }
        if more > spare {
            return Err(ReadStop::TooLong);
        }
        intake.take(&buffer[..more])?;
        spare -= more;
    }
}

/// Reads at most `room` bytes into the front of the buffer, and says how many came: none exactly where the source has
/// ended. `Failed` comes only where the read failed, and then the source has given nothing.
pub fn read_front<S: Source>(
    source: &mut S,
    buffer: &mut [u8],
    room: usize,
) -> Result<usize, Failed>
    requires { (0 < room) × (room ≤ length buffer.old) }
    ensures size { length buffer.new ≡ length buffer.old }
    ensures within { IfOk result (λ m. m ≤ room) }
    ensures gave { IfOk result (λ m. S.left source.old ≡ put_back (take m buffer.new) (S.left source.new)) }
    ensures end { IfOk result (λ m. m ≡ 0 → AtEnd (S.left source.old)) }
    ensures found { IfOk result (λ m. m ≡ 0 → S.source_ends source.new ≡ one_more (S.source_ends source.old)) }
    ensures before { MatchResult result (λ m. 0 < m → S.source_ends source.new ≡ S.source_ends source.old)
        (λ _. S.source_ends source.new ≡ S.source_ends source.old) }
    ensures kept { OnErr result (S.left source.new ≡ S.left source.old) }
    ensures cause { OnErr result (Rose (S.source_faults source.old) (S.source_faults source.new)) }
    ensures broken { OnErr result (IsTrue (S.source_broken source.new)) }
    ensures calm { OnOk result (S.source_faults source.new ≡ S.source_faults source.old) }
    ensures later { S.source_faults source.old ≤ S.source_faults source.new }
{
    source.read(&mut buffer[..room])
}

/// A new buffer of `length` bytes, to be read into. `Memory` is the only refusal.
pub fn zeros(alloc: Global, length: usize) -> Result<Vec<u8>, Memory>
    ensures { IfOk result (λ buffer. vec_len buffer ≡ length) }
{
    let mut buffer = Vec::new(alloc);
    buffer.resize(length, 0)?;
    Ok(buffer)
}

/// Gives all of `bytes` to `sink`.
///
/// `Failed` comes only where a write failed: the sink has then taken a front of them, and is not called again.
pub fn write_all<K: Sink>(sink: &mut K, bytes: &[u8]) -> Result<(), Failed>
    ensures all { OnOk result (K.taken sink.new ≡ taken_more (K.taken sink.old) bytes.now) }
    ensures front { OnErr result (Prefix bytes.now (K.taken sink.old) (K.taken sink.new)) }
    ensures cause { OnErr result (Rose (K.sink_faults sink.old) (K.sink_faults sink.new)) }
    ensures broken { OnErr result (IsTrue (K.sink_broken sink.new)) }
    ensures calm { OnOk result (K.sink_faults sink.new ≡ K.sink_faults sink.old) }
    ensures unfinished { 0 < length bytes.now → K.finished sink.new ≡ false }
    ensures writes { K.finishes sink.new ≡ K.finishes sink.old }
    ensures later { K.sink_faults sink.old ≤ K.sink_faults sink.new }
{
    let mut done = 0;
    while done < bytes.len() {
        done += sink.write(&bytes[done..])?;
    }
    Ok(())
}
