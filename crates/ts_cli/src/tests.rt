//! Whole runs over a source and a sink in memory that fail, or that give and take a few bytes a call: what stands in
//! the sink, and the status. Runs over devices that don't fail are rows of `examples/rows`, by the built program.

use std::alloc::{AllocError, Global};
use ts_base::{MemorySink, MemorySource, read_all};
use ts_run::{Status, run};

mod rows;

use rows::{PEAK, pieces, rows};

/// A call, how much a read gives at most and which read fails, how much a write takes at most and which write fails,
/// and how the call ends.
#[derive(Clone, Copy)]
struct Row {
    words: &'static str,
    input: &'static [u8],
    /// Call 0 is no call.
    source: (usize, u64),
    /// `finish` is the call after the last write.
    sink: (usize, u64),
    taken: &'static [u8],
    status: Status,
    /// How many bytes the source still has, where it is asked.
    left: Option<usize>,
}

fn words_of(alloc: Global, words: &str) -> Result<Vec<String>, AllocError> {
    let mut all = Vec::new(alloc);
    for word in words.split_whitespace() {
        all.push(String::from_str(alloc, word)?)?;
    }
    Ok(all)
}

/// Whether the call ends as the row says, where a read gives at most `step` bytes.
fn ends_so(alloc: Global, row: &Row, step: usize) -> Result<bool, AllocError> {
    let words = words_of(alloc, row.words)?;
    let bytes = Vec::from_slice(alloc, row.input)?;
    let mut source = MemorySource::new(bytes, step.max(1), vec![in alloc; row.source.1]?);
    let mut sink = MemorySink::new(alloc, row.sink.0.max(1), vec![in alloc; row.sink.1]?);
    let status = run(alloc, &words, &mut source, &mut sink);
    if sink.bytes() != row.taken || status != row.status {
        return Ok(false);
    }
    match (row.left, read_all(alloc, &mut source, 4096)) {
        (None, _) => Ok(true),
        (Some(left), Ok(bytes)) => Ok(left == bytes.len()),
        (Some(_), Err(_)) => Ok(false),
    }
}

/// The line of a reading is written before the next byte is read: where that write fails, all that comes after the
/// reading's LF is still in the source. Where a read fails, the lines that had their LF are written before.
#[test]
fn faults_of_devices(rt: HostRuntime) -> Result<(), AllocError> {
    for (place, row) in rows().iter().enumerate() {
        assert!(rt; ends_so(rt.alloc(), row, row.source.0)?, "row {place}");
    }
    Ok(())
}

/// The answer of `check` to a peak.
const MEETS: &[u8] = b"meets\nvalue w 4\n";

/// A call of `check` that fails at one of its reads, or at one of its writes of a byte each.
fn check_of_peak(read: u64, write: u64, taken: &'static [u8], status: Status) -> Row {
    Row {
        words: "check",
        input: PEAK,
        source: (16, read),
        sink: (1, write),
        taken,
        status,
        left: None,
    }
}

/// Five reads give the bytes and the sixth finds the end. Each is reported where it fails, and no seventh is made. A
/// write that fails leaves the bytes before it, the `finish` after them all, and nothing comes later.
#[test]
fn each_call_fails(rt: HostRuntime) -> Result<(), AllocError> {
    let alloc = rt.alloc();
    for call in 1..=6 {
        let row = check_of_peak(call, 0, b"fault read\n", Status::ReadFault);
        assert!(rt; ends_so(alloc, &row, 16)?, "read {call}");
    }
    for taken in 0..MEETS.len() + 1 {
        let row = check_of_peak(0, taken as u64 + 1, &MEETS[..taken], Status::WriteFault);
        assert!(rt; ends_so(alloc, &row, 16)?, "write {taken}");
    }
    assert!(rt; ends_so(alloc, &check_of_peak(7, 18, MEETS, Status::Done), 16)?);
    Ok(())
}

/// The answers are the same wherever the input is cut.
#[test]
fn input_in_pieces(rt: HostRuntime) -> Result<(), AllocError> {
    for (place, row) in pieces().iter().enumerate() {
        for step in [1, 2, 7, 65_536] {
            assert!(rt; ends_so(rt.alloc(), row, step)?, "row {place} by {step}");
        }
    }
    Ok(())
}
