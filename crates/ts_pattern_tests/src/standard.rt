//! What no clause can say, since a reader and a writer say nothing of their errors: each call makes one call inside
//! and ends as that one did, whatever the size of the piece. Nor does a clause count the reads that give nothing:
//! whoever reads to the end comes there once.

use std::alloc::Global;
use std::cell::Cell;
use std::io::{self, ErrorKind, Read, Write};
use ts_base::{Failed, Memory, ReadStop, Sink, Source, StdIn, StdOut, read_all};

/// How often a device was called, and how often it was flushed.
#[derive(Drop)]
struct Counts {
    calls: Cell<u64>,
    flushes: Cell<u64>,
}

impl Counts {
    fn new() -> Counts {
        Counts {
            calls: Cell::new(0),
            flushes: Cell::new(0),
        }
    }

    fn told(&self) -> (u64, u64) {
        (self.calls.get(), self.flushes.get())
    }
}

fn one_more(count: &Cell<u64>) {
    count.set(count.get().saturating_add(1));
}

/// Fails at one call of all, by its number from 1, and counts its calls. A read gives at most `step` bytes, and the
/// first `reads` reads give some.
#[derive(Drop)]
struct Device<'a> {
    fails_at: u64,
    step: usize,
    reads: u64,
    counts: &'a Counts,
}

impl Device<'_> {
    fn call(&self) -> io::Result<()> {
        one_more(&self.counts.calls);
        if self.counts.calls.get() == self.fails_at {
            return Err(ErrorKind::Other.into());
        }
        Ok(())
    }
}

impl Read for Device<'_> {
    fn read(&mut self, buf: &mut [u8]) -> io::Result<usize> {
        self.call()?;
        if self.reads < self.counts.calls.get() {
            return Ok(0);
        }
        Ok(buf.len().min(self.step))
    }
}

impl Write for Device<'_> {
    fn write(&mut self, buf: &[u8]) -> io::Result<usize> {
        self.call()?;
        Ok(buf.len())
    }

    fn flush(&mut self) -> io::Result<()> {
        one_more(&self.counts.flushes);
        self.call()
    }
}

fn zeros(alloc: Global, count: usize) -> Result<Vec<u8>, Memory> {
    let mut bytes = Vec::new(alloc);
    bytes.resize(count, 0)?;
    Ok(bytes)
}

/// A device that fails at this call, and counts its calls.
fn failing_device(fails_at: u64, counts: &Counts) -> Device<'_> {
    Device {
        fails_at,
        step: usize::MAX,
        reads: u64::MAX,
        counts,
    }
}

fn each_read_is_one_call(alloc: Global) -> Result<bool, Memory> {
    let counts = Counts::new();
    let mut input = StdIn::new(failing_device(3, &counts));
    let mut small = [0];
    let mut large = zeros(alloc, 5_000)?;
    let one = input.read(&mut small) == Ok(1);
    let all = input.read(&mut large) == Ok(5_000);
    let failed = input.read(&mut small) == Err(Failed);
    Ok(one && all && failed && counts.told() == (3, 0))
}

fn each_write_is_one_call(alloc: Global) -> Result<bool, Memory> {
    let counts = Counts::new();
    let mut output = StdOut::new(failing_device(3, &counts));
    let large = zeros(alloc, 5_000)?;
    let one = output.write(b"x") == Ok(1);
    let all = output.write(&large) == Ok(5_000);
    let failed = output.write(b"x") == Err(Failed);
    let written = counts.told() == (3, 0);
    let finished = output.finish() == Ok(());
    Ok(one && all && failed && written && finished && counts.told() == (4, 1))
}

fn a_flush_fails() -> bool {
    let counts = Counts::new();
    let mut output = StdOut::new(failing_device(2, &counts));
    let one = output.write(b"x") == Ok(1);
    let failed = output.finish() == Err(Failed);
    one && failed && counts.told() == (2, 1)
}

fn a_second_flush_fails() -> bool {
    let counts = Counts::new();
    let mut output = StdOut::new(failing_device(2, &counts));
    let finished = output.finish() == Ok(());
    let failed = output.finish() == Err(Failed);
    finished && failed && counts.told() == (2, 2)
}

#[test]
fn one_call_inside(rt: HostRuntime) {
    assert!(rt; each_read_is_one_call(rt.alloc()) == Ok(true));
    assert!(rt; each_write_is_one_call(rt.alloc()) == Ok(true));
    assert!(rt; a_flush_fails());
    assert!(rt; a_second_flush_fails());
}

/// How many bytes are read under this limit, or why none, and by how many calls. The first `reads` reads give two bytes
/// each, the next one gives none, and the one after it fails.
fn read_of(alloc: Global, reads: u8, limit: u8) -> (Result<usize, ReadStop>, u64) {
    let counts = Counts::new();
    let mut input = StdIn::new(Device {
        fails_at: u64::from(reads) + 2,
        step: 2,
        reads: u64::from(reads),
        counts: &counts,
    });
    let got = match read_all(alloc, &mut input, usize::from(limit)) {
        Ok(bytes) => Ok(bytes.len()),
        Err(stop) => Err(stop),
    };
    (got, counts.calls.get())
}

#[test]
fn nothing_is_read_behind_the_end(rt: HostRuntime) {
    for (reads, limit, taken, called) in [
        (0, 0, Ok(0), 1),
        (0, 9, Ok(0), 1),
        (3, 6, Ok(6), 4),
        (3, 9, Ok(6), 4),
        (3, 5, Err(ReadStop::TooLong), 3),
        (3, 0, Err(ReadStop::TooLong), 1),
    ] {
        assert!(rt;
            read_of(rt.alloc(), reads, limit) == (taken, called),
            "{reads} {limit}"
        );
    }
}
