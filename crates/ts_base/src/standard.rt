//! Standard input and output, the trusted edge: no clause says which bytes the system gives or takes.

ghost use Rattle.std.specs.Prelude.{◌≡◌, ◌<◌, ◌≤◌, length, false, IsTrue, is_ok, ⊤, Ok, None};
ghost use Rattle.std.specs.Prelude.{IfOk, IsErr, OnErr, MatchResult};
ghost use Rattle.std.specs.Io.KnownBytes.{Keeps, ReadConsumes, WriteAppends};
ghost use Rattle.ts_base.specs.Outside.{ends_after, faults_after, has_faults, one_more};

use crate::error::Failed;
use crate::outside::{Sink, Source, ends_after};
use std::io::{self, ErrorKind, Read, Write};
use std::marker::Model;

/// A source over a reader. It counts the reader's errors and the ends that it found, up to the last value of a counter.
#[derive(Drop)]
pub struct StdIn<R> {
    inner: R,
    faults: u64,
    ends: u64,
}

impl<R> Model for StdIn<R> {
    ghost use Rattle.ts_base.specs.Standard.{InputState};

    ghost Value = { InputState R };

    ghost view = { λ s. record { inner = s.inner; faults = s.faults; ends = s.ends } };
}

impl<R: Read + Drop> StdIn<R> {
    /// Reads from `inner`; no read has failed yet.
    pub fn new(inner: R) -> StdIn<R>
        ensures { result ≡ record { inner = inner; faults = 0; ends = 0 } }
    {
        StdIn {
            inner,
            faults: 0,
            ends: 0,
        }
    }
}

impl<R: Read + Drop> Source for StdIn<R> {
    ghost left = { λ _. None };

    ghost source_faults = { λ s. s.faults };

    ghost source_broken = { λ s. has_faults s.faults };

    ghost source_ends = { λ s. s.ends };

    fn read(&mut self, into: &mut [u8]) -> Result<usize, Failed>
        ensures count { self.new.faults ≡ faults_after result self.old.faults }
        ensures bytes { ReadConsumes (R.remaining self.old.inner) (R.remaining self.new.inner) result into.new }
        ensures within { IfOk result (λ m. m ≤ length into.new) }
        ensures ends { MatchResult result (λ m. self.new.ends ≡ ends_after (length into.new) m self.old.ends)
            (λ _. self.new.ends ≡ self.old.ends) }
        ensures broken { OnErr result (IsTrue (has_faults self.new.faults)) }
        ensures later { self.old.faults ≤ self.new.faults }
    {
        let got = self.inner.read(into);
        let given = counted_result(got, &mut self.faults)?;
        self.ends = ends_after(into.len(), given, self.ends);
        Ok(given)
    }
}

/// A sink over a writer. It counts the writer's errors, and as one a write that takes nothing of a piece.
#[derive(Drop)]
pub struct StdOut<W> {
    inner: W,
    faults: u64,
    finished: bool,
    finishes: u64,
}

impl<W> Model for StdOut<W> {
    ghost use Rattle.ts_base.specs.Standard.{OutputState};

    ghost Value = { OutputState W };

    ghost view = { λ s.
        record { inner = s.inner; faults = s.faults; finished = s.finished; finishes = s.finishes } };
}

impl<W: Write + Drop> StdOut<W> {
    /// Writes to `inner`; no call has failed yet.
    pub fn new(inner: W) -> StdOut<W>
        ensures { result ≡ record { inner = inner; faults = 0; finished = false; finishes = 0 } }
    {
        StdOut {
            inner,
            faults: 0,
            finished: false,
            finishes: 0,
        }
    }
}

impl<W: Write + Drop> Sink for StdOut<W> {
    ghost taken = { λ _. None };

    ghost sink_faults = { λ s. s.faults };

    ghost sink_broken = { λ s. has_faults s.faults };

    ghost finished = { λ s. s.finished };

    ghost finishes = { λ s. s.finishes };

    fn write(&mut self, piece: &[u8]) -> Result<usize, Failed>
        ensures count { self.new.faults ≡ faults_after result self.old.faults }
        ensures bytes { WriteAppends (W.contents self.old.inner) (W.contents self.new.inner) result piece.now }
        ensures within { IfOk result (λ m. m ≤ length piece.now) }
        ensures some { IfOk result (λ m. 0 < length piece.now → 0 < m) }
        ensures broken { OnErr result (IsTrue (has_faults self.new.faults)) }
        ensures unfinished { self.new.finished ≡ false }
        ensures writes { self.new.finishes ≡ self.old.finishes }
        ensures later { self.old.faults ≤ self.new.faults }
    {
        self.finished = false;
        let got = some_taken(self.inner.write(piece), piece.len());
        counted_result(got, &mut self.faults)
    }

    fn finish(&mut self) -> Result<(), Failed>
        ensures count { self.new.faults ≡ faults_after result self.old.faults }
        ensures bytes { Keeps (W.contents self.old.inner) (W.contents self.new.inner) }
        ensures broken { OnErr result (IsTrue (has_faults self.new.faults)) }
        ensures done { self.new.finished ≡ is_ok result }
        ensures once { self.new.finishes ≡ one_more self.old.finishes }
        ensures later { self.old.faults ≤ self.new.faults }
    {
        self.finishes = self.finishes.saturating_add(1);
        let flushed = counted_result(self.inner.flush(), &mut self.faults);
        self.finished = flushed.is_ok();
        flushed
    }
}

/// What a call inside gave, its error counted as a fault, up to the last value of the counter.
fn counted_result<T: Drop>(got: io::Result<T>, faults: &mut u64) -> Result<T, Failed>
    ensures value { MatchResult got (λ given. result ≡ Ok given) (λ _. IsErr result) }
    ensures count { faults.new ≡ faults_after result faults.old }
    ensures broken { OnErr result (IsTrue (has_faults faults.new)) }
    ensures later { faults.old ≤ faults.new }
{
    match got {
        Ok(given) => Ok(given),
        Err(_) => {
            *faults = faults.saturating_add(1);
            Err(Failed)
        }
    }
}

/// What a write of `asked` bytes gave; it is an error too where nothing was taken of some.
fn some_taken(got: io::Result<usize>, asked: usize) -> io::Result<usize>
    ensures some { IfOk result (λ m. (got ≡ Ok m) × (0 < asked → 0 < m)) }
    ensures error { OnErr result (MatchResult got (λ m. (m ≡ 0) × (0 < asked)) (λ _. ⊤)) }
{
    match got {
        Ok(0) if 0 < asked => Err(ErrorKind::WriteZero.into()),
        given => given,
    }
}
