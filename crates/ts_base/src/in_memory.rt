//! A source and a sink in memory, for tests: they go in steps, and fail at the calls that they are told to fail at.

ghost use Rattle.std.specs.Prelude.{◌≡◌, ◌<◌, ◌≤◌, ◌+◌, ◌⊎◌, ◌↔◌, [], length, take, min, Contains, false, IsTrue};
ghost use Rattle.std.specs.Prelude.{Some, IfOk, IsErr, OnErr, MatchResult};
ghost use Rattle.ts_base.specs.Outside.{has_faults, one_more};

use crate::error::Failed;
use crate::outside::{Sink, Source, ends_after};
use std::alloc::Global;
use std::marker::Model;

/// Gives the bytes that it was made with.
#[derive(Drop)]
pub struct MemorySource {
    bytes: Vec<u8>,
    at: usize,
    step: usize,
    fails: Vec<u64>,
    calls: u64,
    faults: u64,
    ends: u64,
}

impl Model for MemorySource {
    ghost use Rattle.std.specs.Prelude.{◌≤◌, ◌<◌, drop, vec_len};
    ghost use Rattle.ts_base.specs.InMemory.{SourceState};

    ghost Value = { SourceState };

    ghost view = { λ s.
        record {
          left = drop s.at s.bytes.items;
          step = s.step;
          fails = s.fails.items;
          calls = s.calls;
          faults = s.faults;
          ends = s.ends;
        } };

    ghost invariant = { λ s. (s.at ≤ vec_len s.bytes) × (0 < s.step) };
}

impl MemorySource {
    /// Gives `bytes`, at most `step` in a call, and fails at the calls whose numbers, from 1, are in `fails`.
    pub fn new(bytes: Vec<u8>, step: usize, fails: Vec<u64>) -> MemorySource
        requires { 0 < step }
        ensures { result ≡ record {
          left = bytes.items;
          step = step;
          fails = fails.items;
          calls = 0;
          faults = 0;
          ends = 0;
        } }
    {
        MemorySource {
            bytes,
            at: 0,
            step,
            fails,
            calls: 0,
            faults: 0,
            ends: 0,
        }
    }
}

impl Source for MemorySource {
    ghost use Rattle.ts_base.specs.InMemory.{after_giving, after_refusing};

    ghost left = { λ s. Some s.left };

    ghost source_faults = { λ s. s.faults };

    ghost source_broken = { λ s. has_faults s.faults };

    ghost source_ends = { λ s. s.ends };

    fn read(&mut self, into: &mut [u8]) -> Result<usize, Failed>
        ensures fails { IsErr result ↔ Contains self.old.fails (one_more self.old.calls) }
        ensures amount { IfOk result (λ m. m ≡ min (min self.old.step (length into.new)) (length self.old.left)) }
        ensures bytes { IfOk result (λ m. take m into.new ≡ take m self.old.left) }
        ensures after { MatchResult result (λ m. self.new ≡ after_giving (length into.new) m self.old)
            (λ _. self.new ≡ after_refusing self.old) }
        ensures end { IfOk result (λ m. m ≡ 0 → 0 < length into.new → self.old.left ≡ []) }
        ensures broken { OnErr result (IsTrue (has_faults self.new.faults)) }
        ensures later { self.old.faults ≤ self.new.faults }
    {
        self.calls = self.calls.saturating_add(1);
        if self.fails.contains(&self.calls) {
            self.faults = self.faults.saturating_add(1);
            return Err(Failed);
        }
        let rest = &self.bytes[self.at..];
        let count = self.step.min(into.len()).min(rest.len());
        into[..count].copy_from_slice(&rest[..count]);
        self.at += count;
        self.ends = ends_after(into.len(), count, self.ends);
        Ok(count)
    }
}

/// Keeps the bytes that it takes.
#[derive(Drop)]
pub struct MemorySink {
    bytes: Vec<u8>,
    step: usize,
    fails: Vec<u64>,
    calls: u64,
    faults: u64,
    finished: bool,
    finishes: u64,
}

impl Model for MemorySink {
    ghost use Rattle.std.specs.Prelude.{◌<◌};
    ghost use Rattle.std.specs.Vec.{vec_capacity};
    ghost use Rattle.ts_base.specs.InMemory.{SinkState};

    ghost Value = { SinkState };

    ghost view = { λ s.
        record {
          taken = s.bytes.items;
          room = vec_capacity s.bytes;
          step = s.step;
          fails = s.fails.items;
          calls = s.calls;
          faults = s.faults;
          finished = s.finished;
          finishes = s.finishes;
        } };

    ghost invariant = { λ s. 0 < s.step };
}

impl MemorySink {
    /// Takes at most `step` bytes in a call, and fails at the calls whose numbers, from 1, are in `fails`.
    pub fn new(alloc: Global, step: usize, fails: Vec<u64>) -> MemorySink
        requires { 0 < step }
        ensures { result ≡ record {
          taken = [];
          room = 0;
          step = step;
          fails = fails.items;
          calls = 0;
          faults = 0;
          finished = false;
          finishes = 0;
        } }
    {
        MemorySink {
            bytes: Vec::new(alloc),
            step,
            fails,
            calls: 0,
            faults: 0,
            finished: false,
            finishes: 0,
        }
    }

    /// The bytes that it has taken.
    pub fn bytes(&self) -> &[u8]
        ensures { result.now ≡ self.now.taken }
    {
        &self.bytes
    }
}

impl Sink for MemorySink {
    ghost use Rattle.ts_base.specs.InMemory.{after_failed_finish, after_failed_write, after_finish, after_taking};

    ghost taken = { λ s. Some s.taken };

    ghost sink_faults = { λ s. s.faults };

    ghost sink_broken = { λ s. has_faults s.faults };

    ghost finished = { λ s. s.finished };

    ghost finishes = { λ s. s.finishes };

    fn write(&mut self, piece: &[u8]) -> Result<usize, Failed>
        ensures fails { Contains self.old.fails (one_more self.old.calls) → IsErr result }
        ensures full { OnErr result (Contains self.old.fails (one_more self.old.calls)
            ⊎ (self.old.room < length self.old.taken + min self.old.step (length piece.now))) }
        ensures amount { IfOk result (λ m. m ≡ min self.old.step (length piece.now)) }
        ensures after { MatchResult result (λ m. self.new ≡ after_taking (take m piece.now) self.new.room self.old)
            (λ _. self.new ≡ after_failed_write self.new.room self.old) }
        ensures some { IfOk result (λ m. 0 < length piece.now → 0 < m) }
        ensures broken { OnErr result (IsTrue (has_faults self.new.faults)) }
        ensures later { self.old.faults ≤ self.new.faults }
    {
        self.finished = false;
        self.calls = self.calls.saturating_add(1);
        let count = self.step.min(piece.len());
        let refused = self.fails.contains(&self.calls);
        if refused || self.bytes.extend_from_slice(&piece[..count]).is_err() {
            self.faults = self.faults.saturating_add(1);
            return Err(Failed);
        }
        Ok(count)
    }

    fn finish(&mut self) -> Result<(), Failed>
        ensures fails { IsErr result ↔ Contains self.old.fails (one_more self.old.calls) }
        ensures after { MatchResult result (λ _. self.new ≡ after_finish self.old)
            (λ _. self.new ≡ after_failed_finish self.old) }
        ensures broken { OnErr result (IsTrue (has_faults self.new.faults)) }
        ensures later { self.old.faults ≤ self.new.faults }
    {
        self.calls = self.calls.saturating_add(1);
        self.finishes = self.finishes.saturating_add(1);
        self.finished = !self.fails.contains(&self.calls);
        if !self.finished {
            self.faults = self.faults.saturating_add(1);
            return Err(Failed);
        }
        Ok(())
    }
}
