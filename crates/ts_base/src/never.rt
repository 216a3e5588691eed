//! A source and a sink in memory that never fail.

ghost use Rattle.std.specs.Prelude.{ℕ, ◌≡◌, ◌<◌, [], length, take, drop, min, Some, None, IfOk, IsOk, false};
ghost use Rattle.std.specs.Vec.{vec_capacity};

use crate::error::Failed;
use crate::outside::{Sink, Source, ends_after};
use std::marker::Model;

/// Gives the bytes that it was made with.
#[derive(Drop)]
pub struct NeverSource {
    bytes: Vec<u8>,
    at: usize,
    ends: u64,
}

impl Model for NeverSource {
    ghost use Rattle.std.specs.Prelude.{◌≤◌, drop, vec_len};
    ghost use Rattle.ts_base.specs.Never.{BytesState};

    ghost Value = { BytesState };

    ghost view = { λ s. record { left = drop s.at s.bytes.items; ends = s.ends } };

    ghost invariant = { λ s. s.at ≤ vec_len s.bytes };
}

impl NeverSource {
    /// Gives `bytes`, as many in a call as there is room for.
    pub fn new(bytes: Vec<u8>) -> NeverSource
        ensures { result ≡ record { left = bytes.items; ends = 0 } }
    {
        NeverSource {
            bytes,
            at: 0,
            ends: 0,
        }
    }
}

impl Source for NeverSource {
    ghost use Rattle.ts_base.specs.Never.{after_sending};

    ghost left = { λ s. Some s.left };

    ghost source_faults = { λ _. 0 };

    ghost source_broken = { λ _. false };

    ghost source_ends = { λ s. s.ends };

    fn read(&mut self, into: &mut [u8]) -> Result<usize, Failed>
        ensures never { IsOk result }
        ensures amount { IfOk result (λ m. m ≡ min (length into.new) (length self.old.left)) }
        ensures bytes { IfOk result (λ m. take m into.new ≡ take m self.old.left) }
        ensures after { IfOk result (λ m. self.new ≡ after_sending (length into.new) m self.old) }
        ensures end { IfOk result (λ m. m ≡ 0 → 0 < length into.new → self.old.left ≡ []) }
    {
        let rest = &self.bytes[self.at..];
        let count = into.len().min(rest.len());
        into[..count].copy_from_slice(&rest[..count]);
        self.at += count;
        self.ends = ends_after(into.len(), count, self.ends);
        Ok(count)
    }
}

/// Takes every piece whole, and keeps as many bytes as it has room for. It doesn't tell what it has taken.
#[derive(Drop)]
pub struct NeverSink {
    kept: Vec<u8>,
    most: usize,
    finished: bool,
    finishes: u64,
}

impl Model for NeverSink {
    ghost use Rattle.std.specs.Prelude.{◌≤◌, vec_len};
    ghost use Rattle.std.specs.Vec.{vec_capacity};
    ghost use Rattle.ts_base.specs.Never.{RoomState};

    ghost Value = { RoomState };

    ghost view = { λ s.
        record { kept = s.kept.items; most = s.most; finished = s.finished; finishes = s.finishes } };

    ghost invariant = { λ s. (vec_len s.kept ≤ s.most) × (s.most ≤ vec_capacity s.kept) };
}

impl NeverSink {
    /// Keeps bytes after those in `room`, and none beyond its capacity.
    pub fn new(room: Vec<u8>) -> NeverSink
        ensures { result ≡ record { kept = room.items; most = vec_capacity room; finished = false; finishes = 0 } }
    {
        let most = room.capacity();
        NeverSink {
            kept: room,
            most,
            finished: false,
            finishes: 0,
        }
    }

    /// The bytes that it has kept.
    pub fn kept(&self) -> &[u8]
        ensures { result.now ≡ self.now.kept }
    {
        &self.kept
    }
}

impl Sink for NeverSink {
    ghost use Rattle.ts_base.specs.Never.{after_ending, after_keeping};

    ghost taken = { λ _. None };

    ghost sink_faults = { λ _. 0 };

    ghost sink_broken = { λ _. false };

    ghost finished = { λ s. s.finished };

    ghost finishes = { λ s. s.finishes };

    fn write(&mut self, piece: &[u8]) -> Result<usize, Failed>
        ensures never { IsOk result }
        ensures whole { IfOk result (λ m. m ≡ length piece.now) }
        ensures after { self.new ≡ after_keeping piece.now self.old }
    {
        self.finished = false;
        let fits = (self.most - self.kept.len()).min(piece.len());
        let _ = self.kept.extend_from_slice(&piece[..fits]);
        Ok(piece.len())
    }

    fn finish(&mut self) -> Result<(), Failed>
        ensures never { IsOk result }
        ensures after { self.new ≡ after_ending self.old }
    {
        self.finishes = self.finishes.saturating_add(1);
        self.finished = true;
        Ok(())
    }
}
