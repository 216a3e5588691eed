//! The decoder: from phase letters to the ranges of cells that the occurrences leave.

ghost use Rattle.std.specs.Prelude.{◌≡◌, ◌<◌, ◌≤◌, ◌+◌, ◌-◌};
ghost use Rattle.ts_base.specs.Limits.{too_many};
ghost use Rattle.ts_transducer.specs.Decode.{begins, ends_at, start_after, held_after, emitted_at};

use crate::row::Phase;
use ts_base::Range;

/// The start that is kept and the range that is held, while a signature is read.
#[derive(Clone, Copy, Debug, PartialEq, Eq)]
pub struct Decoder {
    pub start: Option<u32>,
    pub held: Option<Range>,
}

impl Decoder {
    /// Keeps no start and holds no range.
    pub fn new() -> Decoder
        ensures start { result.start ≡ None }
        ensures held { result.held ≡ None }
    {
        Decoder {
            start: None,
            held: None,
        }
    }

    /// Reads the phase letter of sign `k`, counted from 1, and gives the range emitted, in cells counted from
    /// 1. `a` is 1 where an occurrence leaves its last cell out, else 0.
    pub fn step(&mut self, k: u32, phase: Phase, a: u8) -> Option<Range>
        requires sign { 1 ≤ k }
        requires few { k ≤ too_many }
        requires trim { a ≤ 1 }
        ensures emitted { result ≡ emitted_at phase a k self.old.start self.old.held }
        ensures start { self.new.start ≡ start_after phase k self.old.start }
        ensures held { self.new.held ≡ held_after phase a k self.old.start self.old.held }
    {
        let found = self.found_at(k, a);
        match phase {
            Phase::Out | Phase::MaybeA => None,
            Phase::OutR => {
                self.start = None;
                None
            }
            Phase::OutA => {
                self.start = None;
                self.held.take()
            }
            Phase::MaybeB => {
                self.start = Some(found.first);
                None
            }
            Phase::Found => {
                self.start = None;
                self.held = Some(found);
                None
            }
            Phase::FoundE => {
                self.start = None;
                Some(found)
            }
            Phase::Inside => {
                self.grow(found);
                None
            }
        }
    }

    /// The range of an occurrence that ends at the sign `k` now read: from the start that is kept, else from `k`.
    fn found_at(&self, k: u32, a: u8) -> Range
        requires few { k ≤ too_many }
        requires trim { a ≤ 1 }
        ensures first { result.first ≡ begins k self.now.start }
        ensures last { result.last ≡ k + 1 - a }
    {
        Range {
            first: self.start.unwrap_or(k),
            last: k + 1 - a as u32,
        }
    }

    /// Moves the end of the held range, if there is one, to that of the range now found.
    fn grow(&mut self, found: Range)
        ensures start { self.new.start ≡ self.old.start }
        ensures held { self.new.held ≡ ends_at found.last self.old.held }
    {
        self.held = self.held.map(|range| Range {
            last: found.last,
            ..range
        });
    }

    /// The range emitted at the end of the signature; none is held and no start is kept after it.
    pub fn finish(&mut self) -> Option<Range>
        ensures emitted { result ≡ self.old.held }
        ensures start { self.new.start ≡ None }
        ensures held { self.new.held ≡ None }
    {
        let last = self.held.take();
        self.start = None;
        last
    }
}
