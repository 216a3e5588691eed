//! Where bytes come from and where they go.

ghost use Rattle.std.specs.Prelude.{ℕ, ◌≡◌, ◌<◌, ◌≤◌, Bool, IsTrue, false, List, length, take};
ghost use Rattle.std.specs.Prelude.{Option, IfOk, MatchResult, OnOk, OnErr};
ghost use Rattle.ts_base.specs.Outside.{AtEnd, Rose, ends_after, one_more, put_back, taken_more};

use crate::error::Failed;

/// Gives bytes: `left` are those that it still has, where it tells them, `source_faults` counts its failed reads, and
/// `source_ends` those that found its end.
///
/// A read that failed leaves the source broken, and no other read promises that: whoever promises it has not read
/// again. So it is with the end: whoever promises that it was found once, and never before a read that failed, reads
/// no more once it is found.
pub trait Source {
    ghost left: { Self → Option (List ℕ) };

    ghost source_faults: { Self → ℕ };

    ghost source_broken: { Self → Bool };

    ghost source_ends: { Self → ℕ };

    /// Moves the first of the bytes left to the front of `into` and says how many.
    ///
    /// Into a buffer with room it gives none only at the end, and has found the end then; a read that gives some, or
    /// fails, has not. `Failed` comes only where the count of faults rose, and leaves the bytes as they were; a read
    /// that goes well leaves the count. The count never falls.
    fn read(&mut self, into: &mut [u8]) -> Result<usize, Failed>
        ensures within { IfOk result (λ m. m ≤ length into.new) }
        ensures gave { IfOk result (λ m. left self.old ≡ put_back (take m into.new) (left self.new)) }
        ensures end { IfOk result (λ m. m ≡ 0 → 0 < length into.new → AtEnd (left self.old)) }
        ensures kept { OnErr result (left self.new ≡ left self.old) }
        ensures cause { OnErr result (Rose (source_faults self.old) (source_faults self.new)) }
        ensures calm { OnOk result (source_faults self.new ≡ source_faults self.old) }
        ensures broken { OnErr result (IsTrue (source_broken self.new)) }
        ensures found { IfOk result (λ m. m ≡ 0 → 0 < length into.new →
            source_ends self.new ≡ one_more (source_ends self.old)) }
        ensures before { MatchResult result (λ m. 0 < m → source_ends self.new ≡ source_ends self.old)
            (λ _. source_ends self.new ≡ source_ends self.old) }
        ensures later { source_faults self.old ≤ source_faults self.new };
}

/// Takes bytes: `taken` are those that it has taken, where it tells them, `sink_faults` counts its failed calls, and
/// `finishes` its calls of `finish`. It is `finished` after a `finish` that went well, until more is written.
///
/// A call that failed leaves the sink broken, and no other call promises that: whoever promises it at the end has not
/// called again.
pub trait Sink {
    ghost taken: { Self → Option (List ℕ) };

    ghost sink_faults: { Self → ℕ };

    ghost sink_broken: { Self → Bool };

    ghost finished: { Self → Bool };

    ghost finishes: { Self → ℕ };

    /// Takes the first bytes of `piece` and says how many: of a piece that isn't empty at least one.
    ///
    /// `Failed` comes only where the count of faults rose, and nothing was taken then; a write that goes well leaves
    /// the count. The count never falls. The sink isn't finished after it.
    fn write(&mut self, piece: &[u8]) -> Result<usize, Failed>
        ensures within { IfOk result (λ m. m ≤ length piece.now) }
        ensures took { IfOk result (λ m. taken self.new ≡ taken_more (taken self.old) (take m piece.now)) }
        ensures some { IfOk result (λ m. 0 < length piece.now → 0 < m) }
        ensures kept { OnErr result (taken self.new ≡ taken self.old) }
        ensures cause { OnErr result (Rose (sink_faults self.old) (sink_faults self.new)) }
        ensures calm { OnOk result (sink_faults self.new ≡ sink_faults self.old) }
        ensures broken { OnErr result (IsTrue (sink_broken self.new)) }
        ensures unfinished { finished self.new ≡ false }
        ensures writes { finishes self.new ≡ finishes self.old }
        ensures later { sink_faults self.old ≤ sink_faults self.new };

    /// Ends the writing, and changes nothing that was taken. The sink is finished exactly where that went well.
    ///
    /// `Failed` comes only where the count of faults rose; a call that goes well leaves it. The count never falls.
    fn finish(&mut self) -> Result<(), Failed>
        ensures kept { taken self.new ≡ taken self.old }
        ensures cause { OnErr result (Rose (sink_faults self.old) (sink_faults self.new)) }
        ensures calm { OnOk result (sink_faults self.new ≡ sink_faults self.old) }
        ensures broken { OnErr result (IsTrue (sink_broken self.new)) }
        ensures done { OnOk result (IsTrue (finished self.new)) }
        ensures undone { OnErr result (finished self.new ≡ false) }
        ensures once { finishes self.new ≡ one_more (finishes self.old) }
        ensures later { sink_faults self.old ≤ sink_faults self.new };
}

/// The count of the reads that found the end, after one that gave `given` bytes into a buffer with this room.
pub(crate) fn ends_after(room: usize, given: usize, ends: u64) -> u64
    ensures value { result ≡ ends_after room given ends }
    ensures found { given ≡ 0 → 0 < room → result ≡ one_more ends }
    ensures before { 0 < given → result ≡ ends }
{
    if room > 0 && given == 0 {
        ends.saturating_add(1)
    } else {
        ends
    }
}
