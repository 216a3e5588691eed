//! What answers a stream as it comes.

ghost use Rattle.std.specs.Prelude.{ℕ, ◌≡◌, ◌+◌, ◌<◌, List, ◌++◌, length, None, IfOk, OnErr, OnOk};
ghost use Rattle.ts_base.specs.Limits.{too_many};
ghost use Rattle.ts_run.specs.Reply.{Reply};
ghost use Rattle.ts_run.specs.Streams.{AddsDue, AddsLines, AddsReply, Due};

use crate::status::Status;
use ts_base::Memory;

/// Takes the bytes of a stream in pieces and says what they owe.
///
/// `due` is what bytes owe before it is known what comes after them, and `reply` the whole reply to an input that ends
/// after them: both are functions of all bytes alone, however they are cut. `came` says which bytes have come.
pub trait Live {
    ghost due: { List ℕ → Due };

    ghost reply: { List ℕ → Reply };

    ghost came: { List ℕ → Self → Type 0 };

    /// Takes the next piece, appends what it adds to the text that is owed to `text`, and says with which status it
    /// has ended the stream, where it has: then nothing more is asked. All bytes together are fewer than 4,000,000,000.
    ///
    /// Without memory whole lines of what is owed were put after the text, and nothing more is asked either.
    fn take(&mut self, piece: &[u8], text: &mut Vec<u8>) -> Result<Option<Status>, Memory>
        requires some { (bytes : List ℕ) × came bytes self.old × (length bytes + length piece.now < too_many) }
        ensures put { OnOk result ((bytes : List ℕ) → came bytes self.old →
            AddsDue due bytes piece.now text.old.items text.new.items) }
        ensures ended { IfOk result (λ ended. (bytes : List ℕ) → came bytes self.old →
            (due (bytes ++ piece.now)).ended ≡ ended) }
        ensures goes_on { IfOk result (λ ended. ended ≡ None → (bytes : List ℕ) → came bytes self.old →
            came (bytes ++ piece.now) self.new) }
        ensures lines { OnErr result ((bytes : List ℕ) → came bytes self.old →
            AddsLines due bytes piece.now text.old.items text.new.items) };

    /// Ends the stream after the bytes that came, appends the rest of the reply to `text`, and says its status.
    fn finish(&mut self, text: &mut Vec<u8>) -> Result<Status, Memory>
        requires some { (bytes : List ℕ) × came bytes self.old × (length bytes < too_many) }
        ensures put { IfOk result (λ status. (bytes : List ℕ) → came bytes self.old →
            AddsReply (due bytes) (reply bytes) text.old.items text.new.items status) };
}
