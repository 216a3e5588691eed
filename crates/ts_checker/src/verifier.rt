//! An input of `verify`, fed in pieces.

ghost use Rattle.std.specs.Prelude.{ℕ, ◌≡◌, ◌⊎◌, ◌+◌, ◌<◌, ◌≤◌, ◌++◌, List, [], length, IfOk, IsTrue, OnErr, OnOk, false};
ghost use Rattle.ts_base.specs.Limits.{too_many};
ghost use Rattle.ts_checker.specs.Feeding.{HasFed, IsUnrefused};
ghost use Rattle.ts_checker.specs.Verified.{IsFailed, IsVerifyEnd};

use crate::input::Input;
use crate::verify_end::VerifyEnd;
use std::alloc::Global;
use ts_base::Memory;

/// Takes a model, a line `%%` and a certificate, in pieces that may be cut anywhere; what it answers depends on all
/// bytes together. Of the model it keeps what its whole lines state, from the first bad one on the refusal alone, and
/// of its unfinished line what a `ShortLine` keeps; then of the unfinished line of the certificate at most 4,615 bytes
/// and a piece. Contracts see what is kept, and whether memory was missing.
#[derive(Drop)]
pub struct Verifier {
    alloc: Global,
    input: Input,
    count: usize,
    missing: bool,
}

impl std::marker::Model for Verifier {
    ghost use Rattle.std.specs.Prelude.{◌<◌};
    ghost use Rattle.ts_base.specs.Limits.{too_many};
    ghost use Rattle.ts_checker.specs.Feeding.{IsReady, Verifying};

    ghost Value = { Verifying };

    ghost view = { λ v. record { input = v.input; count = v.count; missing = v.missing } };

    ghost invariant = { λ v. IsReady v.missing v.count v.input × (v.count < too_many) };
}

impl Verifier {
    /// A verifier before the first byte of its input.
    pub fn new(alloc: Global) -> Verifier
        ensures fed { HasFed [] result }
        ensures calm { result.missing ≡ false }
        ensures none { result.count ≡ 0 }
    {
        Verifier {
            alloc,
            input: Input::new(alloc),
            count: 0,
            missing: false,
        }
    }

    /// How many bytes were fed.
    pub fn count(&self) -> usize
        ensures count { result ≡ self.now.count }
        ensures few { result < too_many }
    {
        self.count
    }

    /// Takes more bytes, all together fewer than 4,000,000,000. After `Memory` each further piece is answered `Memory`,
    /// and so is the end. After a refusal nothing more is kept, so `Memory` doesn't come.
    pub fn feed(&mut self, piece: &[u8]) -> Result<(), Memory>
        requires { self.old.count + length piece.now < too_many }
        ensures fed { OnOk result ((bytes : List ℕ) → HasFed bytes self.old → HasFed (bytes ++ piece.now) self.new) }
        ensures wanted { OnErr result (IsTrue self.new.missing) }
        ensures calm { OnOk result ((self.old.missing ≡ false) × (self.new.missing ≡ false)) }
        ensures counted { self.new.count ≤ self.old.count + length piece.now }
        ensures unrefused { OnErr result (IsTrue self.old.missing ⊎ IsUnrefused self.old.input) }
    {
        if self.missing {
            return Err(Memory);
        }
        self.count += piece.len();
        match self.input.feed(self.alloc, piece) {
            Ok(()) => Ok(()),
            Err(Memory) => {
                self.missing = true;
                Err(Memory)
            }
        }
    }

    /// Where the model is valid: the first line of the certificate, among those ended by LF so far, that is against the
    /// grammar or has other counts, or else the first that breaks its rule. No piece was answered `Memory`.
    pub fn failed(&self) -> Option<u32>
        requires { self.now.missing ≡ false }
        ensures { (bytes : List ℕ) → HasFed bytes self.now → IsFailed bytes result }
    {
        self.input.failed()
    }

    /// The refusal of the model, or the verdict on the certificate after it. What is accepted is true of the model.
    pub fn finish(self) -> Result<VerifyEnd, Memory>
        ensures end { IfOk result (λ end. (bytes : List ℕ) → HasFed bytes self → IsVerifyEnd bytes end) }
        ensures calm { IfOk result (λ end. self.missing ≡ false) }
    {
        let Verifier {
            alloc,
            input,
            missing,
            ..
        } = self;
        if missing {
            return Err(Memory);
        }
        input.finish(alloc)
    }
}
