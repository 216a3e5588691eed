//! A checker at work on the bytes of a certificate.

ghost use Rattle.std.specs.Prelude.{ℕ, ◌≡◌, ◌+◌, ◌<◌, ◌≤◌, List, [], length, IfOk, OnErr, OnOk, None, false};
ghost use Rattle.ts_base.specs.Limits.{too_many};
ghost use Rattle.ts_base.specs.Words.{strict_lines};
ghost use Rattle.ts_model.specs.ModelTexts.{IsPart};
ghost use Rattle.ts_model.specs.Promise.{IsWhole, KeepsLimits};
ghost use Rattle.ts_model.specs.Views.{model_parts};
ghost use Rattle.ts_model.specs.declared.model.Need.TheVariants.{List as Listed};
ghost use Rattle.ts_checker.specs.Feeding.{HasRead, JudgesLine, Reads};
ghost use Rattle.ts_checker.specs.Verified.{FailsFirst, IsShownBy, ended_lines};

use crate::certificate_line::CertificateLine;
use crate::checker::Checker;
use crate::verdict::Verdict;
use std::alloc::Global;
use ts_base::{Memory, without_lf};
use ts_compile::compile_model;
use ts_model::Model;

/// A checker, and what is kept of the line that has no LF yet. After a line that was refused nothing more is kept or
/// judged.
#[derive(Drop)]
pub(crate) struct Judging {
    pub checker: Checker,
    pub line: CertificateLine,
}

impl Judging {
    /// A checker of certificates for this model, before the first byte of one.
    pub(crate) fn new(alloc: Global, model: Model) -> Result<Judging, Memory>
        requires whole { IsWhole (model_parts model) }
        requires limits { KeepsLimits Listed (model_parts model) }
        ensures model { IfOk result (λ j. j.checker.model ≡ model_parts model) }
        ensures read { IfOk result (λ j. HasRead [] j) }
    {
        let program = compile_model(alloc, &model)?;
        Ok(Judging {
            checker: Checker::new(alloc, model, program)?,
            line: CertificateLine::new(alloc),
        })
    }

    /// Takes bytes of one line, whose last may be its LF.
    pub(crate) fn feed(&mut self, part: &[u8]) -> Result<(), Memory>
        requires part { IsPart part.now }
        requires calm { self.old.checker.missing ≡ false }
        requires few { (bytes : List ℕ) × HasRead bytes self.old × (length bytes + length part.now < too_many) }
        ensures read { OnOk result (Reads self.old part.now self.new) }
        ensures model { OnOk result (self.new.checker.model ≡ self.old.checker.model) }
        ensures calm { OnOk result (self.new.checker.missing ≡ false) }
        ensures going { OnErr result (self.old.checker.reading.stop ≡ None) }
        ensures stays { OnOk result (self.new.checker.reading.stop ≡ None → self.old.checker.reading.stop ≡ None) }
    {
        if self.checker.refused_line().is_some() {
            return Ok(());
        }
        match without_lf(part) {
            None => self.line.feed(part),
            Some(last) => {
                self.line.feed(last)?;
                self.end_line()
            }
        }
    }

    /// The first line so far that was refused, or else the first that broke its rule.
    pub(crate) fn failed(&self) -> Option<u32>
        ensures { (bytes : List ℕ) → HasRead bytes self.now →
            FailsFirst self.now.checker.model (ended_lines bytes) result }
    {
        match self.checker.refused_line() {
            Some(line) => Some(line),
            None => self.checker.broken_line(),
        }
    }

    /// The verdict after the last byte. A last line without an LF is none of a certificate, whatever it says.
    pub(crate) fn finish(self) -> Result<Verdict, Memory>
        requires calm { self.checker.missing ≡ false }
        requires few { (bytes : List ℕ) × HasRead bytes self × (length bytes + 0 < too_many) }
        ensures { IfOk result (λ verdict. (bytes : List ℕ) → HasRead bytes self →
            IsShownBy (strict_lines bytes) self.checker.model verdict) }
    {
        let Judging { mut checker, line } = self;
        if checker.refused_line().is_none() && !line.is_empty() {
            checker.feed_line(b"?")?;
        }
        Ok(checker.finish())
    }
}

impl Judging {
    /// Ends the line, and has it judged.
    fn end_line(&mut self) -> Result<(), Memory>
        requires { self.old.checker.reading.next ≤ too_many }
        ensures judged { OnOk result (JudgesLine self.old self.new) }
        ensures cleared { OnOk result (self.new.line.bytes.items ≡ []) }
        ensures model { OnOk result (self.new.checker.model ≡ self.old.checker.model) }
        ensures calm { OnOk result (self.new.checker.missing ≡ false) }
    {
        self.line.end()?;
        self.checker.feed_line(&self.line.bytes)?;
        self.line.clear();
        Ok(())
    }
}
