//! The refusal of the model in an input of `verify`, or a checker for it, once its text has ended.

ghost use Rattle.std.specs.Prelude.{ℕ, List, length, Err, IfOk, OnErr, OnOk};
ghost use Rattle.ts_model.specs.ModelReading.{model_reading};
ghost use Rattle.ts_model.specs.ModelTexts.{IsPart};
ghost use Rattle.ts_model.specs.Views.{Reads};
ghost use Rattle.ts_model.specs.declared.model.Need.TheVariants.{List as Listed};
ghost use Rattle.ts_checker.specs.Feeding.{EndsOpened, HasFew, IsCalm, IsGoing, IsOpened, OpenedFails, TakesPart};

use crate::judging::Judging;
use crate::verify_end::VerifyEnd;
use std::alloc::Global;
use ts_base::Memory;
use ts_model::{Model, ModelKind, ModelStop};

/// The refusal of a model, or the judging of certificates for it.
#[derive(Drop)]
pub(crate) enum OpenedModel {
    Refused { line: u32, kind: ModelKind },
    Judging(Judging),
}

impl OpenedModel {
    /// The refusal of the model that was read, or a checker for it.
    pub(crate) fn of(alloc: Global, read: Result<Model, ModelStop>) -> Result<OpenedModel, Memory>
        requires { (text : List ℕ) × Reads read (model_reading Listed text) }
        ensures { IfOk result (λ o. (text : List ℕ) → Reads read (model_reading Listed text) → IsOpened text o) }
    {
        match read {
            Ok(model) => Ok(OpenedModel::Judging(Judging::new(alloc, model)?)),
            Err(stop) => refused(stop),
        }
    }

    /// Takes bytes of one line of the certificate, whose last may be its LF; a refusal stays, and needs no memory.
    pub(crate) fn feed(&mut self, part: &[u8]) -> Result<(), Memory>
        requires part { IsPart part.now }
        requires calm { IsCalm self.old }
        requires few { HasFew self.old (length part.now) }
        ensures taken { OnOk result (TakesPart self.old part.now self.new) }
        ensures calm { OnOk result (IsCalm self.new) }
        ensures going { OnErr result (IsGoing self.old) }
        ensures stays { OnOk result (IsGoing self.new → IsGoing self.old) }
    {
        match self {
            OpenedModel::Refused { .. } => Ok(()),
            OpenedModel::Judging(judging) => judging.feed(part),
        }
    }

    /// The first line so far that was refused, or else the first that broke its rule; none of a refused model.
    pub(crate) fn failed(&self) -> Option<u32>
        ensures { OpenedFails self.now result }
    {
        match self {
            OpenedModel::Refused { .. } => None,
            OpenedModel::Judging(judging) => judging.failed(),
        }
    }

    /// The end of the input.
    pub(crate) fn finish(self) -> Result<VerifyEnd, Memory>
        requires calm { IsCalm self }
        requires few { HasFew self 0 }
        ensures { IfOk result (λ end. EndsOpened self end) }
    {
        match self {
            OpenedModel::Refused { line, kind } => Ok(VerifyEnd::Model { line, kind }),
            OpenedModel::Judging(judging) => Ok(VerifyEnd::Verdict(judging.finish()?)),
        }
    }
}

/// The refusal of a model, unless memory was missing.
fn refused(stop: ModelStop) -> Result<OpenedModel, Memory>
    ensures { IfOk result (λ o. (text : List ℕ) → Reads (Err stop) (model_reading Listed text) → IsOpened text o) }
{
    match stop {
        ModelStop::Refused { line, kind } => Ok(OpenedModel::Refused { line, kind }),
        ModelStop::Memory => Err(Memory),
    }
}
