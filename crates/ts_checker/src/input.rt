//! The input of `verify` as far as it was fed.

ghost use Rattle.std.specs.Prelude.{ℕ, ◌≡◌, ◌<◌, List, [], length, IfOk, OnErr, OnOk};
ghost use Rattle.ts_base.specs.Limits.{too_many};
ghost use Rattle.ts_model.specs.ModelTexts.{IsInModel, IsPart};
ghost use Rattle.ts_model.specs.declared.model.Need.TheVariants.{List as Listed};
ghost use Rattle.ts_checker.specs.Feeding.{EndsIn, HasRoomFor, HasTaken, IsOpened, IsUnrefused, TakesBytes};
ghost use Rattle.ts_checker.specs.Verified.{IsFailed, IsVerifyEnd, model_part};

use crate::opened_model::OpenedModel;
use crate::verify_end::VerifyEnd;
use std::alloc::Global;
use ts_base::{Memory, first_line};
use ts_model::{ModelText, Need};

/// What is kept of an input.
#[derive(Drop)]
pub(crate) enum Input {
    /// The model hasn't ended.
    InModel(ModelText),
    /// The part after the model.
    Behind(OpenedModel),
}

impl Input {
    /// An input before its first byte.
    pub(crate) fn new(alloc: Global) -> Input
        ensures { HasTaken [] result }
    {
        Input::InModel(ModelText::new(alloc, Need::List))
    }

    /// Takes these bytes; after a refusal it needs no memory.
    pub(crate) fn feed(&mut self, alloc: Global, piece: &[u8]) -> Result<(), Memory>
        requires { HasRoomFor self.old (length piece.now) }
        ensures taken { OnOk result (TakesBytes self.old piece.now self.new) }
        ensures unrefused { OnErr result (IsUnrefused self.old) }
    {
        let mut rest = piece;
        while !rest.is_empty() {
            let (part, left) = first_line(rest);
            self.feed_part(alloc, part)?;
            rest = left;
        }
        Ok(())
    }

    /// The first line of the certificate so far that was refused, or else the first that broke its rule.
    pub(crate) fn failed(&self) -> Option<u32>
        ensures { (bytes : List ℕ) → HasTaken bytes self.now → IsFailed bytes result }
    {
        match self {
            Input::InModel(_) => None,
            Input::Behind(opened) => opened.failed(),
        }
    }

    /// The end of the input, whose last line may have no LF.
    pub(crate) fn finish(self, alloc: Global) -> Result<VerifyEnd, Memory>
        requires { HasRoomFor self 0 }
        ensures { IfOk result (λ end. (bytes : List ℕ) → HasTaken bytes self → IsVerifyEnd bytes end) }
    {
        match self {
            Input::InModel(text) => ended(alloc, text)?.finish(),
            Input::Behind(opened) => opened.finish(),
        }
    }

    /// Takes bytes of one line, whose last may be its LF.
    fn feed_part(&mut self, alloc: Global, part: &[u8]) -> Result<(), Memory>
        requires part { IsPart part.now }
        requires room { HasRoomFor self.old (length part.now) }
        ensures taken { OnOk result (TakesBytes self.old part.now self.new) }
        ensures unrefused { OnErr result (IsUnrefused self.old) }
        ensures stays { OnOk result (IsUnrefused self.new → IsUnrefused self.old) }
    {
        let ended = match self {
            Input::Behind(opened) => return opened.feed(part),
            Input::InModel(text) => text.feed(part)?,
        };
        if ended { self.end_model(alloc) } else { Ok(()) }
    }

    /// The line `%%` after the model has come: the refusal of the model, or a checker for it, takes its place.
    fn end_model(&mut self, alloc: Global) -> Result<(), Memory>
        requires { (bytes : List ℕ) × EndsIn bytes self.old }
        ensures { OnOk result ((bytes : List ℕ) → EndsIn bytes self.old → HasTaken bytes self.new) }
    {
        let opened = match self {
            Input::InModel(text) => OpenedModel::of(alloc, text.model())?,
            Input::Behind(_) => return Ok(()),
        };
        *self = Input::Behind(opened);
        Ok(())
    }
}

/// The refusal of a model whose text ended with the input, or a checker for it.
fn ended(alloc: Global, text: ModelText) -> Result<OpenedModel, Memory>
    requires need { text.need ≡ Listed }
    requires few { (bytes : List ℕ) × IsInModel bytes text × (length bytes < too_many) }
    ensures { IfOk result (λ opened. (bytes : List ℕ) → IsInModel bytes text → IsOpened (model_part bytes) opened) }
{
    let mut text = text;
    OpenedModel::of(alloc, text.finish())
}
