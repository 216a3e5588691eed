//! `watch`: the values of a model's terms after each reading.

ghost use Rattle.std.specs.Prelude.{ℕ, ◌≡◌, List, [], ◌+◌, ◌<◌, ◌++◌, length, None, Ok, IfOk, OnErr, OnOk};
ghost use Rattle.ts_base.specs.Limits.{too_many};
ghost use Rattle.ts_model.specs.ModelTexts.{IsPart};
ghost use Rattle.ts_model.specs.Views.{model_parts};
ghost use Rattle.ts_run.specs.Refusals.{refused_window as refusal};
ghost use Rattle.ts_run.specs.Streams.{AddsDue};
ghost use Rattle.ts_run.specs.Watch.{reply_on, watch_due};
ghost use Rattle.ts_run.specs.Watching.{EndsIn, HasCome, IsOwed, IsPut, IsRefusedBy};

use crate::live::Live;
use crate::readings::{ReadingsText, push_end};
use crate::refusal::{refused_model, refused_window};
use crate::reply::push_reply;
use crate::status::Status;
use std::alloc::Global;
use ts_base::{Memory, first_line};
use ts_model::{Model, ModelStop, ModelText, Need};

/// Where a stream has led.
#[derive(Drop)]
pub(crate) enum Stage {
    /// The model hasn't ended.
    InModel(ModelText),
    /// After the line `%%`.
    InReadings(ReadingsText),
}

/// Takes a model, a line `%%` and readings, one a line, and answers each with the values of the model's terms on all
/// readings so far. Of the model it keeps what its whole lines state, of the readings what a monitor keeps, and of the
/// unfinished line a short form.
#[derive(Drop)]
pub(crate) struct Watching {
    pub alloc: Global,
    pub stage: Stage,
}

impl Watching {
    /// A stream before its first byte.
    pub(crate) fn new(alloc: Global) -> Watching
        ensures { HasCome [] result.stage }
    {
        Watching {
            alloc,
            stage: Stage::InModel(ModelText::new(alloc, Need::Values)),
        }
    }

    /// Takes bytes of one line, whose last may be its LF. After `Memory` the text is as it was.
    fn take_part(&mut self, part: &[u8], text: &mut Vec<u8>) -> Result<Option<Status>, Memory>
        requires part { IsPart part.now }
        requires some { (bytes : List ℕ) × HasCome bytes self.old.stage × (length bytes + length part.now < too_many) }
        ensures put { OnOk result ((bytes : List ℕ) → HasCome bytes self.old.stage →
            AddsDue watch_due bytes part.now text.old.items text.new.items) }
        ensures ended { IfOk result (λ ended. (bytes : List ℕ) → HasCome bytes self.old.stage →
            (watch_due (bytes ++ part.now)).ended ≡ ended) }
        ensures goes_on { IfOk result (λ ended. ended ≡ None → (bytes : List ℕ) → HasCome bytes self.old.stage →
            HasCome (bytes ++ part.now) self.new.stage) }
        ensures kept { OnErr result (text.new.items ≡ text.old.items) }
    {
        let ended = match &mut self.stage {
            Stage::InReadings(readings) => return readings.take(part, text),
            Stage::InModel(model) => model.feed(part)?,
        };
        if ended {
            self.end_model(text)
        } else {
            Ok(None)
        }
    }

    /// The line `%%` has come: readings of the model take the model's place, or it is refused, or a window in it.
    fn end_model(&mut self, text: &mut Vec<u8>) -> Result<Option<Status>, Memory>
        requires some { (bytes : List ℕ) × EndsIn bytes self.old.stage }
        ensures put { IfOk result (λ ended. (bytes : List ℕ) → EndsIn bytes self.old.stage →
            IsOwed (watch_due bytes) text.old.items text.new.items ended) }
        ensures goes_on { IfOk result (λ ended. ended ≡ None → (bytes : List ℕ) → EndsIn bytes self.old.stage →
            HasCome bytes self.new.stage) }
        ensures kept { OnErr result (text.new.items ≡ text.old.items) }
    {
        let read = match &mut self.stage {
            Stage::InModel(model) => model.model(),
            Stage::InReadings(_) => unreachable!(),
        };
        match read {
            Ok(model) => {
                if model.has_window() {
                    let status = push_window(self.alloc, text)?;
                    return Ok(Some(status));
                }
                self.stage = Stage::InReadings(ReadingsText::new(self.alloc, &model)?);
                Ok(None)
            }
            Err(stop) => {
                let status = push_stop(self.alloc, text, stop)?;
                Ok(Some(status))
            }
        }
    }
}

impl Live for Watching {
    ghost use Rattle.ts_run.specs.Watch.{watch_due, watch_reply};
    ghost use Rattle.ts_run.specs.Watching.{HasCome};

    ghost due = { watch_due };

    ghost reply = { watch_reply };

    ghost came = { λ bytes w. HasCome bytes w.stage };

    fn take(&mut self, piece: &[u8], text: &mut Vec<u8>) -> Result<Option<Status>, Memory> {
        let mut rest = piece;
        while !rest.is_empty() {
            let (part, left) = first_line(rest);
            if let Some(status) = self.take_part(part, text)? {
                return Ok(Some(status));
            }
            rest = left;
        }
        Ok(None)
    }

    fn finish(&mut self, text: &mut Vec<u8>) -> Result<Status, Memory> {
        let read = match &mut self.stage {
            Stage::InReadings(readings) => return readings.end(text),
            Stage::InModel(model) => model.finish(),
        };
        match read {
            Ok(model) => push_none(self.alloc, text, &model),
            Err(stop) => push_stop(self.alloc, text, stop),
        }
    }
}

/// Appends the end without readings to the text, or the refusal of a window.
fn push_none(alloc: Global, text: &mut Vec<u8>, model: &Model) -> Result<Status, Memory>
    ensures { IfOk result (λ status.
        IsPut (reply_on (Ok (model_parts model.now)) []) text.old.items text.new.items status) }
{
    if model.has_window() {
        push_window(alloc, text)
    } else {
        push_end(alloc, text, 0)
    }
}

/// Appends the refusal of a window to the text, which is as it was after `Memory`.
fn push_window(alloc: Global, text: &mut Vec<u8>) -> Result<Status, Memory>
    ensures put { IfOk result (λ status. IsPut refusal text.old.items text.new.items status) }
    ensures kept { OnErr result (text.new.items ≡ text.old.items) }
{
    push_reply(text, &refused_window(alloc)?)
}

/// Appends the refusal of the model to the text, which is as it was after `Memory`.
fn push_stop(alloc: Global, text: &mut Vec<u8>, stop: ModelStop) -> Result<Status, Memory>
    ensures put { IfOk result (λ status. IsRefusedBy stop text.old.items text.new.items status) }
    ensures kept { OnErr result (text.new.items ≡ text.old.items) }
{
    match stop {
        ModelStop::Refused { line, kind } => push_reply(text, &refused_model(alloc, line, kind)?),
        ModelStop::Memory => Err(Memory),
    }
}
