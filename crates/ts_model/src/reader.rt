//! The model of a text that comes line by line.

ghost use Rattle.std.specs.Prelude.{ℕ, ◌≡◌, ◌≢◌, ◌+◌, ◌<◌, ◌≤◌, ◌⊎◌, List, [], true};
ghost use Rattle.std.specs.Prelude.{length, vec_len, IfOk, OnErr, OnOk, Err};
ghost use Rattle.ts_base.specs.Limits.{too_many};
ghost use Rattle.ts_token.specs.Gist.{without_end};
ghost use Rattle.ts_token.specs.Text.{cut_of, is_text};
ghost use Rattle.ts_model.specs.declared.error.ModelStop.TheVariants.{Memory as NoMemory};
ghost use Rattle.ts_model.specs.declared.model.Need.{Need};
ghost use Rattle.ts_model.specs.declared.reader.State.TheVariants.{Stopped};
ghost use Rattle.ts_model.specs.LineByLine.{HasRead, HasRoom, ReadsLine, lines_read};
ghost use Rattle.ts_model.specs.ModelReading.{ended_model, model_reading};
ghost use Rattle.ts_model.specs.Progress.{IsCalm, IsFit, IsFitState, StateEnds, StateTakes, TakesLine, state_view};
ghost use Rattle.ts_model.specs.Promise.{IsWhole, KeepsLimits};
ghost use Rattle.ts_model.specs.ModelParts.{nothing};
ghost use Rattle.ts_model.specs.Views.{draft_parts, model_parts, Reads, Tells};

use crate::draft::Draft;
use crate::error::{ModelKind, ModelStop};
use crate::model::{Model, Need};
use crate::read::{finish, needs_lists};
use std::alloc::Global;
use ts_base::Memory;
use ts_token::{Content, line_content};

/// What the lines so far state, none of them bad.
#[derive(Drop)]
pub(crate) struct Progress {
    pub alloc: Global,
    pub need: Need,
    pub count: u32,
    pub draft: Draft,
}

impl Progress {
    /// Before the first line.
    fn new(alloc: Global, need: Need) -> Result<Progress, Memory>
        ensures fit { IfOk result IsFit }
        ensures nothing { IfOk result (λ p. draft_parts p.draft ≡ nothing) }
        ensures need { IfOk result (λ p. p.need ≡ need) }
        ensures count { IfOk result (λ p. p.count ≡ 0) }
    {
        Ok(Progress {
            alloc,
            need,
            count: 0,
            draft: Draft::new(alloc, needs_lists(need))?,
        })
    }

    /// Reads the next line.
    fn line(&mut self, line: &[u8]) -> Result<(), ModelStop>
        requires fit { IsFit self.old }
        requires room { self.old.count + 1 < too_many }
        requires short { length line.now < too_many }
        ensures read { TakesLine self.old (without_end line.now) result self.new }
        ensures text { result ≡ Err NoMemory → is_text (without_end line.now) ≡ true }
    {
        self.count += 1;
        match line_content(line) {
            Content::NotText => Err(ModelStop::Refused {
                line: self.count,
                kind: ModelKind::NotText,
            }),
            Content::Skipped => Ok(()),
            Content::Words(bare) => self.draft.line(self.alloc, self.count, bare),
        }
    }

    /// The end of the text.
    fn finish(self) -> Result<Model, ModelStop>
        requires { IsFit self }
        ensures reads { Reads result (ended_model self.need self.count (draft_parts self.draft)) }
        ensures counted { IfOk result (λ m. m.n ≡ vec_len m.cells) }
        ensures windows { IfOk result (λ m. length m.windows.items ≡ length m.terms.entries) }
    {
        finish(self.alloc, self.draft, self.count, self.need)
    }
}

/// On the way, or stopped: by a bad line, or for lack of memory.
#[derive(Drop)]
pub(crate) enum State {
    Open(Progress),
    Stopped(ModelStop),
}

impl State {
    /// Reads the next line; a stop stays, and nothing else is kept after it.
    fn line(&mut self, line: &[u8])
        requires fit { IsFitState self.old }
        requires room { HasRoom (state_view self.old) }
        requires short { length line.now < too_many }
        ensures fit { IsFitState self.new }
        ensures read { StateTakes self.old (without_end line.now) self.new }
        ensures text { self.new ≡ Stopped NoMemory → (self.old ≡ Stopped NoMemory)
            ⊎ (is_text (without_end line.now) ≡ true) }
    {
        let stop = match self {
            State::Open(progress) => match progress.line(line) {
                Ok(()) => return,
                Err(stop) => stop,
            },
            State::Stopped(_) => return,
        };
        *self = State::Stopped(stop);
    }

    /// `Memory` where memory was missing.
    fn answer(&self) -> Result<(), Memory>
        ensures calm { OnOk result (IsCalm self.now) }
        ensures wanted { OnErr result (self.now ≡ Stopped NoMemory) }
    {
        match self {
            State::Open(_) => Ok(()),
            State::Stopped(ModelStop::Refused { .. }) => Ok(()),
            State::Stopped(ModelStop::Memory) => Err(Memory),
        }
    }

    /// The end of the text.
    fn finish(self) -> Result<Model, ModelStop>
        requires { IsFitState self }
        ensures ends { StateEnds self result }
        ensures counted { IfOk result (λ m. m.n ≡ vec_len m.cells) }
        ensures windows { IfOk result (λ m. length m.windows.items ≡ length m.terms.entries) }
    {
        match self {
            State::Open(progress) => progress.finish(),
            State::Stopped(stop) => Err(stop),
        }
    }
}

/// Reads the model of a text line by line. It keeps what the lines so far state; after the first bad line it keeps the
/// refusal alone. Contracts see what the lines state and how many they are, or the stop.
#[derive(Drop)]
pub struct ModelReader {
    state: State,
}

impl std::marker::Model for ModelReader {
    ghost use Rattle.std.specs.Prelude.{Result};
    ghost use Rattle.ts_model.specs.declared.error.ModelStop.{ModelStop};
    ghost use Rattle.ts_model.specs.LineByLine.{SoFar};
    ghost use Rattle.ts_model.specs.Progress.{IsFitState, state_view};

    ghost Value = { Result SoFar ModelStop };

    ghost view = { λ r. state_view r.state };

    ghost invariant = { λ r. IsFitState r.state };
}

impl ModelReader {
    /// Before the first line.
    pub fn new(alloc: Global, need: Need) -> Result<ModelReader, Memory>
        ensures { IfOk result (λ r. HasRead need [] r) }
    {
        Ok(ModelReader {
            state: State::Open(Progress::new(alloc, need)?),
        })
    }

    /// Reads the next line of fewer than 4,000,000,000 bytes, after fewer than 3,999,999,999 others: given with its LF,
    /// which the last line may lack, or as bytes that stand for it. No bytes are no line, and change nothing. `Memory`
    /// comes for a line of text alone; each line after it, and the end, is answered `Memory`.
    pub fn line(&mut self, line: &[u8]) -> Result<(), Memory>
        requires room { HasRoom self.old }
        requires short { length line.now < too_many }
        ensures read { OnOk result (ReadsLine self.old line.now self.new) }
        ensures none { line.now ≡ [] → self.new ≡ self.old }
        ensures wanted { OnErr result (self.new ≡ Err NoMemory) }
        ensures calm { OnOk result ((self.old ≢ Err NoMemory) × (self.new ≢ Err NoMemory)) }
        ensures text { OnErr result ((self.old ≡ Err NoMemory) ⊎ (is_text (without_end line.now) ≡ true)) }
        ensures counted { lines_read self.new ≤ lines_read self.old + 1 }
    {
        if line.is_empty() {
            return self.state.answer();
        }
        self.state.line(line);
        self.state.answer()
    }

    /// The model that the lines state, or the first bad line with the first kind that holds of it, as `read_model`
    /// tells them; each of these tells too that no line was answered `Memory`.
    pub fn finish(self) -> Result<Model, ModelStop>
        ensures exact { (need : Need) (text : List ℕ) → HasRead need text self →
            Reads result (model_reading need text) }
        ensures first { (need : Need) (text : List ℕ) → HasRead need text self → Tells need (cut_of text) result }
        ensures counted { IfOk result (λ m. m.n ≡ vec_len m.cells) }
        ensures windows { IfOk result (λ m. length m.windows.items ≡ length m.terms.entries) }
        ensures whole { (need : Need) (text : List ℕ) → HasRead need text self →
            IfOk result (λ m. IsWhole (model_parts m)) }
        ensures limits { (need : Need) (text : List ℕ) → HasRead need text self →
            IfOk result (λ m. KeepsLimits need (model_parts m)) }
        ensures wanted { self ≡ Err NoMemory → result ≡ Err NoMemory }
        ensures calm { IfOk result (λ m. self ≢ Err NoMemory) }
    {
        let ModelReader { state } = self;
        state.finish()
    }
}
