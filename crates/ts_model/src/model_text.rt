//! The text of a model that comes in parts of lines, up to the line `%%`.

ghost use Rattle.std.specs.Prelude.{ℕ, ◌≡◌, ◌+◌, ◌<◌, List, [], length, IfOk, None, OnOk};
ghost use Rattle.ts_base.specs.Limits.{too_many};
ghost use Rattle.ts_token.specs.Halves.{halves_of};
ghost use Rattle.ts_model.specs.LineByLine.{HasRead};
ghost use Rattle.ts_model.specs.ModelReading.{model_reading};
ghost use Rattle.ts_model.specs.ModelTexts.{AtLine, EndsSo, HasLines, IsAt, IsFinished, IsInModel, IsMark, IsPart};
ghost use Rattle.ts_model.specs.ModelTexts.{MayRead, ReadsLast, ReadsOn, TakesInModel};
ghost use Rattle.ts_model.specs.Views.{Reads};

use crate::error::ModelStop;
use crate::model::{Model, Need};
use crate::reader::ModelReader;
use std::alloc::Global;
use ts_base::{Memory, without_lf};
use ts_token::ShortLine;

/// Takes the lines of a model in parts, and keeps what the whole ones state, and a short form of the line that has no
/// LF yet. The model ends with the line `%%`, or with the text.
#[derive(Drop)]
pub struct ModelText {
    alloc: Global,
    need: Need,
    reader: Option<ModelReader>,
    line: ShortLine,
}

impl ModelText {
    /// Before the first byte.
    pub fn new(alloc: Global, need: Need) -> ModelText
        ensures taken { IsInModel [] result }
        ensures need { result.need ≡ need }
    {
        ModelText {
            alloc,
            need,
            reader: None,
            line: ShortLine::new(alloc),
        }
    }

    /// Takes bytes of one line, whose last may be its LF, and tells whether the line `%%` has come; all bytes together
    /// are fewer than 4,000,000,000.
    pub fn feed(&mut self, part: &[u8]) -> Result<bool, Memory>
        requires part { IsPart part.now }
        requires few { (bytes : List ℕ) × IsInModel bytes self.old × (length bytes + length part.now < too_many) }
        ensures taken { IfOk result (λ ended. TakesInModel self.old part.now ended self.new) }
        ensures need { self.new.need ≡ self.old.need }
    {
        self.line.feed(part)?;
        match without_lf(part) {
            None => Ok(false),
            Some(_) => self.end_line(),
        }
    }

    /// The model whose line `%%` has come, or its first bad line with the first kind that holds of it.
    pub fn model(&mut self) -> Result<Model, ModelStop>
        requires { (bytes : List ℕ) × AtLine IsMark bytes self.old }
        ensures { (bytes : List ℕ) → AtLine IsMark bytes self.old → EndsSo self.old.need bytes result }
    {
        reader_of(self.alloc, self.need, self.reader.take())?.finish()
    }

    /// The model of the whole text, whose last line may lack its LF, or its first bad line.
    pub fn finish(&mut self) -> Result<Model, ModelStop>
        requires { (bytes : List ℕ) × IsInModel bytes self.old × (length bytes < too_many) }
        ensures { (bytes : List ℕ) → IsInModel bytes self.old →
            Reads result (model_reading self.old.need (halves_of bytes).model) }
    {
        self.last_line()?;
        reader_of(self.alloc, self.need, self.reader.take())?.finish()
    }

    /// The line has its LF: it is one more of the model, or the line `%%`.
    fn end_line(&mut self) -> Result<bool, Memory>
        requires { (bytes : List ℕ) × AtLine IsFinished bytes self.old × (length bytes < too_many) }
        ensures at { IfOk result (λ ended. (bytes : List ℕ) → AtLine IsFinished bytes self.old →
            IsAt bytes ended self.new) }
        ensures need { self.new.need ≡ self.old.need }
    {
        if self.line.is_separator() {
            return Ok(true);
        }
        self.read_line()?;
        self.line.clear();
        Ok(false)
    }

    /// A last line without an LF is one of the model, unless it is the line `%%`.
    fn last_line(&mut self) -> Result<(), Memory>
        requires { (bytes : List ℕ) × IsInModel bytes self.old × (length bytes < too_many) }
        ensures last { OnOk result (ReadsLast self.old self.new) }
        ensures need { self.new.need ≡ self.old.need }
    {
        if self.line.is_empty() || self.line.is_separator() {
            return Ok(());
        }
        self.read_line()
    }

    /// Gives the line to the reader.
    fn read_line(&mut self) -> Result<(), Memory>
        requires { MayRead self.old }
        ensures reads { OnOk result (ReadsOn self.old self.new) }
        ensures need { self.new.need ≡ self.old.need }
    {
        match &mut self.reader {
            Some(reader) => reader.line(self.line.bytes()),
            None => self.read_first_line(),
        }
    }

    /// Makes the reader, and gives the first line to it. It is no part of `read_line`, which would then have room for a
    /// reader on the stack at every line.
    fn read_first_line(&mut self) -> Result<(), Memory>
        requires none { self.old.reader ≡ None }
        requires may { MayRead self.old }
        ensures reads { OnOk result (ReadsOn self.old self.new) }
        ensures need { self.new.need ≡ self.old.need }
    {
        let mut reader = ModelReader::new(self.alloc, self.need)?;
        reader.line(self.line.bytes())?;
        self.reader = Some(reader);
        Ok(())
    }
}

/// The reader, which is made where no line came.
fn reader_of(alloc: Global, need: Need, reader: Option<ModelReader>) -> Result<ModelReader, Memory>
    ensures { IfOk result (λ r. (text : List ℕ) → HasLines need text reader → HasRead need text r) }
{
    match reader {
        Some(reader) => Ok(reader),
        None => ModelReader::new(alloc, need),
    }
}
