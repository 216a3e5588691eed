//! The readings of a stream, one a line, and the values that they add.

ghost use Rattle.std.specs.Prelude.{ℕ, ℤ, ◌≡◌, ◌<◌, ◌≤◌, ◌+◌, ◌++◌, ◌∷◌, List, [], length, false, None, IfOk, OnErr, OnOk};
ghost use Rattle.std.specs.Fmt.{decimal};
ghost use Rattle.ts_base.specs.Limits.{most_terms, too_many};
ghost use Rattle.ts_base.specs.Text.{ext_text};
ghost use Rattle.ts_model.specs.ModelParts.{ModelParts};
ghost use Rattle.ts_model.specs.ModelTexts.{IsPart};
ghost use Rattle.ts_model.specs.Promise.{IsWhole};
ghost use Rattle.ts_model.specs.TermValue.{has_window};
ghost use Rattle.ts_model.specs.Views.{model_parts};
ghost use Rattle.ts_monitor.specs.Monitors.{StandsFor};
ghost use Rattle.ts_token.specs.Gist.{without_end};
ghost use Rattle.ts_token.specs.Short.{IsShort};
ghost use Rattle.ts_run.specs.Reply.{reply_of};
ghost use Rattle.ts_run.specs.Streams.{AddsDue, AddsReply};
ghost use Rattle.ts_run.specs.Watch.{end_of, line_gives, readings_due, readings_reply, refused_reading, values_line};
ghost use Rattle.ts_run.specs.Watching.{AreReadings, HasTerms, IsCellReading, IsNext, MayRead, ReadsLine, given};

use crate::reply::{Reply, push_reply};
use crate::status::Status;
use crate::verify::line_reply;
use std::alloc::Global;
use ts_base::{Ext, Memory, push_ext, push_number, without_lf};
use ts_compile::compile_model;
use ts_model::{Model, value_of};
use ts_monitor::Monitor;
use ts_token::{ShortLine, Single, single_word};

/// The most readings that are taken.
const MOST_READINGS: u32 = 100_000;

/// What a line gives: nothing where it is skipped, a reading where it has one number that a cell may have.
#[derive(Clone, Copy, Debug, PartialEq, Eq)]
pub(crate) enum Reading {
    Skipped,
    Value(i64),
    Bad,
}

/// The readings so far: a monitor has taken those of the whole lines, and of the line that has no LF yet a short form
/// is kept.
#[derive(Drop)]
pub(crate) struct ReadingsText {
    pub alloc: Global,
    pub monitor: Monitor,
    pub lines: u32,
    pub line: ShortLine,
}

impl ReadingsText {
    /// Before the first reading. No term looks at some of the cells alone.
    pub(crate) fn new(alloc: Global, model: &Model) -> Result<ReadingsText, Memory>
        requires few { length (model_parts model.now).terms ≤ most_terms }
        requires whole { IsWhole (model_parts model.now) }
        requires windowless { has_window (model_parts model.now) ≡ false }
        ensures stand { IfOk result (λ r. AreReadings (model_parts model.now) [] r) }
    {
        Ok(ReadingsText {
            alloc,
            monitor: Monitor::new(alloc, compile_model(alloc, model)?)?,
            lines: 0,
            line: ShortLine::new(alloc),
        })
    }

    /// Takes bytes of one line, whose last may be its LF, and appends the line that this adds to the text; says the
    /// status where the line is bad. After `Memory` the text is as it was.
    pub(crate) fn take(&mut self, part: &[u8], text: &mut Vec<u8>) -> Result<Option<Status>, Memory>
        requires part { IsPart part.now }
        requires some { (m : ModelParts) × (bytes : List ℕ) × AreReadings m bytes self.old
            × (length bytes + length part.now < too_many) }
        ensures put { OnOk result ((m : ModelParts) (bytes : List ℕ) → AreReadings m bytes self.old →
            AddsDue (readings_due m) bytes part.now text.old.items text.new.items) }
        ensures ended { IfOk result (λ ended. (m : ModelParts) (bytes : List ℕ) → AreReadings m bytes self.old →
            (readings_due m (bytes ++ part.now)).ended ≡ ended) }
        ensures goes_on { IfOk result (λ ended. ended ≡ None → (m : ModelParts) (bytes : List ℕ) →
            AreReadings m bytes self.old → AreReadings m (bytes ++ part.now) self.new) }
        ensures kept { OnErr result (text.new.items ≡ text.old.items) }
    {
        self.line.feed(part)?;
        match without_lf(part) {
            None => Ok(None),
            Some(_) => self.end_line(text),
        }
    }

    /// The end of the input: a last line without an LF is read, and the last line is put after the text.
    pub(crate) fn end(&mut self, text: &mut Vec<u8>) -> Result<Status, Memory>
        requires some { (m : ModelParts) × (bytes : List ℕ) × AreReadings m bytes self.old
            × (length bytes < too_many) }
        ensures put { IfOk result (λ status. (m : ModelParts) (bytes : List ℕ) → AreReadings m bytes self.old →
            AddsReply (readings_due m bytes) (readings_reply m bytes) text.old.items text.new.items status) }
    {
        if self.line.is_empty() {
            return push_end(self.alloc, text, self.monitor.count());
        }
        match self.end_line(text)? {
            Some(status) => Ok(status),
            None => push_end(self.alloc, text, self.monitor.count()),
        }
    }

    /// Ends the line: takes its reading, or says the status where the line is bad.
    fn end_line(&mut self, text: &mut Vec<u8>) -> Result<Option<Status>, Memory>
        requires { MayRead self.old }
        ensures reads { IfOk result (λ ended. ReadsLine self.old text.old.items text.new.items ended self.new) }
        ensures kept { OnErr result (text.new.items ≡ text.old.items) }
    {
        let line = self.line.bytes();
        match self.next_reading(line) {
            Reading::Skipped => {
                self.next_line();
                Ok(None)
            }
            Reading::Value(v) => {
                self.monitor.take(v);
                push_values(text, &self.monitor)?;
                self.next_line();
                Ok(None)
            }
            Reading::Bad => {
                let status = push_refusal(self.alloc, text, self.lines + 1)?;
                Ok(Some(status))
            }
        }
    }

    /// Begins the next line.
    fn next_line(&mut self)
        requires few { self.old.lines < too_many }
        ensures lines { self.new.lines ≡ self.old.lines + 1 }
        ensures monitor { self.new.monitor ≡ self.old.monitor }
        ensures line { IsShort [] self.new.line }
    {
        self.lines += 1;
        self.line.clear();
    }

    /// What the line gives; a reading beyond the last that may come makes it bad.
    fn next_reading(&self, line: &[u8]) -> Reading
        requires { length line.now < too_many }
        ensures { IsNext self.now.monitor.count (line_gives (without_end line.now)) result }
    {
        match reading_in(line) {
            Reading::Skipped => Reading::Skipped,
            Reading::Value(v) => {
                if self.monitor.count() < MOST_READINGS {
                    Reading::Value(v)
                } else {
                    Reading::Bad
                }
            }
            Reading::Bad => Reading::Bad,
        }
    }
}

/// What a line gives, which is given with its LF, that a last line may lack.
fn reading_in(line: &[u8]) -> Reading
    requires { length line.now < too_many }
    ensures gives { given result ≡ line_gives (without_end line.now) }
    ensures cell { IsCellReading result }
{
    match single_word(line) {
        Single::Skipped => Reading::Skipped,
        Single::Word(word) => match value_of(word) {
            Some(v) => Reading::Value(v),
            None => Reading::Bad,
        },
        Single::NotText | Single::More => Reading::Bad,
    }
}

/// Appends the number of readings and the values of the terms on them; after `Memory` the text is as it was.
fn push_values(text: &mut Vec<u8>, monitor: &Monitor) -> Result<(), Memory>
    requires some { 1 ≤ monitor.now.count }
    requires few { length monitor.now.terms ≤ most_terms }
    ensures ok { OnOk result ((m : ModelParts) (xs : List ℤ) → StandsFor monitor.now xs →
        HasTerms m monitor.now →
        text.new.items ≡ text.old.items ++ values_line m xs) }
    ensures err { OnErr result (text.new.items ≡ text.old.items) }
{
    let before = text.len();
    match push_line(text, monitor) {
        Ok(()) => Ok(()),
        Err(Memory) => {
            text.truncate(before);
            Err(Memory)
        }
    }
}

/// Appends the number of readings and the values; after `Memory` a prefix of the line may be left there.
fn push_line(text: &mut Vec<u8>, monitor: &Monitor) -> Result<(), Memory>
    requires some { 1 ≤ monitor.now.count }
    requires few { length monitor.now.terms ≤ most_terms }
    ensures ok { OnOk result ((m : ModelParts) (xs : List ℤ) → StandsFor monitor.now xs →
        HasTerms m monitor.now →
        text.new.items ≡ text.old.items ++ values_line m xs) }
    ensures err { OnErr result ((front : List ℕ) × (text.new.items ≡ text.old.items ++ front)) }
{
    push_count(text, monitor.count())?;
    for term in 0..monitor.terms() {
        push_spaced(text, monitor.value(term as u32))?;
    }
    text.push(b'\n')?;
    Ok(())
}

/// Appends the number of readings; after `Memory` the text is as it was.
fn push_count(text: &mut Vec<u8>, count: u32) -> Result<(), Memory>
    ensures ok { OnOk result (text.new.items ≡ text.old.items ++ decimal count) }
    ensures err { OnErr result (text.new.items ≡ text.old.items) }
{
    push_number(text, i64::from(count))
}

/// Appends a space and a value; after `Memory` perhaps the space alone.
fn push_spaced(text: &mut Vec<u8>, value: Ext) -> Result<(), Memory>
    ensures ok { OnOk result (text.new.items ≡ text.old.items ++ 32 ∷ ext_text value) }
    ensures err { OnErr result ((front : List ℕ) × (text.new.items ≡ text.old.items ++ front)) }
{
    text.push(b' ')?;
    push_ext(text, value)?;
    Ok(())
}

/// Appends the refusal of the line with this number to the text, which is as it was after `Memory`.
fn push_refusal(alloc: Global, text: &mut Vec<u8>, number: u32) -> Result<Status, Memory>
    ensures put { IfOk result (λ status.
        (text.new.items ≡ text.old.items ++ (refused_reading number).text) × (status ≡ Status.Refused)) }
    ensures kept { OnErr result (text.new.items ≡ text.old.items) }
{
    push_reply(text, &refused_reading(alloc, number)?)
}

/// The refusal of the line with this number.
fn refused_reading(alloc: Global, number: u32) -> Result<Reply, Memory>
    ensures { IfOk result (λ r. reply_of r ≡ refused_reading number) }
{
    line_reply(alloc, b"refused reading line ", number, Status::Refused)
}

/// Appends the end, with the number of readings, to the text.
pub(crate) fn push_end(alloc: Global, text: &mut Vec<u8>, count: u32) -> Result<Status, Memory>
    ensures { IfOk result (λ status.
        (text.new.items ≡ text.old.items ++ (end_of count).text) × (status ≡ Status.Done)) }
{
    push_reply(text, &end_reply(alloc, count)?)
}

/// The end, with the number of readings.
fn end_reply(alloc: Global, count: u32) -> Result<Reply, Memory>
    ensures { IfOk result (λ r. reply_of r ≡ end_of count) }
{
    line_reply(alloc, b"end ", count, Status::Done)
}
