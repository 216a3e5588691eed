//! What a line says, from its words alone. The ranges of a line are read word by word; of another line the first words
//! tell what it says, however long it is.

ghost use Rattle.std.specs.Prelude.{◌≡◌, ◌+◌, ◌<◌, ◌≤◌, ◌^◌, ◌∷◌, length, ok_or, true};
ghost use Rattle.ts_base.specs.Limits.{too_many};
ghost use Rattle.ts_token.specs.Text.{words_from, words_of};
ghost use Rattle.ts_model.specs.declared.error.ModelKind.{ModelKind};
ghost use Rattle.ts_model.specs.declared.words.Form.{Form};
ghost use Rattle.ts_model.specs.ModelReading.{texts_of};
ghost use Rattle.ts_model.specs.Words.{range_of, ranges_of};
ghost use Rattle.ts_model.specs.Statement.{HasFew, has_term_length, term_length, parts_said, tail_said, parsed_as, parsed_by, meaning_in};
ghost use Rattle.ts_model.specs.Views.{texts, meaning_of, Gives};

use crate::error::{LineStop, ModelKind};
use crate::statement::{Ranges, Statement, TermParts};
use crate::words::{
    Form, form_of, is_count, is_equals, is_in, name_of, number_at, op_of, range_of, text_at,
};
use std::alloc::Global;
use ts_domain::Interval;
use ts_pattern::{Aggregator, Feature, aggregator_of, feature_of, pattern_of};
use ts_token::{Word, count_words, ext_of, first_words, next_word, number};

/// Of so many words after the first the number tells whether a line without ranges has its shape: each form has fewer.
const MOST_WORDS: usize = 8;

/// The range that the word is.
fn range_in(word: &[u8]) -> Result<Interval, LineStop>
    ensures { Gives (λ r. r) result (ok_or (range_of word.now) ModelKind.Number) }
{
    match range_of(word) {
        None => Err(LineStop::Bad(ModelKind::Number)),
        Some(range) => Ok(range),
    }
}

/// The ranges that the words of the bytes from a column on are, in memory for as many and no more.
fn ranges_of(alloc: Global, bytes: &[u8], column: u32) -> Result<Ranges, LineStop>
    requires place { column + length bytes.now < 2 ^ 32 }
    requires some { 0 < length (words_from column bytes.now) }
    ensures { Gives (λ rs. rs.items.items) result
        (ok_or (ranges_of (texts_of (words_from column bytes.now))) ModelKind.Number) }
{
    let mut items = Vec::with_capacity(alloc, count_words(bytes, column))?;
    let mut rest = bytes;
    let mut at = column;
    while let Some(next) = next_word(rest, at) {
        let range = range_in(next.word.text)?;
        items.push(range)?;
        rest = next.rest;
        at = next.column;
    }
    Ok(Ranges { items })
}

/// What a `cells` line says.
fn parse_cells<'a>(words: &[Word<'a>]) -> Result<Statement<'a>, LineStop>
    ensures { Gives meaning_of result (parsed_by Form.Cells (texts words.now)) }
{
    if words.len() != 1 {
        return Err(LineStop::Bad(ModelKind::Shape));
    }
    match number_at(words, 0) {
        Some(count) => Ok(Statement::Cells(count)),
        None => Err(LineStop::Bad(ModelKind::Number)),
    }
}

/// What a `domain` line says, whose words after the first are those of the bytes from a column on.
fn parse_domain<'a>(alloc: Global, bytes: &'a [u8], column: u32) -> Result<Statement<'a>, LineStop>
    requires { column + length bytes.now < 2 ^ 32 }
    ensures { Gives meaning_of result (parsed_by Form.Domain (texts_of (words_from column bytes.now))) }
{
    if count_words(bytes, column) == 0 {
        return Err(LineStop::Bad(ModelKind::Shape));
    }
    let ranges = ranges_of(alloc, bytes, column)?;
    Ok(Statement::Domain(ranges))
}

/// What a `cell` line says of the cell that a word is, whose words after that are those of the bytes from a column on.
fn parse_cell_at<'a>(
    alloc: Global,
    word: &'a [u8],
    bytes: &'a [u8],
    column: u32,
) -> Result<Statement<'a>, LineStop>
    requires { column + length bytes.now < 2 ^ 32 }
    ensures { Gives meaning_of result
        (parsed_by Form.Cell (word.now ∷ texts_of (words_from column bytes.now))) }
{
    if count_words(bytes, column) == 0 {
        return Err(LineStop::Bad(ModelKind::Shape));
    }
    match number(word) {
        Some(cell) => {
            let ranges = ranges_of(alloc, bytes, column)?;
            Ok(Statement::Cell(cell, ranges))
        }
        None => Err(LineStop::Bad(ModelKind::Number)),
    }
}

/// What a `cell` line says, whose words after the first are those of the bytes from a column on.
fn parse_cell<'a>(alloc: Global, bytes: &'a [u8], column: u32) -> Result<Statement<'a>, LineStop>
    requires { column + length bytes.now < 2 ^ 32 }
    ensures { Gives meaning_of result (parsed_by Form.Cell (texts_of (words_from column bytes.now))) }
{
    match next_word(bytes, column) {
        None => Err(LineStop::Bad(ModelKind::Shape)),
        Some(first) => parse_cell_at(alloc, first.word.text, first.rest, first.column),
    }
}

/// The parts of a term, whose words reach up to the name of the pattern; `count` stands for `sum one`. None where a
/// name is unknown.
#[tactic(auto, using(crate::proofs::TermLines::names_there, crate::proofs::TermLines::last_there))]
fn parts_said(words: &[Word]) -> Option<TermParts>
    requires { term_length (texts words.now) ≤ length (texts words.now) }
    ensures { result ≡ parts_said (texts words.now) }
{
    if is_count(text_at(words, 2)) {
        return Some(TermParts {
            aggregator: Aggregator::Sum,
            feature: Feature::One,
            pattern: pattern_of(text_at(words, 3))?,
        });
    }
    Some(TermParts {
        aggregator: aggregator_of(text_at(words, 2))?,
        feature: feature_of(text_at(words, 3))?,
        pattern: pattern_of(text_at(words, 4))?,
    })
}

/// How many words stand after `term`, up to the name of the pattern.
fn term_length(words: &[Word]) -> usize
    requires { 2 < length (texts words.now) }
    ensures value { result ≡ term_length (texts words.now) }
    ensures most { result ≤ 5 }
{
    if is_count(text_at(words, 2)) { 4 } else { 5 }
}

/// Whether the words after `term` end with the name of the pattern, or with a tail after it.
#[tactic(auto, using(crate::proofs::TermLines::too_short))]
fn has_term_length(words: &[Word]) -> bool
    ensures { result ≡ has_term_length (texts words.now) }
{
    let count = words.len();
    if count < 4 {
        return false;
    }
    let length = term_length(words);
    count == length || count == length + 2 && is_in(text_at(words, length))
}

/// The range of the tail, where the words have one. None where its word is no range.
#[tactic(auto, using(crate::proofs::TermLines::term_long, crate::proofs::TermLines::tail_there, crate::proofs::TermLines::tail_none, crate::proofs::TermLines::tail_some))]
fn tail_said(words: &[Word]) -> Option<Option<Interval>>
    requires { has_term_length (texts words.now) ≡ true }
    ensures { result ≡ tail_said (texts words.now) }
{
    let length = term_length(words);
    if words.len() == length {
        return Some(None);
    }
    match range_of(text_at(words, length + 1)) {
        Some(range) => Some(Some(range)),
        None => None,
    }
}

/// What a `term` line says.
#[tactic(auto, using(crate::proofs::TermLines::term_long, crate::proofs::TermLines::term_fits))]
fn parse_term<'a>(words: &[Word<'a>]) -> Result<Statement<'a>, LineStop>
    ensures { Gives meaning_of result (parsed_by Form.Term (texts words.now)) }
{
    if !has_term_length(words) {
        return Err(LineStop::Bad(ModelKind::Shape));
    }
    match name_of(text_at(words, 0)) {
        Some(name) if is_equals(text_at(words, 1)) => match tail_said(words) {
            Some(tail) => Ok(Statement::Term(name, tail, parts_said(words))),
            None => Err(LineStop::Bad(ModelKind::Number)),
        },
        _ => Err(LineStop::Bad(ModelKind::Shape)),
    }
}

/// What a `require` line says.
fn parse_require<'a>(words: &[Word<'a>]) -> Result<Statement<'a>, LineStop>
    ensures { Gives meaning_of result (parsed_by Form.Require (texts words.now)) }
{
    if words.len() != 3 {
        return Err(LineStop::Bad(ModelKind::Shape));
    }
    let Some(name) = name_of(text_at(words, 0)) else {
        return Err(LineStop::Bad(ModelKind::Shape));
    };
    let Some(op) = op_of(text_at(words, 1)) else {
        return Err(LineStop::Bad(ModelKind::Shape));
    };
    match ext_of(text_at(words, 2)) {
        Some(bound) => Ok(Statement::Require(name, op, bound)),
        None => Err(LineStop::Bad(ModelKind::Number)),
    }
}

/// What an `objective` line says.
fn parse_objective<'a>(words: &[Word<'a>]) -> Result<Statement<'a>, LineStop>
    ensures { Gives meaning_of result (parsed_by Form.Objective (texts words.now)) }
{
    if words.len() != 1 {
        return Err(LineStop::Bad(ModelKind::Shape));
    }
    match name_of(text_at(words, 0)) {
        Some(name) => Ok(Statement::Objective(name)),
        None => Err(LineStop::Bad(ModelKind::Shape)),
    }
}

/// What a line of a form without ranges says, by its first words after that of the form.
fn parse_few<'a>(form: Form, words: &[Word<'a>]) -> Result<Statement<'a>, LineStop>
    requires { HasFew form }
    ensures { Gives meaning_of result (parsed_by form (texts words.now)) }
{
    match form {
        Form::Cells => parse_cells(words),
        Form::Term => parse_term(words),
        Form::Require => parse_require(words),
        Form::Objective => parse_objective(words),
        Form::Domain | Form::Cell => unreachable!(),
    }
}

/// What a line of this form states, whose further words are those of the bytes from a column on.
fn parse_first<'a>(
    alloc: Global,
    form: Form,
    bytes: &'a [u8],
    column: u32,
) -> Result<Statement<'a>, LineStop>
    requires few { HasFew form }
    requires place { column + length bytes.now < 2 ^ 32 }
    ensures { Gives meaning_of result (parsed_by form (texts_of (words_from column bytes.now))) }
{
    let words = first_words(alloc, bytes, column, MOST_WORDS)?;
    parse_few(form, &words)
}

/// What a line of this form says, or of none, whose words after the first are those of the bytes from a column on.
fn parse_as<'a>(
    alloc: Global,
    form: Option<Form>,
    bytes: &'a [u8],
    column: u32,
) -> Result<Statement<'a>, LineStop>
    requires { column + length bytes.now < 2 ^ 32 }
    ensures { Gives meaning_of result (parsed_as form (texts_of (words_from column bytes.now))) }
{
    match form {
        None => Err(LineStop::Bad(ModelKind::UnknownLine)),
        Some(Form::Domain) => parse_domain(alloc, bytes, column),
        Some(Form::Cell) => parse_cell(alloc, bytes, column),
        Some(Form::Cells) => parse_first(alloc, Form::Cells, bytes, column),
        Some(Form::Term) => parse_first(alloc, Form::Term, bytes, column),
        Some(Form::Require) => parse_first(alloc, Form::Require, bytes, column),
        Some(Form::Objective) => parse_first(alloc, Form::Objective, bytes, column),
    }
}

/// What a line says, which is given without its end.
pub(crate) fn parse<'a>(alloc: Global, line: &'a [u8]) -> Result<Statement<'a>, LineStop>
    requires { length line.now < too_many }
    ensures { Gives meaning_of result (meaning_in (texts_of (words_of line.now))) }
{
    match next_word(line, 1) {
        None => Err(LineStop::Bad(ModelKind::UnknownLine)),
        Some(first) => {
            let form = form_of(first.word.text);
            parse_as(alloc, form, first.rest, first.column)
        }
    }
}
