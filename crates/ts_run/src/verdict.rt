//! The verdict of `check` in words.

ghost use Rattle.std.specs.Prelude.{◌≡◌, ◌<◌, ◌+◌, ◌++◌, length, string_bytes, IfOk, OnOk};
ghost use Rattle.std.specs.List.{zip};
ghost use Rattle.ts_model.specs.Views.{model_parts};
ghost use Rattle.ts_run.specs.Reply.{ComesOfInput, reply_of};
ghost use Rattle.ts_run.specs.Verdict.{fault_line, fault_lines, names_of, value_line, value_lines, verdict_of};

use crate::reply::Reply;
use crate::status::Status;
use std::alloc::Global;
use ts_base::{Ext, Memory, push_ext, push_number};
use ts_compile::Judgement;
use ts_model::Model;

/// Whether the series meets the model, each cell and requirement at fault, and the value of each term.
pub fn verdict(alloc: Global, model: &Model, judgement: &Judgement) -> Result<Reply, Memory>
    requires { length judgement.now.values.items ≡ length model.now.terms.entries }
    ensures text { IfOk result (λ r. reply_of r ≡ verdict_of judgement.now.inside.items judgement.now.holding.items
        (zip (names_of (model_parts model.now)) judgement.now.values.items)) }
    ensures status { IfOk result (λ r. ComesOfInput r.status) }
{
    let (head, status): (&[u8], Status) = if judgement.meets() {
        (b"meets\n", Status::Done)
    } else {
        (b"fails\n", Status::No)
    };
    let mut text = Vec::from_slice(alloc, head)?;
    push_faults(&mut text, b"outside ", &judgement.inside)?;
    push_faults(&mut text, b"broken ", &judgement.holding)?;
    push_values(&mut text, model, &judgement.values)?;
    Ok(Reply { text, status })
}

/// A line with `word` and its number, from 1, for each test that fails.
fn push_faults(text: &mut Vec<u8>, word: &[u8], tests: &[bool]) -> Result<(), Memory>
    ensures { OnOk result (text.new.items ≡ text.old.items ++ fault_lines word.now 1 tests.now) }
{
    for k in 0..tests.len() {
        push_fault(text, word, k + 1, tests[k])?;
    }
    Ok(())
}

/// The line of one test, if it fails.
fn push_fault(text: &mut Vec<u8>, word: &[u8], number: usize, test: bool) -> Result<(), Memory>
    requires { number < 9223372036854775808 }
    ensures { OnOk result (text.new.items ≡ text.old.items ++ fault_line word.now number test) }
{
    if !test {
        text.extend_from_slice(word)?;
        push_number(text, number as i64)?;
        text.push(b'\n')?;
    }
    Ok(())
}

/// A line for each term, with its name and its value.
fn push_values(text: &mut Vec<u8>, model: &Model, values: &[Ext]) -> Result<(), Memory>
    requires { length values.now ≡ length model.now.terms.entries }
    ensures { OnOk result
        (text.new.items ≡ text.old.items ++ value_lines (zip (names_of (model_parts model.now)) values.now)) }
{
    let names = model.terms.keys();
    for k in 0..values.len() {
        push_value(text, &names[k], values[k])?;
    }
    Ok(())
}

/// The line of one term.
fn push_value(text: &mut Vec<u8>, name: &String, value: Ext) -> Result<(), Memory>
    ensures { OnOk result (text.new.items ≡ text.old.items ++ value_line (string_bytes name.now) value) }
{
    text.extend_from_slice(b"value ")?;
    text.extend_from_slice(name.as_bytes())?;
    text.push(b' ')?;
    push_ext(text, value)?;
    text.push(b'\n')?;
    Ok(())
}
