//! The text of a program.

ghost use Rattle.std.specs.Prelude.{◌≡◌, ◌++◌, string_bytes, IfOk, OnErr, OnOk};
ghost use Rattle.std.specs.Fmt.{decimal};
ghost use Rattle.ts_base.specs.Words.{behind};
ghost use Rattle.ts_automaton.specs.AutomatonText.{words_text};
ghost use Rattle.ts_compile.specs.ProgramText.{part_text, program_text, range_word, term_words, window_words};
ghost use Rattle.ts_compile.specs.Programs.{IsProgramOf};
ghost use Rattle.ts_glue.specs.Machines.{forward_of, pair_of};
ghost use Rattle.ts_model.specs.Views.{terms_in};

use crate::glue_text::push_reverse;
use crate::program::Program;
use crate::words::push_word;
use std::alloc::Global;
use ts_automaton::{Direction, write, write_head};
use ts_base::{Memory, Range, push_number};
use ts_glue::Machine;
use ts_model::{Model, ModelTerm};
use ts_pattern::{aggregator_name, feature_name, pattern_name};

/// The text of the program `p` of a model: for each term its line, its forward block, and either its reverse block and
/// how the two are glued, or the line `no reverse`. It is empty for a model without terms.
pub fn write_program(alloc: Global, m: &Model, p: &Program) -> Result<Vec<u8>, Memory>
    requires { IsProgramOf p.now m.now }
    ensures { IfOk result (λ text. text.items ≡ program_text (terms_in m.now)) }
{
    let mut text = Vec::new(alloc);
    let names = m.terms.keys();
    let machines = p.machines();
    for k in 0..machines.len() {
        push_part(&mut text, &names[k], &m.term(k), &machines[k])?;
    }
    Ok(text)
}

/// Appends the part of one term to `text`.
fn push_part(
    text: &mut Vec<u8>,
    name: &String,
    t: &ModelTerm,
    machine: &Machine,
) -> Result<(), Memory>
    ensures { let part = part_text (string_bytes name.now) t.now (forward_of machine.now) (pair_of machine.now) in
        OnOk result (text.new.items ≡ text.old.items ++ part) }
{
    push_term(text, name, t)?;
    let forward = machine.forward();
    write_head(Direction::Forward, forward.wide(), text)?;
    write(forward, text)?;
    push_reverse(text, machine)?;
    Ok(())
}

/// Appends the line of a term to `text`.
fn push_term(text: &mut Vec<u8>, name: &String, t: &ModelTerm) -> Result<(), Memory>
    ensures { OnOk result
        (text.new.items ≡ text.old.items ++ words_text (term_words (string_bytes name.now) t.now)) }
{
    text.extend_from_slice(b"term")?;
    push_word(text, name.as_bytes())?;
    push_word(text, aggregator_name(t.term.aggregator))?;
    push_word(text, feature_name(t.term.feature))?;
    push_word(text, pattern_name(t.term.pattern))?;
    push_window(text, t.window)?;
    text.push(b'\n')?;
    Ok(())
}

/// Appends the tail of a term that looks at some of the cells alone to `text`.
fn push_window(text: &mut Vec<u8>, window: Option<Range>) -> Result<(), Memory>
    ensures { OnOk result (text.new.items ≡ text.old.items ++ behind (window_words window)) }
{
    match window {
        None => Ok(()),
        Some(window) => {
            push_word(text, b"in")?;
            text.push(b' ')?;
            push_range(text, window)?;
            Ok(())
        }
    }
}

/// Appends the cells of a range to `text`.
fn push_range(text: &mut Vec<u8>, range: Range) -> Result<(), Memory>
    ensures { OnOk result (text.new.items ≡ text.old.items ++ range_word range) }
{
    push_cell(text, range.first)?;
    text.extend_from_slice(b"..")?;
    push_cell(text, range.last)?;
    Ok(())
}

/// Appends the number of a cell to `text`.
fn push_cell(text: &mut Vec<u8>, cell: u32) -> Result<(), Memory>
    ensures ok { OnOk result (text.new.items ≡ text.old.items ++ decimal cell) }
    ensures err { OnErr result (text.new.items ≡ text.old.items) }
{
    push_number(text, i64::from(cell))
}
