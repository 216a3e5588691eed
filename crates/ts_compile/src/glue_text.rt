//! What stands in the text of a program after a forward block.

ghost use Rattle.std.specs.Prelude.{◌≡◌, ◌<◌, ◌++◌, length, map, Some, All, IsTrue, OnOk};
ghost use Rattle.ts_automaton.specs.AutomatonText.{lines_text, name_at, state_lines, words_text};
ghost use Rattle.ts_compile.specs.ProgramText.{IsBetween, fold_word, glue_words, join_words, reverse_text, trim_word, unit_word};
ghost use Rattle.ts_glue.specs.Machines.{pair_of};
ghost use Rattle.ts_glue.specs.Pairs.{pair, table_view};
ghost use Rattle.ts_glue.specs.Rules.{has_join_states};

use crate::words::push_word;
use ts_automaton::{Automaton, Direction, write, write_head};
use ts_base::{Join, Memory};
use ts_glue::{CellUnit, FoldOp, GlueTable, Machine};

/// Appends the reverse block of a machine and its glue part to `text`, or the line that it can't be split.
pub(crate) fn push_reverse(text: &mut Vec<u8>, machine: &Machine) -> Result<(), Memory>
    ensures { OnOk result (text.new.items ≡ text.old.items ++ reverse_text (pair_of machine.now)) }
{
    if let (Some(reverse), Some(table)) = (machine.reverse(), machine.table()) {
        push_glued(text, machine.forward(), reverse, table)
    } else {
        Ok(text.extend_from_slice(b"no reverse\n")?)
    }
}

/// Appends the reverse block and the glue part to `text`.
fn push_glued(
    text: &mut Vec<u8>,
    forward: &Automaton,
    reverse: &Automaton,
    table: &GlueTable,
) -> Result<(), Memory>
    requires { IsTrue (has_join_states (pair forward.now reverse.now (table_view table.now))) }
    ensures { let split = Some (pair forward.now reverse.now (table_view table.now)) in
        OnOk result (text.new.items ≡ text.old.items ++ reverse_text split) }
{
    write_head(Direction::Reverse, reverse.wide(), text)?;
    write(reverse, text)?;
    push_glue(text, table)?;
    push_joins(text, forward, reverse, &table.joins)?;
    text.extend_from_slice(b"end\n")?;
    Ok(())
}

/// Appends the first line of a glue part to `text`.
fn push_glue(text: &mut Vec<u8>, table: &GlueTable) -> Result<(), Memory>
    ensures { OnOk result (text.new.items ≡ text.old.items ++ words_text (glue_words (table_view table.now))) }
{
    text.extend_from_slice(b"glue")?;
    push_word(text, trim_word(table.a))?;
    push_word(text, fold_word(table.op))?;
    push_word(text, unit_word(table.unit))?;
    text.push(b'\n')?;
    Ok(())
}

/// Appends the line of each pair of states to `text`.
fn push_joins(
    text: &mut Vec<u8>,
    forward: &Automaton,
    reverse: &Automaton,
    joins: &[Join],
) -> Result<(), Memory>
    requires { All (IsBetween forward.now reverse.now) joins.now }
    ensures { let lines = map (join_words forward.now reverse.now) joins.now in
        OnOk result (text.new.items ≡ text.old.items ++ lines_text lines) }
{
    for join in joins {
        push_join(text, forward, reverse, *join)?;
    }
    Ok(())
}

/// Appends the line of a pair of states to `text`.
fn push_join(
    text: &mut Vec<u8>,
    forward: &Automaton,
    reverse: &Automaton,
    join: Join,
) -> Result<(), Memory>
    requires forward { join.forward < length forward.now.states }
    requires reverse { join.reverse < length reverse.now.states }
    ensures { let line = join_words forward.now reverse.now join in
        OnOk result (text.new.items ≡ text.old.items ++ words_text line) }
{
    text.extend_from_slice(b"join ")?;
    text.push(name_at(forward, join.forward))?;
    text.push(b' ')?;
    text.push(name_at(reverse, join.reverse))?;
    text.push(b'\n')?;
    Ok(())
}

/// The letter of the state at a place.
fn name_at(automaton: &Automaton, q: u8) -> u8
    requires { q < length automaton.now.states }
    ensures { result ≡ name_at (state_lines automaton.now.states) q }
{
    automaton.state(q).name
}

/// The word of a trim, which is 0 or 1.
fn trim_word(a: u8) -> &'static [u8]
    ensures { result.now ≡ trim_word a }
{
    if a == 0 { b"0" } else { b"1" }
}

/// The word of the operator by which an occurrence is folded.
fn fold_word(op: FoldOp) -> &'static [u8]
    ensures { result.now ≡ fold_word op }
{
    match op {
        FoldOp::Add => b"add",
        FoldOp::Max => b"max",
        FoldOp::Min => b"min",
        FoldOp::Pair => b"range",
    }
}

/// The word of what a cell is worth.
fn unit_word(unit: CellUnit) -> &'static [u8]
    ensures { result.now ≡ unit_word unit }
{
    match unit {
        CellUnit::Unit => b"1",
        CellUnit::Value => b"x",
    }
}
