//! What the words of a head, state, start or end line say.

ghost use Rattle.std.specs.Prelude.{◌≡◌, ◌<◌, ◌≤◌, ◌==◌, true, length, pos, option_map};
ghost use Rattle.ts_base.specs.declared.ext.Ext.TheVariants.{Int};
ghost use Rattle.ts_automaton.specs.FormulaText.{texts};
ghost use Rattle.ts_automaton.specs.Registers.{regs_of};
ghost use Rattle.ts_automaton.specs.Typing.{is_name};
ghost use Rattle.ts_automaton.specs.AutomatonText.{name_at};
ghost use Rattle.ts_automaton.specs.Grammar.{is_named};
ghost use Rattle.ts_automaton.specs.Lines.{direction_of, head_made, read_head, held_of, only_byte, new_name, read_state, constant_of, constant_at, stride, extra, all_five, read_start, is_end};

use crate::draft::{Direction, StateLine};
use crate::line_words::{word_at, word_count};
use crate::regs::Regs;
use ts_base::Ext;

/// The direction that a word names.
fn direction_of(word: &[u8]) -> Option<Direction>
    ensures { result ≡ direction_of word.now }
{
    if word == b"forward".as_slice() {
        Some(Direction::Forward)
    } else if word == b"reverse".as_slice() {
        Some(Direction::Reverse)
    } else {
        None
    }
}

/// The direction, if there is one, with the width.
fn head_made(wide: bool, direction: Option<Direction>) -> Option<(Direction, bool)>
    ensures { result ≡ head_made wide direction }
{
    match direction {
        None => None,
        Some(direction) => Some((direction, wide)),
    }
}

/// The direction that a head line names, and whether the block is wide.
pub(crate) fn read_head(words: &[&[u8]]) -> Option<(Direction, bool)>
    ensures { result ≡ read_head (texts words.now) }
{
    if word_count(words) == 1 {
        return head_made(false, direction_of(word_at(words, 0)));
    }
    if word_count(words) != 2 {
        return None;
    }
    if word_at(words, 1) != b"wide".as_slice() {
        return None;
    }
    head_made(true, direction_of(word_at(words, 0)))
}

/// Whether a state is held, by the last word of its line.
fn held_of(word: &[u8]) -> Option<bool>
    ensures { result ≡ held_of word.now }
{
    if word == b"free".as_slice() {
        Some(false)
    } else if word == b"held".as_slice() {
        Some(true)
    } else {
        None
    }
}

/// The byte of a word that has one.
pub(crate) fn only_byte(word: &[u8]) -> Option<u8>
    ensures { result ≡ only_byte word.now }
{
    match word {
        [b] => Some(*b),
        _ => None,
    }
}

/// A letter from `a` to `z`.
fn is_name(b: u8) -> bool
    ensures { result ≡ is_name b }
{
    b >= b'a' && b <= b'z'
}

/// Some state has this letter.
fn is_named(states: &[StateLine], b: u8) -> bool
    ensures { result ≡ is_named states.now b }
{
    states.iter().any(|n| n.name == b)
}

/// The letter that a word is, if it is a name and no state has it.
fn new_name(states: &[StateLine], word: &[u8]) -> Option<u8>
    ensures { result ≡ new_name states.now (only_byte word.now) }
{
    match only_byte(word) {
        Some(b) if is_name(b) && !is_named(states, b) => Some(b),
        _ => None,
    }
}

/// The state that a line names after these states.
pub(crate) fn read_state(states: &[StateLine], words: &[&[u8]]) -> Option<StateLine>
    ensures { result ≡ read_state states.now (texts words.now) }
{
    if word_count(words) != 3 {
        return None;
    }
    if word_at(words, 0) != b"state".as_slice() {
        return None;
    }
    match (
        new_name(states, word_at(words, 1)),
        held_of(word_at(words, 2)),
    ) {
        (Some(name), Some(held)) => Some(StateLine { name, held }),
        _ => None,
    }
}

/// The constant that a word is: 0, 1 or an infinity.
fn constant_of(word: &[u8]) -> Option<Ext>
    ensures { result ≡ constant_of word.now }
{
    if word == b"0".as_slice() {
        Some(Ext::Int(0))
    } else if word == b"1".as_slice() {
        Some(Ext::Int(1))
    } else if word == b"-inf".as_slice() {
        Some(Ext::NegInf)
    } else if word == b"+inf".as_slice() {
        Some(Ext::PosInf)
    } else {
        None
    }
}

/// The constant at a place of the words.
fn constant_at(words: &[&[u8]], k: usize) -> Option<Ext>
    requires { k < length (texts words.now) }
    ensures { result ≡ constant_at (texts words.now) k }
{
    constant_of(word_at(words, k))
}

/// How far the words of C, D and R stand apart: in a wide block those of E and F stand between them.
fn stride(wide: bool) -> usize
    ensures value { result ≡ stride wide }
    ensures few { result ≤ 2 }
    ensures extras { wide ≡ true → result ≡ 2 }
{
    if wide { 2 } else { 1 }
}

/// The constant of E or F, at a place of the words of a wide block; 0 in a narrow one.
fn extra_constant(words: &[&[u8]], k: usize, wide: bool) -> Option<Ext>
    requires { wide ≡ true → k < length (texts words.now) }
    ensures { result ≡ extra wide (Int (pos 0)) (constant_at (texts words.now) k) }
{
    if wide {
        constant_at(words, k)
    } else {
        Some(Ext::Int(0))
    }
}

/// Registers with these constants, if there are all.
fn regs_made(
    c: Option<Ext>,
    e: Option<Ext>,
    d: Option<Ext>,
    f: Option<Ext>,
    r: Option<Ext>,
) -> Option<Regs>
    ensures { option_map regs_of result ≡ all_five c e d f r }
{
    match (c, e, d, f, r) {
        (Some(c), Some(e), Some(d), Some(f), Some(r)) => Some(Regs { c, e, d, f, r }),
        _ => None,
    }
}

/// The constants of a start line, in the order of the registers.
pub(crate) fn read_start(words: &[&[u8]], wide: bool) -> Option<Regs>
    ensures { option_map regs_of result ≡ read_start wide (texts words.now) }
{
    let step = stride(wide);
    if word_count(words) != 2 + 2 * step {
        return None;
    }
    if word_at(words, 0) != b"start".as_slice() {
        return None;
    }
    regs_made(
        constant_at(words, 1),
        extra_constant(words, 2, wide),
        constant_at(words, 1 + step),
        extra_constant(words, 4, wide),
        constant_at(words, 1 + 2 * step),
    )
}

/// The letter of the state at a place, or 0 where there is none.
pub(crate) fn name_at(states: &[StateLine], k: usize) -> u8
    ensures { result ≡ name_at states.now k }
{
    if k < states.len() { states[k].name } else { 0 }
}

/// The words are those of the end line.
pub(crate) fn is_end(words: &[&[u8]]) -> bool
    ensures { result ≡ is_end (texts words.now) }
{
    word_count(words) == 1 && word_at(words, 0) == b"end".as_slice()
}
