//! The text of an automaton: one body, the lines of its block after the head.

ghost use Rattle.std.specs.Prelude.{◌≡◌, ◌++◌, [], ◌∷◌, ◌+◌, ◌*◌, ◌<◌, ◌≤◌, ◌/◌, ◌%◌, codes, map, length, OnErr, OnOk};
ghost use Rattle.ts_base.specs.Words.{behind};
ghost use Rattle.ts_automaton.specs.Formula.{formula};
ghost use Rattle.ts_automaton.specs.Registers.{regs_of};
ghost use Rattle.ts_automaton.specs.Body.{move_of, node_of, parts_of};
ghost use Rattle.ts_automaton.specs.AutomatonText.{state_lines, all_moves, name_at, mark_word, constant_words, state_words, start_words, turn_words, each_words, behind_semi};
ghost use Rattle.ts_automaton.specs.AutomatonText.{move_words, moves_words, part_words, finish_words, words_text, lines_text, head_text, body_text};

use crate::automaton::Automaton;
use crate::draft::Direction;
use crate::expr::Expr;
use crate::expr_text::push_expr;
use crate::move_lines::sign_word;
use crate::parts::Parts;
use crate::regs::Regs;
use crate::state::{Mark, State, Turn};
use ts_base::{Ext, Memory};

/// Appends the head line of a block of this width to `text`, which stays as it is after `Memory`.
pub fn write_head(direction: Direction, wide: bool, text: &mut Vec<u8>) -> Result<(), Memory>
    ensures ok { OnOk result (text.new.items ≡ text.old.items ++ head_text direction wide) }
    ensures err { OnErr result (text.new.items ≡ text.old.items) }
{
    match (direction, wide) {
        (Direction::Forward, false) => text.extend_from_slice(b"forward\n")?,
        (Direction::Reverse, false) => text.extend_from_slice(b"reverse\n")?,
        (Direction::Forward, true) => text.extend_from_slice(b"forward wide\n")?,
        (Direction::Reverse, true) => text.extend_from_slice(b"reverse wide\n")?,
    }
    Ok(())
}

/// Appends the one body of an automaton to `text`, which stays as it is after `Memory`: the body is written apart, and
/// `text` grows once, before it changes.
pub fn write(m: &Automaton, text: &mut Vec<u8>) -> Result<(), Memory>
    ensures ok { OnOk result (text.new.items ≡ text.old.items ++ body_text m.now) }
    ensures err { OnErr result (text.new.items ≡ text.old.items) }
{
    let mut body = Vec::new(*text.allocator());
    push_body(&mut body, m.parts())?;
    text.extend_from_slice(&body)?;
    Ok(())
}

/// Appends the lines of a block but the head to `text`.
fn push_body(text: &mut Vec<u8>, parts: &Parts) -> Result<(), Memory>
    requires { length parts.now.states.items ≤ 8 }
    ensures { OnOk result (text.new.items ≡ text.old.items ++ body_text (parts_of parts.now)) }
{
    push_states(text, &parts.states)?;
    push_start(text, parts.start, parts.wide)?;
    push_moves(text, &parts.states, parts.wide)?;
    push_finish(text, &parts.finish, parts.mark)?;
    text.extend_from_slice(b"end\n")?;
    Ok(())
}

/// Appends the line of a state to `text`.
fn push_state(text: &mut Vec<u8>, name: u8, held: bool) -> Result<(), Memory>
    ensures { let line = state_words (record { name = name; held = held }) in
        OnOk result (text.new.items ≡ text.old.items ++ words_text line) }
{
    text.extend_from_slice(b"state ")?;
    text.push(name)?;
    if held {
        text.extend_from_slice(b" held\n")?;
    } else {
        text.extend_from_slice(b" free\n")?;
    }
    Ok(())
}

/// Appends the line of each state to `text`.
fn push_states(text: &mut Vec<u8>, states: &[State]) -> Result<(), Memory>
    ensures { let lines = map state_words (state_lines (map node_of states.now)) in
        OnOk result (text.new.items ≡ text.old.items ++ lines_text lines) }
{
    for state in states {
        push_state(text, state.name, state.held)?;
    }
    Ok(())
}

/// Appends the word of a start constant to `text`, with a space before it.
fn push_constant(text: &mut Vec<u8>, e: Ext) -> Result<(), Memory>
    ensures { OnOk result (text.new.items ≡ text.old.items ++ behind (constant_words e)) }
{
    match e {
        Ext::NegInf => text.extend_from_slice(b" -inf")?,
        Ext::PosInf => text.extend_from_slice(b" +inf")?,
        Ext::Int(n) => {
            if n == 0 {
                text.extend_from_slice(b" 0")?;
            } else {
                text.extend_from_slice(b" 1")?;
            }
        }
    }
    Ok(())
}

/// Appends the constant of E or F, which stands in the text of a wide automaton alone.
fn push_extra_constant(text: &mut Vec<u8>, e: Ext, wide: bool) -> Result<(), Memory>
    ensures { OnOk result (text.new.items ≡ text.old.items ++ behind (part_words constant_words wide e)) }
{
    if wide {
        push_constant(text, e)?;
    }
    Ok(())
}

/// Appends the start constants to `text`.
fn push_constants(text: &mut Vec<u8>, start: Regs, wide: bool) -> Result<(), Memory>
    ensures { OnOk result (text.new.items
        ≡ text.old.items ++ behind (each_words constant_words wide (regs_of start))) }
{
    push_constant(text, start.c)?;
    push_extra_constant(text, start.e, wide)?;
    push_constant(text, start.d)?;
    push_extra_constant(text, start.f, wide)?;
    push_constant(text, start.r)?;
    Ok(())
}

/// Appends the start line to `text`.
fn push_start(text: &mut Vec<u8>, start: Regs, wide: bool) -> Result<(), Memory>
    ensures { OnOk result (text.new.items ≡ text.old.items ++ words_text (start_words wide (regs_of start))) }
{
    text.extend_from_slice(b"start")?;
    push_constants(text, start, wide)?;
    text.push(b'\n')?;
    Ok(())
}

/// The letter of the state at a place, or 0 where there is none.
fn name_at(states: &[State], k: usize) -> u8
    ensures { result ≡ name_at (state_lines (map node_of states.now)) k }
{
    if k < states.len() { states[k].name } else { 0 }
}

/// Puts the first words of move `k`, which leads to the state at place `next`, after `text`.
fn push_turn(text: &mut Vec<u8>, states: &[State], k: usize, next: u8) -> Result<(), Memory>
    ensures { let words = turn_words (state_lines (map node_of states.now)) k next in
        OnOk result (text.new.items ≡ text.old.items ++ (codes "move" ++ behind words)) }
{
    text.extend_from_slice(b"move ")?;
    text.push(name_at(states, k / 3))?;
    text.push(b' ')?;
    text.extend_from_slice(sign_word(k % 3))?;
    text.push(b' ')?;
    text.push(name_at(states, next as usize))?;
    Ok(())
}

/// Appends an expression of a move to `text`, with the `;` before it.
fn push_behind_semi(text: &mut Vec<u8>, e: &Expr) -> Result<(), Memory>
    ensures { OnOk result (text.new.items ≡ text.old.items ++ behind (behind_semi (formula e.now))) }
{
    text.extend_from_slice(b" ;")?;
    push_expr(text, e)?;
    Ok(())
}

/// Appends the expression of E or F, which stands in the text of a wide automaton alone.
fn push_extra(text: &mut Vec<u8>, e: &Expr, wide: bool) -> Result<(), Memory>
    ensures { OnOk result (text.new.items
        ≡ text.old.items ++ behind (part_words behind_semi wide (formula e.now))) }
{
    if wide {
        push_behind_semi(text, e)?;
    }
    Ok(())
}

/// Appends the expressions of a move to `text`.
fn push_expressions(text: &mut Vec<u8>, turn: &Turn, wide: bool) -> Result<(), Memory>
    ensures { OnOk result (text.new.items
        ≡ text.old.items ++ behind (each_words behind_semi wide (move_of turn.now).to)) }
{
    push_behind_semi(text, &turn.c)?;
    push_extra(text, &turn.e, wide)?;
    push_behind_semi(text, &turn.d)?;
    push_extra(text, &turn.f, wide)?;
    push_behind_semi(text, &turn.r)?;
    Ok(())
}

/// Appends the line of move `k` to `text`.
fn push_move(
    text: &mut Vec<u8>,
    states: &[State],
    k: usize,
    turn: &Turn,
    wide: bool,
) -> Result<(), Memory>
    ensures { let line = move_words wide (state_lines (map node_of states.now)) k (move_of turn.now) in
        OnOk result (text.new.items ≡ text.old.items ++ words_text line) }
{
    push_turn(text, states, k, turn.next)?;
    push_expressions(text, turn, wide)?;
    text.push(b'\n')?;
    Ok(())
}

/// Appends the lines of the three moves of state `q` to `text`.
fn push_moves_of(
    text: &mut Vec<u8>,
    states: &[State],
    q: usize,
    state: &State,
    wide: bool,
) -> Result<(), Memory>
    requires { q < 8 }
    ensures { let names = state_lines (map node_of states.now) in
        let lines = moves_words wide names (3 * q) (all_moves (node_of state.now ∷ [])) in
        OnOk result (text.new.items ≡ text.old.items ++ lines_text lines) }
{
    push_move(text, states, 3 * q, &state.less, wide)?;
    push_move(text, states, 3 * q + 1, &state.equal, wide)?;
    push_move(text, states, 3 * q + 2, &state.greater, wide)?;
    Ok(())
}

/// Appends the lines of all moves to `text`, those of each state in order.
fn push_moves(text: &mut Vec<u8>, states: &[State], wide: bool) -> Result<(), Memory>
    requires { length states.now ≤ 8 }
    ensures { let nodes = map node_of states.now in
        let lines = moves_words wide (state_lines nodes) 0 (all_moves nodes) in
        OnOk result (text.new.items ≡ text.old.items ++ lines_text lines) }
{
    for q in 0..states.len() {
        push_moves_of(text, states, q, &states[q], wide)?;
    }
    Ok(())
}

/// Appends the mark's word to `text`, with a space before it.
fn push_mark(text: &mut Vec<u8>, mark: Mark) -> Result<(), Memory>
    ensures { OnOk result (text.new.items ≡ text.old.items ++ behind (mark_word mark ∷ [])) }
{
    match mark {
        Mark::Same => text.extend_from_slice(b" same")?,
        Mark::Zero => text.extend_from_slice(b" zero")?,
        Mark::Cells => text.extend_from_slice(b" cells")?,
    }
    Ok(())
}

/// Appends the finish line to `text`.
fn push_finish(text: &mut Vec<u8>, finish: &Expr, mark: Mark) -> Result<(), Memory>
    ensures { OnOk result (text.new.items ≡ text.old.items ++ words_text (finish_words (formula finish.now) mark)) }
{
    text.extend_from_slice(b"finish")?;
    push_expr(text, finish)?;
    push_mark(text, mark)?;
    text.push(b'\n')?;
    Ok(())
}
