//! A block, line by line.

ghost use Rattle.std.specs.Prelude.{◌≡◌, ◌≤◌, length, map, Ok, IfOk, option_map};
ghost use Rattle.ts_automaton.specs.FormulaText.{texts};
ghost use Rattle.ts_automaton.specs.Registers.{regs_of};
ghost use Rattle.ts_automaton.specs.Body.{move_of};
ghost use Rattle.ts_automaton.specs.Grammar.{AtStates, AtMoves};
ghost use Rattle.ts_automaton.specs.Reading.{is_state_line, with_words, with_line, end_sheet, sheet_reading, prefix_seen, HasFew, ReadsSheet};

use crate::draft::{Block, Direction, Prefix, StateLine};
use crate::line_words::{word_at, word_count, words_in};
use crate::lines::{is_end, read_head, read_start, read_state};
use crate::move_lines::{read_finish, read_move};
use crate::regs::Regs;
use crate::state::Turn;
use crate::stop::AutoStop;
use std::alloc::Global;
use std::collections::VecDeque;
use ts_base::{Memory, first_line, without_lf};

/// The words are those of a state line, by the first of them.
fn is_state_line(words: &[&[u8]]) -> bool
    ensures { result ≡ is_state_line (texts words.now) }
{
    word_count(words) > 0 && word_at(words, 0) == b"state".as_slice()
}

/// The states with one more, or all of them with the start constants.
fn named(
    alloc: Global,
    direction: Direction,
    wide: bool,
    mut states: Vec<StateLine>,
    words: &[&[u8]],
) -> Result<Option<Prefix>, Memory>
    ensures { IfOk result (λ d.
        option_map prefix_seen d ≡ with_words (AtStates direction wide states.items) (texts words.now)) }
{
    if is_state_line(words) {
        match read_state(&states, words) {
            Some(name) if states.len() < 8 => {
                states.push(name)?;
                Ok(Some(Prefix::AtStates {
                    direction,
                    wide,
                    states,
                }))
            }
            _ => Ok(None),
        }
    } else {
        match read_start(words, wide) {
            Some(start) if states.len() > 0 => Ok(Some(Prefix::AtMoves {
                direction,
                wide,
                states,
                start,
                moves: VecDeque::new(alloc),
            })),
            _ => Ok(None),
        }
    }
}

/// The moves with one more, or all of them with the finish expression.
fn moved(
    alloc: Global,
    direction: Direction,
    wide: bool,
    states: Vec<StateLine>,
    start: Regs,
    mut moves: VecDeque<Turn>,
    words: &[&[u8]],
) -> Result<Option<Prefix>, Memory>
    requires { length states.items ≤ 8 }
    ensures { let before = AtMoves direction wide states.items (regs_of start) (map move_of moves.items) in
        IfOk result (λ d. option_map prefix_seen d ≡ with_words before (texts words.now)) }
{
    if moves.len() < 3 * states.len() {
        match read_move(alloc, &states, moves.len(), words, wide)? {
            None => Ok(None),
            Some(turn) => {
                moves.push_back(turn)?;
                Ok(Some(Prefix::AtMoves {
                    direction,
                    wide,
                    states,
                    start,
                    moves,
                }))
            }
        }
    } else {
        match read_finish(alloc, words, wide)? {
            None => Ok(None),
            Some((finish, mark)) => Ok(Some(Prefix::AtEnd(Block {
                direction,
                wide,
                states,
                start,
                moves,
                finish,
                mark,
            }))),
        }
    }
}

/// What was read with the line of these words; None where that is against the grammar.
fn with_words(alloc: Global, prefix: Prefix, words: &[&[u8]]) -> Result<Option<Prefix>, Memory>
    requires { HasFew (prefix_seen prefix) }
    ensures { IfOk result (λ d. option_map prefix_seen d ≡ with_words (prefix_seen prefix) (texts words.now)) }
{
    match prefix {
        Prefix::AtHead => match read_head(words) {
            None => Ok(None),
            Some((direction, wide)) => Ok(Some(Prefix::AtStates {
                direction,
                wide,
                states: Vec::new(alloc),
            })),
        },
        Prefix::AtStates {
            direction,
            wide,
            states,
        } => named(alloc, direction, wide, states, words),
        Prefix::AtMoves {
            direction,
            wide,
            states,
            start,
            moves,
        } => moved(alloc, direction, wide, states, start, moves, words),
        Prefix::AtEnd(block) => {
            if is_end(words) {
                Ok(Some(Prefix::Whole(block)))
            } else {
                Ok(None)
            }
        }
        Prefix::Whole(_) => Ok(None),
    }
}

/// What was read, with one more line, given with its LF; None where it may not come there.
fn with_line(alloc: Global, prefix: Prefix, text: &[u8]) -> Result<Option<Prefix>, Memory>
    requires { HasFew (prefix_seen prefix) }
    ensures { IfOk result (λ d. option_map prefix_seen d ≡ with_line (prefix_seen prefix) text.now) }
{
    match without_lf(text) {
        None => Ok(None),
        Some(line) => {
            let words = words_in(alloc, line)?;
            with_words(alloc, prefix, &words)
        }
    }
}

/// The block that was read up to this line, or the line where its end is missing.
fn ended(line: u32, prefix: Prefix) -> Result<Block, AutoStop>
    ensures { ReadsSheet result (end_sheet line (Ok (prefix_seen prefix))) }
{
    match prefix {
        Prefix::Whole(block) => Ok(block),
        _ => Err(AutoStop::Text(line)),
    }
}

/// The block of a text, or its first line against the grammar.
pub(crate) fn read_sheet(alloc: Global, text: &[u8]) -> Result<Block, AutoStop>
    ensures { ReadsSheet result (sheet_reading text.now) }
{
    let mut prefix = Prefix::AtHead;
    let mut rest = text;
    let mut line: u32 = 1;
    while !rest.is_empty() {
        let (first, left) = first_line(rest);
        match with_line(alloc, prefix, first)? {
            None => return Err(AutoStop::Text(line)),
            Some(next) => prefix = next,
        }
        rest = left;
        line += 1;
    }
    ended(line, prefix)
}
