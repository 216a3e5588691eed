//! The automaton of a text.

ghost use Rattle.std.specs.Prelude.{◌≡◌, ◌≤◌, ◌*◌, ◌++◌, [], ◌∷◌, map, length, IfOk};
ghost use Rattle.ts_automaton.specs.Body.{move_of, node_of, parts_of};
ghost use Rattle.ts_automaton.specs.AutomatonText.{state_lines, all_moves, sheet_of};
ghost use Rattle.ts_automaton.specs.Grammar.{IsSheet};
ghost use Rattle.ts_automaton.specs.Reading.{sheet_seen};
ghost use Rattle.ts_automaton.specs.TextReading.{rank, line_at, Judges, Reads};

use crate::automaton::Automaton;
use crate::draft::{Block, StateLine};
use crate::parts::Parts;
use crate::reader::read_sheet;
use crate::state::{State, Turn};
use crate::stop::AutoStop;
use crate::typing::Place;
use std::alloc::Global;
use std::collections::VecDeque;
use ts_base::{Letter, Memory};

/// The automaton of a text, which is its whole block; the head says whether it is wide. `Text` tells the first line
/// against the grammar, and else `Typing` the first line against the typing; lines are counted from 1.
pub fn read(alloc: Global, text: &[u8]) -> Result<Automaton, AutoStop>
    ensures { Reads text.now result }
{
    match read_sheet(alloc, text) {
        Ok(block) => judged(alloc, block),
        Err(stop) => Err(stop),
    }
}

/// The automaton that has this block, or its first line against the typing.
fn judged(alloc: Global, block: Block) -> Result<Automaton, AutoStop>
    requires { IsSheet (sheet_seen block) }
    ensures { Judges (sheet_seen block) result }
{
    let parts = parts_in(alloc, block)?;
    match parts.first_fault() {
        None => Ok(Automaton::from_parts(parts)),
        Some(place) => Err(AutoStop::Typing(line_at(parts.states.len(), place))),
    }
}

/// The parts of an automaton that has this block.
fn parts_in(alloc: Global, block: Block) -> Result<Parts, Memory>
    requires { length block.moves.items ≡ 3 * length block.states.items }
    ensures { IfOk result (λ p. sheet_of block.direction (parts_of p) ≡ sheet_seen block) }
{
    let Block {
        direction: _,
        wide,
        states: lines,
        start,
        moves,
        finish,
        mark,
    } = block;
    let states = grouped(alloc, &lines, moves)?;
    Ok(Parts {
        states,
        start,
        finish,
        mark,
        wide,
    })
}

/// The states of these lines, each with the next three moves.
fn grouped(
    alloc: Global,
    lines: &[StateLine],
    mut moves: VecDeque<Turn>,
) -> Result<Vec<State>, Memory>
    requires { length moves.items ≡ 3 * length lines.now }
    ensures lines { IfOk result (λ states. state_lines (map node_of states.items) ≡ lines.now) }
    ensures moves { IfOk result (λ states. all_moves (map node_of states.items) ≡ map move_of moves.items) }
{
    let mut states = Vec::new(alloc);
    for line in lines {
        states.push(next_state(*line, &mut moves))?;
    }
    Ok(states)
}

/// The state of this line, with the next three moves.
fn next_state(line: StateLine, moves: &mut VecDeque<Turn>) -> State
    requires { 3 ≤ length moves.old.items }
    ensures line { (result.name ≡ line.name) × (result.held ≡ line.held) }
    ensures moves { map move_of moves.old.items ≡ all_moves (node_of result ∷ []) ++ map move_of moves.new.items }
{
    State {
        name: line.name,
        held: line.held,
        less: moves.pop_front().unwrap(),
        equal: moves.pop_front().unwrap(),
        greater: moves.pop_front().unwrap(),
    }
}

/// Which of the three moves of a state that on a letter is, counted from 0.
fn rank(letter: Letter) -> u32
    ensures { result ≡ rank letter }
{
    match letter {
        Letter::Less => 0,
        Letter::Equal => 1,
        Letter::Greater => 2,
    }
}

/// The line of a place in a block of so many states.
fn line_at(states: usize, place: Place) -> u32
    requires { states ≤ 8 }
    ensures { result ≡ line_at states place }
{
    let states = states as u32;
    match place {
        Place::Start => 2,
        Place::Moving { state, letter } => states + 3 + (3 * u32::from(state) + rank(letter)),
        Place::Finish => states + 3 + 3 * states,
    }
}
