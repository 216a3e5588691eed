//! Phase letters with the ranges that they give, and every move between two kinds of states, worked out by hand.

ghost use Rattle.std.specs.Prelude.{◌≤◌, ◌<◌, length};

use super::validated::{State, transducer};
use std::alloc::Global;
use ts_base::Kind::{Held, Idle, Pending};
use ts_base::Letter::{Equal, Greater, Less};
use ts_base::{Kind, Letter, Memory, Range};
use ts_transducer::Phase::{Found, FoundE, Inside, MaybeA, MaybeB, Out, OutA, OutR};
use ts_transducer::{Decoder, Phase, decoded};

/// The letter, counted from 1, after which a range is emitted, and its first and last cell. The end of the letters
/// counts as one letter more.
type Emitted = (u32, u32, u32);

/// Phase letters, 1 where an occurrence leaves its last cell out, and what is emitted.
static RUNS: [(&[Phase], u8, &[Emitted]); 22] = [
    (&[], 1, &[]),
    (&[Out, MaybeB, Found, Inside, MaybeA, OutA], 1, &[(6, 2, 4)]),
    (&[Out, MaybeB, Found, Inside, MaybeA, OutA], 0, &[(6, 2, 5)]),
    (&[Found], 1, &[(2, 1, 1)]),
    (&[Found], 0, &[(2, 1, 2)]),
    (&[FoundE], 1, &[(1, 1, 1)]),
    (&[FoundE], 0, &[(1, 1, 2)]),
    (&[MaybeB], 1, &[]),
    (&[OutA], 1, &[]),
    (&[Inside], 1, &[]),
    // the start: the first one is kept, until a letter forgets it
    (&[MaybeB, MaybeB, Found], 1, &[(4, 1, 3)]),
    (&[MaybeB, Out, Found], 1, &[(4, 1, 3)]),
    (&[MaybeB, MaybeA, Found], 1, &[(4, 1, 3)]),
    (&[MaybeB, Inside, Found], 1, &[(4, 1, 3)]),
    (&[MaybeB, OutR, Found], 1, &[(4, 3, 3)]),
    (&[MaybeB, OutA, Found], 1, &[(4, 3, 3)]),
    (&[MaybeB, Found, Found], 1, &[(4, 3, 3)]),
    (&[MaybeB, FoundE, FoundE], 1, &[(2, 1, 2), (3, 3, 3)]),
    // the held range: it stays until it is complete
    (&[Found, MaybeB, OutR, Out, MaybeA], 1, &[(6, 1, 1)]),
    (&[Found, MaybeA, Inside], 0, &[(4, 1, 4)]),
    (&[Found, FoundE], 1, &[(2, 2, 2), (3, 1, 1)]),
    (&[Found, OutA, Found], 1, &[(2, 1, 1), (4, 3, 3)]),
];

/// A phase letter, and the kinds of states from which and to which it may lead.
static MOVES: [(Phase, &[(Kind, Kind)]); 8] = [
    (Out, &[(Idle, Idle), (Idle, Pending)]),
    (OutR, &[(Pending, Idle), (Pending, Pending)]),
    (OutA, &[(Held, Idle), (Held, Pending)]),
    (MaybeB, &[(Idle, Pending), (Pending, Pending)]),
    (MaybeA, &[(Held, Held)]),
    (Found, &[(Idle, Held), (Pending, Held)]),
    (
        FoundE,
        &[
            (Idle, Idle),
            (Idle, Pending),
            (Pending, Idle),
            (Pending, Pending),
        ],
    ),
    (Inside, &[(Held, Held)]),
];

const LETTERS: [Letter; 3] = [Less, Equal, Greater];

const KIND_PAIRS: [(Kind, Kind); 9] = [
    (Idle, Idle),
    (Idle, Pending),
    (Idle, Held),
    (Pending, Idle),
    (Pending, Pending),
    (Pending, Held),
    (Held, Idle),
    (Held, Pending),
    (Held, Held),
];

// Each table behind a function, so that the proof of the test doesn't read it.
fn runs() -> &'static [(&'static [Phase], u8, &'static [Emitted])] {
    &RUNS
}

fn moves() -> &'static [(Phase, &'static [(Kind, Kind)])] {
    &MOVES
}

/// A state of this kind that goes to the start on each letter.
fn homing(kind: Kind) -> State {
    let home = match kind {
        Idle => (Out, 0),
        Pending => (OutR, 0),
        Held => (OutA, 0),
    };
    (kind, home, home, home)
}

/// A state of this kind with one move of its own; on the other letters it goes to the start.
fn moving(kind: Kind, letter: Letter, own: (Phase, u8)) -> State {
    let (_, less, equal, greater) = homing(kind);
    match letter {
        Less => (kind, own, equal, greater),
        Equal => (kind, less, own, greater),
        Greater => (kind, less, equal, own),
    }
}

/// What the decoder emits over these letters.
fn emitted(alloc: Global, phases: &[Phase], a: u8) -> Result<Vec<Emitted>, Memory>
    requires few { length phases.now < 1000 }
    requires trim { a ≤ 1 }
{
    let mut decoder = Decoder::new();
    let mut ranges = Vec::new(alloc);
    for k in 0..phases.len() {
        let sign = k as u32 + 1;
        if let Some(range) = decoder.step(sign, phases[k], a) {
            ranges.push((sign, range.first, range.last))?;
        }
    }
    if let Some(range) = decoder.finish() {
        ranges.push((phases.len() as u32 + 1, range.first, range.last))?;
    }
    Ok(ranges)
}

fn run_holds(alloc: Global, phases: &[Phase], a: u8, wanted: &[Emitted]) -> Result<bool, Memory> {
    if 1000 <= phases.len() || 1 < a {
        return Ok(false);
    }
    Ok(emitted(alloc, phases, a)?.as_slice() == wanted)
}

#[test]
fn runs_of_the_decoder(rt: HostRuntime) {
    for (phases, a, wanted) in runs() {
        assert!(rt;
            run_holds(rt.alloc(), phases, *a, wanted) == Ok(true),
            "{phases:?} {a}"
        );
    }
}

/// What a decoder holds after two phases, and whether it is as new at the end.
fn held_range() -> (Option<Range>, bool) {
    let mut decoder = Decoder::new();
    let first = decoder.step(1, Found, 1);
    let second = decoder.step(2, MaybeB, 1);
    let held = decoder.finish();
    let is_new = first.is_none() && second.is_none() && decoder == Decoder::new();
    (held, is_new)
}

#[test]
fn decoder_after_its_end(rt: HostRuntime) {
    let (held, is_new) = held_range();
    assert!(rt; held.is_some() && is_new);
}

/// Whether a table is taken in which a state moves so on the letter.
fn is_taken(from: Kind, letter: Letter, phase: Phase, end: Kind) -> bool {
    is_table(&[homing(Idle), homing(end), moving(from, letter, (phase, 1))])
}

/// Whether the phase letter is taken between these kinds on all letters, or on none.
fn is_typed(from: Kind, phase: Phase, end: Kind, wanted: bool) -> bool {
    for letter in LETTERS {
        if is_taken(from, letter, phase, end) != wanted {
            return false;
        }
    }
    true
}

#[test]
fn typed_moves(rt: HostRuntime) {
    for (phase, allowed) in moves() {
        for (from, end) in KIND_PAIRS {
            let wanted = allowed.contains(&(from, end));
            assert!(rt;
                is_typed(from, *phase, end, wanted),
                "{from:?} {phase:?} {end:?}"
            );
        }
    }
}

fn is_table(states: &[State]) -> bool {
    transducer(states).is_some()
}

/// Whether seven states that go to the start and this one are a table.
fn is_eighth(last: State) -> bool {
    let idle = homing(Idle);
    is_table(&[idle, idle, idle, idle, idle, idle, idle, last])
}

/// Whether the moves of a letter to a state that is there are taken, and the others not.
fn leads_to_a_row(letter: Letter) -> bool {
    let idle = homing(Idle);
    !is_table(&[idle, idle, moving(Idle, letter, (Out, 3))])
        && is_eighth(moving(Idle, letter, (Out, 7)))
        && !is_eighth(moving(Idle, letter, (Out, 8)))
}

#[test]
fn typed_tables(rt: HostRuntime) {
    let idle = homing(Idle);
    for letter in LETTERS {
        assert!(rt; leads_to_a_row(letter));
    }
    for first in [Pending, Held] {
        assert!(rt; !is_table(&[homing(first), idle, idle]));
    }
    assert!(rt; !is_table(&[]));
}

/// The catalogue's table of peaks.
const PEAKS: [State; 3] = [
    (Idle, (Out, 1), (Out, 0), (Out, 0)),
    (Pending, (MaybeB, 1), (MaybeB, 1), (Found, 2)),
    (Held, (OutA, 1), (MaybeA, 2), (Inside, 2)),
];

/// Whether these cells are found in the series 1 2 2 1 0 0 1, or in its beginning.
fn has_ranges(alloc: Global, signs: &[Letter], a: u8, wanted: &[Range]) -> Result<bool, Memory> {
    match transducer(&PEAKS) {
        Some(peaks) if signs.len() < 1000 && a <= 1 => {
            Ok(peaks.rows().len() == 3 && decoded(alloc, &peaks, a, signs)?.as_slice() == wanted)
        }
        _ => Ok(false),
    }
}

// The peak of the series has the cells 2 to 4.
#[test]
fn peak(rt: HostRuntime) {
    let signs = [Less, Equal, Greater, Greater, Equal, Less];
    assert!(rt; has_ranges(rt.alloc(), &signs, 1, &[Range { first: 2, last: 4 }]) == Ok(true));
    assert!(rt; has_ranges(rt.alloc(), &signs, 0, &[Range { first: 2, last: 5 }]) == Ok(true));
    assert!(rt; has_ranges(rt.alloc(), &[Less, Equal], 1, &[]) == Ok(true));
}
