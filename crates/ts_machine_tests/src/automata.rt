//! The rules, each broken once in the automaton of peaks, and runs of that automaton with answers worked out by hand.

mod runs;
mod wide;

use std::alloc::Global;
use ts_automaton::{Automaton, Expr, Mark, Operator, Regs, State, Turn};
use ts_base::Letter::{Equal, Greater, Less};
use ts_base::{Ext, Letter, Memory, Op};

/// One change to the automaton of peaks.
#[derive(Clone, Copy)]
enum Change {
    Nothing,
    NoState,
    OneState,
    EightStates,
    NineStates,
    NameTwice,
    CapitalName,
    NoTarget,
    StartTwo,
    FifteenWords,
    SeventeenWords,
    HeldStart,
    AddedLow,
    MaxOfHigh,
    MinOfLow,
    CellInFinish,
    HighInFinish,
    LowC,
    LowCIntoHeld,
    LowCOutOfHeld,
    EMoves,
    FStartsAtOne,
    SubInFinish,
    WideSubInFinish,
    WideSubOfLow,
}

/// The automaton of a change is taken exactly where the second part is true.
static CHANGES: [(Change, bool); 25] = [
    (Change::Nothing, true),
    (Change::NoState, false),
    // its moves lead to three states
    (Change::OneState, false),
    (Change::EightStates, true),
    (Change::NineStates, false),
    (Change::NameTwice, false),
    (Change::CapitalName, false),
    (Change::NoTarget, false),
    (Change::StartTwo, false),
    (Change::FifteenWords, true),
    (Change::SeventeenWords, false),
    (Change::HeldStart, false),
    (Change::AddedLow, false),
    (Change::MaxOfHigh, false),
    (Change::MinOfLow, false),
    (Change::CellInFinish, false),
    (Change::HighInFinish, false),
    (Change::LowC, true),
    (Change::LowCIntoHeld, false),
    (Change::LowCOutOfHeld, true),
    // E and F are at rest in a narrow automaton, and nothing is taken away
    (Change::EMoves, false),
    (Change::FStartsAtOne, false),
    (Change::SubInFinish, false),
    (Change::WideSubInFinish, true),
    (Change::WideSubOfLow, false),
];

// The table behind a function, so that the proof of the test doesn't read it.
fn changes() -> &'static [(Change, bool)] {
    &CHANGES
}

const ZERO: Ext = Ext::Int(0);

/// The sum of two expressions.
fn add(alloc: Global, a: Expr, b: Expr) -> Result<Expr, Memory> {
    Expr::over(alloc, Operator::Fold(Op::Add), a, b)
}

/// The greater of two.
fn max(alloc: Global, a: Expr, b: Expr) -> Result<Expr, Memory> {
    Expr::over(alloc, Operator::Fold(Op::Max), a, b)
}

/// The lesser of two.
fn min(alloc: Global, a: Expr, b: Expr) -> Result<Expr, Memory> {
    Expr::over(alloc, Operator::Fold(Op::Min), a, b)
}

/// `x` added to itself this many times: an expression of twice as many words and one.
fn many(alloc: Global, times: u8) -> Result<Expr, Memory> {
    let mut sum = Expr::This;
    for _ in 0..times {
        sum = add(alloc, Expr::This, sum)?;
    }
    Ok(sum)
}

/// The first register after a letter, with the change: the width of a peak that ends or grows.
fn c_after(alloc: Global, change: Change, place: u8, letter: Letter) -> Result<Expr, Memory> {
    match (change, place, letter) {
        (Change::LowCIntoHeld, 1, Greater) | (Change::LowCOutOfHeld, 2, Less) => Ok(Expr::NegInf),
        (_, 1, Greater) => add(alloc, Expr::D, Expr::Unit),
        (_, 2, Greater) => add(alloc, Expr::C, add(alloc, Expr::D, Expr::Unit)?),
        (_, 2, Less) => Ok(Expr::Zero),
        _ => Ok(Expr::C),
    }
}

/// The second register: one more cell, perhaps of the peak.
fn d_after(alloc: Global, change: Change, place: u8, letter: Letter) -> Result<Expr, Memory> {
    match (change, place, letter) {
        (Change::FifteenWords, 0, Less) => many(alloc, 7),
        (Change::SeventeenWords, 0, Less) => many(alloc, 8),
        (Change::MaxOfHigh, 0, Less) => max(alloc, Expr::D, Expr::PosInf),
        (Change::MinOfLow, 0, Less) => min(alloc, Expr::NegInf, Expr::D),
        (_, 1, Less) | (_, 1 | 2, Equal) => add(alloc, Expr::D, Expr::Unit),
        (_, 1 | 2, _) => Ok(Expr::Zero),
        _ => Ok(Expr::D),
    }
}

/// The third register: the widths of the peaks that are over.
fn r_after(alloc: Global, place: u8, letter: Letter) -> Result<Expr, Memory> {
    match (place, letter) {
        (2, Less) => add(alloc, Expr::R, Expr::C),
        _ => Ok(Expr::R),
    }
}

/// The state that a letter leads to, with the change; further states are like the first.
fn next_after(change: Change, place: u8, letter: Letter) -> u8 {
    match (change, place, letter) {
        (Change::NoTarget, 0, Less) => 3,
        (_, _, Less) | (_, 1, Equal) => 1,
        (_, 1, Greater) | (_, 2, _) => 2,
        _ => 0,
    }
}

fn turn(alloc: Global, change: Change, place: u8, letter: Letter) -> Result<Turn, Memory> {
    let c = c_after(alloc, change, place, letter)?;
    let d = d_after(alloc, change, place, letter)?;
    let r = r_after(alloc, place, letter)?;
    let e = match change {
        Change::EMoves => Expr::Unit,
        _ => Expr::Zero,
    };
    Ok(Turn {
        next: next_after(change, place, letter),
        c,
        e,
        d,
        f: Expr::Zero,
        r,
    })
}

fn name_of(change: Change, place: u8) -> u8 {
    match (change, place) {
        (Change::NameTwice, 0) | (_, 1) => b'r',
        (Change::CapitalName, 0) => b'S',
        (_, 0) => b's',
        (_, 2) => b't',
        _ => b'a' + place % 16,
    }
}

/// The state of the automaton of peaks at a place, with the change.
fn changed_state(alloc: Global, change: Change, place: u8) -> Result<State, Memory> {
    let less = turn(alloc, change, place, Less)?;
    let equal = turn(alloc, change, place, Equal)?;
    let greater = turn(alloc, change, place, Greater)?;
    Ok(State {
        name: name_of(change, place),
        held: place == 2 || (place == 0 && matches!(change, Change::HeldStart)),
        less,
        equal,
        greater,
    })
}

/// The finish expression, with the change.
fn changed_finish(alloc: Global, change: Change) -> Result<Expr, Memory> {
    match change {
        Change::CellInFinish => add(alloc, Expr::R, Expr::This),
        Change::HighInFinish => max(alloc, Expr::R, Expr::PosInf),
        Change::LowC | Change::LowCIntoHeld | Change::LowCOutOfHeld => max(alloc, Expr::R, Expr::C),
        Change::SubInFinish | Change::WideSubInFinish | Change::WideSubOfLow => {
            Expr::over(alloc, Operator::Sub, Expr::R, Expr::C)
        }
        _ => add(alloc, Expr::R, Expr::C),
    }
}

/// The start constants, with the change.
fn changed_start(change: Change) -> Regs {
    let zeros = Regs {
        c: ZERO,
        e: ZERO,
        d: ZERO,
        f: ZERO,
        r: ZERO,
    };
    match change {
        Change::StartTwo => Regs {
            r: Ext::Int(2),
            ..zeros
        },
        Change::AddedLow => Regs {
            d: Ext::NegInf,
            ..zeros
        },
        Change::LowC | Change::LowCIntoHeld | Change::LowCOutOfHeld | Change::WideSubOfLow => Regs {
            c: Ext::NegInf,
            ..zeros
        },
        Change::FStartsAtOne => Regs {
            f: Ext::Int(1),
            ..zeros
        },
        _ => zeros,
    }
}

fn count_of(change: Change) -> u8 {
    match change {
        Change::NoState => 0,
        Change::OneState => 1,
        Change::EightStates => 8,
        Change::NineStates => 9,
        _ => 3,
    }
}

fn changed_states(alloc: Global, change: Change) -> Result<Vec<State>, Memory> {
    let mut states = Vec::new(alloc);
    for place in 0..count_of(change) {
        states.push(changed_state(alloc, change, place)?)?;
    }
    Ok(states)
}

/// The automaton of peaks with the change.
fn changed(alloc: Global, change: Change) -> Result<Option<Automaton>, Memory> {
    let states = changed_states(alloc, change)?;
    let finish = changed_finish(alloc, change)?;
    let wide = matches!(change, Change::WideSubInFinish | Change::WideSubOfLow);
    Ok(Automaton::new(states, changed_start(change), finish, Mark::Same, wide))
}

fn is_taken(alloc: Global, change: Change) -> Result<bool, Memory> {
    Ok(changed(alloc, change)?.is_some())
}

#[test]
fn broken_rules(rt: HostRuntime) {
    let rows = changes();
    for place in 0..rows.len() {
        let (change, taken) = rows[place];
        assert!(rt; is_taken(rt.alloc(), change) == Ok(taken), "row {place}");
    }
}
