//! Plans whose step isn't listed, or where a match ends and the transducer says otherwise; and one that is closed.

use super::Small;
use ts_base::Kind::{Held, Idle, Pending};
use ts_base::Letter::{Equal, Greater, Less};
use ts_transducer::Phase::{Found, FoundE, Inside, MaybeA, MaybeB, Out, OutA, OutR};

static PLANS: [Small; 12] = [
    // Closed: a residual goes by its value, whatever its number, and a configuration that isn't reached may be
    // anything.
    Small {
        pattern: ">",
        b: 0,
        a: 0,
        rows: &[(Idle, (Out, 0), (Out, 0), (FoundE, 0))],
        residuals: "0>0>",
        configurations: "0 02l 00c",
        refused: None,
    },
    // The step has one entry; the listed ones have another residual, another tag, none, one more, and another state.
    Small {
        pattern: ">=.",
        b: 0,
        a: 0,
        rows: &[(Idle, (Out, 0), (Out, 0), (Out, 0))],
        residuals: "0>1=",
        configurations: "0 02l 01u 01l2l 11l",
        refused: Some((0, Greater, "")),
    },
    // What the letter leaves isn't among the residuals.
    Small {
        pattern: ">=.",
        b: 0,
        a: 0,
        rows: &[(Idle, (Out, 0), (Out, 0), (Out, 0))],
        residuals: "",
        configurations: "0",
        refused: Some((0, Greater, "")),
    },
    // The entries of the step are listed in another order.
    Small {
        pattern: ">=>..",
        b: 1,
        a: 0,
        rows: &[
            (Idle, (Out, 0), (Out, 0), (Out, 1)),
            (Idle, (Out, 0), (MaybeB, 2), (Out, 1)),
            (Pending, (OutR, 0), (OutR, 0), (FoundE, 1)),
        ],
        residuals: "0>1=2>",
        configurations: "0 11u 22d 11u3l",
        refused: Some((2, Greater, ">=")),
    },
    // Two signs are still to come, and the plan lists one.
    Small {
        pattern: ">>>>...",
        b: 3,
        a: 0,
        rows: &[(Idle, (Out, 0), (Out, 0), (Out, 0))],
        residuals: "0>",
        configurations: "0 01y",
        refused: Some((0, Greater, "")),
    },
    // The peak whose fall ends at the start.
    Small {
        pattern: "<=<|*>=|*>...",
        b: 1,
        a: 0,
        rows: &[
            (Idle, (Out, 1), (Out, 0), (Out, 0)),
            (Pending, (MaybeB, 1), (MaybeB, 1), (Found, 2)),
            (Held, (OutA, 0), (MaybeA, 2), (Inside, 2)),
        ],
        residuals: "0<1=1>3=",
        configurations: "0 11u 11d 12d 23c 24c",
        refused: Some((4, Less, "<>")),
    },
    // Two configurations fail: the one with the least number is named, though the other was reached first.
    Small {
        pattern: "<=.>=.|",
        b: 0,
        a: 0,
        rows: &[
            (Idle, (Out, 1), (Out, 0), (Out, 2)),
            (Idle, (Out, 1), (Out, 0), (Out, 2)),
            (Idle, (Out, 1), (Out, 0), (Out, 2)),
        ],
        residuals: "0<1=",
        configurations: "0 21l 11l 02l",
        refused: Some((1, Equal, ">")),
    },
    // A held start that goes on after the end of its range is Loose: that leads to the one with the least number.
    Small {
        pattern: ">=*.",
        b: 0,
        a: 0,
        rows: &[
            (Idle, (Out, 0), (Out, 0), (Found, 1)),
            (Held, (OutA, 0), (OutA, 0), (OutA, 0)),
        ],
        residuals: "0>",
        configurations: "0 01l 11c",
        refused: Some((1, Equal, ">=")),
    },
    // A match ends, and nothing is found.
    Small {
        pattern: ">",
        b: 0,
        a: 0,
        rows: &[(Idle, (Out, 0), (Out, 0), (Out, 0))],
        residuals: "0>",
        configurations: "0 01l",
        refused: Some((0, Greater, "")),
    },
    // No match ends at the sign by which the held range grows.
    Small {
        pattern: ">>=>..|",
        b: 0,
        a: 0,
        rows: &[
            (Idle, (Out, 0), (Out, 0), (Found, 1)),
            (Held, (OutA, 0), (Inside, 1), (OutA, 0)),
        ],
        residuals: "0>1=",
        configurations: "0 11c 12c",
        refused: Some((1, Equal, ">")),
    },
    // A match ends, but not one of the first start.
    Small {
        pattern: ">>.*>.",
        b: 0,
        a: 0,
        rows: &[
            (Idle, (Out, 0), (Out, 0), (Found, 1)),
            (Held, (OutA, 0), (OutA, 0), (Inside, 2)),
            (Held, (OutA, 0), (OutA, 0), (Inside, 1)),
        ],
        residuals: "0>",
        configurations: "0 11c 20c1l 11c0l",
        refused: Some((1, Greater, ">")),
    },
    // A match ends, but not one of the first start, and the sign is no match's.
    Small {
        pattern: ">>.*>.",
        b: 0,
        a: 0,
        rows: &[
            (Idle, (Out, 0), (Out, 0), (Found, 1)),
            (Held, (OutA, 0), (OutA, 0), (MaybeA, 2)),
            (Held, (OutA, 0), (OutA, 0), (Inside, 1)),
        ],
        residuals: "0>",
        configurations: "0 11c 20c1l 11c0l",
        refused: Some((1, Greater, ">")),
    },
];

// The table behind a function, so that the proof of the test doesn't read it.
pub fn plans() -> &'static [Small] {
    &PLANS
}
