//! Plans by which the transducer finds, holds or keeps another start than the earliest one that is alive.

use super::Small;
use ts_base::Kind::{Held, Idle, Pending};
use ts_base::Letter::{Equal, Greater, Less};
use ts_transducer::Phase::{Found, FoundE, Inside, MaybeA, MaybeB, Out, OutA, OutR};

static PLANS: [Small; 12] = [
    // The find comes before the first cell of the range.
    Small {
        pattern: ">",
        b: 1,
        a: 0,
        rows: &[(Idle, (Out, 0), (Out, 0), (FoundE, 0))],
        residuals: "0>",
        configurations: "0 01u",
        refused: Some((0, Greater, "")),
    },
    // The first start isn't the decoder's, but the second one would be.
    Small {
        pattern: "=>.>>*.|",
        b: 0,
        a: 0,
        rows: &[
            (Idle, (Out, 0), (Out, 1), (Found, 2)),
            (Idle, (Out, 0), (Out, 1), (FoundE, 0)),
            (Held, (OutA, 0), (OutA, 1), (Inside, 2)),
        ],
        residuals: "0=0>1>",
        configurations: "0 11l 22c 03l2l",
        refused: Some((1, Greater, "=")),
    },
    // The decoder keeps the start of a broken attempt, and the find is another start's.
    Small {
        pattern: "<=.>|",
        b: 0,
        a: 0,
        rows: &[
            (Idle, (MaybeB, 1), (Out, 0), (FoundE, 0)),
            (Pending, (OutR, 0), (FoundE, 0), (FoundE, 0)),
        ],
        residuals: "0<1=",
        configurations: "0 11d 01l 02l",
        refused: Some((1, Greater, "<")),
    },
    // The decoder gave its start up while the match could still end.
    Small {
        pattern: "<=*>..",
        b: 1,
        a: 0,
        rows: &[
            (Idle, (Out, 1), (Out, 0), (Out, 0)),
            (Idle, (Out, 1), (MaybeB, 2), (FoundE, 0)),
            (Pending, (OutR, 1), (OutR, 2), (FoundE, 0)),
        ],
        residuals: "0<1>",
        configurations: "0 11u 21d 02l 21l",
        refused: Some((4, Greater, "<==")),
    },
    // What is found at once may still grow.
    Small {
        pattern: ">>*.",
        b: 0,
        a: 0,
        rows: &[(Idle, (Out, 0), (Out, 0), (FoundE, 0))],
        residuals: "0>",
        configurations: "0 01l",
        refused: Some((0, Greater, "")),
    },
    // What is found at once may still grow, though the match of a later start can't.
    Small {
        pattern: "=>>*..>|",
        b: 0,
        a: 0,
        rows: &[
            (Idle, (Out, 0), (MaybeB, 1), (FoundE, 0)),
            (Pending, (OutR, 0), (OutR, 0), (FoundE, 0)),
        ],
        residuals: "0=0>1>",
        configurations: "0 11d 01l 03l2l 02l",
        refused: Some((1, Greater, "=")),
    },
    // A range is held on, and no start is left.
    Small {
        pattern: ">",
        b: 0,
        a: 0,
        rows: &[
            (Idle, (Out, 0), (Out, 0), (Found, 1)),
            (Held, (MaybeA, 1), (OutA, 0), (Inside, 1)),
        ],
        residuals: "0>",
        configurations: "0 11c 1 11l",
        refused: Some((1, Less, ">")),
    },
    // The held range is released, and its match could still grow.
    Small {
        pattern: ">>=>..|",
        b: 0,
        a: 0,
        rows: &[
            (Idle, (Out, 0), (Out, 0), (Found, 1)),
            (Held, (OutA, 0), (OutA, 0), (OutA, 0)),
        ],
        residuals: "0>1=",
        configurations: "0 11c 02l",
        refused: Some((1, Equal, ">")),
    },
    // A start is kept where none is alive.
    Small {
        pattern: ">",
        b: 0,
        a: 0,
        rows: &[
            (Idle, (MaybeB, 1), (Out, 0), (FoundE, 0)),
            (Pending, (OutR, 0), (OutR, 0), (FoundE, 0)),
        ],
        residuals: "0>",
        configurations: "0 1 01l",
        refused: Some((0, Less, "")),
    },
    // The start of a broken attempt is kept on in place of the next one.
    Small {
        pattern: "<=*>..",
        b: 0,
        a: 0,
        rows: &[
            (Idle, (MaybeB, 1), (Out, 0), (Out, 0)),
            (Pending, (MaybeB, 1), (MaybeB, 1), (FoundE, 0)),
        ],
        residuals: "0<1>",
        configurations: "0 11d 11l 02l",
        refused: Some((1, Less, "<")),
    },
    // The second start is kept, which is one, and the first one finds.
    Small {
        pattern: "==>..",
        b: 0,
        a: 0,
        rows: &[
            (Idle, (Out, 0), (Out, 1), (Out, 0)),
            (Idle, (Out, 0), (MaybeB, 2), (Out, 0)),
            (Pending, (OutR, 0), (MaybeB, 2), (FoundE, 0)),
        ],
        residuals: "0=1=2>",
        configurations: "0 11l 22l1d 22d1l 03l",
        refused: Some((2, Greater, "==")),
    },
    // The plateau that keeps its start where a rise breaks the level part: only the last check sees it.
    Small {
        pattern: "<=*>..",
        b: 1,
        a: 1,
        rows: &[
            (Idle, (Out, 1), (Out, 0), (Out, 0)),
            (Pending, (OutR, 1), (MaybeB, 2), (FoundE, 0)),
            (Pending, (MaybeB, 1), (MaybeB, 2), (FoundE, 0)),
        ],
        residuals: "0<1>",
        configurations: "0 11u 21d 02l",
        refused: Some((2, Less, "<=")),
    },
];

// The table behind a function, so that the proof of the test doesn't read it.
pub fn plans() -> &'static [Small] {
    &PLANS
}
