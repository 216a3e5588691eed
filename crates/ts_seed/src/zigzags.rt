//! Zigzags: at least three signs, in turn rising and falling.

use crate::table::PrintedTable;
use ts_base::Kind::{Held, Idle, Pending};
use ts_base::Letter::{Greater, Less};
use ts_pattern::Tag::{Due, InC, InD, Loose};
use ts_transducer::Phase::{Found, Inside, MaybeB, Out, OutA, OutR};

// The states, in the order of the rows.
const S: u8 = 0;

const A: u8 = 1;

const B: u8 = 2;

const C: u8 = 3;

const D: u8 = 4;

const E: u8 = 5;

const F: u8 = 6;

/// `zigzag`, `(<>)+(<|<>)|(><)+(>|><)`.
pub const ZIGZAG: PrintedTable = PrintedTable {
    rows: &[
        (Idle, (Out, A), (Out, S), (Out, B)), // s
        (Idle, (Out, A), (Out, S), (MaybeB, C)), // a
        (Idle, (MaybeB, D), (Out, S), (Out, B)), // b
        (Pending, (Found, E), (OutR, S), (OutR, B)), // c
        (Pending, (OutR, A), (OutR, S), (Found, F)), // d
        (Held, (OutA, A), (OutA, S), (Inside, F)), // e
        (Held, (Inside, E), (OutA, S), (OutA, B)), // f
    ],
    residuals: &[
        (0, Less), // 1: >(<>)*(<|<>)
        (0, Greater), // 2: <(><)*(>|><)
        (1, Greater), // 3: (<>)*(<|<>)
        (2, Less), // 4: (><)*(>|><)
        (3, Less), // 5: ε|>|>(<>)*(<|<>)
        (4, Greater), // 6: ε|<|<(><)*(>|><)
        (5, Greater), // 7: ε|(<>)*(<|<>)
        (6, Less), // 8: ε|(><)*(>|><)
    ],
    configurations: &[
        (S, &[]),
        (A, &[(1, Due)]),
        (B, &[(2, Due)]),
        (C, &[(3, InD), (2, Due)]),
        (D, &[(4, InD), (1, Due)]),
        (E, &[(5, InC), (4, Loose), (1, Due)]),
        (F, &[(6, InC), (3, Loose), (2, Due)]),
        (F, &[(7, InC), (6, Loose), (3, Loose), (2, Due)]),
        (E, &[(8, InC), (5, Loose), (4, Loose), (1, Due)]),
        (E, &[(5, InC), (8, Loose), (4, Loose), (1, Due)]),
        (F, &[(6, InC), (7, Loose), (3, Loose), (2, Due)]),
    ],
    joins: &[
        (A, D),
        (A, E),
        (B, C),
        (B, F),
        (C, B),
        (C, C),
        (C, F),
        (D, A),
        (D, D),
        (D, E),
        (E, A),
        (E, D),
        (E, E),
        (F, B),
        (F, C),
        (F, F),
    ],
};
