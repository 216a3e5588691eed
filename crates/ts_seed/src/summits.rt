//! Summits: a rise up to the last sign before the top, and a fall from the first sign after it; mirrored, gorges.

use crate::table::PrintedTable;
use ts_base::Kind::{Held, Idle, Pending};
use ts_base::Letter::{Equal, Greater, Less};
use ts_pattern::Tag::{Due, InC, InD, Loose};
use ts_transducer::Phase::{Found, Inside, MaybeA, MaybeB, Out, OutA, OutR};

// The states, in the order of the rows.
const S: u8 = 0;

const R: u8 = 1;

const U: u8 = 2;

const T: u8 = 3;

/// `summit`, `(<|<(=|<)*<)(>|>(=|>)*>)`; mirrored, `gorge`.
pub const SUMMIT: PrintedTable = PrintedTable {
    rows: &[
        (Idle, (Out, R), (Out, S), (Out, S)), // s
        (Pending, (MaybeB, R), (MaybeB, U), (Found, T)), // r
        (Pending, (MaybeB, R), (MaybeB, U), (OutR, S)), // u
        (Held, (OutA, R), (MaybeA, T), (Inside, T)), // t
    ],
    residuals: &[
        (0, Less), // 1: (ε|(<|=)*<)(>|>(=|>)*>)
        (1, Equal), // 2: (<|=)*<(>|>(=|>)*>)
        (1, Greater), // 3: ε|(=|>)*>
        (2, Less), // 4: >|>(=|>)*>|(<|=)*<(>|>(=|>)*>)
        (3, Equal), // 5: (=|>)*>
    ],
    configurations: &[
        (S, &[]),
        (R, &[(1, Due)]),
        (R, &[(1, InD)]),
        (U, &[(2, InD)]),
        (T, &[(3, InC)]),
        (R, &[(4, InD), (1, Due)]),
        (T, &[(5, InC)]),
        (R, &[(4, InD), (1, Loose)]),
    ],
    joins: &[(R, R), (R, T), (U, T), (T, R), (T, U)],
};
