//! Inflexions and peaks: where a series turns.

use crate::table::PrintedTable;
use ts_base::Kind::{Held, Idle, Pending};
use ts_base::Letter::{Equal, Greater, Less};
use ts_pattern::Tag::{Due, InC, InD, Loose};
use ts_transducer::Phase::{Found, FoundE, Inside, MaybeA, MaybeB, Out, OutA};

// The states, in the order of the rows.
const S: u8 = 0;

const R: u8 = 1;

const T: u8 = 2;

/// `inflexion`, `<(<|=)*>|>(>|=)*<`.
pub const INFLEXION: PrintedTable = PrintedTable {
    rows: &[
        (Idle, (Out, R), (Out, S), (Out, T)), // s
        (Pending, (MaybeB, R), (MaybeB, R), (FoundE, T)), // r
        (Pending, (FoundE, R), (MaybeB, T), (MaybeB, T)), // t
    ],
    residuals: &[
        (0, Less), // 1: (<|=)*>
        (0, Greater), // 2: (=|>)*<
        (1, Greater), // 3: ε
    ],
    configurations: &[
        (S, &[]),
        (R, &[(1, Due)]),
        (T, &[(2, Due)]),
        (R, &[(1, InD)]),
        (T, &[(3, Loose), (2, Due)]),
        (R, &[(3, Loose), (1, Due)]),
        (T, &[(2, InD)]),
    ],
    joins: &[],
};

/// `peak`, `<(=|<)*(>|=)*>`; mirrored, `valley`.
pub const PEAK: PrintedTable = PrintedTable {
    rows: &[
        (Idle, (Out, R), (Out, S), (Out, S)), // s
        (Pending, (MaybeB, R), (MaybeB, R), (Found, T)), // r
        (Held, (OutA, R), (MaybeA, T), (Inside, T)), // t
    ],
    residuals: &[
        (0, Less), // 1: (<|=)*(=|>)*>
        (1, Equal), // 2: (<|=)*(=|>)*>|(=|>)*>
        (1, Greater), // 3: ε|(=|>)*>
        (3, Equal), // 4: (=|>)*>
    ],
    configurations: &[
        (S, &[]),
        (R, &[(1, Due)]),
        (R, &[(1, InD)]),
        (R, &[(2, InD)]),
        (T, &[(3, InC)]),
        (T, &[(4, InC)]),
    ],
    joins: &[(R, R), (R, T), (T, R)],
};
