//! Terraces and proper plateaus: a level part of at least one sign between two others.

use crate::table::PrintedTable;
use ts_base::Kind::{Idle, Pending};
use ts_base::Letter::{Equal, Greater, Less};
use ts_pattern::Tag::{Due, InD, Loose};
use ts_transducer::Phase::{FoundE, MaybeB, Out, OutR};

// The states, in the order of the rows.
const S: u8 = 0;

const R: u8 = 1;

const T: u8 = 2;

/// `increasing_terrace`, `<=+<`; mirrored, `decreasing_terrace`.
pub const INCREASING_TERRACE: PrintedTable = PrintedTable {
    rows: &[
        (Idle, (Out, R), (Out, S), (Out, S)), // s
        (Idle, (Out, R), (MaybeB, T), (Out, S)), // r
        (Pending, (FoundE, R), (MaybeB, T), (OutR, S)), // t
    ],
    residuals: &[
        (0, Less), // 1: ==*<
        (1, Equal), // 2: =*<
        (2, Less), // 3: ε
    ],
    configurations: &[
        (S, &[]),
        (R, &[(1, Due)]),
        (T, &[(2, InD)]),
        (R, &[(3, Loose), (1, Due)]),
    ],
    joins: &[(R, T), (T, R), (T, T)],
};

/// `proper_plateau`, `<=+>`; mirrored, `proper_plain`.
pub const PROPER_PLATEAU: PrintedTable = PrintedTable {
    rows: &[
        (Idle, (Out, R), (Out, S), (Out, S)), // s
        (Idle, (Out, R), (MaybeB, T), (Out, S)), // r
        (Pending, (OutR, R), (MaybeB, T), (FoundE, S)), // t
    ],
    residuals: &[
        (0, Less), // 1: ==*>
        (1, Equal), // 2: =*>
        (2, Greater), // 3: ε
    ],
    configurations: &[
        (S, &[]),
        (R, &[(1, Due)]),
        (T, &[(2, InD)]),
        (S, &[(3, Loose)]),
    ],
    joins: &[(R, T), (T, R), (T, T)],
};
