//! Plateaus: a rise and a fall, with at most a level part between; mirrored, plains.

use crate::table::PrintedTable;
use ts_base::Kind::{Idle, Pending};
use ts_base::Letter::{Greater, Less};
use ts_pattern::Tag::{Due, InD, Loose};
use ts_transducer::Phase::{FoundE, MaybeB, Out, OutR};

// The states, in the order of the rows.
const S: u8 = 0;

const R: u8 = 1;

const T: u8 = 2;

/// `plateau`, `<=*>`; mirrored, `plain`.
pub const PLATEAU: PrintedTable = PrintedTable {
    rows: &[
        (Idle, (Out, R), (Out, S), (Out, S)), // s
        (Idle, (Out, R), (MaybeB, T), (FoundE, S)), // r
        (Pending, (OutR, R), (MaybeB, T), (FoundE, S)), // t
    ],
    residuals: &[
        (0, Less), // 1: =*>
        (1, Greater), // 2: ε
    ],
    configurations: &[
        (S, &[]),
        (R, &[(1, Due)]),
        (T, &[(1, InD)]),
        (S, &[(2, Loose)]),
    ],
    joins: &[(R, R), (R, T), (T, R), (T, T)],
};
