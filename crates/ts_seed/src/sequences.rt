//! Steps and sequences: one sign, or a run of signs that rise or stay; mirrored, those that fall.

use crate::table::PrintedTable;
use ts_base::Kind::{Held, Idle};
use ts_base::Letter::{Equal, Less};
use ts_pattern::Tag::{InC, Loose};
use ts_transducer::Phase::{Found, FoundE, Inside, MaybeA, Out, OutA};

// The states, in the order of the rows.
const S: u8 = 0;

const T: u8 = 1;

/// `increasing`, `<`; mirrored, `decreasing`.
pub const INCREASING: PrintedTable = PrintedTable {
    rows: &[
        (Idle, (FoundE, S), (Out, S), (Out, S)), // s
    ],
    residuals: &[
        (0, Less), // 1: ε
    ],
    configurations: &[(S, &[]), (S, &[(1, Loose)])],
    joins: &[],
};

/// `steady`, `=`.
pub const STEADY: PrintedTable = PrintedTable {
    rows: &[
        (Idle, (Out, S), (FoundE, S), (Out, S)), // s
    ],
    residuals: &[
        (0, Equal), // 1: ε
    ],
    configurations: &[(S, &[]), (S, &[(1, Loose)])],
    joins: &[],
};

/// `increasing_sequence`, `<(<|=)*<|<`; mirrored, `decreasing_sequence`.
pub const INCREASING_SEQUENCE: PrintedTable = PrintedTable {
    rows: &[
        (Idle, (Found, T), (Out, S), (Out, S)), // s
        (Held, (Inside, T), (MaybeA, T), (OutA, S)), // t
    ],
    residuals: &[
        (0, Less), // 1: ε|(<|=)*<
        (1, Equal), // 2: (<|=)*<
    ],
    configurations: &[(S, &[]), (T, &[(1, InC)]), (T, &[(2, InC)])],
    joins: &[(T, T)],
};

/// `strictly_increasing_sequence`, `<+`; mirrored, `strictly_decreasing_sequence`.
pub const STRICTLY_INCREASING_SEQUENCE: PrintedTable = PrintedTable {
    rows: &[
        (Idle, (Found, T), (Out, S), (Out, S)), // s
        (Held, (Inside, T), (OutA, S), (OutA, S)), // t
    ],
    residuals: &[
        (0, Less), // 1: <*
    ],
    configurations: &[(S, &[]), (T, &[(1, InC)])],
    joins: &[(T, T)],
};

/// `steady_sequence`, `=+`.
pub const STEADY_SEQUENCE: PrintedTable = PrintedTable {
    rows: &[
        (Idle, (Out, S), (Found, T), (Out, S)), // s
        (Held, (OutA, S), (Inside, T), (OutA, S)), // t
    ],
    residuals: &[
        (0, Equal), // 1: =*
    ],
    configurations: &[(S, &[]), (T, &[(1, InC)])],
    joins: &[(T, T)],
};
