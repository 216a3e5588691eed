//! Dips on a rise; mirrored, bumps on a fall.

use crate::table::PrintedTable;
use ts_base::Kind::{Idle, Pending};
use ts_base::Letter::{Greater, Less};
use ts_pattern::Tag::{Due, InD, Loose, Young};
use ts_transducer::Phase::{FoundE, MaybeB, Out, OutR};

// The states, in the order of the rows.
const S: u8 = 0;

const A: u8 = 1;

const B: u8 = 2;

const C: u8 = 3;

const D: u8 = 4;

/// `dip_on_increasing_sequence`, `<<><<`; mirrored, `bump_on_decreasing_sequence`.
pub const DIP_ON_INCREASING_SEQUENCE: PrintedTable = PrintedTable {
    rows: &[
        (Idle, (Out, A), (Out, S), (Out, S)), // s
        (Idle, (Out, B), (Out, S), (Out, S)), // a
        (Idle, (Out, B), (Out, S), (MaybeB, C)), // b
        (Pending, (MaybeB, D), (OutR, S), (OutR, S)), // c
        (Pending, (FoundE, B), (OutR, S), (OutR, S)), // d
    ],
    residuals: &[
        (0, Less), // 1: <><<
        (1, Less), // 2: ><<
        (2, Greater), // 3: <<
        (3, Less), // 4: <
        (4, Less), // 5: ε
    ],
    configurations: &[
        (S, &[]),
        (A, &[(1, Young(1))]),
        (B, &[(2, Due), (1, Young(1))]),
        (C, &[(3, InD)]),
        (D, &[(4, InD), (1, Young(1))]),
        (B, &[(5, Loose), (2, Due), (1, Young(1))]),
    ],
    joins: &[],
};
