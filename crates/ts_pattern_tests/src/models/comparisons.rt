//! Comparisons of values with bounds.

use std::cmp::Ordering;
use ts_base::Ext;
use ts_model::{Op, satisfies};

/// Values and bounds, each below those after it.
static RISING: [Ext; 7] = [
    Ext::NegInf,
    Ext::Int(-1_000_000_000_000),
    Ext::Int(-3),
    Ext::Int(0),
    Ext::Int(3),
    Ext::Int(4),
    Ext::PosInf,
];

/// A comparison, and whether it holds of a value below the bound, of the bound itself, and of a value above it.
static COMPARISONS: [(Op, bool, bool, bool); 6] = [
    (Op::Equal, false, true, false),
    (Op::Unequal, true, false, true),
    (Op::AtMost, true, true, false),
    (Op::AtLeast, false, true, true),
    (Op::Below, true, false, false),
    (Op::Above, false, false, true),
];

// Each table behind a function, so that the proof of a test doesn't read it.
fn rising() -> &'static [Ext] {
    &RISING
}

fn comparisons() -> &'static [(Op, bool, bool, bool)] {
    &COMPARISONS
}

#[test]
fn comparisons_of_values(rt: HostRuntime) {
    for (op, below, same, above) in comparisons() {
        for (place, bound) in rising().iter().enumerate() {
            for (other, value) in rising().iter().enumerate() {
                let want = match other.cmp(&place) {
                    Ordering::Less => below,
                    Ordering::Equal => same,
                    Ordering::Greater => above,
                };
                assert!(rt; satisfies(*op, *bound, *value) == *want, "{op:?}");
            }
        }
    }
}
