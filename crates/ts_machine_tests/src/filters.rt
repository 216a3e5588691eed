//! Spans that refute, or cut, and spans that don't, found by going over the numbers of each span.

use Ext::{Int, NegInf, PosInf};
use ts_base::{Ext, Goal, Span};
use ts_filter::{Bar, cuts, refutes};
use ts_model::Op;

/// The comparisons.
pub(super) const OPS: [Op; 6] = [
    Op::Equal,
    Op::Unequal,
    Op::AtMost,
    Op::AtLeast,
    Op::Below,
    Op::Above,
];

/// A span, a bound, and for each comparison in its order whether no number of the span meets it with the bound.
static REFUTED: [((Ext, Ext), Ext, [bool; 6]); 20] = [
    (
        (Int(2), Int(2)),
        Int(1),
        [true, false, true, false, true, false],
    ),
    (
        (Int(2), Int(2)),
        Int(2),
        [false, true, false, false, true, true],
    ),
    (
        (Int(2), Int(2)),
        Int(3),
        [true, false, false, true, false, true],
    ),
    (
        (Int(1), Int(3)),
        Int(0),
        [true, false, true, false, true, false],
    ),
    (
        (Int(1), Int(3)),
        Int(1),
        [false, false, false, false, true, false],
    ),
    (
        (Int(1), Int(3)),
        Int(2),
        [false, false, false, false, false, false],
    ),
    (
        (Int(1), Int(3)),
        Int(3),
        [false, false, false, false, false, true],
    ),
    (
        (Int(1), Int(3)),
        Int(4),
        [true, false, false, true, false, true],
    ),
    (
        (NegInf, Int(0)),
        NegInf,
        [false, false, false, false, true, false],
    ),
    (
        (NegInf, Int(0)),
        Int(-3),
        [false, false, false, false, false, false],
    ),
    (
        (NegInf, Int(0)),
        Int(0),
        [false, false, false, false, false, true],
    ),
    (
        (NegInf, Int(0)),
        Int(1),
        [true, false, false, true, false, true],
    ),
    (
        (Int(0), PosInf),
        Int(-1),
        [true, false, true, false, true, false],
    ),
    (
        (Int(0), PosInf),
        Int(0),
        [false, false, false, false, true, false],
    ),
    (
        (Int(0), PosInf),
        Int(5),
        [false, false, false, false, false, false],
    ),
    (
        (Int(0), PosInf),
        PosInf,
        [false, false, false, false, false, true],
    ),
    (
        (NegInf, NegInf),
        NegInf,
        [false, true, false, false, true, true],
    ),
    (
        (NegInf, NegInf),
        Int(0),
        [true, false, false, true, false, true],
    ),
    (
        (PosInf, NegInf),
        Int(0),
        [true, true, true, true, true, true],
    ),
    (
        (Int(3), Int(1)),
        Int(2),
        [true, true, true, true, true, true],
    ),
];

/// A span, a number, and whether no number of the span is greater, at least, less or at most.
static CUT: [((Ext, Ext), Ext, [bool; 4]); 20] = [
    ((Int(2), Int(2)), Int(1), [false, false, true, true]),
    ((Int(2), Int(2)), Int(2), [true, false, true, false]),
    ((Int(2), Int(2)), Int(3), [true, true, false, false]),
    ((Int(1), Int(3)), Int(0), [false, false, true, true]),
    ((Int(1), Int(3)), Int(1), [false, false, true, false]),
    ((Int(1), Int(3)), Int(2), [false, false, false, false]),
    ((Int(1), Int(3)), Int(3), [true, false, false, false]),
    ((Int(1), Int(3)), Int(4), [true, true, false, false]),
    ((NegInf, Int(0)), NegInf, [false, false, true, false]),
    ((NegInf, Int(0)), Int(-3), [false, false, false, false]),
    ((NegInf, Int(0)), Int(0), [true, false, false, false]),
    ((NegInf, Int(0)), Int(1), [true, true, false, false]),
    ((Int(0), PosInf), Int(-1), [false, false, true, true]),
    ((Int(0), PosInf), Int(0), [false, false, true, false]),
    ((Int(0), PosInf), Int(5), [false, false, false, false]),
    ((Int(0), PosInf), PosInf, [true, false, false, false]),
    ((NegInf, NegInf), NegInf, [true, false, true, false]),
    ((NegInf, NegInf), Int(0), [true, true, false, false]),
    ((PosInf, NegInf), Int(0), [true, true, true, true]),
    ((Int(3), Int(1)), Int(2), [true, true, true, true]),
];

// The tables behind functions, so that the proofs of the tests don't read them.
fn refuted_rows() -> &'static [((Ext, Ext), Ext, [bool; 6])] {
    &REFUTED
}

fn cut_rows() -> &'static [((Ext, Ext), Ext, [bool; 4])] {
    &CUT
}

/// Whether the comparisons with the bound are refuted so.
fn refutes_so(span: Span, bound: Ext, told: [bool; 6]) -> bool {
    for k in 0..6 {
        if refutes(OPS[k], bound, span) != told[k] {
            return false;
        }
    }
    true
}

#[test]
fn spans_refute(rt: HostRuntime) {
    for &((lo, hi), bound, told) in refuted_rows() {
        assert!(rt; refutes_so(Span { lo, hi }, bound, told), "{lo:?} {hi:?}");
    }
}

fn cuts_of(v: Ext, span: Span) -> [bool; 4] {
    [
        cuts(Goal::Maximise, Bar::Better(v), span),
        cuts(Goal::Maximise, Bar::AsGood(v), span),
        cuts(Goal::Minimise, Bar::Better(v), span),
        cuts(Goal::Minimise, Bar::AsGood(v), span),
    ]
}

#[test]
fn spans_cut(rt: HostRuntime) {
    for &((lo, hi), v, told) in cut_rows() {
        assert!(rt; cuts_of(v, Span { lo, hi }) == told, "{lo:?} {hi:?}");
    }
}
