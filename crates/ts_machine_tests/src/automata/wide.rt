//! Differences, and runs of wide automata, worked out by hand.

use super::ZERO;
use super::runs::answers;
use std::alloc::Global;
use ts_automaton::{difference, difference_span, read};
use ts_base::{Ext, Span};

/// The first, the second, and the first less the second.
static DIFFERENCES: [(Ext, Ext, Ext); 15] = [
    (Ext::Int(5), Ext::Int(7), Ext::Int(-2)),
    (Ext::Int(7), Ext::Int(-5), Ext::Int(12)),
    // held at the ends
    (
        Ext::Int(100_000_000_000_000_000),
        Ext::Int(-1),
        Ext::Int(100_000_000_000_000_000),
    ),
    (
        Ext::Int(-99_999_999_999_999_999),
        Ext::Int(2),
        Ext::Int(-100_000_000_000_000_000),
    ),
    (
        Ext::Int(i64::MIN),
        Ext::Int(i64::MAX),
        Ext::Int(-100_000_000_000_000_000),
    ),
    (ZERO, Ext::Int(i64::MIN), Ext::Int(100_000_000_000_000_000)),
    (Ext::Int(i64::MIN), Ext::Int(i64::MIN), ZERO),
    // infinities
    (Ext::NegInf, Ext::NegInf, Ext::NegInf),
    (Ext::NegInf, ZERO, Ext::NegInf),
    (Ext::NegInf, Ext::PosInf, Ext::NegInf),
    (ZERO, Ext::NegInf, Ext::PosInf),
    (ZERO, Ext::PosInf, Ext::NegInf),
    (Ext::PosInf, Ext::NegInf, Ext::PosInf),
    (Ext::PosInf, ZERO, Ext::PosInf),
    (Ext::PosInf, Ext::PosInf, Ext::NegInf),
];

/// How far each fall of two cells goes, added up.
const FALLS: &str =
    "forward wide\nstate s free\nstart 0 0 -inf +inf 0\nmove s < s ; C ; E ; D ; F ; R\nmove s = s ; C ; E ; D ; F ; R\nmove s > s ; C ; E ; -inf ; +inf ; add R sub max max D x y min min F x y\nfinish add R sub C E same\nend\n";

/// The greatest less the least cell of each falling stretch, the greatest of these.
const STRETCHES: &str =
    "forward wide\nstate s free\nstate r held\nstart -inf 0 -inf +inf -inf\nmove s < s ; C ; E ; D ; F ; R\nmove s = s ; C ; E ; D ; F ; R\nmove s > r ; max max D x y ; min min F x y ; -inf ; +inf ; R\nmove r < s ; -inf ; 0 ; -inf ; +inf ; max R sub C E\nmove r = s ; -inf ; 0 ; -inf ; +inf ; max R sub C E\nmove r > r ; max C max D y ; min E min F y ; -inf ; +inf ; R\nfinish max R sub C E same\nend\n";

/// An automaton, a series, and its answer.
static RUNS: [(&str, &[i64], i64); 6] = [
    (FALLS, &[5], 0),
    (FALLS, &[1, 2, 2], 0),
    (FALLS, &[5, 3, 1], 4),
    (FALLS, &[9, 9, 2, 4, -1], 12),
    (STRETCHES, &[5, 3, 1], 4),
    (STRETCHES, &[5, 3, 8, 7, 2, 2, 6, 1], 6),
];

// The tables behind functions, so that the proofs of the tests don't read them.
fn differences() -> &'static [(Ext, Ext, Ext)] {
    &DIFFERENCES
}

fn runs() -> &'static [(&'static str, &'static [i64], i64)] {
    &RUNS
}

/// The first row with another difference, of numbers or of the spans that hold one number each.
fn first_wrong_difference() -> Option<usize> {
    let rows = differences();
    for k in 0..rows.len() {
        let (x, y, less) = rows[k];
        let spans = difference_span(Span::one(x), Span::one(y));
        if difference(x, y) != less || spans != Span::one(less) {
            return Some(k);
        }
    }
    None
}

fn span(lo: i64, hi: i64) -> Span {
    Span {
        lo: Ext::Int(lo),
        hi: Ext::Int(hi),
    }
}

fn spans_are_taken_away() -> bool {
    difference_span(span(1, 9), span(2, 3)) == span(-2, 7)
        && difference_span(span(1, 9), Span::none()) == Span::none()
        && difference_span(Span::none(), span(2, 3)) == Span::none()
}

#[test]
fn the_first_less_the_second(rt: HostRuntime) {
    assert!(rt; first_wrong_difference().is_none());
    assert!(rt; spans_are_taken_away());
}

/// Whether a text is a wide automaton that answers this number.
fn answers_so(alloc: Global, text: &str, series: &[i64], number: i64) -> bool {
    match read(alloc, text.as_bytes()) {
        Ok(automaton) => automaton.wide() && answers(&automaton, series, number),
        Err(_) => false,
    }
}

#[test]
fn answers_of_wide_automata(rt: HostRuntime) {
    for (text, series, number) in runs() {
        assert!(rt; answers_so(rt.alloc(), text, series, *number), "{number}");
    }
}
