//! Runs of the automaton of peaks, on numbers and on spans, and marks on spans.

use super::{Change, ZERO, changed, changed_finish};
use crate::terms::forward_at;
use std::alloc::Global;
use ts_automaton::{Automaton, Hull, HullAt, Mark};
use ts_base::{Ext, Memory, Span};

/// A series, and the sum of the widths of its peaks.
static RUNS: [(&[i64], i64); 8] = [
    (&[5], 0),
    (&[1, 2], 0),
    (&[1, 2, 1], 1),
    (&[3, 2, 1], 0),
    (&[1, 3, 3, 2, 2, 1, 4], 4),
    (&[0, 3, 5, 5, 2, 1, 1, 4, 6, 2, 2, 1], 8),
    (&[1, 2, 1, 2, 1], 2),
    (&[0, 1, 1, 0, 0, 1, 0, 0, 2], 3),
];

fn runs() -> &'static [(&'static [i64], i64)] {
    &RUNS
}

/// The span of the answers on this series alone, by steps of hulls.
#[tactic(auto, using(ts_automaton::proofs::RunLaws::single_stands))]
fn span_of(automaton: &Automaton, series: &[i64]) -> Span {
    let start = automaton.start();
    let mut at = HullAt {
        state: start.state,
        hull: Hull::one(start.regs),
    };
    for k in 1..series.len() {
        at = automaton.eval_span(at, series[k - 1], series[k]);
    }
    automaton.finish_span(at, 9)
}

fn is_of_peaks(alloc: Global, peak: &Automaton) -> Result<bool, Memory> {
    Ok(
        peak.states() == 3
            && peak.mark() == Mark::Same
            && *peak.finish_expr() == changed_finish(alloc, Change::Nothing)?,
    )
}

/// Whether the automaton answers this number, on numbers and on spans.
pub(super) fn answers(automaton: &Automaton, series: &[i64], number: i64) -> bool {
    automaton.finish(forward_at(automaton, series, series.len()), 9) == Ext::Int(number)
        && span_of(automaton, series) == Span::one(Ext::Int(number))
}

/// The first series that has another answer.
fn first_wrong(peak: &Automaton) -> Option<&'static [i64]> {
    for (series, width) in runs() {
        if !answers(peak, series, *width) {
            return Some(series);
        }
    }
    None
}

/// Whether the automaton of peaks is as it was made, and answers all series.
fn has_widths(alloc: Global) -> Result<bool, Memory> {
    match changed(alloc, Change::Nothing)? {
        Some(peak) => Ok(is_of_peaks(alloc, &peak)? && first_wrong(&peak).is_none()),
        None => Ok(false),
    }
}

#[test]
fn widths_of_peaks(rt: HostRuntime) {
    assert!(rt; has_widths(rt.alloc()) == Ok(true));
}

/// A mark, the span of the values before it, and that after it; the series has three cells.
static MARKED: [(Mark, Ext, Ext, Ext, Ext); 7] = [
    (
        Mark::Same,
        Ext::NegInf,
        Ext::PosInf,
        Ext::NegInf,
        Ext::PosInf,
    ),
    (Mark::Zero, Ext::NegInf, Ext::Int(2), ZERO, Ext::Int(2)),
    (Mark::Zero, Ext::NegInf, Ext::Int(-4), Ext::Int(-4), ZERO),
    (Mark::Zero, Ext::NegInf, Ext::NegInf, ZERO, ZERO),
    (
        Mark::Cells,
        Ext::Int(1),
        Ext::PosInf,
        Ext::Int(1),
        Ext::Int(3),
    ),
    (
        Mark::Cells,
        Ext::Int(5),
        Ext::PosInf,
        Ext::Int(3),
        Ext::Int(5),
    ),
    (
        Mark::Cells,
        Ext::PosInf,
        Ext::NegInf,
        Ext::PosInf,
        Ext::NegInf,
    ),
];

fn marked() -> &'static [(Mark, Ext, Ext, Ext, Ext)] {
    &MARKED
}

#[test]
fn spans_under_marks(rt: HostRuntime) {
    for (mark, lo, hi, marked_lo, marked_hi) in marked() {
        let span = mark.applied_to_span(Span { lo: *lo, hi: *hi }, 3);
        assert!(rt; (span.lo, span.hi) == (*marked_lo, *marked_hi), "{mark:?}");
    }
}

/// The span of 0, or none for the register at a place.
fn span_at(register: u8, place: u8) -> Span {
    if register == place {
        Span::none()
    } else {
        Span::one(ZERO)
    }
}

/// The hull of zeros, but that the register at a place has none.
fn hull_without(place: u8) -> Hull {
    Hull {
        c: span_at(0, place),
        e: span_at(1, place),
        d: span_at(2, place),
        f: span_at(3, place),
        r: span_at(4, place),
    }
}

#[test]
fn hulls_without_registers(rt: HostRuntime) {
    assert!(rt; Hull::none().is_none() && !hull_without(5).is_none());
    for place in 0..5 {
        assert!(rt; hull_without(place).is_none(), "register {place}");
    }
}
