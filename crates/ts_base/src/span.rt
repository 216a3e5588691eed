//! Spans of numbers.

ghost use Rattle.std.specs.Prelude.{◌≡◌, ◌↔◌, ◌&&◌, IsTrue, not, if◌then◌else◌};
ghost use Rattle.ts_base.specs.Spans.{Holds, has_some, none_span, one_span};
ghost use Rattle.ts_base.specs.Spans.{span_greatest, span_hull, span_least, span_plus};

use crate::ext::Ext;

/// The numbers from `lo` to `hi`; it is none where `lo` is above `hi`.
#[derive(Clone, Copy, Debug, PartialEq, Eq)]
pub struct Span {
    pub lo: Ext,
    pub hi: Ext,
}

impl Span {
    /// The form that every operation gives a span without numbers.
    pub fn none() -> Span
        ensures { result ≡ none_span }
    {
        Span {
            lo: Ext::PosInf,
            hi: Ext::NegInf,
        }
    }

    /// The span of `e` alone.
    pub fn one(e: Ext) -> Span
        ensures { result ≡ one_span e }
    {
        Span { lo: e, hi: e }
    }

    /// Whether no number lies in the span.
    pub fn is_none(&self) -> bool
        ensures { result ≡ not (has_some self.now) }
    {
        self.hi < self.lo
    }

    /// Whether `e` lies in the span.
    pub fn contains(&self, e: Ext) -> bool
        ensures { IsTrue result ↔ Holds self.now e }
    {
        self.lo <= e && e <= self.hi
    }

    /// The least span with all numbers of both; that of a none and a span is that span.
    pub fn hull(self, other: Span) -> Span
        ensures { result ≡ span_hull self other }
    {
        match (self.is_none(), other.is_none()) {
            (true, true) => Span::none(),
            (true, false) => other,
            (false, true) => self,
            (false, false) => Span {
                lo: self.lo.lesser(other.lo),
                hi: self.hi.greater(other.hi),
            },
        }
    }

    /// The sums, as of `Ext::plus`, of a number of each; none where one is none.
    pub fn plus(self, other: Span) -> Span
        ensures { result ≡ span_plus self other }
    {
        let (lo, hi) = (self.lo.plus(other.lo), self.hi.plus(other.hi));
        self.with_ends(other, lo, hi)
    }

    /// The greater of a number of each; none where one is none.
    pub fn greatest(self, other: Span) -> Span
        ensures { result ≡ span_greatest self other }
    {
        let (lo, hi) = (self.lo.greater(other.lo), self.hi.greater(other.hi));
        self.with_ends(other, lo, hi)
    }

    /// The lesser of a number of each; none where one is none.
    pub fn least(self, other: Span) -> Span
        ensures { result ≡ span_least self other }
    {
        let (lo, hi) = (self.lo.lesser(other.lo), self.hi.lesser(other.hi));
        self.with_ends(other, lo, hi)
    }

    /// The span of these ends; none where one of the two is none.
    fn with_ends(self, other: Span, lo: Ext, hi: Ext) -> Span
        ensures { result ≡ (if has_some self && has_some other then record { lo = lo; hi = hi } else none_span) }
    {
        if self.is_none() || other.is_none() {
            Span::none()
        } else {
            Span { lo, hi }
        }
    }
}
