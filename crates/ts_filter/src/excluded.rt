//! What no number of a span does.

ghost use Rattle.std.specs.Prelude.{◌≡◌, ◌↔◌, IsTrue};
ghost use Rattle.ts_filter.specs.Ends.{best_end, ends_refute};
ghost use Rattle.ts_model.specs.FirstBest.{is_better};
ghost use Rattle.ts_filter.specs.Excluded.{Cuts, Refutes, counts};

use crate::bar::Bar;
use ts_base::{Ext, Goal, Span};
use ts_model::Op;

/// Whether no number of the span meets the comparison with the bound. A span that is none refutes every comparison, and
/// `!=` is refuted by the span of the bound alone.
pub fn refutes(op: Op, bound: Ext, span: Span) -> bool
    ensures { IsTrue result ↔ Refutes op bound span }
{
    span.is_none() || ends_refute(op, bound, span.lo, span.hi)
}

/// Whether no number of the span counts for the bar. A span that is none cuts at every bar.
pub fn cuts(goal: Goal, bar: Bar, span: Span) -> bool
    ensures { IsTrue result ↔ Cuts goal bar span }
{
    span.is_none() || !counts(goal, bar, best_end(goal, span))
}

/// Whether the number counts for the bar: it is better than the bar's, or at least as good.
pub fn counts(goal: Goal, bar: Bar, v: Ext) -> bool
    ensures { result ≡ counts goal bar v }
{
    match bar {
        Bar::Better(w) => is_better(goal, v, w),
        Bar::AsGood(w) => !is_better(goal, w, v),
    }
}

/// Whether `v` is better than `w`.
pub(crate) fn is_better(goal: Goal, v: Ext, w: Ext) -> bool
    ensures { result ≡ is_better goal v w }
{
    match goal {
        Goal::Maximise => v > w,
        Goal::Minimise => v < w,
    }
}

/// The better one of a span's ends.
pub(crate) fn best_end(goal: Goal, span: Span) -> Ext
    ensures { result ≡ best_end goal span }
{
    match goal {
        Goal::Maximise => span.hi,
        Goal::Minimise => span.lo,
    }
}

/// Whether no number from `lo` to `hi` meets the comparison with the bound, where `lo` isn't above `hi`.
fn ends_refute(op: Op, bound: Ext, lo: Ext, hi: Ext) -> bool
    ensures { result ≡ ends_refute op bound lo hi }
{
    match op {
        Op::Equal => bound < lo || hi < bound,
        Op::Unequal => bound <= lo && hi <= bound,
        Op::AtMost => bound < lo,
        Op::AtLeast => hi < bound,
        Op::Below => bound <= lo,
        Op::Above => hi <= bound,
    }
}
