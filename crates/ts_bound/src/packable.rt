//! Rows whose hulls can be packed: no number is large, so that no sum of a few is clamped.

ghost use Rattle.std.specs.Prelude.{◌≡◌};
ghost use Rattle.std.specs.List.{list_all};
ghost use Rattle.ts_hull.specs.Smalls.{small, small_hull, small_span};

use ts_automaton::Hull;
use ts_base::{Ext, Span};

/// Sums of a few numbers up to this size aren't clamped.
const SMALL: i64 = 10_000_000_000_000_000;

/// Whether an end is no number above 10^16 in size.
fn is_small_end(e: Ext) -> bool
    ensures { result ≡ small e }
{
    match e {
        Ext::Int(x) => -SMALL <= x && x <= SMALL,
        _ => true,
    }
}

/// Whether neither end is a number above 10^16 in size.
fn is_small_span(s: Span) -> bool
    ensures { result ≡ small_span s }
{
    is_small_end(s.lo) && is_small_end(s.hi)
}

/// Whether no end of a hull is a number above 10^16 in size.
#[tactic(auto, unfolding(ts_hull::specs::Smalls::small_hull))]
fn is_small(h: &Hull) -> bool
    ensures { result ≡ small_hull h.now }
{
    is_small_span(h.c)
        && is_small_span(h.e)
        && is_small_span(h.d)
        && is_small_span(h.f)
        && is_small_span(h.r)
}

/// Whether no hull of a row has a number above 10^16 in size.
pub(crate) fn are_small(row: &[Hull]) -> bool
    ensures { result ≡ list_all small_hull row.now }
{
    row.iter().all(|h| is_small(h))
}
