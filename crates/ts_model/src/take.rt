//! The parts of a statement that a draft takes: domains, windows, terms and bounds, or the kind that holds of bad ones.

ghost use Rattle.std.specs.Prelude.{◌≡◌, ◌≤◌, true, false, pos, IfNone, IfSome, option_map};
ghost use Rattle.std.specs.List.{list_any};
ghost use Rattle.ts_base.specs.Limits.{most_cells};
ghost use Rattle.ts_model.specs.ModelParts.{count_of, is_backward, is_between, is_outside, is_bound, term_made, union_given, window_made};
ghost use Rattle.ts_model.specs.Views.{parts_of, range_in, Gives};

use crate::cells::union_of;
use crate::error::{LineStop, ModelKind};
use crate::model::Window;
use crate::statement::{Ranges, TermParts};
use std::alloc::Global;
use ts_base::Ext;
use ts_base::limits::{BOUND, CELL_VALUE};
use ts_domain::{Domain, Interval};
use ts_pattern::Term;

/// Whether some range ends before it begins.
fn has_backward(ranges: &[Interval]) -> bool
    ensures { result ≡ list_any is_backward ranges.now }
{
    ranges.iter().any(|range| range.high < range.low)
}

/// Whether an end of the range is beyond the limits of a value.
fn is_outside(range: Interval) -> bool
    ensures { result ≡ is_outside range }
{
    range.low < -CELL_VALUE
        || range.low > CELL_VALUE
        || range.high < -CELL_VALUE
        || range.high > CELL_VALUE
}

/// Whether some range is.
fn has_outside(ranges: &[Interval]) -> bool
    ensures { result ≡ list_any is_outside ranges.now }
{
    ranges.iter().any(|range| is_outside(*range))
}

/// The union of the ranges, whose memory it takes, or the kind of bad ones.
pub(crate) fn domain_of(alloc: Global, ranges: Ranges) -> Result<Domain, LineStop>
    ensures { Gives (λ d. d) result (union_given ranges.items.items) }
{
    let Ranges { items } = ranges;
    if has_backward(&items) {
        return Err(LineStop::Bad(ModelKind::Empty));
    }
    if has_outside(&items) {
        return Err(LineStop::Bad(ModelKind::Limit));
    }
    Ok(union_of(alloc, items)?)
}

/// The cell with this number, of `count` cells.
fn cell_at(cell: i64, count: usize) -> Option<u32>
    requires { count ≤ most_cells }
    ensures none { IfNone result (is_between (pos 1) cell (pos count) ≡ false) }
    ensures some { IfSome result (λ k. (is_between (pos 1) cell (pos count) ≡ true) × (count_of cell ≡ k)) }
{
    if cell < 1 || cell as u64 > count as u64 {
        return None;
    }
    Some(cell as u32)
}

/// The window of a tail over `count` cells, or the kind of a bad one.
#[tactic(auto, using(crate::proofs::TermWindows::window_good, crate::proofs::TermWindows::window_reversed, crate::proofs::TermWindows::window_low, crate::proofs::TermWindows::window_high))]
pub(crate) fn window_of(tail: Option<Interval>, count: usize) -> Result<Option<Window>, LineStop>
    requires { count ≤ most_cells }
    ensures { Gives (option_map range_in) result (window_made count tail) }
{
    let Some(range) = tail else {
        return Ok(None);
    };
    match (cell_at(range.low, count), cell_at(range.high, count)) {
        (Some(first), Some(last)) => {
            if range.high < range.low {
                return Err(LineStop::Bad(ModelKind::Empty));
            }
            Ok(Some(Window { first, last }))
        }
        _ => Err(LineStop::Bad(ModelKind::CellRange)),
    }
}

/// The term of the parts, or the kind of bad names.
pub(crate) fn term_of(parts: Option<TermParts>) -> Result<Term, LineStop>
    ensures { Gives parts_of result (term_made parts) }
{
    match parts {
        None => Err(LineStop::Bad(ModelKind::UnknownName)),
        Some(parts) => match Term::new(parts.aggregator, parts.feature, parts.pattern) {
            None => Err(LineStop::Bad(ModelKind::BadPair)),
            Some(term) => Ok(term),
        },
    }
}

/// Whether the bound is one that a requirement may have.
pub(crate) fn is_bound(bound: Ext) -> bool
    ensures { result ≡ is_bound bound }
{
    match bound {
        Ext::Int(bound) => bound >= -BOUND && bound <= BOUND,
        _ => true,
    }
}
