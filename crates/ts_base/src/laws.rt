//! Laws of the definitions: functions that do nothing, each with what it proves as its clause.

ghost use Rattle.std.specs.Prelude.{ℕ, ◌≡◌, ◌↔◌, false};
ghost use Rattle.std.specs.Ordering.{nat_cmp};
ghost use Rattle.ts_base.specs.Limits.{most_cells, most_domain_values, most_requirements, most_terms};
ghost use Rattle.ts_base.specs.Limits.{greatest_bound, greatest_value, most_checked, most_listed, too_many};
ghost use Rattle.ts_base.specs.Limits.{most_check_bytes, most_model_bytes, most_verify_bytes};
ghost use Rattle.ts_base.specs.Numbers.{ext_le, ext_max, ext_min, ext_plus};
ghost use Rattle.ts_base.specs.Orders.{IsGreater, IsLesser, IsMonotone, IsTotalOrder, ext_cmp};
ghost use Rattle.ts_base.specs.Outside.{Rose};
ghost use Rattle.ts_base.specs.Signature.{letter_rank};
ghost use Rattle.ts_base.specs.SpanLayer.{IsEndByEnd, IsLeastHull};
ghost use Rattle.ts_base.specs.Spans.{Holds, has_some, span_greatest, span_hull, span_least, span_plus};

use crate::ext::Ext;
use crate::letter::Letter;
use crate::limits::{
    BOUND, CELL_VALUE, CELLS, CHECK_BYTES, CHECKED, DOMAIN_VALUES, LISTED, MODEL_BYTES,
    REQUIREMENTS, TERMS, TOO_MANY, VERIFY_BYTES,
};
use crate::span::Span;

/// Numbers with infinities are in order, the greater and the lesser of two are what their names say, and greater
/// operands give no lesser sum.
pub fn numbers_are_in_order()
    ensures order { IsTotalOrder ext_le }
    ensures greater { IsGreater ext_max }
    ensures lesser { IsLesser ext_min }
    ensures sum { IsMonotone ext_plus }
{}

/// The derived orders are the meant ones: from `NegInf` over the numbers to `PosInf`, and `Less`, `Equal`, `Greater`.
pub fn derived_orders_are_meant()
    ensures numbers { (a b : Ext) → ⟦<Ext as Ord>⟧.cmp a b ≡ ext_cmp a b }
    ensures letters { (a b : Letter) → ⟦<Letter as Ord>⟧.cmp a b ≡ nat_cmp (letter_rank a) (letter_rank b) }
{}

/// Sum, greatest and least of spans work end by end, hold each result, and are monotone.
pub fn spans_hold_results()
    ensures plus { IsEndByEnd ext_plus span_plus }
    ensures greatest { IsEndByEnd ext_max span_greatest }
    ensures least { IsEndByEnd ext_min span_least }
{}

/// A span is none exactly where it holds no number.
#[tactic(auto, using(crate::proofs::SpanLaws::none_held))]
pub fn none_holds_nothing()
    ensures { (s : Span) → (has_some s ≡ false) ↔ ((e : Ext) → Holds s e → ⊥) }
{}

/// The hull is the least span that holds what either operand holds.
#[tactic(auto, using(crate::proofs::SpanLaws::hull_is_least))]
pub fn hull_is_least()
    ensures { IsLeastHull span_hull }
{}

/// A count that didn't move has risen at the last value of 64 bits alone.
pub fn count_rises()
    ensures { (n : ℕ) → Rose n n → n ≡ 18446744073709551615 }
{}

/// The limits in the code are those of the definitions.
pub fn limits_agree()
    ensures cells { (CELLS ≡ most_cells) × (CELL_VALUE ≡ greatest_value) × (DOMAIN_VALUES ≡ most_domain_values) }
    ensures terms { (TERMS ≡ most_terms) × (REQUIREMENTS ≡ most_requirements) × (BOUND ≡ greatest_bound) }
    ensures inputs { (MODEL_BYTES ≡ most_model_bytes) × (CHECK_BYTES ≡ most_check_bytes)
        × (VERIFY_BYTES ≡ most_verify_bytes) × (TOO_MANY ≡ too_many) }
    ensures certificates { (CHECKED ≡ most_checked) × (LISTED ≡ most_listed) }
{}
