//! What is known of single values before spans are asked about them.

use ts_domain::Boxed;
use ts_model::Require;

/// What is known of the values of a cell from one that was asked about up to `to`: whether no requirement on a term
/// drops any of them. Where it isn't known, nothing is said of them, and asking about another one of these is in vain.
#[derive(Clone, Copy)]
pub struct Answer {
    pub free: bool,
    pub to: i64,
}

/// Knows of some values that no requirement on a term drops them.
pub trait Spares {
    ghost use Rattle.std.specs.Prelude.{ℤ, ◌≤ℤ◌, List, IsTrue, Contains};
    ghost use Rattle.ts_filter.specs.Boxes.{Box, HasCell, values_at};
    ghost use Rattle.ts_filter.specs.KeptCells.{IsFree};
    ghost use Rattle.ts_filter.specs.RefutedWorseDrop.{Spans};
    ghost use Rattle.ts_model.specs.declared.model.Require.{Require};

    /// That it may be asked about these requirements by these spans on this box.
    ghost knows: { List Require → Spans → Box → Self → Type 0 };

    /// What is known of the values of cell `k` from `v` on, by the requirements on the term.
    fn tell(&self, requirements: &[Require], term: u32, k: u32, v: i64, cells: &Boxed) -> Answer
        requires cell { HasCell k cells.now.present }
        requires value { Contains (values_at k cells.now.present) v }
        requires knows { (s : Spans) × knows requirements.now s cells.now.present self.now }
        ensures to { v ≤ℤ result.to }
        ensures free { IsTrue result.free → (s : Spans) → knows requirements.now s cells.now.present self.now →
            (w : ℤ) → v ≤ℤ w → w ≤ℤ result.to → IsFree requirements.now s cells.now.present term k w };
}

/// Knows nothing.
#[derive(Drop)]
pub struct NothingSpared;

impl Spares for NothingSpared {
    ghost knows = { λ rs s b x. Unit {0} };

    fn tell(&self, _: &[Require], _: u32, _: u32, _: i64, _: &Boxed) -> Answer {
        Answer {
            free: false,
            to: i64::MAX,
        }
    }
}
