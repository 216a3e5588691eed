//! What witnesses show of values that would be asked about by spans.

ghost use Rattle.std.specs.Prelude.{◌≡◌, ◌+◌, ◌≤ℤ◌, ℤ, Contains, IsTrue, Some, slice_get};
ghost use Rattle.ts_filter.specs.Boxes.{HasCell, values_at};
ghost use Rattle.ts_filter.specs.RefutedWorseDrop.{IsDrop, Spans};
ghost use Rattle.ts_model.specs.declared.model.Require.{Require};
ghost use Rattle.ts_search.specs.Shown.{Knows};

use crate::shown::UNKNOWN;
use crate::witnesses::Witnesses;
use ts_domain::Boxed;
use ts_filter::{Answer, Spares};
use ts_model::Require;

impl<'a> Spares for Witnesses<'a> {
    ghost knows = { Knows };

    fn tell(&self, requirements: &[Require], term: u32, k: u32, v: i64, cells: &Boxed) -> Answer {
        let mut to = i64::MAX;
        for i in 0..requirements.len() {
            let one = self.tell_by_one(requirements, i, &requirements[i], term, k, v, cells);
            if !one.free {
                return one;
            }
            to = to.min(one.to);
        }
        Answer { free: true, to }
    }
}

impl<'a> Witnesses<'a> {
    /// What is known of the values of cell `k` from `v` on, by the requirement at place `i`, counted from 0, if that is
    /// on the term.
    fn tell_by_one(
        &self,
        requirements: &[Require],
        i: usize,
        r: &Require,
        term: u32,
        k: u32,
        v: i64,
        cells: &Boxed,
    ) -> Answer
        requires is { slice_get requirements.now i ≡ Some r.now }
        requires cell { HasCell k cells.now.present }
        requires value { Contains (values_at k cells.now.present) v }
        requires knows { (s : Spans) × Knows requirements.now s cells.now.present self.now }
        ensures to { v ≤ℤ result.to }
        ensures free { IsTrue result.free → (s : Spans) (u : Require) →
            Knows requirements.now s cells.now.present self.now → slice_get requirements.now i ≡ Some u →
            u.term ≡ term → (w : ℤ) → v ≤ℤ w → w ≤ℤ result.to →
            IsDrop requirements.now s k w (i + 1) cells.now.present → ⊥ }
    {
        if r.term != term {
            return Answer {
                free: true,
                to: i64::MAX,
            };
        }
        if i >= self.each.len() {
            return UNKNOWN;
        }
        self.each[i].tell(r, k, v, cells.cells())
    }
}
