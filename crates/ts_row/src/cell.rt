//! The values of a cell as rows read them.

ghost use Rattle.std.specs.Prelude.{◌≡◌, ℕ, ◌<◌, ◌≤◌, true, pos, ◌+ℤ◌, length, get_or};
ghost use Rattle.ts_base.specs.Limits.{IsCellValue};
ghost use Rattle.ts_sweep.specs.Small.{AreSmall, Rises};

use ts_sweep::values::{Run, Values};

/// The values in rising order, borrowed, and whether they have no gap. A cell without gaps is swept without reading
/// them.
#[derive(Clone, Copy)]
pub struct Cell<'a> {
    pub values: &'a [i64],
    pub is_run: bool,
    ghost small: { AreSmall values.now },
    ghost rises: { Rises values.now },
    ghost first: { is_run ≡ true → 0 < length values.now → IsCellValue (get_or values.now 0 (pos 0)) },
    ghost few: { length values.now ≤ 2000001 },
    ghost run: { is_run ≡ true → (i : ℕ) → i < length values.now →
        (get_or values.now 0 (pos 0) +ℤ pos i) ≡ get_or values.now i (pos 0) },
}

/// A cell is lent, so that sweeps are given where it lies and not a copy.
impl<'a> Values for &'a Cell<'a> {
    ghost use Rattle.std.specs.Prelude.{length, get_or, pos};

    ghost len = { λ r. length r.now.values.now };

    ghost value = { λ r i. get_or r.now.values.now i (pos 0) };

    ghost ok = { λ r. Unit {0} };

    ghost rises = { λ r ok i j lt inside. r.now.rises i j lt inside };

    ghost is_small = { λ r ok i inside. r.now.small i inside };

    #[inline(always)]
    fn count(&self) -> usize {
        self.values.len()
    }

    #[inline(always)]
    fn run(&self) -> Option<Run> {
        let count = self.values.len();
        if self.is_run && 0 < count {
            Some(Run {
                first: self.values[0],
                count,
            })
        } else {
            None
        }
    }

    #[inline(always)]
    fn at(&self, i: usize) -> i64 {
        self.values[i]
    }
}
