//! The values of a cell by place.

ghost use Rattle.std.specs.Prelude.{◌≡◌, IfSome, ℕ, ℤ, pos, ◌<◌, ◌≤◌, ◌<ℤ◌, ◌+ℤ◌};
ghost use Rattle.ts_base.specs.Limits.{IsCellValue};
ghost use Rattle.ts_sweep.specs.Small.{IsSmall};

/// Values in rising order.
pub trait Values: Copy {
    ghost len: { Self → ℕ };

    ghost value: { Self → ℕ → ℤ };

    ghost ok: { Self → Type 0 };

    /// How many values there are.
    fn count(&self) -> usize
        ensures { result ≡ len self.now };

    /// The values as a run, if they have no gap.
    fn run(&self) -> Option<Run>
        requires { ok self.now }
        ensures { IfSome result (λ r. (r.count ≡ len self.now) × IsCellValue r.first × (r.count ≤ 2000001)
            × ((i : ℕ) → i < len self.now → (r.first +ℤ pos i) ≡ value self.now i)) };

    /// The value at a place.
    fn at(&self, i: usize) -> i64
        requires ok { ok self.now }
        requires inside { i < len self.now }
        ensures value { result ≡ value self.now i }
        ensures small { IsSmall result };

    ghost rises: { (s : Self) → ok s → (i j : ℕ) → i < j → j < len s → value s i <ℤ value s j };

    ghost is_small: { (s : Self) → ok s → (i : ℕ) → i < len s → IsSmall (value s i) };
}

/// Values without gaps.
#[derive(Clone, Copy)]
pub struct Run {
    pub first: i64,
    pub count: usize,
}

/// Values with gaps.
#[derive(Clone, Copy)]
pub struct Listed<'a> {
    pub values: &'a [i64],
}

impl Values for Run {
    ghost use Rattle.std.specs.Prelude.{◌≤◌, ◌+ℤ◌, pos};
    ghost use Rattle.std.proofs.Common.{arith};
    ghost use Rattle.std.proofs.lemmas.Int.{ints};
    ghost use Rattle.ts_base.specs.Limits.{IsCellValue};
    ghost use Rattle.ts_sweep.specs.ValueLaws.{run_small};

    ghost len = { λ r. r.count };

    ghost value = { λ r i. r.first +ℤ pos i };

    ghost ok = { λ r. IsCellValue r.first × (r.count ≤ 2000001) };

    ghost rises = { λ r ok i j lt inside. Prim.omega (arith, ints, lt) };

    ghost is_small = { λ r ok i inside. run_small r.first r.count i ok.0 ok.1 inside };

    #[inline(always)]
    fn count(&self) -> usize {
        self.count
    }

    #[inline(always)]
    fn run(&self) -> Option<Run> {
        Some(*self)
    }

    #[inline(always)]
    fn at(&self, i: usize) -> i64 {
        self.first + i as i64
    }
}

impl<'a> Values for Listed<'a> {
    ghost use Rattle.std.specs.Prelude.{length, get_or, pos};
    ghost use Rattle.ts_sweep.specs.Small.{AreSmall, Rises};

    ghost len = { λ r. length r.values.now };

    ghost value = { λ r i. get_or r.values.now i (pos 0) };

    ghost ok = { λ r. AreSmall r.values.now × Rises r.values.now };

    ghost rises = { λ r ok i j lt inside. ok.1 i j lt inside };

    ghost is_small = { λ r ok i inside. ok.0 i inside };

    #[inline(always)]
    fn count(&self) -> usize {
        self.values.len()
    }

    #[inline(always)]
    fn run(&self) -> Option<Run> {
        None
    }

    #[inline(always)]
    fn at(&self, i: usize) -> i64 {
        self.values[i]
    }
}
