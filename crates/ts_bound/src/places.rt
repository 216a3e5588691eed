//! The values of a cell, read by place.

ghost use Rattle.std.specs.Prelude.{◌≡◌, ℕ, ◌<◌, ◌≤◌, true, pos, ◌+ℤ◌, length, get_or};
ghost use Rattle.ts_base.specs.Limits.{IsCellValue};
ghost use Rattle.ts_sweep.specs.Small.{AreSmall, Rises};

use ts_domain::Domain;
use ts_sweep::values::{Run, Values};

/// The values of a cell in rising order. If they have no gap, as in most sets, none has to be searched for.
#[derive(Clone, Copy)]
pub(crate) struct Places<'a> {
    pub(crate) domain: &'a Domain,
    pub(crate) count: usize,
    first: i64,
    is_run: bool,
    ghost counted: { count ≡ length domain.now },
    ghost few: { count ≤ 2000001 },
    ghost small: { AreSmall domain.now },
    ghost rises: { Rises domain.now },
    ghost cell: { IsCellValue first },
    ghost run: { is_run ≡ true → (i : ℕ) → i < length domain.now → (first +ℤ pos i) ≡ get_or domain.now i (pos 0) },
}

impl<'a> Places<'a> {
    /// The values of a domain.
    #[tactic(auto, using(crate::proofs::ValueLaws::domain_end, crate::proofs::ValueLaws::domain_few))]
    pub(crate) fn of(domain: &'a Domain) -> Places<'a>
        ensures { result.domain.now ≡ domain.now }
    {
        let count = domain.size() as usize;
        let ends = domain.ends();
        let is_run = is_run(ends.low, ends.high, count);
        Places {
            domain,
            count,
            first: ends.low,
            is_run,
        }
    }
}

/// Whether `count` rising values from a first to a last one have no gap.
pub(crate) fn is_run(first: i64, last: i64, count: usize) -> bool
    requires first { IsCellValue first }
    requires last { IsCellValue last }
    requires few { count ≤ 2000001 }
    ensures { result ≡ true → last +ℤ pos 1 ≡ first +ℤ pos count }
{
    last - first + 1 == count as i64
}

impl<'a> Values for Places<'a> {
    ghost use Rattle.std.specs.Prelude.{length, get_or, pos};

    ghost len = { λ p. length p.domain.now };

    ghost value = { λ p i. get_or p.domain.now i (pos 0) };

    ghost ok = { λ p. Unit {0} };

    ghost rises = { λ p ok i j lt inside. p.rises i j lt inside };

    ghost is_small = { λ p ok i inside. p.small i inside };

    fn count(&self) -> usize {
        self.count
    }

    fn run(&self) -> Option<Run> {
        if self.is_run {
            Some(Run {
                first: self.first,
                count: self.count,
            })
        } else {
            None
        }
    }

    #[tactic(auto, using(std::proofs::lemmas::Option::get_or_from_slice_get))]
    fn at(&self, i: usize) -> i64 {
        self.domain.nth(i as u64)
    }
}
