//! Ranges of numbers.

ghost use Rattle.std.specs.Prelude.{◌≡◌, ℤ, neg_ℤ, ◌≤ℤ◌, IsTrue, ◌↔◌, length};
ghost use Rattle.ts_base.specs.Limits.{greatest_value};
ghost use Rattle.ts_domain.specs.Values.{values_between};

/// The numbers from `low` to `high`, both among them.
#[derive(Clone, Copy, Debug, PartialEq, Eq, PartialOrd, Ord, Default)]
pub struct Interval {
    pub low: i64,
    pub high: i64,
}

impl Interval {
    /// How many numbers it has, of which none is beyond the limits.
    pub(crate) fn count(self) -> u64
        requires from { neg_ℤ greatest_value ≤ℤ self.low }
        requires ordered { self.low ≤ℤ self.high }
        requires to { self.high ≤ℤ greatest_value }
        ensures { result ≡ length (values_between self.low self.high) }
    {
        (self.high - self.low) as u64 + 1
    }

    /// Whether it has one number alone.
    pub(crate) fn is_single(self) -> bool
        ensures { IsTrue result ↔ (self.low ≡ self.high) }
    {
        self.low == self.high
    }

    /// Whether the number is one of it.
    pub(crate) fn has(self, v: i64) -> bool
        ensures { IsTrue result ↔ ((self.low ≤ℤ v) × (v ≤ℤ self.high)) }
    {
        self.low <= v && v <= self.high
    }
}
