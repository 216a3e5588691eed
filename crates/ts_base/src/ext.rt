//! Whole numbers with the two infinities.

ghost use Rattle.std.specs.Prelude.{◌≡◌};
ghost use Rattle.ts_base.specs.Numbers.{ext_max, ext_min, ext_plus};

/// A whole number or an infinity, in their usual order.
#[derive(Clone, Copy, Debug, PartialEq, Eq, PartialOrd, Ord)]
pub enum Ext {
    NegInf,
    Int(i64),
    PosInf,
}

/// The sum of two numbers lies from -`CLAMP` to `CLAMP`.
const CLAMP: i64 = 100_000_000_000_000_000;

impl Ext {
    /// `NegInf` where one is `NegInf`, else `PosInf` where one is `PosInf`, else the sum, clamped at -10^17 and 10^17.
    pub fn plus(self, other: Ext) -> Ext
        ensures { result ≡ ext_plus self other }
    {
        match (self, other) {
            (Ext::NegInf, _) | (_, Ext::NegInf) => Ext::NegInf,
            (Ext::PosInf, _) | (_, Ext::PosInf) => Ext::PosInf,
            (Ext::Int(x), Ext::Int(y)) => Ext::Int(x.saturating_add(y).clamp(-CLAMP, CLAMP)),
        }
    }

    /// The greater of the two.
    pub fn greater(self, other: Ext) -> Ext
        ensures { result ≡ ext_max self other }
    {
        if self <= other { other } else { self }
    }

    /// The lesser of the two.
    pub fn lesser(self, other: Ext) -> Ext
        ensures { result ≡ ext_min self other }
    {
        if self <= other { self } else { other }
    }
}
