//! Which values of a cell a change keeps.

ghost use Rattle.std.specs.Prelude.{◌≡◌, filter, map, IfOk};
ghost use Rattle.ts_domain.specs.Kept.{keeps};

use crate::domain::Domain;
use crate::interval::Interval;
use std::alloc::Global;
use ts_base::Memory;

/// The values that stay: those up to a number, those above it, or all but one.
#[derive(Clone, Copy)]
pub enum Keep {
    UpTo(i64),
    Above(i64),
    AllBut(i64),
}

impl Keep {
    /// Whether a value stays.
    pub(crate) fn keeps(self, v: i64) -> bool
        ensures { result ≡ keeps self v }
    {
        match self {
            Keep::UpTo(t) => v <= t,
            Keep::Above(t) => t < v,
            Keep::AllBut(gone) => v != gone,
        }
    }
}

/// A range for each number of a set that `keep` keeps.
pub(crate) fn singles(alloc: Global, domain: &Domain, keep: Keep) -> Result<Vec<Interval>, Memory>
    ensures { IfOk result
        (λ parts. parts.items ≡ map (λ v. record { low = v; high = v }) (filter (keeps keep) domain.now)) }
{
    let parts = domain
        .values()
        .filter(|value| keep.keeps(*value))
        .map(|value| Interval {
            low: value,
            high: value,
        })
        .collect(alloc)?;
    Ok(parts)
}
