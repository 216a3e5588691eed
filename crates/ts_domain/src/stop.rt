//! Why ranges make no domain.

ghost use Rattle.std.specs.Prelude.{◌≡◌};
ghost use Rattle.ts_domain.specs.declared.stop.DomainStop.TheVariants.{Memory as NoMemory};

use thiserror::Error;
use ts_base::Memory;

/// There is no range, or one is empty; or there was no memory.
#[derive(Clone, Copy, Debug, PartialEq, Eq, Error)]
pub enum DomainStop {
    #[error("a range is empty, or there is none")]
    Empty,
    #[error("out of memory")]
    Memory,
}

impl From<Memory> for DomainStop {
    ghost from_gives = { λ _ stop. stop ≡ NoMemory };

    fn from(_error: Memory) -> DomainStop {
        DomainStop::Memory
    }
}
