//! What `build_plan` answers where it doesn't give a plan.

ghost use Rattle.std.specs.Prelude.{◌≡◌};

use thiserror::Error;
use ts_base::{Letter, Memory};

/// Why a transducer and a pattern have no plan.
#[derive(Debug, Drop, Error)]
pub enum BuildStop {
    /// A check fails on the last letter of this signature; the letters before it are those by which the configuration
    /// there was first listed.
    #[error("a check fails")]
    Refused { signature: Vec<Letter> },
    /// A 513th configuration would be listed before any check fails.
    #[error("more than 512 configurations are reached")]
    TooMany,
    /// There was no memory.
    #[error("out of memory")]
    Memory,
}

impl From<Memory> for BuildStop {
    ghost use Rattle.ts_user.specs.declared.build_stop.BuildStop.TheVariants.{Memory as NoMemory};

    ghost from_gives = { λ _ e. e ≡ NoMemory };

    fn from(_error: Memory) -> BuildStop {
        BuildStop::Memory
    }
}
