//! What `validate` answers where it doesn't find a plan closed.

ghost use Rattle.std.specs.Prelude.{◌≡◌};

use thiserror::Error;
use ts_base::{Letter, Memory};

/// Why a transducer isn't validated.
#[derive(Debug, Drop, Error)]
pub enum ValidateStop {
    /// A check fails at this configuration of the plan, on this letter; the signature leads there.
    #[error("the plan is not closed at configuration {configuration}")]
    Refused {
        configuration: u32,
        letter: Letter,
        signature: Vec<Letter>,
    },
    /// There was no memory.
    #[error("out of memory")]
    Memory,
}

impl From<Memory> for ValidateStop {
    ghost use Rattle.ts_validate.specs.declared.stop.ValidateStop.TheVariants.{Memory as NoMemory};

    ghost from_gives = { λ _ e. e ≡ NoMemory };

    fn from(_error: Memory) -> ValidateStop {
        ValidateStop::Memory
    }
}
