//! Why a text is no automaton.

ghost use Rattle.std.specs.Prelude.{◌≡◌};
ghost use Rattle.ts_automaton.specs.declared.stop.AutoStop.TheVariants.{Memory as NoMemory};

use thiserror::Error;
use ts_base::Memory;

/// The first line of a text against the grammar of a block, where an end line that is missing is the line after the
/// last one; else the first line against the typing; or lack of memory. Lines are counted from 1.
#[derive(Clone, Copy, Debug, PartialEq, Eq, Error)]
pub enum AutoStop {
    #[error("line {0} is against the grammar")]
    Text(u32),
    #[error("line {0} is against the typing")]
    Typing(u32),
    #[error("out of memory")]
    Memory,
}

impl From<Memory> for AutoStop {
    ghost from_gives = { λ _ stop. stop ≡ NoMemory };

    fn from(_error: Memory) -> AutoStop {
        AutoStop::Memory
    }
}
