//! Why a reading stops.

ghost use Rattle.std.specs.Prelude.{◌≡◌};
ghost use Rattle.ts_certificate.specs.declared.stop.LineStop.TheVariants.{Memory as NoMemory};
ghost use Rattle.ts_certificate.specs.Reading.{stop_at};

use std::alloc::AllocFailed;
use thiserror::Error;

/// Why a line is not taken: it is against the grammar, or it is an end line with another count than was found, or
/// memory was refused.
#[derive(Clone, Copy)]
pub enum LineStop {
    Grammar,
    Counts { said: u64, found: u64 },
    Memory,
}

impl<T: Drop> From<AllocFailed<T>> for LineStop {
    ghost from_gives = { λ _ stop. stop ≡ NoMemory };

    fn from(_error: AllocFailed<T>) -> LineStop {
        LineStop::Memory
    }
}

/// Why a text is no certificate: the number of the first line that is against the grammar, or of an end line with the
/// first of its counts that differs and the count that was found. `Memory` says nothing of the text.
#[derive(Clone, Copy, Debug, PartialEq, Eq, Error)]
pub enum CertStop {
    #[error("line {line} is against the grammar")]
    Text { line: u32 },
    #[error("line {line} says {said} tree lines where there are {found}")]
    CountDiffers { line: u32, said: u64, found: u64 },
    #[error("out of memory")]
    Memory,
}

/// The stop of the line with this number.
pub(crate) fn stop_at(line: u32, stop: LineStop) -> CertStop
    ensures { result ≡ stop_at line stop }
{
    match stop {
        LineStop::Grammar => CertStop::Text { line },
        LineStop::Counts { said, found } => CertStop::CountDiffers { line, said, found },
        LineStop::Memory => CertStop::Memory,
    }
}
