//! The e-ranges of the occurrences.

ghost use Rattle.std.specs.Prelude.{◌≡◌, ◌≤◌, ◌<◌, length, IfOk};
ghost use Rattle.ts_base.specs.Limits.{too_many};
ghost use Rattle.ts_base.specs.Signature.{signature_of};
ghost use Rattle.ts_regex.specs.Shape.{shape_of};
ghost use Rattle.ts_pattern.specs.AllOccurrences.{occurrence_ranges};
ghost use Rattle.ts_validate.specs.Validations.{pattern_of};
ghost use Rattle.ts_mark.specs.Rising.{AreRising};

use std::alloc::Global;
use ts_base::{Memory, Range};
use ts_occurrence::signature;
use ts_transducer::decoded;
use ts_validate::Validated;

/// The cells of each occurrence of the validated pattern in a series, counted from 1 (the e-ranges of the Global
/// Constraint Catalog, Volume II). The signs between neighbouring cells are searched: an occurrence is a match that
/// lies in no other one, and its range is the cells beside its signs without the pattern's `b` first and `a` last ones.
/// The ranges come by rising starts, and each ends after the one before too, so there are no more of them than cells.
///
/// `a` is given beside the pattern's own, which it equals, and is 0 or 1; the series has at least one value, and fewer
/// than 4,000,000,000. It takes one step of the transducer for each sign. `Memory` where none is left.
pub fn marks(alloc: Global, v: &Validated, a: u8, series: &[i64]) -> Result<Vec<Range>, Memory>
    requires trim { a ≡ (pattern_of v.now).a }
    requires small { a ≤ 1 }
    requires some { 1 ≤ length series.now }
    requires few { length series.now < too_many }
    ensures ranges { IfOk result (λ ranges. ranges.items ≡ occurrence_ranges
        (shape_of (pattern_of v.now).regex) (pattern_of v.now).b a (signature_of series.now)) }
    ensures few { IfOk result (λ ranges. length ranges.items ≤ length series.now) }
    ensures rising { IfOk result (λ ranges. AreRising ranges.items) }
{
    let letters = signature(alloc, series)?;
    decoded(alloc, v.transducer(), a, &letters)
}
