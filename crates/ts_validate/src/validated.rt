//! A transducer that is known to find the occurrences of a pattern.

ghost use Rattle.std.specs.Prelude.{◌≡◌};
ghost use Rattle.ts_regex.specs.Shape.{shape_of};
ghost use Rattle.ts_transducer.specs.Rows.{rows_of};
ghost use Rattle.ts_pattern.specs.Valid.{IsValid};

use ts_pattern::Pattern;
use ts_transducer::Transducer;

/// A transducer and a pattern: for every signature the ranges that it decodes are the e-ranges of the occurrences
/// of the pattern.
#[derive(Drop)]
pub struct Validated {
    pub(crate) transducer: Transducer,
    pub(crate) pattern: Pattern,
    pub ghost valid: { IsValid (rows_of transducer) (shape_of pattern.regex) pattern.b pattern.a },
}

impl Validated {
    ghost use Rattle.ts_validate.specs.Validations.{transducer_of, pattern_of};

    /// The transducer.
    pub fn transducer(&self) -> &Transducer
        ensures { result.now ≡ transducer_of self.now }
    {
        &self.transducer
    }

    /// The pattern that it was validated against.
    pub fn pattern(&self) -> &Pattern
        ensures { result.now ≡ pattern_of self.now }
    {
        &self.pattern
    }
}
