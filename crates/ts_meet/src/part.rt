//! The registers of a part of an occurrence, as types: which they are is then a constant of a fold.

use crate::side::Side;
use crate::sums::Sums;
use ts_sweep::packed::Ends;

/// A part of an occurrence.
pub(crate) trait Registers: Copy {
    ghost use Rattle.std.specs.Prelude.{◌≡◌, pos};
    ghost use Rattle.ts_automaton.specs.Registers.{value_in};
    ghost use Rattle.ts_glue.specs.declared.operand.Part.{Part};
    ghost use Rattle.ts_glue.specs.Glue.{held_in, open_in};
    ghost use Rattle.ts_meet.specs.Sides.{ends_in};

    /// Which part this is.
    ghost part: { Part };

    /// The register that holds the part.
    fn held<S: Sums>(side: Side) -> Ends
        ensures { result ≡ value_in S.values (ends_in side) (pos 0) (pos 0) (held_in part) };

    /// The register of the cells that may still come to the part.
    fn open<S: Sums>(side: Side) -> Ends
        ensures { result ≡ value_in S.values (ends_in side) (pos 0) (pos 0) (open_in part) };
}

/// The whole of an occurrence: C and D.
#[derive(Clone, Copy)]
pub(crate) struct OfWhole;

/// What is taken away from the whole of an occurrence: E and F.
#[derive(Clone, Copy)]
pub(crate) struct OfAway;

impl Registers for OfWhole {
    ghost use Rattle.ts_glue.specs.declared.operand.Part.TheVariants.{Whole};

    ghost part = { Whole };

    #[inline(always)]
    fn held<S: Sums>(side: Side) -> Ends {
        side.c
    }

    #[inline(always)]
    fn open<S: Sums>(side: Side) -> Ends {
        side.d
    }
}

impl Registers for OfAway {
    ghost use Rattle.ts_glue.specs.declared.operand.Part.TheVariants.{Away};

    ghost part = { Away };

    #[inline(always)]
    fn held<S: Sums>(side: Side) -> Ends {
        side.e
    }

    #[inline(always)]
    fn open<S: Sums>(side: Side) -> Ends {
        side.f
    }
}
