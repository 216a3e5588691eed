//! Operators and marks by numbers, which a type or a function may have as a constant.

ghost use Rattle.std.specs.Prelude.{◌≡◌};
ghost use Rattle.ts_meet.specs.Joints.{numbered, numbered_mark};

use ts_automaton::{Mark, Op};

/// The number of the sum.
pub(crate) const SUM: u8 = 0;

/// The number of the greatest.
pub(crate) const GREATEST: u8 = 1;

/// The number of the least.
pub(crate) const LEAST: u8 = 2;

/// The number of the mark that changes nothing.
pub(crate) const SAME: u8 = 0;

/// The number of the mark that makes minus infinity 0.
pub(crate) const ZERO: u8 = 1;

/// The number of the mark that makes infinity the number of cells.
pub(crate) const CELLS: u8 = 2;

/// The operator that has a number.
#[inline(always)]
pub(crate) fn numbered(number: u8) -> Op
    ensures { result ≡ numbered number }
{
    if number == SUM {
        Op::Add
    } else if number == GREATEST {
        Op::Max
    } else {
        Op::Min
    }
}

/// The mark that has a number.
#[inline(always)]
pub(crate) fn numbered_mark(number: u8) -> Mark
    ensures { result ≡ numbered_mark number }
{
    if number == SAME {
        Mark::Same
    } else if number == ZERO {
        Mark::Zero
    } else {
        Mark::Cells
    }
}
