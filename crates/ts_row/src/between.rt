//! What the moves of a state are taken in from.

ghost use Rattle.std.specs.Prelude.{◌≡◌, ◌≤◌, false};
ghost use Rattle.ts_base.specs.declared.letter.Letter.TheVariants.{Equal};
ghost use Rattle.ts_sweep.specs.Sides.{lane_count};

use crate::cell::Cell;
use ts_base::Letter;
use ts_sweep::cover::Cover;
use ts_sweep::packed::PackedHull;

/// A letter on which a move is taken in, and on `=` too where it has a twin.
#[derive(Clone, Copy)]
pub(crate) struct On {
    pub(crate) letter: Letter,
    pub(crate) twin: bool,
    ghost alone: { letter ≡ Equal → twin ≡ false },
}

/// The hulls of a state at the values of a cell, with their cover, and the values of the next cell.
#[derive(Clone, Copy)]
pub(crate) struct Between<'a, const N: usize> {
    pub(crate) values: &'a Cell<'a>,
    pub(crate) before: &'a [PackedHull<N>],
    pub(crate) cover: &'a Cover,
    pub(crate) next_values: &'a Cell<'a>,
    ghost registers: { 6 ≤ lane_count N },
    ghost lanes: { N ≤ 64 },
}
