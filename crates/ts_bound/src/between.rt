//! What the moves between two cells are taken in from.

ghost use Rattle.std.specs.List.{list_all};
ghost use Rattle.std.specs.Prelude.{◌≡◌, ◌*◌, true, length};
ghost use Rattle.ts_hull.specs.Smalls.{small_hull};

use crate::places::Places;
use ts_automaton::{Automaton, Hull};

/// The row of an automaton at the values of a cell, whether no number of its hulls is large, and the values of the next
/// cell.
#[derive(Clone, Copy)]
pub(crate) struct Between<'a> {
    pub(crate) automaton: &'a Automaton,
    pub(crate) values: Places<'a>,
    pub(crate) before: &'a [Hull],
    pub(crate) is_small: bool,
    pub(crate) next_values: Places<'a>,
    ghost whole: { length before.now ≡ length values.domain.now * length automaton.now.states },
    ghost small: { is_small ≡ true → list_all small_hull before.now ≡ true },
}
