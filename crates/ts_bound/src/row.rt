//! One row of hulls from the row before.

ghost use Rattle.std.specs.Prelude.{◌≡◌, ◌*◌, length};
ghost use Rattle.ts_bound.specs.NextRow.{RowStands, next_row};

use crate::between::Between;
use crate::moves::take_state;
use crate::packable::are_small;
use crate::places::Places;
use ts_automaton::{Automaton, Hull};
use ts_domain::Domain;

/// One row from the row before it: for each value of the cell and each state the hull of the moves of all values of the
/// cell before and all states. Both rows have a hull for each value and state, value by value in rising order, and the
/// hulls of `before` are none or have the kinds of their states. It takes no memory. The steps are in proportion to the
/// values of both cells for each move that sweeps take in (`swept_parts`: the next cell is at most the last operand of
/// an expression), and to their pairs for the others; and to their pairs for all where a hull of `before` has a number
/// above 10^16 in size. A cell whose values have gaps costs a binary search more for each value.
pub fn fill_row(
    a: &Automaton,
    before_values: &Domain,
    before: &[Hull],
    values: &Domain,
    next: &mut [Hull],
)
    requires before { length before.now ≡ length before_values.now * length a.now.states }
    requires next { length next.old ≡ length values.now * length a.now.states }
    requires kinds { RowStands a.now before_values.now before.now }
    ensures { next.new ≡ next_row a.now before_values.now before.now values.now }
{
    let m = Between {
        automaton: a,
        values: Places::of(before_values),
        before,
        is_small: are_small(before),
        next_values: Places::of(values),
    };
    next.fill(Hull::none());
    for q in 0..a.states() {
        take_state(&m, q, next);
    }
}
