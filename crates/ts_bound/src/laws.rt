//! Laws of spans and of rows, for the layers above. Each is a statement of `specs/Laws` that the checker has proved.

ghost use Rattle.ts_bound.specs.Laws.{
  AreAutomata,
  RowsStand,
  SpansHold,
  SpansStaySingle,
  TwoWrittenRowsAreSet,
  ValueSpansAreNarrowed,
  WrittenRowsAreSet,
};
ghost use Rattle.ts_bound.specs.TermSpans.{automata_of};

use ts_glue::Machine;

/// The span of a box at any cell that may be used holds the answer on each series of the box.
pub fn spans_hold()
    ensures { SpansHold }
{}

/// On a box of one series the span at the last cell is exactly the answer.
pub fn spans_stay_single()
    ensures { SpansStaySingle }
{}

/// The span of the box with one value alone at a cell is read off the whole box there.
pub fn value_spans_are_narrowed()
    ensures { ValueSpansAreNarrowed }
{}

/// Each row of a table is one from which `fill_row` makes the next one.
pub fn rows_stand()
    ensures { RowsStand }
{}

/// A table in which a lent row was written has that row in its place, and every other one as it was.
pub fn written_rows_are_set()
    ensures one { WrittenRowsAreSet }
    ensures two { TwoWrittenRowsAreSet }
{}

/// The rules that the type of a machine keeps, in the form that the laws require.
pub fn machine_is_whole(m: &Machine)
    ensures { AreAutomata (automata_of m.now) }
{
    m.forward().states();
    match m.reverse() {
        Some(reverse) => {
            reverse.states();
        }
        None => {}
    }
}
