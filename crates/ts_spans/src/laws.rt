//! Laws of the definitions: functions that do nothing, each with what it proves as its clause.

ghost use Rattle.ts_spans.specs.Laws.{MachinesAnswer, MachinesAreIn, SpansHoldValues, SpansTellSingles};

/// At each cell that may be used, the spans of a model's terms hold their values on each series of a box.
pub fn spans_hold_values()
    ensures { SpansHoldValues }
{}

/// On the box of one series the spans of a model's terms are at the last cell its values alone.
pub fn spans_tell_singles()
    ensures { SpansTellSingles }
{}

/// The machines of a model's program are those by which its terms have their spans.
pub fn machines_are_in()
    ensures { MachinesAreIn }
{}

/// Each machine of a model's program answers the value of its term on every series of the model's box.
pub fn machines_answer()
    ensures { MachinesAnswer }
{}
