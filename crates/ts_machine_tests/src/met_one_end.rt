//! Rows of one end: what rows of upper ends and rows of lower ends hold at the cells of small boxes, and what they show
//! where two of them meet. All numbers are by a program that knows no Rattle and goes over all series of a box: it runs
//! the transducers of the catalogue on numbers, and reads the value of a term off the matches of its expression that no
//! other match contains.
//!
//! A table is one text. A box is a term, after a `|` the ends that stand for those that aren't kept, and its cells;
//! after a line `/` come lines about it. A line `%` stands between two boxes.
//!
//! | line | what it says |
//! |---|---|
//! | `ahead K ROW`, `back K ROW` | the row of cell K, read from the first cell on, or from the last one back |
//! | `at K V SPAN\|V SPAN` | for each value of cell K the least and the greatest value of the term, told and asked |
//! | `settled K B U L` | how many values of cell K, from the first on, are settled: U for B or more, L for B or less |
//!
//! A row has a `|` between two values and a `,` between two states: the least and the greatest number that each of C, D
//! and R holds over all series that have the value and lead to the state, and `-` where none does. In the last two
//! boxes the ends of two registers may come from different series, so that what is made of both lies farther out than a
//! series comes; there the numbers follow the definition of hulls, over all pairs of values.

ghost use Rattle.std.specs.Prelude.{◌≡◌, ◌≤◌, IfSome, false, length};
ghost use Rattle.ts_base.specs.Limits.{IsCellValue};
ghost use Rattle.ts_domain.specs.BoxSeries.{IsCell};
ghost use Rattle.ts_glue.specs.Machines.{forward_of};
ghost use Rattle.ts_meet.specs.Meets.{HasPlace};
ghost use Rattle.ts_row.specs.Rows.{IsRow};
ghost use Rattle.ts_sweep.specs.Sides.{has_wide, lane_count};

use crate::glued_values::machine_of;
use crate::packed_rows::{row_at, whole_row};
use crate::told::cells_of;
use crate::told::written::{span, word};
use std::alloc::Global;
use std::test::Fail;
use ts_automaton::Automaton;
use ts_base::{Ext, Span};
use ts_domain::{Boxed, Domain};
use ts_glue::Machine;
use ts_meet::{Asked, Joints, Spot, asked_at, finish_at, glued_at, settled_to};
use ts_row::RowView;
use ts_sweep::packed::{Ends, LOWER, Name, Packed, PackedHull, UPPER};

static BOXES: &str = "\
sum width peak|-inf:+inf
cells 5
cell 1 0
cell 2 0 2
cell 3 2
cell 4 0 3
cell 5 0..1 3
/
ahead 4 -,-,1:2 0 0|-,0 1:2 0,-
ahead 5 -,-,1:3 0:1 0|-,0 0 1:2,2:3 0 0|-,0 0:3 0:2,-
back 1 0 0 0,-,1:3 0:1 0
back 2 0 0 0,-,1:2 0 0|0 0 0,0 1 0,1 1 0
at 1 0 0:3
at 2 0 0:2|2 0:3
at 3 2 0:3
at 4 0 1:2|3 0:3
at 5 0 1:3|1 1:3|3 0:2
settled 1 3 1 1
settled 2 0 2 2
settled 2 2 1 2
settled 3 0 1 1
%
max max valley|-inf:+inf
cells 5
cell 1 -2 0
cell 2 2..3 5
cell 3 -2 0..1
cell 4 2..4
cell 5 2..3 5
/
ahead 4 -,-,-2:1 -inf -inf|-,-,-2:1 -inf -inf|-,-,-2:1 -inf -inf
ahead 5 -,-inf -inf -2:1,-2:1 2 -inf|-,-inf -inf -2:1,-2:2 -inf:3 -inf|-,-,2:4 -inf -inf
back 1 -,-inf -inf -2:4,-|-,-inf -inf -2:4,-
back 2 -,-,-2:4 -inf -inf|-,-,-2:4 -inf -inf|-,-,-2:4 -inf -inf
at 1 -2 -2:4|0 -2:4
at 2 2 -2:4|3 -2:4|5 -2:4
at 3 -2 -2:4|0 0:4|1 1:4
at 4 2 -2:2|3 -2:3|4 -2:4
at 5 2 -2:1|3 -2:2|5 2:4
settled 2 -2 3 3
settled 3 -2 0 0
settled 4 -2 3 3
settled 4 2 0 3
settled 5 -2 3 2
%
min surf zigzag|-inf:+inf
cells 5
cell 1 0 2
cell 2 6
cell 3 -1..1
cell 4 3..5
cell 5 2 4..5
/
ahead 4 -,-,-,-,-,5:7 0 +inf,-|-,-,-,-,-,5:7 0 +inf,-|-,-,-,-,-,5:7 0 +inf,-
ahead 5 -,-,-,-,-,-,8:12 0 +inf|+inf 0 5:7,+inf 0 5:7,-,-,-,-,10:12 0 +inf|+inf 0 5:7,+inf 0 5:7,-,-,-,-,-
back 1 -,-,-,-,-,-,5:12 0 +inf|-,-,-,-,-,-,5:12 0 +inf
back 2 -,-,-,-,+inf -1:1 +inf,2:6 0 +inf,-
at 1 0 5:12|2 5:12
at 2 6 5:12
at 3 -1 5:10|0 6:11|1 7:12
at 4 3 5:10|4 5:11|5 5:12
at 5 2 8:12|4 5:12|5 5:7
settled 1 5 2 2
settled 1 12 2 2
settled 2 5 0 0
%
sum one peak|-inf:+inf
cells 5
cell 1 2
cell 2 0..1 3
cell 3 1..3
cell 4 0..2
cell 5 0..1 3
/
ahead 4 0 1 0,-,1 1 0|0 1 0,0 1 0,1 1 0|-,0 1 0:1,1 1 0
ahead 5 0 1 0,-,1 1 0:1|0 1 0,0 1 0:1,1 1 0:1|-,0 1 0:1,-
back 1 -,0 1 0:1,1 1 0:1
back 2 0 1 0,-,1 1 0|0 1 0,0 1 0,1 1 0|-,0 1 0:1,-
at 1 2 0:2
at 2 0 0:1|1 0:1|3 1:2
at 3 1 0:2|2 0:1|3 1
at 4 0 0:1|1 0:1|2 0:2
at 5 0 0:2|1 0:2|3 0:1
settled 1 2 1 1
settled 2 0 2 2
settled 3 2 1 2
settled 4 2 0 3
%
min width plateau|-inf:4
cells 4
cell 1 -2..-1 1
cell 2 0..1
cell 3 1
cell 4 0
/
ahead 3 +inf 0 +inf,+inf 0 +inf,+inf 1 +inf
ahead 4 +inf 0 1:+inf,-,-
back 1 +inf 0 1:2,-,-|+inf 0 1:2,-,-|-,+inf 0 1,+inf 2 +inf
back 2 +inf 0 1,-,-|-,-,+inf 1 +inf
at 1 -2 1:2|-1 1:2|1 1:4
at 2 0 1|1 2:4
at 3 1 1:4
at 4 0 1:4
settled 1 1 3 3
settled 1 4 0 3
settled 2 2 0 1
%
max width summit|0:+inf
cells 5
cell 1 -1 1
cell 2 0..2
cell 3 -2..-1 1
cell 4 2 4
cell 5 0..2
/
ahead 4 -,-inf 0:2 -inf:1,-,-|-,-inf 0:2 -inf:1,-,-
ahead 5 -,-,-,1:3 0 -inf:1|-,-,-,1:3 0 -inf:1|-,-,-inf 1:3 -inf:1,1:3 0 -inf:1
back 1 -inf 0 -inf,-,-,1:3 0 -inf:1|-inf 0 -inf,-inf 0:1 -inf:2,-inf 1 -inf:1,1 0:2 -inf:1
back 2 -inf 0 -inf,-inf 0 -inf:1,-,2 0 -inf|-inf 0 -inf,-inf 0 -inf:1,-,1 1 -inf|-,-inf 0 -inf:1,-,-
at 1 -1 0:3|1 0:2
at 2 0 0:3|1 0:3|2 1
at 3 -2 0:1|-1 0:1|1 0:3
at 4 2 0:3|4 1:3
at 5 0 1:3|1 1:3|2 0:3
settled 3 1 3 3
settled 3 3 0 3
settled 5 1 3 3
settled 5 3 3 3
%
sum surf increasing_sequence|-inf:+inf
cells 5
cell 1 1 3
cell 2 1 3..4
cell 3 3 5
cell 4 -2..0
cell 5 3 5..6
/
ahead 4 0 0 0:12,-|0 0 0:12,-|0 0 0:12,-
ahead 5 -,1:3 0 0:12|-,3:5 0 0:12|-,4:6 0 0:12
back 1 -,4:10 0:1 1:6|0 0 1:12,7:12 0:3 1:6
back 2 -,4:6 0 1:6|0 0 1:6,8 0 1:6|0 0 1:6,9 0 1:6
at 1 1 5:16|3 1:18
at 2 1 5:12|3 1:15|4 6:18
at 3 3 1:13|5 7:18
at 4 -2 1:16|-1 2:17|0 3:18
at 5 3 1:15|5 3:17|6 4:18
settled 1 18 0 2
settled 2 18 0 3
settled 4 18 0 3
settled 5 4 3 3
%
max min decreasing_terrace|-inf:+inf
cells 5
cell 1 0..1 3
cell 2 4 6
cell 3 3..5
cell 4 3
cell 5 -2
/
ahead 4 -,-inf +inf -inf,-inf 3 -inf
ahead 5 -,-inf +inf -inf:3,-
back 1 -inf +inf -inf:3,-,-|-inf +inf -inf:3,-,-|-inf +inf -inf:3,-,-
back 2 -inf +inf -inf,-inf +inf 3,-inf 4 -inf|-,-inf +inf -inf:3,-
at 1 0 -inf:3|1 -inf:3|3 -inf:3
at 2 4 -inf:3|6 -inf:3
at 3 3 3|4 -inf|5 -inf
at 4 3 -inf:3
at 5 -2 -inf:3
settled 1 3 3 3
settled 2 3 2 2
settled 3 3 0 0
settled 4 3 0 1
settled 5 3 1 1
%
min max steady_sequence|-inf:+inf
cells 5
cell 1 0 2..3
cell 2 2
cell 3 1
cell 4 -1 1..2
cell 5 -1..1
/
ahead 4 +inf -inf 2:+inf,-|-,1 -inf 2:+inf|+inf -inf 2:+inf,-
ahead 5 +inf -inf 1:+inf,-1 -inf 2:+inf|+inf -inf 1:+inf,-|+inf -inf 2:+inf,1 -inf 2:+inf
back 1 +inf -inf -1:+inf,-|-,2 -inf -1:+inf|+inf -inf -1:+inf,-
back 2 +inf -inf -1:+inf,-
at 1 0 -1:+inf|2 -1:2|3 -1:+inf
at 2 2 -1:+inf
at 3 1 -1:+inf
at 4 -1 -1:+inf|1 1|2 2:+inf
at 5 -1 -1:+inf|0 1:+inf|1 1:+inf
settled 2 -1 1 1
settled 3 -1 1 1
settled 5 -1 3 1
settled 5 1 3 3
%
sum max gorge|-inf:+inf
cells 5
cell 1 3..4 6
cell 2 4
cell 3 2..4
cell 4 -2..-1
cell 5 4..5
/
ahead 4 -,0 -inf:4 0,-,-|-,0 -inf:4 0,-,-
ahead 5 -,-,-,-2:4 -inf 0|-,-,-,-2:4 -inf 0
back 1 -,0 -inf -2:3,-,-|-,-,-,-2:3 4 0|-,-,-,4 -inf 0
back 2 -,-,-,-2:3 -inf:4 0
at 1 3 -2:3|4 -2:3|6 4
at 2 4 -2:4
at 3 2 2:4|3 3:4|4 -2:4
at 4 -2 -2:4|-1 -1:4
at 5 4 -2:4|5 -2:4
settled 1 3 3 2
settled 1 4 0 3
settled 2 -2 1 1
settled 3 -2 0 0
settled 5 4 2 2
%
sum min proper_plain|-inf:+inf
cells 5
cell 1 2..3
cell 2 1
cell 3 -1
cell 4 -1 2
cell 5 3..4
/
ahead 4 -,-,0 -1 0|0 +inf 0,-,-
ahead 5 0 +inf -1:0,-,-|0 +inf -1:0,-,-
back 1 0 +inf -1:0,-,-|0 +inf -1:0,-,-
back 2 0 +inf -1:0,-,-
at 1 2 -1:0|3 -1:0
at 2 1 -1:0
at 3 -1 -1:0
at 4 -1 -1|2 0
at 5 3 -1:0|4 -1:0
settled 1 0 2 2
settled 2 -1 1 1
settled 2 0 1 1
settled 4 -1 0 0
settled 5 -1 2 2
%
max surf plain|-inf:+inf
cells 5
cell 1 5
cell 2 1..2
cell 3 -1..0 2
cell 4 2..4
cell 5 2..3
/
ahead 4 -inf 0 -1:1,-,-inf 4 -inf|-inf 0 -1:4,-,-|-inf 0 -1:4,-,-
ahead 5 -inf 0 -1:1,-inf 0 -1:4,-inf 6 -inf|-inf 0 -1:6,-inf 0 -1:4,-
back 1 -inf 0 -inf:6,-,-
back 2 -inf 0 -1:0,-inf 0 -inf,-|-inf 0 -inf:0,-,-inf 2:4 -inf
at 1 5 -inf:6
at 2 1 -1:1|2 -inf:6
at 3 -1 -1|0 0|2 -inf:6
at 4 2 -inf:6|3 -1:4|4 -1:4
at 5 2 -inf:4|3 -1:6
settled 2 6 0 2
settled 3 0 0 0
settled 4 -1 3 3
settled 5 -1 2 2
settled 5 6 0 2
%
min min increasing|-inf:+inf
cells 5
cell 1 3 5..6
cell 2 2 5
cell 3 3 6
cell 4 -1..0 2
cell 5 1 3..4
/
ahead 4 +inf +inf 2:+inf|+inf +inf 2:+inf|+inf +inf 2:+inf
ahead 5 +inf +inf -1:+inf|+inf +inf -1:2|+inf +inf -1:2
back 1 +inf +inf -1:3|+inf +inf -1:+inf|+inf +inf -1:+inf
back 2 +inf +inf -1:2|+inf +inf -1:+inf
at 1 3 -1:3|5 -1:+inf|6 -1:+inf
at 2 2 -1:2|5 -1:+inf
at 3 3 -1:+inf|6 -1:5
at 4 -1 -1|0 0|2 2:+inf
at 5 1 -1:+inf|3 -1:2|4 -1:2
settled 1 -1 3 3
settled 2 2 2 2
settled 4 2 0 3
settled 5 2 3 3
%
sum width inflexion|-inf:+inf
cells 4
cell 1 0
cell 2 3 5
cell 3 4
cell 4 2 4..5
/
ahead 3 -,0 1 0,0 0 1
ahead 4 -,-,0 0:1 1:2|-,0 2 0,0 1 1|-,0 0:2 0:2,-
at 4 2 1:2|4 0:1|5 0:2
%
max width zigzag|0:+inf
cells 5
cell 1 0
cell 2 6
cell 3 0 2..3
cell 4 2..3
cell 5 2 4..5
/
ahead 3 -,-,-,-inf 1 -inf,-,-,-|-,-,-,-inf 1 -inf,-,-,-|-,-,-,-inf 1 -inf,-,-,-
ahead 4 -inf 0 -inf,-,-inf 0 -inf,-,-,2 0 -inf,-|-inf 0 -inf,-,-,-,-,2 0 -inf,-
back 1 -,-,-,-inf 1 -inf,-,-,2:3 0 -inf
back 2 -,-inf 0 -inf,-,-,-inf 1 -inf,2 0 -inf,-
at 1 0 0:3
at 2 6 0:3
at 3 0 2:3|2 0:3|3 0
at 4 2 0:2|3 0:3
at 5 2 0:3|4 0:2|5 0:2
settled 1 3 1 1
settled 3 0 0 0
settled 4 2 2 2
settled 4 3 0 2
%
min surf strictly_decreasing_sequence|-inf:+inf
cells 4
cell 1 2 4
cell 2 3..5
cell 3 3..5
cell 4 -1 1..2
/
ahead 3 +inf 0 7:+inf,7:8 0 +inf|+inf 0 7:+inf,9 0 +inf|+inf 0 7:+inf,-
ahead 4 -,2:8 0 7:+inf|-,4:10 0 7:+inf|-,5:11 0 7:+inf
back 1 +inf 0 2:11,-|+inf 0 3:11,7 0 2:7
back 2 +inf 0 2:7,-|+inf 0 3:7,6:9 0 +inf|+inf 0 4:7,7:11 0 +inf
at 1 2 2:11|4 2:11
at 2 3 2:7|4 3:9|5 4:11
at 3 3 2:10|4 3:11|5 4:7
at 4 -1 2:8|1 4:10|2 5:11
settled 2 3 3 2
settled 3 10 0 3
settled 4 2 3 1
settled 4 11 0 3
%
max surf peak|-inf:+inf
cells 5
cell 1 -1..0
cell 2 0..2
cell 3 2..3
cell 4 1 3
cell 5 -2 0..1
/
ahead 4 -,-,2:5 0 -inf|-,-inf 2:5 -inf,-
ahead 5 -,-,3:8 0 -inf|-,-,3:8 0 -inf|-,-,2:8 0:1 -inf
back 1 -,-,2:10 0 -inf|-,-,2:10 0 -inf
back 2 -,-,2:6 0 -inf|-,-,2:6 0 -inf|-,-inf 2:3 -inf,3:6 0:2 -inf
at 1 -1 2:10|0 2:10
at 2 0 2:6|1 3:7|2 4:10
at 3 2 2:7|3 3:8
at 4 1 2:6|3 5:8
at 5 -2 3:8|0 3:8|1 2:8
settled 2 6 1 1
settled 3 3 0 0
settled 4 2 1 1
settled 4 6 0 1
settled 4 8 0 1
%
sum surf peak|-inf:+inf
cells 5
cell 1 0
cell 2 1..2 4
cell 3 0 2..3
cell 4 1..2 4
cell 5 3
/
ahead 4 -,0 0 1:4,3:7 0 0|-,0 0:4 0:4,4:7 0:2 0|-,0 0:5 0:4,-
ahead 5 -,0 0:6 0:7,4:9 0 0:4
back 1 0 0 0,-,1:11 0 0:4
back 2 0 0 0,0 0 0:4,2:7 0 0|0 0 0,0 0:2 0:4,3:7 0:2 0|-,0 0:3 0:4,-
at 1 0 0:15
at 2 1 0:8|2 0:11|4 4:11
at 3 0 1:8|2 0:8|3 4:9
at 4 1 1:7|2 0:7|4 4:13
at 5 3 0:13
settled 2 11 0 2
settled 3 0 3 0
settled 5 0 1 1
settled 5 13 1 1
";

// The text behind a function, so that no proof reads it.
fn boxes() -> &'static str {
    BOXES
}

/// Whether some number of a span is the bound or more, where upper ends are asked, or else the bound or less.
#[derive(Clone, Copy)]
struct Question {
    upper: bool,
    bound: i64,
}

impl Asked for Question {
    ghost use Rattle.std.specs.Prelude.{◌≡◌, cond, false};
    ghost use Rattle.ts_base.specs.declared.ext.Ext.{Ext};
    ghost use Rattle.ts_base.specs.declared.ext.Ext.TheVariants.{Int};
    ghost use Rattle.ts_base.specs.Numbers.{ext_le};
    ghost use Rattle.ts_base.specs.Spans.{Holds};

    ghost excluded = { λ a s. (e : Ext) → Holds s e →
        cond a.upper (ext_le (Int a.bound) e) (ext_le e (Int a.bound)) ≡ false };

    ghost of_part = { λ a s t within none e held. none e (within e held) };

    fn excludes(self, span: Span) -> bool {
        let bound = Ext::Int(self.bound);
        let is_short = if self.upper {
            span.hi < bound
        } else {
            bound < span.lo
        };
        span.is_none() || is_short
    }

    fn enough(self) -> Option<Ends> {
        if self.bound < -1_000_000 || 1_000_000 < self.bound {
            None
        } else if self.upper {
            Some(Ends {
                below: i64::MIN,
                above: self.bound,
            })
        } else {
            Some(Ends {
                below: -self.bound,
                above: i64::MIN,
            })
        }
    }
}

/// An end as an upper one lies in a lane.
fn in_lane(e: Ext) -> i64 {
    match e {
        Ext::NegInf => -i64::MAX,
        Ext::Int(x) => x,
        Ext::PosInf => i64::MAX,
    }
}

/// Whether the end that is kept is that of the span that is written.
fn end_is_told<const N: usize>(kept: Ends, written: &str) -> bool {
    match span(written, Ext::Int(0)) {
        Some(told) if N == UPPER => kept.above == in_lane(told.hi),
        Some(told) => kept.below.checked_neg() == Some(in_lane(told.lo)),
        None => false,
    }
}

/// Whether a hull has the ends that are written of its registers.
fn hull_is_told<const N: usize>(hull: &PackedHull<N>, written: &str) -> bool
    requires registers { 6 ≤ lane_count N }
    requires lanes { N ≤ 64 }
{
    if !hull.is_some() {
        return written == "-";
    }
    end_is_told::<N>(hull.ends(Name::C), word(written, 0))
        && end_is_told::<N>(hull.ends(Name::D), word(written, 1))
        && end_is_told::<N>(hull.ends(Name::R), word(written, 2))
}

/// Whether the hulls of all states at a place are those that are written.
fn hulls_are_told<const N: usize>(
    row: &RowView<'_, N>,
    states: u8,
    place: usize,
    written: &str,
) -> bool
    requires registers { 6 ≤ lane_count N }
    requires lanes { N ≤ 64 }
    requires place { HasPlace N states place row.now }
{
    let mut q: u8 = 0;
    for hull in written.split(',') {
        if states <= q || !hull_is_told(row.hull(q, place), hull) {
            return false;
        }
        q += 1;
    }
    q == states
}

/// Whether a row is the one that is written.
fn row_is_told<const N: usize>(
    row: &RowView<'_, N>,
    states: u8,
    count: usize,
    written: &str,
) -> bool
    requires registers { 6 ≤ lane_count N }
    requires lanes { N ≤ 64 }
    requires row { IsRow N states count row.now }
{
    let mut place = 0;
    for hulls in written.split('|') {
        if count <= place || !hulls_are_told(row, states, place, hulls) {
            return false;
        }
        place += 1;
    }
    place == count
}

/// Whether the row of an automaton at a cell is the one that is written.
fn row_holds<const N: usize>(
    alloc: Global,
    a: &Automaton,
    cells: &Boxed,
    back: bool,
    k: u32,
    written: &str,
) -> Result<bool, Fail>
    requires width { a.now.wide ≡ has_wide N }
    requires registers { 6 ≤ lane_count N }
    requires lanes { N ≤ 64 }
    requires cell { IsCell k cells.now }
{
    let row = row_at::<N>(alloc, a, cells, back, k)?;
    let cell = cells.cell(k);
    let view = whole_row(a, cell, &row);
    Ok(row_is_told(&view, a.states(), cell.size() as usize, written))
}

/// What rows of one end show of a span, where `far` has the ends that stand for those that they don't keep.
fn shown<const N: usize>(told: Span, far: Span) -> Span {
    if N == UPPER {
        Span {
            lo: far.lo,
            hi: told.hi,
        }
    } else {
        Span {
            lo: told.lo,
            hi: far.hi,
        }
    }
}

/// The span that is written after a value.
fn told_of(written: &str, value: i64) -> Option<Span> {
    if word(written, 0).parse::<i64>().ok() == Some(value) {
        span(word(written, 1), Ext::Int(0))
    } else {
        None
    }
}

/// Whether the finish spans at all values of the last cell are those that are written.
fn finishes_are_told<const N: usize>(
    a: &Automaton,
    row: &RowView<'_, N>,
    cell: &Domain,
    cells: u32,
    far: Span,
    written: &str,
) -> bool
    requires registers { 6 ≤ lane_count N }
    requires lanes { N ≤ 64 }
    requires narrow { has_wide N ≡ false }
    requires width { a.now.wide ≡ has_wide N }
    requires row { IsRow N (length a.now.states) (length cell.now) row.now }
{
    let mut place: usize = 0;
    for alone in written.split('|') {
        if cell.size() <= place as u64 {
            return false;
        }
        match told_of(alone, cell.nth(place as u64)) {
            Some(told) if finish_at(a, row, place, cells) == shown::<N>(told, far) => {}
            _ => return false,
        }
        place += 1;
    }
    cell.size() == place as u64
}

/// Whether questions about many bounds are answered rightly: by nothing where a number of the span has what is asked,
/// and else by what rows show.
fn is_answered<const N: usize>(
    joints: &Joints,
    left: &RowView<'_, N>,
    right: &RowView<'_, N>,
    spot: Spot,
    told: Span,
    shown: Span,
) -> bool
    requires registers { 6 ≤ lane_count N }
    requires lanes { N ≤ 64 }
    requires narrow { joints.now.wide ≡ false }
    requires left { HasPlace N joints.now.left_states spot.place left.now }
    requires right { HasPlace N joints.now.right_states spot.place right.now }
    requires value { IsCellValue spot.value }
{
    for bound in -20..20 {
        let question = Question {
            upper: N == UPPER,
            bound,
        };
        let none = Span::none();
        if !question.excludes(none) {
            return false;
        }
        let wanted = if question.excludes(told) {
            Some(shown)
        } else {
            None
        };
        if asked_at(question, none, joints, left, right, spot) != wanted {
            return false;
        }
    }
    true
}

/// Whether the span at a value is the one that is written, as it is given and as it is asked for.
fn value_is_told<const N: usize>(
    joints: &Joints,
    left: &RowView<'_, N>,
    right: &RowView<'_, N>,
    spot: Spot,
    far: Span,
    written: &str,
) -> bool
    requires registers { 6 ≤ lane_count N }
    requires lanes { N ≤ 64 }
    requires narrow { joints.now.wide ≡ false }
    requires left { HasPlace N joints.now.left_states spot.place left.now }
    requires right { HasPlace N joints.now.right_states spot.place right.now }
{
    if spot.value < -1_000_000 || 1_000_000 < spot.value {
        return false;
    }
    match told_of(written, spot.value) {
        Some(told) => {
            let shown = shown::<N>(told, far);
            glued_at(joints, left, right, spot) == shown
                && is_answered(joints, left, right, spot, told, shown)
        }
        None => false,
    }
}

/// Whether the spans at all values of a cell are those that are written.
fn values_are_told<const N: usize>(
    joints: &Joints,
    left: &RowView<'_, N>,
    right: &RowView<'_, N>,
    cell: &Domain,
    cells: u32,
    far: Span,
    written: &str,
) -> bool
    requires registers { 6 ≤ lane_count N }
    requires lanes { N ≤ 64 }
    requires narrow { joints.now.wide ≡ false }
    requires left { IsRow N joints.now.left_states (length cell.now) left.now }
    requires right { IsRow N joints.now.right_states (length cell.now) right.now }
{
    let mut place: usize = 0;
    for alone in written.split('|') {
        if cell.size() <= place as u64 {
            return false;
        }
        let spot = Spot {
            place,
            value: cell.nth(place as u64),
            cells,
        };
        if !value_is_told(joints, left, right, spot, far, alone) {
            return false;
        }
        place += 1;
    }
    cell.size() == place as u64
}

/// Whether as many places are settled as is written after the bound.
fn settled_is_told<const N: usize>(
    joints: &Joints,
    left: &RowView<'_, N>,
    right: &RowView<'_, N>,
    cell: &Domain,
    cells: u32,
    written: &str,
) -> bool
    requires registers { 6 ≤ lane_count N }
    requires lanes { N ≤ 64 }
    requires narrow { joints.now.wide ≡ false }
    requires left { IsRow N joints.now.left_states (length cell.now) left.now }
    requires right { IsRow N joints.now.right_states (length cell.now) right.now }
{
    let count = cell.size() as usize;
    let upper = N == UPPER;
    let told = word(written, if upper { 1 } else { 2 });
    match word(written, 0).parse::<i64>() {
        Ok(bound) => {
            let question = Question { upper, bound };
            let settled = settled_to(question, joints, left, right, cells, 0, count);
            told.parse::<usize>().ok() == Some(settled)
        }
        Err(_) => false,
    }
}

/// Whether rows that meet at a cell give what is written: how many places are settled, or the spans of all values.
fn meeting_is_told<const N: usize>(
    joints: &Joints,
    left: &RowView<'_, N>,
    right: &RowView<'_, N>,
    cell: &Domain,
    cells: u32,
    far: Span,
    what: &str,
    written: &str,
) -> bool
    requires registers { 6 ≤ lane_count N }
    requires lanes { N ≤ 64 }
    requires narrow { joints.now.wide ≡ false }
    requires left { IsRow N joints.now.left_states (length cell.now) left.now }
    requires right { IsRow N joints.now.right_states (length cell.now) right.now }
{
    if what == "settled" {
        settled_is_told(joints, left, right, cell, cells, written)
    } else {
        values_are_told(joints, left, right, cell, cells, far, written)
    }
}

/// The reverse automaton and the joints of a machine that can be split, if its automata are narrow.
#[tactic(auto, using(crate::proofs::Splits::split_is))]
fn narrow_joints(m: &Machine) -> Option<(&Automaton, Joints)>
    requires { (forward_of m.now).wide ≡ false }
    ensures reverse { IfSome result (λ r. r.0.now.wide ≡ false) }
    ensures narrow { IfSome result (λ r. r.1.wide ≡ false) }
    ensures left { IfSome result (λ r. r.1.left_states ≡ length (forward_of m.now).states) }
    ensures right { IfSome result (λ r. r.1.right_states ≡ length r.0.now.states) }
{
    let reverse = m.reverse()?;
    if reverse.wide() {
        return None;
    }
    Some((reverse, Joints::of(m)))
}

/// Whether the rows of a machine that meet at a cell give what is written.
fn meeting_holds<const N: usize>(
    alloc: Global,
    m: &Machine,
    cells: &Boxed,
    far: Span,
    k: u32,
    what: &str,
    written: &str,
) -> Result<bool, Fail>
    requires registers { 6 ≤ lane_count N }
    requires lanes { N ≤ 64 }
    requires narrow { has_wide N ≡ false }
    requires width { (forward_of m.now).wide ≡ has_wide N }
    requires cell { IsCell k cells.now }
{
    let (reverse, joints) = narrow_joints(m).ok_or("no narrow reverse automaton")?;
    let left = row_at::<N>(alloc, m.forward(), cells, false, k)?;
    let right = row_at::<N>(alloc, reverse, cells, true, k)?;
    let cell = cells.cell(k);
    let left = whole_row(m.forward(), cell, &left);
    let right = whole_row(reverse, cell, &right);
    let n = cells.cells();
    Ok(meeting_is_told(&joints, &left, &right, cell, n, far, what, written))
}

/// Whether the finish spans that are written of the last cell are those of an automaton.
fn end_holds<const N: usize>(
    alloc: Global,
    a: &Automaton,
    cells: &Boxed,
    far: Span,
    written: &str,
) -> Result<bool, Fail>
    requires registers { 6 ≤ lane_count N }
    requires lanes { N ≤ 64 }
    requires narrow { has_wide N ≡ false }
    requires width { a.now.wide ≡ has_wide N }
    requires some { 1 ≤ length cells.now.present }
{
    let n = cells.cells();
    let row = row_at::<N>(alloc, a, cells, false, n)?;
    let view = whole_row(a, cells.cell(n), &row);
    Ok(finishes_are_told(a, &view, cells.cell(n), n, far, written))
}

/// Whether the row of the reverse automaton at a cell is the one that is written.
#[tactic(auto, using(crate::proofs::Splits::split_is))]
fn back_holds<const N: usize>(
    alloc: Global,
    m: &Machine,
    cells: &Boxed,
    k: u32,
    written: &str,
) -> Result<bool, Fail>
    requires registers { 6 ≤ lane_count N }
    requires lanes { N ≤ 64 }
    requires narrow { has_wide N ≡ false }
    requires cell { IsCell k cells.now }
{
    match m.reverse() {
        Some(reverse) if !reverse.wide() => {
            row_holds::<N>(alloc, reverse, cells, true, k, written)
        }
        _ => Ok(false),
    }
}

/// Whether the spans that are written of a cell are those there: glued ones, and finish spans at the last cell.
fn spans_hold<const N: usize>(
    alloc: Global,
    m: &Machine,
    cells: &Boxed,
    far: Span,
    k: u32,
    written: &str,
) -> Result<bool, Fail>
    requires registers { 6 ≤ lane_count N }
    requires lanes { N ≤ 64 }
    requires narrow { has_wide N ≡ false }
    requires width { (forward_of m.now).wide ≡ has_wide N }
    requires cell { IsCell k cells.now }
{
    let is_last = k == cells.cells();
    if is_last && !end_holds::<N>(alloc, m.forward(), cells, far, written)? {
        return Ok(false);
    }
    if m.reverse().is_none() {
        return Ok(is_last);
    }
    meeting_holds::<N>(alloc, m, cells, far, k, "at", written)
}

/// Whether what is written about a cell holds of rows with N lanes.
fn cell_holds<const N: usize>(
    alloc: Global,
    m: &Machine,
    cells: &Boxed,
    far: Span,
    k: u32,
    what: &str,
    written: &str,
) -> Result<bool, Fail>
    requires registers { 6 ≤ lane_count N }
    requires lanes { N ≤ 64 }
    requires narrow { has_wide N ≡ false }
    requires width { (forward_of m.now).wide ≡ has_wide N }
    requires cell { IsCell k cells.now }
{
    match what {
        "ahead" => row_holds::<N>(alloc, m.forward(), cells, false, k, written),
        "back" => back_holds::<N>(alloc, m, cells, k, written),
        "at" => spans_hold::<N>(alloc, m, cells, far, k, written),
        "settled" => meeting_holds::<N>(alloc, m, cells, far, k, what, written),
        _ => Ok(false),
    }
}

/// Whether a line holds of the upper ends and of the lower ends.
fn line_holds(
    alloc: Global,
    m: &Machine,
    cells: &Boxed,
    far: Span,
    line: &str,
) -> Result<bool, Fail> {
    let (what, rest) = line.split_once(' ').ok_or("no line")?;
    let (k, written) = rest.split_once(' ').ok_or("no cell")?;
    let k = k.parse::<u32>().ok().ok_or("no cell")?;
    if k < 1 || cells.cells() < k || m.forward().wide() {
        return Ok(false);
    }
    Ok(
        cell_holds::<UPPER>(alloc, m, cells, far, k, what, written)?
            && cell_holds::<LOWER>(alloc, m, cells, far, k, what, written)?,
    )
}

/// The first line that doesn't hold of a machine and cells.
fn first_wrong<'a>(
    alloc: Global,
    m: &Machine,
    cells: &Boxed,
    far: Span,
    told: &'a str,
) -> Result<Option<&'a str>, Fail> {
    for line in told.lines() {
        if !line_holds(alloc, m, cells, far, line)? {
            return Ok(Some(line));
        }
    }
    Ok(None)
}

/// The first line of a box that doesn't hold.
fn first_wrong_of(alloc: Global, text: &str) -> Result<Option<&str>, Fail> {
    let (head, told) = text.split_once("/\n").ok_or("no box")?;
    let (term, model) = head.split_once('\n').ok_or("no cells")?;
    let (term, far) = term.split_once('|').ok_or("no ends")?;
    let m = machine_of(alloc, term).ok_or("no machine")?;
    let far = span(far, Ext::Int(0)).ok_or("no span")?;
    let cells = cells_of(alloc, model)?;
    first_wrong(alloc, &m, &cells, far, told)
}

#[test]
fn rows_of_one_end_by_all_series(rt: HostRuntime) -> Result<(), Fail> {
    for text in boxes().split("%\n") {
        let wrong = first_wrong_of(rt.alloc(), text)?;
        assert!(rt; wrong.is_none(), "{text}");
    }
    Ok(())
}
