//! Small boxes with the spans of three automata at the last cell, and first drops by requirements on them.

static BOXES: &str = "\
machines: sum_width_peak max_width_peak min_width_peak
cells 3
cell 1 0..1
cell 2 1..2
cell 3 0..2
/
at 3 0:1 0:1 1:3|0 0:1 0:1 1:3|1 0:1 0:1 1:3|2 0 0 3
kept 1 0 0
widths 0 = 1: 3 2 1
widths 0 = 2: 3 0 1
widths 1 <= 1, 2 < 3: 3 2 2
widths : none
widths 2 = 2, 2 = 4, 2 < 2: 3 0 2
%
machines: sum_width_peak max_width_peak min_width_peak
cells 7
cell 1 1
cell 2 3
cell 3 3
cell 4 2
cell 5 2
cell 6 1
cell 7 4
/
at 7 4 4 4|4 4 4 4
kept 1 1 1
%
machines: sum_width_peak max_width_peak min_width_peak
cells 4
cell 1 0..2
cell 2 1
cell 3 0..2
cell 4 1
/
at 4 0:2 0:2 1:4|1 0:2 0:2 1:4
kept 1 0 0
%
machines: sum_width_peak max_width_peak min_width_peak
cells 1
cell 1 0..1
/
at 1 0 0 1|0 0 0 1|1 0 0 1
kept 1 0 0
widths 0 = 0: none
widths 0 = 1: 1 0 1
%
machines: sum_width_peak max_width_peak min_width_peak
cells 1
cell 1 3
/
at 1 0 0 1|3 0 0 1
kept 1 3 3
widths 0 = 1: none
%
machines: sum_width_peak max_width_peak min_width_peak
cells 3
cell 1 0
cell 2 1
cell 3 0..1
/
at 3 0:1 0:1 1:3|0 1 1 1|1 0 0 3
kept 1 0 0
widths 0 = 1: 3 1 1
widths 0 = 0: 3 0 1
widths 0 < 2, 1 = 0: 3 0 2
%
machines: sum_width_peak max_width_peak min_width_peak
cells 5
cell 1 0
cell 2 2..3
cell 3 0..1
cell 4 1..3
cell 5 0..2
/
at 5 1:4 1:3 1:3|0 1:4 1:3 1:3|1 1:2 1 1|2 1:2 1 1
kept 1 0 0
widths 0 >= 3: 5 1 1
widths 0 > 2, 2 >= 2: 5 1 1
widths 2 != 1: 5 1 1
widths 1 >= 1, 0 != 1: none
widths 1 > 1, 1 != 4, 1 = 3: 5 1 1
%
machines: sum_width_peak max_width_peak min_width_peak
cells 4
cell 1 1..2
cell 2 0..3
cell 3 2
cell 4 0..3
/
at 4 0:2 0:2 1:4|0 0:2 0:2 1:4|1 0:2 0:2 1:4|2 0:1 0:1 1:4|3 0:1 0:1 1:4
kept 1 1 1
widths 0 = 2: 4 2 1
widths 1 != 0, 1 = 2: 4 2 2
widths 1 != 1, 1 >= 1, 1 = 2: 4 2 3
%
machines: sum_width_peak max_width_peak min_width_peak
cells 4
cell 1 2
cell 2 0..1
cell 3 0..1
cell 4 0
/
at 4 0:1 0:1 1:4|0 0:1 0:1 1:4
kept 1 2 2
widths 0 = 5: none
%
machines: sum_width_peak max_width_peak min_width_peak
cells 5
cell 1 0..1
cell 2 0..1
cell 3 0..1
cell 4 0..1
cell 5 0..1
/
at 5 0:4 0:3 1:5|0 0:4 0:3 1:5|1 0:2 0:2 1:5
kept 1 0 0
widths 0 >= 3, 1 = 3: 5 1 1
widths 1 = 3, 0 >= 3: 5 1 1
widths 0 >= 2, 0 >= 1: none
widths 1 != 0, 1 <= 4, 1 > 2: 5 1 3
%
machines: sum_width_peak max_width_peak min_width_peak
cells 5
cell 1 0
cell 2 1
cell 3 0
cell 4 1
cell 5 0..2
/
at 5 1:2 1 1|0 2 1 1|1 1 1 1|2 1 1 1
kept 1 0 0
widths 0 != 1: 5 1 1
widths 0 != 2: 5 0 1
widths 0 = 0: 5 0 1
%
machines: sum_width_peak max_width_peak min_width_peak
cells 3
cell 1 -2..-1
cell 2 0
cell 3 -1..0
/
at 3 0:1 0:1 1:3|-1 1 1 1|0 0 0 3
kept 1 -2 -2
widths 1 = 0: 3 -1 1
widths 2 > 1: 3 -1 1
widths 0 >= 1, 2 <= 1, 1 != 0: 3 0 1
%
machines: sum_width_peak max_width_peak min_width_peak
cells 5
cell 1 0..1
cell 2 -1
cell 3 3
cell 4 1..3
cell 5 -1..1
/
at 5 1:2 1:2 1:2|-1 2 2 2|0 2 2 2|1 1:2 1:2 1:2
kept 1 0 0
widths 1 < 4, 1 < 0, 0 != 0: 5 -1 2
widths 1 <= 4, 1 != 0: none
%
machines: sum_width_peak max_width_peak min_width_peak
cells 4
cell 1 -1
cell 2 2..3
cell 3 -1
cell 4 -1..1
/
at 4 1 1 1|-1 1 1 1|0 1 1 1|1 1 1 1
kept 1 -1 -1
%
machines: sum_width_peak max_width_peak min_width_peak
cells 6
cell 1 -1..1
cell 2 -1
cell 3 3
cell 4 3..5
cell 5 2
cell 6 0
/
at 6 3 3 3|0 3 3 3
kept 1 -1 -1
widths 1 = 1, 1 != 3: none
widths 0 >= 0, 1 < 3: none
%
machines: sum_width_peak max_width_peak min_width_peak
cells 4
cell 1 1..2
cell 2 0..2
cell 3 -1..1
cell 4 1..3
/
at 4 0:1 0:1 1:4|1 0:1 0:1 1:4|2 0:1 0:1 1:4|3 0:1 0:1 1:4
kept 1 1 1
widths 1 < 0, 2 = 4, 2 != 3: 4 1 1
widths 1 > 0, 2 != 0, 1 = 4: 4 1 3
%
machines: sum_width_peak max_width_peak min_width_peak
cells 4
cell 1 2..4
cell 2 2..3
cell 3 2..4
cell 4 2..3
/
at 4 0:2 0:2 1:4|2 0:2 0:2 1:4|3 0:2 0:2 1:4
kept 1 2 2
widths 1 = 2, 1 > 1, 1 != 1: none
%
machines: sum_width_peak max_width_peak min_width_peak
cells 5
cell 1 0
cell 2 0
cell 3 3..4
cell 4 3..4
cell 5 1..2
/
at 5 2 2 2|1 2 2 2|2 2 2 2
kept 1 0 0
widths 0 <= 0, 2 = 2, 0 < 1: 5 1 1
widths 1 = 2, 0 = 0: 5 1 2
%
machines: sum_width_peak max_width_peak min_width_peak
cells 3
cell 1 3..5
cell 2 1..2
cell 3 1..3
/
at 3 0 0 3|1 0 0 3|2 0 0 3|3 0 0 3
kept 1 3 3
%
machines: sum_width_peak max_width_peak min_width_peak
cells 6
cell 1 3..4
cell 2 -1
cell 3 1..2
cell 4 -1
cell 5 1..3
cell 6 2..3
/
at 6 1:2 1 1|2 1:2 1 1|3 1 1 1
kept 1 3 3
widths 0 >= 2, 0 = 1, 0 >= 5: 6 2 3
%
machines: sum_width_peak max_width_peak min_width_peak
cells 6
cell 1 1
cell 2 2..3
cell 3 0..2
cell 4 -1..0
cell 5 -1
cell 6 1
/
at 6 2:4 2:4 2:4|1 2:4 2:4 2:4
kept 1 1 1
widths 1 = 4: none
%
machines: sum_width_peak max_width_peak min_width_peak
cells 4
cell 1 2..3
cell 2 2
cell 3 0..1
cell 4 2..4
/
at 4 0 0 4|2 0 0 4|3 0 0 4|4 0 0 4
kept 1 2 2
widths 1 != 0, 1 >= 0: 4 2 1
widths 0 < 4, 0 > 4: 4 2 2
%
machines: sum_width_peak max_width_peak min_width_peak
cells 6
cell 1 2..3
cell 2 2..3
cell 3 -1
cell 4 -1..0
cell 5 1..2
cell 6 0..2
/
at 6 0:3 0:2 1:6|0 1:3 1:2 1:2|1 0:3 0:2 1:6|2 0:1 0:1 1:6
kept 1 2 2
%
machines: sum_width_peak max_width_peak min_width_peak
cells 3
cell 1 -1..0
cell 2 2..3
cell 3 0..2
/
at 3 0:1 0:1 1:3|0 1 1 1|1 1 1 1|2 0:1 0:1 1:3
kept 1 -1 -1
widths 2 <= 1, 2 < 2, 2 < 3: none
%
machines: sum_width_peak max_width_peak min_width_peak
cells 5
cell 1 2..3
cell 2 1
cell 3 0
cell 4 0..1
cell 5 0..1
/
at 5 0:1 0:1 1:5|0 0:1 0:1 1:5|1 0 0 5
kept 1 2 2
widths 0 != 0, 0 > 2: 5 0 2
widths 2 >= 1, 1 > 4: 5 0 2
widths 2 <= 4, 2 >= 1: 5 1 1
%
machines: sum_width_peak max_width_peak min_width_peak
cells 4
cell 1 2..4
cell 2 3
cell 3 2..3
cell 4 -1
/
at 4 0:2 0:2 2:4|-1 0:2 0:2 2:4
kept 1 2 2
%
machines: sum_width_peak max_width_peak min_width_peak
cells 6
cell 1 0..1
cell 2 0..1
cell 3 1
cell 4 2..3
cell 5 2
cell 6 0
/
at 6 2:4 2:4 2:4|0 2:4 2:4 2:4
kept 1 0 0
%
machines: sum_width_peak max_width_peak min_width_peak
cells 3
cell 1 0..2
cell 2 2
cell 3 3..5
/
at 3 0 0 3|3 0 0 3|4 0 0 3|5 0 0 3
kept 1 0 0
widths 2 <= 1, 0 <= 1, 2 > 1: 3 3 1
widths 2 > 1, 0 < 0: 3 3 2
%
machines: sum_width_peak max_width_peak min_width_peak
cells 5
cell 1 0..2
cell 2 3
cell 3 -1
cell 4 -1..1
cell 5 0..1
/
at 5 1:2 1 1|0 1:2 1 1|1 1 1 1
kept 1 0 0
widths 2 >= 1, 1 = 3: 5 0 2
widths 2 < 4, 0 > 4: 5 0 2
widths 0 >= 2, 0 > 0, 0 = 0: 5 0 3
%
machines: sum_width_peak max_width_peak min_width_peak
cells 6
cell 1 0
cell 2 1..2
cell 3 3..5
cell 4 2..4
cell 5 0..2
cell 6 0..2
/
at 6 2:5 2:5 2:5|0 3:5 3:5 3:5|1 3:5 3:5 3:5|2 2:3 2:3 2:3
kept 1 0 0
widths 1 != 3, 1 > 4, 1 > 0: 6 2 2
%
machines: sum_width_peak max_width_peak min_width_peak
cells 6
cell 1 3
cell 2 3..4
cell 3 3
cell 4 2
cell 5 2
cell 6 2..3
/
at 6 0:2 0:2 2:6|2 0:2 0:2 2:6|3 0:2 0:2 2:6
kept 1 3 3
widths 2 < 3, 1 >= 0, 2 <= 5: none
%
machines: sum_width_peak max_width_peak min_width_peak
cells 6
cell 1 1..2
cell 2 0..1
cell 3 1
cell 4 1
cell 5 1..3
cell 6 2..3
/
at 6 0:3 0:3 1:6|2 0:3 0:3 1:6|3 0 0 6
kept 1 1 1
widths 2 <= 2, 2 < -1: 6 2 2
";

// The text behind a function, so that the proofs of the tests don't read it.
pub(super) fn boxes() -> &'static str {
    BOXES
}
