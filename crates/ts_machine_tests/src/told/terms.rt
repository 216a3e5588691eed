//! Small boxes with the spans of a term at every cell; and rows backward. The reverse automaton of a term on peaks is
//! that of its text forward; the reverse one of ranges that fall is that of ranges that rise.

static BOXES: &str = "\
cells 5
cell 1 0..1
cell 2 0..1
cell 3 1
cell 4 0..2
cell 5 0..1
term t = sum width peak
/
at 1 0:3|0 0:3|1 0:2
kept 1 0 0
at 2 0:3|0 0:2|1 0:3
kept 2 1 0
at 3 0:3|1 0:3
kept 3 1 1
at 4 0:3|0 0:2|1 0:3|2 1:3
kept 4 1 0
at 5 0:3|0 0:3|1 0:3
kept 5 0 0
drops 0 < 1, 0 > 1: 4 2 1
drops 0 >= 3, 0 <= 1: 1 1 1
drops 0 >= 2: none
%
cells 5
cell 1 0
cell 2 1..3
cell 3 1..2
cell 4 0..2
cell 5 1
term t = max width peak
/
at 1 0:4|0 0:4
kept 1 0 0
at 2 0:4|1 0:4|2 1:3|3 1:3
kept 2 1 1
at 3 0:3|1 0:3|2 2:3
kept 3 1 1
at 4 0:3|0 2|1 0:2|2 1:3
kept 4 2 1
at 5 0:3|1 0:3
kept 5 1 1
drops 0 = 1: 3 2 1
drops 0 != 0, 0 = 3: 4 0 2
drops 0 >= 3, 0 <= 1: 3 2 2
%
cells 4
cell 1 1..2
cell 2 2..3
cell 3 0..1
cell 4 1..3
term t = min max peak
/
at 1 2:+inf|1 2:3|2 3:+inf
kept 1 2 1
at 2 2:+inf|2 2:+inf|3 3
kept 2 2 2
at 3 2:+inf|0 2:+inf|1 2:+inf
kept 3 0 0
at 4 2:+inf|1 2:+inf|2 2:+inf|3 2:+inf
kept 4 1 1
drops 0 <= 2: 1 2 1
drops 0 <= 3: none
%
cells 4
cell 1 0..1
cell 2 1..2
cell 3 1..3
cell 4 2..3
term t = sum surf steady_sequence
/
at 1 0:9|0 0:6|1 0:9
kept 1 1 0
at 2 0:8|1 0:8|2 0:6
kept 2 1 1
at 3 0:8|1 0:3|2 0:6|3 0:8
kept 3 3 1
at 4 0:8|2 0:8|3 0:8
kept 4 2 2
drops 0 = 5: 3 1 1
drops 0 >= 4: 3 1 1
%
cells 3
cell 1 0..2
cell 2 1..2
cell 3 0..1
term t = max min increasing_sequence
/
at 1 -inf:1|0 0|1 -inf:1|2 -inf
kept 1 1 1
at 2 -inf:1|1 -inf:0|2 -inf:1
kept 2 2 1
at 3 -inf:1|0 -inf:1|1 -inf:1
kept 3 0 0
drops 0 = 1: 1 0 1
drops 0 != 1: none
%
cells 4
cell 1 0..1
cell 2 1
cell 3 0..2
cell 4 1..3
term t = sum width strictly_increasing_sequence
/
at 1 0:6|0 2:6|1 0:3
kept 1 0 1
at 2 0:4|1 0:4
kept 2 1 1
at 3 0:4|0 2:4|1 0:4|2 2:4
kept 3 0 1
at 4 0:6|1 0:4|2 2:4|3 2:6
kept 4 3 1
drops 0 >= 3, 0 <= 1: 1 0 2
drops 0 >= 4: 1 1 1
drops 0 != 0, 0 = 3: none
%
cells 8
cell 1 0..1
cell 2 2
cell 3 0..1
cell 4 0..1
cell 5 1
cell 6 0..2
cell 7 0..1
cell 8 0 3
term t = sum width peak in 3..7
/
at 1 0:3|0 0:3|1 0:3
kept 1 0 0
at 2 0:3|2 0:3
kept 2 2 2
at 3 0:3|0 0:3|1 0:2
kept 3 0 0
at 4 0:3|0 0:2|1 0:3
kept 4 1 0
at 5 0:3|1 0:3
kept 5 1 1
at 6 0:3|0 0:2|1 0:3|2 1:3
kept 6 1 0
at 7 0:3|0 0:3|1 0:3
kept 7 0 0
at 8 0:3|0 0:3|3 0:3
kept 8 0 0
drops 0 < 1, 0 > 1: 6 2 1
drops 0 >= 3, 0 <= 1: 3 1 1
drops 0 >= 2: none
drops 0 >= 9: 1 0 1
%
cells 7
cell 1 0
cell 2 1..3
cell 3 1..2
cell 4 0..2
cell 5 1
cell 6 0..2
cell 7 1
term t = max width peak in 1..5
/
at 1 0:4|0 0:4
kept 1 0 0
at 2 0:4|1 0:4|2 1:3|3 1:3
kept 2 1 1
at 3 0:3|1 0:3|2 2:3
kept 3 1 1
at 4 0:3|0 2|1 0:2|2 1:3
kept 4 2 1
at 5 0:3|1 0:3
kept 5 1 1
at 6 0:3|0 0:3|1 0:3|2 0:3
kept 6 0 0
at 7 0:3|1 0:3
kept 7 1 1
drops 0 = 1: 3 2 1
drops 0 != 0, 0 = 3: 4 0 2
drops 0 >= 3, 0 <= 1: 3 2 2
%
cells 5
cell 1 1..2
cell 2 1..2
cell 3 2..3
cell 4 0..1
cell 5 1..3
term t = min max peak in 2..5
/
at 1 2:+inf|1 2:+inf|2 2:+inf
kept 1 1 1
at 2 2:+inf|1 2:3|2 3:+inf
kept 2 2 1
at 3 2:+inf|2 2:+inf|3 3
kept 3 2 2
at 4 2:+inf|0 2:+inf|1 2:+inf
kept 4 0 0
at 5 2:+inf|1 2:+inf|2 2:+inf|3 2:+inf
kept 5 1 1
drops 0 <= 2: 2 2 1
drops 0 <= 3: none
%
cells 7
cell 1 5
cell 2 0..1
cell 3 1..2
cell 4 1..3
cell 5 2..3
cell 6 0
cell 7 0 7
term t = sum surf steady_sequence in 2..5
/
at 1 0:8|5 0:8
kept 1 5 5
at 2 0:9|0 0:6|1 0:9
kept 2 1 0
at 3 0:8|1 0:8|2 0:6
kept 3 1 1
at 4 0:8|1 0:3|2 0:6|3 0:8
kept 4 3 1
at 5 0:8|2 0:8|3 0:8
kept 5 2 2
at 6 0:8|0 0:8
kept 6 0 0
at 7 0:8|0 0:8|7 0:8
kept 7 0 0
drops 0 = 5: 4 1 1
drops 0 >= 4: 4 1 1
%
cells 3
cell 1 0..1
cell 2 1..2
cell 3 0..2
term t = sum width peak
/
back 1 e 0 e|-|1 0 e|e 0 e|e 1 e|1 0 e
back 2 e 0 e|e 0 e|-|e 0 e|e 0 e|-
back 3 e 0 e|-|-|e 0 e|-|-|e 0 e|-|-
%
cells 3
cell 1 0..1
cell 2 1..2
cell 3 0..2
term t = max width peak
/
back 1 e 0 e|-|1 0 e|e 0 e|e 1 e|1 0 e
back 2 e 0 e|e 0 e|-|e 0 e|e 0 e|-
back 3 e 0 e|-|-|e 0 e|-|-|e 0 e|-|-
%
cells 3
cell 1 0..1
cell 2 1..2
cell 3 0..2
term t = min width peak
/
back 1 e 0 e|-|1 0 e|e 0 e|e 1 e|1 0 e
back 2 e 0 e|e 0 e|-|e 0 e|e 0 e|-
back 3 e 0 e|-|-|e 0 e|-|-|e 0 e|-|-
%
cells 3
cell 1 0..1
cell 2 1..2
cell 3 0..2
term t = max surf strictly_decreasing_sequence
/
back 1 e 0 e:3|-|e 0 e:3|-
back 2 e 0 e|1 0 e|e 0 e|2:3 0 e
back 3 e 0 e|-|e 0 e|-|e 0 e|-
";

// The text behind a function, so that the proofs of the tests don't read it.
pub(super) fn boxes() -> &'static str {
    BOXES
}
