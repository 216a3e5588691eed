//! Random boxes under a term that looks at some of their cells. A row is the hull, register by register, of the runs
//! over these cells; each value was seen to lie in the spans.

static BOXES: &str = "\
cells 7
cell 1 0..1
cell 2 2
cell 3 6
cell 4 3
cell 5 6
cell 6 7
cell 7 6
term t = max max decreasing_terrace in 1
require t >= 0
/
drops 0 >= 0: 1 0 1
ahead 1 e e e|-|-|e e e|-|-
ahead 2
ahead 3
ahead 4
ahead 5
ahead 6
ahead 7
back 1 e e e|-|-|e e e|-|-
back 2
back 3
back 4
back 5
back 6
back 7
at 1 -inf|0 -inf drop|1 -inf drop
at 2 -inf|2 -inf drop
at 3 -inf|6 -inf drop
at 4 -inf|3 -inf drop
at 5 -inf|6 -inf drop
at 6 -inf|7 -inf drop
at 7 -inf|6 -inf drop
%
cells 6
cell 1 5
cell 2 -1 2
cell 3 0
cell 4 -1 1
cell 5 1..2
cell 6 3
term t = sum max valley in 3..5
require t != 0
/
drops 0 != 0: 4 1 1
ahead 1
ahead 2
ahead 3 e -inf e|-|-
ahead 4 -|e -inf e|-|e -inf e|-|-
ahead 5 e -inf e|-|-1 -inf e|e -inf e|-|-1 -inf e
ahead 6
back 1
back 2
back 3 -|e -inf:1 e|-1 -inf e
back 4 -|e -inf e|-|e -inf e|e -inf e|-
back 5 e -inf e|-|-|e -inf e|-|-
back 6
at 1 -1:0|5 -1:0
at 2 -1:0|-1 -1:0|2 -1:0
at 3 -1:0|0 -1:0
at 4 -1:0|-1 -1|1 0 drop
at 5 -1:0|1 -1:0|2 -1:0
at 6 -1:0|3 -1:0
%
cells 5
cell 1 -1
cell 2 -1 1..2
cell 3 -1..0 2
cell 4 0
cell 5 -1 4
term t = max surf steady_sequence in 2..4
require t != 0
/
drops 0 != 0: 3 0 1
ahead 1
ahead 2 e 0 e|-|e 0 e|-|e 0 e|-
ahead 3 e 0 e|-2 0 e|e 0 e|-|e 0 e|4 0 e
ahead 4 e 0 e:4|0 0 e
ahead 5
back 1
back 2 e 0 e:0|-2 0 e|e 0 e:0|-|e 0 e:0|4 0 e
back 3 e 0 e|-|-|0 0 e|e 0 e|-
back 4 e 0 e|-
back 5
at 1 -inf:4|-1 -inf:4
at 2 -inf:4|-1 -inf:0|1 -inf:0|2 -inf:4
at 3 -inf:4|-1 -inf:-2|0 0 drop|2 -inf:4
at 4 -inf:4|0 -inf:4
at 5 -inf:4|-1 -inf:4|4 -inf:4
%
cells 6
cell 1 2 4
cell 2 3
cell 3 1
cell 4 0 4
cell 5 2
cell 6 4
term t = sum surf increasing in 4..6
require t = 5
/
drops 0 = 5: 1 2 1
ahead 1
ahead 2
ahead 3
ahead 4 e e e|e e e
ahead 5 e e e:2
ahead 6 e e 6:8
back 1
back 2
back 3
back 4 e e 8|e e 6
back 5 e e 6
back 6 e e e
at 1 6:8|2 6:8 drop|4 6:8 drop
at 2 6:8|3 6:8 drop
at 3 6:8|1 6:8 drop
at 4 6:8|0 8 drop|4 6 drop
at 5 6:8|2 6:8 drop
at 6 6:8|4 6:8 drop
%
cells 6
cell 1 4
cell 2 -2..-1
cell 3 1
cell 4 -2 1
cell 5 -1
cell 6 5
term t = min max inflexion in 2..5
require t <= 1
/
drops 0 <= 1: none
ahead 1
ahead 2 e -inf e|-|-|e -inf e|-|-
ahead 3 -|e -inf e|-
ahead 4 -|-|e -inf 1|-|e 1 e|-
ahead 5 -|e -inf -2|e -inf 1
ahead 6
at 6 -2:1|5 -2:1
%
cells 5
cell 1 6
cell 2 1 4
cell 3 3
cell 4 2
cell 5 2
term t = min width increasing_sequence in 2..5
require t = 1
/
drops 0 = 1: 2 1 1
ahead 1
ahead 2 e 0 e|-|e 0 e|-
ahead 3 e 0 e|2 0 e
ahead 4 e 0 2:e|-
ahead 5 e 0 2:e|-
back 1
back 2 -|2 0 e|e 0 e|-
back 3 e 0 e|-
back 4 e 0 e|-
back 5 e 0 e|-
at 1 2:4|6 2:4 drop
at 2 2:4|1 2 drop|4 4 drop
at 3 2:4|3 2:4 drop
at 4 2:4|2 2:4 drop
at 5 2:4|2 2:4 drop
%
cells 4
cell 1 6
cell 2 1
cell 3 3
cell 4 2
term t = sum width decreasing_sequence in 4..4
require t <= 0
/
drops 0 <= 0: none
ahead 1
ahead 2
ahead 3
ahead 4 e e e|-
back 1
back 2
back 3
back 4 e e e|-
at 1 0|6 0
at 2 0|1 0
at 3 0|3 0
at 4 0|2 0
%
cells 7
cell 1 0 5
cell 2 1 5
cell 3 -1
cell 4 1 3
cell 5 0..2
cell 6 -1 1
cell 7 -1 6
term t = count plateau in 4..6
require t <= 1
/
drops 0 <= 1: none
ahead 1
ahead 2
ahead 3
ahead 4 e 1 e|-|-|e 1 e|-|-
ahead 5 e 1 e|-|-|e 1 e|-|-|e 1 e|e 1 e|-
ahead 6 e 1 e:1|-|-|e 1 e:1|e 1 e|-
ahead 7
back 1
back 2
back 3
back 4 e 1 e:1|e 1 e|e 1 e|-|e 1 e|-
back 5 e 1 e|e 1 e|-|e 1 e|e 1 e|-|-|e 1 e|-
back 6 e 1 e|-|-|e 1 e|-|-
back 7
at 1 0:1|0 0:1|5 0:1
at 2 0:1|1 0:1|5 0:1
at 3 0:1|-1 0:1
at 4 0:1|1 0:1|3 0
at 5 0:1|0 0|1 0|2 0:1
at 6 0:1|-1 0:1|1 0:1
at 7 0:1|-1 0:1|6 0:1
%
cells 6
cell 1 3..4
cell 2 0 3
cell 3 0 2
cell 4 0 3..4
cell 5 5..6
cell 6 1
term t = sum max inflexion in 2..4
require t <= 3
/
drops 0 <= 3: none
ahead 1
ahead 2 e -inf e|-|-|e -inf e|-|-
ahead 3 e -inf e|-|e -inf e|-|e -inf e|e -inf e
ahead 4 e -inf e|-|e -inf:2 e:2|-|e -inf:2 e:2|-|-|e -inf:2 e:2|-
ahead 5
ahead 6
at 6 0:2|1 0:2
%
cells 5
cell 1 2
cell 2 0
cell 3 2
cell 4 1 4
cell 5 -2
term t = sum surf strictly_decreasing_sequence in 1
require t < 0
/
drops 0 < 0: 4 1 1
ahead 1 e e e|-
ahead 2
ahead 3
ahead 4
ahead 5
back 1 e e e|-
back 2
back 3
back 4
back 5
at 1 0|2 0 drop
at 2 0|0 0 drop
at 3 0|2 0 drop
at 4 0|1 0 drop|4 0 drop
at 5 0|-2 0 drop
%
cells 6
cell 1 2 4
cell 2 1
cell 3 3 5
cell 4 0 3..4
cell 5 1 4
cell 6 3
term t = count decreasing in 4..6
require t > 1
/
drops 0 > 1: 1 2 1
ahead 1
ahead 2
ahead 3
ahead 4 e 1 e|e 1 e|e 1 e
ahead 5 e 1 e:1|e 1 e
ahead 6 e 1 e:1
back 1
back 2
back 3
back 4 e 1 e:1|e 1 1|e 1 1
back 5 e 1 e|e 1 1
back 6 e 1 e
at 1 0:1|2 0:1 drop|4 0:1 drop
at 2 0:1|1 0:1 drop
at 3 0:1|3 0:1 drop|5 0:1 drop
at 4 0:1|0 0:1 drop|3 1 drop|4 1 drop
at 5 0:1|1 0:1 drop|4 1 drop
at 6 0:1|3 0:1 drop
%
cells 7
cell 1 1 4
cell 2 1
cell 3 -1..0
cell 4 -1 3
cell 5 2
cell 6 1 3
cell 7 -1 1
term t = sum width bump_on_decreasing_sequence in 2..7
require t >= -1
/
drops 0 >= -1: none
ahead 1
ahead 2 e e e|-|-|-|-
ahead 3 -|e e e|-|-|-|-|e e e|-|-|-
ahead 4 e e e|-|e e e|-|-|e e e|-|-|-|-
ahead 5 e e e|e e e|-|e 1 e|-
ahead 6 -|e e e|e e e|-|e 2 e|e e e|-|-|-|-
ahead 7 -|e e e|e e e:3|-|-|e e e|e e e|-|-|-
at 7 0:3|-1 0:3|1 0
%
cells 4
cell 1 2 4
cell 2 1
cell 3 1..2
cell 4 0 2
term t = min surf strictly_increasing_sequence in 1..4
require t != 3
/
drops 0 != 3: 3 2 1
ahead 1 e 0 e|-|e 0 e|-
ahead 2 e 0 e|-
ahead 3 e 0 e|-|-|3 0 e
ahead 4 e 0 3:e|-|e 0 3|3 0 e
back 1 e 0 3:e|-|e 0 3:e|-
back 2 e 0 3:e|3 0 e
back 3 e 0 e|3 0 e|e 0 e|-
back 4 e 0 e|-|e 0 e|-
at 1 3:+inf|2 3:+inf|4 3:+inf
at 2 3:+inf|1 3:+inf
at 3 3:+inf|1 3:+inf|2 3 drop
at 4 3:+inf|0 3:+inf|2 3 drop
%
cells 7
cell 1 0 3
cell 2 0..1
cell 3 0 4
cell 4 2 4
cell 5 1..2
cell 6 0 3
cell 7 2..3
term t = min width bump_on_decreasing_sequence in 1..6
require t < 3
/
drops 0 < 3: 7 2 1
ahead 1 e 0 e|-|-|-|-|e 0 e|-|-|-|-
ahead 2 e 0 e|e 0 e|-|-|-|e 0 e|e 0 e|-|-|-
ahead 3 e 0 e|e 0 e|e 0 e|-|-|e 0 e|-|-|-|-
ahead 4 e 0 e|e 0 e|-|e 1 e|-|e 0 e|-|-|e 1 e|-
ahead 5 -|e 0 e|e 0 e|-|e 2 e|e 0 e|e 0 e|-|-|e 2 e
ahead 6 -|e 0 e|e 0 3:e|-|-|e 0 e|-|-|e 1 e|-
ahead 7
at 7 3:6|2 3:6 drop|3 3:6 drop
%
cells 6
cell 1 5
cell 2 1..2
cell 3 -2
cell 4 -2 1
cell 5 -2 1
cell 6 5
term t = max surf zigzag in 2..5
require t >= -1
/
drops 0 >= -1: 4 -2 1
ahead 1
ahead 2 e 0 e|-|-|-|-|-|-|e 0 e|-|-|-|-|-|-
ahead 3 -|-|e 0 e|-|-|-|-
ahead 4 e 0 e|-|-|-|-|-|-|-|-|-|-|e -2 e|-|-
ahead 5 e 0 e|-|-|-|-|-|-1 0 e|e 0 e|e 0 e|-|-|-|-|-
ahead 6
back 1
back 2 -|e 0 e|-|-|e -2 e|-1 0 e|-|-|e 0 e|-|-|e -2 e|-1 0 e|-
back 3 e 0 e|-|e 0 e|e 1 e|-|-|-
back 4 e 0 e|-|e 0 e|-|-|-|-|e 0 e|e 0 e|-|-|-|-|-
back 5 e 0 e|-|-|-|-|-|-|e 0 e|-|-|-|-|-|-
back 6
at 1 -inf:-1|5 -inf:-1
at 2 -inf:-1|1 -inf:-1|2 -inf:-1
at 3 -inf:-1|-2 -inf:-1
at 4 -inf:-1|-2 -inf drop|1 -inf:-1
at 5 -inf:-1|-2 -inf:-1|1 -inf drop
at 6 -inf:-1|5 -inf:-1
%
cells 5
cell 1 -1..0
cell 2 -1
cell 3 -1 3
cell 4 1
cell 5 0
term t = sum min gorge in 1..5
require t = -1
/
drops 0 = -1: 1 -1 1
ahead 1 e +inf e|-|-|-|e +inf e|-|-|-
ahead 2 e +inf e|e +inf e|-|-
ahead 3 e +inf e|-|e -1 e|-|e +inf e|-|-|-1 +inf e
ahead 4 e +inf e|e +inf -1:e|-|-
ahead 5 -|e 1:+inf -1:e|-|-
back 1 -|-|e -1 e|-|e +inf e|-|-|-1 +inf e
back 2 -|e +inf e|e -1 e|-
back 3 -|e +inf e|-|-|e +inf e|-|-|-
back 4 e +inf e|-|-|-
back 5 e +inf e|-|-|-
at 1 -1:0|-1 0 drop|0 -1:0
at 2 -1:0|-1 -1:0
at 3 -1:0|-1 0 drop|3 -1:0
at 4 -1:0|1 -1:0
at 5 -1:0|0 -1:0
%
cells 5
cell 1 6
cell 2 1..2
cell 3 0 3
cell 4 0 2
cell 5 1..2
term t = min min peak in 3..5
require t <= 3
/
drops 0 <= 3: 3 3 1
ahead 1
ahead 2
ahead 3 e e e|-|-|e e e|-|-
ahead 4 e e e|-|-|e e e|e e e|-
ahead 5 e e e|e e e|2 e e|e e e|e 2:e e|-
back 1
back 2
back 3 e e e|-|2 e e|-|e 2:e e|-
back 4 e e e|-|-|e e e|e e e|-
back 5 e e e|-|-|e e e|-|-
at 1 2:+inf|6 2:+inf
at 2 2:+inf|1 2:+inf|2 2:+inf
at 3 2:+inf|0 2:+inf|3 +inf drop
at 4 2:+inf|0 +inf drop|2 2:+inf
at 5 2:+inf|1 2:+inf|2 +inf drop
%
cells 5
cell 1 -2 0
cell 2 -1 2
cell 3 2
cell 4 -1 2
cell 5 -2
term t = sum min proper_plateau in 1..4
require t > 2
/
drops 0 > 2: 1 -2 1
ahead 1 e +inf e|-|-|e +inf e|-|-
ahead 2 e +inf e|e +inf e|-|-|e +inf e|-
ahead 3 -|e +inf e|e 2 e
ahead 4 e +inf e:2|-|-|-|-|e 2 e
ahead 5
back 1 e +inf e:2|-|-|e +inf e:2|e +inf e|-
back 2 e +inf e|-|-|e +inf e|-|e 2 e
back 3 e +inf e|e +inf e|-
back 4 e +inf e|-|-|e +inf e|-|-
back 5
at 1 0:2|-2 0:2 drop|0 0:2 drop
at 2 0:2|-1 0 drop|2 0:2 drop
at 3 0:2|2 0:2 drop
at 4 0:2|-1 0:2 drop|2 0 drop
at 5 0:2|-2 0:2 drop
%
cells 6
cell 1 0
cell 2 -1 2
cell 3 3
cell 4 0..1
cell 5 0 3
cell 6 4 6
term t = min surf summit in 2..5
require t = 2
/
drops 0 = 2: 2 -1 1
ahead 1
ahead 2 e 0 e|-|-|-|e 0 e|-|-|-
ahead 3 -|e 0 e|-|-
ahead 4 -|-|-|3 0 e|-|-|-|3 0 e
ahead 5 -|-|-|3:4 0 e|-|e 0 3|-|-
ahead 6
back 1
back 2 -|-|-|3:4 0 e|-|-|-|3:4 0 e
back 3 -|e 0:1 e|-|-
back 4 e 0 e|-|-|-|e 0 e|e 0 e|-|-
back 5 e 0 e|-|-|-|e 0 e|-|-|-
back 6
at 1 3:4|0 3:4 drop
at 2 3:4|-1 3:4 drop|2 3:4 drop
at 3 3:4|3 3:4 drop
at 4 3:4|0 3 drop|1 3:4 drop
at 5 3:4|0 3:4 drop|3 3 drop
at 6 3:4|4 3:4 drop|6 3:4 drop
%
cells 6
cell 1 0 2
cell 2 1..3
cell 3 0 4
cell 4 4
cell 5 6
cell 6 7
term t = min max steady_sequence in 1..3
require t >= 2
/
drops 0 >= 2: none
ahead 1 e -inf e|-|e -inf e|-
ahead 2 e -inf e|-|e -inf e|2 -inf e|e -inf e|-
ahead 3 e -inf 2:e|-|e -inf 2:e|-
ahead 4
ahead 5
ahead 6
back 1 e -inf e|-|e -inf e|2 -inf e
back 2 e -inf e|-|e -inf e|-|e -inf e|-
back 3 e -inf e|-|e -inf e|-
back 4
back 5
back 6
at 1 2:+inf|0 +inf|2 2:+inf
at 2 2:+inf|1 +inf|2 2:+inf|3 +inf
at 3 2:+inf|0 2:+inf|4 2:+inf
at 4 2:+inf|4 2:+inf
at 5 2:+inf|6 2:+inf
at 6 2:+inf|7 2:+inf
%
cells 4
cell 1 3
cell 2 2
cell 3 7
cell 4 0 3
term t = max width peak in 1..1
require t = 0
/
drops 0 = 0: none
ahead 1 e 0 e|-|-
ahead 2
ahead 3
ahead 4
back 1 e 0 e|-|-
back 2
back 3
back 4
at 1 0|3 0
at 2 0|2 0
at 3 0|7 0
at 4 0|0 0|3 0
%
cells 4
cell 1 3..4
cell 2 0 4
cell 3 2
cell 4 1 3
term t = max min plain in 1..4
require t > -1
/
drops 0 > -1: none
ahead 1 e +inf e|-|-|e +inf e|-|-
ahead 2 -|e +inf e|-|e +inf e|-|-
ahead 3 e +inf 0|e +inf e|-
ahead 4 -|e +inf e:0|-|e +inf 0:2|-|-
back 1 e +inf 0|e +inf e:2|-|e +inf e:2|-|-
back 2 -|e +inf e|-|e +inf e:2|-|-
back 3 e +inf e|e +inf e|-
back 4 e +inf e|-|-|e +inf e|-|-
at 1 -inf:2|3 -inf:2|4 -inf:2
at 2 -inf:2|0 0|4 -inf:2
at 3 -inf:2|2 -inf:2
at 4 -inf:2|1 -inf:0|3 0:2
%
cells 4
cell 1 0..1 4
cell 2 0 3..4
cell 3 2..4
cell 4 2
term t = min min plateau in 1..3
require t = 4
/
drops 0 = 4: 1 4 1
ahead 1 e e e|-|-|e e e|-|-|e e e|-|-
ahead 2 e e e|-|-|e e e|e e e|-|e e e|e e e|-
ahead 3 e e 3:e|e e e|-|e e 4:e|e e e|e 3 e|e e e|e e e|e 4 e
ahead 4
back 1 e e 3:e|-|-|e e 3:e|e e e|-|e e e|e e e|e 4 e
back 2 e e e|-|-|e e e|e e e|-|e e e|e e e|-
back 3 e e e|-|-|e e e|-|-|e e e|-|-
back 4
at 1 3:+inf|0 3:+inf|1 3:+inf|4 +inf drop
at 2 3:+inf|0 +inf drop|3 3:+inf|4 4:+inf
at 3 3:+inf|2 3:+inf|3 4:+inf|4 +inf drop
at 4 3:+inf|2 3:+inf
%
cells 7
cell 1 1 5
cell 2 0 2
cell 3 1 4
cell 4 1 3
cell 5 0 2
cell 6 2..3
cell 7 2..3
term t = sum width dip_on_increasing_sequence in 2..7
require t = 3
/
drops 0 = 3: 7 2 1
ahead 1
ahead 2 e e e|-|-|-|-|e e e|-|-|-|-
ahead 3 e e e|e e e|-|-|-|-|e e e|-|-|-
ahead 4 e e e|-|-|-|-|e e e|e e e|e e e|-|-
ahead 5 e e e|-|-|e 1 e|-|e e e|e e e|-|e 1 e|-
ahead 6 e e e|e e e|-|-|e 2 e|-|e e e|e e e|-|e 2 e
ahead 7 e e e|-|-|e 1 e|-|e e e|e e e|e e e:3|-|-
at 7 0:3|2 0 drop|3 0:3
%
cells 5
cell 1 2 4
cell 2 0 2
cell 3 0
cell 4 0..1
cell 5 4
term t = count proper_plain in 1..4
require t != 0
/
drops 0 != 0: 2 2 1
ahead 1 e 1 e|-|-|e 1 e|-|-
ahead 2 -|e 1 e|-|e 1 e|e 1 e|-
ahead 3 -|e 1 e|e 1 e
ahead 4 -|-|e 1 e|e 1 e:1|-|-
ahead 5
back 1 e 1 e:1|-|-|e 1 e:1|-|-
back 2 e 1 e|-|e 1 e|e 1 e|-|-
back 3 e 1 e|e 1 e|-
back 4 e 1 e|-|-|e 1 e|-|-
back 5
at 1 0:1|2 0:1|4 0:1
at 2 0:1|0 0:1|2 0 drop
at 3 0:1|0 0:1
at 4 0:1|0 0 drop|1 0:1
at 5 0:1|4 0:1
%
cells 5
cell 1 0 4
cell 2 1
cell 3 0..1
cell 4 1 3
cell 5 5
term t = max max increasing_terrace in 1..4
require t != 0
/
drops 0 != 0: none
ahead 1 e e e|-|-|e e e|-|-
ahead 2 e e e|e e e|-
ahead 3 e e e|-|-|e e e|-|e 1 e
ahead 4 e e e|e e e|e 1 e|-|e e e:1|-
ahead 5
back 1 -|e e e:1|-|e e e|-|-
back 2 e e e|-|e 1 e
back 3 -|e e e|-|e e e|e e e|-
back 4 e e e|-|-|e e e|-|-
back 5
at 1 -inf:1|0 -inf:1|4 -inf
at 2 -inf:1|1 -inf:1
at 3 -inf:1|0 -inf|1 -inf:1
at 4 -inf:1|1 -inf|3 -inf:1
at 5 -inf:1|5 -inf:1
%
cells 4
cell 1 0
cell 2 0
cell 3 4
cell 4 0 4
term t = max min steady in 1..4
require t != 5
/
drops 0 != 5: none
ahead 1 e +inf e
ahead 2 e +inf 0
ahead 3 e +inf 0
ahead 4 e +inf 0|e +inf 4
back 1 e +inf 0:4
back 2 e +inf e:4
back 3 e +inf e:4
back 4 e +inf e|e +inf e
at 1 0:4|0 0:4
at 2 0:4|0 0:4
at 3 0:4|4 0:4
at 4 0:4|0 0|4 4
%
cells 7
cell 1 0
cell 2 0 2
cell 3 0 3
cell 4 2
cell 5 1..2
cell 6 -1 2
cell 7 2
term t = max width zigzag in 2..6
require t < -1
/
drops 0 < -1: 2 0 1
ahead 1
ahead 2 e 0 e|-|-|-|-|-|-|e 0 e|-|-|-|-|-|-
ahead 3 e 0 e|-|e 0 e|-|-|-|-|-|e 0 e|-|-|-|-|-
ahead 4 -|e 0 e|-|e 1 e|e 1 e|-|-
ahead 5 -|-|e 0 e|e 1 e|-|-|2 0 e|e 0 e|-|-|-|-|-|-
ahead 6 -|-|e 0 e:2|-|-|-|-|e 0 e|-|-|-|e 1 e|2:3 0 e|-
ahead 7
back 1
back 2 e 0 e:2|-|-|e 1 e|-|-|-|-|-|-|e 1 e|e 1 e|2:3 0 e|-
back 3 -|-|e 0 e|e 1 e|-|-|2 0 e|-|e 0 e|-|-|-|-|-
back 4 e 0 e|e 0 e|-|-|e 1 e|-|-
back 5 -|e 0 e|e 0 e|-|-|-|-|e 0 e|e 0 e|-|-|-|-|-
back 6 e 0 e|-|-|-|-|-|-|e 0 e|-|-|-|-|-|-
back 7
at 1 0:3|0 0:3 drop
at 2 0:3|0 0:2 drop|2 0:3 drop
at 3 0:3|0 0:3 drop|3 0 drop
at 4 0:3|2 0:3 drop
at 5 0:3|1 0:3 drop|2 0 drop
at 6 0:3|-1 0:2 drop|2 0:3 drop
at 7 0:3|2 0:3 drop
";

// The text behind a function, so that the proofs of the tests don't read it.
pub(super) fn boxes() -> &'static str {
    BOXES
}
