//! Small automata as texts, and boxes under them: tables of three cells; rows that sweeps make, and rows that have to
//! be made over all pairs; spans at the last cell, of all its values and of each one, with other cells before and
//! after the window, and on one series.

ghost use Rattle.std.specs.Prelude.{◌≡◌, ℤ, IfOk, List, None};
ghost use Rattle.ts_bound.specs.TermSpans.{LooksIn, automata_of};
ghost use Rattle.ts_glue.specs.Machines.{window_of};

use std::alloc::Global;
use std::test::Fail;
use ts_automaton::read;
use ts_glue::Machine;

/// The sum of the widths of peaks.
static SUM_WIDTH_PEAK: &str = "forward
state s free
state r free
state t held
start 0 0 0
move s < r ; C ; D ; R
move s = s ; C ; D ; R
move s > s ; C ; D ; R
move r < r ; C ; add D 1 ; R
move r = r ; C ; add D 1 ; R
move r > t ; add D 1 ; 0 ; R
move t < r ; 0 ; 0 ; add R C
move t = t ; C ; add D 1 ; R
move t > t ; add C add D 1 ; 0 ; R
finish add R C same
end
";

/// The greatest width of a peak.
static MAX_WIDTH_PEAK: &str = "forward
state s free
state r free
state t held
start -inf 0 -inf
move s < r ; C ; D ; R
move s = s ; C ; D ; R
move s > s ; C ; D ; R
move r < r ; C ; add D 1 ; R
move r = r ; C ; add D 1 ; R
move r > t ; add D 1 ; 0 ; R
move t < r ; -inf ; 0 ; max R C
move t = t ; C ; add D 1 ; R
move t > t ; add C add D 1 ; 0 ; R
finish max R C zero
end
";

/// The least width of a peak.
static MIN_WIDTH_PEAK: &str = "forward
state s free
state r free
state t held
start +inf 0 +inf
move s < r ; C ; D ; R
move s = s ; C ; D ; R
move s > s ; C ; D ; R
move r < r ; C ; add D 1 ; R
move r = r ; C ; add D 1 ; R
move r > t ; add D 1 ; 0 ; R
move t < r ; +inf ; 0 ; min R C
move t = t ; C ; add D 1 ; R
move t > t ; add C add D 1 ; 0 ; R
finish min R C cells
end
";

/// The greatest sum of a range of rising cells.
static MAX_SURF_RISING: &str = "forward
state s free
state r held
start -inf 0 -inf
move s < r ; add add D x y ; 0 ; R
move s = s ; -inf ; 0 ; R
move s > s ; -inf ; 0 ; R
move r < r ; add C y ; 0 ; R
move r = s ; -inf ; 0 ; max R C
move r > s ; -inf ; 0 ; max R C
finish max R C zero
end
";

/// The greatest cell less the least one of each falling stretch, the greatest of these.
static MAX_RANGE_FALLING: &str = "forward wide
state s free
state r held
start -inf 0 -inf +inf -inf
move s < s ; C ; E ; D ; F ; R
move s = s ; C ; E ; D ; F ; R
move s > r ; max max D x y ; min min F x y ; -inf ; +inf ; R
move r < s ; -inf ; 0 ; -inf ; +inf ; max R sub C E
move r = s ; -inf ; 0 ; -inf ; +inf ; max R sub C E
move r > r ; max C max D y ; min E min F y ; -inf ; +inf ; R
finish max R sub C E same
end
";

/// Each expression is a front, a tail, or a tail after two fronts.
static TAILS: &str = "forward
state s free
state t free
start 0 0 -inf
move s < t ; add C add D y ; x ; max R y
move s = s ; C ; D ; R
move s > t ; add x y ; min D y ; max R max C y
move t < s ; add C y ; 0 ; R
move t = t ; max C y ; D ; R
move t > s ; C ; add D y ; max R y
finish max R C same
end
";

/// The next cell stands in the first operand, or alone.
static PAIRS: &str = "forward
state s free
start 1 0 0
move s < s ; add max C y D ; add D y ; R
move s = s ; add C y ; y ; R
move s > s ; C ; y ; add R y
finish add R C same
end
";

/// C and D are doubled at each `=`, up to -10^17 and 10^17; then a sum that may not be taken in another order.
static LARGE: &str = "forward
state s free
state t free
start 0 0 0
move s < s ; C ; D ; R
move s = t ; x ; 1 ; 0
move s > s ; C ; D ; R
move t < t ; C ; D ; add C add D y
move t = t ; add C C ; add D D ; R
move t > t ; C ; D ; R
finish R same
end
";

/// The cells 0 to 1, 1 to 2 and 0 to 2; the cells 0, 1 and 5, -1 to 2, 0, 3 and 4, 1 to 3; and others.
static BOXES: &str = "\
machines: sum_width_peak max_width_peak min_width_peak
cells 3
cell 1 0..1
cell 2 1..2
cell 3 0..2
/
ahead 1 e 0 e|-|-|e 0 e|-|-
ahead 2 e 0 e|e 0 e|-|-|e 0 e|-
ahead 3 e 0 e|-|1 0 e|e 0 e|e 1 e|1 0 e|-|e 0:1 e|-
%
machines: max_surf_rising
cells 3
cell 1 0..1
cell 2 1..2
cell 3 0..2
/
ahead 1 e 0 e|-|e 0 e|-
ahead 2 e 0 e|1 0 e|-|2:3 0 e
ahead 3 e 0 e:3|-|e 0 e:3|-|e 0 2:3|3 0 e
%
machines: max_tails
cells 4
cell 1 0..1 5
cell 2 -1..2
cell 3 0 3..4
cell 4 1..3
/
ahead 1 0 0 e|-|0 0 e|-|0 0 e|-
ahead 2 -|-1:4 -1 0|0 0 e|1:5 0 0|0 0 e|1:6 0 1|-|2:7 0:1 2
ahead 3 -1:7 0:1 e:2|1:5 0 0|2:10 0 0:2|3 0:1 3|3:11 0 0:2|4 0:1 4
ahead 4 2:6 0:2 0:4|0:9 0 1:11|3:7 0:3 0:4|1:10 0 2:11|2:10 0:4 0:4|2:11 0:1 3:11
%
machines: max_range_falling
cells 4
cell 1 0..1 5
cell 2 -1..2
cell 3 0 3..4
cell 4 1..3
/
ahead 1 e 0 e +inf e|-|e 0 e +inf e|-|e 0 e +inf e|-
ahead 2 -|0:5 -1 e +inf e|e 0 e +inf e|1:5 0 e +inf e|e 0 e +inf e|5 1 e +inf e|e 0 e +inf e|5 2 e +inf e
ahead 3 e 0 e +inf e:6|1:5 0 e +inf e|e 0 e +inf e:6|-|e 0 e +inf e:6|-
ahead 4 e 0 e +inf e:6|3:4 1 e +inf e:6|e 0 e +inf e:6|3:4 2 e +inf e:6|e 0 e +inf e:6|4 3 e +inf e:6
%
machines: pairs
cells 4
cell 1 0..1 5
cell 2 -1..2
cell 3 0 3..4
cell 4 1..3
/
ahead 1 1 0 0|1 0 0|1 0 0
ahead 2 1 -1 -1|1 0 0|1:2 1 0:1|1:2 2 0:2
ahead 3 0:2 -1:0 -1:2|2:5 2:5 -1:2|3:6 3:6 -1:2
ahead 4 0:6 0:1 -1:3|1:6 1:2 -1:4|2:8 2:3 -1:5
%
machines: large
cells 60
domain -1
cell 60 7
/
ahead 60 -|-100000000000000000 100000000000000000 0
%
machines: max_surf_rising
cells 2
domain 0..32767
/
at 2 0:65533
%
machines: sum_width_peak max_width_peak min_width_peak max_surf_rising max_tails pairs
cells 1
cell 1 0..1 5
/
at 1 0 0 1 0 0 1
%
machines: sum_width_peak max_width_peak min_width_peak max_surf_rising max_tails pairs
cells 2
cell 1 0..1 5
cell 2 -1..2
/
at 2 0 0 2 0:3 0:7 0:4
%
machines: sum_width_peak max_width_peak min_width_peak max_surf_rising max_tails pairs
cells 3
cell 1 0..1 5
cell 2 -1..2
cell 3 0 3..4
/
at 3 0:1 0:1 1:3 -1:7 -1:11 -1:8
%
machines: sum_width_peak max_width_peak min_width_peak max_surf_rising max_tails pairs
cells 4
cell 1 0..1 5
cell 2 -1..2
cell 3 0 3..4
cell 4 1..3
/
at 4 0:2 0:2 1:4 0:7 1:11 -1:13|1 0:2 0:2 1:4 0:7 1:11 -1:9|2 0:2 0:2 1:4 1:7 2:11 0:10|3 0:2 0:2 1:4 2:7 2:11 1:13
%
machines: sum_width_peak max_width_peak min_width_peak max_surf_rising max_tails pairs|2 2
cells 3
cell 1 -3..9
cell 2 0..1 5
cell 3 -3..9
/
at 3 0 0 1 0 0 1
%
machines: sum_width_peak max_width_peak min_width_peak max_surf_rising max_tails pairs|2 3
cells 4
cell 1 -3..9
cell 2 0..1 5
cell 3 -1..2
cell 4 -3..9
/
at 4 0 0 2 0:3 0:7 0:4
%
machines: sum_width_peak max_width_peak min_width_peak max_surf_rising max_tails pairs|2 4
cells 5
cell 1 -3..9
cell 2 0..1 5
cell 3 -1..2
cell 4 0 3..4
cell 5 -3..9
/
at 5 0:1 0:1 1:3 -1:7 -1:11 -1:8
%
machines: sum_width_peak max_width_peak min_width_peak max_surf_rising max_tails pairs|2 5
cells 6
cell 1 -3..9
cell 2 0..1 5
cell 3 -1..2
cell 4 0 3..4
cell 5 1..3
cell 6 -3..9
/
at 6 0:2 0:2 1:4 0:7 1:11 -1:13
%
machines: sum_width_peak max_width_peak min_width_peak max_surf_rising max_tails pairs
cells 7
cell 1 1
cell 2 3
cell 3 3
cell 4 2
cell 5 2
cell 6 1
cell 7 4
/
at 7 4 4 4 5 7 12
";

// The texts behind functions, so that the proofs of the tests don't read them.
pub(crate) fn boxes() -> &'static str {
    BOXES
}

/// What results begin with goes by the first letters of the names.
pub(crate) fn text_of(name: &str) -> &'static str {
    match name {
        "sum_width_peak" => SUM_WIDTH_PEAK,
        "max_width_peak" => MAX_WIDTH_PEAK,
        "min_width_peak" => MIN_WIDTH_PEAK,
        "max_surf_rising" => MAX_SURF_RISING,
        "max_range_falling" => MAX_RANGE_FALLING,
        "max_tails" => TAILS,
        "pairs" => PAIRS,
        "large" => LARGE,
        _ => "",
    }
}

/// The machine of an automaton alone, over all cells.
pub(crate) fn plain(alloc: Global, name: &str) -> Result<Machine, Fail>
    ensures whole { IfOk result (λ m. window_of m ≡ None) }
    ensures looks { IfOk result (λ m. (cells : List (List ℤ)) → LooksIn (automata_of m) cells) }
{
    match read(alloc, text_of(name).as_bytes()) {
        Ok(automaton) => Ok(Machine::plain(automaton)),
        Err(_) => Err("refused")?,
    }
}
