//! The row of the cell at which runs start.

ghost use Rattle.std.specs.Prelude.{◌≡◌, ℕ, ◌<◌, ◌≤◌, IfOk, true, length};
ghost use Rattle.ts_automaton.specs.Registers.{regs_of, rests};
ghost use Rattle.ts_automaton.specs.SpanRun.{one_hull};
ghost use Rattle.ts_automaton.specs.Typing.{each_is, is_constant, is_number_zero};
ghost use Rattle.ts_base.specs.Spans.{one_span};
ghost use Rattle.ts_hull.specs.Hulls.{hull_of};
ghost use Rattle.ts_row.specs.Rows.{IsHull, IsRow, hull_in, start_hull};
ghost use Rattle.ts_sweep.specs.Packed.{IsPackOf};
ghost use Rattle.ts_sweep.specs.Sides.{has_wide, lane_count, seen_hull, sides};

use crate::packed_row::PackedRow;
use std::alloc::Global;
use ts_automaton::{Automaton, Regs};
use ts_base::{Ext, Memory};
use ts_sweep::packed::{Ends, Name, Packed, PackedHull};

/// The ends of a start constant.
fn constant_ends(e: Ext) -> Ends
    requires { is_constant e ≡ true }
    ensures { IsPackOf result (one_span e) }
{
    match e {
        Ext::NegInf => Ends {
            below: i64::MAX,
            above: -i64::MAX,
        },
        Ext::Int(x) => Ends {
            below: -x,
            above: x,
        },
        Ext::PosInf => Ends {
            below: -i64::MAX,
            above: i64::MAX,
        },
    }
}

/// The start registers in packed form. Lanes that belong to no register are 0.
fn packed_start<const N: usize>(regs: Regs) -> PackedHull<N>
    requires registers { 6 ≤ lane_count N }
    requires constants { each_is is_constant (regs_of regs) ≡ true }
    requires width { rests is_number_zero (has_wide N) (regs_of regs) ≡ true }
    ensures { IsHull N (hull_of (one_hull (regs_of regs))) result }
{
    let zeros = PackedHull::<N> { at: [0; N] };
    let c = constant_ends(regs.c);
    let e = constant_ends(regs.e);
    let d = constant_ends(regs.d);
    let f = constant_ends(regs.f);
    let r = constant_ends(regs.r);
    zeros
        .with(Name::C, c)
        .with(Name::E, e)
        .with(Name::D, d)
        .with(Name::F, f)
        .with(Name::R, r)
}

/// Makes of `row` that of a cell with `count` values at which runs start, in the same memory: what is seen of the start
/// registers in the start state, and nothing in the others. After `Memory` its hulls are unspecified.
pub fn start_row<const N: usize>(
    alloc: Global,
    a: &Automaton,
    count: usize,
    row: &mut PackedRow<N>,
) -> Result<(), Memory>
    requires width { a.now.wide ≡ has_wide N }
    requires registers { 6 ≤ lane_count N }
    requires lanes { N ≤ 64 }
    ensures { IfOk result (λ u. IsRow N (length a.now.states) count row.new
        × ((t j : ℕ) → t < length a.now.states → j < count → hull_in N row.new t j
        ≡ seen_hull (sides N) (start_hull a.now t))) }
{
    let states = a.states();
    let hull = packed_start::<N>(a.start().regs);
    row.clear(states, count)?;
    row.begin(hull);
    Ok(())
}
