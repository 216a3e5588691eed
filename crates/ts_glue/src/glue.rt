//! The glued value, and the glued span, at a cell that both runs of a machine have reached.

ghost use Rattle.std.specs.Prelude.{◌≡◌, IfSome, IsSome};
ghost use Rattle.ts_automaton.specs.AutomatonRun.{Stands, standing_of};
ghost use Rattle.ts_automaton.specs.SpanRun.{HullStands, hull_standing};
ghost use Rattle.ts_base.specs.Limits.{IsCellValue};
ghost use Rattle.ts_glue.specs.Glued.{glued_span, glued_value};
ghost use Rattle.ts_glue.specs.Machines.{forward_of, pair_of, reverse_of};

use crate::machine::Machine;
use crate::operand::Side;
use ts_automaton::{At, HullAt};
use ts_base::{Ext, Span};

/// The value of a series of `n` cells from the two runs that meet at the cell of this value, from -1,000,000 to
/// 1,000,000: `left` is where the forward automaton stands after the cells up to it, `right` where the reverse one
/// stands after the cells from the last one down to it. Only for a machine that can be split.
pub fn glue_value(m: &Machine, left: At, right: At, cell: i64, n: u32) -> Ext
    requires split { IsSome (pair_of m.now) }
    requires left { Stands (forward_of m.now) (standing_of left) }
    requires right { IfSome (reverse_of m.now) (λ b. Stands b (standing_of right)) }
    requires cell { IsCellValue cell }
    ensures { IfSome (pair_of m.now) (λ p. result ≡ glued_value p (standing_of left) (standing_of right) cell n) }
{
    let gluing = m.gluing(left.state, right.state, cell);
    let value = gluing.glued(Side::of_run(left.regs), Side::of_run(right.regs));
    m.forward().mark().applied(value, n)
}

/// The span of the values from two hulls that meet at a cell, as `glue_value` gives a value from registers. It is none
/// where a hull is none. The mark is applied to both ends, and the hull of the two is taken.
pub fn glue_span(m: &Machine, left: HullAt, right: HullAt, cell: i64, n: u32) -> Span
    requires split { IsSome (pair_of m.now) }
    requires left { HullStands (forward_of m.now) (hull_standing left) }
    requires right { IfSome (reverse_of m.now) (λ b. HullStands b (hull_standing right)) }
    requires cell { IsCellValue cell }
    ensures { IfSome (pair_of m.now) (λ p. result ≡ glued_span p (hull_standing left) (hull_standing right) cell n) }
{
    if left.hull.is_none() || right.hull.is_none() {
        return Span::none();
    }
    let gluing = m.gluing(left.state, right.state, cell);
    let span = gluing.glued(Side::of_hull(left.hull), Side::of_hull(right.hull));
    m.forward().mark().applied_to_span(span, n)
}
