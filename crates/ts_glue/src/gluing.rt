//! What is made of the registers on both sides of a cell.

ghost use Rattle.std.specs.Prelude.{◌≡◌, neg_ℤ, pos};
ghost use Rattle.ts_automaton.specs.Registers.{Takes, value_in};
ghost use Rattle.ts_base.specs.Limits.{IsCellValue};
ghost use Rattle.ts_glue.specs.Glue.{GlueTakes, fold_of, fold_op, folded_between, folded_both, glue_in, held_of, is_pair, registers_in, result_of};
ghost use Rattle.ts_glue.specs.Shapes.{expression, part_by};

use crate::operand::{Operand, Part, Side};
use crate::shape::{Seam, Shape};
use crate::table::FoldOp;
use ts_automaton::{Op, Operator};

/// The shape of a glued value, with the operator that joins results, how the cells of an occurrence are folded, and
/// what the cell is worth.
#[derive(Clone, Copy)]
pub(crate) struct Gluing {
    pub(crate) result: Op,
    pub(crate) fold: FoldOp,
    pub(crate) worth: i64,
    pub(crate) shape: Shape,
}

impl Gluing {
    /// The glued value before the mark; each operator in it meets two values that it takes.
    pub(crate) fn glued<V: Operand>(self, left: Side<V>, right: Side<V>) -> V
        requires fits { GlueTakes V.takes V.values (registers_in left) (registers_in right) (expression self) }
        requires worth { IsCellValue self.worth }
        ensures { result ≡ glue_in V.values (registers_in left) (registers_in right) (expression self) }
    {
        let join = Operator::Fold(self.result);
        let (first, second) = match self.shape {
            Shape::Apart => (self.answer(left), self.answer(right)),
            Shape::Through(seam) => (
                V::joined(join, left.r, right.r),
                self.folded(seam, left, right),
            ),
        };
        V::joined(join, first, second)
    }

    /// The answer of a run, before the mark.
    fn answer<V: Operand>(self, side: Side<V>) -> V
        requires { Takes V.takes V.values (registers_in side) (pos 0) (pos 0)
            (result_of (is_pair self.fold) self.result) }
        ensures { result ≡ value_in V.values (registers_in side) (pos 0) (pos 0)
            (result_of (is_pair self.fold) self.result) }
    {
        V::joined(Operator::Fold(self.result), side.r, self.held(side))
    }

    /// What a run has complete or held: where a pair is folded, the greatest less the least.
    fn held<V: Operand>(self, side: Side<V>) -> V
        requires { Takes V.takes V.values (registers_in side) (pos 0) (pos 0) (held_of (is_pair self.fold)) }
        ensures { result ≡ value_in V.values (registers_in side) (pos 0) (pos 0) (held_of (is_pair self.fold)) }
    {
        if self.fold.is_pair() {
            V::joined(Operator::Sub, side.c, side.e)
        } else {
            side.c
        }
    }

    /// The fold of the occurrence that goes on: where a pair is folded, the greatest of its cells less the least.
    fn folded<V: Operand>(self, seam: Seam, left: Side<V>, right: Side<V>) -> V
        requires fits { GlueTakes V.takes V.values (registers_in left) (registers_in right)
            (fold_of (is_pair self.fold) (fold_op self.fold) (part_by seam self.worth)) }
        requires worth { IsCellValue self.worth }
        ensures { result ≡ glue_in V.values (registers_in left) (registers_in right)
            (fold_of (is_pair self.fold) (fold_op self.fold) (part_by seam self.worth)) }
    {
        let o = self.fold.op();
        if self.fold.is_pair() {
            V::joined(
                Operator::Sub,
                self.part(seam, o, Part::Whole, left, right),
                self.part(seam, Op::Min, Part::Away, left, right),
            )
        } else {
            self.part(seam, o, Part::Whole, left, right)
        }
    }

    /// A part of it, folded by an operator.
    fn part<V: Operand>(self, seam: Seam, o: Op, part: Part, left: Side<V>, right: Side<V>) -> V
        requires fits { GlueTakes V.takes V.values (registers_in left) (registers_in right)
            (part_by seam self.worth o part) }
        requires worth { IsCellValue self.worth }
        ensures { result ≡ glue_in V.values (registers_in left) (registers_in right) (part_by seam self.worth o part) }
    {
        match seam {
            Seam::Between {
                held_left,
                held_right,
            } => self.folded_between(o, part, held_left, held_right, left, right),
            Seam::Both => self.folded_both(o, part, left, right),
        }
    }

    /// What the left side has open, the cell, and what the right side has open, folded in this order.
    fn folded_between<V: Operand>(
        self,
        o: Op,
        part: Part,
        held_left: bool,
        held_right: bool,
        left: Side<V>,
        right: Side<V>,
    ) -> V
        requires { GlueTakes V.takes V.values (registers_in left) (registers_in right)
            (folded_between o part held_left held_right self.worth) }
        ensures { result ≡ glue_in V.values (registers_in left) (registers_in right)
            (folded_between o part held_left held_right self.worth) }
    {
        let opened = if held_left {
            V::joined(Operator::Fold(o), left.held(part), left.open(part))
        } else {
            left.open(part)
        };
        let with_cell = V::joined(Operator::Fold(o), opened, V::number(self.worth));
        let with_held = if held_right {
            V::joined(Operator::Fold(o), with_cell, right.held(part))
        } else {
            with_cell
        };
        V::joined(Operator::Fold(o), with_held, right.open(part))
    }

    /// What both sides have folded, less the cell where it would count twice.
    fn folded_both<V: Operand>(self, o: Op, part: Part, left: Side<V>, right: Side<V>) -> V
        requires fits { GlueTakes V.takes V.values (registers_in left) (registers_in right)
            (folded_both o part self.worth) }
        requires worth { IsCellValue self.worth }
        ensures { result ≡ glue_in V.values (registers_in left) (registers_in right) (folded_both o part self.worth) }
    {
        let before = V::joined(Operator::Fold(o), left.held(part), left.open(part));
        let after = V::joined(Operator::Fold(o), right.held(part), right.open(part));
        let both = V::joined(Operator::Fold(o), before, after);
        match o {
            Op::Add => V::joined(Operator::Fold(o), both, V::number(opposite(self.worth))),
            Op::Max | Op::Min => both,
        }
    }
}

/// What takes the worth of a cell away again where it is added.
fn opposite(worth: i64) -> i64
    requires { IsCellValue worth }
    ensures { result ≡ neg_ℤ worth }
{
    -worth
}
