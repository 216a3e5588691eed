//! How the runs of a machine are glued, by the shapes that it has found.

ghost use Rattle.std.specs.Prelude.{◌≡◌, ℕ, ◌<◌, ℤ, true, false, IfSome, IsSome};
ghost use Rattle.ts_base.specs.Limits.{IsCellValue};
ghost use Rattle.ts_glue.specs.declared.shape.Shape.TheVariants.{Through as GoesOn};
ghost use Rattle.ts_glue.specs.declared.table.FoldOp.{FoldOp};
ghost use Rattle.ts_glue.specs.Glue.{fold_op, glue_of, is_join, is_pair};
ghost use Rattle.ts_glue.specs.Machines.{pair_of};
ghost use Rattle.ts_glue.specs.Pairs.{Pair};
ghost use Rattle.ts_glue.specs.Shapes.{AreShapes, glue_by, shape_of};
ghost use Rattle.ts_meet.specs.Joints.{AreJoints, IsGluing, expression, is_add, with_worth};

use crate::gluing::{Gluing, is_add};
use crate::joints::Joints;
use crate::spot::Spot;
use ts_automaton::{Automaton, Op};
use ts_glue::{Machine, Seam, Shape, Shapes};

impl Joints {
    /// The joints of a machine that can be split.
    pub fn of(m: &Machine) -> Joints
        requires split { IsSome (pair_of m.now) }
        ensures { IfSome (pair_of m.now) (λ p. AreJoints p result) }
    {
        match m.reverse() {
            Some(reverse) => joints_of(m.forward(), reverse, m.shapes()),
            None => unreachable!(),
        }
    }

    /// How the registers are glued if the forward run is in the state `left` and the reverse one in `right`. `operator`
    /// is the one that joins results.
    #[inline(always)]
    pub(crate) fn gluing(&self, operator: Op, left: u8, right: u8, spot: Spot) -> Gluing
        requires operator { operator ≡ self.now.result }
        requires left { left < self.now.left_states }
        requires right { right < self.now.right_states }
        requires value { IsCellValue spot.value }
        ensures value { (p : Pair) → AreJoints p self.now → expression result ≡ glue_of p left right spot.value }
        ensures worth { IsCellValue result.worth }
        ensures wide { result.wide ≡ self.now.wide }
    {
        match self.shape(left, right) {
            Shape::Apart => self.apart(operator),
            Shape::Through(seam) => {
                let worth = self.unit.worth(spot.value);
                by_seam(operator, self.fold, self.wide, seam).with_worth(worth)
            }
        }
    }

    /// How the registers are glued at any value between two states from the one of which no occurrence goes on to the
    /// other. `operator` is the one that joins results.
    #[inline(always)]
    pub(crate) fn apart(&self, operator: Op) -> Gluing
        requires { operator ≡ self.now.result }
        ensures value { (p : Pair) (q r : ℕ) (x : ℤ) → AreJoints p self.now → is_join p.table q r ≡ false →
            expression result ≡ glue_of p q r x }
        ensures worth { IsCellValue result.worth }
        ensures wide { result.wide ≡ self.now.wide }
    {
        Gluing {
            result: operator,
            fold: self.fold,
            worth: 0,
            wide: self.wide,
            joins: false,
            trims: false,
            held_left: false,
            held_right: false,
        }
    }

    /// How the registers are glued between two states from the one of which one occurrence goes on to the other, but
    /// for what the cell is worth. `operator` is the one that joins results, `fold` the one that folds the occurrence.
    #[inline(always)]
    pub(crate) fn joined(&self, operator: Op, fold: Op, left: u8, right: u8) -> Gluing
        requires operator { operator ≡ self.now.result }
        requires fold { fold ≡ self.now.fold }
        requires left { left < self.now.left_states }
        requires right { right < self.now.right_states }
        ensures value { (p : Pair) → AreJoints p self.now → is_join p.table left right ≡ true →
            IsGluing p left right result }
        ensures wide { result.wide ≡ self.now.wide }
        ensures operators { (result.result ≡ operator) × (result.fold ≡ fold) }
        ensures joins { result.joins ≡ true }
    {
        match self.shape(left, right) {
            Shape::Through(seam) => by_seam(operator, fold, self.wide, seam),
            Shape::Apart => by_seam(operator, fold, self.wide, Seam::Both),
        }
    }

    /// Whether ends are watched in the column of a state on the left: where results are added, or the cells of an
    /// occurrence that goes on from it.
    pub(crate) fn watches_left(&self, q: u8) -> bool
        requires { q < 8 }
    {
        if is_add(self.result) {
            return true;
        }
        for r in 0..self.right_states {
            if self.shapes[q as usize][r as usize].goes_on() {
                return is_add(self.fold);
            }
        }
        false
    }

    /// Whether ends are watched in the column of a state on the right: where results are added, or the cells of an
    /// occurrence that goes on to it.
    pub(crate) fn watches_right(&self, r: u8) -> bool
        requires { r < 8 }
    {
        if is_add(self.result) {
            return true;
        }
        for q in 0..self.left_states {
            if self.shapes[q as usize][r as usize].goes_on() {
                return is_add(self.fold);
            }
        }
        false
    }

    /// Whether one occurrence goes on from a state to another.
    #[inline(always)]
    pub(crate) fn are_joined(&self, left: u8, right: u8) -> bool
        requires left { left < self.now.left_states }
        requires right { right < self.now.right_states }
        ensures { (p : Pair) → AreJoints p self.now → result ≡ is_join p.table left right }
    {
        self.shape(left, right).goes_on()
    }

    /// The shape of a pair of states.
    #[inline(always)]
    fn shape(&self, left: u8, right: u8) -> Shape
        requires left { left < self.now.left_states }
        requires right { right < self.now.right_states }
        ensures { (p : Pair) → AreJoints p self.now → result ≡ shape_of p left right }
    {
        self.shapes[left as usize][right as usize]
    }
}

/// The joints of two automata whose runs are glued so.
fn joints_of(forward: &Automaton, reverse: &Automaton, shapes: &Shapes) -> Joints
    ensures { (p : Pair) → p.forward ≡ forward.now → p.reverse ≡ reverse.now → AreShapes p shapes.now →
        AreJoints p result }
{
    Joints {
        result: shapes.result,
        fold: shapes.fold.op(),
        unit: shapes.unit,
        wide: shapes.fold.is_pair(),
        mark: forward.mark(),
        left_states: forward.states(),
        right_states: reverse.states(),
        shapes: shapes.rows,
    }
}

/// How registers are glued where one occurrence goes on through this seam, but for what the cell is worth.
#[inline(always)]
fn by_seam(operator: Op, fold: Op, wide: bool, seam: Seam) -> Gluing
    ensures value { (f : FoldOp) (d : ℤ) → fold ≡ fold_op f → wide ≡ is_pair f →
        expression (with_worth result d) ≡ glue_by operator f d (GoesOn seam) }
    ensures parts { (result.result ≡ operator) × (result.fold ≡ fold) × (result.wide ≡ wide) }
    ensures joins { result.joins ≡ true }
{
    let (trims, held_left, held_right) = match seam {
        Seam::Both => (false, false, false),
        Seam::Between {
            held_left,
            held_right,
        } => (true, held_left, held_right),
    };
    Gluing {
        result: operator,
        fold,
        worth: 0,
        wide,
        joins: true,
        trims,
        held_left,
        held_right,
    }
}
