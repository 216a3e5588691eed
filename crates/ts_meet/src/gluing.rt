//! What is made of the registers on both sides of a cell.

ghost use Rattle.std.specs.Prelude.{◌≡◌, ◌⊎◌, ◌≤◌, Bool, true, false, pos};
ghost use Rattle.ts_automaton.specs.Registers.{EachOf, Takes, spans_of, value_in};
ghost use Rattle.ts_base.specs.declared.ext.Ext.TheVariants.{Int};
ghost use Rattle.ts_base.specs.declared.op.Op.TheVariants.{Min};
ghost use Rattle.ts_base.specs.Limits.{IsCellValue};
ghost use Rattle.ts_glue.specs.declared.operand.Part.TheVariants.{Whole, Away};
ghost use Rattle.ts_glue.specs.Glue.{
  GlueTakes,
  apart,
  fold_of,
  folded_between,
  folded_both,
  glue_in,
  held_of,
  join_of,
  result_of,
};
ghost use Rattle.ts_hull.specs.Sealed.{sealed_spans};
ghost use Rattle.ts_meet.specs.Joints.{
  IsFoldPlain,
  IsHeldPlain,
  IsPlain,
  adds_any,
  expression,
  folds_held,
  is_add,
  joined_expression,
  part_by,
  told_joined,
  with_worth,
};
ghost use Rattle.ts_meet.specs.Peaks.{ArePlainHeld, IsHeldBy, IsKnown};
ghost use Rattle.ts_meet.specs.Sides.{
  AreSomeEnds,
  IsInfinity,
  TakesNear,
  TakesPlain,
  ends_in,
  plain_values,
  pointed_spans,
  side_of,
};
ghost use Rattle.ts_sweep.specs.declared.packed.Ends.{Ends};
ghost use Rattle.ts_row.specs.Rows.{lanes_of};
ghost use Rattle.ts_sweep.specs.Fronts.{ArePlain};
ghost use Rattle.ts_sweep.specs.Packed.{AreSome, IsPackOf, unpacked};
ghost use Rattle.ts_sweep.specs.Sides.{BothEnds, lane_count, seen, sides};

use crate::column::Watched;
use crate::folding::Folding;
use crate::part::{OfAway, OfWhole, Registers};
use crate::side::{Side, are_plain, is_open_plain, shown};
use crate::sums::{Clamped, Near, Plain, Sums, is_infinity, is_neutral, less_near};
use ts_automaton::{Op, Operator};
use ts_sweep::operator::{Greater, Lesser, Operator as OnEnds, Plus};
use ts_sweep::packed::{Ends, PackedHull};

/// How the registers of a pair of states are glued: the operators that join results and fold cells, what the cell is
/// worth, whether something is taken away from the whole, whether one occurrence goes on through the cell, whether an
/// occurrence leaves a cell out at its end, and whether C is held on each side.
#[derive(Clone, Copy)]
pub(crate) struct Gluing {
    pub(crate) result: Op,
    pub(crate) fold: Op,
    pub(crate) worth: i64,
    pub(crate) wide: bool,
    pub(crate) joins: bool,
    pub(crate) trims: bool,
    pub(crate) held_left: bool,
    pub(crate) held_right: bool,
}

impl Gluing {
    /// How the registers are glued where the cell has this worth.
    #[inline(always)]
    pub(crate) fn with_worth(self, worth: i64) -> Gluing
        ensures { result ≡ with_worth self worth }
    {
        Gluing {
            result: self.result,
            fold: self.fold,
            worth,
            wide: self.wide,
            joins: self.joins,
            trims: self.trims,
            held_left: self.held_left,
            held_right: self.held_right,
        }
    }

    /// This gluing, made of parts equal to its own: where these are constants, so are its parts.
    #[inline(always)]
    pub(crate) fn known(self, operator: Op, fold: Op, wide: bool, trims: bool) -> Gluing
        requires operator { operator ≡ self.result }
        requires fold { fold ≡ self.fold }
        requires wide { wide ≡ self.wide }
        requires trims { trims ≡ self.trims }
        ensures { result ≡ self }
    {
        Gluing {
            result: operator,
            fold,
            worth: self.worth,
            wide,
            joins: self.joins,
            trims,
            held_left: self.held_left,
            held_right: self.held_right,
        }
    }

    /// How the registers are glued where no occurrence goes on.
    #[inline(always)]
    pub(crate) fn apart(operator: Op, wide: bool) -> Gluing
        ensures parts { (result.wide ≡ wide) × (result.result ≡ operator) × (result.fold ≡ operator) }
        ensures apart { result.joins ≡ false }
        ensures worth { IsCellValue result.worth }
    {
        Gluing {
            result: operator,
            fold: operator,
            worth: 0,
            wide,
            joins: false,
            trims: false,
            held_left: false,
            held_right: false,
        }
    }

    /// The glued ends of two hulls before the mark. An end that the hulls don't have is infinite.
    #[inline(always)]
    pub(crate) fn glued<const N: usize>(self, left: &PackedHull<N>, right: &PackedHull<N>) -> Ends
        requires registers { 6 ≤ lane_count N }
        requires alone { (sides N ≡ BothEnds) ⊎ (self.wide ≡ false) }
        requires left { AreSome (lane_count N) (lanes_of N left.now) }
        requires right { AreSome (lane_count N) (lanes_of N right.now) }
        requires worth { IsCellValue self.worth }
        ensures { IsPackOf result (seen (sides N) (glue_in sealed_spans
            (spans_of (unpacked (lanes_of N left.now))) (spans_of (unpacked (lanes_of N right.now)))
            (expression self))) }
    {
        shown::<N>(self.pointed(left, right))
    }

    /// The answer of a run before the mark, where an end that its hull doesn't have is read as the one that it has.
    #[inline(always)]
    pub(crate) fn finished<const N: usize>(self, h: &PackedHull<N>) -> Ends
        requires registers { 6 ≤ lane_count N }
        requires some { AreSome (lane_count N) (lanes_of N h.now) }
        requires worth { IsCellValue self.worth }
        requires apart { self.joins ≡ false }
        ensures { IsPackOf result (value_in sealed_spans
            (pointed_spans (sides N) (spans_of (unpacked (lanes_of N h.now))))
            (pos 0) (pos 0) (result_of self.wide self.result)) }
    {
        let side = Side::of(h);
        if self.is_apart_plain(side, side) {
            self.answer::<Plain>(side)
        } else {
            clamped_answer(self.result, self.wide, h)
        }
    }

    /// The glued ends of two hulls before the mark, where no occurrence goes on, all numbers that are added or taken
    /// away are small, and it is told on each side whether C is held.
    #[inline(always)]
    pub(crate) fn held_apart<const N: usize>(
        self,
        here: bool,
        there: bool,
        left: &PackedHull<N>,
        right: &PackedHull<N>,
    ) -> Ends
        requires registers { 6 ≤ lane_count N }
        requires left { AreSome (lane_count N) (lanes_of N left.now) }
        requires right { AreSome (lane_count N) (lanes_of N right.now) }
        requires worth { IsCellValue self.worth }
        requires apart { self.joins ≡ false }
        requires held { ArePlainHeld here there self
            (side_of (sides N) (lanes_of N left.now)) (side_of (sides N) (lanes_of N right.now)) }
        ensures { IsPackOf result (glue_in sealed_spans
            (pointed_spans (sides N) (spans_of (unpacked (lanes_of N left.now))))
            (pointed_spans (sides N) (spans_of (unpacked (lanes_of N right.now)))) (apart self.wide self.result)) }
    {
        self.answers_held(here, there, Side::of(left), Side::of(right))
    }

    /// The answers of both runs joined, before the mark, where it is told whether C is held.
    #[inline(always)]
    fn answers_held(self, here: bool, there: bool, left: Side, right: Side) -> Ends
        requires takes { GlueTakes TakesPlain plain_values (ends_in left) (ends_in right)
            (apart self.wide self.result) }
        requires some_left { AreSomeEnds (ends_in left) }
        requires some_right { AreSomeEnds (ends_in right) }
        requires here { IsHeldBy self.wide self.result here left.c }
        requires there { IsHeldBy self.wide self.result there right.c }
        ensures { result ≡ glue_in plain_values (ends_in left) (ends_in right) (apart self.wide self.result) }
    {
        Plain::joined(
            Operator::Fold(self.result),
            self.answer_held(here, left),
            self.answer_held(there, right),
        )
    }

    /// The answer of a run, before the mark, where it is told whether C is held: if it isn't, that is R.
    #[inline(always)]
    fn answer_held(self, held: bool, side: Side) -> Ends
        requires takes { Takes TakesPlain plain_values (ends_in side) (pos 0) (pos 0)
            (result_of self.wide self.result) }
        requires some { AreSomeEnds (ends_in side) }
        requires held { IsHeldBy self.wide self.result held side.c }
        ensures { result ≡ value_in plain_values (ends_in side) (pos 0) (pos 0) (result_of self.wide self.result) }
    {
        if held {
            Plain::joined(Operator::Fold(self.result), side.r, self.held::<Near>(side))
        } else {
            side.r
        }
    }

    /// The glued ends of two hulls before the mark, where an end that they haven't is read as the one that they have.
    /// Where one occurrence goes on, that is a call: there is most to fold.
    #[inline(always)]
    pub(crate) fn pointed<const N: usize>(self, left: &PackedHull<N>, right: &PackedHull<N>) -> Ends
        requires registers { 6 ≤ lane_count N }
        requires left { AreSome (lane_count N) (lanes_of N left.now) }
        requires right { AreSome (lane_count N) (lanes_of N right.now) }
        requires worth { IsCellValue self.worth }
        ensures { IsPackOf result (glue_in sealed_spans
            (pointed_spans (sides N) (spans_of (unpacked (lanes_of N left.now))))
            (pointed_spans (sides N) (spans_of (unpacked (lanes_of N right.now)))) (expression self)) }
    {
        if self.joins {
            joined_pair(
                self.result,
                self.fold,
                self.worth,
                self.wide,
                self.trims,
                self.held_left,
                self.held_right,
                left,
                right,
            )
        } else {
            self.pointed_apart(left, right)
        }
    }

    /// The glued ends of two hulls before the mark, where no occurrence goes on. If all numbers that are added or taken
    /// away are small, sums are those of the lanes; otherwise a call clamps them.
    #[inline(always)]
    pub(crate) fn pointed_apart<const N: usize>(
        self,
        left: &PackedHull<N>,
        right: &PackedHull<N>,
    ) -> Ends
        requires registers { 6 ≤ lane_count N }
        requires left { AreSome (lane_count N) (lanes_of N left.now) }
        requires right { AreSome (lane_count N) (lanes_of N right.now) }
        requires worth { IsCellValue self.worth }
        requires apart { self.joins ≡ false }
        ensures { IsPackOf result (glue_in sealed_spans
            (pointed_spans (sides N) (spans_of (unpacked (lanes_of N left.now))))
            (pointed_spans (sides N) (spans_of (unpacked (lanes_of N right.now)))) (apart self.wide self.result)) }
    {
        if self.wide {
            return wide_apart(self.result, left, right);
        }
        let (first, second) = (Side::of(left), Side::of(right));
        if self.is_apart_plain(first, second) {
            self.answers::<Plain>(first, second)
        } else {
            clamped_apart(self.result, self.wide, left, right)
        }
    }

    /// Whether all numbers that are added or taken away are small where no occurrence goes on, and C is held on each
    /// side as it is told.
    #[inline(always)]
    fn are_held_plain(self, here: bool, there: bool, left: Side, right: Side) -> bool
        requires { self.joins ≡ false }
        ensures { result ≡ true → ArePlainHeld here there self (ends_in left) (ends_in right) }
    {
        if !self.are_results_plain(left, right) {
            return false;
        }
        if !is_side_held(self.result, here, left) {
            return false;
        }
        is_side_held(self.result, there, right)
    }

    /// The glued ends of two hulls before the mark, where one occurrence goes on.
    #[inline(always)]
    fn pointed_joined<const N: usize>(self, left: &PackedHull<N>, right: &PackedHull<N>) -> Ends
        requires registers { 6 ≤ lane_count N }
        requires left { AreSome (lane_count N) (lanes_of N left.now) }
        requires right { AreSome (lane_count N) (lanes_of N right.now) }
        requires worth { IsCellValue self.worth }
        requires joined { self.joins ≡ true }
        ensures { IsPackOf result (glue_in sealed_spans
            (pointed_spans (sides N) (spans_of (unpacked (lanes_of N left.now))))
            (pointed_spans (sides N) (spans_of (unpacked (lanes_of N right.now)))) (joined_expression self)) }
    {
        let (first, second) = (Side::of(left), Side::of(right));
        if self.is_soon_plain(first, second) {
            self.joined_by::<Plain>(first, second)
        } else {
            self.joined_by::<Clamped>(first, second)
        }
    }

    /// The glued ends of two hulls before the mark, where one occurrence goes on, which `k` folds, and all numbers that
    /// are added or taken away are small.
    #[inline(always)]
    pub(crate) fn near_joined<
        K: Folding<Near>,
        const WIDE: bool,
        const TRIMS: bool,
        const N: usize,
    >(self, k: K, left: &PackedHull<N>, right: &PackedHull<N>) -> Ends
        requires fold { K.fold k ≡ self.fold }
        requires wide { WIDE ≡ self.wide }
        requires trims { TRIMS ≡ self.trims }
        requires registers { 6 ≤ lane_count N }
        requires left { AreSome (lane_count N) (lanes_of N left.now) }
        requires right { AreSome (lane_count N) (lanes_of N right.now) }
        requires worth { IsCellValue self.worth }
        requires joined { self.joins ≡ true }
        requires plain { IsPlain self
            (side_of (sides N) (lanes_of N left.now)) (side_of (sides N) (lanes_of N right.now)) }
        ensures { IsPackOf result (glue_in sealed_spans
            (pointed_spans (sides N) (spans_of (unpacked (lanes_of N left.now))))
            (pointed_spans (sides N) (spans_of (unpacked (lanes_of N right.now)))) (joined_expression self)) }
    {
        self.joined_near::<K, WIDE, TRIMS>(k, Side::of(left), Side::of(right))
    }

    /// The glued ends before the mark, where one occurrence goes on, which `k` folds, between small numbers. The
    /// operator that joins results is looked up once, so that this is short enough to lie in a loop over values.
    #[inline(always)]
    fn joined_near<K: Folding<Near>, const WIDE: bool, const TRIMS: bool>(
        self,
        k: K,
        left: Side,
        right: Side,
    ) -> Ends
        requires trims { TRIMS ≡ self.trims }
        requires fits { GlueTakes TakesNear plain_values (ends_in left) (ends_in right)
            (join_of self.result (fold_of WIDE (K.fold k) (part_by self))) }
        requires worth { IsCellValue self.worth }
        ensures { result ≡ glue_in plain_values (ends_in left) (ends_in right)
            (join_of self.result (fold_of WIDE (K.fold k) (part_by self))) }
    {
        let folded = self.folded_near::<K, WIDE, TRIMS>(k, left, right);
        match self.result {
            Op::Add => Plus.of(Plus.of(left.r, right.r), folded),
            Op::Max => Greater.of(Greater.of(left.r, right.r), folded),
            Op::Min => Lesser.of(Lesser.of(left.r, right.r), folded),
        }
    }

    /// The glued ends before the mark, where one occurrence goes on, with the sums `S`.
    #[inline(always)]
    fn joined_by<S: Sums>(self, left: Side, right: Side) -> Ends
        requires fits { GlueTakes S.takes S.values (ends_in left) (ends_in right) (joined_expression self) }
        requires worth { IsCellValue self.worth }
        ensures { result ≡ glue_in S.values (ends_in left) (ends_in right) (joined_expression self) }
    {
        let join = Operator::Fold(self.result);
        S::joined(
            join,
            S::joined(join, left.r, right.r),
            self.folded::<S>(left, right),
        )
    }

    /// The fold of the occurrence that goes on, between small numbers.
    #[inline(always)]
    fn folded_near<K: Folding<Near>, const WIDE: bool, const TRIMS: bool>(
        self,
        k: K,
        left: Side,
        right: Side,
    ) -> Ends
        requires trims { TRIMS ≡ self.trims }
        requires fits { GlueTakes TakesNear plain_values (ends_in left) (ends_in right)
            (fold_of WIDE (K.fold k) (part_by self)) }
        requires worth { IsCellValue self.worth }
        ensures { result ≡ glue_in plain_values (ends_in left) (ends_in right)
            (fold_of WIDE (K.fold k) (part_by self)) }
    {
        let whole = self.part_near::<OfWhole, K, TRIMS>(k, left, right);
        if WIDE {
            let away = self.part_near::<OfAway, Lesser, TRIMS>(Lesser, left, right);
            less_near(whole, away)
        } else {
            whole
        }
    }

    /// A part of the occurrence that goes on, folded by an operator between small numbers.
    #[inline(always)]
    fn part_near<P: Registers, K: Folding<Near>, const TRIMS: bool>(
        self,
        k: K,
        left: Side,
        right: Side,
    ) -> Ends
        requires trims { TRIMS ≡ self.trims }
        requires fits { GlueTakes TakesNear plain_values (ends_in left) (ends_in right)
            (part_by self (K.fold k) P.part) }
        requires worth { IsCellValue self.worth }
        ensures { result ≡ glue_in plain_values (ends_in left) (ends_in right) (part_by self (K.fold k) P.part) }
    {
        if TRIMS {
            self.folded_between::<Near, P, K>(k, left, right)
        } else {
            self.folded_both::<Near, P, K>(k, left, right)
        }
    }

    /// The answers of both runs joined, before the mark.
    #[inline(always)]
    pub(crate) fn answers<S: Sums>(self, left: Side, right: Side) -> Ends
        requires { GlueTakes S.takes S.values (ends_in left) (ends_in right) (apart self.wide self.result) }
        ensures { result ≡ glue_in S.values (ends_in left) (ends_in right) (apart self.wide self.result) }
    {
        S::joined(
            Operator::Fold(self.result),
            self.answer::<S>(left),
            self.answer::<S>(right),
        )
    }

    /// The answer of a run, before the mark.
    #[inline(always)]
    fn answer<S: Sums>(self, side: Side) -> Ends
        requires { Takes S.takes S.values (ends_in side) (pos 0) (pos 0) (result_of self.wide self.result) }
        ensures { result ≡ value_in S.values (ends_in side) (pos 0) (pos 0) (result_of self.wide self.result) }
    {
        S::joined(Operator::Fold(self.result), side.r, self.held::<S>(side))
    }

    /// What a run has complete or held: of a wide automaton the greatest less the least.
    #[inline(always)]
    fn held<S: Sums>(self, side: Side) -> Ends
        requires { Takes S.takes S.values (ends_in side) (pos 0) (pos 0) (held_of self.wide) }
        ensures { result ≡ value_in S.values (ends_in side) (pos 0) (pos 0) (held_of self.wide) }
    {
        if self.wide {
            S::joined(Operator::Sub, side.c, side.e)
        } else {
            side.c
        }
    }

    /// The fold of the occurrence that goes on: of wide automata the greatest of its cells less the least.
    #[inline(always)]
    fn folded<S: Sums>(self, left: Side, right: Side) -> Ends
        requires fits { GlueTakes S.takes S.values (ends_in left) (ends_in right)
            (fold_of self.wide self.fold (part_by self)) }
        requires worth { IsCellValue self.worth }
        ensures { result
            ≡ glue_in S.values (ends_in left) (ends_in right) (fold_of self.wide self.fold (part_by self)) }
    {
        if self.wide {
            S::joined(
                Operator::Sub,
                self.part::<S, OfWhole, Op>(self.fold, left, right),
                self.part::<S, OfAway, Lesser>(Lesser, left, right),
            )
        } else {
            self.part::<S, OfWhole, Op>(self.fold, left, right)
        }
    }

    /// A part of the occurrence that goes on, folded by an operator.
    #[inline(always)]
    fn part<S: Sums, P: Registers, K: Folding<S>>(self, k: K, left: Side, right: Side) -> Ends
        requires fits { GlueTakes S.takes S.values (ends_in left) (ends_in right) (part_by self (K.fold k) P.part) }
        requires worth { IsCellValue self.worth }
        ensures { result ≡ glue_in S.values (ends_in left) (ends_in right) (part_by self (K.fold k) P.part) }
    {
        if self.trims {
            self.folded_between::<S, P, K>(k, left, right)
        } else {
            self.folded_both::<S, P, K>(k, left, right)
        }
    }

    /// What the left side has held and open, the cell, and what the right side has held and open, folded in this order.
    #[inline(always)]
    fn folded_between<S: Sums, P: Registers, K: Folding<S>>(
        self,
        k: K,
        left: Side,
        right: Side,
    ) -> Ends
        requires fits { GlueTakes S.takes S.values (ends_in left) (ends_in right)
            (folded_between (K.fold k) P.part self.held_left self.held_right self.worth) }
        requires worth { IsCellValue self.worth }
        ensures { result ≡ glue_in S.values (ends_in left) (ends_in right)
            (folded_between (K.fold k) P.part self.held_left self.held_right self.worth) }
    {
        let opened = if self.held_left {
            k.folded(P::held::<S>(left), P::open::<S>(left))
        } else {
            P::open::<S>(left)
        };
        let with_cell = k.folded(opened, self.cell::<S>());
        let with_held = if self.held_right {
            k.folded(with_cell, P::held::<S>(right))
        } else {
            with_cell
        };
        k.folded(with_held, P::open::<S>(right))
    }

    /// What both sides have folded, less the cell where it would count twice.
    #[inline(always)]
    fn folded_both<S: Sums, P: Registers, K: Folding<S>>(
        self,
        k: K,
        left: Side,
        right: Side,
    ) -> Ends
        requires fits { GlueTakes S.takes S.values (ends_in left) (ends_in right)
            (folded_both (K.fold k) P.part self.worth) }
        requires worth { IsCellValue self.worth }
        ensures { result ≡ glue_in S.values (ends_in left) (ends_in right)
            (folded_both (K.fold k) P.part self.worth) }
    {
        let before = k.folded(P::held::<S>(left), P::open::<S>(left));
        let after = k.folded(P::held::<S>(right), P::open::<S>(right));
        k.once(k.folded(before, after), self.worth)
    }

    /// What the cell is worth.
    #[inline(always)]
    fn cell<S: Sums>(self) -> Ends
        requires { IsCellValue self.worth }
        ensures { result ≡ S.values.constant (Int self.worth) }
    {
        S::number(self.worth)
    }

    /// Whether all numbers that are added or taken away are small between hulls of which this is known, where one
    /// occurrence goes on.
    pub(crate) fn is_plain_within(self, left: Watched, right: Watched) -> bool
        requires { self.joins ≡ true }
        ensures { (a b : EachOf Ends) → result ≡ true → IsKnown left a → IsKnown right b → IsPlain self a b }
    {
        self.is_joined_plain(left.peaks, right.peaks)
    }

    /// Whether something is added to what is folded, or taken away from it.
    #[inline(always)]
    fn adds_any(self) -> bool
        ensures { result ≡ adds_any self }
    {
        self.wide | (is_add(self.result) | is_add(self.fold))
    }

    /// Whether all numbers that are added or taken away are small, where no occurrence goes on.
    #[inline(always)]
    fn is_apart_plain(self, left: Side, right: Side) -> bool
        requires { self.joins ≡ false }
        ensures { result ≡ true → IsPlain self (ends_in left) (ends_in right) }
    {
        let adds = is_add(self.result);
        self.are_results_plain(left, right)
            && is_held_plain(self.wide, adds, left)
            && is_held_plain(self.wide, adds, right)
    }

    /// Whether all numbers that are added or taken away are small, where one occurrence goes on.
    #[inline(always)]
    fn is_joined_plain(self, left: Side, right: Side) -> bool
        requires { self.joins ≡ true }
        ensures { result ≡ true → IsPlain self (ends_in left) (ends_in right) }
    {
        self.are_results_plain(left, right)
            && self.is_whole_plain(left, right)
            && self.is_away_plain(left, right)
    }

    /// Whether all numbers that are added are small, where one occurrence of narrow automata goes on. It is false
    /// between wide ones: to find it out there takes longer than clamped sums.
    #[inline(always)]
    fn is_soon_plain(self, left: Side, right: Side) -> bool
        requires { self.joins ≡ true }
        ensures { result ≡ true → IsPlain self (ends_in left) (ends_in right) }
    {
        !self.wide && self.is_joined_plain(left, right)
    }

    /// Whether the results of both sides are small, if they are added.
    #[inline(always)]
    fn are_results_plain(self, left: Side, right: Side) -> bool
        ensures { result ≡ true → is_add self.result ≡ true → ArePlain left.r × ArePlain right.r }
    {
        !is_add(self.result) || are_plain(left.r) && are_plain(right.r)
    }

    /// Whether all numbers that are folded into the whole of an occurrence are small, if something is added to it or
    /// taken away from it.
    #[inline(always)]
    fn is_whole_plain(self, left: Side, right: Side) -> bool
        ensures { result ≡ true → adds_any self ≡ true →
            IsFoldPlain Whole self.fold self (ends_in left) (ends_in right) }
    {
        !self.adds_any() || self.is_fold_plain::<OfWhole>(self.fold, left, right)
    }

    /// Whether all numbers that are folded into what is taken away are small, and the whole is no sum.
    #[inline(always)]
    fn is_away_plain(self, left: Side, right: Side) -> bool
        ensures { result ≡ true → self.wide ≡ true →
            (is_add self.fold ≡ false) × IsFoldPlain Away Min self (ends_in left) (ends_in right) }
    {
        !self.wide || !is_add(self.fold) && self.is_fold_plain::<OfAway>(Op::Min, left, right)
    }

    /// Whether all numbers that are folded into a part by an operator are small.
    #[inline(always)]
    fn is_fold_plain<P: Registers>(self, o: Op, left: Side, right: Side) -> bool
        ensures { result ≡ true → IsFoldPlain P.part o self (ends_in left) (ends_in right) }
    {
        is_open_plain(o, P::open::<Plain>(left))
            && is_open_plain(o, P::open::<Plain>(right))
            && (!folds_held(self.trims, self.held_left) || are_plain(P::held::<Plain>(left)))
            && (!folds_held(self.trims, self.held_right) || are_plain(P::held::<Plain>(right)))
    }
}

/// The glued ends of two hulls before the mark, where one occurrence goes on. How they are glued is passed in parts,
/// so that it needn't be stored where none goes on.
#[inline(never)]
fn joined_pair<const N: usize>(
    operator: Op,
    fold: Op,
    worth: i64,
    wide: bool,
    trims: bool,
    held_left: bool,
    held_right: bool,
    left: &PackedHull<N>,
    right: &PackedHull<N>,
) -> Ends
    requires registers { 6 ≤ lane_count N }
    requires left { AreSome (lane_count N) (lanes_of N left.now) }
    requires right { AreSome (lane_count N) (lanes_of N right.now) }
    requires worth { IsCellValue worth }
    ensures { IsPackOf result (glue_in sealed_spans
        (pointed_spans (sides N) (spans_of (unpacked (lanes_of N left.now))))
        (pointed_spans (sides N) (spans_of (unpacked (lanes_of N right.now))))
        (told_joined operator fold worth wide trims held_left held_right)) }
{
    let gluing = Gluing {
        result: operator,
        fold,
        worth,
        wide,
        joins: true,
        trims,
        held_left,
        held_right,
    };
    gluing.pointed_joined(left, right)
}

/// The answer of a run before the mark, with clamped sums.
#[inline(never)]
fn clamped_answer<const N: usize>(operator: Op, wide: bool, h: &PackedHull<N>) -> Ends
    requires registers { 6 ≤ lane_count N }
    requires some { AreSome (lane_count N) (lanes_of N h.now) }
    ensures { IsPackOf result (value_in sealed_spans (pointed_spans (sides N) (spans_of (unpacked (lanes_of N h.now))))
        (pos 0) (pos 0) (result_of wide operator)) }
{
    let gluing = Gluing::apart(operator, wide);
    gluing.answer::<Clamped>(Side::of(h))
}

/// The answers of both runs joined, before the mark, with clamped sums.
#[inline(never)]
fn clamped_apart<const N: usize>(
    operator: Op,
    wide: bool,
    left: &PackedHull<N>,
    right: &PackedHull<N>,
) -> Ends
    requires registers { 6 ≤ lane_count N }
    requires left { AreSome (lane_count N) (lanes_of N left.now) }
    requires right { AreSome (lane_count N) (lanes_of N right.now) }
    ensures { IsPackOf result (glue_in sealed_spans
        (pointed_spans (sides N) (spans_of (unpacked (lanes_of N left.now))))
        (pointed_spans (sides N) (spans_of (unpacked (lanes_of N right.now)))) (apart wide operator)) }
{
    let gluing = Gluing::apart(operator, wide);
    gluing.answers::<Clamped>(Side::of(left), Side::of(right))
}

/// The glued ends of two hulls of wide automata before the mark, where no occurrence goes on: whether C is held is
/// found on each side. It is a call, so that narrow automata are glued by shorter code.
#[inline(never)]
fn wide_apart<const N: usize>(operator: Op, left: &PackedHull<N>, right: &PackedHull<N>) -> Ends
    requires registers { 6 ≤ lane_count N }
    requires left { AreSome (lane_count N) (lanes_of N left.now) }
    requires right { AreSome (lane_count N) (lanes_of N right.now) }
    ensures { IsPackOf result (glue_in sealed_spans
        (pointed_spans (sides N) (spans_of (unpacked (lanes_of N left.now))))
        (pointed_spans (sides N) (spans_of (unpacked (lanes_of N right.now)))) (apart true operator)) }
{
    let gluing = Gluing::apart(operator, true);
    let (first, second) = (Side::of(left), Side::of(right));
    let here = !is_neutral(operator, first.c);
    let there = !is_neutral(operator, second.c);
    if gluing.are_held_plain(here, there, first, second) {
        gluing.answers_held(here, there, first, second)
    } else {
        clamped_apart(operator, true, left, right)
    }
}

/// Whether what is held of an occurrence is small, if something is added to it or taken away from it. Where nothing is
/// held, it is infinite; that is as good, if nothing is added to it.
#[inline(always)]
fn is_held_plain(wide: bool, adds: bool, side: Side) -> bool
    ensures { result ≡ true → IsHeldPlain wide adds (ends_in side) }
{
    (!wide || are_plain(side.e)) && (!(wide || adds) || is_kept_plain(adds, side.c))
}

/// Whether ends are small, or both one infinity and nothing is added to them.
#[inline(always)]
fn is_kept_plain(adds: bool, e: Ends) -> bool
    ensures { result ≡ true → ArePlain e ⊎ ((adds ≡ false) × IsInfinity e) }
{
    are_plain(e) || !adds && is_infinity(e)
}

/// Whether C is held as it is told, and all numbers that are taken away from it are small.
#[inline(always)]
fn is_side_held(operator: Op, held: bool, side: Side) -> bool
    ensures { (wide : Bool) → result ≡ true →
        IsHeldPlain wide (is_add operator) (ends_in side) × IsHeldBy wide operator held side.c }
{
    is_held_by(operator, held, side.c) && are_plain(side.e)
}

/// Whether C is small where it is held, and otherwise the infinity that the operator on results passes over.
#[inline(always)]
fn is_held_by(operator: Op, held: bool, c: Ends) -> bool
    ensures { (wide : Bool) → result ≡ true → IsHeldBy wide operator held c }
{
    if held {
        are_plain(c)
    } else {
        is_neutral(operator, c)
    }
}

/// Whether an operator adds.
#[inline(always)]
pub(crate) fn is_add(op: Op) -> bool
    ensures { result ≡ is_add op }
{
    match op {
        Op::Add => true,
        Op::Max | Op::Min => false,
    }
}

/// Whether C is folded: where it is held, or both sides have folded the cell.
#[inline(always)]
fn folds_held(trims: bool, held: bool) -> bool
    ensures { result ≡ folds_held trims held }
{
    if trims { held } else { true }
}
