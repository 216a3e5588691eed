//! How the hulls of two states are glued, as a type: what doesn't change from value to value is then a constant of the
//! loop over values.

ghost use Rattle.std.specs.Prelude.{◌≡◌, ◌⊎◌, ◌≤◌, false};
ghost use Rattle.ts_automaton.specs.Registers.{spans_of};
ghost use Rattle.ts_base.specs.Limits.{IsCellValue};
ghost use Rattle.ts_glue.specs.Glue.{glue_in};
ghost use Rattle.ts_hull.specs.Sealed.{sealed_spans};
ghost use Rattle.ts_meet.specs.Joints.{expression};
ghost use Rattle.ts_meet.specs.Sides.{side_of};
ghost use Rattle.ts_row.specs.Rows.{lanes_of};
ghost use Rattle.ts_sweep.specs.Packed.{AreSome, IsPackOf, unpacked};
ghost use Rattle.ts_sweep.specs.Sides.{BothEnds, lane_count, seen, sides};

use crate::fold::{GREATEST, SUM, numbered};
use crate::gluing::Gluing;
use crate::side::shown;
use ts_sweep::operator::{Greater, Lesser, Plus};
use ts_sweep::packed::{Ends, PackedHull};

/// A way to glue two hulls of N lanes.
pub(crate) trait Seam<const N: usize>: Copy {
    ghost use Rattle.std.specs.Prelude.{◌≤◌, ℤ};
    ghost use Rattle.ts_automaton.specs.Registers.{EachOf, spans_of};
    ghost use Rattle.ts_base.specs.Limits.{IsCellValue};
    ghost use Rattle.ts_glue.specs.Glue.{glue_in};
    ghost use Rattle.ts_hull.specs.Sealed.{sealed_spans};
    ghost use Rattle.ts_meet.specs.declared.gluing.Gluing.{Gluing};
    ghost use Rattle.ts_meet.specs.Joints.{expression, with_worth};
    ghost use Rattle.ts_meet.specs.Sides.{pointed_spans, side_of};
    ghost use Rattle.ts_row.specs.Rows.{lanes_of};
    ghost use Rattle.ts_sweep.specs.declared.packed.Ends.{Ends};
    ghost use Rattle.ts_sweep.specs.Packed.{AreSome, IsPackOf, unpacked};
    ghost use Rattle.ts_sweep.specs.Sides.{lane_count, sides};

    /// That it serves states that are glued so.
    ghost fits: { Gluing → Type 0 };

    /// That registers with these ends on both sides may be glued so.
    ghost takes: { Gluing → EachOf Ends → EachOf Ends → Type 0 };

    /// The glued ends before the mark, where an end that the hulls don't have is read as the one that they have.
    fn pointed(self, gluing: Gluing, left: &PackedHull<N>, right: &PackedHull<N>) -> Ends
        requires fits { fits gluing }
        requires registers { 6 ≤ lane_count N }
        requires left { AreSome (lane_count N) (lanes_of N left.now) }
        requires right { AreSome (lane_count N) (lanes_of N right.now) }
        requires worth { IsCellValue gluing.worth }
        requires takes { takes gluing (side_of (sides N) (lanes_of N left.now))
            (side_of (sides N) (lanes_of N right.now)) }
        ensures { IsPackOf result (glue_in sealed_spans
            (pointed_spans (sides N) (spans_of (unpacked (lanes_of N left.now))))
            (pointed_spans (sides N) (spans_of (unpacked (lanes_of N right.now)))) (expression gluing)) };

    ghost any_worth: { (g : Gluing) (d : ℤ) → fits g → fits (with_worth g d) };

    ghost takes_any: { (g : Gluing) (d : ℤ) (a b : EachOf Ends) → takes g a b → takes (with_worth g d) a b };
}

/// No occurrence goes on. `O` is the number of the operator that joins results, `WIDE` is whether the automata are.
#[derive(Clone, Copy)]
pub(crate) struct Apart<const O: u8, const WIDE: bool>;

/// No occurrence goes on, and all numbers that are added or taken away are small. `HERE` and `THERE` are whether C is
/// held on the left and on the right.
#[derive(Clone, Copy)]
pub(crate) struct PlainApart<const O: u8, const WIDE: bool, const HERE: bool, const THERE: bool>;

/// One occurrence goes on, and all numbers that are added or taken away are small. `F` is the number of the operator
/// that folds its cells, `TRIMS` is whether it leaves a cell out at its end.
#[derive(Clone, Copy)]
pub(crate) struct Joined<const O: u8, const F: u8, const WIDE: bool, const TRIMS: bool>;

/// Any way to glue, looked up again for each value.
#[derive(Clone, Copy)]
pub(crate) struct Any;

impl<const O: u8, const WIDE: bool, const N: usize> Seam<N> for Apart<O, WIDE> {
    ghost use Rattle.std.specs.Prelude.{◌≡◌, false};
    ghost use Rattle.ts_meet.specs.Joints.{numbered};

    ghost fits = { λ g. (g.joins ≡ false) × (g.result ≡ numbered O) × (g.wide ≡ WIDE) };

    ghost takes = { λ g a b. Unit {0} };

    ghost any_worth = { λ g d h. h };

    ghost takes_any = { λ g d a b h. h };

    #[inline(always)]
    fn pointed(self, gluing: Gluing, left: &PackedHull<N>, right: &PackedHull<N>) -> Ends {
        let known = gluing.known(numbered(O), gluing.fold, WIDE, gluing.trims);
        known.pointed_apart(left, right)
    }
}

impl<const O: u8, const WIDE: bool, const HERE: bool, const THERE: bool, const N: usize> Seam<N>
    for PlainApart<O, WIDE, HERE, THERE> {
    ghost use Rattle.std.specs.Prelude.{◌≡◌, false};
    ghost use Rattle.ts_meet.specs.Joints.{numbered};
    ghost use Rattle.ts_meet.specs.Peaks.{ArePlainHeld};
    ghost use Rattle.ts_meet.specs.SideLaws.{plain_with_worth};

    ghost fits = { λ g. (g.joins ≡ false) × (g.result ≡ numbered O) × (g.wide ≡ WIDE) };

    ghost takes = { λ g a b. ArePlainHeld HERE THERE g a b };

    ghost any_worth = { λ g d h. h };

    ghost takes_any = { λ g d a b h. (plain_with_worth g d a b h.0, h.1, h.2) };

    #[inline(always)]
    fn pointed(self, gluing: Gluing, left: &PackedHull<N>, right: &PackedHull<N>) -> Ends {
        let known = gluing.known(numbered(O), gluing.fold, WIDE, gluing.trims);
        known.held_apart(HERE, THERE, left, right)
    }
}

impl<const O: u8, const F: u8, const WIDE: bool, const TRIMS: bool, const N: usize> Seam<N>
    for Joined<O, F, WIDE, TRIMS> {
    ghost use Rattle.std.specs.Prelude.{◌≡◌, true};
    ghost use Rattle.ts_meet.specs.Joints.{IsPlain, numbered};
    ghost use Rattle.ts_meet.specs.SideLaws.{plain_with_worth};

    ghost fits = { λ g. (g.joins ≡ true) × (g.result ≡ numbered O) × (g.fold ≡ numbered F) × (g.wide ≡ WIDE)
        × (g.trims ≡ TRIMS) };

    ghost takes = { λ g a b. IsPlain g a b };

    ghost any_worth = { λ g d h. h };

    ghost takes_any = { λ g d a b h. plain_with_worth g d a b h };

    #[inline(always)]
    fn pointed(self, gluing: Gluing, left: &PackedHull<N>, right: &PackedHull<N>) -> Ends {
        let known = gluing.known(numbered(O), numbered(F), WIDE, TRIMS);
        if F == SUM {
            known.near_joined::<Plus, WIDE, TRIMS, N>(Plus, left, right)
        } else if F == GREATEST {
            known.near_joined::<Greater, WIDE, TRIMS, N>(Greater, left, right)
        } else {
            known.near_joined::<Lesser, WIDE, TRIMS, N>(Lesser, left, right)
        }
    }
}

impl<const N: usize> Seam<N> for Any {
    ghost fits = { λ g. Unit {0} };

    ghost takes = { λ g a b. Unit {0} };

    ghost any_worth = { λ g d h. h };

    ghost takes_any = { λ g d a b h. h };

    #[inline(always)]
    fn pointed(self, gluing: Gluing, left: &PackedHull<N>, right: &PackedHull<N>) -> Ends {
        gluing.pointed(left, right)
    }
}

/// The glued ends of two hulls before the mark. An end that the hulls don't have is infinite.
#[inline(always)]
pub(crate) fn glued_by<S: Seam<N>, const N: usize>(
    seam: S,
    gluing: Gluing,
    left: &PackedHull<N>,
    right: &PackedHull<N>,
) -> Ends
    requires fits { S.fits gluing }
    requires registers { 6 ≤ lane_count N }
    requires alone { (sides N ≡ BothEnds) ⊎ (gluing.wide ≡ false) }
    requires left { AreSome (lane_count N) (lanes_of N left.now) }
    requires right { AreSome (lane_count N) (lanes_of N right.now) }
    requires worth { IsCellValue gluing.worth }
    requires takes { S.takes gluing (side_of (sides N) (lanes_of N left.now))
        (side_of (sides N) (lanes_of N right.now)) }
    ensures { IsPackOf result (seen (sides N) (glue_in sealed_spans
        (spans_of (unpacked (lanes_of N left.now))) (spans_of (unpacked (lanes_of N right.now)))
        (expression gluing))) }
{
    shown::<N>(seam.pointed(gluing, left, right))
}
