//! A move whose expressions are known only when the program runs, if it can be swept: how they read the next cell is
//! found once for a machine.

ghost use Rattle.std.specs.Prelude.{◌≡◌, ◌≤◌, MatchOption, true, false};
ghost use Rattle.ts_automaton.specs.Body.{Move, move_of};
ghost use Rattle.ts_automaton.specs.Formula.{is_zero};
ghost use Rattle.ts_automaton.specs.Registers.{rests};
ghost use Rattle.ts_base.specs.declared.letter.Letter.TheVariants.{Equal};
ghost use Rattle.ts_hull.specs.Cuts.{all_swept, cut_of};
ghost use Rattle.ts_sweep.specs.AnyParts.{AreReadingsOf, cut_as, parts_cut};
ghost use Rattle.ts_sweep.specs.Columns.{IsMoved};
ghost use Rattle.ts_sweep.specs.Covers.{IsCoverOf};
ghost use Rattle.ts_sweep.specs.Packed.{ArePacked, is_wide};

use crate::any_part::AnyPart;
use crate::cover::Cover;
use crate::moves::{EachPart, Parts};
use crate::packed::Packed;
use crate::reading::Reading;
use crate::take::{take_column, take_next};
use crate::values::Values;
use ts_automaton::Turn;
use ts_base::Letter;

/// The expressions of a move.
pub type AnyParts<'a> = Parts<AnyPart<'a>, AnyPart<'a>, AnyPart<'a>, AnyPart<'a>, AnyPart<'a>>;

/// How the expressions of a move read the next cell.
#[derive(Clone, Copy)]
pub struct Readings {
    pub c: Reading,
    pub e: Reading,
    pub d: Reading,
    pub f: Reading,
    pub r: Reading,
}

impl Readings {
    /// How the expressions of a move read the next cell; none where one does in another way, so that it can't be swept.
    pub fn of(t: &Turn) -> Option<Readings>
        ensures { MatchOption result (all_swept (cut_of (move_of t.now)) ≡ false) (AreReadingsOf (move_of t.now)) }
    {
        let c = Reading::of(&t.c)?;
        let e = Reading::of(&t.e)?;
        let d = Reading::of(&t.d)?;
        let f = Reading::of(&t.f)?;
        let r = Reading::of(&t.r)?;
        Some(Readings { c, e, d, f, r })
    }
}

/// The parts of a move whose expressions read the next cell so; none where one has too few operands.
fn read_parts(t: &Turn, readings: Readings) -> Option<AnyParts<'_>>
    ensures { MatchOption result (all_swept (cut_as readings (move_of t.now)) ≡ false)
        (λ parts. (all_swept (cut_as readings (move_of t.now)) ≡ true)
        × (parts_cut parts ≡ cut_as readings (move_of t.now))) }
{
    let c = AnyPart::of(&t.c, readings.c)?;
    let e = AnyPart::of(&t.e, readings.e)?;
    let d = AnyPart::of(&t.d, readings.d)?;
    let f = AnyPart::of(&t.f, readings.f)?;
    let r = AnyPart::of(&t.r, readings.r)?;
    Some(Parts { c, e, d, f, r })
}

/// The parts of a move that can be swept; none where an expression reads the next cell in another way.
pub fn swept_parts(t: &Turn) -> Option<AnyParts<'_>>
    ensures { MatchOption result (all_swept (cut_of (move_of t.now)) ≡ false)
        (λ parts. (all_swept (cut_of (move_of t.now)) ≡ true) × (parts_cut parts ≡ cut_of (move_of t.now))) }
{
    read_parts(t, Readings::of(t)?)
}

/// Takes in the parts of a move by a sweep. If one of them reads the next cell, all hulls have to be small.
fn take_parts<H: Packed, V: Values, W: Values>(
    parts: AnyParts<'_>,
    letter: Letter,
    twin: bool,
    cover: &Cover,
    values: V,
    before: &[H],
    next_values: W,
    next: &mut [H],
) -> bool
    requires registers { 6 ≤ H.count }
    requires swept { all_swept (parts_cut parts) ≡ true }
    requires ok { V.ok values }
    requires next_ok { W.ok next_values }
    requires packed { ArePacked H.lanes H.none H.count (V.len values) before.now }
    requires covers { IsCoverOf H.sides H.lanes H.none cover.now (V.len values) before.now }
    requires next_packed { ArePacked H.lanes H.none H.count (W.len next_values) next.old }
    requires alone { letter ≡ Equal → twin ≡ false }
    ensures packed { ArePacked H.lanes H.none H.count (W.len next_values) next.new }
    ensures taken { result ≡ true → (m : Move) → rests is_zero (is_wide H.count) m.to ≡ true →
        cut_of m ≡ parts_cut parts.entry → IsMoved H.sides H.lanes H.none m letter twin (V.len values)
        (V.value values) before.now (W.len next_values) (W.value next_values) next.old next.new }
    ensures kept { result ≡ false → next.new ≡ next.old }
{
    if !parts.any_tail() {
        return take_column::<H, _, V, W>(
            parts,
            letter,
            twin,
            cover,
            values,
            before,
            next_values,
            next,
        );
    }
    take_next::<H, _, V, W>(
        parts,
        letter,
        twin,
        cover,
        values,
        before,
        next_values,
        next,
    )
}

/// Takes in a move by a sweep, where its expressions read the next cell so: they are evaluated at each value.
pub fn take_swept<H: Packed, V: Values, W: Values>(
    t: &Turn,
    readings: Readings,
    letter: Letter,
    twin: bool,
    cover: &Cover,
    values: V,
    before: &[H],
    next_values: W,
    next: &mut [H],
) -> bool
    requires registers { 6 ≤ H.count }
    requires width { rests is_zero (is_wide H.count) (move_of t.now).to ≡ true }
    requires read { AreReadingsOf (move_of t.now) readings }
    requires ok { V.ok values }
    requires next_ok { W.ok next_values }
    requires packed { ArePacked H.lanes H.none H.count (V.len values) before.now }
    requires covers { IsCoverOf H.sides H.lanes H.none cover.now (V.len values) before.now }
    requires next_packed { ArePacked H.lanes H.none H.count (W.len next_values) next.old }
    requires alone { letter ≡ Equal → twin ≡ false }
    ensures packed { ArePacked H.lanes H.none H.count (W.len next_values) next.new }
    ensures taken { result ≡ true → IsMoved H.sides H.lanes H.none (move_of t.now) letter twin (V.len values)
        (V.value values) before.now (W.len next_values) (W.value next_values) next.old next.new }
    ensures kept { result ≡ false → next.new ≡ next.old }
{
    match read_parts(t, readings) {
        Some(parts) => take_parts::<H, V, W>(
            parts,
            letter,
            twin,
            cover,
            values,
            before,
            next_values,
            next,
        ),
        None => false,
    }
}
