//! Sweeps whose next value comes in negated: what is added of it is taken away.

ghost use Rattle.std.specs.Prelude.{◌≡◌, ℕ, ◌<◌, ◌≤◌, false, get_or, neg_ℤ, true};
ghost use Rattle.ts_automaton.specs.Body.{Move};
ghost use Rattle.ts_base.specs.declared.letter.Letter.TheVariants.{Equal};
ghost use Rattle.ts_hull.specs.Cuts.{all_swept, cut_of};
ghost use Rattle.ts_sweep.specs.Columns.{IsTurned};
ghost use Rattle.ts_sweep.specs.Covers.{IsCoverOf};
ghost use Rattle.ts_sweep.specs.Packed.{ArePacked};
ghost use Rattle.ts_sweep.specs.Small.{IsSmall};
ghost use Rattle.ts_sweep.specs.Sweeps.{IsTakenIn, met_hull};

use crate::column::Dense;
use crate::cover::Cover;
use crate::moves::Moves;
use crate::packed::Packed;
use crate::small::are_small;
use crate::source::Fronts;
use crate::take::{all_fit, take};
use crate::values::Values;
use ts_base::Letter;

/// A value, negated.
#[inline(always)]
fn negated(x: i64) -> i64
    requires { IsSmall x }
    ensures value { result ≡ neg_ℤ x }
    ensures small { IsSmall result }
{
    -x
}

/// Fronts that are closed by the negated next value.
#[derive(Clone, Copy)]
pub struct Turned<F> {
    by: F,
}

impl<H: Packed, F: Fronts<H>> Fronts<H> for Turned<F> {
    ghost use Rattle.std.specs.Prelude.{neg_ℤ};

    ghost fit = { λ k h. F.fit k.by h };

    ghost closable = { λ k h. F.closable k.by h };

    ghost front = { λ k h v. F.front k.by h v };

    ghost closing = { λ k h w. F.closing k.by h (neg_ℤ w) };

    ghost closes_none = { λ k w. F.closes_none k.by (neg_ℤ w) };

    ghost closable_none = { λ k. F.closable_none k.by };

    ghost closable_both = { λ k a b p q. F.closable_both k.by a b p q };

    ghost closable_front = { λ k h v p small. F.closable_front k.by h v p small };

    #[inline(always)]
    fn taken(self, run: H, h: H, value: i64) -> H {
        self.by.taken(run, h, value)
    }

    #[inline(always)]
    fn closed(self, run: H, next_value: i64) -> H {
        self.by.closed(run, negated(next_value))
    }
}

/// Takes in a move whose next value is negated, if its sums stay small.
#[inline(always)]
fn take_fit_turned<H: Packed, F: Moves<H>, V: Values, W: Values>(
    by: F,
    letter: Letter,
    twin: bool,
    cover: &Cover,
    values: V,
    before: &[H],
    next_values: W,
    next: &mut [H],
) -> bool
    requires registers { 6 ≤ H.count }
    requires ok { V.ok values }
    requires next_ok { W.ok next_values }
    requires packed { ArePacked H.lanes H.none H.count (V.len values) before.now }
    requires covers { IsCoverOf H.sides H.lanes H.none cover.now (V.len values) before.now }
    requires next_packed { ArePacked H.lanes H.none H.count (W.len next_values) next.old }
    requires alone { letter ≡ Equal → twin ≡ false }
    ensures packed { ArePacked H.lanes H.none H.count (W.len next_values) next.new }
    ensures taken { result ≡ true → IsTakenIn H.both H.none H.none
        (λ j. F.closing by
        (met_hull H.both H.none letter twin (F.front by) before.now (V.value values) (W.value next_values j))
        (neg_ℤ (W.value next_values j)))
        next.old next.new }
    ensures fit { result ≡ true → (i : ℕ) → i < V.len values → F.fit by (get_or before.now i H.none) }
    ensures kept { result ≡ false → next.new ≡ next.old }
{
    if !all_fit(by, cover, before) {
        return false;
    }
    take::<H, Turned<F>, V, W, Dense>(
        Turned { by },
        letter,
        twin,
        values,
        Dense,
        before,
        next_values,
        Dense,
        next,
    );
    true
}

/// Takes in a move whose next value is negated, if no number of its hulls is large and its sums stay small: each next
/// hull takes in what the move gives to its value.
#[inline(always)]
pub fn take_turned<H: Packed, F: Moves<H>, V: Values, W: Values>(
    by: F,
    letter: Letter,
    twin: bool,
    cover: &Cover,
    values: V,
    before: &[H],
    next_values: W,
    next: &mut [H],
) -> bool
    requires registers { 6 ≤ H.count }
    requires swept { all_swept (F.cut by) ≡ true }
    requires ok { V.ok values }
    requires next_ok { W.ok next_values }
    requires packed { ArePacked H.lanes H.none H.count (V.len values) before.now }
    requires covers { IsCoverOf H.sides H.lanes H.none cover.now (V.len values) before.now }
    requires next_packed { ArePacked H.lanes H.none H.count (W.len next_values) next.old }
    requires alone { letter ≡ Equal → twin ≡ false }
    ensures packed { ArePacked H.lanes H.none H.count (W.len next_values) next.new }
    ensures taken { result ≡ true → (m : Move) → cut_of m ≡ F.cut by →
        IsTurned H.sides H.lanes H.none m letter twin (V.len values)
        (V.value values) before.now (W.len next_values) (W.value next_values) next.old next.new }
    ensures kept { result ≡ false → next.new ≡ next.old }
{
    if !are_small::<H>(before) {
        return false;
    }
    take_fit_turned::<H, F, V, W>(by, letter, twin, cover, values, before, next_values, next)
}
