//! A move on a letter: which sweep takes it in.

ghost use Rattle.std.specs.Prelude.{◌≡◌, ℕ, ◌<◌, ◌≤◌, length, get_or, true, false};
ghost use Rattle.ts_automaton.specs.Body.{Move};
ghost use Rattle.ts_base.specs.declared.letter.Letter.TheVariants.{Equal};
ghost use Rattle.ts_hull.specs.Cuts.{all_swept, all_whole, cut_of};
ghost use Rattle.ts_hull.specs.Smalls.{small_hull};
ghost use Rattle.ts_sweep.specs.Columns.{IsMoved, hull_at};
ghost use Rattle.ts_sweep.specs.Covers.{IsCoverOf};
ghost use Rattle.ts_sweep.specs.Packed.{ArePacked};
ghost use Rattle.ts_sweep.specs.Sweeps.{IsTakenIn, met_hull, passed_hull};

use crate::column::{Column, Dense};
use crate::cover::Cover;
use crate::equal::sweep_equal;
use crate::hull::Hull;
use crate::moves::Moves;
use crate::packed::Packed;
use crate::runs::sweep_runs;
use crate::small::are_small;
use crate::source::Fronts;
use crate::sweep::sweep;
use crate::values::Values;
use ts_base::Letter;

/// Takes in a move on `<` or on `>`, by the counted loop if neither cell has gaps.
#[inline(always)]
fn sweep_cells<const UP: bool, H: Hull, F: Fronts<H>, V: Values, W: Values, C: Column<H>>(
    by: F,
    twin: bool,
    values: V,
    from: C,
    before: &[C::Item],
    next_values: W,
    to: C,
    next: &mut [C::Item],
)
    requires ok { V.ok values }
    requires whole { C.whole from before.now }
    requires readable { C.readable from before.now }
    requires same { length (C.column from before.now) ≡ V.len values }
    requires fit { (i : ℕ) → i < V.len values → F.fit by (get_or (C.hulls from before.now) i H.none) }
    requires next_ok { W.ok next_values }
    requires next_whole { C.whole to next.old }
    requires next_same { length (C.column to next.old) ≡ W.len next_values }
    ensures taken { IsTakenIn C.taking H.none C.blank
        (λ j. F.closing by
        (passed_hull H.both H.none UP twin (F.front by) (C.hulls from before.now) (V.value values)
        (W.value next_values j))
        (W.value next_values j))
        (C.column to next.old) (C.column to next.new) }
    ensures whole { C.whole to next.new }
    ensures beside { C.beside to next.old next.new }
{
    match (values.run(), next_values.run()) {
        (Some(run), Some(next_run)) => sweep_runs::<UP, H, F, C>(
            by, twin, run, from, before, next_run, to, next,
        ),
        _ => sweep::<UP, H, F, V, W, C>(by, twin, values, from, before, next_values, to, next),
    }
}

/// Takes in a move on a letter, and on `=` too if it has a twin. Each item of the next values takes in the hull of the
/// fronts of all values that compare with its value as the letter says, closed by its value.
#[inline(always)]
pub fn take<H: Hull, F: Fronts<H>, V: Values, W: Values, C: Column<H>>(
    by: F,
    letter: Letter,
    twin: bool,
    values: V,
    from: C,
    before: &[C::Item],
    next_values: W,
    to: C,
    next: &mut [C::Item],
)
    requires ok { V.ok values }
    requires whole { C.whole from before.now }
    requires readable { C.readable from before.now }
    requires same { length (C.column from before.now) ≡ V.len values }
    requires fit { (i : ℕ) → i < V.len values → F.fit by (get_or (C.hulls from before.now) i H.none) }
    requires next_ok { W.ok next_values }
    requires next_whole { C.whole to next.old }
    requires next_same { length (C.column to next.old) ≡ W.len next_values }
    requires alone { letter ≡ Equal → twin ≡ false }
    ensures taken { IsTakenIn C.taking H.none C.blank
        (λ j. F.closing by
        (met_hull H.both H.none letter twin (F.front by) (C.hulls from before.now) (V.value values)
        (W.value next_values j))
        (W.value next_values j))
        (C.column to next.old) (C.column to next.new) }
    ensures whole { C.whole to next.new }
    ensures beside { C.beside to next.old next.new }
{
    match letter {
        Letter::Less => sweep_cells::<true, H, F, V, W, C>(
            by,
            twin,
            values,
            from,
            before,
            next_values,
            to,
            next,
        ),
        Letter::Greater => sweep_cells::<false, H, F, V, W, C>(
            by,
            twin,
            values,
            from,
            before,
            next_values,
            to,
            next,
        ),
        Letter::Equal => sweep_equal::<H, F, V, W, C>(
            by,
            values,
            from,
            before,
            next_values,
            to,
            next,
        ),
    }
}

/// Whether the sums of a move stay small on all hulls of a column: whether they do under its cover.
#[inline(always)]
pub(crate) fn all_fit<H: Packed, F: Moves<H>>(by: F, cover: &Cover, hulls: &[H]) -> bool
    requires registers { 6 ≤ H.count }
    requires packed { ArePacked H.lanes H.none H.count (length hulls.now) hulls.now }
    requires covers { IsCoverOf H.sides H.lanes H.none cover.now (length hulls.now) hulls.now }
    ensures { result ≡ true → (i : ℕ) → i < length hulls.now → F.fit by (get_or hulls.now i H.none) }
{
    let _hulls = hulls;
    by.is_fit(cover)
}

/// Takes in a move of hulls in columns of their own, if its sums stay small.
#[inline(always)]
pub fn take_fit<H: Packed, F: Moves<H>, V: Values, W: Values>(
    by: F,
    letter: Letter,
    twin: bool,
    cover: &Cover,
    values: V,
    before: &[H],
    next_values: W,
    next: &mut [H],
) -> bool
    requires registers { 6 ≤ H.count }
    requires ok { V.ok values }
    requires next_ok { W.ok next_values }
    requires packed { ArePacked H.lanes H.none H.count (V.len values) before.now }
    requires covers { IsCoverOf H.sides H.lanes H.none cover.now (V.len values) before.now }
    requires next_packed { ArePacked H.lanes H.none H.count (W.len next_values) next.old }
    requires alone { letter ≡ Equal → twin ≡ false }
    ensures packed { ArePacked H.lanes H.none H.count (W.len next_values) next.new }
    ensures taken { result ≡ true → IsTakenIn H.both H.none H.none
        (λ j. F.closing by
        (met_hull H.both H.none letter twin (F.front by) before.now (V.value values) (W.value next_values j))
        (W.value next_values j))
        next.old next.new }
    ensures fit { result ≡ true → (i : ℕ) → i < V.len values → F.fit by (get_or before.now i H.none) }
    ensures kept { result ≡ false → next.new ≡ next.old }
{
    if !all_fit(by, cover, before) {
        return false;
    }
    take::<H, F, V, W, Dense>(
        by,
        letter,
        twin,
        values,
        Dense,
        before,
        next_values,
        Dense,
        next,
    );
    true
}

/// Takes in a move that doesn't read the next cell, if its sums stay small: each next hull takes in what the move gives
/// to its value. This is how a packed row is made from the row before.
#[inline(always)]
pub fn take_column<H: Packed, F: Moves<H>, V: Values, W: Values>(
    by: F,
    letter: Letter,
    twin: bool,
    cover: &Cover,
    values: V,
    before: &[H],
    next_values: W,
    next: &mut [H],
) -> bool
    requires registers { 6 ≤ H.count }
    requires whole { all_whole (F.cut by) ≡ true }
    requires ok { V.ok values }
    requires next_ok { W.ok next_values }
    requires packed { ArePacked H.lanes H.none H.count (V.len values) before.now }
    requires covers { IsCoverOf H.sides H.lanes H.none cover.now (V.len values) before.now }
    requires next_packed { ArePacked H.lanes H.none H.count (W.len next_values) next.old }
    requires alone { letter ≡ Equal → twin ≡ false }
    ensures packed { ArePacked H.lanes H.none H.count (W.len next_values) next.new }
    ensures taken { result ≡ true → (m : Move) → cut_of m ≡ F.cut by →
        IsMoved H.sides H.lanes H.none m letter twin (V.len values)
        (V.value values) before.now (W.len next_values) (W.value next_values) next.old next.new }
    ensures kept { result ≡ false → next.new ≡ next.old }
{
    take_fit::<H, F, V, W>(by, letter, twin, cover, values, before, next_values, next)
}

/// Takes in a move of small hulls that may read the next cell, if its sums stay small: each next hull takes in what the
/// move gives to its value.
#[inline(always)]
pub fn take_small<H: Packed, F: Moves<H>, V: Values, W: Values>(
    by: F,
    letter: Letter,
    twin: bool,
    cover: &Cover,
    values: V,
    before: &[H],
    next_values: W,
    next: &mut [H],
) -> bool
    requires registers { 6 ≤ H.count }
    requires swept { all_swept (F.cut by) ≡ true }
    requires ok { V.ok values }
    requires next_ok { W.ok next_values }
    requires packed { ArePacked H.lanes H.none H.count (V.len values) before.now }
    requires small { (i : ℕ) → i < V.len values → small_hull (hull_at H.lanes H.none before.now i) ≡ true }
    requires covers { IsCoverOf H.sides H.lanes H.none cover.now (V.len values) before.now }
    requires next_packed { ArePacked H.lanes H.none H.count (W.len next_values) next.old }
    requires alone { letter ≡ Equal → twin ≡ false }
    ensures packed { ArePacked H.lanes H.none H.count (W.len next_values) next.new }
    ensures taken { result ≡ true → (m : Move) → cut_of m ≡ F.cut by →
        IsMoved H.sides H.lanes H.none m letter twin (V.len values)
        (V.value values) before.now (W.len next_values) (W.value next_values) next.old next.new }
    ensures kept { result ≡ false → next.new ≡ next.old }
{
    take_fit::<H, F, V, W>(by, letter, twin, cover, values, before, next_values, next)
}

/// Takes in a move that may read the next cell, if no number of its hulls is large and its sums stay small.
#[inline(always)]
pub fn take_next<H: Packed, F: Moves<H>, V: Values, W: Values>(
    by: F,
    letter: Letter,
    twin: bool,
    cover: &Cover,
    values: V,
    before: &[H],
    next_values: W,
    next: &mut [H],
) -> bool
    requires registers { 6 ≤ H.count }
    requires swept { all_swept (F.cut by) ≡ true }
    requires ok { V.ok values }
    requires next_ok { W.ok next_values }
    requires packed { ArePacked H.lanes H.none H.count (V.len values) before.now }
    requires covers { IsCoverOf H.sides H.lanes H.none cover.now (V.len values) before.now }
    requires next_packed { ArePacked H.lanes H.none H.count (W.len next_values) next.old }
    requires alone { letter ≡ Equal → twin ≡ false }
    ensures packed { ArePacked H.lanes H.none H.count (W.len next_values) next.new }
    ensures taken { result ≡ true → (m : Move) → cut_of m ≡ F.cut by →
        IsMoved H.sides H.lanes H.none m letter twin (V.len values)
        (V.value values) before.now (W.len next_values) (W.value next_values) next.old next.new }
    ensures kept { result ≡ false → next.new ≡ next.old }
{
    if !are_small::<H>(before) {
        return false;
    }
    take_small::<H, F, V, W>(by, letter, twin, cover, values, before, next_values, next)
}
