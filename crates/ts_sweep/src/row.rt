//! A move of a state, taken from a row of plain hulls into the next row.

ghost use Rattle.std.specs.Prelude.{◌≡◌, ℕ, ◌<◌, ◌≤◌, ◌*◌, cond, length, get_or, true, false};
ghost use Rattle.ts_automaton.specs.Body.{Move};
ghost use Rattle.ts_automaton.specs.declared.regs.Hull.{Hull};
ghost use Rattle.ts_base.specs.declared.letter.Letter.TheVariants.{Equal};
ghost use Rattle.ts_hull.specs.Cuts.{all_swept, cut_of};
ghost use Rattle.ts_hull.specs.Hulls.{none};
ghost use Rattle.ts_hull.specs.Sealed.{after_move};
ghost use Rattle.ts_hull.specs.Sweeps.{AllTakeNone, compares, hull_in, puts, step_place, total};
ghost use Rattle.ts_sweep.specs.Strided.{IsPackable, packed_at};

use crate::cover::{Cover, cover_of};
use crate::moves::Moves;
use crate::packed::PackedHull;
use crate::strided::Strided;
use crate::take::take;
use crate::values::Values;
use ts_automaton::Hull;
use ts_base::Letter;

/// Whether the sums of a move stay small on all hulls of a state: they do if the move adds nothing, or if they do on
/// all hulls under the cover.
#[inline(always)]
fn row_fits<const N: usize, F: Moves<PackedHull<N>>>(by: F, from: Strided, before: &[Hull]) -> bool
    requires registers { 6 ≤ N }
    requires lanes { N ≤ 64 }
    requires state { from.state < from.states }
    requires whole { length before.now ≡ from.count * from.states }
    requires packable { (p : ℕ) → IsPackable N (get_or before.now p none) }
    ensures { result ≡ true → (i : ℕ) → i < from.count → F.fit by (packed_at N from.states from.state before.now i) }
{
    if by.is_fit(&Cover::greatest()) {
        return true;
    }
    by.is_fit(&cover_of::<N, Strided>(from, before, from.count))
}

/// Takes a move of a state into a state of the next row, if its sums stay small.
#[inline(always)]
pub fn take_row<const N: usize, F: Moves<PackedHull<N>>, V: Values, W: Values>(
    by: F,
    letter: Letter,
    twin: bool,
    values: V,
    from: Strided,
    before: &[Hull],
    next_values: W,
    to: Strided,
    next: &mut [Hull],
) -> bool
    requires registers { 6 ≤ N }
    requires lanes { N ≤ 64 }
    requires ok { V.ok values }
    requires next_ok { W.ok next_values }
    requires state { from.state < from.states }
    requires whole { length before.now ≡ from.count * from.states }
    requires count { from.count ≡ V.len values }
    requires packable { (p : ℕ) → IsPackable N (get_or before.now p none) }
    requires next_state { to.state < to.states }
    requires next_whole { length next.old ≡ to.count * to.states }
    requires next_count { to.count ≡ W.len next_values }
    requires canonical { AllTakeNone next.old }
    requires alone { letter ≡ Equal → twin ≡ false }
    ensures taken { result ≡ true → (m : Move) → (g : ℕ → Hull) → m.next ≡ to.state → cut_of m ≡ F.cut by →
        all_swept (cut_of m) ≡ true → ((j : ℕ) → j < to.count → g j ≡ total from.count
        (λ i. cond (compares letter twin (V.value values i) (W.value next_values j))
        (after_move m (hull_in from.states from.state before.now i) (V.value values i) (W.value next_values j)) none)) →
        next.new ≡ puts to.states to.state (step_place letter to.count) g next.old to.count }
    ensures kept { result ≡ false → next.new ≡ next.old }
{
    if !row_fits::<N, F>(by, from, before) {
        return false;
    }
    take::<PackedHull<N>, F, V, W, Strided>(
        by,
        letter,
        twin,
        values,
        from,
        before,
        next_values,
        to,
        next,
    );
    true
}
