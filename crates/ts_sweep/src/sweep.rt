//! Sweeps over values with gaps.

ghost use Rattle.std.specs.Prelude.{◌≡◌, ℕ, ◌<◌, length, get_or, true, false};
ghost use Rattle.ts_sweep.specs.Small.{IsSmall};
ghost use Rattle.ts_sweep.specs.Sweeps.{IsTakenIn, bound_of, passed_hull, passes, step_place};

use crate::column::Column;
use crate::hull::Hull;
use crate::source::Fronts;
use crate::steps::{step_place, taken_from};
use crate::values::Values;

/// Whether a value is passed at a bound.
#[inline(always)]
fn passes_bound<const UP: bool>(v: i64, bound: i64) -> bool
    ensures { result ≡ passes UP false v bound }
{
    if UP { v < bound } else { bound < v }
}

/// The bound of what is passed at a next value: that value too where the move has a twin.
#[inline(always)]
fn bound_at<const UP: bool>(w: i64, twin: bool) -> i64
    requires { IsSmall w }
    ensures { result ≡ bound_of UP twin w }
{
    match (UP, twin) {
        (true, true) => w + 1,
        (false, true) => w - 1,
        _ => w,
    }
}

/// Whether a value is passed at a next value.
#[inline(always)]
fn passes<const UP: bool>(v: i64, w: i64, twin: bool) -> bool
    requires { IsSmall w }
    ensures { result ≡ passes UP twin v w }
{
    passes_bound::<UP>(v, bound_at::<UP>(w, twin))
}

/// Whether the value at step `at` is passed at a next value.
#[inline(always)]
fn is_passed<const UP: bool, V: Values>(values: V, at: usize, w: i64, twin: bool) -> bool
    requires ok { V.ok values }
    requires small { IsSmall w }
    ensures there { result ≡ true → at < V.len values }
    ensures passed { result ≡ true → passes UP twin (V.value values (step_place UP (V.len values) at)) w ≡ true }
    ensures rest { result ≡ false → at < V.len values →
        passes UP twin (V.value values (step_place UP (V.len values) at)) w
        ≡ false }
{
    let n = values.count();
    at < n && passes::<UP>(values.at(step_place::<UP>(n, at)), w, twin)
}

/// Takes in a move by a sweep: each step takes the next value into the running hull, or gives the hull to the next
/// value of the other cell. Each item of the next values takes in the closed hull of the fronts of the values that are
/// passed there.
#[inline(never)]
pub fn sweep<const UP: bool, H: Hull, F: Fronts<H>, V: Values, W: Values, C: Column<H>>(
    by: F,
    twin: bool,
    values: V,
    from: C,
    before: &[C::Item],
    next_values: W,
    to: C,
    next: &mut [C::Item],
)
    requires ok { V.ok values }
    requires whole { C.whole from before.now }
    requires readable { C.readable from before.now }
    requires same { length (C.column from before.now) ≡ V.len values }
    requires fit { (i : ℕ) → i < V.len values → F.fit by (get_or (C.hulls from before.now) i H.none) }
    requires next_ok { W.ok next_values }
    requires next_whole { C.whole to next.old }
    requires next_same { length (C.column to next.old) ≡ W.len next_values }
    ensures taken { IsTakenIn C.taking H.none C.blank
        (λ j. F.closing by
        (passed_hull H.both H.none UP twin (F.front by) (C.hulls from before.now) (V.value values)
        (W.value next_values j))
        (W.value next_values j))
        (C.column to next.old) (C.column to next.new) }
    ensures whole { C.whole to next.new }
    ensures beside { C.beside to next.old next.new }
{
    let n = values.count();
    let m = next_values.count();
    let mut run = H::nothing();
    let mut at = 0;
    let mut k = 0;
    while k < m {
        let j = step_place::<UP>(m, k);
        let w = next_values.at(j);
        if is_passed::<UP, V>(values, at, w, twin) {
            run = taken_from::<H, F, V, C>(by, values, from, before, step_place::<UP>(n, at), run);
            at += 1;
        } else {
            to.take_in(next, j, by.closed(run, w));
            k += 1;
        }
    }
}
