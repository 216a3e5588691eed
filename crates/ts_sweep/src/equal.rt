//! A move on `=`: the front of the equal value, if there is one.

ghost use Rattle.std.specs.Prelude.{◌≡◌, ℕ, ◌<◌, length, get_or};
ghost use Rattle.ts_sweep.specs.Sweeps.{IsTakenIn, equal_hull};

use crate::column::Column;
use crate::hull::Hull;
use crate::source::Fronts;
use crate::steps::taken_from;
use crate::values::Values;

/// The front of the hull at a place, closed by the next value, which is equal to the value there.
#[inline(always)]
fn closed_from<H: Hull, F: Fronts<H>, V: Values, C: Column<H>>(
    by: F,
    values: V,
    from: C,
    before: &[C::Item],
    i: usize,
) -> H
    requires ok { V.ok values }
    requires whole { C.whole from before.now }
    requires readable { C.readable from before.now }
    requires same { length (C.column from before.now) ≡ V.len values }
    requires fit { (i : ℕ) → i < V.len values → F.fit by (get_or (C.hulls from before.now) i H.none) }
    requires inside { i < V.len values }
    ensures { result ≡ F.closing by (H.both H.none
        (F.front by (get_or (C.hulls from before.now) i H.none) (V.value values i))) (V.value values i) }
{
    let v = values.at(i);
    let front = taken_from::<H, F, V, C>(by, values, from, before, i, H::nothing());
    by.closed(front, v)
}

/// Takes in a move on `=`: each step passes the lesser of two values, or both if they are equal. Each item of the next
/// values takes in the closed front of the value that is equal, if there is one.
#[inline(never)]
pub fn sweep_equal<H: Hull, F: Fronts<H>, V: Values, W: Values, C: Column<H>>(
    by: F,
    values: V,
    from: C,
    before: &[C::Item],
    next_values: W,
    to: C,
    next: &mut [C::Item],
)
    requires ok { V.ok values }
    requires whole { C.whole from before.now }
    requires readable { C.readable from before.now }
    requires same { length (C.column from before.now) ≡ V.len values }
    requires fit { (i : ℕ) → i < V.len values → F.fit by (get_or (C.hulls from before.now) i H.none) }
    requires next_ok { W.ok next_values }
    requires next_whole { C.whole to next.old }
    requires next_same { length (C.column to next.old) ≡ W.len next_values }
    ensures taken { IsTakenIn C.taking H.none C.blank
        (λ j. F.closing by
        (equal_hull H.both H.none (F.front by) (C.hulls from before.now) (V.value values) (W.value next_values j))
        (W.value next_values j))
        (C.column to next.old) (C.column to next.new) }
    ensures whole { C.whole to next.new }
    ensures beside { C.beside to next.old next.new }
{
    let n = values.count();
    let m = next_values.count();
    let mut at = 0;
    let mut k = 0;
    while at < n && k < m {
        let v = values.at(at);
        let w = next_values.at(k);
        if v < w {
            at += 1;
        } else if w < v {
            k += 1;
        } else {
            to.take_in(next, k, closed_from(by, values, from, before, at));
            at += 1;
            k += 1;
        }
    }
}
