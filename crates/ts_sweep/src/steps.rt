//! What the sweeps share.

ghost use Rattle.std.specs.Prelude.{◌≡◌, ℕ, ◌<◌, length, get_or};
ghost use Rattle.ts_sweep.specs.Sweeps.{step_place};

use crate::column::Column;
use crate::hull::Hull;
use crate::source::Fronts;
use crate::values::Values;

/// The place that comes at a step: from the first, or else from the last.
#[inline(always)]
pub(crate) fn step_place<const UP: bool>(n: usize, k: usize) -> usize
    requires { k < n }
    ensures value { result ≡ step_place UP n k }
    ensures inside { result < n }
{
    if UP { k } else { n - 1 - k }
}

/// A running hull, joined with the front of the hull of a value.
#[inline(always)]
pub(crate) fn taken_from<H: Hull, F: Fronts<H>, V: Values, C: Column<H>>(
    by: F,
    values: V,
    from: C,
    before: &[C::Item],
    i: usize,
    run: H,
) -> H
    requires ok { V.ok values }
    requires whole { C.whole from before.now }
    requires readable { C.readable from before.now }
    requires same { length (C.column from before.now) ≡ V.len values }
    requires fit { (i : ℕ) → i < V.len values → F.fit by (get_or (C.hulls from before.now) i H.none) }
    requires inside { i < V.len values }
    requires takes { H.both run H.none ≡ run }
    ensures value { result ≡ H.both run (F.front by (get_or (C.hulls from before.now) i H.none) (V.value values i)) }
    ensures closable { F.closable by run → F.closable by result }
{
    by.taken(run, from.hull(before, i), values.at(i))
}
