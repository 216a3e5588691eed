//! What a sweep takes in: the front of each value.

ghost use Rattle.std.specs.Prelude.{◌≡◌, ℤ};
ghost use Rattle.ts_sweep.specs.Small.{IsSmall};

use crate::hull::Hull;

/// What a move makes of the hull of a value, and of the next value.
pub trait Fronts<H: Hull>: Copy {
    /// That a hull may be taken: no sum leaves 64 bits.
    ghost fit: { Self → H → Type 0 };

    /// That a hull of fronts may be closed.
    ghost closable: { Self → H → Type 0 };

    /// What the move makes of the hull of a value.
    ghost front: { Self → H → ℤ → H };

    /// What the next value makes of the hull of fronts.
    ghost closing: { Self → H → ℤ → H };

    /// A running hull, joined with the front of a hull.
    fn taken(self, run: H, h: H, value: i64) -> H
        requires fit { fit self h }
        requires small { IsSmall value }
        requires takes { H.both run H.none ≡ run }
        ensures { result ≡ H.both run (front self h value) };

    /// What the next value makes of the hull of fronts.
    fn closed(self, run: H, next_value: i64) -> H
        requires closable { closable self run }
        requires small { IsSmall next_value }
        ensures { result ≡ closing self run next_value };

    ghost closes_none: { (k : Self) (w : ℤ) → closing k H.none w ≡ H.none };

    ghost closable_none: { (k : Self) → closable k H.none };

    ghost closable_both: { (k : Self) (a b : H) → closable k a → closable k b → closable k (H.both a b) };

    ghost closable_front: { (k : Self) (h : H) (v : ℤ) → fit k h → IsSmall v → closable k (front k h v) };
}
