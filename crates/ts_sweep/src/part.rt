//! How the expression of a register reads the next cell: not at all, or as the last operand of an operator.

ghost use Rattle.std.specs.Prelude.{◌≡◌, ℤ, List, ◌≤◌, true};
ghost use Rattle.ts_sweep.specs.Covers.{IsBounded};
ghost use Rattle.ts_sweep.specs.Sides.{as_read};
ghost use Rattle.ts_sweep.specs.Small.{IsSmall};

use crate::cover::Cover;
use crate::front::Front;
use crate::operator::Folds;
use crate::packed::{Ends, Packed, number};

/// The expression of a register: its front, which doesn't read the next cell, and what the next cell makes of the hull
/// of fronts.
pub trait Part: Copy {
    ghost use Rattle.std.specs.Prelude.{◌≡◌, ℕ, ◌≤◌, Bool, true, false, ℤ, List};
    ghost use Rattle.ts_base.specs.declared.span.Span.{Span};
    ghost use Rattle.ts_hull.specs.Splits.{Split, front_span, closed_span};
    ghost use Rattle.ts_sweep.specs.declared.packed.Ends.{Ends};
    ghost use Rattle.ts_automaton.specs.declared.regs.Hull.{Hull};
    ghost use Rattle.ts_sweep.specs.Covers.{IsBounded};
    ghost use Rattle.ts_sweep.specs.Fronts.{AreEndsOf, IsSplitFor};
    ghost use Rattle.ts_sweep.specs.Packed.{max_ends};
    ghost use Rattle.ts_sweep.specs.Sides.{IsEndsOf, Sides, as_read, read_ends};
    ghost use Rattle.ts_sweep.specs.Small.{IsSmall};

    /// The front and the tail.
    ghost split: { Self → Split };

    /// Whether there is a tail.
    ghost tails: { Self → Bool };

    /// That the front may be evaluated on these lanes, and closed.
    ghost fit: { Self → List ℤ → Type 0 };

    /// The ends of the front in lanes, at a value.
    ghost front: { Self → List ℤ → ℤ → Ends };

    /// That ends may be closed.
    ghost closable: { Self → Ends → Type 0 };

    /// What the next value makes of ends.
    ghost closing: { Self → Ends → ℤ → Ends };

    /// Whether there is a tail.
    fn has_tail(self) -> bool
        ensures { result ≡ tails self };

    /// Whether the expression is known to be a single word.
    fn is_word(self) -> bool;

    /// Whether neither E nor F nor a difference stands in the front: then it may be evaluated on one end alone.
    fn is_narrow(self) -> bool
        ensures { result ≡ true → (s : Sides) → IsSplitFor s (split self) };

    /// Whether the front may be evaluated and closed on all lanes that a cover bounds.
    fn is_fit(self, cover: &Cover) -> bool
        ensures { result ≡ true → (xs : List ℤ) → IsBounded cover.now xs → fit self xs };

    /// The ends of the front of a hull at the value `x`.
    fn begun<H: Packed>(self, h: H, x: i64) -> Ends
        requires registers { 6 ≤ H.count }
        requires fit { fit self (as_read H.sides (H.lanes h)) }
        requires small { IsSmall x }
        ensures { result ≡ front self (as_read H.sides (H.lanes h)) x };

    /// What the next value makes of ends.
    fn closed(self, e: Ends, y: i64) -> Ends
        requires closable { closable self e }
        requires small { IsSmall y }
        ensures { result ≡ closing self e y };

    ghost closable_both: { (k : Self) (a b : Ends) → closable k a → closable k b → closable k (max_ends a b) };

    ghost closable_front: { (k : Self) (xs : List ℤ) (x : ℤ) → fit k xs → IsSmall x → closable k (front k xs x) };

    ghost closable_read: { (k : Self) (s : Sides) (e : Ends) → closable k e → closable k (read_ends s e) };

    ghost front_packs: { (k : Self) (s : Sides) (xs : List ℤ) (h : Hull) (x : ℤ) → AreEndsOf s xs h →
        IsSplitFor s (split k) → fit k xs → IsSmall x → IsEndsOf s (front k xs x) (front_span (split k) h x) };

    ghost no_tail: { (k : Self) → tails k ≡ false → (s : Span) (y : ℤ) → closed_span (split k) s y ≡ s };

    ghost closing_packs: { (k : Self) (s : Sides) (e : Ends) (t : Span) (y : ℤ) → IsEndsOf s e t → closable k e →
        IsSmall y → IsEndsOf s (closing k e y) (closed_span (split k) t y) };
}

/// An expression that doesn't read the next cell.
#[derive(Clone, Copy)]
pub struct Whole<E> {
    pub front: E,
}

/// An operator, any but the difference, over an expression that doesn't read the next cell, and the next cell.
#[derive(Clone, Copy)]
pub struct Tail<O, E> {
    pub by: O,
    pub front: E,
}

impl<E: Front> Part for Whole<E> {
    ghost use Rattle.std.specs.Prelude.{false};
    ghost use Rattle.std.proofs.Common.{refl};
    ghost use Rattle.ts_hull.specs.Splits.{FrontOf};

    ghost split = { λ k. FrontOf (E.formula k.front) };

    ghost tails = { λ k. false };

    ghost fit = { λ k xs. E.fit k.front false xs };

    ghost front = { λ k xs x. E.value k.front xs x };

    ghost closable = { λ k e. Unit {0} };

    ghost closing = { λ k e y. e };

    ghost closable_both = { λ k a b p q. tt };

    ghost closable_front = { λ k xs x h small. tt };

    ghost closable_read = { λ k s e p. tt };

    ghost front_packs = { λ k s xs h x are suits fits small. E.packs k.front s xs h x are suits fits small };

    ghost no_tail = { λ k t s y. refl };

    ghost closing_packs = { λ k s e t y p h small. p };

    #[inline(always)]
    fn has_tail(self) -> bool {
        false
    }

    #[inline(always)]
    fn is_word(self) -> bool {
        self.front.words() == 1
    }

    #[inline(always)]
    fn is_narrow(self) -> bool {
        self.front.is_narrow()
    }

    #[inline(always)]
    fn is_fit(self, cover: &Cover) -> bool {
        self.front.is_fit(false, cover)
    }

    #[inline(always)]
    fn begun<H: Packed>(self, h: H, x: i64) -> Ends {
        self.front.ends(h, x)
    }

    #[inline(always)]
    fn closed(self, e: Ends, _y: i64) -> Ends {
        e
    }
}

impl<O: Folds, E: Front> Part for Tail<O, E> {
    ghost use Rattle.std.specs.Prelude.{◌≡◌, ◌≤◌, true, neg_ℤ};
    ghost use Rattle.ts_hull.specs.Splits.{TailOf};
    ghost use Rattle.ts_sweep.specs.Packed.{ends, AreWithin};
    ghost use Rattle.ts_sweep.specs.FrontLaws.{never_added};
    ghost use Rattle.ts_sweep.specs.TailLaws.{tail_both, tail_front, tail_loose, tail_packs, tail_read};

    ghost split = { λ k. TailOf (O.fold k.by) (E.formula k.front) };

    ghost tails = { λ k. true };

    ghost fit = { λ k xs. (E.words k.front ≤ 9) × E.fit k.front (O.adds k.by) xs };

    ghost front = { λ k xs x. E.value k.front xs x };

    ghost closable = { λ k e. O.adds k.by ≡ true → AreWithin 9 e };

    ghost closing = { λ k e y. O.joined k.by e (ends (neg_ℤ y) y) };

    ghost closable_both = { λ k a b p q added. tail_both a b (p added) (q added) };

    ghost closable_front = { λ k xs x h small added. tail_front (O.adds k.by) (E.words k.front)
        (λ b. E.fit k.front b xs)
        (E.value k.front xs x) (λ le g. E.within k.front xs x le g small) h.0 h.1 added };

    ghost closable_read = { λ k s e p added. tail_read s e (p added) };

    ghost front_packs = { λ k s xs h x are suits fits small. E.packs k.front s xs h x are suits
        (tail_loose (O.adds k.by) (λ b. E.fit k.front b xs) (E.looser k.front xs) fits.1) small };

    ghost no_tail = { λ k t s y. never_added t };

    ghost closing_packs = { λ k s e t y p h small. tail_packs s (O.adds k.by) (O.joined k.by) (O.op k.by)
        (O.fold k.by) e t y (O.folds k.by) (O.packs k.by) p h small };

    #[inline(always)]
    fn has_tail(self) -> bool {
        true
    }

    #[inline(always)]
    fn is_word(self) -> bool {
        false
    }

    #[inline(always)]
    fn is_narrow(self) -> bool {
        self.front.is_narrow()
    }

    #[inline(always)]
    fn is_fit(self, cover: &Cover) -> bool {
        self.front.words() <= 9 && self.front.is_fit(self.by.is_sum(), cover)
    }

    #[inline(always)]
    fn begun<H: Packed>(self, h: H, x: i64) -> Ends {
        self.front.ends(h, x)
    }

    #[inline(always)]
    fn closed(self, e: Ends, y: i64) -> Ends {
        self.by.of(e, number(y))
    }
}
