//! Expressions that don't read the next cell, as types: a word is a type of its own, and an operator over two
//! expressions is `Join`. So `add C add D x` is `Join<Plus, Register<0>, Join<Plus, Register<2>, This>>`, and a sweep
//! of it is compiled with nothing left to decide.

ghost use Rattle.std.specs.Prelude.{◌≡◌, ℤ, List, ◌≤◌, true, false};
ghost use Rattle.ts_sweep.specs.Covers.{IsBounded};
ghost use Rattle.ts_sweep.specs.Fronts.{ArePlain, name_of};
ghost use Rattle.ts_sweep.specs.Sides.{as_read};
ghost use Rattle.ts_sweep.specs.Small.{IsSmall};

use crate::cover::Cover;
use crate::operator::Operator;
use crate::packed::{Ends, Name, Packed};

/// An expression that doesn't read the next cell.
pub trait Front: Copy {
    ghost use Rattle.std.specs.Prelude.{◌≡◌, ℕ, ◌≤◌, Bool, true, false, ℤ, pos, List};
    ghost use Rattle.ts_automaton.specs.Formula.{Formula, is_narrow};
    ghost use Rattle.ts_hull.specs.Sealed.{span_in};
    ghost use Rattle.ts_sweep.specs.declared.packed.Ends.{Ends};
    ghost use Rattle.ts_automaton.specs.declared.regs.Hull.{Hull};
    ghost use Rattle.ts_sweep.specs.Covers.{IsBounded};
    ghost use Rattle.ts_sweep.specs.Fronts.{AreEndsOf, IsFor};
    ghost use Rattle.ts_sweep.specs.Packed.{AreWithin};
    ghost use Rattle.ts_sweep.specs.Sides.{IsEndsOf, Sides, as_read};
    ghost use Rattle.ts_sweep.specs.Small.{IsSmall};

    /// The expression.
    ghost formula: { Self → Formula };

    /// The number of the expression's words, counted up to 255.
    ghost words: { Self → ℕ };

    /// That the expression may be evaluated on these lanes: where it is added to something, its registers are small
    /// numbers.
    ghost fit: { Self → Bool → List ℤ → Type 0 };

    /// The ends of the expression in lanes, at a value.
    ghost value: { Self → List ℤ → ℤ → Ends };

    /// The number of the expression's words, counted up to 255.
    fn words(self) -> u8
        ensures { result ≡ words self };

    /// Whether neither E nor F nor a difference stands in the expression.
    fn is_narrow(self) -> bool
        ensures { result ≡ is_narrow (formula self) };

    /// Whether the expression may be evaluated on all lanes that a cover bounds.
    fn is_fit(self, added: bool, cover: &Cover) -> bool
        ensures { result ≡ true → (xs : List ℤ) → IsBounded cover.now xs → fit self added xs };

    /// The ends of the expression on a hull, at a value.
    fn ends<H: Packed>(self, h: H, x: i64) -> Ends
        requires registers { 6 ≤ H.count }
        requires fit { fit self false (as_read H.sides (H.lanes h)) }
        requires small { IsSmall x }
        ensures { result ≡ value self (as_read H.sides (H.lanes h)) x };

    ghost looser: { (k : Self) (xs : List ℤ) → fit k true xs → fit k false xs };

    ghost within: { (k : Self) (xs : List ℤ) (x : ℤ) → words k ≤ 9 → fit k true xs → IsSmall x →
        AreWithin (words k) (value k xs x) };

    ghost packs: { (k : Self) (s : Sides) (xs : List ℤ) (h : Hull) (x : ℤ) → AreEndsOf s xs h → IsFor s (formula k) →
        fit k false xs → IsSmall x → IsEndsOf s (value k xs x) (span_in (formula k) h x (pos 0)) };
}

/// A register by its number: C, E, D, F and R are 0 to 4.
#[derive(Clone, Copy)]
pub struct Register<const K: usize>;

/// The present cell.
#[derive(Clone, Copy)]
pub struct This;

/// One.
#[derive(Clone, Copy)]
pub struct One;

/// Zero.
#[derive(Clone, Copy)]
pub struct Zero;

/// Minus infinity.
#[derive(Clone, Copy)]
pub struct Low;

/// Infinity.
#[derive(Clone, Copy)]
pub struct High;

/// An operator over two expressions.
#[derive(Clone, Copy)]
pub struct Join<O, A, B> {
    pub by: O,
    pub left: A,
    pub right: B,
}

/// The register with a number.
#[inline(always)]
fn name_of(k: usize) -> Name
    ensures { result ≡ name_of k }
{
    if k == 0 {
        Name::C
    } else if k == 1 {
        Name::E
    } else if k == 2 {
        Name::D
    } else if k == 3 {
        Name::F
    } else {
        Name::R
    }
}

impl<const K: usize> Front for Register<K> {
    ghost use Rattle.std.specs.Prelude.{◌≡◌, pos, true};
    ghost use Rattle.ts_automaton.specs.Formula.{Leaf};
    ghost use Rattle.ts_sweep.specs.Packed.{name_ends, AreWithin};
    ghost use Rattle.ts_sweep.specs.Fronts.{name_of, word_of, IsFitRegister};
    ghost use Rattle.ts_sweep.specs.FrontLaws.{register_looser, register_within, register_packs};

    ghost formula = { λ k. Leaf (word_of (name_of K)) };

    ghost words = { λ k. 1 };

    ghost fit = { λ k added xs. IsFitRegister (name_of K) added xs };

    ghost value = { λ k xs x. name_ends xs (name_of K) };

    ghost looser = { λ k xs h. register_looser (name_of K) xs h };

    ghost within = { λ k xs x few h small. register_within (name_of K) xs h };

    ghost packs = { λ k s xs h x are suits fits small. register_packs s (name_of K) xs h x (pos 0) are };

    #[inline(always)]
    fn words(self) -> u8 {
        1
    }

    #[inline(always)]
    fn is_narrow(self) -> bool {
        K != 1 && K != 3
    }

    #[inline(always)]
    fn is_fit(self, added: bool, cover: &Cover) -> bool {
        !added || are_plain(cover.ends(name_of(K)))
    }

    #[inline(always)]
    fn ends<H: Packed>(self, h: H, _x: i64) -> Ends {
        h.ends(name_of(K))
    }
}

/// Whether neither end is above 10^16.
#[inline(always)]
fn are_plain(e: Ends) -> bool
    ensures { result ≡ true → ArePlain e }
{
    e.below <= 10_000_000_000_000_000 && e.above <= 10_000_000_000_000_000
}

impl Front for This {
    ghost use Rattle.std.specs.Prelude.{neg_ℤ};
    ghost use Rattle.ts_automaton.specs.Formula.{Leaf};
    ghost use Rattle.ts_automaton.specs.declared.expr.Atom.TheVariants.{This as ThisWord};
    ghost use Rattle.ts_sweep.specs.Packed.{ends};
    ghost use Rattle.ts_sweep.specs.FrontLaws.{small_number, number_ends_of, number_within};

    ghost formula = { λ k. Leaf ThisWord };

    ghost words = { λ k. 1 };

    ghost fit = { λ k added xs. Unit {0} };

    ghost value = { λ k xs x. ends (neg_ℤ x) x };

    ghost looser = { λ k xs h. h };

    ghost within = { λ k xs x few h small. number_within x (small_number x small) };

    ghost packs = { λ k s xs h x are suits fits small. number_ends_of s x (small_number x small) };

    #[inline(always)]
    fn words(self) -> u8 {
        1
    }

    #[inline(always)]
    fn is_narrow(self) -> bool {
        true
    }

    #[inline(always)]
    fn is_fit(self, _added: bool, _cover: &Cover) -> bool {
        true
    }

    #[inline(always)]
    fn ends<H: Packed>(self, _h: H, x: i64) -> Ends {
        Ends {
            below: -x,
            above: x,
        }
    }
}

impl Front for One {
    ghost use Rattle.std.specs.Prelude.{pos, negsuc};
    ghost use Rattle.ts_automaton.specs.Formula.{Leaf};
    ghost use Rattle.ts_automaton.specs.declared.expr.Atom.TheVariants.{Unit as UnitWord};
    ghost use Rattle.ts_sweep.specs.Packed.{ends};
    ghost use Rattle.ts_sweep.specs.FrontLaws.{one_is_small, number_ends_of, number_within};

    ghost formula = { λ k. Leaf UnitWord };

    ghost words = { λ k. 1 };

    ghost fit = { λ k added xs. Unit {0} };

    ghost value = { λ k xs x. ends (negsuc 0) (pos 1) };

    ghost looser = { λ k xs h. h };

    ghost within = { λ k xs x few h small. number_within (pos 1) one_is_small };

    ghost packs = { λ k s xs h x are suits fits small. number_ends_of s (pos 1) one_is_small };

    #[inline(always)]
    fn words(self) -> u8 {
        1
    }

    #[inline(always)]
    fn is_narrow(self) -> bool {
        true
    }

    #[inline(always)]
    fn is_fit(self, _added: bool, _cover: &Cover) -> bool {
        true
    }

    #[inline(always)]
    fn ends<H: Packed>(self, _h: H, _x: i64) -> Ends {
        Ends {
            below: -1,
            above: 1,
        }
    }
}

impl Front for Zero {
    ghost use Rattle.std.specs.Prelude.{pos};
    ghost use Rattle.ts_automaton.specs.Formula.{Leaf};
    ghost use Rattle.ts_automaton.specs.declared.expr.Atom.TheVariants.{Zero as ZeroWord};
    ghost use Rattle.ts_sweep.specs.Packed.{ends};
    ghost use Rattle.ts_sweep.specs.FrontLaws.{zero_is_small, number_ends_of, number_within};

    ghost formula = { λ k. Leaf ZeroWord };

    ghost words = { λ k. 1 };

    ghost fit = { λ k added xs. Unit {0} };

    ghost value = { λ k xs x. ends (pos 0) (pos 0) };

    ghost looser = { λ k xs h. h };

    ghost within = { λ k xs x few h small. number_within (pos 0) zero_is_small };

    ghost packs = { λ k s xs h x are suits fits small. number_ends_of s (pos 0) zero_is_small };

    #[inline(always)]
    fn words(self) -> u8 {
        1
    }

    #[inline(always)]
    fn is_narrow(self) -> bool {
        true
    }

    #[inline(always)]
    fn is_fit(self, _added: bool, _cover: &Cover) -> bool {
        true
    }

    #[inline(always)]
    fn ends<H: Packed>(self, _h: H, _x: i64) -> Ends {
        Ends { below: 0, above: 0 }
    }
}

impl Front for Low {
    ghost use Rattle.std.specs.Prelude.{◌≡◌, false, pos, negsuc};
    ghost use Rattle.std.proofs.Common.{refl};
    ghost use Rattle.ts_automaton.specs.Formula.{Leaf};
    ghost use Rattle.ts_automaton.specs.declared.expr.Atom.TheVariants.{NegInf as LowWord};
    ghost use Rattle.ts_sweep.specs.Packed.{ends};
    ghost use Rattle.ts_sweep.specs.FrontLaws.{never_added, low_ends};

    ghost formula = { λ k. Leaf LowWord };

    ghost words = { λ k. 1 };

    ghost fit = { λ k added xs. added ≡ false };

    ghost value = { λ k xs x. ends (pos 9223372036854775807) (negsuc 9223372036854775806) };

    ghost looser = { λ k xs h. refl };

    ghost within = { λ k xs x few h small. never_added h };

    ghost packs = { λ k s xs h x are suits fits small. low_ends s };

    #[inline(always)]
    fn words(self) -> u8 {
        1
    }

    #[inline(always)]
    fn is_narrow(self) -> bool {
        true
    }

    #[inline(always)]
    fn is_fit(self, added: bool, _cover: &Cover) -> bool {
        !added
    }

    #[inline(always)]
    fn ends<H: Packed>(self, _h: H, _x: i64) -> Ends {
        Ends {
            below: i64::MAX,
            above: -i64::MAX,
        }
    }
}

impl Front for High {
    ghost use Rattle.std.specs.Prelude.{◌≡◌, false, pos, negsuc};
    ghost use Rattle.std.proofs.Common.{refl};
    ghost use Rattle.ts_automaton.specs.Formula.{Leaf};
    ghost use Rattle.ts_automaton.specs.declared.expr.Atom.TheVariants.{PosInf as HighWord};
    ghost use Rattle.ts_sweep.specs.Packed.{ends};
    ghost use Rattle.ts_sweep.specs.FrontLaws.{never_added, high_ends};

    ghost formula = { λ k. Leaf HighWord };

    ghost words = { λ k. 1 };

    ghost fit = { λ k added xs. added ≡ false };

    ghost value = { λ k xs x. ends (negsuc 9223372036854775806) (pos 9223372036854775807) };

    ghost looser = { λ k xs h. refl };

    ghost within = { λ k xs x few h small. never_added h };

    ghost packs = { λ k s xs h x are suits fits small. high_ends s };

    #[inline(always)]
    fn words(self) -> u8 {
        1
    }

    #[inline(always)]
    fn is_narrow(self) -> bool {
        true
    }

    #[inline(always)]
    fn is_fit(self, added: bool, _cover: &Cover) -> bool {
        !added
    }

    #[inline(always)]
    fn ends<H: Packed>(self, _h: H, _x: i64) -> Ends {
        Ends {
            below: -i64::MAX,
            above: i64::MAX,
        }
    }
}

impl<O: Operator, A: Front, B: Front> Front for Join<O, A, B> {
    ghost use Rattle.std.specs.Prelude.{◌+◌, ◌≤◌, ◌||◌, min};
    ghost use Rattle.ts_automaton.specs.Formula.{Join as Joined};
    ghost use Rattle.ts_sweep.specs.FrontLaws.{join_looser, join_within, join_packs};

    ghost formula = { λ k. Joined (O.op k.by) (A.formula k.left) (B.formula k.right) };

    ghost words = { λ k. min (A.words k.left + B.words k.right) 255 };

    ghost fit = { λ k added xs. (A.words k.left + B.words k.right ≤ 9) × A.fit k.left (added || O.adds k.by) xs
        × B.fit k.right (added || O.adds k.by) xs };

    ghost value = { λ k xs x. O.joined k.by (A.value k.left xs x) (B.value k.right xs x) };

    ghost looser = { λ k xs h. join_looser (O.adds k.by) (A.words k.left) (B.words k.right) (λ b. A.fit k.left b xs)
        (λ b. B.fit k.right b xs) (A.looser k.left xs) (B.looser k.right xs) h };

    ghost within = { λ k xs x few h small. join_within (O.adds k.by) (O.joined k.by) (A.words k.left) (B.words k.right)
        (λ b. A.fit k.left b xs) (λ b. B.fit k.right b xs) (A.value k.left xs x) (B.value k.right xs x) (O.within k.by)
        (λ le g. A.within k.left xs x le g small) (λ le g. B.within k.right xs x le g small) h };

    ghost packs = { λ k s xs h x are suits fits small. join_packs s (O.adds k.by) (O.joined k.by) (O.op k.by)
        (A.words k.left) (B.words k.right) (λ b. A.fit k.left b xs) (λ b. B.fit k.right b xs)
        (A.value k.left xs x) (B.value k.right xs x) (A.formula k.left) (B.formula k.right) _ _
        (O.packs k.by) (A.looser k.left xs) (B.looser k.right xs) (λ le g. A.within k.left xs x le g small)
        (λ le g. B.within k.right xs x le g small) (λ suits g. A.packs k.left s xs h x are suits g small)
        (λ suits g. B.packs k.right s xs h x are suits g small) suits fits };

    #[inline(always)]
    fn words(self) -> u8 {
        self.left.words().saturating_add(self.right.words())
    }

    #[inline(always)]
    fn is_narrow(self) -> bool {
        !self.by.is_difference() && self.left.is_narrow() && self.right.is_narrow()
    }

    #[inline(always)]
    fn is_fit(self, added: bool, cover: &Cover) -> bool {
        let added = added || self.by.is_sum();
        self.left.words() as u16 + self.right.words() as u16 <= 9
            && self.left.is_fit(added, cover)
            && self.right.is_fit(added, cover)
    }

    #[inline(always)]
    fn ends<H: Packed>(self, h: H, x: i64) -> Ends {
        self.by.of(self.left.ends(h, x), self.right.ends(h, x))
    }
}
