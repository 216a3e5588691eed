//! Moves as sweeps take them in: what becomes of each register, or that all are kept.

ghost use Rattle.std.specs.Prelude.{◌≡◌, ℤ, ◌≤◌, List, true};
ghost use Rattle.ts_sweep.specs.declared.packed.Name.{Name};
ghost use Rattle.ts_sweep.specs.Covers.{IsHullBounded};
ghost use Rattle.ts_sweep.specs.Fronts.{IsCutFor};
ghost use Rattle.ts_sweep.specs.Moves.{beside};
ghost use Rattle.ts_sweep.specs.Packed.{IsPacked, ends_in, is_wide, place};
ghost use Rattle.ts_sweep.specs.Sides.{Sides, as_read};
ghost use Rattle.ts_sweep.specs.Small.{IsSmall};

use crate::cover::Cover;
use crate::packed::{Ends, Name, Packed};
use crate::part::Part;
use crate::source::Fronts;

/// The fronts of a move: what they make of lanes represents what the move makes of hulls.
pub trait Moves<H: Packed>: Fronts<H> {
    ghost use Rattle.std.specs.Prelude.{◌≤◌, ℤ};
    ghost use Rattle.ts_hull.specs.Cuts.{Cut};
    ghost use Rattle.ts_sweep.specs.Moves.{IsFrontOf, IsClosingOf};
    ghost use Rattle.ts_sweep.specs.Small.{IsSmall};

    /// The split expressions of the move.
    ghost cut: { Self → Cut };

    /// Whether the sums of the move stay small on all hulls that a cover bounds.
    fn is_fit(self, cover: &Cover) -> bool
        requires registers { 6 ≤ H.count }
        ensures { result ≡ true → (h : H) → IsPacked H.count (H.lanes h) →
            IsHullBounded H.sides cover.now (H.lanes h) → Self.fit self h };

    ghost front_is: { (k : Self) (h : H) (v : ℤ) → 6 ≤ H.count → Self.fit k h → IsSmall v →
        IsFrontOf H.sides (cut k) H.count (H.lanes h) v (H.lanes (Self.front k h v)) };

    ghost closing_is: { (k : Self) (run : H) (w : ℤ) → 6 ≤ H.count → Self.closable k run → IsSmall w →
        IsClosingOf H.sides (cut k) H.count (H.lanes run) w (H.lanes (Self.closing k run w)) };
}

/// A part for each register. Narrow hulls have no lanes for E and F, so the parts for these are ignored there.
pub trait EachPart: Copy {
    ghost use Rattle.std.specs.Prelude.{◌≡◌, ℕ, ◌≤◌, Bool, true, false, ℤ, List};
    ghost use Rattle.ts_base.specs.declared.span.Span.{Span};
    ghost use Rattle.ts_automaton.specs.declared.regs.Hull.{Hull};
    ghost use Rattle.ts_hull.specs.Cuts.{Cut};
    ghost use Rattle.ts_hull.specs.Splits.{closed_span, front_span};
    ghost use Rattle.ts_sweep.specs.declared.packed.Ends.{Ends};
    ghost use Rattle.ts_sweep.specs.declared.packed.Name.{Name};
    ghost use Rattle.ts_sweep.specs.Covers.{IsBounded};
    ghost use Rattle.ts_sweep.specs.Fronts.{AreEndsOf, IsCutFor, IsSplitFor};
    ghost use Rattle.ts_sweep.specs.Moves.{IfPlaced, any_tail, begun_by, closed_by, of_name, replaced_all};
    ghost use Rattle.ts_sweep.specs.Packed.{ends_in, is_wide, max_ends, place};
    ghost use Rattle.ts_sweep.specs.Sides.{IsEndsOf, Sides, as_read, read_ends};
    ghost use Rattle.ts_sweep.specs.Small.{IsSmall};

    /// The front and the tail of each.
    ghost splits: { Self → Cut };

    /// Whether it has a tail.
    ghost tails: { Self → Name → Bool };

    /// That its front may be evaluated on these lanes, and closed.
    ghost fits: { Self → Name → List ℤ → Type 0 };

    /// The ends of its front in lanes, at a value.
    ghost fronts: { Self → Name → List ℤ → ℤ → Ends };

    /// That ends may be closed.
    ghost closables: { Self → Name → Ends → Type 0 };

    /// What the next value makes of ends.
    ghost closings: { Self → Name → Ends → ℤ → Ends };

    /// Whether any has a tail.
    fn any_tail(self) -> bool
        ensures { result ≡ any_tail (tails self) };

    /// Whether the part for C is known to be a single word.
    fn c_is_word(self) -> bool;

    /// Whether those that narrow hulls have may be evaluated on one end alone.
    fn are_narrow(self) -> bool
        ensures { result ≡ true → (s : Sides) → IsCutFor s (splits self) };

    /// Whether all may be evaluated and closed on all lanes that a cover bounds.
    fn are_fit(self, cover: &Cover) -> bool
        ensures { result ≡ true → (xs : List ℤ) → IsBounded cover.now xs → (m : Name) → fits self m xs };

    /// A hull whose registers have the ends of their fronts at the value `x`.
    fn all_begun<H: Packed>(self, h: H, x: i64) -> H
        requires registers { 6 ≤ H.count }
        requires fit { (m : Name) → IfPlaced (place H.count m) (fits self m (as_read H.sides (H.lanes h))) }
        requires small { IsSmall x }
        ensures { result ≡ replaced_all H.replaced h
            (begun_by (is_wide H.count) (λ m xs. fronts self m xs x) (as_read H.sides (H.lanes h))) };

    /// A hull of fronts whose registers have the ends that the next value `y` makes of them.
    fn all_closed<H: Packed>(self, run: H, y: i64) -> H
        requires registers { 6 ≤ H.count }
        requires closable { (m : Name) → IfPlaced (place H.count m)
            (closables self m (ends_in (as_read H.sides (H.lanes run)) (place H.count m))) }
        requires small { IsSmall y }
        ensures { result ≡ replaced_all H.replaced run
            (closed_by H.count (λ m e. closings self m e y) (as_read H.sides (H.lanes run))) };

    ghost closables_both: { (k : Self) (m : Name) (a b : Ends) → closables k m a → closables k m b →
        closables k m (max_ends a b) };

    ghost closables_front: { (k : Self) (x : ℤ) → IsSmall x → (m : Name) (xs : List ℤ) → fits k m xs →
        closables k m (fronts k m xs x) };

    ghost closables_read: { (k : Self) (s : Sides) (m : Name) (e : Ends) → closables k m e →
        closables k m (read_ends s e) };

    ghost fronts_pack: { (k : Self) (s : Sides) (x : ℤ) → IsSmall x → (m : Name) (xs : List ℤ) (h : Hull) →
        AreEndsOf s xs h → IsSplitFor s (of_name (splits k) m) → fits k m xs →
        IsEndsOf s (fronts k m xs x) (front_span (of_name (splits k) m) h x) };

    ghost no_tails: { (k : Self) (y : ℤ) (m : Name) → tails k m ≡ false → (t : Span) →
        closed_span (of_name (splits k) m) t y ≡ t };

    ghost closings_pack: { (k : Self) (s : Sides) (y : ℤ) → IsSmall y → (m : Name) (e : Ends) (t : Span) →
        IsEndsOf s e t → closables k m e → IsEndsOf s (closings k m e y) (closed_span (of_name (splits k) m) t y) };
}

/// Keeps all registers.
#[derive(Clone, Copy)]
pub struct Keep;

/// What becomes of each register, by a type each. Here alone all five are named.
#[derive(Clone, Copy)]
pub struct Parts<C, E, D, F, R> {
    pub c: C,
    pub e: E,
    pub d: D,
    pub f: F,
    pub r: R,
}

/// Whether all parts may be evaluated on the ends that hulls have.
#[inline(always)]
fn are_for<H: Packed, P: EachPart>(parts: P) -> bool
    ensures { result ≡ true → IsCutFor H.sides (P.splits parts) }
{
    H::has_both() || parts.are_narrow()
}

/// The front of E or F; in a narrow hull, which has no lanes for them, it is 0.
#[inline(always)]
fn begun_beside<H: Packed, P: Part>(part: P, h: H, x: i64) -> Ends
    requires registers { 6 ≤ H.count }
    requires fit { is_wide H.count ≡ true → P.fit part (as_read H.sides (H.lanes h)) }
    requires small { IsSmall x }
    ensures { result ≡ beside (is_wide H.count) (P.front part (as_read H.sides (H.lanes h)) x) }
{
    if H::is_wide() {
        part.begun(h, x)
    } else {
        Ends { below: 0, above: 0 }
    }
}

/// What the next value makes of the front of E or F; in a narrow hull it is 0.
#[inline(always)]
fn closed_beside<H: Packed, P: Part>(part: P, run: H, register: Name, y: i64) -> Ends
    requires registers { 6 ≤ H.count }
    requires closable { is_wide H.count ≡ true →
        P.closable part (ends_in (as_read H.sides (H.lanes run)) (place H.count register)) }
    requires small { IsSmall y }
    ensures { result ≡ beside (is_wide H.count)
        (P.closing part (ends_in (as_read H.sides (H.lanes run)) (place H.count register)) y) }
{
    if H::is_wide() {
        part.closed(run.ends(register), y)
    } else {
        Ends { below: 0, above: 0 }
    }
}

impl<H: Packed> Fronts<H> for Keep {
    ghost use Rattle.std.proofs.Common.{refl, inl};
    ghost use Rattle.ts_sweep.specs.Packed.{IsPacked};
    ghost use Rattle.ts_sweep.specs.MoveLaws.{packed_both};

    ghost fit = { λ k h. IsPacked H.count (H.lanes h) };

    ghost closable = { λ k h. IsPacked H.count (H.lanes h) };

    ghost front = { λ k h v. h };

    ghost closing = { λ k h w. h };

    ghost closes_none = { λ k w. refl };

    ghost closable_none = { λ k. inl H.none_lanes };

    ghost closable_both = { λ k a b p q. packed_both H.both H.lanes H.count H.both_lanes a b p q };

    ghost closable_front = { λ k h v p small. p };

    #[inline(always)]
    fn taken(self, run: H, h: H, _value: i64) -> H {
        run.joined(h)
    }

    #[inline(always)]
    fn closed(self, run: H, _next_value: i64) -> H {
        run
    }
}

impl<H: Packed> Moves<H> for Keep {
    ghost use Rattle.ts_sweep.specs.Moves.{kept_cut};
    ghost use Rattle.ts_sweep.specs.MoveLaws.{kept_front, kept_closing};
    ghost use Rattle.ts_sweep.specs.Packed.{is_wide};

    ghost cut = { λ k. kept_cut (is_wide H.count) };

    ghost front_is = { λ k h v big p small. kept_front H.sides H.count (H.lanes h) v big (H.shown h big p) p };

    ghost closing_is = { λ k run w big p small. kept_closing H.sides H.count (H.lanes run) w big
        (H.shown run big p) p };

    #[inline(always)]
    fn is_fit(self, _cover: &Cover) -> bool {
        true
    }
}

impl<C: Part, E: Part, D: Part, F: Part, R: Part> EachPart for Parts<C, E, D, F, R> {
    ghost use Rattle.ts_automaton.specs.Registers.{each};
    ghost use Rattle.ts_sweep.specs.Moves.{closes_by, fits_by, of_name};
    ghost use Rattle.ts_sweep.specs.MoveLaws.{by_names};

    ghost splits = { λ k. each (C.split k.c) (E.split k.e) (D.split k.d) (F.split k.f) (R.split k.r) };

    ghost tails = { λ k. of_name (each (C.tails k.c) (E.tails k.e) (D.tails k.d) (F.tails k.f) (R.tails k.r)) };

    ghost fits = { λ k. fits_by (C.fit k.c) (E.fit k.e) (D.fit k.d) (F.fit k.f) (R.fit k.r) };

    ghost fronts = { λ k. of_name (each (C.front k.c) (E.front k.e) (D.front k.d) (F.front k.f) (R.front k.r)) };

    ghost closables = { λ k. closes_by (C.closable k.c) (E.closable k.e) (D.closable k.d) (F.closable k.f)
        (R.closable k.r) };

    ghost closings = { λ k. of_name (each (C.closing k.c) (E.closing k.e) (D.closing k.d) (F.closing k.f)
        (R.closing k.r)) };

    ghost closables_both = { λ k. by_names _ (C.closable_both k.c) (E.closable_both k.e) (D.closable_both k.d)
        (F.closable_both k.f) (R.closable_both k.r) };

    ghost closables_front = { λ k x small. by_names _ (λ xs g. C.closable_front k.c xs x g small)
        (λ xs g. E.closable_front k.e xs x g small) (λ xs g. D.closable_front k.d xs x g small)
        (λ xs g. F.closable_front k.f xs x g small) (λ xs g. R.closable_front k.r xs x g small) };

    ghost closables_read = { λ k s. by_names _ (C.closable_read k.c s) (E.closable_read k.e s) (D.closable_read k.d s)
        (F.closable_read k.f s) (R.closable_read k.r s) };

    ghost fronts_pack = { λ k s x small. by_names _ (λ xs h are suits g. C.front_packs k.c s xs h x are suits g small)
        (λ xs h are suits g. E.front_packs k.e s xs h x are suits g small)
        (λ xs h are suits g. D.front_packs k.d s xs h x are suits g small)
        (λ xs h are suits g. F.front_packs k.f s xs h x are suits g small)
        (λ xs h are suits g. R.front_packs k.r s xs h x are suits g small) };

    ghost no_tails = { λ k y. by_names _ (λ t s. C.no_tail k.c t s y) (λ t s. E.no_tail k.e t s y)
        (λ t s. D.no_tail k.d t s y) (λ t s. F.no_tail k.f t s y) (λ t s. R.no_tail k.r t s y) };

    ghost closings_pack = { λ k s y small. by_names _ (λ e t p h. C.closing_packs k.c s e t y p h small)
        (λ e t p h. E.closing_packs k.e s e t y p h small) (λ e t p h. D.closing_packs k.d s e t y p h small)
        (λ e t p h. F.closing_packs k.f s e t y p h small) (λ e t p h. R.closing_packs k.r s e t y p h small) };

    #[inline(always)]
    fn any_tail(self) -> bool {
        self.c.has_tail()
            || self.e.has_tail()
            || self.d.has_tail()
            || self.f.has_tail()
            || self.r.has_tail()
    }

    #[inline(always)]
    fn c_is_word(self) -> bool {
        self.c.is_word()
    }

    #[inline(always)]
    fn are_narrow(self) -> bool {
        self.c.is_narrow() & self.d.is_narrow() & self.r.is_narrow()
    }

    #[inline(always)]
    fn are_fit(self, cover: &Cover) -> bool {
        self.c.is_fit(cover)
            & self.e.is_fit(cover)
            & self.d.is_fit(cover)
            & self.f.is_fit(cover)
            & self.r.is_fit(cover)
    }

    #[inline(always)]
    fn all_begun<H: Packed>(self, h: H, x: i64) -> H {
        let c = self.c.begun(h, x);
        let e = begun_beside::<H, E>(self.e, h, x);
        let d = self.d.begun(h, x);
        let f = begun_beside::<H, F>(self.f, h, x);
        let r = self.r.begun(h, x);
        h.with(Name::C, c)
            .with(Name::E, e)
            .with(Name::D, d)
            .with(Name::F, f)
            .with(Name::R, r)
    }

    #[inline(always)]
    fn all_closed<H: Packed>(self, run: H, y: i64) -> H {
        let c = self.c.closed(run.ends(Name::C), y);
        let e = closed_beside::<H, E>(self.e, run, Name::E, y);
        let d = self.d.closed(run.ends(Name::D), y);
        let f = closed_beside::<H, F>(self.f, run, Name::F, y);
        let r = self.r.closed(run.ends(Name::R), y);
        run.with(Name::C, c)
            .with(Name::E, e)
            .with(Name::D, d)
            .with(Name::F, f)
            .with(Name::R, r)
    }
}

impl<H: Packed, P: EachPart> Fronts<H> for P {
    ghost use Rattle.std.specs.Prelude.{cond};
    ghost use Rattle.std.proofs.Common.{inl};
    ghost use Rattle.ts_sweep.specs.Fronts.{IsCutFor};
    ghost use Rattle.ts_sweep.specs.Lanes.{some_lanes};
    ghost use Rattle.ts_sweep.specs.Packed.{is_wide};
    ghost use Rattle.ts_sweep.specs.Sides.{as_read};
    ghost use Rattle.ts_sweep.specs.Moves.{IsClosableBy, IsFitFor, any_tail, begun_by, closed_by, replaced_all};
    ghost use Rattle.ts_sweep.specs.MoveLaws.{parts_none, parts_both, parts_front};

    ghost fit = { λ k h. IsFitFor H.sides H.count (P.fits k) (H.lanes h) × IsCutFor H.sides (P.splits k) };

    ghost closable = { λ k h. IsClosableBy H.sides H.count (P.closables k) (H.lanes h) };

    ghost front = { λ k h v. cond (some_lanes (H.lanes h))
        (replaced_all H.replaced h (begun_by (is_wide H.count) (λ m xs. P.fronts k m xs v)
        (as_read H.sides (H.lanes h)))) H.none };

    ghost closing = { λ k h w. cond (any_tail (P.tails k)) (cond (some_lanes (H.lanes h))
        (replaced_all H.replaced h (closed_by H.count (λ m e. P.closings k m e w) (as_read H.sides (H.lanes h))))
        H.none) h };

    ghost closes_none = { λ k w. parts_none H.lanes H.count H.none H.none_lanes (any_tail (P.tails k)) _ };

    ghost closable_none = { λ k. inl H.none_lanes };

    ghost closable_both = { λ k a b p q. parts_both H.both H.lanes H.count H.both_lanes H.sides (P.closables k)
        (P.closables_both k) a b p q };

    ghost closable_front = { λ k h v p small. parts_front H.sides H.lanes H.replaced H.count H.none H.none_lanes
        H.replaced_lanes H.alone (P.fits k) (P.splits k) (λ m xs. P.fronts k m xs v) v
        (P.fronts_pack k H.sides v small) p.1 (P.closables k) (P.closables_front k v small)
        (P.closables_read k H.sides) h p.0 };

    #[inline(always)]
    fn taken(self, run: H, h: H, value: i64) -> H {
        if !h.holds_some(self.c_is_word()) {
            return run;
        }
        run.joined(self.all_begun(h, value))
    }

    #[inline(always)]
    fn closed(self, run: H, next_value: i64) -> H {
        if !self.any_tail() {
            return run;
        }
        if !run.is_some() {
            return H::nothing();
        }
        self.all_closed(run, next_value)
    }
}

impl<H: Packed, P: EachPart> Moves<H> for P {
    ghost use Rattle.ts_sweep.specs.Packed.{is_wide};
    ghost use Rattle.ts_sweep.specs.Moves.{of_width};
    ghost use Rattle.ts_sweep.specs.MoveLaws.{parts_front_is, parts_closing_is};

    ghost cut = { λ k. of_width (is_wide H.count) (P.splits k) };

    ghost front_is = { λ k h v big p small. parts_front_is H.sides H.lanes H.replaced H.count H.none H.none_lanes
        H.replaced_lanes H.alone (P.fits k) (P.splits k) (λ m xs. P.fronts k m xs v) v
        (P.fronts_pack k H.sides v small) p.1 h big p.0 };

    ghost closing_is = { λ k run w big p small. parts_closing_is H.sides H.lanes H.replaced H.count H.none H.none_lanes
        H.replaced_lanes H.alone H.shown (P.closables k) (P.splits k) (P.tails k) (λ m e. P.closings k m e w) w
        (P.closings_pack k H.sides w small) (P.no_tails k w) run big p };

    #[inline(always)]
    fn is_fit(self, cover: &Cover) -> bool {
        are_for::<H, P>(self) && self.are_fit(cover)
    }
}
