//! Moves as loops over pairs of values take them in: what becomes of each register between two values.

ghost use Rattle.std.specs.Prelude.{◌≡◌, ◌≤◌, ◌<◌, ◌+ℤ◌, ◌-ℤ◌, ℕ, get_or, length, true};
ghost use Rattle.ts_automaton.specs.Body.{move_of};
ghost use Rattle.ts_automaton.specs.Formula.{Join, Leaf, formula};
ghost use Rattle.ts_automaton.specs.declared.expr.Atom.TheVariants.{R};
ghost use Rattle.ts_automaton.specs.declared.expr.Operator.TheVariants.{Fold};
ghost use Rattle.ts_base.specs.declared.op.Op.TheVariants.{Add, Max, Min};
ghost use Rattle.ts_sweep.specs.Lanes.{some_lanes};
ghost use Rattle.ts_sweep.specs.Moves.{beside, of_name};
ghost use Rattle.ts_sweep.specs.declared.packed.Name.TheVariants.{R as NameR};
ghost use Rattle.ts_sweep.specs.Packed.{AreWithin, ends, is_wide, name_ends, number_ends};
ghost use Rattle.ts_sweep.specs.PairMoves.{IsBegun, found_ends, pair_found, start_ends};
ghost use Rattle.ts_sweep.specs.Sides.{as_read, kept_ends};
ghost use Rattle.ts_sweep.specs.Small.{IsSmall};
ghost use Rattle.ts_sweep.specs.Trees.{folded_by, tree_value};

use crate::operator::{Greater, Lesser, Operator};
use crate::packed::{Ends, Name, Packed, number};
use crate::pairs::hull_of;
use crate::tree::tree_ends;
use ts_automaton::{Expr, Op, Turn};

/// A move, evaluated on a hull between two values.
pub trait PairMove: Copy {
    ghost use Rattle.std.specs.Prelude.{◌≡◌, ◌≤◌, ℕ, ℤ, List};
    ghost use Rattle.ts_automaton.specs.Body.{Move};
    ghost use Rattle.ts_sweep.specs.Moves.{of_name};
    ghost use Rattle.ts_sweep.specs.Sides.{Sides, as_read, kept_ends};
    ghost use Rattle.ts_sweep.specs.Small.{IsSmall};
    ghost use Rattle.ts_sweep.specs.Trees.{tree_value};

    /// The move.
    ghost made: { Self → Move };

    /// That the move may be evaluated on these lanes, of a given number.
    ghost fit: { Self → Sides → ℕ → List ℤ → Type 0 };

    /// The ends of a register after the move; the ends that hulls have are exact.
    fn ends<H: Packed>(self, register: Name, h: H, x: i64, y: i64) -> Ends
        requires registers { 6 ≤ H.count }
        requires fit { fit self H.sides H.count (as_read H.sides (H.lanes h)) }
        requires this { IsSmall x }
        requires next { IsSmall y }
        ensures { kept_ends H.sides result ≡ kept_ends H.sides
            (tree_value (of_name (made self).to register) (as_read H.sides (H.lanes h)) x y) };
}

/// A move whose expressions are known only when the program runs.
#[derive(Clone, Copy)]
pub struct AnyMove<'a> {
    pub turn: &'a Turn,
}

/// A move that joins R with the sum of the cell and the next one, or with the greatest or the least of both, in a wide
/// hull with their difference, and resets D. It serves hulls whose D holds no cell yet.
#[derive(Clone, Copy)]
pub struct Emission<'a> {
    pub turn: &'a Turn,
    pub ranges: Op,
    pub cells: Op,
}

/// The expression of a register in a move.
#[inline(always)]
fn expr_of(turn: &Turn, register: Name) -> &Expr
    ensures { formula result.now ≡ of_name (move_of turn.now).to register }
{
    match register {
        Name::C => &turn.c,
        Name::E => &turn.e,
        Name::D => &turn.d,
        Name::F => &turn.f,
        Name::R => &turn.r,
    }
}

impl<'a> PairMove for AnyMove<'a> {
    ghost use Rattle.ts_automaton.specs.Body.{move_of};

    ghost made = { λ k. move_of k.turn.now };

    ghost fit = { λ k s n xs. Unit {0} };

    #[inline(always)]
    fn ends<H: Packed>(self, register: Name, h: H, x: i64, y: i64) -> Ends {
        tree_ends::<H>(expr_of(self.turn, register), h, x, y)
    }
}

/// The ends of D where it holds no cell yet: of the sum of the cells so far, of the greatest, or of the least.
#[inline(always)]
pub fn start_ends(cells: Op) -> Ends
    ensures { result ≡ start_ends cells }
{
    match cells {
        Op::Add => Ends { below: 0, above: 0 },
        Op::Max => Ends {
            below: i64::MAX,
            above: -i64::MAX,
        },
        Op::Min => Ends {
            below: -i64::MAX,
            above: i64::MAX,
        },
    }
}

/// The ends of the difference of two cells.
#[inline(always)]
fn apart(most: i64, least: i64) -> Ends
    requires most { IsSmall most }
    requires least { IsSmall least }
    ensures { result ≡ ends (least -ℤ most) (most -ℤ least) }
{
    Ends {
        below: least - most,
        above: most - least,
    }
}

/// The ends of the sum of two cells.
#[inline(always)]
fn sum_ends(x: i64, y: i64) -> Ends
    requires this { IsSmall x }
    requires next { IsSmall y }
    ensures { result ≡ number_ends (x +ℤ y) }
{
    let all = x + y;
    Ends {
        below: -all,
        above: all,
    }
}

/// The ends of what two cells give.
#[inline(always)]
fn found_ends<H: Packed>(cells: Op, x: i64, y: i64) -> Ends
    requires this { IsSmall x }
    requires next { IsSmall y }
    ensures { result ≡ found_ends (is_wide H.count) cells x y }
{
    let most = x.max(y);
    let least = x.min(y);
    if H::is_wide() {
        apart(most, least)
    } else {
        match cells {
            Op::Add => sum_ends(x, y),
            Op::Max => number(most),
            Op::Min => number(least),
        }
    }
}

/// The ends of F where it holds no cell yet; in a narrow hull, which has no lanes for it, those of 0.
#[inline(always)]
fn open_ends<H: Packed>() -> Ends
    ensures { result ≡ beside (is_wide H.count) (start_ends Min) }
{
    if H::is_wide() {
        start_ends(Op::Min)
    } else {
        Ends { below: 0, above: 0 }
    }
}

/// An operator on ends that are small numbers where it adds.
#[inline(always)]
fn folded_small(op: Op, a: Ends, b: Ends) -> Ends
    requires first { op ≡ Add → AreWithin 1 a }
    requires second { AreWithin 1 b }
    ensures { result ≡ folded_by op a b }
{
    match op {
        Op::Add => plain_sum(a, b),
        Op::Max => Greater.of(a, b),
        Op::Min => Lesser.of(a, b),
    }
}

/// The sum of ends that are small numbers.
#[inline(always)]
fn plain_sum(a: Ends, b: Ends) -> Ends
    requires first { AreWithin 1 a }
    requires second { AreWithin 1 b }
    ensures { result ≡ folded_by Add a b }
{
    Ends {
        below: a.below + b.below,
        above: a.above + b.above,
    }
}

/// The ends of R, joined with what is found.
#[inline(always)]
fn joined_ends<H: Packed>(ranges: Op, cells: Op, h: H, x: i64, y: i64) -> Ends
    requires registers { 6 ≤ H.count }
    requires small { ranges ≡ Add → AreWithin 1 (name_ends (as_read H.sides (H.lanes h)) NameR) }
    requires begun { IsBegun H.sides (is_wide H.count) cells (as_read H.sides (H.lanes h)) }
    requires one { is_wide H.count ≡ true → cells ≡ Max }
    requires this { IsSmall x }
    requires next { IsSmall y }
    ensures { kept_ends H.sides result ≡ kept_ends H.sides (tree_value
        (Join (Fold ranges) (Leaf R) (pair_found (is_wide H.count) cells)) (as_read H.sides (H.lanes h)) x y) }
{
    let found = found_ends::<H>(cells, x, y);
    folded_small(ranges, h.ends(Name::R), found)
}

impl<'a> PairMove for Emission<'a> {
    ghost use Rattle.ts_automaton.specs.Body.{move_of};
    ghost use Rattle.ts_sweep.specs.Packed.{is_wide};
    ghost use Rattle.ts_sweep.specs.PairMoves.{IsEmitted};

    ghost made = { λ k. move_of k.turn.now };

    ghost fit = { λ k s n xs. IsEmitted s (is_wide n) k xs };

    #[inline(always)]
    fn ends<H: Packed>(self, register: Name, h: H, x: i64, y: i64) -> Ends {
        match register {
            Name::C => h.ends(Name::C),
            Name::E => h.ends(Name::E),
            Name::D => start_ends(self.cells),
            Name::F => open_ends::<H>(),
            Name::R => joined_ends::<H>(self.ranges, self.cells, h, x, y),
        }
    }
}

/// Whether neither D nor F holds a cell yet, as far as the hull has them.
#[inline(always)]
fn is_begun<H: Packed>(h: H, cells: Op) -> bool
    requires registers { 6 ≤ H.count }
    ensures { result ≡ true → some_lanes (H.lanes h) ≡ true →
        IsBegun H.sides (is_wide H.count) cells (as_read H.sides (H.lanes h)) }
{
    !h.is_some()
        || h.ends(Name::D) == H::read(start_ends(cells)) && h.ends(Name::F) == open_ends::<H>()
}

/// Whether `others` holds, and neither D nor F holds a cell yet in a hull.
#[inline(always)]
fn with_begun<H: Packed>(others: bool, h: H, cells: Op) -> bool
    requires registers { 6 ≤ H.count }
    ensures others { result ≡ true → others ≡ true }
    ensures begun { result ≡ true → some_lanes (H.lanes h) ≡ true →
        IsBegun H.sides (is_wide H.count) cells (as_read H.sides (H.lanes h)) }
{
    others && is_begun(h, cells)
}

/// Whether neither D nor F holds a cell yet in any hull of a column.
#[inline(never)]
pub fn are_begun<H: Packed>(hulls: &[H], cells: Op) -> bool
    requires registers { 6 ≤ H.count }
    ensures { result ≡ true → (i : ℕ) → i < length hulls.now → some_lanes (H.lanes (get_or hulls.now i H.none)) ≡ true →
        IsBegun H.sides (is_wide H.count) cells (as_read H.sides (H.lanes (get_or hulls.now i H.none))) }
{
    let mut all = true;
    for i in 0..hulls.len() {
        all = with_begun::<H>(all, hull_of(hulls, i), cells);
    }
    all
}
