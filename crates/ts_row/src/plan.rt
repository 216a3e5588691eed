//! The plan of an automaton: how each of its moves is taken in.
//!
//! The moves of decorated machines have few shapes. Each fold of cells, as of the widths or of the values of a range,
//! has its own operator and words, so the compiler makes a sweep for each shape that decides nothing. A move on `=` is
//! between equal values, so the next cell is read as the cell in it, and no such move goes over pairs of values.

ghost use Rattle.std.specs.Prelude.{◌≡◌, ◌<◌, false, length, true};
ghost use Rattle.ts_automaton.specs.Body.{move_of, move_on, node_of};
ghost use Rattle.ts_automaton.specs.Formula.{Join, Leaf, is_zero};
ghost use Rattle.ts_automaton.specs.Registers.{rests};
ghost use Rattle.ts_automaton.specs.declared.expr.Atom.TheVariants.{R};
ghost use Rattle.ts_automaton.specs.declared.expr.Operator.TheVariants.{Fold};
ghost use Rattle.ts_hull.specs.Cuts.{cut_of};
ghost use Rattle.ts_hull.specs.Sealed.{move_at};
ghost use Rattle.ts_row.specs.declared.plan.Equals.TheVariants.{WithGreater, WithLess};
ghost use Rattle.ts_sweep.specs.Fronts.{IsNarrowMove};
ghost use Rattle.ts_sweep.specs.Here.{here_move};
ghost use Rattle.ts_row.specs.Plans.{
  IsMovePlan,
  IsPlanOf,
  IsShapeOf,
  IsStatePlan,
  cell_op,
  cell_start,
  cell_word,
  less_of,
  made_by,
  range_op,
  range_start,
  read,
  result_by,
  words_formula,
};

use crate::emission::{Operators, emission_of};
use crate::words::{Words, is_same_turn, is_words, words_of};
use ts_automaton::{Atom, Automaton, Expr, Op, State, Turn};
use ts_base::Letter;
use ts_sweep::swept::Readings;

/// What the cells of a range are folded to: 1, their number, their sum, their greatest or their least value.
#[derive(Clone, Copy)]
pub(crate) enum CellFold {
    Ones,
    Width,
    Surf,
    Greatest,
    Least,
}

/// What ranges are folded to: their sum, or the highest or lowest.
#[derive(Clone, Copy)]
pub(crate) enum RangeFold {
    Sum,
    Highest,
    Lowest,
}

/// What a move makes of the registers: `Kept` changes nothing; in `Longer` D takes in the cell; in `Begun` D is reset;
/// in `Found` C is made of D and the cell, in `Inside` of C, D and the cell, and D is reset; in `Ended` R takes in D
/// and the cell, and D is reset; in `Anew` R takes in C, and C and D are reset; `FoundTwice` and `EndedTwice` are
/// `Found` and `Ended` with the worth of two cells; `LongerNext` and `InsideNext` are `Longer` and `Inside` with the
/// next cell in place of the cell, and `FoundNext` is `Found` with both. `Other` is anything else.
#[derive(Clone, Copy)]
pub(crate) enum Shape {
    Kept,
    Longer(CellFold),
    Begun(CellFold),
    Found(CellFold),
    Inside(CellFold),
    Ended(RangeFold, CellFold),
    Anew(RangeFold, CellFold),
    FoundTwice(CellFold),
    EndedTwice(RangeFold, CellFold),
    LongerNext(CellFold),
    FoundNext(CellFold),
    InsideNext(CellFold),
    Other,
}

/// Where the move on `=` is taken in: alone, or with the one on `<` or on `>`, which is the same.
#[derive(Clone, Copy)]
pub(crate) enum Equals {
    Alone,
    WithLess,
    WithGreater,
}

/// How a move is taken in: its shape; where that is any other, how its expressions read the next cell, if it can be
/// swept; and where no sweep serves, its operators, if it is an emission.
#[derive(Clone, Copy)]
pub(crate) struct MovePlan {
    pub(crate) shape: Shape,
    pub(crate) readings: Option<Readings>,
    pub(crate) operators: Option<Operators>,
}

/// How the moves of a state are taken in, and whether any of them adds: sums alone ask how large the numbers of hulls
/// are.
#[derive(Clone, Copy)]
pub(crate) struct StatePlan {
    pub(crate) less: MovePlan,
    pub(crate) equal: MovePlan,
    pub(crate) greater: MovePlan,
    pub(crate) equals: Equals,
    pub(crate) adds: bool,
}

/// How the moves of an automaton are taken in.
#[derive(Clone, Copy)]
pub struct Plan {
    pub(crate) states: [StatePlan; 8],
}

/// The fold of cells with an operator and a word.
fn fold_of(o: Op, word: Atom) -> Option<CellFold> {
    match (o, word) {
        (Op::Max, Atom::Unit) => Some(CellFold::Ones),
        (Op::Add, Atom::Unit) => Some(CellFold::Width),
        (Op::Add, Atom::This) => Some(CellFold::Surf),
        (Op::Max, Atom::This) => Some(CellFold::Greatest),
        (Op::Min, Atom::This) => Some(CellFold::Least),
        _ => None,
    }
}

/// A fold of cells that begins with a word.
fn fold_from(start: Atom) -> Option<CellFold> {
    match start {
        Atom::Unit => Some(CellFold::Ones),
        Atom::Zero => Some(CellFold::Width),
        Atom::NegInf => Some(CellFold::Greatest),
        Atom::PosInf => Some(CellFold::Least),
        _ => None,
    }
}

/// The fold of ranges with an operator.
fn range_of(o: Op) -> RangeFold {
    match o {
        Op::Add => RangeFold::Sum,
        Op::Max => RangeFold::Highest,
        Op::Min => RangeFold::Lowest,
    }
}

/// The operator of a fold of cells.
fn op_of(f: CellFold) -> Op
    ensures { result ≡ cell_op f }
{
    match f {
        CellFold::Width | CellFold::Surf => Op::Add,
        CellFold::Ones | CellFold::Greatest => Op::Max,
        CellFold::Least => Op::Min,
    }
}

/// What a cell is worth in a fold of cells, as a word.
fn worth_of(f: CellFold) -> Atom
    ensures { cell_word f ≡ Leaf result }
{
    match f {
        CellFold::Ones | CellFold::Width => Atom::Unit,
        CellFold::Surf | CellFold::Greatest | CellFold::Least => Atom::This,
    }
}

/// The word that a fold of cells begins with.
fn start_of(f: CellFold) -> Atom
    ensures { cell_start f ≡ Leaf result }
{
    match f {
        CellFold::Ones => Atom::Unit,
        CellFold::Width | CellFold::Surf => Atom::Zero,
        CellFold::Greatest => Atom::NegInf,
        CellFold::Least => Atom::PosInf,
    }
}

/// The word that a fold of ranges begins with.
fn range_start_of(g: RangeFold) -> Atom
    ensures { range_start g ≡ Leaf result }
{
    match g {
        RangeFold::Sum => Atom::Zero,
        RangeFold::Highest => Atom::NegInf,
        RangeFold::Lowest => Atom::PosInf,
    }
}

/// The words of C and of E in a move of a shape: E changes as C does, by the lesser.
fn held_words(s: Shape) -> (Words, Words)
    ensures c { words_formula result.0 ≡ (made_by s).0 }
    ensures e { words_formula result.1 ≡ (made_by s).1 }
{
    match s {
        Shape::Found(f) => (
            Words::Two(op_of(f), Atom::D, worth_of(f)),
            Words::Two(Op::Min, Atom::F, Atom::This),
        ),
        Shape::Inside(f) => (
            Words::Three(op_of(f), Atom::C, op_of(f), Atom::D, worth_of(f)),
            Words::Three(Op::Min, Atom::E, Op::Min, Atom::F, Atom::This),
        ),
        Shape::Anew(g, _) => (Words::Word(range_start_of(g)), Words::Word(Atom::Zero)),
        Shape::FoundTwice(f) => (
            Words::Again(op_of(f), Atom::D, worth_of(f), worth_of(f)),
            Words::Again(Op::Min, Atom::F, Atom::This, Atom::This),
        ),
        Shape::FoundNext(f) => (
            Words::Again(op_of(f), Atom::D, worth_of(f), Atom::Next),
            Words::Again(Op::Min, Atom::F, Atom::This, Atom::Next),
        ),
        Shape::InsideNext(f) => (
            Words::Three(op_of(f), Atom::C, op_of(f), Atom::D, Atom::Next),
            Words::Three(Op::Min, Atom::E, Op::Min, Atom::F, Atom::Next),
        ),
        _ => (Words::Word(Atom::C), Words::Word(Atom::E)),
    }
}

/// The words of D and of F in a move of a shape: F changes as D does, by the lesser.
fn open_words(s: Shape) -> (Words, Words)
    ensures d { words_formula result.0 ≡ (made_by s).2 }
    ensures f { words_formula result.1 ≡ (made_by s).3 }
{
    match s {
        Shape::Longer(f) => (
            Words::Two(op_of(f), Atom::D, worth_of(f)),
            Words::Two(Op::Min, Atom::F, Atom::This),
        ),
        Shape::LongerNext(f) => (
            Words::Two(op_of(f), Atom::D, Atom::Next),
            Words::Two(Op::Min, Atom::F, Atom::Next),
        ),
        Shape::Begun(f)
        | Shape::Found(f)
        | Shape::Inside(f)
        | Shape::Ended(_, f)
        | Shape::Anew(_, f)
        | Shape::FoundTwice(f)
        | Shape::EndedTwice(_, f)
        | Shape::FoundNext(f)
        | Shape::InsideNext(f) => (Words::Word(start_of(f)), Words::Word(Atom::PosInf)),
        Shape::Kept | Shape::Other => (Words::Word(Atom::D), Words::Word(Atom::F)),
    }
}

/// Whether an expression is what a move of a shape makes of C, in a wide automaton less what it makes of E.
fn is_taken(e: &Expr, s: Shape, wide: bool, equal: bool) -> bool
    ensures { result ≡ true → read equal e.now ≡ less_of wide (made_by s).0 (made_by s).1 }
{
    let (held, low) = held_words(s);
    match e {
        Expr::Sub(a, b) => wide && is_words(a, held, equal) && is_words(b, low, equal),
        _ => !wide && is_words(e, held, equal),
    }
}

/// Whether an expression joins R by a fold of ranges with what a move of a shape makes of C, less that of E.
fn is_joined(e: &Expr, g: RangeFold, s: Shape, wide: bool, equal: bool) -> bool
    ensures { result ≡ true → read equal e.now
        ≡ Join (Fold (range_op g)) (Leaf R) (less_of wide (made_by s).0 (made_by s).1) }
{
    let r = Words::Word(Atom::R);
    match (g, e) {
        (RangeFold::Sum, Expr::Add(a, b)) => {
            is_words(a, r, equal) && is_taken(b, s, wide, equal)
        }
        (RangeFold::Highest, Expr::Max(a, b)) => {
            is_words(a, r, equal) && is_taken(b, s, wide, equal)
        }
        (RangeFold::Lowest, Expr::Min(a, b)) => {
            is_words(a, r, equal) && is_taken(b, s, wide, equal)
        }
        _ => false,
    }
}

/// Whether an expression is that of R in a move of a shape. What is found is what another shape makes of C.
fn is_result(e: &Expr, s: Shape, wide: bool, equal: bool) -> bool
    ensures { result ≡ true → read equal e.now ≡ result_by wide s }
{
    match s {
        Shape::Ended(g, f) => is_joined(e, g, Shape::Found(f), wide, equal),
        Shape::Anew(g, _) => is_joined(e, g, Shape::Kept, wide, equal),
        Shape::EndedTwice(g, f) => is_joined(e, g, Shape::FoundTwice(f), wide, equal),
        _ => is_words(e, Words::Word(Atom::R), equal),
    }
}

/// Whether the expressions of E and F in a move are those of the words. A narrow automaton has neither.
fn are_low(t: &Turn, e: Words, f: Words, wide: bool, equal: bool) -> bool
    ensures { result ≡ true → wide ≡ true →
        (read equal t.now.e ≡ words_formula e) × (read equal t.now.f ≡ words_formula f) }
{
    !wide || is_words(&t.e, e, equal) && is_words(&t.f, f, equal)
}

/// Whether a move of an automaton of a width has a shape.
fn is_shape(t: &Turn, s: Shape, wide: bool, equal: bool) -> bool
    requires { rests is_zero wide (here_move equal (move_of t.now)).to ≡ true }
    ensures { result ≡ true → IsShapeOf wide s (cut_of (here_move equal (move_of t.now))) }
{
    let (c, e) = held_words(s);
    let (d, f) = open_words(s);
    is_words(&t.c, c, equal)
        & is_words(&t.d, d, equal)
        & is_result(&t.r, s, wide, equal)
        & are_low(t, e, f, wide, equal)
}

/// The only shape that a move may have that keeps R, by its words of C and D.
fn kept_shape(c: Words, d: Words) -> Option<Shape> {
    match (c, d) {
        (Words::Word(_), Words::Word(Atom::D)) => Some(Shape::Kept),
        (Words::Word(_), Words::Word(w)) => Some(Shape::Begun(fold_from(w)?)),
        (Words::Word(_), Words::Two(o, _, Atom::Next)) => {
            Some(Shape::LongerNext(fold_of(o, Atom::This)?))
        }
        (Words::Word(_), Words::Two(o, _, w)) => Some(Shape::Longer(fold_of(o, w)?)),
        (Words::Two(o, _, w), _) => Some(Shape::Found(fold_of(o, w)?)),
        (Words::Three(o, _, _, _, Atom::Next), _) => {
            Some(Shape::InsideNext(fold_of(o, Atom::This)?))
        }
        (Words::Three(o, _, _, _, w), _) => Some(Shape::Inside(fold_of(o, w)?)),
        (Words::Again(o, _, _, Atom::Next), _) => {
            Some(Shape::FoundNext(fold_of(o, Atom::This)?))
        }
        (Words::Again(o, _, _, w), _) => Some(Shape::FoundTwice(fold_of(o, w)?)),
        _ => None,
    }
}

/// The only shape that a move may have that joins R with something, by the words of that and of D.
fn joined_shape(o: Op, taken: Words, d: Words) -> Option<Shape> {
    let g = range_of(o);
    match (taken, d) {
        (Words::Word(_), Words::Word(w)) => Some(Shape::Anew(g, fold_from(w)?)),
        (Words::Two(p, _, w), _) => Some(Shape::Ended(g, fold_of(p, w)?)),
        (Words::Again(p, _, _, w), _) => Some(Shape::EndedTwice(g, fold_of(p, w)?)),
        _ => None,
    }
}

/// The words of an expression, or of what another is taken from.
fn first_words(e: &Expr, equal: bool) -> Option<Words> {
    match e {
        Expr::Sub(a, _) => words_of(a, equal),
        _ => words_of(e, equal),
    }
}

/// The only shape that a move may have.
fn only_shape(t: &Turn, equal: bool) -> Option<Shape> {
    let c = words_of(&t.c, equal)?;
    let d = words_of(&t.d, equal)?;
    match &t.r {
        Expr::Add(_, taken) => joined_shape(Op::Add, first_words(taken, equal)?, d),
        Expr::Max(_, taken) => joined_shape(Op::Max, first_words(taken, equal)?, d),
        Expr::Min(_, taken) => joined_shape(Op::Min, first_words(taken, equal)?, d),
        _ => kept_shape(c, d),
    }
}

impl Shape {
    /// The shape of a move of an automaton of a width, as it is read on `=` or else on another letter.
    fn of(t: &Turn, wide: bool, equal: bool) -> Shape
        requires { rests is_zero wide (move_of t.now).to ≡ true }
        ensures { IsShapeOf wide result (cut_of (here_move equal (move_of t.now))) }
    {
        match only_shape(t, equal) {
            Some(s) if is_shape(t, s, wide, equal) => s,
            _ => Shape::Other,
        }
    }
}

impl MovePlan {
    /// The plan of a move of an automaton of a width, on `=` or else on another letter.
    fn of(t: &Turn, wide: bool, equal: bool) -> MovePlan
        requires { rests is_zero wide (move_of t.now).to ≡ true }
        ensures { IsMovePlan wide result equal (move_of t.now) }
    {
        MovePlan {
            shape: Shape::of(t, wide, equal),
            readings: Readings::of(t),
            operators: emission_of(t, wide),
        }
    }
}

/// The move on a letter.
fn turn_on(state: &State, l: Letter) -> &Turn
    ensures { move_of result.now ≡ move_on l (node_of state.now) }
{
    match l {
        Letter::Less => &state.less,
        Letter::Equal => &state.equal,
        Letter::Greater => &state.greater,
    }
}

/// The move of a state on a letter.
pub(crate) fn turn(a: &Automaton, q: u8, l: Letter) -> &Turn
    requires { q < length a.now.states }
    ensures value { move_of result.now ≡ move_at a.now q l }
    ensures exists { result.now.next < length a.now.states }
    ensures rests { rests is_zero a.now.wide (move_of result.now).to ≡ true }
    ensures narrow { a.now.wide ≡ false → IsNarrowMove (move_of result.now) }
{
    turn_on(a.state(q), l)
}

/// Whether the move on `=` is the same as the one on `<` or on `>`, and so is taken in with it.
fn equals_of(less: &Turn, equal: &Turn, greater: &Turn) -> Equals
    ensures less { result ≡ WithLess → move_of equal.now ≡ move_of less.now }
    ensures greater { result ≡ WithGreater → move_of equal.now ≡ move_of greater.now }
{
    if is_same_turn(equal, less) {
        Equals::WithLess
    } else if is_same_turn(equal, greater) {
        Equals::WithGreater
    } else {
        Equals::Alone
    }
}

/// Whether a sum or a difference stands in an expression.
fn has_sum(e: &Expr) -> bool {
    match e {
        Expr::Add(_, _) | Expr::Sub(_, _) => true,
        Expr::Max(a, b) | Expr::Min(a, b) => has_sum(a) || has_sum(b),
        _ => false,
    }
}

/// Whether a move adds.
fn adds(t: &Turn) -> bool {
    has_sum(&t.c) || has_sum(&t.e) || has_sum(&t.d) || has_sum(&t.f) || has_sum(&t.r)
}

impl StatePlan {
    /// The plan of a state.
    fn of(a: &Automaton, q: u8) -> StatePlan
        requires { q < length a.now.states }
        ensures { IsStatePlan a.now q result }
    {
        let less = turn(a, q, Letter::Less);
        let equal = turn(a, q, Letter::Equal);
        let greater = turn(a, q, Letter::Greater);
        let equals = equals_of(less, equal, greater);
        StatePlan {
            less: MovePlan::of(less, a.wide(), false),
            equal: MovePlan::of(equal, a.wide(), true),
            greater: MovePlan::of(greater, a.wide(), false),
            equals,
            adds: adds(less) || adds(equal) || adds(greater),
        }
    }
}

impl Plan {
    /// The plan of an automaton. It takes no memory.
    pub fn of(a: &Automaton) -> Plan
        ensures { IsPlanOf a.now result }
    {
        let unplanned = MovePlan {
            shape: Shape::Other,
            readings: None,
            operators: None,
        };
        let rest = StatePlan {
            less: unplanned,
            equal: unplanned,
            greater: unplanned,
            equals: Equals::Alone,
            adds: true,
        };
        let mut states = [rest; 8];
        for q in 0..a.states() {
            states[q as usize] = StatePlan::of(a, q);
        }
        Plan { states }
    }
}
