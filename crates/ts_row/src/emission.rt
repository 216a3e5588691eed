//! Which moves are emissions: they join R with what is found of the cell and the next one, and reset D.

ghost use Rattle.std.specs.Prelude.{◌≡◌, IfSome, true};
ghost use Rattle.ts_automaton.specs.Body.{move_of};
ghost use Rattle.ts_automaton.specs.Formula.{Join, Leaf, formula};
ghost use Rattle.ts_automaton.specs.declared.expr.Atom.TheVariants.{C, R, This};
ghost use Rattle.ts_automaton.specs.declared.expr.Operator.TheVariants.{Fold};
ghost use Rattle.ts_base.specs.declared.op.Op.TheVariants.{Max};
ghost use Rattle.ts_row.specs.Plans.{AreOperatorsOf};
ghost use Rattle.ts_sweep.specs.PairMoves.{held_atom, open_atom, pair_cells, pair_found, start_atom};

use ts_automaton::{Atom, Expr, Op, Turn};

/// The operators of an emission: R takes in ranges by the one, a range its cells by the other.
#[derive(Clone, Copy)]
pub(crate) struct Operators {
    pub(crate) ranges: Op,
    pub(crate) cells: Op,
}

/// Whether an expression is a word.
fn is_word(e: &Expr, word: Atom) -> bool
    ensures { result ≡ true → formula e.now ≡ Leaf word }
{
    match (e, word) {
        (Expr::C, Atom::C) | (Expr::E, Atom::E) | (Expr::D, Atom::D) => true,
        (Expr::F, Atom::F) | (Expr::R, Atom::R) | (Expr::Zero, Atom::Zero) => true,
        (Expr::This, Atom::This) | (Expr::Next, Atom::Next) => true,
        (Expr::NegInf, Atom::NegInf) | (Expr::PosInf, Atom::PosInf) => true,
        _ => false,
    }
}

/// Whether an expression joins a register with the cell by an operator.
fn is_with_cell(e: &Expr, cells: Op, register: Atom) -> bool
    ensures { result ≡ true → formula e.now ≡ Join (Fold cells) (Leaf register) (Leaf This) }
{
    match (cells, e) {
        (Op::Add, Expr::Add(a, b)) | (Op::Max, Expr::Max(a, b)) | (Op::Min, Expr::Min(a, b)) => {
            is_word(a, register) && is_word(b, Atom::This)
        }
        _ => false,
    }
}

/// Whether an expression joins a register with the cell and the next one by an operator.
fn is_pair(e: &Expr, cells: Op, register: Atom) -> bool
    ensures { result ≡ true → formula e.now ≡ pair_cells cells register }
{
    match (cells, e) {
        (Op::Add, Expr::Add(a, b)) | (Op::Max, Expr::Max(a, b)) | (Op::Min, Expr::Min(a, b)) => {
            is_with_cell(a, cells, register) && is_word(b, Atom::Next)
        }
        _ => false,
    }
}

/// Whether an expression is what D, the cell and the next one give.
fn is_pair_found(e: &Expr, wide: bool, cells: Op) -> bool
    ensures value { result ≡ true → formula e.now ≡ pair_found wide cells }
    ensures greatest { result ≡ true → wide ≡ true → cells ≡ Max }
{
    match (e, cells) {
        (Expr::Sub(a, b), Op::Max) => wide
            && is_pair(a, Op::Max, Atom::D)
            && is_pair(b, Op::Min, Atom::F),
        _ => !wide && is_pair(e, cells, Atom::D),
    }
}

/// Whether two expressions are R, and what D, the cell and the next one give.
fn is_taken(a: &Expr, b: &Expr, wide: bool, cells: Op) -> bool
    ensures value { result ≡ true → (formula a.now ≡ Leaf R) × (formula b.now ≡ pair_found wide cells) }
    ensures greatest { result ≡ true → wide ≡ true → cells ≡ Max }
{
    is_word(a, Atom::R) && is_pair_found(b, wide, cells)
}

/// The operator by which an expression joins R with what D, the cell and the next one give.
fn ranges_of(e: &Expr, wide: bool, cells: Op) -> Option<Op>
    ensures { IfSome result (λ o. (formula e.now ≡ Join (Fold o) (Leaf R) (pair_found wide cells))
        × (wide ≡ true → cells ≡ Max)) }
{
    match e {
        Expr::Add(a, b) if is_taken(a, b, wide, cells) => Some(Op::Add),
        Expr::Max(a, b) if is_taken(a, b, wide, cells) => Some(Op::Max),
        Expr::Min(a, b) if is_taken(a, b, wide, cells) => Some(Op::Min),
        _ => None,
    }
}

/// Whether the expressions of a move but that of R are those of an emission.
fn is_reset(t: &Turn, wide: bool, cells: Op) -> bool
    ensures { result ≡ true → (formula t.now.c ≡ Leaf C) × (formula t.now.e ≡ Leaf (held_atom wide))
        × (formula t.now.d ≡ Leaf (start_atom cells)) × (formula t.now.f ≡ Leaf (open_atom wide)) }
{
    let start = match cells {
        Op::Add => Atom::Zero,
        Op::Max => Atom::NegInf,
        Op::Min => Atom::PosInf,
    };
    let held = if wide { Atom::E } else { Atom::Zero };
    let open = if wide { Atom::PosInf } else { Atom::Zero };
    is_word(&t.c, Atom::C) && is_word(&t.e, held) && is_word(&t.d, start) && is_word(&t.f, open)
}

/// The operator by which a move takes in cells where it makes this of D.
fn cells_of(d: &Expr) -> Option<Op> {
    match d {
        Expr::Zero => Some(Op::Add),
        Expr::NegInf => Some(Op::Max),
        Expr::PosInf => Some(Op::Min),
        _ => None,
    }
}

/// The operators of the emission that a move is, if it is one.
pub(crate) fn emission_of(t: &Turn, wide: bool) -> Option<Operators>
    ensures { IfSome result (AreOperatorsOf wide (move_of t.now)) }
{
    let cells = cells_of(&t.d)?;
    let ranges = ranges_of(&t.r, wide, cells)?;
    if is_reset(t, wide, cells) {
        Some(Operators { ranges, cells })
    } else {
        None
    }
}
