//! Expressions over the registers and two neighbouring cells.

ghost use Rattle.std.specs.Prelude.{◌≡◌, IfOk};
ghost use Rattle.ts_automaton.specs.Formula.{Join, Leaf, constant_atom, formula, is_narrow, is_of};

use std::alloc::Global;
use ts_base::{Constant, Memory, Op};

/// The registers, the cell read (`This`) and the next one, constants, and operators over two expressions. E, F and
/// `Sub` stand in wide automata alone.
#[derive(Debug, PartialEq, Eq, Drop)]
pub enum Expr {
    C,
    E,
    D,
    F,
    R,
    This,
    Next,
    Zero,
    Unit,
    NegInf,
    PosInf,
    Add(Box<Expr>, Box<Expr>),
    Sub(Box<Expr>, Box<Expr>),
    Max(Box<Expr>, Box<Expr>),
    Min(Box<Expr>, Box<Expr>),
}

/// An expression of one word.
#[derive(Clone, Copy, Debug, PartialEq, Eq)]
pub enum Atom {
    C,
    E,
    D,
    F,
    R,
    This,
    Next,
    Zero,
    Unit,
    NegInf,
    PosInf,
}

/// An operator of expressions: one that folds numbers, or the first less the second.
#[derive(Clone, Copy, Debug, PartialEq, Eq)]
pub enum Operator {
    Fold(Op),
    Sub,
}

impl Expr {
    /// The expression of a constant.
    pub fn constant(constant: Constant) -> Expr
        ensures { formula result ≡ Leaf (constant_atom constant) }
    {
        match constant {
            Constant::Zero => Expr::Zero,
            Constant::Unit => Expr::Unit,
            Constant::NegInf => Expr::NegInf,
            Constant::PosInf => Expr::PosInf,
        }
    }

    /// The expression of an operator over two.
    pub fn over(alloc: Global, operator: Operator, left: Expr, right: Expr) -> Result<Expr, Memory>
        ensures { IfOk result (λ e. formula e ≡ Join operator (formula left) (formula right)) }
    {
        let first = Box::new(alloc, left)?;
        let second = Box::new(alloc, right)?;
        match operator {
            Operator::Fold(Op::Add) => Ok(Expr::Add(first, second)),
            Operator::Fold(Op::Max) => Ok(Expr::Max(first, second)),
            Operator::Fold(Op::Min) => Ok(Expr::Min(first, second)),
            Operator::Sub => Ok(Expr::Sub(first, second)),
        }
    }

    /// Whether it may stand in an automaton of this width.
    pub(crate) fn is_of(&self, wide: bool) -> bool
        ensures { result ≡ is_of wide (formula self.now) }
    {
        wide || self.is_narrow()
    }

    /// Whether neither E nor F nor a difference stands in it.
    fn is_narrow(&self) -> bool
        ensures { result ≡ is_narrow (formula self.now) }
    {
        match self {
            Expr::E | Expr::F | Expr::Sub(_, _) => false,
            Expr::Add(a, b) | Expr::Max(a, b) | Expr::Min(a, b) => a.is_narrow() && b.is_narrow(),
            _ => true,
        }
    }
}
