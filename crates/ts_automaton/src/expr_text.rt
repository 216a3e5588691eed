//! An expression as words: the operator before its operands, each word once.

ghost use Rattle.std.specs.Prelude.{◌≡◌, ◌++◌, true, false, Some, None, IfOk, OnOk, option_map};
ghost use Rattle.ts_base.specs.Words.{behind};
ghost use Rattle.ts_automaton.specs.Formula.{Leaf, formula};
ghost use Rattle.ts_automaton.specs.FormulaText.{atom_of, op_of, formula_words, stack_word, only_one, any_formula_of, formula_of, texts, stack_seen};

use crate::expr::{Atom, Expr, Operator};
use std::alloc::Global;
use ts_base::{Memory, Op};

/// The operand that a word is.
#[tactic(auto, unfolding(crate::specs::FormulaText::atom_of))]
fn atom_of(word: &[u8]) -> Option<Atom>
    ensures { result ≡ atom_of word.now }
{
    if word == b"C".as_slice() {
        Some(Atom::C)
    } else if word == b"E".as_slice() {
        Some(Atom::E)
    } else if word == b"D".as_slice() {
        Some(Atom::D)
    } else if word == b"F".as_slice() {
        Some(Atom::F)
    } else if word == b"R".as_slice() {
        Some(Atom::R)
    } else if word == b"x".as_slice() {
        Some(Atom::This)
    } else if word == b"y".as_slice() {
        Some(Atom::Next)
    } else if word == b"0".as_slice() {
        Some(Atom::Zero)
    } else if word == b"1".as_slice() {
        Some(Atom::Unit)
    } else if word == b"-inf".as_slice() {
        Some(Atom::NegInf)
    } else if word == b"+inf".as_slice() {
        Some(Atom::PosInf)
    } else {
        None
    }
}

/// The operator that a word is.
#[tactic(auto, unfolding(crate::specs::FormulaText::op_of))]
fn op_of(word: &[u8]) -> Option<Operator>
    ensures { result ≡ op_of word.now }
{
    if word == b"add".as_slice() {
        Some(Operator::Fold(Op::Add))
    } else if word == b"max".as_slice() {
        Some(Operator::Fold(Op::Max))
    } else if word == b"min".as_slice() {
        Some(Operator::Fold(Op::Min))
    } else if word == b"sub".as_slice() {
        Some(Operator::Sub)
    } else {
        None
    }
}

/// The expression that is this operand.
fn leaf(atom: Atom) -> Expr
    ensures { formula result ≡ Leaf atom }
{
    match atom {
        Atom::C => Expr::C,
        Atom::E => Expr::E,
        Atom::D => Expr::D,
        Atom::F => Expr::F,
        Atom::R => Expr::R,
        Atom::This => Expr::This,
        Atom::Next => Expr::Next,
        Atom::Zero => Expr::Zero,
        Atom::Unit => Expr::Unit,
        Atom::NegInf => Expr::NegInf,
        Atom::PosInf => Expr::PosInf,
    }
}

/// Puts the operand that the word is on the stack, or the operator's expression in place of the two upper ones. False
/// where the word is neither, or an operator finds no two.
fn stacked(alloc: Global, stack: &mut Vec<Expr>, word: &[u8]) -> Result<bool, Memory>
    ensures taken { IfOk result (λ b.
        b ≡ true → stack_word word.now (stack_seen stack.old.items) ≡ Some (stack_seen stack.new.items)) }
    ensures refused { IfOk result (λ b. b ≡ false → stack_word word.now (stack_seen stack.old.items) ≡ None) }
{
    match atom_of(word) {
        Some(atom) => {
            stack.push(leaf(atom))?;
            Ok(true)
        }
        None => match op_of(word) {
            Some(op) => match (stack.pop(), stack.pop()) {
                (Some(e), Some(f)) => {
                    stack.push(Expr::over(alloc, op, e, f)?)?;
                    Ok(true)
                }
                _ => Ok(false),
            },
            None => Ok(false),
        },
    }
}

/// The expression on the stack, if it is the only one.
fn only_one(mut stack: Vec<Expr>) -> Option<Expr>
    ensures { option_map formula result ≡ only_one (Some (stack_seen stack.items)) }
{
    match stack.pop() {
        Some(e) if stack.is_empty() => Some(e),
        _ => None,
    }
}

/// The expression that these words are, if they are one that an automaton of this width may have.
pub(crate) fn read_expr(alloc: Global, words: &[&[u8]], wide: bool) -> Result<Option<Expr>, Memory>
    ensures { IfOk result (λ e. option_map formula e ≡ formula_of wide (texts words.now)) }
{
    match read_any(alloc, words)? {
        None => Ok(None),
        Some(e) => { if e.is_of(wide) { Ok(Some(e)) } else { Ok(None) } }
    }
}

/// The expression that these words are, if they are one and at most 15. They are read from the last to the first.
fn read_any(alloc: Global, words: &[&[u8]]) -> Result<Option<Expr>, Memory>
    ensures { IfOk result (λ e. option_map formula e ≡ any_formula_of (texts words.now)) }
{
    if words.len() > 15 {
        return Ok(None);
    }
    let mut stack = Vec::new(alloc);
    let mut left = words.len();
    while left > 0 {
        left -= 1;
        if !stacked(alloc, &mut stack, words[left])? {
            return Ok(None);
        }
    }
    Ok(only_one(stack))
}

/// Appends the words of an expression to `text`, each with a space before it.
pub(crate) fn push_expr(text: &mut Vec<u8>, e: &Expr) -> Result<(), Memory>
    ensures { OnOk result (text.new.items ≡ text.old.items ++ behind (formula_words (formula e.now))) }
{
    match e {
        Expr::C => text.extend_from_slice(b" C")?,
        Expr::E => text.extend_from_slice(b" E")?,
        Expr::D => text.extend_from_slice(b" D")?,
        Expr::F => text.extend_from_slice(b" F")?,
        Expr::R => text.extend_from_slice(b" R")?,
        Expr::This => text.extend_from_slice(b" x")?,
        Expr::Next => text.extend_from_slice(b" y")?,
        Expr::Zero => text.extend_from_slice(b" 0")?,
        Expr::Unit => text.extend_from_slice(b" 1")?,
        Expr::NegInf => text.extend_from_slice(b" -inf")?,
        Expr::PosInf => text.extend_from_slice(b" +inf")?,
        Expr::Add(f, g) => {
            text.extend_from_slice(b" add")?;
            push_expr(text, f)?;
            push_expr(text, g)?;
        }
        Expr::Sub(f, g) => {
            text.extend_from_slice(b" sub")?;
            push_expr(text, f)?;
            push_expr(text, g)?;
        }
        Expr::Max(f, g) => {
            text.extend_from_slice(b" max")?;
            push_expr(text, f)?;
            push_expr(text, g)?;
        }
        Expr::Min(f, g) => {
            text.extend_from_slice(b" min")?;
            push_expr(text, f)?;
            push_expr(text, g)?;
        }
    }
    Ok(())
}
