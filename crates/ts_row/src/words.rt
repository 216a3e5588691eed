//! Expressions of few words, and which two moves are the same.

ghost use Rattle.std.specs.Prelude.{◌≡◌, IfSome, true};
ghost use Rattle.ts_automaton.specs.Body.{move_of};
ghost use Rattle.ts_automaton.specs.Formula.{Join, Leaf, formula};
ghost use Rattle.ts_automaton.specs.declared.expr.Operator.TheVariants.{Fold};
ghost use Rattle.ts_row.specs.Plans.{read, words_formula};

use ts_automaton::{Atom, Expr, Op, Turn};

/// One word, an operator over two words, one over a word and two more, or one over two words and again over a third.
#[derive(Clone, Copy)]
pub(crate) enum Words {
    Word(Atom),
    Two(Op, Atom, Atom),
    Three(Op, Atom, Op, Atom, Atom),
    Again(Op, Atom, Atom, Atom),
}

/// The word that an expression is. Between equal values the next cell is read as the cell.
fn word_of(e: &Expr, equal: bool) -> Option<Atom>
    ensures { IfSome result (λ a. read equal e.now ≡ Leaf a) }
{
    match e {
        Expr::C => Some(Atom::C),
        Expr::E => Some(Atom::E),
        Expr::D => Some(Atom::D),
        Expr::F => Some(Atom::F),
        Expr::R => Some(Atom::R),
        Expr::This => Some(Atom::This),
        Expr::Next => Some(if equal { Atom::This } else { Atom::Next }),
        Expr::Zero => Some(Atom::Zero),
        Expr::Unit => Some(Atom::Unit),
        Expr::NegInf => Some(Atom::NegInf),
        Expr::PosInf => Some(Atom::PosInf),
        _ => None,
    }
}

/// The operator and the two words that an expression is, if it has two words and is no difference.
fn two_of(e: &Expr, equal: bool) -> Option<(Op, Atom, Atom)>
    ensures { IfSome result (λ p. read equal e.now ≡ Join (Fold p.0) (Leaf p.1) (Leaf p.2)) }
{
    match e {
        Expr::Add(a, b) => Some((Op::Add, word_of(a, equal)?, word_of(b, equal)?)),
        Expr::Max(a, b) => Some((Op::Max, word_of(a, equal)?, word_of(b, equal)?)),
        Expr::Min(a, b) => Some((Op::Min, word_of(a, equal)?, word_of(b, equal)?)),
        _ => None,
    }
}

/// The words of an operator over a word and one or two more.
fn words_after(o: Op, first: Atom, e: &Expr, equal: bool) -> Option<Words>
    ensures { IfSome result (λ p. Join (Fold o) (Leaf first) (read equal e.now) ≡ words_formula p) }
{
    match word_of(e, equal) {
        Some(second) => Some(Words::Two(o, first, second)),
        None => {
            let (p, second, third) = two_of(e, equal)?;
            Some(Words::Three(o, first, p, second, third))
        }
    }
}

/// The words of an operator over an expression and a word, if it joins two words in the expression too.
fn words_before(o: Op, e: &Expr, third: Atom, equal: bool) -> Option<Words>
    ensures { IfSome result (λ p. Join (Fold o) (read equal e.now) (Leaf third) ≡ words_formula p) }
{
    let (p, first, second) = two_of(e, equal)?;
    if p == o {
        Some(Words::Again(o, first, second, third))
    } else {
        None
    }
}

/// The words of an operator over two expressions, if they are few.
fn joined_words(o: Op, a: &Expr, b: &Expr, equal: bool) -> Option<Words>
    ensures { IfSome result (λ p. Join (Fold o) (read equal a.now) (read equal b.now)
        ≡ words_formula p) }
{
    match word_of(a, equal) {
        Some(first) => words_after(o, first, b, equal),
        None => words_before(o, a, word_of(b, equal)?, equal),
    }
}

/// The words of an expression that has few.
pub(crate) fn words_of(e: &Expr, equal: bool) -> Option<Words>
    ensures { IfSome result (λ p. read equal e.now ≡ words_formula p) }
{
    match e {
        Expr::Add(a, b) => joined_words(Op::Add, a, b, equal),
        Expr::Max(a, b) => joined_words(Op::Max, a, b, equal),
        Expr::Min(a, b) => joined_words(Op::Min, a, b, equal),
        _ => Some(Words::Word(word_of(e, equal)?)),
    }
}

/// Whether two operators are the same.
fn is_op(o: Op, p: Op) -> bool
    ensures { result ≡ true → o ≡ p }
{
    o == p
}

/// Whether two words are the same.
fn is_atom(a: Atom, b: Atom) -> bool
    ensures { result ≡ true → a ≡ b }
{
    a == b
}

/// Whether words are the same.
fn are_equal(v: Words, w: Words) -> bool
    ensures { result ≡ true → v ≡ w }
{
    match (v, w) {
        (Words::Word(a), Words::Word(d)) => is_atom(a, d),
        (Words::Two(o, a, b), Words::Two(q, d, e)) => {
            is_op(o, q) && is_atom(a, d) && is_atom(b, e)
        }
        (Words::Three(o, a, p, b, c), Words::Three(q, d, r, e, f)) => {
            is_op(o, q) && is_atom(a, d) && is_op(p, r) && is_atom(b, e) && is_atom(c, f)
        }
        (Words::Again(o, a, b, c), Words::Again(q, d, e, f)) => {
            is_op(o, q) && is_atom(a, d) && is_atom(b, e) && is_atom(c, f)
        }
        _ => false,
    }
}

/// Whether an expression is that of the words.
pub(crate) fn is_words(e: &Expr, w: Words, equal: bool) -> bool
    ensures { result ≡ true → read equal e.now ≡ words_formula w }
{
    match words_of(e, equal) {
        Some(v) => are_equal(v, w),
        None => false,
    }
}

/// Whether two expressions are the same.
fn is_same(e: &Expr, f: &Expr) -> bool
    ensures { result ≡ true → formula e.now ≡ formula f.now }
{
    match (e, f) {
        (Expr::Add(a, b), Expr::Add(c, d)) => is_same(a, c) && is_same(b, d),
        (Expr::Sub(a, b), Expr::Sub(c, d)) => is_same(a, c) && is_same(b, d),
        (Expr::Max(a, b), Expr::Max(c, d)) => is_same(a, c) && is_same(b, d),
        (Expr::Min(a, b), Expr::Min(c, d)) => is_same(a, c) && is_same(b, d),
        (Expr::C, Expr::C) | (Expr::E, Expr::E) | (Expr::D, Expr::D) => true,
        (Expr::F, Expr::F) | (Expr::R, Expr::R) => true,
        (Expr::This, Expr::This) | (Expr::Next, Expr::Next) => true,
        (Expr::Zero, Expr::Zero) | (Expr::Unit, Expr::Unit) => true,
        (Expr::NegInf, Expr::NegInf) | (Expr::PosInf, Expr::PosInf) => true,
        _ => false,
    }
}

/// Whether all expressions of two moves are the same.
fn are_same(t: &Turn, u: &Turn) -> bool
    ensures { result ≡ true → (move_of t.now).to ≡ (move_of u.now).to }
{
    is_same(&t.c, &u.c)
        && is_same(&t.e, &u.e)
        && is_same(&t.d, &u.d)
        && is_same(&t.f, &u.f)
        && is_same(&t.r, &u.r)
}

/// Whether two moves lead to the same state by the same expressions.
pub(crate) fn is_same_turn(t: &Turn, u: &Turn) -> bool
    ensures { result ≡ true → move_of t.now ≡ move_of u.now }
{
    t.next == u.next && are_same(t, u)
}
