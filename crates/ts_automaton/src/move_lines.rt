//! What the words of a move or finish line say.

ghost use Rattle.std.specs.Prelude.{◌≡◌, ◌<◌, ◌≤◌, ◌==◌, ◌/◌, ◌%◌, length, Some, None, IfOk, MatchOption, option_map};
ghost use Rattle.std.specs.List.{position};
ghost use Rattle.ts_automaton.specs.declared.expr.Atom.TheVariants.{Zero as ZeroAtom};
ghost use Rattle.ts_automaton.specs.Formula.{Leaf, formula};
ghost use Rattle.ts_automaton.specs.Registers.{each};
ghost use Rattle.ts_automaton.specs.FormulaText.{formula_of, texts};
ghost use Rattle.ts_automaton.specs.Body.{move_of};
ghost use Rattle.ts_automaton.specs.AutomatonText.{sign_word};
ghost use Rattle.ts_automaton.specs.Lines.{place_of, is_move_head, all_five, move_made, cut_extra, pieces_of, formulas_of, extra, read_move};
ghost use Rattle.ts_automaton.specs.Lines.{mark_of, expression_and_mark, read_finish};

use crate::draft::StateLine;
use crate::expr::Expr;
use crate::expr_text::read_expr;
use crate::line_words::{cut_at_semi, is_semi, word_at, word_count, words_from, words_up_to};
use crate::lines::{name_at, only_byte};
use crate::state::{Mark, Turn};
use std::alloc::Global;
use ts_base::Memory;

/// The sign of the first, the second and the third move of a state.
pub(crate) fn sign_word(k: usize) -> &'static [u8]
    ensures { result.now ≡ sign_word k }
{
    if k == 0 {
        b"<"
    } else if k == 1 {
        b"="
    } else {
        b">"
    }
}

/// The place of the state with a letter.
fn place_at(states: &[StateLine], b: u8) -> Option<usize>
    ensures { result ≡ position (λ n. n.name == b) states.now }
{
    states.iter().position(|n| n.name == b)
}

/// The place of the state that a word names.
fn place_of(states: &[StateLine], word: &[u8]) -> Option<usize>
    ensures { result ≡ place_of states.now word.now }
{
    match only_byte(word) {
        None => None,
        Some(b) => place_at(states, b),
    }
}

/// The words begin move `k` of these states; the word of its target isn't looked at.
fn is_move_head(states: &[StateLine], k: usize, words: &[&[u8]]) -> bool
    requires { 5 ≤ length (texts words.now) }
    ensures { result ≡ is_move_head states.now k (texts words.now) }
{
    let from = [name_at(states, k / 3)];
    word_at(words, 0) == b"move".as_slice()
        && word_at(words, 1) == from.as_slice()
        && word_at(words, 2) == sign_word(k % 3)
        && is_semi(word_at(words, 4))
}

/// The words of the expression for each register, by `;` between them. There are none for E and F in a narrow block.
#[derive(Clone, Copy)]
struct Pieces<'t, 'a> {
    c: &'t [&'a [u8]],
    e: &'t [&'a [u8]],
    d: &'t [&'a [u8]],
    f: &'t [&'a [u8]],
    r: &'t [&'a [u8]],
}

/// The words of the expression for E or F, and those after its `;`; none in a narrow block.
fn cut_extra<'t, 'a>(words: &'t [&'a [u8]], wide: bool) -> Option<(&'t [&'a [u8]], &'t [&'a [u8]])>
    ensures { let cut = cut_extra wide (texts words.now) in
        MatchOption result (cut ≡ None) (λ p. cut ≡ Some (texts p.0.now, texts p.1.now)) }
{
    if wide {
        cut_at_semi(words)
    } else {
        Some((words_up_to(words, 0), words))
    }
}

/// The pieces of these words.
fn pieces_of<'t, 'a>(words: &'t [&'a [u8]], wide: bool) -> Option<Pieces<'t, 'a>>
    ensures { let pieces = pieces_of wide (texts words.now) in
        MatchOption result (pieces ≡ None)
        (λ p. pieces ≡ Some (each (texts p.c.now) (texts p.e.now) (texts p.d.now) (texts p.f.now) (texts p.r.now))) }
{
    let (c, from_e) = cut_at_semi(words)?;
    let (e, from_d) = cut_extra(from_e, wide)?;
    let (d, from_f) = cut_at_semi(from_d)?;
    let (f, r) = cut_extra(from_f, wide)?;
    Some(Pieces { c, e, d, f, r })
}

/// The expression for E or F, of which these are the words in a wide block; 0 in a narrow one.
fn read_extra(alloc: Global, words: &[&[u8]], wide: bool) -> Result<Option<Expr>, Memory>
    ensures { IfOk result (λ e. option_map formula e
        ≡ extra wide (Leaf ZeroAtom) (formula_of wide (texts words.now))) }
{
    if wide {
        read_expr(alloc, words, wide)
    } else {
        Ok(Some(Expr::Zero))
    }
}

/// A move with these expressions, if there are all.
fn turn_of(
    next: u8,
    c: Option<Expr>,
    e: Option<Expr>,
    d: Option<Expr>,
    f: Option<Expr>,
    r: Option<Expr>,
) -> Option<Turn>
    ensures { let to = all_five (option_map formula c) (option_map formula e) (option_map formula d)
        (option_map formula f) (option_map formula r) in
        option_map move_of result ≡ move_made (Some next) to }
{
    match (c, e, d, f, r) {
        (Some(c), Some(e), Some(d), Some(f), Some(r)) => Some(Turn {
            next,
            c,
            e,
            d,
            f,
            r,
        }),
        _ => None,
    }
}

/// The move to a state by the expressions of these words, `;` between them.
fn read_turn(alloc: Global, next: u8, words: &[&[u8]], wide: bool) -> Result<Option<Turn>, Memory>
    ensures { IfOk result (λ t. option_map move_of t
        ≡ move_made (Some next) (formulas_of wide (pieces_of wide (texts words.now)))) }
{
    match pieces_of(words, wide) {
        None => Ok(None),
        Some(pieces) => {
            let c = read_expr(alloc, pieces.c, wide)?;
            let e = read_extra(alloc, pieces.e, wide)?;
            let d = read_expr(alloc, pieces.d, wide)?;
            let f = read_extra(alloc, pieces.f, wide)?;
            let r = read_expr(alloc, pieces.r, wide)?;
            Ok(turn_of(next, c, e, d, f, r))
        }
    }
}

/// Move `k`, counted from 0, of an automaton with these states.
pub(crate) fn read_move(
    alloc: Global,
    states: &[StateLine],
    k: usize,
    words: &[&[u8]],
    wide: bool,
) -> Result<Option<Turn>, Memory>
    requires { length states.now ≤ 8 }
    ensures { IfOk result (λ t. option_map move_of t ≡ read_move wide states.now k (texts words.now)) }
{
    if word_count(words) < 5 {
        return Ok(None);
    }
    if !is_move_head(states, k, words) {
        return Ok(None);
    }
    match place_of(states, word_at(words, 3)) {
        None => Ok(None),
        Some(next) => read_turn(alloc, next as u8, words_from(words, 5), wide),
    }
}

/// The mark that a word names.
fn mark_of(word: &[u8]) -> Option<Mark>
    ensures { result ≡ mark_of word.now }
{
    if word == b"same".as_slice() {
        Some(Mark::Same)
    } else if word == b"zero".as_slice() {
        Some(Mark::Zero)
    } else if word == b"cells".as_slice() {
        Some(Mark::Cells)
    } else {
        None
    }
}

/// An expression, and the mark that is the last word.
fn expression_and_mark(
    alloc: Global,
    words: &[&[u8]],
    wide: bool,
) -> Result<Option<(Expr, Mark)>, Memory>
    requires { 1 ≤ length (texts words.now) }
    ensures { IfOk result (λ f. option_map (λ p. (formula p.0, p.1)) f ≡ expression_and_mark wide (texts words.now)) }
{
    let last = word_count(words) - 1;
    let finish = read_expr(alloc, words_up_to(words, last), wide)?;
    match (finish, mark_of(word_at(words, last))) {
        (Some(finish), Some(mark)) => Ok(Some((finish, mark))),
        _ => Ok(None),
    }
}

/// What a finish line says.
pub(crate) fn read_finish(
    alloc: Global,
    words: &[&[u8]],
    wide: bool,
) -> Result<Option<(Expr, Mark)>, Memory>
    ensures { IfOk result (λ f. option_map (λ p. (formula p.0, p.1)) f ≡ read_finish wide (texts words.now)) }
{
    if word_count(words) < 2 {
        return Ok(None);
    }
    if word_at(words, 0) != b"finish".as_slice() {
        return Ok(None);
    }
    expression_and_mark(alloc, words_from(words, 1), wide)
}
