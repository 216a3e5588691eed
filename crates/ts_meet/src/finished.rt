//! The hull of the finish spans of many values of the last cell, state by state: the form of the finish expression is
//! found once, and then all values are finished in one loop.

ghost use Rattle.std.specs.Prelude.{◌≡◌, ◌⊎◌, ℕ, ◌+◌, ◌≤◌, IfSome, IsTrue, false, length, true};
ghost use Rattle.ts_automaton.specs.declared.expr.Atom.TheVariants.{C, E, R};
ghost use Rattle.ts_automaton.specs.declared.expr.Operator.TheVariants.{Sub};
ghost use Rattle.ts_automaton.specs.Formula.{Join, Leaf, formula};
ghost use Rattle.ts_automaton.specs.Typing.{is_automaton};
ghost use Rattle.ts_base.specs.Limits.{IsCellValue};
ghost use Rattle.ts_base.specs.declared.span.Span.{Span};
ghost use Rattle.ts_base.specs.Spans.{span_hull};
ghost use Rattle.ts_glue.specs.Glue.{held_of, result_of};
ghost use Rattle.ts_meet.specs.Along.{column_finish, finish_along};
ghost use Rattle.ts_meet.specs.Meets.{finish_seen};
ghost use Rattle.ts_meet.specs.Settled.{ArePlaces, HavePlaces, with_hull};
ghost use Rattle.ts_meet.specs.Sides.{StandFor};
ghost use Rattle.ts_row.specs.Rows.{lanes_of};
ghost use Rattle.ts_sweep.specs.Packed.{IsPacked};
ghost use Rattle.ts_sweep.specs.Sides.{BothEnds, lane_count, sides};

use crate::gluing::Gluing;
use crate::marked::{hull_of_both, joined, marked, nothing, span_of};
use crate::meets::with_finish;
use crate::side::shown;
use ts_automaton::{Automaton, Expr, Op};
use ts_base::Span;
use ts_row::RowView;
use ts_sweep::packed::{Ends, Packed, PackedHull};

/// The hull of the finish spans of all states at `count` places from `from` on, of a series of `n` cells.
pub fn finish_along<const N: usize>(
    a: &Automaton,
    row: &RowView<'_, N>,
    from: usize,
    count: usize,
    n: u32,
) -> Span
    requires registers { 6 ≤ lane_count N }
    requires lanes { N ≤ 64 }
    requires alone { (sides N ≡ BothEnds) ⊎ (a.now.wide ≡ false) }
    requires row { HavePlaces N (length a.now.states) (from + count) row.now }
    ensures { result ≡ finish_along N a.now row.now from count n }
{
    let mut hull = nothing();
    for q in 0..a.states() {
        let column = column_finish(a, row.column(q), from, count, n);
        hull = hull_of_both(hull, column);
    }
    span_of(hull)
}

/// The hull of the finish spans of one state at these places.
fn column_finish<const N: usize>(
    a: &Automaton,
    hulls: &[PackedHull<N>],
    from: usize,
    count: usize,
    n: u32,
) -> Ends
    requires registers { 6 ≤ lane_count N }
    requires lanes { N ≤ 64 }
    requires alone { (sides N ≡ BothEnds) ⊎ (a.now.wide ≡ false) }
    requires hulls { ArePlaces N (from + count) hulls.now }
    ensures { (q : ℕ) → StandFor result (column_finish N a.now q hulls.now from n count) }
{
    match answer_of(a.finish_expr()) {
        Some(answer) => answers(answer, a, hulls, from, count, n),
        None => trees(a, hulls, from, count, n),
    }
}

/// The hull of the finish spans of one state, by their expression as a tree.
fn trees<const N: usize>(
    a: &Automaton,
    hulls: &[PackedHull<N>],
    from: usize,
    count: usize,
    n: u32,
) -> Ends
    requires registers { 6 ≤ lane_count N }
    requires lanes { N ≤ 64 }
    requires alone { (sides N ≡ BothEnds) ⊎ (a.now.wide ≡ false) }
    requires hulls { ArePlaces N (from + count) hulls.now }
    ensures { (q : ℕ) → StandFor result (column_finish N a.now q hulls.now from n count) }
{
    let mut hull = nothing();
    for i in 0..count {
        hull = with_finish(hull, a, &hulls[from + i], n);
    }
    hull
}

/// A finish expression that joins R, by an operator, to what is held: C, or C less E.
#[derive(Clone, Copy)]
pub(crate) struct Answer {
    pub(crate) operator: Op,
    pub(crate) wide: bool,
}

/// The hull of the finish spans of one state, whose finish expression is an answer.
fn answers<const N: usize>(
    answer: Answer,
    a: &Automaton,
    hulls: &[PackedHull<N>],
    from: usize,
    count: usize,
    n: u32,
) -> Ends
    requires registers { 6 ≤ lane_count N }
    requires alone { (sides N ≡ BothEnds) ⊎ (a.now.wide ≡ false) }
    requires rules { IsTrue (is_automaton a.now) }
    requires finish { a.now.finish ≡ result_of answer.wide answer.operator }
    requires hulls { ArePlaces N (from + count) hulls.now }
    ensures { (q : ℕ) → StandFor result (column_finish N a.now q hulls.now from n count) }
{
    match answer.operator {
        Op::Add => answers_by(Op::Add, answer.wide, a, hulls, from, count, n),
        Op::Max => answers_by(Op::Max, answer.wide, a, hulls, from, count, n),
        Op::Min => answers_by(Op::Min, answer.wide, a, hulls, from, count, n),
    }
}

/// The hull of the finish spans of one state, where `operator` is the one of the answers.
#[inline(always)]
fn answers_by<const N: usize>(
    operator: Op,
    wide: bool,
    a: &Automaton,
    hulls: &[PackedHull<N>],
    from: usize,
    count: usize,
    n: u32,
) -> Ends
    requires registers { 6 ≤ lane_count N }
    requires alone { (sides N ≡ BothEnds) ⊎ (a.now.wide ≡ false) }
    requires rules { IsTrue (is_automaton a.now) }
    requires finish { a.now.finish ≡ result_of wide operator }
    requires hulls { ArePlaces N (from + count) hulls.now }
    ensures { (q : ℕ) → StandFor result (column_finish N a.now q hulls.now from n count) }
{
    if wide {
        answers_along(Gluing::apart(operator, true), a, hulls, from, count, n)
    } else {
        answers_along(Gluing::apart(operator, false), a, hulls, from, count, n)
    }
}

/// The hull of the finish spans of one state, by how answers are joined.
#[inline(always)]
fn answers_along<const N: usize>(
    gluing: Gluing,
    a: &Automaton,
    hulls: &[PackedHull<N>],
    from: usize,
    count: usize,
    n: u32,
) -> Ends
    requires registers { 6 ≤ lane_count N }
    requires alone { (sides N ≡ BothEnds) ⊎ (a.now.wide ≡ false) }
    requires apart { gluing.joins ≡ false }
    requires worth { IsCellValue gluing.worth }
    requires rules { IsTrue (is_automaton a.now) }
    requires finish { a.now.finish ≡ result_of gluing.wide gluing.result }
    requires hulls { ArePlaces N (from + count) hulls.now }
    ensures { (q : ℕ) → StandFor result (column_finish N a.now q hulls.now from n count) }
{
    let mut hull = nothing();
    for i in 0..count {
        hull = with_answer(hull, gluing, a, &hulls[from + i], n);
    }
    hull
}

/// A hull with the finish span of one state added, if any series reaches it.
#[inline(always)]
fn with_answer<const N: usize>(
    hull: Ends,
    gluing: Gluing,
    a: &Automaton,
    h: &PackedHull<N>,
    n: u32,
) -> Ends
    requires registers { 6 ≤ lane_count N }
    requires alone { (sides N ≡ BothEnds) ⊎ (a.now.wide ≡ false) }
    requires apart { gluing.joins ≡ false }
    requires worth { IsCellValue gluing.worth }
    requires rules { IsTrue (is_automaton a.now) }
    requires finish { a.now.finish ≡ result_of gluing.wide gluing.result }
    requires packed { IsPacked (lane_count N) (lanes_of N h.now) }
    ensures { (q : ℕ) (s : Span) → StandFor hull s →
        StandFor result (span_hull s (finish_seen (sides N) a.now (with_hull N q h.now) n)) }
{
    if !h.is_some() {
        return hull;
    }
    let ends = shown::<N>(gluing.finished(h));
    joined(hull, marked(a.mark(), ends, n))
}

/// What a finish expression is, if it is an answer.
fn answer_of(finish: &Expr) -> Option<Answer>
    ensures { IfSome result (λ f. formula finish.now ≡ result_of f.wide f.operator) }
{
    match finish {
        Expr::Add(a, b) => answer_by(Op::Add, a, b),
        Expr::Max(a, b) => answer_by(Op::Max, a, b),
        Expr::Min(a, b) => answer_by(Op::Min, a, b),
        _ => None,
    }
}

/// The answer with this operator, if it is one.
fn answer_by(operator: Op, a: &Expr, b: &Expr) -> Option<Answer>
    ensures { IfSome result (λ f. (f.operator ≡ operator)
        × (formula a.now ≡ Leaf R) × (formula b.now ≡ held_of f.wide)) }
{
    if !is_result(a) {
        return None;
    }
    if is_held(b) {
        Some(Answer {
            operator,
            wide: false,
        })
    } else if is_range(b) {
        Some(Answer {
            operator,
            wide: true,
        })
    } else {
        None
    }
}

/// Whether an expression is R.
fn is_result(e: &Expr) -> bool
    ensures { result ≡ true → formula e.now ≡ Leaf R }
{
    match e {
        Expr::R => true,
        _ => false,
    }
}

/// Whether an expression is C.
fn is_held(e: &Expr) -> bool
    ensures { result ≡ true → formula e.now ≡ Leaf C }
{
    match e {
        Expr::C => true,
        _ => false,
    }
}

/// Whether an expression is E.
fn is_away(e: &Expr) -> bool
    ensures { result ≡ true → formula e.now ≡ Leaf E }
{
    match e {
        Expr::E => true,
        _ => false,
    }
}

/// Whether an expression is C less E.
fn is_range(e: &Expr) -> bool
    ensures { result ≡ true → formula e.now ≡ Join Sub (Leaf C) (Leaf E) }
{
    match e {
        Expr::Sub(a, b) => is_held(a) && is_away(b),
        _ => false,
    }
}
