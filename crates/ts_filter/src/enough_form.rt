//! Which ends of hulls are enough for a question: most ask of spans whether they reach far enough up, or down, and rows
//! of that end alone take some six tenths of the work.
//!
//! A mark puts a number in the place of an infinite end. So it may bring the end that isn't kept, which is infinite, on
//! the other side of a bound: then rows have both.

ghost use Rattle.std.specs.Prelude.{◌≡◌, ℕ, IsTrue};
ghost use Rattle.ts_bound.specs.AnyRows.{IsNarrowForm, form_sides};
ghost use Rattle.ts_filter.specs.Alike.{IsServed, MarkKeeps};
ghost use Rattle.ts_filter.specs.declared.question.Question.TheVariants.{Compares, Counts, MeetsEach, Ranks};
ghost use Rattle.ts_model.specs.declared.model.Op.TheVariants.{Above, AtLeast};

use crate::bar::Bar;
use crate::question::Question;
use crate::term_requirements::TermRequirements;
use ts_automaton::Mark;
use ts_base::{Ext, Goal};
use ts_bound::Form;
use ts_model::{Op, Require};

/// The form of rows of a narrow automaton that is enough for the question, under a mark and for series of `n` cells.
pub(crate) fn enough_form(asked: Question<'_>, mark: Mark, n: u32) -> Form
    ensures narrow { IsNarrowForm result }
    ensures served { IsServed (form_sides result) mark n asked.entry }
{
    match asked {
        Question::Compares(op, bound) => form_to_compare(op, bound, mark, n),
        Question::MeetsEach(own) => form_to_meet(own, mark, n),
        Question::Counts(goal, bar) => form_to_count(goal, bar, mark, n),
        Question::Ranks(goal) => form_to_rank(goal, mark),
    }
}

/// The form that is enough to compare with a bound.
fn form_to_compare(op: Op, bound: Ext, mark: Mark, n: u32) -> Form
    ensures narrow { IsNarrowForm result }
    ensures served { IsServed (form_sides result) mark n (Compares op bound) }
{
    match op {
        Op::AtLeast if is_enough_up_to(mark, bound, n) => Form::Upper,
        Op::Above if is_enough_beyond(mark, bound, n) => Form::Upper,
        Op::AtMost if is_enough_beyond(mark, bound, n) => Form::Lower,
        Op::Below if is_enough_up_to(mark, bound, n) => Form::Lower,
        _ => Form::Narrow,
    }
}

/// Whether the number of the mark isn't on the other side of the bound, where numbers are compared by `>=` or `<`.
fn is_enough_up_to(mark: Mark, bound: Ext, n: u32) -> bool
    ensures { IsTrue result → MarkKeeps mark n AtLeast bound }
{
    match (mark, bound) {
        (Mark::Same, _) => true,
        (Mark::Zero, Ext::Int(b)) => b > 0,
        (Mark::Cells, Ext::Int(b)) => b <= n as i64,
        _ => false,
    }
}

/// Whether the number of the mark isn't on the other side of the bound, where numbers are compared by `>` or `<=`.
fn is_enough_beyond(mark: Mark, bound: Ext, n: u32) -> bool
    ensures { IsTrue result → MarkKeeps mark n Above bound }
{
    match (mark, bound) {
        (Mark::Same, _) => true,
        (Mark::Zero, Ext::Int(b)) => b >= 0,
        (Mark::Cells, Ext::Int(b)) => b < n as i64,
        _ => false,
    }
}

/// The form that is enough for each of the requirements of a term.
fn form_to_meet(own: TermRequirements<'_>, mark: Mark, n: u32) -> Form
    ensures narrow { IsNarrowForm result }
    ensures served { IsServed (form_sides result) mark n (MeetsEach own.entry) }
{
    let r = &own.all[own.first];
    let form = form_to_compare(r.op, r.bound, mark, n);
    for k in own.first + 1..own.end {
        if !is_enough(form, &own.all[k], own.term, mark, n) {
            return Form::Narrow;
        }
    }
    form
}

/// Whether the form is the one that is enough for the requirement, if it is of the term.
fn is_enough(form: Form, r: &Require, term: u32, mark: Mark, n: u32) -> bool
    ensures { IsTrue result → r.now.term ≡ term → IsServed (form_sides form) mark n (Compares r.now.op r.now.bound) }
{
    r.term != term || form_to_compare(r.op, r.bound, mark, n) == form
}

/// The form that is enough to tell whether a number counts for the bar.
fn form_to_count(goal: Goal, bar: Bar, mark: Mark, n: u32) -> Form
    ensures narrow { IsNarrowForm result }
    ensures served { IsServed (form_sides result) mark n (Counts goal bar) }
{
    match (goal, bar) {
        (Goal::Maximise, Bar::Better(w)) => form_to_compare(Op::Above, w, mark, n),
        (Goal::Maximise, Bar::AsGood(w)) => form_to_compare(Op::AtLeast, w, mark, n),
        (Goal::Minimise, Bar::Better(w)) => form_to_compare(Op::Below, w, mark, n),
        (Goal::Minimise, Bar::AsGood(w)) => form_to_compare(Op::AtMost, w, mark, n),
    }
}

/// The form that is enough to tell the best number: a mark may put a number in the place of the worst one.
fn form_to_rank(goal: Goal, mark: Mark) -> Form
    ensures narrow { IsNarrowForm result }
    ensures served { (n : ℕ) → IsServed (form_sides result) mark n (Ranks goal) }
{
    match (goal, mark) {
        (Goal::Maximise, Mark::Same) => Form::Upper,
        (Goal::Minimise, Mark::Same) => Form::Lower,
        _ => Form::Narrow,
    }
}
