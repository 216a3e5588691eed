//! Whether what excludes a box excludes each box inside it too, by the marks of the machines.

ghost use Rattle.std.specs.Prelude.{◌≡◌, ◌↔◌, IsTrue, Option, map};
ghost use Rattle.ts_automaton.specs.declared.state.Mark.TheVariants.{Zero as ZeroMark};
ghost use Rattle.ts_bound.specs.TermSpans.{automata_of};
ghost use Rattle.ts_model.specs.Views.{model_parts};
ghost use Rattle.ts_search.specs.Dive.{Find};
ghost use Rattle.ts_search.specs.Inside.{AllShowInside, LeavesValues};
ghost use Rattle.ts_search.specs.Leaps.{ExcludesInside, RefutesInside, ShowsInside};
ghost use Rattle.ts_search.specs.LineOf.{TheBest};
ghost use Rattle.ts_search.specs.Posed.{HasObjective, IsPosed};
ghost use Rattle.ts_search.specs.Views.{contest_of, search_of};
ghost use Rattle.ts_spans.specs.Machines.{automata_in};

use crate::contest::Contest;
use crate::problem::Problem;
use ts_automaton::Mark;
use ts_base::Ext;
use ts_glue::Machine;
use ts_model::{Op, Require};

/// Whether what excludes a box in a search for the best series excludes each box inside it. These are the machines of
/// the model's terms.
pub(crate) fn excludes_inside(contest: &Contest<'_>, machines: &[Machine]) -> bool
    requires objective { HasObjective contest.now }
    requires posed { IsPosed contest.now.problem }
    requires machines { map automata_of machines.now ≡ automata_in (model_parts contest.now.problem.model.now) }
    ensures inside { IsTrue result → (found : Option Find) → ExcludesInside (TheBest (contest_of contest.now) found) }
    ensures all { IsTrue result ↔ (LeavesValues (model_parts contest.now.problem.model.now) contest.now.objective ×
        AllShowInside (model_parts contest.now.problem.model.now)) }
{
    match machines[contest.objective as usize].forward().mark() {
        Mark::Same => refutes_inside(&contest.problem, machines),
        _ => false,
    }
}

/// Whether a requirement that is refuted on a box is refuted on each box inside it. These are the machines of the
/// model's terms.
pub(crate) fn refutes_inside(problem: &Problem<'_>, machines: &[Machine]) -> bool
    requires posed { IsPosed problem.now }
    requires machines { map automata_of machines.now ≡ automata_in (model_parts problem.now.model.now) }
    ensures inside { IsTrue result → RefutesInside (search_of problem.now) }
    ensures all { IsTrue result ↔ AllShowInside (model_parts problem.now.model.now) }
{
    for i in 0..problem.model.requirements.len() {
        let r = &problem.model.requirements[i];
        if !shows_inside(machines[r.term as usize].forward().mark(), r) {
            return false;
        }
    }
    true
}

/// Whether a span under this mark that refutes the requirement refutes it on each box inside.
fn shows_inside(mark: Mark, r: &Require) -> bool
    ensures { IsTrue result ↔ ShowsInside mark r.now.op r.now.bound }
{
    match mark {
        Mark::Same => true,
        Mark::Zero => is_at_most_some(r),
        Mark::Cells => false,
    }
}

/// Whether the term is to be at most a number that isn't below 0.
fn is_at_most_some(r: &Require) -> bool
    ensures { IsTrue result ↔ ShowsInside ZeroMark r.now.op r.now.bound }
{
    match (r.op, r.bound) {
        (Op::AtMost, Ext::Int(b)) => b >= 0,
        _ => false,
    }
}
