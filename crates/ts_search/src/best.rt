//! The search for the best series, and its certificate.

ghost use Rattle.std.specs.Prelude.{◌≡◌, ◌++◌, IfOk, OnOk, map, replicate};
ghost use Rattle.ts_certificate.specs.Certificate.{cert_seen};
ghost use Rattle.ts_certificate.specs.declared.certificate.TreeLine.TheVariants.{Unsearched as OpenLine};
ghost use Rattle.ts_compile.specs.Programs.{IsProgramOf};
ghost use Rattle.ts_model.specs.declared.model.Need.TheVariants.{Best as NeedsBest};
ghost use Rattle.ts_model.specs.Promise.{IsWhole, KeepsLimits};
ghost use Rattle.ts_model.specs.Views.{model_parts};
ghost use Rattle.ts_spans.specs.Machines.{spans_in};
ghost use Rattle.ts_search.specs.Solved.{IsSolution};
ghost use Rattle.ts_search.specs.Turns.{budget_claim, done_claim, series_of, solve_certificate};
ghost use Rattle.ts_search.specs.Views.{contest_of, find_of, state_of};

use crate::contest::Contest;
use crate::dive::dive;
use crate::found::FoundSeries;
use crate::inside::excludes_inside;
use crate::problem::{Problem, tables_of};
use crate::tree::{Tree, grow};
use crate::witnesses::Witnesses;
use std::alloc::Global;
use ts_base::{Goal, Memory};
use ts_certificate::{Aim, Certificate, Claim, TreeLine};
use ts_compile::Program;
use ts_model::Model;

/// The certificate of the first best series of a model, or of there being none. If `budget` lines don't suffice, it has
/// exactly that many, and the best series that is known. `p` is the program of `m`, which has an objective and keeps
/// the limits of its need.
///
/// It begins with a dive, whose series cuts what can't be as good, and then gives one box after the other its line. Its
/// tree leaves no line to choose: two certificates of a model, a goal and a budget are one.
pub fn solve(
    alloc: Global,
    m: &Model,
    p: &Program,
    goal: Goal,
    budget: u64,
) -> Result<Certificate, Memory>
    requires program { IsProgramOf p.now m.now }
    requires whole { IsWhole (model_parts m.now) }
    requires limits { KeepsLimits NeedsBest (model_parts m.now) }
    ensures { IfOk result
        (λ c. IsSolution (model_parts m.now) (spans_in (model_parts m.now)) goal budget (cert_seen c)) }
{
    let mut contest = Contest {
        problem: Problem { model: m },
        goal,
        objective: m.objective.unwrap(),
        warm: None,
    };
    let mut tables = tables_of(alloc, m, p)?;
    let mut witnesses = Witnesses::new(alloc, &contest.problem, p.machines())?;
    contest.warm = dive(alloc, &contest, &mut tables, &mut witnesses)?;
    let leaps = excludes_inside(&contest, p.machines());
    let tree = grow(alloc, &contest, &mut tables, &mut witnesses, budget, leaps)?;
    certificate(alloc, contest, tree)
}

/// The certificate of a tree, each box that still waits being `open`.
fn certificate(alloc: Global, contest: Contest<'_>, tree: Tree) -> Result<Certificate, Memory>
    ensures { IfOk result (λ c. cert_seen c ≡ solve_certificate (contest_of contest.entry) (state_of tree)) }
{
    let aim = Aim::Best(contest.goal);
    let waiting = tree.frontier.waiting();
    let mut lines = tree.lines;
    push_open(&mut lines, waiting)?;
    if waiting == 0 {
        let claim = done_claim(&tree.found);
        return Ok(Certificate {
            aim,
            claim,
            series: series_of(alloc, tree.found)?,
            tree: lines,
        });
    }
    let found = tree.found.or(contest.warm);
    let claim = budget_claim(&found);
    Ok(Certificate {
        aim,
        claim,
        series: series_of(alloc, found)?,
        tree: lines,
    })
}

/// What is claimed if every box had its line.
fn done_claim(found: &Option<FoundSeries>) -> Claim
    ensures { result ≡ done_claim (find_of found.now) }
{
    match found {
        Some(found) => Claim::Best(found.value),
        None => Claim::Infeasible,
    }
}

/// What is claimed if boxes still wait.
fn budget_claim(found: &Option<FoundSeries>) -> Claim
    ensures { result ≡ budget_claim (find_of found.now) }
{
    match found {
        Some(found) => Claim::BudgetBest(found.value),
        None => Claim::BudgetNone,
    }
}

/// The found series as a list of one, or of none.
fn series_of(alloc: Global, found: Option<FoundSeries>) -> Result<Vec<Vec<i64>>, Memory>
    ensures { IfOk result (λ xs. map (λ x. x.items) xs.items ≡ series_of (find_of found)) }
{
    let mut series = Vec::new(alloc);
    if let Some(found) = found {
        series.push(found.series)?;
    }
    Ok(series)
}

/// Appends `waiting` lines `open`.
pub(crate) fn push_open(lines: &mut Vec<TreeLine>, waiting: u64) -> Result<(), Memory>
    ensures { OnOk result (lines.new.items ≡ lines.old.items ++ replicate waiting OpenLine) }
{
    for _ in 0..waiting {
        lines.push(TreeLine::Unsearched)?;
    }
    Ok(())
}
