//! The first series of a model in lexicographic order, and their certificate.

ghost use Rattle.std.specs.Prelude.{◌≡◌, ◌≤◌, IfOk, IsTrue, List, OnOk, length, map, nat_lt};
ghost use Rattle.std.specs.List.{AllByRecursion};
ghost use Rattle.ts_bound.specs.TermSpans.{automata_of};
ghost use Rattle.ts_certificate.specs.Certificate.{cert_seen};
ghost use Rattle.ts_certificate.specs.declared.certificate.TreeLine.TheVariants.{Yes as YesLine};
ghost use Rattle.ts_compile.specs.Programs.{IsProgramOf};
ghost use Rattle.ts_filter.specs.Boxes.{Box, IsPart};
ghost use Rattle.ts_model.specs.declared.model.Need.TheVariants.{List as NeedsList};
ghost use Rattle.ts_model.specs.Promise.{IsWhole, KeepsLimits};
ghost use Rattle.ts_model.specs.Views.{model_parts};
ghost use Rattle.ts_frontier.specs.Forms.{form};
ghost use Rattle.ts_search.specs.Listed.{IsListAnswer};
ghost use Rattle.ts_search.specs.Leaps.{IsPaced, RefutesInside};
ghost use Rattle.ts_search.specs.LineOf.{TheFirst};
ghost use Rattle.ts_search.specs.Posed.{AreTablesOf, IsPosed};
ghost use Rattle.ts_search.specs.Shown.{AreHeld};
ghost use Rattle.ts_spans.specs.Machines.{automata_in, spans_in};
ghost use Rattle.ts_search.specs.Turns.{list_certificate, list_claim, list_start, list_turn_on};
ghost use Rattle.ts_search.specs.Turns.{list_turns, listed_after};
ghost use Rattle.ts_search.specs.Views.{list_state_of, search_of};

use crate::best::push_open;
use crate::inside::refutes_inside;
use crate::pace::Pace;
use crate::problem::{Problem, tables_of};
use crate::seeking::Seeking;
use crate::witnesses::Witnesses;
use std::alloc::Global;
use ts_base::Memory;
use ts_certificate::{Aim, Certificate, Claim, TreeLine};
use ts_compile::Program;
use ts_domain::Boxed;
use ts_filter::AllTables;
use ts_frontier::{Form, Frontier, follow, form_of};
use ts_glue::Machine;
use ts_model::Model;

/// The lines so far, the boxes that wait for theirs, and the series that were listed.
#[derive(Drop)]
pub(crate) struct ListTree {
    pub(crate) lines: Vec<TreeLine>,
    pub(crate) frontier: Frontier,
    pub(crate) listed: Vec<Vec<i64>>,
}

/// The certificate of the first `count` series, in lexicographic order, that meet a model, or of all where there are
/// fewer; if `budget` lines don't suffice, it has exactly that many, and the first series that were listed. `p` is the
/// program of `m`, which keeps the limits of its need.
pub fn list(
    alloc: Global,
    m: &Model,
    p: &Program,
    count: u32,
    budget: u64,
) -> Result<Certificate, Memory>
    requires program { IsProgramOf p.now m.now }
    requires whole { IsWhole (model_parts m.now) }
    requires limits { KeepsLimits NeedsList (model_parts m.now) }
    ensures { IfOk result
        (λ c. IsListAnswer (model_parts m.now) (spans_in (model_parts m.now)) count budget (cert_seen c)) }
{
    let mut tables = tables_of(alloc, m, p)?;
    list_by(alloc, m, p, &mut tables, true, count, budget)
}

/// How many questions a listing asks of tables, each about one cell, and how many values it asks spans about when it
/// looks for drops, in all: as it is, or without a witness. The certificate is the same. It is for tests and
/// measurements: answers alone don't show whether witnesses are used.
pub fn asked_by_list(
    alloc: Global,
    m: &Model,
    p: &Program,
    count: u32,
    budget: u64,
    witnessed: bool,
) -> Result<u64, Memory>
    requires program { IsProgramOf p.now m.now }
    requires whole { IsWhole (model_parts m.now) }
    requires limits { KeepsLimits NeedsList (model_parts m.now) }
{
    let mut tables = tables_of(alloc, m, p)?;
    list_by(alloc, m, p, &mut tables, witnessed, count, budget)?;
    Ok(tables.asked())
}

/// The certificate of a listing by these tables, with witnesses or without.
fn list_by(
    alloc: Global,
    m: &Model,
    p: &Program,
    tables: &mut AllTables<'_>,
    witnessed: bool,
    count: u32,
    budget: u64,
) -> Result<Certificate, Memory>
    requires program { IsProgramOf p.now m.now }
    requires whole { IsWhole (model_parts m.now) }
    requires limits { KeepsLimits NeedsList (model_parts m.now) }
    requires tables { tables.old.machines ≡ automata_in (model_parts m.now) }
    ensures { IfOk result
        (λ c. IsListAnswer (model_parts m.now) (spans_in (model_parts m.now)) count budget (cert_seen c)) }
{
    let problem = Problem { model: m };
    let mut witnesses = witnesses_of(alloc, &problem, p.machines(), witnessed)?;
    let leaps = may_leap(&problem, p.machines());
    let tree = list_grow(
        alloc,
        &problem,
        tables,
        &mut witnesses,
        count,
        budget,
        leaps,
    )?;
    certificate(count, tree)
}

/// A witness of each requirement, or none at all.
fn witnesses_of<'a>(
    alloc: Global,
    problem: &Problem<'a>,
    machines: &'a [Machine],
    witnessed: bool,
) -> Result<Witnesses<'a>, Memory>
    requires posed { IsPosed problem.now }
    requires machines { map automata_of machines.now ≡ automata_in (model_parts problem.now.model.now) }
    ensures { IfOk result (λ w. AreHeld problem.now w) }
{
    if witnessed {
        Witnesses::new(alloc, problem, machines)
    } else {
        Witnesses::none(alloc, problem)
    }
}

/// Whether leaps may be made. None is made without a requirement: then a line asks nothing that a leap might spare.
fn may_leap(problem: &Problem<'_>, machines: &[Machine]) -> bool
    requires posed { IsPosed problem.now }
    requires machines { map automata_of machines.now ≡ automata_in (model_parts problem.now.model.now) }
    ensures { IsTrue result → RefutesInside (search_of problem.now) }
{
    problem.requirements() > 0 && refutes_inside(problem, machines)
}

/// The tree after at most `budget` lines, or when `count` series are listed or no box waits any more. Leaps may be made
/// where a requirement that is refuted on a box is refuted on each box inside it.
fn list_grow(
    alloc: Global,
    problem: &Problem<'_>,
    tables: &mut AllTables<'_>,
    witnesses: &mut Witnesses<'_>,
    count: u32,
    budget: u64,
    leaps: bool,
) -> Result<ListTree, Memory>
    requires posed { IsPosed problem.now }
    requires tables { AreTablesOf problem.now tables.old.machines }
    requires held { AreHeld problem.now witnesses.old }
    requires inside { IsTrue leaps → RefutesInside (search_of problem.now) }
    ensures machines { tables.new.machines ≡ tables.old.machines }
    ensures few { IfOk result (λ t. length t.listed.items ≤ count) }
    ensures turns { IfOk result (λ t. list_state_of t
        ≡ list_turns (search_of problem.now) count budget (list_start (search_of problem.now))) }
{
    let root = Boxed::new(alloc, &problem.model.cells)?;
    let mut tree = ListTree {
        lines: Vec::new(alloc),
        frontier: Frontier::new(alloc, root),
        listed: Vec::new(alloc),
    };
    let mut pace = Pace::new(leaps);
    for _ in 0..budget {
        if tree.listed.len() >= count as usize {
            return Ok(tree);
        }
        if tree.frontier.is_empty() {
            return Ok(tree);
        }
        list_treat(alloc, problem, tables, witnesses, &mut tree, &mut pace)?;
    }
    Ok(tree)
}

/// One turn: the next box gets its line.
fn list_treat(
    alloc: Global,
    problem: &Problem<'_>,
    tables: &mut AllTables<'_>,
    witnesses: &mut Witnesses<'_>,
    tree: &mut ListTree,
    pace: &mut Pace,
) -> Result<(), Memory>
    requires posed { IsPosed problem.now }
    requires parts { AllByRecursion (λ b. IsPart b (search_of problem.now).model.cells) tree.old.frontier.boxes }
    requires tables { AreTablesOf problem.now tables.old.machines }
    requires held { AreHeld problem.now witnesses.old }
    requires paced { IsPaced (TheFirst (search_of problem.now)) pace.old tree.old.frontier.boxes }
    ensures machines { tables.new.machines ≡ tables.old.machines }
    ensures held { OnOk result (AreHeld problem.now witnesses.new) }
    ensures turn { OnOk result (list_state_of tree.new
        ≡ list_turn_on (search_of problem.now) (list_state_of tree.old) tree.old.frontier.boxes) }
    ensures paced { OnOk result (IsPaced (TheFirst (search_of problem.now)) pace.new tree.new.frontier.boxes) }
{
    if !tree.frontier.advance()? {
        return Ok(());
    }
    let cells = tree.frontier.present();
    let line = pace.line(alloc, &Seeking::First(problem), tables, witnesses, cells)?;
    pace.pass(&line);
    tree.lines.push(line)?;
    listed_now(alloc, tree.frontier.present(), line, &mut tree.listed)?;
    follow(&mut tree.frontier, &line)
}

/// The listed series after a line: the one series of a box is the next where the line is `yes`.
fn listed_now(
    alloc: Global,
    cells: &Boxed,
    line: TreeLine,
    listed: &mut Vec<Vec<i64>>,
) -> Result<(), Memory>
    ensures { OnOk result (map (λ x. x.items) listed.new.items
        ≡ listed_after (map (λ x. x.items) listed.old.items) (form cells.now.present) line) }
{
    match line {
        TreeLine::Yes => list_only(alloc, cells, listed),
        _ => Ok(()),
    }
}

/// The listed series after a line `yes`: that of the box comes last.
fn list_only(alloc: Global, cells: &Boxed, listed: &mut Vec<Vec<i64>>) -> Result<(), Memory>
    ensures { OnOk result (map (λ x. x.items) listed.new.items
        ≡ listed_after (map (λ x. x.items) listed.old.items) (form cells.now.present) YesLine) }
{
    let Form::Alone(series) = form_of(alloc, cells)? else {
        return Ok(());
    };
    listed.push(series)?;
    Ok(())
}

/// The certificate of a tree, each box that still waits being `open`.
fn certificate(count: u32, tree: ListTree) -> Result<Certificate, Memory>
    requires { length tree.listed.items ≤ count }
    ensures { IfOk result (λ c. cert_seen c ≡ list_certificate count (list_state_of tree)) }
{
    let listed = tree.listed.len() as u32;
    let waiting = tree.frontier.waiting();
    let mut lines = tree.lines;
    push_open(&mut lines, waiting)?;
    Ok(Certificate {
        aim: Aim::List(count),
        claim: claim(count, listed, waiting),
        series: tree.listed,
        tree: lines,
    })
}

/// What is claimed if `listed` series are listed and `waiting` boxes wait.
fn claim(count: u32, listed: u32, waiting: u64) -> Claim
    ensures { (w : List Box) → length w ≡ waiting → result ≡ list_claim (nat_lt listed count) listed w }
{
    if listed >= count {
        Claim::Full(listed)
    } else if waiting == 0 {
        Claim::All(listed)
    } else {
        Claim::BudgetList(listed)
    }
}
