//! Witnesses of the requirements: a series of the box that meets one shows that it isn't refuted, and what it doesn't
//! drop.

ghost use Rattle.std.specs.Prelude.{◌≡◌, ◌≤◌, IfOk, length, map, replicate};
ghost use Rattle.ts_bound.specs.TermSpans.{automata_of};
ghost use Rattle.ts_filter.specs.Boxes.{IsPart};
ghost use Rattle.ts_filter.specs.KeptCells.{unknown};
ghost use Rattle.ts_model.specs.Views.{model_parts};
ghost use Rattle.ts_search.specs.LineOf.{last};
ghost use Rattle.ts_search.specs.Posed.{IsPosed};
ghost use Rattle.ts_search.specs.Shown.{AreHeld, AreShown, is_shown};
ghost use Rattle.ts_search.specs.Views.{search_of};
ghost use Rattle.ts_spans.specs.Machines.{automata_in};

use crate::problem::Problem;
use crate::shown::Shown;
use std::alloc::Global;
use ts_base::Memory;
use ts_domain::{Boxed, Interval};
use ts_filter::KeptCells;
use ts_glue::Machine;

/// The witnesses of the first requirements, in their order; the others have none. What they show of drops is marked in
/// `kept`, term by term. Of the box that is marked, `ends` has the ends of each domain.
#[derive(Drop)]
pub(crate) struct Witnesses<'a> {
    pub(crate) each: Vec<Shown<'a>>,
    pub(crate) kept: KeptCells,
    pub(crate) ends: Vec<Interval>,
}

impl<'a> Witnesses<'a> {
    /// A witness of each requirement of the model. The machines are those of its terms.
    pub(crate) fn new(
        alloc: Global,
        problem: &Problem<'a>,
        machines: &'a [Machine],
    ) -> Result<Witnesses<'a>, Memory>
        requires posed { IsPosed problem.now }
        requires machines { map automata_of machines.now ≡ automata_in (model_parts problem.now.model.now) }
        ensures { IfOk result (λ w. AreHeld problem.now w) }
    {
        let kept = unmarked(alloc, problem)?;
        let ends = room_for_ends(alloc, problem)?;
        let model = problem.model;
        let mut each = Vec::new(alloc);
        for i in 0..model.requirements.len() {
            let r = &model.requirements[i];
            let m = &machines[r.term as usize];
            each.push(Shown::new(alloc, m, &model.cells)?)?;
        }
        Ok(Witnesses { each, kept, ends })
    }

    /// No witness of any requirement: all questions are asked.
    pub(crate) fn none(alloc: Global, problem: &Problem<'a>) -> Result<Witnesses<'a>, Memory>
        ensures { IfOk result (λ w. AreHeld problem.now w) }
    {
        let kept = unmarked(alloc, problem)?;
        let ends = room_for_ends(alloc, problem)?;
        let each = Vec::new(alloc);
        Ok(Witnesses { each, kept, ends })
    }

    /// Brings all witnesses into the box. Nothing is allocated.
    pub(crate) fn bring(&mut self, problem: &Problem<'_>, cells: &Boxed)
        requires posed { IsPosed problem.now }
        requires part { IsPart cells.now.present (search_of problem.now).model.cells }
        requires held { AreHeld problem.now self.old }
        ensures { AreShown problem.now self.new cells.now.present }
    {
        for i in 0..self.each.len() {
            let r = &problem.model.requirements[i];
            self.each[i].bring(r, cells);
        }
    }

    /// Whether the witness of requirement `j`, counted from 1, is known to meet it.
    pub(crate) fn shows(&self, j: u32) -> bool
        requires { 1 ≤ j }
        ensures { result ≡ is_shown self.now j }
    {
        let i = j as usize - 1;
        i < self.each.len() && self.each[i].met
    }
}

/// No marks for the terms and cells of a model.
fn unmarked(alloc: Global, problem: &Problem<'_>) -> Result<KeptCells, Memory>
    ensures { IfOk result (λ kept. kept
        ≡ replicate (length problem.now.model.now.terms.entries) (unknown (last (search_of problem.now)))) }
{
    let model = problem.model;
    KeptCells::new(alloc, model.terms.len(), model.cells.len())
}

/// A place for the ends of each domain.
fn room_for_ends(alloc: Global, problem: &Problem<'_>) -> Result<Vec<Interval>, Memory>
    ensures { IfOk result (λ ends. length ends.items ≡ last (search_of problem.now)) }
{
    let none = Interval { low: 0, high: 0 };
    Ok(vec![in alloc; none; problem.model.cells.len()]?)
}
