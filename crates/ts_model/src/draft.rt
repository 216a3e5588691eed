//! The model while lines are read.

ghost use Rattle.std.specs.Prelude.{◌≡◌, ◌<◌, ◌≤◌, length, pos, false, Ok, OnOk, IfOk, IfNone, IfSome};
ghost use Rattle.ts_base.specs.Limits.{most_terms, too_many};
ghost use Rattle.ts_token.specs.Text.{words_of};
ghost use Rattle.ts_model.specs.Statement.{SaysCells, SaysDomain, SaysCell, SaysTerm, SaysRequire, SaysObjective};
ghost use Rattle.ts_model.specs.ModelParts.{nothing, term_at, has_cells, is_between, parts_after, IsPlace};
ghost use Rattle.ts_model.specs.ModelReading.{line_gives, onward, texts_of};
ghost use Rattle.ts_model.specs.Views.{meaning_of, draft_parts, Adds, Gives, IsSound, Follows};

use crate::cells::Cells;
use crate::error::{LineStop, ModelKind, ModelStop, at_line};
use crate::model::{Op, Require, Window};
use crate::parse::parse;
use crate::statement::{Ranges, Statement, TermParts};
use crate::take::{domain_of, is_bound, term_of, window_of};
use indexmap::IndexMap;
use std::alloc::Global;
use ts_base::limits::{CELLS, REQUIREMENTS, TERMS};
use ts_base::{Ext, Memory};
use ts_domain::Interval;
use ts_pattern::Term;

/// What the lines so far state.
#[derive(Drop)]
pub(crate) struct Draft {
    pub cells: Cells,
    pub terms: IndexMap<String, Term>,
    pub windows: Vec<Option<Window>>,
    pub requirements: Vec<Require>,
    pub objective: Option<u32>,
}

impl Draft {
    /// Nothing is stated; `limited` says whether all domains together have a limit.
    pub(crate) fn new(alloc: Global, limited: bool) -> Result<Draft, Memory>
        ensures empty { IfOk result (λ draft. draft_parts draft ≡ nothing) }
        ensures sound { IfOk result IsSound }
        ensures limited { IfOk result (λ draft. draft.cells.limited ≡ limited) }
        ensures turn { IfOk result (λ draft. draft.cells.turn ≡ 0) }
    {
        Ok(Draft {
            cells: Cells::new(alloc, 0, limited)?,
            terms: IndexMap::new(alloc),
            windows: Vec::new(alloc),
            requirements: Vec::new(alloc),
            objective: None,
        })
    }

    /// Adds what line `number` says, given without its end, or refuses it by the first kind that holds of it.
    pub(crate) fn line(&mut self, alloc: Global, number: u32, line: &[u8]) -> Result<(), ModelStop>
        requires sound { IsSound self.old }
        requires room { self.old.cells.turn < usize.MAX }
        requires short { length line.now < too_many }
        ensures added { Adds (draft_parts self.new) result (onward number
            (line_gives self.old.cells.limited (draft_parts self.old) (texts_of (words_of line.now))) Ok) }
        ensures follows { OnOk result (Follows self.old self.new) }
    {
        match self.take_words(alloc, line) {
            Ok(()) => Ok(()),
            Err(stop) => Err(at_line(number, stop)),
        }
    }

    /// Adds what the words of a line say, or gives the first kind that holds of it.
    fn take_words(&mut self, alloc: Global, line: &[u8]) -> Result<(), LineStop>
        requires sound { IsSound self.old }
        requires room { self.old.cells.turn < usize.MAX }
        requires short { length line.now < too_many }
        ensures taken { Gives (λ _. draft_parts self.new) result
            (line_gives self.old.cells.limited (draft_parts self.old) (texts_of (words_of line.now))) }
        ensures follows { OnOk result (Follows self.old self.new) }
    {
        let statement = parse(alloc, line)?;
        self.take(alloc, statement)
    }

    /// Adds what a line says, or gives the first kind that holds of it.
    fn take(&mut self, alloc: Global, statement: Statement) -> Result<(), LineStop>
        requires sound { IsSound self.old }
        requires room { self.old.cells.turn < usize.MAX }
        ensures taken { Gives (λ _. draft_parts self.new) result
            (parts_after self.old.cells.limited (draft_parts self.old) (meaning_of statement.entry)) }
        ensures follows { OnOk result (Follows self.old self.new) }
    {
        match statement {
            Statement::Cells(count) => self.take_cells(alloc, count),
            Statement::Domain(ranges) => self.take_domain(alloc, ranges),
            Statement::Cell(cell, ranges) => self.take_cell(alloc, cell, ranges),
            Statement::Term(name, tail, parts) => self.take_term(alloc, name, tail, parts),
            Statement::Require(name, op, bound) => self.take_require(name, op, bound),
            Statement::Objective(name) => self.take_objective(name),
        }
    }

    /// Whether a `cells` line stands.
    pub(crate) fn has_cells(&self) -> bool
        ensures { result ≡ has_cells (draft_parts self.now) }
    {
        self.cells.len() > 0
    }

    /// The number of the term with a name.
    fn term_at(&self, name: &str) -> Option<u32>
        requires { length self.now.terms.entries ≤ most_terms }
        ensures { result ≡ term_at name.now (draft_parts self.now).terms }
    {
        match self.terms.get_index_of(name) {
            Some(place) => Some(place as u32),
            None => None,
        }
    }

    /// The place of a cell, from 0.
    fn place_of(&self, cell: i64) -> Option<usize>
        ensures none { IfNone result (is_between (pos 1) cell (pos (length (draft_parts self.now).cells)) ≡ false) }
        ensures some { IfSome result (λ place. IsPlace cell (length (draft_parts self.now).cells) place) }
    {
        if cell < 1 || cell as u64 > self.cells.len() as u64 {
            return None;
        }
        Some(cell as usize - 1)
    }

    /// Takes a `cells` line.
    fn take_cells(&mut self, alloc: Global, count: i64) -> Result<(), LineStop>
        requires sound { IsSound self.old }
        ensures taken { Gives (λ _. draft_parts self.new) result
            (parts_after self.old.cells.limited (draft_parts self.old) (SaysCells count)) }
        ensures follows { OnOk result (Follows self.old self.new) }
    {
        if self.has_cells() {
            return Err(LineStop::Bad(ModelKind::CellsTwice));
        }
        if count < 1 || count > CELLS as i64 {
            return Err(LineStop::Bad(ModelKind::CellRange));
        }
        self.cells = Cells::new(alloc, count as usize, self.cells.limited)?;
        Ok(())
    }

    /// Takes a `domain` line.
    fn take_domain(&mut self, alloc: Global, ranges: Ranges) -> Result<(), LineStop>
        requires sound { IsSound self.old }
        requires room { self.old.cells.turn < usize.MAX }
        ensures taken { Gives (λ _. draft_parts self.new) result
            (parts_after self.old.cells.limited (draft_parts self.old) (SaysDomain ranges.items.items)) }
        ensures follows { OnOk result (Follows self.old self.new) }
    {
        if !self.has_cells() {
            return Err(LineStop::Bad(ModelKind::NoCells));
        }
        let domain = domain_of(alloc, ranges)?;
        self.cells.set_all(domain)
    }

    /// Takes a `cell` line.
    fn take_cell(&mut self, alloc: Global, cell: i64, ranges: Ranges) -> Result<(), LineStop>
        requires sound { IsSound self.old }
        requires room { self.old.cells.turn < usize.MAX }
        ensures taken { Gives (λ _. draft_parts self.new) result
            (parts_after self.old.cells.limited (draft_parts self.old) (SaysCell cell ranges.items.items)) }
        ensures follows { OnOk result (Follows self.old self.new) }
    {
        if !self.has_cells() {
            return Err(LineStop::Bad(ModelKind::NoCells));
        }
        match self.place_of(cell) {
            None => Err(LineStop::Bad(ModelKind::CellRange)),
            Some(place) => {
                let domain = domain_of(alloc, ranges)?;
                self.cells.set_one(place, domain)
            }
        }
    }

    /// Takes a `term` line.
    fn take_term(
        &mut self,
        alloc: Global,
        name: &str,
        tail: Option<Interval>,
        parts: Option<TermParts>,
    ) -> Result<(), LineStop>
        requires sound { IsSound self.old }
        ensures taken { Gives (λ _. draft_parts self.new) result
            (parts_after self.old.cells.limited (draft_parts self.old) (SaysTerm name.now tail parts)) }
        ensures follows { OnOk result (Follows self.old self.new) }
    {
        if !self.has_cells() {
            return Err(LineStop::Bad(ModelKind::NoCells));
        }
        let window = window_of(tail, self.cells.len())?;
        let term = term_of(parts)?;
        if self.term_at(name).is_some() {
            return Err(LineStop::Bad(ModelKind::TermTwice));
        }
        if self.terms.len() >= TERMS {
            return Err(LineStop::Bad(ModelKind::Limit));
        }
        let name = String::from_str(alloc, name)?;
        self.windows.push(window)?;
        self.terms.insert(name, term)?;
        Ok(())
    }

    /// Takes a `require` line.
    fn take_require(&mut self, name: &str, op: Op, bound: Ext) -> Result<(), LineStop>
        requires sound { IsSound self.old }
        ensures taken { Gives (λ _. draft_parts self.new) result
            (parts_after self.old.cells.limited (draft_parts self.old) (SaysRequire name.now op bound)) }
        ensures follows { OnOk result (Follows self.old self.new) }
    {
        if !self.has_cells() {
            return Err(LineStop::Bad(ModelKind::NoCells));
        }
        match self.term_at(name) {
            None => Err(LineStop::Bad(ModelKind::UnknownTerm)),
            Some(term) => {
                if !is_bound(bound) || self.requirements.len() >= REQUIREMENTS {
                    return Err(LineStop::Bad(ModelKind::Limit));
                }
                self.requirements.push(Require { term, op, bound })?;
                Ok(())
            }
        }
    }

    /// Takes an `objective` line.
    fn take_objective(&mut self, name: &str) -> Result<(), LineStop>
        requires sound { IsSound self.old }
        ensures taken { Gives (λ _. draft_parts self.new) result
            (parts_after self.old.cells.limited (draft_parts self.old) (SaysObjective name.now)) }
        ensures follows { OnOk result (Follows self.old self.new) }
    {
        if !self.has_cells() {
            return Err(LineStop::Bad(ModelKind::NoCells));
        }
        match self.term_at(name) {
            None => Err(LineStop::Bad(ModelKind::UnknownTerm)),
            Some(term) => {
                if self.objective.is_some() {
                    return Err(LineStop::Bad(ModelKind::ObjectiveTwice));
                }
                self.objective = Some(term);
                Ok(())
            }
        }
    }
}
