//! Questions to the tables of one term. None compares cells: the box has been brought before.

ghost use Rattle.std.specs.Prelude.{◌≡◌, ◌↔◌, ◌<◌, Contains, IfOk, IsTrue, None, length, option_map};
ghost use Rattle.std.specs.List.{AllByRecursion};
ghost use Rattle.ts_base.specs.Limits.{too_many};
ghost use Rattle.ts_bound.specs.TermSpans.{LooksIn, term_span};
ghost use Rattle.ts_domain.specs.BoxSeries.{IsCell, cell_of};
ghost use Rattle.ts_filter.specs.Boxes.{only};
ghost use Rattle.ts_filter.specs.Drops.{IsFirstDrop, IsFirstOf};
ghost use Rattle.ts_filter.specs.FirstCell.{IsFirstCell};
ghost use Rattle.ts_filter.specs.KeptCells.{AreKept, IsKeptIfKnown, Tells};
ghost use Rattle.ts_filter.specs.MachineSpans.{spans_of};
ghost use Rattle.ts_filter.specs.OfTerm.{OfTerm};
ghost use Rattle.ts_filter.specs.Question.{Excludes};
ghost use Rattle.ts_filter.specs.TermDrops.{IsDropUpTo};

use crate::all_tables::AllTables;
use crate::drops::{Removal, earlier, last_asked};
use crate::kept_cells::{KeptCells, KeptTerm};
use crate::question::Question;
use crate::spares::Spares;
use crate::term_requirements::TermRequirements;
use std::alloc::Global;
use ts_base::{Goal, Memory};
use ts_domain::Boxed;
use ts_model::Require;

impl<'a> AllTables<'a> {
    /// Whether no number of the term's span at cell `p` does what is asked. For a machine that can't be split only the
    /// last cell may be asked about.
    pub(crate) fn excluded_at(
        &mut self,
        alloc: Global,
        term: u32,
        asked: Question<'_>,
        p: u32,
        cells: &Boxed,
    ) -> Result<bool, Memory>
        requires there { term < length self.old.machines }
        requires cell { IsCell p cells.now }
        requires usable { OfTerm self.old.machines term (λ a. a.pair ≡ None → p ≡ length cells.now.present) }
        requires looks { OfTerm self.old.machines term (λ a. LooksIn a cells.now.present) }
        requires on { self.old.cells ≡ cells.now.present }
        ensures same { self.new ≡ self.old }
        ensures answered { IfOk result (λ told. OfTerm self.old.machines term (λ a. IsTrue told
            ↔ Excludes asked.entry (term_span a p cells.now.present))) }
    {
        let keeps = self.keeps;
        let tables = &mut self.each[term as usize];
        let told = tables.excluded_at(alloc, asked, p, cells);
        tables.leave(keeps);
        told
    }

    /// Whether no number of the term's span at cell `k` does what is asked, on the box with the value `v` alone there.
    pub(crate) fn value_excluded_at(
        &mut self,
        alloc: Global,
        term: u32,
        asked: Question<'_>,
        k: u32,
        v: i64,
        cells: &Boxed,
    ) -> Result<bool, Memory>
        requires there { term < length self.old.machines }
        requires cell { IsCell k cells.now }
        requires usable { OfTerm self.old.machines term (λ a. a.pair ≡ None → k ≡ length cells.now.present) }
        requires looks { OfTerm self.old.machines term (λ a. LooksIn a cells.now.present) }
        requires value { Contains (cell_of k cells.now) v }
        requires on { self.old.cells ≡ cells.now.present }
        ensures same { self.new ≡ self.old }
        ensures answered { IfOk result (λ told. OfTerm self.old.machines term (λ a. IsTrue told
            ↔ Excludes asked.entry (term_span a k (only k v cells.now.present)))) }
    {
        let keeps = self.keeps;
        let tables = &mut self.each[term as usize];
        let told = tables.value_excluded_at(alloc, asked, k, v, cells);
        tables.leave(keeps);
        told
    }

    /// The least cell below the last at which no number of the term's span does what is asked. None exactly where there
    /// is no such cell, as for every machine that can't be split.
    pub(crate) fn first_excluded(
        &mut self,
        alloc: Global,
        term: u32,
        asked: Question<'_>,
        cells: &Boxed,
    ) -> Result<Option<u32>, Memory>
        requires there { term < length self.old.machines }
        requires looks { OfTerm self.old.machines term (λ a. LooksIn a cells.now.present) }
        requires on { self.old.cells ≡ cells.now.present }
        ensures same { self.new ≡ self.old }
        ensures found { IfOk result (λ found. OfTerm self.old.machines term
            (λ a. IsFirstCell a (Excludes asked.entry) cells.now.present found)) }
    {
        let keeps = self.keeps;
        let tables = &mut self.each[term as usize];
        let found = tables.first_excluded(alloc, asked, cells);
        tables.leave(keeps);
        found
    }

    /// The possible drop with the least cell, then the least value, then the least requirement; none exactly where none
    /// is possible. It is looked for one term after another, up to the cell of the one that was found before: so rows
    /// of one term alone are there at a time.
    pub(crate) fn first_by_terms<S: Spares>(
        &mut self,
        alloc: Global,
        requirements: &[Require],
        cells: &Boxed,
        kept: &KeptCells,
        spares: &S,
    ) -> Result<Option<Removal>, Memory>
        requires machines { length self.old.machines < too_many }
        requires requirements { length requirements.now < too_many }
        requires terms { AllByRecursion (λ r. r.term < length self.old.machines) requirements.now }
        requires looks { AllByRecursion (λ a. LooksIn a cells.now.present) self.old.machines }
        requires kept { AreKept requirements.now (spans_of self.old.machines) cells.now.present kept.now }
        requires spares { S.knows requirements.now (spans_of self.old.machines) cells.now.present spares.now }
        requires on { self.old.cells ≡ cells.now.present }
        ensures same { self.new ≡ self.old }
        ensures found { IfOk result
            (λ found. IsFirstDrop requirements.now (spans_of self.old.machines) cells.now.present found) }
    {
        let mut first = None;
        for term in 0..self.each.len() {
            let last = last_asked(first, cells);
            let known = kept.of_term(term);
            let t = term as u32;
            let found = self.first_drop(alloc, t, requirements, last, known, spares, cells)?;
            first = earlier(first, found);
        }
        Ok(first)
    }

    /// The first of the drops by the requirements of the term, up to cell `last`: that with the least cell, then the
    /// least value, then the least requirement. None exactly where none is possible. `kept` is what is known of the
    /// term.
    fn first_drop<S: Spares>(
        &mut self,
        alloc: Global,
        term: u32,
        requirements: &[Require],
        last: u32,
        kept: Option<&KeptTerm>,
        spares: &S,
        cells: &Boxed,
    ) -> Result<Option<Removal>, Memory>
        requires there { term < length self.old.machines }
        requires requirements { length requirements.now < too_many }
        requires looks { OfTerm self.old.machines term (λ a. LooksIn a cells.now.present) }
        requires kept { OfTerm self.old.machines term
            (λ a. IsKeptIfKnown requirements.now term a cells.now.present (option_map (λ t. t.now) kept)) }
        requires spares { OfTerm self.old.machines term
            (λ a. Tells S.knows requirements.now term a cells.now.present spares.now) }
        requires on { self.old.cells ≡ cells.now.present }
        ensures same { self.new ≡ self.old }
        ensures found { IfOk result (λ found. OfTerm self.old.machines term
            (λ a. IsFirstOf (IsDropUpTo requirements.now term a cells.now.present last) found)) }
    {
        match TermRequirements::among(requirements, term) {
            Some(own) => self.drop_by(alloc, own, last, kept, spares, cells),
            None => Ok(None),
        }
    }

    /// The first of the drops by these requirements, up to cell `last`.
    fn drop_by<S: Spares>(
        &mut self,
        alloc: Global,
        own: TermRequirements<'_>,
        last: u32,
        kept: Option<&KeptTerm>,
        spares: &S,
        cells: &Boxed,
    ) -> Result<Option<Removal>, Memory>
        requires there { own.term < length self.old.machines }
        requires looks { OfTerm self.old.machines own.term (λ a. LooksIn a cells.now.present) }
        requires kept { OfTerm self.old.machines own.term
            (λ a. IsKeptIfKnown own.all.now own.term a cells.now.present (option_map (λ t. t.now) kept)) }
        requires spares { OfTerm self.old.machines own.term
            (λ a. Tells S.knows own.all.now own.term a cells.now.present spares.now) }
        requires on { self.old.cells ≡ cells.now.present }
        ensures same { self.new ≡ self.old }
        ensures found { IfOk result (λ found. OfTerm self.old.machines own.entry.term
            (λ a. IsFirstOf (IsDropUpTo own.entry.all.now own.entry.term a cells.now.present last) found)) }
    {
        let keeps = self.keeps;
        let tables = &mut self.each[own.term as usize];
        let found = tables.first_drop(alloc, own, last, kept, spares, cells);
        tables.leave(keeps);
        found
    }
}
