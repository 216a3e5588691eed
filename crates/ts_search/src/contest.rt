//! The search for a best series: what its objective cuts on a box, which value of a cell it keeps, and its value on a
//! series.

ghost use Rattle.std.specs.Prelude.{◌≡◌, IfOk};
ghost use Rattle.ts_domain.specs.BoxSeries.{InBox, IsCell};
ghost use Rattle.ts_search.specs.Dive.{kept_value, value_of};
ghost use Rattle.ts_search.specs.Drops.{least};
ghost use Rattle.ts_search.specs.LineOf.{bar_of, counts_for, is_cut_at, cut_by, inner, last};
ghost use Rattle.ts_search.specs.Posed.{HasObjective, IsPosed, MayAsk};
ghost use Rattle.ts_search.specs.Views.{contest_of, find_of, search_of};

use crate::found::FoundSeries;
use crate::problem::Problem;
use std::alloc::Global;
use ts_base::{Ext, Goal, Memory};
use ts_compile::value_of;
use ts_domain::Boxed;
use ts_filter::{AllTables, Bar, counts};

/// A problem with a goal and the term that is the model's objective; and the series of the dive, where there is one.
#[derive(Drop)]
pub(crate) struct Contest<'a> {
    pub(crate) problem: Problem<'a>,
    pub(crate) goal: Goal,
    pub(crate) objective: u32,
    pub(crate) warm: Option<FoundSeries>,
}

impl<'a> Contest<'a> {
    /// What a series has to reach: to be better than the incumbent, or as good as the dive's series if none was found.
    pub(crate) fn bar(&self, found: &Option<FoundSeries>) -> Option<Bar>
        ensures { result ≡ bar_of (find_of found.now) (contest_of self.now).warm }
    {
        match (found, &self.warm) {
            (Some(found), _) => Some(Bar::Better(found.value)),
            (None, Some(warm)) => Some(Bar::AsGood(warm.value)),
            (None, None) => None,
        }
    }

    /// Whether no number of the objective's span at the last cell reaches the bar that the incumbent or the dive sets.
    pub(crate) fn is_cut(
        &self,
        alloc: Global,
        tables: &mut AllTables<'_>,
        found: &Option<FoundSeries>,
        cells: &Boxed,
    ) -> Result<bool, Memory>
        requires objective { HasObjective self.now }
        requires asked { MayAsk self.now.problem tables.old cells.now.present }
        ensures same { tables.new ≡ tables.old }
        ensures answered { let bar = bar_of (find_of found.now) (contest_of self.now).warm in IfOk result
            (λ cut. cut ≡ cut_by (contest_of self.now) bar (last (search_of self.now.problem)) cells.now.present) }
    {
        match self.bar(found) {
            Some(bar) => self.is_cut_by(alloc, tables, bar, cells),
            None => Ok(false),
        }
    }

    /// Whether no number of the objective's span at the last cell reaches this bar.
    fn is_cut_by(
        &self,
        alloc: Global,
        tables: &mut AllTables<'_>,
        bar: Bar,
        cells: &Boxed,
    ) -> Result<bool, Memory>
        requires objective { HasObjective self.now }
        requires asked { MayAsk self.now.problem tables.old cells.now.present }
        ensures same { tables.new ≡ tables.old }
        ensures answered { IfOk result
            (λ cut. cut ≡ is_cut_at (contest_of self.now) (last (search_of self.now.problem)) cells.now.present bar) }
    {
        tables.cut_at_end(alloc, self.objective, self.goal, cells, bar)
    }

    /// The least cell below the last at which no number of the objective's span reaches the bar that the incumbent or
    /// the dive sets.
    pub(crate) fn first_cut(
        &self,
        alloc: Global,
        tables: &mut AllTables<'_>,
        found: &Option<FoundSeries>,
        cells: &Boxed,
    ) -> Result<Option<u32>, Memory>
        requires objective { HasObjective self.now }
        requires asked { MayAsk self.now.problem tables.old cells.now.present }
        ensures same { tables.new ≡ tables.old }
        ensures found { let bar = bar_of (find_of found.now) (contest_of self.now).warm in IfOk result (λ cell. cell
            ≡ least (λ p. cut_by (contest_of self.now) bar p cells.now.present)
            (inner (search_of self.now.problem)) 1) }
    {
        match self.bar(found) {
            Some(bar) => self.first_cut_by(alloc, tables, bar, cells),
            None => Ok(None),
        }
    }

    /// The least cell below the last at which no number of the objective's span reaches this bar.
    fn first_cut_by(
        &self,
        alloc: Global,
        tables: &mut AllTables<'_>,
        bar: Bar,
        cells: &Boxed,
    ) -> Result<Option<u32>, Memory>
        requires objective { HasObjective self.now }
        requires asked { MayAsk self.now.problem tables.old cells.now.present }
        ensures same { tables.new ≡ tables.old }
        ensures found { IfOk result (λ cell. cell
            ≡ least (λ p. is_cut_at (contest_of self.now) p cells.now.present bar)
            (inner (search_of self.now.problem)) 1) }
    {
        tables.first_cut(alloc, self.objective, self.goal, cells, bar)
    }

    /// Whether a series with the objective's value `v` reaches what `bar` says.
    pub(crate) fn counts(&self, found: &Option<FoundSeries>, v: Ext) -> bool
        ensures { result
            ≡ counts_for (contest_of self.now) (bar_of (find_of found.now) (contest_of self.now).warm) v }
    {
        match self.bar(found) {
            None => true,
            Some(bar) => counts(self.goal, bar, v),
        }
    }

    /// The value that cell `k` keeps in the dive.
    pub(crate) fn kept_value(
        &self,
        alloc: Global,
        tables: &mut AllTables<'_>,
        k: u32,
        cells: &Boxed,
    ) -> Result<i64, Memory>
        requires objective { HasObjective self.now }
        requires asked { MayAsk self.now.problem tables.old cells.now.present }
        requires cell { IsCell k cells.now }
        ensures same { tables.new ≡ tables.old }
        ensures kept { let s = search_of self.now.problem in
            IfOk result (λ v. v ≡ kept_value s.model s.spans self.now.goal k cells.now.present) }
    {
        tables.kept_value(alloc, self.objective, self.goal, k, cells)
    }

    /// The objective's value on a series of the model's box.
    pub(crate) fn value(&self, alloc: Global, series: &[i64]) -> Result<Ext, Memory>
        requires objective { HasObjective self.now }
        requires posed { IsPosed self.now.problem }
        requires series { InBox series.now (search_of self.now.problem).model.cells }
        ensures { IfOk result (λ v. v ≡ value_of (search_of self.now.problem).model series.now) }
    {
        value_of(alloc, self.problem.model, self.objective, series)
    }
}
