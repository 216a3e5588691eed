//! A model, and what its requirements exclude on a box.

ghost use Rattle.std.specs.Prelude.{◌≡◌, ◌≤◌, Contains, IfOk, IsTrue, OnOk};
ghost use Rattle.ts_base.specs.Limits.{most_requirements};
ghost use Rattle.ts_compile.specs.Programs.{IsProgramOf};
ghost use Rattle.ts_domain.specs.BoxSeries.{IsCell, cell_of};
ghost use Rattle.ts_filter.specs.Boxes.{only};
ghost use Rattle.ts_model.specs.Views.{model_parts};
ghost use Rattle.ts_search.specs.Drops.{least, next_drop};
ghost use Rattle.ts_search.specs.LineOf.{inner, last, is_refuted_at, requirements};
ghost use Rattle.ts_search.specs.Posed.{IsIdle, IsPosed, MayAsk, MayBring};
ghost use Rattle.ts_search.specs.Shown.{AreShown};
ghost use Rattle.ts_search.specs.Views.{search_of};
ghost use Rattle.ts_spans.specs.Machines.{automata_in};

use crate::witnesses::Witnesses;
use std::alloc::Global;
use ts_base::Memory;
use ts_compile::Program;
use ts_domain::Boxed;
use ts_filter::{AllTables, Removal};
use ts_model::Model;

/// A model whose boxes are searched.
#[derive(Drop)]
pub(crate) struct Problem<'a> {
    pub(crate) model: &'a Model,
}

impl<'a> Problem<'a> {
    /// The number of cells.
    pub(crate) fn last(&self) -> u32
        requires { IsPosed self.now }
        ensures { result ≡ last (search_of self.now) }
    {
        self.model.cells.len() as u32
    }

    /// The number of requirements.
    pub(crate) fn requirements(&self) -> u32
        requires { IsPosed self.now }
        ensures count { result ≡ requirements (search_of self.now) }
        ensures few { result ≤ most_requirements }
    {
        self.model.requirements.len() as u32
    }

    /// Whether nothing is asked of tables: the model has neither a requirement nor an objective.
    fn is_idle(&self) -> bool
        ensures { IsTrue result → IsIdle self.now }
    {
        self.model.requirements.is_empty() && self.model.objective.is_none()
    }

    /// Brings the tables to a box, unless nothing is asked of them.
    pub(crate) fn bring_tables(
        &self,
        alloc: Global,
        tables: &mut AllTables<'_>,
        cells: &Boxed,
    ) -> Result<(), Memory>
        requires asked { MayBring self.now tables.old.machines cells.now.present }
        ensures machines { tables.new.machines ≡ tables.old.machines }
        ensures asked { OnOk result (MayAsk self.now tables.new cells.now.present) }
    {
        if self.is_idle() {
            return Ok(());
        }
        tables.bring(alloc, cells)
    }

    /// Whether requirement `j`, counted from 1, is refuted at the last cell. No table is asked where its witness meets
    /// it.
    pub(crate) fn is_refuted(
        &self,
        alloc: Global,
        tables: &mut AllTables<'_>,
        witnesses: &Witnesses<'_>,
        j: u32,
        cells: &Boxed,
    ) -> Result<bool, Memory>
        requires asked { MayAsk self.now tables.old cells.now.present }
        requires shown { AreShown self.now witnesses.now cells.now.present }
        requires from { 1 ≤ j }
        requires to { j ≤ requirements (search_of self.now) }
        ensures same { tables.new ≡ tables.old }
        ensures answered { IfOk result
            (λ answer. answer ≡ is_refuted_at (search_of self.now) j (last (search_of self.now)) cells.now.present) }
    {
        if witnesses.shows(j) {
            return Ok(false);
        }
        let require = &self.model.requirements[j as usize - 1];
        tables.refuted(alloc, require, cells.cells(), cells)
    }

    /// The least cell below the last at which requirement `j` is refuted. No table is asked where its witness meets it.
    pub(crate) fn first_refuted(
        &self,
        alloc: Global,
        tables: &mut AllTables<'_>,
        witnesses: &Witnesses<'_>,
        j: u32,
        cells: &Boxed,
    ) -> Result<Option<u32>, Memory>
        requires asked { MayAsk self.now tables.old cells.now.present }
        requires shown { AreShown self.now witnesses.now cells.now.present }
        requires from { 1 ≤ j }
        requires to { j ≤ requirements (search_of self.now) }
        ensures same { tables.new ≡ tables.old }
        ensures found { IfOk result (λ found. found
            ≡ least (λ p. is_refuted_at (search_of self.now) j p cells.now.present) (inner (search_of self.now)) 1) }
    {
        if witnesses.shows(j) {
            return Ok(None);
        }
        let require = &self.model.requirements[j as usize - 1];
        tables.first_refuted(alloc, require, cells)
    }

    /// Whether requirement `j`, counted from 1, is refuted at cell `k` on the box with the value `v` alone there.
    pub(crate) fn refutes_value(
        &self,
        alloc: Global,
        tables: &mut AllTables<'_>,
        j: u32,
        k: u32,
        v: i64,
        cells: &Boxed,
    ) -> Result<bool, Memory>
        requires asked { MayAsk self.now tables.old cells.now.present }
        requires from { 1 ≤ j }
        requires to { j ≤ requirements (search_of self.now) }
        requires cell { IsCell k cells.now }
        requires value { Contains (cell_of k cells.now) v }
        ensures same { tables.new ≡ tables.old }
        ensures answered { IfOk result
            (λ answer. answer ≡ is_refuted_at (search_of self.now) j k (only k v cells.now.present)) }
    {
        let require = &self.model.requirements[j as usize - 1];
        if tables.is_plain(require.term) && k < cells.cells() {
            return Ok(false);
        }
        tables.refuted_value(alloc, require, k, v, cells)
    }

    /// The drop that comes next; without a requirement there is none. Nothing is asked of tables where the witnesses
    /// show that no value is dropped, and no span of a value with which they still meet the requirements.
    pub(crate) fn next_drop(
        &self,
        alloc: Global,
        tables: &mut AllTables<'_>,
        witnesses: &mut Witnesses<'_>,
        cells: &Boxed,
    ) -> Result<Option<Removal>, Memory>
        requires asked { MayAsk self.now tables.old cells.now.present }
        requires shown { AreShown self.now witnesses.old cells.now.present }
        ensures same { tables.new ≡ tables.old }
        ensures shown { AreShown self.now witnesses.new cells.now.present }
        ensures found { IfOk result (λ found.
            found ≡ next_drop (search_of self.now).model (search_of self.now).spans cells.now.present) }
    {
        if self.requirements() == 0 {
            return Ok(None);
        }
        witnesses.mark(self, cells);
        let shown: &Witnesses<'_> = witnesses;
        tables.next_drop(alloc, &self.model.requirements, cells, &shown.kept, shown)
    }
}

/// The tables of the terms of a model whose program this is. They are kept from box to box while those of the terms
/// that are named, of the model's box, take little memory.
pub(crate) fn tables_of<'a>(
    alloc: Global,
    m: &Model,
    p: &'a Program,
) -> Result<AllTables<'a>, Memory>
    requires { IsProgramOf p.now m.now }
    ensures { IfOk result (λ t. t.machines ≡ automata_in (model_parts m.now)) }
{
    AllTables::new(alloc, p.machines(), &m.requirements, m.objective, &m.cells)
}
