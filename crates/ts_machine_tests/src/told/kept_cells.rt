//! The first drop by tables that know of cells without a drop.

ghost use Rattle.std.specs.Prelude.{◌<◌, IfOk, List, length};
ghost use Rattle.std.specs.List.{AllByRecursion};
ghost use Rattle.ts_base.specs.Limits.{too_many};
ghost use Rattle.ts_bound.specs.TermSpans.{LooksIn, automata_of};
ghost use Rattle.ts_domain.specs.BoxSeries.{IsCell};
ghost use Rattle.ts_filter.specs.KeptCells.{AreKept, AreSized};
ghost use Rattle.ts_filter.specs.RefutedWorseDrop.{Spans};
ghost use Rattle.ts_model.specs.declared.model.Require.{Require};

use std::alloc::Global;
use std::slice;
use ts_base::Memory;
use ts_base::limits::CELL_VALUE;
use ts_domain::Boxed;
use ts_filter::{AllTables, KeptCells, NothingSpared, Removal};
use ts_glue::Machine;
use ts_model::Require;

/// Keeps cell `k` of the one term if it has one value, which no requirement drops.
fn keep_single(kept: &mut KeptCells, k: u32, cells: &Boxed)
    requires cell { IsCell k cells.now }
    requires sizes { AreSized 1 (length cells.now.present) kept.old }
    requires kept { (requirements : List Require) (s : Spans) → AreKept requirements s cells.now.present kept.old }
    ensures sizes { AreSized 1 (length cells.now.present) kept.new }
    ensures kept { (requirements : List Require) (s : Spans) → AreKept requirements s cells.now.present kept.new }
{
    if cells.cell(k).size() < 2 {
        kept.keep_cell(0, k, CELL_VALUE);
    }
}

/// The cells of one value are kept.
fn singles(alloc: Global, cells: &Boxed) -> Result<KeptCells, Memory>
    ensures { IfOk result (λ kept. (requirements : List Require) (s : Spans) →
        AreKept requirements s cells.now.present kept) }
{
    let n = cells.cells();
    let mut kept = KeptCells::new(alloc, 1, n as usize)?;
    for before in 0..n {
        keep_single(&mut kept, before + 1, cells);
    }
    Ok(kept)
}

/// The first drop by requirements on the one term, where nothing is asked at the cells of one value.
pub(super) fn drop_by_kept(
    alloc: Global,
    m: &Machine,
    requirements: &[Require],
    cells: &Boxed,
) -> Result<Option<Removal>, Memory>
    requires looks { LooksIn (automata_of m.now) cells.now.present }
    requires few { length requirements.now < too_many }
    requires terms { AllByRecursion (λ r. r.term < 1) requirements.now }
{
    let kept = singles(alloc, cells)?;
    let mut tables = AllTables::new(alloc, slice::from_ref(m), requirements, None, &[])?;
    tables.bring(alloc, cells)?;
    tables.next_drop(alloc, requirements, cells, &kept, &NothingSpared)
}
