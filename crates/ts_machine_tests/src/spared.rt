//! What a series shows of a requirement that it meets: at how many cells it still does, whichever value of its domain
//! the cell gets. Such a cell need be asked of no table; a witness that showed nothing would be seen here.

ghost use Rattle.std.specs.Prelude.{◌≡◌, ◌≤◌, IfSome, IsSome, IsTrue, length};
ghost use Rattle.ts_automaton.specs.AutomatonRun.{AreCellValues};
ghost use Rattle.ts_domain.specs.BoxSeries.{IsBox};
ghost use Rattle.ts_glue.specs.Machines.{pair_of};
ghost use Rattle.ts_model.specs.declared.model.Need.TheVariants.{List as NeedsList};
ghost use Rattle.ts_model.specs.Promise.{IsWhole, KeepsLimits};
ghost use Rattle.ts_model.specs.Views.{model_parts};

use crate::boxes::within;
use std::alloc::Global;
use ts_base::Memory;
use ts_compile::compile_model;
use ts_domain::Domain;
use ts_glue::Machine;
use ts_model::{Model, Need, Require, read_model};
use ts_witness::{Spared, Witness};

static MODEL: &str = "cells 6\ndomain 0..2\nterm p = count peak\n\
    require p >= 1\nrequire p <= 1\nrequire p = 2\nrequire p != 1\n";

/// A series, and of each requirement at how many cells it is met whichever value the cell gets, by all series that
/// differ from this one in a cell; none where this one doesn't meet it.
static SPARED: [(&[i64], &[Option<u32>]); 4] = [
    (&[0, 1, 0, 0, 0, 0], &[Some(4), Some(4), None, None]),
    (&[0, 0, 0, 0, 0, 0], &[None, Some(6), None, Some(2)]),
    (&[0, 1, 0, 1, 0, 0], &[Some(6), None, Some(2), Some(2)]),
    (&[0, 1, 0, 0, 1, 0], &[Some(6), None, Some(2), Some(2)]),
];

// The tables behind functions, so that no proof reads them.
fn rows() -> &'static [(&'static [i64], &'static [Option<u32>])] {
    &SPARED
}

fn text() -> &'static str {
    MODEL
}

fn model(alloc: Global) -> Option<Model>
    ensures whole { IfSome result (λ m. IsWhole (model_parts m)) }
    ensures limits { IfSome result (λ m. KeepsLimits NeedsList (model_parts m)) }
{
    let text = text();
    if 1000 < text.len() {
        return None;
    }
    read_model(alloc, text.as_bytes(), Need::List).ok()
}

/// At how many cells the series meets the requirement whichever value the cell gets; none where it doesn't as it is.
fn cells_spared(
    alloc: Global,
    m: &Machine,
    r: &Require,
    cells: &[Domain],
    series: Vec<i64>,
) -> Result<Option<u32>, Memory>
    requires split { IsSome (pair_of m.now) }
    requires domains { IsBox cells.now }
    requires count { length series.items ≡ length cells.now }
    requires some { 1 ≤ length cells.now }
    requires few { length cells.now ≤ 9 }
    requires values { AreCellValues series.items }
{
    let mut witness = Witness::new(alloc, m, series)?;
    if !witness.holds(m, r) {
        return Ok(None);
    }
    let mut spared = Spared::new(alloc, m, cells)?;
    let mut count = 0;
    for k in 1..cells.len() as u32 + 1 {
        let values = cells[k as usize - 1].ends();
        let limit = spared.keeps_up_to(&mut witness, m, r, k, values.low, values.high);
        count += u32::from(limit == values.high);
    }
    Ok(Some(count))
}

/// Whether the number of spared cells is right for each requirement of the model, whose one term has the machine.
fn row_holds(
    alloc: Global,
    model: &Model,
    m: &Machine,
    values: &[i64],
    counts: &[Option<u32>],
) -> Option<bool>
    requires split { IsSome (pair_of m.now) }
    requires limits { KeepsLimits NeedsList (model_parts model.now) }
{
    if !within(values) || values.len() != 6 || model.cells.len() != 6 {
        return None;
    }
    for j in 0..counts.len() {
        let series = Vec::from_slice(alloc, values).ok()?;
        let require = model.requirements.get(j)?;
        let spared = cells_spared(alloc, m, require, &model.cells, series).ok()?;
        if spared != counts[j] {
            return Some(false);
        }
    }
    Some(true)
}

fn each_row_holds(alloc: Global, model: &Model, m: &Machine) -> Option<bool>
    requires split { IsSome (pair_of m.now) }
    requires limits { KeepsLimits NeedsList (model_parts model.now) }
{
    for (values, counts) in rows() {
        if !row_holds(alloc, model, m, values, counts)? {
            return Some(false);
        }
    }
    Some(true)
}

fn rows_hold(alloc: Global) -> Option<bool> {
    let model = model(alloc)?;
    let program = compile_model(alloc, &model).ok()?;
    let m = program.machines().first()?;
    if m.reverse().is_none() {
        return None;
    }
    each_row_holds(alloc, &model, m)
}

#[test]
fn cells_that_a_series_spares(rt: HostRuntime) {
    assert!(rt; rows_hold(rt.alloc()) == Some(true));
}
