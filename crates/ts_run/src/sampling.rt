//! The model of `sample N`.

ghost use Rattle.std.specs.Prelude.{◌≡◌, ◌≤◌, ◌%◌, ◌*◌, IfOk, map, vec_len};
ghost use Rattle.ts_base.specs.Limits.{most_cells};
ghost use Rattle.ts_model.specs.declared.model.Need.TheVariants.{Best as NeedsBest};
ghost use Rattle.ts_model.specs.Promise.{IsWhole, KeepsLimits};
ghost use Rattle.ts_model.specs.Views.{model_parts, term_of, with_windows};
ghost use Rattle.ts_run.specs.Quantities.{IsWithin};
ghost use Rattle.ts_run.specs.SampleModel.{cells_from, no_windows, sample_stated, six_from};

use indexmap::IndexMap;
use std::alloc::Global;
use ts_base::{Ext, Memory};
use ts_domain::{Domain, DomainStop};
use ts_model::{Model, Op, Require, Window};
use ts_pattern::{Aggregator, Feature, PatternId, Term};

/// The model with `n` cells, 1 to 512: cell `k` has the six values from the remainder of `7·k` by 10 on, peaks are no
/// wider than 3, and their number is the objective.
pub fn sample_model(alloc: Global, n: u32) -> Result<Model, Memory>
    requires { IsWithin 1 most_cells n }
    ensures stated { IfOk result (λ m. model_parts m ≡ sample_stated n) }
    ensures counted { IfOk result (λ m. m.n ≡ vec_len m.cells) }
    ensures windows { IfOk result (λ m. m.windows.items ≡ no_windows) }
    ensures whole { IfOk result (λ m. IsWhole (model_parts m)) }
    ensures limits { IfOk result (λ m. KeepsLimits NeedsBest (model_parts m)) }
{
    let cells = cells(alloc, n)?;
    let terms = terms(alloc)?;
    let windows = no_windows(alloc)?;
    let mut requirements = Vec::new(alloc);
    requirements.push(Require {
        term: 1,
        op: Op::AtMost,
        bound: Ext::Int(3),
    })?;
    Ok(Model {
        n,
        cells,
        terms,
        windows,
        requirements,
        objective: Some(0),
    })
}

/// The domains of the model's cells.
fn cells(alloc: Global, n: u32) -> Result<Vec<Domain>, Memory>
    requires { n ≤ most_cells }
    ensures { IfOk result (λ cells. cells.items ≡ cells_from 1 n) }
{
    let mut cells = Vec::new(alloc);
    for k in 0..n {
        cells.push(six_values(alloc, 7 * (k + 1) % 10)?)?;
    }
    Ok(cells)
}

/// The six values from `least` on.
fn six_values(alloc: Global, least: u32) -> Result<Domain, Memory>
    requires { least ≤ 9 }
    ensures { IfOk result (λ d. d ≡ six_from least) }
{
    let low = i64::from(least);
    match Domain::from_ranges(alloc, &[low], &[low + 5]) {
        Ok(domain) => Ok(domain),
        Err(DomainStop::Memory) => Err(Memory),
        Err(DomainStop::Empty) => unreachable!(),
    }
}

/// Both terms look at all cells.
fn no_windows(alloc: Global) -> Result<Vec<Option<Window>>, Memory>
    ensures { IfOk result (λ windows. windows.items ≡ no_windows) }
{
    let mut windows = Vec::new(alloc);
    windows.push(None)?;
    windows.push(None)?;
    Ok(windows)
}

/// The number of peaks, and the greatest width of one.
fn terms(alloc: Global) -> Result<IndexMap<String, Term>, Memory>
    ensures { IfOk result (λ terms. map term_of (with_windows terms.entries no_windows) ≡ (sample_stated 1).terms) }
{
    let mut terms = IndexMap::new(alloc);
    terms.insert(
        String::from_str(alloc, "c")?,
        Term {
            aggregator: Aggregator::Sum,
            feature: Feature::One,
            pattern: PatternId::Peak,
        },
    )?;
    terms.insert(
        String::from_str(alloc, "w")?,
        Term {
            aggregator: Aggregator::Max,
            feature: Feature::Width,
            pattern: PatternId::Peak,
        },
    )?;
    Ok(terms)
}
