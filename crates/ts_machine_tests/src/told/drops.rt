//! The first drop by requirements that a line writes.

ghost use Rattle.std.specs.Prelude.{◌<◌, ℤ, IfOk, IfSome, List, length};
ghost use Rattle.std.specs.List.{AllByRecursion};
ghost use Rattle.ts_base.specs.Limits.{too_many};
ghost use Rattle.ts_bound.specs.TermSpans.{LooksIn, automata_of};
ghost use Rattle.ts_model.specs.declared.model.Require.{Require};

use super::kept_cells::drop_by_kept;
use super::machines::plain;
use super::written::{end, word};
use std::alloc::Global;
use std::slice;
use std::test::Fail;
use ts_base::Ext;
use ts_domain::Boxed;
use ts_filter::{Removal, next_drop};
use ts_glue::Machine;
use ts_model::{Op, Require};

fn op_of(written: &str) -> Option<Op> {
    match written {
        "=" => Some(Op::Equal),
        "!=" => Some(Op::Unequal),
        "<=" => Some(Op::AtMost),
        ">=" => Some(Op::AtLeast),
        "<" => Some(Op::Below),
        ">" => Some(Op::Above),
        _ => None,
    }
}

/// A requirement on one of this many terms.
fn requirement_of(written: &str, terms: u32) -> Option<Require>
    ensures { IfSome result (λ (r : Require). r.term < terms) }
{
    let term = word(written, 0).parse::<u32>().ok()?;
    let op = op_of(word(written, 1))?;
    let bound = end(word(written, 2), Ext::Int(0))?;
    if term < terms {
        Some(Require { term, op, bound })
    } else {
        None
    }
}

/// Fewer than nine requirements on this many terms.
fn requirements_of(alloc: Global, written: &str, terms: u32) -> Option<Vec<Require>>
    ensures few { IfSome result (λ v. length v.items < too_many) }
    ensures terms { IfSome result (λ v. AllByRecursion (λ (r : Require). r.term < terms) v.items) }
{
    let mut requirements = Vec::new(alloc);
    for part in written.split(',') {
        if word(part, 0) != "" {
            requirements.push(requirement_of(part, terms)?).ok()?;
        }
    }
    if requirements.len() < 9 {
        Some(requirements)
    } else {
        None
    }
}

/// Whether this is the drop that is written: a cell, a value and a requirement.
fn is_drop(found: Option<Removal>, written: &str) -> bool {
    match found {
        None => word(written, 0) == "none",
        Some(
            Removal {
                cell,
                value,
                require,
            },
        ) => {
            word(written, 0).parse::<u32>().ok() == Some(cell)
                && word(written, 1).parse::<i64>().ok() == Some(value)
                && word(written, 2).parse::<u32>().ok() == Some(require)
        }
    }
}

/// Whether this is the first drop, also where nothing is asked at some cells without a drop.
fn drops_so(
    alloc: Global,
    m: &Machine,
    requirements: &[Require],
    cells: &Boxed,
    first: &str,
) -> Result<bool, Fail>
    requires looks { LooksIn (automata_of m.now) cells.now.present }
    requires few { length requirements.now < too_many }
    requires terms { AllByRecursion (λ r. r.term < 1) requirements.now }
{
    let found = next_drop(alloc, slice::from_ref(m), requirements, cells)?;
    let by_kept = drop_by_kept(alloc, m, requirements, cells)?;
    Ok(is_drop(found, first) && is_drop(by_kept, first))
}

/// Whether the first drop by requirements on the one term is the one that is written.
pub(super) fn drop_holds(
    alloc: Global,
    m: &Machine,
    cells: &Boxed,
    written: &str,
) -> Result<bool, Fail>
    requires { LooksIn (automata_of m.now) cells.now.present }
{
    let (wanted, first) = written.split_once(':').ok_or("no drop")?;
    let requirements = requirements_of(alloc, wanted, 1).ok_or("no requirements")?;
    drops_so(alloc, m, &requirements, cells, first)
}

/// The automata of the sum, the greatest and the least of the widths of peaks.
fn widths(alloc: Global) -> Result<[Machine; 3], Fail>
    ensures { IfOk result (λ all. (cells : List (List ℤ)) → AllByRecursion (λ m. LooksIn (automata_of m) cells) all) }
{
    Ok([
        plain(alloc, "sum_width_peak")?,
        plain(alloc, "max_width_peak")?,
        plain(alloc, "min_width_peak")?,
    ])
}

/// Whether the first drop by requirements on the automata of the widths of peaks is the one that is written.
pub(super) fn drop_of_widths_holds(
    alloc: Global,
    cells: &Boxed,
    written: &str,
) -> Result<bool, Fail> {
    let (wanted, first) = written.split_once(':').ok_or("no drop")?;
    let requirements = requirements_of(alloc, wanted, 3).ok_or("no requirements")?;
    let machines = widths(alloc)?;
    let found = next_drop(alloc, &machines, &requirements, cells)?;
    Ok(is_drop(found, first))
}
