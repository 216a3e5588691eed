//! Tables of a box become those of another one: what depends on a cell that differs is forgotten.

ghost use Rattle.std.specs.Prelude.{◌≡◌, ◌<◌, IfOk, OnOk, length};
ghost use Rattle.std.specs.List.{All};
ghost use Rattle.ts_bound.specs.TermSpans.{LooksIn};
ghost use Rattle.ts_bound.specs.Others.{AreOthers};
ghost use Rattle.ts_filter.specs.Boxes.{Box};
ghost use Rattle.ts_filter.specs.Tables.{AreRowsOfEach, machines_of};

use crate::box_tables::BoxTables;
use std::alloc::Global;
use std::mem;
use ts_base::Memory;
use ts_bound::Others;
use ts_domain::{Boxed, Domain};

/// Makes the tables of all terms, which are those of the cells that were seen, the tables of `cells`. Afterwards these
/// are the ones seen. After `Memory` the tables still are those of the cells seen.
pub(crate) fn meet(
    alloc: Global,
    each: &mut Vec<BoxTables<'_>>,
    seen: &mut Vec<Domain>,
    others: &mut Others,
    cells: &Boxed,
) -> Result<(), Memory>
    requires looks { All (λ t. LooksIn t.machine cells.now.present) each.old.items }
    requires known { AreRowsOfEach seen.old.items each.old.items }
    ensures machines { machines_of each.new.items ≡ machines_of each.old.items }
    ensures known { AreRowsOfEach seen.new.items each.new.items }
    ensures seen { OnOk result (seen.new.items ≡ cells.now.present) }
{
    if seen.len() != cells.cells() as usize {
        let copies = copied(alloc, cells)?;
        forget_all(each);
        drop(mem::replace(seen, copies));
        return Ok(());
    }
    others.find(seen.as_slice(), cells)?;
    all_meet(each, others, seen.as_slice(), cells);
    match take_over(seen, others, cells) {
        Ok(()) => Ok(()),
        Err(stop) => {
            forget_all(each);
            Err(stop)
        }
    }
}

/// The domains of all cells.
fn copied(alloc: Global, cells: &Boxed) -> Result<Vec<Domain>, Memory>
    ensures { IfOk result (λ v. v.items ≡ cells.now.present) }
{
    let mut copies = Vec::new(alloc);
    for at in 0..cells.cells() {
        copies.reserve(1)?;
        copies.push_reserved(cells.cell(at + 1).try_clone()?);
    }
    Ok(copies)
}

/// Forgets all rows.
fn forget_all(each: &mut Vec<BoxTables<'_>>)
    ensures machines { machines_of each.new.items ≡ machines_of each.old.items }
    ensures known { (cells : Box) → AreRowsOfEach cells each.new.items }
{
    for term in 0..each.len() {
        each[term].forget();
    }
}

/// Replaces the domains seen of these cells by those of the box. After `Memory` some of them are replaced.
fn take_over(seen: &mut Vec<Domain>, others: &Others, cells: &Boxed) -> Result<(), Memory>
    requires few { length seen.old.items < 4294967296 }
    requires others { AreOthers others.now.each.items seen.old.items cells.now.present }
    ensures { OnOk result (seen.new.items ≡ cells.now.present) }
{
    for i in 0..others.each.len() {
        let at = others.each[i].at;
        let domain = cells.cell(at as u32 + 1).try_clone()?;
        drop(mem::replace(&mut seen[at], domain));
    }
    Ok(())
}

/// Forgets of each term's rows those that the change of these cells reaches, from the domains `seen` to `cells`.
fn all_meet(each: &mut Vec<BoxTables<'_>>, others: &Others, seen: &[Domain], cells: &Boxed)
    requires looks { All (λ t. LooksIn t.machine cells.now.present) each.old.items }
    requires others { AreOthers others.now.each.items seen.now cells.now.present }
    ensures machines { machines_of each.new.items ≡ machines_of each.old.items }
    ensures known { AreRowsOfEach seen.now each.old.items → AreRowsOfEach cells.now.present each.new.items }
{
    for term in 0..each.len() {
        each[term].meet_others(others, seen, cells);
    }
}
