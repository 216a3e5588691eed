//! The values of a cell in a list of their own, as packed rows read them.

ghost use Rattle.std.specs.Prelude.{◌≡◌, ◌≤◌, [], IfOk, IsTrue, OnErr};
ghost use Rattle.ts_base.specs.Limits.{IsCellValue};
ghost use Rattle.ts_domain.specs.Values.{run};

use crate::places::is_run;
use std::alloc::Global;
use std::marker::Model;
use ts_base::Memory;
use ts_domain::Domain;
use ts_row::Cell;

/// The values of a cell in rising order, and whether they have no gap. They are listed once a cell, for all machines.
#[derive(Drop)]
pub struct CellValues {
    values: Vec<i64>,
    is_run: bool,
}

impl Model for CellValues {
    ghost use Rattle.std.specs.Prelude.{ℤ, List};
    ghost use Rattle.ts_bound.specs.CellLists.{AreLent};

    ghost Value = { List ℤ };

    ghost view = { λ c. c.values.items };

    ghost invariant = { λ c. AreLent c.values.items c.is_run };
}

/// Puts the values of a domain into a list, in its memory. After `Memory` the list is empty.
fn take_values(values: &mut Vec<i64>, domain: &Domain) -> Result<(), Memory>
    ensures taken { IfOk result (λ u. values.new.items ≡ domain.now) }
    ensures emptied { OnErr result (values.new.items ≡ []) }
{
    values.clear();
    match values.extend(domain.values()) {
        Ok(()) => Ok(()),
        Err(_) => {
            values.clear();
            Err(Memory)
        }
    }
}

/// Puts `count` values of a domain from `low` on, with gaps or without, into a list, in its memory. After `Memory` the
/// list is empty.
fn take_all(
    values: &mut Vec<i64>,
    domain: &Domain,
    low: i64,
    count: usize,
    gapless: bool,
) -> Result<(), Memory>
    requires low { IsCellValue low }
    requires few { count ≤ 2000001 }
    requires run { IsTrue gapless → domain.now ≡ run low count }
    ensures taken { IfOk result (λ u. values.new.items ≡ domain.now) }
    ensures emptied { OnErr result (values.new.items ≡ []) }
{
    if gapless {
        take_run(values, low, count)
    } else {
        take_values(values, domain)
    }
}

/// Puts `count` numbers from `low` on into a list, in its memory. After `Memory` the list is empty.
fn take_run(values: &mut Vec<i64>, low: i64, count: usize) -> Result<(), Memory>
    requires low { IsCellValue low }
    requires few { count ≤ 2000001 }
    ensures taken { IfOk result (λ u. values.new.items ≡ run low count) }
    ensures emptied { OnErr result (values.new.items ≡ []) }
{
    values.clear();
    values.reserve(count)?;
    for i in 0..count {
        values.push_reserved(low + i as i64);
    }
    Ok(())
}

impl CellValues {
    /// A list without values.
    pub fn empty(alloc: Global) -> CellValues
        ensures { result ≡ [] }
    {
        CellValues {
            values: Vec::new(alloc),
            is_run: false,
        }
    }

    /// The values of a domain.
    pub fn of(alloc: Global, domain: &Domain) -> Result<CellValues, Memory>
        ensures { IfOk result (λ c. c ≡ domain.now) }
    {
        let mut cell = CellValues::empty(alloc);
        cell.reset(domain)?;
        Ok(cell)
    }

    /// Takes the values of another domain, in the same memory. After `Memory` there is no value.
    #[tactic(auto, using(crate::proofs::ValueLaws::domain_end, crate::proofs::ValueLaws::domain_few))]
    pub(crate) fn reset(&mut self, domain: &Domain) -> Result<(), Memory>
        ensures values { IfOk result (λ u. self.new ≡ domain.now) }
        ensures emptied { OnErr result (self.new ≡ []) }
    {
        let count = domain.size() as usize;
        let ends = domain.ends();
        let gapless = is_run(ends.low, ends.high, count);
        self.is_run = false;
        take_all(&mut self.values, domain, ends.low, count, gapless)?;
        self.is_run = gapless;
        Ok(())
    }

    /// The values, borrowed by a row.
    pub fn lend(&self) -> Cell<'_>
        ensures { result.values.now ≡ self.now }
    {
        Cell {
            values: &self.values,
            is_run: self.is_run,
        }
    }
}
