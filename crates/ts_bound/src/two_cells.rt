//! The values of two cells in lists that are used again.

ghost use Rattle.std.specs.Prelude.{◌≡◌, ◌≤◌, OnOk, length};
ghost use Rattle.ts_bound.specs.Reading.{IsBefore, cells_read};

use crate::cell_values::CellValues;
use crate::reading::Reading;
use std::alloc::Global;
use std::mem;
use ts_base::Memory;

/// The values of a cell, and of the one that is read before it.
#[derive(Drop)]
pub(crate) struct TwoCells {
    pub(crate) before: CellValues,
    pub(crate) here: CellValues,
}

impl TwoCells {
    /// Lists without values.
    pub(crate) fn empty(alloc: Global) -> TwoCells {
        TwoCells {
            before: CellValues::empty(alloc),
            here: CellValues::empty(alloc),
        }
    }

    /// Lists the values of the cell before the one that is read at place `i`, if there is one.
    pub(crate) fn begin(&mut self, reading: Reading<'_>, i: usize) -> Result<(), Memory>
        requires { i ≤ length (cells_read reading) }
        ensures { OnOk result (IsBefore (cells_read reading.entry) i self.new.before) }
    {
        if i > 0 {
            self.before.reset(reading.at(i - 1))?;
        }
        Ok(())
    }

    /// The cell becomes the one before; what it had before is used again.
    pub(crate) fn go_on(&mut self)
        ensures { self.new.before ≡ self.old.here }
    {
        mem::swap(&mut self.before, &mut self.here);
    }
}
