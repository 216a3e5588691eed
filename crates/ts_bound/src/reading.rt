//! The cells that a machine looks at, in the order in which one of its automata reads them.

ghost use Rattle.std.proofs.Props.{props};
ghost use Rattle.std.specs.Prelude.{◌≡◌, ◌<◌, [], get_or, length};
ghost use Rattle.ts_base.specs.Windows.{LooksInside};

use crate::looks::{ends, looked_count};
use ts_base::Range;
use ts_domain::{Boxed, Domain};

/// The order in which the cells are read.
#[derive(Clone, Copy)]
pub enum Direction {
    FromFirst,
    FromLast,
}

/// The cells of a box that are looked at, in the order in which an automaton reads them.
#[derive(Clone, Copy)]
pub struct Reading<'a> {
    pub cells: &'a Boxed,
    pub window: Option<Range>,
    pub direction: Direction,
    pub ghost looks: { LooksInside (length cells.now.present) window } by { Prim.hlevel props },
}

impl<'a> Reading<'a> {
    ghost use Rattle.ts_bound.specs.Reading.{cells_read};
    ghost use Rattle.ts_domain.specs.BoxSeries.{IsCell};
    ghost use Rattle.ts_domain.specs.Boxes.{values_at};

    /// How many cells are read.
    pub fn count(self) -> usize
        ensures { result ≡ length (cells_read self.entry) }
    {
        looked_count(self.window, self.cells.cells()) as usize
    }

    /// The values of the cell that is read at place `i`, counted from 0.
    pub fn at(self, i: usize) -> &'a Domain
        requires { i < length (cells_read self) }
        ensures { result.now ≡ get_or (cells_read self.entry) i [] }
    {
        self.cells.cell(self.cell_of_place(i))
    }

    /// The number of the cell that is read at place `i`, counted from 0.
    fn cell_of_place(self, i: usize) -> u32
        requires { i < length (cells_read self) }
        ensures cell { IsCell result self.entry.cells.now }
        ensures values { values_at result self.entry.cells.now.present ≡ get_or (cells_read self.entry) i [] }
    {
        let (first, last) = ends(self.window, self.cells.cells());
        match self.direction {
            Direction::FromFirst => first + i as u32,
            Direction::FromLast => last - i as u32,
        }
    }
}
