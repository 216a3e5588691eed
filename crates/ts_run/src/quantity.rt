//! Numbers in the words of commands, each a type that keeps its range.

ghost use Rattle.std.specs.Prelude.{◌≡◌};
ghost use Rattle.ts_base.specs.Limits.{most_cells, most_checked, most_listed};
ghost use Rattle.ts_run.specs.Quantities.{IsWithin, number_within, usual_lines};

use std::marker::Model;
use ts_base::limits::{CELLS, CHECKED, LISTED};
use ts_token::number;

/// How many lines a search may check, 1 to 4,000,000; 100,000 where no number is given.
#[derive(Clone, Copy, Debug, PartialEq, Eq)]
pub struct Budget {
    lines: u32,
}

impl Model for Budget {
    ghost use Rattle.std.specs.Prelude.{ℕ};
    ghost use Rattle.ts_base.specs.Limits.{most_checked};
    ghost use Rattle.ts_run.specs.Quantities.{IsWithin};

    ghost Value = { ℕ };

    ghost view = { λ b. b.lines };

    ghost invariant = { λ b. IsWithin 1 most_checked b.lines };

    ghost inverse = { λ n. record { lines = n } };
}

impl Budget {
    /// The lines of the budget where no number is given.
    pub const USUAL: u32 = 100_000;

    /// The budget that the word is: None exactly where it isn't a number from 1 to 4,000,000.
    pub fn of(word: &[u8]) -> Option<Self>
        ensures { result ≡ number_within 1 most_checked word.now }
    {
        let lines = number_within(word, 1, CHECKED)?;
        Some(Budget { lines })
    }

    /// The lines, 1 to 4,000,000.
    pub fn lines(self) -> u32
        ensures value { result ≡ self }
        ensures range { IsWithin 1 most_checked result }
    {
        self.lines
    }
}

impl Default for Budget {
    ghost is_default = { λ b. b ≡ usual_lines };

    /// The budget where none is given, 100,000 lines.
    fn default() -> Self {
        Budget {
            lines: Budget::USUAL,
        }
    }
}

/// How many series are to be listed, 1 to 5,000.
#[derive(Clone, Copy, Debug, PartialEq, Eq)]
pub struct Count {
    series: u32,
}

impl Model for Count {
    ghost use Rattle.std.specs.Prelude.{ℕ};
    ghost use Rattle.ts_base.specs.Limits.{most_listed};
    ghost use Rattle.ts_run.specs.Quantities.{IsWithin};

    ghost Value = { ℕ };

    ghost view = { λ c. c.series };

    ghost invariant = { λ c. IsWithin 1 most_listed c.series };

    ghost inverse = { λ n. record { series = n } };
}

impl Count {
    /// The count that the word is: None exactly where it isn't a number from 1 to 5,000.
    pub fn of(word: &[u8]) -> Option<Self>
        ensures { result ≡ number_within 1 most_listed word.now }
    {
        let series = number_within(word, 1, LISTED)?;
        Some(Count { series })
    }

    /// The series, 1 to 5,000.
    pub fn series(self) -> u32
        ensures value { result ≡ self }
        ensures range { IsWithin 1 most_listed result }
    {
        self.series
    }
}

/// How many cells a model is made with, 1 to 512.
#[derive(Clone, Copy, Debug, PartialEq, Eq)]
pub struct Cells {
    cells: u32,
}

impl Model for Cells {
    ghost use Rattle.std.specs.Prelude.{ℕ};
    ghost use Rattle.ts_base.specs.Limits.{most_cells};
    ghost use Rattle.ts_run.specs.Quantities.{IsWithin};

    ghost Value = { ℕ };

    ghost view = { λ c. c.cells };

    ghost invariant = { λ c. IsWithin 1 most_cells c.cells };

    ghost inverse = { λ n. record { cells = n } };
}

impl Cells {
    /// The number of cells that the word is: None exactly where it isn't a number from 1 to 512.
    pub fn of(word: &[u8]) -> Option<Self>
        ensures { result ≡ number_within 1 most_cells word.now }
    {
        let cells = number_within(word, 1, CELLS as u32)?;
        Some(Cells { cells })
    }

    /// The cells, 1 to 512.
    pub fn cells(self) -> u32
        ensures value { result ≡ self }
        ensures range { IsWithin 1 most_cells result }
    {
        self.cells
    }
}

/// The number that the word is, where it is one from `least` to `most`.
fn number_within(word: &[u8], least: u32, most: u32) -> Option<u32>
    ensures { result ≡ number_within least most word.now }
{
    match number(word) {
        Some(n) if n >= i64::from(least) && n <= i64::from(most) => Some(n as u32),
        _ => None,
    }
}
