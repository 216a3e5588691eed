//! Builds the expressions, moves and states of a term's automaton.

ghost use Rattle.std.specs.Prelude.{◌≡◌, IfOk, Some};
ghost use Rattle.ts_automaton.specs.Body.{move_of, node_of};
ghost use Rattle.ts_automaton.specs.declared.expr.Atom.TheVariants.{E, F};
ghost use Rattle.ts_automaton.specs.declared.expr.Operator.TheVariants.{Fold};
ghost use Rattle.ts_automaton.specs.Formula.{Join, formula};
ghost use Rattle.ts_base.specs.declared.constant.Constant.TheVariants.{Zero};
ghost use Rattle.ts_decorate.specs.Decoration.{constant_formula, expression_operators, here, move_made, next, node_made, register_by, registers};
ghost use Rattle.ts_decorate.specs.Operators.{cells_after, range_after, ranges_after, total_of, with_all, with_last};
ghost use Rattle.ts_decorate.specs.Rows.{half_by, neutral_by, phi_by, read_by};
ghost use Rattle.ts_pattern.specs.Arithmetic.{cell_fold, less_fold, range_fold, range_op};

use std::alloc::Global;
use ts_automaton::{Expr, Operator, State, Turn};
use ts_base::{Constant, Kind, Memory};
use ts_pattern::{Aggregator, CellFold, Feature, Worth};
use ts_transducer::{Arrow, Phase, Row};

/// C with D, or E with F: the row that joins the cells of a range, if there is one, and what stands where no range is
/// held.
#[derive(Clone, Copy)]
pub(crate) struct Half {
    row: Option<CellFold>,
    idle: Constant,
}

impl Half {
    /// The value of no cell.
    pub(crate) fn neutral(self) -> Constant
        ensures { result ≡ neutral_by self.row }
    {
        match self.row {
            None => Constant::Zero,
            Some(row) => row.neutral,
        }
    }
}

/// A term, and how many cells its occurrences leave out at their end.
#[derive(Drop)]
pub(crate) struct Builder {
    pub(crate) alloc: Global,
    pub(crate) a: u8,
    pub(crate) aggregator: Aggregator,
    pub(crate) feature: Feature,
}

impl Builder {
    /// What the ranges are, before something is taken away.
    pub(crate) fn whole(&self) -> Half
        ensures row { result.row ≡ Some (cell_fold self.now.feature) }
        ensures idle { result.idle ≡ (range_fold self.now.aggregator).default }
    {
        Half {
            row: Some(self.feature.fold()),
            idle: self.aggregator.fold().default,
        }
    }

    /// What is taken away from what the cells give: only `range` takes something away.
    pub(crate) fn less(&self) -> Half
        ensures row { result.row ≡ less_fold self.now.feature }
        ensures idle { result.idle ≡ Zero }
    {
        Half {
            row: self.feature.less(),
            idle: Constant::Zero,
        }
    }

    /// Two parts of a range joined; the first alone where nothing is taken away.
    fn phi(&self, half: Half, left: Expr, right: Expr) -> Result<Expr, Memory>
        ensures { IfOk result (λ e. formula e ≡ phi_by Join half.row (formula left) (formula right)) }
    {
        match half.row {
            None => Ok(left),
            Some(row) => Expr::over(self.alloc, Operator::Fold(row.op), left, right),
        }
    }

    /// Ranges joined with further ones.
    fn g(&self, left: Expr, right: Expr) -> Result<Expr, Memory>
        ensures { IfOk result (λ e.
            formula e ≡ Join (Fold (range_op self.now.aggregator)) (formula left) (formula right)) }
    {
        Expr::over(
            self.alloc,
            Operator::Fold(self.aggregator.fold().op),
            left,
            right,
        )
    }

    /// What both halves make of a range.
    fn read(&self, whole: Expr, less: Expr) -> Result<Expr, Memory>
        ensures { IfOk result (λ e.
            formula e ≡ read_by Join (less_fold self.now.feature) (formula whole) (formula less)) }
    {
        match self.feature.less() {
            None => Ok(whole),
            Some(_) => Expr::over(self.alloc, Operator::Sub, whole, less),
        }
    }

    /// E, where something is taken away.
    fn less_range(&self) -> Expr
        ensures { formula result ≡ register_by (less_fold self.now.feature) E }
    {
        match self.feature.less() {
            None => Expr::Zero,
            Some(_) => Expr::E,
        }
    }

    /// F, where something is taken away.
    fn less_cells(&self) -> Expr
        ensures { formula result ≡ register_by (less_fold self.now.feature) F }
    {
        match self.feature.less() {
            None => Expr::Zero,
            Some(_) => Expr::F,
        }
    }

    /// What the cell read is worth.
    fn here(&self) -> Expr
        ensures { formula result ≡ here self.now.feature }
    {
        match self.feature.fold().worth {
            Worth::Unit => Expr::Unit,
            Worth::Cell => Expr::This,
        }
    }

    /// What the next cell is worth.
    fn next(&self) -> Expr
        ensures { formula result ≡ next self.now.feature }
    {
        match self.feature.fold().worth {
            Worth::Unit => Expr::Unit,
            Worth::Cell => Expr::Next,
        }
    }

    /// The cells so far and the last one that a range could now have.
    fn with_last(&self, half: Half, cells: Expr) -> Result<Expr, Memory>
        ensures { IfOk result (λ e. formula e
            ≡ with_last (half_by constant_formula Join half.row half.idle) self.now.a (formula cells)
            (here self.now.feature) (next self.now.feature)) }
    {
        let last = if self.a == 0 {
            self.next()
        } else {
            self.here()
        };
        self.phi(half, cells, last)
    }

    /// The cells so far and all up to that one.
    fn with_all(&self, half: Half, cells: Expr) -> Result<Expr, Memory>
        ensures { IfOk result (λ e. formula e
            ≡ with_all (half_by constant_formula Join half.row half.idle) self.now.a (formula cells)
            (here self.now.feature) (next self.now.feature)) }
    {
        let read = self.phi(half, cells, self.here())?;
        if self.a == 0 {
            self.phi(half, read, self.next())
        } else {
            Ok(read)
        }
    }

    /// The range that is held after a phase letter.
    fn range_after(
        &self,
        half: Half,
        phase: Phase,
        range: Expr,
        cells: Expr,
    ) -> Result<Expr, Memory>
        ensures { IfOk result (λ e. formula e
            ≡ range_after (half_by constant_formula Join half.row half.idle) self.now.a phase (formula range)
            (formula cells) (here self.now.feature) (next self.now.feature)) }
    {
        match phase {
            Phase::OutA => Ok(Expr::constant(half.idle)),
            Phase::Found => self.with_all(half, cells),
            Phase::Inside => {
                let last = self.with_last(half, cells)?;
                self.phi(half, range, last)
            }
            Phase::Out | Phase::OutR | Phase::MaybeB | Phase::MaybeA | Phase::FoundE => Ok(range),
        }
    }

    /// The cells that may still come to it.
    fn cells_after(&self, half: Half, phase: Phase, cells: Expr) -> Result<Expr, Memory>
        ensures { IfOk result (λ e. formula e
            ≡ cells_after (half_by constant_formula Join half.row half.idle) self.now.a phase (formula cells)
            (here self.now.feature) (next self.now.feature)) }
    {
        match phase {
            Phase::Out => Ok(cells),
            Phase::MaybeB => self.phi(half, cells, self.here()),
            Phase::MaybeA => self.with_last(half, cells),
            Phase::OutR | Phase::OutA | Phase::Found | Phase::FoundE | Phase::Inside => {
                Ok(Expr::constant(half.neutral()))
            }
        }
    }

    /// The ranges that are emitted, with the one that is held.
    pub(crate) fn total(&self) -> Result<Expr, Memory>
        ensures { IfOk result (λ e. formula e
            ≡ total_of (expression_operators self.now.aggregator self.now.feature) (registers self.now.feature)) }
    {
        let held = self.read(Expr::C, self.less_range())?;
        self.g(Expr::R, held)
    }

    /// The ranges that are emitted after a phase letter.
    fn ranges_after(&self, phase: Phase) -> Result<Expr, Memory>
        ensures { IfOk result (λ e. formula e
            ≡ ranges_after (expression_operators self.now.aggregator self.now.feature) self.now.a phase
            (registers self.now.feature) (here self.now.feature) (next self.now.feature)) }
    {
        match phase {
            Phase::OutA => self.total(),
            Phase::FoundE => {
                let whole = self.with_all(self.whole(), Expr::D)?;
                let less = self.with_all(self.less(), self.less_cells())?;
                let found = self.read(whole, less)?;
                self.g(Expr::R, found)
            }
            Phase::Out
            | Phase::OutR
            | Phase::MaybeB
            | Phase::MaybeA
            | Phase::Found
            | Phase::Inside => Ok(Expr::R),
        }
    }

    /// The move with the expressions of its phase letter.
    fn turn(&self, arrow: Arrow) -> Result<Turn, Memory>
        ensures { IfOk result (λ t. move_of t ≡ move_made self.now.a self.now.aggregator self.now.feature arrow) }
    {
        let whole = self.whole();
        let less = self.less();
        Ok(Turn {
            next: arrow.next,
            c: self.range_after(whole, arrow.phase, Expr::C, Expr::D)?,
            e: self.range_after(less, arrow.phase, self.less_range(), self.less_cells())?,
            d: self.cells_after(whole, arrow.phase, Expr::D)?,
            f: self.cells_after(less, arrow.phase, self.less_cells())?,
            r: self.ranges_after(arrow.phase)?,
        })
    }

    /// The state of a row, with its name.
    pub(crate) fn state(&self, name: u8, row: Row) -> Result<State, Memory>
        ensures { IfOk result (λ s. node_of s ≡ node_made self.now.a self.now.aggregator self.now.feature name row) }
    {
        Ok(State {
            name,
            held: row.kind == Kind::Held,
            less: self.turn(row.less)?,
            equal: self.turn(row.equal)?,
            greater: self.turn(row.greater)?,
        })
    }
}
