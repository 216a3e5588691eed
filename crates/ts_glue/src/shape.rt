//! The shapes of glued values: whether one occurrence goes on through a cell, and how its parts are folded. They depend
//! on the states alone in which the two runs stand, so a machine finds them once.

ghost use Rattle.std.specs.Prelude.{◌≡◌, ◌<◌, ◌≤◌, [], get_or, length};
ghost use Rattle.ts_automaton.specs.Formula.{formula};
ghost use Rattle.ts_base.specs.Limits.{IsCellValue};
ghost use Rattle.ts_glue.specs.Glue.{first_op, fold_op, glue_of, is_join, is_pair, worth};
ghost use Rattle.ts_glue.specs.Pairs.{Pair, pair, table_view};
ghost use Rattle.ts_glue.specs.Shapes.{AreShapes, AreShapesOf, expression, goes_on, shape_at, shape_of};
ghost use Rattle.ts_glue.specs.declared.shape.Shape.TheVariants.{Apart as NoJoin};

use crate::gluing::Gluing;
use crate::table::{CellUnit, FoldOp, GlueTable};
use ts_automaton::{Automaton, Expr, Op};

/// The most states that an automaton has.
pub const STATES: usize = 8;

/// How the values of two runs are glued at a cell, by the states in which they stand.
#[derive(Clone, Copy)]
pub enum Shape {
    /// No occurrence has a sign before the cell and one after it.
    Apart,
    /// One occurrence goes on through the cell.
    Through(Seam),
}

/// How an occurrence goes on through a cell.
#[derive(Clone, Copy)]
pub enum Seam {
    /// Neither side has folded the cell: it stands between what the two have open.
    Between { held_left: bool, held_right: bool },
    /// Both sides have folded the cell.
    Both,
}

impl Shape {
    /// Whether one occurrence goes on.
    #[inline(always)]
    pub fn goes_on(self) -> bool
        ensures { result ≡ goes_on self }
    {
        match self {
            Shape::Apart => false,
            Shape::Through(_) => true,
        }
    }
}

/// How the two runs of a machine are glued: the operator that joins results, how the cells of an occurrence are folded,
/// what a cell is worth in it, and the shape of each pair of states.
#[derive(Drop)]
pub struct Shapes {
    pub result: Op,
    pub fold: FoldOp,
    pub unit: CellUnit,
    pub rows: [[Shape; STATES]; STATES],
}

impl Shapes {
    /// How two automata with a glue table are glued.
    pub(crate) fn of(forward: &Automaton, reverse: &Automaton, table: &GlueTable) -> Shapes
        ensures { AreShapes (pair forward.now reverse.now (table_view table.now)) result }
    {
        let mut rows = [[Shape::Apart; STATES]; STATES];
        for q in 0..forward.states() {
            rows[q as usize] = row_of(forward, reverse, table, q);
        }
        Shapes {
            result: first_op(forward.finish_expr()),
            fold: table.op,
            unit: table.unit,
            rows,
        }
    }

    /// How values are glued at a cell where the forward run stands in the state `left`, the reverse one in `right`.
    pub(crate) fn gluing(&self, left: u8, right: u8, cell: i64) -> Gluing
        requires left { left < 8 }
        requires right { right < 8 }
        requires cell { IsCellValue cell }
        ensures value { (p : Pair) → AreShapes p self.now → left < length p.forward.states →
            right < length p.reverse.states → expression result ≡ glue_of p left right cell }
        ensures worth { IsCellValue result.worth }
    {
        Gluing {
            result: self.result,
            fold: self.fold,
            worth: self.unit.worth(cell),
            shape: self.at(left, right),
        }
    }

    /// The shape where the forward run stands in the state `left`, the reverse run in the state `right`.
    fn at(&self, left: u8, right: u8) -> Shape
        requires left { left < 8 }
        requires right { right < 8 }
        ensures { result ≡ shape_at self.now.rows left right }
    {
        self.rows[left as usize][right as usize]
    }
}

/// The shapes of the forward state `q` beside each reverse one.
fn row_of(forward: &Automaton, reverse: &Automaton, table: &GlueTable, q: u8) -> [Shape; STATES]
    requires { q < length forward.now.states }
    ensures length { length result ≡ 8 }
    ensures shapes { AreShapesOf (pair forward.now reverse.now (table_view table.now)) q result }
{
    let mut row = [Shape::Apart; STATES];
    for r in 0..reverse.states() {
        row[r as usize] = shape_of(forward, reverse, table, q, r);
    }
    row
}

/// The shape of a pair of states.
fn shape_of(forward: &Automaton, reverse: &Automaton, table: &GlueTable, q: u8, r: u8) -> Shape
    requires forward { q < length forward.now.states }
    requires reverse { r < length reverse.now.states }
    ensures { result ≡ shape_of (pair forward.now reverse.now (table_view table.now)) q r }
{
    if !table.is_join(q, r) {
        return Shape::Apart;
    }
    if table.a == 0 {
        return Shape::Through(Seam::Both);
    }
    Shape::Through(Seam::Between {
        held_left: forward.state(q).held,
        held_right: reverse.state(r).held,
    })
}

impl GlueTable {
    /// Whether one occurrence goes on from the forward state to the reverse one.
    fn is_join(&self, forward: u8, reverse: u8) -> bool
        ensures { result ≡ is_join (table_view self.now) forward reverse }
    {
        self.joins
            .iter()
            .any(|join| join.forward == forward && join.reverse == reverse)
    }
}

impl FoldOp {
    /// The operator that folds the whole of an occurrence.
    pub fn op(self) -> Op
        ensures { result ≡ fold_op self }
    {
        match self {
            FoldOp::Add => Op::Add,
            FoldOp::Max | FoldOp::Pair => Op::Max,
            FoldOp::Min => Op::Min,
        }
    }

    /// Whether the least cell is folded beside the greatest.
    pub fn is_pair(self) -> bool
        ensures { result ≡ is_pair self }
    {
        match self {
            FoldOp::Pair => true,
            FoldOp::Add | FoldOp::Max | FoldOp::Min => false,
        }
    }
}

impl CellUnit {
    /// What a cell of this value is worth.
    pub fn worth(self, cell: i64) -> i64
        ensures { result ≡ worth self cell }
    {
        match self {
            CellUnit::Unit => 1,
            CellUnit::Value => cell,
        }
    }
}

/// The operator with which a finish expression begins.
fn first_op(finish: &Expr) -> Op
    ensures { result ≡ first_op (formula finish.now) }
{
    match finish {
        Expr::Max(_, _) => Op::Max,
        Expr::Min(_, _) => Op::Min,
        _ => Op::Add,
    }
}
