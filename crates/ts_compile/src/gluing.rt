//! The glue table of a term.

ghost use Rattle.std.specs.Prelude.{◌≡◌};
ghost use Rattle.ts_pattern.specs.Arithmetic.{less_fold};
ghost use Rattle.ts_glue.specs.Pairs.{table_view};
ghost use Rattle.ts_compile.specs.TermPairs.{cell_unit_of, fold_op_of, folding_of, glue_table_by};

use ts_base::{Join, Op};
use ts_glue::{CellUnit, FoldOp, GlueTable};
use ts_pattern::{Feature, Worth};

/// The glue table of a term with this feature. Its pattern says how many cells an occurrence leaves out at its end,
/// 0 or 1, and between which forward and reverse states one occurrence goes on.
pub(crate) fn glue_table(a: u8, feature: Feature, joins: Vec<Join>) -> GlueTable
    ensures { table_view result ≡ glue_table_by a feature joins.items }
{
    let cells = feature.fold();
    GlueTable {
        a,
        op: folding(feature, cells.op),
        unit: cell_unit(cells.worth),
        joins,
    }
}

/// How the cells of a feature are joined: by the operator, or the greatest and the least apart, where the least is
/// taken away.
fn folding(feature: Feature, op: Op) -> FoldOp
    ensures { result ≡ folding_of (less_fold feature) op }
{
    match feature.less() {
        Some(_) => FoldOp::Pair,
        None => fold_op(op),
    }
}

/// An operator as a glue table names it.
fn fold_op(op: Op) -> FoldOp
    ensures { result ≡ fold_op_of op }
{
    match op {
        Op::Add => FoldOp::Add,
        Op::Max => FoldOp::Max,
        Op::Min => FoldOp::Min,
    }
}

/// What a cell is worth as a glue table names it.
fn cell_unit(worth: Worth) -> CellUnit
    ensures { result ≡ cell_unit_of worth }
{
    match worth {
        Worth::Unit => CellUnit::Unit,
        Worth::Cell => CellUnit::Value,
    }
}
