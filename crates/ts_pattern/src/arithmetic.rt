//! How features and aggregators count: a row for each.

ghost use Rattle.std.specs.Prelude.{◌≡◌};
ghost use Rattle.ts_pattern.specs.Arithmetic.{cell_fold, less_fold, range_fold};

use crate::name::{Aggregator, Feature};
use ts_base::{Constant, Op};

/// What a cell is worth in a feature: 1, or its value.
#[derive(Clone, Copy, Debug, PartialEq, Eq)]
pub enum Worth {
    Unit,
    Cell,
}

/// How the cells of an e-range make its feature: what joins them, what stands for no cell, and what a cell is worth.
/// Beside what a cell is worth, `neutral` changes nothing.
#[derive(Clone, Copy, Debug, PartialEq, Eq)]
pub struct CellFold {
    pub op: Op,
    pub neutral: Constant,
    pub worth: Worth,
}

/// How the features of e-ranges make one value: what joins them, and what stands for no e-range.
#[derive(Clone, Copy, Debug, PartialEq, Eq)]
pub struct RangeFold {
    pub op: Op,
    pub default: Constant,
}

impl Feature {
    /// How the cells of an e-range make this feature, or that from which `less` is taken away.
    pub fn fold(self) -> CellFold
        ensures { result ≡ cell_fold self }
    {
        let (op, neutral, worth) = match self {
            Feature::One => (Op::Max, Constant::Unit, Worth::Unit),
            Feature::Width => (Op::Add, Constant::Zero, Worth::Unit),
            Feature::Surf => (Op::Add, Constant::Zero, Worth::Cell),
            Feature::Max | Feature::Range => (Op::Max, Constant::NegInf, Worth::Cell),
            Feature::Min => (Op::Min, Constant::PosInf, Worth::Cell),
        };
        CellFold { op, neutral, worth }
    }

    /// How the cells make what is taken away: for `range` the least of them.
    pub fn less(self) -> Option<CellFold>
        ensures { result ≡ less_fold self }
    {
        match self {
            Feature::Range => Some(Feature::Min.fold()),
            Feature::One | Feature::Width | Feature::Surf | Feature::Max | Feature::Min => None,
        }
    }
}

impl Aggregator {
    /// How the features of e-ranges make one value.
    pub fn fold(self) -> RangeFold
        ensures { result ≡ range_fold self }
    {
        let (op, default) = match self {
            Aggregator::Sum => (Op::Add, Constant::Zero),
            Aggregator::Max => (Op::Max, Constant::NegInf),
            Aggregator::Min => (Op::Min, Constant::PosInf),
        };
        RangeFold { op, default }
    }
}
