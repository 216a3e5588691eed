//! Certificates and their lines.

use ts_base::{Ext, Goal};

/// What was asked for: a series with the best objective, or so many series that meet.
#[derive(Clone, Copy, Debug, PartialEq, Eq)]
pub enum Aim {
    Best(Goal),
    List(u32),
}

/// What the certificate says of the answer. The last three belong to a listing and say how many series it lists; the
/// first four belong to a best series, and the values are those of its objective.
#[derive(Clone, Copy, Debug, PartialEq, Eq)]
pub enum Claim {
    Best(Ext),
    Infeasible,
    BudgetBest(Ext),
    BudgetNone,
    Full(u32),
    All(u32),
    BudgetList(u32),
}

/// A line of the tree that divides the box of the model. Cells `k` and `p` and requirements `j` are counted from 1.
#[derive(Clone, Copy, Debug, PartialEq, Eq)]
pub enum TreeLine {
    Split { k: u32, t: i64 },
    Remove { k: u32, v: i64, j: u32 },
    No { j: u32, p: u32 },
    Worse { p: u32 },
    Yes,
    Unsearched,
}

/// An aim, a claim, the series that were found, and the tree line by line.
#[derive(Debug, PartialEq, Eq, Drop)]
pub struct Certificate {
    pub aim: Aim,
    pub claim: Claim,
    pub series: Vec<Vec<i64>>,
    pub tree: Vec<TreeLine>,
}

/// One line of a certificate. The end tells the number of tree lines other than `open`, and that of the `open` lines.
#[derive(Debug, PartialEq, Eq, Drop)]
pub enum Parsed {
    Aim(Aim),
    Claim(Claim),
    Series(Vec<i64>),
    Tree(TreeLine),
    End { checked: u64, unsearched: u64 },
}
