//! What a line says.

ghost use Rattle.std.specs.Prelude.{◌<◌, vec_len};

use crate::model::Op;
use ts_base::Ext;
use ts_domain::Interval;
use ts_pattern::{Aggregator, Feature, PatternId};

/// The ranges of a `domain` or `cell` line, at least one.
#[derive(Drop)]
pub(crate) struct Ranges {
    pub items: Vec<Interval>,
    ghost some: { 0 < vec_len items },
}

/// The three names of a term; they need not make a pair.
#[derive(Clone, Copy)]
pub(crate) struct TermParts {
    pub aggregator: Aggregator,
    pub feature: Feature,
    pub pattern: PatternId,
}

/// What a line says; a term may have a range of cells that it looks at, and has no parts where one of its names is
/// unknown.
#[derive(Drop)]
pub(crate) enum Statement<'a> {
    Cells(i64),
    Domain(Ranges),
    Cell(i64, Ranges),
    Term(&'a str, Option<Interval>, Option<TermParts>),
    Require(&'a str, Op, Ext),
    Objective(&'a str),
}
