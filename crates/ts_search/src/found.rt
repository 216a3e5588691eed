//! A series that was found.

use ts_base::Ext;

/// A series, and the value of the objective on it.
#[derive(Drop)]
pub(crate) struct FoundSeries {
    pub(crate) series: Vec<i64>,
    pub(crate) value: Ext,
}
