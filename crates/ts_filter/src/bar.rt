//! What a value of the objective has to reach.

use ts_base::Ext;

/// Which values count: those better than a number, or those at least as good.
#[derive(Clone, Copy, Debug, PartialEq, Eq)]
pub enum Bar {
    Better(Ext),
    AsGood(Ext),
}
