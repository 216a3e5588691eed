//! How an input of `verify` ends.

use crate::verdict::Verdict;
use ts_model::ModelKind;

/// The refusal of the model at its first bad line, counted from 1, with the first kind that holds of it; or the verdict
/// on the certificate after it.
#[derive(Clone, Copy, Debug, PartialEq, Eq)]
pub enum VerifyEnd {
    Model { line: u32, kind: ModelKind },
    Verdict(Verdict),
}
