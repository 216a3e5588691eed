//! The verdict on a certificate.

/// A certificate is accepted; or rejected at the first line that breaks its rule; or refused at the first line that is
/// against the grammar or has other counts, where a missing `end` counts as the line after the last. Lines are counted
/// from 1. A refusal has precedence over a line that breaks its rule, wherever that stands.
#[derive(Clone, Copy, Debug, PartialEq, Eq)]
pub enum Verdict {
    Accepted,
    Rejected(u32),
    Refused(u32),
}
