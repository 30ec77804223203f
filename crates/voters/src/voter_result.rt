//! What a subtransaction came to for one voter.

use crate::verdict::Verdict;

/// What a subtransaction came to for one voter.
#[derive(Clone, Copy, Debug, PartialEq, Eq)]
pub enum VoterResult {
    /// Undecided: the outcome is open, or the voter has not voted.
    Open,
    /// The voter's own hash is committed, by this verdict.
    Committed(Verdict),
    /// The voter's hash is not the committed one, or none can be committed.
    Failed,
    /// The voter was canceled.
    Canceled,
    /// The subtransaction was stopped.
    Stopped,
}
