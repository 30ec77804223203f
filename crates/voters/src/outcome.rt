//! What a subtransaction came to.

use px_base::Hash;

/// What a subtransaction came to. Once it is not open it never changes.
#[derive(Clone, Copy, Debug, PartialEq, Eq)]
pub enum Outcome {
    /// Nothing is decided yet.
    Open,
    /// The votes for this hash reached the threshold.
    Commit(Hash),
    /// No hash can reach the threshold any more.
    Fail,
    /// It was stopped before anything else decided it.
    Stop,
}
