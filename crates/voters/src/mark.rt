//! What stands beside a voter while a vote is taken.

use px_base::Hash;

/// What stands beside a voter: what its vote weighs and what it did so far.
#[derive(Clone, Copy, Debug, PartialEq, Eq)]
pub struct Mark {
    /// What its vote weighs.
    pub weight: u32,
    /// The hash that it cast, if it cast one.
    pub vote: Option<Hash>,
    /// Whether it was canceled.
    pub canceled: bool,
}
