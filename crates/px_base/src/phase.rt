//! The two votes of a round.

/// Which of the two votes of a round: nodes vote once on what they prepared, and once on what they committed.
/// githooks(5) names the states of the reference-transaction hook so.
#[derive(Clone, Copy, Debug, PartialEq, Eq)]
pub enum Phase {
    /// The vote on what was prepared.
    Prepared,
    /// The vote on what was committed.
    Committed,
}
