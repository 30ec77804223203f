//! A voter of a panel, as it is named when a vote is opened.

use crate::StorageName;

/// A storage that votes, and what its vote weighs. A weight of zero is allowed: such a voter decides nothing.
#[derive(Clone, Copy, Debug, PartialEq, Eq)]
pub struct Voter {
    /// The name that the voter has in its panel.
    pub name: StorageName,
    /// What its vote weighs.
    pub weight: u32,
}
