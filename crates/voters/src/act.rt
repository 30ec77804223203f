//! What an accepted call does to a subtransaction.

use px_base::Hash;

/// What an accepted call does to a subtransaction. A voter is its number in the panel, from 0.
#[derive(Clone, Copy, Debug, PartialEq, Eq)]
pub enum Act {
    /// The voter votes for the hash.
    Cast(u32, Hash),
    /// The voter is canceled.
    Cancel(u32),
    /// The subtransaction is stopped.
    Stop,
}
