//! How a push begins and how it ends.

use crate::Names;
use px_base::{Gen, Lease, TxId};

/// A push that has begun: it has the turn of its repository.
#[derive(Drop)]
pub struct Begun {
    /// The transaction in which its members vote.
    pub tx: TxId,
    /// The lease that each effect of the push carries.
    pub lease: Lease,
    /// The newest generation, on which the push builds.
    pub generation: Gen,
    /// Who votes on it: the primary, and behind it the secondaries by their numbers.
    pub members: Names,
    /// The other assigned storages, which are to follow by jobs.
    pub targets: Names,
}

/// How a push ended.
#[derive(Clone, Copy, Debug, PartialEq, Eq)]
pub enum PushEnd {
    /// Its members decided for it, and a quorum of them told that it is committed as this generation.
    Committed(Gen),
    /// Its members decided for it, and it is not known whether a quorum committed this generation.
    Unsure(Gen),
    /// No hash got a quorum.
    NoQuorum,
    /// It was canceled before it was decided.
    Canceled,
    /// It was stopped before it was decided.
    Stopped,
}
