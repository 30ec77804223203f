//! What a lease is drawn for.

use px_base::{Lease, RepoId, StorageId};

/// A lease of a repository, as it is drawn for a storage. Draws are in the order of their
/// repositories, then of their storages, and then of their leases.
#[derive(Clone, Copy, PartialEq, Eq, PartialOrd, Ord)]
pub struct Draw {
    /// The repository.
    pub repo: RepoId,
    /// The storage.
    pub storage: StorageId,
    /// The lease.
    pub lease: Lease,
}
