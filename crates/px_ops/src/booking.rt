//! What is booked of the replicas of a repository.

use px_base::{Gen, Items, Lease, StorageId, StorageName};

/// A list of the names of storages.
pub type Names = Items<StorageName>;

/// What is booked of the replica of a repository at a storage.
#[derive(Clone, Copy, Debug, PartialEq, Eq)]
pub enum Booking {
    /// Nothing is known of a replica there.
    Absent,
    /// The replica holds this generation, or a later one.
    At(Gen),
    /// The storage was told to commit a push, and it is not known whether it did.
    Doubt {
        /// The lease of that push.
        lease: Lease,
        /// The generation that was booked before.
        was: Gen,
        /// The generation that the push makes.
        due: Gen,
    },
}

/// What is known of one storage of a repository.
#[derive(Clone, Copy, Debug, PartialEq, Eq)]
pub struct BookRow {
    /// The storage.
    pub storage: StorageId,
    /// Its name.
    pub name: StorageName,
    /// Whether the repository is to have a replica there.
    pub assigned: bool,
    /// Whether the storage is up.
    pub healthy: bool,
    /// What is booked of the replica.
    pub booking: Booking,
}

/// The rows of a repository, by the numbers of the storages.
pub type BookRows = Items<BookRow>;
