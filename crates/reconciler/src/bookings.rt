//! What is booked of replicas. None of it takes memory.

ghost use Rattle.std.specs.Prelude.{◌≡◌};
ghost use Rattle.px_cluster.specs.Book.{is_absent, is_assigned, is_at, is_newest, is_newest_on};

use genbook::{Replica, Repository};
use px_base::{Gen, StorageId};
use px_ops::Booking;

/// Whether nothing is known of the replica.
pub(crate) fn is_absent(booking: Booking) -> bool
    ensures { result ≡ is_absent booking }
{
    matches!(booking, Booking::Absent)
}

/// Whether the replica is at the newest generation.
pub(crate) fn is_newest(repository: &Repository, replica: &Replica) -> bool
    ensures { result ≡ is_newest repository.now replica.now }
{
    is_at(repository.newest(), replica.booking)
}

/// Whether the replica on a storage is at the newest generation.
pub(crate) fn is_newest_on(repository: &Repository, storage: StorageId) -> bool
    ensures { result ≡ is_newest_on repository.now storage.0 }
{
    is_at(repository.newest(), repository.booking(storage))
}

/// Whether the repository is to have a replica on a storage.
pub(crate) fn is_assigned(repository: &Repository, storage: StorageId) -> bool
    ensures { result ≡ is_assigned repository.now storage.0 }
{
    match repository.replica(storage) {
        Some(replica) => replica.assigned,
        None => false,
    }
}

fn is_at(generation: Gen, booking: Booking) -> bool
    ensures { result ≡ is_at generation.0 booking }
{
    match booking {
        Booking::At(held) => held.0 == generation.0,
        Booking::Absent | Booking::Doubt { .. } => false,
    }
}
