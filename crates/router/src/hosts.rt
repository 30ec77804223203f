//! The storages on which a push may be done, and those that are current.

ghost use Rattle.std.specs.Prelude.{◌≡◌, Some};
ghost use Rattle.px_cluster.specs.Book.{is_newest};
ghost use Rattle.px_cluster.specs.Core.{is_current};
ghost use Rattle.px_cluster.specs.Ids.{storage_number};
ghost use Rattle.px_cluster.specs.Members.{hosts, is_host, kept_or_first, primary_of};
ghost use Rattle.px_cluster.specs.Numbers.{first_of, is_one_of};
ghost use Rattle.px_cluster.specs.Pushes.{count_newest};
ghost use Rattle.genbook.specs.Health.{core_with_health};
ghost use Rattle.router.specs.Routes.{AreFew};

use genbook::{Health, Replica, Repository};
use px_base::StorageId;
use px_ops::Booking;

/// The primary of the next push: that of the last one, where a push may be done there again, and
/// else the storage of the least number on which one may be. Takes no memory.
pub fn primary(repository: &Repository, health: &Health) -> Option<StorageId>
    ensures { storage_number result ≡ primary_of (core_with_health health.now) repository.now }
{
    match repository.primary() {
        Some(kept) => kept_or_first(repository, health, kept),
        None => first_host(repository, health),
    }
}

/// Whether a push may be done there: the storage is up, assigned, and at the newest generation.
pub(crate) fn is_host(repository: &Repository, health: &Health, replica: &Replica) -> bool
    ensures { result ≡ is_host (core_with_health health.now) repository.now replica.now }
{
    replica.assigned && is_current(repository, health, replica)
}

/// Whether the storage is up, and at the newest generation.
pub(crate) fn is_current(repository: &Repository, health: &Health, replica: &Replica) -> bool
    ensures { result ≡ is_current (core_with_health health.now) repository.now replica.now }
{
    health.is_up(replica.storage) && is_newest(repository, replica)
}

/// How many replicas are at the newest generation, on storages that are up or not.
pub(crate) fn count_newest(repository: &Repository) -> u32
    requires { AreFew repository.now }
    ensures { result ≡ count_newest repository.now }
{
    repository
        .replicas()
        .iter()
        .filter(|replica| is_newest(repository, replica))
        .count() as u32
}

fn kept_or_first(repository: &Repository, health: &Health, kept: StorageId) -> Option<StorageId>
    ensures { storage_number result
        ≡ kept_or_first (hosts (core_with_health health.now) repository.now) (Some kept.0) }
{
    if hosts_on(repository, health, kept) {
        Some(kept)
    } else {
        first_host(repository, health)
    }
}

// Whether a push may be done on this storage.
fn hosts_on(repository: &Repository, health: &Health, storage: StorageId) -> bool
    ensures { result ≡ is_one_of storage.0 (hosts (core_with_health health.now) repository.now) }
{
    repository.replicas().iter().any(|replica| replica.storage.0 == storage.0
        && is_host(repository, health, replica))
}

fn first_host(repository: &Repository, health: &Health) -> Option<StorageId>
    ensures { storage_number result
        ≡ first_of (hosts (core_with_health health.now) repository.now) }
{
    repository
        .replicas()
        .iter()
        .find(|replica| is_host(repository, health, replica))
        .map(|replica| replica.storage)
}

fn is_newest(repository: &Repository, replica: &Replica) -> bool
    ensures { result ≡ is_newest repository.now replica.now }
{
    match replica.booking {
        Booking::At(held) => held.0 == repository.newest().0,
        Booking::Absent | Booking::Doubt { .. } => false,
    }
}
