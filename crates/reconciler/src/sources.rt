//! What a replica may be brought up to date from, and whether each one is at the newest generation.

ghost use Rattle.std.specs.Prelude.{◌≡◌, Some};
ghost use Rattle.px_cluster.specs.Ids.{storage_number};
ghost use Rattle.px_cluster.specs.Jobs.{are_assigned_newest, sources_for};
ghost use Rattle.px_cluster.specs.Members.{kept_or_first};
ghost use Rattle.px_cluster.specs.Numbers.{first_of, is_one_of};
ghost use Rattle.genbook.specs.Health.{core_with_health};
ghost use Rattle.reconciler.specs.Sources.{is_source};

use crate::bookings::is_newest;
use genbook::{Health, Replica, Repository};
use px_base::StorageId;

/// Whether each assigned replica is at the newest generation, on storages that are up or not. Takes
/// no memory.
pub fn are_assigned_newest(repository: &Repository) -> bool
    ensures { result ≡ are_assigned_newest repository.now }
{
    repository.replicas().iter().all(|replica| !replica.assigned || is_newest(repository, replica))
}

/// The storage of the least number from which a target may be brought up to date: one that is up,
/// is at the newest generation, and is not the target. Takes no memory.
pub fn first_source(
    repository: &Repository,
    health: &Health,
    target: StorageId,
) -> Option<StorageId>
    ensures { storage_number result
        ≡ first_of (sources_for (core_with_health health.now) repository.now target.0) }
{
    repository
        .replicas()
        .iter()
        .find(|replica| is_source(repository, health, target, replica))
        .map(|replica| replica.storage)
}

/// Whether a target may be brought up to date from this storage. Takes no memory.
pub fn has_source(
    repository: &Repository,
    health: &Health,
    target: StorageId,
    source: StorageId,
) -> bool
    ensures { result ≡ is_one_of source.0
        (sources_for (core_with_health health.now) repository.now target.0) }
{
    repository.replicas().iter().any(|replica| replica.storage.0 == source.0
        && is_source(repository, health, target, replica))
}

/// The source of an update that is taken: the one that was kept, where that still is one, and else
/// that of the least number. Takes no memory.
pub fn source_for(
    repository: &Repository,
    health: &Health,
    target: StorageId,
    kept: Option<StorageId>,
) -> Option<StorageId>
    ensures { storage_number result
        ≡ kept_or_first (sources_for (core_with_health health.now) repository.now target.0)
        (storage_number kept) }
{
    match kept {
        Some(kept) => kept_or_first(repository, health, target, kept),
        None => first_source(repository, health, target),
    }
}

fn kept_or_first(
    repository: &Repository,
    health: &Health,
    target: StorageId,
    kept: StorageId,
) -> Option<StorageId>
    ensures { storage_number result
        ≡ kept_or_first (sources_for (core_with_health health.now) repository.now target.0)
        (storage_number (Some kept)) }
{
    if has_source(repository, health, target, kept) {
        Some(kept)
    } else {
        first_source(repository, health, target)
    }
}

// The target may be brought up to date from this replica.
fn is_source(repository: &Repository, health: &Health, target: StorageId, replica: &Replica) -> bool
    ensures { result
        ≡ is_source (core_with_health health.now) repository.now target.0 replica.now }
{
    health.is_up(replica.storage) && is_newest(repository, replica) && replica.storage.0 != target.0
}
