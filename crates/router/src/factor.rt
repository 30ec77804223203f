//! Which storages are assigned under a factor.

ghost use Rattle.std.specs.Prelude.{◌≡◌, ◌-◌, length, IfErr, IfOk, OnOk, Some};
ghost use Rattle.px_cluster.specs.Book.{is_absent, storages_where};
ghost use Rattle.px_cluster.specs.Factor.{assigned_now, assignment, is_spared, spared};
ghost use Rattle.px_cluster.specs.Ids.{storage_number};
ghost use Rattle.px_cluster.specs.Numbers.{first_of};
ghost use Rattle.genbook.specs.Changes.{AreAscending, numbers_of};
ghost use Rattle.genbook.specs.Health.{core_with_health};
ghost use Rattle.router.specs.Factors.{AreBounds, AreByNumber, bad_factor, is_away, is_below, is_there, is_within, may_leave, nth_where};
ghost use Rattle.router.specs.Routes.{AreFew};

use crate::hosts::primary;
use genbook::{Health, Replica, Repository};
use px_base::StorageId;
use px_ops::{Booking, Refusal};
use std::alloc::{AllocError, Global};

/// Which storages are assigned, by bounds on their numbers. Where there is no bound, all are below it.
#[derive(Clone, Copy, Drop)]
struct Bounds {
    // The one that stays assigned in any case.
    spared: Option<StorageId>,
    // The first assigned one that is left.
    left: Option<StorageId>,
    // The first that is not added of those that have a replica, and of those that have none.
    there: Option<StorageId>,
    away: Option<StorageId>,
}

/// Whether a repository may have this factor. Refused is `BadFactor`, where the factor is 0 or there
/// are fewer replicas. Takes no memory.
pub fn may_assign(repository: &Repository, factor: u32) -> Result<(), Refusal>
    requires { AreFew repository.now }
    ensures accepted { OnOk result (bad_factor repository.now factor ≡ None) }
    ensures refused { IfErr result (λ why. bad_factor repository.now factor ≡ Some why) }
{
    let replicas = repository.replicas().len();
    if factor == 0 || factor as usize > replicas {
        return Err(Refusal::BadFactor(replicas as u32));
    }
    Ok(())
}

/// The storages that are assigned once a repository has this factor, by number. Those are added first
/// that have a replica, and of these and of the others the least numbers. The greatest numbers are
/// left first, and never the primary, or, where there is none, the assigned storage of the least
/// number. The list alone takes memory.
pub fn assignment(
    alloc: Global,
    repository: &Repository,
    health: &Health,
    factor: u32,
) -> Result<Vec<StorageId>, AllocError>
    requires { AreByNumber repository.now }
    ensures value { IfOk result (λ storages. numbers_of storages.items
        ≡ assignment (core_with_health health.now) repository.now factor) }
    ensures ascending { IfOk result (λ storages. AreAscending (numbers_of storages.items)) }
{
    let bounds = bounds_of(repository, health, factor as usize);
    repository
        .replicas()
        .iter()
        .filter(|replica| is_within(&bounds, replica))
        .map(|replica| replica.storage)
        .collect(alloc)
}

fn bounds_of(repository: &Repository, health: &Health, factor: usize) -> Bounds
    ensures { AreBounds (core_with_health health.now) repository.now factor result }
{
    let spared = spared(repository, health);
    let assigned = count_assigned(repository);
    let fewer = assigned.saturating_sub(factor);
    let more = factor.saturating_sub(assigned);
    let stay = count_leaving(repository, spared).saturating_sub(fewer);
    let others = more.saturating_sub(count_there(repository));
    Bounds {
        spared,
        left: nth_leaving(repository, spared, stay),
        there: nth_there(repository, more),
        away: nth_away(repository, others),
    }
}

fn is_within(bounds: &Bounds, replica: &Replica) -> bool
    ensures { result ≡ is_within bounds.now replica.now }
{
    let storage = replica.storage;
    if replica.assigned {
        is_spared(bounds.spared, storage) || is_below(storage, bounds.left)
    } else if is_absent(replica) {
        is_below(storage, bounds.away)
    } else {
        is_below(storage, bounds.there)
    }
}

fn is_below(storage: StorageId, bound: Option<StorageId>) -> bool
    ensures { result ≡ is_below storage.0 (storage_number bound) }
{
    match bound {
        Some(bound) => storage.0 < bound.0,
        None => true,
    }
}

// The primary, or, where there is none, the assigned storage of the least number.
fn spared(repository: &Repository, health: &Health) -> Option<StorageId>
    ensures { storage_number result ≡ spared (core_with_health health.now) repository.now }
{
    match primary(repository, health) {
        Some(primary) => Some(primary),
        None => first_assigned(repository),
    }
}

fn first_assigned(repository: &Repository) -> Option<StorageId>
    ensures { storage_number result ≡ first_of (assigned_now repository.now) }
{
    repository
        .replicas()
        .iter()
        .find(|replica| replica.assigned)
        .map(|replica| replica.storage)
}

fn is_spared(spared: Option<StorageId>, storage: StorageId) -> bool
    ensures { result ≡ is_spared (storage_number spared) storage.0 }
{
    match spared {
        Some(spared) => storage.0 == spared.0,
        None => false,
    }
}

// Whether the storage is assigned, and may be left.
fn may_leave(spared: Option<StorageId>, replica: &Replica) -> bool
    ensures { result ≡ may_leave (storage_number spared) replica.now }
{
    replica.assigned && !is_spared(spared, replica.storage)
}

// Whether the storage is not assigned, and has a replica.
fn is_there(replica: &Replica) -> bool
    ensures { result ≡ is_there replica.now }
{
    !replica.assigned && !is_absent(replica)
}

// Whether the storage is not assigned, and has none.
fn is_away(replica: &Replica) -> bool
    ensures { result ≡ is_away replica.now }
{
    !replica.assigned && is_absent(replica)
}

fn is_absent(replica: &Replica) -> bool
    ensures { result ≡ is_absent replica.now.booking }
{
    matches!(replica.booking, Booking::Absent)
}

fn count_assigned(repository: &Repository) -> usize
    ensures { result ≡ length (assigned_now repository.now) }
{
    repository
        .replicas()
        .iter()
        .filter(|replica| replica.assigned)
        .count()
}

fn count_leaving(repository: &Repository, spared: Option<StorageId>) -> usize
    ensures { result
        ≡ length (storages_where (may_leave (storage_number spared)) repository.now) }
{
    repository
        .replicas()
        .iter()
        .filter(|replica| may_leave(spared, replica))
        .count()
}

fn count_there(repository: &Repository) -> usize
    ensures { result ≡ length (storages_where is_there repository.now) }
{
    repository
        .replicas()
        .iter()
        .filter(|replica| is_there(replica))
        .count()
}

fn nth_leaving(
    repository: &Repository,
    spared: Option<StorageId>,
    place: usize,
) -> Option<StorageId>
    ensures { storage_number result
        ≡ nth_where (may_leave (storage_number spared)) repository.now place }
{
    repository
        .replicas()
        .iter()
        .filter(|replica| may_leave(spared, replica))
        .nth(place)
        .map(|replica| replica.storage)
}

fn nth_there(repository: &Repository, place: usize) -> Option<StorageId>
    ensures { storage_number result ≡ nth_where is_there repository.now place }
{
    repository
        .replicas()
        .iter()
        .filter(|replica| is_there(replica))
        .nth(place)
        .map(|replica| replica.storage)
}

fn nth_away(repository: &Repository, place: usize) -> Option<StorageId>
    ensures { storage_number result ≡ nth_where is_away repository.now place }
{
    repository
        .replicas()
        .iter()
        .filter(|replica| is_away(replica))
        .nth(place)
        .map(|replica| replica.storage)
}
