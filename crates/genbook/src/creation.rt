//! What a creation makes, and how its parts are made.

ghost use Rattle.std.specs.Prelude.{◌≡◌, ◌+◌, ◌++◌, ◌<◌, ◌≤◌, ◌^◌, ◌==◌, [], ◌∷◌, length, map, take, if◌then◌else◌, IfOk, OnOk};
ghost use Rattle.px_cluster.specs.Book.{is_of, storages_of};
ghost use Rattle.px_cluster.specs.Creating.{unrecorded};
ghost use Rattle.px_cluster.specs.Numbers.{places_from};
ghost use Rattle.genbook.specs.Changes.{numbers_of, unmade_with};

use crate::repository::no_lease;
use crate::{Replica, Repository, Storage};
use px_base::{Items, Lease, RepoId, RepoPath, StorageId, StorageName};
use std::alloc::{AllocError, Global};

/// What a creation makes. It is worked out, and takes all its memory, before anything changes.
#[derive(Drop)]
pub struct Creation {
    /// The number of the repository.
    pub repo: RepoId,
    /// The lease that is drawn for the storages that are assigned.
    pub lease: Lease,
    /// The storages that are assigned, by number.
    pub assigned: Items<StorageId>,
    /// The repository as it then is.
    pub entry: Repository,
}

/// The storages of a virtual storage, by number.
pub(crate) fn storages_of(
    alloc: Global,
    storages: &[Storage],
    virt: &StorageName,
) -> Result<Items<StorageId>, AllocError>
    requires { length storages.now < 2 ^ 32 }
    ensures found { IfOk result (λ found. numbers_of found ≡ storages_of storages.now virt.now) }
    ensures few { IfOk result (λ found. length found ≤ length storages.now) }
{
    let mut found = Items::new(alloc);
    for (number, storage) in storages.iter().enumerate() {
        add_storage(&mut found, number as u32, storage, virt)?;
    }
    Ok(found)
}

// The storage, where it is one of the virtual storage.
fn add_storage(
    found: &mut Items<StorageId>,
    number: u32,
    storage: &Storage,
    virt: &StorageName,
) -> Result<(), AllocError>
    ensures found { OnOk result (numbers_of found.new
        ≡ numbers_of found.old ++ places_from number (is_of virt.now) (storage.now ∷ [])) }
    ensures few { length found.new ≤ length found.old + 1 }
{
    if storage.virt.as_bytes() == virt.as_bytes() {
        found.push(StorageId(number))?;
    }
    Ok(())
}

/// The first of the storages, as many as the factor says; 0 stands for all.
pub(crate) fn first_of(
    alloc: Global,
    factor: u32,
    storages: Items<StorageId>,
) -> Result<Items<StorageId>, AllocError>
    requires { factor ≤ length storages }
    ensures { IfOk result (λ first. first
        ≡ (if factor == 0 then storages else take factor storages)) }
{
    if factor == 0 {
        return Ok(storages);
    }
    Items::from_slice(alloc, &storages.as_slice()[..factor as usize])
}

/// A repository before its first creation, with a replica on each of these storages.
pub(crate) fn unmade(
    alloc: Global,
    virt: &StorageName,
    path: &RepoPath,
    storages: &[StorageId],
) -> Result<Repository, AllocError>
    ensures { IfOk result (λ repo. repo
        ≡ unmade_with virt.now path.now (map unrecorded (numbers_of storages.now))) }
{
    let path = path.copy(alloc)?;
    let replicas = unrecorded(alloc, storages)?;
    Ok(Repository::unmade(*virt, path, no_lease(), replicas))
}

fn unrecorded(alloc: Global, storages: &[StorageId]) -> Result<Vec<Replica>, AllocError>
    ensures { IfOk result (λ replicas. replicas.items
        ≡ map unrecorded (numbers_of storages.now)) }
{
    let mut replicas = Vec::with_capacity(alloc, storages.len())?;
    for storage in storages {
        replicas.push(Replica::unrecorded(*storage, no_lease()))?;
    }
    Ok(replicas)
}
