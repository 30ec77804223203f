//! What an admission makes.

ghost use Rattle.std.specs.Prelude.{◌≡◌, ℕ, List, drop, map, IfOk};
ghost use Rattle.px_cluster.specs.Creating.{with_storage};
ghost use Rattle.genbook.specs.Longer.{longer_for, with_next};

use crate::{Replica, Repository};
use px_base::{StorageId, StorageName};
use std::alloc::{AllocError, Global};
use std::collections::VecDeque;
use std::marker::Model;

/// What an admission makes. It is worked out, and takes all its memory, before anything changes.
#[derive(Drop)]
pub struct Admission {
    /// The number of the storage.
    pub storage: StorageId,
    /// The virtual storage that it belongs to.
    pub virt: StorageName,
    /// Its name.
    pub name: StorageName,
    /// Of each repository, by number, the replicas that it has then.
    pub longer: VecDeque<Longer>,
}

/// The replicas that a repository has after an admission, where they are others than before.
#[derive(Drop)]
pub struct Longer {
    replicas: Option<Vec<Replica>>,
}

impl Model for Longer {
    ghost use Rattle.std.specs.Prelude.{List, Option};
    ghost use Rattle.std.specs.Option.{option_map};
    ghost use Rattle.px_cluster.specs.Book.{Replica as Recorded};

    ghost Value = { Option (List Recorded) };

    ghost view = { λ l. option_map (λ r. r.items) l.replicas };
}

impl Longer {
    ghost use Rattle.std.specs.Prelude.{◌≡◌, None, Some};
    ghost use Rattle.std.specs.Option.{option_map};

    /// The replicas stay as they are.
    pub(crate) fn same() -> Longer
        ensures { result ≡ None }
    {
        Longer { replicas: None }
    }

    /// These replicas.
    pub(crate) fn of(replicas: Vec<Replica>) -> Longer
        ensures { result ≡ Some replicas.items }
    {
        Longer {
            replicas: Some(replicas),
        }
    }

    /// The replicas, where they are others.
    pub(crate) fn replicas(self) -> Option<Vec<Replica>>
        ensures { option_map (λ r. r.items) result ≡ self }
    {
        self.replicas
    }
}

/// The replicas that each repository has once this storage of this virtual storage is admitted.
pub(crate) fn longer_for(
    alloc: Global,
    repositories: &[Repository],
    virt: &StorageName,
    storage: StorageId,
) -> Result<VecDeque<Longer>, AllocError>
    ensures { IfOk result (λ longer. longer.items
        ≡ map (longer_for virt.now storage.0) repositories.now) }
{
    let mut longer = VecDeque::new(alloc);
    for repository in repositories {
        longer.push_back(repository.longer(alloc, virt, storage)?)?;
    }
    Ok(longer)
}

/// Gives each repository its replicas. Takes no memory.
pub(crate) fn lengthen(repositories: &mut [Repository], mut longer: VecDeque<Longer>)
    ensures { (virt : List ℕ) (storage : ℕ)
        → longer.items ≡ map (longer_for virt storage) repositories.old
        → repositories.new ≡ map (with_storage virt storage) repositories.old }
{
    for repository in repositories.iter_mut() {
        lengthen_next(repository, &mut longer);
    }
}

fn lengthen_next(repository: &mut Repository, longer: &mut VecDeque<Longer>)
    ensures repository { repository.new ≡ with_next longer.old.items repository.old }
    ensures rest { longer.new.items ≡ drop 1 longer.old.items }
{
    if let Some(replicas) = longer.pop_front() {
        repository.lengthen(replicas);
    }
}
