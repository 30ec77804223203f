//! The replicas of a repository, changed in place and read. None of it takes memory.

ghost use Rattle.std.specs.Prelude.{◌≡◌, ◌==◌, find, map};
ghost use Rattle.std.specs.List.{list_all, list_any};
ghost use Rattle.std.specs.Option.{option_copied};
ghost use Rattle.px_base.specs.declared.ids.StorageId.{StorageId};
ghost use Rattle.px_cluster.specs.Book.{Replica as Recorded, is_absent, is_on};
ghost use Rattle.px_cluster.specs.Creating.{assigned_under};
ghost use Rattle.px_cluster.specs.Numbers.{is_one_of};
ghost use Rattle.genbook.specs.Changes.{AreAscending, assigned_among, changed_on, changed_on_each, numbers_of};

use crate::{Change, Replica};
use px_base::{Lease, StorageId};
use px_ops::Booking;

/// Whether the storage is one of these.
pub(crate) fn is_one_of(storage: StorageId, storages: &[StorageId]) -> bool
    ensures { result ≡ is_one_of storage.0 (numbers_of storages.now) }
{
    has_number(storages, storage)
}

fn has_number(storages: &[StorageId], storage: StorageId) -> bool
    ensures { result ≡ list_any (λ (other : StorageId). other.0 == storage.0) storages.now }
{
    storages.iter().any(|other| other.0 == storage.0)
}

/// The replica on a storage.
pub(crate) fn replica_on(replicas: &[Replica], storage: StorageId) -> Option<&Replica>
    ensures { option_copied result ≡ find (is_on storage.0) replicas.now }
{
    replicas
        .iter()
        .find(|replica| replica.storage.0 == storage.0)
}

/// Whether nothing is known of any of them.
pub(crate) fn are_absent(replicas: &[Replica]) -> bool
    ensures { result ≡ list_all (λ (replica : Recorded). is_absent replica.booking) replicas.now }
{
    replicas
        .iter()
        .all(|replica| matches!(replica.booking, Booking::Absent))
}

/// Changes the replica on one storage.
pub(crate) fn change_on(replicas: &mut [Replica], storage: StorageId, change: &Change)
    ensures { replicas.new ≡ map (changed_on storage.0 change.now) replicas.old }
{
    for replica in replicas.iter_mut() {
        *replica = changed_on(*replica, storage, change);
    }
}

/// Changes the replicas on these storages.
pub(crate) fn change_on_each(replicas: &mut [Replica], storages: &[StorageId], change: &Change)
    ensures { replicas.new ≡ map (changed_on_each storages.now change.now) replicas.old }
{
    for replica in replicas.iter_mut() {
        *replica = changed_on_each(*replica, storages, change);
    }
}

/// These storages are assigned, and keep the lease. No other one is assigned.
pub(crate) fn assign_under(replicas: &mut [Replica], storages: &[StorageId], lease: Lease)
    ensures { replicas.new ≡ map (assigned_under (numbers_of storages.now) lease) replicas.old }
{
    for replica in replicas.iter_mut() {
        *replica = assigned_under(*replica, storages, lease);
    }
}

/// These storages, which stand by number, are assigned. No other one is assigned.
pub(crate) fn assign(replicas: &mut [Replica], storages: &[StorageId])
    requires { AreAscending (numbers_of storages.now) }
    ensures { replicas.new ≡ map (assigned_among (numbers_of storages.now)) replicas.old }
{
    for replica in replicas.iter_mut() {
        *replica = assigned_among(*replica, storages);
    }
}

fn assigned_among(replica: Replica, storages: &[StorageId]) -> Replica
    requires { AreAscending (numbers_of storages.now) }
    ensures { result ≡ assigned_among (numbers_of storages.now) replica }
{
    replica.with_assigned(is_among(replica.storage, storages))
}

// Whether the storage is one of these, which stand by number.
fn is_among(storage: StorageId, storages: &[StorageId]) -> bool
    requires { AreAscending (numbers_of storages.now) }
    ensures { result ≡ is_one_of storage.0 (numbers_of storages.now) }
{
    storages.binary_search(&storage).is_ok()
}

fn changed_on(replica: Replica, storage: StorageId, change: &Change) -> Replica
    ensures { result ≡ changed_on storage.0 change.now replica }
{
    if replica.storage.0 == storage.0 {
        replica.changed(change)
    } else {
        replica
    }
}

fn changed_on_each(replica: Replica, storages: &[StorageId], change: &Change) -> Replica
    ensures { result ≡ changed_on_each storages.now change.now replica }
{
    if is_one_of(replica.storage, storages) {
        replica.changed(change)
    } else {
        replica
    }
}

fn assigned_under(replica: Replica, storages: &[StorageId], lease: Lease) -> Replica
    ensures { result ≡ assigned_under (numbers_of storages.now) lease replica }
{
    if is_one_of(replica.storage, storages) {
        replica.changed(&Change::Draw(lease)).with_assigned(true)
    } else {
        replica.with_assigned(false)
    }
}
