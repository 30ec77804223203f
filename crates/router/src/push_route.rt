//! The way of a push: its members and its targets.

ghost use Rattle.std.specs.Prelude.{◌≡◌, ◌==◌, false, length, None, Some, IfOk, IfErr, OnOk};
ghost use Rattle.px_cluster.specs.Members.{hosts, led_by, members, targets};
ghost use Rattle.px_cluster.specs.Pushes.{read_only};
ghost use Rattle.genbook.specs.Changes.{numbers_of};
ghost use Rattle.genbook.specs.Health.{core_with_health};
ghost use Rattle.router.specs.Routes.{AreFew, fault_for};

use crate::PushFault;
use crate::hosts::{count_newest, is_host, primary};
use genbook::{Health, Repository};
use px_base::StorageId;
use px_ops::Refusal;
use std::alloc::{AllocError, Global};

/// Who takes part in a push.
#[derive(Drop)]
pub struct PushRoute {
    /// The primary, and then the secondaries by number: the storages on which the push is done, and
    /// which vote on it.
    pub members: Vec<StorageId>,
    /// The other assigned storages, by number, which what the push brings reaches by jobs.
    pub targets: Vec<StorageId>,
}

/// Whether a push can be done: some storage is up, assigned, and at the newest generation. Refused is
/// `ReadOnly`, where none is. Takes no memory.
pub fn may_push(repository: &Repository, health: &Health) -> Result<(), Refusal>
    requires { AreFew repository.now }
    ensures accepted { OnOk result
        (read_only (core_with_health health.now) repository.now ≡ None) }
    ensures refused { IfErr result (λ why.
        read_only (core_with_health health.now) repository.now ≡ Some why) }
{
    match primary(repository, health) {
        Some(_) => Ok(()),
        None => Err(Refusal::ReadOnly {
            newest: repository.newest(),
            current: count_newest(repository),
        }),
    }
}

/// The way of the next push to a repository, by what the book has of it and which storages are up.
/// Refused is `ReadOnly`, where no storage that is up and assigned is at the newest generation.
pub fn route_push(
    alloc: Global,
    repository: &Repository,
    health: &Health,
) -> Result<PushRoute, PushFault>
    requires { AreFew repository.now }
    ensures members { IfOk result (λ route. numbers_of route.members.items
        ≡ members (core_with_health health.now) repository.now) }
    ensures targets { IfOk result (λ route. numbers_of route.targets.items
        ≡ targets (core_with_health health.now) repository.now) }
    ensures led { OnOk result
        ((length (members (core_with_health health.now) repository.now) == 0) ≡ false) }

    // Memory wants only where the push is not refused.
    ensures accepted { OnOk result
        (read_only (core_with_health health.now) repository.now ≡ None) }
    ensures refused { IfErr result (λ fault. fault
        ≡ fault_for (read_only (core_with_health health.now) repository.now)) }
{
    if let Err(refusal) = may_push(repository, health) {
        return Err(PushFault::Refused(refusal));
    }
    let Some(primary) = primary(repository, health) else {
        unreachable!();
    };
    let members = led_by(alloc, repository, health, primary)?;
    let targets = targets(alloc, repository, health)?;
    Ok(PushRoute { members, targets })
}

// The primary, and then the other storages on which the push may be done.
fn led_by(
    alloc: Global,
    repository: &Repository,
    health: &Health,
    primary: StorageId,
) -> Result<Vec<StorageId>, AllocError>
    ensures { IfOk result (λ members. numbers_of members.items
        ≡ led_by (Some primary.0) (hosts (core_with_health health.now) repository.now)) }
{
    let mut members = Vec::new(alloc);
    members.push(primary)?;
    for replica in repository.replicas() {
        if replica.storage.0 != primary.0 && is_host(repository, health, replica) {
            members.push(replica.storage)?;
        }
    }
    Ok(members)
}

fn targets(
    alloc: Global,
    repository: &Repository,
    health: &Health,
) -> Result<Vec<StorageId>, AllocError>
    ensures { IfOk result (λ storages. numbers_of storages.items
        ≡ targets (core_with_health health.now) repository.now) }
{
    repository
        .replicas()
        .iter()
        .filter(|replica| replica.assigned && !is_host(repository, health, replica))
        .map(|replica| replica.storage)
        .collect(alloc)
}
