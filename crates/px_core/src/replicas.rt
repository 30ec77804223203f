//! What is asked of one replica before it is enrolled, accepted or settled, by what the book has of
//! its repository. None of it takes memory.

ghost use Rattle.std.specs.Prelude.{◌≡◌, ◌+◌, None, Some, IfErr, IfOk, OnOk};
ghost use Rattle.px_ops.specs.declared.refusal.Refusal.TheVariants as refusal;
ghost use Rattle.px_cluster.specs.Book.{booking_on, is_absent, kept_on};
ghost use Rattle.px_cluster.specs.Creating.{lease_lost};
ghost use Rattle.px_cluster.specs.Refusals.{cause, generations_spent, leases_spent};
ghost use Rattle.genbook.specs.Calls.{accept_cause, accept_draw_cause, doubt_cause, enrol_cause, settle_cause, settle_draw_cause};

use genbook::Repository;
use px_base::{Lease, StorageId};
use px_ops::{Booking, Refusal};

/// The replica on a storage is to be made under this lease, and the lease is the last one that was
/// drawn for it.
pub(crate) fn is_making(
    repository: &Repository,
    storage: StorageId,
    lease: Lease,
) -> Result<(), Refusal>
    ensures accepted { OnOk result (enrol_cause repository.now storage.0 lease ≡ None) }
    ensures refused { IfErr result (λ why. enrol_cause repository.now storage.0 lease ≡ Some why) }
{
    has_kept(repository, storage, lease)?;
    if repository.creation_lease() != lease {
        return Err(Refusal::NotMaking);
    }
    Ok(())
}

/// What the replica on a storage holds may become the newest generation, and the lease is the last
/// one that was drawn for it.
pub(crate) fn is_acceptable(
    repository: &Repository,
    storage: StorageId,
    lease: Lease,
) -> Result<(), Refusal>
    ensures accepted { OnOk result (accept_cause repository.now storage.0 lease ≡ None) }
    ensures refused { IfErr result (λ why. accept_cause repository.now storage.0 lease ≡ Some why) }
{
    has_kept(repository, storage, lease)?;
    is_booked(repository, storage)?;
    has_next_generation(repository)
}

/// The replica on a storage is in doubt, the lease is the last one that was drawn for it, and it is
/// not that of the doubt.
pub(crate) fn is_settleable(
    repository: &Repository,
    storage: StorageId,
    lease: Lease,
) -> Result<(), Refusal>
    ensures accepted { OnOk result (settle_cause repository.now storage.0 lease ≡ None) }
    ensures refused { IfErr result (λ why. settle_cause repository.now storage.0 lease ≡ Some why) }
{
    has_kept(repository, storage, lease)?;
    is_in_other_doubt(repository, storage, lease)
}

/// The lease that is drawn next, where what the replica on a storage holds may become the newest
/// generation.
pub(crate) fn lease_to_accept(repository: &Repository, storage: StorageId) -> Result<Lease, Refusal>
    ensures ok { IfOk result (λ lease. lease ≡ repository.now.last + 1) }
    ensures accepted { OnOk result (accept_draw_cause repository.now storage.0 ≡ None) }
    ensures refused { IfErr result (λ why. accept_draw_cause repository.now storage.0 ≡ Some why) }
{
    is_booked(repository, storage)?;
    let lease = next_lease(repository)?;
    has_next_generation(repository)?;
    Ok(lease)
}

/// The lease that is drawn next, where the replica on a storage is in doubt.
pub(crate) fn lease_to_settle(repository: &Repository, storage: StorageId) -> Result<Lease, Refusal>
    ensures ok { IfOk result (λ lease. lease ≡ repository.now.last + 1) }
    ensures accepted { OnOk result (settle_draw_cause repository.now storage.0 ≡ None) }
    ensures refused { IfErr result (λ why. settle_draw_cause repository.now storage.0 ≡ Some why) }
{
    if !matches!(repository.booking(storage), Booking::Doubt { .. }) {
        return Err(Refusal::NotInDoubt);
    }
    next_lease(repository)
}

// The lease is the last one that was drawn for the replica.
fn has_kept(repository: &Repository, storage: StorageId, lease: Lease) -> Result<(), Refusal>
    ensures accepted { OnOk result (lease_lost (kept_on repository.now storage.0) lease ≡ None) }
    ensures refused { IfErr result (λ why. lease_lost (kept_on repository.now storage.0) lease
        ≡ Some why) }
{
    let kept = repository.kept(storage);
    if kept != lease {
        return Err(Refusal::LeaseLost { kept, given: lease });
    }
    Ok(())
}

// Something is booked of the replica.
fn is_booked(repository: &Repository, storage: StorageId) -> Result<(), Refusal>
    ensures accepted { OnOk result
        (cause (is_absent (booking_on repository.now storage.0)) refusal.NotBooked ≡ None) }
    ensures refused { IfErr result (λ why.
        cause (is_absent (booking_on repository.now storage.0)) refusal.NotBooked ≡ Some why) }
{
    match repository.booking(storage) {
        Booking::Absent => Err(Refusal::NotBooked),
        Booking::At(_) | Booking::Doubt { .. } => Ok(()),
    }
}

// The replica is in doubt, and not under this lease, under which its node may still commit.
fn is_in_other_doubt(
    repository: &Repository,
    storage: StorageId,
    lease: Lease,
) -> Result<(), Refusal>
    ensures accepted { OnOk result (doubt_cause repository.now storage.0 lease ≡ None) }
    ensures refused { IfErr result (λ why. doubt_cause repository.now storage.0 lease ≡ Some why) }
{
    let Booking::Doubt { lease: under, .. } = repository.booking(storage) else {
        return Err(Refusal::NotInDoubt);
    };
    if under == lease {
        return Err(Refusal::LeaseLost {
            kept: repository.kept(storage),
            given: lease,
        });
    }
    Ok(())
}

// A generation is left after the newest one.
fn has_next_generation(repository: &Repository) -> Result<(), Refusal>
    ensures accepted { OnOk result (generations_spent repository.now.newest ≡ None) }
    ensures refused { IfErr result (λ why. generations_spent repository.now.newest ≡ Some why) }
{
    if repository.newest().0 == u64::MAX {
        return Err(Refusal::GenerationsSpent);
    }
    Ok(())
}

/// The lease after the last one that was drawn. Refused is `LeasesSpent`.
pub(crate) fn next_lease(repository: &Repository) -> Result<Lease, Refusal>
    ensures ok { IfOk result (λ lease. lease ≡ repository.now.last + 1) }
    ensures accepted { OnOk result (leases_spent repository.now.last ≡ None) }
    ensures refused { IfErr result (λ why. leases_spent repository.now.last ≡ Some why) }
{
    match Lease::new(repository.last_lease().number() + 1) {
        Some(lease) => Ok(lease),
        None => Err(Refusal::LeasesSpent),
    }
}
