//! Which effects were issued.

ghost use Rattle.std.specs.Prelude.{◌≡◌};
ghost use Rattle.issued.specs.Draws.{ledger_of};
ghost use Rattle.issued.specs.Purposes.{hash_in};
ghost use Rattle.px_cluster.specs.Ledger.{commit_in, is_creation, is_fence, is_push};

use issued::{Issued, Purpose};
use px_base::{Lease, RepoId, StorageId};
use voters::Verdict;

/// Whether the creation of a replica was issued under the lease.
pub(crate) fn is_creation(issued: &Issued, repo: RepoId, storage: StorageId, lease: Lease) -> bool
    ensures { result ≡ is_creation (ledger_of issued.now.draws repo.0 storage.0 lease) }
{
    match issued.purpose(repo, storage, lease) {
        Some(Purpose::Creation { .. }) => true,
        Some(
            Purpose::Push { .. }
            | Purpose::Update { .. }
            | Purpose::Delete { .. }
            | Purpose::Fence { .. },
        )
        | None => false,
    }
}

/// Whether the lease was drawn for a push.
pub(crate) fn is_push(issued: &Issued, repo: RepoId, storage: StorageId, lease: Lease) -> bool
    ensures { result ≡ is_push (ledger_of issued.now.draws repo.0 storage.0 lease) }
{
    match issued.purpose(repo, storage, lease) {
        Some(Purpose::Push { .. }) => true,
        Some(
            Purpose::Creation { .. }
            | Purpose::Update { .. }
            | Purpose::Delete { .. }
            | Purpose::Fence { .. },
        )
        | None => false,
    }
}

/// The verdict by which a commit was issued under the lease.
pub(crate) fn verdict_of(
    issued: &Issued,
    repo: RepoId,
    storage: StorageId,
    lease: Lease,
) -> Option<Verdict>
    ensures { hash_in result ≡ commit_in (ledger_of issued.now.draws repo.0 storage.0 lease) }
{
    match issued.purpose(repo, storage, lease) {
        Some(Purpose::Push { commit, .. }) => *commit,
        Some(
            Purpose::Creation { .. }
            | Purpose::Update { .. }
            | Purpose::Delete { .. }
            | Purpose::Fence { .. },
        )
        | None => None,
    }
}

/// Whether a fence was issued under the lease.
pub(crate) fn is_fence(issued: &Issued, repo: RepoId, storage: StorageId, lease: Lease) -> bool
    ensures { result ≡ is_fence (ledger_of issued.now.draws repo.0 storage.0 lease) }
{
    match issued.purpose(repo, storage, lease) {
        Some(Purpose::Fence { .. }) => true,
        Some(
            Purpose::Creation { .. }
            | Purpose::Push { .. }
            | Purpose::Update { .. }
            | Purpose::Delete { .. },
        )
        | None => false,
    }
}
