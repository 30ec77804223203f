//! What a line of a script may ask for.

use px_base::{JobId, Lease, Push, RepoId, StorageName, TxId};
use px_ops::Op;

/// What a line of a script asks for. A line names a storage by its name, and only a world that has
/// storages knows their numbers: so an operation on a storage's number is asked for in a form of its
/// own.
#[derive(Drop)]
pub enum Event {
    /// An operation of the core. It is one that a line spells: no other is read.
    Operation(Op),
    /// Tells whether a storage can be reached.
    Health {
        /// The storage.
        name: StorageName,
        /// Whether it can.
        up: bool,
    },
    /// A storage makes an empty replica.
    Make {
        /// The storage.
        name: StorageName,
        /// The repository.
        repo: RepoId,
        /// The lease under which it is made.
        lease: Lease,
    },
    /// Books the empty replica that a storage has made.
    Enrol {
        /// The repository.
        repo: RepoId,
        /// The storage.
        name: StorageName,
        /// The lease under which it made the replica.
        lease: Lease,
    },
    /// A push comes to a storage, which is to prepare it.
    Prepare {
        /// The transaction of the push.
        tx: TxId,
        /// The storage.
        name: StorageName,
        /// What is pushed.
        push: Push,
    },
    /// A storage is to commit what it prepared.
    Commit {
        /// The transaction of the push.
        tx: TxId,
        /// The storage.
        name: StorageName,
    },
    /// A storage is to abort what it prepared.
    Abort {
        /// The transaction of the push.
        tx: TxId,
        /// The storage.
        name: StorageName,
    },
    /// Asks which references a storage's replica has.
    Refs {
        /// The storage.
        name: StorageName,
        /// The repository.
        repo: RepoId,
    },
    /// Takes the next job of a storage.
    Take {
        /// The storage whose replica the job is to change.
        name: StorageName,
        /// The moment, in the unit that all moments have.
        now: u64,
    },
    /// A snapshot of the source of a job is taken, and kept for its target.
    Snapshot {
        /// The job.
        job: JobId,
        /// The lease under which a worker took it.
        lease: Lease,
    },
    /// The target of a job is to become as the snapshot that is kept for it.
    Apply {
        /// The job.
        job: JobId,
        /// The lease under which a worker took it.
        lease: Lease,
    },
    /// The target of a job is to remove its replica.
    Remove {
        /// The job.
        job: JobId,
        /// The lease under which a worker took it.
        lease: Lease,
    },
    /// Draws a lease by which a storage is fenced before its content is accepted.
    AcceptBegin {
        /// The repository.
        repo: RepoId,
        /// The storage.
        name: StorageName,
    },
    /// Draws a lease by which a storage in doubt is fenced before it is settled.
    SettleBegin {
        /// The repository.
        repo: RepoId,
        /// The storage.
        name: StorageName,
    },
    /// A storage is to take no push under an older lease than this one.
    Fence {
        /// The storage.
        name: StorageName,
        /// The repository.
        repo: RepoId,
        /// The lease.
        lease: Lease,
    },
    /// Takes the content that a storage has as the newest generation, whatever was decided.
    Accept {
        /// The repository.
        repo: RepoId,
        /// The storage.
        name: StorageName,
        /// The lease by which it was fenced.
        lease: Lease,
    },
    /// Books what became of a storage in doubt, by what it answered to the fence.
    Settle {
        /// The repository.
        repo: RepoId,
        /// The storage.
        name: StorageName,
        /// The lease by which it was fenced.
        lease: Lease,
    },
}
