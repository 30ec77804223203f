//! What is asked of the cluster's core.

use px_base::{
    Hash, Items, JobId, Lease, Phase, RepoId, RepoPath, StorageId, StorageName, TxId, Voter,
};

/// What is asked of the core. Each operation is one step: it is refused, and then changes nothing, or
/// done as a whole.
#[derive(Drop)]
pub enum Op {
    /// Takes a storage in, with the next number. It is down, and has no replica.
    Admit {
        /// The virtual storage that it is of.
        virt: StorageName,
        /// Its name.
        name: StorageName,
    },
    /// Tells whether a storage can be reached.
    Health {
        /// The storage.
        storage: StorageId,
        /// Whether it can.
        up: bool,
    },
    /// Opens a transaction, with the next number.
    Open {
        /// The weight that decides.
        threshold: u64,
        /// How many rounds the transaction is to have. From 1 to 8 are lawful.
        rounds: u32,
        /// Who may vote, in their order. A list that is empty, or names one twice, is refused.
        voters: Items<Voter>,
    },
    /// A voter votes for a hash in a phase.
    Cast {
        /// The transaction that is voted on.
        tx: TxId,
        /// Who votes.
        voter: StorageName,
        /// The phase that the vote is for.
        phase: Phase,
        /// What the vote is for.
        hash: Hash,
    },
    /// A voter is canceled: it casts no vote any more.
    Withdraw {
        /// The transaction that the voter leaves.
        tx: TxId,
        /// Who leaves.
        voter: StorageName,
    },
    /// Cancels, in each subtransaction, each voter that is undecided there.
    Cancel {
        /// The transaction.
        tx: TxId,
    },
    /// Stops each open subtransaction: they decide nothing any more.
    Stop {
        /// The transaction.
        tx: TxId,
    },
    /// Asks for a voter's result.
    Collect {
        /// The transaction.
        tx: TxId,
        /// Whose result is asked for.
        voter: StorageName,
        /// The number of the subtransaction. The first one is 1.
        sub: u32,
    },
    /// Asks for the outcome of a subtransaction.
    Outcome {
        /// The transaction.
        tx: TxId,
        /// The number of the subtransaction. The first one is 1.
        sub: u32,
    },
    /// Takes a transaction that is no push away, whatever became of it.
    Close {
        /// The transaction.
        tx: TxId,
    },
    /// Puts a repository on record, or makes one again that no storage has a replica of.
    Create {
        /// The virtual storage that it is of.
        virt: StorageName,
        /// Its path.
        path: RepoPath,
        /// How many storages are to have a replica. 0 stands for the default of the virtual storage.
        factor: u32,
    },
    /// Books the empty replica that a storage has made.
    Enrol {
        /// The repository.
        repo: RepoId,
        /// The storage.
        storage: StorageId,
        /// The lease under which it made the replica.
        lease: Lease,
    },
    /// Begins a push, which takes the turn of the repository.
    Begin {
        /// The repository.
        repo: RepoId,
    },
    /// Ends a push, which gives the turn back.
    Finish {
        /// Its transaction.
        tx: TxId,
    },
    /// Takes the next job of a storage.
    Dequeue {
        /// The storage whose replica the job is to change.
        target: StorageId,
        /// The moment, in the unit that all moments have.
        now: u64,
    },
    /// A worker tells that it is still at work.
    Beat {
        /// The job.
        job: JobId,
        /// The lease under which the worker took it.
        lease: Lease,
        /// The moment.
        now: u64,
    },
    /// A worker tells how its job ended.
    Ack {
        /// The job.
        job: JobId,
        /// The lease under which the worker took it.
        lease: Lease,
        /// Whether it ended well.
        good: bool,
    },
    /// Ends badly each job whose worker was not heard of for so long.
    Stale {
        /// The moment.
        now: u64,
        /// For how long.
        after: u64,
    },
    /// Enqueues a job for each storage that lags behind, or has a replica too many.
    Reconcile {
        /// The repository, or all where none is named.
        only: Option<RepoId>,
    },
    /// Asks for a storage that may answer a read.
    RouteRead {
        /// The repository.
        repo: RepoId,
    },
    /// Sets how many storages are to have a replica.
    SetFactor {
        /// The repository.
        repo: RepoId,
        /// How many.
        factor: u32,
    },
    /// Draws a lease by which a storage is fenced before its content is accepted.
    AcceptBegin {
        /// The repository.
        repo: RepoId,
        /// The storage.
        storage: StorageId,
    },
    /// Takes the content that a storage has as the newest generation, whatever was decided.
    Accept {
        /// The repository.
        repo: RepoId,
        /// The storage.
        storage: StorageId,
        /// The lease by which it was fenced.
        lease: Lease,
    },
    /// Draws a lease by which a storage in doubt is fenced before it is settled.
    SettleBegin {
        /// The repository.
        repo: RepoId,
        /// The storage.
        storage: StorageId,
    },
    /// Books what became of a storage in doubt.
    Settle {
        /// The repository.
        repo: RepoId,
        /// The storage.
        storage: StorageId,
        /// The lease by which it was fenced.
        lease: Lease,
        /// The last lease that it committed, as it answered the fence.
        last: Option<Lease>,
    },
    /// Asks what is booked of a repository.
    Booked {
        /// The repository.
        repo: RepoId,
    },
    /// Asks for the number of a repository.
    Find {
        /// The virtual storage that it is of.
        virt: StorageName,
        /// Its path.
        path: RepoPath,
    },
    /// Asks who has the turn of a repository.
    Holder {
        /// The repository.
        repo: RepoId,
    },
}
