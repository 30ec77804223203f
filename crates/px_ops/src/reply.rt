//! What the core answers.

use crate::{
    Begun, BookRows, Booking, JobIds, JobState, Names, PlannedJobs, PushEnd, Refusal, TakenJob,
};
use px_base::{Gen, JobId, Lease, RepoId, StorageId, StorageName, TxId};
use voters::{Outcome, VoterResult};

/// What the core answers to an operation.
#[derive(Drop)]
pub enum Reply {
    /// The operation was refused, and nothing changed.
    Refused(Refusal),
    /// The operation was done.
    Done,
    /// The number of the storage that was admitted.
    Storage(StorageId),
    /// The number of the transaction that was opened.
    Opened(TxId),
    /// The result of a voter.
    Counted {
        /// The number of the subtransaction that counted the vote, or was asked for. The first one
        /// is 1.
        sub: u32,
        /// The result there.
        result: VoterResult,
    },
    /// The outcome of a subtransaction.
    OutcomeIs(Outcome),
    /// A repository was put on record.
    Created {
        /// Its number.
        repo: RepoId,
        /// The lease under which its replicas are made.
        lease: Lease,
        /// The storages that are to make one, by their numbers.
        assigned: Names,
    },
    /// A push has begun.
    Begun(Begun),
    /// A push has ended.
    Finished(PushEnd),
    /// A job was taken.
    Taken(TakenJob),
    /// The job that would have been taken has nothing to do any more. It was cancelled.
    Dropped(JobId),
    /// No job of the storage can be taken.
    NoJob,
    /// The state of the job that has ended.
    JobIs(JobState),
    /// The jobs that were given a bad end, by their numbers.
    StaleIs(JobIds),
    /// The jobs that were enqueued, by their numbers.
    JobsAre(PlannedJobs),
    /// Where a read goes.
    Route {
        /// The storage.
        storage: StorageName,
        /// The newest generation, which its replica holds.
        generation: Gen,
    },
    /// The storages that are to have a replica, by their numbers.
    Assigned(Names),
    /// The lease that was drawn.
    Leased(Lease),
    /// The generation that the accepted content has become.
    Accepted(Gen),
    /// What is booked of the storage that was settled.
    BookedIs(Booking),
    /// What is booked of a repository.
    Books {
        /// The newest generation.
        newest: Gen,
        /// Its storages, by their numbers.
        rows: BookRows,
    },
    /// The number of the repository that was found.
    Repo(RepoId),
    /// The transaction of the push that has the turn, or none.
    HolderIs(Option<TxId>),
}
