//! Replication jobs: what is to be done at a storage that lags behind, or has a replica too many.

use px_base::{Gen, Items, JobId, Lease, RepoId, StorageId, StorageName};

/// What a job does.
#[derive(Clone, Copy, Debug, PartialEq, Eq)]
pub enum JobKind {
    /// The replica at the target gets the content that the source has.
    Update,
    /// The replica at the target is removed.
    Delete,
}

/// How far a job is.
#[derive(Clone, Copy, Debug, PartialEq, Eq)]
pub enum JobState {
    /// Nobody has taken it yet.
    Ready,
    /// A worker has taken it.
    InProgress,
    /// It ended well. Its row is gone.
    Completed,
    /// There was nothing to do any more. Its row is gone.
    Cancelled,
    /// It ended badly, and has attempts left.
    Failed,
    /// It ended badly, and has no attempt left.
    Dead,
}

/// A job, as the queue keeps it.
#[derive(Clone, Copy, Debug, PartialEq, Eq)]
pub struct Job {
    /// Its number.
    pub number: JobId,
    /// What it does.
    pub kind: JobKind,
    /// The repository.
    pub repo: RepoId,
    /// The storage whose replica it changes.
    pub target: StorageId,
    /// The storage that it copies from. A delete has none.
    pub source: Option<StorageId>,
    /// The newest generation when the job was made, or was taken last.
    pub generation: Gen,
    /// How often it may still be taken. A new job has 3 attempts.
    pub attempts: u8,
    /// How far it is.
    pub state: JobState,
    /// When it was taken last, or its worker told last that it is at work. At first 0.
    pub beat: u64,
    /// The lease under which it was taken last. At first 0.
    pub lease: Lease,
}

/// A job that a worker has taken.
#[derive(Clone, Copy, Debug, PartialEq, Eq)]
pub struct TakenJob {
    /// Its number.
    pub job: JobId,
    /// What it does.
    pub kind: JobKind,
    /// The repository.
    pub repo: RepoId,
    /// The storage whose replica it changes.
    pub target: StorageName,
    /// The storage that it copies from. A delete has none.
    pub source: Option<StorageName>,
    /// The newest generation when it was taken.
    pub generation: Gen,
    /// The lease that its effects carry.
    pub lease: Lease,
}

/// A job that was enqueued.
#[derive(Clone, Copy, Debug, PartialEq, Eq)]
pub struct PlannedJob {
    /// Its number.
    pub job: JobId,
    /// What it does.
    pub kind: JobKind,
    /// The repository.
    pub repo: RepoId,
    /// The storage whose replica it changes.
    pub target: StorageName,
    /// The storage that it copies from. A delete has none.
    pub source: Option<StorageName>,
}

/// A list of jobs that were enqueued.
pub type PlannedJobs = Items<PlannedJob>;

/// A list of the numbers of jobs.
pub type JobIds = Items<JobId>;
