//! The states of jobs, and what becomes of a job that is taken, beats or fails.

ghost use Rattle.std.specs.Prelude.{◌≡◌};
ghost use Rattle.px_cluster.specs.Jobs.{beaten, failed, holds_lock, is_dead, is_in_progress};
ghost use Rattle.replqueue.specs.Queue.{is_waiting, taken};

use px_base::{Gen, Lease, StorageId};
use px_ops::{Job, JobState};

/// Whether the state holds the lock of a repository and target.
pub(crate) fn holds_lock(state: JobState) -> bool
    ensures { result ≡ holds_lock state }
{
    matches!(
        state,
        JobState::Ready | JobState::InProgress | JobState::Failed
    )
}

/// Whether the state is that of a job that may be taken.
pub(crate) fn is_waiting(state: JobState) -> bool
    ensures { result ≡ is_waiting state }
{
    matches!(state, JobState::Ready | JobState::Failed)
}

/// Whether a worker has the job.
pub(crate) fn is_in_progress(state: JobState) -> bool
    ensures { result ≡ is_in_progress state }
{
    matches!(state, JobState::InProgress)
}

/// Whether no attempt is left.
pub(crate) fn is_dead(state: JobState) -> bool
    ensures { result ≡ is_dead state }
{
    matches!(state, JobState::Dead)
}

/// The job, as its worker was heard of.
pub(crate) fn beaten(job: &Job, now: u64) -> Job
    ensures { result ≡ beaten now job.now }
{
    let mut job = *job;
    if job.beat < now {
        job.beat = now;
    }
    job
}

/// The job after a bad end.
pub(crate) fn failed(job: &Job) -> Job
    ensures { result ≡ failed job.now }
{
    let mut job = *job;
    job.state = if job.attempts == 0 {
        JobState::Dead
    } else {
        JobState::Failed
    };
    job
}

/// The job, as a worker has taken it.
pub(crate) fn taken(
    job: &Job,
    source: Option<StorageId>,
    generation: Gen,
    now: u64,
    lease: Lease,
) -> Job
    ensures { result ≡ taken source generation now lease job.now }
{
    let mut job = *job;
    job.source = source;
    job.generation = generation;
    job.attempts = job.attempts.saturating_sub(1);
    job.state = JobState::InProgress;
    job.beat = now;
    job.lease = lease;
    job
}
