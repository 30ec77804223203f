//! The lines on which jobs are marked.

ghost use Rattle.std.specs.Prelude.{◌≡◌, ◌+◌, length, true, OnOk};
ghost use Rattle.px_cluster.specs.Plan.{numbered};
ghost use Rattle.px_ops.specs.declared.job.Job.{Job as Recorded};
ghost use Rattle.replqueue.specs.Lines.{line_by, pair_line};
ghost use Rattle.replqueue.specs.Marks.{AreMarked, KeepsAll};

use crate::marks::Marks;
use px_base::{RepoId, StorageId};
use px_ops::Job;
use std::alloc::AllocError;

/// The one line of jobs in progress.
pub(crate) const RUNNING: u64 = 0;

// How many targets there may be.
const TARGETS: u64 = 4_294_967_296;

/// What a job is marked by.
#[derive(Clone, Copy, Debug, PartialEq, Eq)]
pub enum By {
    /// Its repository and target.
    Pair,
    /// Its target.
    Target,
}

/// The line of a repository and target.
pub(crate) fn pair_line(repo: RepoId, target: StorageId) -> u64
    ensures { result ≡ pair_line repo.0 target.0 }
{
    u64::from(repo.0) * TARGETS + u64::from(target.0)
}

/// The line of a target.
pub(crate) fn target_line(target: StorageId) -> u64
    ensures { result ≡ target.0 }
{
    u64::from(target.0)
}

/// The line of a job.
pub(crate) fn line_by(by: By, job: &Job) -> u64
    ensures { result ≡ line_by by job.now }
{
    match by {
        By::Pair => pair_line(job.repo, job.target),
        By::Target => target_line(job.target),
    }
}

/// Marks each of these jobs. Where memory wants, some are marked.
pub(crate) fn mark_each(marks: &mut Marks, by: By, jobs: &[Job]) -> Result<(), AllocError>
    ensures marked { OnOk result
        (AreMarked (λ (job : Recorded). true) (line_by by) marks.new jobs.now) }
    ensures others { KeepsAll marks.old marks.new }
{
    for job in jobs {
        marks.mark(line_by(by, job), job.number.0)?;
    }
    Ok(())
}

/// The number of the last of these jobs, whose numbers follow a last one.
pub(crate) fn last_of(last: u64, jobs: &[Job]) -> u64
    requires { numbered last jobs.now ≡ jobs.now }
    ensures { result ≡ last + length jobs.now }
{
    match jobs.last() {
        Some(job) => job.number.0,
        None => last,
    }
}
