//! What becomes of a job that waits, by what the book has of its repository.

ghost use Rattle.std.specs.Prelude.{◌≡◌};
ghost use Rattle.px_cluster.specs.Core.{Core};
ghost use Rattle.px_cluster.specs.Taking.{taking_by};
ghost use Rattle.px_ops.specs.declared.job.JobKind.TheVariants.{Delete, Update};
ghost use Rattle.genbook.specs.Health.{core_with_health};
ghost use Rattle.replqueue.specs.Facts.{taking_of};

use crate::bookings::{is_assigned, is_newest_on};
use crate::sources::{are_assigned_newest, source_for};
use genbook::{Health, Repository};
use px_ops::{Job, JobKind};
use replqueue::Taking;

/// What becomes of a job whose target is no member of the open push. `None` where it is passed over.
pub(crate) fn taking(repository: &Repository, health: &Health, job: &Job) -> Option<Taking>
    ensures { taking_of result
        ≡ taking_by (core_with_health health.now) repository.now job.now job.now.kind }
{
    match job.kind {
        JobKind::Update => taking_update(repository, health, job),
        JobKind::Delete => taking_delete(repository, job),
    }
}

// An update has nothing to do where its target is unassigned or at the newest generation. Without
// a source it is passed over.
fn taking_update(repository: &Repository, health: &Health, job: &Job) -> Option<Taking>
    ensures { taking_of result
        ≡ taking_by (core_with_health health.now) repository.now job.now Update }
{
    if !is_assigned(repository, job.target) || is_newest_on(repository, job.target) {
        return Some(Taking::Drop);
    }
    match source_for(repository, health, job.target, job.source) {
        Some(source) => Some(Taking::Take(Some(source))),
        None => None,
    }
}

// A delete has nothing to do where its target is assigned, or some assigned replica is not at the
// newest generation.
fn taking_delete(repository: &Repository, job: &Job) -> Option<Taking>
    ensures { (core : Core) → taking_of result ≡ taking_by core repository.now job.now Delete }
{
    if is_assigned(repository, job.target) || !are_assigned_newest(repository) {
        return Some(Taking::Drop);
    }
    Some(Taking::Take(None))
}
