//! Jobs as texts.

ghost use Rattle.std.specs.Prelude.{◌+◌, ◌≡◌, IfOk, true};
ghost use Rattle.px_cluster.specs.Jobs.{is_ready};

use crate::words::{replied, repository, storage, text};
use px_base::{Gen, JobId, Lease, RepoId, StorageId};
use px_ops::{Job, JobKind, JobState, Reply};
use std::alloc::Global;
use std::test::Fail;

// From where to where a job copies. A delete has its target alone.
fn route(alloc: Global, job: &Job) -> Result<String, Fail> {
    let target = job.target.0;
    match job.source {
        Some(source) => Ok(format!(in alloc; "{}>{target}", source.0)?),
        None => Ok(format!(in alloc; "{target}")?),
    }
}

fn kind(job: &Job) -> &'static str {
    match job.kind {
        JobKind::Update => "update",
        JobKind::Delete => "delete",
    }
}

/// All that is kept of a job: its number, what it does, its repository, its route, its generation,
/// the attempts that are left, its state, its beat and its lease.
pub fn row(alloc: Global, job: &Job) -> Result<String, Fail> {
    let way = format!(in alloc;
        "{} {} {}",
        kind(job),
        job.repo.0,
        route(alloc, job)?.as_str()
    )?;
    let state = replied(alloc, &Reply::JobIs(job.state))?;
    let (number, generation, attempts) = (job.number.0, job.generation.0, job.attempts);
    let (beat, lease) = (job.beat, job.lease.number());
    Ok(format!(in alloc;
        "{number} {way} gen {generation} left {attempts} {state} beat {beat} lease {lease}"
    )?)
}

/// The same, or `-` where there is no job.
pub fn row_of(alloc: Global, job: Option<&Job>) -> Result<String, Fail> {
    match job {
        Some(job) => row(alloc, job),
        None => text(alloc, "-"),
    }
}

/// The jobs of a plan, each as `NUMBER:update:REPO:SOURCE>TARGET` or `NUMBER:delete:REPO:TARGET`.
pub fn planned(alloc: Global, jobs: &[Job]) -> Result<String, Fail> {
    let mut told = text(alloc, "jobs")?;
    for job in jobs {
        let route = route(alloc, job)?;
        let (number, repo, kind) = (job.number.0, job.repo.0, kind(job));
        told.push_str(format!(in alloc; " {number}:{kind}:{repo}:{route}")?.as_str())?;
    }
    Ok(told)
}

// What a new job does, from where, and to where.
fn way(kind: &str, route: &str) -> Result<(JobKind, Option<StorageId>, StorageId), Fail> {
    match (kind, route.split_once(">")) {
        ("update", Some((source, target))) => {
            Ok((JobKind::Update, Some(storage(source)?), storage(target)?))
        }
        ("delete", None) => Ok((JobKind::Delete, None, storage(route)?)),
        _ => Err(Fail::new("no such job")),
    }
}

fn no_lease() -> Result<Lease, Fail> {
    match Lease::new(0) {
        Some(lease) => Ok(lease),
        None => Err(Fail::new("no lease")),
    }
}

/// The number after another one.
pub fn after(last: u64) -> Result<JobId, Fail>
    ensures { IfOk result (λ number. number.0 ≡ last + 1) }
{
    match last.checked_add(1) {
        Some(number) => Ok(JobId(number)),
        None => Err(Fail::new("no number is left")),
    }
}

// A new job of generation 4, under this number.
fn ready(number: JobId, repo: RepoId, kind: &str, route: &str) -> Result<Job, Fail>
    ensures number { IfOk result (λ job. job.number ≡ number) }
    ensures ready { IfOk result (λ job. is_ready job.state ≡ true) }
{
    let (kind, source, target) = way(kind, route)?;
    Ok(Job {
        number,
        kind,
        repo,
        target,
        source,
        generation: Gen(4),
        attempts: 3,
        state: JobState::Ready,
        beat: 0,
        lease: no_lease()?,
    })
}

/// A new job of generation 4 that comes after another one, as `update:REPO:SOURCE>TARGET` or
/// `delete:REPO:TARGET`.
pub fn new_job(last: u64, word: &str) -> Result<Job, Fail>
    ensures number { IfOk result (λ job. job.number.0 ≡ last + 1) }
    ensures ready { IfOk result (λ job. is_ready job.state ≡ true) }
{
    let (kind, rest) = word.split_once(":").unwrap_or((word, ""));
    let (repo, route) = rest.split_once(":").unwrap_or((rest, ""));
    ready(after(last)?, repository(repo)?, kind, route)
}
