//! Calls to the queue, as lines.

ghost use Rattle.std.specs.Prelude.{◌≡◌, IfSome, true};
ghost use Rattle.px_cluster.specs.Core.{job_at};
ghost use Rattle.px_ops.specs.declared.job.Job.{Job as Recorded};
ghost use Rattle.replqueue.specs.Queue.{core_of, is_waiting};

use crate::rows::{after, new_job, row_of};
use crate::words::{
    done, job, lease, refused, replied, repository, storage, storage_or_none, text, words,
};
use px_base::{Gen, JobId, Lease, RepoId, StorageId};
use px_ops::{Job, JobState, Reply};
use replqueue::Queue;
use std::alloc::Global;
use std::test::Fail;

// The last number that was given.
fn last(alloc: Global, queue: &Queue) -> Result<String, Fail> {
    Ok(format!(in alloc; "last {}", queue.last().0)?)
}

// Three jobs come at once.
fn enqueue_three(queue: &mut Queue, words: &[&str; 3]) -> Result<(), Fail> {
    let first = new_job(queue.last().0, words[0])?;
    let second = new_job(first.number.0, words[1])?;
    let third = new_job(second.number.0, words[2])?;
    Ok(queue.enqueue_all(&[first, second, third])?)
}

/// A job comes that was made for the queue as it is: it is ready, under the next number.
pub fn enqueue_one(queue: &mut Queue, job: &Job) -> Result<(), Fail> {
    let next = after(queue.last().0)?;
    if job.number.0 != next.0 || !matches!(job.state, JobState::Ready) {
        return Err(Fail::new("it does not come next"));
    }
    Ok(queue.enqueue_all(&[*job])?)
}

// New jobs come, none, one or three.
fn enqueue(alloc: Global, queue: &mut Queue, words: &[&str]) -> Result<String, Fail> {
    match words {
        [] => queue.enqueue_all(&[])?,
        [one] => {
            let job = new_job(queue.last().0, *one)?;
            enqueue_one(queue, &job)?;
        }
        [first, second, third] => enqueue_three(queue, &[*first, *second, *third])?,
        _ => return Err(Fail::new("so many do not come")),
    }
    last(alloc, queue)
}

// Whether there is a job of this number, and it may be taken.
fn may_be_taken(queue: &Queue, job: JobId) -> bool
    ensures { result ≡ true → IfSome (job_at (core_of queue.now) job.0)
        (λ (row : Recorded). is_waiting row.state ≡ true) }
{
    match queue.job(job) {
        Some(row) => matches!(row.state, JobState::Ready | JobState::Failed),
        None => false,
    }
}

/// A worker takes a job, where it may be taken.
pub fn take(
    queue: &mut Queue,
    job: JobId,
    source: Option<StorageId>,
    generation: Gen,
    now: u64,
    lease: Lease,
) -> Result<bool, Fail> {
    if !may_be_taken(queue, job) {
        return Ok(false);
    }
    queue.reserve(job)?;
    queue.take(job, source, generation, now, lease);
    Ok(true)
}

// A job is taken from a source, for a generation, at a moment and under a lease.
fn taken(alloc: Global, queue: &mut Queue, number: JobId, words: &[&str]) -> Result<String, Fail> {
    let [source, generation, now, under] = words else {
        return Err(Fail::new("no way to take a job"));
    };
    let (source, generation) = (storage_or_none(*source)?, Gen(generation.parse::<u64>()?));
    let (now, under) = (now.parse::<u64>()?, lease(*under)?);
    let taken = take(queue, number, source, generation, now, under)?;
    text(alloc, if taken { "ok" } else { "not to be taken" })
}

// The worker of a job ends it.
fn end(
    alloc: Global,
    queue: &mut Queue,
    job: JobId,
    lease: Lease,
    good: bool,
) -> Result<String, Fail> {
    match queue.ack(job, lease, good) {
        Ok(state) => replied(alloc, &Reply::JobIs(state)),
        Err(why) => refused(alloc, &why),
    }
}

// Silent workers lose their jobs.
fn stale(alloc: Global, queue: &mut Queue, now: &str, after: &str) -> Result<String, Fail> {
    let numbers = queue.stale(alloc, now.parse::<u64>()?, after.parse::<u64>()?)?;
    replied(alloc, &Reply::StaleIs(numbers))
}

// The same, told as their count.
fn count_stale(alloc: Global, queue: &mut Queue, now: &str, after: &str) -> Result<String, Fail> {
    let numbers = queue.stale(alloc, now.parse::<u64>()?, after.parse::<u64>()?)?;
    Ok(format!(in alloc; "{} stale", numbers.len())?)
}

// What is asked by the number of a job.
fn of_job(
    alloc: Global,
    queue: &mut Queue,
    name: &str,
    job: JobId,
    words: &[&str],
) -> Result<String, Fail> {
    match (name, words) {
        ("job", []) => row_of(alloc, queue.job(job)),
        ("beat", [under, now]) => {
            done(alloc, queue.beat(job, lease(*under)?, now.parse::<u64>()?))
        }
        ("done" | "fail", [under]) => end(alloc, queue, job, lease(*under)?, name == "done"),
        ("drop", []) => {
            queue.drop(job);
            text(alloc, "ok")
        }
        ("reserve", []) => {
            queue.reserve(job)?;
            text(alloc, "ok")
        }
        _ => taken(alloc, queue, job, words),
    }
}

// What is asked of a repository and a target.
fn of_pair(
    alloc: Global,
    queue: &mut Queue,
    name: &str,
    repo: RepoId,
    target: StorageId,
) -> Result<String, Fail> {
    match name {
        "held" => row_of(alloc, queue.held(repo, target)),
        "dead" => row_of(alloc, queue.dead(repo, target)),
        _ => {
            queue.lift(repo, target);
            text(alloc, "ok")
        }
    }
}

/// Makes a call to the queue.
pub fn answer(alloc: Global, queue: &mut Queue, name: &str, rest: &str) -> Result<String, Fail> {
    let words = words(alloc, rest)?;
    match (name, words.as_slice()) {
        ("last", []) => last(alloc, queue),
        ("enqueue", jobs) => enqueue(alloc, queue, jobs),
        ("held" | "dead" | "lift", [repo, target]) => {
            of_pair(alloc, queue, name, repository(*repo)?, storage(*target)?)
        }
        ("stale", [now, after]) => stale(alloc, queue, *now, *after),
        ("count_stale", [now, after]) => count_stale(alloc, queue, *now, *after),
        (_, [first, rest @ ..]) => of_job(alloc, queue, name, job(*first)?, rest),
        _ => Err(Fail::new("no such call")),
    }
}
