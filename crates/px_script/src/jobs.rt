//! The lines on replication jobs.

ghost use Rattle.std.specs.Prelude.{◌≡◌};
ghost use Rattle.px_script.specs.JobReading.{beat_of, factor_of, job_of, reconcile_of, stale_of};
ghost use Rattle.px_script.specs.JobReading.{take_of, work_of};

use crate::Event;
use crate::line_words::{LineWords, is_text};
use px_base::{JobId, RepoId};
use px_ops::Op;

// `reconcile`
fn reconcile(words: &mut LineWords<'_>) -> Option<Event>
    ensures { result ≡ reconcile_of words.old }
{
    words.end()?;
    Some(Event::Operation(Op::Reconcile { only: None }))
}

// `take NAME NOW`
fn take(words: &mut LineWords<'_>) -> Option<Event>
    ensures { result ≡ take_of words.old }
{
    let name = words.name()?;
    let now = words.number()?;
    words.end()?;
    Some(Event::Take { name, now })
}

// `beat JOB LEASE NOW`
fn beat(words: &mut LineWords<'_>) -> Option<Event>
    ensures { result ≡ beat_of words.old }
{
    let job = JobId(words.number()?);
    let lease = words.lease()?;
    let now = words.number()?;
    words.end()?;
    Some(Event::Operation(Op::Beat { job, lease, now }))
}

// `stale NOW AFTER`
fn stale(words: &mut LineWords<'_>) -> Option<Event>
    ensures { result ≡ stale_of words.old }
{
    let now = words.number()?;
    let after = words.number()?;
    words.end()?;
    Some(Event::Operation(Op::Stale { now, after }))
}

// `factor REPO N`
fn factor(words: &mut LineWords<'_>) -> Option<Event>
    ensures { result ≡ factor_of words.old }
{
    let repo = RepoId(words.small()?);
    let factor = words.small()?;
    words.end()?;
    Some(Event::Operation(Op::SetFactor { repo, factor }))
}

// The lines of a job and a lease alone: `snapshot`, `apply`, `remove`, `done` and `fail`.
fn read_work(first: &[u8], words: &mut LineWords<'_>) -> Option<Event>
    ensures { result ≡ work_of first.now words.old }
{
    if is_text(first, b"snapshot") {
        return words
            .only_job_and_lease()
            .map(|(job, lease)| Event::Snapshot { job, lease });
    }
    if is_text(first, b"apply") {
        return words
            .only_job_and_lease()
            .map(|(job, lease)| Event::Apply { job, lease });
    }
    if is_text(first, b"remove") {
        return words
            .only_job_and_lease()
            .map(|(job, lease)| Event::Remove { job, lease });
    }
    if is_text(first, b"done") {
        return words.only_job_and_lease().map(|(job, lease)| Event::Operation(Op::Ack {
            job,
            lease,
            good: true,
        }));
    }
    if is_text(first, b"fail") {
        return words.only_job_and_lease().map(|(job, lease)| Event::Operation(Op::Ack {
            job,
            lease,
            good: false,
        }));
    }
    None
}

/// The event of a line on replication jobs, by its first word and those behind it. `None` where the
/// line is none of these. Takes no memory.
pub fn read_job(first: &[u8], words: &mut LineWords<'_>) -> Option<Event>
    ensures { result ≡ job_of first.now words.old }
{
    if is_text(first, b"reconcile") {
        return reconcile(words);
    }
    if is_text(first, b"take") {
        return take(words);
    }
    if is_text(first, b"beat") {
        return beat(words);
    }
    if is_text(first, b"stale") {
        return stale(words);
    }
    if is_text(first, b"factor") {
        return factor(words);
    }
    read_work(first, words)
}
