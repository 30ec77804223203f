//! The texts of jobs.

ghost use Rattle.std.specs.Prelude.{◌≡◌, ◌++◌, OnOk, decimal};
ghost use Rattle.px_ops.specs.BookingTexts.{each_after_space};
ghost use Rattle.px_ops.specs.JobTexts.{kind_word, planned_jobs_text, planned_text, stale_text};
ghost use Rattle.px_ops.specs.JobTexts.{state_word, taken_text, way_text};

use crate::fields::{Added, add, add_name, add_number};
use crate::{JobKind, JobState, PlannedJob, TakenJob};
use px_base::{Bytes, JobId, StorageName};

fn kind_word(kind: JobKind) -> &'static [u8]
    ensures { result.now ≡ kind_word kind }
{
    match kind {
        JobKind::Update => b"update",
        JobKind::Delete => b"delete",
    }
}

/// A state as one word.
pub fn state_word(state: JobState) -> &'static [u8]
    ensures { result.now ≡ state_word state }
{
    match state {
        JobState::Ready => b"ready",
        JobState::InProgress => b"in_progress",
        JobState::Completed => b"completed",
        JobState::Cancelled => b"cancelled",
        JobState::Failed => b"failed",
        JobState::Dead => b"dead",
    }
}

// From where to where.
fn add_way(text: &mut Bytes, source: Option<StorageName>, target: &StorageName) -> Added
    ensures { OnOk result (text.new ≡ text.old ++ way_text source target.now) }
{
    if let Some(source) = source {
        add_name(text, source.as_bytes(), b">")?;
    }
    add(text, target.as_bytes())
}

/// Adds a job that was taken.
pub fn add_taken(text: &mut Bytes, job: &TakenJob) -> Added
    ensures { OnOk result (text.new ≡ text.old ++ taken_text job.now) }
{
    add_number(text, b"job ", job.job.0)?;
    add_name(text, b" ", kind_word(job.kind))?;
    add_number(text, b" ", u64::from(job.repo.0))?;
    add(text, b" ")?;
    add_way(text, job.source, &job.target)?;
    add_number(text, b" gen ", job.generation.0)?;
    add_number(text, b" lease ", job.lease.number())
}

fn add_planned(text: &mut Bytes, job: &PlannedJob) -> Added
    ensures { OnOk result (text.new ≡ text.old ++ planned_text job.now) }
{
    add_number(text, b"", job.job.0)?;
    add_name(text, b":", kind_word(job.kind))?;
    add_number(text, b":", u64::from(job.repo.0))?;
    add(text, b":")?;
    add_way(text, job.source, &job.target)
}

fn add_each_number(text: &mut Bytes, jobs: &[JobId]) -> Added
    ensures { OnOk result (text.new ≡ text.old ++ each_after_space (λ job. decimal job.0) jobs.now) }
{
    for job in jobs {
        add_number(text, b" ", job.0)?;
    }
    Ok(())
}

/// Adds the jobs that were given a bad end.
pub fn add_stale(text: &mut Bytes, jobs: &[JobId]) -> Added
    ensures { OnOk result (text.new ≡ text.old ++ stale_text jobs.now) }
{
    add(text, b"stale")?;
    add_each_number(text, jobs)
}

fn add_each_planned(text: &mut Bytes, jobs: &[PlannedJob]) -> Added
    ensures { OnOk result (text.new ≡ text.old ++ each_after_space planned_text jobs.now) }
{
    for job in jobs {
        add(text, b" ")?;
        add_planned(text, job)?;
    }
    Ok(())
}

/// Adds the jobs that were enqueued.
pub fn add_planned_jobs(text: &mut Bytes, jobs: &[PlannedJob]) -> Added
    ensures { OnOk result (text.new ≡ text.old ++ planned_jobs_text jobs.now) }
{
    add(text, b"jobs")?;
    add_each_planned(text, jobs)
}
