//! How a job is found: by the marks of a line, each of which is looked up and tested.

ghost use Rattle.std.specs.Prelude.{◌≡◌, ◌≤◌, find, IfNone, IfSome, Some};
ghost use Rattle.std.specs.Option.{option_copied};
ghost use Rattle.px_ops.specs.declared.job.Job.{Job as Recorded};
ghost use Rattle.replqueue.specs.Marks.{AreMarked, NoneBetween, NoneFrom};
ghost use Rattle.replqueue.specs.Rows.{AreAscending, has_number};
ghost use Rattle.replqueue.specs.Search.{if_passing, least_after, passes_from};

use crate::marks::Marks;
use crate::rows::Rows;
use px_base::JobId;
use px_ops::Job;

/// A test of jobs.
pub(crate) trait Test {
    ghost use Rattle.std.specs.Prelude.{Bool};
    ghost use Rattle.px_ops.specs.declared.job.Job.{Job};

    /// What it asks of a job.
    ghost asks: { Self → Job → Bool };

    /// Whether a job passes.
    fn passes(&self, job: &Job) -> bool
        ensures { result ≡ asks self.now job.now };
}

/// The first job by number that passes a test, or the first after another one. All jobs that pass
/// are marked on the line. Only those that are marked there are looked at.
pub(crate) fn first<'a, T: Test>(
    rows: &'a Rows,
    marks: &Marks,
    line: u64,
    after: Option<JobId>,
    test: &T,
) -> Option<&'a Job>
    requires { AreMarked (T.asks test.now) (λ (job : Recorded). line) marks.now rows.now }
    ensures { option_copied result
        ≡ find (passes_from (least_after after) (T.asks test.now)) rows.now }
{
    let mut next = start(marks, line, after);
    while let Some(number) = next {
        if let Some(job) = passing(rows, JobId(number), test) {
            return Some(job);
        }
        next = marks.after(line, number);
    }
    None
}

// The first number on a line, or the first after another one.
fn start(marks: &Marks, line: u64, after: Option<JobId>) -> Option<u64>
    ensures some { IfSome result (λ next. (least_after after ≤ next)
        × NoneBetween marks.now line (least_after after) next) }
    ensures none { IfNone result (NoneFrom marks.now line (least_after after)) }
{
    match after {
        Some(job) => marks.after(line, job.0),
        None => marks.next(line, 0),
    }
}

// The job of a number, where it passes the test.
fn passing<'a, T: Test>(rows: &'a Rows, number: JobId, test: &T) -> Option<&'a Job>
    ensures value { option_copied result
        ≡ if_passing (T.asks test.now) (find (has_number number.0) rows.now) }
    ensures ascend { AreAscending rows.now }
{
    match rows.get(number) {
        Some(job) => if_passing(job, test),
        None => None,
    }
}

fn if_passing<'a, T: Test>(job: &'a Job, test: &T) -> Option<&'a Job>
    ensures { option_copied result ≡ if_passing (T.asks test.now) (Some job.now) }
{
    if test.passes(job) { Some(job) } else { None }
}
