//! The operations on jobs that are in the queue.

ghost use Rattle.std.specs.Prelude.{◌≡◌, None, Some, IfErr, IfOk, OnErr, OnOk};
ghost use Rattle.std.specs.Option.{option_copied};
ghost use Rattle.px_ops.specs.declared.op.Op.TheVariants as op;
ghost use Rattle.px_cluster.specs.Core.{job_at};
ghost use Rattle.px_cluster.specs.Jobs.{worker_refusal};
ghost use Rattle.px_cluster.specs.Ops.{next_core, reply_of};
ghost use Rattle.px_core.specs.Ends.{Ends, IsOnRecord};

use crate::Core;
use genbook::Book;
use px_base::{JobId, Lease};
use px_ops::{Booking, Job, JobKind, JobState, Refusal, Reply};
use std::alloc::{AllocError, Global};

impl Core {
    /// The job of a number. Takes no memory.
    pub fn job(&self, job: JobId) -> Option<&Job>
        ensures { option_copied result ≡ job_at self.now job.0 }
    {
        self.queue.job(job)
    }

    /// The worker that has this lease of a job is heard. Else it is the first of `UnknownJob`,
    /// `BadState` and `LeaseLost` that holds. Takes no memory.
    pub fn may_end(&self, job: JobId, lease: Lease) -> Result<(), Refusal>
        ensures accepted { OnOk result
            (worker_refusal job lease (job_at self.now job.0) ≡ None) }
        ensures refused { IfErr result
            (λ why. worker_refusal job lease (job_at self.now job.0) ≡ Some why) }
    {
        let Some(row) = self.queue.job(job) else {
            return Err(Refusal::UnknownJob(job));
        };
        if !matches!(row.state, JobState::InProgress) {
            return Err(Refusal::BadState(row.state));
        }
        if row.lease != lease {
            return Err(Refusal::LeaseLost {
                kept: row.lease,
                given: lease,
            });
        }
        Ok(())
    }

    /// A worker is at work. Refused are, in this order, `UnknownJob`, `BadState` and `LeaseLost`.
    pub(crate) fn beat(&mut self, job: JobId, lease: Lease, now: u64) -> Reply
        ensures reply { result ≡ reply_of self.old (op.Beat job lease now) }
        ensures state { self.new ≡ next_core self.old (op.Beat job lease now) }
    {
        match self.queue.beat(job, lease, now) {
            Ok(()) => Reply::Done,
            Err(refusal) => Reply::Refused(refusal),
        }
    }

    /// A worker ends its job. The good end of an update books its target at the generation of the
    /// job. Refused are, in this order, `UnknownJob`, `BadState` and `LeaseLost`.
    pub(crate) fn ack(&mut self, job: JobId, lease: Lease, good: bool) -> Reply
        ensures reply { result ≡ reply_of self.old (op.Ack job lease good) }
        ensures state { self.new ≡ next_core self.old (op.Ack job lease good) }
    {
        let row = self.queue.job(job).copied();
        match self.queue.ack(job, lease, good) {
            Ok(state) => {
                book_end(&mut self.book, row, good);
                Reply::JobIs(state)
            }
            Err(refusal) => Reply::Refused(refusal),
        }
    }

    /// Each job in progress of which nothing was heard for so long has a bad end.
    pub(crate) fn stale(&mut self, alloc: Global, now: u64, after: u64) -> Result<Reply, AllocError>
        ensures reply { IfOk result (λ reply. reply ≡ reply_of self.old (op.Stale now after)) }
        ensures state { OnOk result (self.new ≡ next_core self.old (op.Stale now after)) }
        ensures err { OnErr result (self.new ≡ self.old) }
    {
        match self.queue.stale(alloc, now, after) {
            Ok(jobs) => Ok(Reply::StaleIs(jobs)),
            Err(wants) => Err(wants),
        }
    }
}

// Books what the end of a job books.
fn book_end(book: &mut Book, ended: Option<Job>, good: bool)
    requires { IsOnRecord book.old ended }
    ensures { Ends good ended book.old book.new }
{
    let Some(job) = ended else {
        return;
    };
    if good && matches!(job.kind, JobKind::Update) {
        book.book(job.repo, job.target, Booking::At(job.generation));
    }
}
