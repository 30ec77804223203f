//! A worker takes the next job of a storage.

ghost use Rattle.std.specs.Prelude.{◌≡◌, IfSome, None};
ghost use Rattle.px_ops.specs.declared.op.Op.TheVariants as op;
ghost use Rattle.px_cluster.specs.Refusals.{leases_spent};
ghost use Rattle.px_cluster.specs.Taking.{book_as_taken};
ghost use Rattle.genbook.specs.Books.{Becomes, Has, core_of, on_book};
ghost use Rattle.px_core.specs.Known.{IsKnown, IsSourceKnown};
ghost use Rattle.px_core.specs.Steps.{Steps};
ghost use Rattle.px_core.specs.Work.{IsWork, work_told};

use crate::Core;
use crate::fault::Fault;
use crate::names::{name_of, source_name};
use crate::work::{Coming, Work};
use genbook::Book;
use px_base::StorageId;
use px_ops::{Booking, Job, JobKind, Reply, TakenJob};

impl Core {
    /// Takes the next job of a storage, or drops one that has nothing to do any more. Refused are,
    /// in this order, `UnknownStorage` and `LeasesSpent`.
    pub(crate) fn dequeue(&mut self, target: StorageId, now: u64) -> Result<Reply, Fault>
        ensures { Steps self.old (op.Dequeue target now) result self.new }
    {
        match self.coming(target)? {
            Coming::Nothing => Ok(Reply::NoJob),
            Coming::Dropped(job) => {
                self.queue.drop(job);
                Ok(Reply::Dropped(job))
            }
            Coming::Taken(work) => self.take(&work, now),
        }
    }

    // The worker takes the next job of its target. A lease is drawn for it, and a delete books its
    // target as absent at once.
    fn take(&mut self, work: &Work, now: u64) -> Result<Reply, Fault>
        requires { IsWork self.old work.now.job.target.0 work.now }
        ensures { Steps self.old (op.Dequeue work.now.job.target now) result self.new }
    {
        let told = told(&self.book, work);
        self.queue.reserve(work.job.number)?;
        book_taken(&mut self.book, &work.job);
        self.queue.take(
            work.job.number,
            work.source,
            work.generation,
            now,
            work.lease,
        );
        Ok(Reply::Taken(told))
    }
}

// Draws a lease for the target of a job that is taken. A delete books it as absent.
fn book_taken(book: &mut Book, job: &Job)
    requires known { Has book.old job.now.repo.0 }
    requires left { IfSome (on_book book.old job.now.repo.0)
        (λ before. leases_spent before.last ≡ None) }
    ensures { Becomes job.now.repo.0 (book_as_taken job.now job.now.kind) book.old book.new }
{
    if book.draw_for(job.repo, job.target).is_err() {
        unreachable!();
    }
    match job.kind {
        JobKind::Update => {}
        JobKind::Delete => book.book(job.repo, job.target, Booking::Absent),
    }
}

// What is told of a job that is taken.
fn told(book: &Book, work: &Work) -> TakenJob
    requires target { IsKnown book.now.storages work.now.job.target }
    requires source { IsSourceKnown book.now.storages work.now.source }
    ensures { result ≡ work_told (core_of book.now) work.now }
{
    TakenJob {
        job: work.job.number,
        kind: work.job.kind,
        repo: work.job.repo,
        target: name_of(book, work.job.target),
        source: source_name(book, work.source),
        generation: work.generation,
        lease: work.lease,
    }
}
