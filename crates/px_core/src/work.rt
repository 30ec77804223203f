//! What becomes of the next job of a storage, where a worker asks for it.

ghost use Rattle.std.specs.Prelude.{◌≡◌, None, Some, IfErr, IfOk, IsSome, OnOk};
ghost use Rattle.std.specs.Option.{option_map};
ghost use Rattle.px_cluster.specs.Core.{repository};
ghost use Rattle.px_cluster.specs.Taking.{next_job, spent_in};
ghost use Rattle.replqueue.specs.Facts.{next_of};
ghost use Rattle.px_core.specs.Work.{Comes, IsNextWork, IsWorkOn, dequeue_refusal};

use crate::Core;
use px_base::{Gen, JobId, Lease, StorageId};
use px_ops::{Job, Refusal};
use reconciler::Known;
use replqueue::{Next, Taking};

/// A job as a worker takes it.
#[derive(Clone, Copy, Debug, PartialEq, Eq)]
pub struct Work {
    /// The job, as it waits.
    pub job: Job,
    /// The storage that it copies from. A delete has none.
    pub source: Option<StorageId>,
    /// The newest generation of its repository.
    pub generation: Gen,
    /// The lease that is drawn for its target.
    pub lease: Lease,
}

/// What becomes of the next job of a storage.
#[derive(Clone, Copy)]
pub(crate) enum Coming {
    /// There is none that is not passed over.
    Nothing,
    /// The job has nothing to do any more, and is dropped.
    Dropped(JobId),
    /// The job is taken.
    Taken(Work),
}

impl Core {
    /// What a worker of a storage takes next. `None` where its asking is refused, there is no job
    /// for it, or the next one has nothing to do any more. Takes no memory.
    pub fn next_work(&self, target: StorageId) -> Option<Work>
        ensures { IsNextWork self.now target.0 result }
    {
        let Ok(coming) = self.coming(target) else {
            return None;
        };
        match coming {
            Coming::Taken(work) => Some(work),
            Coming::Nothing | Coming::Dropped(_) => None,
        }
    }

    /// What becomes of the next job of a storage. Refused are, in this order, `UnknownStorage` and
    /// `LeasesSpent`. Takes no memory.
    pub(crate) fn coming(&self, target: StorageId) -> Result<Coming, Refusal>
        ensures ok { IfOk result (Comes self.now target.0) }
        ensures accepted { OnOk result (dequeue_refusal self.now target.0 ≡ None) }
        ensures refused { IfErr result (λ why. dequeue_refusal self.now target.0 ≡ Some why) }
    {
        if self.book.known_name(target).is_none() {
            return Err(Refusal::UnknownStorage(None));
        }
        let Some(Next { job, taking }) = self.next_job(target) else {
            return Ok(Coming::Nothing);
        };
        match taking {
            Taking::Drop => Ok(Coming::Dropped(job.number)),
            Taking::Take(source) => match self.work_on(&job, source) {
                Ok(work) => Ok(Coming::Taken(work)),
                Err(refusal) => Err(refusal),
            },
        }
    }

    // The next job of a storage that is not passed over, with what becomes of it.
    fn next_job(&self, target: StorageId) -> Option<Next>
        ensures { option_map next_of result ≡ next_job self.now target.0 }
    {
        let known = Known {
            book: &self.book,
            health: &self.health,
            turns: &self.turns,
        };
        self.queue.next(target, &known)
    }

    // A job as it is taken from this source. Refused is `LeasesSpent`.
    fn work_on(&self, job: &Job, source: Option<StorageId>) -> Result<Work, Refusal>
        requires { IsSome (repository self.now job.now.repo.0) }
        ensures ok { IfOk result (IsWorkOn self.now job.now source) }
        ensures accepted { OnOk result (spent_in (repository self.now job.now.repo.0) ≡ None) }
        ensures refused { IfErr result (λ why.
            spent_in (repository self.now job.now.repo.0) ≡ Some why) }
    {
        let Some(repository) = self.book.repository(job.repo) else {
            unreachable!();
        };
        match Lease::new(repository.last_lease().number() + 1) {
            Some(lease) => Ok(Work {
                job: *job,
                source,
                generation: repository.newest(),
                lease,
            }),
            None => Err(Refusal::LeasesSpent),
        }
    }
}
