//! What the queue is told of the book, of health and of pushes, where a job is looked for.

ghost use Rattle.std.specs.Prelude.{◌≡◌};

use crate::changes::is_waiting;
use crate::search::Test;
use px_base::StorageId;
use px_ops::Job;

/// What becomes of a job that is not passed over.
#[derive(Clone, Copy, Debug, PartialEq, Eq)]
pub enum Taking {
    /// There is nothing to do any more, and the job is dropped.
    Drop,
    /// The job is taken. An update has a source, and a delete has none.
    Take(Option<StorageId>),
}

/// The next job of a storage, with what becomes of it.
#[derive(Clone, Copy, Debug, PartialEq, Eq)]
pub struct Next {
    /// The job, as it waits.
    pub job: Job,
    /// What becomes of it.
    pub taking: Taking,
}

/// What is known beside the queue.
pub trait Facts {
    ghost use Rattle.px_cluster.specs.Core.{Core};
    ghost use Rattle.replqueue.specs.Facts.{taking_of, taking_waiting};

    /// The core that they are of: what is booked, which storages are up, and which pushes are open.
    ghost core: { Self → Core };

    /// What becomes of a job that waits. `None` where it is passed over: its target is a member of
    /// the repository's open push, or it is an update without a source that still is to be done.
    fn taking(&self, job: &Job) -> Option<Taking>
        ensures { taking_of result ≡ taking_waiting (core self.now) job.now };
}

/// Asks for jobs of a target that wait, and are not passed over.
#[derive(Drop)]
pub(crate) struct NotPassedOver<'a, F> {
    /// The target.
    pub(crate) target: StorageId,
    /// What is known.
    pub(crate) facts: &'a F,
}

impl<'a, F: Facts> Test for NotPassedOver<'a, F> {
    ghost use Rattle.replqueue.specs.Facts.{comes_up};

    ghost asks = { λ test. comes_up (F.core test.facts.now) test.target.0 };

    fn passes(&self, job: &Job) -> bool {
        job.target.0 == self.target.0 && is_waiting(job.state) && self.facts.taking(job).is_some()
    }
}
