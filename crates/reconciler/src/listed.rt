//! Jobs as they are listed: each under the next number, as long as one is left.

ghost use Rattle.std.specs.Prelude.{◌≡◌, ◌∷◌, [], OnOk};
ghost use Rattle.reconciler.specs.Listed.{Adds, jobs_of};

use px_base::{Items, JobId};
use px_ops::Job;
use std::alloc::{AllocError, Global};

/// The jobs that are listed so far, and the last number that was given.
#[derive(Drop)]
pub(crate) struct Listed {
    pub(crate) jobs: Items<Job>,
    pub(crate) last: u64,
}

impl Listed {
    /// No job yet, after this number.
    pub(crate) fn new(alloc: Global, last: JobId) -> Listed
        ensures jobs { result.jobs ≡ [] }
        ensures last { result.last ≡ last.0 }
    {
        Listed {
            jobs: Items::new(alloc),
            last: last.0,
        }
    }

    /// Lists the job, if there is one, where a number is left for it.
    pub(crate) fn add(&mut self, job: Option<Job>) -> Result<(), AllocError>
        ensures { OnOk result (Adds (jobs_of job) self.old self.new) }
    {
        match job {
            Some(job) => self.add_one(&job),
            None => Ok(()),
        }
    }

    fn add_one(&mut self, job: &Job) -> Result<(), AllocError>
        ensures { OnOk result (Adds (job.now ∷ []) self.old self.new) }
    {
        if self.last == u64::MAX {
            return Ok(());
        }
        let number = JobId(self.last + 1);
        self.jobs.push(Job { number, ..*job })?;
        self.last = number.0;
        Ok(())
    }
}
