//! The queue, as it is read, and as workers take jobs and end them.

ghost use Rattle.std.specs.Prelude.{◌≡◌, ℕ, IfErr, IfOk, IfSome, None, OnErr, OnOk, Option, Some, true};
ghost use Rattle.std.specs.List.{AllByRecursion};
ghost use Rattle.std.specs.Option.{option_copied, option_map};
ghost use Rattle.px_cluster.specs.Core.{empty, job_at};
ghost use Rattle.px_cluster.specs.Jobs.{beaten, end_reply, ended_job, is_ready, stale_numbers};
ghost use Rattle.px_cluster.specs.Jobs.{with_job_changed, without_job, without_running, without_stale, worker_refusal};
ghost use Rattle.px_cluster.specs.Plan.{numbered, with_plan};
ghost use Rattle.px_cluster.specs.Book.{Repository};
ghost use Rattle.px_cluster.specs.Taking.{as_taken, next_among};
ghost use Rattle.px_ops.specs.declared.job.Job.{Job as Recorded};
ghost use Rattle.px_ops.specs.declared.reply.Reply.TheVariants.{JobIs};
ghost use Rattle.replqueue.specs.Facts.{next_of};
ghost use Rattle.replqueue.specs.Queue.{HasRoom, IsGiven, core_of, dead_for, held_for, is_waiting, taken};
ghost use Rattle.replqueue.specs.Search.{is_of};

use crate::changes::{beaten, taken};
use crate::facts::{Facts, Next};
use crate::lines::RUNNING;
use crate::marks::Marks;
use crate::of_pair::{OfPair, Which};
use crate::rows::Rows;
use crate::stale::Stale;
use px_base::{Gen, JobId, Lease, RepoId, StorageId};
use px_ops::{Job, JobIds, JobState, Refusal};
use std::alloc::{AllocError, Global};
use std::marker::Model;

/// The jobs by number, and the last number that was given. No call goes over all jobs: a job is
/// found by its number, by its repository and target, by its target while it holds the lock, and
/// while it is in progress, each in logarithmic time.
#[derive(Drop)]
pub struct Queue {
    pub(crate) rows: Rows,
    pub(crate) last: u64,
    pub(crate) pairs: Marks,
    pub(crate) targets: Marks,
    pub(crate) running: Marks,
}

impl Model for Queue {
    ghost use Rattle.replqueue.specs.Queue.{AreKept, Queued};

    ghost Value = { Queued };

    ghost view = { λ q. record { jobs = q.rows; last = q.last; room = q.running } };

    ghost invariant = { λ q. AreKept q.rows q.last q.pairs q.targets q.running };
}

impl Queue {
    /// No jobs, and no number was given.
    pub fn new(alloc: Global) -> Queue
        ensures { core_of result ≡ empty }
    {
        Queue {
            rows: Rows::new(alloc),
            last: 0,
            pairs: Marks::new(alloc),
            targets: Marks::new(alloc),
            running: Marks::new(alloc),
        }
    }

    /// The job of a number. Takes no memory.
    pub fn job(&self, job: JobId) -> Option<&Job>
        ensures { option_copied result ≡ job_at (core_of self.now) job.0 }
    {
        self.rows.get(job)
    }

    /// The job that holds the lock of a repository and target: it is ready, in progress or failed.
    /// Takes no memory.
    pub fn held(&self, repo: RepoId, target: StorageId) -> Option<&Job>
        ensures { option_copied result ≡ held_for self.now repo.0 target.0 }
    {
        self.first_of(&OfPair {
            which: Which::Locked,
            repo,
            target,
        })
    }

    /// The dead job that is kept of a repository and target. Takes no memory.
    pub fn dead(&self, repo: RepoId, target: StorageId) -> Option<&Job>
        ensures { option_copied result ≡ dead_for self.now repo.0 target.0 }
    {
        self.first_of(&OfPair {
            which: Which::Buried,
            repo,
            target,
        })
    }

    /// The last number that was given, 0 at first. Takes no memory.
    pub fn last(&self) -> JobId
        ensures { result.0 ≡ self.now.last }
    {
        JobId(self.last)
    }

    /// The first job of a target by number that waits and is not passed over, with what becomes of
    /// it. Only jobs of the target that hold the lock are looked at. Takes no memory.
    pub fn next<F: Facts>(&self, target: StorageId, facts: &F) -> Option<Next>
        ensures { option_map next_of result
            ≡ next_among (F.core facts.now) target.0 self.now.jobs }
    {
        let Some(job) = self.first_waiting(target, facts) else {
            return None;
        };
        match facts.taking(&job) {
            Some(taking) => Some(Next { job, taking }),
            None => None,
        }
    }

    /// Drops a job, where there is one of this number. Takes no memory.
    pub fn drop(&mut self, job: JobId)
        ensures { core_of self.new ≡ without_job job (core_of self.old) }
    {
        if let Some(row) = self.copy_of(job) {
            self.remove(&row);
        }
    }

    /// Takes the memory for a job to be taken. Nothing is seen of it, and what is taken is kept
    /// until the job ends.
    pub fn reserve(&mut self, job: JobId) -> Result<(), AllocError>
        ensures ok { OnOk result (HasRoom self.new job) }
        ensures same { core_of self.new ≡ core_of self.old }
    {
        self.running.mark(RUNNING, job.0)
    }

    /// A worker takes a job that waits, under a lease that was drawn for its target. The generation
    /// is the newest one of its repository. Takes no memory.
    pub fn take(
        &mut self,
        job: JobId,
        source: Option<StorageId>,
        generation: Gen,
        now: u64,
        lease: Lease,
    )
        requires waits { IfSome (job_at (core_of self.old) job.0)
            (λ (row : Recorded). is_waiting row.state ≡ true) }
        requires room { HasRoom self.old job }
        ensures ok { core_of self.new
            ≡ with_job_changed job (taken source generation now lease) (core_of self.old) }
        ensures rule { (book : Repository) (from : Option ℕ)
            → IsGiven book from source generation lease → core_of self.new
            ≡ with_job_changed job (as_taken book from now) (core_of self.old) }
    {
        if let Some(row) = self.copy_of(job) {
            self.replace(&taken(&row, source, generation, now, lease));
        }
    }

    /// The worker of a job is at work. Takes no memory.
    pub fn beat(&mut self, job: JobId, lease: Lease, now: u64) -> Result<(), Refusal>
        ensures ok { OnOk result
            (core_of self.new ≡ with_job_changed job (beaten now) (core_of self.old)) }

        // Each refusal comes exactly where its cause is the first that holds.
        ensures accepted { OnOk result
            (worker_refusal job lease (job_at (core_of self.old) job.0) ≡ None) }
        ensures refused { IfErr result
            (λ why. worker_refusal job lease (job_at (core_of self.old) job.0) ≡ Some why) }
        ensures err { OnErr result (self.new ≡ self.old) }
    {
        match self.worked(job, lease) {
            Ok(row) => {
                self.replace(&beaten(&row, now));
                Ok(())
            }
            Err(why) => Err(why),
        }
    }

    /// The worker of a job ends it, and the state that the job ends in is answered. What is booked
    /// at a good end is not done here. Takes no memory.
    pub fn ack(&mut self, job: JobId, lease: Lease, good: bool) -> Result<JobState, Refusal>
        ensures ok { OnOk result (core_of self.new
            ≡ ended_job good (job_at (core_of self.old) job.0) (core_of self.old)) }
        ensures value { IfOk result
            (λ state. end_reply good (job_at (core_of self.old) job.0) ≡ JobIs state) }

        // Each refusal comes exactly where its cause is the first that holds.
        ensures accepted { OnOk result
            (worker_refusal job lease (job_at (core_of self.old) job.0) ≡ None) }
        ensures refused { IfErr result
            (λ why. worker_refusal job lease (job_at (core_of self.old) job.0) ≡ Some why) }
        ensures err { OnErr result (self.new ≡ self.old) }
    {
        match self.worked(job, lease) {
            Ok(row) => Ok(self.end(&row, good)),
            Err(why) => Err(why),
        }
    }

    /// Each job in progress whose last beat is not after `now`, and before it by `after` at least,
    /// has a bad end. Their numbers are answered, ascending. Only jobs are looked at that are in
    /// progress, or for which there is room to be taken. Where memory wants, nothing changes.
    pub fn stale(&mut self, alloc: Global, now: u64, after: u64) -> Result<JobIds, AllocError>
        ensures ok { OnOk result
            (core_of self.new ≡ without_stale now after (core_of self.old)) }
        ensures value { IfOk result
            (λ numbers. numbers ≡ stale_numbers now after (core_of self.old)) }
        ensures err { OnErr result (self.new ≡ self.old) }
    {
        let stale = Stale {
            time: now,
            silence: after,
        };
        match self.stale_numbers(alloc, &stale) {
            Ok(numbers) => {
                self.fail_all(&stale);
                Ok(numbers)
            }
            Err(wants) => Err(wants),
        }
    }

    /// The job in progress of a repository and target goes, where there is one. Takes no memory.
    pub fn lift(&mut self, repo: RepoId, target: StorageId)
        ensures { core_of self.new ≡ without_running repo.0 target.0 (core_of self.old) }
    {
        self.remove_all(&OfPair {
            which: Which::Running,
            repo,
            target,
        });
    }

    /// The jobs of a plan come, whose numbers follow the last one. A dead job goes where a new one
    /// of its repository and target comes. Where memory wants, nothing is seen of it.
    pub fn enqueue_all(&mut self, jobs: &[Job]) -> Result<(), AllocError>
        requires numbers { numbered self.old.last jobs.now ≡ jobs.now }
        requires ready { AllByRecursion (λ (job : Recorded). is_ready job.state ≡ true) jobs.now }
        ensures ok { OnOk result (core_of self.new ≡ with_plan jobs.now (core_of self.old)) }
        ensures err { OnErr result (core_of self.new ≡ core_of self.old) }
    {
        match self.append(jobs) {
            Ok(()) => {
                self.bury_each(jobs);
                Ok(())
            }
            Err(wants) => Err(wants),
        }
    }
}
