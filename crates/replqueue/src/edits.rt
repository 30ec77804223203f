//! The queue changed by one job, by jobs that pass a test, and by a plan. Marks follow the rows.

ghost use Rattle.std.specs.Prelude.{◌≡◌, ◌++◌, find, IfErr, IfOk, OnErr, OnOk, Some, true};
ghost use Rattle.std.specs.List.{AllByRecursion};
ghost use Rattle.std.specs.Option.{option_copied};
ghost use Rattle.px_base.specs.declared.ids.JobId.{JobId};
ghost use Rattle.px_cluster.specs.Core.{job_at};
ghost use Rattle.px_cluster.specs.Jobs.{end_reply, ended_job, failed, is_ready, is_stale, stale_numbers};
ghost use Rattle.px_cluster.specs.Jobs.{state_after_failure, with_job_changed, without_job, without_stale, worker_refusal};
ghost use Rattle.px_cluster.specs.Plan.{numbered};
ghost use Rattle.px_ops.specs.declared.job.Job.{Job as Recorded};
ghost use Rattle.px_ops.specs.declared.reply.Reply.TheVariants.{JobIs};
ghost use Rattle.replqueue.specs.Edits.{Appends, IsHeld, IsWorked, MayReplace, RemovesAll, RemovesBuried};
ghost use Rattle.replqueue.specs.Facts.{comes_up};
ghost use Rattle.replqueue.specs.Queue.{core_of};
ghost use Rattle.replqueue.specs.Rows.{AreAscending};
ghost use Rattle.replqueue.specs.Search.{is_of, least_after, passes_from};

use crate::changes::{failed, holds_lock, is_in_progress};
use crate::facts::{Facts, NotPassedOver};
use crate::lines::{By, RUNNING, last_of, line_by, mark_each, pair_line, target_line};
use crate::of_pair::{OfPair, Which};
use crate::queue::Queue;
use crate::search;
use crate::stale::Stale;
use px_base::{JobId, Lease, StorageId};
use px_ops::{Job, JobIds, JobState, Refusal};
use std::alloc::{AllocError, Global};

impl Queue {
    // The job of a number, copied.
    pub(crate) fn copy_of(&self, job: JobId) -> Option<Job>
        ensures { result ≡ job_at (core_of self.now) job.0 }
    {
        self.job(job).copied()
    }

    // The first job of a repository and target, of those that are asked for.
    pub(crate) fn first_of(&self, pair: &OfPair) -> Option<&Job>
        ensures value { option_copied result ≡ find (is_of pair.now) self.now.jobs }
        ensures ascend { AreAscending self.now.jobs }
    {
        let line = pair_line(pair.repo, pair.target);
        search::first(&self.rows, &self.pairs, line, None, pair)
    }

    // The same, copied.
    fn copy_first(&self, pair: &OfPair) -> Option<Job>
        ensures value { result ≡ find (is_of pair.now) self.now.jobs }
        ensures ascend { AreAscending self.now.jobs }
    {
        self.first_of(pair).copied()
    }

    // The first job of a target that waits and is not passed over.
    pub(crate) fn first_waiting<F: Facts>(&self, target: StorageId, facts: &F) -> Option<Job>
        ensures { result ≡ find (comes_up (F.core facts.now) target.0) self.now.jobs }
    {
        let test = NotPassedOver { target, facts };
        search::first(&self.rows, &self.targets, target_line(target), None, &test).copied()
    }

    // The first stale job, or the first after another one.
    fn first_stale(&self, stale: &Stale, after: Option<JobId>) -> Option<Job>
        ensures value { result ≡ find (passes_from (least_after after)
            (is_stale stale.now.time stale.now.silence)) self.now.jobs }
        ensures ascend { AreAscending self.now.jobs }
    {
        search::first(&self.rows, &self.running, RUNNING, after, stale).copied()
    }

    // The job of a number, where its worker is heard.
    pub(crate) fn worked(&self, job: JobId, lease: Lease) -> Result<Job, Refusal>
        ensures ok { IfOk result (IsWorked self.now job lease) }
        ensures refused { IfErr result
            (λ why. worker_refusal job lease (job_at (core_of self.now) job.0) ≡ Some why) }
    {
        let Some(row) = self.copy_of(job) else {
            return Err(Refusal::UnknownJob(job));
        };
        match worker_refusal(&row, lease) {
            Some(why) => Err(why),
            None => Ok(row),
        }
    }

    // The job goes, and with it its marks.
    pub(crate) fn remove(&mut self, job: &Job)
        ensures { core_of self.new ≡ without_job job.now.number (core_of self.old) }
    {
        self.rows.remove(job.number);
        self.pairs.unmark(line_by(By::Pair, job), job.number.0);
        self.targets.unmark(line_by(By::Target, job), job.number.0);
        self.running.unmark(RUNNING, job.number.0);
    }

    // The job stands in the place of the one of its number. Marks that it does not want go.
    pub(crate) fn replace(&mut self, job: &Job)
        requires { MayReplace self.old job.now }
        ensures { (change : Recorded → Recorded) (before : Recorded)
            → job_at (core_of self.old) job.now.number.0 ≡ Some before → job.now ≡ change before
            → core_of self.new ≡ with_job_changed job.now.number change (core_of self.old) }
    {
        let line = line_by(By::Target, job);
        let number = job.number.0;
        self.rows.replace(*job);
        self.targets
            .unmark_unless(holds_lock(job.state), line, number);
        self.running
            .unmark_unless(is_in_progress(job.state), RUNNING, number);
    }

    // The job in progress ends.
    pub(crate) fn end(&mut self, row: &Job, good: bool) -> JobState
        requires { IsHeld self.old row.now }
        ensures ok { core_of self.new ≡ ended_job good (Some row.now) (core_of self.old) }
        ensures value { end_reply good (Some row.now) ≡ JobIs result }
    {
        if good {
            self.remove(row);
            return JobState::Completed;
        }
        self.fail(row)
    }

    // The job in progress has a bad end.
    fn fail(&mut self, row: &Job) -> JobState
        requires { IsHeld self.old row.now }
        ensures ok { core_of self.new
            ≡ with_job_changed row.now.number failed (core_of self.old) }
        ensures value { result ≡ state_after_failure row.now }
    {
        let failed = failed(row);
        self.replace(&failed);
        failed.state
    }

    // The numbers of stale jobs.
    pub(crate) fn stale_numbers(&self, alloc: Global, stale: &Stale) -> Result<JobIds, AllocError>
        ensures { IfOk result (λ numbers. numbers
            ≡ stale_numbers stale.now.time stale.now.silence (core_of self.now)) }
    {
        let mut numbers = JobIds::new(alloc);
        let mut after = None;
        while let Some(job) = self.first_stale(stale, after) {
            numbers.push(job.number)?;
            after = Some(job.number);
        }
        Ok(numbers)
    }

    // Each stale job has a bad end.
    pub(crate) fn fail_all(&mut self, stale: &Stale)
        ensures { core_of self.new
            ≡ without_stale stale.now.time stale.now.silence (core_of self.old) }
    {
        let mut after = None;
        while let Some(job) = self.first_stale(stale, after) {
            self.fail(&job);
            after = Some(job.number);
        }
    }

    // The jobs of a repository and target go that are asked for.
    pub(crate) fn remove_all(&mut self, pair: &OfPair)
        ensures { RemovesAll pair.now self.old self.new }
    {
        while let Some(job) = self.copy_first(pair) {
            self.remove(&job);
        }
    }

    // The dead jobs go whose repositories and targets are those of these jobs.
    pub(crate) fn bury_each(&mut self, jobs: &[Job])
        ensures { RemovesBuried jobs.now self.old self.new }
    {
        for job in jobs {
            self.remove_all(&OfPair {
                which: Which::Buried,
                repo: job.repo,
                target: job.target,
            });
        }
    }

    // Jobs come whose numbers follow the last one. Where memory wants, only marks may be left.
    pub(crate) fn append(&mut self, jobs: &[Job]) -> Result<(), AllocError>
        requires numbers { numbered self.old.last jobs.now ≡ jobs.now }
        requires ready { AllByRecursion (λ (job : Recorded). is_ready job.state ≡ true) jobs.now }
        ensures ok { OnOk result (Appends jobs.now self.old self.new) }
        ensures err { OnErr result (core_of self.new ≡ core_of self.old) }
    {
        if mark_each(&mut self.pairs, By::Pair, jobs).is_err() {
            return Err(AllocError);
        }
        if mark_each(&mut self.targets, By::Target, jobs).is_err() {
            return Err(AllocError);
        }
        if self.rows.push_all(jobs).is_err() {
            return Err(AllocError);
        }
        self.last = last_of(self.last, jobs);
        Ok(())
    }
}

// Why the worker of a job is not heard, where it is not.
fn worker_refusal(row: &Job, lease: Lease) -> Option<Refusal>
    ensures { (number : JobId) → result ≡ worker_refusal number lease (Some row.now) }
{
    if !is_in_progress(row.state) {
        return Some(Refusal::BadState(row.state));
    }
    if row.lease != lease {
        return Some(Refusal::LeaseLost {
            kept: row.lease,
            given: lease,
        });
    }
    None
}
