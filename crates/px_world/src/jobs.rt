//! Operations on replication jobs: what is issued for one that is taken, and what is told of its end.

ghost use Rattle.std.specs.Prelude.{◌≡◌, true};
ghost use Rattle.px_ops.specs.declared.op.Op.TheVariants as operation;
ghost use Rattle.px_cluster.specs.Acknowledged.{work_answered};
ghost use Rattle.px_cluster.specs.Core.{job_at};
ghost use Rattle.px_cluster.specs.Events as cluster;
ghost use Rattle.px_cluster.specs.Ops.{refusal_of};
ghost use Rattle.px_world.specs.Asked.{HasRoomForWork, issues_to_target, not_acked};
ghost use Rattle.px_world.specs.Tries.{Happens};
ghost use Rattle.px_world.specs.World.{cluster_of};

use crate::answers::refused;
use crate::{Answer, Op, Refusal, World};
use px_base::{JobId, Lease, StorageId};
use px_core::Work;
use std::alloc::{AllocError, Global};

impl World {
    /// Takes the next job of a storage, and issues its calls to the node there. Room for them is taken
    /// first.
    pub(crate) fn dequeue(
        &mut self,
        alloc: Global,
        op: &Op,
        target: StorageId,
        now: u64,
    ) -> Result<Answer, AllocError>
        requires { op.now ≡ operation.Dequeue target now }
        ensures { Happens self.old (cluster.Asks op.now) result self.new }
    {
        let Some(work) = self.core.next_work(target) else {
            let reply = self.core.step(alloc, op)?;
            return Ok(Answer::Replied(reply));
        };
        let job = &work.job;
        self.issued
            .reserve_work(job.number, job.repo, job.target, work.lease)?;
        let reply = self.core.step(alloc, op)?;
        self.issue_work(&work);
        Ok(Answer::Replied(reply))
    }

    // Issues the calls of a job that is taken.
    fn issue_work(&mut self, work: &Work)
        requires { HasRoomForWork self.old.issued work.now }
        ensures { cluster_of self.new ≡ issues_to_target (cluster_of self.old) work.now }
    {
        let (job, lease) = (&work.job, work.lease);
        match work.source {
            Some(source) => self.issued.updates(
                job.number,
                job.repo,
                job.target,
                lease,
                source,
                work.generation,
            ),
            None => self.issued.deletes(job.number, job.repo, job.target, lease),
        }
    }

    /// Ends a job well, where the node of its target answered what the job asks.
    pub(crate) fn complete(
        &mut self,
        alloc: Global,
        op: &Op,
        job: JobId,
        lease: Lease,
    ) -> Result<Answer, AllocError>
        requires { op.now ≡ operation.Ack job lease true }
        ensures { Happens self.old (cluster.Asks op.now) result self.new }
    {
        if !self.has_worked(job, lease) {
            return Ok(self.not_worked(job, lease));
        }
        let reply = self.core.step(alloc, op)?;
        Ok(Answer::Replied(reply))
    }

    // Whether the node of the target of a job answered what the job asks under this lease, or there is
    // no such job.
    fn has_worked(&self, number: JobId, lease: Lease) -> bool
        ensures { result ≡ work_answered (cluster_of self.now) lease
            (job_at self.now.core number.0) }
    {
        match self.core.job(number) {
            Some(job) => self
                .issued
                .is_worked(job.repo, job.target, lease, job.number),
            None => true,
        }
    }

    // What is answered where the node of the target did not answer what the job asks: what refuses the
    // operation comes first.
    fn not_worked(&self, job: JobId, lease: Lease) -> Answer
        ensures { result ≡ not_acked (refusal_of self.now.core (operation.Ack job lease true)) }
    {
        match self.core.may_end(job, lease) {
            Ok(()) => refused(Refusal::NotAcked),
            Err(why) => refused(why),
        }
    }
}
