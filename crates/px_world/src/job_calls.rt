//! What is delivered to nodes for the replication jobs that were taken.

ghost use Rattle.px_cluster.specs.Events as cluster;
ghost use Rattle.px_world.specs.Tries.{Happens};

use crate::answers::{refused, refused_by};
use crate::{Answer, Refusal, World};
use px_base::{JobId, Lease};
use std::alloc::{AllocError, Global};

impl World {
    /// Takes a snapshot of the source of a job, and keeps it in the place of an older one.
    pub(crate) fn snapshot_for(
        &mut self,
        alloc: Global,
        job: JobId,
        lease: Lease,
    ) -> Result<Answer, AllocError>
        ensures { Happens self.old (cluster.TakeSnapshot job.0 lease) result self.new }
    {
        let Some((repo, target)) = self.issued.work_of(job) else {
            return Ok(refused(Refusal::NotOut));
        };
        let Some(source) = self.issued.source_in(repo, target, lease, job) else {
            return Ok(refused(Refusal::NotOut));
        };
        if self.core.path_on(repo, target).is_none() {
            return Ok(refused(Refusal::NotOut));
        }
        let Some(path) = self.core.path_on(repo, source) else {
            return Ok(refused(Refusal::NotOut));
        };
        match self.nodes.snapshot(alloc, source.0 as usize, path) {
            Ok(snapshot) => {
                let refs = snapshot.refs.len() as u64;
                let objects = snapshot.objects.len() as u64;
                self.issued.keep_snapshot(repo, target, lease, snapshot);
                Ok(Answer::Snapshot { refs, objects })
            }
            Err(fault) => refused_by(fault),
        }
    }

    /// Delivers the snapshot that is kept for a job to its target.
    pub(crate) fn apply_for(
        &mut self,
        alloc: Global,
        job: JobId,
        lease: Lease,
    ) -> Result<Answer, AllocError>
        ensures { Happens self.old (cluster.Apply job.0 lease) result self.new }
    {
        let Some((repo, target)) = self.issued.work_of(job) else {
            return Ok(refused(Refusal::NotOut));
        };
        let Some(snapshot) = self.issued.snapshot_in(repo, target, lease, job) else {
            return Ok(refused(Refusal::NotOut));
        };
        let Some(path) = self.core.path_on(repo, target) else {
            return Ok(refused(Refusal::NotOut));
        };
        match self
            .nodes
            .apply(alloc, target.0 as usize, path, lease, snapshot)
        {
            Ok(()) => {
                self.issued.answers(repo, target, lease);
                Ok(Answer::Done)
            }
            Err(fault) => refused_by(fault),
        }
    }

    /// Delivers the removal of a job to its target.
    pub(crate) fn remove_for(
        &mut self,
        alloc: Global,
        job: JobId,
        lease: Lease,
    ) -> Result<Answer, AllocError>
        ensures { Happens self.old (cluster.Remove job.0 lease) result self.new }
    {
        let Some((repo, target)) = self.issued.work_of(job) else {
            return Ok(refused(Refusal::NotOut));
        };
        if !self.issued.is_delete_of(repo, target, lease, job) {
            return Ok(refused(Refusal::NotOut));
        }
        let Some(path) = self.core.path_on(repo, target) else {
            return Ok(refused(Refusal::NotOut));
        };
        match self.nodes.remove(alloc, target.0 as usize, path, lease) {
            Ok(()) => {
                self.issued.answers(repo, target, lease);
                Ok(Answer::Done)
            }
            Err(fault) => refused_by(fault),
        }
    }
}
