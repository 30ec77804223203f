//! The plan of replication jobs comes into the queue.

ghost use Rattle.std.specs.Prelude.{◌≡◌, IfOk, OnErr, OnOk};
ghost use Rattle.px_ops.specs.declared.op.Op.TheVariants as op;
ghost use Rattle.px_cluster.specs.Ids.{repo_number};
ghost use Rattle.px_cluster.specs.Ops.{next_core, reply_of};
ghost use Rattle.px_cluster.specs.Plan.{plan};

use crate::Core;
use crate::names::jobs_told;
use px_base::{Items, RepoId};
use px_ops::{Job, Reply};
use reconciler::Known;
use std::alloc::{AllocError, Global};

impl Core {
    /// Enqueues a job for each replica that lags behind or is one too many, of one repository or of
    /// all.
    pub(crate) fn reconcile(
        &mut self,
        alloc: Global,
        only: Option<RepoId>,
    ) -> Result<Reply, AllocError>
        ensures reply { IfOk result (λ reply. reply ≡ reply_of self.old (op.Reconcile only)) }
        ensures state { OnOk result (self.new ≡ next_core self.old (op.Reconcile only)) }
        ensures err { OnErr result (self.new ≡ self.old) }
    {
        let jobs = self.plan(alloc, only)?;
        let told = jobs_told(alloc, &self.book, jobs.as_slice())?;
        self.queue.enqueue_all(jobs.as_slice())?;
        Ok(Reply::JobsAre(told))
    }

    // The jobs that are to be made.
    fn plan(&self, alloc: Global, only: Option<RepoId>) -> Result<Items<Job>, AllocError>
        ensures { IfOk result (λ jobs. jobs ≡ plan self.now (repo_number only)) }
    {
        let known = Known {
            book: &self.book,
            health: &self.health,
            turns: &self.turns,
        };
        reconciler::plan(alloc, &known, &self.queue, only)
    }
}
