//! The factor of a repository: how many storages are to have a replica of it.

ghost use Rattle.std.specs.Prelude.{IfErr, IfOk};
ghost use Rattle.px_ops.specs.declared.op.Op.TheVariants as op;
ghost use Rattle.px_cluster.specs.Ops.{refusal_of};
ghost use Rattle.genbook.specs.Changes.{numbers_of};
ghost use Rattle.px_core.specs.Assigning.{IsAssignment};
ghost use Rattle.px_core.specs.Steps.{IsCause, Steps};

use crate::Core;
use crate::fault::Fault;
use crate::names::names_of;
use px_base::{RepoId, StorageId};
use px_ops::{Refusal, Reply};
use router::{assignment, may_assign};
use std::alloc::Global;

impl Core {
    /// Sets how many storages are to have a replica of a repository, and assigns as many. Refused
    /// are, in this order, `UnknownRepo`, `Turn` and `BadFactor`.
    pub(crate) fn set_factor(
        &mut self,
        alloc: Global,
        repo: RepoId,
        factor: u32,
    ) -> Result<Reply, Fault>
        ensures { Steps self.old (op.SetFactor repo factor) result self.new }
    {
        let storages = self.plan_assignment(alloc, repo, factor)?;
        let names = names_of(alloc, &self.book, &storages)?;
        self.book.assign(repo, &storages);
        Ok(Reply::Assigned(names))
    }

    // The storages that are assigned once the repository has this factor.
    fn plan_assignment(
        &self,
        alloc: Global,
        repo: RepoId,
        factor: u32,
    ) -> Result<Vec<StorageId>, Fault>
        ensures ok { IfOk result
            (λ storages. IsAssignment self.now repo.0 factor (numbers_of storages.items)) }
        ensures refused { IfErr result (IsCause (refusal_of self.now (op.SetFactor repo factor))) }
    {
        let Some(repository) = self.book.repository(repo) else {
            return Err(Fault::Refused(Refusal::UnknownRepo));
        };
        if let Some(push) = self.turns.turn(repo) {
            return Err(Fault::Refused(Refusal::Turn(push.tx())));
        }
        may_assign(repository, factor)?;
        match assignment(alloc, repository, &self.health, factor) {
            Ok(storages) => Ok(storages),
            Err(_) => Err(Fault::Memory),
        }
    }
}
