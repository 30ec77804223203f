//! Events of a script that name a storage.

ghost use Rattle.px_script.specs.declared.event.Event.TheVariants as script;
ghost use Rattle.px_world.specs.Tries.{Tries};

use crate::answers::unknown;
use crate::{Answer, Op, World};
use px_base::{Lease, Push, RepoId, StorageName, TxId};
use std::alloc::{AllocError, Global};

impl World {
    pub(crate) fn set_health(
        &mut self,
        alloc: Global,
        name: &StorageName,
        up: bool,
    ) -> Result<Answer, AllocError>
        ensures { Tries self.old (script.Health name.now up) result self.new }
    {
        let Some(storage) = self.core.storage_of(name) else {
            return Ok(unknown(name));
        };
        self.ask(alloc, &Op::Health { storage, up })
    }

    pub(crate) fn make(
        &mut self,
        alloc: Global,
        name: &StorageName,
        repo: RepoId,
        lease: Lease,
    ) -> Result<Answer, AllocError>
        ensures { Tries self.old (script.Make name.now repo lease) result self.new }
    {
        let Some(storage) = self.core.storage_of(name) else {
            return Ok(unknown(name));
        };
        self.make_at(alloc, storage, repo, lease)
    }

    pub(crate) fn enrol(
        &mut self,
        alloc: Global,
        repo: RepoId,
        name: &StorageName,
        lease: Lease,
    ) -> Result<Answer, AllocError>
        ensures { Tries self.old (script.Enrol repo name.now lease) result self.new }
    {
        let Some(storage) = self.core.storage_of(name) else {
            return Ok(unknown(name));
        };
        self.ask(
            alloc,
            &Op::Enrol {
                repo,
                storage,
                lease,
            },
        )
    }

    pub(crate) fn prepare(
        &mut self,
        alloc: Global,
        tx: TxId,
        name: &StorageName,
        push: &Push,
    ) -> Result<Answer, AllocError>
        ensures { Tries self.old (script.Prepare tx name.now push.now) result self.new }
    {
        let Some(storage) = self.core.storage_of(name) else {
            return Ok(unknown(name));
        };
        self.prepare_at(alloc, tx, storage, push)
    }

    pub(crate) fn commit(
        &mut self,
        alloc: Global,
        tx: TxId,
        name: &StorageName,
    ) -> Result<Answer, AllocError>
        ensures { Tries self.old (script.Commit tx name.now) result self.new }
    {
        let Some(storage) = self.core.storage_of(name) else {
            return Ok(unknown(name));
        };
        self.commit_at(alloc, tx, storage)
    }

    pub(crate) fn abort(
        &mut self,
        alloc: Global,
        tx: TxId,
        name: &StorageName,
    ) -> Result<Answer, AllocError>
        ensures { Tries self.old (script.Abort tx name.now) result self.new }
    {
        let Some(storage) = self.core.storage_of(name) else {
            return Ok(unknown(name));
        };
        self.abort_at(alloc, tx, storage)
    }

    pub(crate) fn refs(
        &mut self,
        alloc: Global,
        name: &StorageName,
        repo: RepoId,
    ) -> Result<Answer, AllocError>
        ensures { Tries self.old (script.Refs name.now repo) result self.new }
    {
        let Some(storage) = self.core.storage_of(name) else {
            return Ok(unknown(name));
        };
        self.refs_at(alloc, storage, repo)
    }

    pub(crate) fn take(
        &mut self,
        alloc: Global,
        name: &StorageName,
        now: u64,
    ) -> Result<Answer, AllocError>
        ensures { Tries self.old (script.Take name.now now) result self.new }
    {
        let Some(target) = self.core.storage_of(name) else {
            return Ok(unknown(name));
        };
        self.ask(alloc, &Op::Dequeue { target, now })
    }

    pub(crate) fn accept_begin(
        &mut self,
        alloc: Global,
        repo: RepoId,
        name: &StorageName,
    ) -> Result<Answer, AllocError>
        ensures { Tries self.old (script.AcceptBegin repo name.now) result self.new }
    {
        let Some(storage) = self.core.storage_of(name) else {
            return Ok(unknown(name));
        };
        self.ask(alloc, &Op::AcceptBegin { repo, storage })
    }

    pub(crate) fn settle_begin(
        &mut self,
        alloc: Global,
        repo: RepoId,
        name: &StorageName,
    ) -> Result<Answer, AllocError>
        ensures { Tries self.old (script.SettleBegin repo name.now) result self.new }
    {
        let Some(storage) = self.core.storage_of(name) else {
            return Ok(unknown(name));
        };
        self.ask(alloc, &Op::SettleBegin { repo, storage })
    }

    pub(crate) fn fence(
        &mut self,
        alloc: Global,
        name: &StorageName,
        repo: RepoId,
        lease: Lease,
    ) -> Result<Answer, AllocError>
        ensures { Tries self.old (script.Fence name.now repo lease) result self.new }
    {
        let Some(storage) = self.core.storage_of(name) else {
            return Ok(unknown(name));
        };
        self.fence_at(alloc, storage, repo, lease)
    }

    pub(crate) fn accept(
        &mut self,
        alloc: Global,
        repo: RepoId,
        name: &StorageName,
        lease: Lease,
    ) -> Result<Answer, AllocError>
        ensures { Tries self.old (script.Accept repo name.now lease) result self.new }
    {
        let Some(storage) = self.core.storage_of(name) else {
            return Ok(unknown(name));
        };
        self.ask(
            alloc,
            &Op::Accept {
                repo,
                storage,
                lease,
            },
        )
    }

    pub(crate) fn settle(
        &mut self,
        alloc: Global,
        repo: RepoId,
        name: &StorageName,
        lease: Lease,
    ) -> Result<Answer, AllocError>
        ensures { Tries self.old (script.Settle repo name.now lease) result self.new }
    {
        let Some(storage) = self.core.storage_of(name) else {
            return Ok(unknown(name));
        };
        self.settle_as_answered(alloc, repo, storage, lease)
    }
}
