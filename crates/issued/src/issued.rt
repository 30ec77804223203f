//! The effects that were issued, and the answers that are kept.

ghost use Rattle.std.specs.Prelude.{◌≡◌, ◌∷◌, [], None, OnOk, false};
ghost use Rattle.std.specs.Option.{option_copied, option_map};
ghost use Rattle.px_cluster.specs.Cluster.{empty};
ghost use Rattle.px_cluster.specs.Issues.{with_drawn};
ghost use Rattle.px_cluster.specs.Ledger as ledger;
ghost use Rattle.genbook.specs.Changes.{numbers_of};
ghost use Rattle.issued.specs.Draws.{HasRoom, ledger_of};
ghost use Rattle.issued.specs.Issued.{HasPushRoom, HasWorkRoom, IssuesCommit, IssuesPush};
ghost use Rattle.issued.specs.Issued.{KeepsAnswer, KeepsFenceAnswer, KeepsRoom, KeepsSnapshot};
ghost use Rattle.issued.specs.Issued.{cluster_of, destination_of, pushed_of, target_of};
ghost use Rattle.issued.specs.Issued.{with_fence, with_work, worked_of};
ghost use Rattle.issued.specs.Purposes.{number_of, purpose_drawn, purpose_of};

use crate::Purpose;
use crate::draw::Draw;
use crate::draws::{self, Draws};
use crate::purpose::{
    Drawn, fence_answer, is_committed, is_delete_of, is_made, is_worked, snapshot_in, source_in,
};
use crate::pushes::{self, Pushes};
use crate::works::{self, Works};
use node_calls::Snapshot;
use px_base::{Gen, JobId, Lease, RepoId, StorageId, TxId};
use std::alloc::{AllocError, Global};
use std::collections::BTreeMap;
use std::marker::Model;
use voters::Verdict;

/// Which effect was issued under each lease for each storage, and which answer of the node is kept.
/// Nothing is ever forgotten, since an effect may come to its node at any time. A lease, a push and
/// a job are found in logarithmic time. Only `reserve`, `reserve_push` and `reserve_work` take
/// memory.
#[derive(Drop)]
pub struct Issued {
    draws: Draws,
    pushes: Pushes,
    works: Works,
}

impl Model for Issued {
    ghost use Rattle.issued.specs.Entries.{Entries};

    ghost Value = { Entries };

    ghost view = { λ i. record {
      draws = i.draws.entries;
      pushes = i.pushes.entries;
      works = i.works.entries;
    } };
}

impl Issued {
    /// Nothing was issued yet.
    pub fn new(alloc: Global) -> Issued
        ensures { cluster_of result ≡ empty }
    {
        Issued {
            draws: BTreeMap::new(alloc),
            pushes: BTreeMap::new(alloc),
            works: BTreeMap::new(alloc),
        }
    }

    /// Takes the memory for a lease that is drawn for each of these storages. Nothing is issued and
    /// no room is lost by it, also where memory wants.
    pub fn reserve(
        &mut self,
        repo: RepoId,
        storages: &[StorageId],
        lease: Lease,
    ) -> Result<(), AllocError>
        ensures ok { OnOk result
            (HasRoom self.new.draws repo.0 (numbers_of storages.now) lease) }
        ensures others { KeepsRoom self.old self.new }
        ensures same { cluster_of self.new ≡ cluster_of self.old }
    {
        draws::reserve_each(&mut self.draws, repo, storages, lease)
    }

    /// Takes the memory for a push of a transaction that has these members. Nothing is issued and
    /// no room is lost by it, also where memory wants.
    pub fn reserve_push(
        &mut self,
        tx: TxId,
        repo: RepoId,
        members: &[StorageId],
        lease: Lease,
    ) -> Result<(), AllocError>
        ensures ok { OnOk result
            (HasPushRoom self.new tx.0 repo.0 (numbers_of members.now) lease) }
        ensures others { KeepsRoom self.old self.new }
        ensures same { cluster_of self.new ≡ cluster_of self.old }
    {
        draws::reserve_each(&mut self.draws, repo, members, lease)?;
        pushes::reserve(&mut self.pushes, tx)
    }

    /// Takes the memory for a job that is taken for its target, under a lease that is drawn for it.
    /// Nothing is issued and no room is lost by it, also where memory wants.
    pub fn reserve_work(
        &mut self,
        job: JobId,
        repo: RepoId,
        target: StorageId,
        lease: Lease,
    ) -> Result<(), AllocError>
        ensures ok { OnOk result (HasWorkRoom self.new job.0 repo.0 target.0 lease) }
        ensures others { KeepsRoom self.old self.new }
        ensures same { cluster_of self.new ≡ cluster_of self.old }
    {
        let draw = Draw {
            repo,
            storage: target,
            lease,
        };
        draws::reserve(&mut self.draws, draw)?;
        works::reserve(&mut self.works, job)
    }

    /// Issues the creation of a replica under a lease, for each of these storages.
    pub fn creates(&mut self, repo: RepoId, storages: &[StorageId], lease: Lease)
        requires { HasRoom self.old.draws repo.0 (numbers_of storages.now) lease }
        ensures { cluster_of self.new ≡ with_drawn (cluster_of self.old) repo.0
            (numbers_of storages.now) lease (ledger.Creation false) }
    {
        draws::write_each(&mut self.draws, repo, storages, lease, Drawn::Creation);
    }

    /// Issues a prepare and an abort under a lease, for each member of a push that begins at a
    /// newest generation.
    pub fn begins(
        &mut self,
        tx: TxId,
        repo: RepoId,
        members: &[StorageId],
        lease: Lease,
        begun: Gen,
    )
        requires { HasPushRoom self.old tx.0 repo.0 (numbers_of members.now) lease }
        ensures { IssuesPush tx repo.0 (numbers_of members.now) lease begun.0 self.old self.new }
    {
        draws::write_each(&mut self.draws, repo, members, lease, Drawn::Push(begun));
        pushes::write(&mut self.pushes, tx, repo, lease);
    }

    /// Issues the calls of a job that is taken to bring its target to what is newest at a source.
    pub fn updates(
        &mut self,
        job: JobId,
        repo: RepoId,
        target: StorageId,
        lease: Lease,
        source: StorageId,
        generation: Gen,
    )
        requires { HasWorkRoom self.old job.0 repo.0 target.0 lease }
        ensures { cluster_of self.new ≡ with_work (cluster_of self.old) job.0 repo.0 target.0 lease
            (ledger.Updating job.0 source.0 generation.0 None false) }
    {
        self.issue_work(
            job,
            repo,
            target,
            lease,
            Drawn::Update(job, source, generation),
        );
    }

    /// Issues the removal of a job that is taken to remove the replica of its target.
    pub fn deletes(&mut self, job: JobId, repo: RepoId, target: StorageId, lease: Lease)
        requires { HasWorkRoom self.old job.0 repo.0 target.0 lease }
        ensures { cluster_of self.new ≡ with_work (cluster_of self.old) job.0 repo.0 target.0 lease
            (ledger.Deleting job.0 false) }
    {
        self.issue_work(job, repo, target, lease, Drawn::Delete(job));
    }

    // Issues the calls of a job for its target, under the lease that is drawn for it.
    fn issue_work(&mut self, job: JobId, repo: RepoId, target: StorageId, lease: Lease, what: Drawn)
        requires { HasWorkRoom self.old job.0 repo.0 target.0 lease }
        ensures { cluster_of self.new ≡ with_work (cluster_of self.old) job.0 repo.0 target.0 lease
            (purpose_drawn what) }
    {
        let draw = Draw {
            repo,
            storage: target,
            lease,
        };
        draws::write(&mut self.draws, draw, what);
        works::write(&mut self.works, job, repo, target);
    }

    /// Issues a fence under a lease that is drawn for a storage. The room for it is that for the
    /// lease at this one storage.
    pub fn fences(&mut self, repo: RepoId, storage: StorageId, lease: Lease)
        requires { HasRoom self.old.draws repo.0 (storage.0 ∷ []) lease }
        ensures { cluster_of self.new
            ≡ with_fence (cluster_of self.old) repo.0 storage.0 lease }
    {
        let draw = Draw {
            repo,
            storage,
            lease,
        };
        draws::write(&mut self.draws, draw, Drawn::Fence);
    }

    /// Issues the commit of a push under a lease for a storage, by the verdict. Where the lease was
    /// not drawn for a push there, nothing is issued.
    pub fn commits(&mut self, repo: RepoId, storage: StorageId, lease: Lease, verdict: &Verdict)
        ensures { IssuesCommit repo.0 storage.0 lease verdict.now.hash self.old self.new }
    {
        let draw = Draw {
            repo,
            storage,
            lease,
        };
        draws::commit(&mut self.draws, draw, verdict);
    }

    /// Keeps that the node of a storage did what was issued under a lease: that it made the
    /// replica, answered the commit of a push with a vote, or did what a job asks. Of a fence it
    /// keeps nothing: what a node answers to that is kept by `answers_fence`.
    pub fn answers(&mut self, repo: RepoId, storage: StorageId, lease: Lease)
        ensures { KeepsAnswer repo.0 storage.0 lease self.old self.new }
    {
        let draw = Draw {
            repo,
            storage,
            lease,
        };
        draws::answer(&mut self.draws, draw);
    }

    /// Keeps what the node of a storage answered to the fence that was issued under a lease: the
    /// lease of the last push that it did, or `None` where it did none. Where no fence was issued,
    /// nothing is kept.
    pub fn answers_fence(
        &mut self,
        repo: RepoId,
        storage: StorageId,
        lease: Lease,
        last: Option<Lease>,
    )
        ensures { KeepsFenceAnswer repo.0 storage.0 lease last self.old self.new }
    {
        let draw = Draw {
            repo,
            storage,
            lease,
        };
        draws::answer_fence(&mut self.draws, draw, last);
    }

    /// Keeps a snapshot for the update that was issued under a lease, in the place of an older one.
    /// Where none was issued, nothing is kept.
    pub fn keep_snapshot(
        &mut self,
        repo: RepoId,
        storage: StorageId,
        lease: Lease,
        snapshot: Snapshot,
    )
        ensures { KeepsSnapshot repo.0 storage.0 lease snapshot self.old self.new }
    {
        let draw = Draw {
            repo,
            storage,
            lease,
        };
        draws::keep(&mut self.draws, draw, snapshot);
    }

    /// What a lease was drawn for at a storage, where an effect was issued under it.
    pub fn purpose(&self, repo: RepoId, storage: StorageId, lease: Lease) -> Option<&Purpose>
        ensures { purpose_of (option_copied result)
            ≡ ledger_of self.now.draws repo.0 storage.0 lease }
    {
        let draw = Draw {
            repo,
            storage,
            lease,
        };
        draws::kept(&self.draws, draw)
    }

    /// The repository and the lease of the push of a transaction, also of one that ended.
    pub fn push_of(&self, tx: TxId) -> Option<(RepoId, Lease)>
        ensures { option_map destination_of result ≡ pushed_of self.now.pushes tx.0 }
    {
        pushes::push_of(&self.pushes, tx)
    }

    /// The repository and the target of a job that was taken once, also of one that ended.
    pub fn work_of(&self, job: JobId) -> Option<(RepoId, StorageId)>
        ensures { option_map target_of result ≡ worked_of self.now.works job.0 }
    {
        works::work_of(&self.works, job)
    }

    /// Whether the node of a storage answered that it made the replica, under this lease.
    pub fn is_made(&self, repo: RepoId, storage: StorageId, lease: Lease) -> bool
        ensures { result ≡ ledger.is_made (ledger_of self.now.draws repo.0 storage.0 lease) }
    {
        is_made(self.purpose(repo, storage, lease))
    }

    /// Whether the node of a storage answered the commit of the push under this lease with a vote.
    pub fn is_committed(&self, repo: RepoId, storage: StorageId, lease: Lease) -> bool
        ensures { result ≡ ledger.is_committed (ledger_of self.now.draws repo.0 storage.0 lease) }
    {
        is_committed(self.purpose(repo, storage, lease))
    }

    /// The storage that the update of this job copies from, where it was issued under this lease.
    pub fn source_in(
        &self,
        repo: RepoId,
        storage: StorageId,
        lease: Lease,
        job: JobId,
    ) -> Option<StorageId>
        ensures { option_map number_of result
            ≡ ledger.source_in job.0 (ledger_of self.now.draws repo.0 storage.0 lease) }
    {
        source_in(self.purpose(repo, storage, lease), job)
    }

    /// The snapshot that is kept for the update of this job, under this lease.
    pub fn snapshot_in(
        &self,
        repo: RepoId,
        storage: StorageId,
        lease: Lease,
        job: JobId,
    ) -> Option<&Snapshot>
        ensures { option_copied result
            ≡ ledger.snapshot_in job.0 (ledger_of self.now.draws repo.0 storage.0 lease) }
    {
        snapshot_in(self.purpose(repo, storage, lease), job)
    }

    /// Whether the removal of this job was issued under this lease.
    pub fn is_delete_of(&self, repo: RepoId, storage: StorageId, lease: Lease, job: JobId) -> bool
        ensures { result
            ≡ ledger.is_delete_of job.0 (ledger_of self.now.draws repo.0 storage.0 lease) }
    {
        is_delete_of(self.purpose(repo, storage, lease), job)
    }

    /// Whether the node of a storage answered that it applied a snapshot or removed the replica,
    /// for this job under this lease.
    pub fn is_worked(&self, repo: RepoId, storage: StorageId, lease: Lease, job: JobId) -> bool
        ensures { result
            ≡ ledger.is_worked job.0 (ledger_of self.now.draws repo.0 storage.0 lease) }
    {
        is_worked(self.purpose(repo, storage, lease), job)
    }

    /// What the node of a storage answered to the fence under this lease: the lease of the last
    /// push that it did, where it did one. `None` where it did not answer, or no fence was issued.
    pub fn fence_answer(
        &self,
        repo: RepoId,
        storage: StorageId,
        lease: Lease,
    ) -> Option<Option<Lease>>
        ensures { result
            ≡ ledger.fence_answer (ledger_of self.now.draws repo.0 storage.0 lease) }
    {
        fence_answer(self.purpose(repo, storage, lease))
    }
}
