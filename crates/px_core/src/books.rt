//! The operations on storages and repositories.

ghost use Rattle.std.specs.Prelude.{◌≡◌, ◌<◌, length, None, Some, IfErr, IfOk, OnOk};
ghost use Rattle.px_ops.specs.declared.op.Op.TheVariants as op;
ghost use Rattle.px_cluster.specs.Ops.{next_core, refusal_of, reply_of};
ghost use Rattle.px_cluster.specs.Reads.{booked_reply, row_of};
ghost use Rattle.cluster_form.specs.Books.{IsDense};
ghost use Rattle.px_core.specs.Readers.{IsNextCreation};
ghost use Rattle.px_core.specs.Steps.{Steps};

use crate::Core;
use crate::fault::Fault;
use crate::names::{name_of, names_of};
use crate::reads::add_count;
use crate::replicas::is_making;
use genbook::{BookFault, Creation, Replica, Repository};
use px_base::{Lease, RepoId, RepoPath, StorageId, StorageName};
use px_ops::{BookRow, BookRows, Refusal, Reply};
use std::alloc::{AllocError, Global};

impl Core {
    /// Takes a storage in. Refused are, in this order, `StorageExists` and `TooManyStorages`.
    pub(crate) fn admit(
        &mut self,
        alloc: Global,
        virt: &StorageName,
        name: &StorageName,
    ) -> Result<Reply, Fault>
        ensures { Steps self.old (op.Admit virt.now name.now) result self.new }
    {
        let admission = self.book.plan_admit(alloc, virt, name)?;
        self.health.prepare()?;
        let storage = admission.storage;
        self.book.admit(admission);
        self.health.add();
        Ok(Reply::Storage(storage))
    }

    /// A storage can be reached, or cannot. Refused is `UnknownStorage`.
    pub(crate) fn set_health(&mut self, storage: StorageId, up: bool) -> Reply
        ensures reply { result ≡ reply_of self.old (op.Health storage up) }
        ensures state { self.new ≡ next_core self.old (op.Health storage up) }
    {
        if self.book.known_name(storage).is_none() {
            return Reply::Refused(Refusal::UnknownStorage(None));
        }
        self.health.set(storage, up);
        Reply::Done
    }

    /// Puts a repository on record, or makes one again that no storage has a replica of. Refused
    /// are, in this order, `UnknownVirtual`, `Exists`, `BadFactor`, `TooManyRepositories` and
    /// `LeasesSpent`.
    pub(crate) fn create(
        &mut self,
        alloc: Global,
        virt: &StorageName,
        path: &RepoPath,
        factor: u32,
    ) -> Result<Reply, Fault>
        ensures { Steps self.old (op.Create virt.now path.now factor) result self.new }
    {
        let creation = self.book.plan_create(alloc, virt, path, factor)?;
        let assigned = names_of(alloc, &self.book, creation.assigned.as_slice())?;
        self.reads.reserve(1)?;
        let repo = creation.repo;
        let lease = creation.lease;
        self.book.create(creation);
        add_count(&mut self.reads, repo);
        Ok(Reply::Created {
            repo,
            lease,
            assigned,
        })
    }

    /// Works out the creation of a repository that would be done now; there is none where something
    /// refuses it. Nothing changes by it.
    pub fn creation(
        &mut self,
        alloc: Global,
        virt: &StorageName,
        path: &RepoPath,
        factor: u32,
    ) -> Result<Option<Creation>, AllocError>
        ensures plan { IfOk result (IsNextCreation self.old virt.now path.now factor) }
        ensures same { self.new ≡ self.old }
    {
        match self.book.plan_create(alloc, virt, path, factor) {
            Ok(creation) => Ok(Some(creation)),
            Err(BookFault::Refused(_)) => Ok(None),
            Err(BookFault::Memory) => Err(AllocError),
        }
    }

    /// Books the empty replica that a storage made. Refused are, in this order, `UnknownRepo`,
    /// `UnknownStorage`, `LeaseLost` and `NotMaking`.
    pub(crate) fn enrol(&mut self, repo: RepoId, storage: StorageId, lease: Lease) -> Reply
        ensures reply { result ≡ reply_of self.old (op.Enrol repo storage lease) }
        ensures state { self.new ≡ next_core self.old (op.Enrol repo storage lease) }
    {
        match self.book.enrol(repo, storage, lease) {
            Ok(()) => Reply::Done,
            Err(refusal) => Reply::Refused(refusal),
        }
    }

    /// Nothing refuses to book the empty replica of a storage. Else it is the first of
    /// `UnknownRepo`, `UnknownStorage`, `LeaseLost` and `NotMaking` that holds.
    pub fn may_enrol(&self, repo: RepoId, storage: StorageId, lease: Lease) -> Result<(), Refusal>
        ensures accepted { OnOk result (refusal_of self.now (op.Enrol repo storage lease) ≡ None) }
        ensures refused { IfErr result (λ why.
            refusal_of self.now (op.Enrol repo storage lease) ≡ Some why) }
    {
        self.book.has_place(repo, storage)?;
        match self.book.repository(repo) {
            Some(repository) => is_making(repository, storage, lease),
            None => Err(Refusal::UnknownRepo),
        }
    }

    /// What is booked of a repository. Refused is `UnknownRepo`.
    pub(crate) fn booked(&self, alloc: Global, repo: RepoId) -> Result<Reply, AllocError>
        ensures { IfOk result (λ reply. reply ≡ reply_of self.now (op.Booked repo)) }
    {
        match self.book.repository(repo) {
            Some(repository) => self.books(alloc, repository),
            None => Ok(Reply::Refused(Refusal::UnknownRepo)),
        }
    }

    fn books(&self, alloc: Global, repository: &Repository) -> Result<Reply, AllocError>
        requires { IsDense self.now.storages repository.now }
        ensures { IfOk result (λ reply. reply ≡ booked_reply self.now repository.now) }
    {
        let mut rows = BookRows::new(alloc);
        for replica in repository.replicas() {
            rows.push(self.row_of(replica))?;
        }
        Ok(Reply::Books {
            newest: repository.newest(),
            rows,
        })
    }

    fn row_of(&self, replica: &Replica) -> BookRow
        requires { replica.now.storage < length self.now.storages }
        ensures { result ≡ row_of self.now replica.now }
    {
        BookRow {
            storage: replica.storage,
            name: name_of(&self.book, replica.storage),
            assigned: replica.assigned,
            healthy: self.health.is_up(replica.storage),
            booking: replica.booking,
        }
    }

    /// The number of a repository. Refused is `UnknownRepo`.
    pub(crate) fn find(&self, virt: &StorageName, path: &RepoPath) -> Reply
        ensures { result ≡ reply_of self.now (op.Find virt.now path.now) }
    {
        match self.book.find(virt, path) {
            Ok(repo) => Reply::Repo(repo),
            Err(refusal) => Reply::Refused(refusal),
        }
    }
}
