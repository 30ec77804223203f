//! The book: storages and repositories by their numbers and their names.

ghost use Rattle.std.specs.Prelude.{◌≡◌, ◌+◌, ◌-◌, ◌<◌, ◌≤◌, ◌^◌, ℕ, not, [], List, length, slice_get, unwrap_or, None, Some, IfOk, IfErr, IfSome, OnOk, OnErr};
ghost use Rattle.std.specs.Option.{option_copied};
ghost use Rattle.px_cluster.specs.Book.{booked, storages_of, with_lease_for, with_replica_on};
ghost use Rattle.px_cluster.specs.Casts.{confirmed};
ghost use Rattle.px_cluster.specs.Core.{known_name, with_repository};
ghost use Rattle.px_cluster.specs.Creating.{admit_refusal, admitted, before_create, create_refusal, created, enrol_refusal, enrolled, exists_as, found, has_name, is_blank, number_for, unknown_storage, unmade, with_created};
ghost use Rattle.px_cluster.specs.Ids.{repo_id, storage_number};
ghost use Rattle.px_ops.specs.declared.refusal.Refusal.TheVariants as refusal;
ghost use Rattle.px_cluster.specs.Numbers.{first_of, places_of};
ghost use Rattle.px_cluster.specs.Refusals.{cause, leases_spent};
ghost use Rattle.px_cluster.specs.Repairs.{accept_begin_refusal, accept_refusal, accepted, settle_begin_refusal, settle_refusal, settled};
ghost use Rattle.genbook.specs.Admissions.{Awaits, IsAdmission};
ghost use Rattle.genbook.specs.Books.{Becomes, Has, IsNamedAs, core_of, on_book, known_as, place_refusal, storage_at};
ghost use Rattle.genbook.specs.Changes.{AreAscending, assigned_to, numbers_of};
ghost use Rattle.genbook.specs.Creations.{Fits, IsCreation, IsFault, IsReadyFor};
ghost use Rattle.genbook.specs.declared.ready.Ready.TheVariants as ready;
ghost use Rattle.genbook.specs.Rules.{BeginsFor, CameLateOn, DecidesOn};

use crate::admission::{lengthen, longer_for};
use crate::creation::{first_of, storages_of, unmade};
use crate::index::{Names, Paths, put, put_name, repository_at, storage_named};
use crate::{Admission, BookFault, Creation, Ready, Repository, Storage};
use px_base::{Gen, Lease, RepoId, RepoPath, StorageId, StorageName};
use px_ops::{Booking, Refusal};
use std::alloc::{AllocError, Global};
use std::collections::BTreeMap;
use std::marker::Model;

/// The most repositories that the book has.
const MAX_REPOSITORIES: usize = 100_000;

/// The most storages that a virtual storage has.
const MAX_STORAGES: usize = 64;

/// The storages, and what is recorded of each repository, by their numbers.
///
/// Each storage is found by its name, and each repository by its virtual storage and path, in
/// logarithmic time and without memory. What is new comes in two steps: a plan takes all memory and
/// leaves what is on record, and the change after it takes none. A plan whose change never comes
/// leaves an entry in an index, which finds nothing.
///
/// The type keeps that names find what they name, and that there are at most as many repositories as a
/// creation allows. It does not keep that a repository has one
/// replica for each storage of its virtual storage, by number: a creation and an admission make it
/// so, `put` takes what it is given, and no other call adds or drops a replica.
#[derive(Drop)]
pub struct Book {
    storages: Vec<Storage>,
    repositories: Vec<Repository>,
    names: Names,
    paths: Paths,
    ready: Ready,
}

impl Model for Book {
    ghost use Rattle.genbook.specs.Books.{Books};
    ghost use Rattle.std.specs.Prelude.{◌<◌, ◌≤◌, ◌^◌, length, vec_capacity};
    ghost use Rattle.genbook.specs.Index.{AreFound, AreNamed, IsNext, IsReady};

    ghost Value = { Books };

    ghost view = { λ b. record {
      storages = b.storages.items;
      repositories = b.repositories.items;
      ready = b.ready;
    } };

    ghost invariant = { λ b. AreNamed b.names.entries b.storages.items
        × AreFound b.paths.entries b.repositories.items
        × IsReady b.ready b.paths.entries b.repositories.items (vec_capacity b.repositories)
        × (length b.storages.items < 2 ^ 32)
        × IsNext b.ready b.names.entries b.storages.items (vec_capacity b.storages)
        × (length b.repositories.items ≤ 100000) };
}

impl Book {
    /// The empty book.
    pub fn new(alloc: Global) -> Book
        ensures { result ≡ record { storages = []; repositories = []; ready = ready.Nothing } }
    {
        Book {
            storages: Vec::new(alloc),
            repositories: Vec::new(alloc),
            names: BTreeMap::new(alloc),
            paths: BTreeMap::new(alloc),
            ready: Ready::Nothing,
        }
    }

    /// The repository of a virtual storage and a path. Takes no memory.
    pub fn find(&self, virt: &StorageName, path: &RepoPath) -> Result<RepoId, Refusal>
        ensures ok { IfOk result (λ repo. found (core_of self.now) virt.now path.now
            ≡ Some repo.0) }
        ensures refused { IfErr result (λ why. (found (core_of self.now) virt.now path.now ≡ None)
            × (why ≡ refusal.UnknownRepo)) }
    {
        match repository_at(&self.paths, &self.repositories, virt, path) {
            Some(number) => Ok(RepoId(number)),
            None => Err(Refusal::UnknownRepo),
        }
    }

    /// The number of the storage of a name, and its virtual storage. Takes no memory.
    pub fn known(&self, name: &StorageName) -> Option<(StorageId, StorageName)>
        ensures { result ≡ known_as self.now.storages name.now }
    {
        let number = storage_named(&self.names, &self.storages, name)?;
        let storage = self.storages.get(number as usize)?;
        Some((StorageId(number), storage.virt))
    }

    /// The storage at a place, from 0, among those of the repository's virtual storage, by number, as
    /// its replicas have them. Takes no memory.
    pub fn storage(&self, repo: RepoId, place: u32) -> Option<StorageId>
        ensures { storage_number result ≡ storage_at (on_book self.now repo.0) place }
    {
        let repository = self.repositories.get(repo.0 as usize)?;
        let replica = repository.replicas().get(place as usize)?;
        Some(replica.storage)
    }

    /// Works out the admission of a storage of a virtual storage, under the next number. It is
    /// unassigned, and nothing is known of it, everywhere. This takes all memory, and what is on
    /// record stays. A refusal names the first cause that holds: `StorageExists`,
    /// `TooManyStorages`.
    pub fn plan_admit(
        &mut self,
        alloc: Global,
        virt: &StorageName,
        name: &StorageName,
    ) -> Result<Admission, BookFault>
        ensures ok { IfOk result (IsAdmission (core_of self.old) virt.now name.now) }
        ensures fits { IfOk result (Awaits self.new) }
        ensures accepted { OnOk result (admit_refusal (core_of self.old) virt.now name.now ≡ None) }
        ensures refused { IfErr result (IsFault (admit_refusal (core_of self.old) virt.now
            name.now)) }
        ensures same { core_of self.new ≡ core_of self.old }
    {
        let storages = storages_of(alloc, &self.storages, virt)?;
        self.may_admit(virt, name, storages.len())?;
        let storage = StorageId(self.storages.len() as u32);
        let longer = longer_for(alloc, &self.repositories, virt, storage)?;
        self.make_storage_ready(name)?;
        Ok(Admission {
            storage,
            virt: *virt,
            name: *name,
            longer,
        })
    }

    /// The storage is on the book, and has a replica of each repository of its virtual storage, as
    /// the admission says, which was worked out for this book. Takes no memory.
    pub fn admit(&mut self, admission: Admission)
        requires { Awaits self.old admission }
        ensures storages { self.new.storages
            ≡ (admitted admission.virt admission.name (core_of self.old)).storages }
        ensures repositories { self.new.repositories
            ≡ (admitted admission.virt admission.name (core_of self.old)).repositories }
    {
        self.ready = Ready::Nothing;
        let Admission {
            virt,
            name,
            longer,
            ..
        } = admission;
        self.storages.push_reserved(Storage { virt, name });
        lengthen(&mut self.repositories, longer);
    }

    /// Works out the creation of the repository of a virtual storage and a path, on as many storages
    /// as the factor says, the first by number; 0 stands for all. A repository of which nothing is
    /// known any more may be created again, under its number. This takes all memory, and what is on
    /// record stays. A refusal names the first cause that holds: `UnknownVirtual`, `Exists`,
    /// `BadFactor`, `TooManyRepositories`, `LeasesSpent`.
    pub fn plan_create(
        &mut self,
        alloc: Global,
        virt: &StorageName,
        path: &RepoPath,
        factor: u32,
    ) -> Result<Creation, BookFault>
        ensures ok { IfOk result (IsCreation (core_of self.old) virt.now path.now factor) }
        ensures fits { IfOk result (Fits self.new) }
        ensures accepted { OnOk result (create_refusal (core_of self.old) virt.now path.now factor
            ≡ None) }
        ensures refused { IfErr result (IsFault (create_refusal (core_of self.old) virt.now path.now
            factor)) }
        ensures same { core_of self.new ≡ core_of self.old }
    {
        let known = repository_at(&self.paths, &self.repositories, virt, path);
        let storages = storages_of(alloc, &self.storages, virt)?;
        self.may_create(virt, path, factor, storages.len(), known)?;
        let number = self.number_for(known);
        let mut entry = self.before_create(alloc, number, virt, path, storages.as_slice())?;
        let assigned = first_of(alloc, factor, storages)?;
        let lease = entry.create_on(assigned.as_slice())?;
        self.make_ready(alloc, known, virt, path)?;
        Ok(Creation {
            repo: RepoId(number as u32),
            lease,
            assigned,
            entry,
        })
    }

    /// The repository is on the book as the creation says, which was worked out for this book. Takes
    /// no memory.
    pub fn create(&mut self, creation: Creation)
        requires { Fits self.old creation }
        ensures ok { (virt path : List ℕ) (factor : ℕ)
            → IsCreation (core_of self.old) virt path factor creation
            → self.new.repositories ≡ (created virt path factor (core_of self.old)).repositories }
        ensures entry { self.new.repositories ≡ (with_created (found (core_of self.old)
            creation.entry.virt creation.entry.path) creation.entry
            (core_of self.old)).repositories }
        ensures storages { self.new.storages ≡ self.old.storages }
    {
        self.ready = Ready::Nothing;
        let Creation { repo, entry, .. } = creation;
        let number = repo.0 as usize;
        if number < self.repositories.len() {
            self.repositories[number] = entry;
        } else {
            self.repositories.push_reserved(entry);
        }
    }

    /// The replica on a storage was made under this lease.
    pub fn enrol(&mut self, repo: RepoId, storage: StorageId, lease: Lease) -> Result<(), Refusal>
        ensures ok { OnOk result (Becomes repo.0 (with_replica_on storage.0 enrolled)
            self.old self.new) }
        ensures accepted { OnOk result (enrol_refusal (core_of self.old) (on_book self.old repo.0)
            storage.0 lease ≡ None) }
        ensures refused { IfErr result (λ why. enrol_refusal (core_of self.old)
            (on_book self.old repo.0) storage.0 lease ≡ Some why) }
        ensures err { OnErr result (self.new ≡ self.old) }
    {
        self.has_place(repo, storage)?;
        self.repositories[repo.0 as usize].enrol(storage, lease)
    }

    /// What the replica on a storage holds is a new generation, under a lease that fenced its node.
    /// Whether a push has the turn is not known here.
    pub fn accept(&mut self, repo: RepoId, storage: StorageId, lease: Lease) -> Result<Gen, Refusal>
        ensures ok { OnOk result (Becomes repo.0 (accepted storage.0) self.old self.new) }
        ensures value { IfOk result (λ newest. IfSome (on_book self.old repo.0)
            (λ before. newest.0 ≡ before.newest + 1)) }
        ensures accepted { OnOk result (accept_refusal (core_of self.old) repo.0
            (on_book self.old repo.0) storage.0 lease ≡ None) }
        ensures refused { IfErr result (λ why. accept_refusal (core_of self.old) repo.0
            (on_book self.old repo.0) storage.0 lease ≡ Some why) }
        ensures err { OnErr result (self.new ≡ self.old) }
    {
        self.has_place(repo, storage)?;
        self.repositories[repo.0 as usize].accept(storage, lease)
    }

    /// A doubt ends, by the last lease that its node committed under.
    pub fn settle(
        &mut self,
        repo: RepoId,
        storage: StorageId,
        lease: Lease,
        last: Option<Lease>,
    ) -> Result<(), Refusal>
        ensures ok { OnOk result (Becomes repo.0 (with_replica_on storage.0 (settled last))
            self.old self.new) }
        ensures accepted { OnOk result (settle_refusal (core_of self.old) (on_book self.old repo.0)
            storage.0 lease ≡ None) }
        ensures refused { IfErr result (λ why. settle_refusal (core_of self.old)
            (on_book self.old repo.0) storage.0 lease ≡ Some why) }
        ensures err { OnErr result (self.new ≡ self.old) }
    {
        self.has_place(repo, storage)?;
        self.repositories[repo.0 as usize].settle(storage, lease, last)
    }

    /// Draws a lease for a replica that is to be accepted. Whether a push has the turn is not known
    /// here.
    pub fn draw_to_accept(&mut self, repo: RepoId, storage: StorageId) -> Result<Lease, Refusal>
        ensures ok { OnOk result (Becomes repo.0 (with_lease_for storage.0) self.old self.new) }
        ensures value { IfOk result (λ lease. IfSome (on_book self.old repo.0)
            (λ before. lease ≡ before.last + 1)) }
        ensures accepted { OnOk result (accept_begin_refusal (core_of self.old) repo.0
            (on_book self.old repo.0) storage.0 ≡ None) }
        ensures refused { IfErr result (λ why. accept_begin_refusal (core_of self.old) repo.0
            (on_book self.old repo.0) storage.0 ≡ Some why) }
        ensures err { OnErr result (self.new ≡ self.old) }
    {
        self.has_place(repo, storage)?;
        self.repositories[repo.0 as usize].draw_to_accept(storage)
    }

    /// Draws a lease for a replica that is to be settled. Whether a push has the turn is not known
    /// here.
    pub fn draw_to_settle(&mut self, repo: RepoId, storage: StorageId) -> Result<Lease, Refusal>
        ensures ok { OnOk result (Becomes repo.0 (with_lease_for storage.0) self.old self.new) }
        ensures value { IfOk result (λ lease. IfSome (on_book self.old repo.0)
            (λ before. lease ≡ before.last + 1)) }
        ensures accepted { OnOk result (settle_begin_refusal (core_of self.old) repo.0
            (on_book self.old repo.0) storage.0 ≡ None) }
        ensures refused { IfErr result (λ why. settle_begin_refusal (core_of self.old) repo.0
            (on_book self.old repo.0) storage.0 ≡ Some why) }
        ensures err { OnErr result (self.new ≡ self.old) }
    {
        self.has_place(repo, storage)?;
        self.repositories[repo.0 as usize].draw_to_settle(storage)
    }

    /// Draws a lease for the replica on one storage.
    pub fn draw_for(&mut self, repo: RepoId, storage: StorageId) -> Result<Lease, Refusal>
        requires { Has self.old repo.0 }
        ensures ok { OnOk result (Becomes repo.0 (with_lease_for storage.0) self.old self.new) }
        ensures value { IfOk result (λ lease. IfSome (on_book self.old repo.0)
            (λ before. lease ≡ before.last + 1)) }
        ensures accepted { OnOk result (IfSome (on_book self.old repo.0)
            (λ before. leases_spent before.last ≡ None)) }
        ensures refused { IfErr result (λ why. IfSome (on_book self.old repo.0)
            (λ before. leases_spent before.last ≡ Some why)) }
        ensures err { OnErr result (self.new ≡ self.old) }
    {
        self.repositories[repo.0 as usize].draw_for(storage)
    }

    /// Draws one lease for the members of a push, the first of which is kept as its primary.
    pub fn draw_for_members(
        &mut self,
        repo: RepoId,
        members: &[StorageId],
    ) -> Result<Lease, Refusal>
        requires { Has self.old repo.0 }
        ensures ok { OnOk result (BeginsFor members.now repo.0 self.old self.new) }
        ensures value { IfOk result (λ lease. IfSome (on_book self.old repo.0)
            (λ before. lease ≡ before.last + 1)) }
        ensures accepted { OnOk result (IfSome (on_book self.old repo.0)
            (λ before. leases_spent before.last ≡ None)) }
        ensures refused { IfErr result (λ why. IfSome (on_book self.old repo.0)
            (λ before. leases_spent before.last ≡ Some why)) }
        ensures err { OnErr result (self.new ≡ self.old) }
    {
        self.repositories[repo.0 as usize].draw_for_members(members)
    }

    /// A push under this lease is decided: newest rises, and these storages, which are told to commit,
    /// are in doubt. Answers the newest generation.
    pub fn decide(&mut self, repo: RepoId, lease: Lease, told: &[StorageId]) -> Gen
        requires known { Has self.old repo.0 }
        requires left { IfSome (on_book self.old repo.0) (λ before. before.newest < 2 ^ 64 - 1) }
        ensures ok { DecidesOn lease told.now repo.0 self.old self.new }
        ensures value { IfSome (on_book self.old repo.0)
            (λ before. result.0 ≡ before.newest + 1) }
    {
        self.repositories[repo.0 as usize].decide(lease, told)
    }

    /// A storage voted after the decision of the push under this lease, and is told to commit.
    pub fn tell_late(&mut self, repo: RepoId, lease: Lease, storage: StorageId)
        requires { Has self.old repo.0 }
        ensures { CameLateOn lease storage.0 repo.0 self.old self.new }
    {
        self.repositories[repo.0 as usize].tell_late(lease, storage);
    }

    /// A storage committed what it was told to under this lease.
    pub fn confirm(&mut self, repo: RepoId, lease: Lease, storage: StorageId)
        requires { Has self.old repo.0 }
        ensures { Becomes repo.0 (with_replica_on storage.0 (confirmed lease)) self.old self.new }
    {
        self.repositories[repo.0 as usize].confirm(lease, storage);
    }

    /// The replica on a storage is booked so: where it was brought up to date, or is to be deleted.
    pub fn book(&mut self, repo: RepoId, storage: StorageId, booking: Booking)
        requires { Has self.old repo.0 }
        ensures { Becomes repo.0 (with_replica_on storage.0 (booked booking)) self.old self.new }
    {
        self.repositories[repo.0 as usize].book(storage, booking);
    }

    /// Exactly these storages, which stand by number, are assigned. Takes no memory.
    pub fn assign(&mut self, repo: RepoId, storages: &[StorageId])
        requires known { Has self.old repo.0 }
        requires ascending { AreAscending (numbers_of storages.now) }
        ensures { Becomes repo.0 (assigned_to (numbers_of storages.now)) self.old self.new }
    {
        self.repositories[repo.0 as usize].assign(storages);
    }

    /// What is recorded of a repository is this now, as a copy of it that was changed has it. Takes
    /// no memory.
    pub fn put(&mut self, repo: RepoId, entry: Repository)
        requires known { Has self.old repo.0 }
        requires named { IfSome (on_book self.old repo.0) (λ before. IsNamedAs before entry) }
        ensures { core_of self.new ≡ with_repository repo.0 entry (core_of self.old) }
    {
        self.repositories[repo.0 as usize] = entry;
    }

    /// What is recorded of a repository.
    pub fn repository(&self, repo: RepoId) -> Option<&Repository>
        ensures value { option_copied result ≡ on_book self.now repo.0 }
        ensures few { IfSome result (λ _. repo.0 < 100000) }
    {
        self.repositories.get(repo.0 as usize)
    }

    /// The name of a storage, where there is one of that number.
    pub fn known_name(&self, storage: StorageId) -> Option<StorageName>
        ensures { result ≡ known_name (core_of self.now) storage.0 }
    {
        match self.storages.get(storage.0 as usize) {
            Some(storage) => Some(storage.name),
            None => None,
        }
    }

    /// The repository is on the book, and has a replica on the storage.
    pub fn has_place(&self, repo: RepoId, storage: StorageId) -> Result<(), Refusal>
        ensures accepted { OnOk result (place_refusal (core_of self.now) (on_book self.now repo.0)
            storage.0 ≡ None) }
        ensures refused { IfErr result (λ why. place_refusal (core_of self.now)
            (on_book self.now repo.0) storage.0 ≡ Some why) }
        ensures within { OnOk result (Has self.now repo.0) }
    {
        match self.repositories.get(repo.0 as usize) {
            Some(repository) => self.has_replica(repository, storage),
            None => Err(Refusal::UnknownRepo),
        }
    }

    fn has_replica(&self, repository: &Repository, storage: StorageId) -> Result<(), Refusal>
        ensures accepted { OnOk result (unknown_storage (core_of self.now) repository.now storage.0
            ≡ None) }
        ensures refused { IfErr result (λ why. unknown_storage (core_of self.now) repository.now
            storage.0 ≡ Some why) }
    {
        match repository.replica(storage) {
            Some(_) => Ok(()),
            None => Err(Refusal::UnknownStorage(self.known_name(storage))),
        }
    }

    // Whether an admission is refused.
    fn may_admit(
        &self,
        virt: &StorageName,
        name: &StorageName,
        storages: usize,
    ) -> Result<(), Refusal>
        requires { storages ≡ length (storages_of self.now.storages virt.now) }
        ensures accepted { OnOk result (admit_refusal (core_of self.now) virt.now name.now ≡ None) }
        ensures refused { IfErr result (λ why. admit_refusal (core_of self.now) virt.now name.now
            ≡ Some why) }
        ensures new { OnOk result (first_of (places_of (has_name name.now) self.now.storages)
            ≡ None) }
        ensures left { OnOk result (length self.now.storages < 2 ^ 32 - 1) }
    {
        if let Some(number) = storage_named(&self.names, &self.storages, name) {
            return Err(Refusal::StorageExists(StorageId(number)));
        }
        if storages >= MAX_STORAGES || self.storages.len() >= u32::MAX as usize {
            return Err(Refusal::TooManyStorages);
        }
        Ok(())
    }

    // Takes the memory of a new storage, so that it is ready to come.
    fn make_storage_ready(&mut self, name: &StorageName) -> Result<(), AllocError>
        requires new { first_of (places_of (has_name name.now) self.old.storages) ≡ None }
        requires left { length self.old.storages < 2 ^ 32 - 1 }
        ensures same { core_of self.new ≡ core_of self.old }
        ensures ready { OnOk result (self.new.ready ≡ ready.Storage name.now) }
    {
        self.ready = Ready::Nothing;
        self.storages.reserve(1)?;
        put_name(&mut self.names, name, self.storages.len() as u32)?;
        self.ready = Ready::Storage { name: *name };
        Ok(())
    }

    // Whether a creation is refused for another cause than that no lease is left.
    fn may_create(
        &self,
        virt: &StorageName,
        path: &RepoPath,
        factor: u32,
        storages: usize,
        known: Option<u32>,
    ) -> Result<(), Refusal>
        requires count { storages ≡ length (storages_of self.now.storages virt.now) }
        requires few { storages < 2 ^ 32 }
        requires known { known ≡ found (core_of self.now) virt.now path.now }
        ensures accepted { OnOk result (create_refusal (core_of self.now) virt.now path.now factor
            ≡ leases_spent (before_create (core_of self.now) virt.now path.now).last) }
        ensures refused { IfErr result (λ why. create_refusal (core_of self.now) virt.now path.now
            factor ≡ Some why) }
        ensures factor { OnOk result (factor ≤ storages) }
        ensures left { OnOk result (number_for (core_of self.now) virt.now path.now < 100000) }
    {
        if storages == 0 {
            return Err(Refusal::UnknownVirtual(*virt));
        }
        self.is_blank_at(known)?;
        if factor as usize > storages {
            return Err(Refusal::BadFactor(storages as u32));
        }
        if self.number_for(known) >= MAX_REPOSITORIES {
            return Err(Refusal::TooManyRepositories);
        }
        Ok(())
    }

    // Nothing is known of the repository of this number, or there is none.
    fn is_blank_at(&self, known: Option<u32>) -> Result<(), Refusal>
        ensures accepted { OnOk result (exists_as (core_of self.now) known ≡ None) }
        ensures refused { IfErr result (λ why. exists_as (core_of self.now) known ≡ Some why) }
    {
        let Some(number) = known else {
            return Ok(());
        };
        match self.repositories.get(number as usize) {
            Some(repository) => is_blank_or_exists(repository, number),
            None => Ok(()),
        }
    }

    // The number that is known, or the next one.
    fn number_for(&self, known: Option<u32>) -> usize
        ensures { result ≡ unwrap_or known (length self.now.repositories) }
    {
        match known {
            Some(number) => number as usize,
            None => self.repositories.len(),
        }
    }

    // A copy of the repository of a number, or what a new one is before its creation.
    fn before_create(
        &self,
        alloc: Global,
        number: usize,
        virt: &StorageName,
        path: &RepoPath,
        storages: &[StorageId],
    ) -> Result<Repository, AllocError>
        requires { numbers_of storages.now ≡ storages_of self.now.storages virt.now }
        ensures { IfOk result (λ before. before ≡ unwrap_or (on_book self.now number)
            (unmade (core_of self.now) virt.now path.now)) }
    {
        match self.repositories.get(number) {
            Some(repository) => repository.copy(alloc),
            None => unmade(alloc, virt, path, storages),
        }
    }

    // Takes the memory of a repository that is new, so that it is ready to come.
    fn make_ready(
        &mut self,
        alloc: Global,
        known: Option<u32>,
        virt: &StorageName,
        path: &RepoPath,
    ) -> Result<(), AllocError>
        requires known { known ≡ found (core_of self.old) virt.now path.now }
        requires left { unwrap_or known (length self.old.repositories) < 100000 }
        ensures same { core_of self.new ≡ core_of self.old }
        ensures ready { OnOk result (IsReadyFor known virt.now path.now self.new.ready) }
    {
        match known {
            Some(_) => Ok(()),
            None => self.make_new_ready(alloc, virt, path),
        }
    }

    fn make_new_ready(
        &mut self,
        alloc: Global,
        virt: &StorageName,
        path: &RepoPath,
    ) -> Result<(), AllocError>
        requires new { found (core_of self.old) virt.now path.now ≡ None }
        requires left { length self.old.repositories < 100000 }
        ensures same { core_of self.new ≡ core_of self.old }
        ensures ready { OnOk result (self.new.ready ≡ ready.Repository virt.now path.now) }
    {
        self.ready = Ready::Nothing;
        let key = path.copy(alloc)?;
        let path = path.copy(alloc)?;
        self.repositories.reserve(1)?;
        put(
            alloc,
            &mut self.paths,
            virt,
            key,
            self.repositories.len() as u32,
        )?;
        self.ready = Ready::Repository { virt: *virt, path };
        Ok(())
    }
}

// Nothing is known of the repository, so that it may be created again.
fn is_blank_or_exists(repository: &Repository, number: u32) -> Result<(), Refusal>
    ensures accepted { OnOk result (cause (not (is_blank repository.now))
        (refusal.Exists (repo_id number)) ≡ None) }
    ensures refused { IfErr result (λ why. cause (not (is_blank repository.now))
        (refusal.Exists (repo_id number)) ≡ Some why) }
{
    if !repository.is_blank() {
        return Err(Refusal::Exists(RepoId(number)));
    }
    Ok(())
}
