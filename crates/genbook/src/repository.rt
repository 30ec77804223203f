//! What the book has of a repository, and each rule on it.

ghost use Rattle.std.specs.Prelude.{◌≡◌, ◌==◌, true, false, ◌+◌, ◌-◌, ◌<◌, ◌^◌, None, Some, IfOk, IfErr, IfSome, IfNone, OnOk, OnErr};
ghost use Rattle.std.specs.Option.{option_copied};
ghost use Rattle.px_ops.specs.declared.refusal.Refusal.TheVariants as refusal;
ghost use Rattle.px_cluster.specs.Book.{booking_on, has_replica_on, in_doubt, booked, kept_on, replica_on, with_lease_for, with_replica_on};
ghost use Rattle.px_cluster.specs.Casts.{confirmed};
ghost use Rattle.px_cluster.specs.Creating.{created_on, enrolled, is_at_path, is_blank, lease_lost};
ghost use Rattle.px_cluster.specs.Ids.{gen, storage_number};
ghost use Rattle.px_cluster.specs.Refusals.{generations_spent, leases_spent};
ghost use Rattle.px_cluster.specs.Repairs.{accepted, settled};
ghost use Rattle.genbook.specs.Calls.{accept_cause, accept_draw_cause, doubt_cause, enrol_cause, settle_cause, settle_draw_cause};
ghost use Rattle.genbook.specs.Changes.{AreAscending, assigned_to, numbers_of, unmade_with};
ghost use Rattle.genbook.specs.Books.{IsNamedAs};
ghost use Rattle.genbook.specs.Longer.{longer_for, with_longer};
ghost use Rattle.genbook.specs.Rules.{CameLate, Decides, DrawsForMembers};

use crate::replicas::{are_absent, assign, assign_under, change_on, change_on_each, replica_on};
use crate::{Change, Longer, Replica};
use px_base::{Gen, Lease, RepoPath, StorageId, StorageName};
use px_ops::{Booking, Refusal};
use std::alloc::{AllocError, Global};
use std::marker::Model;

/// What the book has of a repository: its newest generation, its leases, and a replica for each
/// storage of its virtual storage, in the order of their numbers. The replicas are those that it
/// was made with, and one more for each admission since. The type does not test them.
#[derive(Drop)]
pub struct Repository {
    virt: StorageName,
    path: RepoPath,
    newest: Gen,
    last: Lease,
    creation: Lease,
    primary: Option<StorageId>,
    replicas: Vec<Replica>,
}

impl Model for Repository {
    ghost use Rattle.px_cluster.specs.Book.{Repository as Recorded};
    ghost use Rattle.px_cluster.specs.Ids.{storage_number};

    ghost Value = { Recorded };

    ghost view = { λ r. record {
      virt = r.virt;
      path = r.path;
      newest = r.newest.0;
      last = r.last;
      creation = r.creation;
      primary = storage_number r.primary;
      replicas = r.replicas.items;
    } };
}

impl Repository {
    /// A repository before its first creation, with these replicas.
    pub fn unmade(
        virt: StorageName,
        path: RepoPath,
        no_lease: Lease,
        replicas: Vec<Replica>,
    ) -> Repository
        requires { no_lease ≡ 0 }
        ensures { result ≡ unmade_with virt path replicas.items }
    {
        Repository {
            virt,
            path,
            newest: Gen(0),
            last: no_lease,
            creation: no_lease,
            primary: None,
            replicas,
        }
    }

    /// A copy of it.
    pub fn copy(&self, alloc: Global) -> Result<Repository, AllocError>
        ensures { IfOk result (λ copied. copied ≡ self.now) }
    {
        let path = self.path.copy(alloc)?;
        let replicas = Vec::from_slice(alloc, &self.replicas)?;
        Ok(Repository {
            virt: self.virt,
            path,
            newest: self.newest,
            last: self.last,
            creation: self.creation,
            primary: self.primary,
            replicas,
        })
    }

    /// Draws one lease for the members of a push, the first of which is kept as its primary.
    pub fn draw_for_members(&mut self, members: &[StorageId]) -> Result<Lease, Refusal>
        ensures ok { OnOk result (DrawsForMembers members.now self.old self.new) }
        ensures named { IsNamedAs self.old self.new }
        ensures value { IfOk result (λ lease. lease ≡ self.old.last + 1) }
        ensures accepted { OnOk result (leases_spent self.old.last ≡ None) }
        ensures refused { IfErr result (λ why. leases_spent self.old.last ≡ Some why) }
        ensures err { OnErr result (self.new ≡ self.old) }
    {
        let lease = self.next_lease()?;
        self.last = lease;
        self.primary = members.first().copied();
        change_on_each(&mut self.replicas, members, &Change::Draw(lease));
        Ok(lease)
    }

    /// Draws a lease for the replica on one storage.
    pub fn draw_for(&mut self, storage: StorageId) -> Result<Lease, Refusal>
        ensures ok { OnOk result (self.new ≡ with_lease_for storage.0 self.old) }
        ensures value { IfOk result (λ lease. lease ≡ self.old.last + 1) }
        ensures accepted { OnOk result (leases_spent self.old.last ≡ None) }
        ensures refused { IfErr result (λ why. leases_spent self.old.last ≡ Some why) }
        ensures err { OnErr result (self.new ≡ self.old) }
    {
        let lease = self.next_lease()?;
        self.last = lease;
        change_on(&mut self.replicas, storage, &Change::Draw(lease));
        Ok(lease)
    }

    /// Draws a lease for a replica that is to be accepted.
    pub fn draw_to_accept(&mut self, storage: StorageId) -> Result<Lease, Refusal>
        ensures ok { OnOk result (self.new ≡ with_lease_for storage.0 self.old) }
        ensures value { IfOk result (λ lease. lease ≡ self.old.last + 1) }
        ensures accepted { OnOk result (accept_draw_cause self.old storage.0 ≡ None) }
        ensures refused { IfErr result (λ why. accept_draw_cause self.old storage.0 ≡ Some why) }
        ensures err { OnErr result (self.new ≡ self.old) }
    {
        if matches!(self.booking(storage), Booking::Absent) {
            return Err(Refusal::NotBooked);
        }
        let lease = self.next_lease()?;
        if self.newest.0 == u64::MAX {
            return Err(Refusal::GenerationsSpent);
        }
        self.last = lease;
        change_on(&mut self.replicas, storage, &Change::Draw(lease));
        Ok(lease)
    }

    /// Draws a lease for a replica that is to be settled.
    pub fn draw_to_settle(&mut self, storage: StorageId) -> Result<Lease, Refusal>
        ensures ok { OnOk result (self.new ≡ with_lease_for storage.0 self.old) }
        ensures value { IfOk result (λ lease. lease ≡ self.old.last + 1) }
        ensures accepted { OnOk result (settle_draw_cause self.old storage.0 ≡ None) }
        ensures refused { IfErr result (λ why. settle_draw_cause self.old storage.0 ≡ Some why) }
        ensures err { OnErr result (self.new ≡ self.old) }
    {
        if !matches!(self.booking(storage), Booking::Doubt { .. }) {
            return Err(Refusal::NotInDoubt);
        }
        self.draw_for(storage)
    }

    /// Draws the lease of its creation for the storages that are assigned from now on.
    pub fn create_on(&mut self, storages: &[StorageId]) -> Result<Lease, Refusal>
        ensures ok { OnOk result (self.new ≡ created_on (numbers_of storages.now) self.old) }
        ensures value { IfOk result (λ lease. lease ≡ self.old.last + 1) }
        ensures accepted { OnOk result (leases_spent self.old.last ≡ None) }
        ensures refused { IfErr result (λ why. leases_spent self.old.last ≡ Some why) }
        ensures err { OnErr result (self.new ≡ self.old) }
    {
        let lease = self.next_lease()?;
        self.last = lease;
        self.creation = lease;
        assign_under(&mut self.replicas, storages, lease);
        Ok(lease)
    }

    /// A push under this lease is decided: newest rises, and these storages, which are told to commit,
    /// are in doubt. Answers the newest generation.
    pub fn decide(&mut self, lease: Lease, told: &[StorageId]) -> Gen
        requires { self.old.newest < 2 ^ 64 - 1 }
        ensures ok { Decides lease told.now self.old self.new }
        ensures named { IsNamedAs self.old self.new }
        ensures value { result.0 ≡ self.new.newest }
        ensures rises { result.0 ≡ self.old.newest + 1 }
    {
        let due = Gen(self.newest.0 + 1);
        self.newest = due;
        change_on_each(&mut self.replicas, told, &Change::Tell { lease, due });
        due
    }

    /// A storage voted after the decision of the push under this lease, and is told to commit.
    pub fn tell_late(&mut self, lease: Lease, storage: StorageId)
        ensures ok { CameLate lease storage.0 self.old self.new }
        ensures named { IsNamedAs self.old self.new }
    {
        let due = self.newest;
        change_on(&mut self.replicas, storage, &Change::Tell { lease, due });
    }

    /// A storage committed what it was told to under this lease.
    pub fn confirm(&mut self, lease: Lease, storage: StorageId)
        ensures { self.new ≡ with_replica_on storage.0 (confirmed lease) self.old }
    {
        change_on(&mut self.replicas, storage, &Change::Confirm(lease));
    }

    /// The replica on a storage was made under this lease.
    pub fn enrol(&mut self, storage: StorageId, lease: Lease) -> Result<(), Refusal>
        ensures ok { OnOk result (self.new ≡ with_replica_on storage.0 enrolled self.old) }
        ensures accepted { OnOk result (enrol_cause self.old storage.0 lease ≡ None) }
        ensures refused { IfErr result (λ why. enrol_cause self.old storage.0 lease ≡ Some why) }
        ensures err { OnErr result (self.new ≡ self.old) }
    {
        self.has_kept(storage, lease)?;
        if self.creation != lease {
            return Err(Refusal::NotMaking);
        }
        change_on(&mut self.replicas, storage, &Change::Enrol);
        Ok(())
    }

    /// What the replica on a storage holds is a new generation, under a lease that fenced its node.
    pub fn accept(&mut self, storage: StorageId, lease: Lease) -> Result<Gen, Refusal>
        ensures ok { OnOk result (self.new ≡ accepted storage.0 self.old) }
        ensures value { IfOk result (λ newest. newest.0 ≡ self.old.newest + 1) }
        ensures accepted { OnOk result (accept_cause self.old storage.0 lease ≡ None) }
        ensures refused { IfErr result (λ why. accept_cause self.old storage.0 lease ≡ Some why) }
        ensures err { OnErr result (self.new ≡ self.old) }
    {
        self.has_kept(storage, lease)?;
        if matches!(self.booking(storage), Booking::Absent) {
            return Err(Refusal::NotBooked);
        }
        if self.newest.0 == u64::MAX {
            return Err(Refusal::GenerationsSpent);
        }
        let newest = Gen(self.newest.0 + 1);
        self.newest = newest;
        change_on(
            &mut self.replicas,
            storage,
            &Change::Book(Booking::At(newest)),
        );
        Ok(newest)
    }

    /// A doubt ends, by the last lease that its node committed under.
    pub fn settle(
        &mut self,
        storage: StorageId,
        lease: Lease,
        last: Option<Lease>,
    ) -> Result<(), Refusal>
        ensures ok { OnOk result (self.new ≡ with_replica_on storage.0 (settled last) self.old) }
        ensures accepted { OnOk result (settle_cause self.old storage.0 lease ≡ None) }
        ensures refused { IfErr result (λ why. settle_cause self.old storage.0 lease ≡ Some why) }
        ensures err { OnErr result (self.new ≡ self.old) }
    {
        self.has_kept(storage, lease)?;
        self.may_settle(storage, lease)?;
        change_on(&mut self.replicas, storage, &Change::Settle(last));
        Ok(())
    }

    /// The replica on a storage is booked so: where it was brought up to date, or is to be deleted.
    pub fn book(&mut self, storage: StorageId, booking: Booking)
        ensures { self.new ≡ with_replica_on storage.0 (booked booking) self.old }
    {
        change_on(&mut self.replicas, storage, &Change::Book(booking));
    }

    /// Exactly these storages, which stand by number, are assigned. Takes no memory.
    pub fn assign(&mut self, storages: &[StorageId])
        requires { AreAscending (numbers_of storages.now) }
        ensures { self.new ≡ assigned_to (numbers_of storages.now) self.old }
    {
        assign(&mut self.replicas, storages);
    }

    /// What is booked of the replica on a storage.
    pub fn booking(&self, storage: StorageId) -> Booking
        ensures { result ≡ booking_on self.now storage.0 }
    {
        match self.replica(storage) {
            Some(replica) => replica.booking,
            None => Booking::Absent,
        }
    }

    /// The replica on a storage, where that is one of the virtual storage.
    pub fn replica(&self, storage: StorageId) -> Option<&Replica>
        ensures { option_copied result ≡ replica_on self.now storage.0 }
    {
        replica_on(&self.replicas, storage)
    }

    /// The replicas that it has once this storage of this virtual storage is admitted.
    pub(crate) fn longer(
        &self,
        alloc: Global,
        virt: &StorageName,
        storage: StorageId,
    ) -> Result<Longer, AllocError>
        ensures { IfOk result (λ longer. longer ≡ longer_for virt.now storage.0 self.now) }
    {
        if self.virt.as_bytes() != virt.as_bytes() {
            return Ok(Longer::same());
        }
        let mut replicas = Vec::with_capacity(alloc, self.replicas.len() + 1)?;
        replicas.extend_from_slice(&self.replicas)?;
        replicas.push(Replica::unrecorded(storage, no_lease()))?;
        Ok(Longer::of(replicas))
    }

    /// It has these replicas now, where they are others.
    pub(crate) fn lengthen(&mut self, longer: Longer)
        ensures { self.new ≡ with_longer longer self.old }
    {
        if let Some(replicas) = longer.replicas() {
            self.replicas = replicas;
        }
    }

    /// Whether nothing is known of any of its replicas, so that it may be created again.
    pub fn is_blank(&self) -> bool
        ensures { result ≡ is_blank self.now }
    {
        are_absent(&self.replicas)
    }

    /// Its replicas, by the numbers of the storages.
    pub fn replicas(&self) -> &[Replica]
        ensures { result.now ≡ self.now.replicas }
    {
        &self.replicas
    }

    /// Whether it is that of a virtual storage and a path.
    pub fn is_at(&self, virt: &StorageName, path: &RepoPath) -> bool
        ensures { result ≡ is_at_path virt.now path.now self.now }
    {
        self.virt.as_bytes() == virt.as_bytes() && self.path.as_bytes() == path.as_bytes()
    }

    /// Its virtual storage.
    pub fn virt(&self) -> StorageName
        ensures { result ≡ self.now.virt }
    {
        self.virt
    }

    /// Its path.
    pub fn path(&self) -> &RepoPath
        ensures { result.now ≡ self.now.path }
    {
        &self.path
    }

    /// The newest generation.
    pub fn newest(&self) -> Gen
        ensures { result.0 ≡ self.now.newest }
    {
        self.newest
    }

    /// The last lease that was drawn, 0 at first.
    pub fn last_lease(&self) -> Lease
        ensures { result ≡ self.now.last }
    {
        self.last
    }

    /// The lease that it was created under, 0 before.
    pub fn creation_lease(&self) -> Lease
        ensures { result ≡ self.now.creation }
    {
        self.creation
    }

    /// The primary of its last push.
    pub fn primary(&self) -> Option<StorageId>
        ensures { storage_number result ≡ self.now.primary }
    {
        self.primary
    }

    /// The last lease that was drawn for the replica on a storage, 0 where there is none.
    pub fn kept(&self, storage: StorageId) -> Lease
        ensures { result ≡ kept_on self.now storage.0 }
    {
        match self.replica(storage) {
            Some(replica) => replica.kept,
            None => no_lease(),
        }
    }

    // The lease is the last one that was drawn for the replica.
    fn has_kept(&self, storage: StorageId, lease: Lease) -> Result<(), Refusal>
        ensures accepted { OnOk result (lease_lost (kept_on self.now storage.0) lease ≡ None) }
        ensures refused { IfErr result (λ why. lease_lost (kept_on self.now storage.0) lease
            ≡ Some why) }
    {
        let kept = self.kept(storage);
        if kept != lease {
            return Err(Refusal::LeaseLost { kept, given: lease });
        }
        Ok(())
    }

    // The replica is in doubt, and not under this lease, under which its node may still commit.
    fn may_settle(&self, storage: StorageId, lease: Lease) -> Result<(), Refusal>
        ensures accepted { OnOk result (doubt_cause self.now storage.0 lease ≡ None) }
        ensures refused { IfErr result (λ why. doubt_cause self.now storage.0 lease ≡ Some why) }
    {
        match self.booking(storage) {
            Booking::Doubt { lease: under, .. } => self.is_another(storage, under, lease),
            Booking::Absent | Booking::At(_) => Err(Refusal::NotInDoubt),
        }
    }

    // The lease is another than that of the doubt, under which the node may still commit.
    fn is_another(&self, storage: StorageId, under: Lease, lease: Lease) -> Result<(), Refusal>
        ensures accepted { OnOk result ((under == lease) ≡ false) }
        ensures refused { IfErr result (λ why. ((under == lease) ≡ true)
            × (why ≡ refusal.LeaseLost (kept_on self.now storage.0) lease)) }
    {
        if under == lease {
            let kept = self.kept(storage);
            return Err(Refusal::LeaseLost { kept, given: lease });
        }
        Ok(())
    }

    // The lease after the last one that was drawn.
    fn next_lease(&self) -> Result<Lease, Refusal>
        ensures value { IfOk result (λ lease. lease ≡ self.now.last + 1) }
        ensures accepted { OnOk result (leases_spent self.now.last ≡ None) }
        ensures refused { IfErr result (λ why. leases_spent self.now.last ≡ Some why) }
    {
        match Lease::new(self.last.number() + 1) {
            Some(lease) => Ok(lease),
            None => Err(Refusal::LeasesSpent),
        }
    }
}

/// The number that stands where no lease was drawn.
pub(crate) fn no_lease() -> Lease
    ensures { result ≡ 0 }
{
    match Lease::new(0) {
        Some(lease) => lease,
        None => unreachable!(),
    }
}
