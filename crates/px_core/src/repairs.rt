//! What an operator does by hand: what a replica holds is accepted, and a replica in doubt is
//! settled. None of it takes memory.

ghost use Rattle.std.specs.Prelude.{◌≡◌, ◌+◌, ℕ, None, Option, Some, IfErr, IfOk, IfSome, OnOk};
ghost use Rattle.px_ops.specs.declared.op.Op.TheVariants as op;
ghost use Rattle.px_cluster.specs.Core.{repository};
ghost use Rattle.px_cluster.specs.Ops.{next_core, refusal_of, reply_of};
ghost use Rattle.genbook.specs.Books.{on_book};
ghost use Rattle.px_core.specs.Repairs.{IsNextLease, booking_at, free_refusal};

use crate::Core;
use crate::replicas::{is_acceptable, is_settleable, lease_to_accept, lease_to_settle};
use genbook::Book;
use px_base::{Lease, RepoId, StorageId};
use px_ops::{Booking, Refusal, Reply};

impl Core {
    /// Draws a lease by which the node of a replica is fenced before what it holds is accepted. A
    /// running job of the repository and storage goes. Refused are, in this order, `UnknownRepo`,
    /// `UnknownStorage`, `Turn`, `NotBooked`, `LeasesSpent` and `GenerationsSpent`.
    pub(crate) fn draw_to_accept(&mut self, repo: RepoId, storage: StorageId) -> Reply
        ensures reply { result ≡ reply_of self.old (op.AcceptBegin repo storage) }
        ensures state { self.new ≡ next_core self.old (op.AcceptBegin repo storage) }
    {
        if let Err(refusal) = self.next_to_accept(repo, storage) {
            return Reply::Refused(refusal);
        }
        self.queue.lift(repo, storage);
        match self.book.draw_to_accept(repo, storage) {
            Ok(lease) => Reply::Leased(lease),
            Err(_) => unreachable!(),
        }
    }

    /// What a replica holds is the newest generation from now on, under the lease by which its node
    /// was fenced. A running job of the repository and storage goes. Refused are, in this order,
    /// `UnknownRepo`, `UnknownStorage`, `Turn`, `LeaseLost`, `NotBooked` and `GenerationsSpent`.
    pub(crate) fn accept(&mut self, repo: RepoId, storage: StorageId, lease: Lease) -> Reply
        ensures reply { result ≡ reply_of self.old (op.Accept repo storage lease) }
        ensures state { self.new ≡ next_core self.old (op.Accept repo storage lease) }
    {
        if let Err(refusal) = self.may_accept(repo, storage, lease) {
            return Reply::Refused(refusal);
        }
        self.queue.lift(repo, storage);
        match self.book.accept(repo, storage, lease) {
            Ok(newest) => Reply::Accepted(newest),
            Err(_) => unreachable!(),
        }
    }

    /// Draws a lease by which the node of a replica is fenced before its doubt is settled. A running
    /// job of the repository and storage goes. Refused are, in this order, `UnknownRepo`,
    /// `UnknownStorage`, `Turn`, `NotInDoubt` and `LeasesSpent`.
    pub(crate) fn draw_to_settle(&mut self, repo: RepoId, storage: StorageId) -> Reply
        ensures reply { result ≡ reply_of self.old (op.SettleBegin repo storage) }
        ensures state { self.new ≡ next_core self.old (op.SettleBegin repo storage) }
    {
        if let Err(refusal) = self.next_to_settle(repo, storage) {
            return Reply::Refused(refusal);
        }
        self.queue.lift(repo, storage);
        match self.book.draw_to_settle(repo, storage) {
            Ok(lease) => Reply::Leased(lease),
            Err(_) => unreachable!(),
        }
    }

    /// A doubt ends by the last lease that its node committed under, as the node answered the fence
    /// under this lease. A running job of the repository and storage goes. Refused are, in this
    /// order, `UnknownRepo`, `UnknownStorage`, `LeaseLost` and `NotInDoubt`.
    pub(crate) fn settle(
        &mut self,
        repo: RepoId,
        storage: StorageId,
        lease: Lease,
        last: Option<Lease>,
    ) -> Reply
        ensures reply { result ≡ reply_of self.old (op.Settle repo storage lease last) }
        ensures state { self.new ≡ next_core self.old (op.Settle repo storage lease last) }
    {
        if let Err(refusal) = self.may_settle(repo, storage, lease) {
            return Reply::Refused(refusal);
        }
        self.queue.lift(repo, storage);
        match self.book.settle(repo, storage, lease, last) {
            Ok(()) => Reply::BookedIs(booking_at(&self.book, repo, storage)),
            Err(_) => unreachable!(),
        }
    }

    /// The lease that is drawn next for a replica that is to be accepted. `None` where that is
    /// refused.
    pub fn lease_to_accept(&self, repo: RepoId, storage: StorageId) -> Option<Lease>
        ensures { IsNextLease self.now repo.0 (refusal_of self.now (op.AcceptBegin repo storage))
            result }
    {
        match self.next_to_accept(repo, storage) {
            Ok(lease) => Some(lease),
            Err(_) => None,
        }
    }

    /// The lease that is drawn next for a replica that is to be settled. `None` where that is
    /// refused.
    pub fn lease_to_settle(&self, repo: RepoId, storage: StorageId) -> Option<Lease>
        ensures { IsNextLease self.now repo.0 (refusal_of self.now (op.SettleBegin repo storage))
            result }
    {
        match self.next_to_settle(repo, storage) {
            Ok(lease) => Some(lease),
            Err(_) => None,
        }
    }

    /// Nothing refuses to accept what a replica holds, under this lease. Else it is the first of
    /// `UnknownRepo`, `UnknownStorage`, `Turn`, `LeaseLost`, `NotBooked` and `GenerationsSpent` that
    /// holds.
    pub fn may_accept(&self, repo: RepoId, storage: StorageId, lease: Lease) -> Result<(), Refusal>
        ensures accepted { OnOk result (refusal_of self.now (op.Accept repo storage lease) ≡ None) }
        ensures refused { IfErr result (λ why.
            refusal_of self.now (op.Accept repo storage lease) ≡ Some why) }
    {
        self.is_free(repo, storage)?;
        match self.book.repository(repo) {
            Some(repository) => is_acceptable(repository, storage, lease),
            None => Err(Refusal::UnknownRepo),
        }
    }

    /// Nothing refuses to settle a replica under this lease, whatever its node committed last. Else
    /// it is the first of `UnknownRepo`, `UnknownStorage`, `LeaseLost` and `NotInDoubt` that holds.
    pub fn may_settle(&self, repo: RepoId, storage: StorageId, lease: Lease) -> Result<(), Refusal>
        ensures accepted { OnOk result ((last : Option ℕ)
            → refusal_of self.now (op.Settle repo storage lease last) ≡ None) }
        ensures refused { IfErr result (λ why. (last : Option ℕ)
            → refusal_of self.now (op.Settle repo storage lease last) ≡ Some why) }
    {
        self.book.has_place(repo, storage)?;
        match self.book.repository(repo) {
            Some(repository) => is_settleable(repository, storage, lease),
            None => Err(Refusal::UnknownRepo),
        }
    }

    // The lease that is drawn next for a replica that is to be accepted.
    fn next_to_accept(&self, repo: RepoId, storage: StorageId) -> Result<Lease, Refusal>
        ensures ok { IfOk result (λ lease. IfSome (repository self.now repo.0)
            (λ book. lease ≡ book.last + 1)) }
        ensures accepted { OnOk result (refusal_of self.now (op.AcceptBegin repo storage) ≡ None) }
        ensures refused { IfErr result (λ why.
            refusal_of self.now (op.AcceptBegin repo storage) ≡ Some why) }
    {
        self.is_free(repo, storage)?;
        match self.book.repository(repo) {
            Some(repository) => lease_to_accept(repository, storage),
            None => Err(Refusal::UnknownRepo),
        }
    }

    // The lease that is drawn next for a replica that is to be settled.
    fn next_to_settle(&self, repo: RepoId, storage: StorageId) -> Result<Lease, Refusal>
        ensures ok { IfOk result (λ lease. IfSome (repository self.now repo.0)
            (λ book. lease ≡ book.last + 1)) }
        ensures accepted { OnOk result (refusal_of self.now (op.SettleBegin repo storage) ≡ None) }
        ensures refused { IfErr result (λ why.
            refusal_of self.now (op.SettleBegin repo storage) ≡ Some why) }
    {
        self.is_free(repo, storage)?;
        match self.book.repository(repo) {
            Some(repository) => lease_to_settle(repository, storage),
            None => Err(Refusal::UnknownRepo),
        }
    }

    // The repository has a replica on the storage, and no push has its turn.
    fn is_free(&self, repo: RepoId, storage: StorageId) -> Result<(), Refusal>
        ensures accepted { OnOk result
            (free_refusal self.now repo.0 (repository self.now repo.0) storage.0 ≡ None) }
        ensures refused { IfErr result (λ why.
            free_refusal self.now repo.0 (repository self.now repo.0) storage.0 ≡ Some why) }
    {
        self.book.has_place(repo, storage)?;
        match self.turns.turn(repo) {
            Some(push) => Err(Refusal::Turn(push.tx())),
            None => Ok(()),
        }
    }
}

// What is booked of a replica.
fn booking_at(book: &Book, repo: RepoId, storage: StorageId) -> Booking
    ensures { result ≡ booking_at (on_book book.now repo.0) storage.0 }
{
    match book.repository(repo) {
        Some(repository) => repository.booking(storage),
        None => Booking::Absent,
    }
}
