//! The operations on pushes.

ghost use Rattle.std.specs.Prelude.{◌≡◌, ◌<◌, ◌-◌, ◌^◌, None, Some, IfErr, IfOk, IfSome, OnErr, OnOk};
ghost use Rattle.px_ops.specs.declared.op.Op.TheVariants as op;
ghost use Rattle.px_ops.specs.declared.reply.Reply.TheVariants as reply;
ghost use Rattle.px_cluster.specs.Core.{push_of, repository, voting};
ghost use Rattle.px_cluster.specs.Ids.{repo_id};
ghost use Rattle.px_cluster.specs.Members.{members, targets};
ghost use Rattle.px_cluster.specs.Ops.{next_core, reply_of};
ghost use Rattle.px_cluster.specs.Pushes.{begin_refusal, end_of, finish_refusal, finish_reply, is_still_open};
ghost use Rattle.px_cluster.specs.Refusals.{leases_spent, transactions_spent};
ghost use Rattle.genbook.specs.Books.{core_of};
ghost use Rattle.genbook.specs.Changes.{numbers_of};
ghost use Rattle.genbook.specs.Rules.{DrawsForMembers};
ghost use Rattle.px_core.specs.Beginning.{IsBeginning, IsPlan, IsPlanned, IsTold, spent};
ghost use Rattle.px_core.specs.Known.{AreKnown};
ghost use Rattle.px_core.specs.Steps.{Steps};

use crate::Core;
use crate::bookings::{committed_outcome, prepared_outcome};
use crate::fault::Fault;
use crate::names::{names_of, panel_of};
use genbook::{Book, Repository};
use px_base::{Gen, Lease, RepoId, StorageId, TxId};
use px_ops::{Begun, PushEnd, Refusal, Reply};
use router::{PushFault, PushRoute, may_push, route_push};
use std::alloc::{AllocError, Global};
use turns::OpenPush;
use txmanager::Transaction;
use voters::{Outcome, Panel};

/// A push that is to begin. It is worked out before anything changes.
#[derive(Drop)]
pub struct Beginning {
    /// What the book then has of its repository.
    pub entry: Repository,
    /// The push.
    pub push: OpenPush,
    /// Its members, as voters.
    pub panel: Panel,
    /// What is told of it.
    pub begun: Begun,
}

impl Core {
    /// Begins a push, which takes the turn of its repository. Refused are, in this order,
    /// `UnknownRepo`, `Turn`, `ReadOnly`, `LeasesSpent`, `GenerationsSpent` and
    /// `TransactionsSpent`.
    pub(crate) fn begin(&mut self, alloc: Global, repo: RepoId) -> Result<Reply, Fault>
        ensures { Steps self.old (op.Begin repo) result self.new }
    {
        self.may_begin(repo)?;
        let plan = self.plan_push(alloc, repo)?;
        match self.begin_as(alloc, plan) {
            Ok(reply) => Ok(reply),
            Err(_) => Err(Fault::Memory),
        }
    }

    /// Works out the push of a repository that would begin now; there is none where something
    /// refuses it. Nothing changes by it.
    pub fn plan_begin(&self, alloc: Global, repo: RepoId) -> Result<Option<Beginning>, AllocError>
        ensures { IfOk result (IsPlan self.now repo) }
    {
        match self.may_begin(repo) {
            Ok(()) => match self.plan_push(alloc, repo) {
                Ok(plan) => Ok(Some(plan)),
                Err(fault) => Err(fault),
            },
            Err(_) => Ok(None),
        }
    }

    /// Begins a push that was worked out for this core, as `step` does. Where memory wants for its
    /// rows in the tables of turns and transactions, nothing changes.
    pub fn begin_as(&mut self, alloc: Global, plan: Beginning) -> Result<Reply, AllocError>
        requires { IsPlanned self.old plan.push.repo plan }
        ensures reply { IfOk result (λ reply. reply
            ≡ reply_of self.old (op.Begin (repo_id plan.push.repo))) }
        ensures state { OnOk result (self.new
            ≡ next_core self.old (op.Begin (repo_id plan.push.repo))) }
        ensures turn { OnOk result (push_of self.new plan.push.tx ≡ Some plan.push) }
        ensures err { OnErr result (self.new ≡ self.old) }
    {
        let Beginning {
            entry,
            push,
            panel,
            begun,
        } = plan;
        let tx = begun.tx;
        let repo = push.repo();
        self.turns.begin(push)?;
        if self.votes.register(alloc, tx, &panel, 1).is_err() {
            self.turns.end(tx);
            return Err(AllocError);
        }
        self.last = tx.0;
        self.book.put(repo, entry);
        Ok(Reply::Begun(begun))
    }

    // Nothing refuses a push.
    fn may_begin(&self, repo: RepoId) -> Result<(), Refusal>
        ensures accepted { OnOk result
            (begin_refusal self.now repo.0 (repository self.now repo.0) ≡ None) }
        ensures refused { IfErr result (λ why.
            begin_refusal self.now repo.0 (repository self.now repo.0) ≡ Some why) }
    {
        let Some(repository) = self.book.repository(repo) else {
            return Err(Refusal::UnknownRepo);
        };
        if let Some(push) = self.turns.turn(repo) {
            return Err(Refusal::Turn(push.tx()));
        }
        match may_push(repository, &self.health) {
            Ok(()) => self.may_number(repository),
            Err(refusal) => Err(refusal),
        }
    }

    // A lease, a generation and the number of a transaction are left.
    fn may_number(&self, repository: &Repository) -> Result<(), Refusal>
        ensures accepted { OnOk result (spent repository.now self.now.last_tx ≡ None) }
        ensures refused { IfErr result (λ why. spent repository.now self.now.last_tx ≡ Some why) }
    {
        if repository.last_lease().number() >= u64::MAX - 1 {
            return Err(Refusal::LeasesSpent);
        }
        if repository.newest().0 == u64::MAX {
            return Err(Refusal::GenerationsSpent);
        }
        if self.last == u64::MAX {
            return Err(Refusal::TransactionsSpent);
        }
        Ok(())
    }

    // Takes the memory of a push that nothing refuses, but for that of its rows in the tables of
    // transactions and turns.
    fn plan_push(&self, alloc: Global, repo: RepoId) -> Result<Beginning, AllocError>
        requires { begin_refusal self.now repo.0 (repository self.now repo.0) ≡ None }
        ensures { IfOk result (λ plan. IfSome (repository self.now repo.0)
            (λ book. IsBeginning self.now repo.0 book plan)) }
    {
        let Some(repository) = self.book.repository(repo) else {
            unreachable!();
        };
        match route_push(alloc, repository, &self.health) {
            Ok(route) => self.plan_along(alloc, repo, repository, route),
            Err(PushFault::Memory) => Err(AllocError),
            Err(PushFault::Refused(_)) => unreachable!(),
        }
    }

    // Works a push out along its members and targets.
    fn plan_along(
        &self,
        alloc: Global,
        repo: RepoId,
        known: &Repository,
        route: PushRoute,
    ) -> Result<Beginning, AllocError>
        requires there { repository self.now repo.0 ≡ Some known.now }
        requires accepted { begin_refusal self.now repo.0 (Some known.now) ≡ None }
        requires members { numbers_of route.members.items ≡ members self.now known.now }
        requires targets { numbers_of route.targets.items ≡ targets self.now known.now }
        ensures { IfOk result (IsBeginning self.now repo.0 known.now) }
    {
        let begun = told(
            alloc,
            &self.book,
            self.last,
            known,
            &route.members,
            &route.targets,
        )?;
        let panel = panel_of(alloc, &self.book, &route.members)?;
        let entry = drawn(alloc, known, &route.members)?;
        let push = OpenPush::new(begun.tx, repo, begun.lease, known.newest(), route.members);
        Ok(Beginning {
            entry,
            push,
            panel,
            begun,
        })
    }

    /// Ends a push, and gives its turn back. Refused are, in this order, `UnknownTx`, `NotAPush`
    /// and `StillOpen`.
    pub(crate) fn finish(&mut self, tx: TxId) -> Reply
        ensures reply { result ≡ reply_of self.old (op.Finish tx) }
        ensures state { self.new ≡ next_core self.old (op.Finish tx) }
    {
        match self.end_of(tx) {
            Ok(end) => {
                let _ = self.votes.close(tx);
                self.turns.end(tx);
                Reply::Finished(end)
            }
            Err(refusal) => Reply::Refused(refusal),
        }
    }

    // How a push ends, where it does.
    fn end_of(&self, tx: TxId) -> Result<PushEnd, Refusal>
        ensures accepted { OnOk result
            (finish_refusal tx (voting self.now tx) (push_of self.now tx) ≡ None) }
        ensures ok { IfOk result (λ end. reply.Finished end
            ≡ finish_reply (voting self.now tx) (push_of self.now tx)) }
        ensures refused { IfErr result (λ why.
            finish_refusal tx (voting self.now tx) (push_of self.now tx) ≡ Some why) }
    {
        let Some(votes) = self.votes.get(tx) else {
            return Err(Refusal::UnknownTx(tx));
        };
        let Some(push) = self.turns.push(tx) else {
            return Err(Refusal::NotAPush);
        };
        if is_still_open(votes) {
            return Err(Refusal::StillOpen);
        }
        Ok(end_of(votes, push))
    }

    /// Who has the turn of a repository. Refused is `UnknownRepo`.
    pub(crate) fn holder(&self, repo: RepoId) -> Reply
        ensures { result ≡ reply_of self.now (op.Holder repo) }
    {
        match self.book.repository(repo) {
            Some(_) => Reply::HolderIs(self.turns.turn(repo).map(|push| push.tx())),
            None => Reply::Refused(Refusal::UnknownRepo),
        }
    }
}

// What is told of a push that begins with these members and targets.
fn told(
    alloc: Global,
    book: &Book,
    last: u64,
    known: &Repository,
    members: &[StorageId],
    targets: &[StorageId],
) -> Result<Begun, AllocError>
    requires known { AreKnown book.now.storages members.now }
    requires targets { AreKnown book.now.storages targets.now }
    requires lease { leases_spent known.now.last ≡ None }
    requires number { transactions_spent last ≡ None }
    ensures { IfOk result (IsTold (record (core_of book.now) { last_tx = last }) known.now
        (numbers_of members.now) (numbers_of targets.now)) }
{
    let Some(lease) = Lease::new(known.last_lease().number() + 1) else {
        unreachable!();
    };
    Ok(Begun {
        tx: TxId(last + 1),
        lease,
        generation: known.newest(),
        members: names_of(alloc, book, members)?,
        targets: names_of(alloc, book, targets)?,
    })
}

// The entry of a repository after the next lease was drawn for the members of a push.
fn drawn(
    alloc: Global,
    repository: &Repository,
    members: &[StorageId],
) -> Result<Repository, AllocError>
    requires { leases_spent repository.now.last ≡ None }
    ensures { IfOk result (λ entry. DrawsForMembers members.now repository.now entry) }
{
    let mut entry = repository.copy(alloc)?;
    match entry.draw_for_members(members) {
        Ok(_) => Ok(entry),
        Err(_) => unreachable!(),
    }
}

// The votes on what is prepared are open; or they commit, and those on what is committed are open.
fn is_still_open(votes: &Transaction) -> bool
    ensures { result ≡ is_still_open votes.now }
{
    match prepared_outcome(votes) {
        Outcome::Open => true,
        Outcome::Commit(_) => matches!(committed_outcome(votes), Outcome::Open),
        Outcome::Fail | Outcome::Stop => false,
    }
}

// How a push ends.
fn end_of(votes: &Transaction, push: &OpenPush) -> PushEnd
    requires { push.now.begun < 2 ^ 64 - 1 }
    ensures { result ≡ end_of votes.now push.now }
{
    let due = Gen(push.begun().0 + 1);
    match (prepared_outcome(votes), committed_outcome(votes)) {
        (Outcome::Commit(hash), Outcome::Commit(other)) if hash == other => PushEnd::Committed(due),
        (Outcome::Commit(_), _) => PushEnd::Unsure(due),
        _ if push.is_stopped() => PushEnd::Stopped,
        _ if push.is_canceled() => PushEnd::Canceled,
        _ => PushEnd::NoQuorum,
    }
}
