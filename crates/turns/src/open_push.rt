//! A push that has the turn of its repository.

ghost use Rattle.std.specs.Prelude.{◌≡◌, false};
ghost use Rattle.genbook.specs.Changes.{numbers_of};
ghost use Rattle.turns.specs.Turns.{canceled, stopped};

use px_base::{Gen, Lease, RepoId, StorageId, TxId};
use std::marker::Model;

/// A push that has the turn of its repository: its transaction, the lease that was drawn for it,
/// the newest generation when it began, its members in the order of the panel, and whether its
/// transaction was canceled and stopped.
#[derive(Drop)]
pub struct OpenPush {
    tx: TxId,
    repo: RepoId,
    lease: Lease,
    begun: Gen,
    members: Vec<StorageId>,
    canceled: bool,
    stopped: bool,
}

impl Model for OpenPush {
    ghost use Rattle.genbook.specs.Changes.{numbers_of};
    ghost use Rattle.px_cluster.specs.Core.{OpenPush as Recorded};

    ghost Value = { Recorded };

    ghost view = { λ p. record {
      tx = p.tx;
      repo = p.repo.0;
      lease = p.lease;
      begun = p.begun.0;
      members = numbers_of p.members.items;
      canceled = p.canceled;
      stopped = p.stopped;
    } };
}

impl OpenPush {
    /// The push of a transaction, which begins now: neither canceled nor stopped.
    pub fn new(
        tx: TxId,
        repo: RepoId,
        lease: Lease,
        begun: Gen,
        members: Vec<StorageId>,
    ) -> OpenPush
        ensures { result ≡ record {
          tx = tx;
          repo = repo.0;
          lease = lease;
          begun = begun.0;
          members = numbers_of members.items;
          canceled = false;
          stopped = false;
        } }
    {
        OpenPush {
            tx,
            repo,
            lease,
            begun,
            members,
            canceled: false,
            stopped: false,
        }
    }

    /// Its transaction.
    pub fn tx(&self) -> TxId
        ensures { result ≡ self.now.tx }
    {
        self.tx
    }

    /// Its repository.
    pub fn repo(&self) -> RepoId
        ensures { result.0 ≡ self.now.repo }
    {
        self.repo
    }

    /// The lease that was drawn for it.
    pub fn lease(&self) -> Lease
        ensures { result ≡ self.now.lease }
    {
        self.lease
    }

    /// The newest generation when it began.
    pub fn begun(&self) -> Gen
        ensures { result.0 ≡ self.now.begun }
    {
        self.begun
    }

    /// Its members, in the order of the panel.
    pub fn members(&self) -> &[StorageId]
        ensures { numbers_of result.now ≡ self.now.members }
    {
        &self.members
    }

    /// Whether its transaction was canceled.
    pub fn is_canceled(&self) -> bool
        ensures { result ≡ self.now.canceled }
    {
        self.canceled
    }

    /// Whether its transaction was stopped.
    pub fn is_stopped(&self) -> bool
        ensures { result ≡ self.now.stopped }
    {
        self.stopped
    }

    /// Marks that its transaction was canceled.
    pub fn cancel(&mut self)
        ensures { self.new ≡ canceled self.old }
    {
        self.canceled = true;
    }

    /// Marks that its transaction was stopped.
    pub fn stop(&mut self)
        ensures { self.new ≡ stopped self.old }
    {
        self.stopped = true;
    }
}
