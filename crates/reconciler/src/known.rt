//! What is known beside the queue: what is booked, which storages are up, and which pushes are open.

ghost use Rattle.std.specs.Prelude.{◌≡◌};
ghost use Rattle.px_cluster.specs.Core.{is_in_push};
ghost use Rattle.px_cluster.specs.Numbers.{is_one_of};
ghost use Rattle.reconciler.specs.Known.{core_of};

use crate::taking::taking;
use genbook::{Book, Health};
use px_base::{RepoId, StorageId};
use px_ops::Job;
use replqueue::{Facts, Taking};
use turns::{OpenPush, Turns};

/// What is known beside the queue.
#[derive(Clone, Copy, Drop)]
pub struct Known<'a> {
    /// What is recorded of each repository and of its replicas.
    pub book: &'a Book,
    /// Which storages are up.
    pub health: &'a Health,
    /// Which pushes have the turns of their repositories.
    pub turns: &'a Turns,
}

impl<'a> Known<'a> {
    /// Whether a storage is a member of the open push of a repository. Takes no memory.
    pub fn is_in_push(&self, repo: RepoId, storage: StorageId) -> bool
        ensures { result ≡ is_in_push (core_of self.now) repo.0 storage.0 }
    {
        match self.turns.turn(repo) {
            Some(push) => is_member(push, storage),
            None => false,
        }
    }
}

impl<'a> Facts for Known<'a> {
    ghost use Rattle.reconciler.specs.Known.{core_of};

    ghost core = { core_of };

    fn taking(&self, job: &Job) -> Option<Taking> {
        if self.is_in_push(job.repo, job.target) {
            return None;
        }
        match self.book.repository(job.repo) {
            Some(repository) => taking(repository, self.health, job),
            None => None,
        }
    }
}

fn is_member(push: &OpenPush, storage: StorageId) -> bool
    ensures { result ≡ is_one_of storage.0 push.now.members }
{
    push.members().iter().any(|member| member.0 == storage.0)
}
