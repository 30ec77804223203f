//! A repository, as its jobs are planned.

ghost use Rattle.std.specs.Prelude.{◌≡◌, Some};
ghost use Rattle.px_cluster.specs.Ids.{storage_number};
ghost use Rattle.px_cluster.specs.Jobs.{is_locked, sources_for};
ghost use Rattle.px_cluster.specs.Plan.{new_job, planned_at, update_from, wanted_at};
ghost use Rattle.px_cluster.specs.Numbers.{first_of};
ghost use Rattle.reconciler.specs.Listed.{jobs_of};
ghost use Rattle.reconciler.specs.Sites.{core_at};

use crate::Known;
use crate::bookings::{is_absent, is_newest};
use crate::sources::{are_assigned_newest, first_source};
use genbook::{Replica, Repository};
use px_base::{JobId, Lease, RepoId, StorageId};
use px_ops::{Job, JobKind, JobState};
use replqueue::Queue;

/// How often a new job may be taken.
const ATTEMPTS: u8 = 3;

/// A repository and its number, with all that is known.
#[derive(Drop)]
pub(crate) struct Site<'a> {
    pub(crate) known: Known<'a>,
    pub(crate) queue: &'a Queue,
    pub(crate) repo: RepoId,
    pub(crate) repository: &'a Repository,
}

impl<'a> Site<'a> {
    /// The job that is to be made for a replica: its storage is up, has no job of the repository
    /// yet, and is no member of the open push. It has no number yet. Takes no memory.
    pub(crate) fn planned_at(&self, replica: &Replica) -> Option<Job>
        ensures { jobs_of result
            ≡ planned_at (core_at self.now) self.now.repo.0 self.now.repository.now replica.now }
    {
        let storage = replica.storage;
        if !self.known.health.is_up(storage) {
            return None;
        }
        let job = self.wanted_at(replica)?;
        // Most replicas want none, and are not looked for in the queue and among the pushes.
        if self.is_locked(storage) || self.known.is_in_push(self.repo, storage) {
            return None;
        }
        Some(job)
    }

    // A job of the storage holds the lock.
    fn is_locked(&self, storage: StorageId) -> bool
        ensures { result ≡ is_locked (core_at self.now) self.now.repo.0 storage.0 }
    {
        self.queue.held(self.repo, storage).is_some()
    }

    // An assigned replica that is behind is brought up to date. One that is not assigned is deleted
    // once each assigned one is at the newest generation.
    fn wanted_at(&self, replica: &Replica) -> Option<Job>
        ensures { jobs_of result
            ≡ wanted_at (core_at self.now) self.now.repo.0 self.now.repository.now replica.now }
    {
        if replica.assigned {
            if is_newest(self.repository, replica) {
                return None;
            }
            return self.update_of(replica.storage);
        }
        if is_absent(replica.booking) || !are_assigned_newest(self.repository) {
            return None;
        }
        Some(self.new_job(JobKind::Delete, replica.storage, None))
    }

    fn update_of(&self, target: StorageId) -> Option<Job>
        ensures { jobs_of result ≡ update_from
            (first_of (sources_for (core_at self.now) self.now.repository.now target.0))
            self.now.repo.0 self.now.repository.now target.0 }
    {
        match first_source(self.repository, self.known.health, target) {
            Some(source) => Some(self.new_job(JobKind::Update, target, Some(source))),
            None => None,
        }
    }

    fn new_job(&self, kind: JobKind, target: StorageId, source: Option<StorageId>) -> Job
        ensures { result ≡ new_job kind self.now.repo.0 self.now.repository.now target.0
            (storage_number source) }
    {
        Job {
            number: JobId(0),
            kind,
            repo: self.repo,
            target,
            source,
            generation: self.repository.newest(),
            attempts: ATTEMPTS,
            state: JobState::Ready,
            beat: 0,
            lease: no_lease(),
        }
    }
}

fn no_lease() -> Lease
    ensures { result ≡ 0 }
{
    match Lease::new(0) {
        Some(lease) => lease,
        None => unreachable!(),
    }
}
