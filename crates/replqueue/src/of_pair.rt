//! Jobs of a repository and target that are in some state.

ghost use Rattle.std.specs.Prelude.{◌≡◌};
ghost use Rattle.px_cluster.specs.Jobs.{is_for};
ghost use Rattle.replqueue.specs.Search.{is_one};

use crate::changes::{holds_lock, is_dead, is_in_progress};
use crate::search::Test;
use px_base::{RepoId, StorageId};
use px_ops::{Job, JobState};

/// Which jobs of a repository and target are asked for.
#[derive(Clone, Copy, Debug, PartialEq, Eq)]
pub enum Which {
    /// Those that hold the lock.
    Locked,
    /// Those that are dead.
    Buried,
    /// Those that are in progress.
    Running,
}

/// Asks for jobs of a repository and target.
#[derive(Clone, Copy, Debug, PartialEq, Eq)]
pub struct OfPair {
    /// Which of them.
    pub which: Which,
    /// The repository.
    pub repo: RepoId,
    /// The target.
    pub target: StorageId,
}

impl Test for OfPair {
    ghost use Rattle.replqueue.specs.Search.{is_of};

    ghost asks = { is_of };

    fn passes(&self, job: &Job) -> bool {
        is_one(self.which, job.state) && is_for(self.repo, self.target, job)
    }
}

fn is_one(which: Which, state: JobState) -> bool
    ensures { result ≡ is_one which state }
{
    match which {
        Which::Locked => holds_lock(state),
        Which::Buried => is_dead(state),
        Which::Running => is_in_progress(state),
    }
}

fn is_for(repo: RepoId, target: StorageId, job: &Job) -> bool
    ensures { result ≡ is_for repo.0 target.0 job.now }
{
    job.repo.0 == repo.0 && job.target.0 == target.0
}
