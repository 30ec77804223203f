//! Jobs whose workers were not heard of for too long.

use crate::changes::is_in_progress;
use crate::search::Test;
use px_ops::Job;

/// Asks for jobs in progress whose last beat is not after a time, and a silence at least before it.
#[derive(Clone, Copy, Debug, PartialEq, Eq)]
pub(crate) struct Stale {
    /// The time.
    pub(crate) time: u64,
    /// How long a worker may be silent.
    pub(crate) silence: u64,
}

impl Test for Stale {
    ghost use Rattle.px_cluster.specs.Jobs.{is_stale};

    ghost asks = { λ stale. is_stale stale.time stale.silence };

    fn passes(&self, job: &Job) -> bool {
        is_in_progress(job.state) && job.beat <= self.time && self.silence <= self.time - job.beat
    }
}
