//! What a lease was drawn for at a storage.

ghost use Rattle.std.specs.Prelude.{◌≡◌, Some};
ghost use Rattle.std.specs.Option.{option_copied, option_map};
ghost use Rattle.px_cluster.specs.Ledger.{answered, fence_answer, is_committed, is_delete_of};
ghost use Rattle.px_cluster.specs.Ledger.{is_made, is_worked, snapshot_in, source_in, with_commit};
ghost use Rattle.px_cluster.specs.Ledger.{with_last, with_snapshot};
ghost use Rattle.issued.specs.Purposes.{number_of, purpose_drawn, purpose_of};

use node_calls::Snapshot;
use px_base::{Gen, JobId, Lease, StorageId};
use voters::Verdict;

/// What a lease was drawn for at a storage, and what is kept of it.
#[derive(Drop)]
pub enum Purpose {
    /// The creation of a replica.
    Creation {
        /// Whether the node answered that it made the replica.
        made: bool,
    },
    /// A push.
    Push {
        /// The newest generation when the push began.
        begun: Gen,
        /// The verdict by which the commit was issued, where it was.
        commit: Option<Verdict>,
        /// Whether the node answered the commit with a vote.
        answered: bool,
    },
    /// A job that brings the replica to what a source has.
    Update {
        /// The number of the job.
        job: JobId,
        /// The storage that it copies from.
        source: StorageId,
        /// The newest generation when the job was taken.
        generation: Gen,
        /// The snapshot of the source that is kept, where one was taken.
        snapshot: Option<Snapshot>,
        /// Whether the node answered that it applied a snapshot.
        answered: bool,
    },
    /// A job that removes the replica.
    Delete {
        /// The number of the job.
        job: JobId,
        /// Whether the node answered that it removed the replica.
        answered: bool,
    },
    /// A fence.
    Fence {
        /// What the node answered: the lease of the last push that it did, or `None` in this where
        /// it did none.
        answer: Option<Option<Lease>>,
    },
}

/// What a lease is drawn for, of which nothing is answered yet.
#[derive(Clone, Copy)]
pub(crate) enum Drawn {
    /// The creation of a replica.
    Creation,
    /// A push that begins at a newest generation.
    Push(Gen),
    /// A job that copies from a source what is newest.
    Update(JobId, StorageId, Gen),
    /// A job that removes the replica.
    Delete(JobId),
    /// A fence.
    Fence,
}

/// The purpose of a lease that is just drawn.
pub(crate) fn fresh(what: Drawn) -> Purpose
    ensures { purpose_of (Some result) ≡ purpose_drawn what }
{
    match what {
        Drawn::Creation => Purpose::Creation { made: false },
        Drawn::Push(begun) => Purpose::Push {
            begun,
            commit: None,
            answered: false,
        },
        Drawn::Update(job, source, generation) => Purpose::Update {
            job,
            source,
            generation,
            snapshot: None,
            answered: false,
        },
        Drawn::Delete(job) => Purpose::Delete {
            job,
            answered: false,
        },
        Drawn::Fence => Purpose::Fence { answer: None },
    }
}

/// The node answered. Of a fence nothing is kept by it.
pub(crate) fn keep_answer(kept: &mut Option<Purpose>)
    ensures { purpose_of kept.new ≡ answered (purpose_of kept.old) }
{
    match kept {
        Some(Purpose::Creation { made }) => *made = true,
        Some(Purpose::Push { answered, .. }) => *answered = true,
        Some(Purpose::Update { answered, .. }) => *answered = true,
        Some(Purpose::Delete { answered, .. }) => *answered = true,
        Some(Purpose::Fence { .. }) | None => {}
    }
}

/// The node answered a fence with the lease of the last push that it did.
pub(crate) fn keep_fence_answer(kept: &mut Option<Purpose>, last: Option<Lease>)
    ensures { purpose_of kept.new ≡ with_last last (purpose_of kept.old) }
{
    if let Some(Purpose::Fence { answer }) = kept {
        *answer = Some(last);
    }
}

/// The commit of a push is issued, by the verdict.
pub(crate) fn keep_commit(kept: &mut Option<Purpose>, verdict: &Verdict)
    ensures { purpose_of kept.new ≡ with_commit verdict.now.hash (purpose_of kept.old) }
{
    if let Some(Purpose::Push { commit, .. }) = kept {
        *commit = Some(*verdict);
    }
}

/// A snapshot for an update is kept, in the place of an older one.
pub(crate) fn keep_snapshot(kept: &mut Option<Purpose>, taken: Snapshot)
    ensures { purpose_of kept.new ≡ with_snapshot taken (purpose_of kept.old) }
{
    if let Some(Purpose::Update { snapshot, .. }) = kept {
        *snapshot = Some(taken);
    }
}

/// Whether it is a creation that the node answered.
pub(crate) fn is_made(kept: Option<&Purpose>) -> bool
    ensures { result ≡ is_made (purpose_of (option_copied kept.entry)) }
{
    match kept {
        Some(Purpose::Creation { made }) => *made,
        _ => false,
    }
}

/// Whether it is a push whose commit the node answered with a vote.
pub(crate) fn is_committed(kept: Option<&Purpose>) -> bool
    ensures { result ≡ is_committed (purpose_of (option_copied kept.entry)) }
{
    match kept {
        Some(Purpose::Push { answered, .. }) => *answered,
        _ => false,
    }
}

/// Whether the node answered that it did what this job asks.
pub(crate) fn is_worked(kept: Option<&Purpose>, number: JobId) -> bool
    ensures { result ≡ is_worked number.0 (purpose_of (option_copied kept.entry)) }
{
    match kept {
        Some(Purpose::Update { job, answered, .. } | Purpose::Delete { job, answered }) => {
            job.0 == number.0 && *answered
        }
        _ => false,
    }
}

/// Whether it is a removal of this job.
pub(crate) fn is_delete_of(kept: Option<&Purpose>, number: JobId) -> bool
    ensures { result ≡ is_delete_of number.0 (purpose_of (option_copied kept.entry)) }
{
    match kept {
        Some(Purpose::Delete { job, .. }) => job.0 == number.0,
        _ => false,
    }
}

/// The storage that an update of this job copies from.
pub(crate) fn source_in(kept: Option<&Purpose>, number: JobId) -> Option<StorageId>
    ensures { option_map number_of result
        ≡ source_in number.0 (purpose_of (option_copied kept.entry)) }
{
    match kept {
        Some(Purpose::Update { job, source, .. }) if job.0 == number.0 => Some(*source),
        _ => None,
    }
}

/// The snapshot that is kept for an update of this job.
pub(crate) fn snapshot_in(kept: Option<&Purpose>, number: JobId) -> Option<&Snapshot>
    ensures { option_copied result
        ≡ snapshot_in number.0 (purpose_of (option_copied kept.entry)) }
{
    match kept {
        Some(Purpose::Update { job, snapshot, .. }) if job.0 == number.0 => snapshot.as_ref(),
        _ => None,
    }
}

/// What the node answered to a fence.
pub(crate) fn fence_answer(kept: Option<&Purpose>) -> Option<Option<Lease>>
    ensures { result ≡ fence_answer (purpose_of (option_copied kept.entry)) }
{
    match kept {
        Some(Purpose::Fence { answer }) => *answer,
        _ => None,
    }
}
