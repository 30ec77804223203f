//! The repository and the target of each job that was ever taken, by its number.

ghost use Rattle.std.specs.Prelude.{◌≡◌, IsSome, OnOk, Some};
ghost use Rattle.std.specs.Option.{option_map};
ghost use Rattle.px_cluster.specs.Cluster.{with_value};
ghost use Rattle.issued.specs.Issued.{KeepsWorks, target_of, work_room_at, worked_of};

use crate::room::make_room;
use px_base::{JobId, RepoId, StorageId};
use std::alloc::AllocError;
use std::collections::BTreeMap;

/// The repository and the target of each job that there is room for, where that was taken. A job is
/// its number.
pub(crate) type Works = BTreeMap<u64, Option<(RepoId, StorageId)>>;

/// The repository and the target of a job.
pub(crate) fn work_of(works: &Works, job: JobId) -> Option<(RepoId, StorageId)>
    ensures { option_map target_of result ≡ worked_of works.now.entries job.0 }
{
    match works.get(&job.0) {
        Some(work) => *work,
        None => None,
    }
}

/// Makes room for a job.
pub(crate) fn reserve(works: &mut Works, job: JobId) -> Result<(), AllocError>
    ensures room { OnOk result (IsSome (work_room_at works.new.entries job.0)) }
    ensures others { KeepsWorks works.old.entries works.new.entries }
    ensures same { worked_of works.new.entries ≡ worked_of works.old.entries }
{
    make_room(works, job.0)
}

/// The job was taken, where there is room for it.
pub(crate) fn write(works: &mut Works, job: JobId, repo: RepoId, target: StorageId)
    requires { IsSome (work_room_at works.old.entries job.0) }
    ensures { worked_of works.new.entries ≡ with_value (worked_of works.old.entries) job.0
        (Some (target_of (repo, target))) }
{
    if let Some(work) = works.get_mut(&job.0) {
        *work = Some((repo, target));
    }
}
