//! The plan: a job for each replica that lags behind or is one too many.

ghost use Rattle.std.specs.Prelude.{◌≡◌, IfOk, None, OnOk};
ghost use Rattle.px_cluster.specs.Core.{repository};
ghost use Rattle.px_cluster.specs.Ids.{repo_number};
ghost use Rattle.px_cluster.specs.Plan.{all_planned, plan, planned_for, planned_in};
ghost use Rattle.reconciler.specs.Known.{core_with};
ghost use Rattle.reconciler.specs.Listed.{Adds};
ghost use Rattle.reconciler.specs.Sites.{core_at};

use crate::Known;
use crate::listed::Listed;
use crate::site::Site;
use px_base::{Items, RepoId};
use px_ops::Job;
use replqueue::Queue;
use std::alloc::{AllocError, Global};

/// The jobs that are to be made, of one repository or of all: of each repository by number, of each
/// replica by the number of its storage. Their numbers follow the last one that the queue gave, and
/// the plan is cut where those end. Nothing but the list takes memory.
pub fn plan(
    alloc: Global,
    known: &Known<'_>,
    queue: &Queue,
    only: Option<RepoId>,
) -> Result<Items<Job>, AllocError>
    ensures { IfOk result (λ jobs. jobs ≡ plan (core_with known.now queue.now) (repo_number only)) }
{
    let mut listed = Listed::new(alloc, queue.last());
    match only {
        Some(repo) => list_one(&mut listed, known, queue, repo)?,
        None => list_all(&mut listed, known, queue)?,
    }
    let Listed { jobs, .. } = listed;
    Ok(jobs)
}

// Lists what is planned of all repositories.
fn list_all(listed: &mut Listed, known: &Known<'_>, queue: &Queue) -> Result<(), AllocError>
    ensures { OnOk result (Adds (all_planned (core_with known.now queue.now) None) listed.old
        listed.new) }
{
    let mut number = 0;
    while let Some(repository) = known.book.repository(RepoId(number)) {
        list_for(
            listed,
            &Site {
                known: *known,
                queue,
                repo: RepoId(number),
                repository,
            },
        )?;
        number += 1;
    }
    Ok(())
}

// Lists what is planned of one repository, where there is one of this number.
fn list_one(
    listed: &mut Listed,
    known: &Known<'_>,
    queue: &Queue,
    repo: RepoId,
) -> Result<(), AllocError>
    ensures { OnOk result (Adds (planned_in (core_with known.now queue.now) repo.0
        (repository (core_with known.now queue.now) repo.0)) listed.old listed.new) }
{
    match known.book.repository(repo) {
        Some(repository) => list_for(
            listed,
            &Site {
                known: *known,
                queue,
                repo,
                repository,
            },
        ),
        None => Ok(()),
    }
}

fn list_for(listed: &mut Listed, site: &Site<'_>) -> Result<(), AllocError>
    ensures { OnOk result (Adds (planned_for (core_at site.now) site.now.repo.0
        site.now.repository.now) listed.old listed.new) }
{
    for replica in site.repository.replicas() {
        listed.add(site.planned_at(replica))?;
    }
    Ok(())
}
