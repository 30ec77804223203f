//! The names of storages, what is told of planned jobs with them, and the panels that they make.

ghost use Rattle.std.specs.Prelude.{◌≡◌, ◌<◌, ◌≤◌, ◌==◌, ◌∷◌, false, length, map, None, IfOk};
ghost use Rattle.std.specs.Option.{option_map};
ghost use Rattle.px_base.specs.declared.ids.StorageId.{StorageId as Numbered};
ghost use Rattle.px_cluster.specs.Core.{name_of, names_of};
ghost use Rattle.px_cluster.specs.Members.{panel_of, threshold_for, voters_of};
ghost use Rattle.px_cluster.specs.Plan.{told_of};
ghost use Rattle.voters.specs.Panel.{panel_refusal};
ghost use Rattle.genbook.specs.Books.{core_of};
ghost use Rattle.genbook.specs.Changes.{numbers_of};
ghost use Rattle.px_core.specs.Known.{AreJobsKnown, AreKnown, IsSourceKnown};

use genbook::Book;
use px_base::{StorageId, StorageName, Voter};
use px_ops::{Job, Names, PlannedJob, PlannedJobs};
use std::alloc::{AllocError, Global};
use voters::{Panel, PanelRefusal};

/// The name of a storage.
pub(crate) fn name_of(book: &Book, storage: StorageId) -> StorageName
    requires { storage.0 < length book.now.storages }
    ensures { result ≡ name_of (core_of book.now) storage.0 }
{
    match book.known_name(storage) {
        Some(name) => name,
        None => unreachable!(),
    }
}

/// The name of the storage that a job copies from, if it has one.
pub(crate) fn source_name(book: &Book, source: Option<StorageId>) -> Option<StorageName>
    requires { IsSourceKnown book.now.storages source }
    ensures { result
        ≡ option_map (λ (id : Numbered). name_of (core_of book.now) id.0) source }
{
    match source {
        Some(source) => Some(name_of(book, source)),
        None => None,
    }
}

/// The names of these storages, in their order.
pub(crate) fn names_of(
    alloc: Global,
    book: &Book,
    storages: &[StorageId],
) -> Result<Names, AllocError>
    requires { AreKnown book.now.storages storages.now }
    ensures { IfOk result
        (λ names. names ≡ names_of (core_of book.now) (numbers_of storages.now)) }
{
    let mut names = Names::new(alloc);
    for storage in storages {
        names.push(name_of(book, *storage))?;
    }
    Ok(names)
}

/// What is told of the jobs of a plan.
pub(crate) fn jobs_told(alloc: Global, book: &Book, jobs: &[Job]) -> Result<PlannedJobs, AllocError>
    requires { AreJobsKnown book.now.storages jobs.now }
    ensures { IfOk result (λ told. told ≡ map (told_of (core_of book.now)) jobs.now) }
{
    let mut told = PlannedJobs::new(alloc);
    for job in jobs {
        let target = name_of(book, job.target);
        told.push(job_told(book, job, target))?;
    }
    Ok(told)
}

fn job_told(book: &Book, job: &Job, target: StorageName) -> PlannedJob
    requires known { IsSourceKnown book.now.storages job.now.source }
    requires target { target ≡ name_of (core_of book.now) job.now.target.0 }
    ensures { result ≡ told_of (core_of book.now) job.now }
{
    PlannedJob {
        job: job.number,
        kind: job.kind,
        repo: job.repo,
        target,
        source: source_name(book, job.source),
    }
}

/// The panel of a push of these members, the first of which is the primary.
pub(crate) fn panel_of(
    alloc: Global,
    book: &Book,
    members: &[StorageId],
) -> Result<Panel, AllocError>
    requires known { AreKnown book.now.storages members.now }
    requires some { (length members.now == 0) ≡ false }
    requires few { length members.now ≤ 64 }
    requires lawful { panel_refusal (panel_of (core_of book.now) (numbers_of members.now)).voters
        (panel_of (core_of book.now) (numbers_of members.now)).threshold ≡ None }
    ensures { IfOk result (λ panel. panel ≡ panel_of (core_of book.now) (numbers_of members.now)) }
{
    let Some((primary, secondaries)) = members.split_first() else {
        unreachable!();
    };
    let voters = voters_of(alloc, book, *primary, secondaries)?;
    let threshold = threshold_for(secondaries.len() as u64);
    match Panel::new(alloc, &voters, threshold) {
        Ok(panel) => Ok(panel),
        Err(PanelRefusal::Memory) => Err(AllocError),
        Err(_) => unreachable!(),
    }
}

// Who votes on a push of these members, the first of which is the primary.
fn voters_of(
    alloc: Global,
    book: &Book,
    primary: StorageId,
    secondaries: &[StorageId],
) -> Result<Vec<Voter>, AllocError>
    requires known { AreKnown book.now.storages secondaries.now }
    requires primary { primary.0 < length book.now.storages }
    requires few { length secondaries.now < 64 }
    ensures { IfOk result (λ voters. voters.items
        ≡ voters_of (core_of book.now) (primary.0 ∷ numbers_of secondaries.now)) }
{
    let mut voters = Vec::new(alloc);
    let weight = std::cmp::max(1, secondaries.len() as u32);
    voters.push(Voter {
        name: name_of(book, primary),
        weight,
    })?;
    for storage in secondaries {
        voters.push(Voter {
            name: name_of(book, *storage),
            weight: 1,
        })?;
    }
    Ok(voters)
}

// The weight that decides a push of so many secondaries.
fn threshold_for(secondaries: u64) -> u64
    requires { secondaries < 64 }
    ensures { result ≡ threshold_for secondaries }
{
    if secondaries == 0 {
        1
    } else {
        secondaries + (secondaries + 1) / 2
    }
}
