//! What was issued to nodes, and which answers are kept.

use crate::words::{lease, repository, storage, storages, text, transaction, words};
use issued::{Issued, Purpose};
use node_calls::Snapshot;
use px_base::{Gen, Hash, Items, JobId, Lease, RefList, RepoId, StorageId, TxId};
use std::alloc::Global;
use std::test::Fail;
use tests_tables::{play, told};
use voters::Verdict;

// The hash of a verdict, by its first digit, which is that of all.
fn voted(commit: &Option<Verdict>) -> u8 {
    match commit {
        Some(verdict) => verdict.hash().as_bytes()[0],
        None => 0,
    }
}

// What a lease was drawn for.
fn purpose(alloc: Global, purpose: Option<&Purpose>) -> Result<String, Fail> {
    match purpose {
        Some(Purpose::Creation { made }) => Ok(format!(in alloc; "creation {made}")?),
        Some(
            Purpose::Push {
                begun,
                commit,
                answered,
            },
        ) => { Ok(format!(in alloc; "push {} {} {answered}", begun.0, voted(commit))?) }
        Some(
            Purpose::Update {
                job,
                source,
                generation,
                snapshot,
                answered,
            },
        ) => {
            let (job, source, generation) = (job.0, source.0, generation.0);
            let kept = snapshot.is_some();
            Ok(format!(in alloc; "update {job} {source} {generation} {kept} {answered}")?)
        }
        Some(Purpose::Delete { job, answered }) => {
            Ok(format!(in alloc; "delete {} {answered}", job.0)?)
        }
        Some(Purpose::Fence { answer: None }) => text(alloc, "fence"),
        Some(Purpose::Fence { answer: Some(None) }) => text(alloc, "fence last -"),
        Some(
            Purpose::Fence {
                answer: Some(Some(lease)),
            },
        ) => { Ok(format!(in alloc; "fence last {}", lease.number())?) }
        None => text(alloc, "-"),
    }
}

fn create(issued: &mut Issued, repo: RepoId, on: &[StorageId], lease: Lease) -> Result<(), Fail> {
    issued.reserve(repo, on, lease)?;
    issued.creates(repo, on, lease);
    Ok(())
}

fn begin(
    issued: &mut Issued,
    tx: TxId,
    repo: RepoId,
    members: &[StorageId],
    lease: Lease,
    begun: Gen,
) -> Result<(), Fail> {
    issued.reserve_push(tx, repo, members, lease)?;
    issued.begins(tx, repo, members, lease, begun);
    Ok(())
}

// The commit is by a verdict of two of three voters.
fn commit(
    issued: &mut Issued,
    repo: RepoId,
    on: StorageId,
    lease: Lease,
    digit: u8,
) -> Result<(), Fail> {
    match Verdict::of(Hash([digit; 20]), 2, 2, 3) {
        Some(verdict) => issued.commits(repo, on, lease, &verdict),
        None => return Err(Fail::new("no verdict")),
    }
    Ok(())
}

// A job that is taken for a storage: an update from a source to a generation, or a removal.
fn work(
    issued: &mut Issued,
    job: JobId,
    repo: RepoId,
    on: StorageId,
    lease: Lease,
    from: Option<(StorageId, Gen)>,
) -> Result<(), Fail> {
    issued.reserve_work(job, repo, on, lease)?;
    match from {
        Some((source, generation)) => issued.updates(job, repo, on, lease, source, generation),
        None => issued.deletes(job, repo, on, lease),
    }
    Ok(())
}

// What is asked of the lease of a repository on a storage.
fn read(
    alloc: Global,
    issued: &Issued,
    name: &str,
    repo: RepoId,
    on: StorageId,
    lease: Lease,
) -> Result<String, Fail> {
    match name {
        "purpose" => purpose(alloc, issued.purpose(repo, on, lease)),
        "is_made" => told(alloc, issued.is_made(repo, on, lease)),
        _ => told(alloc, issued.is_committed(repo, on, lease)),
    }
}

// What is asked of a job, and of a lease that may be drawn for it.
fn read_job(
    alloc: Global,
    issued: &Issued,
    name: &str,
    job: JobId,
    repo: RepoId,
    on: StorageId,
    lease: Lease,
) -> Result<String, Fail> {
    match name {
        "source" => match issued.source_in(repo, on, lease, job) {
            Some(source) => Ok(format!(in alloc; "from {}", source.0)?),
            None => text(alloc, "-"),
        },
        "is_kept" => told(alloc, issued.snapshot_in(repo, on, lease, job).is_some()),
        "is_delete" => told(alloc, issued.is_delete_of(repo, on, lease, job)),
        _ => told(alloc, issued.is_worked(repo, on, lease, job)),
    }
}

// What changes, by a repository, storages, a lease, and what is beside them.
fn change(alloc: Global, issued: &mut Issued, name: &str, words: &[&str]) -> Result<String, Fail> {
    match (name, words) {
        ("create", [repo, on, under]) => {
            let on = storages(alloc, *on)?;
            create(issued, repository(*repo)?, &on, lease(*under)?)?;
        }
        ("begin", [repo, on, under, tx, begun]) => {
            let on = storages(alloc, *on)?;
            let (tx, begun) = (transaction(*tx)?, Gen(begun.parse::<u64>()?));
            begin(issued, tx, repository(*repo)?, &on, lease(*under)?, begun)?;
        }
        ("commit", [repo, on, under, digit]) => {
            let (digit, on) = (digit.parse::<u8>()?, storage(*on)?);
            commit(issued, repository(*repo)?, on, lease(*under)?, digit)?;
        }
        ("update", [repo, on, under, job, source, newest]) => {
            let (on, from) = (
                storage(*on)?,
                (storage(*source)?, Gen(newest.parse::<u64>()?)),
            );
            let job = JobId(job.parse::<u64>()?);
            work(
                issued,
                job,
                repository(*repo)?,
                on,
                lease(*under)?,
                Some(from),
            )?;
        }
        ("delete", [repo, on, under, job]) => {
            let (on, job) = (storage(*on)?, JobId(job.parse::<u64>()?));
            work(issued, job, repository(*repo)?, on, lease(*under)?, None)?;
        }
        ("keep", [repo, on, under]) => {
            let snapshot = Snapshot {
                refs: RefList::new(alloc),
                objects: Items::new(alloc),
            };
            issued.keep_snapshot(repository(*repo)?, storage(*on)?, lease(*under)?, snapshot);
        }
        ("answer", [repo, on, under]) => {
            issued.answers(repository(*repo)?, storage(*on)?, lease(*under)?);
        }
        _ => return Err(Fail::new("no such call")),
    }
    text(alloc, "ok")
}

// Where the effects of the push of a transaction go.
fn pushed(alloc: Global, issued: &Issued, tx: TxId) -> Result<String, Fail> {
    match issued.push_of(tx) {
        Some((repo, lease)) => Ok(format!(in alloc; "{} under {}", repo.0, lease.number())?),
        None => text(alloc, "-"),
    }
}

// Where the effects of a job go.
fn worked(alloc: Global, issued: &Issued, job: JobId) -> Result<String, Fail> {
    match issued.work_of(job) {
        Some((repo, on)) => Ok(format!(in alloc; "{} at {}", repo.0, on.0)?),
        None => text(alloc, "-"),
    }
}

fn answer(alloc: Global, issued: &mut Issued, name: &str, rest: &str) -> Result<String, Fail> {
    let words = words(alloc, rest)?;
    match (name, words.as_slice()) {
        ("worked", [job]) => worked(alloc, issued, JobId(job.parse::<u64>()?)),
        ("source" | "is_kept" | "is_delete" | "is_worked", [repo, on, under, job]) => {
            let (repo, on, job) = (
                repository(*repo)?,
                storage(*on)?,
                JobId(job.parse::<u64>()?),
            );
            read_job(alloc, issued, name, job, repo, on, lease(*under)?)
        }
        ("pushed", [tx]) => pushed(alloc, issued, transaction(*tx)?),
        ("purpose" | "is_made" | "is_committed", [repo, on, under]) => {
            let (repo, on) = (repository(*repo)?, storage(*on)?);
            read(alloc, issued, name, repo, on, lease(*under)?)
        }
        (_, words) => change(alloc, issued, name, words),
    }
}

// A creation on two storages, one of which answers, and what was issued to nobody.
const CREATION: &str = "\
    purpose 0 0 1 -> -
    is_made 0 0 1 -> false
    create 0 0,2 1 -> ok
    purpose 0 0 1 -> creation false
    purpose 0 1 1 -> -
    purpose 0 2 1 -> creation false
    purpose 0 2 2 -> -
    purpose 1 2 1 -> -
    answer 0 2 1 -> ok
    answer 0 1 1 -> ok
    answer 0 0 2 -> ok
    is_made 0 2 1 -> true
    is_made 0 0 1 -> false
    is_made 0 1 1 -> false
    is_committed 0 2 1 -> false
    purpose 0 2 1 -> creation true
    purpose 0 1 1 -> -
    commit 0 2 1 7 -> ok
    purpose 0 2 1 -> creation true";

#[test]
fn a_creation_is_kept_until_its_node_answers(rt: HostRuntime) -> Result<(), Fail> {
    play(rt.alloc(), &mut Issued::new(rt.alloc()), answer, CREATION)
}

const PUSH: &str = "\
    pushed 9 -> -
    commit 0 1 2 7 -> ok
    purpose 0 1 2 -> -
    begin 0 1,0,2 2 9 4 -> ok
    pushed 9 -> 0 under 2
    pushed 8 -> -
    purpose 0 0 2 -> push 4 0 false
    purpose 0 1 2 -> push 4 0 false
    purpose 0 2 2 -> push 4 0 false
    purpose 0 3 2 -> -
    commit 0 1 2 7 -> ok
    commit 0 3 2 7 -> ok
    purpose 0 1 2 -> push 4 7 false
    is_committed 0 1 2 -> false
    answer 0 1 2 -> ok
    is_committed 0 1 2 -> true
    is_made 0 1 2 -> false
    is_committed 0 0 2 -> false
    purpose 0 1 2 -> push 4 7 true
    purpose 0 0 2 -> push 4 0 false
    purpose 0 3 2 -> -
    begin 1 0,1 2 10 0 -> ok
    begin 0 0 3 11 5 -> ok
    pushed 9 -> 0 under 2
    pushed 10 -> 1 under 2
    pushed 11 -> 0 under 3
    purpose 0 1 2 -> push 4 7 true
    purpose 0 0 3 -> push 5 0 false
    purpose 1 0 2 -> push 0 0 false";

#[test]
fn a_push_is_kept_with_its_commits_and_their_answers(rt: HostRuntime) -> Result<(), Fail> {
    play(rt.alloc(), &mut Issued::new(rt.alloc()), answer, PUSH)
}

// An update that is taken twice, from another source the second time, and a removal.
const JOBS: &str = "\
    worked 1 -> -
    keep 0 1 2 -> ok
    purpose 0 1 2 -> -
    update 0 1 2 1 0 4 -> ok
    worked 1 -> 0 at 1
    worked 2 -> -
    purpose 0 1 2 -> update 1 0 4 false false
    source 0 1 2 1 -> from 0
    source 0 1 2 2 -> -
    source 0 1 3 1 -> -
    is_kept 0 1 2 1 -> false
    keep 0 1 2 -> ok
    is_kept 0 1 2 1 -> true
    is_kept 0 1 2 2 -> false
    is_worked 0 1 2 1 -> false
    answer 0 1 2 -> ok
    is_worked 0 1 2 1 -> true
    is_worked 0 1 2 2 -> false
    is_delete 0 1 2 1 -> false
    purpose 0 1 2 -> update 1 0 4 true true
    update 0 1 3 1 2 5 -> ok
    worked 1 -> 0 at 1
    source 0 1 3 1 -> from 2
    is_kept 0 1 3 1 -> false
    is_worked 0 1 3 1 -> false
    is_worked 0 1 2 1 -> true
    delete 0 3 4 2 -> ok
    worked 2 -> 0 at 3
    is_delete 0 3 4 2 -> true
    is_delete 0 3 4 1 -> false
    keep 0 3 4 -> ok
    is_kept 0 3 4 2 -> false
    source 0 3 4 2 -> -
    is_made 0 3 4 -> false
    answer 0 3 4 -> ok
    is_worked 0 3 4 2 -> true
    purpose 0 3 4 -> delete 2 true";

#[test]
fn a_job_is_kept_with_its_snapshots_and_their_answers(rt: HostRuntime) -> Result<(), Fail> {
    play(rt.alloc(), &mut Issued::new(rt.alloc()), answer, JOBS)
}

// Three hundred pushes of a repository on each of 64 storages.
fn many(alloc: Global) -> Result<Issued, Fail> {
    let mut issued = Issued::new(alloc);
    let members = storages(alloc, "0..64")?;
    for number in 2u64..302 {
        let lease = lease(format!(in alloc; "{number}")?.as_str())?;
        begin(
            &mut issued,
            TxId(number),
            RepoId(0),
            &members,
            lease,
            Gen(number),
        )?;
    }
    Ok(issued)
}

const MANY: &str = "\
    pushed 1 -> -
    pushed 2 -> 0 under 2
    pushed 301 -> 0 under 301
    pushed 302 -> -
    purpose 0 0 2 -> push 2 0 false
    purpose 0 63 301 -> push 301 0 false
    purpose 0 64 301 -> -
    commit 0 63 301 9 -> ok
    answer 0 63 301 -> ok
    purpose 0 63 301 -> push 301 9 true
    purpose 0 62 301 -> push 301 0 false
    purpose 0 63 300 -> push 300 0 false
    create 1 0..64 1 -> ok
    answer 1 63 1 -> ok
    is_made 1 63 1 -> true
    is_made 1 62 1 -> false";

#[test]
fn hundreds_of_pushes_of_many_members_are_kept(rt: HostRuntime) -> Result<(), Fail> {
    play(rt.alloc(), &mut many(rt.alloc())?, answer, MANY)
}
