//! Calls to the queue, the plan and what they are told, as lines.

ghost use Rattle.genbook.specs.Books.{Has};

use crate::queue_calls::{self, enqueue_one, take};
use crate::rows::{planned, row_of};
use crate::words::{
    done, job, lease, number, repository, storage, storage_name, storage_or_none, text, words,
    yes_or_no,
};
use genbook::{Book, BookFault, Health, Repository};
use px_base::{Gen, Items, JobId, Lease, RepoId, RepoPath, StorageId, TxId};
use px_ops::{Booking, Job};
use reconciler::{Known, are_assigned_newest, first_source, has_source, plan, source_for};
use replqueue::{Facts, Queue, Taking};
use std::alloc::Global;
use std::test::Fail;
use turns::{OpenPush, Turns};

/// The queue, and what is known beside it.
#[derive(Drop)]
pub struct Cluster {
    book: Book,
    health: Health,
    turns: Turns,
    queue: Queue,
}

impl Cluster {
    /// Nothing is there.
    pub fn new(alloc: Global) -> Cluster {
        Cluster {
            book: Book::new(alloc),
            health: Health::new(alloc),
            turns: Turns::new(alloc),
            queue: Queue::new(alloc),
        }
    }

    fn known(&self) -> Known<'_> {
        Known {
            book: &self.book,
            health: &self.health,
            turns: &self.turns,
        }
    }

    fn repository(&self, repo: RepoId) -> Result<&Repository, Fail> {
        match self.book.repository(repo) {
            Some(repository) => Ok(repository),
            None => Err(Fail::new("no such repository")),
        }
    }
}

// Why something new does not come.
fn not_come(fault: BookFault) -> Fail {
    match fault {
        BookFault::Refused(_) => Fail::new("it is refused"),
        BookFault::Memory => Fail::new("memory wants"),
    }
}

// A storage comes, and is down at first.
fn admit(alloc: Global, cluster: &mut Cluster, virt: &str, name: &str) -> Result<String, Fail> {
    let admission = match cluster
        .book
        .plan_admit(alloc, &storage_name(virt)?, &storage_name(name)?)
    {
        Ok(admission) => admission,
        Err(fault) => return Err(not_come(fault)),
    };
    let storage = admission.storage.0;
    cluster.health.prepare()?;
    cluster.book.admit(admission);
    cluster.health.add();
    Ok(format!(in alloc; "storage {storage}")?)
}

// A repository comes, with a replica at generation 0 on each storage that is assigned.
fn create(alloc: Global, cluster: &mut Cluster, path: &str, factor: &str) -> Result<String, Fail> {
    let path = RepoPath::read(alloc, path.as_bytes())?;
    let (virt, factor) = (storage_name("v")?, factor.parse::<u32>()?);
    let creation = match cluster.book.plan_create(alloc, &virt, &path, factor) {
        Ok(creation) => creation,
        Err(fault) => return Err(not_come(fault)),
    };
    let (repo, lease) = (creation.repo, creation.lease);
    cluster.book.create(creation);
    for storage in 0..factor {
        done(alloc, cluster.book.enrol(repo, StorageId(storage), lease))?;
    }
    Ok(format!(in alloc; "repo {}", repo.0)?)
}

// The storage is told to commit the next generation, and is in doubt.
fn decide(book: &mut Book, repo: RepoId, storage: StorageId) -> Result<(), Fail>
    requires { Has book.old repo.0 }
{
    let Ok(lease) = book.draw_for(repo, storage) else {
        return Err(Fail::new("no lease is left"));
    };
    match book.repository(repo) {
        Some(repository) if repository.newest().0 < u64::MAX => {}
        _ => return Err(Fail::new("no generation is left")),
    }
    book.decide(repo, lease, &[storage]);
    Ok(())
}

// What the storage holds is accepted as the next generation.
fn accept(book: &mut Book, repo: RepoId, storage: StorageId) -> Result<(), Fail> {
    let Ok(lease) = book.draw_to_accept(repo, storage) else {
        return Err(Fail::new("no lease is drawn"));
    };
    match book.accept(repo, storage, lease) {
        Ok(_) => Ok(()),
        Err(_) => Err(Fail::new("it is not accepted")),
    }
}

// A replica changes on the book.
fn change(
    book: &mut Book,
    name: &str,
    repo: RepoId,
    storage: StorageId,
    words: &[&str],
) -> Result<(), Fail> {
    if book.has_place(repo, storage).is_err() {
        return Err(Fail::new("no such replica"));
    }
    match (name, words) {
        ("at", [generation]) => {
            let generation = Gen(generation.parse::<u64>()?);
            book.book(repo, storage, Booking::At(generation));
            Ok(())
        }
        ("absent", []) => {
            book.book(repo, storage, Booking::Absent);
            Ok(())
        }
        ("decide", []) => decide(book, repo, storage),
        _ => accept(book, repo, storage),
    }
}

// A push begins, in the place of the one that is open.
fn begin(
    alloc: Global,
    cluster: &mut Cluster,
    repo: RepoId,
    members: Vec<StorageId>,
) -> Result<(), Fail> {
    let mut turns = Turns::new(alloc);
    turns.begin(OpenPush::new(TxId(1), repo, lease("9")?, Gen(0), members))?;
    cluster.turns = turns;
    Ok(())
}

fn storages(alloc: Global, words: &[&str]) -> Result<Vec<StorageId>, Fail> {
    let mut storages = Vec::new(alloc);
    for word in words {
        storages.push(storage(*word)?)?;
    }
    Ok(storages)
}

// What is to be done, in all repositories or in one.
fn plan_of(alloc: Global, cluster: &Cluster, only: Option<RepoId>) -> Result<Items<Job>, Fail> {
    Ok(plan(alloc, &cluster.known(), &cluster.queue, only)?)
}

// The jobs of the plan of all come, one behind the other.
fn enqueue(alloc: Global, cluster: &mut Cluster) -> Result<Items<Job>, Fail> {
    let jobs = plan_of(alloc, cluster, None)?;
    for job in jobs.as_slice() {
        enqueue_one(&mut cluster.queue, job)?;
    }
    Ok(jobs)
}

fn count(alloc: Global, jobs: &Items<Job>) -> Result<String, Fail> {
    Ok(format!(in alloc; "{}", jobs.len())?)
}

// What becomes of a job.
fn taking(alloc: Global, taking: Option<Taking>) -> Result<String, Fail> {
    match taking {
        None => text(alloc, "pass over"),
        Some(Taking::Drop) => text(alloc, "drop"),
        Some(Taking::Take(source)) => {
            Ok(format!(in alloc; "take {}", number(alloc, source)?.as_str())?)
        }
    }
}

fn next(alloc: Global, cluster: &Cluster, target: StorageId) -> Result<String, Fail> {
    match cluster.queue.next(target, &cluster.known()) {
        Some(next) => {
            let taking = taking(alloc, Some(next.taking))?;
            Ok(format!(in alloc; "{} {taking}", next.job.number.0)?)
        }
        None => text(alloc, "-"),
    }
}

fn taking_of(alloc: Global, cluster: &Cluster, job: JobId) -> Result<String, Fail> {
    match cluster.queue.job(job) {
        Some(job) => taking(alloc, cluster.known().taking(job)),
        None => text(alloc, "-"),
    }
}

// A lease for the target of a job.
fn draw(book: &mut Book, job: &Job) -> Result<Lease, Fail> {
    if book.has_place(job.repo, job.target).is_err() {
        return Err(Fail::new("no such replica"));
    }
    match book.draw_for(job.repo, job.target) {
        Ok(lease) => Ok(lease),
        Err(_) => Err(Fail::new("no lease is left")),
    }
}

// A worker of a target takes the next job.
fn work(alloc: Global, cluster: &mut Cluster, target: StorageId, now: u64) -> Result<String, Fail> {
    let Some(next) = cluster.queue.next(target, &cluster.known()) else {
        return text(alloc, "nojob");
    };
    let number = next.job.number;
    match next.taking {
        Taking::Drop => {
            cluster.queue.drop(number);
            Ok(format!(in alloc; "dropped {}", number.0)?)
        }
        Taking::Take(source) => {
            let lease = draw(&mut cluster.book, &next.job)?;
            let newest = cluster.repository(next.job.repo)?.newest();
            take(&mut cluster.queue, number, source, newest, now, lease)?;
            row_of(alloc, cluster.queue.job(number))
        }
    }
}

// What is asked of a repository and a target.
fn of_sources(
    alloc: Global,
    cluster: &Cluster,
    name: &str,
    repo: RepoId,
    target: StorageId,
    words: &[&str],
) -> Result<String, Fail> {
    let (repository, health) = (cluster.repository(repo)?, &cluster.health);
    match (name, words) {
        ("first_source", []) => number(alloc, first_source(repository, health, target)),
        ("has_source", [source]) => {
            yes_or_no(
                alloc,
                has_source(repository, health, target, storage(*source)?),
            )
        }
        ("source_for", [kept]) => {
            number(
                alloc,
                source_for(repository, health, target, storage_or_none(*kept)?),
            )
        }
        _ => Err(Fail::new("no such call")),
    }
}

// What changes beside the queue.
fn beside(
    alloc: Global,
    cluster: &mut Cluster,
    name: &str,
    words: &[&str],
) -> Result<Option<String>, Fail> {
    match (name, words) {
        ("up", [on]) => cluster.health.set(storage(*on)?, true),
        ("down", [on]) => cluster.health.set(storage(*on)?, false),
        ("begin", [repo, members @ ..]) => {
            let members = storages(alloc, members)?;
            begin(alloc, cluster, repository(*repo)?, members)?;
        }
        ("end", []) => cluster.turns.end(TxId(1)),
        ("at" | "absent" | "decide" | "accept", [repo, on, rest @ ..]) => {
            change(
                &mut cluster.book,
                name,
                repository(*repo)?,
                storage(*on)?,
                rest,
            )?;
        }
        _ => return Ok(None),
    }
    Ok(Some(text(alloc, "ok")?))
}

// What is asked of the queue and of what is known.
fn asked(
    alloc: Global,
    cluster: &mut Cluster,
    name: &str,
    words: &[&str],
) -> Result<Option<String>, Fail> {
    Ok(Some(match (name, words) {
        ("admit", [virt, name]) => admit(alloc, cluster, *virt, *name)?,
        ("create", [path, factor]) => create(alloc, cluster, *path, *factor)?,
        ("plan", []) => planned(alloc, plan_of(alloc, cluster, None)?.as_slice())?,
        ("plan", [repo]) => {
            let jobs = plan_of(alloc, cluster, Some(repository(*repo)?))?;
            planned(alloc, jobs.as_slice())?
        }
        ("count_plan", []) => count(alloc, &plan_of(alloc, cluster, None)?)?,
        ("enqueue", []) => planned(alloc, enqueue(alloc, cluster)?.as_slice())?,
        ("count_enqueued", []) => count(alloc, &enqueue(alloc, cluster)?)?,
        ("in_push", [repo, target]) => {
            let known = cluster.known();
            yes_or_no(
                alloc,
                known.is_in_push(repository(*repo)?, storage(*target)?),
            )?
        }
        ("next", [target]) => next(alloc, cluster, storage(*target)?)?,
        ("taking", [number]) => taking_of(alloc, cluster, job(*number)?)?,
        ("work", [target, now]) => work(alloc, cluster, storage(*target)?, now.parse::<u64>()?)?,
        ("are_newest", [repo]) => {
            let repository = cluster.repository(repository(*repo)?)?;
            yes_or_no(alloc, are_assigned_newest(repository))?
        }
        _ => return Ok(None),
    }))
}

/// Makes a call to the cluster, or else to its queue.
pub fn answer(
    alloc: Global,
    cluster: &mut Cluster,
    name: &str,
    rest: &str,
) -> Result<String, Fail> {
    let words = words(alloc, rest)?;
    if let Some(told) = beside(alloc, cluster, name, words.as_slice())? {
        return Ok(told);
    }
    if let Some(told) = asked(alloc, cluster, name, words.as_slice())? {
        return Ok(told);
    }
    match (name, words.as_slice()) {
        ("first_source" | "has_source" | "source_for", [repo, target, rest @ ..]) => {
            of_sources(
                alloc,
                cluster,
                name,
                repository(*repo)?,
                storage(*target)?,
                rest,
            )
        }
        _ => queue_calls::answer(alloc, &mut cluster.queue, name, rest),
    }
}
