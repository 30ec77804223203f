//! Calls to the book, as lines.

ghost use Rattle.genbook.specs.Books.{Has};

use crate::repositories::recorded;
use crate::words::{
    done, drawn, lease, number, numbers, refused, replied, repository, risen, storage,
    storage_name, storages, text, words,
};
use genbook::{Book, BookFault, Creation};
use px_base::{Gen, Lease, RepoId, RepoPath, StorageId, StorageName};
use px_ops::{Booking, Reply};
use std::alloc::Global;
use std::test::Fail;

// Why something new does not come.
fn fault(alloc: Global, fault: BookFault) -> Result<String, Fail> {
    match fault {
        BookFault::Refused(why) => refused(alloc, &why),
        BookFault::Memory => text(alloc, "memory"),
    }
}

// An admission is planned, and made where it is to be.
fn admit(
    alloc: Global,
    book: &mut Book,
    virt: &StorageName,
    name: &StorageName,
    made: bool,
) -> Result<String, Fail> {
    match book.plan_admit(alloc, virt, name) {
        Ok(admission) => {
            let storage = admission.storage;
            if made {
                book.admit(admission);
            }
            replied(alloc, &Reply::Storage(storage))
        }
        Err(why) => fault(alloc, why),
    }
}

/// The repository of a creation, its lease, and the storages that are assigned.
pub fn planned(alloc: Global, creation: &Creation) -> Result<String, Fail> {
    let (repo, lease) = (creation.repo.0, creation.lease.number());
    let assigned = numbers(alloc, creation.assigned.as_slice())?;
    Ok(format!(in alloc; "repo {repo} lease {lease} on {assigned}")?)
}

// A creation is planned, and made where it is to be.
fn create(
    alloc: Global,
    book: &mut Book,
    virt: &StorageName,
    path: &RepoPath,
    factor: u32,
    made: bool,
) -> Result<String, Fail> {
    match book.plan_create(alloc, virt, path, factor) {
        Ok(creation) => {
            let planned = planned(alloc, &creation)?;
            if made {
                book.create(creation);
            }
            Ok(planned)
        }
        Err(why) => fault(alloc, why),
    }
}

fn find(alloc: Global, book: &Book, virt: &StorageName, path: &RepoPath) -> Result<String, Fail> {
    match book.find(virt, path) {
        Ok(repo) => replied(alloc, &Reply::Repo(repo)),
        Err(why) => refused(alloc, &why),
    }
}

// The number of a storage and its virtual storage.
fn known(alloc: Global, book: &Book, name: &StorageName) -> Result<String, Fail> {
    match book.known(name) {
        Some((storage, virt)) => {
            let virt = str::from_utf8(virt.as_bytes()).unwrap_or("?");
            Ok(format!(in alloc; "{} of {virt}", storage.0)?)
        }
        None => text(alloc, "-"),
    }
}

fn name_of(alloc: Global, book: &Book, storage: StorageId) -> Result<String, Fail> {
    match book.known_name(storage) {
        Some(name) => text(alloc, str::from_utf8(name.as_bytes()).unwrap_or("?")),
        None => text(alloc, "-"),
    }
}

fn record_of(alloc: Global, book: &Book, repo: RepoId) -> Result<String, Fail> {
    match book.repository(repo) {
        Some(repository) => recorded(alloc, repository),
        None => text(alloc, "-"),
    }
}

// The virtual storage and the path of a repository.
fn place_of(alloc: Global, book: &Book, repo: RepoId) -> Result<String, Fail> {
    let Some(repository) = book.repository(repo) else {
        return text(alloc, "-");
    };
    let name = repository.virt();
    let virt = str::from_utf8(name.as_bytes()).unwrap_or("?");
    let path = str::from_utf8(repository.path().as_bytes()).unwrap_or("?");
    Ok(format!(in alloc; "{virt} {path}")?)
}

// A decision, where a generation is left for it.
fn decide(
    alloc: Global,
    book: &mut Book,
    repo: RepoId,
    lease: Lease,
    told: &[StorageId],
) -> Result<String, Fail>
    requires { Has book.old repo.0 }
{
    match book.repository(repo) {
        Some(repository) if repository.newest().0 < u64::MAX => {}
        _ => return Err(Fail::new("no generation is left")),
    }
    risen(alloc, Ok(book.decide(repo, lease, told)))
}

// A changed copy of the repository is put on the book, in which the replica is at generation 9.
fn put(alloc: Global, book: &mut Book, repo: RepoId, storage: StorageId) -> Result<String, Fail>
    requires { Has book.old repo.0 }
{
    let Some(repository) = book.repository(repo) else {
        return Err(Fail::new("no repository"));
    };
    let mut copied = repository.copy(alloc)?;
    copied.book(storage, Booking::At(Gen(9)));
    book.put(repo, copied);
    text(alloc, "ok")
}

// What is asked of the replica of a repository that has one on the storage.
fn on_replica(
    alloc: Global,
    book: &mut Book,
    name: &str,
    repo: RepoId,
    storage: StorageId,
    words: &[&str],
) -> Result<String, Fail>
    requires { Has book.old repo.0 }
{
    match (name, words) {
        ("draw", _) => return drawn(alloc, book.draw_for(repo, storage)),
        ("put", _) => return put(alloc, book, repo, storage),
        ("begin", [on]) => {
            return drawn(alloc, book.draw_for_members(repo, &storages(alloc, *on)?));
        }
        ("decide", [on, under]) => {
            return decide(alloc, book, repo, lease(*under)?, &storages(alloc, *on)?);
        }
        ("late", [under]) => book.tell_late(repo, lease(*under)?, storage),
        ("confirm", [under]) => book.confirm(repo, lease(*under)?, storage),
        ("forget", _) => book.book(repo, storage, Booking::Absent),
        _ => return Err(Fail::new("no such call")),
    }
    text(alloc, "ok")
}

// What may be asked of any repository and storage.
fn on_place(
    alloc: Global,
    book: &mut Book,
    name: &str,
    repo: RepoId,
    storage: StorageId,
    words: &[&str],
) -> Result<String, Fail> {
    match (name, words) {
        ("draw_to_accept", _) => drawn(alloc, book.draw_to_accept(repo, storage)),
        ("draw_to_settle", _) => drawn(alloc, book.draw_to_settle(repo, storage)),
        ("enrol", [under]) => done(alloc, book.enrol(repo, storage, lease(*under)?)),
        ("accept", [under]) => risen(alloc, book.accept(repo, storage, lease(*under)?)),
        ("settle", [under, last]) => {
            let last = Some(lease(*last)?);
            done(alloc, book.settle(repo, storage, lease(*under)?, last))
        }
        ("at", _) => number(alloc, book.storage(repo, storage.0)),
        _ => match book.has_place(repo, storage) {
            Ok(()) => on_replica(alloc, book, name, repo, storage, words),
            Err(why) => refused(alloc, &why),
        },
    }
}

// What is asked by names.
fn by_name(
    alloc: Global,
    book: &mut Book,
    name: &str,
    virt: &StorageName,
    words: &[&str],
) -> Result<String, Fail> {
    match (name, words) {
        ("admit" | "plan_admit", [storage]) => {
            admit(alloc, book, virt, &storage_name(*storage)?, name == "admit")
        }
        ("create" | "plan_create", [path, factor]) => {
            let path = RepoPath::read(alloc, path.as_bytes())?;
            let factor = factor.parse::<u32>()?;
            create(alloc, book, virt, &path, factor, name == "create")
        }
        ("find", [path]) => find(alloc, book, virt, &RepoPath::read(alloc, path.as_bytes())?),
        _ => known(alloc, book, virt),
    }
}

// What is asked by the numbers of a repository and a storage.
fn by_number(
    alloc: Global,
    book: &mut Book,
    name: &str,
    repo: RepoId,
    words: &[&str],
) -> Result<String, Fail> {
    match words {
        [on, rest @ ..] => on_place(alloc, book, name, repo, storage(*on)?, rest),
        _ => record_of(alloc, book, repo),
    }
}

/// Makes a call to the book. Its first word is a name, or the number of a repository.
pub fn answer(alloc: Global, book: &mut Book, name: &str, rest: &str) -> Result<String, Fail> {
    let words = words(alloc, rest)?;
    match (name, words.as_slice()) {
        ("name", [on]) => name_of(alloc, book, storage(*on)?),
        ("place", [repo]) => place_of(alloc, book, repository(*repo)?),
        (_, [first, rest @ ..]) => match first.parse::<u32>() {
            Ok(repo) => by_number(alloc, book, name, RepoId(repo), rest),
            Err(_) => by_name(alloc, book, name, &storage_name(*first)?, rest),
        },
        _ => Err(Fail::new("no such call")),
    }
}
