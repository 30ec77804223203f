//! One repository on the book, and the rules on it.

ghost use Rattle.std.specs.Prelude.{◌≡◌};

use crate::words::{done, drawn, lease, number, replied, risen, storage, storages, text, words};
use genbook::{Replica, Repository};
use px_base::{Gen, Lease, RepoPath, StorageId, StorageName};
use px_ops::{Booking, Reply};
use std::alloc::Global;
use std::test::Fail;
use tests_tables::{compare, play};

// What is booked: no generation, or one by its number.
fn booking(word: &str) -> Result<Booking, Fail> {
    if word == "-" {
        return Ok(Booking::Absent);
    }
    Ok(Booking::At(Gen(word.parse::<u64>()?)))
}

// Whether a replica is assigned, the last lease that was drawn for it, and what is booked of it.
fn state(alloc: Global, replica: &Replica) -> Result<String, Fail> {
    let sign = if replica.assigned { "+" } else { "-" };
    let booked = replied(alloc, &Reply::BookedIs(replica.booking))?;
    let booked = booked.as_str().strip_prefix("booked ").unwrap_or("?");
    Ok(format!(in alloc; "{sign}{}={booked}", replica.kept.number())?)
}

/// All that is recorded of a repository: the newest generation, the last lease, that of the
/// creation, the primary, and each replica, as its storage, `+` where it is assigned and else `-`,
/// its lease, and its booking.
pub fn recorded(alloc: Global, repository: &Repository) -> Result<String, Fail> {
    let (newest, last) = (repository.newest().0, repository.last_lease().number());
    let made = repository.creation_lease().number();
    let primary = number(alloc, repository.primary())?;
    let mut told = format!(in alloc; "newest {newest} last {last} made {made} by {primary}")?;
    for replica in repository.replicas() {
        let state = state(alloc, replica)?;
        told.push_str(format!(in alloc; " {}{state}", replica.storage.0)?.as_str())?;
    }
    Ok(told)
}

// How many replicas have this state.
fn count(alloc: Global, repository: &Repository, wanted: &str) -> Result<String, Fail> {
    let mut count = 0u32;
    for replica in repository.replicas() {
        if state(alloc, replica)?.as_str() == wanted {
            count = count.saturating_add(1);
        }
    }
    Ok(format!(in alloc; "{count}")?)
}

// A decision, where a generation is left for it.
fn decide(
    alloc: Global,
    repository: &mut Repository,
    lease: Lease,
    told: &[StorageId],
) -> Result<String, Fail> {
    if repository.newest().0 == u64::MAX {
        return Err(Fail::new("no generation is left"));
    }
    risen(alloc, Ok(repository.decide(lease, told)))
}

// What is asked of the replica on one storage, under a lease.
fn under_lease(
    alloc: Global,
    repository: &mut Repository,
    name: &str,
    storage: StorageId,
    lease: Lease,
) -> Result<String, Fail> {
    match name {
        "enrol" => return done(alloc, repository.enrol(storage, lease)),
        "accept" => return risen(alloc, repository.accept(storage, lease)),
        "late" => repository.tell_late(lease, storage),
        "confirm" => repository.confirm(lease, storage),
        _ => return done(alloc, repository.settle(storage, lease, None)),
    }
    text(alloc, "ok")
}

// What is asked of the replica on one storage.
fn on_storage(
    alloc: Global,
    repository: &mut Repository,
    name: &str,
    storage: StorageId,
    words: &[&str],
) -> Result<String, Fail> {
    match (name, words) {
        ("draw", _) => drawn(alloc, repository.draw_for(storage)),
        ("draw_to_accept", _) => drawn(alloc, repository.draw_to_accept(storage)),
        ("draw_to_settle", _) => drawn(alloc, repository.draw_to_settle(storage)),
        ("settle", [under, last]) => {
            let last = lease(*last)?;
            done(
                alloc,
                repository.settle(storage, lease(*under)?, Some(last)),
            )
        }
        ("book", [word]) => {
            repository.book(storage, booking(*word)?);
            text(alloc, "ok")
        }
        (_, [under]) => under_lease(alloc, repository, name, storage, lease(*under)?),
        _ => Err(Fail::new("no such call")),
    }
}

/// Makes a call to a repository.
pub fn answer(
    alloc: Global,
    repository: &mut Repository,
    name: &str,
    rest: &str,
) -> Result<String, Fail> {
    let words = words(alloc, rest)?;
    match (name, words.as_slice()) {
        ("record", _) => recorded(alloc, repository),
        ("count", [state]) => count(alloc, repository, *state),
        ("create", [on]) => drawn(alloc, repository.create_on(&storages(alloc, *on)?)),
        ("begin", [on]) => drawn(alloc, repository.draw_for_members(&storages(alloc, *on)?)),
        ("decide", [under, told]) => {
            let told = storages(alloc, *told)?;
            decide(alloc, repository, lease(*under)?, &told)
        }
        (_, [on, rest @ ..]) => on_storage(alloc, repository, name, storage(*on)?, rest),
        _ => Err(Fail::new("no such call")),
    }
}

// A replica on each of so many storages, of which nothing is recorded.
fn unrecorded(alloc: Global, count: u32, no_lease: Lease) -> Result<Vec<Replica>, Fail>
    requires { no_lease ≡ 0 }
{
    let mut replicas = Vec::new(alloc);
    for number in 0..count {
        replicas.push(Replica::unrecorded(StorageId(number), no_lease))?;
    }
    Ok(replicas)
}

/// The repository `a.git` of the virtual storage `v`, before its creation, on so many storages.
pub fn unmade(alloc: Global, count: u32) -> Result<Repository, Fail> {
    let Some(no_lease) = Lease::new(0) else {
        return Err(Fail::new("no lease"));
    };
    let virt = StorageName::read(b"v")?;
    let replicas = unrecorded(alloc, count, no_lease)?;
    let path = RepoPath::read(alloc, b"a.git")?;
    Ok(Repository::unmade(virt, path, no_lease, replicas))
}

/// The same after its creation, and a replica on each storage.
pub fn made(alloc: Global, count: u32) -> Result<Repository, Fail> {
    let mut repository = unmade(alloc, count)?;
    let lease = repository.create_on(&storages(alloc, format!(in alloc; "0..{count}")?.as_str())?)?;
    for number in 0..count {
        repository.enrol(StorageId(number), lease)?;
    }
    Ok(repository)
}

// A creation on two of three storages, each of which is enrolled once it was made, under the lease
// that was drawn for it.
const CREATION: &str = "\
    record -> newest 0 last 0 made 0 by - 0-0=absent 1-0=absent 2-0=absent
    create 0,1 -> lease 1
    record -> newest 0 last 1 made 1 by - 0+1=absent 1+1=absent 2-0=absent
    enrol 1 2 -> LeaseLost 1 2
    enrol 2 1 -> LeaseLost 0 1
    enrol 1 1 -> ok
    record -> newest 0 last 1 made 1 by - 0+1=absent 1+1=at:0 2-0=absent
    enrol 1 1 -> ok
    draw 0 -> lease 2
    enrol 0 1 -> LeaseLost 2 1
    enrol 0 2 -> NotMaking
    record -> newest 0 last 2 made 1 by - 0+2=absent 1+1=at:0 2-0=absent
    create 2 -> lease 3
    record -> newest 0 last 3 made 3 by - 0-2=absent 1-1=at:0 2+3=absent";

#[test]
fn a_creation_assigns_storages_and_enrols_their_replicas(rt: HostRuntime) -> Result<(), Fail> {
    play(rt.alloc(), &mut unmade(rt.alloc(), 3)?, answer, CREATION)
}

// The storage 0 is the primary, and 0 and 1 voted for the hash: these are in doubt until they
// confirm. The storage 2 voted late.
const PUSH: &str = "\
    record -> newest 0 last 1 made 1 by - 0+1=at:0 1+1=at:0 2+1=at:0
    begin 0,1,2 -> lease 2
    record -> newest 0 last 2 made 1 by 0 0+2=at:0 1+2=at:0 2+2=at:0
    decide 2 0,1 -> gen 1
    record -> newest 1 last 2 made 1 by 0 0+2=doubt:2:0:1 1+2=doubt:2:0:1 2+2=at:0
    confirm 0 2 -> ok
    confirm 1 1 -> ok
    confirm 2 2 -> ok
    record -> newest 1 last 2 made 1 by 0 0+2=at:1 1+2=doubt:2:0:1 2+2=at:0
    late 2 2 -> ok
    record -> newest 1 last 2 made 1 by 0 0+2=at:1 1+2=doubt:2:0:1 2+2=doubt:2:0:1
    confirm 2 2 -> ok
    begin 2,0 -> lease 3
    decide 3 2,0,1 -> gen 2
    record -> newest 2 last 3 made 1 by 2 0+3=doubt:3:1:2 1+2=doubt:3:0:2 2+3=doubt:3:1:2";

#[test]
fn a_push_is_drawn_for_its_members_and_decided_for_its_voters(rt: HostRuntime) -> Result<(), Fail> {
    play(rt.alloc(), &mut made(rt.alloc(), 3)?, answer, PUSH)
}

// The storages 1 and 2 are in doubt. The last lease that the node of 1 committed under is that of
// the push, and that of 2 is another. The node of 1 then has no last lease.
const SETTLING: &str = "\
    settle 0 1 -> NotInDoubt
    draw_to_settle 0 -> NotInDoubt
    begin 0,1,2 -> lease 2
    decide 2 1,2 -> gen 1
    settle 1 2 2 -> LeaseLost 2 2
    draw_to_settle 1 -> lease 3
    settle 1 2 2 -> LeaseLost 3 2
    record -> newest 1 last 3 made 1 by 0 0+2=at:0 1+3=doubt:2:0:1 2+2=doubt:2:0:1
    settle 1 3 2 -> ok
    settle 1 3 2 -> NotInDoubt
    draw_to_settle 2 -> lease 4
    settle 2 4 1 -> ok
    record -> newest 1 last 4 made 1 by 0 0+2=at:0 1+3=at:1 2+4=at:0
    begin 1 -> lease 5
    decide 5 1 -> gen 2
    draw_to_settle 1 -> lease 6
    settle 1 6 -> ok
    record -> newest 2 last 6 made 1 by 1 0+2=at:0 1+6=at:1 2+4=at:0";

#[test]
fn a_doubt_ends_by_the_last_lease_of_the_node(rt: HostRuntime) -> Result<(), Fail> {
    play(rt.alloc(), &mut made(rt.alloc(), 3)?, answer, SETTLING)
}

const ACCEPTING: &str = "\
    book 2 - -> ok
    draw_to_accept 2 -> NotBooked
    accept 2 1 -> NotBooked
    accept 2 2 -> LeaseLost 1 2
    draw_to_accept 1 -> lease 2
    accept 1 1 -> LeaseLost 2 1
    record -> newest 0 last 2 made 1 by - 0+1=at:0 1+2=at:0 2+1=absent
    accept 1 2 -> gen 1
    record -> newest 1 last 2 made 1 by - 0+1=at:0 1+2=at:1 2+1=absent
    book 0 1 -> ok
    record -> newest 1 last 2 made 1 by - 0+1=at:1 1+2=at:1 2+1=absent";

#[test]
fn what_a_replica_holds_is_accepted_as_a_new_generation(rt: HostRuntime) -> Result<(), Fail> {
    play(rt.alloc(), &mut made(rt.alloc(), 3)?, answer, ACCEPTING)
}

const ONE: &str = "\
    record -> newest 0 last 1 made 1 by - 0+1=at:0
    begin 0 -> lease 2
    decide 2 0 -> gen 1
    confirm 0 2 -> ok
    record -> newest 1 last 2 made 1 by 0 0+2=at:1";

const MANY: &str = "\
    count +1=at:0 -> 64
    begin 0..64 -> lease 2
    count +2=at:0 -> 64
    decide 2 0..40 -> gen 1
    count +2=doubt:2:0:1 -> 40
    count +2=at:0 -> 24
    late 63 2 -> ok
    confirm 63 2 -> ok
    confirm 0 2 -> ok
    count +2=at:1 -> 2
    count +2=doubt:2:0:1 -> 39
    create 0..2 -> lease 3
    count -2=at:1 -> 1
    count +3=at:1 -> 1";

#[test]
fn one_replica_and_the_most_are_changed_alike(rt: HostRuntime) -> Result<(), Fail> {
    let alloc = rt.alloc();
    play(alloc, &mut made(alloc, 1)?, answer, ONE)?;
    play(alloc, &mut made(alloc, 64)?, answer, MANY)
}

// A copy has all that is recorded, and what becomes of it leaves the other alone.
#[test]
fn a_copy_stands_alone(rt: HostRuntime) -> Result<(), Fail> {
    let alloc = rt.alloc();
    let repository = made(alloc, 3)?;
    let mut copied = repository.copy(alloc)?;
    play(alloc, &mut copied, answer, PUSH)?;
    let told = recorded(alloc, &repository)?;
    let want = "newest 0 last 1 made 1 by - 0+1=at:0 1+1=at:0 2+1=at:0";
    compare("record", told.as_str(), want)
}
