//! The text of each refusal.

use px_base::{
    Bytes, Gen, Hash, JobId, Lease, Phase, RefName, RepoId, StorageId, StorageName, TxId,
};
use px_ops::{JobState, NodeRefusal, Refusal, add_refusal};
use std::alloc::Global;
use std::test::Fail;

fn lease(number: u64) -> Result<Lease, Fail> {
    match Lease::new(number) {
        Some(lease) => Ok(lease),
        None => Err(Fail::new("no lease")),
    }
}

// The refusals that speak of storages and repositories.
fn of_places(word: &str) -> Result<Option<Refusal>, Fail> {
    let name = StorageName::read(b"gitaly-1")?;
    Ok(Some(match word {
        "UnknownRepo" => Refusal::UnknownRepo,
        "UnknownStorage" => Refusal::UnknownStorage(Some(name)),
        "UnknownVirtual" => Refusal::UnknownVirtual(name),
        "Exists" => Refusal::Exists(RepoId(4)),
        "StorageExists" => Refusal::StorageExists(StorageId(5)),
        "TooManyStorages" => Refusal::TooManyStorages,
        "TooManyRepositories" => Refusal::TooManyRepositories,
        "BadFactor" => Refusal::BadFactor(3),
        "NotMaking" => Refusal::NotMaking,
        "NotBooked" => Refusal::NotBooked,
        "NotInDoubt" => Refusal::NotInDoubt,
        "LeasesSpent" => Refusal::LeasesSpent,
        "GenerationsSpent" => Refusal::GenerationsSpent,
        "LeaseLost" => Refusal::LeaseLost {
            kept: lease(9)?,
            given: lease(8)?,
        },
        "UnknownJob" => Refusal::UnknownJob(JobId(12)),
        "BadState" => Refusal::BadState(JobState::InProgress),
        _ => return Ok(None),
    }))
}

// Those that speak of votes.
fn of_votes(word: &str) -> Result<Option<Refusal>, Fail> {
    let name = StorageName::read(b"a")?;
    Ok(Some(match word {
        "NoVoters" => Refusal::NoVoters,
        "TooManyVoters" => Refusal::TooManyVoters(65),
        "DuplicateVoter" => Refusal::DuplicateVoter(name),
        "BadThreshold" => Refusal::BadThreshold {
            total: 5,
            threshold: 2,
        },
        "BadRounds" => Refusal::BadRounds(9),
        "TransactionsSpent" => Refusal::TransactionsSpent,
        "UnknownTx" => Refusal::UnknownTx(TxId(18446744073709551615)),
        "NotAVoter" => Refusal::NotAVoter(name),
        "Finished" => Refusal::Finished,
        "WrongPhase" => Refusal::WrongPhase(Phase::Committed),
        "Canceled" => Refusal::Canceled,
        "Stopped" => Refusal::Stopped,
        "AlreadyVoted" => Refusal::AlreadyVoted(Hash([17; 20])),
        "Decided" => Refusal::Decided,
        "NoSub" => Refusal::NoSub(0),
        _ => return Ok(None),
    }))
}

// Those that speak of pushes and reads, and those of a script alone.
fn of_pushes(word: &str) -> Option<Refusal> {
    Some(match word {
        "IsPush" => Refusal::IsPush,
        "NotAPush" => Refusal::NotAPush,
        "StillOpen" => Refusal::StillOpen,
        "Turn" => Refusal::Turn(TxId(6)),
        "ReadOnly" => Refusal::ReadOnly {
            newest: Gen(7),
            current: 2,
        },
        "InFlight" => Refusal::InFlight(TxId(3)),
        "NoCurrentReplica" => Refusal::NoCurrentReplica {
            newest: Gen(1),
            current: 0,
        },
        "NotOut" => Refusal::NotOut,
        "NotAcked" => Refusal::NotAcked,
        _ => return None,
    })
}

// Those of a node.
fn of_nodes(alloc: Global, word: &str) -> Result<Refusal, Fail> {
    let name = RefName::read(alloc, b"refs/heads/main")?;
    let id = Hash([171; 20]);
    Ok(Refusal::Node(match word {
        "Fenced" => NodeRefusal::Fenced {
            fence: 18446744073709551615,
        },
        "NoRepo" => NodeRefusal::NoRepo,
        "RepoExists" => NodeRefusal::RepoExists,
        "NotPrepared" => NodeRefusal::NotPrepared,
        "VoteDiffers" => NodeRefusal::VoteDiffers { have: id },
        "Empty" => NodeRefusal::Empty,
        "Void" => NodeRefusal::Void { name },
        "Twice" => NodeRefusal::Twice { name },
        "Stale" => NodeRefusal::Stale { name, have: id },
        "Conflict" => NodeRefusal::Conflict {
            name,
            with: RefName::read(alloc, b"refs/heads")?,
        },
        "TooManyRefs" => NodeRefusal::TooManyRefs,
        "Missing" => NodeRefusal::Missing { id },
        "BadObject" => NodeRefusal::BadObject { index: 2, at: 46 },
        "Collision" => NodeRefusal::Collision { id },
        _ => return Err(Fail::new(format_args!("{word} is no refusal"))),
    }))
}

// The refusal of a name, with the fields that the table shows.
fn refusal(alloc: Global, word: &str) -> Result<Refusal, Fail> {
    if let Some(refusal) = of_places(word)? {
        return Ok(refusal);
    }
    if let Some(refusal) = of_votes(word)? {
        return Ok(refusal);
    }
    match of_pushes(word) {
        Some(refusal) => Ok(refusal),
        None => of_nodes(alloc, word),
    }
}

const TEXTS: &str = "\
UnknownRepo
UnknownStorage gitaly-1
UnknownVirtual gitaly-1
Exists 4
StorageExists 5
TooManyStorages
TooManyRepositories
BadFactor 3
NoVoters
TooManyVoters 65
DuplicateVoter a
BadThreshold 5 2
BadRounds 9
TransactionsSpent
UnknownTx 18446744073709551615
NotAVoter a
Finished
WrongPhase committed
Canceled
Stopped
AlreadyVoted 1111111111111111111111111111111111111111
Decided
NoSub 0
IsPush
NotAPush
StillOpen
Turn 6
ReadOnly 7 2
LeasesSpent
GenerationsSpent
LeaseLost 9 8
NotMaking
NotBooked
NotInDoubt
UnknownJob 12
BadState in_progress
InFlight 3
NoCurrentReplica 1 0
Fenced 18446744073709551615
NoRepo
RepoExists
NotPrepared
VoteDiffers abababababababababababababababababababab
Empty
Void refs/heads/main
Twice refs/heads/main
Stale refs/heads/main abababababababababababababababababababab
Conflict refs/heads/main refs/heads
TooManyRefs
Missing abababababababababababababababababababab
BadObject 2 46
Collision abababababababababababababababababababab
NotOut
NotAcked";

fn compare(alloc: Global, refusal: &Refusal, want: &str) -> Result<(), Fail> {
    let mut text = Bytes::from_slice(alloc, b"before ")?;
    add_refusal(&mut text, refusal)?;
    let told = str::from_utf8(text.as_slice()).unwrap_or("?");
    if told.strip_prefix("before ") == Some(want) {
        return Ok(());
    }
    Err(Fail::new(format_args!("{want} is told as: {told}")))
}

#[test]
fn each_refusal_is_its_name_and_its_fields(rt: HostRuntime) -> Result<(), Fail> {
    let alloc = rt.alloc();
    for line in TEXTS.lines() {
        let (word, _) = line.split_once(" ").unwrap_or((line, ""));
        compare(alloc, &refusal(alloc, word)?, line)?;
    }
    Ok(())
}

#[test]
fn a_number_that_no_storage_has_gives_no_name(rt: HostRuntime) -> Result<(), Fail> {
    compare(rt.alloc(), &Refusal::UnknownStorage(None), "UnknownStorage")
}
