//! The text of each reply.

use px_base::{Bytes, Gen, Hash, Items, JobId, Lease, RepoId, StorageId, StorageName, TxId};
use px_ops::{
    Begun, BookRow, BookRows, Booking, JobIds, JobKind, JobState, Names, PlannedJob, PlannedJobs,
    PushEnd, Refusal, Reply, TakenJob, add_reply,
};
use std::alloc::Global;
use std::test::Fail;
use voters::{Outcome, Verdict, VoterResult};

fn lease(number: u64) -> Result<Lease, Fail> {
    match Lease::new(number) {
        Some(lease) => Ok(lease),
        None => Err(Fail::new("no lease")),
    }
}

// One name a letter.
fn names(alloc: Global, letters: &str) -> Result<Names, Fail> {
    let mut names = Items::new(alloc);
    for letter in letters.as_bytes() {
        names.push(StorageName::read(&[*letter])?)?;
    }
    Ok(names)
}

fn verdict() -> Result<Verdict, Fail> {
    match Verdict::of(Hash([17; 20]), 2, 2, 3) {
        Some(verdict) => Ok(verdict),
        None => Err(Fail::new("no verdict")),
    }
}

fn of_votes(word: &str) -> Result<Option<Reply>, Fail> {
    let counted = |told| Reply::Counted {
        sub: 4,
        result: told,
    };
    Ok(Some(match word {
        "refused" => Reply::Refused(Refusal::NoSub(2)),
        "done" => Reply::Done,
        "opened" => Reply::Opened(TxId(9)),
        "undecided" => counted(VoterResult::Open),
        "counted" => counted(VoterResult::Committed(verdict()?)),
        "failed" => counted(VoterResult::Failed),
        "canceled" => counted(VoterResult::Canceled),
        "stopped" => counted(VoterResult::Stopped),
        "open" => Reply::OutcomeIs(Outcome::Open),
        "commit" => Reply::OutcomeIs(Outcome::Commit(Hash([17; 20]))),
        "fail" => Reply::OutcomeIs(Outcome::Fail),
        "stop" => Reply::OutcomeIs(Outcome::Stop),
        "committed push" => Reply::Finished(PushEnd::Committed(Gen(3))),
        "unsure push" => Reply::Finished(PushEnd::Unsure(Gen(3))),
        "undecided push" => Reply::Finished(PushEnd::NoQuorum),
        "canceled push" => Reply::Finished(PushEnd::Canceled),
        "stopped push" => Reply::Finished(PushEnd::Stopped),
        _ => return Ok(None),
    }))
}

fn row(name: u8, booking: Booking) -> Result<BookRow, Fail> {
    Ok(BookRow {
        storage: StorageId(7),
        name: StorageName::read(&[name])?,
        assigned: true,
        healthy: false,
        booking,
    })
}

fn doubt() -> Result<Booking, Fail> {
    Ok(Booking::Doubt {
        lease: lease(5)?,
        was: Gen(1),
        due: Gen(2),
    })
}

fn rows(alloc: Global) -> Result<BookRows, Fail> {
    let mut rows = Items::new(alloc);
    rows.push(row(b'a', Booking::At(Gen(2)))?)?;
    rows.push(row(b'b', doubt()?)?)?;
    rows.push(row(b'c', Booking::Absent)?)?;
    Ok(rows)
}

fn begun(alloc: Global, targets: &str) -> Result<Reply, Fail> {
    Ok(Reply::Begun(Begun {
        tx: TxId(1),
        lease: lease(2)?,
        generation: Gen(0),
        members: names(alloc, "ab")?,
        targets: names(alloc, targets)?,
    }))
}

fn of_bookings(alloc: Global, word: &str) -> Result<Option<Reply>, Fail> {
    Ok(Some(match word {
        "storage" => Reply::Storage(StorageId(2)),
        "created" => Reply::Created {
            repo: RepoId(0),
            lease: lease(1)?,
            assigned: names(alloc, "abc")?,
        },
        "begun" => begun(alloc, "c")?,
        "begun for all" => begun(alloc, "")?,
        "route" => Reply::Route {
            storage: StorageName::read(b"b")?,
            generation: Gen(4),
        },
        "assigned" => Reply::Assigned(names(alloc, "bc")?),
        "leased" => Reply::Leased(lease(18446744073709551614)?),
        "accepted" => Reply::Accepted(Gen(8)),
        "absent" => Reply::BookedIs(Booking::Absent),
        "at" => Reply::BookedIs(Booking::At(Gen(6))),
        "doubt" => Reply::BookedIs(doubt()?),
        "books" => Reply::Books {
            newest: Gen(2),
            rows: rows(alloc)?,
        },
        "repo" => Reply::Repo(RepoId(0)),
        "held" => Reply::HolderIs(Some(TxId(3))),
        "free" => Reply::HolderIs(None),
        _ => return Ok(None),
    }))
}

fn planned(job: u64, kind: JobKind, source: Option<StorageName>) -> Result<PlannedJob, Fail> {
    Ok(PlannedJob {
        job: JobId(job),
        kind,
        repo: RepoId(5),
        target: StorageName::read(b"b")?,
        source,
    })
}

fn jobs(alloc: Global) -> Result<PlannedJobs, Fail> {
    let mut jobs = Items::new(alloc);
    jobs.push(planned(1, JobKind::Update, Some(StorageName::read(b"a")?))?)?;
    jobs.push(planned(2, JobKind::Delete, None)?)?;
    Ok(jobs)
}

fn taken(kind: JobKind, source: Option<StorageName>) -> Result<Reply, Fail> {
    Ok(Reply::Taken(TakenJob {
        job: JobId(1),
        kind,
        repo: RepoId(0),
        target: StorageName::read(b"b")?,
        source,
        generation: Gen(3),
        lease: lease(4)?,
    }))
}

fn numbers(alloc: Global, count: u64) -> Result<JobIds, Fail> {
    let mut numbers = Items::new(alloc);
    for number in 0..count {
        numbers.push(JobId(number))?;
    }
    Ok(numbers)
}

fn of_jobs(alloc: Global, word: &str) -> Result<Reply, Fail> {
    Ok(match word {
        "update" => taken(JobKind::Update, Some(StorageName::read(b"a")?))?,
        "delete" => taken(JobKind::Delete, None)?,
        "dropped" => Reply::Dropped(JobId(7)),
        "nojob" => Reply::NoJob,
        "ready" => Reply::JobIs(JobState::Ready),
        "in progress" => Reply::JobIs(JobState::InProgress),
        "completed" => Reply::JobIs(JobState::Completed),
        "cancelled" => Reply::JobIs(JobState::Cancelled),
        "failed job" => Reply::JobIs(JobState::Failed),
        "dead" => Reply::JobIs(JobState::Dead),
        "stale" => Reply::StaleIs(numbers(alloc, 3)?),
        "none stale" => Reply::StaleIs(numbers(alloc, 0)?),
        "jobs" => Reply::JobsAre(jobs(alloc)?),
        "no jobs" => Reply::JobsAre(Items::new(alloc)),
        _ => return Err(Fail::new(format_args!("{word} is no reply"))),
    })
}

fn reply(alloc: Global, word: &str) -> Result<Reply, Fail> {
    if let Some(reply) = of_votes(word)? {
        return Ok(reply);
    }
    match of_bookings(alloc, word)? {
        Some(reply) => Ok(reply),
        None => of_jobs(alloc, word),
    }
}

const TEXTS: &str = "\
refused->refused NoSub 2
done->ok
opened->tx 9
undecided->open
counted->committed 1111111111111111111111111111111111111111 2/2
failed->failed
canceled->canceled
stopped->stopped
open->open
commit->commit 1111111111111111111111111111111111111111
fail->fail
stop->stop
committed push->committed 3
unsure push->unsure 3
undecided push->noquorum
canceled push->canceled
stopped push->stopped
storage->storage 2
created->created 0 lease 1 assigned a b c
begun->begun 1 lease 2 gen 0 members a b targets c
begun for all->begun 1 lease 2 gen 0 members a b targets -
route->route b gen 4
assigned->assigned b c
leased->lease 18446744073709551614
accepted->gen 8
absent->booked absent
at->booked at:6
doubt->booked doubt:5:1:2
books->newest 2 a=at:2 b=doubt:5:1:2 c=absent
repo->repo 0
held->holder 3
free->holder -
update->job 1 update 0 a>b gen 3 lease 4
delete->job 1 delete 0 b gen 3 lease 4
dropped->dropped 7
nojob->nojob
ready->ready
in progress->in_progress
completed->completed
cancelled->cancelled
failed job->failed
dead->dead
stale->stale 0 1 2
none stale->stale
jobs->jobs 1:update:5:a>b 2:delete:5:b
no jobs->jobs";

// Fails where the text of a reply, put behind another one, is not the wanted one.
fn compare(alloc: Global, reply: &Reply, want: &str) -> Result<(), Fail> {
    let mut text = Bytes::from_slice(alloc, b"before ")?;
    add_reply(&mut text, reply)?;
    let told = str::from_utf8(text.as_slice()).unwrap_or("?");
    if told.strip_prefix("before ") == Some(want) {
        return Ok(());
    }
    Err(Fail::new(format_args!("{want} is told as: {told}")))
}

#[test]
fn each_reply_is_one_line(rt: HostRuntime) -> Result<(), Fail> {
    let alloc = rt.alloc();
    for line in TEXTS.lines() {
        let Some((word, want)) = line.split_once("->") else {
            return Err(Fail::new("a line has no text"));
        };
        compare(alloc, &reply(alloc, word)?, want)?;
    }
    Ok(())
}

#[test]
fn a_long_list_of_jobs_is_told_whole(rt: HostRuntime) -> Result<(), Fail> {
    let alloc = rt.alloc();
    let mut want = String::from_str(alloc, "stale")?;
    for number in 0u64..1000 {
        want.push_str(format!(in alloc; " {number}")?.as_str())?;
    }
    let reply = Reply::StaleIs(numbers(alloc, 1000)?);
    compare(alloc, &reply, want.as_str())
}

// A virtual storage has at most 64 storages.
#[test]
fn the_bookings_of_a_full_virtual_storage_are_told(rt: HostRuntime) -> Result<(), Fail> {
    let alloc = rt.alloc();
    let mut rows = Items::new(alloc);
    let mut want = String::from_str(alloc, "newest 64")?;
    for number in 0u64..64 {
        rows.push(row(b'a', Booking::At(Gen(number)))?)?;
        want.push_str(format!(in alloc; " a=at:{number}")?.as_str())?;
    }
    let newest = Gen(64);
    compare(alloc, &Reply::Books { newest, rows }, want.as_str())
}
