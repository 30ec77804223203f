//! Lines on storages, repositories and pushes, and what each asks.

use px_base::{Hash, JobId, Lease, Object, Push, StorageName, Update};
use px_ops::Op;
use px_script::{Event, ScriptLine, read_line};
use std::alloc::Global;
use std::test::Fail;
use tests_tables::play;

fn text(bytes: &[u8]) -> &str {
    str::from_utf8(bytes).unwrap_or("?")
}

fn named(name: &StorageName) -> &str {
    text(name.as_bytes())
}

// What was shown so far, and an update.
fn with_update(alloc: Global, shown: &str, update: &Update) -> Result<String, Fail> {
    let (old, new) = (update.old.text(), update.new.text());
    let at = text(update.name.as_bytes());
    Ok(format!(in alloc; "{shown}, {} > {} at {at}", text(&old), text(&new))?)
}

// The same, and an object.
fn with_object(alloc: Global, shown: &str, object: &Object) -> Result<String, Fail> {
    Ok(format!(in alloc; "{shown}, {:?} {:?}", object.kind(), object.content())?)
}

fn pushed(alloc: Global, start: String, push: &Push) -> Result<String, Fail> {
    let mut shown = start;
    for update in push.updates.as_slice() {
        shown = with_update(alloc, shown.as_str(), update)?;
    }
    for object in push.objects.as_slice() {
        shown = with_object(alloc, shown.as_str(), object)?;
    }
    Ok(shown)
}

// An operation on replication jobs.
fn job_operation(alloc: Global, op: &Op) -> Result<String, Fail> {
    Ok(match op {
        Op::Reconcile { only: None } => format!(in alloc; "plans for all")?,
        Op::Beat { job, lease, now } => {
            format!(in alloc; "{} goes on by {} at {now}", job.0, lease.number())?
        }
        Op::Ack { job, lease, good } => {
            format!(in alloc; "{} ends by {}, well is {good}", job.0, lease.number())?
        }
        Op::Stale { now, after } => format!(in alloc; "silent for {after} at {now}")?,
        Op::SetFactor { repo, factor } => format!(in alloc; "{} is on {factor}", repo.0)?,
        _ => format!(in alloc; "another operation")?,
    })
}

fn operation(alloc: Global, op: &Op) -> Result<String, Fail> {
    Ok(match op {
        Op::Admit { virt, name } => {
            format!(in alloc; "admits {} of {}", named(name), named(virt))?
        }
        Op::Create { virt, path, factor } => {
            let path = text(path.as_bytes());
            format!(in alloc; "creates {path} of {} on {factor}", named(virt))?
        }
        Op::Begin { repo } => format!(in alloc; "begins a push to {}", repo.0)?,
        Op::Finish { tx } => format!(in alloc; "finishes {}", tx.0)?,
        Op::RouteRead { repo } => format!(in alloc; "who answers a read of {}", repo.0)?,
        Op::Booked { repo } => format!(in alloc; "what is booked of {}", repo.0)?,
        Op::Holder { repo } => format!(in alloc; "who has {}", repo.0)?,
        _ => job_operation(alloc, op)?,
    })
}

// What is done for a job that was taken under a lease.
fn by_lease(alloc: Global, word: &str, job: JobId, lease: Lease) -> Result<String, Fail> {
    Ok(format!(in alloc; "{word} of {} by {}", job.0, lease.number())?)
}

// What is asked of a replica that is settled or accepted, behind its storage and its repository.
fn repair(alloc: Global, event: &Event) -> Result<String, Fail> {
    Ok(match event {
        Event::AcceptBegin { repo, name } => {
            format!(in alloc; "{} of {} is to be accepted", named(name), repo.0)?
        }
        Event::SettleBegin { repo, name } => {
            format!(in alloc; "{} of {} is to be settled", named(name), repo.0)?
        }
        Event::Fence { name, repo, lease } => {
            format!(in alloc;
                "{} of {} is fenced by {}",
                named(name),
                repo.0,
                lease.number()
            )?
        }
        Event::Accept { repo, name, lease } => {
            format!(in alloc;
                "{} of {} is accepted by {}",
                named(name),
                repo.0,
                lease.number()
            )?
        }
        Event::Settle { repo, name, lease } => {
            format!(in alloc;
                "{} of {} is settled by {}",
                named(name),
                repo.0,
                lease.number()
            )?
        }
        _ => format!(in alloc; "another event")?,
    })
}

fn asked(alloc: Global, event: &Event) -> Result<String, Fail> {
    Ok(match event {
        Event::Operation(op) => operation(alloc, op)?,
        Event::Health { name, up } => format!(in alloc; "{} is up is {up}", named(name))?,
        Event::Make { name, repo, lease } => {
            format!(in alloc; "{} makes {} by {}", named(name), repo.0, lease.number())?
        }
        Event::Enrol { repo, name, lease } => {
            format!(in alloc; "{} made {} by {}", named(name), repo.0, lease.number())?
        }
        Event::Prepare { tx, name, push } => {
            let start = format!(in alloc; "{} prepares {}", named(name), tx.0)?;
            pushed(alloc, start, push)?
        }
        Event::Commit { tx, name } => format!(in alloc; "{} commits {}", named(name), tx.0)?,
        Event::Abort { tx, name } => format!(in alloc; "{} aborts {}", named(name), tx.0)?,
        Event::Refs { name, repo } => {
            format!(in alloc; "references of {} at {}", repo.0, named(name))?
        }
        Event::Take { name, now } => format!(in alloc; "a job of {} at {now}", named(name))?,
        Event::Snapshot { job, lease } => by_lease(alloc, "snapshot", *job, *lease)?,
        Event::Apply { job, lease } => by_lease(alloc, "apply", *job, *lease)?,
        Event::Remove { job, lease } => by_lease(alloc, "remove", *job, *lease)?,
        _ => repair(alloc, event)?,
    })
}

// What a line asks. Each call has the line behind a word.
fn answer(alloc: Global, _: &mut (), _: &str, line: &str) -> Result<String, Fail> {
    match read_line(alloc, line.as_bytes()) {
        ScriptLine::Asks(event) => asked(alloc, &event),
        ScriptLine::Nothing => Ok(format!(in alloc; "nothing")?),
        ScriptLine::Bad => Ok(format!(in alloc; "bad")?),
        ScriptLine::Memory => Ok(format!(in alloc; "no memory")?),
    }
}

// The event of each kind, but that of a push.
const GOOD: &str = "\
    line storage v a-1.b_2 -> admits a-1.b_2 of v
    line health a up -> a is up is true
    line health a down -> a is up is false
    line create v @hashed/0a/x.git 4294967295 -> creates @hashed/0a/x.git of v on 4294967295
    line make a 0 18446744073709551614 -> a makes 0 by 18446744073709551614
    line enrol 4294967295 a 7 -> a made 4294967295 by 7
    line refs a 2 -> references of 2 at a
    line booked 0 -> what is booked of 0
    line holder 10 -> who has 10
    line begin 4294967295 -> begins a push to 4294967295
    line commit 18446744073709551615 a -> a commits 18446744073709551615
    line abort 1 b -> b aborts 1
    line finish 0 -> finishes 0";

#[test]
fn lines_on_storages_and_repositories_ask_for_their_events(rt: HostRuntime) -> Result<(), Fail> {
    play(rt.alloc(), &mut (), answer, GOOD)
}

// Numbers up to the greatest ones. A job of any number may be asked for.
const GOOD_OF_JOBS: &str = "\
    line reconcile -> plans for all
    line take a-1.b_2 0 -> a job of a-1.b_2 at 0
    line take a 18446744073709551615 -> a job of a at 18446744073709551615
    line snapshot 0 1 -> snapshot of 0 by 1
    line apply 18446744073709551615 2 -> apply of 18446744073709551615 by 2
    line remove 7 18446744073709551614 -> remove of 7 by 18446744073709551614
    line done 1 0 -> 1 ends by 0, well is true
    line fail 18446744073709551615 18446744073709551614 \
    -> 18446744073709551615 ends by 18446744073709551614, well is false
    line beat 1 2 3 -> 1 goes on by 2 at 3
    line beat 0 0 18446744073709551615 -> 0 goes on by 0 at 18446744073709551615
    line stale 5 6 -> silent for 6 at 5
    line stale 18446744073709551615 0 -> silent for 0 at 18446744073709551615
    line factor 1 2 -> 1 is on 2
    line factor 4294967295 4294967295 -> 4294967295 is on 4294967295";

#[test]
fn lines_on_jobs_ask_for_their_events(rt: HostRuntime) -> Result<(), Fail> {
    play(rt.alloc(), &mut (), answer, GOOD_OF_JOBS)
}

// The words of a fence stand in another order than those of what it is for.
const GOOD_OF_REPAIRS: &str = "\
    line read 0 -> who answers a read of 0
    line read 4294967295 -> who answers a read of 4294967295
    line accept 0 a-1.b_2 -> a-1.b_2 of 0 is to be accepted
    line accept 4294967295 7 -> 7 of 4294967295 is to be accepted
    line settle 0 a -> a of 0 is to be settled
    line settle 4294967295 a-1.b_2 -> a-1.b_2 of 4294967295 is to be settled
    line fence a 0 0 -> a of 0 is fenced by 0
    line fence 1 2 3 -> 1 of 2 is fenced by 3
    line fence a 4294967295 18446744073709551614 \
    -> a of 4294967295 is fenced by 18446744073709551614
    line accepted 0 a 0 -> a of 0 is accepted by 0
    line accepted 1 2 3 -> 2 of 1 is accepted by 3
    line accepted 4294967295 a 18446744073709551614 \
    -> a of 4294967295 is accepted by 18446744073709551614
    line settled 0 a 0 -> a of 0 is settled by 0
    line settled 1 2 3 -> 2 of 1 is settled by 3
    line settled 4294967295 a 18446744073709551614 \
    -> a of 4294967295 is settled by 18446744073709551614";

#[test]
fn lines_on_reads_and_repairs_ask_for_their_events(rt: HostRuntime) -> Result<(), Fail> {
    play(rt.alloc(), &mut (), answer, GOOD_OF_REPAIRS)
}

// The greatest number of an object's name is 40 times f. The bytes of `Hi` are 72 and 105.
const PUSHES: &str = "\
    line prepare 1 a -> a prepares 1
    line prepare 1 a with -> a prepares 1
    line prepare 2 a \
    0000000000000000000000000000000000000000:\
    ffffffffffffffffffffffffffffffffffffffff:refs/heads/main \
    -> a prepares 2, \
    0000000000000000000000000000000000000000 > \
    ffffffffffffffffffffffffffffffffffffffff at refs/heads/main
    line prepare 3 b \
    1111111111111111111111111111111111111111:\
    2222222222222222222222222222222222222222:refs/heads/a \
    1111111111111111111111111111111111111111:\
    1111111111111111111111111111111111111111:refs/heads/a \
    with blob: tree:4869 commit:00ff tag:0a blob:0a \
    -> b prepares 3, \
    1111111111111111111111111111111111111111 > \
    2222222222222222222222222222222222222222 at refs/heads/a, \
    1111111111111111111111111111111111111111 > \
    1111111111111111111111111111111111111111 at refs/heads/a, \
    Blob [], Tree [72, 105], Commit [0, 255], Tag [10], Blob [10]";

#[test]
fn a_push_is_read_with_its_updates_and_its_objects(rt: HostRuntime) -> Result<(), Fail> {
    play(rt.alloc(), &mut (), answer, PUSHES)
}

// A line each, behind what is bad about it.
const BAD: &str = "\
    a word too few: storage v
    a word too many: storage v a b
    two spaces: storage v  a
    a slash in a name: storage v a/b
    another state: health a UP
    no state: health a
    a path with a slash in front: create v /x 1
    a path that goes up: create v x/../y 1
    an empty path: create v  1
    a factor above its range: create v x 4294967296
    a sign: create v x +1
    no factor: create v x
    a lease above its range: make a 0 18446744073709551615
    a repository above its range: make a 4294967296 1
    no lease: make a 0
    words in another order: enrol a 0 1
    the same lease: enrol 0 a 18446744073709551615
    a leading zero: refs a 01
    a name too long: refs nnnnnnnnnnnnnnnnnnnnnnnnnnnnnnnnnnnnnnnnnnnnnnnnnnnnnnnnnnnnnnnnn 0
    another repository above its range: booked 4294967296
    a repository too many: holder 1 1
    no repository: begin
    an empty word: begin\x20
    a transaction above its range: commit 18446744073709551616 a
    no storage: abort 1
    a storage too many: finish 1 a
    another case: Finish 1
    a transaction that is no number: prepare x a
    no storage to prepare: prepare 1
    a space at the end: prepare 1 a with\x20
    two spaces before a word: prepare 1 a  with
    an object before the word: prepare 1 a blob:00
    an upper-case object: prepare 1 a \
        0000000000000000000000000000000000000000:\
        AAAAAAAAAAAAAAAAAAAAAAAAAAAAAAAAAAAAAAAA:refs/heads/a
    a digit too few: prepare 1 a \
        000000000000000000000000000000000000000:\
        1111111111111111111111111111111111111111:refs/heads/a
    an odd digit: prepare 1 a with blob:0
    an upper-case digit: prepare 1 a with blob:0A
    another kind: prepare 1 a with file:00
    no kind: prepare 1 a with :00
    no colon: prepare 1 a with blob
    the word twice: prepare 1 a with with
    the word once more: prepare 1 a with blob: with
    the word in another case: prepare 1 a With";

// The same, of updates: each has the zero name and another one in front of what is told here.
const BAD_UPDATES: &str = "\
    no reference:
    an empty reference: :
    a reference outside of refs: :heads/a
    two dots: :refs/heads/a..b
    a colon in the reference: :refs/heads/a:b
    a lock: :refs/heads/a.lock
    a slash at the end: :refs/heads/
    a digit too many: 1:refs/heads/a";

// The same, of jobs.
const BAD_OF_JOBS: &str = "\
    a repository too many: reconcile 0
    a word at the end: reconcile\x20
    another case: Reconcile
    no moment: take a
    no storage: take 1
    a moment above its range: take a 18446744073709551616
    a moment too many: take a 1 2
    a name and a slash: take a/b 1
    no lease: snapshot 1
    a lease above its range: snapshot 1 18446744073709551615
    a job above its range: apply 18446744073709551616 1
    a lease above its range for an apply: apply 1 18446744073709551615
    a storage in place of a job: remove a 1
    a word too many: remove 1 1 1
    a lease above its range at a good end: done 1 18446744073709551615
    no lease at an end: done 1
    a lease above its range at a bad end: fail 1 18446744073709551615
    a leading zero: fail 01 1
    no moment of a beat: beat 1 1
    a moment of a beat above its range: beat 1 1 18446744073709551616
    a lease of a beat above its range: beat 1 18446744073709551615 1
    one number alone: stale 1
    a silence above its range: stale 1 18446744073709551616
    a time above its range: stale 18446744073709551616 1
    a number too many: stale 1 1 1
    no factor: factor 0
    a factor above its range: factor 0 4294967296
    a repository above its range: factor 4294967296 1
    a sign: factor 0 +1
    two spaces: factor 0  1";

// The same, of reads and repairs.
const BAD_OF_REPAIRS: &str = "\
    no repository to read: read
    a repository to read above its range: read 4294967296
    a storage to read: read 0 a
    a name to read: read a
    a leading zero: read 00
    a space at the end: read 0\x20
    no storage to accept: accept 0
    a repository at the end: accept a 0
    a lease to accept by: accept 0 a 1
    a repository to accept above its range: accept 4294967296 a
    no storage to settle: settle 0
    a lease to settle by: settle 0 a 1
    a repository to settle above its range: settle 4294967296 a
    a slash in a name: settle 0 a/b
    another case: Settle 0 a
    two spaces: settle 0  a
    no lease of a fence: fence a 0
    a repository in front of a fence: fence 0 a 1
    a word too many of a fence: fence a 0 1 1
    a repository of a fence above its range: fence a 4294967296 1
    a lease of a fence above its range: fence a 0 18446744073709551615
    no lease that was accepted: accepted 0 a
    a storage in front: accepted a 0 1
    a lease that was accepted above its range: accepted 0 a 18446744073709551615
    a word too many of what was accepted: accepted 0 a 1 1
    no lease that was settled: settled 0 a
    a storage in front of a settled one: settled a 0 1
    a lease that was settled above its range: settled 0 a 18446744073709551615
    a sign: settled 0 a +1
    a last lease: settled 0 a 1 -";

fn is_bad(alloc: Global, line: &str) -> bool {
    matches!(read_line(alloc, line.as_bytes()), ScriptLine::Bad)
}

// Fails at the first line of a table that is not bad.
fn all_bad(alloc: Global, table: &str) -> Result<(), Fail> {
    for row in table.split("\n") {
        let (_, line) = row.split_once(": ").unwrap_or((row, ""));
        if !is_bad(alloc, line) {
            return Err(Fail::new(format_args!("{row} is not bad")));
        }
    }
    Ok(())
}

#[test]
fn a_line_in_another_form_is_bad(rt: HostRuntime) -> Result<(), Fail> {
    all_bad(rt.alloc(), BAD)?;
    all_bad(rt.alloc(), BAD_OF_JOBS)?;
    all_bad(rt.alloc(), BAD_OF_REPAIRS)
}

#[test]
fn an_update_in_another_form_is_bad(rt: HostRuntime) -> Result<(), Fail> {
    let alloc = rt.alloc();
    let (zero, one) = (Hash::zero().text(), Hash([17; 20]).text());
    for row in BAD_UPDATES.split("\n") {
        let (_, rest) = row.split_once(":").unwrap_or((row, ""));
        let rest = rest.strip_prefix(" ").unwrap_or(rest);
        let line = format!(in alloc; "prepare 1 a {}:{}{rest}", text(&zero), text(&one))?;
        assert!(rt; is_bad(alloc, line.as_str()), "{row}");
    }
    Ok(())
}
