//! Lines and events at a world, and what it answers.

use px_base::{Bytes, JobId, Lease, MemSink, MemSource, RepoId, StorageName, TxId};
use px_world::{Answer, Event, Op, Refusal, RehearseEnd, Reply, World, add_line, rehearse};
use script_run::{Act, StateMachine};
use std::alloc::Global;
use std::test::Fail;
use tests_tables::play;
use voters::{Outcome, VoterResult};

// A line that is printed, without its line feed.
fn printed(bytes: &[u8]) -> &str {
    let text = str::from_utf8(bytes).unwrap_or("?");
    text.strip_suffix("\n").unwrap_or("no line feed")
}

// What a line comes to. What is printed of it is added to a text that holds a word.
fn act(alloc: Global, world: &mut World, line: &str) -> Result<String, Fail> {
    let mut text = Bytes::from_slice(alloc, b"before ")?;
    match world.act(alloc, line.as_bytes(), &mut text) {
        Act::Prints => Ok(String::from_str(alloc, printed(text.as_slice()))?),
        Act::Nothing => Ok(String::from_str(alloc, "nothing")?),
        Act::Bad => Ok(String::from_str(alloc, "bad")?),
        Act::Memory => Ok(String::from_str(alloc, "memory")?),
    }
}

// What is asked of the first job under the lease 2, or a taking of the next job of the storage `b`.
fn job_event(word: &str) -> Result<Event, Fail> {
    let Some(lease) = Lease::new(2) else {
        return Err(Fail::new("no lease"));
    };
    let (job, good) = (JobId(1), true);
    Ok(match word {
        "take" => Event::Take {
            name: StorageName::read(b"b")?,
            now: 5,
        },
        "snapshot" => Event::Snapshot { job, lease },
        "apply" => Event::Apply { job, lease },
        "remove" => Event::Remove { job, lease },
        "done" => Event::Operation(Op::Ack { job, lease, good }),
        _ => repair_event(word, lease)?,
    })
}

// What is asked of the storage `a` and the first repository, under a lease where there is one.
fn repair_event(word: &str, lease: Lease) -> Result<Event, Fail> {
    let (repo, name) = (RepoId(0), StorageName::read(b"a")?);
    Ok(match word {
        "read" => Event::Operation(Op::RouteRead { repo }),
        "accept" => Event::AcceptBegin { repo, name },
        "settle" => Event::SettleBegin { repo, name },
        "fence" => Event::Fence { name, repo, lease },
        "accepted" => Event::Accept { repo, name, lease },
        "settled" => Event::Settle { repo, name, lease },
        _ => return Err(Fail::new(format_args!("nothing is asked by {word}"))),
    })
}

// An event of which no text was read: an operation on the first transaction or the first repository, a
// stop of the second transaction, or what is asked of the storage `a`.
fn event(word: &str) -> Result<Event, Fail> {
    let (tx, sub, repo, name) = (TxId(1), 1, RepoId(0), StorageName::read(b"a")?);
    let op = match word {
        "collect" => Op::Collect {
            tx,
            voter: name,
            sub,
        },
        "outcome" => Op::Outcome { tx, sub },
        "stop" => Op::Stop { tx: TxId(2) },
        "begin" => Op::Begin { repo },
        "refs" => return Ok(Event::Refs { name, repo }),
        "commit" => return Ok(Event::Commit { tx, name }),
        _ => return job_event(word),
    };
    Ok(Event::Operation(op))
}

fn replied(reply: &Reply) -> &'static str {
    match reply {
        Reply::Counted {
            sub: 1,
            result: VoterResult::Open,
        } => "counted",
        Reply::OutcomeIs(Outcome::Open) => "outcome",
        Reply::Refused(Refusal::UnknownTx(TxId(2))) => "unknown",
        Reply::Refused(_) => "refusal",
        _ => "another",
    }
}

// The answer to an event, and its line.
fn step(alloc: Global, world: &mut World, asked: &Event) -> Result<String, Fail> {
    let answer = world.step(alloc, asked)?;
    let kind = match &answer {
        Answer::Replied(reply) => replied(reply),
        Answer::Done => "done",
        Answer::Voted(_) => "vote",
        Answer::Refs(_) => "references",
        Answer::Snapshot { .. } => "snapshot",
        Answer::Last(_) => "last",
    };
    let mut line = Bytes::new(alloc);
    add_line(&mut line, &answer)?;
    Ok(format!(in alloc; "{kind} {}", printed(line.as_slice()))?)
}

fn answer(alloc: Global, world: &mut World, name: &str, rest: &str) -> Result<String, Fail> {
    match name {
        "act" => act(alloc, world, rest),
        _ => step(alloc, world, &event(rest)?),
    }
}

const STEPS: &str = "\
    act open 1 1 a:1 -> before tx 1
    step collect -> counted open
    step outcome -> outcome open
    step stop -> unknown refused UnknownTx 2
    step begin -> refusal refused UnknownRepo
    step commit -> refusal refused UnknownStorage a
    act storage default a -> before storage 0
    step commit -> refusal refused NotOut
    step refs -> refusal refused NotOut
    act health a up -> before ok
    act create default x.git 1 -> before created 0 lease 1 assigned a
    step refs -> refusal refused NoRepo
    act make a 0 1 -> before done
    step refs -> references refs
    act nothing -> bad
    act # nothing -> nothing";

const STEPS_OF_A_JOB: &str = "\
    step take -> refusal refused UnknownStorage b
    act storage default a -> before storage 0
    act storage default b -> before storage 1
    act health a up -> before ok
    act health b up -> before ok
    act create default x.git 1 -> before created 0 lease 1 assigned a
    act make a 0 1 -> before done
    act enrol 0 a 1 -> before ok
    step take -> another nojob
    act factor 0 2 -> before assigned a b
    act reconcile -> before jobs 1:update:0:a>b
    step snapshot -> refusal refused NotOut
    step done -> refusal refused BadState ready
    step take -> another job 1 update 0 a>b gen 0 lease 2
    step apply -> refusal refused NotOut
    step done -> refusal refused NotAcked
    step snapshot -> snapshot snapshot 0 0
    step remove -> refusal refused NotOut
    step apply -> done done
    step done -> another completed
    act apply 1 2 -> before refused Fenced 3";

#[test]
fn the_steps_of_a_job_are_answered(rt: HostRuntime) -> Result<(), Fail> {
    let alloc = rt.alloc();
    play(alloc, &mut World::new(alloc), answer, STEPS_OF_A_JOB)
}

const STEPS_OF_A_REPAIR: &str = "\
    step read -> refusal refused UnknownRepo
    step accept -> refusal refused UnknownStorage a
    step settle -> refusal refused UnknownStorage a
    step fence -> refusal refused UnknownStorage a
    step accepted -> refusal refused UnknownStorage a
    step settled -> refusal refused UnknownStorage a
    act storage default a -> before storage 0
    act health a up -> before ok
    act create default x.git 1 -> before created 0 lease 1 assigned a
    step read -> refusal refused NoCurrentReplica 0 0
    step accept -> refusal refused NotBooked
    act make a 0 1 -> before done
    act enrol 0 a 1 -> before ok
    step read -> another route a gen 0
    step settle -> refusal refused NotInDoubt
    step fence -> refusal refused NotOut
    step accept -> another lease 2
    step accepted -> refusal refused NotAcked
    step fence -> last last -
    step settled -> refusal refused NotInDoubt
    step accepted -> another gen 1
    step read -> another route a gen 1
    act settled 0 a 2 -> before refused NotInDoubt
    act booked 0 -> before newest 1 a=at:1";

#[test]
fn the_steps_of_a_repair_are_answered(rt: HostRuntime) -> Result<(), Fail> {
    let alloc = rt.alloc();
    play(alloc, &mut World::new(alloc), answer, STEPS_OF_A_REPAIR)
}

#[test]
fn a_step_answers_and_its_reply_has_a_line(rt: HostRuntime) -> Result<(), Fail> {
    let alloc = rt.alloc();
    play(alloc, &mut World::new(alloc), answer, STEPS)
}

#[test]
fn an_empty_script_is_done(rt: HostRuntime) {
    let alloc = rt.alloc();
    let mut input = MemSource::new(Vec::new(alloc), Vec::new(alloc));
    let mut out = MemSink::new(alloc, Vec::new(alloc));
    assert!(rt; rehearse(alloc, &mut input, &mut out) == RehearseEnd::Done);
}
