//! What is read of the core without an operation, and what an operation's text leaves out.

use crate::book_calls::planned;
use crate::holders;
use crate::repositories::recorded;
use crate::words::{
    done, hash, lease, number, phase, refused, replied, repository, shown, storage, storage_name,
    text, transaction,
};
use px_base::{RepoId, RepoPath, StorageName, TxId};
use px_core::{Beginning, Core};
use px_ops::{BookRow, Op, Reply};
use std::alloc::Global;
use std::test::Fail;
use voters::Panel;

// A storage of a repository: its number, `+` where it is assigned and else `-`, its name, whether
// it is up, and what is booked of it.
fn row(alloc: Global, row: &BookRow) -> Result<String, Fail> {
    let sign = if row.assigned { "+" } else { "-" };
    let name = str::from_utf8(row.name.as_bytes()).unwrap_or("?");
    let health = if row.healthy { "up" } else { "down" };
    let booked = replied(alloc, &Reply::BookedIs(row.booking))?;
    let booked = booked.as_str().strip_prefix("booked ").unwrap_or("?");
    Ok(format!(in alloc; " {}{sign}{name}:{health}={booked}", row.storage.0)?)
}

// All that is told of the bookings of a repository.
fn rows(alloc: Global, core: &mut Core, repo: RepoId) -> Result<String, Fail> {
    match core.step(alloc, &Op::Booked { repo })? {
        Reply::Books { newest, rows } => {
            let mut told = format!(in alloc; "newest {}", newest.0)?;
            for known in rows.as_slice() {
                told.push_str(row(alloc, known)?.as_str())?;
            }
            Ok(told)
        }
        other => replied(alloc, &other),
    }
}

// Who votes, each as NAME:WEIGHT, and the threshold.
fn panel_of(alloc: Global, panel: &Panel) -> Result<String, Fail> {
    let mut told = String::new(alloc);
    for voter in panel.voters() {
        let name = str::from_utf8(voter.name.as_bytes()).unwrap_or("?");
        told.push_str(format!(in alloc; "{name}:{} ", voter.weight)?.as_str())?;
    }
    told.push_str(format!(in alloc; "by {}", panel.threshold())?.as_str())?;
    Ok(told)
}

// A part of a push that is to begin.
fn part(alloc: Global, plan: Beginning, name: &str) -> Result<String, Fail> {
    let Beginning {
        entry,
        push,
        panel,
        begun,
    } = plan;
    match name {
        "plan_entry" => recorded(alloc, &entry),
        "plan_push" => holders::shown(alloc, Some(&push)),
        "plan_panel" => panel_of(alloc, &panel),
        _ => replied(alloc, &Reply::Begun(begun)),
    }
}

fn plan(alloc: Global, core: &Core, name: &str, repo: RepoId) -> Result<String, Fail> {
    match core.plan_begin(alloc, repo)? {
        Some(plan) => part(alloc, plan, name),
        None => text(alloc, "-"),
    }
}

// The push that is to begin does.
fn begin(alloc: Global, core: &mut Core, repo: RepoId) -> Result<String, Fail> {
    match core.plan_begin(alloc, repo)? {
        Some(plan) => replied(alloc, &core.begin_as(alloc, plan)?),
        None => text(alloc, "-"),
    }
}

// A creation that is to come, or what the book then has of it.
fn creation(
    alloc: Global,
    core: &mut Core,
    name: &str,
    virt: &StorageName,
    path: &RepoPath,
    factor: u32,
) -> Result<String, Fail> {
    match core.creation(alloc, virt, path, factor)? {
        Some(creation) if name == "creation" => planned(alloc, &creation),
        Some(creation) => recorded(alloc, &creation.entry),
        None => text(alloc, "-"),
    }
}

fn path_on(alloc: Global, core: &Core, repo: RepoId, on: &str) -> Result<String, Fail> {
    match core.path_on(repo, storage(on)?) {
        Some(path) => text(alloc, str::from_utf8(path.as_bytes()).unwrap_or("?")),
        None => text(alloc, "-"),
    }
}

// Why a vote on an open push would be refused.
fn cause(
    alloc: Global,
    core: &Core,
    tx: TxId,
    voter: &StorageName,
    words: &[&str],
) -> Result<String, Fail> {
    let [word, digit] = words else {
        return Err(Fail::new("no vote"));
    };
    let (phase, hash) = (phase(*word)?, hash(alloc, *digit)?);
    if core.push(tx).is_none() {
        return text(alloc, "no push");
    }
    match core.cast_refusal(alloc, tx, voter, phase, &hash)? {
        Some(why) => refused(alloc, &why),
        None => text(alloc, "-"),
    }
}

// What is read of a repository.
fn of_repository(
    alloc: Global,
    core: &mut Core,
    name: &str,
    repo: RepoId,
    words: &[&str],
) -> Result<String, Fail> {
    match (name, words) {
        ("rows", []) => rows(alloc, core, repo),
        ("begin_as", []) => begin(alloc, core, repo),
        ("path_on", [on]) => path_on(alloc, core, repo, *on),
        ("may_enrol", [on, under]) => {
            let (on, under) = (storage(*on)?, lease(*under)?);
            done(alloc, core.may_enrol(repo, on, under))
        }
        (_, []) => plan(alloc, core, name, repo),
        _ => Err(Fail::new("no such call")),
    }
}

/// What is read of the core.
pub fn read(alloc: Global, core: &mut Core, name: &str, words: &[&str]) -> Result<String, Fail> {
    match (name, words) {
        ("storage_of", [name]) => number(alloc, core.storage_of(&storage_name(*name)?)),
        ("push", [tx]) => holders::shown(alloc, core.push(transaction(*tx)?)),
        ("member", [tx, voter]) => {
            let (tx, voter) = (transaction(*tx)?, storage_name(*voter)?);
            number(alloc, core.member(tx, &voter))
        }
        ("cast_refusal", [tx, voter, rest @ ..]) => {
            cause(alloc, core, transaction(*tx)?, &storage_name(*voter)?, rest)
        }
        ("creation" | "creation_entry", [virt, path, factor]) => {
            let (virt, factor) = (storage_name(*virt)?, factor.parse::<u32>()?);
            let path = RepoPath::read(alloc, path.as_bytes())?;
            creation(alloc, core, name, &virt, &path, factor)
        }
        (_, [repo, rest @ ..]) => of_repository(alloc, core, name, repository(*repo)?, rest),
        _ => Err(Fail::new("no such call")),
    }
}
