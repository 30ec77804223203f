//! The operations of the core, as lines, each answered by the text of its reply.

use crate::by_hand::by_hand;
use crate::readings::read;
use crate::words::{
    hash, lease, phase, repository, shown, storage, storage_name, transaction, words,
};
use px_base::{Items, RepoPath, Voter};
use px_core::Core;
use px_ops::Op;
use std::alloc::Global;
use std::test::Fail;
use tests_tables::{compare, play};

/// Does an operation, and gives the text of its reply.
pub fn step(alloc: Global, core: &mut Core, asked: Op) -> Result<String, Fail> {
    shown(alloc, &core.step(alloc, &asked)?)
}

// What is asked by names.
fn by_names(alloc: Global, core: &mut Core, name: &str, words: &[&str]) -> Result<String, Fail> {
    let [first, second, rest @ ..] = words else {
        return Err(Fail::new("no names"));
    };
    let virt = storage_name(*first)?;
    match (name, rest) {
        ("admit", []) => {
            let name = storage_name(*second)?;
            step(alloc, core, Op::Admit { virt, name })
        }
        ("create", [factor]) => {
            let factor = factor.parse::<u32>()?;
            let path = RepoPath::read(alloc, second.as_bytes())?;
            step(alloc, core, Op::Create { virt, path, factor })
        }
        _ => {
            let path = RepoPath::read(alloc, second.as_bytes())?;
            step(alloc, core, Op::Find { virt, path })
        }
    }
}

// What is asked by numbers of repositories and storages.
fn by_numbers(alloc: Global, core: &mut Core, name: &str, words: &[&str]) -> Result<String, Fail> {
    match (name, words) {
        ("health", [on, word]) if *word == "up" || *word == "down" => {
            let (storage, up) = (storage(*on)?, *word == "up");
            step(alloc, core, Op::Health { storage, up })
        }
        ("enrol", [repo, on, under]) => {
            let (repo, storage, lease) = (repository(*repo)?, storage(*on)?, lease(*under)?);
            step(
                alloc,
                core,
                Op::Enrol {
                    repo,
                    storage,
                    lease,
                },
            )
        }
        ("begin", [repo]) => step(
            alloc,
            core,
            Op::Begin {
                repo: repository(*repo)?,
            },
        ),
        ("booked", [repo]) => step(
            alloc,
            core,
            Op::Booked {
                repo: repository(*repo)?,
            },
        ),
        (_, [repo]) => step(
            alloc,
            core,
            Op::Holder {
                repo: repository(*repo)?,
            },
        ),
        _ => Err(Fail::new("no such call")),
    }
}

// Voters, each as NAME:WEIGHT.
fn voters(alloc: Global, words: &[&str]) -> Result<Items<Voter>, Fail> {
    let mut voters = Items::new(alloc);
    for word in words {
        let Some((name, weight)) = word.split_once(":") else {
            return Err(Fail::new("no voter"));
        };
        voters.push(Voter {
            name: storage_name(name)?,
            weight: weight.parse::<u32>()?,
        })?;
    }
    Ok(voters)
}

// A transaction is opened, by a threshold, rounds and voters.
fn open(alloc: Global, core: &mut Core, words: &[&str]) -> Result<String, Fail> {
    let [threshold, rounds, panel @ ..] = words else {
        return Err(Fail::new("no transaction"));
    };
    let (threshold, rounds) = (threshold.parse::<u64>()?, rounds.parse::<u32>()?);
    let voters = voters(alloc, panel)?;
    step(
        alloc,
        core,
        Op::Open {
            threshold,
            rounds,
            voters,
        },
    )
}

// What is asked of a voter of a transaction.
fn of_voter(alloc: Global, core: &mut Core, name: &str, words: &[&str]) -> Result<String, Fail> {
    let [first, second, rest @ ..] = words else {
        return Err(Fail::new("no voter"));
    };
    let (tx, voter) = (transaction(*first)?, storage_name(*second)?);
    match (name, rest) {
        ("cast", [word, digit]) => {
            let (phase, hash) = (phase(*word)?, hash(alloc, *digit)?);
            step(
                alloc,
                core,
                Op::Cast {
                    tx,
                    voter,
                    phase,
                    hash,
                },
            )
        }
        ("collect", [sub]) => {
            let sub = sub.parse::<u32>()?;
            step(alloc, core, Op::Collect { tx, voter, sub })
        }
        _ => step(alloc, core, Op::Withdraw { tx, voter }),
    }
}

// What is asked of a transaction.
fn of_votes(alloc: Global, core: &mut Core, name: &str, words: &[&str]) -> Result<String, Fail> {
    let [first, rest @ ..] = words else {
        return Err(Fail::new("no transaction"));
    };
    let tx = transaction(*first)?;
    match (name, rest) {
        ("outcome", [sub]) => {
            let sub = sub.parse::<u32>()?;
            step(alloc, core, Op::Outcome { tx, sub })
        }
        ("cancel", []) => step(alloc, core, Op::Cancel { tx }),
        ("stop", []) => step(alloc, core, Op::Stop { tx }),
        ("close", []) => step(alloc, core, Op::Close { tx }),
        ("finish", []) => step(alloc, core, Op::Finish { tx }),
        _ => Err(Fail::new("no such call")),
    }
}

// An operation, or what is read of the core without one.
fn call(alloc: Global, core: &mut Core, name: &str, rest: &str) -> Result<String, Fail> {
    let words = words(alloc, rest)?;
    match name {
        "admit" | "create" | "find" => by_names(alloc, core, name, &words),
        "health" | "enrol" | "begin" | "booked" | "holder" => {
            by_numbers(alloc, core, name, &words)
        }
        "lease_to_accept"
        | "lease_to_settle"
        | "may_accept"
        | "may_settle"
        | "accept_begin"
        | "accept"
        | "settle_begin"
        | "settle" => by_hand(alloc, core, name, &words),
        "open" => open(alloc, core, &words),
        "cast" | "collect" | "withdraw" => of_voter(alloc, core, name, &words),
        "cancel" | "stop" | "close" | "finish" | "outcome" => of_votes(alloc, core, name, &words),
        _ => read(alloc, core, name, &words),
    }
}

// What is read of the first repositories and of a transaction, whose number stands for `#`.
const REPOSITORIES: &str = "\
    rows 0
    holder 0
    rows 1
    holder 1";

const TRANSACTION: &str = "\
    push #
    outcome # 1
    outcome # 2
    collect # a 1
    collect # a 2
    collect # b 1
    collect # b 2
    collect # c 1
    collect # c 2";

// The answers to calls that change nothing.
fn answers(alloc: Global, core: &mut Core, calls: &str) -> Result<String, Fail> {
    let mut told = String::new(alloc);
    for line in calls.lines() {
        let (name, rest) = line.trim_start().split_once(" ").unwrap_or((line, ""));
        let answer = call(alloc, core, name, rest)?;
        told.push_str(answer.as_str())?;
        told.push_str(", ")?;
    }
    Ok(told)
}

// What is read of the first repositories and of the first transactions.
fn readings(alloc: Global, core: &mut Core) -> Result<String, Fail> {
    let mut told = answers(alloc, core, REPOSITORIES)?;
    for number in ["1", "2", "3"] {
        let calls = TRANSACTION.replace(alloc, "#", number)?;
        told.push_str(answers(alloc, core, calls.as_str())?.as_str())?;
    }
    Ok(told)
}

/// Makes a call to the core. Where it is refused, all that is read of the core has to stay.
pub fn answer(alloc: Global, core: &mut Core, name: &str, rest: &str) -> Result<String, Fail> {
    let before = readings(alloc, core)?;
    let told = call(alloc, core, name, rest)?;
    if told.as_str().starts_with("refused ") {
        let after = readings(alloc, core)?;
        compare("a refusal", after.as_str(), before.as_str())?;
    }
    Ok(told)
}

/// Plays a table from a core on, the first lines of which are those of another one.
pub fn play_after(alloc: Global, first: &str, table: &str) -> Result<(), Fail> {
    let mut core = Core::new(alloc);
    play(alloc, &mut core, answer, first)?;
    play(alloc, &mut core, answer, table)
}

/// Plays a line for each number of a range, which stands for `#` in it.
pub fn play_each(
    alloc: Global,
    core: &mut Core,
    line: &str,
    first: u32,
    end: u32,
) -> Result<(), Fail> {
    for number in first..end {
        let number = format!(in alloc; "{number}")?;
        let line = line.replace(alloc, "#", number.as_str())?;
        play(alloc, core, answer, line.as_str())?;
    }
    Ok(())
}
