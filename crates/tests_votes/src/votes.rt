//! Panels, votes and verdicts.

use px_base::{Hash, StorageName};
use std::alloc::Global;
use std::test::Fail;
use tests_tables::{play, told};
use voters::{Panel, Sub, Verdict, Voter};

/// A hash by its color.
pub fn hash(color: &str) -> Hash {
    Hash(if color == "red" { [1; 20] } else { [2; 20] })
}

fn voters(alloc: Global, names: &[u8], weight: u32) -> Result<Vec<Voter>, Fail> {
    let mut list = Vec::new(alloc);
    for name in names {
        let name = StorageName::read(&[*name])?;
        list.push(Voter { name, weight })?;
    }
    Ok(list)
}

/// A panel of voters of one letter and one weight each.
pub fn panel(alloc: Global, names: &[u8], weight: u32, threshold: u64) -> Result<Panel, Fail> {
    Ok(Panel::new(alloc, &voters(alloc, names, weight)?, threshold)?)
}

// The total weight, the threshold and the number of voters of a panel, or why there is none.
fn paneled(alloc: Global, names: &[u8], weight: u32, threshold: u64) -> Result<String, Fail> {
    match Panel::new(alloc, &voters(alloc, names, weight)?, threshold) {
        Ok(panel) => {
            let (total, count) = (panel.total(), panel.voters().len());
            Ok(format!(in alloc; "{total} {} {count}", panel.threshold())?)
        }
        Err(refusal) => told(alloc, refusal),
    }
}

// A verdict for red: whether that is its hash, and its three weights.
fn verdict(alloc: Global, reached: u64, threshold: u64, total: u64) -> Result<String, Fail> {
    match Verdict::of(hash("red"), reached, threshold, total) {
        Some(verdict) => {
            let red = verdict.hash() == hash("red");
            let (reached, total) = (verdict.reached(), verdict.total());
            Ok(format!(in alloc; "{red} {reached} {} {total}", verdict.threshold())?)
        }
        None => Ok(String::from_str(alloc, "none")?),
    }
}

// What panels and verdicts are made as. Each call has three words.
fn make(alloc: Global, _: &mut (), name: &str, rest: &str) -> Result<String, Fail> {
    let mut words = rest.split_whitespace();
    let first = words.next().unwrap_or("");
    let second = words.next().unwrap_or("").parse::<u64>()?;
    let third = words.next().unwrap_or("").parse::<u64>()?;
    match name {
        "panel" => paneled(alloc, first.as_bytes(), u32::try_from(second)?, third),
        "nobody" => paneled(alloc, b"", 1, third),
        _ => verdict(alloc, first.parse::<u64>()?, second, third),
    }
}

// Two voters, the weight of each, and the threshold.
const PANELS: &str = "\
    panel ab 1 2 -> 2 2 2
    panel ab 1 1 -> BadThreshold { total: 2, threshold: 1 }
    panel ab 2 3 -> 4 3 2
    panel ab 2 5 -> BadThreshold { total: 4, threshold: 5 }
    panel ab 0 0 -> BadThreshold { total: 0, threshold: 0 }
    panel ab 4294967295 4294967296 -> 8589934590 4294967296 2
    nobody 0 0 1 -> NoVoters";

#[test]
fn a_panel_needs_a_threshold_above_half_that_it_can_reach(rt: HostRuntime) -> Result<(), Fail> {
    play(rt.alloc(), &mut (), make, PANELS)
}

// The 64 letters, digits and marks of which each is a name, and the point beside them.
const NAMES: &[u8] = b"ABCDEFGHIJKLMNOPQRSTUVWXYZabcdefghijklmnopqrstuvwxyz0123456789-_.";

#[test]
fn a_panel_has_up_to_64_voters(rt: HostRuntime) -> Result<(), Fail> {
    let alloc = rt.alloc();
    let mut sub = Sub::new(alloc, &panel(alloc, &NAMES[..64], 1, 64)?)?;
    play(
        alloc,
        &mut sub,
        answer,
        "len -> 64\ncast 63 red -> Ok(Open)\ncast 64 red -> Err(NotAVoter)",
    )?;
    let more = paneled(alloc, NAMES, 1, 64)?;
    assert_eq!(rt; more.as_str(), "TooManyVoters { n: 65 }");
    Ok(())
}

// What is reached, the threshold, and the total; the last number is 2^64 - 1.
const VERDICTS: &str = "\
    verdict 2 2 3 -> true 2 2 3
    verdict 1 2 3 -> none
    verdict 2 2 4 -> none
    verdict 4 2 3 -> none
    verdict 18446744073709551615 18446744073709551615 18446744073709551615 -> true \
        18446744073709551615 18446744073709551615 18446744073709551615";

#[test]
fn a_verdict_needs_a_threshold_above_half_that_is_reached(rt: HostRuntime) -> Result<(), Fail> {
    play(rt.alloc(), &mut (), make, VERDICTS)
}

fn answer(alloc: Global, sub: &mut Sub, name: &str, rest: &str) -> Result<String, Fail> {
    let (voter, color) = rest.split_once(" ").unwrap_or((rest, ""));
    let voter = voter.parse::<u32>().unwrap_or(0);
    match name {
        "len" => told(alloc, sub.len()),
        "cast" => told(alloc, sub.cast(voter, &hash(color))),
        "cancel" => told(alloc, sub.cancel(voter)),
        "cancel_all" => told(alloc, sub.cancel_all()),
        "stop" => told(alloc, sub.stop()),
        "result" => told(alloc, sub.result(voter)),
        _ => told(alloc, sub.outcome()),
    }
}

// Makes the calls of a table to a vote of three voters with this threshold.
fn play_votes(alloc: Global, threshold: u64, table: &str) -> Result<(), Fail> {
    let mut sub = Sub::new(alloc, &panel(alloc, b"abc", 1, threshold)?)?;
    play(alloc, &mut sub, answer, table)
}

// The hash of red is twenty ones, and that of blue is twenty twos.
const DECIDED: &str = "\
    len -> 3
    cast 0 red -> Ok(Open)
    outcome -> Open
    cast 1 red -> Ok(Committed(Verdict { hash: \
        Hash([1, 1, 1, 1, 1, 1, 1, 1, 1, 1, 1, 1, 1, 1, 1, 1, 1, 1, 1, 1]), \
        reached: 2, threshold: 2, total: 3 }))
    outcome -> Commit(Hash([1, 1, 1, 1, 1, 1, 1, 1, 1, 1, 1, 1, 1, 1, 1, 1, 1, 1, 1, 1]))
    result 0 -> Some(Committed(Verdict { hash: \
        Hash([1, 1, 1, 1, 1, 1, 1, 1, 1, 1, 1, 1, 1, 1, 1, 1, 1, 1, 1, 1]), \
        reached: 2, threshold: 2, total: 3 }))
    cast 2 blue -> Ok(Failed)
    cast 2 red -> Err(AlreadyVoted(\
        Hash([2, 2, 2, 2, 2, 2, 2, 2, 2, 2, 2, 2, 2, 2, 2, 2, 2, 2, 2, 2])))
    cast 3 red -> Err(NotAVoter)
    cancel 2 -> Err(Decided)
    stop -> Err(Decided)
    cancel_all -> 0
    result 3 -> None";

#[test]
fn two_of_three_decide(rt: HostRuntime) -> Result<(), Fail> {
    play_votes(rt.alloc(), 2, DECIDED)
}

// The first cancel fails the vote, and still all three are canceled.
const CANCELED: &str = "\
    cast 0 red -> Ok(Open)
    cancel_all -> 3
    outcome -> Fail
    result 0 -> Some(Canceled)";

const FAILED: &str = "\
    cancel 1 -> Ok(())
    outcome -> Fail";

const STOPPED: &str = "\
    stop -> Ok(())
    stop -> Err(Stopped)
    outcome -> Stop
    cast 0 red -> Err(Stopped)
    result 0 -> Some(Stopped)";

#[test]
fn votes_end_by_cancels_and_stops(rt: HostRuntime) -> Result<(), Fail> {
    play_votes(rt.alloc(), 3, CANCELED)?;
    play_votes(rt.alloc(), 3, FAILED)?;
    play_votes(rt.alloc(), 3, STOPPED)
}
