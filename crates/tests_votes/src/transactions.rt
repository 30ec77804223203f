//! Transactions of several votes, and their manager.

use crate::votes::{hash, panel};
use px_base::{Phase, StorageName, TxId};
use std::alloc::Global;
use std::test::Fail;
use tests_tables::{play, told};
use txmanager::{Manager, are_lawful_rounds};

// All calls are on this transaction.
const TX: TxId = TxId(7);

// A vote for red of a voter in a phase.
fn cast(alloc: Global, manager: &mut Manager, text: &str) -> Result<String, Fail> {
    let (name, word) = text.split_once(" ").unwrap_or((text, ""));
    let phase = if word == "prepared" {
        Phase::Prepared
    } else {
        Phase::Committed
    };
    let name = StorageName::read(name.as_bytes())?;
    told(alloc, manager.cast(TX, &name, phase, &hash("red")))
}

// The result of a voter in a vote.
fn collect(alloc: Global, manager: &Manager, text: &str) -> Result<String, Fail> {
    let (name, sub) = text.split_once(" ").unwrap_or((text, ""));
    let name = StorageName::read(name.as_bytes())?;
    told(alloc, manager.collect(TX, &name, sub.parse::<u32>()?))
}

// Registers two voters, of whom both have to vote for the same, where nothing is registered.
fn register(alloc: Global, manager: &mut Manager, rounds: &str) -> Result<String, Fail> {
    let panel = panel(alloc, b"ab", 1, 2)?;
    let mut fresh = Manager::new(alloc);
    let answer = fresh.register(alloc, TX, &panel, rounds.parse::<u32>()?);
    *manager = fresh;
    told(alloc, answer)
}

fn answer(alloc: Global, manager: &mut Manager, name: &str, rest: &str) -> Result<String, Fail> {
    match name {
        "register" => register(alloc, manager, rest),
        "lawful" => told(alloc, are_lawful_rounds(rest.parse::<u32>()?)),
        "cast" => cast(alloc, manager, rest),
        "collect" => collect(alloc, manager, rest),
        "outcome" => told(alloc, manager.outcome(TX, rest.parse::<u32>()?)),
        "withdraw" => {
            told(
                alloc,
                manager.cancel_voter(TX, &StorageName::read(rest.as_bytes())?),
            )
        }
        "stop" => told(alloc, manager.stop(TX)),
        "cancel" => told(alloc, manager.cancel(TX)),
        _ => told(alloc, manager.close(TX)),
    }
}

const CALLS: &str = "\
    register 9 -> Err(BadRounds { n: 9 })
    lawful 8 -> true
    register 1 -> Ok(())
    cast a prepared -> Ok((1, Open))
    cast b prepared -> Ok((1, Committed(Verdict { hash: \
        Hash([1, 1, 1, 1, 1, 1, 1, 1, 1, 1, 1, 1, 1, 1, 1, 1, 1, 1, 1, 1]), \
        reached: 2, threshold: 2, total: 2 })))
    outcome 1 -> Ok(Commit(Hash([1, 1, 1, 1, 1, 1, 1, 1, 1, 1, 1, 1, 1, 1, 1, 1, 1, 1, 1, 1])))
    cast a committed -> Ok((2, Open))
    withdraw b -> Ok(())
    collect b 2 -> Ok(Canceled)
    outcome 2 -> Ok(Fail)
    stop -> Err(Decided)
    cancel -> Ok(())
    close -> Ok(())
    close -> Err(UnknownTx(TxId(7)))";

#[test]
fn a_transaction_is_registered_voted_on_and_closed(rt: HostRuntime) -> Result<(), Fail> {
    play(rt.alloc(), &mut Manager::new(rt.alloc()), answer, CALLS)
}

// Eight rounds are two votes each, and nine are refused.
const EIGHT: &str = "\
    register 8 -> Ok(())
    outcome 16 -> Ok(Open)
    outcome 17 -> Err(NoSub(17))
    cast a prepared -> Ok((1, Open))
    stop -> Ok(())
    collect a 16 -> Ok(Stopped)";

#[test]
fn a_transaction_has_up_to_eight_rounds(rt: HostRuntime) -> Result<(), Fail> {
    play(rt.alloc(), &mut Manager::new(rt.alloc()), answer, EIGHT)
}
