//! The lines on transactions and their votes.

ghost use Rattle.std.specs.Prelude.{◌≡◌, IfOk, OnErr, codes};
ghost use Rattle.px_script.specs.VoteReading.{cast_of, collect_of, open_of, outcome_of};
ghost use Rattle.px_script.specs.VoteReading.{vote_of, withdraw_of};

use crate::line_words::{LineWords, is_text};
use crate::voter_list::read_voters;
use px_base::TxId;
use px_ops::Op;
use std::alloc::{AllocError, Global};

// `open T ROUNDS NAME:WEIGHT ..`: a threshold, the number of rounds, and the voters.
fn open(alloc: Global, words: &mut LineWords<'_>) -> Result<Option<Op>, AllocError>
    ensures { IfOk result (λ op. op ≡ open_of words.old) }
{
    let Some(threshold) = words.number() else {
        return Ok(None);
    };
    let Some(rounds) = words.small() else {
        return Ok(None);
    };
    let Some(voters) = read_voters(alloc, words)? else {
        return Ok(None);
    };
    Ok(Some(Op::Open {
        threshold,
        rounds,
        voters,
    }))
}

// `cast TX VOTER prepared HASH` or `cast TX VOTER committed HASH`
fn cast(words: &mut LineWords<'_>) -> Option<Op>
    ensures { result ≡ cast_of words.old }
{
    let tx = TxId(words.number()?);
    let voter = words.name()?;
    let phase = words.phase()?;
    let hash = words.hash()?;
    words.end()?;
    Some(Op::Cast {
        tx,
        voter,
        phase,
        hash,
    })
}

// `withdraw TX VOTER`
fn withdraw(words: &mut LineWords<'_>) -> Option<Op>
    ensures { result ≡ withdraw_of words.old }
{
    let tx = TxId(words.number()?);
    let voter = words.name()?;
    words.end()?;
    Some(Op::Withdraw { tx, voter })
}

// `collect TX VOTER SUB`
fn collect(words: &mut LineWords<'_>) -> Option<Op>
    ensures { result ≡ collect_of words.old }
{
    let tx = TxId(words.number()?);
    let voter = words.name()?;
    let sub = words.small()?;
    words.end()?;
    Some(Op::Collect { tx, voter, sub })
}

// `outcome TX SUB`
fn outcome(words: &mut LineWords<'_>) -> Option<Op>
    ensures { result ≡ outcome_of words.old }
{
    let tx = TxId(words.number()?);
    let sub = words.small()?;
    words.end()?;
    Some(Op::Outcome { tx, sub })
}

/// The operation of a line on votes, by its first word and those behind it. `None` where the line is
/// none of these. Takes memory for the voters of `open` alone.
pub fn read_vote(
    alloc: Global,
    first: &[u8],
    words: &mut LineWords<'_>,
) -> Result<Option<Op>, AllocError>
    ensures op { IfOk result (λ op. op ≡ vote_of first.now words.old) }
    ensures memory { OnErr result (first.now ≡ codes "open") }
{
    if is_text(first, b"open") {
        return open(alloc, words);
    }
    if is_text(first, b"cast") {
        return Ok(cast(words));
    }
    if is_text(first, b"withdraw") {
        return Ok(withdraw(words));
    }
    if is_text(first, b"cancel") {
        return Ok(words.only_tx().map(|tx| Op::Cancel { tx }));
    }
    if is_text(first, b"stop") {
        return Ok(words.only_tx().map(|tx| Op::Stop { tx }));
    }
    if is_text(first, b"close") {
        return Ok(words.only_tx().map(|tx| Op::Close { tx }));
    }
    if is_text(first, b"collect") {
        return Ok(collect(words));
    }
    if is_text(first, b"outcome") {
        return Ok(outcome(words));
    }
    Ok(None)
}
