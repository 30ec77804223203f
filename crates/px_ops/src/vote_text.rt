//! The texts of what votes and pushes come to.

ghost use Rattle.std.specs.Prelude.{◌≡◌, ◌++◌, OnOk};
ghost use Rattle.px_ops.specs.VoteTexts.{end_text, outcome_text, phase_word, result_text};

use crate::PushEnd;
use crate::fields::{Added, add, add_hash, add_number};
use px_base::{Bytes, Phase};
use voters::{Outcome, Verdict, VoterResult};

/// A phase as one word.
pub fn phase_word(phase: Phase) -> &'static [u8]
    ensures { result.now ≡ phase_word phase }
{
    match phase {
        Phase::Prepared => b"prepared",
        Phase::Committed => b"committed",
    }
}

fn add_verdict(text: &mut Bytes, verdict: &Verdict) -> Added
    ensures { OnOk result (text.new ≡ text.old ++ result_text (VoterResult.Committed verdict.now)) }
{
    add_hash(text, b"committed ", &verdict.hash())?;
    add_number(text, b" ", verdict.reached())?;
    add_number(text, b"/", verdict.threshold())
}

/// Adds what a voter's vote came to.
pub fn add_result(text: &mut Bytes, counted: &VoterResult) -> Added
    ensures { OnOk result (text.new ≡ text.old ++ result_text counted.now) }
{
    match counted {
        VoterResult::Open => add(text, b"open"),
        VoterResult::Committed(verdict) => add_verdict(text, verdict),
        VoterResult::Failed => add(text, b"failed"),
        VoterResult::Canceled => add(text, b"canceled"),
        VoterResult::Stopped => add(text, b"stopped"),
    }
}

/// Adds what all votes came to.
pub fn add_outcome(text: &mut Bytes, outcome: &Outcome) -> Added
    ensures { OnOk result (text.new ≡ text.old ++ outcome_text outcome.now) }
{
    match outcome {
        Outcome::Open => add(text, b"open"),
        Outcome::Commit(hash) => add_hash(text, b"commit ", hash),
        Outcome::Fail => add(text, b"fail"),
        Outcome::Stop => add(text, b"stop"),
    }
}

/// Adds what a push came to.
pub fn add_end(text: &mut Bytes, end: &PushEnd) -> Added
    ensures { OnOk result (text.new ≡ text.old ++ end_text end.now) }
{
    match end {
        PushEnd::Committed(generation) => add_number(text, b"committed ", generation.0),
        PushEnd::Unsure(generation) => add_number(text, b"unsure ", generation.0),
        PushEnd::NoQuorum => add(text, b"noquorum"),
        PushEnd::Canceled => add(text, b"canceled"),
        PushEnd::Stopped => add(text, b"stopped"),
    }
}
