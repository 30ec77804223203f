//! The texts of refusals.

ghost use Rattle.std.specs.Prelude.{◌≡◌, ◌++◌, IfNone, IfSome, OnOk};
ghost use Rattle.px_ops.specs.Fields.{number_field};
ghost use Rattle.px_ops.specs.RefusalTexts.{HasFields, node_refusal_text, refusal_text};

use crate::fields::{Added, add, add_hash, add_name, add_number};
use crate::job_text::state_word;
use crate::vote_text::phase_word;
use crate::{NodeRefusal, Refusal};
use px_base::{Bytes, StorageName};
use std::alloc::AllocError;

/// Adds the text of a node's refusal.
pub fn add_node_refusal(text: &mut Bytes, refusal: &NodeRefusal) -> Result<(), AllocError>
    ensures { OnOk result (text.new ≡ text.old ++ node_refusal_text refusal.now) }
{
    match refusal {
        NodeRefusal::Fenced { fence } => add_number(text, b"Fenced ", *fence),
        NodeRefusal::NoRepo => add(text, b"NoRepo"),
        NodeRefusal::RepoExists => add(text, b"RepoExists"),
        NodeRefusal::NotPrepared => add(text, b"NotPrepared"),
        NodeRefusal::VoteDiffers { have } => add_hash(text, b"VoteDiffers ", have),
        NodeRefusal::Empty => add(text, b"Empty"),
        NodeRefusal::Void { name } => add_name(text, b"Void ", name.as_bytes()),
        NodeRefusal::Twice { name } => add_name(text, b"Twice ", name.as_bytes()),
        NodeRefusal::Stale { name, have } => {
            add_name(text, b"Stale ", name.as_bytes())?;
            add_hash(text, b" ", have)
        }
        NodeRefusal::Conflict { name, with } => {
            add_name(text, b"Conflict ", name.as_bytes())?;
            add_name(text, b" ", with.as_bytes())
        }
        NodeRefusal::TooManyRefs => add(text, b"TooManyRefs"),
        NodeRefusal::Missing { id } => add_hash(text, b"Missing ", id),
        NodeRefusal::BadObject { index, at } => {
            add_number(text, b"BadObject ", *index as u64)?;
            add_number(text, b" ", *at as u64)
        }
        NodeRefusal::Collision { id } => add_hash(text, b"Collision ", id),
    }
}

// Adds a word and two numbers.
fn add_numbers(text: &mut Bytes, word: &[u8], first: u64, second: u64) -> Added
    ensures { OnOk result (text.new
        ≡ text.old ++ (word.now ++ (number_field first ++ number_field second))) }
{
    add(text, word)?;
    add_number(text, b" ", first)?;
    add_number(text, b" ", second)
}

fn add_unknown_storage(text: &mut Bytes, name: Option<StorageName>) -> Added
    ensures { OnOk result (text.new ≡ text.old ++ refusal_text (Refusal.UnknownStorage name)) }
{
    match name {
        Some(name) => add_name(text, b"UnknownStorage ", name.as_bytes()),
        None => add(text, b"UnknownStorage"),
    }
}

// The name of a refusal that has no field.
fn plain_word(refusal: &Refusal) -> Option<&'static [u8]>
    ensures some { IfSome result (λ word. word.now ≡ refusal_text refusal.now) }
    ensures none { IfNone result (HasFields refusal.now) }
{
    match refusal {
        Refusal::UnknownRepo => Some(b"UnknownRepo"),
        Refusal::TooManyStorages => Some(b"TooManyStorages"),
        Refusal::TooManyRepositories => Some(b"TooManyRepositories"),
        Refusal::NoVoters => Some(b"NoVoters"),
        Refusal::TransactionsSpent => Some(b"TransactionsSpent"),
        Refusal::Finished => Some(b"Finished"),
        Refusal::Canceled => Some(b"Canceled"),
        Refusal::Stopped => Some(b"Stopped"),
        Refusal::Decided => Some(b"Decided"),
        Refusal::IsPush => Some(b"IsPush"),
        Refusal::NotAPush => Some(b"NotAPush"),
        Refusal::StillOpen => Some(b"StillOpen"),
        Refusal::LeasesSpent => Some(b"LeasesSpent"),
        Refusal::GenerationsSpent => Some(b"GenerationsSpent"),
        Refusal::NotMaking => Some(b"NotMaking"),
        Refusal::NotBooked => Some(b"NotBooked"),
        Refusal::NotInDoubt => Some(b"NotInDoubt"),
        Refusal::NotOut => Some(b"NotOut"),
        Refusal::NotAcked => Some(b"NotAcked"),
        _ => None,
    }
}

// Adds the text of a refusal that has fields.
fn add_with_fields(text: &mut Bytes, refusal: &Refusal) -> Added
    requires { HasFields refusal.now }
    ensures { OnOk result (text.new ≡ text.old ++ refusal_text refusal.now) }
{
    match refusal {
        Refusal::UnknownStorage(name) => add_unknown_storage(text, *name),
        Refusal::UnknownVirtual(name) => add_name(text, b"UnknownVirtual ", name.as_bytes()),
        Refusal::Exists(repo) => add_number(text, b"Exists ", u64::from(repo.0)),
        Refusal::StorageExists(id) => add_number(text, b"StorageExists ", u64::from(id.0)),
        Refusal::BadFactor(n) => add_number(text, b"BadFactor ", u64::from(*n)),
        Refusal::TooManyVoters(n) => add_number(text, b"TooManyVoters ", *n as u64),
        Refusal::DuplicateVoter(name) => add_name(text, b"DuplicateVoter ", name.as_bytes()),
        Refusal::BadThreshold { total, threshold } => {
            add_numbers(text, b"BadThreshold", *total, *threshold)
        }
        Refusal::BadRounds(n) => add_number(text, b"BadRounds ", u64::from(*n)),
        Refusal::UnknownTx(tx) => add_number(text, b"UnknownTx ", tx.0),
        Refusal::NotAVoter(name) => add_name(text, b"NotAVoter ", name.as_bytes()),
        Refusal::WrongPhase(due) => add_name(text, b"WrongPhase ", phase_word(*due)),
        Refusal::AlreadyVoted(hash) => add_hash(text, b"AlreadyVoted ", hash),
        Refusal::NoSub(sub) => add_number(text, b"NoSub ", u64::from(*sub)),
        Refusal::Turn(tx) => add_number(text, b"Turn ", tx.0),
        Refusal::ReadOnly { newest, current } => {
            add_numbers(text, b"ReadOnly", newest.0, u64::from(*current))
        }
        Refusal::LeaseLost { kept, given } => {
            add_numbers(text, b"LeaseLost", kept.number(), given.number())
        }
        Refusal::UnknownJob(job) => add_number(text, b"UnknownJob ", job.0),
        Refusal::BadState(state) => add_name(text, b"BadState ", state_word(*state)),
        Refusal::InFlight(tx) => add_number(text, b"InFlight ", tx.0),
        Refusal::NoCurrentReplica { newest, current } => {
            add_numbers(text, b"NoCurrentReplica", newest.0, u64::from(*current))
        }
        Refusal::Node(cause) => add_node_refusal(text, cause),
        _ => unreachable!(),
    }
}

/// Adds the text of a refusal: its name and its fields, without the word `refused`.
pub fn add_refusal(text: &mut Bytes, refusal: &Refusal) -> Result<(), AllocError>
    ensures { OnOk result (text.new ≡ text.old ++ refusal_text refusal.now) }
{
    match plain_word(refusal) {
        Some(word) => add(text, word),
        None => add_with_fields(text, refusal),
    }
}
