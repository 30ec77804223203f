//! The words of a call, read, and those of an answer.

use px_base::{Bytes, Gen, Hash, Lease, Phase, RepoId, StorageId, StorageName, TxId};
use px_ops::{Refusal, Reply, add_refusal, add_reply};
use std::alloc::{AllocError, Global};
use std::test::Fail;

/// The words of a call.
pub fn words(alloc: Global, call: &str) -> Result<Vec<&str>, AllocError> {
    let mut words = Vec::new(alloc);
    for word in call.split_whitespace() {
        words.push(word)?;
    }
    Ok(words)
}

/// A lease by its number.
pub fn lease(word: &str) -> Result<Lease, Fail> {
    match Lease::new(word.parse::<u64>()?) {
        Some(lease) => Ok(lease),
        None => Err(Fail::new("no lease")),
    }
}

/// A storage by its number.
pub fn storage(word: &str) -> Result<StorageId, Fail> {
    Ok(StorageId(word.parse::<u32>()?))
}

/// A storage's name.
pub fn storage_name(word: &str) -> Result<StorageName, Fail> {
    Ok(StorageName::read(word.as_bytes())?)
}

/// A repository by its number.
pub fn repository(word: &str) -> Result<RepoId, Fail> {
    Ok(RepoId(word.parse::<u32>()?))
}

/// A transaction by its number.
pub fn transaction(word: &str) -> Result<TxId, Fail> {
    Ok(TxId(word.parse::<u64>()?))
}

/// The hash whose text is this digit, 40 times.
pub fn hash(alloc: Global, digit: &str) -> Result<Hash, Fail> {
    match Hash::read(digit.repeat(alloc, 40)?.as_bytes()) {
        Some(hash) => Ok(hash),
        None => Err(Fail::new("no digit")),
    }
}

/// A phase by its word.
pub fn phase(word: &str) -> Result<Phase, Fail> {
    match word {
        "prepared" => Ok(Phase::Prepared),
        "committed" => Ok(Phase::Committed),
        _ => Err(Fail::new("no phase")),
    }
}

/// Storages by their numbers, as `2,0`, or all of a range of them, as `0..64`.
pub fn storages(alloc: Global, word: &str) -> Result<Vec<StorageId>, Fail> {
    match word.split_once("..") {
        Some((first, end)) => range(alloc, first.parse::<u32>()?, end.parse::<u32>()?),
        None => listed(alloc, word),
    }
}

fn range(alloc: Global, first: u32, end: u32) -> Result<Vec<StorageId>, Fail> {
    let mut storages = Vec::new(alloc);
    for number in first..end {
        storages.push(StorageId(number))?;
    }
    Ok(storages)
}

fn listed(alloc: Global, word: &str) -> Result<Vec<StorageId>, Fail> {
    let mut storages = Vec::new(alloc);
    for number in word.split(",") {
        storages.push(storage(number)?)?;
    }
    Ok(storages)
}

/// A word as a text of its own.
pub fn text(alloc: Global, word: &str) -> Result<String, Fail> {
    Ok(String::from_str(alloc, word)?)
}

/// The text of a reply.
pub fn replied(alloc: Global, reply: &Reply) -> Result<String, Fail> {
    let mut bytes = Bytes::new(alloc);
    add_reply(&mut bytes, reply)?;
    text(alloc, str::from_utf8(bytes.as_slice()).unwrap_or("?"))
}

/// The text of a reply, and behind that of a vote the number of its subtransaction, which it leaves
/// out.
pub fn shown(alloc: Global, reply: &Reply) -> Result<String, Fail> {
    let mut told = replied(alloc, reply)?;
    if let Reply::Counted { sub, .. } = reply {
        told.push_str(format!(in alloc; " in {sub}")?.as_str())?;
    }
    Ok(told)
}

/// The text of a refusal.
pub fn refused(alloc: Global, why: &Refusal) -> Result<String, Fail> {
    let mut bytes = Bytes::new(alloc);
    add_refusal(&mut bytes, why)?;
    text(alloc, str::from_utf8(bytes.as_slice()).unwrap_or("?"))
}

/// The answer of a call that gives nothing.
pub fn done(alloc: Global, answer: Result<(), Refusal>) -> Result<String, Fail> {
    match answer {
        Ok(()) => text(alloc, "ok"),
        Err(why) => refused(alloc, &why),
    }
}

/// That of one that draws a lease.
pub fn drawn(alloc: Global, answer: Result<Lease, Refusal>) -> Result<String, Fail> {
    match answer {
        Ok(lease) => replied(alloc, &Reply::Leased(lease)),
        Err(why) => refused(alloc, &why),
    }
}

/// That of one that makes a generation.
pub fn risen(alloc: Global, answer: Result<Gen, Refusal>) -> Result<String, Fail> {
    match answer {
        Ok(newest) => replied(alloc, &Reply::Accepted(newest)),
        Err(why) => refused(alloc, &why),
    }
}

/// The numbers of storages, with a comma between each two, or `-` for none.
pub fn numbers(alloc: Global, storages: &[StorageId]) -> Result<String, Fail> {
    let mut told = String::new(alloc);
    for storage in storages {
        if !told.is_empty() {
            told.push_str(",")?;
        }
        told.push_str(format!(in alloc; "{}", storage.0)?.as_str())?;
    }
    text(alloc, if told.is_empty() { "-" } else { told.as_str() })
}

/// The number of a storage, or `-` for none.
pub fn number(alloc: Global, storage: Option<StorageId>) -> Result<String, Fail> {
    match storage {
        Some(storage) => Ok(format!(in alloc; "{}", storage.0)?),
        None => text(alloc, "-"),
    }
}
