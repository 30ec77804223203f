//! The words of a call, read, and those of an answer.

use px_base::{Bytes, JobId, Lease, RepoId, StorageId, StorageName};
use px_ops::{Refusal, Reply, add_refusal, add_reply};
use std::alloc::{AllocError, Global};
use std::test::Fail;

/// The words of a call.
pub fn words(alloc: Global, call: &str) -> Result<Vec<&str>, AllocError> {
    let mut words = Vec::new(alloc);
    for word in call.split_whitespace() {
        words.push(word)?;
    }
    Ok(words)
}

/// A lease by its number.
pub fn lease(word: &str) -> Result<Lease, Fail> {
    match Lease::new(word.parse::<u64>()?) {
        Some(lease) => Ok(lease),
        None => Err(Fail::new("no lease")),
    }
}

/// A job by its number.
pub fn job(word: &str) -> Result<JobId, Fail> {
    Ok(JobId(word.parse::<u64>()?))
}

/// A repository by its number.
pub fn repository(word: &str) -> Result<RepoId, Fail> {
    Ok(RepoId(word.parse::<u32>()?))
}

/// A storage by its number.
pub fn storage(word: &str) -> Result<StorageId, Fail> {
    Ok(StorageId(word.parse::<u32>()?))
}

/// A storage by its number, or `-` for none.
pub fn storage_or_none(word: &str) -> Result<Option<StorageId>, Fail> {
    if word == "-" {
        return Ok(None);
    }
    Ok(Some(storage(word)?))
}

/// A storage's name.
pub fn storage_name(word: &str) -> Result<StorageName, Fail> {
    Ok(StorageName::read(word.as_bytes())?)
}

/// A word as a text of its own.
pub fn text(alloc: Global, word: &str) -> Result<String, Fail> {
    Ok(String::from_str(alloc, word)?)
}

/// A yes or a no.
pub fn yes_or_no(alloc: Global, answer: bool) -> Result<String, Fail> {
    text(alloc, if answer { "yes" } else { "no" })
}

/// The number of a storage, or `-` for none.
pub fn number(alloc: Global, storage: Option<StorageId>) -> Result<String, Fail> {
    match storage {
        Some(storage) => Ok(format!(in alloc; "{}", storage.0)?),
        None => text(alloc, "-"),
    }
}

/// The text of a reply.
pub fn replied(alloc: Global, reply: &Reply) -> Result<String, Fail> {
    let mut bytes = Bytes::new(alloc);
    add_reply(&mut bytes, reply)?;
    text(alloc, str::from_utf8(bytes.as_slice()).unwrap_or("?"))
}

/// The text of a refusal.
pub fn refused(alloc: Global, why: &Refusal) -> Result<String, Fail> {
    let mut bytes = Bytes::new(alloc);
    add_refusal(&mut bytes, why)?;
    text(alloc, str::from_utf8(bytes.as_slice()).unwrap_or("?"))
}

/// The answer of a call that gives nothing.
pub fn done(alloc: Global, answer: Result<(), Refusal>) -> Result<String, Fail> {
    match answer {
        Ok(()) => text(alloc, "ok"),
        Err(why) => refused(alloc, &why),
    }
}
