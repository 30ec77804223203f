//! The answers of a node, as words.

use crate::names::word;
use crate::objects;
use px_base::{Hash, Lease, Object, PathList, RefList};
use px_node::{NodeError, NodeRefusal, Snapshot};
use std::alloc::{AllocError, Global};
use std::test::Fail;

// The kind of a refusal.
fn kind(refusal: &NodeRefusal) -> &'static str {
    match refusal {
        NodeRefusal::Fenced { .. } => "fenced",
        NodeRefusal::NoRepo => "no repo",
        NodeRefusal::RepoExists => "exists",
        NodeRefusal::NotPrepared => "not prepared",
        NodeRefusal::VoteDiffers { .. } => "differs",
        NodeRefusal::Empty => "empty",
        NodeRefusal::Void { .. } => "void",
        NodeRefusal::Twice { .. } => "twice",
        NodeRefusal::Stale { .. } => "stale",
        NodeRefusal::Conflict { .. } => "conflict",
        NodeRefusal::TooManyRefs => "too many",
        NodeRefusal::Missing { .. } => "missing",
        NodeRefusal::BadObject { .. } => "bad",
        NodeRefusal::Collision { .. } => "collision",
    }
}

// The words of a refusal.
fn refused(alloc: Global, refusal: &NodeRefusal) -> Result<String, Fail> {
    let kind = kind(refusal);
    Ok(match refusal {
        NodeRefusal::Fenced { fence } => format!(in alloc; "{kind} {fence}")?,
        NodeRefusal::VoteDiffers { have } => format!(in alloc; "{kind} {}", word(have))?,
        NodeRefusal::Stale { have, .. } => format!(in alloc; "{kind} {}", word(have))?,
        NodeRefusal::Missing { id } => format!(in alloc; "{kind} {}", word(id))?,
        NodeRefusal::BadObject { index, at } => format!(in alloc; "{kind} {index} {at}")?,
        _ => String::from_str(alloc, kind)?,
    })
}

/// An error.
pub fn failed(alloc: Global, error: &NodeError) -> Result<String, Fail> {
    match error {
        NodeError::Fault => Ok(String::from_str(alloc, "fault")?),
        NodeError::Memory => Ok(String::from_str(alloc, "memory")?),
        NodeError::Refused(refusal) => refused(alloc, refusal),
    }
}

/// The answer to an effect that gives nothing.
pub fn done(alloc: Global, answer: Result<(), NodeError>) -> Result<String, Fail> {
    match answer {
        Ok(()) => Ok(String::from_str(alloc, "ok")?),
        Err(error) => failed(alloc, &error),
    }
}

/// The answer of one that gives a vote.
pub fn voted(alloc: Global, answer: Result<Hash, NodeError>) -> Result<String, Fail> {
    match answer {
        Ok(hash) => Ok(String::from_str(alloc, word(&hash))?),
        Err(error) => failed(alloc, &error),
    }
}

/// The last lease under which a push was done.
pub fn last(alloc: Global, last: Option<Lease>) -> Result<String, Fail> {
    match last {
        Some(last) => Ok(format!(in alloc; "last {}", last.number())?),
        None => Ok(String::from_str(alloc, "last -")?),
    }
}

/// Adds a word to a text, with a space between them.
pub fn add(text: &mut String, word: &str) -> Result<(), AllocError> {
    if !text.is_empty() {
        text.push_str(" ")?;
    }
    text.push_str(word)
}

/// References, each as NAME=OBJECT.
pub fn references(alloc: Global, refs: &RefList) -> Result<String, Fail> {
    let mut text = String::new(alloc);
    for (name, id) in refs.as_slice() {
        add(&mut text, str::from_utf8(name.as_bytes()).unwrap_or("?"))?;
        text.push_str("=")?;
        text.push_str(word(id))?;
    }
    Ok(text)
}

/// An object by its word, if there is one.
pub fn object(alloc: Global, object: &Option<Object>) -> Result<String, Fail> {
    match object {
        Some(object) => Ok(String::from_str(alloc, objects::word(alloc, object)?)?),
        None => Ok(String::from_str(alloc, "none")?),
    }
}

/// References, and the objects behind them.
pub fn snapshot(alloc: Global, snapshot: &Snapshot) -> Result<String, Fail> {
    let mut text = references(alloc, &snapshot.refs)?;
    add(&mut text, "and")?;
    for object in snapshot.objects.as_slice() {
        add(&mut text, objects::word(alloc, object)?)?;
    }
    Ok(text)
}

/// The paths of repositories.
pub fn paths(alloc: Global, paths: &PathList) -> Result<String, Fail> {
    let mut text = String::new(alloc);
    for path in paths.as_slice() {
        add(&mut text, str::from_utf8(path.as_bytes()).unwrap_or("?"))?;
    }
    Ok(text)
}
