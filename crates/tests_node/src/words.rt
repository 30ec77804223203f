//! The words of a call, read.

use crate::names::hash;
use crate::objects::objects;
use px_base::{Lease, Push, RefList, RefName, Update, Updates};
use px_node::Snapshot;
use refstore::{Prepared, Refs};
use std::alloc::Global;
use std::test::Fail;

/// A lease by its number.
pub fn lease(word: &str) -> Result<Lease, Fail> {
    match Lease::new(word.parse::<u64>()?) {
        Some(lease) => Ok(lease),
        None => Err(Fail::new("no lease")),
    }
}

// One update, as OLD, NEW and NAME.
fn update(alloc: Global, words: &[&str]) -> Result<Update, Fail> {
    match words {
        [old, new, name] => {
            let (old, new) = (hash(*old)?, hash(*new)?);
            let name = RefName::read(alloc, name.as_bytes())?;
            Ok(Update { old, new, name })
        }
        _ => Err(Fail::new("no update")),
    }
}

// Updates, each as OLD, NEW and NAME, up to the first object.
fn updates(alloc: Global, words: &[&str]) -> Result<Updates, Fail> {
    let mut updates = Updates::new(alloc);
    for words in words.chunks(3) {
        match words {
            [first, ..] if first.starts_with("+") => break,
            _ => updates.push(update(alloc, words)?)?,
        }
    }
    Ok(updates)
}

/// Updates, and the objects behind them.
pub fn push(alloc: Global, words: &[&str]) -> Result<Push, Fail> {
    let updates = updates(alloc, words)?;
    let objects = objects(alloc, words)?;
    Ok(Push { updates, objects })
}

// What updates leave where no reference is there.
fn references(alloc: Global, updates: &[Update]) -> Result<RefList, Fail> {
    let mut refs = Refs::new(alloc);
    if !updates.is_empty() {
        Prepared::new(alloc, &refs, updates)?.commit(&mut refs);
    }
    Ok(refs.list(alloc)?)
}

/// The references that creations leave, and the objects behind them.
pub fn snapshot(alloc: Global, words: &[&str]) -> Result<Snapshot, Fail> {
    let push = push(alloc, words)?;
    let refs = references(alloc, push.updates.as_slice())?;
    Ok(Snapshot {
        refs,
        objects: push.objects,
    })
}
