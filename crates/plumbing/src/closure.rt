//! `chain N TURNS` and `wide N TURNS`: put objects into a store, and say whether all that is
//! reachable from the last one is there, as many times as TURNS says. What a run takes with no turns
//! is what the putting takes.

use crate::end::{End, number, print};
use objstore::{ClosedFault, PutFault, Store, name_of};
use px_base::{Bytes, Kind, Object, ObjectId, Sink};
use std::alloc::Global;

// Puts an object, and gives its name.
fn put(alloc: Global, store: &mut Store, kind: Kind, content: &[u8]) -> Result<ObjectId, End> {
    let id = name_of(kind, content);
    let object = Object::new(kind, Bytes::from_slice(alloc, content)?).ok_or(End::BadInput)?;
    match store.put(alloc, &object) {
        Ok(_) => Ok(id),
        Err(PutFault::Memory) => Err(End::Memory),
        Err(_) => Err(End::BadInput),
    }
}

// Puts a tree of so many files, each with its number as its name and its content.
fn put_tree(alloc: Global, store: &mut Store, files: u32) -> Result<ObjectId, End> {
    let mut tree = Bytes::new(alloc);
    for file in 0..files {
        let name = format!(in alloc; "{file:08}")?;
        let blob = put(alloc, store, Kind::Blob, name.as_bytes())?;
        tree.extend_from_slice(b"100644 ")?;
        tree.extend_from_slice(name.as_bytes())?;
        tree.push(0)?;
        tree.extend_from_slice(&blob.0)?;
    }
    put(alloc, store, Kind::Tree, tree.as_slice())
}

// The content of a commit of that tree, which comes after that commit, if there is one.
fn commit(alloc: Global, tree: &ObjectId, parent: Option<ObjectId>) -> Result<Bytes, End> {
    let mut text = Bytes::from_slice(alloc, b"tree ")?;
    text.extend_from_slice(&tree.text())?;
    text.push(b'\n')?;
    if let Some(parent) = parent {
        text.extend_from_slice(b"parent ")?;
        text.extend_from_slice(&parent.text())?;
        text.push(b'\n')?;
    }
    Ok(text)
}

// Says as many times as there are turns whether all that is reachable from the tips is there.
fn tell<O: Sink>(
    alloc: Global,
    store: &Store,
    tips: &[ObjectId],
    turns: &str,
    out: &mut O,
) -> Result<(), End> {
    let extra = Store::new(alloc);
    for _ in 0..number(turns)? {
        let line: &[u8] = match store.closed(alloc, tips, &extra) {
            Ok(()) => b"closed\n",
            Err(ClosedFault::Missing(_)) => b"missing\n",
            Err(ClosedFault::Memory) => return Err(End::Memory),
        };
        print(out, line)?;
    }
    Ok(())
}

/// A chain of so many commits, each the parent of the next one, over one tree of one file.
pub fn chain<O: Sink>(alloc: Global, count: &str, turns: &str, out: &mut O) -> Result<(), End> {
    let mut store = Store::new(alloc);
    let tree = put_tree(alloc, &mut store, 1)?;
    let mut last = None;
    for _ in 0..number(count)? {
        let content = commit(alloc, &tree, last)?;
        last = Some(put(alloc, &mut store, Kind::Commit, content.as_slice())?);
    }
    match last {
        Some(tip) => tell(alloc, &store, &[tip], turns, out),
        None => tell(alloc, &store, &[tree], turns, out),
    }
}

/// A tree of so many entries, each of another blob.
pub fn wide<O: Sink>(alloc: Global, count: &str, turns: &str, out: &mut O) -> Result<(), End> {
    let mut store = Store::new(alloc);
    let tree = put_tree(alloc, &mut store, number(count)?)?;
    tell(alloc, &store, &[tree], turns, out)
}
