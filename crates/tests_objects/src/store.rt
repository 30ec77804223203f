//! Stores, and what is reachable in them. Names are those that `git hash-object` prints.

use crate::words::{content, kind, letter, object};
use objstore::{ClosedFault, Put, PutFault, Store, name_of};
use px_base::{Bytes, Hash, Kind, Object, ObjectId};
use std::alloc::Global;
use std::test::Fail;
use tests_tables::play;

// The content of the commit COMMIT.
const COMMIT: &str = "tree 4b825dc642cb6eb9a060e54bf8d69288fbee4904|\
    parent e69de29bb2d1d6434b8b29ae775ad8c2e48c5391|";

fn text_of(word: &str) -> &str {
    if word == "COMMIT" { COMMIT } else { word }
}

// An object by a word: the commit COMMIT, one that nobody made, or one of those with a letter.
fn id(alloc: Global, word: &str) -> Result<ObjectId, Fail> {
    match word {
        "COMMIT" => Ok(name_of(Kind::Commit, &content(alloc, COMMIT)?)),
        "other" => Ok(Hash([1; 20])),
        _ => object(word),
    }
}

// Puts an object of a kind and a content, and answers what that came to.
fn put(alloc: Global, store: &mut Store, text: &str) -> Result<String, Fail> {
    let (word, text) = text.split_once(" ").unwrap_or((text, ""));
    let content = content(alloc, text_of(text))?;
    match Object::new(kind(word), Bytes::from_slice(alloc, &content)?) {
        Some(object) => told(alloc, store.put(alloc, &object)),
        None => Err(Fail::new("too large")),
    }
}

fn told(alloc: Global, put: Result<Put, PutFault>) -> Result<String, Fail> {
    let word = match put {
        Ok(Put::Added) => "added",
        Ok(Put::Present) => "present",
        Err(PutFault::BadObject { at }) => return Ok(format!(in alloc; "bad {at}")?),
        Err(PutFault::Collision { .. }) => "collision",
        Err(PutFault::Memory) => "memory",
    };
    Ok(String::from_str(alloc, word)?)
}

// An object that a store has, by its kind and its size.
fn shown(alloc: Global, object: Option<&Object>) -> Result<String, Fail> {
    match object {
        Some(object) => { Ok(format!(in alloc; "{:?} {}", object.kind(), object.content().len())?) }
        None => Ok(String::from_str(alloc, "none")?),
    }
}

fn ids(alloc: Global, words: &str) -> Result<Vec<ObjectId>, Fail> {
    let mut ids = Vec::new(alloc);
    for word in words.split_whitespace() {
        ids.push(id(alloc, word)?)?;
    }
    Ok(ids)
}

// Whether all that the words lead to is there, or what is missing.
fn closed(alloc: Global, stores: &Stores, words: &str) -> Result<String, Fail> {
    let tips = ids(alloc, words)?;
    match stores.store.closed(alloc, &tips, &stores.extra) {
        Ok(()) => Ok(String::from_str(alloc, "ok")?),
        Err(ClosedFault::Missing(id)) => Ok(format!(in alloc; "missing {}", letter(&id))?),
        Err(ClosedFault::Memory) => Ok(String::from_str(alloc, "memory")?),
    }
}

// A store, and the extra one.
#[derive(Drop)]
struct Stores {
    store: Store,
    extra: Store,
}

fn answer(alloc: Global, stores: &mut Stores, name: &str, rest: &str) -> Result<String, Fail> {
    match name {
        "put" => put(alloc, &mut stores.store, rest),
        "extra" => put(alloc, &mut stores.extra, rest),
        "get" => shown(alloc, stores.store.get(&id(alloc, rest)?)),
        _ => closed(alloc, stores, rest),
    }
}

// Makes the calls of a table to two empty stores.
fn play_in_stores(alloc: Global, table: &str) -> Result<(), Fail> {
    let mut stores = Stores {
        store: Store::new(alloc),
        extra: Store::new(alloc),
    };
    play(alloc, &mut stores, answer, table)
}

const PUT: &str = "\
    put blob -> added
    put blob -> present
    put tree -> added
    put commit trees -> bad 4
    get T -> Tree 0
    get other -> none";

#[test]
fn an_object_is_put_once(rt: HostRuntime) -> Result<(), Fail> {
    play_in_stores(rt.alloc(), PUT)
}

const CLOSED: &str = "\
    extra blob -> added
    closed -> ok
    closed B -> ok
    closed B T -> missing T";

#[test]
fn an_extra_store_has_what_is_missing(rt: HostRuntime) -> Result<(), Fail> {
    play_in_stores(rt.alloc(), CLOSED)
}

const FOLLOWED: &str = "\
    put commit COMMIT -> added
    closed COMMIT -> missing T
    extra tree -> added
    closed COMMIT -> missing B
    extra blob -> added
    closed COMMIT -> ok";

#[test]
fn links_are_followed_in_order(rt: HostRuntime) -> Result<(), Fail> {
    play_in_stores(rt.alloc(), FOLLOWED)
}
