//! Names, hashes and lists.

use px_base::{Bytes, Hash, Items, NameFault, RefList, StorageName, Words};
use std::alloc::{AllocError, Global};
use std::test::Fail;
use tests_tables::play;

// What reading a storage name comes to: whether the text is kept, or the first bad byte.
fn name(alloc: Global, text: &[u8]) -> Result<String, Fail> {
    let word = match StorageName::read(text) {
        Ok(name) => if name.as_bytes() == text {
            "ok"
        } else {
            "another text"
        },
        Err(NameFault::BadName { at }) => return Ok(format!(in alloc; "{at}")?),
        Err(NameFault::Memory) => "memory",
    };
    Ok(String::from_str(alloc, word)?)
}

// The SHA-1 of `abc`, from FIPS 180-4's examples.
const ABC: Hash = Hash([
    0xa9, 0x99, 0x3e, 0x36, 0x47, 0x06, 0x81, 0x6a, 0xba, 0x3e, 0x25, 0x71, 0x78, 0x50, 0xc2, 0x6c,
    0x9c, 0xd0, 0xd8, 0x9d,
]);

// Whether a text is that of ABC, and the text that this has.
fn hash(alloc: Global, text: &[u8]) -> Result<String, Fail> {
    let text = match Hash::read(text) {
        Some(hash) if hash == ABC => hash.text(),
        _ => return Ok(String::from_str(alloc, "no")?),
    };
    Ok(String::from_str(alloc, str::from_utf8(&text).unwrap_or("?"))?)
}

// What names and hashes are read as.
fn read(alloc: Global, _: &mut (), call: &str, rest: &str) -> Result<String, Fail> {
    match call {
        "name" => name(alloc, rest.as_bytes()),
        _ => hash(alloc, rest.as_bytes()),
    }
}

// The second and the third name have 64 and 65 bytes.
const NAMES: &str = "\
    name gitaly-1.example_A -> ok
    name nnnnnnnnnnnnnnnnnnnnnnnnnnnnnnnnnnnnnnnnnnnnnnnnnnnnnnnnnnnnnnnn -> ok
    name nnnnnnnnnnnnnnnnnnnnnnnnnnnnnnnnnnnnnnnnnnnnnnnnnnnnnnnnnnnnnnnnn -> 64
    name -> 0
    name a/b -> 1
    name ab\u{e9} -> 2
    name  a -> 0";

#[test]
fn a_storage_name_is_refused_at_its_first_bad_byte(rt: HostRuntime) -> Result<(), Fail> {
    play(rt.alloc(), &mut (), read, NAMES)
}

const HASHES: &str = "\
    hash a9993e364706816aba3e25717850c26c9cd0d89d -> a9993e364706816aba3e25717850c26c9cd0d89d
    hash A9993E364706816ABA3E25717850C26C9CD0D89D -> no
    hash a9993e364706816aba3e25717850c26c9cd0d89 -> no
    hash a9993e364706816aba3e25717850c26c9cd0d89d0 -> no
    hash g9993e364706816aba3e25717850c26c9cd0d89d -> no
    hash -> no";

#[test]
fn a_hash_has_the_bytes_that_its_text_stands_for(rt: HostRuntime) {
    let hash = Hash::read(b"a9993e364706816aba3e25717850c26c9cd0d89d");
    assert!(rt; matches!(hash, Some(hash) if hash.as_bytes() == ABC.0.as_slice()));
}

#[test]
fn a_hash_has_one_text(rt: HostRuntime) -> Result<(), Fail> {
    play(rt.alloc(), &mut (), read, HASHES)
}

// A list that grew by a byte and by two.
fn grown(alloc: Global) -> Result<Bytes, AllocError> {
    let mut bytes = Bytes::from_slice(alloc, b"ab")?;
    bytes.push(b'c')?;
    bytes.extend_from_slice(b"de")?;
    Ok(bytes)
}

#[test]
fn bytes_are_added_at_the_end(rt: HostRuntime) -> Result<(), Fail> {
    let bytes = grown(rt.alloc())?;
    assert!(rt; bytes.as_slice() == b"abcde".as_slice() && bytes.len() == 5);
    assert!(rt; Items::<u32>::new(rt.alloc()).is_empty());
    assert!(rt; !RefList::new(rt.alloc()).is_full());
    Ok(())
}

// The word at a place, in brackets.
fn word_at(alloc: Global, words: &Words, at: usize) -> Result<String, Fail> {
    let text = match words.get(at) {
        Some(word) => str::from_utf8(word).unwrap_or("?"),
        None => return Ok(String::from_str(alloc, "none")?),
    };
    Ok(format!(in alloc; "[{text}]")?)
}

fn answer(alloc: Global, words: &mut Words, name: &str, rest: &str) -> Result<String, Fail> {
    match name {
        "first" => return word_at(alloc, words, 0),
        "second" => return word_at(alloc, words, 1),
        "push" => words.push(alloc, rest)?,
        _ => {}
    }
    let (none, only) = (words.is_empty(), words.is_only("rehearse"));
    Ok(format!(in alloc; "{} none={none} only={only}", words.len())?)
}

const WORDS: &str = "\
    count -> 0 none=true only=false
    first -> none
    push rehearse -> 1 none=false only=true
    second -> none
    push more words -> 2 none=false only=false
    first -> [rehearse]
    second -> [more words]";

#[test]
fn words_are_counted_and_compared(rt: HostRuntime) -> Result<(), Fail> {
    play(rt.alloc(), &mut Words::new(rt.alloc()), answer, WORDS)
}
