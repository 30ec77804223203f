//! The objects that calls bring, and the words for those that answers give: `+` and the word of the
//! object's name. Git made them, but for the broken tree `+bad`.

use crate::names::hash;
use px_base::{Bytes, Hash, Kind, Object, Objects};
use std::alloc::{AllocError, Global};
use std::test::Fail;

const WORDS: &str = "+blob +tree +blob1 +tree1 +tree2 +commit1 +commit2 +commit3 +tag1 +blob2";

const COMMIT1: &str = "\
    tree 32b97a7332f485ca3b3fd33067b39c1ccd422ae2\n\
    author A <a@example.com> 1700000000 +0000\n\
    committer A <a@example.com> 1700000000 +0000\n\
    \n\
    First\n";

const COMMIT2: &str = "\
    tree 40aab47f979fff1cada7c262942d19fd5df11942\n\
    parent d3a25a5d0c3b31674e28e8f723dade282c1031cf\n\
    author A <a@example.com> 1700000001 +0000\n\
    committer A <a@example.com> 1700000001 +0000\n\
    \n\
    Second\n";

const COMMIT3: &str = "\
    tree 40aab47f979fff1cada7c262942d19fd5df11942\n\
    parent ebea70134a8601beae6d046839db543b9dc6c107\n\
    author A <a@example.com> 1700000002 +0000\n\
    committer A <a@example.com> 1700000002 +0000\n\
    \n\
    Third\n";

const TAG1: &str = "\
    object bebb63225b9ee78f3ece804f6a1588c0fce5418d\n\
    type commit\n\
    tag v1\n\
    tagger A <a@example.com> 1700000003 +0000\n\
    \n\
    Version 1\n";

/// Adds a file to the content of a tree.
pub fn add_file(content: &mut Bytes, file: &str, id: &Hash) -> Result<(), AllocError> {
    content.extend_from_slice(b"100644 ")?;
    content.extend_from_slice(file.as_bytes())?;
    content.push(0)?;
    content.extend_from_slice(&id.0)
}

// A tree of files, as NAME and OBJECT.
fn tree(alloc: Global, files: &[(&str, &str)]) -> Result<Bytes, Fail> {
    let mut content = Bytes::new(alloc);
    for (file, id) in files {
        add_file(&mut content, *file, &hash(*id)?)?;
    }
    Ok(content)
}

// The 3893 bytes that `seq 1 1000` prints.
fn numbers(alloc: Global) -> Result<Bytes, Fail> {
    let mut content = Bytes::new(alloc);
    for number in 1u64..1001 {
        let line = format!(in alloc; "{number}\n")?;
        content.extend_from_slice(line.as_bytes())?;
    }
    Ok(content)
}

fn text(alloc: Global, text: &str) -> Result<Bytes, Fail> {
    Ok(Bytes::from_slice(alloc, text.as_bytes())?)
}

// The content of the object that a word names.
fn content(alloc: Global, word: &str) -> Result<Bytes, Fail> {
    match word {
        "+bad" => text(alloc, "100648 a"),
        "+blob1" => text(alloc, "one\n"),
        "+blob2" => numbers(alloc),
        "+tree1" => tree(alloc, &[("one", "blob1")]),
        "+tree2" => tree(alloc, &[("numbers", "blob2"), ("one", "blob1")]),
        "+commit1" => text(alloc, COMMIT1),
        "+commit2" => text(alloc, COMMIT2),
        "+commit3" => text(alloc, COMMIT3),
        "+tag1" => text(alloc, TAG1),
        _ => text(alloc, ""),
    }
}

// The kind of the object that a word names.
fn kind(word: &str) -> Result<Kind, Fail> {
    match word {
        "+blob" | "+blob1" | "+blob2" => Ok(Kind::Blob),
        "+bad" | "+tree" | "+tree1" | "+tree2" => Ok(Kind::Tree),
        "+commit1" | "+commit2" | "+commit3" => Ok(Kind::Commit),
        "+tag1" => Ok(Kind::Tag),
        _ => Err(Fail::new("no object")),
    }
}

/// An object of a kind and a content.
pub fn object(kind: Kind, content: Bytes) -> Result<Object, Fail> {
    match Object::new(kind, content) {
        Some(object) => Ok(object),
        None => Err(Fail::new("too large")),
    }
}

// The object that a word names.
fn named(alloc: Global, word: &str) -> Result<Object, Fail> {
    object(kind(word)?, content(alloc, word)?)
}

/// The objects that words name; words with no `+` name none.
pub fn objects(alloc: Global, words: &[&str]) -> Result<Objects, Fail> {
    let mut objects = Objects::new(alloc);
    for word in words {
        if word.starts_with("+") {
            objects.push(named(alloc, *word)?)?;
        }
    }
    Ok(objects)
}

/// The word for an object, or `?` where it has none.
pub fn word(alloc: Global, object: &Object) -> Result<&'static str, Fail> {
    for word in WORDS.split_whitespace() {
        let known = content(alloc, word)?;
        if object.kind() == kind(word)? && object.content() == known.as_slice() {
            return Ok(word);
        }
    }
    Ok("?")
}
