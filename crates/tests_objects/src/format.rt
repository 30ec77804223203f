//! Names and links, as git gives them.
//!
//! The objects were made in an empty repository: blobs by `git hash-object -w --stdin`, trees by
//! `git mktree --missing`, commits by `git commit-tree` and tags by `git mktag`, each of which prints
//! the name. The contents are those of `git cat-file`; the links are those of `git ls-tree`, of
//! `git log --format='%T %P'` and of `git cat-file -p`.

use crate::words::{content, kind};
use object_format::{LinkFault, check, links, name_of};
use px_base::{Kind, ObjectId};
use std::alloc::Global;
use std::test::Fail;
use tests_tables::play;

// The names, with spaces between them.
fn joined(alloc: Global, ids: &[ObjectId]) -> Result<String, Fail> {
    let mut text = String::new(alloc);
    for id in ids {
        if !text.is_empty() {
            text.push_str(" ")?;
        }
        text.push_str(str::from_utf8(&id.text()).unwrap_or("?"))?;
    }
    Ok(text)
}

// The links of an object, or its first bad byte, where checking it says the same.
fn linked(alloc: Global, kind: Kind, content: &[u8]) -> Result<String, Fail> {
    let bad = check(kind, content);
    match links(alloc, kind, content) {
        Ok(ids) if bad.is_none() => joined(alloc, ids.as_slice()),
        Err(LinkFault::BadObject { at }) if bad == Some(at) => Ok(format!(in alloc; "bad {at}")?),
        _ => Ok(String::from_str(alloc, "links and check differ")?),
    }
}

// What objects are told as. Each call has a kind and a content.
fn answer(alloc: Global, _: &mut (), name: &str, rest: &str) -> Result<String, Fail> {
    let (word, text) = rest.split_once(" ").unwrap_or((rest, ""));
    let kind = kind(word);
    let content = content(alloc, text)?;
    match name {
        "name" => joined(alloc, &[name_of(kind, &content)]),
        _ => linked(alloc, kind, &content),
    }
}

// A submodule alone; the first commit of TREE, and a merge of three parents; a tag of the merge, and
// a tag of that tag.
const OBJECTS: &str = "\
    name blob -> e69de29bb2d1d6434b8b29ae775ad8c2e48c5391
    links blob hello| ->
    name blob hello| -> ce013625030ba8dba906f756967f9e9ca394464a
    links tree ->
    name tree -> 4b825dc642cb6eb9a060e54bf8d69288fbee4904
    links tree 160000 lib\0\x11\x11\x11\x11\x11\x11\x11\x11\x11\x11\x11\x11\x11\x11\x11\
        \x11\x11\x11\x11\x11 ->
    name tree 160000 lib\0\x11\x11\x11\x11\x11\x11\x11\x11\x11\x11\x11\x11\x11\x11\x11\
        \x11\x11\x11\x11\x11 -> 572e85c9899d5fb69110eab1df80bed6b9991abe
    links tree TREE -> ce013625030ba8dba906f756967f9e9ca394464a \
        ce013625030ba8dba906f756967f9e9ca394464a e69de29bb2d1d6434b8b29ae775ad8c2e48c5391 \
        4b825dc642cb6eb9a060e54bf8d69288fbee4904
    name tree TREE -> d78d5b69f10f34b32ae8e548c57c40936c4f449b
    name commit tree d78d5b69f10f34b32ae8e548c57c40936c4f449b|author A <a@example.com> \
        1700000000 +0000|committer A <a@example.com> 1700000000 +0000||one|\
        -> 6d8ff996ebc72c235590a94fc7adda85f0b9b4f9
    links commit tree d78d5b69f10f34b32ae8e548c57c40936c4f449b|author A <a@example.com> \
        1700000000 +0000|committer A <a@example.com> 1700000000 +0000||one|\
        -> d78d5b69f10f34b32ae8e548c57c40936c4f449b
    name commit tree d78d5b69f10f34b32ae8e548c57c40936c4f449b|parent \
        6d8ff996ebc72c235590a94fc7adda85f0b9b4f9|parent 6381db84981fbd5d1934e2519da6c1e9d257c59d|\
        parent 291b8b5bf4a586d4c5e6f9c53f5d992e067bd8ef|author A <a@example.com> 1700000000 +0000|\
        committer A <a@example.com> 1700000000 +0000||merge|\
        -> 2dd81a79b098ce2ea66b500d3666923c8d983eba
    links commit tree d78d5b69f10f34b32ae8e548c57c40936c4f449b|parent \
        6d8ff996ebc72c235590a94fc7adda85f0b9b4f9|parent 6381db84981fbd5d1934e2519da6c1e9d257c59d|\
        parent 291b8b5bf4a586d4c5e6f9c53f5d992e067bd8ef|author A <a@example.com> 1700000000 +0000|\
        committer A <a@example.com> 1700000000 +0000||merge|\
        -> d78d5b69f10f34b32ae8e548c57c40936c4f449b 6d8ff996ebc72c235590a94fc7adda85f0b9b4f9 \
        6381db84981fbd5d1934e2519da6c1e9d257c59d 291b8b5bf4a586d4c5e6f9c53f5d992e067bd8ef
    name tag object 2dd81a79b098ce2ea66b500d3666923c8d983eba|type commit|tag v1|tagger A \
        <a@example.com> 1700000000 +0000||first| -> 56c3f951c4aa1adf62c8a581290d34c972a3d0c1
    links tag object 2dd81a79b098ce2ea66b500d3666923c8d983eba|type commit|tag v1|tagger A \
        <a@example.com> 1700000000 +0000||first| -> 2dd81a79b098ce2ea66b500d3666923c8d983eba
    name tag object 56c3f951c4aa1adf62c8a581290d34c972a3d0c1|type tag|tag v2|tagger A \
        <a@example.com> 1700000000 +0000||again| -> 1408ed15d457a0f7c5737b9b96f8ae10db96f3e2
    links tag object 56c3f951c4aa1adf62c8a581290d34c972a3d0c1|type tag|tag v2|tagger A \
        <a@example.com> 1700000000 +0000||again| -> 56c3f951c4aa1adf62c8a581290d34c972a3d0c1";

#[test]
fn an_object_has_the_name_and_the_links_that_git_gives_it(rt: HostRuntime) -> Result<(), Fail> {
    play(rt.alloc(), &mut (), answer, OBJECTS)
}

// In this order: a name of 39 digits, a digit in upper case, an end within the first line, and no
// line; a mode of seven digits, one that is no octal number, none, and an empty file name; a name
// that does not end, and 19 bytes of a name; a kind that is none, and a kind without its line feed.
const BROKEN: &str = "\
    links commit tree 111111111111111111111111111111111111111| -> bad 44
    links commit tree 1111A1111111111111111111111111111111111| -> bad 9
    links commit tree 1111 -> bad 9
    links commit -> bad 0
    links tree 1006440 a\0 -> bad 6
    links tree 100648 a\0 -> bad 5
    links tree  a\0 -> bad 0
    links tree 100644 \0 -> bad 7
    links tree 100644 a -> bad 8
    links tree 100644 a\0\x11\x11\x11\x11\x11\x11\x11\x11\x11\x11\x11\x11\x11\x11\x11\x11\
        \x11\x11\x11 -> bad 28
    links tag object 2222222222222222222222222222222222222222|type bulb| -> bad 54
    links tag object 2222222222222222222222222222222222222222|type trees -> bad 57";

#[test]
fn a_broken_object_is_refused_at_its_first_bad_byte(rt: HostRuntime) -> Result<(), Fail> {
    play(rt.alloc(), &mut (), answer, BROKEN)
}

// A broken line of a parent ends the parents. What names no object of that kind is a link too.
const BEHIND: &str = "\
    links commit tree 1111111111111111111111111111111111111111|\
        parent 2222222222222222222222222222222222222222|parent 33|parent 4|\
        -> 1111111111111111111111111111111111111111 2222222222222222222222222222222222222222
    links tag BYTES -> 2222222222222222222222222222222222222222";

#[test]
fn what_stands_behind_the_lines_is_not_checked(rt: HostRuntime) -> Result<(), Fail> {
    play(rt.alloc(), &mut (), answer, BEHIND)
}
