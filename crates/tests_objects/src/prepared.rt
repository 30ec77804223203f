//! Lists of updates on the references of a repository.

use crate::words::{letter, object, update, updates};
use px_base::{Hash, RefName, Updates};
use refstore::{Prepared, RefRefusal, Refs};
use std::alloc::{AllocError, Global};
use std::test::Fail;
use tests_tables::play;

fn text(name: &RefName) -> &str {
    str::from_utf8(name.as_bytes()).unwrap_or("no text")
}

fn told(alloc: Global, refusal: &RefRefusal) -> Result<String, Fail> {
    Ok(match refusal {
        RefRefusal::Empty => String::from_str(alloc, "empty")?,
        RefRefusal::Void { name } => format!(in alloc; "void {}", text(name))?,
        RefRefusal::Twice { name } => format!(in alloc; "twice {}", text(name))?,
        RefRefusal::Stale { name, have } => {
            format!(in alloc; "stale {} {}", text(name), letter(have))?
        }
        RefRefusal::Conflict { name, with } => {
            format!(in alloc; "conflict {} {}", text(name), text(with))?
        }
        RefRefusal::TooManyRefs => String::from_str(alloc, "too many")?,
        RefRefusal::Memory => String::from_str(alloc, "memory")?,
    })
}

// Adds a reference to a text, as its object and its name.
fn show(shown: &mut String, name: &RefName, id: &Hash) -> Result<(), AllocError> {
    if !shown.is_empty() {
        shown.push_str(" ")?;
    }
    shown.push_str(letter(id))?;
    shown.push_str(" ")?;
    shown.push_str(text(name))
}

// All references.
fn shown(alloc: Global, refs: &Refs) -> Result<String, Fail> {
    let list = refs.list(alloc)?;
    let mut shown = String::new(alloc);
    for (name, id) in list.as_slice() {
        show(&mut shown, name, id)?;
    }
    Ok(shown)
}

// What preparing the updates comes to: a refusal, or the references afterwards.
fn prepare(alloc: Global, refs: &Refs, list: &str) -> Result<String, Fail> {
    match Prepared::new(alloc, refs, updates(alloc, list)?.as_slice()) {
        Ok(prepared) => shown(alloc, prepared.refs()),
        Err(refusal) => told(alloc, &refusal),
    }
}

// Prepares the updates, and does them: the references afterwards.
fn commit(alloc: Global, refs: &mut Refs, list: &str) -> Result<String, Fail> {
    Prepared::new(alloc, refs, updates(alloc, list)?.as_slice())?.commit(refs);
    shown(alloc, refs)
}

// Prepares the updates, and does none of them: the vote on them.
fn abort(alloc: Global, refs: &Refs, list: &str) -> Result<String, Fail> {
    let prepared = Prepared::new(alloc, refs, updates(alloc, list)?.as_slice())?;
    let vote = prepared.vote();
    prepared.abort();
    Ok(String::from_str(alloc, str::from_utf8(&vote.text()).unwrap_or("?"))?)
}

// What creating a reference comes to: a refusal, or the references afterwards. The text has the
// object and the name.
fn create(alloc: Global, refs: &mut Refs, text: &str) -> Result<String, Fail> {
    let (word, name) = text.split_once(" ").unwrap_or((text, ""));
    let id = object(word)?;
    match refs.create(alloc, RefName::read(alloc, name.as_bytes())?, id) {
        Ok(()) => shown(alloc, refs),
        Err(refusal) => told(alloc, &refusal),
    }
}

// The object of a reference, and the number of all references.
fn counted(alloc: Global, refs: &Refs, name: &str) -> Result<String, Fail> {
    let word = match refs.get(&RefName::read(alloc, name.as_bytes())?) {
        Some(id) => letter(&id),
        None => "none",
    };
    Ok(format!(in alloc; "{word} of {}", refs.len())?)
}

// The creations of so many references.
fn creations(alloc: Global, count: &str) -> Result<Updates, Fail> {
    let count = count.parse::<usize>()?;
    let mut list = Updates::new(alloc);
    for number in 0..count {
        let text = format!(in alloc; "0 B refs/{number:06}")?;
        list.push(update(alloc, text.as_str())?)?;
    }
    Ok(list)
}

// What creating so many references comes to: a refusal, or their number.
fn many(alloc: Global, refs: &Refs, count: &str) -> Result<String, Fail> {
    match Prepared::new(alloc, refs, creations(alloc, count)?.as_slice()) {
        Ok(prepared) => Ok(format!(in alloc; "{}", prepared.refs().len())?),
        Err(refusal) => told(alloc, &refusal),
    }
}

// A copy of references, by their list.
fn copied(alloc: Global, refs: &Refs) -> Result<Refs, AllocError> {
    let list = refs.list(alloc)?;
    Refs::of_list(alloc, &list)
}

fn answer(alloc: Global, refs: &mut Refs, name: &str, rest: &str) -> Result<String, Fail> {
    match name {
        "prepare" => prepare(alloc, refs, rest),
        "commit" => commit(alloc, refs, rest),
        "abort" => abort(alloc, refs, rest),
        "create" => create(alloc, refs, rest),
        "get" => counted(alloc, refs, rest),
        "many" => many(alloc, refs, rest),
        _ => shown(alloc, &copied(alloc, refs)?),
    }
}

// Of several causes that of the first update is told, then the first update that is in conflict and
// the least name that it meets. Each update is tested before the next one, and all before any
// conflict. The last line shows that nothing was done.
const LISTS: &str = "\
    commit 0 B refs/a; 0 T refs/a-b; 0 B refs/c/d -> B refs/a T refs/a-b B refs/c/d
    prepare -> empty
    prepare 0 0 refs/x -> void refs/x
    prepare 0 B refs/x; 0 T refs/x -> twice refs/x
    prepare B T refs/x -> stale refs/x 0
    prepare 0 T refs/a -> stale refs/a B
    prepare T B refs/a -> stale refs/a B
    prepare 0 B refs/a/b -> conflict refs/a/b refs/a
    prepare 0 B refs/c -> conflict refs/c refs/c/d
    prepare 0 B refs/q/r; 0 B refs/q -> conflict refs/q/r refs/q
    prepare 0 B refs/e; 0 B refs/e/b; 0 B refs/e/a -> conflict refs/e refs/e/a
    prepare 0 B refs/a/b; 0 B refs/a/b/c -> conflict refs/a/b refs/a
    prepare B T refs/x; 0 0 refs/y -> stale refs/x 0
    prepare 0 B refs/a/b; 0 0 refs/y -> void refs/y
    prepare 0 0 refs/a; 0 0 refs/a -> void refs/a
    prepare B B refs/a -> B refs/a T refs/a-b B refs/c/d
    prepare B T refs/a -> T refs/a T refs/a-b B refs/c/d
    prepare B 0 refs/a; 0 T refs/a/b -> T refs/a-b T refs/a/b B refs/c/d
    prepare T 0 refs/a-b; 0 T refs/b -> B refs/a T refs/b B refs/c/d
    list -> B refs/a T refs/a-b B refs/c/d";

#[test]
fn a_list_is_refused_or_has_its_references(rt: HostRuntime) -> Result<(), Fail> {
    let alloc = rt.alloc();
    play(alloc, &mut Refs::new(alloc), answer, LISTS)
}

// The zero name is told before the name that is there, and that before a conflict.
const CREATED: &str = "\
    commit 0 B refs/a; 0 T refs/c/d -> B refs/a T refs/c/d
    create 0 refs/x -> void refs/x
    create 0 refs/a -> void refs/a
    create T refs/a -> stale refs/a B
    create T refs/a/b -> conflict refs/a/b refs/a
    create T refs/c -> conflict refs/c refs/c/d
    create T refs/b -> B refs/a T refs/b T refs/c/d
    create B refs/b -> stale refs/b T
    list -> B refs/a T refs/b T refs/c/d";

#[test]
fn a_reference_is_created_or_refused(rt: HostRuntime) -> Result<(), Fail> {
    let alloc = rt.alloc();
    play(alloc, &mut Refs::new(alloc), answer, CREATED)
}

// The vote is by sha1sum. The last line has a copy of all references.
const COMMITTED: &str = "\
    commit 0 B refs/heads/a -> B refs/heads/a
    abort 0 B refs/heads/b; B T refs/heads/a -> 9888a85d1037c88a5a42f33b16989b488f3b5b8f
    get refs/heads/b -> none of 1
    commit 0 B refs/heads/b; B T refs/heads/a -> T refs/heads/a B refs/heads/b
    get refs/heads/b -> B of 2
    list -> T refs/heads/a B refs/heads/b";

#[test]
fn what_was_prepared_is_committed_or_not(rt: HostRuntime) -> Result<(), Fail> {
    let alloc = rt.alloc();
    play(alloc, &mut Refs::new(alloc), answer, COMMITTED)
}

// The references refs/000000 and so on are created at once.
const MANY: &str = "\
    many 32768 -> 32768
    many 32769 -> too many";

#[test]
fn a_repository_has_a_greatest_number_of_references(rt: HostRuntime) -> Result<(), Fail> {
    let alloc = rt.alloc();
    play(alloc, &mut Refs::new(alloc), answer, MANY)
}
