//! `push N TURNS`: makes N repositories at a node in memory, and then as many pushes as TURNS says,
//! each of one new reference and one blob, into one repository after the other. `grow N TURNS`: makes
//! one repository with N references, by one push, and then as many such pushes into it as TURNS says.
//! `open N TURNS`: does so with ten pushes for each repository, and then opens a node over what the
//! keeper has, as many times as TURNS says. Each prints how many repositories the last node holds.

use crate::end::{End, number, print};
use crate::references::name_of;
use px_base::{
    Bytes, Hash, Kind, Lease, NameFault, Object, Objects, Push, RepoPath, Sink, Update, Updates,
};
use px_keeper::MemKeeper;
use px_node::{Node, NodeError, OpenFault, Shelf};
use std::alloc::Global;
use voters::Verdict;

/// How many pushes `open` makes for each repository.
const PUSHES_EACH: u32 = 10;

// What a call on a node that cannot fault comes to.
fn done<A: Drop>(answer: Result<A, NodeError>) -> Result<A, End> {
    match answer {
        Ok(answer) => Ok(answer),
        Err(NodeError::Memory) => Err(End::Memory),
        Err(_) => Err(End::BadInput),
    }
}

fn lease(number: u64) -> Result<Lease, End> {
    Lease::new(number).ok_or(End::BadInput)
}

fn path(alloc: Global, number: u32) -> Result<RepoPath, End> {
    let text = format!(in alloc; "group/{number:08}.git")?;
    match RepoPath::read(alloc, text.as_bytes()) {
        Ok(path) => Ok(path),
        Err(NameFault::Memory) => Err(End::Memory),
        Err(_) => Err(End::BadInput),
    }
}

// Paths of so many repositories.
fn paths(alloc: Global, count: u32) -> Result<Vec<RepoPath>, End> {
    let mut paths = Vec::new(alloc);
    for number in 0..count {
        paths.push(path(alloc, number)?).map_err(|_| End::Memory)?;
    }
    Ok(paths)
}

// A creation of a reference that names a blob of this content.
fn creation(alloc: Global, name: &str, content: &str) -> Result<Update, End> {
    Ok(Update {
        old: Hash::zero(),
        new: objstore::name_of(Kind::Blob, content.as_bytes()),
        name: name_of(alloc, name.as_bytes())?,
    })
}

// A creation of a reference that names the blob of its own name.
fn updates(alloc: Global, name: &str) -> Result<Updates, End> {
    let mut updates = Updates::new(alloc);
    updates.push(creation(alloc, name, name)?)?;
    Ok(updates)
}

// The blob of this content.
fn objects(alloc: Global, content: &str) -> Result<Objects, End> {
    let content = Bytes::from_slice(alloc, content.as_bytes())?;
    let mut objects = Objects::new(alloc);
    objects.push(Object::new(Kind::Blob, content).ok_or(End::BadInput)?)?;
    Ok(objects)
}

// A push of one new reference and one blob, both with this number.
fn push_of(alloc: Global, number: u32) -> Result<Push, End> {
    let text = format!(in alloc; "refs/heads/branch-{number:08}")?;
    let updates = updates(alloc, text.as_str())?;
    let objects = objects(alloc, text.as_str())?;
    Ok(Push { updates, objects })
}

// A push of so many new references, which name one blob.
fn first_push(alloc: Global, count: u32) -> Result<Push, End> {
    let mut updates = Updates::new(alloc);
    for number in 0..count {
        let name = format!(in alloc; "refs/tags/first-{number:08}")?;
        updates.push(creation(alloc, name.as_str(), "first")?)?;
    }
    let objects = objects(alloc, "first")?;
    Ok(Push { updates, objects })
}

// Prepares a push, and commits it by the verdict of its one vote.
fn send<N: Node>(
    alloc: Global,
    node: &mut N,
    path: &RepoPath,
    lease: Lease,
    push: &Push,
) -> Result<(), End> {
    let vote = done(node.prepare(alloc, path, lease, push))?;
    let verdict = Verdict::of(vote, 1, 1, 1).ok_or(End::BadInput)?;
    done(node.commit(alloc, path, lease, &verdict))?;
    Ok(())
}

// Makes the push of a number, under a lease of its own.
fn push_one<N: Node>(alloc: Global, node: &mut N, path: &RepoPath, number: u32) -> Result<(), End> {
    let push = push_of(alloc, number)?;
    send(alloc, node, path, lease(u64::from(number) + 3)?, &push)
}

// Makes so many pushes, into one repository after the other.
fn push_all<N: Node>(
    alloc: Global,
    node: &mut N,
    paths: &[RepoPath],
    pushes: u32,
) -> Result<(), End> {
    for number in 0..pushes {
        let place = number as usize % paths.len().max(1);
        push_one(alloc, node, paths.get(place).ok_or(End::Usage)?, number)?;
    }
    Ok(())
}

// Makes so many repositories, and so many pushes into them.
fn fill<N: Node>(alloc: Global, node: &mut N, count: u32, pushes: u32) -> Result<(), End> {
    let paths = paths(alloc, count)?;
    for path in &paths {
        done(node.create(alloc, path, lease(1)?))?;
    }
    push_all(alloc, node, &paths, pushes)
}

// A node in memory with so many repositories, and with so many pushes done.
fn pushed(alloc: Global, count: u32, pushes: u32) -> Result<Shelf<MemKeeper>, End> {
    let mut node = Shelf::new(alloc, MemKeeper::new(alloc, Vec::new(alloc)));
    fill(alloc, &mut node, count, pushes)?;
    Ok(node)
}

// Prints how many repositories a node holds.
fn tell<N: Node, O: Sink>(alloc: Global, node: &mut N, out: &mut O) -> Result<(), End> {
    let held = done(node.list(alloc))?;
    let line = format!(in alloc; "{}\n", held.len())?;
    print(out, line.as_bytes())
}

/// Makes so many repositories and so many pushes.
pub fn push<O: Sink>(alloc: Global, count: &str, turns: &str, out: &mut O) -> Result<(), End> {
    let mut node = pushed(alloc, number(count)?, number(turns)?)?;
    tell(alloc, &mut node, out)
}

/// Makes a repository with so many references, and so many pushes into it.
pub fn grow<O: Sink>(alloc: Global, count: &str, turns: &str, out: &mut O) -> Result<(), End> {
    let mut node = pushed(alloc, 1, 0)?;
    let paths = paths(alloc, 1)?;
    let push = first_push(alloc, number(count)?)?;
    send(
        alloc,
        &mut node,
        paths.first().ok_or(End::Usage)?,
        lease(2)?,
        &push,
    )?;
    push_all(alloc, &mut node, &paths, number(turns)?)?;
    tell(alloc, &mut node, out)
}

// The node over the keeper of another one.
fn again(alloc: Global, node: Shelf<MemKeeper>) -> Result<Shelf<MemKeeper>, End> {
    match Shelf::open(alloc, node.into_keeper()) {
        Ok(node) => Ok(node),
        Err(OpenFault::Memory { .. }) => Err(End::Memory),
        Err(_) => Err(End::BadInput),
    }
}

// The node over the keeper of another one, opened so many times.
fn opened(alloc: Global, node: Shelf<MemKeeper>, turns: u32) -> Result<Shelf<MemKeeper>, End> {
    let mut node = node;
    for _ in 0..turns {
        node = again(alloc, node)?;
    }
    Ok(node)
}

/// Opens a node over the keeper of one with so many repositories, again and again.
pub fn open<O: Sink>(alloc: Global, count: &str, turns: &str, out: &mut O) -> Result<(), End> {
    let count = number(count)?;
    let turns = number(turns)?;
    let pushes = count.checked_mul(PUSHES_EACH).ok_or(End::Usage)?;
    let node = pushed(alloc, count, pushes)?;
    let mut node = opened(alloc, node, turns)?;
    tell(alloc, &mut node, out)
}
