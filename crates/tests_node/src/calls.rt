//! The calls of a node, as lines of text.

use crate::answers::{self, done, failed, voted};
use crate::names::hash;
use crate::words::{lease, push, snapshot};
use px_base::{Lease, RepoPath};
use px_node::Node;
use std::alloc::Global;
use std::test::Fail;
use voters::Verdict;

/// What a node answers to a call: its name, a path, and what it carries.
pub fn answer<N: Node>(alloc: Global, node: &mut N, call: &str) -> Result<String, Fail> {
    let call = call.trim_start();
    let (name, rest) = call.split_once(" ").unwrap_or((call, ""));
    answer_to(alloc, node, name, rest)
}

fn answer_to<N: Node>(alloc: Global, node: &mut N, name: &str, rest: &str) -> Result<String, Fail> {
    let mut words = Vec::new(alloc);
    for word in rest.split_whitespace() {
        words.push(word)?;
    }
    match (name, words.as_slice()) {
        ("list", _) => list(alloc, node),
        ("faults", _) => Ok(format!(in alloc; "{}", node.faults())?),
        (_, [path, rest @ ..]) => {
            let repo = RepoPath::read(alloc, path.as_bytes())?;
            on_repository(alloc, node, name, &repo, rest)
        }
        _ => Err(Fail::new("no such call")),
    }
}

/// The answers of a node to calls, a line each.
pub fn answers<N: Node>(alloc: Global, node: &mut N, calls: &str) -> Result<String, Fail> {
    let mut told = String::new(alloc);
    for call in calls.lines() {
        if !told.is_empty() {
            told.push_str(", ")?;
        }
        told.push_str(answer(alloc, node, call)?.as_str())?;
    }
    Ok(told)
}

/// Makes the calls of a table to a node, and fails at the first one that is answered otherwise than
/// its line says.
pub fn play<N: Node>(alloc: Global, node: &mut N, table: &str) -> Result<(), Fail> {
    tests_tables::play(alloc, node, answer_to::<N>, table)
}

fn on_repository<N: Node>(
    alloc: Global,
    node: &mut N,
    name: &str,
    repo: &RepoPath,
    words: &[&str],
) -> Result<String, Fail> {
    match (name, words) {
        ("refs", _) => refs(alloc, node, repo),
        ("object", [id]) => object(alloc, node, repo, *id),
        ("snapshot", _) => snapshot_of(alloc, node, repo),
        (_, [number, rest @ ..]) => effect(alloc, node, name, repo, lease(*number)?, rest),
        _ => Err(Fail::new("no lease")),
    }
}

// Calls that carry a lease.
fn effect<N: Node>(
    alloc: Global,
    node: &mut N,
    name: &str,
    repo: &RepoPath,
    lease: Lease,
    words: &[&str],
) -> Result<String, Fail> {
    match name {
        "create" => done(alloc, node.create(alloc, repo, lease)),
        "prepare" => prepare(alloc, node, repo, lease, words),
        "commit" => commit(alloc, node, repo, lease, words),
        "abort" => done(alloc, node.abort(alloc, repo, lease)),
        "fence" => fence(alloc, node, repo, lease),
        "apply" => apply(alloc, node, repo, lease, words),
        "remove" => done(alloc, node.remove(alloc, repo, lease)),
        _ => Err(Fail::new("no such call")),
    }
}

fn prepare<N: Node>(
    alloc: Global,
    node: &mut N,
    repo: &RepoPath,
    lease: Lease,
    words: &[&str],
) -> Result<String, Fail> {
    let push = push(alloc, words)?;
    voted(alloc, node.prepare(alloc, repo, lease, &push))
}

// The verdict is one of two of three voters.
fn commit<N: Node>(
    alloc: Global,
    node: &mut N,
    repo: &RepoPath,
    lease: Lease,
    words: &[&str],
) -> Result<String, Fail> {
    let word = words.first().copied().unwrap_or("");
    match Verdict::of(hash(word)?, 2, 2, 3) {
        Some(verdict) => voted(alloc, node.commit(alloc, repo, lease, &verdict)),
        None => Err(Fail::new("no verdict")),
    }
}

fn fence<N: Node>(
    alloc: Global,
    node: &mut N,
    repo: &RepoPath,
    lease: Lease,
) -> Result<String, Fail> {
    match node.fence(alloc, repo, lease) {
        Ok(last) => answers::last(alloc, last),
        Err(error) => failed(alloc, &error),
    }
}

fn apply<N: Node>(
    alloc: Global,
    node: &mut N,
    repo: &RepoPath,
    lease: Lease,
    words: &[&str],
) -> Result<String, Fail> {
    let snapshot = snapshot(alloc, words)?;
    done(alloc, node.apply(alloc, repo, lease, &snapshot))
}

fn refs<N: Node>(alloc: Global, node: &mut N, repo: &RepoPath) -> Result<String, Fail> {
    match node.refs(alloc, repo) {
        Ok(refs) => answers::references(alloc, &refs),
        Err(error) => failed(alloc, &error),
    }
}

fn object<N: Node>(alloc: Global, node: &mut N, repo: &RepoPath, id: &str) -> Result<String, Fail> {
    match node.object(alloc, repo, &hash(id)?) {
        Ok(object) => answers::object(alloc, &object),
        Err(error) => failed(alloc, &error),
    }
}

fn snapshot_of<N: Node>(alloc: Global, node: &mut N, repo: &RepoPath) -> Result<String, Fail> {
    match node.snapshot(alloc, repo) {
        Ok(snapshot) => answers::snapshot(alloc, &snapshot),
        Err(error) => failed(alloc, &error),
    }
}

fn list<N: Node>(alloc: Global, node: &mut N) -> Result<String, Fail> {
    match node.list(alloc) {
        Ok(paths) => answers::paths(alloc, &paths),
        Err(error) => failed(alloc, &error),
    }
}

/// Hands a repository on from one node to another, under a lease.
pub fn hand_on<M: Node, N: Node>(
    alloc: Global,
    from: &mut M,
    to: &mut N,
    path: &str,
    number: &str,
) -> Result<String, Fail> {
    let repo = RepoPath::read(alloc, path.as_bytes())?;
    match from.snapshot(alloc, &repo) {
        Ok(snapshot) => done(alloc, to.apply(alloc, &repo, lease(number)?, &snapshot)),
        Err(error) => failed(alloc, &error),
    }
}
