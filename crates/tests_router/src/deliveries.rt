//! What nodes in memory answer to effects, and what these leave at other nodes.

ghost use Rattle.std.specs.Prelude.{◌≡◌, ◌<◌, ◌≤◌};
ghost use Rattle.nodes.specs.State.{state_of};

use crate::words::{lease, text, words};
use nodes::{NodeFault, Nodes};
use px_base::{
    Bytes, Hash, Kind, Lease, Object, Objects, Push, RefList, RefName, RepoPath, Update, Updates,
};
use px_ops::{NodeRefusal, add_node_refusal};
use std::alloc::Global;
use std::test::Fail;
use tests_tables::play;
use voters::Verdict;

// The nodes of so many storages at least.
#[derive(Drop)]
struct Counted {
    nodes: Nodes,
    count: usize,
    ghost counted: { count ≤ (state_of nodes).count },
}

// Why a node did not answer.
fn failed(alloc: Global, fault: NodeFault) -> Result<String, Fail> {
    match fault {
        NodeFault::Refused(why) => refused(alloc, &why),
        NodeFault::Memory => text(alloc, "memory"),
    }
}

fn refused(alloc: Global, why: &NodeRefusal) -> Result<String, Fail> {
    let mut bytes = Bytes::new(alloc);
    add_node_refusal(&mut bytes, why)?;
    text(alloc, str::from_utf8(bytes.as_slice()).unwrap_or("?"))
}

fn done(alloc: Global, answer: Result<(), NodeFault>) -> Result<String, Fail> {
    match answer {
        Ok(()) => text(alloc, "ok"),
        Err(fault) => failed(alloc, fault),
    }
}

fn voted(alloc: Global, answer: Result<Hash, NodeFault>) -> Result<String, Fail> {
    match answer {
        Ok(vote) => text(alloc, str::from_utf8(&vote.text()).unwrap_or("?")),
        Err(fault) => failed(alloc, fault),
    }
}

fn last(alloc: Global, answer: Result<Option<Lease>, NodeFault>) -> Result<String, Fail> {
    match answer {
        Ok(Some(last)) => Ok(format!(in alloc; "last {}", last.number())?),
        Ok(None) => text(alloc, "last -"),
        Err(fault) => failed(alloc, fault),
    }
}

// References, each as NAME=OBJECT.
fn shown(alloc: Global, refs: &RefList) -> Result<String, Fail> {
    let mut told = text(alloc, "refs")?;
    for (name, id) in refs.as_slice() {
        let (name, id) = (str::from_utf8(name.as_bytes()).unwrap_or("?"), id.text());
        let id = str::from_utf8(&id).unwrap_or("?");
        told.push_str(format!(in alloc; " {name}={id}")?.as_str())?;
    }
    Ok(told)
}

fn references(alloc: Global, answer: Result<RefList, NodeFault>) -> Result<String, Fail> {
    match answer {
        Ok(refs) => shown(alloc, &refs),
        Err(fault) => failed(alloc, fault),
    }
}

fn hash(word: &str) -> Result<Hash, Fail> {
    match Hash::read(word.as_bytes()) {
        Some(hash) => Ok(hash),
        None => Err(Fail::new("no hash")),
    }
}

// The verdict of two of three voters.
fn verdict(word: &str) -> Result<Verdict, Fail> {
    match Verdict::of(hash(word)?, 2, 2, 3) {
        Some(verdict) => Ok(verdict),
        None => Err(Fail::new("no verdict")),
    }
}

// The objects of a push that brings the empty blob.
fn empty_blob(alloc: Global) -> Result<Objects, Fail> {
    let mut objects = Objects::new(alloc);
    match Object::new(Kind::Blob, Bytes::new(alloc)) {
        Some(blob) => objects.push(blob)?,
        None => return Err(Fail::new("no object")),
    }
    Ok(objects)
}

// The creation of refs/tags/v1, which names the empty blob.
fn creation(alloc: Global) -> Result<Updates, Fail> {
    let mut updates = Updates::new(alloc);
    updates.push(Update {
        old: Hash::zero(),
        new: hash("e69de29bb2d1d6434b8b29ae775ad8c2e48c5391")?,
        name: RefName::read(alloc, b"refs/tags/v1")?,
    })?;
    Ok(updates)
}

fn push(alloc: Global) -> Result<Push, Fail> {
    let updates = creation(alloc)?;
    let objects = empty_blob(alloc)?;
    Ok(Push { updates, objects })
}

// An effect under a lease, at the node of a storage.
fn effect(
    alloc: Global,
    nodes: &mut Nodes,
    name: &str,
    storage: usize,
    path: &RepoPath,
    lease: Lease,
) -> Result<String, Fail>
    requires { storage < (state_of nodes.old).count }
    ensures { (state_of nodes.new).count ≡ (state_of nodes.old).count }
{
    match name {
        "make" => done(alloc, nodes.make(alloc, storage, path, lease)),
        "prepare" => voted(
            alloc,
            nodes.prepare_push(alloc, storage, path, lease, &push(alloc)?),
        ),
        "abort" => done(alloc, nodes.abort(alloc, storage, path, lease)),
        "fence" => last(alloc, nodes.fence(alloc, storage, path, lease)),
        _ => done(alloc, nodes.remove(alloc, storage, path, lease)),
    }
}

// What one node holds is handed on to another one.
fn hand_on(
    alloc: Global,
    nodes: &mut Nodes,
    from: usize,
    to: usize,
    path: &RepoPath,
    lease: Lease,
) -> Result<String, Fail>
    requires from { from < (state_of nodes.old).count }
    requires to { to < (state_of nodes.old).count }
    ensures { (state_of nodes.new).count ≡ (state_of nodes.old).count }
{
    match nodes.snapshot(alloc, from, path) {
        Ok(snapshot) => done(alloc, nodes.apply(alloc, to, path, lease, &snapshot)),
        Err(fault) => failed(alloc, fault),
    }
}

// A call at the node of a storage.
fn at_node(
    alloc: Global,
    counted: &mut Counted,
    name: &str,
    storage: usize,
    words: &[&str],
) -> Result<String, Fail> {
    if storage >= counted.count {
        return text(alloc, "no node");
    }
    let path = RepoPath::read(alloc, b"a.git")?;
    let nodes = &mut counted.nodes;
    match (name, words) {
        ("refs", _) => references(alloc, nodes.refs(alloc, storage, &path)),
        ("commit", [under, vote]) => {
            let (under, verdict) = (lease(*under)?, verdict(*vote)?);
            voted(alloc, nodes.commit(alloc, storage, &path, under, &verdict))
        }
        ("hand_on", [under, to]) => {
            let to = to.parse::<usize>()?;
            if to >= counted.count {
                return text(alloc, "no node");
            }
            hand_on(alloc, nodes, storage, to, &path, lease(*under)?)
        }
        (_, [under]) => effect(alloc, nodes, name, storage, &path, lease(*under)?),
        _ => Err(Fail::new("no such call")),
    }
}

fn answer(alloc: Global, counted: &mut Counted, name: &str, rest: &str) -> Result<String, Fail> {
    let words = words(alloc, rest)?;
    match words.as_slice() {
        [storage, rest @ ..] => at_node(alloc, counted, name, storage.parse::<usize>()?, rest),
        _ => Err(Fail::new("no storage")),
    }
}

// One node more.
fn add(alloc: Global, counted: &mut Counted) -> Result<(), Fail> {
    counted.nodes.prepare(alloc)?;
    counted.nodes.add();
    counted.count = counted.count.saturating_add(1);
    Ok(())
}

fn with_nodes(alloc: Global, count: u32) -> Result<Counted, Fail> {
    let mut counted = Counted {
        nodes: Nodes::new(alloc),
        count: 0,
    };
    for _ in 0..count {
        add(alloc, &mut counted)?;
    }
    Ok(counted)
}

// The vote is the sha1sum of what Git hands to its hook where refs/tags/v1 is created, which names
// the empty blob. The push is prepared at two of three nodes, and done at the first.
const PUSH: &str = "\
    refs 3 -> no node
    refs 0 -> NoRepo
    prepare 0 1 -> NoRepo
    abort 0 1 -> NoRepo
    make 0 1 -> ok
    refs 0 -> refs
    refs 1 -> NoRepo
    make 0 1 -> Fenced 2
    make 1 1 -> ok
    prepare 0 1 -> Fenced 2
    prepare 0 2 -> a58b8593e395cbf0c1f9a0154da419eeecd3521a
    prepare 1 2 -> a58b8593e395cbf0c1f9a0154da419eeecd3521a
    commit 2 2 a58b8593e395cbf0c1f9a0154da419eeecd3521a -> NoRepo
    commit 0 2 e69de29bb2d1d6434b8b29ae775ad8c2e48c5391 \
        -> VoteDiffers a58b8593e395cbf0c1f9a0154da419eeecd3521a
    refs 0 -> refs
    commit 0 2 a58b8593e395cbf0c1f9a0154da419eeecd3521a -> a58b8593e395cbf0c1f9a0154da419eeecd3521a
    refs 0 -> refs refs/tags/v1=e69de29bb2d1d6434b8b29ae775ad8c2e48c5391
    refs 1 -> refs
    abort 1 2 -> ok
    commit 1 2 a58b8593e395cbf0c1f9a0154da419eeecd3521a -> Fenced 3
    commit 1 3 a58b8593e395cbf0c1f9a0154da419eeecd3521a -> NotPrepared
    abort 1 2 -> Fenced 3
    refs 1 -> refs
    prepare 0 3 -> Stale refs/tags/v1 e69de29bb2d1d6434b8b29ae775ad8c2e48c5391
    make 0 3 -> RepoExists";

// Fences, and what is handed on.
const REPAIRS: &str = "\
    fence 1 5 -> last -
    fence 0 4 -> last 2
    fence 2 4 -> NoRepo
    make 2 3 -> Fenced 4
    hand_on 0 4 1 -> Fenced 5
    hand_on 2 6 1 -> NoRepo
    refs 1 -> refs
    hand_on 0 5 1 -> ok
    refs 1 -> refs refs/tags/v1=e69de29bb2d1d6434b8b29ae775ad8c2e48c5391
    remove 0 3 -> Fenced 4
    remove 0 4 -> ok
    refs 0 -> NoRepo
    fence 0 5 -> NoRepo
    refs 1 -> refs refs/tags/v1=e69de29bb2d1d6434b8b29ae775ad8c2e48c5391";

#[test]
fn a_node_does_what_is_not_below_its_fence(rt: HostRuntime) -> Result<(), Fail> {
    let alloc = rt.alloc();
    let mut counted = with_nodes(alloc, 3)?;
    play(alloc, &mut counted, answer, PUSH)?;
    play(alloc, &mut counted, answer, REPAIRS)
}

const ONE: &str = "\
    make 0 1 -> ok
    refs 0 -> refs
    refs 1 -> no node";

const MANY: &str = "\
    make 63 1 -> ok
    make 0 1 -> ok
    prepare 63 2 -> a58b8593e395cbf0c1f9a0154da419eeecd3521a
    commit 63 2 a58b8593e395cbf0c1f9a0154da419eeecd3521a -> a58b8593e395cbf0c1f9a0154da419eeecd3521a
    refs 63 -> refs refs/tags/v1=e69de29bb2d1d6434b8b29ae775ad8c2e48c5391
    refs 0 -> refs
    refs 62 -> NoRepo
    refs 64 -> no node";

#[test]
fn each_storage_has_a_node(rt: HostRuntime) -> Result<(), Fail> {
    let alloc = rt.alloc();
    play(alloc, &mut with_nodes(alloc, 1)?, answer, ONE)?;
    play(alloc, &mut with_nodes(alloc, 64)?, answer, MANY)
}
