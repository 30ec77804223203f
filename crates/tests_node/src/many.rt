//! A node with more than 300 rows in each of its tables.

use crate::answers::failed;
use crate::calls::{answer, hand_on, play};
use crate::names::read;
use crate::objects::{add_file, object};
use crate::opening::opened_again;
use crate::words::lease;
use objstore::name_of;
use px_base::{
    Bytes, Hash, Kind, Object, ObjectId, Objects, Push, RefName, RepoPath, Update, Updates,
};
use px_keeper::MemKeeper;
use px_node::{Node, NodeError, Shelf};
use std::alloc::{AllocError, Global};
use std::test::Fail;
use tests_tables::compare;
use voters::Verdict;

// By git mktree, the tree of the files 001 to 320, each with its number and a line feed: so the names that
// git hash-object gives to the files are in it.
const TREE: &str = "6070d248960207956c4dc40b7203b5e784b9205c";

// The sha1sum of what Git hands to its hook where refs/many/001 to refs/many/320 are created, which name
// those files, and refs/trees/all, which names the tree.
const VOTE: &str = "9ae55c45c065394207298d670c6f7631c71e3973";

fn file(alloc: Global, number: u64) -> Result<Object, Fail> {
    let content = format!(in alloc; "{number}\n")?;
    object(Kind::Blob, Bytes::from_slice(alloc, content.as_bytes())?)
}

// The creation of the reference of this name in that place.
fn creation(alloc: Global, place: &str, name: &str, new: ObjectId) -> Result<Update, Fail> {
    let name = format!(in alloc; "{place}{name}")?;
    Ok(Update {
        old: Hash::zero(),
        new,
        name: RefName::read(alloc, name.as_bytes())?,
    })
}

// Adds the creation of a reference to a push, with the object that it names.
fn add(push: &mut Push, update: Update, object: Object) -> Result<(), AllocError> {
    push.updates.push(update)?;
    push.objects.push(object)
}

// Adds the reference and the file of a number to a push, and the file to a tree.
fn add_numbered(alloc: Global, push: &mut Push, tree: &mut Bytes, number: u64) -> Result<(), Fail> {
    let digits = format!(in alloc; "{number:03}")?;
    let file = file(alloc, number)?;
    let id = name_of(file.kind(), file.content());
    add_file(tree, digits.as_str(), &id)?;
    let update = creation(alloc, "refs/many/", digits.as_str(), id)?;
    Ok(add(push, update, file)?)
}

// Adds references to a push that has none, and gives the tree of the files that they name.
fn add_many(alloc: Global, push: &mut Push) -> Result<Bytes, Fail> {
    let mut tree = Bytes::new(alloc);
    for number in 1u64..321 {
        add_numbered(alloc, push, &mut tree, number)?;
    }
    Ok(tree)
}

// The push that creates those references, with the objects that they name, in the order of the names.
fn push(alloc: Global) -> Result<Push, Fail> {
    let mut push = Push {
        updates: Updates::new(alloc),
        objects: Objects::new(alloc),
    };
    let tree = object(Kind::Tree, add_many(alloc, &mut push)?)?;
    let update = creation(alloc, "refs/trees/", "all", read(TREE)?)?;
    add(&mut push, update, tree)?;
    Ok(push)
}

// The value of an answer that has to be Ok.
fn given<T: Drop>(alloc: Global, answer: Result<T, NodeError>) -> Result<T, Fail> {
    match answer {
        Ok(value) => Ok(value),
        Err(error) => Err(Fail::new(failed(alloc, &error)?.as_str())),
    }
}

// Whether the references are those that the updates create, in their order.
fn has_refs(refs: &[(RefName, ObjectId)], updates: &[Update]) -> bool {
    for ((name, id), update) in refs.iter().zip(updates) {
        if name.as_bytes() != update.name.as_bytes() || *id != update.new {
            return false;
        }
    }
    refs.len() == updates.len()
}

// Whether these are the objects, in their order.
fn has_objects(have: &[Object], want: &[Object]) -> bool {
    for (have, want) in have.iter().zip(want) {
        if !have.is_same(want) {
            return false;
        }
    }
    have.len() == want.len()
}

fn require(holds: bool, message: &str) -> Result<(), Fail> {
    if holds {
        Ok(())
    } else {
        Err(Fail::new(message))
    }
}

// Fails where a node has other references than those that the updates create.
fn has_refs_of<N: Node>(
    alloc: Global,
    node: &mut N,
    repo: &RepoPath,
    updates: &[Update],
) -> Result<(), Fail> {
    let refs = given(alloc, node.refs(alloc, repo))?;
    require(has_refs(refs.as_slice(), updates), "other references")
}

// Fails where a node hands something else on than what the push brought. The walk from the references
// takes what they name in their order, and all that the tree leads to is among that.
fn has_snapshot_of<N: Node>(
    alloc: Global,
    node: &mut N,
    repo: &RepoPath,
    push: &Push,
) -> Result<(), Fail> {
    let snapshot = given(alloc, node.snapshot(alloc, repo))?;
    let is_same = has_refs(snapshot.refs.as_slice(), push.updates.as_slice())
        && has_objects(snapshot.objects.as_slice(), push.objects.as_slice());
    require(is_same, "another snapshot")
}

// Fails where a node has no such object, or another one under its name.
fn has_object<N: Node>(
    alloc: Global,
    node: &mut N,
    repo: &RepoPath,
    id: &ObjectId,
    want: &Object,
) -> Result<(), Fail> {
    match given(alloc, node.object(alloc, repo, id))? {
        Some(have) => require(have.is_same(want), "another object under a name"),
        None => Err(Fail::new("an object is missing")),
    }
}

// Fails where a node has something else in x.git than what the push brought.
fn has_pushed<N: Node>(alloc: Global, node: &mut N, push: &Push) -> Result<(), Fail> {
    let repo = RepoPath::read(alloc, b"x.git")?;
    let updates = push.updates.as_slice();
    has_refs_of(alloc, node, &repo, updates)?;
    has_snapshot_of(alloc, node, &repo, push)?;
    for (update, want) in updates.iter().zip(push.objects.as_slice()) {
        has_object(alloc, node, &repo, &update.new, want)?;
    }
    Ok(())
}

// The verdict for a vote, of two of three voters.
fn verdict(vote: Hash) -> Result<Verdict, Fail> {
    match Verdict::of(vote, 2, 2, 3) {
        Some(verdict) => Ok(verdict),
        None => Err(Fail::new("no verdict")),
    }
}

// Creates x.git with what the push brings.
fn do_push<N: Node>(alloc: Global, node: &mut N, push: &Push) -> Result<(), Fail> {
    play(alloc, node, "create x.git 1 -> ok")?;
    let (lease, vote) = (lease("2")?, read(VOTE)?);
    let verdict = verdict(vote)?;
    let repo = RepoPath::read(alloc, b"x.git")?;
    let voted = given(alloc, node.prepare(alloc, &repo, lease, push))?;
    require(voted == vote, "another vote")?;
    let voted = given(alloc, node.commit(alloc, &repo, lease, &verdict))?;
    require(voted == vote, "another vote at the commit")
}

// Makes a call for each of 001.git to 320.git, and fails where one is answered otherwise.
fn for_each<N: Node>(alloc: Global, node: &mut N, name: &str, want: &str) -> Result<(), Fail> {
    for number in 1u64..321 {
        let row = format!(in alloc; "{name} {number:03}.git 1 -> {want}")?;
        play(alloc, node, row.as_str())?;
    }
    Ok(())
}

// Fails where a node holds other repositories than 001.git to 320.git and the last one.
fn has_listed<N: Node>(alloc: Global, node: &mut N, last: &str) -> Result<(), Fail> {
    let mut want = String::new(alloc);
    for number in 1u64..321 {
        want.push_str(format!(in alloc; "{number:03}.git ")?.as_str())?;
    }
    want.push_str(last)?;
    let told = answer(alloc, node, "list")?;
    compare("list", told.as_str(), want.as_str().trim())
}

fn empty_shelf(alloc: Global) -> Shelf<MemKeeper> {
    Shelf::new(alloc, MemKeeper::new(alloc, Vec::new(alloc)))
}

// Fails where a node that takes over what another one has, and is opened again, has something else.
fn has_handed_on<N: Node>(alloc: Global, from: &mut N, push: &Push) -> Result<(), Fail> {
    let mut node = empty_shelf(alloc);
    let told = hand_on(alloc, from, &mut node, "x.git", "1")?;
    compare("apply", told.as_str(), "ok")?;
    has_pushed(alloc, &mut opened_again(alloc, node)?, push)
}

// A node with those repositories, and with what the push brings.
fn with_many(alloc: Global, push: &Push) -> Result<Shelf<MemKeeper>, Fail> {
    let mut node = empty_shelf(alloc);
    for_each(alloc, &mut node, "create", "ok")?;
    do_push(alloc, &mut node, push)?;
    Ok(node)
}

// Fails where the rows were not all read again.
fn has_all<N: Node>(alloc: Global, node: &mut N, push: &Push) -> Result<(), Fail> {
    has_listed(alloc, node, "x.git")?;
    has_pushed(alloc, node, push)?;
    for_each(alloc, node, "create", "fenced 2")
}

#[test]
fn hundreds_of_references_and_objects_are_pushed_handed_on_and_kept(
    rt: HostRuntime,
) -> Result<(), Fail> {
    let alloc = rt.alloc();
    let push = push(alloc)?;
    let mut first = empty_shelf(alloc);
    do_push(alloc, &mut first, &push)?;
    has_pushed(alloc, &mut first, &push)?;
    has_handed_on(alloc, &mut first, &push)
}

#[test]
fn hundreds_of_rows_of_each_table_are_read_again(rt: HostRuntime) -> Result<(), Fail> {
    let alloc = rt.alloc();
    let push = push(alloc)?;
    let mut node = opened_again(alloc, with_many(alloc, &push)?)?;
    has_all(alloc, &mut node, &push)?;
    play(alloc, &mut node, "remove x.git 3 -> ok")?;
    let mut node = opened_again(alloc, node)?;
    has_listed(alloc, &mut node, "")?;
    for_each(alloc, &mut node, "fence", "last -")?;
    play(alloc, &mut node, "refs x.git -> no repo")
}
