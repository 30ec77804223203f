//! A push of two commits, a tag, a tree and a deletion, at a node, at one that takes it over, and at both
//! once they are opened again. Git made its objects, and the votes are sha1sum's of what it hands to its
//! hook.

use crate::calls::{hand_on, play};
use crate::opening::opened_again;
use px_keeper::MemKeeper;
use px_node::{Node, Shelf};
use std::alloc::Global;
use std::test::Fail;
use tests_tables::compare;

const PUSHES: &str = "\
    create x.git 1 -> ok
    prepare x.git 2 none commit1 refs/heads/main none commit1 refs/heads/old \
        +blob1 +tree1 +commit1 -> 45ba
    commit x.git 2 45ba -> 45ba
    snapshot x.git -> refs/heads/main=commit1 refs/heads/old=commit1 and +commit1 +tree1 +blob1
    prepare x.git 3 commit1 commit3 refs/heads/main none tag1 refs/tags/v1 \
        commit1 none refs/heads/old +tag1 +commit3 +commit2 +tree2 -> missing blob2
    prepare x.git 3 commit1 commit3 refs/heads/main none tag1 refs/tags/v1 \
        commit1 none refs/heads/old +tag1 +commit3 +commit2 +tree2 +blob2 -> 25d2
    refs x.git -> refs/heads/main=commit1 refs/heads/old=commit1
    object x.git tag1 -> none
    commit x.git 3 45ba -> differs 25d2
    commit x.git 3 25d2 -> 25d2";

// What is there then. The walk begins with the commit and the tag that references name, and goes on with
// the tree and the parent of the commit, the files of that tree, and what the oldest commit has.
const THERE: &str = "\
    list -> x.git
    refs x.git -> refs/heads/main=commit3 refs/tags/v1=tag1
    snapshot x.git -> refs/heads/main=commit3 refs/tags/v1=tag1 \
        and +commit3 +tag1 +tree2 +commit2 +blob2 +blob1 +commit1 +tree1
    object x.git commit1 -> +commit1
    object x.git commit2 -> +commit2
    object x.git commit3 -> +commit3
    object x.git tag1 -> +tag1
    object x.git tree1 -> +tree1
    object x.git tree2 -> +tree2
    object x.git blob1 -> +blob1
    object x.git blob2 -> +blob2
    object x.git blob -> none";

// The node that takes over what another one has.
fn handed_on<N: Node>(alloc: Global, from: &mut N) -> Result<Shelf<MemKeeper>, Fail> {
    let mut node = Shelf::new(alloc, MemKeeper::new(alloc, Vec::new(alloc)));
    let told = hand_on(alloc, from, &mut node, "x.git", "5")?;
    compare("apply", told.as_str(), "ok")?;
    Ok(node)
}

// Fails where something is not there, at a node or at the same one that is opened again, to which the
// calls of a table are made then.
fn keeps(alloc: Global, mut node: Shelf<MemKeeper>, table: &str) -> Result<(), Fail> {
    play(alloc, &mut node, THERE)?;
    let mut node = opened_again(alloc, node)?;
    play(alloc, &mut node, THERE)?;
    play(alloc, &mut node, table)
}

#[test]
fn a_push_of_commits_a_tag_and_a_deletion_is_done_handed_on_and_kept(
    rt: HostRuntime,
) -> Result<(), Fail> {
    let alloc = rt.alloc();
    let mut first = Shelf::new(alloc, MemKeeper::new(alloc, Vec::new(alloc)));
    play(alloc, &mut first, PUSHES)?;
    let second = handed_on(alloc, &mut first)?;
    keeps(alloc, first, "fence x.git 4 -> last 3")?;
    keeps(
        alloc,
        second,
        "create x.git 5 -> fenced 6\nfence x.git 6 -> last -",
    )
}
