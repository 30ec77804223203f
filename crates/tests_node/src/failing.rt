//! Nodes whose keeper fails, or that want memory.

use crate::calls::{answer, answers};
use crate::keeper::rows;
use px_keeper::MemKeeper;
use px_node::{Node, Shelf};
use std::alloc::Global;
use std::test::Fail;
use tests_tables::compare;

// The calls of a node from the first to a removal, each effect once.
const EFFECTS: &str = "\
    create x.git 1
    prepare x.git 2 none blob refs/tags/empty +blob
    commit x.git 2 vote
    abort x.git 3
    fence x.git 5
    apply y.git 1 none tree refs/a +tree
    apply x.git 5 none tree refs/b +tree
    remove y.git 2";

// What they are answered, and what is read and which rows are kept after them, by hand. The rows are the
// fence, the flag and the last lease, and whether it is held; the id of the reference; the kinds and
// contents of the objects.
const ANSWERED: &str = "ok, vote, vote, ok, last 2, ok, ok, ok";

const READ: &str = "x.git, refs/b=tree and +tree, no repo, +blob";

const KEPT: &str = "6 782e676974=000000000000000601000000000000000201 \
    6 792e676974=000000000000000300000000000000000000 \
    7 782e67697400726566732f62=4b825dc642cb6eb9a060e54bf8d69288fbee4904 \
    8 782e676974004b825dc642cb6eb9a060e54bf8d69288fbee4904=02 \
    8 782e67697400e69de29bb2d1d6434b8b29ae775ad8c2e48c5391=03";

fn shelf(alloc: Global, failing: &[u64]) -> Result<Shelf<MemKeeper>, Fail> {
    let failing = Vec::from_slice(alloc, failing)?;
    Ok(Shelf::new(alloc, MemKeeper::new(alloc, failing)))
}

#[test]
fn each_effect_is_done_and_is_there(rt: HostRuntime) -> Result<(), Fail> {
    let alloc = rt.alloc();
    let mut node = shelf(alloc, &[])?;
    let told = answers(alloc, &mut node, EFFECTS)?;
    compare("the effects", told.as_str(), ANSWERED)?;
    let all = all_of(alloc, node)?;
    let wanted = format!(in alloc; "{READ}; {KEPT}")?;
    compare("what is there", all.as_str(), wanted.as_str())
}

// What the effects are answered where a call of the keeper fails, and the same call of the node is done
// at the second try, as if it were the first; the faults; and the rows that are kept.
fn kept_by(alloc: Global, failing: u64) -> Result<String, Fail> {
    let mut node = shelf(alloc, &[failing])?;
    let told = tried_twice(alloc, &mut node)?;
    let faults = node.faults();
    let kept = rows(alloc, &mut node.into_keeper())?;
    Ok(format!(in alloc; "{told}; {faults}; {kept}")?)
}

fn tried_twice<N: Node>(alloc: Global, node: &mut N) -> Result<String, Fail> {
    let mut told = String::new(alloc);
    for call in EFFECTS.lines() {
        if !told.is_empty() {
            told.push_str(", ")?;
        }
        told.push_str(again(alloc, node, call)?.as_str())?;
    }
    Ok(told)
}

// What a call is answered at its second try where it faults.
fn again<N: Node>(alloc: Global, node: &mut N, call: &str) -> Result<String, Fail> {
    let mut told = answer(alloc, node, call)?;
    if told.as_str() == "fault" {
        told = answer(alloc, node, call)?;
    }
    Ok(told)
}

#[test]
fn where_the_keeper_fails_nothing_has_changed(rt: HostRuntime) -> Result<(), Fail> {
    let alloc = rt.alloc();
    let wanted = format!(in alloc; "{ANSWERED}; 1; {KEPT}")?;
    for failing in 1u64..9 {
        let kept = kept_by(alloc, failing)?;
        compare("an effect", kept.as_str(), wanted.as_str())?;
    }
    Ok(())
}

// What a node has, as it tells it.
const TOLD: &str = "\
    list
    snapshot x.git
    snapshot y.git
    object x.git blob";

// What a node tells, and its rows.
fn all_of(alloc: Global, mut node: Shelf<MemKeeper>) -> Result<String, Fail> {
    let mut all = answers(alloc, &mut node, TOLD)?;
    all.push_str("; ")?;
    all.push_str(rows(alloc, &mut node.into_keeper())?.as_str())?;
    Ok(all)
}

// Does at most so many of the effects, up to the first that memory wants for, and counts those done.
fn play<N: Node>(alloc: Global, node: &mut N, most: u64) -> Result<u64, Fail> {
    let mut done = 0u64;
    for call in EFFECTS.lines() {
        if done == most || answer(alloc, node, call)?.as_str() == "memory" {
            break;
        }
        done = done.saturating_add(1);
    }
    Ok(done)
}

// What a node has after them, and their count.
fn after(alloc: Global, most: u64) -> Result<(u64, String), Fail> {
    let mut node = shelf(alloc, &[])?;
    let done = play(alloc, &mut node, most)?;
    Ok((done, all_of(alloc, node)?))
}

// Whether memory wanted while that was told.
fn is_cut(told: &str) -> bool {
    told.contains("memory") || told.contains("failed")
}

// Memory wants where `rt try --test --fail-alloc` makes it.
#[test]
fn where_memory_wants_nothing_has_changed(rt: HostRuntime) -> Result<(), Fail> {
    let (done, told) = after(rt.alloc(), 8)?;
    let (again, wanted) = after(rt.alloc(), done)?;
    // Where it wants for no effect of the first round, it may want while a node tells, or in the second
    // round, which has not come as far then. It wants once.
    let late = again < done || is_cut(told.as_str()) || is_cut(wanted.as_str());
    if done == 8 && late {
        return Ok(());
    }
    compare("what is there", told.as_str(), wanted.as_str())
}
