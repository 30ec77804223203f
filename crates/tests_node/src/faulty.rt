//! Nodes that fault at chosen calls.

use crate::calls::{answers, play};
use px_keeper::MemKeeper;
use px_node::{FaultyNode, PlannedFault, Shelf, When};
use std::alloc::Global;
use std::test::Fail;
use tests_tables::{compare, parts};

// A repository with a push that is on its way, and who asks what became of it.
const PUSH: &str = "\
    create x.git 1
    prepare x.git 2 none blob refs/tags/empty +blob
    commit x.git 2 vote
    fence x.git 3";

// The answers to that push, where a call faults.
fn faulted(alloc: Global, call: u64, when: When) -> Result<String, Fail> {
    let planned = Vec::from_slice(alloc, &[PlannedFault { call, when }])?;
    let shelf = Shelf::new(alloc, MemKeeper::new(alloc, Vec::new(alloc)));
    answers(alloc, &mut FaultyNode::new(shelf, planned), PUSH)
}

// Before which call or after the effect of which it faults, and what the calls are answered.
const FAULTS: &str = "\
    before 9 -> ok, vote, vote, last 2
    before 3 -> ok, vote, fault, last -
    after 3 -> ok, vote, fault, last 2
    before 2 -> ok, fault, not prepared, last -
    after 2 -> ok, fault, vote, last 2
    before 1 -> fault, no repo, no repo, no repo
    after 4 -> ok, vote, vote, fault";

// What the calls are answered where that of the words faults.
fn faulted_at(alloc: Global, words: &str) -> Result<String, Fail> {
    let (when, call) = words.split_once(" ").unwrap_or((words, ""));
    let call = call.parse::<u64>()?;
    if when == "before" {
        return faulted(alloc, call, When::Before);
    }
    faulted(alloc, call, When::After)
}

#[test]
fn a_planned_fault_comes_before_the_effect_or_after_it(rt: HostRuntime) -> Result<(), Fail> {
    for line in FAULTS.lines() {
        let (words, want) = parts(line)?;
        let told = faulted_at(rt.alloc(), words)?;
        compare(words, told.as_str(), want)?;
    }
    Ok(())
}

// A fault before each effect, and one after it, each planned by the word in front of its call. What is
// read behind it shows that before the effect nothing has changed, not the fence either, and that after
// it the effect is there, by the rules of docs/generations_and_leases.md.
const EFFECTS: &str = "\
    before create x.git 1 -> fault
    list ->
    refs x.git -> no repo
    after create x.git 1 -> fault
    list -> x.git
    refs x.git ->
    create x.git 1 -> fenced 2

    before prepare x.git 3 none blob refs/tags/empty +blob -> fault
    commit x.git 2 vote -> not prepared
    after prepare x.git 3 none blob refs/tags/empty +blob -> fault
    commit x.git 2 vote -> fenced 3
    commit x.git 3 tree -> differs vote

    before commit x.git 3 vote -> fault
    refs x.git ->
    fence x.git 3 -> last -
    after commit x.git 3 vote -> fault
    refs x.git -> refs/tags/empty=blob
    object x.git blob -> +blob
    fence x.git 3 -> last 3
    commit x.git 3 vote -> fenced 4

    prepare x.git 5 blob tree refs/tags/empty +tree -> 9062
    before abort x.git 5 -> fault
    commit x.git 5 vote -> differs 9062
    after abort x.git 5 -> fault
    commit x.git 5 9062 -> fenced 6
    commit x.git 6 9062 -> not prepared

    prepare x.git 6 blob tree refs/tags/empty +tree -> 9062
    before fence x.git 7 -> fault
    commit x.git 6 vote -> differs 9062
    after fence x.git 7 -> fault
    commit x.git 6 9062 -> fenced 7
    commit x.git 7 9062 -> not prepared
    before fence y.git 2 -> fault
    commit y.git 1 vote -> no repo
    after fence y.git 2 -> fault
    commit y.git 1 vote -> fenced 2

    before apply x.git 7 none tree refs/a +tree -> fault
    snapshot x.git -> refs/tags/empty=blob and +blob
    object x.git tree -> none
    commit x.git 7 vote -> not prepared
    after apply x.git 7 none tree refs/a +tree -> fault
    snapshot x.git -> refs/a=tree and +tree
    commit x.git 7 vote -> fenced 8

    before remove x.git 8 -> fault
    snapshot x.git -> refs/a=tree and +tree
    commit x.git 8 vote -> not prepared
    after remove x.git 8 -> fault
    list ->
    refs x.git -> no repo
    commit x.git 8 vote -> fenced 9

    faults -> 16";

// The line without the word in front of its call, and when that says that the call faults.
fn planned(line: &str) -> (Option<When>, &str) {
    let line = line.trim_start();
    match line.split_once(" ") {
        Some(("before", line)) => (Some(When::Before), line),
        Some(("after", line)) => (Some(When::After), line),
        _ => (None, line),
    }
}

// The faults that the lines plan; each line is a call.
fn plan(alloc: Global, lines: &[&str]) -> Result<Vec<PlannedFault>, Fail> {
    let mut faults = Vec::new(alloc);
    let mut call = 0u64;
    for line in lines {
        call = call.saturating_add(1);
        if let (Some(when), _) = planned(*line) {
            faults.push(PlannedFault { call, when })?;
        }
    }
    Ok(faults)
}

#[test]
fn what_faults_before_an_effect_does_nothing_and_after_it_all(rt: HostRuntime) -> Result<(), Fail> {
    let alloc = rt.alloc();
    let mut lines = Vec::new(alloc);
    for line in EFFECTS.lines() {
        if !line.trim().is_empty() {
            lines.push(line)?;
        }
    }
    let shelf = Shelf::new(alloc, MemKeeper::new(alloc, Vec::new(alloc)));
    let mut node = FaultyNode::new(shelf, plan(alloc, &lines)?);
    for line in lines {
        let (_, line) = planned(line);
        play(alloc, &mut node, line)?;
    }
    Ok(())
}
