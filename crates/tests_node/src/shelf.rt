//! What nodes answer to tables of calls.

use crate::calls::play;
use px_keeper::MemKeeper;
use px_node::Shelf;
use std::alloc::Global;
use std::test::Fail;

// Makes the calls of a table to a node that has nothing.
fn play_at_first(alloc: Global, table: &str) -> Result<(), Fail> {
    let mut node = Shelf::new(alloc, MemKeeper::new(alloc, Vec::new(alloc)));
    play(alloc, &mut node, table)
}

/// Calls of a node that has nothing, each effect among them but `apply`.
pub const CALLS: &str = "\
    create x.git 1 -> ok
    prepare x.git 2 none blob refs/tags/empty +blob -> vote
    commit x.git 2 tree -> differs vote
    commit x.git 2 vote -> vote
    commit x.git 2 vote -> fenced 3
    abort x.git 2 -> fenced 3
    abort x.git 3 -> ok
    prepare x.git 3 none blob refs/tags/empty +blob -> fenced 4
    fence x.git 4 -> last 2
    fence y.git 7 -> no repo
    create y.git 6 -> fenced 7
    create y.git 7 -> ok
    list -> x.git y.git
    refs x.git -> refs/tags/empty=blob
    snapshot x.git -> refs/tags/empty=blob and +blob
    remove x.git 5 -> ok
    refs x.git -> no repo
    list -> y.git
    fence x.git 6 -> no repo
    faults -> 0";

#[test]
fn a_node_answers_its_calls_in_order(rt: HostRuntime) -> Result<(), Fail> {
    play_at_first(rt.alloc(), CALLS)
}

// Refusals, in the order of their causes where several hold. Then a push that is ready is dropped by
// another one, by a higher fence, and by a greater lease; and what no reference leads to is held, but
// is not handed on.
const REFUSED: &str = "\
    prepare x.git 1 none blob refs/a +blob -> no repo
    commit x.git 1 vote -> no repo
    abort x.git 1 -> no repo
    object x.git blob -> no repo
    snapshot x.git -> no repo
    create x.git 1 -> ok
    commit x.git 2 vote -> not prepared
    prepare x.git 2 -> empty
    prepare x.git 2 none none refs/a -> void
    prepare x.git 2 blob tree refs/a -> stale none
    prepare x.git 2 none blob refs/a -> missing blob
    prepare x.git 2 none none refs/a +blob +bad -> bad 1 5
    apply x.git 2 none blob refs/a -> missing blob
    apply x.git 2 none blob refs/a +bad +blob -> bad 0 5
    apply x.git 2 none blob refs/a +blob +tree -> ok
    apply x.git 2 none blob refs/a +blob -> fenced 3
    create x.git 3 -> exists
    remove x.git 2 -> fenced 3
    prepare x.git 3 none blob refs/a/b -> conflict
    prepare x.git 3 blob tree refs/a -> 818c
    prepare x.git 4 none blob refs/b -> 32ac
    commit x.git 3 vote -> fenced 4
    fence x.git 5 -> last -
    commit x.git 5 vote -> not prepared
    object x.git tree -> +tree
    object x.git vote -> none
    snapshot x.git -> refs/a=blob and +blob";

#[test]
fn a_node_refuses_in_order(rt: HostRuntime) -> Result<(), Fail> {
    play_at_first(rt.alloc(), REFUSED)
}
