//! Lines that a node refuses. Behind each the node is read, which did not change.

use crate::pushes::{BOTH_MADE, TWO};
use crate::scripts::{play, with_each};
use std::test::Fail;

const PREPARED: &str = "\
    begin 0 -> begun 1 lease 2 gen 0 members a b targets -
    prepare 1 a -> refused Empty
    refs a 0 -> refs
    prepare 1 a {zero}:{empty}:refs/tags/empty with blob: -> vote {vote}";

// Each is told the first cause, and what was prepared stays so.
const BAD_PUSHES: &str = "\
    prepare 1 a with -> refused Empty
    prepare 1 a with tree:00 -> refused BadObject 0 0
    prepare 1 a {zero}:{zero}:refs/tags/one with blob: commit:74 -> refused BadObject 1 1
    prepare 1 a {zero}:{zero}:refs/tags/one -> refused Void refs/tags/one
    prepare 1 a {zero}:{empty}:refs/tags/one {zero}:{one}:refs/tags/one \
        -> refused Twice refs/tags/one
    prepare 1 a {one}:{zero}:refs/tags/one -> refused Stale refs/tags/one {zero}
    prepare 1 a {zero}:{ones}:refs/tags/a/b {zero}:{ones}:refs/tags/a \
        -> refused Conflict refs/tags/a/b refs/tags/a
    prepare 1 a {zero}:{ones}:refs/tags/ones with blob: -> refused Missing {ones}
    prepare 1 a {zero}:{commit}:refs/heads/main with commit:{content} -> refused Missing {tree}";

const NOTHING_THERE: &str = "\
    refs a 0 -> refs
    booked 0 -> newest 0 a=at:0 b=at:0";

const COMMITTED: &str = "\
    cast 1 a prepared {vote} -> open
    cast 1 b prepared {vote} -> committed {vote} 2/2
    collect 1 a 1 -> committed {vote} 2/2
    collect 1 b 1 -> committed {vote} 2/2
    commit 1 a -> vote {vote}
    refs a 0 -> refs refs/tags/empty={empty}";

// The other node has no push at first, and then another one.
const OTHER_PREPARED: &str = "\
    commit 1 b -> refused NotPrepared
    refs b 0 -> refs
    cast 1 b committed {vote} -> refused NotAcked
    booked 0 -> newest 1 a=doubt:2:0:1 b=doubt:2:0:1
    prepare 1 b {zero}:{one}:refs/tags/one with blob:6f6e650a -> vote {other}
    commit 1 b -> refused VoteDiffers {other}
    refs b 0 -> refs
    cast 1 b committed {vote} -> refused NotAcked
    booked 0 -> newest 1 a=doubt:2:0:1 b=doubt:2:0:1
    commit 1 b -> refused VoteDiffers {other}
    prepare 1 b {zero}:{empty}:refs/tags/empty with blob: -> vote {vote}
    commit 1 b -> vote {vote}
    refs b 0 -> refs refs/tags/empty={empty}
    cast 1 b committed {vote} -> open
    cast 1 a committed {vote} -> committed {vote} 2/2
    finish 1 -> committed 1";

// What is below the fence is refused before all else.
const FENCED: &str = "\
    make a 0 1 -> refused Fenced 3
    prepare 1 a with tree:00 -> refused Fenced 3
    commit 1 a -> refused Fenced 3
    abort 1 a -> refused Fenced 3";

const AGAIN: &str = "begin 0 -> begun 2 lease 3 gen 1 members a b targets -";

// A reference is there now.
const OVER_A_REFERENCE: &str = "\
    prepare 2 a {zero}:{empty}:refs/tags/empty -> refused Stale refs/tags/empty {empty}
    prepare 2 a {one}:{zero}:refs/tags/empty -> refused Stale refs/tags/empty {empty}
    prepare 2 a {zero}:{empty}:refs/tags/empty/x \
        -> refused Conflict refs/tags/empty/x refs/tags/empty
    prepare 2 a {zero}:{zero}:refs/tags/empty -> refused Void refs/tags/empty
    prepare 2 a {empty}:{one}:refs/tags/empty -> refused Missing {one}
    commit 2 a -> refused NotOut";

const ONE_THERE: &str = "\
    refs a 0 -> refs refs/tags/empty={empty}
    booked 0 -> newest 1 a=at:1 b=at:1";

const MOVED: &str = "\
    prepare 2 a {empty}:{one}:refs/tags/empty with blob:6f6e650a -> vote {moved}";

#[test]
fn a_node_refuses_a_push_at_the_first_cause_and_keeps_what_it_prepared(
    rt: HostRuntime,
) -> Result<(), Fail> {
    let alloc = rt.alloc();
    let first = with_each(alloc, BAD_PUSHES, NOTHING_THERE)?;
    let second = with_each(alloc, FENCED, ONE_THERE)?;
    let third = with_each(alloc, OVER_A_REFERENCE, ONE_THERE)?;
    let tables = [
        TWO,
        BOTH_MADE,
        PREPARED,
        first.as_str(),
        COMMITTED,
        OTHER_PREPARED,
        second.as_str(),
        AGAIN,
        third.as_str(),
        MOVED,
    ];
    play(alloc, &tables)
}
