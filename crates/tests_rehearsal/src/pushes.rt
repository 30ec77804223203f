//! Pushes, from the first storage to their ends.

use crate::scripts::play;
use std::test::Fail;

/// Two storages, and a repository that neither has a replica of.
pub const TWO: &str = "\
    storage default a -> storage 0
    storage default b -> storage 1
    health a up -> ok
    health b up -> ok
    create default x.git 0 -> created 0 lease 1 assigned a b";

/// Both have one.
pub const BOTH_MADE: &str = "\
    make a 0 1 -> done
    enrol 0 a 1 -> ok
    make b 0 1 -> done
    enrol 0 b 1 -> ok";

/// A push comes to both.
pub const BOTH_PREPARED: &str = "\
    begin 0 -> begun 1 lease 2 gen 0 members a b targets -
    prepare 1 a {zero}:{empty}:refs/tags/empty with blob: -> vote {vote}
    prepare 1 b {zero}:{empty}:refs/tags/empty with blob: -> vote {vote}";

/// Three storages, each with a replica of a repository.
pub const THREE: &str = "\
    storage default a -> storage 0
    storage default b -> storage 1
    storage default c -> storage 2
    create default x.git 3 -> created 0 lease 1 assigned a b c
    make a 0 1 -> done
    make b 0 1 -> done
    make c 0 1 -> done
    enrol 0 a 1 -> ok
    enrol 0 b 1 -> ok
    enrol 0 c 1 -> ok
    health a up -> ok
    health b up -> ok
    health c up -> ok
    booked 0 -> newest 0 a=at:0 b=at:0 c=at:0";

/// A push comes to all three.
pub const THREE_PREPARED: &str = "\
    begin 0 -> begun 1 lease 2 gen 0 members a b c targets -
    prepare 1 a {zero}:{empty}:refs/tags/empty with blob: -> vote {vote}
    prepare 1 b {zero}:{empty}:refs/tags/empty with blob: -> vote {vote}
    prepare 1 c {zero}:{empty}:refs/tags/empty with blob: -> vote {vote}";

const NOT_MADE: &str = "\
    begin 0 -> refused ReadOnly 0 0
    holder 0 -> holder -
    booked 0 -> newest 0 a=absent b=absent";

const FIRST_PUSH: &str = "\
    begin 0 -> begun 1 lease 2 gen 0 members a b targets -
    begin 0 -> refused Turn 1
    holder 0 -> holder 1
    prepare 1 a {zero}:{empty}:refs/tags/empty with blob: -> vote {vote}
    cast 1 a prepared {vote} -> open
    withdraw 1 b -> ok
    finish 1 -> noquorum
    booked 0 -> newest 0 a=at:0 b=at:0
    holder 0 -> holder -
    refs a 0 -> refs
    refs b 0 -> refs";

#[test]
fn a_push_begins_once_replicas_are_made_and_a_withdrawn_vote_ends_it(
    rt: HostRuntime,
) -> Result<(), Fail> {
    play(rt.alloc(), &[TWO, NOT_MADE, BOTH_MADE, FIRST_PUSH])
}

/// Both vote for it, and so it is decided.
pub const DECIDED: &str = "\
    cast 1 a prepared {vote} -> open
    cast 1 b prepared {vote} -> committed {vote} 2/2
    booked 0 -> newest 1 a=doubt:2:0:1 b=doubt:2:0:1";

/// Only the first one confirms.
pub const DOUBT: &str = "\
    commit 1 a -> refused NotOut
    collect 1 a 1 -> committed {vote} 2/2
    cast 1 a committed {vote} -> refused NotAcked
    commit 1 a -> vote {vote}
    cast 1 a committed {vote} -> open
    collect 1 b 1 -> committed {vote} 2/2
    finish 1 -> refused StillOpen
    withdraw 1 b -> ok
    finish 1 -> unsure 1
    booked 0 -> newest 1 a=at:1 b=doubt:2:0:1";

// The commit comes to the other one after its push has ended.
const LATE_COMMIT: &str = "\
    holder 0 -> holder -
    refs a 0 -> refs refs/tags/empty={empty}
    refs b 0 -> refs
    commit 1 b -> vote {vote}
    refs b 0 -> refs refs/tags/empty={empty}
    cast 1 b committed {vote} -> refused UnknownTx 1
    collect 1 b 1 -> refused UnknownTx 1
    booked 0 -> newest 1 a=at:1 b=doubt:2:0:1";

// A storage in doubt is a target, as one is that cannot be reached.
const PAST_DOUBT: &str = "\
    begin 0 -> begun 2 lease 3 gen 1 members a targets b
    prepare 2 b {empty}:{one}:refs/tags/empty with blob:6f6e650a -> refused NotOut
    prepare 2 a {empty}:{one}:refs/tags/empty with blob:6f6e650a -> vote {moved}
    cast 2 b prepared {moved} -> refused NotAVoter b
    cast 2 a prepared {moved} -> committed {moved} 1/1
    booked 0 -> newest 2 a=doubt:3:1:2 b=doubt:2:0:1
    collect 2 a 1 -> committed {moved} 1/1
    commit 2 a -> vote {moved}
    cast 2 a committed {moved} -> committed {moved} 1/1
    finish 2 -> committed 2
    booked 0 -> newest 2 a=at:2 b=doubt:2:0:1
    refs a 0 -> refs refs/tags/empty={one}
    refs b 0 -> refs refs/tags/empty={empty}";

#[test]
fn who_was_told_to_commit_stays_in_doubt_until_it_confirms(rt: HostRuntime) -> Result<(), Fail> {
    let tables = [
        TWO,
        BOTH_MADE,
        BOTH_PREPARED,
        DECIDED,
        DOUBT,
        LATE_COMMIT,
        PAST_DOUBT,
    ];
    play(rt.alloc(), &tables)
}

// The first one has the weight of both others, and three of four decide. All three commit, the third one
// as a late voter.
const ALL_COMMIT: &str = "\
    refs a 0 -> refs
    cast 1 a prepared {vote} -> open
    booked 0 -> newest 0 a=at:0 b=at:0 c=at:0
    cast 1 b prepared {vote} -> committed {vote} 3/3
    booked 0 -> newest 1 a=doubt:2:0:1 b=doubt:2:0:1 c=at:0
    cast 1 c prepared {vote} -> committed {vote} 4/3
    booked 0 -> newest 1 a=doubt:2:0:1 b=doubt:2:0:1 c=doubt:2:0:1
    collect 1 a 1 -> committed {vote} 4/3
    collect 1 b 1 -> committed {vote} 4/3
    collect 1 c 1 -> committed {vote} 4/3
    commit 1 a -> vote {vote}
    refs a 0 -> refs refs/tags/empty={empty}
    cast 1 a committed {vote} -> open
    commit 1 c -> vote {vote}
    refs c 0 -> refs refs/tags/empty={empty}
    cast 1 c committed {vote} -> committed {vote} 3/3
    booked 0 -> newest 1 a=at:1 b=doubt:2:0:1 c=at:1
    refs b 0 -> refs
    commit 1 b -> vote {vote}
    refs b 0 -> refs refs/tags/empty={empty}
    cast 1 b committed {vote} -> committed {vote} 4/3
    finish 1 -> committed 1
    booked 0 -> newest 1 a=at:1 b=at:1 c=at:1
    holder 0 -> holder -";

// The third one is withdrawn, and the others have just the weight that decides.
const TWO_COMMIT: &str = "\
    begin 0 -> begun 2 lease 3 gen 1 members a b c targets -
    prepare 2 a {empty}:{zero}:refs/tags/empty {zero}:{commit}:refs/heads/main \
        with tree: commit:{content} -> vote {second}
    prepare 2 b {empty}:{zero}:refs/tags/empty {zero}:{commit}:refs/heads/main \
        with tree: commit:{content} -> vote {second}
    cast 2 a prepared {second} -> open
    withdraw 2 c -> ok
    cast 2 b prepared {second} -> committed {second} 3/3
    booked 0 -> newest 2 a=doubt:3:1:2 b=doubt:3:1:2 c=at:1
    collect 2 c 1 -> canceled
    collect 2 a 1 -> committed {second} 3/3
    collect 2 b 1 -> committed {second} 3/3
    commit 2 a -> vote {second}
    cast 2 a committed {second} -> open
    commit 2 b -> vote {second}
    cast 2 b committed {second} -> committed {second} 3/3
    finish 2 -> committed 2
    booked 0 -> newest 2 a=at:2 b=at:2 c=at:1
    refs a 0 -> refs refs/heads/main={commit}
    refs b 0 -> refs refs/heads/main={commit}
    refs c 0 -> refs refs/tags/empty={empty}
    begin 0 -> begun 3 lease 4 gen 2 members a b targets c";

#[test]
fn three_storages_commit_with_the_weight_that_decides(rt: HostRuntime) -> Result<(), Fail> {
    play(rt.alloc(), &[THREE, THREE_PREPARED, ALL_COMMIT, TWO_COMMIT])
}
