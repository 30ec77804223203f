//! Reads: which storage answers, and where none can.

use crate::pushes::{BOTH_MADE, BOTH_PREPARED, DECIDED, THREE, TWO};
use crate::scripts::play;
use std::test::Fail;

/// Only the first one confirms, and a read is routed as soon as it has.
pub const DOUBT_AND_READS: &str = "\
    read 0 -> refused InFlight 1
    commit 1 a -> refused NotOut
    collect 1 a 1 -> committed {vote} 2/2
    cast 1 a committed {vote} -> refused NotAcked
    commit 1 a -> vote {vote}
    cast 1 a committed {vote} -> open
    read 0 -> route a gen 1
    collect 1 b 1 -> committed {vote} 2/2
    finish 1 -> refused StillOpen
    withdraw 1 b -> ok
    finish 1 -> unsure 1
    booked 0 -> newest 1 a=at:1 b=doubt:2:0:1";

// What the other one has committed is not read while that is not known.
const BESIDE_DOUBT: &str = "\
    read 0 -> route a gen 1
    commit 1 b -> vote {vote}
    refs b 0 -> refs refs/tags/empty={empty}
    read 0 -> route a gen 1
    health a down -> ok
    read 0 -> refused NoCurrentReplica 1 1
    health a up -> ok
    read 0 -> route a gen 1
    booked 0 -> newest 1 a=at:1 b=doubt:2:0:1";

#[test]
fn a_read_waits_for_the_first_storage_that_confirms(rt: HostRuntime) -> Result<(), Fail> {
    let tables = [
        TWO,
        BOTH_MADE,
        BOTH_PREPARED,
        DECIDED,
        DOUBT_AND_READS,
        BESIDE_DOUBT,
    ];
    play(rt.alloc(), &tables)
}

// Reads take turns among those that are current then: the number of reads before is divided by the
// number of these, and what is left tells which. A read that is refused is not counted.
const IN_TURN: &str = "\
    read 0 -> route a gen 0
    read 0 -> route b gen 0
    read 0 -> route c gen 0
    read 0 -> route a gen 0
    health b down -> ok
    read 0 -> route a gen 0
    read 0 -> route c gen 0
    read 0 -> route a gen 0
    health b up -> ok
    read 0 -> route b gen 0
    read 0 -> route c gen 0
    health a down -> ok
    health b down -> ok
    read 0 -> route c gen 0
    health c down -> ok
    read 0 -> refused NoCurrentReplica 0 3
    read 0 -> refused NoCurrentReplica 0 3
    health a up -> ok
    health b up -> ok
    health c up -> ok
    read 0 -> route b gen 0
    read 0 -> route c gen 0
    booked 0 -> newest 0 a=at:0 b=at:0 c=at:0";

// A storage that is not assigned any more answers reads until its delete is taken.
const LEFT: &str = "\
    factor 0 2 -> assigned a b
    reconcile -> jobs 1:delete:0:c
    read 0 -> route a gen 0
    read 0 -> route b gen 0
    read 0 -> route c gen 0
    take c 1 -> job 1 delete 0 c gen 0 lease 2
    read 0 -> route b gen 0
    read 0 -> route a gen 0
    read 0 -> route b gen 0
    refs c 0 -> refs
    booked 0 -> newest 0 a=at:0 b=at:0 c=absent";

#[test]
fn reads_take_turns_among_the_current_storages(rt: HostRuntime) -> Result<(), Fail> {
    play(rt.alloc(), &[THREE, IN_TURN, LEFT])
}

// The second repository is not enrolled yet at first.
const TWO_REPOSITORIES: &str = "\
    create default y.git 0 -> created 1 lease 1 assigned a b
    read 1 -> refused NoCurrentReplica 0 0
    make a 1 1 -> done
    make b 1 1 -> done
    read 1 -> refused NoCurrentReplica 0 0
    enrol 1 a 1 -> ok
    read 1 -> route a gen 0
    enrol 1 b 1 -> ok
    read 0 -> route a gen 0
    read 1 -> route b gen 0
    read 0 -> route b gen 0
    read 0 -> route a gen 0
    read 1 -> route a gen 0
    read 1 -> route b gen 0
    read 2 -> refused UnknownRepo
    read 0 -> route b gen 0";

#[test]
fn the_reads_of_each_repository_are_counted_by_themselves(rt: HostRuntime) -> Result<(), Fail> {
    play(rt.alloc(), &[TWO, BOTH_MADE, TWO_REPOSITORIES])
}

// Before the decision the content from before is read. Behind it a read waits for the push, until
// some storage is at newest, be it down: from then on it waits for that storage.
const BESIDE_A_PUSH: &str = "\
    read 0 -> route a gen 0
    cast 1 a prepared {vote} -> open
    read 0 -> route b gen 0
    health a down -> ok
    health b down -> ok
    read 0 -> refused NoCurrentReplica 0 2
    health b up -> ok
    cast 1 b prepared {vote} -> committed {vote} 2/2
    read 0 -> refused InFlight 1
    health b down -> ok
    read 0 -> refused InFlight 1
    collect 1 a 1 -> committed {vote} 2/2
    commit 1 a -> vote {vote}
    read 0 -> refused InFlight 1
    cast 1 a committed {vote} -> open
    read 0 -> refused NoCurrentReplica 1 1
    health b up -> ok
    read 0 -> refused NoCurrentReplica 1 1
    collect 1 b 1 -> committed {vote} 2/2
    commit 1 b -> vote {vote}
    cast 1 b committed {vote} -> committed {vote} 2/2
    read 0 -> route b gen 1
    health a up -> ok
    read 0 -> route b gen 1
    finish 1 -> committed 1
    read 0 -> route a gen 1
    refs a 0 -> refs refs/tags/empty={empty}
    booked 0 -> newest 1 a=at:1 b=at:1";

#[test]
fn a_read_beside_a_push_finds_what_is_confirmed(rt: HostRuntime) -> Result<(), Fail> {
    play(rt.alloc(), &[TWO, BOTH_MADE, BOTH_PREPARED, BESIDE_A_PUSH])
}
