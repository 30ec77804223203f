//! Votes that come after the decision, that are withdrawn, or that are for another hash.

use crate::pushes::{BOTH_MADE, BOTH_PREPARED, DECIDED, THREE, THREE_PREPARED, TWO};
use crate::scripts::play;
use std::test::Fail;

// The first two of three decide.
const TWO_DECIDE: &str = "\
    cast 1 a prepared {vote} -> open
    cast 1 b prepared {vote} -> committed {vote} 3/3
    booked 0 -> newest 1 a=doubt:2:0:1 b=doubt:2:0:1 c=at:0";

const LATE_FOR_ANOTHER_HASH: &str = "\
    cast 1 c prepared {other} -> failed
    booked 0 -> newest 1 a=doubt:2:0:1 b=doubt:2:0:1 c=at:0
    collect 1 c 1 -> failed
    commit 1 c -> refused NotOut
    refs c 0 -> refs
    cast 1 c prepared {vote} -> refused AlreadyVoted {other}
    cast 1 c committed {vote} -> refused WrongPhase prepared
    booked 0 -> newest 1 a=doubt:2:0:1 b=doubt:2:0:1 c=at:0
    collect 1 c 2 -> canceled
    abort 1 c -> done
    collect 1 a 1 -> committed {vote} 3/3
    commit 1 a -> vote {vote}
    cast 1 a committed {vote} -> open
    finish 1 -> refused StillOpen
    holder 0 -> holder 1
    collect 1 b 1 -> committed {vote} 3/3
    commit 1 b -> vote {vote}
    cast 1 b committed {vote} -> committed {vote} 3/3
    finish 1 -> committed 1
    booked 0 -> newest 1 a=at:1 b=at:1 c=at:0
    refs c 0 -> refs
    begin 0 -> begun 2 lease 3 gen 1 members a b targets c";

#[test]
fn a_late_voter_for_another_hash_fails_and_commits_nothing(rt: HostRuntime) -> Result<(), Fail> {
    let tables = [THREE, THREE_PREPARED, TWO_DECIDE, LATE_FOR_ANOTHER_HASH];
    play(rt.alloc(), &tables)
}

// The third one votes when the first one has committed, and its commit decides with that of the first.
// The second one never asks for its result.
const LATE_FOR_THE_HASH: &str = "\
    collect 1 a 1 -> committed {vote} 3/3
    commit 1 a -> vote {vote}
    cast 1 a committed {vote} -> open
    booked 0 -> newest 1 a=at:1 b=doubt:2:0:1 c=at:0
    collect 1 c 1 -> open
    commit 1 c -> refused NotOut
    refs c 0 -> refs
    cast 1 c prepared {vote} -> committed {vote} 4/3
    booked 0 -> newest 1 a=at:1 b=doubt:2:0:1 c=doubt:2:0:1
    commit 1 c -> refused NotOut
    refs c 0 -> refs
    collect 1 c 2 -> open
    commit 1 c -> refused NotOut
    refs c 0 -> refs
    collect 1 c 1 -> committed {vote} 4/3
    commit 1 c -> vote {vote}
    cast 1 c committed {vote} -> committed {vote} 3/3
    finish 1 -> committed 1
    booked 0 -> newest 1 a=at:1 b=doubt:2:0:1 c=at:1
    refs c 0 -> refs refs/tags/empty={empty}
    commit 1 b -> refused NotOut
    refs b 0 -> refs
    begin 0 -> begun 2 lease 3 gen 1 members a c targets b";

#[test]
fn a_late_voter_for_the_decided_hash_is_in_doubt_until_it_confirms(
    rt: HostRuntime,
) -> Result<(), Fail> {
    let tables = [THREE, THREE_PREPARED, TWO_DECIDE, LATE_FOR_THE_HASH];
    play(rt.alloc(), &tables)
}

// The primary is withdrawn, and the push comes to nothing.
const WITHDRAWN: &str = "\
    cast 1 a prepared {vote} -> open
    withdraw 1 c -> refused NotAVoter c
    outcome 1 1 -> open
    withdraw 1 a -> ok
    outcome 1 1 -> fail
    outcome 1 2 -> fail
    cast 1 b prepared {vote} -> failed
    cast 1 a prepared {vote} -> refused Canceled
    withdraw 1 a -> refused Canceled
    withdraw 1 b -> refused Decided
    collect 1 a 1 -> canceled
    collect 1 b 1 -> failed
    commit 1 a -> refused NotOut
    commit 1 b -> refused NotOut
    refs a 0 -> refs
    refs b 0 -> refs
    booked 0 -> newest 0 a=at:0 b=at:0
    finish 1 -> noquorum
    holder 0 -> holder -
    commit 1 a -> refused NotOut
    refs a 0 -> refs
    begin 0 -> begun 2 lease 3 gen 0 members a b targets -";

#[test]
fn without_the_vote_of_the_primary_nothing_is_committed(rt: HostRuntime) -> Result<(), Fail> {
    play(rt.alloc(), &[TWO, BOTH_MADE, BOTH_PREPARED, WITHDRAWN])
}

// The primary is withdrawn when it was told to commit. What the other one confirms is booked, though the
// votes on what is committed have failed.
const WITHDRAWN_LATE: &str = "\
    withdraw 1 a -> ok
    outcome 1 1 -> commit {vote}
    outcome 1 2 -> fail
    booked 0 -> newest 1 a=doubt:2:0:1 b=doubt:2:0:1
    collect 1 a 1 -> committed {vote} 2/2
    cast 1 a committed {vote} -> refused Canceled
    commit 1 a -> vote {vote}
    cast 1 a committed {vote} -> refused Canceled
    collect 1 b 1 -> committed {vote} 2/2
    cast 1 b committed {vote} -> refused NotAcked
    booked 0 -> newest 1 a=doubt:2:0:1 b=doubt:2:0:1
    collect 1 b 2 -> open
    commit 1 b -> vote {vote}
    cast 1 b committed {vote} -> failed
    booked 0 -> newest 1 a=doubt:2:0:1 b=at:1
    finish 1 -> unsure 1
    booked 0 -> newest 1 a=doubt:2:0:1 b=at:1
    refs a 0 -> refs refs/tags/empty={empty}
    begin 0 -> begun 2 lease 3 gen 1 members b targets a";

#[test]
fn who_is_withdrawn_after_the_decision_stays_in_doubt(rt: HostRuntime) -> Result<(), Fail> {
    let tables = [TWO, BOTH_MADE, BOTH_PREPARED, DECIDED, WITHDRAWN_LATE];
    play(rt.alloc(), &tables)
}

// Both have committed.
const BOTH_COMMITTED: &str = "\
    collect 1 a 1 -> committed {vote} 2/2
    collect 1 b 1 -> committed {vote} 2/2
    commit 1 a -> vote {vote}
    commit 1 b -> vote {vote}
    booked 0 -> newest 1 a=doubt:2:0:1 b=doubt:2:0:1";

const ONE_FOR_ANOTHER_HASH: &str = "\
    cast 1 a committed {other} -> open
    booked 0 -> newest 1 a=doubt:2:0:1 b=doubt:2:0:1
    cast 1 b committed {vote} -> failed
    cast 1 a committed {vote} -> refused AlreadyVoted {other}
    cast 1 b committed {vote} -> refused AlreadyVoted {vote}
    booked 0 -> newest 1 a=doubt:2:0:1 b=at:1
    finish 1 -> unsure 1";

const BOTH_FOR_ANOTHER_HASH: &str = "\
    cast 1 a committed {other} -> open
    cast 1 b committed {other} -> committed {other} 2/2
    cast 1 b committed {vote} -> refused Finished
    booked 0 -> newest 1 a=doubt:2:0:1 b=doubt:2:0:1
    finish 1 -> unsure 1
    booked 0 -> newest 1 a=doubt:2:0:1 b=doubt:2:0:1";

#[test]
fn only_a_vote_for_the_decided_hash_confirms(rt: HostRuntime) -> Result<(), Fail> {
    for end in [ONE_FOR_ANOTHER_HASH, BOTH_FOR_ANOTHER_HASH] {
        let tables = [TWO, BOTH_MADE, BOTH_PREPARED, DECIDED, BOTH_COMMITTED, end];
        play(rt.alloc(), &tables)?;
    }
    Ok(())
}
