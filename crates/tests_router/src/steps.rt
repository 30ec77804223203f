//! Pushes, step by step, and each step's reply.

use crate::operations::{answer, play_after, play_each};
use px_core::Core;
use std::test::Fail;
use tests_tables::play;

// All three vote for the push, the last one when it is decided, and confirm it.
const WHOLE: &str = "\
    storage_of a -> -
    admit v a -> storage 0
    admit v b -> storage 1
    admit v c -> storage 2
    storage_of a -> 0
    storage_of c -> 2
    health 0 up -> ok
    health 1 up -> ok
    find v x.git -> refused UnknownRepo
    create v x.git 0 -> created 0 lease 1 assigned a b c
    find v x.git -> repo 0
    rows 0 -> newest 0 0+a:up=absent 1+b:up=absent 2+c:down=absent
    health 2 up -> ok
    rows 0 -> newest 0 0+a:up=absent 1+b:up=absent 2+c:up=absent
    enrol 0 0 1 -> ok
    booked 0 -> newest 0 a=at:0 b=absent c=absent
    enrol 0 1 1 -> ok
    enrol 0 2 1 -> ok
    booked 0 -> newest 0 a=at:0 b=at:0 c=at:0
    holder 0 -> holder -
    begin 0 -> begun 1 lease 2 gen 0 members a b c targets -
    holder 0 -> holder 1
    push 1 -> 1 of 0 2 0 by 0,1,2 false false
    outcome 1 1 -> open
    cast 1 a prepared 1 -> open in 1
    booked 0 -> newest 0 a=at:0 b=at:0 c=at:0
    finish 1 -> refused StillOpen
    cast 1 b prepared 1 -> committed 1111111111111111111111111111111111111111 3/3 in 1
    outcome 1 1 -> commit 1111111111111111111111111111111111111111
    booked 0 -> newest 1 a=doubt:2:0:1 b=doubt:2:0:1 c=at:0
    cast 1 c prepared 1 -> committed 1111111111111111111111111111111111111111 4/3 in 1
    booked 0 -> newest 1 a=doubt:2:0:1 b=doubt:2:0:1 c=doubt:2:0:1
    collect 1 a 1 -> committed 1111111111111111111111111111111111111111 4/3 in 1
    collect 1 b 1 -> committed 1111111111111111111111111111111111111111 4/3 in 1
    collect 1 c 1 -> committed 1111111111111111111111111111111111111111 4/3 in 1
    collect 1 a 2 -> open in 2
    finish 1 -> refused StillOpen
    cast 1 a committed 1 -> open in 2
    booked 0 -> newest 1 a=at:1 b=doubt:2:0:1 c=doubt:2:0:1
    cast 1 b committed 1 -> committed 1111111111111111111111111111111111111111 3/3 in 2
    cast 1 c committed 1 -> committed 1111111111111111111111111111111111111111 4/3 in 2
    booked 0 -> newest 1 a=at:1 b=at:1 c=at:1
    collect 1 b 2 -> committed 1111111111111111111111111111111111111111 4/3 in 2
    outcome 1 2 -> commit 1111111111111111111111111111111111111111
    holder 0 -> holder 1
    finish 1 -> committed 1
    holder 0 -> holder -
    push 1 -> -
    outcome 1 1 -> refused UnknownTx 1
    booked 0 -> newest 1 a=at:1 b=at:1 c=at:1";

#[test]
fn a_push_is_voted_on_and_done_by_three_storages(rt: HostRuntime) -> Result<(), Fail> {
    play(rt.alloc(), &mut Core::new(rt.alloc()), answer, WHOLE)
}

// Three storages that are up, and a repository with an empty replica on each of them.
pub const THREE: &str = "\
    admit v a -> storage 0
    admit v b -> storage 1
    admit v c -> storage 2
    health 0 up -> ok
    health 1 up -> ok
    health 2 up -> ok
    create v x.git 0 -> created 0 lease 1 assigned a b c
    enrol 0 0 1 -> ok
    enrol 0 1 1 -> ok
    enrol 0 2 1 -> ok";

// A second repository, which has a replica on two of the storages. Both have to vote for the push.
const TWO: &str = "\
    create v y.git 2 -> created 1 lease 1 assigned a b
    rows 1 -> newest 0 0+a:up=absent 1+b:up=absent 2-c:up=absent
    enrol 1 2 1 -> refused LeaseLost 0 1
    enrol 1 0 1 -> ok
    enrol 1 1 1 -> ok
    begin 1 -> begun 1 lease 2 gen 0 members a b targets -
    holder 0 -> holder -
    holder 1 -> holder 1
    cast 1 c prepared 2 -> refused NotAVoter c
    cast 1 a prepared 2 -> open in 1
    cast 1 b prepared 2 -> committed 2222222222222222222222222222222222222222 2/2 in 1
    booked 1 -> newest 1 a=doubt:2:0:1 b=doubt:2:0:1 c=absent
    begin 0 -> begun 2 lease 2 gen 0 members a b c targets -
    cast 1 b committed 2 -> open in 2
    cast 1 a committed 2 -> committed 2222222222222222222222222222222222222222 2/2 in 2
    finish 1 -> committed 1
    booked 1 -> newest 1 a=at:1 b=at:1 c=absent
    booked 0 -> newest 0 a=at:0 b=at:0 c=at:0
    holder 0 -> holder 2
    holder 1 -> holder -";

#[test]
fn two_repositories_have_their_pushes_apart(rt: HostRuntime) -> Result<(), Fail> {
    play_after(rt.alloc(), THREE, TWO)
}

// The only storage decides alone.
const ONE: &str = "\
    admit v a -> storage 0
    health 0 up -> ok
    create v x.git 1 -> created 0 lease 1 assigned a
    enrol 0 0 1 -> ok
    begin 0 -> begun 1 lease 2 gen 0 members a targets -
    cast 1 a prepared 1 -> committed 1111111111111111111111111111111111111111 1/1 in 1
    booked 0 -> newest 1 a=doubt:2:0:1
    cast 1 a committed 1 -> committed 1111111111111111111111111111111111111111 1/1 in 2
    booked 0 -> newest 1 a=at:1
    finish 1 -> committed 1";

#[test]
fn a_push_is_done_by_one_storage(rt: HostRuntime) -> Result<(), Fail> {
    play(rt.alloc(), &mut Core::new(rt.alloc()), answer, ONE)
}

// The primary weighs 4, and the threshold is 6: four secondaries do not reach it.
const FIVE: &str = "\
    create v x.git 0 -> created 0 lease 1 assigned v0 v1 v2 v3 v4
    enrol 0 0 1 -> ok
    enrol 0 1 1 -> ok
    enrol 0 2 1 -> ok
    enrol 0 3 1 -> ok
    enrol 0 4 1 -> ok
    begin 0 -> begun 1 lease 2 gen 0 members v0 v1 v2 v3 v4 targets -
    cast 1 v1 prepared 1 -> open in 1
    cast 1 v2 prepared 1 -> open in 1
    cast 1 v3 prepared 1 -> open in 1
    cast 1 v4 prepared 1 -> open in 1
    booked 0 -> newest 0 v0=at:0 v1=at:0 v2=at:0 v3=at:0 v4=at:0
    cast 1 v0 prepared 1 -> committed 1111111111111111111111111111111111111111 8/6 in 1
    booked 0 -> newest 1 v0=doubt:2:0:1 v1=doubt:2:0:1 v2=doubt:2:0:1 v3=doubt:2:0:1 v4=doubt:2:0:1
    cast 1 v0 committed 1 -> open in 2
    cast 1 v4 committed 1 -> open in 2
    cast 1 v3 committed 1 -> committed 1111111111111111111111111111111111111111 6/6 in 2
    finish 1 -> committed 1
    booked 0 -> newest 1 v0=at:1 v1=doubt:2:0:1 v2=doubt:2:0:1 v3=at:1 v4=at:1";

#[test]
fn no_quorum_is_without_the_primary(rt: HostRuntime) -> Result<(), Fail> {
    let alloc = rt.alloc();
    let mut core = Core::new(alloc);
    play_each(alloc, &mut core, "admit v v# -> storage #", 0, 5)?;
    play_each(alloc, &mut core, "health # up -> ok", 0, 5)?;
    play(alloc, &mut core, answer, FIVE)
}

// The primary of the first push is down at the second one, which has another primary from then on.
const AGAIN: &str = "\
    begin 0 -> begun 1 lease 2 gen 0 members a b c targets -
    cast 1 a prepared 1 -> open in 1
    cast 1 b prepared 1 -> committed 1111111111111111111111111111111111111111 3/3 in 1
    cast 1 c prepared 1 -> committed 1111111111111111111111111111111111111111 4/3 in 1
    cast 1 c committed 1 -> open in 2
    cast 1 b committed 1 -> open in 2
    cast 1 a committed 1 -> committed 1111111111111111111111111111111111111111 4/3 in 2
    finish 1 -> committed 1
    health 0 down -> ok
    begin 0 -> begun 2 lease 3 gen 1 members b c targets a
    holder 0 -> holder 2
    push 2 -> 2 of 0 3 1 by 1,2 false false
    cast 2 c prepared 2 -> open in 1
    cast 2 b prepared 2 -> committed 2222222222222222222222222222222222222222 2/2 in 1
    rows 0 -> newest 2 0+a:down=at:1 1+b:up=doubt:3:1:2 2+c:up=doubt:3:1:2
    cast 2 c committed 2 -> open in 2
    cast 2 b committed 2 -> committed 2222222222222222222222222222222222222222 2/2 in 2
    finish 2 -> committed 2
    booked 0 -> newest 2 a=at:1 b=at:2 c=at:2
    health 0 up -> ok
    begin 0 -> begun 3 lease 4 gen 2 members b c targets a";

// A push that comes to nothing leaves its primary to the next one.
const PRIMARY: &str = "\
    health 0 down -> ok
    begin 0 -> begun 1 lease 2 gen 0 members b c targets a
    cancel 1 -> ok
    finish 1 -> canceled
    health 0 up -> ok
    begin 0 -> begun 2 lease 3 gen 0 members b a c targets -
    push 2 -> 2 of 0 3 0 by 1,0,2 false false
    cast 2 a prepared 1 -> open in 1
    cast 2 c prepared 1 -> open in 1
    cast 2 b prepared 1 -> committed 1111111111111111111111111111111111111111 4/3 in 1
    booked 0 -> newest 1 a=doubt:3:0:1 b=doubt:3:0:1 c=doubt:3:0:1
    cast 2 a committed 1 -> open in 2
    booked 0 -> newest 1 a=at:1 b=doubt:3:0:1 c=doubt:3:0:1
    cast 2 b committed 1 -> committed 1111111111111111111111111111111111111111 3/3 in 2
    finish 2 -> committed 1";

#[test]
fn a_push_follows_a_push(rt: HostRuntime) -> Result<(), Fail> {
    play_after(rt.alloc(), THREE, AGAIN)?;
    play_after(rt.alloc(), THREE, PRIMARY)
}
