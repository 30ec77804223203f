//! Which storages a push has as its members, and pushes beside each other.

use crate::pushes::{BOTH_MADE, THREE, TWO};
use crate::scripts::play;
use std::test::Fail;

// Two of three storages are assigned.
const TWO_OF_THREE: &str = "\
    storage default a -> storage 0
    storage default b -> storage 1
    storage default c -> storage 2
    health a up -> ok
    health b up -> ok
    health c up -> ok
    create default x.git 2 -> created 0 lease 1 assigned a b
    booked 0 -> newest 0 a=absent b=absent c=absent
    refs a 0 -> refused NoRepo
    make a 0 1 -> done
    refs a 0 -> refs
    enrol 0 a 1 -> ok
    make b 0 1 -> done
    enrol 0 b 1 -> ok
    make c 0 1 -> refused NotOut
    refs c 0 -> refused NoRepo
    enrol 0 c 1 -> refused LeaseLost 0 1
    booked 0 -> newest 0 a=at:0 b=at:0 c=absent";

const FACTOR_TWO: &str = "\
    begin 0 -> begun 1 lease 2 gen 0 members a b targets -
    prepare 1 a {zero}:{empty}:refs/tags/empty with blob: -> vote {vote}
    prepare 1 b {zero}:{empty}:refs/tags/empty with blob: -> vote {vote}
    prepare 1 c {zero}:{empty}:refs/tags/empty with blob: -> refused NotOut
    cast 1 b prepared {vote} -> open
    cast 1 a prepared {vote} -> committed {vote} 2/2
    booked 0 -> newest 1 a=doubt:2:0:1 b=doubt:2:0:1 c=absent
    collect 1 a 1 -> committed {vote} 2/2
    collect 1 b 1 -> committed {vote} 2/2
    refs a 0 -> refs
    commit 1 a -> vote {vote}
    commit 1 b -> vote {vote}
    cast 1 a committed {vote} -> open
    cast 1 b committed {vote} -> committed {vote} 2/2
    finish 1 -> committed 1
    booked 0 -> newest 1 a=at:1 b=at:1 c=absent
    refs a 0 -> refs refs/tags/empty={empty}
    refs b 0 -> refs refs/tags/empty={empty}
    refs c 0 -> refused NoRepo";

// The only member decides alone.
const ONE_UP: &str = "\
    health a down -> ok
    begin 0 -> begun 2 lease 3 gen 1 members b targets a
    prepare 2 b {empty}:{one}:refs/tags/empty with blob:6f6e650a -> vote {moved}
    cast 2 b prepared {moved} -> committed {moved} 1/1
    collect 2 b 1 -> committed {moved} 1/1
    commit 2 b -> vote {moved}
    cast 2 b committed {moved} -> committed {moved} 1/1
    finish 2 -> committed 2
    booked 0 -> newest 2 a=at:1 b=at:2 c=absent
    refs a 0 -> refs refs/tags/empty={empty}
    refs b 0 -> refs refs/tags/empty={one}
    health b down -> ok
    begin 0 -> refused ReadOnly 2 1
    health a up -> ok
    begin 0 -> refused ReadOnly 2 1
    holder 0 -> holder -
    booked 0 -> newest 2 a=at:1 b=at:2 c=absent
    health b up -> ok
    begin 0 -> begun 3 lease 4 gen 2 members b targets a";

#[test]
fn a_push_goes_to_the_assigned_storages_that_are_up_and_at_the_newest(
    rt: HostRuntime,
) -> Result<(), Fail> {
    play(rt.alloc(), &[TWO_OF_THREE, FACTOR_TWO, ONE_UP])
}

// A primary is kept, however its push ended, while it can be one.
const KEPT_PRIMARY: &str = "\
    health a down -> ok
    begin 0 -> begun 1 lease 2 gen 0 members b c targets a
    withdraw 1 b -> ok
    finish 1 -> noquorum
    health a up -> ok
    begin 0 -> begun 2 lease 3 gen 0 members b a c targets -
    withdraw 2 b -> ok
    finish 2 -> noquorum
    health b down -> ok
    begin 0 -> begun 3 lease 4 gen 0 members a c targets b
    withdraw 3 a -> ok
    finish 3 -> noquorum
    health b up -> ok
    begin 0 -> begun 4 lease 5 gen 0 members a b c targets -
    booked 0 -> newest 0 a=at:0 b=at:0 c=at:0";

// Nothing is decided without the primary.
const ALL_BUT_THE_PRIMARY: &str = "\
    cast 4 b prepared {vote} -> open
    cast 4 c prepared {vote} -> open
    booked 0 -> newest 0 a=at:0 b=at:0 c=at:0
    cast 4 a prepared {vote} -> committed {vote} 4/3
    booked 0 -> newest 1 a=doubt:5:0:1 b=doubt:5:0:1 c=doubt:5:0:1
    withdraw 4 a -> ok
    finish 4 -> unsure 1
    booked 0 -> newest 1 a=doubt:5:0:1 b=doubt:5:0:1 c=doubt:5:0:1
    begin 0 -> refused ReadOnly 1 0
    holder 0 -> holder -";

#[test]
fn a_primary_is_kept_and_has_a_say_in_each_decision(rt: HostRuntime) -> Result<(), Fail> {
    play(rt.alloc(), &[THREE, KEPT_PRIMARY, ALL_BUT_THE_PRIMARY])
}

// Pushes to two repositories, and the votes of a transaction that is none of a push.
const BESIDE_EACH_OTHER: &str = "\
    create default y.git 1 -> created 1 lease 1 assigned a
    make a 1 1 -> done
    enrol 1 a 1 -> ok
    open 1 1 a:1 -> tx 1
    begin 0 -> begun 2 lease 2 gen 0 members a b targets -
    begin 1 -> begun 3 lease 2 gen 0 members a targets -
    holder 0 -> holder 2
    holder 1 -> holder 3
    prepare 3 a {zero}:{one}:refs/tags/one with blob:6f6e650a -> vote {other}
    prepare 2 a {zero}:{empty}:refs/tags/empty with blob: -> vote {vote}
    cast 3 a prepared {other} -> committed {other} 1/1
    booked 0 -> newest 0 a=at:0 b=at:0
    booked 1 -> newest 1 a=doubt:2:0:1 b=absent
    collect 3 a 1 -> committed {other} 1/1
    commit 2 a -> refused NotOut
    commit 3 a -> vote {other}
    cast 3 a committed {other} -> committed {other} 1/1
    finish 3 -> committed 1
    booked 1 -> newest 1 a=at:1 b=absent
    refs a 1 -> refs refs/tags/one={one}
    refs a 0 -> refs
    holder 0 -> holder 2
    holder 1 -> holder -";

const NO_PUSH: &str = "\
    prepare 1 a {zero}:{empty}:refs/tags/empty with blob: -> refused NotOut
    abort 1 a -> refused NotOut
    refs a 0 -> refs
    finish 1 -> refused NotAPush
    outcome 1 1 -> open
    cast 1 a prepared {vote} -> committed {vote} 1/1
    collect 1 a 1 -> committed {vote} 1/1
    commit 1 a -> refused NotOut
    refs a 0 -> refs
    cast 1 a committed {vote} -> committed {vote} 1/1
    booked 0 -> newest 0 a=at:0 b=at:0
    finish 1 -> refused NotAPush
    outcome 1 2 -> commit {vote}
    close 2 -> refused IsPush
    outcome 2 1 -> open
    holder 0 -> holder 2
    close 1 -> ok
    finish 1 -> refused UnknownTx 1
    close 3 -> refused UnknownTx 3
    holder 0 -> holder 2";

#[test]
fn pushes_and_other_votes_go_beside_each_other(rt: HostRuntime) -> Result<(), Fail> {
    play(rt.alloc(), &[TWO, BOTH_MADE, BESIDE_EACH_OTHER, NO_PUSH])
}
