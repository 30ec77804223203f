//! What is read of the core for what is told to nodes.

use crate::operations::{answer, play_after};
use crate::steps::THREE;
use px_core::Core;
use std::test::Fail;
use tests_tables::play;

// Two virtual storages, whose storages came in turn.
const PLACES: &str = "\
    storage_of a -> -
    admit v a -> storage 0
    admit w b -> storage 1
    admit v c -> storage 2
    storage_of a -> 0
    storage_of b -> 1
    storage_of c -> 2
    storage_of v -> -
    path_on 0 0 -> -
    creation u x.git 0 -> -
    creation v x.git 3 -> -
    creation v x.git 0 -> repo 0 lease 1 on 0,2
    creation_entry v x.git 0 -> newest 0 last 1 made 1 by - 0+1=absent 2+1=absent
    creation v x.git 1 -> repo 0 lease 1 on 0
    find v x.git -> refused UnknownRepo
    create v x.git 0 -> created 0 lease 1 assigned a c
    path_on 0 0 -> x.git
    path_on 0 1 -> -
    path_on 0 2 -> x.git
    path_on 0 3 -> -
    path_on 1 0 -> -
    creation v x.git 1 -> repo 0 lease 2 on 0
    creation_entry v x.git 1 -> newest 0 last 2 made 2 by - 0+2=absent 2-1=absent
    rows 0 -> newest 0 0+a:down=absent 2+c:down=absent
    may_enrol 1 9 9 -> UnknownRepo
    may_enrol 0 9 9 -> UnknownStorage
    may_enrol 0 1 9 -> UnknownStorage b
    may_enrol 0 0 2 -> LeaseLost 1 2
    may_enrol 0 0 1 -> ok
    booked 0 -> newest 0 a=absent c=absent
    enrol 0 0 1 -> ok
    may_enrol 0 0 1 -> ok
    creation v x.git 1 -> -
    creation w y.git 1 -> repo 1 lease 1 on 1
    create w y.git 1 -> created 1 lease 1 assigned b
    path_on 1 1 -> y.git
    path_on 1 0 -> -
    may_enrol 1 1 1 -> ok
    may_enrol 1 0 1 -> UnknownStorage a";

#[test]
fn places_and_creations_are_read(rt: HostRuntime) -> Result<(), Fail> {
    play(rt.alloc(), &mut Core::new(rt.alloc()), answer, PLACES)
}

// A push is worked out, which changes nothing, and then begins.
const PLAN: &str = "\
    plan 1 -> -
    plan 0 -> begun 1 lease 2 gen 0 members a b c targets -
    plan_push 0 -> 1 of 0 2 0 by 0,1,2 false false
    plan_panel 0 -> a:2 b:1 c:1 by 3
    plan_entry 0 -> newest 0 last 2 made 1 by 0 0+2=at:0 1+2=at:0 2+2=at:0
    holder 0 -> holder -
    push 1 -> -
    may_enrol 0 0 1 -> ok
    health 0 down -> ok
    plan 0 -> begun 1 lease 2 gen 0 members b c targets a
    plan_push 0 -> 1 of 0 2 0 by 1,2 false false
    plan_panel 0 -> b:1 c:1 by 2
    plan_entry 0 -> newest 0 last 2 made 1 by 1 0+1=at:0 1+2=at:0 2+2=at:0
    begin_as 0 -> begun 1 lease 2 gen 0 members b c targets a
    holder 0 -> holder 1
    push 1 -> 1 of 0 2 0 by 1,2 false false
    outcome 1 1 -> open
    may_enrol 0 0 1 -> ok
    may_enrol 0 1 1 -> LeaseLost 2 1
    may_enrol 0 1 2 -> NotMaking
    plan 0 -> -
    begin_as 0 -> -
    stop 1 -> ok
    push 1 -> 1 of 0 2 0 by 1,2 false true
    finish 1 -> stopped
    push 1 -> -
    health 0 up -> ok
    begin_as 0 -> begun 2 lease 3 gen 0 members b a c targets -
    member 2 b -> 1
    member 2 a -> 0
    member 2 c -> 2
    member 2 z -> -
    member 1 b -> -
    cast 2 b prepared 1 -> open in 1
    cast 2 a prepared 1 -> committed 1111111111111111111111111111111111111111 3/3 in 1
    cast 2 a committed 1 -> open in 2
    cast 2 b committed 1 -> committed 1111111111111111111111111111111111111111 3/3 in 2
    finish 2 -> committed 1
    plan_push 0 -> 3 of 0 4 1 by 1,0 false false
    plan_entry 0 -> newest 1 last 4 made 1 by 1 0+4=at:1 1+4=at:1 2+3=at:0
    health 0 down -> ok
    health 1 down -> ok
    plan 0 -> -
    begin 0 -> refused ReadOnly 1 2";

#[test]
fn a_push_is_worked_out_before_it_begins(rt: HostRuntime) -> Result<(), Fail> {
    play_after(rt.alloc(), THREE, PLAN)
}

// Why a vote would be refused is asked before it is cast, and nothing changes by it.
const CAUSES: &str = "\
    open 1 1 a:1 -> tx 1
    member 1 a -> -
    push 1 -> -
    begin 0 -> begun 2 lease 2 gen 0 members a b c targets -
    cast_refusal 2 z committed 1 -> NotAVoter z
    cast_refusal 2 a committed 1 -> WrongPhase prepared
    cast_refusal 2 a prepared 1 -> -
    outcome 2 1 -> open
    cast 2 a prepared 1 -> open in 1
    cast_refusal 2 a prepared 2 -> AlreadyVoted 1111111111111111111111111111111111111111
    cast_refusal 2 b prepared 1 -> -
    booked 0 -> newest 0 a=at:0 b=at:0 c=at:0
    cast 2 b prepared 1 -> committed 1111111111111111111111111111111111111111 3/3 in 1
    cast_refusal 2 b prepared 1 -> WrongPhase committed
    withdraw 2 c -> ok
    cast_refusal 2 c prepared 1 -> Canceled
    cast_refusal 2 a committed 1 -> -
    booked 0 -> newest 1 a=doubt:2:0:1 b=doubt:2:0:1 c=at:0
    cast 2 a committed 1 -> open in 2
    cast_refusal 2 a committed 1 -> AlreadyVoted 1111111111111111111111111111111111111111
    cast 2 b committed 1 -> committed 1111111111111111111111111111111111111111 3/3 in 2
    cast_refusal 2 a committed 1 -> Finished
    finish 2 -> committed 1
    begin 0 -> begun 3 lease 3 gen 1 members a b targets c
    cast_refusal 3 c prepared 1 -> NotAVoter c
    cast_refusal 3 b prepared 1 -> -
    stop 3 -> ok
    cast_refusal 3 b prepared 1 -> Stopped";

#[test]
fn the_refusal_of_a_vote_is_told_before_it_is_cast(rt: HostRuntime) -> Result<(), Fail> {
    play_after(rt.alloc(), THREE, CAUSES)
}
