//! Creations of a repository that are made again.

use crate::pushes::TWO;
use crate::scripts::{play, with_each};
use std::test::Fail;

// While nothing is booked of a repository, its creation can be made again. What was issued before stays
// out, and a storage that is left out keeps its lease.
const MADE_AGAIN: &str = "\
    make b 0 1 -> done
    create default x.git 1 -> created 0 lease 2 assigned a";

const NOT_THE_LAST: &str = "\
    make b 0 2 -> refused NotOut
    enrol 0 b 1 -> refused NotMaking
    enrol 0 b 2 -> refused LeaseLost 1 2
    enrol 0 a 1 -> refused LeaseLost 2 1
    enrol 0 a 2 -> refused NotAcked";

const NOTHING_BOOKED: &str = "\
    refs b 0 -> refs
    booked 0 -> newest 0 a=absent b=absent";

const BOTH_LEASES: &str = "\
    make a 0 1 -> done
    enrol 0 a 1 -> refused LeaseLost 2 1
    enrol 0 a 2 -> refused NotAcked
    booked 0 -> newest 0 a=absent b=absent
    make a 0 2 -> done
    make a 0 1 -> refused Fenced 3
    make a 0 2 -> refused Fenced 3
    refs a 0 -> refs
    booked 0 -> newest 0 a=absent b=absent
    enrol 0 a 2 -> ok
    booked 0 -> newest 0 a=at:0 b=absent";

const BOOKED: &str = "\
    create default x.git 1 -> refused Exists 0
    create default x.git 3 -> refused Exists 0
    make a 0 2 -> refused Fenced 3
    enrol 0 a 1 -> refused LeaseLost 2 1
    enrol 0 a 2 -> ok";

// The push draws the lease behind the last one.
const PUSHED: &str = "begin 0 -> begun 1 lease 3 gen 0 members a targets -";

const LEASE_OF_THE_PUSH: &str = "\
    enrol 0 a 2 -> refused LeaseLost 3 2
    enrol 0 a 3 -> refused NotMaking
    make a 0 3 -> refused NotOut";

const AT_THE_FIRST: &str = "\
    refs a 0 -> refs
    booked 0 -> newest 0 a=at:0 b=absent";

#[test]
fn a_replica_is_booked_under_the_last_lease_it_was_made_by(rt: HostRuntime) -> Result<(), Fail> {
    let alloc = rt.alloc();
    let first = with_each(alloc, NOT_THE_LAST, NOTHING_BOOKED)?;
    let second = with_each(alloc, BOOKED, AT_THE_FIRST)?;
    let third = with_each(alloc, LEASE_OF_THE_PUSH, AT_THE_FIRST)?;
    let tables = [
        TWO,
        MADE_AGAIN,
        first.as_str(),
        BOTH_LEASES,
        second.as_str(),
        PUSHED,
        third.as_str(),
    ];
    play(alloc, &tables)
}
