//! What an operator does by hand: a replica in doubt is settled, and what one holds is accepted.

use crate::operations::{play_after, step};
use crate::steps::THREE;
use crate::words::{done, lease, replied, repository, storage, text};
use px_base::{Lease, RepoId, StorageId};
use px_core::Core;
use px_ops::{Op, Reply};
use std::alloc::Global;
use std::test::Fail;

// The lease that would be drawn.
fn next(alloc: Global, lease: Option<Lease>) -> Result<String, Fail> {
    match lease {
        Some(lease) => replied(alloc, &Reply::Leased(lease)),
        None => text(alloc, "-"),
    }
}

// What is asked under a lease.
fn under(
    alloc: Global,
    core: &mut Core,
    name: &str,
    repo: RepoId,
    storage: StorageId,
    lease: Lease,
    last: Option<Lease>,
) -> Result<String, Fail> {
    match name {
        "may_accept" => done(alloc, core.may_accept(repo, storage, lease)),
        "may_settle" => done(alloc, core.may_settle(repo, storage, lease)),
        "accept" => step(
            alloc,
            core,
            Op::Accept {
                repo,
                storage,
                lease,
            },
        ),
        _ => step(
            alloc,
            core,
            Op::Settle {
                repo,
                storage,
                lease,
                last,
            },
        ),
    }
}

/// What is done by hand, or asked before.
pub fn by_hand(alloc: Global, core: &mut Core, name: &str, words: &[&str]) -> Result<String, Fail> {
    let [repo, on, rest @ ..] = words else {
        return Err(Fail::new("no replica"));
    };
    let (repo, storage) = (repository(*repo)?, storage(*on)?);
    match (name, rest) {
        ("lease_to_accept", _) => next(alloc, core.lease_to_accept(repo, storage)),
        ("lease_to_settle", _) => next(alloc, core.lease_to_settle(repo, storage)),
        ("accept_begin", _) => step(alloc, core, Op::AcceptBegin { repo, storage }),
        ("settle_begin", _) => step(alloc, core, Op::SettleBegin { repo, storage }),
        (_, [fence]) => under(alloc, core, name, repo, storage, lease(*fence)?, None),
        (_, [fence, last]) => {
            let (fence, last) = (lease(*fence)?, Some(lease(*last)?));
            under(alloc, core, name, repo, storage, fence, last)
        }
        _ => Err(Fail::new("no such call")),
    }
}

// A storage committed what it was told to, and another one did not. What the third one holds is
// accepted.
const BY_HAND: &str = "\
    lease_to_accept 0 0 -> lease 2
    lease_to_settle 0 0 -> -
    begin 0 -> begun 1 lease 2 gen 0 members a b c targets -
    cast 1 a prepared 1 -> open in 1
    cast 1 b prepared 1 -> committed 1111111111111111111111111111111111111111 3/3 in 1
    lease_to_accept 0 2 -> -
    lease_to_settle 0 0 -> -
    cancel 1 -> ok
    finish 1 -> unsure 1
    booked 0 -> newest 1 a=doubt:2:0:1 b=doubt:2:0:1 c=at:0
    lease_to_settle 0 0 -> lease 3
    settle_begin 0 0 -> lease 3
    may_settle 0 0 3 -> ok
    settle 0 0 3 2 -> booked at:1
    settle_begin 0 1 -> lease 4
    settle 0 1 4 1 -> booked at:0
    booked 0 -> newest 1 a=at:1 b=at:0 c=at:0
    lease_to_accept 0 2 -> lease 5
    accept_begin 0 2 -> lease 5
    may_accept 0 2 5 -> ok
    accept 0 2 5 -> gen 2
    booked 0 -> newest 2 a=at:1 b=at:0 c=at:2
    begin 0 -> begun 2 lease 6 gen 2 members c targets a b
    cast 2 c prepared 2 -> committed 2222222222222222222222222222222222222222 1/1 in 1
    finish 2 -> refused StillOpen
    cancel 2 -> ok
    finish 2 -> unsure 3
    settle_begin 0 2 -> lease 7
    settle 0 2 7 -> booked at:2";

#[test]
fn replicas_are_settled_and_accepted(rt: HostRuntime) -> Result<(), Fail> {
    play_after(rt.alloc(), THREE, BY_HAND)
}

// Each refusal, and of two causes the first.
const REFUSED: &str = "\
    admit w d -> storage 3
    create v y.git 1 -> created 1 lease 1 assigned a
    accept_begin 2 9 -> refused UnknownRepo
    accept 2 9 9 -> refused UnknownRepo
    settle_begin 2 9 -> refused UnknownRepo
    settle 2 9 9 -> refused UnknownRepo
    may_accept 2 9 9 -> UnknownRepo
    may_settle 2 9 9 -> UnknownRepo
    begin 0 -> begun 1 lease 2 gen 0 members a b c targets -
    accept_begin 0 3 -> refused UnknownStorage d
    accept 0 3 9 -> refused UnknownStorage d
    settle_begin 0 9 -> refused UnknownStorage
    settle 0 9 9 -> refused UnknownStorage
    may_accept 0 3 9 -> UnknownStorage d
    may_settle 0 9 9 -> UnknownStorage
    accept_begin 0 0 -> refused Turn 1
    accept 0 0 9 -> refused Turn 1
    settle_begin 0 0 -> refused Turn 1
    settle 0 0 1 2 -> refused LeaseLost 2 1
    settle 0 0 2 2 -> refused NotInDoubt
    may_accept 0 0 9 -> Turn 1
    may_settle 0 0 1 -> LeaseLost 2 1
    may_settle 0 0 2 -> NotInDoubt
    cast 1 a prepared 1 -> open in 1
    cast 1 b prepared 1 -> committed 1111111111111111111111111111111111111111 3/3 in 1
    settle 0 0 1 -> refused LeaseLost 2 1
    settle 0 0 2 -> refused LeaseLost 2 2
    may_settle 0 0 2 -> LeaseLost 2 2
    cancel 1 -> ok
    finish 1 -> unsure 1
    settle_begin 0 2 -> refused NotInDoubt
    accept 0 0 3 -> refused LeaseLost 2 3
    may_accept 0 0 3 -> LeaseLost 2 3
    accept_begin 1 0 -> refused NotBooked
    accept 1 0 2 -> refused LeaseLost 1 2
    accept 1 0 1 -> refused NotBooked
    may_accept 1 0 1 -> NotBooked
    lease_to_accept 1 0 -> -";

#[test]
fn what_cannot_be_settled_or_accepted_is_refused(rt: HostRuntime) -> Result<(), Fail> {
    play_after(rt.alloc(), THREE, REFUSED)
}
