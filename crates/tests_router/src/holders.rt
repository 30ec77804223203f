//! Who has the turn of a repository.

ghost use Rattle.std.specs.Prelude.{◌≡◌, ◌<◌, ◌+◌, IfOk, OnOk};
ghost use Rattle.std.specs.List.{All};
ghost use Rattle.px_cluster.specs.Core.{OpenPush as Recorded};

use crate::words::{lease, numbers, storages, text};
use px_base::{Gen, RepoId, TxId};
use std::alloc::Global;
use std::test::Fail;
use tests_tables::play;
use turns::{OpenPush, Turns};

/// All that is kept of a push: its transaction, its repository, its lease, the generation that it
/// began at, its members, and whether it was canceled and stopped.
pub fn shown(alloc: Global, push: Option<&OpenPush>) -> Result<String, Fail> {
    let Some(push) = push else {
        return text(alloc, "-");
    };
    let members = numbers(alloc, push.members())?;
    let (tx, repo, lease) = (push.tx().0, push.repo().0, push.lease().number());
    let (begun, canceled, stopped) = (push.begun().0, push.is_canceled(), push.is_stopped());
    Ok(format!(in alloc; "{tx} of {repo} {lease} {begun} by {members} {canceled} {stopped}")?)
}

fn answer(alloc: Global, turns: &mut Turns, name: &str, rest: &str) -> Result<String, Fail> {
    let number = rest.parse::<u32>()?;
    let tx = TxId(u64::from(number));
    match name {
        "turn" => return shown(alloc, turns.turn(RepoId(number))),
        "push" => return shown(alloc, turns.push(tx)),
        "end" => turns.end(tx),
        "cancel" => turns.cancel(tx),
        _ => turns.stop(tx),
    }
    text(alloc, "ok")
}

// The push of a transaction: its lease is 7, and it began at generation 4.
fn push(alloc: Global, tx: u32, repo: u32, members: &str) -> Result<OpenPush, Fail>
    ensures tx { IfOk result (λ push. push.tx.0 ≡ tx) }
    ensures repo { IfOk result (λ push. push.repo ≡ repo) }
{
    let (tx, repo, lease) = (TxId(u64::from(tx)), RepoId(repo), lease("7")?);
    let members = storages(alloc, members)?;
    Ok(OpenPush::new(tx, repo, lease, Gen(4), members))
}

// A push begins, where the turn is free. Its transaction is later than those of all others.
fn begin(alloc: Global, turns: &mut Turns, tx: u32, repo: u32, members: &str) -> Result<(), Fail>
    requires { All (λ (other : Recorded). other.tx.0 < tx) turns.old }
    ensures { OnOk result (All (λ (other : Recorded). other.tx.0 < tx + 1) turns.new) }
{
    if turns.turn(RepoId(repo)).is_some() {
        return Err(Fail::new("the turn is taken"));
    }
    Ok(turns.begin(push(alloc, tx, repo, members)?)?)
}

// Three pushes, the transactions of which are 1, 2 and 3.
fn three(alloc: Global) -> Result<Turns, Fail> {
    let mut turns = Turns::new(alloc);
    begin(alloc, &mut turns, 1, 5, "2,0,1")?;
    begin(alloc, &mut turns, 2, 0, "1")?;
    begin(alloc, &mut turns, 3, 2, "0..64")?;
    Ok(turns)
}

// A push is found by its transaction and by its repository until it ends. What is asked of one that
// is not open changes nothing.
const THREE: &str = "\
    turn 5 -> 1 of 5 7 4 by 2,0,1 false false
    turn 0 -> 2 of 0 7 4 by 1 false false
    turn 1 -> -
    push 1 -> 1 of 5 7 4 by 2,0,1 false false
    push 4 -> -
    cancel 4 -> ok
    stop 5 -> ok
    end 0 -> ok
    turn 5 -> 1 of 5 7 4 by 2,0,1 false false
    cancel 1 -> ok
    push 1 -> 1 of 5 7 4 by 2,0,1 true false
    stop 1 -> ok
    turn 5 -> 1 of 5 7 4 by 2,0,1 true true
    stop 2 -> ok
    turn 0 -> 2 of 0 7 4 by 1 false true
    end 1 -> ok
    turn 5 -> -
    push 1 -> -
    push 2 -> 2 of 0 7 4 by 1 false true
    end 1 -> ok
    turn 2 -> 3 of 2 7 4 by 0,1,2,3,4,5,6,7,8,9,10,11,12,13,14,15,16,17,18,19,20,21,22,23,24,25,26,\
        27,28,29,30,31,32,33,34,35,36,37,38,39,40,41,42,43,44,45,46,47,48,49,50,51,52,53,54,55,56,\
        57,58,59,60,61,62,63 false false";

#[test]
fn a_push_has_the_turn_until_it_ends(rt: HostRuntime) -> Result<(), Fail> {
    play(rt.alloc(), &mut three(rt.alloc())?, answer, THREE)
}

// Three hundred pushes, each on the repository of the number of its transaction.
fn many(alloc: Global) -> Result<Turns, Fail> {
    let mut turns = Turns::new(alloc);
    for number in 0u32..300 {
        begin(alloc, &mut turns, number, number, "0,1,2")?;
    }
    Ok(turns)
}

const MANY: &str = "\
    turn 0 -> 0 of 0 7 4 by 0,1,2 false false
    turn 299 -> 299 of 299 7 4 by 0,1,2 false false
    turn 300 -> -
    push 150 -> 150 of 150 7 4 by 0,1,2 false false
    end 150 -> ok
    turn 149 -> 149 of 149 7 4 by 0,1,2 false false
    turn 150 -> -
    cancel 151 -> ok
    turn 151 -> 151 of 151 7 4 by 0,1,2 true false
    turn 152 -> 152 of 152 7 4 by 0,1,2 false false";

#[test]
fn hundreds_of_pushes_have_their_turns(rt: HostRuntime) -> Result<(), Fail> {
    play(rt.alloc(), &mut many(rt.alloc())?, answer, MANY)
}
