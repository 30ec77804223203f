//! Who is out of a subtransaction is canceled in each later one that is not stopped.

ghost use Rattle.std.specs.Prelude.{◌≡◌, ◌∷◌, false, length, map};
ghost use Rattle.std.specs.List.{AllByRecursion};
ghost use Rattle.txmanager.specs.Chain.{IsChain};
ghost use Rattle.txmanager.specs.Readings.{is_out_at};
ghost use Rattle.txmanager.specs.Rounds.{carried, carried_over, out_of, without, without_all};
ghost use Rattle.voters.specs.Results.{result_at, voted_in};

use voters::{Sub, VoterResult};

// The voter failed, was canceled or was stopped.
fn is_out(sub: &Sub, voter: u32) -> bool
    ensures { result ≡ is_out_at (result_at sub.now voter) }
{
    matches!(
        sub.result(voter),
        Some(VoterResult::Failed | VoterResult::Canceled | VoterResult::Stopped)
    )
}

// A cancel of a voter that has not voted, where the subtransaction is not stopped and has none.
fn take_out(sub: &mut Sub, voter: u32)
    requires { voted_in voter sub.old ≡ false }
    ensures { sub.new ≡ without voter sub.old }
{
    let _ = sub.cancel(voter);
}

// Cancels the voter in each of them that is not stopped.
fn take_out_of_each(later: &mut [Sub], voter: u32)
    requires { AllByRecursion (λ next. voted_in voter next ≡ false) later.old }
    ensures { later.new ≡ map (without voter) later.old }
{
    for next in later.iter_mut() {
        take_out(next, voter);
    }
}

// Who is out of the earlier one is canceled in each later one that is not stopped.
fn carry_into_each(earlier: &Sub, later: &mut [Sub])
    requires { IsChain (earlier.now ∷ later.old) }
    ensures { later.new ≡ map (without_all (out_of earlier.now)) later.old }
{
    for voter in 0..earlier.len() {
        if is_out(earlier, voter) {
            take_out_of_each(later, voter);
        }
    }
}

// From the first to the last.
fn carry_over(subs: &mut [Sub])
    requires { IsChain subs.old }
    ensures { subs.new ≡ carried_over (length subs.old) subs.old }
{
    if let Some((first, later)) = subs.split_first_mut() {
        carry_into_each(first, later);
        carry_over(later);
    }
}

/// Cancels who failed, was canceled or was stopped in a subtransaction in each later one that is
/// not stopped and has no cancel of it, from the first to the last. There are at most 16.
pub fn carry(subs: &mut Vec<Sub>)
    requires { IsChain subs.old.items }
    ensures { subs.new.items ≡ carried subs.old.items }
{
    carry_over(subs);
}
