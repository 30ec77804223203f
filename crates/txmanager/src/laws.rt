//! What is true of every list of acts on a transaction. A law is a function with nothing in it: what
//! it ensures is proved for all values.

ghost use Rattle.std.specs.Prelude.{◌≡◌, ◌≢◌, ℕ, ◌<◌, ◌≤◌, ◌⊎◌, true, List, [], ◌++◌, length, map, slice_get, Some};
ghost use Rattle.px_base.specs.declared.hash.Hash.{Hash};
ghost use Rattle.px_base.specs.declared.ids.TxId.{TxId};
ghost use Rattle.txmanager.specs.Calls.{AreOfPanels, Call, IsCastOn, all_called, poll_in};
ghost use Rattle.txmanager.specs.Readings.{IsOutBefore, committed_at, is_canceled, is_out_at, outcome_in, stopped_back};
ghost use Rattle.txmanager.specs.Registry.{Registry, transaction_at, with_changed, with_registered, without_transaction};
ghost use Rattle.txmanager.specs.Rounds.{TxAct, after_act, after_acts, carried, current, opened, stopped};
ghost use Rattle.txmanager.specs.Runs.{AreAcceptedActs, IsByRule, IsCastAmong};
ghost use Rattle.txmanager.specs.Voting.{Voting};
ghost use Rattle.voters.specs.Marks.{standing_weight};
ghost use Rattle.voters.specs.Panel.{IsPanel};
ghost use Rattle.voters.specs.Results.{committed_in, result_at, voted_in};
ghost use Rattle.voters.specs.Rule.{IsPoll};
ghost use Rattle.voters.specs.Votes.{Poll, Votes, after};
ghost use Rattle.voters.specs.declared.act.Act.{Act};

use voters::Outcome;

/// Each subtransaction keeps at most one outcome: one that is not open is the same after every
/// longer list of acts.
pub fn each_subtransaction_keeps_its_outcome()
    ensures { (poll : Poll) (n i : ℕ) (acts more : List TxAct) (outcome : Outcome) → IsPoll poll
        → outcome ≢ Outcome.Open → outcome_in i (after_acts acts (opened poll n)) ≡ Some outcome
        → outcome_in i (after_acts (acts ++ more) (opened poll n)) ≡ Some outcome }
{}

/// A voter whose result is committed in a subtransaction is committed there after every longer list.
pub fn who_is_committed_stays_committed()
    ensures { (poll : Poll) (n i voter : ℕ) (acts more : List TxAct) → IsPoll poll
        → committed_at voter i (after_acts acts (opened poll n)) ≡ Some true
        → committed_at voter i (after_acts (acts ++ more) (opened poll n)) ≡ Some true }
{}

/// Where the outcome of a subtransaction is the commit of a hash, standing votes of threshold weight
/// name that hash, now and after every longer list of acts.
pub fn a_committed_hash_is_named_by_a_quorum()
    ensures { (poll : Poll) (n i : ℕ) (acts more : List TxAct) (hash : Hash) (sub : Votes)
        → IsPoll poll → outcome_in i (after_acts acts (opened poll n)) ≡ Some (Outcome.Commit hash)
        → slice_get (after_acts (acts ++ more) (opened poll n)) i ≡ Some sub
        → poll.threshold ≤ standing_weight hash sub.marks }
{}

/// A voter's current subtransaction never moves back.
pub fn the_current_one_never_moves_back()
    ensures { (poll : Poll) (n voter : ℕ) (acts more : List TxAct) → IsPoll poll
        → current voter (after_acts acts (opened poll n))
        ≤ current voter (after_acts (acts ++ more) (opened poll n)) }
{}

/// Whoever voted in a subtransaction is committed in each earlier one: the rounds are gone through
/// in their order.
pub fn who_votes_is_committed_in_each_earlier_one()
    ensures { (poll : Poll) (n i j voter : ℕ) (acts : List TxAct) (sub later : Votes)
        → IsPoll poll → i < j
        → slice_get (after_acts acts (opened poll n)) i ≡ Some sub
        → slice_get (after_acts acts (opened poll n)) j ≡ Some later
        → voted_in voter later ≡ true → committed_in voter sub ≡ true }
{}

/// After each act, a voter that failed, was canceled or was stopped in a subtransaction has a cancel
/// in each later one that is not stopped.
pub fn who_is_out_is_canceled_in_each_later_one()
    ensures { (poll : Poll) (n i j voter : ℕ) (acts : List TxAct) (act : TxAct)
        (sub later : Votes) → i < j
        → slice_get (after_act (after_acts acts (opened poll n)) act) i ≡ Some sub
        → slice_get (after_act (after_acts acts (opened poll n)) act) j ≡ Some later
        → is_out_at (result_at sub voter) ≡ true
        → (later.outcome ≡ Outcome.Stop)
        ⊎ (is_canceled (slice_get later.marks voter) ≡ true) }
{}

/// The carrying over after a cast leaves the current subtransaction of its voter as the cast leaves
/// it. So what the cast answers is what `collect` answers then.
pub fn the_carrying_over_leaves_the_current_one()
    ensures { (poll : Poll) (n voter : ℕ) (acts : List TxAct) (hash : Hash) (sub : Votes)
        → slice_get (after_acts acts (opened poll n))
        (current voter (after_acts acts (opened poll n))) ≡ Some sub
        → slice_get (after_act (after_acts acts (opened poll n)) (TxAct.Cast voter hash))
        (current voter (after_acts acts (opened poll n)))
        ≡ Some (after sub (Act.Cast voter hash)) }
{}

/// The carrying over cancels none but those that are out of an earlier subtransaction.
pub fn only_who_is_out_is_canceled()
    ensures { (subs : List Votes) (i voter : ℕ) (sub now : Votes) → slice_get subs i ≡ Some sub
        → slice_get (carried subs) i ≡ Some now → is_canceled (slice_get now.marks voter) ≡ true
        → (is_canceled (slice_get sub.marks voter) ≡ true) ⊎ IsOutBefore voter i (carried subs) }
{}

/// A stop of each open subtransaction is the same as one that goes from the last to the first.
pub fn a_stop_goes_from_the_last_to_the_first()
    ensures { (subs : List Votes) → map stopped subs ≡ stopped_back (length subs) subs }
{}

/// To register, change or close a transaction leaves each other one as it was.
pub fn other_transactions_stay()
    ensures registered { (registry : Registry) (tx other : TxId) (voting : Voting) → other ≢ tx
        → transaction_at (with_registered registry tx voting) other
        ≡ transaction_at registry other }
    ensures changed { (registry : Registry) (tx other : TxId) (becomes : Voting → Voting)
        → other ≢ tx → transaction_at (with_changed registry tx becomes) other
        ≡ transaction_at registry other }
    ensures closed { (registry : Registry) (tx other : TxId) → other ≢ tx
        → transaction_at (without_transaction registry tx) other ≡ transaction_at registry other }
{}

/// After every list of acts that are accepted, each subtransaction is one vote by the rule: a list of
/// calls on it alone leads to it from its start, each of which it accepts, and its outcome and
/// results are those that the rule says of their acts. Who casts among these calls cast by an act.
/// The others are cancels and stops: those of the acts, and those of the carrying over.
pub fn acts_come_to_votes_by_the_rule()
    ensures { (poll : Poll) (n i : ℕ) (acts : List TxAct) (sub : Votes) → IsPoll poll
        → AreAcceptedActs (opened poll n) acts
        → slice_get (after_acts acts (opened poll n)) i ≡ Some sub
        → IsByRule (IsCastAmong acts) poll sub }
{}

/// The same after every list of calls of the manager, refused or not, of each subtransaction of each
/// transaction that is registered then. It is voted by the panel that was registered.
pub fn calls_come_to_votes_by_the_rule()
    ensures { (calls : List Call) (tx : TxId) (voting : Voting) (i : ℕ) (sub : Votes)
        → AreOfPanels calls → transaction_at (all_called calls []) tx ≡ Some voting
        → slice_get voting.subs i ≡ Some sub
        → IsPanel voting.voters sub.threshold
        × IsByRule (IsCastOn calls tx voting.voters) (poll_in voting sub) sub }
{}
