//! Each law is a function with nothing in it: what it ensures is proved for all values.

ghost use Rattle.safe_states.specs.Conditions.{ConfirmersAreInDoubt, JobsAreDecided, LateVotersAreAt, MembersAreAt, MembersAreNotFenced};
ghost use Rattle.safe_states.specs.Examples.{SomeAreSettledAndAccepted, SomePushEnds};
ghost use Rattle.safe_states.specs.Grows.{BookingsGrow, NothingFalls, RoutedReads};
ghost use Rattle.safe_states.specs.Happens.{EventKeeps, ReachedKeeps};
ghost use Rattle.safe_states.specs.Safe.{InvariantIsSafe, ReachedIsSafe};

/// Whatever happens to a repository keeps what is always so of it.
pub fn each_event_keeps_the_invariant()
    ensures { EventKeeps }
{}

/// So each state that creation and then any events lead to has it.
pub fn every_state_has_the_invariant()
    ensures { ReachedKeeps }
{}

/// A state that has it is safe: a replica that is booked at newest holds exactly that content and
/// no effect that is still out may change it; no other booking says more than the node holds; only
/// members of the open push are told to commit, and only the hash that was decided; and between the
/// decision and the first member that confirms, none is booked at newest.
pub fn the_invariant_is_safe()
    ensures { InvariantIsSafe }
{}

/// So each state that creation and then any events lead to is safe.
pub fn every_state_is_safe()
    ensures { ReachedIsSafe }
{}

/// No event lets newest or the last lease fall, nor what an entry of the log has, nor the greatest
/// generation that a replica was ever booked at; nor does any list of events.
pub fn nothing_falls()
    ensures { NothingFalls }
{}

/// So the generation of a booking never falls: that which a replica is booked at, or held before it came
/// in doubt. Nor does it over a time of absence.
pub fn a_booking_never_falls()
    ensures { BookingsGrow }
{}

/// A read that was routed is answered, however late, with the content of its generation or of a
/// later one; or the node holds nothing, and the replica is booked absent.
pub fn a_routed_read_is_answered()
    ensures { RoutedReads }
{}

/// Before a push is decided, its members are booked at newest.
pub fn members_are_at_newest()
    ensures { MembersAreAt }
{}

/// After it, a member that is not told is booked at the generation before.
pub fn late_voters_are_at_the_generation_before()
    ensures { LateVotersAreAt }
{}

/// A member that confirms is in doubt under the lease of the push.
pub fn who_confirms_is_in_doubt()
    ensures { ConfirmersAreInDoubt }
{}

/// The generation of a job is at most newest.
pub fn a_job_is_for_a_decided_generation()
    ensures { JobsAreDecided }
{}

/// The fence of a member is at most the lease that its push begins with.
pub fn a_member_takes_the_lease_of_its_push()
    ensures { MembersAreNotFenced }
{}

/// All this can be met: some push ends, and its storage holds what was pushed.
pub fn some_push_ends()
    ensures { SomePushEnds }
{}

/// And some replica in doubt is settled at the generation that was due, and accepted after that.
pub fn some_are_settled_and_accepted()
    ensures { SomeAreSettledAndAccepted }
{}
