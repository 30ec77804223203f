//! Each law is a function with nothing in it: what it ensures is proved for all values.

ghost use Rattle.book_steps.specs.Books.{AcceptBeginGoesOn, AcceptGoesOn, AdmitGoesOn, CreateGoesOn, EnrolGoesOn, SetFactorGoesOn, SettleBeginGoesOn, SettleGoesOn, SettledGoesOn};

/// A storage is admitted, whatever its node has of the paths of repositories.
pub fn an_admission_goes_on()
    ensures { AdmitGoesOn }
{}

/// A repository is created: it comes on record in the state that its creation leaves, or it is
/// created again where no replica of it is on record.
pub fn a_creation_goes_on()
    ensures { CreateGoesOn }
{}

/// A replica that was made is enrolled.
pub fn an_enrolment_goes_on()
    ensures { EnrolGoesOn }
{}

/// A new factor assigns other storages.
pub fn a_factor_is_set()
    ensures { SetFactorGoesOn }
{}

/// Before what a replica holds is accepted, a lease is drawn for a fence, and a job that runs for
/// the replica goes.
pub fn an_acceptance_begins()
    ensures { AcceptBeginGoesOn }
{}

/// So it does before a doubt is settled.
pub fn a_settling_begins()
    ensures { SettleBeginGoesOn }
{}

/// A doubt is settled by the last lease that the node answered to the fence.
pub fn a_replica_is_settled()
    ensures { SettleGoesOn }
{}

/// So it is by the answer that is kept, whatever that is; and where it is refused, nothing happens.
pub fn the_kept_answer_settles()
    ensures { SettledGoesOn }
{}

/// What a replica holds is accepted as the newest generation.
pub fn a_replica_is_accepted()
    ensures { AcceptGoesOn }
{}
