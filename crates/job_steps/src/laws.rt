//! Each law is a function with nothing in it: what it ensures is proved for all values.

ghost use Rattle.job_steps.specs.Jobs.{AckGoesOn, BeatGoesOn, DequeueGoesOn, ReconcileGoesOn, StaleGoesOn};

/// Where a worker asks for the next job of its storage, the repository of that job goes on: an
/// update or a delete is taken, or the job is dropped, as there is nothing to do any more. Each
/// other repository stays as it is.
pub fn a_dequeue_goes_on()
    ensures { DequeueGoesOn }
{}

/// So it goes on where a job ends. A good end of an update books its target, and needs the answer
/// of the target's node; that of a delete books nothing, and a bad end lets the job wait or gives
/// it up.
pub fn an_end_goes_on()
    ensures { AckGoesOn }
{}

/// A beat of a worker is nothing to any repository.
pub fn a_beat_goes_on()
    ensures { BeatGoesOn }
{}

/// Where workers are not heard of, the jobs that they run have a bad end, at any replicas of any
/// repositories.
pub fn stale_workers_go_on()
    ensures { StaleGoesOn }
{}

/// The plan of the reconciler gives jobs to any replicas of any repositories, each one that it may
/// have.
pub fn a_plan_goes_on()
    ensures { ReconcileGoesOn }
{}
