//! Each law is a function with nothing in it: what it ensures is proved for all values. It says
//! that what is asked, where nothing refuses it, is to each repository some events of that one
//! repository, or nothing.

ghost use Rattle.push_steps.specs.Steps.{BeginGoesOn, BookedGoesOn, CloseGoesOn, CollectGoesOn, FindGoesOn, FinishGoesOn, HealthGoesOn, HolderGoesOn, OpenGoesOn, OutcomeGoesOn, RestartGoesOn, RouteReadGoesOn};

/// A push begins: its members are assigned and at newest, and its lease was drawn for them.
pub fn begin_goes_on()
    ensures { BeginGoesOn }
{}

/// A member that asks for its result and is told to commit has the commit issued, of the hash that
/// was decided.
pub fn collect_goes_on()
    ensures { CollectGoesOn }
{}

/// A push ends, and gives back the turn.
pub fn finish_goes_on()
    ensures { FinishGoesOn }
{}

/// A transaction that is no push goes.
pub fn close_goes_on()
    ensures { CloseGoesOn }
{}

/// A transaction is opened, and is no push.
pub fn open_goes_on()
    ensures { OpenGoesOn }
{}

/// A restart, at which each repository that has a push loses it.
pub fn a_restart_goes_on()
    ensures { RestartGoesOn }
{}

/// A storage can be reached from now on, or cannot.
pub fn health_goes_on()
    ensures { HealthGoesOn }
{}

/// The outcome of a subtransaction is asked for.
pub fn outcome_goes_on()
    ensures { OutcomeGoesOn }
{}

/// A read is routed.
pub fn route_read_goes_on()
    ensures { RouteReadGoesOn }
{}

/// What is booked of a repository is asked for.
pub fn booked_goes_on()
    ensures { BookedGoesOn }
{}

/// The number of a repository is asked for.
pub fn find_goes_on()
    ensures { FindGoesOn }
{}

/// It is asked who has the turn of a repository.
pub fn holder_goes_on()
    ensures { HolderGoesOn }
{}
