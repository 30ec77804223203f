//! Each law is a function with nothing in it: what it ensures is proved for all values.

ghost use Rattle.vote_steps.specs.Steps.{CancelGoesOn, CastGoesOn, StopGoesOn, WithdrawalGoesOn};

/// A vote on a push decides, joins after the decision, confirms its storage or is one vote more in
/// the committed phase, or nothing is seen of it. Other repositories see nothing of it, and no
/// repository sees anything of a vote on a transaction that is no push.
pub fn a_cast_goes_on()
    ensures { CastGoesOn }
{}

/// A voter that is canceled in a transaction changes nothing that is seen of any repository.
pub fn a_withdrawal_goes_on()
    ensures { WithdrawalGoesOn }
{}

/// Nor does a transaction that is canceled.
pub fn a_cancel_goes_on()
    ensures { CancelGoesOn }
{}

/// Nor one that is stopped.
pub fn a_stop_goes_on()
    ensures { StopGoesOn }
{}
