//! Each law is a function with nothing in it: what it ensures is proved for all values.

ghost use Rattle.replica_invariant.specs.Repairs.{AcceptKeeps, FenceAnswerKeeps, FenceBeginKeeps, FenceMissKeeps, SettleKeeps};

/// A lease that is drawn for fencing keeps the invariant.
pub fn fence_begin_keeps()
    ensures { FenceBeginKeeps }
{}

/// So does a fence that a node answers.
pub fn fence_answer_keeps()
    ensures { FenceAnswerKeeps }
{}

/// So does one of which no answer is kept.
pub fn fence_miss_keeps()
    ensures { FenceMissKeeps }
{}

/// So does the settling of a replica in doubt.
pub fn settle_keeps()
    ensures { SettleKeeps }
{}

/// So does the accepting of a replica.
pub fn accept_keeps()
    ensures { AcceptKeeps }
{}
