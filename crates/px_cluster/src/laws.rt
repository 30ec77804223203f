//! What is true of every event and every run of the rules. A law is a function with nothing in it: what
//! it ensures is proved for all values.

ghost use Rattle.px_cluster.specs.Growth.{RunGrows, StepGrows};
ghost use Rattle.px_cluster.specs.OneRun.{RunIsOne, StepIsOne};
ghost use Rattle.px_cluster.specs.Refused.{RefusalChangesNothing};

/// In each state an event has one answer, and leads to one state.
pub fn an_event_has_one_answer()
    ensures { StepIsOne }
{}

/// So a list of events has one run from each state: one list of answers, and one last state.
pub fn a_list_of_events_has_one_run()
    ensures { RunIsOne }
{}

/// An event that is answered with a refusal leaves the core, the nodes and what was issued as they
/// were, a fence aside: a node raises it also where it refuses it.
pub fn a_refusal_changes_nothing()
    ensures { RefusalChangesNothing }
{}

/// A repository stays on record under its number, with its virtual storage and path, and its newest
/// generation and its last lease never fall; nor do the last numbers of transactions and of jobs. This
/// holds at each event, whatever is answered, and over every list of events, restarts among them.
pub fn newest_never_falls()
    ensures step { StepGrows }
    ensures run { RunGrows }
{}
