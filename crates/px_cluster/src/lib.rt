//! The rules of the cluster: its core, its nodes, and what each event answers and leaves.
#![tactic(auto)]

mod laws;

pub use laws::{
    a_list_of_events_has_one_run, a_refusal_changes_nothing, an_event_has_one_answer,
    newest_never_falls,
};
