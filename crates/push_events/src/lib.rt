//! Each event by which replicas come on record, and each event of a push, keeps what is always so
//! of a repository.
#![tactic(auto)]

mod laws;

pub use laws::{
    abort_keeps, admit_keeps, appear_keeps, assign_keeps, begin_keeps, commit_keeps, confirm_keeps,
    create_keeps, decide_keeps, enrol_keeps, finish_keeps, first_create_keeps, issue_keeps,
    join_keeps, lose_keeps, make_keeps, prepare_keeps, votes_keep,
};
