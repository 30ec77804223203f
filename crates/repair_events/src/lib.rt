//! Fencing, settling and accepting keep what is always so of a repository.
#![tactic(auto)]

mod laws;

pub use laws::{
    accept_keeps, fence_answer_keeps, fence_begin_keeps, fence_miss_keeps, settle_keeps,
};
